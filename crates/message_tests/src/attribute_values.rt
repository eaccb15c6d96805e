//! Messages of one attribute that is no list: the value that is read, and its text.

use crate::rows::*;
use crate::testing::{holds, kept_of, list_of, read_message, text_of, value_of};
use expected::zeros_after;
use link_msg::*;
use std::alloc::Global;
use std::process::Abort;

/// An attribute that is written as it was read, as in `is_row`.
fn is_kept_row(
    rt: &impl Abort,
    alloc: Global,
    label: &str,
    attribute: &[u8],
    wanted: LinkAttribute,
) {
    is_attribute_row(rt, alloc, label, 0, attribute, wanted, attribute);
}

#[test]
fn names(rt: HostRuntime) {
    let alloc = rt.alloc();
    let text = [0x07, 0x00, 0x03, 0x00, 0x6c, 0x6f, 0x00, 0x00].as_slice();
    for (label, bytes) in [
        ("no NUL", [0x06, 0x00, 0x03, 0x00, 0x6c, 0x6f].as_slice()),
        ("no padding", &[0x07, 0x00, 0x03, 0x00, 0x6c, 0x6f, 0x00]),
        ("the text", text),
    ] {
        let name = LinkAttribute::IfName(text_of(&rt, alloc, "lo"));
        is_attribute_row(&rt, alloc, label, 0, bytes, name, text);
    }
}

/// What is written in other bytes than it was read from.
#[test]
fn numbers_in_their_own_spelling(rt: HostRuntime) {
    is_attribute_row(
        &rt,
        rt.alloc(),
        "IFLA_MTU with a flag",
        0,
        &[0x08, 0x00, 0x04, 0x80, 0xdc, 0x05, 0x00, 0x00],
        LinkAttribute::Mtu(1500),
        &[0x08, 0x00, 0x04, 0x00, 0xdc, 0x05, 0x00, 0x00],
    );
    is_attribute_row(
        &rt,
        rt.alloc(),
        "IFLA_NETNS_IMMUTABLE of 7",
        0,
        &[0x05, 0x00, 0x43, 0x00, 0x07, 0x00, 0x00, 0x00],
        LinkAttribute::NetnsImmutable(true),
        &[0x05, 0x00, 0x43, 0x00, 0x01, 0x00, 0x00, 0x00],
    );
    is_attribute_row(
        &rt,
        rt.alloc(),
        "IFLA_TAILROOM with both flags",
        0,
        &[0x06, 0x00, 0x45, 0xc0, 0x10, 0x00, 0x00, 0x00],
        LinkAttribute::Tailroom(16),
        &[0x06, 0x00, 0x45, 0x00, 0x10, 0x00, 0x00, 0x00],
    );
}

#[test]
fn numbers(rt: HostRuntime) {
    let alloc = rt.alloc();
    let (vf, skip) = (LinkExtentMask::Vf, LinkExtentMask::SkipStats);
    is_kept_row(
        &rt,
        alloc,
        "IFLA_EVENT",
        &[0x08, 0x00, 0x2c, 0x00, 0x05, 0x00, 0x00, 0x00],
        LinkAttribute::Event(LinkEvent::IgmpResend),
    );
    is_kept_row(
        &rt,
        alloc,
        "IFLA_OPERSTATE of 7",
        &[0x05, 0x00, 0x10, 0x00, 0x07, 0x00, 0x00, 0x00],
        LinkAttribute::OperState(State::Other(7)),
    );
    is_kept_row(
        &rt,
        alloc,
        "IFLA_EXT_MASK with a flag that is not listed",
        &[0x08, 0x00, 0x1d, 0x00, 0x09, 0x01, 0x00, 0x00],
        LinkAttribute::ExtMask(list_of(&rt, alloc, [vf, skip, LinkExtentMask::Other(256)])),
    );
    is_kept_row(
        &rt,
        alloc,
        "IFLA_EXT_MASK of 0",
        &[0x08, 0x00, 0x1d, 0x00, 0x00, 0x00, 0x00, 0x00],
        LinkAttribute::ExtMask(list_of(&rt, alloc, [])),
    );
    is_kept_row(
        &rt,
        alloc,
        "IFLA_HEADROOM",
        &[0x06, 0x00, 0x44, 0x00, 0x20, 0x00, 0x00, 0x00],
        LinkAttribute::Headroom(32),
    );
}

#[test]
fn kept_attributes(rt: HostRuntime) {
    let alloc = rt.alloc();
    is_kept_row(
        &rt,
        alloc,
        "a number that is not listed",
        &[0x06, 0x00, 0x2a, 0xc0, 0xde, 0xad, 0x00, 0x00],
        LinkAttribute::Other(kept_of(&rt, alloc, 0xc02a, &[0xde, 0xad])),
    );
    is_kept_row(
        &rt,
        alloc,
        "IFLA_HEADROOM of 4 bytes",
        &[0x08, 0x00, 0x44, 0x80, 0x20, 0x00, 0x00, 0x00],
        LinkAttribute::Other(kept_of(&rt, alloc, 0x8044, &[0x20, 0x00, 0x00, 0x00])),
    );
    is_kept_row(
        &rt,
        alloc,
        "IFLA_HEADROOM of no bytes",
        &[0x04, 0x00, 0x44, 0x00],
        LinkAttribute::Other(kept_of(&rt, alloc, 68, &[])),
    );
}

/// A headroom that was made by hand as an attribute that is kept.
#[test]
fn a_kept_headroom(rt: HostRuntime) {
    let alloc = rt.alloc();
    let nla = kept_of(&rt, alloc, 68, &[0x20, 0x00]);
    let made = message_of(&rt, alloc, [LinkAttribute::Other(nla)]);
    let text = with_header(
        &rt,
        alloc,
        0,
        &[0x06, 0x00, 0x44, 0x00, 0x20, 0x00, 0x00, 0x00],
    );
    is_written(&rt, alloc, "made by hand", &made, text.as_slice());
    let read = message_of(&rt, alloc, [LinkAttribute::Headroom(32)]);
    is_read(&rt, alloc, "its text", text.as_slice(), &read);
}

#[test]
fn wireless_events(rt: HostRuntime) {
    let alloc = rt.alloc();
    let request = WirelessEvent::AssociateRequest(value_of(&rt, alloc, &[0xaa]));
    let other = [0x08, 0x00, 0x01, 0x8b, 0x00, 0x00, 0x00, 0x00];
    let other = WirelessEvent::Other(value_of(&rt, alloc, &other));
    is_attribute_row(
        &rt,
        alloc,
        "a request to associate",
        0,
        &[
            0x0d, 0x00, 0x0b, 0x00, 0xff, 0xff, 0x07, 0x8c, 0x01, 0x02, 0x03, 0x04, 0xaa, 0x00,
            0x00, 0x00,
        ],
        LinkAttribute::Wireless(request),
        &[
            0x0d, 0x00, 0x0b, 0x00, 0x09, 0x00, 0x07, 0x8c, 0x00, 0x00, 0x00, 0x00, 0xaa, 0x00,
            0x00, 0x00,
        ],
    );
    is_kept_row(
        &rt,
        alloc,
        "another event",
        &[
            0x0c, 0x00, 0x0b, 0x00, 0x08, 0x00, 0x01, 0x8b, 0x00, 0x00, 0x00, 0x00,
        ],
        LinkAttribute::Wireless(other),
    );
}

/// A record is written whole, and what it was read from was shorter.
#[test]
fn short_records(rt: HostRuntime) {
    let stats = Stats {
        rx_packets: 0x30201,
        ..Stats::default()
    };
    let stats64 = Stats64 {
        rx_packets: 5,
        ..Stats64::default()
    };
    let none: [u8; 100] = zeros_after(&[0x64, 0x00, 0x07, 0x00]);
    let some: [u8; 100] = zeros_after(&[0x64, 0x00, 0x07, 0x00, 0x01, 0x02, 0x03]);
    let long: [u8; 204] = zeros_after(&[0xcc, 0x00, 0x17, 0x00, 0x05]);
    is_attribute_row(
        &rt,
        rt.alloc(),
        "IFLA_STATS of no bytes",
        0,
        &[0x04, 0x00, 0x07, 0x00],
        LinkAttribute::Stats(Stats::default()),
        &none,
    );
    is_attribute_row(
        &rt,
        rt.alloc(),
        "IFLA_STATS of 3 bytes",
        0,
        &[0x07, 0x00, 0x07, 0x00, 0x01, 0x02, 0x03, 0x00],
        LinkAttribute::Stats(stats),
        &some,
    );
    is_attribute_row(
        &rt,
        rt.alloc(),
        "IFLA_STATS64 of 8 bytes",
        0,
        &[
            0x0c, 0x00, 0x17, 0x00, 0x05, 0x00, 0x00, 0x00, 0x00, 0x00, 0x00, 0x00,
        ],
        LinkAttribute::Stats64(stats64),
        &long,
    );
}

/// A map has 32 bytes, the last four of which are not read; after them stand 33 and padding.
#[test]
fn a_long_map(rt: HostRuntime) {
    let map = Map {
        memory_start: u64::MAX,
        memory_end: u64::MAX,
        base_address: u64::MAX,
        irq: 0xffff,
        dma: 0xff,
        port: 0xff,
    };
    let mut bytes = [0xff; 40];
    bytes[..4].copy_from_slice(&[0x25, 0x00, 0x0e, 0x00]);
    let mut text = [0xff; 36];
    text[..4].copy_from_slice(&[0x24, 0x00, 0x0e, 0x00]);
    text[32..].copy_from_slice(&[0; 4]);
    let map = LinkAttribute::Map(map);
    is_attribute_row(
        &rt,
        rt.alloc(),
        "IFLA_MAP of 33 bytes",
        0,
        &bytes,
        map,
        &text,
    );
}

#[test]
fn a_long_id(rt: HostRuntime) {
    let id = LinkPhysId {
        id: [7; 32],
        len: 32,
    };
    let mut bytes = [7; 40];
    bytes[..4].copy_from_slice(&[0x25, 0x00, 0x22, 0x00]);
    bytes[36..].copy_from_slice(&[0x09, 0x01, 0x02, 0x03]);
    let mut text = [7; 36];
    text[..4].copy_from_slice(&[0x24, 0x00, 0x22, 0x00]);
    let id = LinkAttribute::PhysPortId(id);
    is_attribute_row(
        &rt,
        rt.alloc(),
        "IFLA_PHYS_PORT_ID of 33 bytes",
        0,
        &bytes,
        id,
        &text,
    );
}

/// A sum of four bytes and one more, and an id of 33 bytes, both made by hand.
#[test]
fn what_does_not_fit(rt: HostRuntime) {
    let alloc = rt.alloc();
    let flags = [LinkExtentMask::Other(4294967295), LinkExtentMask::Vf];
    let id = LinkPhysId {
        id: [7; 32],
        len: 33,
    };
    let mask = LinkAttribute::ExtMask(list_of(&rt, alloc, flags));
    for (label, attribute) in [
        ("IFLA_EXT_MASK", mask),
        ("IFLA_PHYS_PORT_ID", LinkAttribute::PhysPortId(id)),
    ] {
        holds(&rt, label, !attribute.fits());
        holds(&rt, label, !message_of(&rt, alloc, [attribute]).fits());
    }
}

/// The state that a message of this attribute alone says.
fn state_of(message: &LinkMessage) -> Option<State> {
    match message.attributes.as_slice() {
        [LinkAttribute::OperState(state)] => Some(*state),
        _ => None,
    }
}

#[test]
fn an_unlisted_state_is_printed_as_its_number(rt: HostRuntime) {
    let alloc = rt.alloc();
    let bytes = with_header(
        &rt,
        alloc,
        0,
        &[0x05, 0x00, 0x10, 0x00, 0x07, 0x00, 0x00, 0x00],
    );
    let read = read_message(&rt, alloc, bytes.as_slice());
    let state = state_of(&read).expect(&rt, "it is the attribute");
    let text = format!(in alloc; "{state}").expect(&rt, "memory");
    assert!(rt; text.as_str() == "7");
}
