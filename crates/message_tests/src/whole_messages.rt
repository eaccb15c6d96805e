//! Messages whose header says something, or with several attributes, and the calls that take a longer buffer.

use crate::rows::*;
use crate::testing::{holds, kept_of, list_of, read_message, text_of};
use expected::{GROWTH, equal, is_stored};
use link_msg::laws::law_room;
use link_msg::*;
use std::alloc::Global;
use std::process::Abort;

#[test]
fn headers(rt: HostRuntime) {
    let alloc = rt.alloc();
    let zeros = [0; 16];
    is_row(
        &rt,
        alloc,
        "zeros",
        &zeros,
        &LinkMessage::new(alloc),
        &zeros,
    );
    is_row(
        &rt,
        alloc,
        "no attributes",
        &zeros,
        &message_of(&rt, alloc, []),
        &zeros,
    );
    let mut void = LinkMessage::new(alloc);
    void.header.link_layer_type = LinkLayerType::Void;
    let bytes = [
        0x00, 0xff, 0x61, 0x1e, 0x00, 0x00, 0x00, 0x00, 0x00, 0x00, 0x00, 0x00, 0x00, 0x00, 0x00,
        0x00,
    ];
    let text = [
        0x00, 0x00, 0xff, 0xff, 0x00, 0x00, 0x00, 0x00, 0x00, 0x00, 0x00, 0x00, 0x00, 0x00, 0x00,
        0x00,
    ];
    is_row(&rt, alloc, "an unknown layer type", &bytes, &void, &text);
}

#[test]
fn a_mask_and_a_name(rt: HostRuntime) {
    let alloc = rt.alloc();
    let mask = list_of(&rt, alloc, [LinkExtentMask::Vf, LinkExtentMask::SkipStats]);
    let mask = LinkAttribute::ExtMask(mask);
    let name = LinkAttribute::IfName(text_of(&rt, alloc, "lo"));
    let message = message_of(&rt, alloc, [mask, name]);
    let attributes = [
        0x08, 0x00, 0x1d, 0x00, 0x09, 0x00, 0x00, 0x00, 0x07, 0x00, 0x03, 0x00, 0x6c, 0x6f, 0x00,
        0x00,
    ];
    let bytes = with_header(&rt, alloc, 0, &attributes);
    let bytes = bytes.as_slice();
    is_row(&rt, alloc, "a mask and a name", bytes, &message, bytes);
}

/// A wireless card with two more names.
#[test]
fn names_of_a_card(rt: HostRuntime) {
    let alloc = rt.alloc();
    let bytes = [
        0x00, 0x00, 0x01, 0x00, 0x02, 0x00, 0x00, 0x00, 0x43, 0x10, 0x01, 0x00, 0x00, 0x00, 0x00,
        0x00, 0x20, 0x00, 0x34, 0x80, 0x0e, 0x00, 0x35, 0x00, 0x77, 0x6c, 0x70, 0x30, 0x73, 0x32,
        0x30, 0x66, 0x33, 0x00, 0x00, 0x00, 0x09, 0x00, 0x35, 0x00, 0x77, 0x69, 0x66, 0x69, 0x00,
        0x00, 0x00, 0x00,
    ];
    let first = Prop::AltIfName(text_of(&rt, alloc, "wlp0s20f3"));
    let second = Prop::AltIfName(text_of(&rt, alloc, "wifi"));
    let names = LinkAttribute::PropList(list_of(&rt, alloc, [first, second]));
    let message = LinkMessage {
        header: LinkHeader {
            interface_family: AddressFamily::Unspec,
            index: 2,
            link_layer_type: LinkLayerType::Ether,
            flags: LinkFlags::from_bits_retain(0x11043),
            change_mask: LinkFlags::empty(),
        },
        attributes: list_of(&rt, alloc, [names]),
    };
    is_row(&rt, alloc, "names of a card", &bytes, &message, &bytes);
    let flags = read_message(&rt, alloc, &bytes).header.flags;
    let text = format!(in alloc; "{flags}").expect(&rt, "memory");
    assert!(rt; text.as_str() == "Up | Broadcast | Running | Multicast | LowerUp");
}

/// The header of a link that has no layer type.
fn layerless(index: u32, flags: u32) -> LinkHeader {
    LinkHeader {
        index,
        link_layer_type: LinkLayerType::None,
        flags: LinkFlags::from_bits_retain(flags),
        ..LinkHeader::default()
    }
}

#[test]
fn a_tunnel_of_sessions(rt: HostRuntime) {
    let alloc = rt.alloc();
    let bytes = [
        0x00, 0x00, 0xfe, 0xff, 0x10, 0x00, 0x00, 0x00, 0x90, 0x10, 0x00, 0x00, 0x00, 0x00, 0x00,
        0x00, 0x0a, 0x00, 0x03, 0x00, 0x70, 0x66, 0x63, 0x70, 0x30, 0x00, 0x00, 0x00, 0x10, 0x00,
        0x12, 0x00, 0x09, 0x00, 0x01, 0x00, 0x70, 0x66, 0x63, 0x70, 0x00, 0x00, 0x00, 0x00,
    ];
    let kind = LinkInfo::Kind(text_of(&rt, alloc, "pfcp"));
    let message = LinkMessage {
        header: layerless(16, 0x1090),
        attributes: list_of(
            &rt,
            alloc,
            [
                LinkAttribute::IfName(text_of(&rt, alloc, "pfcp0")),
                LinkAttribute::LinkInfo(list_of(&rt, alloc, [kind])),
            ],
        ),
    };
    is_row(&rt, alloc, "a tunnel of sessions", &bytes, &message, &bytes);
}

#[test]
fn a_tunnel_of_packets(rt: HostRuntime) {
    let alloc = rt.alloc();
    let bytes = [
        0x00, 0x00, 0xfe, 0xff, 0x28, 0x00, 0x00, 0x00, 0xc1, 0x00, 0x01, 0x00, 0x00, 0x00, 0x00,
        0x00, 0x24, 0x00, 0x12, 0x00, 0x09, 0x00, 0x01, 0x00, 0x78, 0x66, 0x72, 0x6d, 0x00, 0x00,
        0x00, 0x00, 0x14, 0x00, 0x02, 0x00, 0x08, 0x00, 0x01, 0x00, 0x02, 0x00, 0x00, 0x00, 0x08,
        0x00, 0x02, 0x00, 0x0a, 0x00, 0x00, 0x00,
    ];
    let kind = LinkInfo::Kind(text_of(&rt, alloc, "xfrm"));
    let data = LinkInfo::Other(kept_of(&rt, alloc, 2, &bytes[36..]));
    let message = LinkMessage {
        header: layerless(40, 0x100c1),
        attributes: list_of(
            &rt,
            alloc,
            [LinkAttribute::LinkInfo(list_of(&rt, alloc, [kind, data]))],
        ),
    };
    is_row(&rt, alloc, "a tunnel of packets", &bytes, &message, &bytes);
}

/// The message of a name.
fn named(rt: &impl Abort, alloc: Global) -> LinkMessage {
    message_of(rt, alloc, [LinkAttribute::IfName(text_of(rt, alloc, "lo"))])
}

/// The message of `NAME` is written at the end of a buffer of 40 bytes and of 24.
fn is_at_the_end(rt: &impl Abort, label: &str, message: &LinkMessage) {
    holds(rt, label, message.fits());
    holds(rt, label, message.buffer_len() == 24);
    let mut buffer = [255; 40];
    holds(rt, label, message.fill(&mut buffer) == 16);
    holds(rt, label, buffer.starts_with(&[255; 16]));
    holds(rt, label, buffer.ends_with(&NAME_TEXT));
    let mut buffer = [255; 24];
    holds(rt, label, message.fill(&mut buffer) == 0);
    holds(rt, label, equal(&buffer, &NAME_TEXT));
}

#[test]
fn a_name_at_the_end(rt: HostRuntime) {
    is_at_the_end(&rt, "read", &read_message(&rt, rt.alloc(), &NAME));
    is_at_the_end(&rt, "made", &named(&rt, rt.alloc()));
}

/// A header of zeros, and a vlan that is four levels deep.
const VLAN: [u8; 48] = [
    0x00, 0x00, 0x00, 0x00, 0x00, 0x00, 0x00, 0x00, 0x00, 0x00, 0x00, 0x00, 0x00, 0x00, 0x00, 0x00,
    0x20, 0x00, 0x16, 0x00, 0x1c, 0x00, 0x01, 0x00, 0x18, 0x00, 0x0c, 0x00, 0x14, 0x00, 0x01, 0x00,
    0x01, 0x00, 0x00, 0x00, 0x64, 0x00, 0x00, 0x00, 0x00, 0x00, 0x00, 0x00, 0x88, 0xa8, 0x12, 0x34,
];

/// Two bytes of a buffer that are kept, and the text of `VLAN`.
const VLAN_AT_THE_END: [u8; 50] = [
    0xff, 0xff, 0x00, 0x00, 0x00, 0x00, 0x00, 0x00, 0x00, 0x00, 0x00, 0x00, 0x00, 0x00, 0x00, 0x00,
    0x00, 0x00, 0x20, 0x00, 0x16, 0x00, 0x1c, 0x00, 0x01, 0x00, 0x18, 0x00, 0x0c, 0x00, 0x14, 0x00,
    0x01, 0x00, 0x01, 0x00, 0x00, 0x00, 0x64, 0x00, 0x00, 0x00, 0x00, 0x00, 0x00, 0x00, 0x88, 0xa8,
    0x00, 0x00,
];

/// A message of four levels at the end of a buffer of 50 bytes.
#[test]
fn a_vlan_at_the_end(rt: HostRuntime) {
    let message = read_message(&rt, rt.alloc(), &VLAN);
    assert!(rt; message.fits());
    assert!(rt; message.buffer_len() == 48);
    let mut buffer = [255; 50];
    assert!(rt; message.fill(&mut buffer) == 2);
    assert!(rt; equal(&buffer, &VLAN_AT_THE_END));
}

#[test]
fn nothing_at_the_end(rt: HostRuntime) {
    let none: [LinkAttribute; 0] = [];
    let mut buffer = [7; 3];
    assert!(rt; nlas_fit(&none));
    assert!(rt; nlas_buffer_len(&none) == 0);
    assert!(rt; nlas_fill(&none, &mut buffer) == 3);
    assert!(rt; are_all(&buffer, 7));
}

#[test]
fn texts_in_a_long_buffer(rt: HostRuntime) {
    let mut out = [255; 2000];
    assert!(rt; 22 * GROWTH <= 2000);
    let short = no_message(Cause::TooShort { got: 15, need: 16 });
    law_room(&[0; 15]);
    is_refused_so(&rt, "15 bytes", canonical_into(&[0; 15], &mut out), short);
    assert!(rt; are_all(&out, 255));
    law_room(&NAME);
    assert!(rt; canonical_into(&NAME, &mut out) == Ok(24));
    assert!(rt; is_stored(24, &out, &NAME_TEXT));
}
