//! Records of virtual functions: each field at its offset, padding, short payloads, and how they are printed.

use crate::testing::{is_read, is_same, is_text, prints_as, too_few};
use link_vals::{VfLinkState, VlanProtocol};
use link_vfrec::*;
use std::process::Abort;

/// Three numbers.
const NUMBERS: &[u8] = &[
    0x01, 0x00, 0x00, 0x00, 0xff, 0x0f, 0x00, 0x00, 0x07, 0x00, 0x00, 0x80,
];

/// The first two of them.
const TWO_NUMBERS: &[u8] = &[0x01, 0x00, 0x00, 0x00, 0xff, 0x0f, 0x00, 0x00];

/// A number, padding that is not zero, and a long number.
const GUID: &[u8] = &[
    0x02, 0x00, 0x00, 0x00, 0xff, 0xff, 0xff, 0xff, 0x01, 0x00, 0x00, 0x00, 0x00, 0x00, 0x00, 0x00,
];

/// How a guid of these numbers is written.
const GUID_TEXT: &[u8] = &[
    0x02, 0x00, 0x00, 0x00, 0x00, 0x00, 0x00, 0x00, 0x01, 0x00, 0x00, 0x00, 0x00, 0x00, 0x00, 0x00,
];

/// Offsets of `struct ifla_vf_vlan`, `struct ifla_vf_rate`, `struct ifla_vf_tx_rate` and `struct ifla_vf_guid`,
/// linux/if_link.h.
#[test]
fn vlans_rates_and_guids_stand_at_their_offsets(rt: HostRuntime) {
    let vlan = VfInfoVlan::new(1, 4095, 0x8000_0007);
    is_read(&rt, VfInfoVlan::parse(NUMBERS), &vlan);
    is_text(&rt, VfInfoVlanBuffer::from(&vlan).as_bytes(), NUMBERS);
    let rate = VfInfoRate::new(1, 4095, 0x8000_0007);
    is_read(&rt, VfInfoRate::parse(NUMBERS), &rate);
    is_text(&rt, VfInfoRateBuffer::from(&rate).as_bytes(), NUMBERS);
    let rate = VfInfoTxRate::new(1, 4095);
    is_read(&rt, VfInfoTxRate::parse(NUMBERS), &rate);
    is_text(&rt, VfInfoTxRateBuffer::from(&rate).as_bytes(), TWO_NUMBERS);
    let guid = VfInfoGuid::new(2, 1);
    is_read(&rt, VfInfoGuid::parse(GUID), &guid);
    is_text(&rt, VfInfoGuidBuffer::from(&guid).as_bytes(), GUID_TEXT);
}

/// Offsets of `struct ifla_vf_mac`, linux/if_link.h.
#[test]
fn addresses_are_filled(rt: HostRuntime) {
    let mut text = [0; 36];
    text[..10].copy_from_slice(&[0x03, 0x00, 0x00, 0x00, 0x02, 0x00, 0x00, 0x00, 0x00, 0x09]);
    let mac = VfInfoMac::new(3, &[0x02, 0x00, 0x00, 0x00, 0x00, 0x09]);
    is_text(&rt, &mac.mac, &text[4..]);
    let mut bytes = [0; 36];
    mac.emit(&mut bytes);
    is_text(&rt, &bytes, &text);
    is_read(&rt, VfInfoMac::parse(&bytes), &mac);
}

/// `struct ifla_vf_broadcast`, linux/if_link.h.
#[test]
fn addresses_are_cut(rt: HostRuntime) {
    let broadcast = VfInfoBroadcast::new(&[255; 33]);
    is_text(&rt, &broadcast.addr, &[255; 32]);
    is_read(&rt, VfInfoBroadcast::parse(&[255; 40]), &broadcast);
    let buffer = VfInfoBroadcastBuffer::from(&broadcast);
    is_text(&rt, buffer.as_bytes(), &[255; 32]);
}

/// Settings, and whether they are on.
const SETTINGS: &[(&[u8], bool)] = &[
    (&[0x01, 0x00, 0x00, 0x00, 0x00, 0x00, 0x00, 0x00], false),
    (&[0x01, 0x00, 0x00, 0x00, 0x01, 0x00, 0x00, 0x00], true),
    (&[0x01, 0x00, 0x00, 0x00, 0x02, 0x00, 0x00, 0x00], true),
    (&[0x01, 0x00, 0x00, 0x00, 0xfe, 0xff, 0xff, 0xff], true),
    (&[0x01, 0x00, 0x00, 0x00, 0xff, 0xff, 0xff, 0xff], false),
];

/// The setting of `struct ifla_vf_trust` and its kind, linux/if_link.h: 0 and the number of all
/// bits are off.
#[test]
fn settings_are_on_or_off(rt: HostRuntime) {
    for (bytes, enabled) in SETTINGS {
        let check = VfInfoSpoofCheck::new(1, *enabled);
        is_read(&rt, VfInfoSpoofCheck::parse(bytes), &check);
        let query = VfInfoRssQueryEn::new(1, *enabled);
        is_read(&rt, VfInfoRssQueryEn::parse(bytes), &query);
        let trust = VfInfoTrust::new(1, *enabled);
        let text = [0x01, 0x00, 0x00, 0x00, u8::from(*enabled), 0x00, 0x00, 0x00];
        is_read(&rt, VfInfoTrust::parse(bytes), &trust);
        is_text(&rt, VfInfoTrustBuffer::from(&trust).as_bytes(), &text);
    }
}

/// States of a function's link, by the byte that says them.
const STATES: &[(u8, VfLinkState)] = &[
    (0, VfLinkState::Auto),
    (1, VfLinkState::Enable),
    (2, VfLinkState::Disable),
    (7, VfLinkState::Other(7)),
];

#[test]
fn states_go_through_their_table(rt: HostRuntime) {
    for (number, state) in STATES {
        let bytes = [0x04, 0x00, 0x00, 0x00, *number, 0x00, 0x00, 0x00];
        let link = VfInfoLinkState::new(4, *state);
        is_read(&rt, VfInfoLinkState::parse(&bytes), &link);
        is_text(&rt, VfInfoLinkStateBuffer::from(&link).as_bytes(), &bytes);
    }
}

#[test]
fn defaults(rt: HostRuntime) {
    let auto = VfInfoLinkState::new(0, VfLinkState::Auto);
    is_same(&rt, &VfInfoLinkState::default(), &auto);
    let zeros = VfVlanInfo::new(0, 0, 0, VlanProtocol::Ieee8021Q);
    is_same(&rt, &VfVlanInfo::default(), &zeros);
}

/// A vlan's record with two bytes of padding, what it means, and how it is written.
fn is_vlan(rt: &impl Abort, bytes: &[u8; 16], info: &VfVlanInfo, text: &[u8; 16]) {
    is_read(rt, VfVlanInfo::parse(bytes), info);
    let mut buffer = [9; 16];
    info.emit(&mut buffer);
    is_text(rt, &buffer, text);
}

/// The record of a vlan with these bytes of its protocol, and these two of padding.
fn vlan_with(protocol: &[u8; 2], padding: &[u8; 2]) -> [u8; 16] {
    [
        0x01,
        0x00,
        0x00,
        0x00,
        0x64,
        0x00,
        0x00,
        0x00,
        0x05,
        0x00,
        0x00,
        0x00,
        protocol[0],
        protocol[1],
        padding[0],
        padding[1],
    ]
}

/// What stands for a protocol, which it is, and how it is written.
const PROTOCOLS: &[([u8; 2], VlanProtocol, [u8; 2])] = &[
    ([0x88, 0xa8], VlanProtocol::Ieee8021Ad, [0x88, 0xa8]),
    ([0x81, 0x00], VlanProtocol::Ieee8021Q, [0x81, 0x00]),
    ([0xa8, 0x88], VlanProtocol::Ieee8021Q, [0x81, 0x00]),
];

/// `struct ifla_vf_vlan_info`, linux/if_link.h: the protocol has its highest byte first.
#[test]
fn protocols_are_in_network_order(rt: HostRuntime) {
    for (number, protocol, written) in PROTOCOLS {
        let bytes = vlan_with(number, &[0x12, 0x34]);
        let info = VfVlanInfo::new(1, 100, 5, *protocol);
        is_vlan(&rt, &bytes, &info, &vlan_with(written, &[0x00, 0x00]));
    }
}

/// The record of a vlan, with no padding in it.
const VLAN: [u8; 16] = [
    0x07, 0x00, 0x00, 0x00, 0x01, 0x02, 0x00, 0x00, 0x03, 0x00, 0x00, 0x00, 0x88, 0xa8, 0x00, 0x00,
];

/// The two bytes after the protocol are not read, and written as zeros.
#[test]
fn padding_of_a_vlan_is_not_read(rt: HostRuntime) {
    let info = VfVlanInfo::new(7, 513, 3, VlanProtocol::Ieee8021Ad);
    for (first, second) in [(0, 0), (1, 0), (0, 1), (255, 255)] {
        let mut bytes = VLAN;
        bytes[14] = first;
        bytes[15] = second;
        let read = VfVlanInfo::parse(&bytes).expect(&rt, "it is read");
        is_same(&rt, &read, &info);
        read.emit(&mut bytes);
        is_text(&rt, &bytes, &VLAN);
    }
}

#[test]
fn short_records_are_refused(rt: HostRuntime) {
    let zeros = [0; 35];
    too_few(&rt, VfInfoMac::parse(&zeros), 35, 36);
    too_few(&rt, VfInfoBroadcast::parse(&zeros[..31]), 31, 32);
    too_few(&rt, VfInfoVlan::parse(&zeros[..11]), 11, 12);
    too_few(&rt, VfInfoTxRate::parse(&zeros[..7]), 7, 8);
    too_few(&rt, VfInfoRate::parse(&zeros[..11]), 11, 12);
    too_few(&rt, VfInfoSpoofCheck::parse(&zeros[..7]), 7, 8);
    too_few(&rt, VfInfoRssQueryEn::parse(&zeros[..7]), 7, 8);
    too_few(&rt, VfInfoTrust::parse(&zeros[..7]), 7, 8);
    too_few(&rt, VfInfoLinkState::parse(&zeros[..7]), 7, 8);
    too_few(&rt, VfInfoGuid::parse(&zeros[..15]), 15, 16);
    too_few(&rt, VfVlanInfo::parse(&[]), 0, 16);
    too_few(&rt, VfInfoGuidBuffer::read_from_prefix(&zeros[..3]), 3, 16);
}

#[test]
fn buffers_keep_padding(rt: HostRuntime) {
    let (buffer, rest) = VfInfoGuidBuffer::read_from_prefix(&[255; 17]).expect(&rt, "memory");
    is_text(&rt, buffer.as_bytes(), &[255; 16]);
    is_text(&rt, rest, &[255]);
}

#[test]
fn records_are_printed_and_copied(rt: HostRuntime) {
    let trust = VfInfoTrust::new(1, true);
    is_same(&rt, &trust.clone().expect(&rt, "memory"), &trust);
    let text = "VfInfoTrust { vf_id: 1, enabled: true }";
    prints_as(&rt, rt.alloc(), &trust, text);
}
