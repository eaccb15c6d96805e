//! The numbers that lead to a fault.

use crate::rows::with_header;
use crate::testing::{holds, is_same};
use link_msg::*;
use std::alloc::Global;
use std::process::Abort;

/// The same, and the numbers that lead to the fault.
type PathRow<'a> = (&'a str, u8, &'a [u8], usize, &'a [u16]);

/// A counter of one byte after one that is read: of a virtual function's counters.
const COUNTER: [u8; 29] = [
    0x1d, 0x00, 0x16, 0x00, 0x19, 0x00, 0x01, 0x00, 0x15, 0x00, 0x08, 0x00, 0x0c, 0x00, 0x00, 0x00,
    0x01, 0x02, 0x03, 0x04, 0x05, 0x06, 0x07, 0x08, 0x05, 0x00, 0x01, 0x00, 0x09,
];

/// The path to the fault of a message; for the proof: what the call promises stays here.
fn fault_path(bytes: &[u8]) -> Option<FaultPath> {
    LinkMessage::fault_path(bytes)
}

/// These numbers lead to the fault of each of these attributes.
fn are_led_to(rt: &impl Abort, alloc: Global, rows: &[PathRow<'_>]) {
    for (label, family, attributes, at, numbers) in rows {
        let bytes = with_header(rt, alloc, *family, attributes);
        let Some(path) = fault_path(bytes.as_slice()) else {
            panic!(rt; "{label}: the fault is not found");
        };
        holds(rt, label, *at < 100);
        is_same(rt, label, &path.offset, &(16 + *at));
        holds(rt, label, path.numbers() == *numbers);
    }
}

/// The rows of `numbers_lead_there`.
const NUMBERS_LEAD_THERE: &[PathRow<'static>] = &[
    ("a length of 3", 0, &[0x03, 0x00, 0x03, 0x00], 0, &[]),
    (
        "IFLA_MTU of 2 bytes",
        0,
        &[0x06, 0x00, 0x04, 0xc0, 0xdc, 0x05, 0x00, 0x00],
        0,
        &[4],
    ),
    (
        "IFLA_ALT_IFNAME that is no UTF-8",
        0,
        &[0x09, 0x00, 0x34, 0x00, 0x05, 0x00, 0x35, 0x00, 0xff],
        4,
        &[0x34, 0x35],
    ),
    (
        "a stray byte in IFLA_PROP_LIST",
        0,
        &[0x09, 0x00, 0x34, 0x00, 0x04, 0x00, 0x63, 0x00, 0x01],
        8,
        &[52],
    ),
    (
        "a counter of a byte",
        0,
        &COUNTER,
        24,
        &[0x16, 0x01, 0x08, 0x01],
    ),
    (
        "IFLA_VF_INFO of no bytes",
        0,
        &[0x08, 0x00, 0x16, 0x00, 0x04, 0x00, 0x01, 0x80],
        4,
        &[0x16, 0x01],
    ),
    (
        "a stray byte in IFLA_VF_PORT",
        0,
        &[0x09, 0x00, 0x18, 0x00, 0x05, 0x00, 0x01, 0x00, 0x09],
        8,
        &[0x18, 0x01],
    ),
    (
        "a stray byte in IFLA_AF_SPEC of AF_BRIDGE",
        7,
        &[0x09, 0x00, 0x1a, 0x00, 0x04, 0x00, 0x01, 0x00, 0x09],
        8,
        &[26],
    ),
    (
        "IFLA_MCTP_NET of a byte",
        0,
        &[
            0x0d, 0x00, 0x1a, 0x00, 0x09, 0x00, 0x2d, 0x00, 0x05, 0x00, 0x01, 0x00, 0x09,
        ],
        8,
        &[0x1a, 0x2d, 0x01],
    ),
];

#[test]
fn numbers_lead_there(rt: HostRuntime) {
    are_led_to(&rt, rt.alloc(), NUMBERS_LEAD_THERE);
}

#[test]
fn no_number_leads_to_a_header(rt: HostRuntime) {
    let path = fault_path(&[0; 15]).expect(&rt, "the header is short");
    assert!(rt; path.offset == 0 && path.numbers().is_empty());
    assert!(rt; fault_path(&[0; 16]).is_none());
}
