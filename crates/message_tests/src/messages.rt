//! Which bytes mean the same message.

use crate::rows::{NAME, NAME_TEXT, is_refused_so, no_message, with_header};
use crate::testing::{are_same, holds};
use link_msg::*;
use std::alloc::Global;
use std::process::Abort;

#[test]
fn spellings_mean_the_same(rt: HostRuntime) {
    let alloc = rt.alloc();
    are_same(&rt, alloc, "a name and its text", &NAME, &NAME_TEXT, true);
    for (label, index, byte, same) in [
        ("another reserved byte", 1, 0x09, true),
        ("a flag on the name", 19, 0x80, true),
        ("another letter", 21, 0x70, false),
    ] {
        let mut other = NAME;
        assert!(rt; index < 22);
        other[index] = byte;
        are_same(&rt, alloc, label, &NAME, &other, same);
    }
}

/// After the NUL of a name stands one byte of padding, which may be any, or missing at the end.
#[test]
fn padding_means_nothing(rt: HostRuntime) {
    let alloc = rt.alloc();
    let mut other = NAME_TEXT;
    other[23] = 0x09;
    are_same(&rt, alloc, "padding of 9", &NAME_TEXT, &other, true);
    are_same(&rt, alloc, "no padding", &NAME_TEXT, &NAME_TEXT[..23], true);
}

/// Encodings of more than 256 bytes are compared in memory: an alias of 250 letters, with a NUL and without.
#[test]
fn long_messages_are_compared(rt: HostRuntime) {
    let alloc = rt.alloc();
    let mut one = [0x61; 272];
    one[..16].fill(0);
    one[16..20].copy_from_slice(&[0xfe, 0x00, 0x14, 0x00]);
    let mut other = one;
    other[16] = 0xff;
    other[270] = 0x00;
    are_same(&rt, alloc, "a NUL", &one, &other, true);
    other[20] = 0x62;
    are_same(&rt, alloc, "another letter", &one, &other, false);
}

/// What the attributes of two messages that differ are.
const OTHERS: &[(&str, &[u8], &[u8])] = &[
    (
        "another order",
        &[0x04, 0x00, 0x01, 0x00, 0x04, 0x00, 0x34, 0x00],
        &[0x04, 0x00, 0x34, 0x00, 0x04, 0x00, 0x01, 0x00],
    ),
    (
        "a flag on a number that is not listed",
        &[0x04, 0x00, 0x63, 0x00],
        &[0x04, 0x00, 0x63, 0x80],
    ),
    ("an empty IFLA_PROP_LIST", &[0x04, 0x00, 0x34, 0x00], &[]),
    ("an empty IFLA_VFINFO_LIST", &[], &[0x04, 0x00, 0x16, 0x00]),
];

#[test]
fn other_messages_differ(rt: HostRuntime) {
    let alloc = rt.alloc();
    for (label, one, other) in OTHERS {
        let one = with_header(&rt, alloc, 0, one);
        let other = with_header(&rt, alloc, 0, other);
        are_same(&rt, alloc, label, one.as_slice(), other.as_slice(), false);
    }
}

#[test]
fn what_is_no_message_is_not_compared(rt: HostRuntime) {
    let alloc = rt.alloc();
    let short = no_message(Cause::TooShort { got: 15, need: 16 });
    let over = no_message(Cause::FrameOver { length: 6, left: 5 });
    for (label, one, other, wanted) in [
        ("the first is short", &NAME[..15], NAME.as_slice(), short),
        ("the second is short", &NAME, &[0; 15], short),
        ("the second is short by a byte", &[0; 16], &[0; 15], short),
        ("the name of the second is cut", &NAME, &NAME[..21], over),
    ] {
        is_refused_so(&rt, label, same_message(alloc, one, other), wanted);
    }
}

#[test]
fn refusals_have_numbers(rt: HostRuntime) {
    assert!(rt; no_message(Cause::EmptyList).number() == 1);
    assert!(rt; CanonError::DoesNotFit.number() == 2);
    assert!(rt; CanonError::EmptyVfPorts.number() == 3);
    assert!(rt; CanonError::OutOfMemory.number() == 4);
}

/// A refusal is printed as this text.
fn is_printed(rt: &impl Abort, alloc: Global, refusal: RoomError, wanted: &str) {
    let text = format!(in alloc; "{refusal}").expect(rt, "memory");
    holds(rt, wanted, text.as_str() == wanted);
}

#[test]
fn refusals_for_want_of_room_are_printed(rt: HostRuntime) {
    let room = RoomError::NoRoom { wanted: 24 };
    let wanted = "the canonical encoding has 24 bytes";
    is_printed(&rt, rt.alloc(), room, wanted);
    let unfit = RoomError::from(CanonError::DoesNotFit);
    is_printed(&rt, rt.alloc(), unfit, "the message does not fit");
    let ports = RoomError::NoEncoding(CanonError::EmptyVfPorts);
    is_printed(&rt, rt.alloc(), ports, "an empty list of ports");
}
