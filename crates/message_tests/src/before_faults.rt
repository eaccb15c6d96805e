//! What is read of a message in front of the first fault of its attributes.

use crate::rows::{message_of, with_header};
use crate::testing::{holds, is_same, text_of};
use expected::cause_of;
use link_msg::*;
use std::alloc::Global;
use std::process::Abort;

/// An MTU, and a name.
const READ: [u8; 16] = [
    0x08, 0x00, 0x04, 0x00, 0xdc, 0x05, 0x00, 0x00, 0x06, 0x00, 0x03, 0x00, 0x6c, 0x6f, 0x00, 0x00,
];

/// A name that is no UTF-8, and an MTU after it.
const NOT_UTF8: [u8; 16] = [
    0x05, 0x00, 0x03, 0x00, 0xff, 0x00, 0x00, 0x00, 0x08, 0x00, 0x04, 0x00, 0xdc, 0x05, 0x00, 0x00,
];

/// The attributes of `READ`, and those of `NOT_UTF8`.
const BOTH: [u8; 32] = [
    0x08, 0x00, 0x04, 0x00, 0xdc, 0x05, 0x00, 0x00, 0x06, 0x00, 0x03, 0x00, 0x6c, 0x6f, 0x00, 0x00,
    0x05, 0x00, 0x03, 0x00, 0xff, 0x00, 0x00, 0x00, 0x08, 0x00, 0x04, 0x00, 0xdc, 0x05, 0x00, 0x00,
];

/// The first 18 bytes of `BOTH`.
const STRAY: [u8; 18] = [
    0x08, 0x00, 0x04, 0x00, 0xdc, 0x05, 0x00, 0x00, 0x06, 0x00, 0x03, 0x00, 0x6c, 0x6f, 0x00, 0x00,
    0x05, 0x00,
];

/// A message, and the fault after it.
type BeforeFault = (LinkMessage, Option<DecodeError>);

/// What is read before a fault; for the proof: what the call promises stays here.
fn read_before_fault(alloc: Global, bytes: &[u8]) -> Result<BeforeFault, DecodeError> {
    LinkMessage::parse_before_fault(alloc, bytes)
}

/// What is read of these attributes is this message, and the fault after it is this one.
fn is_read_before(
    rt: &impl Abort,
    alloc: Global,
    label: &str,
    attributes: &[u8],
    wanted: &LinkMessage,
    fault: Option<DecodeError>,
) {
    let bytes = with_header(rt, alloc, 0, attributes);
    let (message, found) = read_before_fault(alloc, bytes.as_slice()).expect(rt, "it is read");
    holds(rt, label, message == *wanted);
    holds(rt, label, found == fault);
}

/// The message of `READ`.
fn two_attributes(rt: &impl Abort, alloc: Global) -> LinkMessage {
    let name = LinkAttribute::IfName(text_of(rt, alloc, "lo"));
    message_of(rt, alloc, [LinkAttribute::Mtu(1500), name])
}

#[test]
fn of_messages(rt: HostRuntime) {
    let alloc = rt.alloc();
    is_read_before(
        &rt,
        alloc,
        "no attribute",
        &[],
        &message_of(&rt, alloc, []),
        None,
    );
    is_read_before(
        &rt,
        alloc,
        "two attributes",
        &READ,
        &two_attributes(&rt, alloc),
        None,
    );
}

#[test]
fn of_attributes_that_are_refused(rt: HostRuntime) {
    let alloc = rt.alloc();
    let none = message_of(&rt, alloc, []);
    let two = two_attributes(&rt, alloc);
    let fault = Some(DecodeError::new("IFLA_IFNAME", Cause::NotUtf8));
    is_read_before(&rt, alloc, "a name first", &NOT_UTF8, &none, fault);
    is_read_before(&rt, alloc, "a name after two", &BOTH, &two, fault);
    let stray = Some(DecodeError::new("message", Cause::FrameShort { left: 2 }));
    is_read_before(&rt, alloc, "two stray bytes", &STRAY, &two, stray);
}

#[test]
fn of_short_headers(rt: HostRuntime) {
    let headers: [&[u8]; 2] = [&[], &[0; 15]];
    for bytes in headers {
        let found = cause_of(read_before_fault(rt.alloc(), bytes));
        let got = bytes.len();
        let wanted = Cause::TooShort { got, need: 16 };
        is_same(&rt, "a short header", &found, &Some(wanted));
    }
}
