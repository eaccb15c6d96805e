//! Messages of a million bytes, and of a quarter of a million.

use crate::rows::are_all;
use crate::testing::{
    are_same, cause_checked, cause_read, is_same, read_message, text_made, written_within,
};
use expected::{GROWTH, equal, filled, is_stored};
use link_msg::laws::law_room;
use link_msg::*;
use std::alloc::Global;
use std::process::Abort;

/// The bytes of a message here.
const LENGTH: usize = 1_000_000;

/// The bytes of one that is written again with no memory, into a buffer that is longer by far.
const SHORTER: usize = 250_000;

/// Two attributes in their canonical spelling, one that is kept and a name.
const TWO: [u8; 48] = [
    0x28, 0x00, 0x63, 0xc0, 0x01, 0x02, 0x03, 0x04, 0x05, 0x06, 0x07, 0x08, 0x09, 0x0a, 0x0b, 0x0c,
    0x0d, 0x0e, 0x0f, 0x10, 0x11, 0x12, 0x13, 0x14, 0x15, 0x16, 0x17, 0x18, 0x19, 0x1a, 0x1b, 0x1c,
    0x1d, 0x1e, 0x1f, 0x20, 0x21, 0x22, 0x23, 0x24, 0x07, 0x00, 0x03, 0x00, 0x6c, 0x6f, 0x00, 0x00,
];

/// A header of zeros and those attributes, one after the other, in so many bytes.
fn message(rt: &impl Abort, alloc: Global, length: usize) -> Vec<u8> {
    let mut bytes = filled(alloc, 0, 16).expect(rt, "memory");
    for _ in 0..length.saturating_sub(16) / TWO.len() {
        bytes.extend_from_slice(&TWO).expect(rt, "memory");
    }
    assert!(rt; bytes.len() == length);
    bytes
}

/// The last name is another one.
fn other_name(rt: &impl Abort, bytes: &mut Vec<u8>) {
    assert!(rt; bytes.len() == LENGTH);
    bytes[LENGTH - 3] = 0x70;
}

#[test]
fn is_read(rt: HostRuntime) {
    let bytes = message(&rt, rt.alloc(), LENGTH);
    let read = read_message(&rt, rt.alloc(), bytes.as_slice());
    assert!(rt; read.attributes.len() == (LENGTH - 16) / TWO.len() * 2);
    assert!(rt; read.fits());
    assert!(rt; read.buffer_len() == LENGTH);
    let mut text = filled(rt.alloc(), 255, LENGTH).expect(&rt, "memory");
    assert!(rt; text.len() == LENGTH);
    read.emit(text.as_mut_slice());
    assert!(rt; equal(text.as_slice(), bytes.as_slice()));
}

#[test]
fn is_checked(rt: HostRuntime) {
    let mut bytes = message(&rt, rt.alloc(), LENGTH);
    is_same(&rt, "whole", &cause_checked(bytes.as_slice()), &None);
    bytes.push(0).expect(&rt, "memory");
    let short = Some(Cause::FrameShort { left: 1 });
    is_same(
        &rt,
        "a stray byte",
        &cause_checked(bytes.as_slice()),
        &short,
    );
    is_same(
        &rt,
        "a stray byte",
        &cause_read(rt.alloc(), bytes.as_slice()),
        &short,
    );
}

#[test]
fn has_its_text(rt: HostRuntime) {
    let bytes = message(&rt, rt.alloc(), LENGTH);
    let text = text_made(&rt, rt.alloc(), bytes.as_slice());
    assert!(rt; text.len() == LENGTH);
    assert!(rt; equal(text.as_slice(), bytes.as_slice()));
}

/// What was missing at the end is written.
#[test]
fn gets_its_padding(rt: HostRuntime) {
    let mut bytes = message(&rt, rt.alloc(), LENGTH);
    assert!(rt; bytes.len() == LENGTH);
    bytes.truncate(LENGTH - 1);
    let text = text_made(&rt, rt.alloc(), bytes.as_slice());
    assert!(rt; equal(text.as_slice(), message(&rt, rt.alloc(), LENGTH).as_slice()));
}

#[test]
fn is_compared(rt: HostRuntime) {
    let one = message(&rt, rt.alloc(), LENGTH);
    let mut other = message(&rt, rt.alloc(), LENGTH);
    let alloc = rt.alloc();
    are_same(
        &rt,
        alloc,
        "the same",
        one.as_slice(),
        other.as_slice(),
        true,
    );
    other_name(&rt, &mut other);
    are_same(
        &rt,
        alloc,
        "another last name",
        one.as_slice(),
        other.as_slice(),
        false,
    );
}

#[test]
fn is_rewritten(rt: HostRuntime) {
    let bytes = message(&rt, rt.alloc(), SHORTER);
    assert!(rt; bytes.len() == SHORTER);
    let room = GROWTH * SHORTER;
    let mut out = filled(rt.alloc(), 255, room).expect(&rt, "memory");
    let out = out.as_mut_slice();
    assert!(rt; out.len() == room);
    law_room(bytes.as_slice());
    let len = canonical_into(bytes.as_slice(), out);
    assert!(rt; len == Ok(SHORTER));
    assert!(rt; is_stored(SHORTER, out, bytes.as_slice()));
}

/// Into a buffer of its text's length, and into none that is shorter.
#[test]
fn is_rewritten_within(rt: HostRuntime) {
    let bytes = message(&rt, rt.alloc(), LENGTH);
    assert!(rt; canonical_len(bytes.as_slice()) == Ok(LENGTH));
    let mut out = filled(rt.alloc(), 255, LENGTH).expect(&rt, "memory");
    let out = out.as_mut_slice();
    assert!(rt; out.len() == LENGTH);
    let short = written_within(bytes.as_slice(), &mut out[1..]);
    let wanted = Err(RoomError::NoRoom { wanted: LENGTH });
    is_same(&rt, "a byte less", &short, &wanted);
    assert!(rt; are_all(out, 255));
    assert!(rt; written_within(bytes.as_slice(), out) == Ok(LENGTH));
    assert!(rt; equal(out, bytes.as_slice()));
}
