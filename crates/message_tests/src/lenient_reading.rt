//! Messages that are read leniently: what is refused is kept whole, told, and written as it was.

use crate::rows::{message_of, with_header};
use crate::testing::{kept_of, text_of};
use expected::{GROWTH, cause_of, equal, is_stored};
use link_msg::laws::law_lenient_room;
use link_msg::*;
use std::alloc::Global;
use std::process::Abort;

/// An MTU, a name with one byte of Latin-1 and both flags, a name, and an empty list of ports.
const MIXED: [u8; 28] = [
    0x08, 0x00, 0x04, 0x00, 0xdc, 0x05, 0x00, 0x00, 0x05, 0x00, 0x14, 0xc0, 0xe9, 0x00, 0x00, 0x00,
    0x06, 0x00, 0x03, 0x00, 0x6c, 0x6f, 0x00, 0x00, 0x04, 0x00, 0x18, 0x00,
];

/// Its lenient canonical encoding, without the header: the name has its NUL, and the alias its flags.
const TEXT: [u8; 28] = [
    0x08, 0x00, 0x04, 0x00, 0xdc, 0x05, 0x00, 0x00, 0x05, 0x00, 0x14, 0xc0, 0xe9, 0x00, 0x00, 0x00,
    0x07, 0x00, 0x03, 0x00, 0x6c, 0x6f, 0x00, 0x00, 0x04, 0x00, 0x18, 0x00,
];

/// An MTU, and a name.
const READ: [u8; 15] = [
    0x08, 0x00, 0x04, 0x00, 0xdc, 0x05, 0x00, 0x00, 0x07, 0x00, 0x03, 0x00, 0x6c, 0x6f, 0x00,
];

/// What is read leniently; for the proof: what the call promises stays here.
fn read_leniently(alloc: Global, bytes: &[u8]) -> Result<LinkMessage, DecodeError> {
    LinkMessage::parse_lenient(alloc, bytes)
}

/// The lenient canonical encoding.
fn lenient_text(rt: &impl Abort, alloc: Global, bytes: &[u8]) -> Vec<u8> {
    canonical_lenient(alloc, bytes).expect(rt, "it is written")
}

/// Where each refusal starts, for which cause, and where its fault is.
fn told(rt: &impl Abort, bytes: &[u8], wanted: &[(usize, Cause, usize)]) -> bool {
    let mut count = 0;
    for refusal in LinkMessage::refusals(bytes).expect(rt, "it has a header") {
        let Some((offset, cause, at)) = wanted.get(count) else {
            return false;
        };
        let one = (
            refusal.offset(),
            refusal.error().cause,
            refusal.path().offset,
        );
        if one != (*offset, *cause, *at) {
            return false;
        }
        count += 1;
    }
    count == wanted.len()
}

/// The message of `MIXED`.
fn mixed(rt: &impl Abort, alloc: Global) -> LinkMessage {
    let alias = kept_of(rt, alloc, 0xc014, &[0xe9]);
    let name = text_of(rt, alloc, "lo");
    let ports = kept_of(rt, alloc, 0x18, &[]);
    let wanted = [
        LinkAttribute::Mtu(1500),
        LinkAttribute::Other(alias),
        LinkAttribute::IfName(name),
        LinkAttribute::Other(ports),
    ];
    message_of(rt, alloc, wanted)
}

#[test]
fn read(rt: HostRuntime) {
    let alloc = rt.alloc();
    let bytes = with_header(&rt, alloc, 0, &MIXED);
    let wanted = mixed(&rt, alloc);
    let message = read_leniently(alloc, bytes.as_slice()).expect(&rt, "its frames fit");
    assert!(rt; message == wanted);
    let text = with_header(&rt, alloc, 0, &TEXT);
    let again = read_leniently(alloc, text.as_slice()).expect(&rt, "its frames fit");
    assert!(rt; again == wanted);
}

#[test]
fn read_as_strictly(rt: HostRuntime) {
    let alloc = rt.alloc();
    let bytes = with_header(&rt, alloc, 0, &READ);
    let strict = LinkMessage::parse(alloc, bytes.as_slice()).expect(&rt, "it is read");
    let message = read_leniently(alloc, bytes.as_slice()).expect(&rt, "it is read");
    assert!(rt; message == strict);
    assert!(rt; told(&rt, bytes.as_slice(), &[]));
}

#[test]
fn refused(rt: HostRuntime) {
    let alloc = rt.alloc();
    let short = cause_of(read_leniently(alloc, &[0; 15]));
    assert!(rt; short == Some(Cause::TooShort { got: 15, need: 16 }));
    let stray = with_header(
        &rt,
        alloc,
        0,
        &[0x05, 0x00, 0x14, 0x00, 0xe9, 0, 0, 0, 0x03, 0x00],
    );
    let cause = Cause::FrameShort { left: 2 };
    assert!(rt; cause_of(read_leniently(alloc, stray.as_slice())) == Some(cause));
    assert!(rt;
        told(
            &rt,
            stray.as_slice(),
            &[(16, Cause::NotUtf8, 16), (24, cause, 24)]
        )
    );
}

#[test]
fn written(rt: HostRuntime) {
    let alloc = rt.alloc();
    let bytes = with_header(&rt, alloc, 0, &MIXED);
    let text = with_header(&rt, alloc, 0, &TEXT);
    let made = lenient_text(&rt, alloc, bytes.as_slice());
    assert!(rt; equal(made.as_slice(), text.as_slice()));
    assert!(rt; canonical_lenient_len(bytes.as_slice()) == Ok(44));
    let mut out = [255; 48];
    let len = canonical_lenient_within(bytes.as_slice(), &mut out).expect(&rt, "there is room");
    assert!(rt; is_stored(len, &out, text.as_slice()));
    let mut few = [255; 43];
    let answer = canonical_lenient_within(bytes.as_slice(), &mut few);
    assert!(rt; answer == Err(RoomError::NoRoom { wanted: 44 }));
}

/// An alias that is refused, in a message of 24 bytes.
const ALIAS: [u8; 24] = [
    0x00, 0x00, 0x00, 0x00, 0x00, 0x00, 0x00, 0x00, 0x00, 0x00, 0x00, 0x00, 0x00, 0x00, 0x00, 0x00,
    0x05, 0x00, 0x14, 0x00, 0xe9, 0x07, 0x07, 0x07,
];

#[test]
fn written_where_there_is_room(rt: HostRuntime) {
    let mut out = [255; 2000];
    assert!(rt; 24 * GROWTH <= 2000);
    law_lenient_room(&ALIAS);
    assert!(rt; canonical_lenient_into(&ALIAS, &mut out) == Ok(24));
    assert!(rt; out.starts_with(&ALIAS[..21]) && out[21..24] == [0; 3] && out[24] == 255);
}

/// The list of ports whose one entry is foreign is read, and has no encoding, leniently too.
#[test]
fn empty_ports(rt: HostRuntime) {
    let alloc = rt.alloc();
    let bytes = with_header(
        &rt,
        alloc,
        0,
        &[0x08, 0x00, 0x18, 0x00, 0x04, 0x00, 0x02, 0x00],
    );
    let answer = canonical_lenient_len(bytes.as_slice());
    assert!(rt; answer == Err(CanonError::EmptyVfPorts));
    let answer = canonical_lenient(alloc, bytes.as_slice());
    assert!(rt; matches!(&answer, Err(CanonError::EmptyVfPorts)));
}

#[test]
fn paths_lead_inside(rt: HostRuntime) {
    let alloc = rt.alloc();
    // an MTU, and one function whose statistics end with one stray byte
    let bytes = with_header(
        &rt,
        alloc,
        0,
        &[
            0x08, 0x00, 0x04, 0x00, 0xdc, 0x05, 0x00, 0x00, 0x0d, 0x00, 0x16, 0x00, 0x09, 0x00,
            0x01, 0x00, 0x05, 0x00, 0x08, 0x00, 0x00,
        ],
    );
    let wanted = [(24, Cause::FrameShort { left: 1 }, 36)];
    assert!(rt; told(&rt, bytes.as_slice(), &wanted));
    for refusal in LinkMessage::refusals(bytes.as_slice()).expect(&rt, "it has a header") {
        assert!(rt; refusal.path().numbers() == [22, 1, 8].as_slice());
        assert!(rt; refusal.attribute().map(|it| it.0) == Some(22));
    }
    let mut later = LinkMessage::refusals_from(bytes.as_slice(), 40).expect(&rt, "it has a header");
    assert!(rt; later.next().is_none());
}
