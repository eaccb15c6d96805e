//! Fields that are written as attributes.

use crate::values::next_field;
use link_info::{
    Field, Fields, InfoError, Member, Place, Plain, Row, Size, Style, push_field, rewrite,
};
use std::alloc::Global;
use std::process::Abort;

/// A record of seven bytes.
const MEMBERS: &[Member] = &[
    Member("number", Plain::Unsigned(Size::One)),
    Member("address", Plain::Mac),
];

/// A row of each style.
const ROWS: &[Row] = &[
    Row(1, "bytes", Style::Bytes),
    Row(2, "flag", Style::Flag),
    Row(3, "text", Style::Text),
    Row(4, "host", Style::Plain(Plain::Unsigned(Size::Two))),
    Row(5, "network", Style::Plain(Plain::BigEndian(Size::Two))),
    Row(6, "signed", Style::Plain(Plain::Signed(Size::Two))),
    Row(7, "mac", Style::Plain(Plain::Mac)),
    Row(8, "ipv4", Style::Plain(Plain::Ipv4)),
    Row(9, "ipv6", Style::Plain(Plain::Ipv6)),
    Row(10, "octets", Style::Plain(Plain::Octets(3))),
    Row(11, "record", Style::Record(MEMBERS)),
    Row(12, "array", Style::Array(Plain::Unsigned(Size::Two))),
    Row(13, "list", Style::List(Plain::Ipv4)),
    Row(14, "nest", Style::Nest(Place::Vlan)),
];

/// An attribute of each style in turn, the numbers with flag bits of their kinds; then one of number 4 that is not of
/// its form, and one without a row.
const EACH: &[u8] = &[
    0x07, 0x00, 0x01, 0x00, 0x01, 0x02, 0x03, 0x00, 0x04, 0x00, 0x02, 0x00, 0x07, 0x00, 0x03, 0x00,
    0x61, 0x62, 0x00, 0x00, 0x06, 0x00, 0x04, 0x80, 0x64, 0x00, 0x00, 0x00, 0x06, 0x00, 0x05, 0x40,
    0x88, 0xa8, 0x00, 0x00, 0x06, 0x00, 0x06, 0x00, 0x00, 0x80, 0x00, 0x00, 0x0a, 0x00, 0x07, 0x00,
    0x02, 0x00, 0x00, 0x00, 0x00, 0x01, 0x00, 0x00, 0x08, 0x00, 0x08, 0x00, 0x0a, 0x00, 0x00, 0x01,
    0x14, 0x00, 0x09, 0x00, 0xfd, 0x00, 0x00, 0x00, 0x00, 0x00, 0x00, 0x00, 0x00, 0x00, 0x00, 0x00,
    0x00, 0x00, 0x00, 0x01, 0x07, 0x00, 0x0a, 0x00, 0x09, 0x08, 0x07, 0x00, 0x0b, 0x00, 0x0b, 0x00,
    0x05, 0x02, 0x00, 0x00, 0x00, 0x00, 0x01, 0x00, 0x08, 0x00, 0x0c, 0x00, 0x01, 0x00, 0x02, 0x00,
    0x0c, 0x00, 0x0d, 0x00, 0x08, 0x00, 0x01, 0x00, 0x0a, 0x00, 0x00, 0x01, 0x0c, 0x00, 0x0e, 0x80,
    0x06, 0x00, 0x01, 0x00, 0x64, 0x00, 0x00, 0x00, 0x07, 0x00, 0x04, 0x00, 0x01, 0x02, 0x03, 0x00,
    0x05, 0x00, 0x63, 0x00, 0x07, 0x00, 0x00, 0x00,
];

/// A text without a NUL, and three bytes whose padding is no zero.
const LOOSE: &[u8] = &[
    0x06, 0x00, 0x03, 0x00, 0x61, 0x62, 0x05, 0x06, 0x07, 0x00, 0x01, 0x00, 0x01, 0x02, 0x03, 0xff,
];

/// The same in canonical encoding.
const TIGHT: &[u8] = &[
    0x07, 0x00, 0x03, 0x00, 0x61, 0x62, 0x00, 0x00, 0x07, 0x00, 0x01, 0x00, 0x01, 0x02, 0x03, 0x00,
];

/// A text of 65531 bytes, of which the last is this one, and its padding.
fn longest(rt: &impl Abort, alloc: Global, last: u8) -> Vec<u8> {
    let mut bytes = Vec::new(alloc);
    bytes
        .extend_from_slice(&[0xff, 0xff, 0x03, 0x00])
        .expect(rt, "memory is ample");
    bytes.resize(65534, 0x61).expect(rt, "memory is ample");
    bytes
        .extend_from_slice(&[last, 0x00])
        .expect(rt, "memory is ample");
    bytes
}

/// The first field.
fn first<'a>(rt: &impl Abort, bytes: &'a [u8]) -> Field<'a> {
    match next_field(&mut Fields::new(ROWS, bytes)) {
        Some(Ok(field)) => field,
        _ => panic!(rt; "it is whole"),
    }
}

#[test]
fn each_style_comes_back(rt: HostRuntime) {
    let again = rewrite(rt.alloc(), ROWS, EACH).expect(&rt, "they are whole");
    assert!(rt; again.as_slice() == EACH);
    let again = rewrite(rt.alloc(), &[], EACH).expect(&rt, "without rows all are bytes");
    assert!(rt; again.as_slice() == EACH);
    let none = rewrite(rt.alloc(), ROWS, &[]).expect(&rt, "there are none");
    assert!(rt; none.as_slice().is_empty());
}

#[test]
fn what_is_not_canonical_becomes_so(rt: HostRuntime) {
    let alloc = rt.alloc();
    let tight = rewrite(alloc, ROWS, LOOSE).expect(&rt, "they are whole");
    assert!(rt; tight.as_slice() == TIGHT);
    let tight = rewrite(alloc, ROWS, &LOOSE[..15]).expect(&rt, "the last padding may lack");
    assert!(rt; tight.as_slice() == TIGHT);
    let again = rewrite(alloc, ROWS, TIGHT).expect(&rt, "they are whole");
    assert!(rt; again.as_slice() == TIGHT);
}

#[test]
fn damaged_bytes_are_not_rewritten(rt: HostRuntime) {
    let alloc = rt.alloc();
    for len in [1, 3, 5, 9, 13] {
        assert!(rt; matches!(rewrite(alloc, ROWS, &LOOSE[..len]), Err(InfoError::Damaged)));
    }
}

#[test]
fn a_text_that_a_nul_makes_too_long_is_refused(rt: HostRuntime) {
    let alloc = rt.alloc();
    let ends = longest(&rt, alloc, 0x00);
    let again = rewrite(alloc, ROWS, ends.as_slice()).expect(&rt, "it has its NUL");
    assert!(rt; again.as_slice() == ends.as_slice());
    let open = longest(&rt, alloc, 0x61);
    assert!(rt;
        matches!(
            rewrite(alloc, ROWS, open.as_slice()),
            Err(InfoError::TooLong)
        )
    );
    let bytes = rewrite(alloc, &[], open.as_slice()).expect(&rt, "bytes need no NUL");
    assert!(rt; bytes.as_slice() == open.as_slice());
}

#[test]
fn a_field_is_added(rt: HostRuntime) {
    let alloc = rt.alloc();
    let mut out = Vec::new(alloc);
    push_field(alloc, &mut out, &first(&rt, LOOSE)).expect(&rt, "it is short");
    assert!(rt; out.as_slice() == &TIGHT[..8]);
    let open = longest(&rt, alloc, 0x61);
    let refused = push_field(alloc, &mut out, &first(&rt, open.as_slice()));
    assert!(rt; refused == Err(InfoError::TooLong));
    assert!(rt; out.as_slice() == &TIGHT[..8]);
    push_field(alloc, &mut out, &first(&rt, &LOOSE[8..])).expect(&rt, "it is short");
    assert!(rt; out.as_slice() == TIGHT);
}
