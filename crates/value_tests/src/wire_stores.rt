//! Values stored as attributes at the front of a buffer.

use crate::testing::{is_at, is_text, is_written, room_of};
use nla_wire::*;
use std::process::Abort;

#[test]
fn stores_bytes_and_words(rt: HostRuntime) {
    let mut out = [255; 9];
    let len = write_u8(1, 7, &mut out);
    is_written(
        &rt,
        len,
        &out,
        &[0x05, 0x00, 0x01, 0x00, 0x07, 0x00, 0x00, 0x00],
    );
    let len = write_u8(0xc001, 255, &mut out);
    is_written(
        &rt,
        len,
        &out,
        &[0x05, 0x00, 0x01, 0xc0, 0xff, 0x00, 0x00, 0x00],
    );
    let len = write_u16(68, 0x1234, &mut out);
    is_written(
        &rt,
        len,
        &out,
        &[0x06, 0x00, 0x44, 0x00, 0x34, 0x12, 0x00, 0x00],
    );
    let len = write_u32(4, 1500, &mut out);
    is_written(
        &rt,
        len,
        &out,
        &[0x08, 0x00, 0x04, 0x00, 0xdc, 0x05, 0x00, 0x00],
    );
    let len = write_i32(28, -2, &mut out);
    is_written(
        &rt,
        len,
        &out,
        &[0x08, 0x00, 0x1c, 0x00, 0xfe, 0xff, 0xff, 0xff],
    );
}

#[test]
fn stores_long_words(rt: HostRuntime) {
    let mut out = [255; 13];
    let len = write_u64(0x8000, 0x0123_4567_89ab_cdef, &mut out);
    let text = [
        0x0c, 0x00, 0x00, 0x80, 0xef, 0xcd, 0xab, 0x89, 0x67, 0x45, 0x23, 0x01,
    ];
    is_written(&rt, len, &out, &text);
}

#[test]
fn stores_texts(rt: HostRuntime) {
    let mut out = [255; 16];
    let len = write_text(53, &[], &mut out);
    is_written(
        &rt,
        len,
        &out,
        &[0x05, 0x00, 0x35, 0x00, 0x00, 0x00, 0x00, 0x00],
    );
    let len = write_text(3, b"lo", &mut out);
    is_written(
        &rt,
        len,
        &out,
        &[0x07, 0x00, 0x03, 0x00, 0x6c, 0x6f, 0x00, 0x00],
    );
    let len = write_text(3, b"eth", &mut out);
    is_written(
        &rt,
        len,
        &out,
        &[0x08, 0x00, 0x03, 0x00, 0x65, 0x74, 0x68, 0x00],
    );
    let len = write_text(3, b"wan0", &mut out);
    is_written(
        &rt,
        len,
        &out,
        &[
            0x09, 0x00, 0x03, 0x00, 0x77, 0x61, 0x6e, 0x30, 0x00, 0x00, 0x00, 0x00,
        ],
    );
}

#[test]
fn stores_short_values(rt: HostRuntime) {
    let mut out = [255; 13];
    let len = write_value(0x802a, &[], &mut out);
    is_written(&rt, len, &out, &[0x04, 0x00, 0x2a, 0x80]);
    let len = write_value(1, &[7], &mut out);
    is_written(
        &rt,
        len,
        &out,
        &[0x05, 0x00, 0x01, 0x00, 0x07, 0x00, 0x00, 0x00],
    );
    let len = write_value(1, &[0x07, 0x08], &mut out);
    is_written(
        &rt,
        len,
        &out,
        &[0x06, 0x00, 0x01, 0x00, 0x07, 0x08, 0x00, 0x00],
    );
}

#[test]
fn stores_longer_values(rt: HostRuntime) {
    let mut out = [255; 13];
    let len = write_value(1, &[0x07, 0x08, 0x09], &mut out);
    is_written(
        &rt,
        len,
        &out,
        &[0x07, 0x00, 0x01, 0x00, 0x07, 0x08, 0x09, 0x00],
    );
    let len = write_value(1, &[0x07, 0x08, 0x09, 0x0a], &mut out);
    is_written(
        &rt,
        len,
        &out,
        &[0x08, 0x00, 0x01, 0x00, 0x07, 0x08, 0x09, 0x0a],
    );
    let len = write_value(1, &[0x07, 0x08, 0x09, 0x0a, 0x0b], &mut out);
    is_written(
        &rt,
        len,
        &out,
        &[
            0x09, 0x00, 0x01, 0x00, 0x07, 0x08, 0x09, 0x0a, 0x0b, 0x00, 0x00, 0x00,
        ],
    );
}

/// Contents, and their attributes of kind 1.
const CONTENTS: &[(FlatView<'_>, &[u8])] = &[
    (
        FlatView::Bytes(&[7]),
        &[0x05, 0x00, 0x01, 0x00, 0x07, 0x00, 0x00, 0x00],
    ),
    (
        FlatView::Text("lo"),
        &[0x07, 0x00, 0x01, 0x00, 0x6c, 0x6f, 0x00, 0x00],
    ),
    (
        FlatView::U8(7),
        &[0x05, 0x00, 0x01, 0x00, 0x07, 0x00, 0x00, 0x00],
    ),
    (
        FlatView::U16(0x1234),
        &[0x06, 0x00, 0x01, 0x00, 0x34, 0x12, 0x00, 0x00],
    ),
    (
        FlatView::U32(1500),
        &[0x08, 0x00, 0x01, 0x00, 0xdc, 0x05, 0x00, 0x00],
    ),
    (
        FlatView::U64(7),
        &[
            0x0c, 0x00, 0x01, 0x00, 0x07, 0x00, 0x00, 0x00, 0x00, 0x00, 0x00, 0x00,
        ],
    ),
    (
        FlatView::I32(-2),
        &[0x08, 0x00, 0x01, 0x00, 0xfe, 0xff, 0xff, 0xff],
    ),
];

#[test]
fn stores_contents(rt: HostRuntime) {
    for (content, text) in CONTENTS {
        let mut out = [255; 13];
        assert!(rt; content.len() <= 8);
        let len = content.write(1, &mut out);
        is_written(&rt, len, &out, text);
    }
}

/// A value of 65531 bytes is the longest that an attribute has.
#[test]
fn stores_the_longest_value(rt: HostRuntime) {
    let value = room_of(&rt, rt.alloc(), 97, 65531);
    let mut out = room_of(&rt, rt.alloc(), 255, 65537);
    let out = out.as_mut_slice();
    assert!(rt; value.len() == 65531);
    assert!(rt; out.len() == 65537);
    assert!(rt; write_value(20, value.as_slice(), out) == 65536);
    assert!(rt; out.starts_with(&[0xff, 0xff, 0x14, 0x00]));
    is_text(&rt, &out[4..65535], value.as_slice());
    is_text(&rt, &out[65535..], &[0x00, 0xff]);
}

#[test]
fn stores_bytes_alone(rt: HostRuntime) {
    let mut out = [255; 3];
    assert!(rt; write_bytes(&[], &mut out) == 0);
    is_text(&rt, &out, &[0xff, 0xff, 0xff]);
    assert!(rt; write_bytes(&[0x01, 0x02], &mut out) == 2);
    is_text(&rt, &out, &[0x01, 0x02, 0xff]);
}

#[test]
fn knows_lengths_with_padding(rt: HostRuntime) {
    for (len, wanted) in [
        (0, 4),
        (1, 8),
        (3, 8),
        (4, 8),
        (5, 12),
        (65528, 65532),
        (65529, 65536),
        (65531, 65536),
    ] {
        assert!(rt; len <= 65531);
        is_at(&rt, len, &padded_len(len), &wanted);
    }
}

/// A value of so many bytes of 255 after a header of 255 becomes a frame of kind 0x8003, which is this text.
fn finishes(rt: &impl Abort, len: usize, text: &[u8]) {
    let mut out = [255; 13];
    assert!(rt; len <= 8);
    let padded = finish(&mut out, len, 0x8003);
    is_written(rt, padded, &out, text);
}

#[test]
fn finishes_frames(rt: HostRuntime) {
    finishes(&rt, 0, &[0x04, 0x00, 0x03, 0x80]);
    finishes(&rt, 1, &[0x05, 0x00, 0x03, 0x80, 0xff, 0x00, 0x00, 0x00]);
    finishes(&rt, 2, &[0x06, 0x00, 0x03, 0x80, 0xff, 0xff, 0x00, 0x00]);
    finishes(&rt, 3, &[0x07, 0x00, 0x03, 0x80, 0xff, 0xff, 0xff, 0x00]);
    finishes(&rt, 4, &[0x08, 0x00, 0x03, 0x80, 0xff, 0xff, 0xff, 0xff]);
    finishes(
        &rt,
        5,
        &[
            0x09, 0x00, 0x03, 0x80, 0xff, 0xff, 0xff, 0xff, 0xff, 0x00, 0x00, 0x00,
        ],
    );
}
