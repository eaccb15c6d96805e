//! Attributes measured and written again from payloads, with no memory.

use crate::testing::{fits_in, is_at, is_text, is_written, room_of};
use nla_wire::*;
use std::alloc::Global;
use std::process::Abort;

#[test]
fn writes_short_payloads(rt: HostRuntime) {
    let mut out = [255; 9];
    let len = write_text_payload(3, b"lo\0", &mut out);
    is_written(
        &rt,
        len,
        &out,
        &[0x07, 0x00, 0x03, 0x00, 0x6c, 0x6f, 0x00, 0x00],
    );
    let len = write_u8_payload(1, &[7], &mut out);
    is_written(
        &rt,
        len,
        &out,
        &[0x05, 0x00, 0x01, 0x00, 0x07, 0x00, 0x00, 0x00],
    );
    let len = write_u16_payload(68, &[0x01, 0x02], &mut out);
    is_written(
        &rt,
        len,
        &out,
        &[0x06, 0x00, 0x44, 0x00, 0x01, 0x02, 0x00, 0x00],
    );
    let len = write_u32_payload(4, &[0xdc, 0x05, 0x00, 0x00], &mut out);
    is_written(
        &rt,
        len,
        &out,
        &[0x08, 0x00, 0x04, 0x00, 0xdc, 0x05, 0x00, 0x00],
    );
    let len = write_i32_payload(28, &[255; 4], &mut out);
    is_written(
        &rt,
        len,
        &out,
        &[0x08, 0x00, 0x1c, 0x00, 0xff, 0xff, 0xff, 0xff],
    );
}

#[test]
fn writes_long_payloads(rt: HostRuntime) {
    let mut out = [255; 13];
    let len = write_u64_payload(
        0,
        &[0x01, 0x00, 0x00, 0x00, 0x00, 0x00, 0x00, 0x02],
        &mut out,
    );
    is_written(
        &rt,
        len,
        &out,
        &[
            0x0c, 0x00, 0x00, 0x00, 0x01, 0x00, 0x00, 0x00, 0x00, 0x00, 0x00, 0x02,
        ],
    );
    let mut out = [255; 21];
    let len = write_ipv6_addr_payload(7, &[1; 16], &mut out);
    let text = [
        0x14, 0x00, 0x07, 0x00, 0x01, 0x01, 0x01, 0x01, 0x01, 0x01, 0x01, 0x01, 0x01, 0x01, 0x01,
        0x01, 0x01, 0x01, 0x01, 0x01,
    ];
    is_written(&rt, len, &out, &text);
}

#[test]
#[tactic(auto, unfolding(nla_wire::specs::Fields::zero_filled))]
fn cuts_and_fills_payloads(rt: HostRuntime) {
    let mut out = [255; 16];
    let len = write_filled_payload(7, 4, &[0x01, 0x02], &mut out);
    is_written(
        &rt,
        len,
        &out,
        &[0x08, 0x00, 0x07, 0x00, 0x01, 0x02, 0x00, 0x00],
    );
    let len = write_filled_payload(7, 4, &[0x01, 0x02, 0x03, 0x04, 0x05], &mut out);
    is_written(
        &rt,
        len,
        &out,
        &[0x08, 0x00, 0x07, 0x00, 0x01, 0x02, 0x03, 0x04],
    );
    let len = write_filled_payload(7, 4, &[], &mut out);
    is_written(
        &rt,
        len,
        &out,
        &[0x08, 0x00, 0x07, 0x00, 0x00, 0x00, 0x00, 0x00],
    );
    let len = write_filled_payload(7, 5, &[0x01, 0x02], &mut out);
    is_written(
        &rt,
        len,
        &out,
        &[
            0x09, 0x00, 0x07, 0x00, 0x01, 0x02, 0x00, 0x00, 0x00, 0x00, 0x00, 0x00,
        ],
    );
}

/// A text of the payload's bytes is written with one NUL, whether the payload ends in one or not.
#[test]
fn writes_texts_of_payloads(rt: HostRuntime) {
    let text = [
        0x09, 0x00, 0x35, 0x00, 0x77, 0x61, 0x6e, 0x30, 0x00, 0x00, 0x00, 0x00,
    ];
    for payload in [b"wan0\0".as_slice(), b"wan0"] {
        let mut out = [255; 13];
        assert!(rt; measure_text(payload) == Some(5));
        let len = write_text_payload(53, payload, &mut out);
        is_written(&rt, len, &out, &text);
    }
}

/// Of numbers and addresses only payloads of their own length have one.
#[test]
fn measures_numbers_and_addresses(rt: HostRuntime) {
    let zeros = [0; 18];
    for len in 0..18 {
        let payload = &zeros[..len];
        fits_in(&rt, measure_u8(payload), len, 1);
        fits_in(&rt, measure_u16(payload), len, 2);
        fits_in(&rt, measure_u32(payload), len, 4);
        fits_in(&rt, measure_u64(payload), len, 8);
        fits_in(&rt, measure_i32(payload), len, 4);
        fits_in(&rt, measure_ipv6_addr(payload), len, 16);
    }
}

/// Payloads, and the length of their texts.
const TEXTS: &[(&[u8], Option<usize>)] = &[
    (b"", Some(1)),
    (b"\0", Some(1)),
    (b"\0\0", Some(2)),
    (b"lo", Some(3)),
    (b"lo\0", Some(3)),
    (&[0xc3, 0xa4, 0x00], Some(3)),
    (&[0xc3, 0x28], None),
    (&[0xc3, 0x00], None),
    (&[0x6c, 0xff, 0x6f], None),
];

#[test]
fn measures_texts(rt: HostRuntime) {
    for (payload, wanted) in TEXTS {
        is_at(&rt, payload.len(), &measure_text(payload), wanted);
    }
}

/// So many letters, and so many NULs after them.
fn letters(rt: &impl Abort, alloc: Global, count: usize, nuls: usize) -> Vec<u8> {
    let mut bytes = room_of(rt, alloc, 97, count);
    for _ in 0..nuls {
        bytes.push(0).expect(rt, "memory");
    }
    bytes
}

/// How many letters and NULs, and the length of their text.
const LONG_TEXTS: &[(usize, usize, Option<usize>)] = &[
    (65529, 0, Some(65530)),
    (65530, 0, Some(65531)),
    (65531, 0, None),
    (65529, 2, Some(65531)),
    (65530, 1, Some(65531)),
    (65530, 2, None),
    (65531, 1, None),
];

/// A text of 65530 bytes and its NUL are as much as an attribute's value may be.
#[test]
fn measures_the_longest_texts(rt: HostRuntime) {
    for (count, nuls, wanted) in LONG_TEXTS {
        let payload = letters(&rt, rt.alloc(), *count, *nuls);
        is_at(&rt, *count, &measure_text(payload.as_slice()), wanted);
    }
}

#[test]
#[tactic(auto, unfolding(nla_wire::specs::Payloads::read_text))]
fn writes_the_longest_text(rt: HostRuntime) {
    for nuls in [0, 1] {
        let payload = letters(&rt, rt.alloc(), 65530, nuls);
        let mut out = [255; 65537];
        assert!(rt; measure_text(payload.as_slice()) == Some(65531));
        let len = write_text_payload(20, payload.as_slice(), &mut out);
        is_at(&rt, nuls, &len, &65536);
        is_text(&rt, &out[..4], &[0xff, 0xff, 0x14, 0x00]);
        is_text(&rt, &out[4..65534], &[0x61; 65530]);
        is_text(&rt, &out[65534..], &[0x00, 0x00, 0xff]);
    }
}
