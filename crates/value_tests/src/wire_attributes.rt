//! Attributes that are kept as they are, and slices of attributes.

use crate::testing::{copied, is_text, kept_of};
use nla_wire::fill::close_frame;
use nla_wire::*;
use std::alloc::Global;
use std::process::Abort;

#[test]
fn keeps_attributes(rt: HostRuntime) {
    let frame = NlaBuffer::new_checked(&[0x06, 0x00, 0x2a, 0xc0, 0xde, 0xad]).expect(
        &rt,
        "it is read",
    );
    let parsed = DefaultNla::parse(rt.alloc(), &frame).expect(&rt, "it is read");
    assert!(rt; parsed.kind() == 0xc02a);
    is_text(&rt, parsed.value(), &[0xde, 0xad]);
    copied(&rt, rt.alloc(), &parsed);
    assert!(rt; kept_of(&rt, rt.alloc(), 0x2a, &[0xde, 0xad]) != parsed);
}

#[test]
fn writes_attributes(rt: HostRuntime) {
    let made = kept_of(&rt, rt.alloc(), 0xc02a, &[0xde, 0xad]);
    assert!(rt; made.fits());
    assert!(rt; made.buffer_len() == 8);
    let mut out = [255; 9];
    made.emit(&mut out);
    is_text(
        &rt,
        &out,
        &[0x06, 0x00, 0x2a, 0xc0, 0xde, 0xad, 0x00, 0x00, 0xff],
    );
    let mut out = [255; 9];
    assert!(rt; made.fill(&mut out) == 1);
    is_text(
        &rt,
        &out,
        &[0xff, 0x06, 0x00, 0x2a, 0xc0, 0xde, 0xad, 0x00, 0x00],
    );
}

#[test]
fn writes_values_alone(rt: HostRuntime) {
    let made = kept_of(&rt, rt.alloc(), 3, &[0x6c, 0x6f]);
    assert!(rt; made.fits());
    assert!(rt; made.value_len() == 2);
    let mut out = [255; 3];
    assert!(rt; made.fill_value(&mut out) == 1);
    is_text(&rt, &out, &[0xff, 0x6c, 0x6f]);
    let mut exact = [255; 2];
    made.emit_value(&mut exact);
    is_text(&rt, &exact, &[0x6c, 0x6f]);
}

/// An attribute of one byte and one of none.
fn two_kept(rt: &impl Abort, alloc: Global) -> [DefaultNla; 2] {
    [kept_of(rt, alloc, 1, &[7]), kept_of(rt, alloc, 0x8002, &[])]
}

#[test]
fn writes_slices(rt: HostRuntime) {
    let nlas = two_kept(&rt, rt.alloc());
    assert!(rt; list_fits(&nlas));
    assert!(rt; nlas_buffer_len(&nlas) == 12);
    let mut out = [255; 13];
    emit_nlas(&nlas, &mut out);
    is_text(
        &rt,
        &out,
        &[
            0x05, 0x00, 0x01, 0x00, 0x07, 0x00, 0x00, 0x00, 0x04, 0x00, 0x02, 0x80, 0xff,
        ],
    );
}

#[test]
fn fills_slices(rt: HostRuntime) {
    let nlas = two_kept(&rt, rt.alloc());
    assert!(rt; list_fits(&nlas));
    assert!(rt; nlas_buffer_len(&nlas) == 12);
    let mut out = [255; 13];
    assert!(rt; nlas_fill(&nlas, &mut out) == 1);
    is_text(
        &rt,
        &out,
        &[
            0xff, 0x05, 0x00, 0x01, 0x00, 0x07, 0x00, 0x00, 0x00, 0x04, 0x00, 0x02, 0x80,
        ],
    );
}

#[test]
fn writes_no_attributes(rt: HostRuntime) {
    let none: &[DefaultNla] = &[];
    assert!(rt; nlas_fit(none));
    let mut out = [255; 3];
    assert!(rt; nlas_fill(none, &mut out) == 3);
    is_text(&rt, &out, &[0xff, 0xff, 0xff]);
}

#[test]
fn closes_frames(rt: HostRuntime) {
    let mut out = [255; 9];
    assert!(rt; finish(&mut out, 2, 0x8003) == 8);
    is_text(
        &rt,
        &out,
        &[0x06, 0x00, 0x03, 0x80, 0xff, 0xff, 0x00, 0x00, 0xff],
    );
    let mut end = [255; 9];
    assert!(rt; close_frame(&mut end, 7, 0x8003) == 1);
    is_text(
        &rt,
        &end,
        &[0xff, 0x06, 0x00, 0x03, 0x80, 0xff, 0xff, 0x00, 0x00],
    );
}

#[test]
fn fills_from_the_end(rt: HostRuntime) {
    let mut end = [255; 5];
    assert!(rt; fill_bytes(&mut end, &[0x01, 0x02]) == 3);
    is_text(&rt, &end, &[0xff, 0xff, 0xff, 0x01, 0x02]);
    assert!(rt; fill_text(&mut end, "lo") == 2);
    is_text(&rt, &end, &[0xff, 0xff, 0x6c, 0x6f, 0x00]);
}
