//! Lists of attributes that are all kept, read, checked and written again.

use crate::testing::{has_cause, holds};
use expected::{GROWTH, equal, is_stored};
use link_vf::{VfPort, VfStats};
use nla_wire::laws::{law_list_room, law_room};
use nla_wire::*;

/// Two attributes, of kinds 2 nested and 1. The last lacks its padding.
const TWO: [u8; 9] = [0x04, 0x00, 0x02, 0x80, 0x05, 0x00, 0x01, 0x00, 0x07];

/// The second of them with its padding.
const SECOND: [u8; 8] = [0x05, 0x00, 0x01, 0x00, 0x07, 0x00, 0x00, 0x00];

#[test]
fn reads_lists(rt: HostRuntime) {
    let all = VfPort::parse_list(rt.alloc(), &TWO).expect(&rt, "it is read");
    assert!(rt; all.len() == 2);
    assert!(rt; all[0].kind() == 0x8002);
}

#[test]
fn refuses_lists(rt: HostRuntime) {
    let short = &TWO[..8];
    let over = Some(Cause::FrameOver { length: 5, left: 4 });
    has_cause(&rt, VfPort::parse_list(rt.alloc(), short), over);
    has_cause(&rt, VfPort::check_list(short), over);
}

#[test]
fn measures_lists(rt: HostRuntime) {
    for (label, bytes, wanted) in [
        ("two attributes", TWO.as_slice(), Some(12)),
        ("the second of them", &SECOND, Some(8)),
        ("no bytes", &[], Some(0)),
        ("the second is cut", &TWO[..8], None),
    ] {
        holds(&rt, label, VfPort::measure_list(bytes) == wanted);
        holds(&rt, label, VfPort::measure_nested(bytes) == wanted);
        let members = measure_members::<VfPort, OwnPlace>(&OwnPlace, bytes);
        holds(&rt, label, members == wanted);
        let nested = measure_nested_members::<VfPort, OwnPlace>(&OwnPlace, bytes);
        holds(&rt, label, nested == wanted);
    }
}

#[test]
fn writes_lists(rt: HostRuntime) {
    let mut out = [255; 13];
    assert!(rt; VfPort::check_list(&TWO).is_ok());
    assert!(rt; VfPort::measure_list(&TWO) == Some(12));
    assert!(rt; VfPort::canon_list(&TWO, &mut out) == Some(12));
    assert!(rt;
        is_stored(
            12,
            &out,
            &[
                0x04, 0x00, 0x02, 0x80, 0x05, 0x00, 0x01, 0x00, 0x07, 0x00, 0x00, 0x00
            ]
        )
    );
    let mut out = [255; 17];
    assert!(rt; VfPort::measure_nested(&TWO) == Some(12));
    let len = VfPort::write_nested(52 | NLA_F_NESTED, &TWO, &mut out);
    let text = [
        0x10, 0x00, 0x34, 0x80, 0x04, 0x00, 0x02, 0x80, 0x05, 0x00, 0x01, 0x00, 0x07, 0x00, 0x00,
        0x00,
    ];
    assert!(rt; is_stored(len, &out, &text));
}

/// A list stands after what was written before it.
#[test]
fn adds_lists(rt: HostRuntime) {
    let mut out = [255; 14];
    assert!(rt; measure_members::<VfPort, OwnPlace>(&OwnPlace, &TWO) == Some(12));
    let len = write_members::<VfPort, OwnPlace>(&OwnPlace, &TWO, &mut out[1..]);
    assert!(rt; len == 12);
    assert!(rt;
        equal(
            &out,
            &[
                0xff, 0x04, 0x00, 0x02, 0x80, 0x05, 0x00, 0x01, 0x00, 0x07, 0x00, 0x00, 0x00, 0xff
            ]
        )
    );
    let mut out = [255; 17];
    assert!(rt; measure_nested_members::<VfPort, OwnPlace>(&OwnPlace, &TWO) == Some(12));
    let len = write_nested_members::<VfPort, OwnPlace>(&OwnPlace, 52, &TWO, &mut out);
    let text = [
        0x10, 0x00, 0x34, 0x00, 0x04, 0x00, 0x02, 0x80, 0x05, 0x00, 0x01, 0x00, 0x07, 0x00, 0x00,
        0x00,
    ];
    assert!(rt; is_stored(len, &out, &text));
}

/// Lists that must not be empty.
#[test]
fn writes_lists_of_some(rt: HostRuntime) {
    assert!(rt; VfPort::measure_some(&[]).is_none());
    assert!(rt; VfPort::measure_some(&TWO[..8]).is_none());
    assert!(rt; VfPort::measure_some(&TWO) == Some(12));
    let mut out = [255; 17];
    let len = VfPort::write_some(25, &TWO, &mut out);
    let text = [
        0x10, 0x00, 0x19, 0x00, 0x04, 0x00, 0x02, 0x80, 0x05, 0x00, 0x01, 0x00, 0x07, 0x00, 0x00,
        0x00,
    ];
    assert!(rt; is_stored(len, &out, &text));
}

#[test]
fn writes_members(rt: HostRuntime) {
    let frame = NlaBuffer::new_checked(&TWO[4..]).expect(&rt, "it is read");
    let mut out = [255; 9];
    assert!(rt; VfPort::measure_frame(&frame) == Some(1));
    let len = VfPort::write_frame(&frame, &mut out);
    assert!(rt; is_stored(len, &out, &SECOND));
    let mut out = [255; 9];
    assert!(rt; VfPort::canon(&frame, &mut out) == Some(8));
    assert!(rt; is_stored(8, &out, &SECOND));
}

/// What was not measured is written where there are `GROWTH` bytes for each byte that is read.
#[test]
fn writes_into_long_buffers(rt: HostRuntime) {
    let mut out = [255; 9 * GROWTH];
    law_list_room::<VfPort>(&TWO);
    assert!(rt; VfPort::canon_list(&TWO, &mut out) == Some(12));
    assert!(rt;
        is_stored(
            12,
            &out,
            &[
                0x04, 0x00, 0x02, 0x80, 0x05, 0x00, 0x01, 0x00, 0x07, 0x00, 0x00, 0x00
            ]
        )
    );
    let frame = NlaBuffer::new_checked(&TWO[4..]).expect(&rt, "it is read");
    let mut out = [255; 5 * GROWTH];
    assert!(rt; frame.value().len() == 1);
    law_room::<VfPort>(&frame);
    assert!(rt; VfPort::canon(&frame, &mut out) == Some(8));
    assert!(rt; is_stored(8, &out, &SECOND));
}

/// A counter of seven bytes is refused, and nothing is written.
#[test]
fn writes_no_refused_members(rt: HostRuntime) {
    let frame = NlaBuffer::new_checked(&[
        0x0b, 0x00, 0x00, 0x00, 0x01, 0x02, 0x03, 0x04, 0x05, 0x06, 0x07,
    ])
    .expect(&rt, "it is read");
    let mut out = [255; 12];
    assert!(rt; VfStats::measure_frame(&frame).is_none());
    assert!(rt; VfStats::canon(&frame, &mut out).is_none());
    assert!(rt; equal(&out, &[255; 12]));
}
