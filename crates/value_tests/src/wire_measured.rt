//! Values that are measured, and then written to the front of a buffer, alone and one after the other.

ghost use Rattle.std.proofs.Common.{rules};
ghost use Rattle.std.specs.Prelude.{◌<◌};
ghost use Rattle.std.specs.Int.{w16, to_le_bytes};

use crate::testing::{is_at, is_text, is_written, room_of};
use nla_wire::*;
use std::alloc::Global;
use std::process::Abort;

/// An attribute of this kind that is kept as it is, of so many bytes of 97.
fn letters(rt: &impl Abort, alloc: Global, kind: u16, count: usize) -> DefaultNla {
    DefaultNla::new(kind, room_of(rt, alloc, 97, count))
}

/// A number below 1000, which is written as the attribute of kind 9. It says only what each value has to say.
#[derive(Clone, Copy)]
struct Small {
    number: u16,
}

impl Nla for Small {
    ghost frame = { λ s. record { kind = 9; payload = to_le_bytes w16 s.number } };

    ghost fits = { λ s. s.number < 1000 };

    ghost is_small = { Prim.search rules };

    fn kind(&self) -> u16 {
        9
    }

    fn fits(&self) -> bool {
        self.number < 1000
    }

    fn value_len(&self) -> usize {
        2
    }

    fn fill_value(&self, buffer: &mut [u8]) -> usize {
        fill_bytes(buffer, &self.number.to_le_bytes())
    }
}

#[test]
fn measures_what_fits(rt: HostRuntime) {
    assert!(rt; Small { number: 1000 }.measure().is_none());
    let small = Small { number: 999 };
    assert!(rt; small.measure() == Some(2));
    let mut out = [255; 9];
    let len = small.write(&mut out);
    is_written(
        &rt,
        len,
        &out,
        &[0x06, 0x00, 0x09, 0x00, 0xe7, 0x03, 0x00, 0x00],
    );
    let both = [small, Small { number: 1000 }];
    assert!(rt; nlas_measure(&both).is_none());
    assert!(rt; nlas_measure(&both[..1]) == Some(8));
}

#[test]
fn measures_values(rt: HostRuntime) {
    for (count, wanted) in [
        (0, Some(0)),
        (1, Some(1)),
        (4, Some(4)),
        (65531, Some(65531)),
        (65532, None),
    ] {
        let nla = letters(&rt, rt.alloc(), 20, count);
        is_at(&rt, count, &nla.measure(), &wanted);
        is_at(&rt, count, &nla.fits(), &wanted.is_some());
    }
}

#[test]
fn writes_values(rt: HostRuntime) {
    let kept = DefaultNla::new(1, Vec::from_slice(rt.alloc(), &[7]).expect(&rt, "memory"));
    assert!(rt; kept.fits());
    assert!(rt; kept.measure() == Some(1));
    assert!(rt; kept.buffer_len() == 8);
    let mut out = [255; 9];
    let len = kept.write(&mut out);
    is_written(
        &rt,
        len,
        &out,
        &[0x05, 0x00, 0x01, 0x00, 0x07, 0x00, 0x00, 0x00],
    );
    let none = letters(&rt, rt.alloc(), 0xc02a, 0);
    assert!(rt; none.measure() == Some(0));
    let mut out = [255; 9];
    let len = none.write(&mut out);
    is_written(&rt, len, &out, &[0x04, 0x00, 0x2a, 0xc0]);
}

#[test]
fn writes_the_longest_value(rt: HostRuntime) {
    let longest = letters(&rt, rt.alloc(), 20, 65531);
    let mut out = room_of(&rt, rt.alloc(), 255, 65537);
    let out = out.as_mut_slice();
    assert!(rt; out.len() == 65537);
    assert!(rt; longest.measure() == Some(65531));
    assert!(rt; longest.write(out) == 65536);
    is_text(&rt, &out[..4], &[0xff, 0xff, 0x14, 0x00]);
    is_text(&rt, &out[4..65535], &[0x61; 65531]);
    is_text(&rt, &out[65535..], &[0x00, 0xff]);
}

/// An attribute of one letter and one of none.
fn two(rt: &impl Abort, alloc: Global) -> [DefaultNla; 2] {
    [letters(rt, alloc, 1, 1), letters(rt, alloc, 0x8002, 0)]
}

#[test]
fn writes_lists(rt: HostRuntime) {
    let nlas = two(&rt, rt.alloc());
    assert!(rt; nlas_measure(&nlas) == Some(12));
    let mut out = [255; 13];
    let len = nlas_write(&nlas, &mut out);
    is_written(
        &rt,
        len,
        &out,
        &[
            0x05, 0x00, 0x01, 0x00, 0x61, 0x00, 0x00, 0x00, 0x04, 0x00, 0x02, 0x80,
        ],
    );
    assert!(rt; list_measure(&nlas) == Some(12));
    let mut out = [255; 17];
    let len = write_list(52, &nlas, &mut out);
    is_written(
        &rt,
        len,
        &out,
        &[
            0x10, 0x00, 0x34, 0x00, 0x05, 0x00, 0x01, 0x00, 0x61, 0x00, 0x00, 0x00, 0x04, 0x00,
            0x02, 0x80,
        ],
    );
}

#[test]
fn writes_empty_lists(rt: HostRuntime) {
    let none: &[DefaultNla] = &[];
    assert!(rt; nlas_measure(none) == Some(0));
    let mut out = [255; 5];
    let len = nlas_write(none, &mut out);
    is_written(&rt, len, &out, &[]);
    assert!(rt; list_measure(none) == Some(0));
    let len = write_list(0x8034, none, &mut out);
    is_written(&rt, len, &out, &[0x04, 0x00, 0x34, 0x80]);
}

/// A list that is the value of an attribute has at most 65531 bytes of text, and so at most 65528. One that is not may
/// have more.
#[test]
fn measures_long_lists(rt: HostRuntime) {
    let alloc = rt.alloc();
    for (first, second, all, nested) in [
        (65524, None, Some(65528), Some(65528)),
        (65525, None, Some(65532), None),
        (65520, Some(0), Some(65528), Some(65528)),
        (65520, Some(1), Some(65532), None),
        (65531, Some(65531), Some(131072), None),
        (65532, Some(0), None, None),
        (0, Some(65532), None, None),
    ] {
        let mut nlas = Vec::new(alloc);
        nlas.push(letters(&rt, alloc, 1, first))
            .expect(&rt, "memory");
        if let Some(count) = second {
            nlas.push(letters(&rt, alloc, 2, count))
                .expect(&rt, "memory");
        }
        let nlas = nlas.as_slice();
        is_at(&rt, first, &nlas_measure(nlas), &all);
        is_at(&rt, first, &list_measure(nlas), &nested);
        is_at(&rt, first, &nlas_fit(nlas), &all.is_some());
        is_at(&rt, first, &list_fits(nlas), &nested.is_some());
    }
}

#[test]
fn writes_the_longest_list(rt: HostRuntime) {
    let nlas = [letters(&rt, rt.alloc(), 1, 65524)];
    let mut out = [255; 65533];
    assert!(rt; list_measure(&nlas) == Some(65528));
    assert!(rt; write_list(52, &nlas, &mut out) == 65532);
    is_text(
        &rt,
        &out[..8],
        &[0xfc, 0xff, 0x34, 0x00, 0xf8, 0xff, 0x01, 0x00],
    );
    is_text(&rt, &out[8..65532], &[0x61; 65524]);
    is_text(&rt, &out[65531..], &[0x61, 0xff]);
}
