//! What the tests share: values in memory of their own, and what holds of a row; for the proof: what the calls promise
//! stays here.

ghost use Rattle.std.specs.Prelude.{IsTrue};

use expected::{bytes_from, cause_of, kept, kept_byte, list, text_from, vec_from, wrong_bad_frame};
use nla_wire::{Bytes, Cause, DecodeError, DefaultNla, List, NlaRead, Text};
use std::alloc::Global;
use std::fmt::Debug;
use std::process::Abort;

/// What the label names holds.
pub(crate) fn holds(rt: &impl Abort, label: &str, what: bool)
    ensures { IsTrue what }
{
    assert!(rt; what, "{label}");
}

/// Of what the label names two values are equal.
pub(crate) fn is_same<T: PartialEq + Debug>(rt: &impl Abort, label: &str, found: &T, wanted: &T) {
    assert_eq!(rt; found, wanted, "{label}");
}

/// A list of these members is refused where a frame in it is damaged.
pub(crate) fn refuses_bad_frames<N: NlaRead>(rt: &impl Abort, alloc: Global) {
    is_same(rt, "a damaged frame", &wrong_bad_frame::<N>(alloc), &None);
}

/// What a read is refused for, or nothing.
pub(crate) fn has_cause<T: Drop>(
    rt: &impl Abort,
    read: Result<T, DecodeError>,
    wanted: Option<Cause>,
) {
    is_same(rt, "what it is refused for", &cause_of(read), &wanted);
}

/// A text of these letters.
pub(crate) fn text_of(rt: &impl Abort, alloc: Global, letters: &str) -> Text {
    text_from(alloc, letters).expect(rt, "memory")
}

/// These bytes as a value.
pub(crate) fn bytes_of(rt: &impl Abort, alloc: Global, bytes: &[u8]) -> Bytes {
    bytes_from(alloc, bytes).expect(rt, "memory")
}

/// These bytes in memory of their own.
pub(crate) fn vec_of(rt: &impl Abort, alloc: Global, bytes: &[u8]) -> Vec<u8> {
    vec_from(alloc, bytes).expect(rt, "memory")
}

/// An attribute that is kept as it is.
pub(crate) fn kept_of(rt: &impl Abort, alloc: Global, kind: u16, value: &[u8]) -> DefaultNla {
    kept(alloc, kind, value).expect(rt, "memory")
}

/// An attribute that is kept, with this byte of payload.
pub(crate) fn kept_byte_of(rt: &impl Abort, alloc: Global, byte: u8) -> DefaultNla {
    kept_byte(alloc, byte).expect(rt, "memory")
}

/// A list of these values.
pub(crate) fn list_of<T: Drop, const N: usize>(
    rt: &impl Abort,
    alloc: Global,
    values: [T; N],
) -> List<T> {
    list(alloc, values).expect(rt, "memory")
}
