//! What the tests share.

ghost use Rattle.std.specs.Prelude.{◌≡◌, length};

use expected::{cause_of, equal, filled, is_stored, kept};
use nla_wire::exact::same;
use nla_wire::{Cause, CloneIn, DecodeError, DefaultNla, Exact};
use std::alloc::Global;
use std::fmt::{Debug, Display};
use std::process::Abort;

/// An attribute that is kept as it is.
pub(crate) fn kept_of(rt: &impl Abort, alloc: Global, kind: u16, value: &[u8]) -> DefaultNla {
    kept(alloc, kind, value).expect(rt, "memory")
}

/// So many bytes of this one.
pub(crate) fn room_of(rt: &impl Abort, alloc: Global, byte: u8, count: usize) -> Vec<u8>
    ensures { length result.items ≡ count }
{
    filled(alloc, byte, count).expect(rt, "memory")
}

/// A copy of a value, which is equal to it.
pub(crate) fn copied<N: Exact + CloneIn + Drop>(rt: &impl Abort, alloc: Global, value: &N) -> N {
    let copy = value.clone_in(alloc).expect(rt, "memory");
    assert!(rt; same(&copy, value));
    copy
}

/// Nothing was read, for this cause.
pub(crate) fn refuses<T: Drop>(rt: &impl Abort, read: Result<T, DecodeError>, wanted: Cause) {
    assert_eq!(rt; cause_of(read), Some(wanted));
}

/// This many bytes were too few to be read.
pub(crate) fn too_few<T: Drop>(
    rt: &impl Abort,
    read: Result<T, DecodeError>,
    got: usize,
    need: usize,
) {
    refuses(rt, read, Cause::TooShort { got, need });
}

/// What the label names holds.
pub(crate) fn holds(rt: &impl Abort, label: &str, what: bool) {
    assert!(rt; what, "{label}");
}

/// The bytes are these.
pub(crate) fn is_text(rt: &impl Abort, found: &[u8], wanted: &[u8]) {
    assert!(rt; equal(found, wanted), "{found:?}, not {wanted:?}");
}

/// So many bytes were written to the front of a buffer of 255, and are this text.
pub(crate) fn is_written(rt: &impl Abort, len: usize, out: &[u8], text: &[u8]) {
    assert!(rt; is_stored(len, out, text), "{len} of {out:?}, not {text:?}");
}

/// Two values are equal.
pub(crate) fn is_same<T: PartialEq + Debug>(rt: &impl Abort, found: &T, wanted: &T) {
    assert_eq!(rt; found, wanted);
}

/// This value was read.
pub(crate) fn is_read<T: PartialEq + Debug + Drop>(
    rt: &impl Abort,
    read: Result<T, DecodeError>,
    wanted: &T,
) {
    is_same(rt, &read.expect(rt, "memory"), wanted);
}

/// A number means this value, which is written as the other.
pub(crate) fn means<N: Copy + Display + PartialEq + From<T>, T: Copy + PartialEq + From<N>>(
    rt: &impl Abort,
    number: N,
    value: T,
    written: N,
) {
    assert!(rt; T::from(number) == value, "read from {number}");
    assert!(rt; N::from(value) == written, "written from that of {number}");
}

/// Each number means the value beside it, which is written as the other number.
pub(crate) fn are_written<N, T>(rt: &impl Abort, rows: &[(N, T, N)])
where
    N: Copy + Display + PartialEq + From<T>,
    T: Copy + PartialEq + From<N>,
{
    for (number, value, written) in rows {
        means(rt, *number, *value, *written);
    }
}

/// Each number means the value beside it, which is written as the number.
pub(crate) fn are_numbers<N, T>(rt: &impl Abort, rows: &[(N, T)])
where
    N: Copy + Display + PartialEq + From<T>,
    T: Copy + PartialEq + From<N>,
{
    for (number, value) in rows {
        means(rt, *number, *value, *number);
    }
}

/// The same, and the value is printed as the text.
pub(crate) fn are_named<N, T>(rt: &impl Abort, alloc: Global, rows: &[(N, T, &str)])
where
    N: Copy + Display + PartialEq + From<T>,
    T: Copy + Display + PartialEq + From<N>,
{
    for (number, value, text) in rows {
        means(rt, *number, *value, *number);
        prints(rt, alloc, value, text);
    }
}

/// A value is printed as this text.
pub(crate) fn prints<T: Display>(rt: &impl Abort, alloc: Global, value: &T, wanted: &str) {
    let text = format!(in alloc; "{value}").expect(rt, "memory");
    assert!(rt; text.as_str() == wanted, "{value}, not {wanted}");
}

/// A value is printed for a programmer as this text.
pub(crate) fn prints_as<T: Debug>(rt: &impl Abort, alloc: Global, value: &T, wanted: &str) {
    let text = format!(in alloc; "{value:?}").expect(rt, "memory");
    assert!(rt; text.as_str() == wanted, "{value:?}, not {wanted}");
}

/// Of a row that this number names two values are equal.
pub(crate) fn is_at<T: PartialEq + Debug>(rt: &impl Abort, at: usize, found: &T, wanted: &T) {
    assert_eq!(rt; found, wanted, "at {at}");
}

/// A payload of so many bytes was measured, where only one of the wanted length has a text.
pub(crate) fn fits_in(rt: &impl Abort, found: Option<usize>, len: usize, wanted: usize) {
    let answer = if len == wanted { Some(wanted) } else { None };
    is_at(rt, len, &found, &answer);
}
