//! What the tests share: values in memory of their own, messages that are read, and their canonical encodings; for the
//! proof: what the calls promise stays here.

ghost use Rattle.std.specs.Prelude.{IsTrue};

use expected::{bytes_from, cause_of, kept, list, text_from, vec_from};
use link_msg::{
    Bytes, Cause, DefaultNla, LinkMessage, List, RoomError, Text, canonical, canonical_within,
    same_message,
};
use std::alloc::Global;
use std::fmt::Debug;
use std::process::Abort;

/// What the label names holds.
pub(crate) fn holds(rt: &impl Abort, label: &str, what: bool)
    ensures { IsTrue what }
{
    assert!(rt; what, "{label}");
}

/// Of what the label names two values are equal.
pub(crate) fn is_same<T: PartialEq + Debug>(rt: &impl Abort, label: &str, found: &T, wanted: &T) {
    assert_eq!(rt; found, wanted, "{label}");
}

/// A text of these letters.
pub(crate) fn text_of(rt: &impl Abort, alloc: Global, letters: &str) -> Text {
    text_from(alloc, letters).expect(rt, "memory")
}

/// These bytes as a value.
pub(crate) fn value_of(rt: &impl Abort, alloc: Global, bytes: &[u8]) -> Bytes {
    bytes_from(alloc, bytes).expect(rt, "memory")
}

/// These bytes in memory of their own.
pub(crate) fn vec_of(rt: &impl Abort, alloc: Global, bytes: &[u8]) -> Vec<u8> {
    vec_from(alloc, bytes).expect(rt, "memory")
}

/// An attribute that is kept as it is.
pub(crate) fn kept_of(rt: &impl Abort, alloc: Global, kind: u16, value: &[u8]) -> DefaultNla {
    kept(alloc, kind, value).expect(rt, "memory")
}

/// A list of these values.
pub(crate) fn list_of<T: Drop, const N: usize>(
    rt: &impl Abort,
    alloc: Global,
    values: [T; N],
) -> List<T> {
    list(alloc, values).expect(rt, "memory")
}

/// The message that the bytes mean.
pub(crate) fn read_message(rt: &impl Abort, alloc: Global, bytes: &[u8]) -> LinkMessage {
    LinkMessage::parse(alloc, bytes).expect(rt, "it is read")
}

/// What bytes are refused for when they are read, or nothing.
pub(crate) fn cause_read(alloc: Global, bytes: &[u8]) -> Option<Cause> {
    cause_of(LinkMessage::parse(alloc, bytes))
}

/// What bytes are refused for when they are checked, or nothing.
pub(crate) fn cause_checked(bytes: &[u8]) -> Option<Cause> {
    cause_of(LinkMessage::check(bytes))
}

/// The bytes of the canonical encoding that were written into a buffer of any length.
pub(crate) fn written_within(bytes: &[u8], out: &mut [u8]) -> Result<usize, RoomError> {
    canonical_within(bytes, out)
}

/// The canonical encoding of a message.
pub(crate) fn text_made(rt: &impl Abort, alloc: Global, bytes: &[u8]) -> Vec<u8> {
    canonical(alloc, bytes).expect(rt, "it is written")
}

/// Whether two messages, which the label names, mean the same.
pub(crate) fn are_same(
    rt: &impl Abort,
    alloc: Global,
    label: &str,
    one: &[u8],
    other: &[u8],
    wanted: bool,
) {
    let same = same_message(alloc, one, other).expect(rt, "they are compared");
    is_same(rt, label, &same, &wanted);
}
