//! Whether two values that hold no others are shown as the same.

ghost use Rattle.std.specs.Prelude.{◌≡◌, [], IfOk, true};
ghost use Rattle.frame_diff.specs.Differences.{is_shown_same};
ghost use Rattle.frame_diff.specs.Forests.{is_text};
ghost use Rattle.frame_diff.specs.Values.{AreShownAlike, value_shown};

use crate::leaf::show::push_text;
use crate::leaf::{Texts, Value};
use frame_shown::depth::Depth;
use frame_shown::form::Around;
use std::alloc::{AllocError, Global};
use std::mem;

/// The most bytes of a text whose room is kept for the next one.
const MOST_KEPT: usize = 4096;

/// Takes the room of a text, to write the next one there.
fn take_room(alloc: Global, kept: &mut Vec<u8>) -> Vec<u8>
    ensures { result.items ≡ [] }
{
    let mut text = mem::replace(kept, Vec::new(alloc));
    text.clear();
    text
}

/// Keeps the room of a text for the next one.
fn keep_room(text: Vec<u8>, kept: &mut Vec<u8>) {
    if text.capacity() <= MOST_KEPT {
        *kept = text;
    }
}

/// Whether two texts are the same.
pub(crate) fn is_same(one: &[u8], other: &[u8]) -> bool
    ensures { result ≡ is_text one.now other.now }
{
    one == other
}

/// Whether two values are known to be shown as the same, whatever they are shown by.
fn is_plainly_same(was: Value<'_>, is: Value<'_>) -> bool
    ensures { result ≡ true → AreShownAlike was.entry is.entry }
{
    match (was, is) {
        (Value::Unsigned(was), Value::Unsigned(is)) => was == is,
        (Value::Signed(was), Value::Signed(is)) => was == is,
        (Value::LinkFlags(was), Value::LinkFlags(is)) => was == is,
        (Value::VlanFlags(was), Value::VlanFlags(is)) => was == is,
        (Value::Octets(was), Value::Octets(is)) => is_same(was, is),
        _ => false,
    }
}

/// Whether two values have the same text.
fn is_text_same<D: Depth>(
    texts: &mut Texts,
    cx: &Around<'_>,
    theirs: &Around<'_>,
    was: Value<'_>,
    is: Value<'_>,
) -> Result<bool, AllocError>
    ensures { IfOk result (λ same. same
        ≡ is_shown_same (value_shown (D.nest cx.now) cx.now was.entry)
        (value_shown (D.nest theirs.now) theirs.now is.entry)) }
{
    let mut one = take_room(texts.alloc, &mut texts.one);
    let mut other = take_room(texts.alloc, &mut texts.other);
    push_text::<D>(cx, &mut texts.room, was, &mut one)?;
    push_text::<D>(theirs, &mut texts.room, is, &mut other)?;
    let same = is_same(one.as_slice(), other.as_slice());
    keep_room(one, &mut texts.one);
    keep_room(other, &mut texts.other);
    Ok(same)
}

/// Whether two values are shown as the same.
pub(crate) fn is_shown_same<D: Depth>(
    texts: &mut Texts,
    cx: &Around<'_>,
    theirs: &Around<'_>,
    was: Value<'_>,
    is: Value<'_>,
) -> Result<bool, AllocError>
    ensures { IfOk result (λ same. same
        ≡ is_shown_same (value_shown (D.nest cx.now) cx.now was.entry)
        (value_shown (D.nest theirs.now) theirs.now is.entry)) }
{
    if is_plainly_same(was, is) {
        return Ok(true);
    }
    is_text_same::<D>(texts, cx, theirs, was, is)
}
