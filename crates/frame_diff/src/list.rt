//! What differs between the attributes of two lists.

ghost use Rattle.std.specs.Prelude.{◌≡◌, IfOk, OnOk, false, true};
ghost use Rattle.nla_wire.specs.Items.{items};
ghost use Rattle.shown.specs.Drafts.{with_members};
ghost use Rattle.frame_shown.specs.Frames.{are_twice};
ghost use Rattle.frame_shown.specs.Items.{objects};
ghost use Rattle.frame_diff.specs.Forests.{forest};
ghost use Rattle.frame_diff.specs.Items.{items_told};
ghost use Rattle.frame_diff.specs.Walked.{AreAlike, HasNames, IsTail, NoneBehind, StandsSingle, frame_items};
ghost use Rattle.frame_diff.specs.Walked.{named_at, reading_at};

pub(crate) mod by_name;
mod by_number;

use crate::leaf::Texts;
use crate::list::by_name::tell_frame;
use crate::list::by_number::{has_no_row, tell_found};
use crate::lookup::{behind, look_up};
use crate::walk::{Attributes, Pass, Walk};
use frame_shown::list::has_twice;
use nla_wire::{NlaBuffer, NlasIterator};
use shown::Page;
use std::alloc::AllocError;

/// Tells of an attribute, and returns where to look for the next one in the other list. One without a row is kept as it
/// is, and passed over at once: such numbers may be many.
fn tell_next<'a, W: Walk>(
    texts: &mut Texts,
    pass: Pass,
    page: &mut Page,
    path: &str,
    behind: Attributes<'_>,
    others: Attributes<'a>,
    frame: &NlaBuffer<'_>,
    is_single: bool,
    is_once: bool,
    there: &'a [u8],
) -> Result<&'a [u8], AllocError>
    requires names { HasNames behind.around.now }
    requires single { is_single ≡ true → NoneBehind frame.now behind }
    requires rows { pass.is_alike ≡ true → AreAlike behind others }
    requires once { is_once ≡ true → StandsSingle pass.is_alike behind others frame.now }
    requires tail { IsTail others.bytes.now there.now }
    ensures told { OnOk result (page.new ≡ with_members (objects (frame_items pass.side path.now
        (reading_at W.nest W.inner pass.is_state behind.entry.around.now) behind.entry.list
        (forest (named_at W.nest W.inner pass.is_state others.entry))
        (named_at W.nest W.inner pass.is_state behind.entry) frame.now)) page.old) }
    ensures tail { IfOk result (λ next. IsTail others.entry.bytes.now next.now) }
{
    if has_no_row(frame.kind()) {
        return Ok(there);
    }
    if !is_once {
        tell_frame::<W>(texts, pass, page, path, behind, others, is_single, frame)?;
        return Ok(there);
    }
    let (beside, next) = look_up(frame.kind(), there, others.bytes);
    tell_found::<W>(texts, pass, page, path, behind, others, frame, &beside)?;
    Ok(next)
}

/// Whether no number stands twice in a list.
pub(crate) fn is_single(own: Attributes<'_>) -> bool
    ensures { result ≡ true → are_twice (items own.entry.bytes.now) ≡ false }
{
    !has_twice(own.bytes)
}

/// Whether no number stands twice in another list either, of which the rows are known to be the same.
fn is_once(pass: Pass, is_single: bool, others: Attributes<'_>) -> bool
    ensures { result ≡ true → (pass.is_alike ≡ true) × (is_single ≡ true)
        × (are_twice (items others.entry.bytes.now) ≡ false) }
{
    pass.is_alike && is_single && !has_twice(others.bytes)
}

/// Tells of the attributes of a list that have a name, each beside that of its name in another list. Where the rows of
/// both are the same and no number stands twice, each is looked for by its number, behind the one before it.
pub(crate) fn tell_named<W: Walk>(
    texts: &mut Texts,
    pass: Pass,
    page: &mut Page,
    path: &str,
    own: Attributes<'_>,
    others: Attributes<'_>,
    is_single: bool,
) -> Result<(), AllocError>
    requires names { HasNames own.around.now }
    requires rows { pass.is_alike ≡ true → AreAlike own others }
    requires single { is_single ≡ true → are_twice (items own.bytes.now) ≡ false }
    ensures { OnOk result (page.new ≡ with_members (objects (items_told pass.side path.now
        (forest (named_at W.nest W.inner pass.is_state own.entry))
        (forest (named_at W.nest W.inner pass.is_state others.entry)))) page.old) }
{
    let is_once = is_once(pass, is_single, others);
    let mut rest = own.bytes;
    let mut there = others.bytes;
    for item in NlasIterator::new(own.bytes) {
        let Ok(frame) = item else {
            break;
        };
        rest = behind(rest, &frame);
        let left = Attributes { bytes: rest, ..own };
        there = tell_next::<W>(
            texts, pass, page, path, left, others, &frame, is_single, is_once, there,
        )?;
    }
    Ok(())
}
