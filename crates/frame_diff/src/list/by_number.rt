//! What an attribute tells beside the one of its number in another list, where no number stands twice.

ghost use Rattle.std.specs.Prelude.{◌≡◌, OnOk, false, nat_lt, true};
ghost use Rattle.nla_wire.specs.Frames.{number};
ghost use Rattle.nla_wire.specs.Items.{items};
ghost use Rattle.shown.specs.Drafts.{with_members};
ghost use Rattle.frame_shown.specs.Frames.{are_twice};
ghost use Rattle.frame_shown.specs.Items.{objects};
ghost use Rattle.frame_diff.specs.Forests.{forest};
ghost use Rattle.frame_diff.specs.Walked.{AreAlike, HasNames, IsOfNumber, NoneBehind, frame_items, is_there};
ghost use Rattle.frame_diff.specs.Walked.{is_unnamed_there, named_at, reading_at};

use crate::leaf::Texts;
use crate::leaf::compare::is_same;
use crate::list::by_name::{tell_frame, tell_turning};
use crate::lookup::{attribute, attribute_there};
use crate::named::is_unnamed;
use crate::walk::{Attribute, Attributes, Pass, Walk};
use frame_shown::form::row_in;
use nla_wire::NlaBuffer;
use shown::Page;
use std::alloc::AllocError;

/// Whether there is an attribute with this payload.
fn is_there(payload: &[u8], beside: &Option<NlaBuffer<'_>>) -> bool
    ensures { result ≡ is_there payload.now beside.now }
{
    match beside {
        Some(other) => is_same(payload, other.value()),
        None => false,
    }
}

/// Whether an attribute has no name of its own, if there is one.
fn is_unnamed_there(there: Option<Attribute<'_>>) -> bool
    ensures { result ≡ is_unnamed_there there.entry }
{
    match there {
        Some(other) => is_unnamed(other.way, other.payload),
        None => false,
    }
}

/// Tells of an attribute beside the one of its number in another list, where no number stands twice in either.
fn tell_single<W: Walk>(
    texts: &mut Texts,
    pass: Pass,
    page: &mut Page,
    path: &str,
    behind: Attributes<'_>,
    others: Attributes<'_>,
    frame: &NlaBuffer<'_>,
    beside: &Option<NlaBuffer<'_>>,
) -> Result<(), AllocError>
    requires names { HasNames behind.around.now }
    requires alike { pass.is_alike ≡ true }
    requires rows { AreAlike behind others }
    requires none { NoneBehind frame.now behind }
    requires once { are_twice (items others.bytes.now) ≡ false }
    requires found { IsOfNumber (number frame.now) others.bytes.now beside.now }
    ensures { OnOk result (page.new ≡ with_members (objects (frame_items pass.side path.now
        (reading_at W.nest W.inner pass.is_state behind.entry.around.now) behind.entry.list
        (forest (named_at W.nest W.inner pass.is_state others.entry))
        (named_at W.nest W.inner pass.is_state behind.entry) frame.now)) page.old) }
{
    let own = attribute(behind, frame);
    let there = attribute_there(others, beside);
    if is_unnamed(own.way, own.payload) {
        return tell_frame::<W>(texts, pass, page, path, behind, others, true, frame);
    }
    if is_unnamed_there(there) {
        return tell_frame::<W>(texts, pass, page, path, behind, others, true, frame);
    }
    let (name, _) = row_in(behind.around, behind.list, own.number);
    tell_turning::<W>(texts, pass, page, path, name, own, there)
}

/// Tells of an attribute beside the one of its number in another list. One that stands there as it is costs a look.
pub(crate) fn tell_found<W: Walk>(
    texts: &mut Texts,
    pass: Pass,
    page: &mut Page,
    path: &str,
    behind: Attributes<'_>,
    others: Attributes<'_>,
    frame: &NlaBuffer<'_>,
    beside: &Option<NlaBuffer<'_>>,
) -> Result<(), AllocError>
    requires names { HasNames behind.around.now }
    requires alike { pass.is_alike ≡ true }
    requires rows { AreAlike behind others }
    requires none { NoneBehind frame.now behind }
    requires once { are_twice (items others.bytes.now) ≡ false }
    requires found { IsOfNumber (number frame.now) others.bytes.now beside.now }
    ensures { OnOk result (page.new ≡ with_members (objects (frame_items pass.side path.now
        (reading_at W.nest W.inner pass.is_state behind.entry.around.now) behind.entry.list
        (forest (named_at W.nest W.inner pass.is_state others.entry))
        (named_at W.nest W.inner pass.is_state behind.entry) frame.now)) page.old) }
{
    if is_there(frame.value(), beside) {
        W::laws();
        return Ok(());
    }
    tell_single::<W>(texts, pass, page, path, behind, others, frame, beside)
}

/// Whether a number is too large to have a row.
pub(crate) fn has_no_row(number: u16) -> bool
    ensures { result ≡ true → nat_lt number 256 ≡ false }
{
    number >= 256
}
