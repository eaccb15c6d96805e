//! What an attribute tells beside the one of its name in another list.

ghost use Rattle.std.specs.Prelude.{◌≡◌, Bool, OnOk, option_map, true};
ghost use Rattle.shown.specs.Drafts.{with_members};
ghost use Rattle.frame_shown.specs.Items.{objects};
ghost use Rattle.frame_diff.specs.Forests.{Step, comes, find, forest};
ghost use Rattle.frame_diff.specs.Items.{joined};
ghost use Rattle.frame_diff.specs.Walked.{AreAlike, HasNames, HasRowOf, Holding, IsNamedBy, IsOf, NoneBehind};
ghost use Rattle.frame_diff.specs.Walked.{NoneComes, Showing, frame_items, has_payload, held_at, held_items};
ghost use Rattle.frame_diff.specs.Walked.{is_row_alike, is_told_of_old, named_at, reading_at};

use crate::leaf::Texts;
use crate::leaf::compare::is_same;
use crate::lookup::{attribute, comes, find_attribute};
use crate::named::name_of;
use crate::nests::is_fixed;
use crate::path::join;
use crate::side::Side;
use crate::value::tell_value;
use crate::walk::{Attribute, Attributes, Pass, Walk};
use frame_shown::form::Way;
use nla_wire::NlaBuffer;
use shown::Page;
use std::alloc::AllocError;

/// Whether there is an attribute with this payload.
fn has_payload(payload: &[u8], beside: Option<Attribute<'_>>) -> bool
    ensures { result ≡ has_payload payload.now beside.entry }
{
    match beside {
        Some(other) => is_same(payload, other.payload),
        None => false,
    }
}

/// Whether the row of an attribute is known to be that of the one beside it, if there is one.
pub(crate) fn is_alike(pass: Pass, number: u16, beside: Option<Attribute<'_>>) -> bool
    ensures { result ≡ is_row_alike pass.is_alike number beside.entry }
{
    match beside {
        Some(other) => pass.is_alike && other.number == number,
        None => true,
    }
}

/// Whether nothing is told of a value that both messages have: those in it have the same names, or there are none, so
/// that none came, and what turned is told of the old one.
fn is_told_of_old(side: Side, way: Way, beside: Option<Attribute<'_>>) -> bool
    ensures { is_told_of_old side way beside.entry ≡ result }
{
    match side {
        Side::Old => false,
        Side::New | Side::Moved => beside.is_some() && is_fixed(way),
    }
}

/// Tells of an attribute beside another one with its row, if there is one.
pub(crate) fn tell_turning<W: Walk>(
    texts: &mut Texts,
    pass: Pass,
    page: &mut Page,
    path: &str,
    name: &str,
    own: Attribute<'_>,
    beside: Option<Attribute<'_>>,
) -> Result<(), AllocError>
    requires names { HasNames own.around.now }
    requires row { HasRowOf own beside }
    ensures { OnOk result (page.new
        ≡ with_members (objects (held_items pass.side (joined path.now name.now)
        (held_at W.nest W.inner pass.is_state own.entry)
        (option_map (held_at W.nest W.inner pass.is_state) beside.entry))) page.old) }
{
    if is_told_of_old(pass.side, own.way, beside) {
        return Ok(());
    }
    let text = join(texts.alloc, path, name)?;
    tell_value::<W>(texts, pass, page, text.as_str(), own, beside)
}

/// Tells of an attribute beside another one. Those that are the same are passed over at once.
#[inline(never)]
fn tell_unless_same<W: Walk>(
    texts: &mut Texts,
    pass: Pass,
    page: &mut Page,
    path: &str,
    name: &str,
    own: Attribute<'_>,
    beside: Option<Attribute<'_>>,
) -> Result<(), AllocError>
    requires names { HasNames own.around.now }
    requires alike { pass.is_alike ≡ true → HasRowOf own beside }
    ensures { OnOk result (page.new
        ≡ with_members (objects (held_items pass.side (joined path.now name.now)
        (held_at W.nest W.inner pass.is_state own.entry)
        (option_map (held_at W.nest W.inner pass.is_state) beside.entry))) page.old) }
{
    if pass.is_alike {
        W::laws();
        if has_payload(own.payload, beside) {
            return Ok(());
        }
        return tell_turning::<W>(texts, pass, page, path, name, own, beside);
    }
    let text = join(texts.alloc, path, name)?;
    tell_value::<W>(texts, pass, page, text.as_str(), own, beside)
}

/// Tells of the last attribute of a name beside that of another list.
fn tell_last<W: Walk>(
    texts: &mut Texts,
    pass: Pass,
    page: &mut Page,
    path: &str,
    behind: Attributes<'_>,
    others: Attributes<'_>,
    name: &str,
    own: Attribute<'_>,
) -> Result<(), AllocError>
    requires names { HasNames own.around.now }
    requires rows { pass.is_alike ≡ true → AreAlike behind others }
    requires row { IsOf behind own }
    ensures { OnOk result (page.new
        ≡ with_members (objects (held_items pass.side (joined path.now name.now)
        (held_at W.nest W.inner pass.is_state own.entry)
        (find (Step.name name.now) (forest (named_at W.nest W.inner pass.is_state others.entry)))))
        page.old) }
{
    let beside = find_attribute(others, name);
    let is_alike = is_alike(pass, own.number, beside);
    let pass = Pass { is_alike, ..pass };
    tell_unless_same::<W>(texts, pass, page, path, name, own, beside)
}

/// Whether a member with this name is among those behind an attribute, if one can be.
fn comes_too(is_single: bool, behind: Attributes<'_>, name: &str) -> bool
    requires { is_single ≡ true → NoneComes behind name.now }
    ensures { (nest : Showing) (inner : Holding) (is_state : Bool) → result
        ≡ comes (Step.name name.now) (named_at nest inner is_state behind.entry) }
{
    if is_single {
        return false;
    }
    comes(behind, name)
}

/// Tells of an attribute under its name, unless another one of its name comes behind it.
fn tell_row<W: Walk>(
    texts: &mut Texts,
    pass: Pass,
    page: &mut Page,
    path: &str,
    behind: Attributes<'_>,
    others: Attributes<'_>,
    is_single: bool,
    name: &str,
    frame: &NlaBuffer<'_>,
) -> Result<(), AllocError>
    requires names { HasNames behind.around.now }
    requires single { is_single ≡ true → NoneBehind frame.now behind }
    requires rows { pass.is_alike ≡ true → AreAlike behind others }
    requires name { IsNamedBy behind frame.now name.now }
    ensures { OnOk result (page.new ≡ with_members (objects (frame_items pass.side path.now
        (reading_at W.nest W.inner pass.is_state behind.entry.around.now) behind.entry.list
        (forest (named_at W.nest W.inner pass.is_state others.entry))
        (named_at W.nest W.inner pass.is_state behind.entry) frame.now)) page.old) }
{
    if comes_too(is_single, behind, name) {
        return Ok(());
    }
    let own = attribute(behind, frame);
    tell_last::<W>(texts, pass, page, path, behind, others, name, own)
}

/// Tells of an attribute by its row, unless it has no name of its own.
pub(crate) fn tell_frame<W: Walk>(
    texts: &mut Texts,
    pass: Pass,
    page: &mut Page,
    path: &str,
    behind: Attributes<'_>,
    others: Attributes<'_>,
    is_single: bool,
    frame: &NlaBuffer<'_>,
) -> Result<(), AllocError>
    requires names { HasNames behind.around.now }
    requires single { is_single ≡ true → NoneBehind frame.now behind }
    requires rows { pass.is_alike ≡ true → AreAlike behind others }
    ensures { OnOk result (page.new ≡ with_members (objects (frame_items pass.side path.now
        (reading_at W.nest W.inner pass.is_state behind.entry.around.now) behind.entry.list
        (forest (named_at W.nest W.inner pass.is_state others.entry))
        (named_at W.nest W.inner pass.is_state behind.entry) frame.now)) page.old) }
{
    match name_of(behind.around, behind.list, frame.kind(), frame.value()) {
        Some(name) => tell_row::<W>(
            texts, pass, page, path, behind, others, is_single, name, frame,
        ),
        None => Ok(()),
    }
}
