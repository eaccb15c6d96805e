//! What attributes tell behind which another one of their name stands.

ghost use Rattle.std.specs.Prelude.{◌≡◌, ◌<◌, ◌+◌, ◌++◌, ◌^◌, [], ℕ, Bool, IfSome, OnOk, Some, option_map, true};
ghost use Rattle.shown.specs.Drafts.{with_members};
ghost use Rattle.frame_shown.specs.Items.{objects};
ghost use Rattle.frame_diff.specs.Differences.{inside_in};
ghost use Rattle.frame_diff.specs.Forests.{Step, find};
ghost use Rattle.frame_diff.specs.Items.{items_told, joined};
ghost use Rattle.frame_diff.specs.Members.{places};
ghost use Rattle.frame_diff.specs.Repeated.{GoesOnAt, IsBeside, again_held, again_in, again_items, alone_at};
ghost use Rattle.frame_diff.specs.Repeated.{IsSameAgain, earlier_at, earlier_in, place_by};
ghost use Rattle.frame_diff.specs.Walked.{AreAlike, HasNames, HasRowByNumber, Holding, IsOf, Showing};
ghost use Rattle.frame_diff.specs.Walked.{held_at, held_items, named_at, reading_at};
ghost use Rattle.frame_diff.specs.declared.walk.Attribute.{Attribute as One};

use crate::leaf::Texts;
use crate::leaf::compare::is_same;
use crate::list::by_name::is_alike;
use crate::lookup::{behind, comes};
use crate::named::is_unnamed;
use crate::path::{join, join_place};
use crate::value::tell_value;
use crate::walk::{Attribute, Attributes, Pass, Walk};
use frame_shown::form::row_in;
use nla_wire::{NlaBuffer, NlasIterator};
use shown::Page;
use std::alloc::AllocError;

/// An attribute, and its name.
#[derive(Clone, Copy, Drop)]
pub struct Named<'a> {
    /// Its name.
    pub name: &'a str,
    /// The attribute.
    pub attribute: Attribute<'a>,
}

/// An attribute of a list, unless it has no name, or none of its name comes behind it.
fn again<'a>(behind: Attributes<'a>, frame: &NlaBuffer<'a>) -> Option<Named<'a>>
    ensures row { IfSome result (λ own. IsOf behind.entry own.attribute) }
    ensures held { (nest : Showing) (inner : Holding) (is_state : Bool) → again_held nest inner is_state result
        ≡ again_in (reading_at nest inner is_state behind.entry.around.now) behind.entry.list
        (named_at nest inner is_state behind.entry) frame.now }
{
    let number = frame.kind();
    let (name, way) = row_in(behind.around, behind.list, number);
    if is_unnamed(way, frame.value()) {
        return None;
    }
    if !comes(behind, name) {
        return None;
    }
    let attribute = Attribute {
        around: behind.around,
        list: behind.list,
        number,
        way,
        payload: frame.value(),
    };
    Some(Named { name, attribute })
}

/// The place of the next one.
fn place_by(own: Option<Named<'_>>, place: usize) -> usize
    requires { place + 1 < 2 ^ 64 }
    ensures { result ≡ place_by own.entry place }
{
    match own {
        Some(_) => place + 1,
        None => place,
    }
}

/// The first of them, and the bytes behind it.
fn next_again<'a>(list: Attributes<'a>) -> (Option<Named<'a>>, &'a [u8])
    ensures row { IfSome result.0 (λ own. IsOf list.entry own.attribute) }
    ensures cut { (nest : Showing) (inner : Holding) (is_state : Bool) → earlier_at nest inner is_state list.entry
        ≡ again_held nest inner is_state result.0
        ++ earlier_in nest inner is_state list.entry result.1.now }
    ensures last { (nest : Showing) (inner : Holding) (is_state : Bool) → result.0 ≡ None
        → earlier_in nest inner is_state list.entry result.1.now ≡ [] }
{
    let mut rest = list.bytes;
    for item in NlasIterator::new(list.bytes) {
        let Ok(frame) = item else {
            break;
        };
        rest = behind(rest, &frame);
        let left = Attributes {
            bytes: rest,
            ..list
        };
        let own = again(left, &frame);
        if own.is_some() {
            return (own, rest);
        }
    }
    (None, b"")
}

/// What stands beside one of them at its place in another list, where that goes on, and where it goes on behind it.
fn beside_again<'a>(
    own: Option<Named<'_>>,
    others: Attributes<'a>,
    there: &'a [u8],
) -> (Option<Named<'a>>, &'a [u8])
    ensures row { IfSome result.0 (λ other. IsOf others.entry other.attribute) }
    ensures place { (nest : Showing) (inner : Holding) (is_state : Bool) (place : ℕ)
        → GoesOnAt nest inner is_state others.entry place there.entry.now
        → IsBeside nest inner is_state others.entry place own.entry result.0
        × GoesOnAt nest inner is_state others.entry (place_by own.entry place) result.1.now }
{
    match own {
        Some(_) => next_again(Attributes {
            bytes: there,
            ..others
        }),
        None => (None, there),
    }
}

/// The attribute, where it has this name.
fn under_name<'a>(name: &str, beside: Option<Named<'a>>) -> Option<Attribute<'a>>
    ensures row { (own : One) → IfSome beside.entry (λ other. HasRowByNumber own other.attribute)
        → IfSome result (λ other. HasRowByNumber own other) }
    ensures found { (nest : Showing) (inner : Holding) (is_state : Bool)
        → option_map (held_at nest inner is_state) result ≡ find (Step.name name.now)
        (inside_in (option_map (alone_at nest inner is_state) beside.entry)) }
{
    match beside {
        Some(other) => {
            if other.name == name {
                Some(other.attribute)
            } else {
                None
            }
        }
        None => None,
    }
}

/// Tells of an attribute in an object of its own, beside another one.
fn tell_alone<W: Walk>(
    texts: &mut Texts,
    pass: Pass,
    page: &mut Page,
    path: &str,
    own: Named<'_>,
    beside: Option<Named<'_>>,
) -> Result<(), AllocError>
    requires names { HasNames own.attribute.around.now }
    requires rows { pass.is_alike ≡ true → IfSome beside (λ other.
        HasRowByNumber own.attribute other.attribute) }
    ensures { OnOk result (page.new
        ≡ with_members (objects (held_items pass.side (joined path.now own.entry.name.now)
        (held_at W.nest W.inner pass.is_state own.entry.attribute)
        (find (Step.name own.entry.name.now)
        (inside_in (option_map (alone_at W.nest W.inner pass.is_state) beside.entry)))))
        page.old) }
{
    let text = join(texts.alloc, path, own.name)?;
    let there = under_name(own.name, beside);
    let is_alike = is_alike(pass, own.attribute.number, there);
    let pass = Pass { is_alike, ..pass };
    tell_value::<W>(texts, pass, page, text.as_str(), own.attribute, there)
}

/// Whether the attribute beside one has its name, its number and its payload.
fn is_same_again(own: Named<'_>, beside: Option<Named<'_>>) -> bool
    ensures { result ≡ true → IsSameAgain own.entry beside.entry }
{
    let Some(other) = beside else {
        return false;
    };
    other.attribute.number == own.attribute.number
        && own.name == other.name
        && is_same(own.attribute.payload, other.attribute.payload)
}

/// Tells of one of them, beside the one at its place. One that stands there as it is costs a look.
fn tell_placed<W: Walk>(
    texts: &mut Texts,
    pass: Pass,
    page: &mut Page,
    path: &str,
    place: usize,
    others: Attributes<'_>,
    own: Named<'_>,
    beside: Option<Named<'_>>,
) -> Result<(), AllocError>
    requires names { HasNames own.attribute.around.now }
    requires rows { pass.is_alike ≡ true → IfSome beside (λ other.
        HasRowByNumber own.attribute other.attribute) }
    requires beside { IsBeside W.nest W.inner pass.is_state others place (Some own) beside }
    ensures { OnOk result (page.new
        ≡ with_members (objects (again_items W.nest W.inner pass.is_state pass.side path.now place
        (earlier_at W.nest W.inner pass.is_state others.entry) (Some own.entry))) page.old) }
{
    if pass.is_alike {
        W::laws();
        if is_same_again(own, beside) {
            return Ok(());
        }
    }
    let text = join_place(texts.alloc, path, place)?;
    tell_alone::<W>(texts, pass, page, text.as_str(), own, beside)
}

/// Tells of one of them, if there is one, beside the one at its place.
fn tell_again<W: Walk>(
    texts: &mut Texts,
    pass: Pass,
    page: &mut Page,
    path: &str,
    place: usize,
    others: Attributes<'_>,
    own: Option<Named<'_>>,
    beside: Option<Named<'_>>,
) -> Result<(), AllocError>
    requires names { IfSome own (λ own. HasNames own.attribute.around.now) }
    requires rows { pass.is_alike ≡ true → IfSome own (λ own. IfSome beside (λ other.
        HasRowByNumber own.attribute other.attribute)) }
    requires beside { IsBeside W.nest W.inner pass.is_state others place own beside }
    ensures { OnOk result (page.new
        ≡ with_members (objects (again_items W.nest W.inner pass.is_state pass.side path.now place
        (earlier_at W.nest W.inner pass.is_state others.entry) own.entry)) page.old) }
{
    match own {
        Some(own) => tell_placed::<W>(texts, pass, page, path, place, others, own, beside),
        None => Ok(()),
    }
}

/// Tells of the attributes of a list behind which another one of their name stands, each beside the one at its place
/// in another list.
pub(crate) fn tell_repeated<W: Walk>(
    texts: &mut Texts,
    pass: Pass,
    page: &mut Page,
    path: &str,
    own: Attributes<'_>,
    others: Attributes<'_>,
) -> Result<(), AllocError>
    requires names { HasNames own.around.now }
    requires rows { pass.is_alike ≡ true → AreAlike own others }
    ensures { OnOk result (page.new ≡ with_members (objects (items_told pass.side path.now
        (places (earlier_at W.nest W.inner pass.is_state own.entry))
        (places (earlier_at W.nest W.inner pass.is_state others.entry)))) page.old) }
{
    let mut place = 0;
    let mut rest = own.bytes;
    let mut there = others.bytes;
    for item in NlasIterator::new(own.bytes) {
        let Ok(frame) = item else {
            break;
        };
        rest = behind(rest, &frame);
        let again = again(Attributes { bytes: rest, ..own }, &frame);
        let (beside, next) = beside_again(again, others, there);
        there = next;
        tell_again::<W>(texts, pass, page, path, place, others, again, beside)?;
        place = place_by(again, place);
    }
    Ok(())
}
