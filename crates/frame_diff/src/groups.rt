//! What a list of values tells beside another one, under its name.

ghost use Rattle.std.specs.Prelude.{◌≡◌, Bool, IfOk, IfSome, None, OnOk, Some, false, option_map, true};
ghost use Rattle.shown.specs.Drafts.{with_members};
ghost use Rattle.frame_shown.specs.Items.{objects};
ghost use Rattle.frame_diff.specs.Differences.{inside_in};
ghost use Rattle.frame_diff.specs.Forests.{Step, find, runs_inside};
ghost use Rattle.frame_diff.specs.Groups.{all_of, group_at, group_held, group_inside, group_step, is_entries};
ghost use Rattle.frame_diff.specs.Groups.{is_group, is_same_group, is_valued, labelled_inside, runs_at};
ghost use Rattle.frame_diff.specs.Inside.{above, inside_list};
ghost use Rattle.frame_diff.specs.Items.{is_loose, items_told, joined, moved_items, step_text};
ghost use Rattle.frame_diff.specs.Keyed.{StandsFor};
ghost use Rattle.frame_diff.specs.Keys.{key_at};
ghost use Rattle.frame_diff.specs.Members.{are_plain};
ghost use Rattle.frame_diff.specs.Walked.{AreBeside, HasNames, Holding, Showing, listed_items};
ghost use Rattle.frame_diff.specs.declared.walk.Attributes.{Attributes as Lists};

mod by_place;

use crate::groups::by_place::tell_by_place;
use crate::keyed::{keyed_beside, tell_keyed};
use crate::keys::{Key, key_in};
use crate::leaf::Texts;
use crate::lists::none_of;
use crate::one_value::{Group, Values};
use crate::path::join;
use crate::plain_lists::{are_plain, tell_plain};
use crate::ranges::{runs_beside, runs_of, tell_vlans};
use crate::walk::{Attributes, Pass, Walk};
use frame_shown::form::List;
use shown::Page;
use std::alloc::{AllocError, Global};

/// Another list of values that have labels or places, and whether it is known to be shown by the same; one without
/// values where there is none.
fn values_beside<'a, W: Walk>(
    pass: Pass,
    own: Attributes<'a>,
    beside: Option<Attributes<'a>>,
) -> (Attributes<'a>, bool)
    requires names { HasNames own.around.now }
    requires same { IfSome beside (λ a. is_entries a.list ≡ is_entries own.list) }
    requires alike { pass.is_alike ≡ true → AreBeside own beside }
    ensures found { (s : Step) → find s (group_inside W.nest W.inner pass.is_state result.0)
        ≡ find s (inside_in (option_map (group_held W.nest W.inner pass.is_state) beside.entry)) }
    ensures runs { runs_inside (group_inside W.nest W.inner pass.is_state result.0)
        ≡ runs_inside (inside_in (option_map (group_held W.nest W.inner pass.is_state) beside.entry)) }
    ensures same { is_entries result.0.list ≡ is_entries own.entry.list }
    ensures alike { result.1 ≡ true → AreBeside own.entry (Some result.0) }
{
    match beside {
        Some(other) => {
            if are_plain::<W>(pass.is_state, other) {
                (none_of(own), true)
            } else {
                (other, pass.is_alike)
            }
        }
        None => (none_of(own), true),
    }
}

/// Tells of the values of a list that have a key.
fn tell_by_key<W: Walk, V: Values>(
    texts: &mut Texts,
    pass: Pass,
    page: &mut Page,
    path: &str,
    key: Key,
    own: Attributes<'_>,
    others: Attributes<'_>,
) -> Result<(), AllocError>
    requires fits { V.fits own.list }
    requires own { key_at own.number own.list ≡ Some key }
    requires names { HasNames own.around.now }
    requires entries { is_entries others.list ≡ is_entries own.list }
    requires alike { pass.is_alike ≡ true → AreBeside own (Some others) }
    ensures { OnOk result (page.new ≡ with_members (objects (items_told pass.side path.now
        (labelled_inside W.nest W.inner pass.is_state own.entry)
        (labelled_inside W.nest W.inner pass.is_state others.entry))) page.old) }
{
    let others = keyed_beside(key, own, others);
    tell_keyed::<W, V>(texts, pass, page, path, key, own, others)
}

/// Another list; a list without values, where it is one of VLANs.
fn labelled_beside<'a>(
    alloc: Global,
    own: Attributes<'a>,
    others: Attributes<'a>,
) -> Result<Attributes<'a>, AllocError>
    ensures found { IfOk result (λ a. (nest : Showing) (inner : Holding) (is_state : Bool) (s : Step)
        → find s (labelled_inside nest inner is_state a)
        ≡ find s (group_inside nest inner is_state others.entry)) }
    ensures stands { IfOk result (λ a. StandsFor own.entry others.entry a) }
{
    if runs_of(alloc, others)?.is_some() {
        return Ok(none_of(own));
    }
    Ok(others)
}

/// Tells of the values of a list that is none of VLANs, by their labels or by their places.
fn tell_labels<W: Walk, V: Values>(
    texts: &mut Texts,
    pass: Pass,
    page: &mut Page,
    path: &str,
    own: Attributes<'_>,
    others: Attributes<'_>,
) -> Result<(), AllocError>
    requires runs { runs_at own ≡ None }
    requires fits { V.fits own.list }
    requires names { HasNames own.around.now }
    requires entries { is_entries others.list ≡ is_entries own.list }
    requires alike { pass.is_alike ≡ true → AreBeside own (Some others) }
    ensures { OnOk result (page.new ≡ with_members (objects (items_told pass.side path.now
        (group_inside W.nest W.inner pass.is_state own.entry)
        (group_inside W.nest W.inner pass.is_state others.entry))) page.old) }
{
    let others = labelled_beside(texts.alloc, own, others)?;
    match key_in(own) {
        Some(key) => tell_by_key::<W, V>(texts, pass, page, path, key, own, others),
        None => tell_by_place::<W, V>(texts, pass, page, path, own, others),
    }
}

/// Tells of the values of a list beside those of another one.
fn tell_inside<W: Walk, V: Values>(
    texts: &mut Texts,
    pass: Pass,
    page: &mut Page,
    path: &str,
    own: Attributes<'_>,
    others: Attributes<'_>,
) -> Result<(), AllocError>
    requires fits { V.fits own.list }
    requires names { HasNames own.around.now }
    requires entries { is_entries others.list ≡ is_entries own.list }
    requires alike { pass.is_alike ≡ true → AreBeside own (Some others) }
    ensures { OnOk result (page.new ≡ with_members (objects (items_told pass.side path.now
        (group_inside W.nest W.inner pass.is_state own.entry)
        (group_inside W.nest W.inner pass.is_state others.entry))) page.old) }
{
    match runs_of(texts.alloc, own)? {
        Some(runs) => {
            let theirs = runs_beside(texts.alloc, others)?;
            tell_vlans(
                texts,
                own,
                page,
                path,
                pass.side,
                runs.as_slice(),
                theirs.as_slice(),
            )
        }
        None => tell_labels::<W, V>(texts, pass, page, path, own, others),
    }
}

/// Whether the values of a list that are no texts are told by what they say, and not by their places.
fn is_loose(alloc: Global, list: Attributes<'_>) -> Result<bool, AllocError>
    ensures { IfOk result (λ loose. (nest : Showing) (inner : Holding) (is_state : Bool)
        → are_plain (group_at nest inner is_state list.entry) ≡ false
        → is_loose (group_inside nest inner is_state list.entry) ≡ loose) }
{
    match key_in(list) {
        Some(_key) => Ok(true),
        None => {
            let runs = runs_of(alloc, list)?;
            Ok(runs.is_some())
        }
    }
}

/// Tells of a list that the other message has in another order, or written otherwise, if this is to be told.
fn tell_moved<W: Walk, V: Values>(
    texts: &mut Texts,
    pass: Pass,
    page: &mut Page,
    path: &str,
    own: Attributes<'_>,
    beside: Option<Attributes<'_>>,
) -> Result<(), AllocError>
    requires fits { V.fits own.list }
    requires picks { V.picks own.number }
    requires others { IfSome beside (λ a. V.picks a.number) }
    requires own { is_valued own.number own.list ≡ true }
    requires plain { are_plain (group_at W.nest W.inner pass.is_state own) ≡ false }
    requires group { IfSome beside (λ a. is_valued a.number a.list ≡ true) }
    requires same { IfSome beside (λ a. is_entries a.list ≡ is_entries own.list) }
    ensures { OnOk result (page.new ≡ with_members (objects (moved_items pass.side path.now
        (group_held W.nest W.inner pass.is_state own.entry).0
        (group_held W.nest W.inner pass.is_state own.entry).1
        (option_map (group_held W.nest W.inner pass.is_state) beside.entry))) page.old) }
{
    let Some(other) = beside else {
        return Ok(());
    };
    if !pass.side.is_moved() {
        return Ok(());
    }
    let loose = is_loose(texts.alloc, own)?;
    if !loose {
        return Ok(());
    }
    V::tell_list::<W>(texts, pass.is_state, page, path, own, other)
}

/// Tells of a list of values beside another one, if there is one.
pub(crate) fn tell_values<W: Walk, V: Values>(
    texts: &mut Texts,
    pass: Pass,
    page: &mut Page,
    path: &str,
    own: Attributes<'_>,
    beside: Option<Attributes<'_>>,
) -> Result<(), AllocError>
    requires fits { V.fits own.list }
    requires picks { V.picks own.number }
    requires others { IfSome beside (λ a. V.picks a.number) }
    requires own { is_valued own.number own.list ≡ true }
    requires names { HasNames own.around.now }
    requires group { IfSome beside (λ a. is_valued a.number a.list ≡ true) }
    requires same { IfSome beside (λ a. is_entries a.list ≡ is_entries own.list) }
    requires alike { pass.is_alike ≡ true → AreBeside own beside }
    ensures { OnOk result (page.new ≡ with_members (objects (listed_items pass.side path.now
        (group_held W.nest W.inner pass.is_state own.entry)
        (option_map (group_held W.nest W.inner pass.is_state) beside.entry))) page.old) }
{
    if are_plain::<W>(pass.is_state, own) {
        return tell_plain::<W>(texts, pass, page, path, own, beside);
    }
    tell_moved::<W, V>(texts, pass, page, path, own, beside)?;
    let (others, is_alike) = values_beside::<W>(pass, own, beside);
    let pass = Pass { is_alike, ..pass };
    tell_inside::<W, V>(texts, pass, page, path, own, others)
}

/// Whether two lists are lists of values under one name.
fn is_same_group(own: List, other: List) -> bool
    ensures { result ≡ is_same_group own other }
{
    match (own, other) {
        (List::Listed(one, _), List::Listed(two, _)) => two.name() == one.name(),
        (List::Entries(one), List::Entries(two)) => two.name() == one.name(),
        _ => false,
    }
}

/// A list of which all attributes are looked at.
fn all_of<'a>(list: Attributes<'a>) -> Attributes<'a>
    ensures { result ≡ all_of list.entry }
{
    Attributes {
        number: None,
        ..list
    }
}

/// Another list of values under the same name.
fn group_beside<'a>(own: List, beside: Option<Attributes<'a>>) -> Option<Attributes<'a>>
    requires { is_group own ≡ true }
    ensures held { (nest : Showing) (inner : Holding) (is_state : Bool)
        → option_map (group_held nest inner is_state) result
        ≡ find (group_step own) (inside_list (above nest inner) is_state beside.entry) }
    ensures group { IfSome result (λ a. is_valued a.number a.list ≡ true) }
    ensures picks { IfSome result (λ a. a.number ≡ None) }
    ensures same { IfSome result (λ a. is_entries a.list ≡ is_entries own) }
    ensures alike { (list : Lists) → AreBeside list beside.entry → AreBeside list result }
{
    match beside {
        Some(other) => {
            if is_same_group(own, other.list) {
                Some(all_of(other))
            } else {
                None
            }
        }
        None => None,
    }
}

/// Tells of a list of values under its name beside another list, if there is one.
pub(crate) fn tell_group<W: Walk>(
    texts: &mut Texts,
    pass: Pass,
    page: &mut Page,
    path: &str,
    name: &str,
    own: Attributes<'_>,
    beside: Option<Attributes<'_>>,
) -> Result<(), AllocError>
    requires group { is_group own.list ≡ true }
    requires names { HasNames own.around.now }
    requires name { name.now ≡ step_text (group_step own.list) }
    requires alike { pass.is_alike ≡ true → AreBeside own beside }
    ensures { OnOk result (page.new ≡ with_members (objects (listed_items pass.side
        (joined path.now (step_text (group_step own.entry.list)))
        (group_held W.nest W.inner pass.is_state (all_of own.entry))
        (find (group_step own.entry.list)
        (inside_list (above W.nest W.inner) pass.is_state beside.entry)))) page.old) }
{
    let text = join(texts.alloc, path, name)?;
    let there = group_beside(own.list, beside);
    tell_values::<W, Group>(texts, pass, page, text.as_str(), all_of(own), there)
}
