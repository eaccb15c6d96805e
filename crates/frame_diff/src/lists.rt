//! What a list of attributes tells beside another one.

ghost use Rattle.std.specs.Prelude.{◌≡◌, ◌&&◌, [], Bool, OnOk, Some, codes, false, not, true};
ghost use Rattle.nla_wire.specs.Items.{items};
ghost use Rattle.link_info.specs.Tables.{frames_in};
ghost use Rattle.shown.specs.Drafts.{with_members};
ghost use Rattle.frame_shown.specs.Items.{objects};
ghost use Rattle.frame_diff.specs.Forests.{Step, find, forest, rest_step};
ghost use Rattle.frame_diff.specs.Groups.{group_step, is_entries, is_group, rest_forest};
ghost use Rattle.frame_diff.specs.Inside.{above, has_none, inside_list, is_of_object};
ghost use Rattle.frame_diff.specs.Items.{items_told, step_text};
ghost use Rattle.frame_diff.specs.Members.{is_some};
ghost use Rattle.frame_diff.specs.Repeated.{members_at};
ghost use Rattle.frame_diff.specs.Walked.{AreAlike, AreBeside, HasNames, Holding, Showing};

use crate::groups::tell_group;
use crate::kept::tell_others;
use crate::leaf::Texts;
use crate::members::tell_members;
use crate::same::is_same_list;
use crate::walk::{Attributes, Pass, Walk};
use frame_shown::form::List;
use nla_wire::NlasIterator;
use shown::Page;
use std::alloc::AllocError;

/// Whether a list is shown as an object by the names of its attributes.
pub(crate) fn is_object(list: List) -> bool
    ensures { is_group list ≡ not result }
{
    match list {
        List::Listed(_, _) | List::Entries(_) => false,
        _ => true,
    }
}

/// Whether there is an attribute among these bytes.
fn is_any(bytes: &[u8]) -> bool
    ensures { is_some (frames_in (items bytes.now)) ≡ result }
{
    let mut frames = NlasIterator::new(bytes);
    match frames.next() {
        Some(item) => item.is_ok(),
        None => false,
    }
}

/// Whether a list holds no member at all.
pub(crate) fn is_without(own: Attributes<'_>) -> bool
    ensures value { (nest : Showing) (inner : Holding) (is_state : Bool) → has_none
        (above nest inner is_state own.entry.around.now own.entry.list own.entry.bytes.now) ≡ result }
    ensures none { result ≡ true → is_some (frames_in (items own.entry.bytes.now)) ≡ false }
{
    is_object(own.list) && !is_any(own.bytes)
}

/// A list without attributes.
pub(crate) fn none_of<'a>(own: Attributes<'a>) -> Attributes<'a>
    ensures bytes { items result.bytes.now ≡ [] }
    ensures list { result.list ≡ own.entry.list }
    ensures number { result.number ≡ own.entry.number }
    ensures around { result.around.now ≡ own.entry.around.now }
{
    Attributes { bytes: &[], ..own }
}

/// Another list that is shown as an object, and whether its rows are known to be those of this one; a list without
/// attributes where it is none.
fn object_beside<'a>(
    is_alike: bool,
    own: Attributes<'a>,
    beside: Option<Attributes<'a>>,
) -> (Attributes<'a>, bool)
    requires names { HasNames own.around.now }
    requires alike { is_alike ≡ true → AreBeside own beside }
    ensures found { (nest : Showing) (inner : Holding) (is_state : Bool) (s : Step)
        → is_of_object s ≡ true
        → find s (forest (members_at nest inner is_state result.0))
        ≡ find s (inside_list (above nest inner) is_state beside.entry) }
    ensures rows { result.1 ≡ true → AreAlike own.entry result.0 }
{
    match beside {
        Some(other) => {
            if is_object(other.list) {
                (other, is_alike && is_same_list(own.list, other.list))
            } else {
                (none_of(own), true)
            }
        }
        None => (none_of(own), true),
    }
}

/// Tells of a list that is shown as an object beside another list.
pub(crate) fn tell_object<W: Walk>(
    texts: &mut Texts,
    pass: Pass,
    page: &mut Page,
    path: &str,
    own: Attributes<'_>,
    beside: Option<Attributes<'_>>,
) -> Result<(), AllocError>
    requires object { is_group own.list ≡ false }
    requires names { HasNames own.around.now }
    requires alike { pass.is_alike ≡ true → AreBeside own beside }
    ensures { OnOk result (page.new ≡ with_members (objects (items_told pass.side path.now
        (inside_list (above W.nest W.inner) pass.is_state (Some own.entry))
        (inside_list (above W.nest W.inner) pass.is_state beside.entry))) page.old) }
{
    let (others, is_alike) = object_beside(pass.is_alike, own, beside);
    tell_members::<W>(texts, Pass { is_alike, ..pass }, page, path, own, others)
}

/// Another list in which those that have a name stand in one list; a list without attributes where it is none.
fn listed_beside<'a>(own: Attributes<'a>, beside: Option<Attributes<'a>>) -> Attributes<'a>
    ensures { (nest : Showing) (inner : Holding) (is_state : Bool)
        → find (rest_step (codes "other")) (rest_forest is_state result)
        ≡ find (rest_step (codes "other")) (inside_list (above nest inner) is_state beside.entry) }
{
    match beside {
        Some(other) => {
            if is_listed(other.list) {
                other
            } else {
                none_of(own)
            }
        }
        None => none_of(own),
    }
}

/// Whether those that have a name stand in one list.
fn is_listed(list: List) -> bool
    ensures { result ≡ (is_group list && not (is_entries list)) }
{
    match list {
        List::Listed(_, _) => true,
        _ => false,
    }
}

/// Tells of those that are kept beside a list of values.
fn tell_rest<W: Walk>(
    texts: &mut Texts,
    pass: Pass,
    page: &mut Page,
    path: &str,
    own: Attributes<'_>,
    beside: Option<Attributes<'_>>,
) -> Result<(), AllocError>
    ensures { OnOk result (page.new ≡ with_members (objects (items_told pass.side path.now
        (rest_forest pass.is_state own.entry)
        (inside_list (above W.nest W.inner) pass.is_state beside.entry))) page.old) }
{
    let others = listed_beside(own, beside);
    tell_others(texts, pass, page, path, own, others)
}

/// Tells of a list of values, and of those that are kept beside it.
fn tell_listed<W: Walk>(
    texts: &mut Texts,
    pass: Pass,
    page: &mut Page,
    path: &str,
    name: &str,
    own: Attributes<'_>,
    beside: Option<Attributes<'_>>,
) -> Result<(), AllocError>
    requires listed { (is_group own.list && not (is_entries own.list)) ≡ true }
    requires names { HasNames own.around.now }
    requires alike { pass.is_alike ≡ true → AreBeside own beside }
    requires name { name.now ≡ step_text (group_step own.list) }
    ensures { OnOk result (page.new ≡ with_members (objects (items_told pass.side path.now
        (inside_list (above W.nest W.inner) pass.is_state (Some own.entry))
        (inside_list (above W.nest W.inner) pass.is_state beside.entry))) page.old) }
{
    tell_group::<W>(texts, pass, page, path, name, own, beside)?;
    tell_rest::<W>(texts, pass, page, path, own, beside)
}

/// Tells of a list of objects.
fn tell_entries<W: Walk>(
    texts: &mut Texts,
    pass: Pass,
    page: &mut Page,
    path: &str,
    name: &str,
    own: Attributes<'_>,
    beside: Option<Attributes<'_>>,
) -> Result<(), AllocError>
    requires entries { is_entries own.list ≡ true }
    requires names { HasNames own.around.now }
    requires alike { pass.is_alike ≡ true → AreBeside own beside }
    requires name { name.now ≡ step_text (group_step own.list) }
    ensures { OnOk result (page.new ≡ with_members (objects (items_told pass.side path.now
        (inside_list (above W.nest W.inner) pass.is_state (Some own.entry))
        (inside_list (above W.nest W.inner) pass.is_state beside.entry))) page.old) }
{
    tell_group::<W>(texts, pass, page, path, name, own, beside)
}

/// Tells of a list of attributes beside another one, if there is one.
pub(crate) fn tell_list_by<W: Walk>(
    texts: &mut Texts,
    pass: Pass,
    page: &mut Page,
    path: &str,
    own: Attributes<'_>,
    beside: Option<Attributes<'_>>,
) -> Result<(), AllocError>
    requires names { HasNames own.around.now }
    requires alike { pass.is_alike ≡ true → AreBeside own beside }
    ensures { OnOk result (page.new ≡ with_members (objects (items_told pass.side path.now
        (inside_list (above W.nest W.inner) pass.is_state (Some own.entry))
        (inside_list (above W.nest W.inner) pass.is_state beside.entry))) page.old) }
{
    match own.list {
        List::Listed(group, _) => {
            tell_listed::<W>(texts, pass, page, path, group.name(), own, beside)
        }
        List::Entries(group) => {
            tell_entries::<W>(texts, pass, page, path, group.name(), own, beside)
        }
        _ => tell_object::<W>(texts, pass, page, path, own, beside),
    }
}
