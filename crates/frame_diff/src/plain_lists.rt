//! Lists of values none of which is an object or a list: what they tell as one value, or text by text.

ghost use Rattle.std.specs.Prelude.{◌≡◌, ◌<◌, ◌+◌, ◌++◌, Bool, IfOk, IfSome, None, OnOk, Some, false, map, not};
ghost use Rattle.std.specs.Prelude.{option_map, true};
ghost use Rattle.shown.specs.Drafts.{with_members};
ghost use Rattle.frame_shown.specs.Items.{objects};
ghost use Rattle.frame_shown.specs.Values.{Nesting};
ghost use Rattle.frame_shown.specs.declared.form.Around.{Around as Beside};
ghost use Rattle.frame_diff.specs.Differences.{leaf_in};
ghost use Rattle.frame_diff.specs.Groups.{IsFlat, flat_shown, group_at, group_held, is_entries, is_valued, picked};
ghost use Rattle.frame_diff.specs.Items.{leaf_items};
ghost use Rattle.frame_diff.specs.Each.{each_shown, whole_shown};
ghost use Rattle.frame_diff.specs.Members.{are_plain, is_own_key, value_in};
ghost use Rattle.frame_diff.specs.Values.{value_shown};
ghost use Rattle.frame_diff.specs.Walked.{Holding, Showing, held_items};

use crate::each::{Each, tell_alone, tell_both};
use crate::leaf::{Texts, Value, tell_leaf};
use crate::nests::is_nest;
use crate::picked::pick;
use crate::walk::{Attribute, Attributes, Pass, Walk};
use frame_shown::form::{List, Table};
use link_info::Place;
use nla_wire::NlasIterator;
use shown::Page;
use std::alloc::{AllocError, Global};

/// Whether an attribute is an object or a list, if there is one.
fn is_deep<W: Walk>(own: Option<Attribute<'_>>) -> bool
    ensures { (is_state : Bool) → are_plain (picked W.nest W.inner is_state own.entry) ≡ not result }
{
    match own {
        Some(own) => is_nest::<W>(own),
        None => false,
    }
}

/// Whether all values of a list are known to be texts.
#[tactic(auto, using(crate::proofs::Grouped::names_flat))]
fn is_flat(number: Option<u16>, list: List) -> bool
    ensures { result ≡ true → IsFlat number list }
{
    match (number, list) {
        (None, List::Listed(_, Table::Props)) => true,
        _ => false,
    }
}

/// Whether none of the values of a list is an object or a list.
pub(crate) fn are_plain<W: Walk>(is_state: bool, list: Attributes<'_>) -> bool
    ensures { are_plain (group_at W.nest W.inner is_state list.entry) ≡ result }
{
    if is_flat(list.number, list.list) {
        return true;
    }
    are_all_plain::<W>(is_state, list)
}

/// The same, value by value.
fn are_all_plain<W: Walk>(is_state: bool, list: Attributes<'_>) -> bool
    ensures { are_plain (group_at W.nest W.inner is_state list.entry) ≡ result }
{
    for item in NlasIterator::new(list.bytes) {
        let Ok(frame) = item else {
            break;
        };
        let value = pick(is_state, list, &frame);
        if is_deep::<W>(value) {
            return false;
        }
    }
    true
}

/// Another list, where none of its values is an object or a list.
fn plain_beside<'a, W: Walk>(
    is_state: bool,
    beside: Option<Attributes<'a>>,
) -> Option<Attributes<'a>>
    requires { IfSome beside (λ a. is_valued a.number a.list ≡ true) }
    ensures value { option_map (λ a. (group_held W.nest W.inner is_state a).0) result
        ≡ leaf_in (option_map (group_held W.nest W.inner is_state) beside.entry) }
    ensures plain { IfSome result (λ a. (is_valued a.number a.list ≡ true)
        × (are_plain (group_at W.nest W.inner is_state a) ≡ true)) }
    ensures same { IfSome result (λ a. beside.entry ≡ Some a) }
{
    match beside {
        Some(other) => {
            if are_plain::<W>(is_state, other) {
                Some(other)
            } else {
                None
            }
        }
        None => None,
    }
}

/// All values of a list as one.
pub(crate) fn flat_value<'a>(own: Attributes<'a>) -> Value<'a>
    ensures { (nest : Nesting) (cx : Beside) → value_shown nest cx result
        ≡ flat_shown nest cx own.entry.number own.entry.list own.entry.bytes.now }
{
    match own.number {
        Some(number) => Value::Array(own.list, number, own.bytes),
        None => Value::Listed(own.list, own.bytes),
    }
}

/// Whether the values of a list are their own keys.
pub(crate) fn is_own_key(number: Option<u16>, list: List) -> bool
    ensures { is_own_key number list ≡ result }
{
    match (number, list) {
        (None, List::Listed(_, Table::Props)) => true,
        (Some(_), List::Of(Place::MacvlanAddresses)) => true,
        _ => false,
    }
}

/// Adds a value, if there is one.
fn push_each<'a>(
    values: &mut Vec<Value<'a>>,
    value: Option<Attribute<'a>>,
) -> Result<(), AllocError>
    requires { IfSome value (λ a. is_entries a.list ≡ false) }
    ensures { OnOk result ((nest : Showing) (inner : Holding) (is_state : Bool) (cx : Beside)
        → IfSome value.entry (λ a. a.around.now ≡ cx)
        → map (value_shown (nest cx) cx) values.new.items
        ≡ map (value_shown (nest cx) cx) values.old.items
        ++ map value_in (picked nest inner is_state value.entry)) }
{
    let Some(own) = value else {
        return Ok(());
    };
    values.push(Value::Payload(own.way, own.payload))?;
    Ok(())
}

/// The values of a list, none of which is an object or a list.
fn each_of<'a>(alloc: Global, is_state: bool, list: Attributes<'a>) -> Result<Each<'a>, AllocError>
    requires key { is_own_key list.number list.list ≡ true }
    ensures whole { IfOk result (λ each. (nest : Showing) (inner : Holding)
        → are_plain (group_at nest inner is_state list.entry) ≡ true
        → whole_shown nest each ≡ (group_held nest inner is_state list.entry).0) }
    ensures values { IfOk result (λ each. (nest : Showing) (inner : Holding)
        → each_shown nest each ≡ map value_in (group_at nest inner is_state list.entry)) }
{
    let mut values = Vec::new(alloc);
    for item in NlasIterator::new(list.bytes) {
        let Ok(frame) = item else {
            break;
        };
        push_each(&mut values, pick(is_state, list, &frame))?;
    }
    Ok(Each {
        around: list.around,
        whole: flat_value(list),
        values,
    })
}

/// Tells of a list whose values are their own keys beside another list, none of which is an object or a list.
fn tell_keys<W: Walk>(
    texts: &mut Texts,
    pass: Pass,
    page: &mut Page,
    path: &str,
    own: Attributes<'_>,
    other: Attributes<'_>,
) -> Result<(), AllocError>
    requires key { is_own_key own.number own.list ≡ true }
    requires plain { are_plain (group_at W.nest W.inner pass.is_state own) ≡ true }
    requires valued { is_valued other.number other.list ≡ true }
    requires others { are_plain (group_at W.nest W.inner pass.is_state other) ≡ true }
    ensures { OnOk result (page.new ≡ with_members (objects (held_items pass.side path.now
        (group_held W.nest W.inner pass.is_state own.entry)
        (Some (group_held W.nest W.inner pass.is_state other.entry)))) page.old) }
{
    if is_own_key(other.number, other.list) {
        let each = each_of(texts.alloc, pass.is_state, own)?;
        let theirs = each_of(texts.alloc, pass.is_state, other)?;
        return tell_both::<W>(texts, page, path, pass.side, &each, &theirs);
    }
    let value = flat_value(own);
    let there = Some(flat_value(other));
    tell_leaf::<W>(
        texts,
        own.around,
        other.around,
        page,
        path,
        pass.side,
        value,
        there,
    )
}

/// Tells of a list whose values are their own keys beside another list, if there is one.
fn tell_own_keys<W: Walk>(
    texts: &mut Texts,
    pass: Pass,
    page: &mut Page,
    path: &str,
    own: Attributes<'_>,
    beside: Option<Attributes<'_>>,
) -> Result<(), AllocError>
    requires key { is_own_key own.number own.list ≡ true }
    requires plain { are_plain (group_at W.nest W.inner pass.is_state own) ≡ true }
    requires beside { IfSome beside (λ a. is_valued a.number a.list ≡ true) }
    ensures { OnOk result (page.new ≡ with_members (objects (held_items pass.side path.now
        (group_held W.nest W.inner pass.is_state own.entry)
        (option_map (group_held W.nest W.inner pass.is_state) beside.entry))) page.old) }
{
    match plain_beside::<W>(pass.is_state, beside) {
        Some(other) => tell_keys::<W>(texts, pass, page, path, own, other),
        None => {
            let each = each_of(texts.alloc, pass.is_state, own)?;
            tell_alone::<W>(texts, page, path, pass.side, &each)
        }
    }
}

/// Tells of a list of values as one value beside another list.
fn tell_flat<W: Walk>(
    texts: &mut Texts,
    pass: Pass,
    page: &mut Page,
    path: &str,
    own: Attributes<'_>,
    beside: Option<Attributes<'_>>,
) -> Result<(), AllocError>
    requires own { is_valued own.number own.list ≡ true }
    requires key { is_own_key own.number own.list ≡ false }
    requires plain { are_plain (group_at W.nest W.inner pass.is_state own) ≡ true }
    requires beside { IfSome beside (λ a. is_valued a.number a.list ≡ true) }
    ensures { OnOk result (page.new ≡ with_members (objects (leaf_items pass.side path.now
        (group_held W.nest W.inner pass.is_state own.entry).0
        (leaf_in (option_map (group_held W.nest W.inner pass.is_state) beside.entry)))) page.old) }
{
    let value = flat_value(own);
    match plain_beside::<W>(pass.is_state, beside) {
        Some(other) => {
            let flat = flat_value(other);
            let there = Some(flat);
            let theirs = other.around;
            tell_leaf::<W>(
                texts, own.around, theirs, page, path, pass.side, value, there,
            )
        }
        None => tell_leaf::<W>(
            texts, own.around, own.around, page, path, pass.side, value, None,
        ),
    }
}

/// Tells of a list of values, none of which is an object or a list, beside another list.
pub(crate) fn tell_plain<W: Walk>(
    texts: &mut Texts,
    pass: Pass,
    page: &mut Page,
    path: &str,
    own: Attributes<'_>,
    beside: Option<Attributes<'_>>,
) -> Result<(), AllocError>
    requires own { is_valued own.number own.list ≡ true }
    requires plain { are_plain (group_at W.nest W.inner pass.is_state own) ≡ true }
    requires beside { IfSome beside (λ a. is_valued a.number a.list ≡ true) }
    ensures { OnOk result (page.new ≡ with_members (objects (held_items pass.side path.now
        (group_held W.nest W.inner pass.is_state own.entry)
        (option_map (group_held W.nest W.inner pass.is_state) beside.entry))) page.old) }
{
    if is_own_key(own.number, own.list) {
        return tell_own_keys::<W>(texts, pass, page, path, own, beside);
    }
    tell_flat::<W>(texts, pass, page, path, own, beside)
}
