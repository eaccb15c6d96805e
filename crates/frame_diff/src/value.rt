//! What an attribute tells beside another one.

ghost use Rattle.std.specs.Prelude.{◌≡◌, Bool, IfOk, OnOk, false, map, option_map, true};
ghost use Rattle.shown.specs.Drafts.{with_members};
ghost use Rattle.frame_shown.specs.Items.{objects};
ghost use Rattle.frame_shown.specs.declared.form.Around.{Around as Beside};
ghost use Rattle.frame_diff.specs.Differences.{inside_in, leaf_in};
ghost use Rattle.frame_diff.specs.Forests.{left_of};
ghost use Rattle.frame_diff.specs.Inside.{has_none};
ghost use Rattle.frame_diff.specs.Items.{items_told, leaf_items};
ghost use Rattle.frame_diff.specs.Members.{named};
ghost use Rattle.frame_diff.specs.Rows.{inside_by, is_slots, row_shown};
ghost use Rattle.frame_diff.specs.Walked.{HasNames, HasRowOf, held_at, held_items};

mod inside;
mod payloads;

use crate::held::{Holds, Slots, held_in};
use crate::leaf::{Texts, Value, tell_leaf};
use crate::rows::Row;
use crate::value::inside::{tell_fields, tell_inside};
use crate::value::payloads::tell_slots;
use crate::walk::{Attribute, Attributes, Pass, Walk};
use shown::Page;
use std::alloc::{AllocError, Global};

/// Whether there are no fields, and were none.
fn are_none(rows: &[Row<'_>], is_any: bool) -> bool
    ensures { (cx : Beside) → has_none (left_of is_any (named (map (row_shown cx) rows.now))) ≡ result }
{
    rows.is_empty() && !is_any
}

/// Whether an attribute holds no member at all.
fn holds_none<W: Walk>(own: Attribute<'_>, held: &Holds<'_>) -> bool
    ensures { (is_state : Bool) → has_none
        (inside_by (W.inner is_state own.entry.around.now) own.entry.around.now held.now) ≡ result }
{
    match held {
        Holds::Nothing | Holds::Slots(_) => true,
        Holds::Passed => false,
        Holds::Fields(rows, is_any) => are_none(rows, *is_any),
        Holds::List(list, bytes) => W::is_bare(Attributes {
            around: own.around,
            list: *list,
            number: None,
            bytes,
        }),
    }
}

/// Whether an attribute is a leaf.
fn is_leaf<W: Walk>(alloc: Global, is_state: bool, own: Attribute<'_>) -> Result<bool, AllocError>
    ensures { IfOk result (λ leaf. has_none (held_at W.nest W.inner is_state own.entry).1 ≡ leaf) }
{
    let held = held_in(alloc, is_state, own)?;
    Ok(holds_none::<W>(own, &held))
}

/// The attribute, where it is a leaf.
fn leaf_beside<'a, W: Walk>(
    alloc: Global,
    is_state: bool,
    beside: Option<Attribute<'a>>,
) -> Result<Option<Attribute<'a>>, AllocError>
    ensures { IfOk result (λ leaf. option_map (λ a. (held_at W.nest W.inner is_state a).0) leaf
        ≡ leaf_in (option_map (held_at W.nest W.inner is_state) beside.entry)) }
{
    let Some(other) = beside else {
        return Ok(None);
    };
    if is_leaf::<W>(alloc, is_state, other)? {
        Ok(Some(other))
    } else {
        Ok(None)
    }
}

/// Tells of the value of an attribute beside that of another one, where that is a leaf.
fn tell_plain<W: Walk>(
    texts: &mut Texts,
    pass: Pass,
    page: &mut Page,
    path: &str,
    own: Attribute<'_>,
    beside: Option<Attribute<'_>>,
) -> Result<(), AllocError>
    ensures { OnOk result (page.new ≡ with_members (objects (leaf_items pass.side path.now
        (held_at W.nest W.inner pass.is_state own.entry).0
        (leaf_in (option_map (held_at W.nest W.inner pass.is_state) beside.entry)))) page.old) }
{
    let value = Value::Payload(own.way, own.payload);
    match leaf_beside::<W>(texts.alloc, pass.is_state, beside)? {
        Some(other) => {
            let there = Some(Value::Payload(other.way, other.payload));
            let theirs = other.around;
            tell_leaf::<W>(
                texts, own.around, theirs, page, path, pass.side, value, there,
            )
        }
        None => tell_leaf::<W>(
            texts, own.around, own.around, page, path, pass.side, value, None,
        ),
    }
}

/// Tells of what an attribute holds beside what another one holds.
fn tell_held<W: Walk>(
    texts: &mut Texts,
    pass: Pass,
    page: &mut Page,
    path: &str,
    own: Attribute<'_>,
    held: &Holds<'_>,
    beside: Option<Attribute<'_>>,
) -> Result<(), AllocError>
    requires names { HasNames own.around.now }
    requires alike { pass.is_alike ≡ true → HasRowOf own beside }
    ensures { OnOk result (page.new ≡ with_members (objects (items_told pass.side path.now
        (inside_by (W.inner pass.is_state own.entry.around.now) own.entry.around.now held.now)
        (inside_in (option_map (held_at W.nest W.inner pass.is_state) beside.entry)))) page.old) }
{
    match held {
        Holds::Nothing | Holds::Passed | Holds::Slots(_) => Ok(()),
        Holds::Fields(rows, _) => tell_fields::<W>(texts, pass, page, path, own, rows, beside),
        Holds::List(list, bytes) => {
            let own = Attributes {
                around: own.around,
                list: *list,
                number: None,
                bytes,
            };
            tell_inside::<W>(texts, pass, page, path, own, beside)
        }
    }
}

/// Tells of an attribute that holds no values that are their own keys beside another one, if there is one.
fn tell_other<W: Walk>(
    texts: &mut Texts,
    pass: Pass,
    page: &mut Page,
    path: &str,
    own: Attribute<'_>,
    held: &Holds<'_>,
    beside: Option<Attribute<'_>>,
) -> Result<(), AllocError>
    requires names { HasNames own.around.now }
    requires alike { pass.is_alike ≡ true → HasRowOf own beside }
    requires held { (held_at W.nest W.inner pass.is_state own).1
        ≡ inside_by (W.inner pass.is_state own.around.now) own.around.now held.now }
    requires plain { is_slots held.now ≡ false }
    ensures { OnOk result (page.new ≡ with_members (objects (held_items pass.side path.now
        (held_at W.nest W.inner pass.is_state own.entry)
        (option_map (held_at W.nest W.inner pass.is_state) beside.entry))) page.old) }
{
    W::laws();
    if holds_none::<W>(own, held) {
        return tell_plain::<W>(texts, pass, page, path, own, beside);
    }
    tell_held::<W>(texts, pass, page, path, own, held, beside)
}

/// Tells of an attribute beside another one, if there is one.
pub(crate) fn tell_value<W: Walk>(
    texts: &mut Texts,
    pass: Pass,
    page: &mut Page,
    path: &str,
    own: Attribute<'_>,
    beside: Option<Attribute<'_>>,
) -> Result<(), AllocError>
    requires names { HasNames own.around.now }
    requires alike { pass.is_alike ≡ true → HasRowOf own beside }
    ensures { OnOk result (page.new ≡ with_members (objects (held_items pass.side path.now
        (held_at W.nest W.inner pass.is_state own.entry)
        (option_map (held_at W.nest W.inner pass.is_state) beside.entry))) page.old) }
{
    let held = held_in(texts.alloc, pass.is_state, own)?;
    match &held {
        Holds::Slots(slots) => {
            let Slots { plain, bytes } = **slots;
            tell_slots::<W>(texts, pass, page, path, own, plain, bytes, beside)
        }
        _ => tell_other::<W>(texts, pass, page, path, own, &held, beside),
    }
}
