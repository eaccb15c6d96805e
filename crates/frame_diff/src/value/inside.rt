//! What fields and lists inside an attribute tell beside those of another one.

ghost use Rattle.std.specs.Prelude.{◌≡◌, ℕ, Bool, IfOk, IfSome, List as Seq, OnOk, Some, false, map, option_map};
ghost use Rattle.std.specs.Prelude.{true};
ghost use Rattle.shown.specs.Drafts.{with_members};
ghost use Rattle.frame_shown.specs.Items.{objects};
ghost use Rattle.frame_diff.specs.Differences.{inside_in};
ghost use Rattle.frame_diff.specs.Forests.{Step, field_step, find};
ghost use Rattle.frame_diff.specs.Inside.{HoldsNoField, inside_list, is_field};
ghost use Rattle.frame_diff.specs.Items.{items_told};
ghost use Rattle.frame_diff.specs.Members.{fields};
ghost use Rattle.frame_diff.specs.Rows.{inside_by, row_shown};
ghost use Rattle.frame_diff.specs.Walked.{AreBeside, HasNames, Holding, Showing, StandsInside, held_at};
ghost use Rattle.frame_diff.specs.declared.walk.Attributes.{Attributes as Lists};

use crate::held::{Holds, held_in};
use crate::leaf::Texts;
use crate::rows::{Row, tell_rows};
use crate::walk::{Attribute, Attributes, Pass, Walk};
use frame_shown::form::Around;
use shown::Page;
use std::alloc::{AllocError, Global};

/// The fields that an attribute holds.
fn rows_in<'a>(
    alloc: Global,
    is_state: bool,
    other: Attribute<'a>,
) -> Result<Vec<Row<'a>>, AllocError>
    ensures { IfOk result (λ rows. (nest : Showing) (inner : Holding) → HoldsNoField inner
        → (name : Seq ℕ)
        → find (field_step name) (fields (map (row_shown other.entry.around.now) rows.items))
        ≡ find (field_step name) (held_at nest inner is_state other.entry).1) }
{
    match held_in(alloc, is_state, other)? {
        Holds::Fields(rows, _) => Ok(rows),
        Holds::Nothing | Holds::Passed | Holds::List(_, _) | Holds::Slots(_) => {
            Ok(Vec::new(alloc))
        }
    }
}

/// Tells of the fields of an attribute beside those of another one.
pub(crate) fn tell_fields<W: Walk>(
    texts: &mut Texts,
    pass: Pass,
    page: &mut Page,
    path: &str,
    own: Attribute<'_>,
    rows: &[Row<'_>],
    beside: Option<Attribute<'_>>,
) -> Result<(), AllocError>
    ensures { OnOk result (page.new ≡ with_members (objects (items_told pass.side path.now
        (fields (map (row_shown own.entry.around.now) rows.now))
        (inside_in (option_map (held_at W.nest W.inner pass.is_state) beside.entry)))) page.old) }
{
    W::laws();
    let Some(other) = beside else {
        return tell_rows(
            texts,
            own.around,
            own.around,
            page,
            path,
            pass.side,
            rows,
            &[],
        );
    };
    let there = rows_in(texts.alloc, pass.is_state, other)?;
    let theirs = other.around;
    tell_rows(
        texts, own.around, theirs, page, path, pass.side, rows, &there,
    )
}

/// The list among what may be held.
#[tactic(auto, using(crate::proofs::Inside::none_in_fields))]
fn list_of<'a>(around: &'a Around<'a>, held: Holds<'a>) -> Option<Attributes<'a>>
    ensures around { IfSome result (λ a. a.around.now ≡ around.now) }
    ensures held { (inner : Holding) (is_state : Bool) (s : Step) → is_field s ≡ false
        → find s (inside_list inner is_state result)
        ≡ find s (inside_by (inner is_state around.now) around.now held.entry) }
{
    match held {
        Holds::List(list, bytes) => Some(Attributes {
            around,
            list,
            number: None,
            bytes,
        }),
        Holds::Nothing | Holds::Passed | Holds::Fields(_, _) | Holds::Slots(_) => None,
    }
}

/// The list that an attribute holds.
fn list_in<'a>(
    alloc: Global,
    is_state: bool,
    other: Attribute<'a>,
) -> Result<Option<Attributes<'a>>, AllocError>
    ensures around { IfOk result (λ list. IfSome list (λ a.
        a.around.now ≡ other.entry.around.now)) }
    ensures held { IfOk result (λ list. (nest : Showing) (inner : Holding) (s : Step)
        → is_field s ≡ false
        → find s (inside_list inner is_state list)
        ≡ find s (held_at nest inner is_state other.entry).1) }
{
    let held = held_in(alloc, is_state, other)?;
    Ok(list_of(other.around, held))
}

/// The list that another attribute holds, if there is one.
fn list_beside<'a>(
    alloc: Global,
    is_state: bool,
    beside: Option<Attribute<'a>>,
) -> Result<Option<Attributes<'a>>, AllocError>
    ensures alike { IfOk result (λ list. (own : Lists)
        → StandsInside own beside.entry → AreBeside own list) }
    ensures held { IfOk result (λ list. (nest : Showing) (inner : Holding) (s : Step)
        → is_field s ≡ false
        → find s (inside_list inner is_state list)
        ≡ find s (inside_in (option_map (held_at nest inner is_state) beside.entry))) }
{
    match beside {
        Some(other) => list_in(alloc, is_state, other),
        None => Ok(None),
    }
}

/// Tells of a list of attributes beside that which another attribute holds.
pub(crate) fn tell_inside<W: Walk>(
    texts: &mut Texts,
    pass: Pass,
    page: &mut Page,
    path: &str,
    own: Attributes<'_>,
    beside: Option<Attribute<'_>>,
) -> Result<(), AllocError>
    requires names { HasNames own.around.now }
    requires alike { pass.is_alike ≡ true → StandsInside own beside }
    ensures { OnOk result (page.new ≡ with_members (objects (items_told pass.side path.now
        (inside_list W.inner pass.is_state (Some own.entry))
        (inside_in (option_map (held_at W.nest W.inner pass.is_state) beside.entry)))) page.old) }
{
    let there = list_beside(texts.alloc, pass.is_state, beside)?;
    W::laws();
    W::tell_list(texts, pass, page, path, own, there)
}
