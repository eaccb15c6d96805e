//! What attributes tell that are kept as they are.

ghost use Rattle.std.specs.Prelude.{◌≡◌, ◌++◌, [], ◌∷◌, Bool, IfOk, OnOk, Option as Maybe, Some, codes, map, not};
ghost use Rattle.std.specs.Prelude.{option_and_then, true};
ghost use Rattle.nla_wire.specs.Frames.{number};
ghost use Rattle.shown.specs.Drafts.{object_of, with_members};
ghost use Rattle.frame_shown.specs.Items.{objects};
ghost use Rattle.frame_shown.specs.Kept.{text_unless_empty};
ghost use Rattle.frame_shown.specs.Tables.{is_kept, kind_shown, row_in};
ghost use Rattle.frame_shown.specs.Values.{hexadecimal};
ghost use Rattle.frame_shown.specs.declared.form.Around.{Around as Beside};
ghost use Rattle.frame_diff.specs.Forests.{Held};
ghost use Rattle.frame_diff.specs.Items.{alone_item, items_told, joined};
ghost use Rattle.frame_diff.specs.Keyed.{AreKept, are_any, kept_moved, label_items, labels_now, others_items};
ghost use Rattle.frame_diff.specs.Keyed.{values_now};
ghost use Rattle.frame_diff.specs.Labels.{first_labels, label_step, labels_of};
ghost use Rattle.frame_diff.specs.Members.{as_object, fields};
ghost use Rattle.frame_diff.specs.Rows.{row_shown};
ghost use Rattle.frame_diff.specs.Values.{IsSameKept, entry_held, kept_held, kept_members, kept_one};
ghost use Rattle.frame_diff.specs.Values.{value_shown};
ghost use Rattle.frame_diff.specs.Walked.{step_items};
ghost use Rattle.frame_diff.specs.declared.keys.Key.TheVariants as Keys;

use crate::counters::is_passed;
use crate::keyed::{Labelled, label_all, places_unless_along, push_labelled, value_beside};
use crate::keys::Key;
use crate::labels::Label;
use crate::leaf::compare::is_same;
use crate::leaf::{Texts, Value, put_alone, tell_turned};
use crate::path::{join, join_label};
use crate::rows::{Row, tell_rows};
use crate::side::Side;
use crate::walk::{Attributes, Pass};
use frame_shown::depth::Bottom;
use frame_shown::form::{Around, Form, Way, name_in, row_in};
use nla_wire::{NLA_TYPE_MASK, NlaBuffer, NlasIterator};
use shown::Page;
use std::alloc::{AllocError, Global};

/// An attribute that is kept as it is.
#[derive(Clone, Copy, Drop)]
pub struct Kept<'a> {
    /// The name that its number has all the same; empty where it has none.
    pub name: &'a str,
    /// Its kind, as it is shown.
    pub kind: u16,
    /// Its payload.
    pub payload: &'a [u8],
}

/// What an attribute is in the list of those that are kept.
#[derive(Clone, Copy, Drop)]
pub enum Entry<'a> {
    /// It has a name, and no place there.
    Named,
    /// It has a place, and is passed over.
    Passed,
    /// It is kept.
    Kept(Kept<'a>),
}

/// Adds the name of one, where it is not empty.
fn push_name<'a>(rows: &mut Vec<Row<'a>>, name: &'a str) -> Result<(), AllocError>
    ensures { OnOk result ((cx : Beside) → map (row_shown cx) rows.new.items
        ≡ map (row_shown cx) rows.old.items ++ text_unless_empty (codes "name") name.now) }
{
    if name.is_empty() {
        return Ok(());
    }
    rows.push(Row {
        name: "name",
        value: Value::Name(name),
    })?;
    Ok(())
}

/// Adds a field.
fn push<'a>(rows: &mut Vec<Row<'a>>, name: &'static str, value: Value<'a>) -> Result<(), AllocError>
    ensures { OnOk result ((cx : Beside) → map (row_shown cx) rows.new.items
        ≡ map (row_shown cx) rows.old.items
        ++ (name.now, value_shown (λ list p. hexadecimal p) cx value.entry) ∷ []) }
{
    rows.push(Row { name, value })?;
    Ok(())
}

/// What one says, as the fields of a record.
fn rows_of<'a>(alloc: Global, kept: Kept<'a>) -> Result<Vec<Row<'a>>, AllocError>
    ensures { IfOk result (λ rows. (cx : Beside) → map (row_shown cx) rows.items
        ≡ kept_members kept.entry) }
{
    let mut rows = Vec::with_capacity(alloc, 4)?;
    push(&mut rows, "number", Value::Number(kept.kind))?;
    push_name(&mut rows, kept.name)?;
    push(&mut rows, "flags", Value::Flags(kept.kind))?;
    push(&mut rows, "payload", Value::Octets(kept.payload))?;
    Ok(rows)
}

/// Tells of an attribute that is kept beside another one, by what both say.
fn tell_both(
    texts: &mut Texts,
    cx: &Around<'_>,
    theirs: &Around<'_>,
    page: &mut Page,
    path: &str,
    side: Side,
    own: Kept<'_>,
    other: Kept<'_>,
) -> Result<(), AllocError>
    ensures { OnOk result (page.new ≡ with_members (objects (items_told side path.now
        (fields (kept_members own.entry)) (fields (kept_members other.entry)))) page.old) }
{
    let own = rows_of(texts.alloc, own)?;
    let there = rows_of(texts.alloc, other)?;
    tell_rows(texts, cx, theirs, page, path, side, &own, &there)
}

/// Adds the change of one that one side alone has, with all that it says.
fn put_kept(
    cx: &Around<'_>,
    page: &mut Page,
    path: &str,
    side: Side,
    own: Kept<'_>,
) -> Result<(), AllocError>
    ensures { OnOk result (page.new ≡ with_members (objects (alone_item path.now side
        (object_of (kept_members own.entry)) ∷ [])) page.old) }
{
    let value = Value::Kept(own.name, own.kind, own.payload);
    put_alone::<Bottom>(cx, page, path, side, value)
}

/// The kind that is shown of one that is kept.
fn kind_shown(way: Way, kind: u16) -> u16
    ensures { result ≡ kind_shown way kind }
{
    match way {
        Way::Own(Form::Unflagged) => kind & NLA_TYPE_MASK,
        _ => kind,
    }
}

/// Whether an attribute has a name, and is not kept as it is.
fn is_some_name(list: Attributes<'_>, frame: &NlaBuffer<'_>) -> bool
    ensures { not result ≡ is_kept
        (row_in list.entry.around.now list.entry.list (number frame.now)).1 frame.now.payload }
{
    match name_in(list.around, list.list, frame.kind(), frame.value()) {
        Some(_name) => true,
        None => false,
    }
}

/// What an attribute is in the list of those that are kept.
fn look_at<'a>(is_state: bool, list: Attributes<'a>, frame: &NlaBuffer<'a>) -> Entry<'a>
    ensures { entry_held result
        ≡ kept_one is_state list.entry.around.now list.entry.list frame.now }
{
    let number = frame.kind();
    if is_some_name(list, frame) {
        return Entry::Named;
    }
    if is_passed(is_state, list.list, number) {
        return Entry::Passed;
    }
    let (name, way) = row_in(list.around, list.list, number);
    Entry::Kept(Kept {
        name,
        kind: kind_shown(way, frame.kind_with_flags()),
        payload: frame.value(),
    })
}

/// Adds what is kept of an attribute of a number, as if none before it had it.
fn push_entry<'a>(
    values: &mut Vec<Labelled<Option<Kept<'a>>>>,
    number: u16,
    entry: Entry<'a>,
) -> Result<(), AllocError>
    ensures labels { OnOk result (labels_now values.new.items ≡ labels_now values.old.items
        ++ first_labels (map (λ (h : Maybe Held). Some number) (entry_held entry.entry))) }
    ensures values { OnOk result (map kept_held (values_now values.new.items)
        ≡ map kept_held (values_now values.old.items) ++ entry_held entry.entry) }
{
    match entry {
        Entry::Named => Ok(()),
        Entry::Passed => push_labelled(values, Some(number.into()), None),
        Entry::Kept(kept) => push_labelled(values, Some(number.into()), Some(kept)),
    }
}

/// The attributes of a list that are kept, each with its label, as if no two had one number.
fn first_kept<'a>(
    alloc: Global,
    is_state: bool,
    list: Attributes<'a>,
) -> Result<Vec<Labelled<Option<Kept<'a>>>>, AllocError>
    ensures { IfOk result (λ values. AreKept is_state list.entry first_labels values.items) }
{
    let mut values = Vec::new(alloc);
    for item in NlasIterator::new(list.bytes) {
        let Ok(frame) = item else {
            break;
        };
        let entry = look_at(is_state, list, &frame);
        push_entry(&mut values, frame.kind(), entry)?;
    }
    Ok(values)
}

/// The attributes of a list that are kept, each with its label. Where there are none, no memory is taken.
fn kept_in<'a>(
    alloc: Global,
    is_state: bool,
    list: Attributes<'a>,
) -> Result<Vec<Labelled<Option<Kept<'a>>>>, AllocError>
    ensures { IfOk result (λ values. AreKept is_state list.entry labels_of values.items) }
{
    let mut values = first_kept(alloc, is_state, list)?;
    label_all(alloc, &mut values)?;
    Ok(values)
}

/// Whether two that are kept say the same.
fn is_same_kept(own: Kept<'_>, other: Kept<'_>) -> bool
    ensures { result ≡ true → IsSameKept own.entry other.entry }
{
    other.kind == own.kind && own.name == other.name && is_same(own.payload, other.payload)
}

/// Tells of one that is kept at its label, beside the one with this label: by what both say, or as a whole, if there is
/// none. One that says the same costs a look.
fn tell_kept(
    texts: &mut Texts,
    cx: &Around<'_>,
    theirs: &Around<'_>,
    page: &mut Page,
    path: &str,
    side: Side,
    label: Label,
    own: Kept<'_>,
    beside: Option<Kept<'_>>,
) -> Result<(), AllocError>
    ensures { OnOk result (page.new ≡ with_members (objects (step_items side path.now
        (label_step Keys.Number label) (as_object (kept_members own.entry))
        (kept_held beside.entry))) page.old) }
{
    let Some(other) = beside else {
        if side.is_moved() {
            return Ok(());
        }
        let text = join_label(texts.alloc, path, Key::Number.name(), label)?;
        return put_kept(cx, page, text.as_str(), side, own);
    };
    if is_same_kept(own, other) {
        return Ok(());
    }
    let text = join_label(texts.alloc, path, Key::Number.name(), label)?;
    tell_both(texts, cx, theirs, page, text.as_str(), side, own, other)
}

/// Tells of one that is kept, unless it is passed over, beside the one with its label, if there is one.
fn tell_labelled(
    texts: &mut Texts,
    cx: &Around<'_>,
    theirs: &Around<'_>,
    page: &mut Page,
    path: &str,
    side: Side,
    own: Labelled<Option<Kept<'_>>>,
    beside: Option<Option<Kept<'_>>>,
) -> Result<(), AllocError>
    ensures { OnOk result (page.new ≡ with_members (objects (label_items side path.now
        (label_step Keys.Number own.entry.label) (kept_held own.entry.value)
        (option_and_then kept_held beside.entry))) page.old) }
{
    let Some(kept) = own.value else {
        return Ok(());
    };
    let other = match beside {
        Some(other) => other,
        None => None,
    };
    tell_kept(texts, cx, theirs, page, path, side, own.label, kept, other)
}

/// Whether some attributes are not passed over.
fn is_any(others: &[Labelled<Option<Kept<'_>>>]) -> bool
    ensures { result ≡ are_any others.now }
{
    for one in others {
        if one.value.is_some() {
            return true;
        }
    }
    false
}

/// Tells of the attributes of a list that are kept, where the other message has them in another order, if this is to be
/// told.
fn tell_moved(
    texts: &mut Texts,
    side: Side,
    own: Attributes<'_>,
    others: Attributes<'_>,
    page: &mut Page,
    path: &str,
    values: &[Labelled<Option<Kept<'_>>>],
    theirs: &[Labelled<Option<Kept<'_>>>],
) -> Result<(), AllocError>
    ensures { OnOk result ((is_state : Bool) → AreKept is_state own.entry labels_of values.now
        → AreKept is_state others.entry labels_of theirs.now → page.new ≡ with_members
        (objects (kept_moved side path.now is_state own.entry others.entry)) page.old) }
{
    if !side.is_moved() {
        return Ok(());
    }
    if !is_any(values) || !is_any(theirs) {
        return Ok(());
    }
    let was = Value::Others(values);
    let is = Value::Others(theirs);
    tell_turned::<Bottom>(texts, own.around, others.around, page, path, was, is)
}

/// Tells of the attributes of a list that are kept, each beside the one of its number in another list, as members of a
/// list of their own.
pub(crate) fn tell_others(
    texts: &mut Texts,
    pass: Pass,
    page: &mut Page,
    path: &str,
    own: Attributes<'_>,
    others: Attributes<'_>,
) -> Result<(), AllocError>
    ensures { OnOk result (page.new
        ≡ with_members (objects (others_items pass.side (joined path.now (codes "other"))
        pass.is_state own.entry others.entry)) page.old) }
{
    let values = kept_in(texts.alloc, pass.is_state, own)?;
    if values.is_empty() {
        return Ok(());
    }
    let theirs = kept_in(texts.alloc, pass.is_state, others)?;
    let places = places_unless_along(texts.alloc, values.as_slice(), theirs.as_slice())?;
    let list = join(texts.alloc, path, "other")?;
    tell_moved(
        texts,
        pass.side,
        own,
        others,
        page,
        list.as_str(),
        values.as_slice(),
        theirs.as_slice(),
    )?;
    let mut place = 0;
    for one in values.as_slice() {
        let beside = value_beside(&places, one.label, place, theirs.as_slice());
        let cx = others.around;
        let text = list.as_str();
        tell_labelled(texts, own.around, cx, page, text, pass.side, *one, beside)?;
        place += 1;
    }
    Ok(())
}
