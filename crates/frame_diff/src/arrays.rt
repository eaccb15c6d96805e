//! What lists tell that attributes are the values of, each beside that of its name.

ghost use Rattle.std.specs.Prelude.{◌≡◌, [], ◌∷◌, Bool, IfSome, OnOk, false, option_map, true};
ghost use Rattle.nla_wire.specs.Items.{items};
ghost use Rattle.link_info.specs.Tables.{frames_in};
ghost use Rattle.shown.specs.Drafts.{with_members};
ghost use Rattle.frame_shown.specs.Items.{objects};
ghost use Rattle.frame_shown.specs.Tables.{lists_in, lists_of};
ghost use Rattle.frame_shown.specs.declared.form.Around.{Around as Beside};
ghost use Rattle.frame_diff.specs.Arrays.{arrays_at, has_data, has_values, is_array, is_value_of, last_array};
ghost use Rattle.frame_diff.specs.Forests.{Step, find, forest};
ghost use Rattle.frame_diff.specs.Groups.{group_held, is_entries, is_valued, of_number};
ghost use Rattle.frame_diff.specs.Items.{items_told};
ghost use Rattle.frame_diff.specs.Members.{arrays_of};
ghost use Rattle.frame_diff.specs.Shown.{AreListsApart};
ghost use Rattle.frame_diff.specs.Walked.{AreAlike, HasNames, Holding, Showing, reading_at};

use crate::groups::tell_values;
use crate::leaf::Texts;
use crate::named::is_each;
use crate::one_value::Array;
use crate::path::join;
use crate::walk::{Attributes, Pass, Walk};
use frame_shown::form::{List, data_rows, is_listed, row_in};
use link_info::Row;
use nla_wire::{NlaBuffer, NlasIterator};
use shown::Page;
use std::alloc::AllocError;

/// Whether a list of attributes has rows of link data.
fn has_data(list: List) -> bool
    ensures data { result ≡ has_data list }
    ensures entries { result ≡ true → is_entries list ≡ false }
    ensures none { result ≡ false → (cx : Beside) → lists_in cx list ≡ [] }
{
    match list {
        List::Of(_) | List::ProtoInet6 => true,
        _ => false,
    }
}

/// Whether an attribute is a value of the list of a number.
fn is_value_of(list: Attributes<'_>, number: u16, frame: &NlaBuffer<'_>) -> bool
    ensures { result
        ≡ is_value_of list.entry.around.now list.entry.list number frame.now }
{
    if frame.kind() != number {
        return false;
    }
    let (_, way) = row_in(list.around, list.list, frame.kind());
    is_each(way)
}

/// Whether the list of a number has a value.
fn has_values(list: Attributes<'_>, number: u16) -> bool
    ensures { result ≡ has_values list.entry.around.now list.entry.list
        (frames_in (items list.entry.bytes.now)) number }
{
    for item in NlasIterator::new(list.bytes) {
        let Ok(frame) = item else {
            break;
        };
        if is_value_of(list, number, &frame) {
            return true;
        }
    }
    false
}

/// Whether a row is of a list of this name that has a value.
fn is_array(list: Attributes<'_>, name: &str, row: &Row) -> bool
    ensures { result ≡ is_array list.entry.around.now list.entry.list
        (frames_in (items list.entry.bytes.now)) name.now row.now }
{
    is_listed(&row.2) && row.1 == name && has_values(list, row.0)
}

/// The number of the list of this name, if that has a value.
fn find_array(list: Attributes<'_>, rows: &[Row], name: &str) -> Option<u16>
    ensures { result ≡ last_array list.entry.around.now list.entry.list
        (frames_in (items list.entry.bytes.now)) name.now None rows.now }
{
    let mut last = None;
    for row in rows {
        if is_array(list, name, row) {
            last = Some(row.0);
        }
    }
    last
}

/// The attributes of a list that are the values of the list of a number.
fn of_number<'a>(list: Attributes<'a>, number: u16) -> Attributes<'a>
    ensures { result ≡ of_number number list.entry }
{
    Attributes {
        number: Some(number),
        ..list
    }
}

/// The list of this name among those that attributes are the values of, if that has a value.
fn array_beside<'a>(others: Attributes<'a>, name: &str) -> Option<Attributes<'a>>
    ensures held { (nest : Showing) (inner : Holding) (is_state : Bool)
        → option_map (group_held nest inner is_state) result
        ≡ find (Step.array name.now) (forest (arrays_at nest inner is_state others.entry)) }
    ensures group { IfSome result (λ a. is_valued a.number a.list ≡ true) }
    ensures entries { IfSome result (λ a. is_entries a.list ≡ false) }
    ensures around { IfSome result (λ a. a.around.now ≡ others.entry.around.now) }
{
    if !has_data(others.list) {
        return None;
    }
    let rows = data_rows(others.around, &others.list);
    match find_array(others, rows, name) {
        Some(number) => Some(of_number(others, number)),
        None => None,
    }
}

/// Tells of the list that a row is of, if it is of one and that has a value, beside that of its name.
fn tell_array<W: Walk>(
    texts: &mut Texts,
    pass: Pass,
    page: &mut Page,
    path: &str,
    own: Attributes<'_>,
    others: Attributes<'_>,
    row: &Row,
) -> Result<(), AllocError>
    requires entries { is_entries own.list ≡ false }
    requires names { HasNames own.around.now }
    requires rows { pass.is_alike ≡ true → AreAlike own others }
    ensures { OnOk result (page.new ≡ with_members (objects (items_told pass.side path.now
        (forest (arrays_of (reading_at W.nest W.inner pass.is_state own.entry.around.now)
        own.entry.list (lists_of (row.now ∷ [])) (frames_in (items own.entry.bytes.now))))
        (forest (arrays_at W.nest W.inner pass.is_state others.entry)))) page.old) }
{
    if !is_listed(&row.2) {
        return Ok(());
    }
    if !has_values(own, row.0) {
        return Ok(());
    }
    let text = join(texts.alloc, path, row.1)?;
    let there = array_beside(others, row.1);
    tell_values::<W, Array>(
        texts,
        pass,
        page,
        text.as_str(),
        of_number(own, row.0),
        there,
    )
}

/// Tells of the lists that rows are of, one row after another.
fn tell_rows<W: Walk>(
    texts: &mut Texts,
    pass: Pass,
    page: &mut Page,
    path: &str,
    own: Attributes<'_>,
    others: Attributes<'_>,
    rows: &[Row],
) -> Result<(), AllocError>
    requires entries { is_entries own.list ≡ false }
    requires names { HasNames own.around.now }
    requires rows { pass.is_alike ≡ true → AreAlike own others }
    requires apart { AreListsApart (lists_of rows.now) }
    ensures { OnOk result (page.new ≡ with_members (objects (items_told pass.side path.now
        (forest (arrays_of (reading_at W.nest W.inner pass.is_state own.entry.around.now)
        own.entry.list (lists_of rows.now) (frames_in (items own.entry.bytes.now))))
        (forest (arrays_at W.nest W.inner pass.is_state others.entry)))) page.old) }
{
    for row in rows {
        tell_array::<W>(texts, pass, page, path, own, others, row)?;
    }
    Ok(())
}

/// Tells of the lists that attributes are the values of, each beside that of its name in another list.
pub(crate) fn tell_arrays<W: Walk>(
    texts: &mut Texts,
    pass: Pass,
    page: &mut Page,
    path: &str,
    own: Attributes<'_>,
    others: Attributes<'_>,
) -> Result<(), AllocError>
    requires names { HasNames own.around.now }
    requires rows { pass.is_alike ≡ true → AreAlike own others }
    ensures { OnOk result (page.new ≡ with_members (objects (items_told pass.side path.now
        (forest (arrays_at W.nest W.inner pass.is_state own.entry))
        (forest (arrays_at W.nest W.inner pass.is_state others.entry)))) page.old) }
{
    if !has_data(own.list) {
        return Ok(());
    }
    let rows = data_rows(own.around, &own.list);
    tell_rows::<W>(texts, pass, page, path, own, others, rows)
}
