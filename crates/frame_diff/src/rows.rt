//! What the fields of a record tell beside those of another one.

ghost use Rattle.std.specs.Prelude.{◌≡◌, ◌∷◌, OnOk, Some, drop, map, option_map, true};
ghost use Rattle.std.specs.List.{list_any};
ghost use Rattle.shown.specs.Drafts.{with_members};
ghost use Rattle.frame_shown.specs.Items.{objects};
ghost use Rattle.frame_shown.specs.Values.{hexadecimal};
ghost use Rattle.frame_shown.specs.declared.form.Around.{Around as Beside};
ghost use Rattle.frame_diff.specs.Differences.{leaf_in};
ghost use Rattle.frame_diff.specs.Forests.{Forest, comes, field_step, find};
ghost use Rattle.frame_diff.specs.Items.{items_told};
ghost use Rattle.frame_diff.specs.Members.{fields, named};
ghost use Rattle.frame_diff.specs.Rows.{first_row, have_same_names, is_first, is_under, last_value, row_beside};
ghost use Rattle.frame_diff.specs.Rows.{row_shown, rows_beside};
ghost use Rattle.frame_diff.specs.Values.{value_shown};
ghost use Rattle.frame_diff.specs.Walked.{last_items};

use crate::leaf::compare::is_shown_same;
use crate::leaf::{Texts, Value, put_step, tell_step};
use crate::side::Side;
use frame_shown::depth::Bottom;
use frame_shown::form::Around;
use shown::Page;
use std::alloc::AllocError;

/// A field of a record.
#[derive(Clone, Copy, Drop)]
pub struct Row<'a> {
    /// Its name.
    pub name: &'a str,
    /// Its value.
    pub value: Value<'a>,
}

/// The fields behind the first one.
fn rest_of<'b, 'a>(rows: &'b [Row<'a>]) -> &'b [Row<'a>]
    ensures { result.now ≡ drop 1 rows.now }
{
    &rows[1.min(rows.len())..]
}

/// Whether a field has this name.
fn is_any_under(rows: &[Row<'_>], name: &str) -> bool
    ensures { result ≡ list_any (is_under name.now) rows.now }
{
    for row in rows {
        if row.name == name {
            return true;
        }
    }
    false
}

/// Whether a field with this name is among them.
fn comes(rows: &[Row<'_>], name: &str) -> bool
    ensures { (cx : Beside) → result
        ≡ comes (field_step name.now) (named (map (row_shown cx) rows.now)) }
{
    is_any_under(rows, name)
}

/// The value of the last field of a name.
fn find_last<'a>(rows: &[Row<'a>], name: &str) -> Option<Value<'a>>
    ensures { result ≡ last_value name.now None rows.now }
{
    let mut last = None;
    for row in rows {
        if row.name == name {
            last = Some(row.value);
        }
    }
    last
}

/// The value of the field that is the member with this name.
fn find_value<'a>(rows: &[Row<'a>], name: &str) -> Option<Value<'a>>
    ensures { (cx : Beside) → option_map (value_shown (λ list p. hexadecimal p) cx) result
        ≡ leaf_in (find (field_step name.now) (fields (map (row_shown cx) rows.now))) }
{
    find_last(rows, name)
}

/// Tells of a field beside that of its name, unless one of its name comes behind it.
fn tell_row(
    texts: &mut Texts,
    cx: &Around<'_>,
    theirs: &Around<'_>,
    page: &mut Page,
    path: &str,
    side: Side,
    own: Row<'_>,
    behind: &[Row<'_>],
    others: &[Row<'_>],
) -> Result<(), AllocError>
    ensures { OnOk result (page.new ≡ with_members (objects (last_items side path.now
        (named (map (row_shown cx.now) behind.now))
        (field_step own.entry.name.now, ((row_shown cx.now own.entry).1, Forest.none))
        (find (field_step own.entry.name.now) (fields (map (row_shown theirs.now) others.now)))))
        page.old) }
{
    if comes(behind, own.name) {
        return Ok(());
    }
    let beside = find_value(others, own.name);
    tell_step::<Bottom>(
        texts, cx, theirs, page, path, own.name, side, own.value, beside,
    )
}

/// The first field, if there is one.
fn first<'a>(rows: &[Row<'a>]) -> Option<Row<'a>>
    ensures { result ≡ first_row rows.now }
{
    match rows.first() {
        Some(row) => Some(*row),
        None => None,
    }
}

/// Whether the first field has this name.
fn is_first(rows: &[Row<'_>], name: &str) -> bool
    ensures { result ≡ is_first name.now (first_row rows.now) }
{
    match first(rows) {
        Some(row) => row.name == name,
        None => false,
    }
}

/// Whether two records have the same names, in the same order.
fn have_same_names(own: &[Row<'_>], others: &[Row<'_>]) -> bool
    ensures { result ≡ have_same_names own.now others.now }
{
    let mut there = others;
    for row in own {
        if !is_first(there, row.name) {
            return false;
        }
        there = rest_of(there);
    }
    there.is_empty()
}

/// Tells of a field beside another one, which is the first of these and has its name: where it turned, unless one of
/// its name comes behind it.
fn tell_pair(
    texts: &mut Texts,
    cx: &Around<'_>,
    theirs: &Around<'_>,
    page: &mut Page,
    path: &str,
    own: Row<'_>,
    other: Row<'_>,
    behind: &[Row<'_>],
    there: &[Row<'_>],
) -> Result<(), AllocError>
    requires first { first_row there.now ≡ Some other }
    requires same { have_same_names (own ∷ behind.now) there.now ≡ true }
    ensures { OnOk result (page.new ≡ with_members
        (objects (row_beside cx.now theirs.now path.now own.entry behind.now there.now)) page.old) }
{
    let is_same = is_shown_same::<Bottom>(texts, cx, theirs, own.value, other.value)?;
    if is_same {
        return Ok(());
    }
    if comes(behind, own.name) {
        return Ok(());
    }
    put_step::<Bottom>(
        texts,
        cx,
        theirs,
        page,
        path,
        own.name,
        Side::Old,
        own.value,
        Some(other.value),
    )
}

/// Tells of a field beside the first one of these, which has its name.
fn tell_first(
    texts: &mut Texts,
    cx: &Around<'_>,
    theirs: &Around<'_>,
    page: &mut Page,
    path: &str,
    own: Row<'_>,
    behind: &[Row<'_>],
    there: &[Row<'_>],
) -> Result<(), AllocError>
    requires { have_same_names (own ∷ behind.now) there.now ≡ true }
    ensures { OnOk result (page.new ≡ with_members
        (objects (row_beside cx.now theirs.now path.now own.entry behind.now there.now)) page.old) }
{
    match first(there) {
        Some(other) => tell_pair(texts, cx, theirs, page, path, own, other, behind, there),
        None => Ok(()),
    }
}

/// Tells of the fields of an old record beside those of a new one that has the same names, in the same order.
fn tell_firsts(
    texts: &mut Texts,
    cx: &Around<'_>,
    theirs: &Around<'_>,
    page: &mut Page,
    path: &str,
    own: &[Row<'_>],
    others: &[Row<'_>],
) -> Result<(), AllocError>
    requires { have_same_names own.now others.now ≡ true }
    ensures { OnOk result (page.new ≡ with_members
        (objects (rows_beside cx.now theirs.now path.now own.now others.now)) page.old) }
{
    let mut behind = own;
    let mut there = others;
    for row in own {
        behind = rest_of(behind);
        tell_first(texts, cx, theirs, page, path, *row, behind, there)?;
        there = rest_of(there);
    }
    Ok(())
}

/// Tells of the fields of a record beside those of one that has the same names, in the same order: of what turned. None
/// came, and none went.
fn tell_same_names(
    texts: &mut Texts,
    cx: &Around<'_>,
    theirs: &Around<'_>,
    page: &mut Page,
    path: &str,
    side: Side,
    own: &[Row<'_>],
    others: &[Row<'_>],
) -> Result<(), AllocError>
    requires { have_same_names own.now others.now ≡ true }
    ensures { OnOk result (page.new ≡ with_members (objects (items_told side path.now
        (fields (map (row_shown cx.now) own.now)) (fields (map (row_shown theirs.now) others.now))))
        page.old) }
{
    match side {
        Side::Old => tell_firsts(texts, cx, theirs, page, path, own, others),
        Side::New | Side::Moved => Ok(()),
    }
}

/// Tells of the fields of a record beside those of another one, each beside the one of its name.
fn tell_each(
    texts: &mut Texts,
    cx: &Around<'_>,
    theirs: &Around<'_>,
    page: &mut Page,
    path: &str,
    side: Side,
    own: &[Row<'_>],
    others: &[Row<'_>],
) -> Result<(), AllocError>
    ensures { OnOk result (page.new ≡ with_members (objects (items_told side path.now
        (fields (map (row_shown cx.now) own.now)) (fields (map (row_shown theirs.now) others.now))))
        page.old) }
{
    let mut behind = own;
    for row in own {
        behind = rest_of(behind);
        tell_row(texts, cx, theirs, page, path, side, *row, behind, others)?;
    }
    Ok(())
}

/// Tells of the fields of a record beside those of another one.
pub(crate) fn tell_rows(
    texts: &mut Texts,
    cx: &Around<'_>,
    theirs: &Around<'_>,
    page: &mut Page,
    path: &str,
    side: Side,
    own: &[Row<'_>],
    others: &[Row<'_>],
) -> Result<(), AllocError>
    ensures { OnOk result (page.new ≡ with_members (objects (items_told side path.now
        (fields (map (row_shown cx.now) own.now)) (fields (map (row_shown theirs.now) others.now))))
        page.old) }
{
    if have_same_names(own, others) {
        return tell_same_names(texts, cx, theirs, page, path, side, own, others);
    }
    tell_each(texts, cx, theirs, page, path, side, own, others)
}
