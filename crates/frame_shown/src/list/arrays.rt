//! Lists of which attributes are the values.

ghost use Rattle.std.specs.Prelude.{◌≡◌, ◌==◌, false, true, [], ◌∷◌, OnOk, MatchOption};
ghost use Rattle.std.specs.List.{flat_map, list_any};
ghost use Rattle.nla_wire.specs.Frames.{number as number_of};
ghost use Rattle.nla_wire.specs.Items.{items};
ghost use Rattle.link_info.specs.Tables.{frames_in};
ghost use Rattle.shown.specs.Drafts.{with_members, with_value, list_of};
ghost use Rattle.frame_shown.specs.Items.{arrays, elements, is_value, values_with};
ghost use Rattle.frame_shown.specs.Frames.{items_in, values_by};
ghost use Rattle.frame_shown.specs.Tables.{is_each, is_listed, lists_in, lists_of, row_in};
ghost use Rattle.frame_shown.specs.declared.form.Way.TheVariants as Ways;

use crate::apart::is_listed;
use crate::depth::Depth;
use crate::form::{Around, List, Manner};
use crate::row::{data_rows, found_in};
use crate::value::show_style;
use link_info::{Row as PlaceRow, Style};
use nla_wire::NlasIterator;
use shown::{Nest, Page};
use std::alloc::AllocError;

/// How the values of the list of a number are shown, if its attributes are such.
fn list_style(cx: &Around<'_>, list: &List, number: u16) -> Option<&'static Style>
    ensures { MatchOption result (is_each (row_in cx.now list.now number).1 ≡ false)
        (λ style. ((row_in cx.now list.now number).1 ≡ Ways.By style.now)
        × (is_listed style.now ≡ true)) }
{
    let (_, manner) = found_in(cx, list, number);
    match manner {
        Manner::By(style) if is_listed(style) => Some(style),
        _ => None,
    }
}

/// Whether there is an attribute of this number.
fn comes(number: u16, bytes: &[u8]) -> bool
    ensures { result ≡ list_any (λ f. number_of f == number) (frames_in (items bytes.now)) }
{
    for item in NlasIterator::new(bytes) {
        let Ok(frame) = item else {
            break;
        };
        if frame.kind() == number {
            return true;
        }
    }
    false
}

/// Adds what the attributes of this number hold, by a style.
fn show_values<D: Depth>(
    cx: &Around<'_>,
    page: &mut Page,
    style: &Style,
    number: u16,
    bytes: &[u8],
) -> Result<(), AllocError>
    ensures { OnOk result (page.new ≡ with_members (elements
        (values_by (D.nest cx.now) style.now number (frames_in (items bytes.now)))) page.old) }
{
    for item in NlasIterator::new(bytes) {
        let Ok(frame) = item else {
            break;
        };
        if frame.kind() == number {
            show_style::<D>(cx, page, "", style, frame.value())?;
        }
    }
    Ok(())
}

/// Adds the values of the list of a number.
fn show_each<D: Depth>(
    cx: &Around<'_>,
    page: &mut Page,
    list: &List,
    number: u16,
    bytes: &[u8],
) -> Result<(), AllocError>
    ensures { OnOk result (page.new ≡ with_members (elements (values_with number
        (items_in (D.nest cx.now) cx.now list.now (items bytes.now)))) page.old) }
{
    match list_style(cx, list, number) {
        Some(style) => show_values::<D>(cx, page, style, number, bytes),
        None => Ok(()),
    }
}

/// Adds the list of a number under a name, of whatever values there are.
pub fn show_one_array<D: Depth>(
    cx: &Around<'_>,
    page: &mut Page,
    name: &str,
    list: &List,
    number: u16,
    bytes: &[u8],
) -> Result<(), AllocError>
    ensures { OnOk result (page.new ≡ with_value name.now (list_of (flat_map (λ tokens. tokens)
        (values_with number (items_in (D.nest cx.now) cx.now list.now (items bytes.now))))) page.old) }
{
    page.begin(name, Nest::List)?;
    show_each::<D>(cx, page, list, number, bytes)?;
    page.end()
}

/// Adds the list that a row is of, if it is of one and that has a value.
fn show_array<D: Depth>(
    cx: &Around<'_>,
    page: &mut Page,
    list: &List,
    row: &PlaceRow,
    bytes: &[u8],
) -> Result<(), AllocError>
    ensures { OnOk result (page.new ≡ with_members (arrays (lists_of (row.now ∷ []))
        (items_in (D.nest cx.now) cx.now list.now (items bytes.now))) page.old) }
{
    if !is_listed(&row.2) {
        return Ok(());
    }
    let Some(style) = list_style(cx, list, row.0) else {
        return Ok(());
    };
    if !comes(row.0, bytes) {
        return Ok(());
    }
    page.begin(row.1, Nest::List)?;
    show_values::<D>(cx, page, style, row.0, bytes)?;
    page.end()
}

/// Adds the lists that have a value, each under its name.
#[inline(never)]
fn show_arrays<D: Depth>(
    cx: &Around<'_>,
    page: &mut Page,
    list: &List,
    bytes: &[u8],
) -> Result<(), AllocError>
    ensures { OnOk result (page.new ≡ with_members (arrays (lists_in cx.now list.now)
        (items_in (D.nest cx.now) cx.now list.now (items bytes.now))) page.old) }
{
    let rows = data_rows(cx, list);
    for row in rows {
        show_array::<D>(cx, page, list, row, bytes)?;
    }
    Ok(())
}

/// Adds the lists that have a value, if there are any.
#[inline(always)]
pub(super) fn show_lists<D: Depth>(
    cx: &Around<'_>,
    page: &mut Page,
    list: &List,
    bytes: &[u8],
    is_any_value: bool,
) -> Result<(), AllocError>
    requires { is_any_value
        ≡ list_any is_value (items_in (D.nest cx.now) cx.now list.now (items bytes.now)) }
    ensures { OnOk result (page.new ≡ with_members (arrays (lists_in cx.now list.now)
        (items_in (D.nest cx.now) cx.now list.now (items bytes.now))) page.old) }
{
    if !is_any_value {
        return Ok(());
    }
    show_arrays::<D>(cx, page, list, bytes)
}
