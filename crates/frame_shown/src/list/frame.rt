//! What an attribute says under its name.

ghost use Rattle.std.specs.Prelude.{◌≡◌, ◌<◌, true, [], ◌∷◌, OnOk, IfOk, IfSome};
ghost use Rattle.std.specs.List.{flat_map, list_any};
ghost use Rattle.nla_wire.specs.Items.{items};
ghost use Rattle.shown.specs.Drafts.{with_members, with_value};
ghost use Rattle.frame_shown.specs.Items.{are_any, is_value, kept_ones, number_in, shown_as};
ghost use Rattle.frame_shown.specs.Frames.{frame_item, items_in, way_shown};
ghost use Rattle.frame_shown.specs.Tables.{AreOf, is_own};
ghost use Rattle.frame_shown.specs.Lists.{left_kept, left_value, said_kept, said_value};
ghost use Rattle.frame_shown.specs.Values.{form_shown, style_shown};
ghost use Rattle.link_info.specs.declared.style.Style.TheVariants as S;
ghost use Rattle.shown.specs.Keys.{IsKey};

use crate::apart::{is_each_by, is_kept_by, is_kept_form, is_listed};
use crate::depth::Depth;
use crate::form::{Around, Form, List, Manner, Way};
use crate::list::left::{Left, Said};
use crate::row::{Rows, found_by, found_in, own_rows};
use crate::value::{number_at, show_form, show_style, show_text};
use link_info::{Member, Place, Style};
use nla_wire::{NlaBuffer, NlasIterator};
use shown::{Nest, Page};
use std::alloc::AllocError;

/// Adds a value by its way.
#[inline(always)]
pub fn show_way<D: Depth>(
    cx: &Around<'_>,
    page: &mut Page,
    name: &str,
    way: Way,
    payload: &[u8],
) -> Result<(), AllocError>
    requires key { is_own way ≡ true → IsKey name.now }
    ensures { OnOk result
        (page.new ≡ with_value name.now (way_shown (D.nest cx.now) cx.now way payload.now) page.old) }
{
    match way {
        Way::Own(form) => show_form::<D>(cx, page, name, &form, payload),
        Way::By(style) => show_style::<D>(cx, page, name, &style, payload),
    }
}

/// Adds a value by a form: most are numbers, and most of a long list are texts.
#[inline(always)]
fn show_own<D: Depth>(
    cx: &Around<'_>,
    page: &mut Page,
    name: &str,
    form: &Form,
    payload: &[u8],
) -> Result<(), AllocError>
    requires key { IsKey name.now }
    ensures { OnOk result (page.new
        ≡ with_value name.now (form_shown (D.nest cx.now) cx.now form.now payload.now) page.old) }
{
    match *form {
        Form::Number(size) => page.keyed_number(name, number_at(size, payload, 0)),
        Form::Text => show_text(page, name, payload),
        _ => show_form::<D>(cx, page, name, form, payload),
    }
}

/// Adds the data of a kind of link.
#[inline(never)]
fn show_data<D: Depth>(
    cx: &Around<'_>,
    page: &mut Page,
    name: &str,
    place: Place,
    payload: &[u8],
) -> Result<(), AllocError>
    ensures { OnOk result (page.new
        ≡ with_value name.now (style_shown (D.nest cx.now) (S.Nest place) payload.now) page.old) }
{
    show_style::<D>(cx, page, name, &Style::Nest(place), payload)
}

/// Adds the counters that a kind of link has beside its data.
#[inline(never)]
fn show_counters<D: Depth>(
    cx: &Around<'_>,
    page: &mut Page,
    name: &str,
    members: &'static [Member],
    payload: &[u8],
) -> Result<(), AllocError>
    ensures { OnOk result (page.new ≡ with_value name.now
        (style_shown (D.nest cx.now) (S.Record members.entry) payload.now) page.old) }
{
    show_style::<D>(cx, page, name, &Style::Record(members), payload)
}

/// Adds what an attribute says under its name. One that is kept as it is, and a value of a list, says nothing here. The
/// rows are those of the list, if it goes by a table of this crate.
#[inline(always)]
#[tactic(auto, using(crate::proofs::Items::frames_by_row))]
pub(super) fn show_frame<D: Depth>(
    cx: &Around<'_>,
    page: &mut Page,
    list: &List,
    rows: Option<Rows>,
    frame: &NlaBuffer<'_>,
) -> Result<Said, AllocError>
    requires { AreOf rows list.now }
    ensures shown { OnOk result (page.new ≡ with_members
        (shown_as (frame_item (D.nest cx.now) cx.now list.now frame.now)) page.old) }
    ensures kept { IfOk result (λ said. said_kept said
        ≡ are_any (kept_ones (frame_item (D.nest cx.now) cx.now list.now frame.now ∷ []))) }
    ensures value { IfOk result (λ said. said_value said
        ≡ is_value (frame_item (D.nest cx.now) cx.now list.now frame.now)) }
{
    let (name, manner) = found_by(cx, list, rows, frame.kind());
    let payload = frame.value();
    match manner {
        Manner::Own(form) if is_kept_form(form, payload) => return Ok(Said::Kept),
        Manner::Own(form) => show_own::<D>(cx, page, name, form, payload)?,
        Manner::By(style) if is_listed(style) => return Ok(Said::Value),
        Manner::By(style) => show_style::<D>(cx, page, name, style, payload)?,
        Manner::Nest(place) => show_data::<D>(cx, page, name, place, payload)?,
        Manner::Counters(members) => show_counters::<D>(cx, page, name, members, payload)?,
        Manner::Bytes => page.hex(name, payload)?,
    }
    Ok(Said::Named)
}

/// The number of an attribute that is shown under a name.
#[inline(always)]
#[tactic(auto, using(crate::proofs::Items::numbers_by_row))]
pub(super) fn number_in<D: Depth>(
    cx: &Around<'_>,
    list: &List,
    frame: &NlaBuffer<'_>,
) -> Option<usize>
    ensures value { result ≡ number_in (frame_item (D.nest cx.now) cx.now list.now frame.now) }
    ensures small { IfSome result (λ n. n < 256) }
{
    let number = frame.kind();
    let (_, manner) = found_in(cx, list, number);
    if is_kept_by(manner, frame.value()) {
        return None;
    }
    if is_each_by(manner) {
        return None;
    }
    Some(number as usize)
}

/// Adds the attributes that have a name, and returns which of the others there are.
pub(super) fn show_named<D: Depth>(
    cx: &Around<'_>,
    page: &mut Page,
    list: &List,
    bytes: &[u8],
) -> Result<Left, AllocError>
    ensures shown { OnOk result (page.new ≡ with_members
        (flat_map shown_as (items_in (D.nest cx.now) cx.now list.now (items bytes.now))) page.old) }
    ensures kept { IfOk result (λ left. left_kept left
        ≡ are_any (kept_ones (items_in (D.nest cx.now) cx.now list.now (items bytes.now)))) }
    ensures value { IfOk result (λ left. left_value left
        ≡ list_any is_value (items_in (D.nest cx.now) cx.now list.now (items bytes.now))) }
{
    let rows = own_rows(list);
    let mut left = Left::Nothing;
    for item in NlasIterator::new(bytes) {
        let Ok(frame) = item else {
            break;
        };
        let said = show_frame::<D>(cx, page, list, rows, &frame)?;
        left = left.and(said);
    }
    Ok(left)
}
