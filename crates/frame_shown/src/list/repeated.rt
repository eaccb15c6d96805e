//! Attributes that come again: whether any does, and how they are shown then.

ghost use Rattle.std.specs.Prelude.{◌≡◌, ◌<◌, ◌++◌, ℕ, true, OnOk, IfSome, codes, map, slice_index};
ghost use Rattle.std.specs.List.{list_any};
ghost use Rattle.nla_wire.specs.Items.{items};
ghost use Rattle.shown.specs.Drafts.{with_members, object_of};
ghost use Rattle.frame_shown.specs.Items.{are_any, arrays, count_of, earlier_ones, is_value, kept_ones, last_ones};
ghost use Rattle.frame_shown.specs.Items.{list_under, members_of, number_in, objects};
ghost use Rattle.frame_shown.specs.Frames.{are_twice, by_number, items_in};
ghost use Rattle.frame_shown.specs.Tables.{lists_in};

use crate::depth::Depth;
use crate::form::{Around, List};
use crate::list::arrays::show_lists;
use crate::list::frame::{number_in, show_frame, show_named};
use crate::list::left::{left_by, show_others};
use crate::row::{NUMBERS, own_rows};
use nla_wire::{NlaBuffer, NlasIterator};
use shown::{Nest, Page};
use std::alloc::AllocError;

/// The number of an attribute, where that can have a row.
#[inline(always)]
fn small_number(frame: &NlaBuffer<'_>) -> Option<usize>
    ensures value { result ≡ number_in (by_number frame.now) }
    ensures small { IfSome result (λ n. n < 256) }
{
    let number = frame.kind() as usize;
    if number < NUMBERS { Some(number) } else { None }
}

/// Whether a number that can have a row stands twice in a list. Where none does, no attribute comes again.
pub fn has_twice(bytes: &[u8]) -> bool
    ensures { result ≡ are_twice (items bytes.now) }
{
    let mut seen = [0u8; NUMBERS];
    for item in NlasIterator::new(bytes) {
        let Ok(frame) = item else {
            break;
        };
        if let Some(number) = small_number(&frame) {
            if seen[number] != 0 {
                return true;
            }
            seen[number] = 1;
        }
    }
    false
}

/// What the attributes of a list are together.
#[derive(Drop)]
struct Survey {
    /// Whether another attribute of its name stands after one of them.
    is_any_repeated: bool,
    /// Whether one of them is kept as it is.
    is_any_kept: bool,
    /// Whether one of them is a value of a list.
    is_any_value: bool,
}

/// Goes over the attributes of a list once.
fn look_over<D: Depth>(cx: &Around<'_>, list: &List, bytes: &[u8]) -> Survey
    ensures repeated { result.is_any_repeated
        ≡ are_any (earlier_ones (items_in (D.nest cx.now) cx.now list.now (items bytes.now))) }
    ensures kept { result.is_any_kept
        ≡ are_any (kept_ones (items_in (D.nest cx.now) cx.now list.now (items bytes.now))) }
    ensures value { result.is_any_value
        ≡ list_any is_value (items_in (D.nest cx.now) cx.now list.now (items bytes.now)) }
{
    let mut seen = [0u8; NUMBERS];
    let mut is_any_repeated = false;
    let mut is_any_kept = false;
    let mut is_any_value = false;
    for item in NlasIterator::new(bytes) {
        let Ok(frame) = item else {
            break;
        };
        if let Some(number) = number_in::<D>(cx, list, &frame) {
            is_any_repeated |= seen[number] != 0;
            seen[number] = 1;
        } else {
            let left = left_by::<D>(cx, list, &frame);
            is_any_kept |= left.is_any_kept();
            is_any_value |= left.is_any_value();
        }
    }
    Survey {
        is_any_repeated,
        is_any_kept,
        is_any_value,
    }
}

/// How many attributes there are of each number that has a name.
#[cold]
#[inline(never)]
fn count<D: Depth>(cx: &Around<'_>, list: &List, bytes: &[u8]) -> [usize; NUMBERS]
    ensures { (n : ℕ) → n < 256 → slice_index result n
        ≡ count_of n (items_in (D.nest cx.now) cx.now list.now (items bytes.now)) }
{
    let mut counts = [0usize; NUMBERS];
    for item in NlasIterator::new(bytes) {
        let Ok(frame) = item else {
            break;
        };
        if let Some(number) = number_in::<D>(cx, list, &frame) {
            counts[number] += 1;
        }
    }
    counts
}

/// Adds the last attribute of each name.
#[cold]
#[inline(never)]
fn show_last<D: Depth>(
    cx: &Around<'_>,
    page: &mut Page,
    list: &List,
    bytes: &[u8],
    counts: &[usize; NUMBERS],
) -> Result<(), AllocError>
    requires { (n : ℕ) → n < 256 → slice_index counts.now n
        ≡ count_of n (items_in (D.nest cx.now) cx.now list.now (items bytes.now)) }
    ensures { OnOk result (page.new ≡ with_members
        (last_ones (items_in (D.nest cx.now) cx.now list.now (items bytes.now))) page.old) }
{
    let rows = own_rows(list);
    let mut left = *counts;
    for item in NlasIterator::new(bytes) {
        let Ok(frame) = item else {
            break;
        };
        if let Some(number) = number_in::<D>(cx, list, &frame) {
            left[number] -= 1;
            if left[number] == 0 {
                show_frame::<D>(cx, page, list, rows, &frame)?;
            }
        }
    }
    Ok(())
}

/// Adds the attributes after which another of their name stands, as objects of one member.
#[cold]
#[inline(never)]
fn show_earlier<D: Depth>(
    cx: &Around<'_>,
    page: &mut Page,
    list: &List,
    bytes: &[u8],
    counts: &[usize; NUMBERS],
) -> Result<(), AllocError>
    requires { (n : ℕ) → n < 256 → slice_index counts.now n
        ≡ count_of n (items_in (D.nest cx.now) cx.now list.now (items bytes.now)) }
    ensures { OnOk result (page.new ≡ with_members (objects
        (earlier_ones (items_in (D.nest cx.now) cx.now list.now (items bytes.now)))) page.old) }
{
    let rows = own_rows(list);
    let mut left = *counts;
    for item in NlasIterator::new(bytes) {
        let Ok(frame) = item else {
            break;
        };
        if let Some(number) = number_in::<D>(cx, list, &frame) {
            left[number] -= 1;
            if left[number] != 0 {
                page.begin("", Nest::Object)?;
                show_frame::<D>(cx, page, list, rows, &frame)?;
                page.end()?;
            }
        }
    }
    Ok(())
}

/// Adds the attributes that have a name where some come again: the last one of each name, the lists, and after them a
/// list of those that came before the last one of their name.
#[cold]
#[inline(never)]
fn show_repeated<D: Depth>(
    cx: &Around<'_>,
    page: &mut Page,
    list: &List,
    bytes: &[u8],
    is_any_value: bool,
) -> Result<(), AllocError>
    requires again { are_any (earlier_ones
        (items_in (D.nest cx.now) cx.now list.now (items bytes.now))) ≡ true }
    requires value { is_any_value
        ≡ list_any is_value (items_in (D.nest cx.now) cx.now list.now (items bytes.now)) }
    ensures { OnOk result (page.new ≡ with_members
        (last_ones (items_in (D.nest cx.now) cx.now list.now (items bytes.now))
        ++ arrays (lists_in cx.now list.now)
        (items_in (D.nest cx.now) cx.now list.now (items bytes.now))
        ++ list_under (codes "repeated") (map object_of
        (earlier_ones (items_in (D.nest cx.now) cx.now list.now (items bytes.now))))) page.old) }
{
    let counts = count::<D>(cx, list, bytes);
    show_last::<D>(cx, page, list, bytes, &counts)?;
    show_lists::<D>(cx, page, list, bytes, is_any_value)?;
    page.begin("repeated", Nest::List)?;
    show_earlier::<D>(cx, page, list, bytes, &counts)?;
    page.end()
}

/// Adds the attributes that have a name: the last one of each name, the lists, and after them those that came before
/// the last one of their name.
fn show_all<D: Depth>(
    cx: &Around<'_>,
    page: &mut Page,
    list: &List,
    bytes: &[u8],
    is_any_repeated: bool,
    is_any_value: bool,
) -> Result<(), AllocError>
    requires again { is_any_repeated
        ≡ are_any (earlier_ones (items_in (D.nest cx.now) cx.now list.now (items bytes.now))) }
    requires value { is_any_value
        ≡ list_any is_value (items_in (D.nest cx.now) cx.now list.now (items bytes.now)) }
    ensures { OnOk result (page.new ≡ with_members
        (last_ones (items_in (D.nest cx.now) cx.now list.now (items bytes.now))
        ++ arrays (lists_in cx.now list.now)
        (items_in (D.nest cx.now) cx.now list.now (items bytes.now))
        ++ list_under (codes "repeated") (map object_of
        (earlier_ones (items_in (D.nest cx.now) cx.now list.now (items bytes.now))))) page.old) }
{
    if is_any_repeated {
        return show_repeated::<D>(cx, page, list, bytes, is_any_value);
    }
    show_named::<D>(cx, page, list, bytes)?;
    show_lists::<D>(cx, page, list, bytes, is_any_value)
}

/// Adds the attributes of a list as members, where some may come again.
#[inline(never)]
pub(super) fn show_surveyed<D: Depth>(
    cx: &Around<'_>,
    page: &mut Page,
    list: &List,
    bytes: &[u8],
) -> Result<(), AllocError>
    ensures { OnOk result (page.new ≡ with_members
        (members_of (lists_in cx.now list.now)
        (items_in (D.nest cx.now) cx.now list.now (items bytes.now))) page.old) }
{
    let survey = look_over::<D>(cx, list, bytes);
    show_all::<D>(
        cx,
        page,
        list,
        bytes,
        survey.is_any_repeated,
        survey.is_any_value,
    )?;
    show_others::<D>(cx, page, list, bytes, survey.is_any_kept)
}
