//! Attributes that say nothing under a name of their own: which there are, and those that are kept as they are.

ghost use Rattle.std.specs.Prelude.{◌≡◌, ◌||◌, true, [], ◌∷◌, OnOk, codes, map};
ghost use Rattle.std.specs.List.{list_any};
ghost use Rattle.nla_wire.specs.Items.{items};
ghost use Rattle.shown.specs.Drafts.{with_members, object_of};
ghost use Rattle.frame_shown.specs.Items.{are_any, arrays, is_value, kept_ones, list_under, objects};
ghost use Rattle.frame_shown.specs.Frames.{frame_item, items_in};
ghost use Rattle.frame_shown.specs.Tables.{lists_in};
ghost use Rattle.frame_shown.specs.Lists.{left_kept, left_value, said_kept, said_value};

use crate::apart::{is_each_by, is_kept_by, kind_shown};
use crate::depth::Depth;
use crate::form::{Around, List};
use crate::kept::show_kept;
use crate::list::arrays::show_lists;
use crate::row::found_in;
use nla_wire::{NlaBuffer, NlasIterator};
use shown::{Nest, Page};
use std::alloc::AllocError;

/// Which attributes of a list say nothing under a name of their own.
#[derive(Clone, Copy, Drop)]
pub(super) enum Left {
    /// None.
    Nothing,
    /// Those that are kept as they are.
    Kept,
    /// Those that are values of lists.
    Values,
    /// Both.
    Both,
}

impl Left {
    /// What is left, by whether there are such and such.
    fn of(is_any_kept: bool, is_any_value: bool) -> Left
        ensures kept { left_kept result ≡ is_any_kept }
        ensures value { left_value result ≡ is_any_value }
    {
        match (is_any_kept, is_any_value) {
            (false, false) => Left::Nothing,
            (true, false) => Left::Kept,
            (false, true) => Left::Values,
            (true, true) => Left::Both,
        }
    }

    /// What is left where an attribute says this beside.
    #[inline(always)]
    pub(super) fn and(self, said: Said) -> Left
        ensures kept { left_kept result ≡ (left_kept self || said_kept said) }
        ensures value { left_value result ≡ (left_value self || said_value said) }
    {
        match (said, self) {
            (Said::Named, left) => left,
            (Said::Kept, Left::Nothing | Left::Kept) => Left::Kept,
            (Said::Value, Left::Nothing | Left::Values) => Left::Values,
            _ => Left::Both,
        }
    }

    /// Whether there is one that is kept as it is.
    pub(super) fn is_any_kept(self) -> bool
        ensures { result ≡ left_kept self }
    {
        match self {
            Left::Kept | Left::Both => true,
            Left::Nothing | Left::Values => false,
        }
    }

    /// Whether there is one that is a value of a list.
    pub(super) fn is_any_value(self) -> bool
        ensures { result ≡ left_value self }
    {
        match self {
            Left::Values | Left::Both => true,
            Left::Nothing | Left::Kept => false,
        }
    }
}

/// What an attribute says.
#[derive(Clone, Copy, Drop)]
pub(super) enum Said {
    /// Something under its name.
    Named,
    /// It is kept as it is.
    Kept,
    /// It is a value of a list.
    Value,
}

/// What an attribute leaves over: it is kept as it is, or a value of a list, or neither.
#[tactic(auto, using(crate::proofs::Items::kept_test, crate::proofs::Items::value_test))]
pub(super) fn left_by<D: Depth>(cx: &Around<'_>, list: &List, frame: &NlaBuffer<'_>) -> Left
    ensures kept { left_kept result
        ≡ are_any (kept_ones (frame_item (D.nest cx.now) cx.now list.now frame.now ∷ [])) }
    ensures value { left_value result
        ≡ is_value (frame_item (D.nest cx.now) cx.now list.now frame.now) }
{
    let (_, manner) = found_in(cx, list, frame.kind());
    Left::of(is_kept_by(manner, frame.value()), is_each_by(manner))
}

/// Adds an attribute that is kept.
#[tactic(auto, using(crate::proofs::Items::kept_said, crate::proofs::Items::named_not_said))]
fn show_kept_frame<D: Depth>(
    cx: &Around<'_>,
    page: &mut Page,
    list: &List,
    frame: &NlaBuffer<'_>,
) -> Result<(), AllocError>
    ensures { OnOk result (page.new ≡ with_members (objects
        (kept_ones (frame_item (D.nest cx.now) cx.now list.now frame.now ∷ []))) page.old) }
{
    let (name, manner) = found_in(cx, list, frame.kind());
    if !is_kept_by(manner, frame.value()) {
        return Ok(());
    }
    show_kept(
        page,
        name,
        kind_shown(manner, frame.kind_with_flags()),
        frame.value(),
    )
}

/// Adds the attributes that are kept as they are.
fn show_kept_frames<D: Depth>(
    cx: &Around<'_>,
    page: &mut Page,
    list: &List,
    bytes: &[u8],
) -> Result<(), AllocError>
    ensures { OnOk result (page.new ≡ with_members (objects
        (kept_ones (items_in (D.nest cx.now) cx.now list.now (items bytes.now)))) page.old) }
{
    for item in NlasIterator::new(bytes) {
        let Ok(frame) = item else {
            break;
        };
        show_kept_frame::<D>(cx, page, list, &frame)?;
    }
    Ok(())
}

/// Adds the list of the attributes that are kept.
#[inline(never)]
fn show_some<D: Depth>(
    cx: &Around<'_>,
    page: &mut Page,
    list: &List,
    bytes: &[u8],
) -> Result<(), AllocError>
    requires { are_any (kept_ones
        (items_in (D.nest cx.now) cx.now list.now (items bytes.now))) ≡ true }
    ensures { OnOk result (page.new ≡ with_members (list_under (codes "other") (map object_of
        (kept_ones (items_in (D.nest cx.now) cx.now list.now (items bytes.now))))) page.old) }
{
    page.begin("other", Nest::List)?;
    show_kept_frames::<D>(cx, page, list, bytes)?;
    page.end()
}

/// Adds the list of the attributes that are kept, if there are any.
#[inline(always)]
pub(super) fn show_others<D: Depth>(
    cx: &Around<'_>,
    page: &mut Page,
    list: &List,
    bytes: &[u8],
    is_any_kept: bool,
) -> Result<(), AllocError>
    requires { is_any_kept
        ≡ are_any (kept_ones (items_in (D.nest cx.now) cx.now list.now (items bytes.now))) }
    ensures { OnOk result (page.new ≡ with_members (list_under (codes "other") (map object_of
        (kept_ones (items_in (D.nest cx.now) cx.now list.now (items bytes.now))))) page.old) }
{
    if !is_any_kept {
        return Ok(());
    }
    show_some::<D>(cx, page, list, bytes)
}

/// Adds the attributes that say nothing under a name of their own: lists that have a value, and those that are kept.
#[inline(never)]
fn show_rest<D: Depth>(
    cx: &Around<'_>,
    page: &mut Page,
    list: &List,
    bytes: &[u8],
    left: Left,
) -> Result<(), AllocError>
    requires kept { left_kept left
        ≡ are_any (kept_ones (items_in (D.nest cx.now) cx.now list.now (items bytes.now))) }
    requires value { left_value left
        ≡ list_any is_value (items_in (D.nest cx.now) cx.now list.now (items bytes.now)) }
    ensures { OnOk result (page.new ≡ with_members (list_under (codes "other") (map object_of
        (kept_ones (items_in (D.nest cx.now) cx.now list.now (items bytes.now)))))
        (with_members (arrays (lists_in cx.now list.now)
        (items_in (D.nest cx.now) cx.now list.now (items bytes.now))) page.old)) }
{
    show_lists::<D>(cx, page, list, bytes, left.is_any_value())?;
    show_others::<D>(cx, page, list, bytes, left.is_any_kept())
}

/// Adds the attributes that say nothing under a name of their own, if there are any: most lists have none.
#[inline(always)]
pub(super) fn show_left<D: Depth>(
    cx: &Around<'_>,
    page: &mut Page,
    list: &List,
    bytes: &[u8],
    left: Left,
) -> Result<(), AllocError>
    requires kept { left_kept left
        ≡ are_any (kept_ones (items_in (D.nest cx.now) cx.now list.now (items bytes.now))) }
    requires value { left_value left
        ≡ list_any is_value (items_in (D.nest cx.now) cx.now list.now (items bytes.now)) }
    ensures { OnOk result (page.new ≡ with_members (list_under (codes "other") (map object_of
        (kept_ones (items_in (D.nest cx.now) cx.now list.now (items bytes.now)))))
        (with_members (arrays (lists_in cx.now list.now)
        (items_in (D.nest cx.now) cx.now list.now (items bytes.now))) page.old)) }
{
    match left {
        Left::Nothing => Ok(()),
        _ => show_rest::<D>(cx, page, list, bytes, left),
    }
}
