//! What the VLANs of a port tell: those beside each other that changed alike as one change.

ghost use Rattle.std.specs.Prelude.{◌≡◌, [], Bool, IfOk, IfSome, None, OnOk, Some, option_map, true};
ghost use Rattle.std.specs.List.{flat_map};
ghost use Rattle.link_vlans.specs.Pieces.{pieces_of};
ghost use Rattle.nla_wire.specs.Items.{items};
ghost use Rattle.link_info.specs.Tables.{frames_in};
ghost use Rattle.link_vlans.specs.Runs.{are_apart, runs_in};
ghost use Rattle.shown.specs.Drafts.{with_members};
ghost use Rattle.frame_shown.specs.Items.{objects};
ghost use Rattle.frame_diff.specs.Groups.{group_inside, runs_at};
ghost use Rattle.frame_diff.specs.Members.{unless_empty};
ghost use Rattle.frame_diff.specs.Items.{id_items, piece_items, runs_items, vlan_items};
ghost use Rattle.frame_diff.specs.Forests.{runs_inside};
ghost use Rattle.frame_diff.specs.Walked.{Holding, Showing};

use crate::leaf::{Texts, Value, put_alone, tell_step};
use crate::path::join_vlans;
use crate::side::Side;
use crate::walk::Attributes;
use frame_shown::depth::Bottom;
use frame_shown::form::List;
use link_info::Place;
use link_vlans::{Piece, Run, Said, pieces_of, runs_in};
use shown::Page;
use std::alloc::{AllocError, Global};

/// The runs of the VLANs that the attributes of a number say, if there are any, as a kernel writes them.
fn some_runs(alloc: Global, number: u16, bytes: &[u8]) -> Result<Option<Vec<Run>>, AllocError>
    ensures runs { IfOk result (λ runs. option_map (λ r. r.items) runs
        ≡ unless_empty (runs_in number (frames_in (items bytes.now)))) }
    ensures apart { IfOk result (λ runs. IfSome runs (λ r. are_apart None r.items ≡ true)) }
{
    let Some(runs) = runs_in(alloc, number, bytes)? else {
        return Ok(None);
    };
    if runs.is_empty() {
        return Ok(None);
    }
    Ok(Some(runs))
}

/// The runs of the VLANs of a list, if it is one of a port, as a kernel writes it.
pub(crate) fn runs_of(alloc: Global, list: Attributes<'_>) -> Result<Option<Vec<Run>>, AllocError>
    ensures runs { IfOk result (λ runs. option_map (λ r. r.items) runs ≡ runs_at list.entry) }
    ensures apart { IfOk result (λ runs. IfSome runs (λ r. are_apart None r.items ≡ true)) }
{
    match (list.number, list.list) {
        (Some(number), List::Of(Place::BridgeSpec)) => some_runs(alloc, number, list.bytes),
        _ => Ok(None),
    }
}

/// The runs of another list; none, where it is no such list.
pub(crate) fn runs_beside(alloc: Global, others: Attributes<'_>) -> Result<Vec<Run>, AllocError>
    ensures runs { IfOk result (λ runs. (nest : Showing) (inner : Holding) (is_state : Bool)
        → runs.items ≡ runs_inside (group_inside nest inner is_state others.entry)) }
    ensures apart { IfOk result (λ runs. are_apart None runs.items ≡ true) }
{
    match runs_of(alloc, others)? {
        Some(runs) => Ok(runs),
        None => Ok(Vec::new(alloc)),
    }
}

/// Tells of the id of a tunnel, if it is one.
fn tell_id(
    texts: &mut Texts,
    list: Attributes<'_>,
    page: &mut Page,
    path: &str,
    side: Side,
    id: Option<u64>,
    other: Option<u64>,
) -> Result<(), AllocError>
    ensures { OnOk result (page.new
        ≡ with_members (objects (id_items side path.now id other)) page.old) }
{
    let Some(id) = id else {
        return Ok(());
    };
    let there = match other {
        Some(other) => Some(Value::Unsigned(other)),
        None => None,
    };
    tell_step::<Bottom>(
        texts,
        list.around,
        list.around,
        page,
        path,
        "id",
        side,
        Value::Unsigned(id),
        there,
    )
}

/// Tells of VLANs that both lists have.
fn tell_both(
    texts: &mut Texts,
    list: Attributes<'_>,
    page: &mut Page,
    path: &str,
    side: Side,
    own: Run,
    beside: Said,
) -> Result<(), AllocError>
    ensures { OnOk result (page.new
        ≡ with_members (objects (vlan_items side path.now own.first own.said beside)) page.old) }
{
    let vid = own.first;
    tell_id(
        texts,
        list,
        page,
        path,
        side,
        own.said.id(vid),
        beside.id(vid),
    )?;
    let flags = Value::VlanFlags(own.said.flags.into());
    let theirs = Some(Value::VlanFlags(beside.flags.into()));
    tell_step::<Bottom>(
        texts,
        list.around,
        list.around,
        page,
        path,
        "flags",
        side,
        flags,
        theirs,
    )
}

/// Tells of VLANs of which the other list does not say the same.
fn tell_piece(
    texts: &mut Texts,
    list: Attributes<'_>,
    page: &mut Page,
    path: &str,
    side: Side,
    piece: Piece,
) -> Result<(), AllocError>
    ensures { OnOk result (page.new
        ≡ with_members (objects (piece_items side path.now piece)) page.old) }
{
    let text = join_vlans(texts.alloc, path, piece.own)?;
    match piece.beside {
        Some(beside) => tell_both(texts, list, page, text.as_str(), side, piece.own, beside),
        None => {
            let value = Value::Vlans(piece.own);
            put_alone::<Bottom>(list.around, page, text.as_str(), side, value)
        },
    }
}

/// Tells of the VLANs of a list beside those of another one.
pub(crate) fn tell_vlans(
    texts: &mut Texts,
    list: Attributes<'_>,
    page: &mut Page,
    path: &str,
    side: Side,
    own: &[Run],
    others: &[Run],
) -> Result<(), AllocError>
    requires own { are_apart None own.now ≡ true }
    requires others { are_apart None others.now ≡ true }
    ensures { OnOk result (page.new ≡ with_members (objects
        (runs_items side path.now own.now others.now)) page.old) }
{
    if side.is_moved() {
        return Ok(());
    }
    let pieces = pieces_of(texts.alloc, own, others)?;
    for piece in pieces.as_slice() {
        tell_piece(texts, list, page, path, side, *piece)?;
    }
    Ok(())
}
