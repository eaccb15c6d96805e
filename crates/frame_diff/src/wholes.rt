//! Entries that are told as a whole: of a state nothing that moves by itself.

ghost use Rattle.std.specs.Prelude.{◌≡◌, ◌∷◌, [], ℕ, IfOk, OnOk, map, not, option_map, unwrap_or};
ghost use Rattle.std.specs.Global.{Vec as VecOf};
ghost use Rattle.std.specs.List.{filter, list_any};
ghost use Rattle.link_info.specs.Tables.{frames_in};
ghost use Rattle.nla_wire.specs.Canon.{canons};
ghost use Rattle.nla_wire.specs.Items.{items};
ghost use Rattle.shown.specs.Drafts.{with_members};
ghost use Rattle.frame_shown.specs.Frames.{list_shown};
ghost use Rattle.frame_shown.specs.Items.{objects};
ghost use Rattle.frame_shown.specs.Tables.{entry_list};
ghost use Rattle.frame_diff.specs.Counters.{action_at, level_in};
ghost use Rattle.frame_diff.specs.Items.{alone_item};
ghost use Rattle.frame_diff.specs.Settled.{is_still, settled, settled_in, stands_still};

use crate::leaf::{Texts, Value, put_alone};
use crate::side::Side;
use crate::walk::{Attribute, Pass, Walk};
use frame_shown::accepted::push_frame;
use frame_shown::depth::Above;
use frame_shown::form::{Around, Form, Group, List, Way};
use link_vf::numbers::{IFLA_VF_BROADCAST, IFLA_VF_STATS};
use nla_wire::NlasIterator;
use shown::Page;
use std::alloc::{AllocError, Global};

/// Whether a state clears nothing of the attributes of a number in such entries.
fn stands_still(group: Group, number: u16) -> bool
    ensures { result ≡ is_still (action_at (level_in (entry_list group)) number) }
{
    match group {
        Group::Info => number != IFLA_VF_STATS && number != IFLA_VF_BROADCAST,
        Group::AltIfname | Group::Port => true,
    }
}

/// Whether a state clears something of an entry.
fn moves(group: Group, entry: &[u8]) -> bool
    ensures { result
        ≡ list_any (λ f. not (stands_still (entry_list group) f)) (frames_in (items entry.now)) }
{
    for item in NlasIterator::new(entry) {
        let Ok(frame) = item else {
            break;
        };
        if !stands_still(group, frame.kind()) {
            return true;
        }
    }
    false
}

/// The attributes of an entry of which a state clears nothing, spelled one after the other.
fn still_ones(alloc: Global, group: Group, entry: &[u8]) -> Result<Vec<u8>, AllocError>
    ensures { IfOk result (λ out. out.items
        ≡ canons (λ f. f)
        (filter (stands_still (entry_list group)) (frames_in (items entry.now)))) }
{
    let mut out = Vec::new(alloc);
    for item in NlasIterator::new(entry) {
        let Ok(frame) = item else {
            break;
        };
        if stands_still(group, frame.kind()) {
            push_frame(&mut out, &frame)?;
        }
    }
    Ok(out)
}

/// What is shown of an entry that is told as a whole, if it is not the entry itself.
fn settled(
    alloc: Global,
    is_state: bool,
    group: Group,
    entry: &[u8],
) -> Result<Option<Vec<u8>>, AllocError>
    ensures { IfOk result (λ left. settled is_state (entry_list group) entry.now
        ≡ unwrap_or (option_map (λ out. out.items) left) entry.now) }
{
    if !is_state || !moves(group, entry) {
        return Ok(None);
    }
    let out = still_ones(alloc, group, entry)?;
    Ok(Some(out))
}

/// What is shown of an entry that is told as a whole.
fn settled_entry(
    alloc: Global,
    is_state: bool,
    group: Group,
    entry: &[u8],
) -> Result<Vec<u8>, AllocError>
    ensures { IfOk result (λ left. left.items ≡ settled is_state (entry_list group) entry.now) }
{
    if let Some(left) = settled(alloc, is_state, group, entry)? {
        return Ok(left);
    }
    let mut whole = Vec::new(alloc);
    whole.extend_from_slice(entry)?;
    Ok(whole)
}

/// The entries of a list, each as it is shown where it is told as a whole.
pub(crate) fn settled_entries(
    alloc: Global,
    is_state: bool,
    group: Group,
    bytes: &[u8],
) -> Result<Vec<Vec<u8>>, AllocError>
    ensures { IfOk result (λ out. map (λ (p : VecOf ℕ). p.items) out.items
        ≡ settled_in is_state group (frames_in (items bytes.now))) }
{
    let mut entries = Vec::new(alloc);
    for item in NlasIterator::new(bytes) {
        let Ok(frame) = item else {
            break;
        };
        if frame.kind() == 1 {
            let entry = settled_entry(alloc, is_state, group, frame.value())?;
            entries.push(entry)?;
        }
    }
    Ok(entries)
}

/// Adds the change of a list that is shown as an object, and that one side alone has.
fn put_object<W: Walk>(
    cx: &Around<'_>,
    page: &mut Page,
    path: &str,
    side: Side,
    list: List,
    bytes: &[u8],
) -> Result<(), AllocError>
    ensures { OnOk result (page.new ≡ with_members (objects (alone_item path.now side
        (list_shown (W.nest cx.now) cx.now list bytes.now) ∷ [])) page.old) }
{
    let value = Value::Payload(Way::Own(Form::List(list)), bytes);
    put_alone::<Above<W>>(cx, page, path, side, value)
}

/// Adds the change of an entry that one side alone has, without what moves by itself in a state.
pub(crate) fn put_entry<W: Walk>(
    texts: &mut Texts,
    pass: Pass,
    page: &mut Page,
    path: &str,
    group: Group,
    own: Attribute<'_>,
) -> Result<(), AllocError>
    ensures { OnOk result (page.new ≡ with_members (objects (alone_item path.now pass.side
        (list_shown (W.nest own.entry.around.now) own.entry.around.now (entry_list group)
        (settled pass.is_state (entry_list group) own.entry.payload.now)) ∷ [])) page.old) }
{
    let left = settled(texts.alloc, pass.is_state, group, own.payload)?;
    let bytes = match &left {
        Some(left) => left.as_slice(),
        None => own.payload,
    };
    put_object::<W>(own.around, page, path, pass.side, group.entry(), bytes)
}
