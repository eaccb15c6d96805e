//! How values that hold no others are shown.

ghost use Rattle.std.specs.Prelude.{◌≡◌, ◌++◌, OnOk, bit_and, codes};
ghost use Rattle.shown.specs.Drafts.{object_of, with_members, with_value};
ghost use Rattle.shown.specs.Keys.{IsKey};
ghost use Rattle.shown.specs.Values.{flags_of};
ghost use Rattle.frame_shown.specs.Kept.{frame_flags, frame_members, text_unless_empty};
ghost use Rattle.frame_shown.specs.Messages.{link_flag_names};
ghost use Rattle.frame_diff.specs.Differences.{text_of};
ghost use Rattle.frame_diff.specs.Values.{array_shown, entries_shown, listed_shown, others_shown, value_shown};
ghost use Rattle.frame_diff.specs.Vlans.{end_members, flags_shown, id_member, run_shown};

use crate::kept::Kept;
use crate::keyed::Labelled;
use crate::leaf::Value;
use frame_shown::depth::Depth;
use frame_shown::form::{Around, Form, Group, List, Way};
use frame_shown::list::{show_one_array, show_one_list, show_way};
use frame_shown::tables::LINK_FLAGS;
use frame_shown::value::{show_field, show_spelled};
use link_vlans::Run;
use nla_wire::{NLA_F_NESTED, NLA_F_NET_BYTEORDER, NLA_TYPE_MASK};
use shown::{Nest, Page, Room};
use std::alloc::AllocError;

/// The names of the two flags of a frame.
const FRAME_FLAGS: [(u64, &str); 2] = [
    (NLA_F_NESTED as u64, "nested"),
    (NLA_F_NET_BYTEORDER as u64, "net-byteorder"),
];

/// Adds the flags of a frame.
fn show_flags(page: &mut Page, name: &str, kind: u16) -> Result<(), AllocError>
    ensures { OnOk result (page.new
        ≡ with_value name.now (flags_of frame_flags (bit_and kind 0xc000)) page.old) }
{
    let flags = kind & (NLA_F_NESTED | NLA_F_NET_BYTEORDER);
    page.flags(name, flags.into(), &FRAME_FLAGS)
}

/// Adds the flags of a link.
fn show_link_flags(page: &mut Page, name: &str, bits: u64) -> Result<(), AllocError>
    ensures { OnOk result (page.new
        ≡ with_value name.now (flags_of link_flag_names bits) page.old) }
{
    page.flags(name, bits, &LINK_FLAGS)
}

/// The names of flags of VLANs (`BRIDGE_VLAN_INFO_*`, linux/if_bridge.h), without those of the ends of a range.
pub(crate) const VLAN_FLAGS: [(u64, &str); 5] = [
    (1, "master"),
    (2, "pvid"),
    (4, "untagged"),
    (32, "brentry"),
    (64, "only-opts"),
];

/// Adds the flags of a VLAN.
fn show_vlan_flags(page: &mut Page, name: &str, bits: u64) -> Result<(), AllocError>
    ensures { OnOk result (page.new ≡ with_value name.now (flags_shown bits) page.old) }
{
    page.flags(name, bits, &VLAN_FLAGS)
}

/// Adds the id of a tunnel, if it is one.
fn show_id(page: &mut Page, name: &str, id: Option<u64>) -> Result<(), AllocError>
    ensures { OnOk result (page.new ≡ with_members (id_member name.now id) page.old) }
{
    match id {
        Some(id) => page.number(name, id),
        None => Ok(()),
    }
}

/// Adds the last VLAN of a run, where that is another one than the first.
fn show_end(page: &mut Page, run: Run) -> Result<(), AllocError>
    ensures { OnOk result (page.new ≡ with_members (end_members run) page.old) }
{
    if run.first == run.last {
        return Ok(());
    }
    show_id(page, "id-end", run.said.id(run.last))?;
    page.keyed_number("vid-end", run.last.into())
}

/// Adds VLANs of which the same is said as one value.
fn show_run(page: &mut Page, name: &str, run: Run) -> Result<(), AllocError>
    ensures { OnOk result (page.new ≡ with_value name.now (run_shown run) page.old) }
{
    page.begin(name, Nest::Object)?;
    show_id(page, "id", run.said.id(run.first))?;
    show_vlan_flags(page, "flags", run.said.flags.into())?;
    page.keyed_number("vid", run.first.into())?;
    show_end(page, run)?;
    page.end()
}

/// Adds the attributes of a list that have a name as a list of values.
fn show_listed<D: Depth>(
    cx: &Around<'_>,
    page: &mut Page,
    name: &str,
    list: List,
    bytes: &[u8],
) -> Result<(), AllocError>
    ensures { OnOk result (page.new ≡ with_value name.now
        (listed_shown (D.nest cx.now) cx.now list bytes.now) page.old) }
{
    show_one_list::<D>(cx, page, name, &list, bytes)?;
    Ok(())
}

/// Adds the attributes that are the values of the list of a number.
fn show_array<D: Depth>(
    cx: &Around<'_>,
    page: &mut Page,
    name: &str,
    list: List,
    number: u16,
    bytes: &[u8],
) -> Result<(), AllocError>
    ensures { OnOk result (page.new ≡ with_value name.now
        (array_shown (D.nest cx.now) cx.now list number bytes.now) page.old) }
{
    show_one_array::<D>(cx, page, name, &list, number, bytes)
}

/// Adds a name where it is not empty.
fn show_name(page: &mut Page, text: &str) -> Result<(), AllocError>
    ensures { OnOk result
        (page.new ≡ with_members (text_unless_empty (codes "name") text.now) page.old) }
{
    if text.is_empty() {
        return Ok(());
    }
    page.keyed_string("name", text)
}

/// Adds an attribute that is kept as it is.
fn show_kept(
    page: &mut Page,
    name: &str,
    text: &str,
    kind: u16,
    payload: &[u8],
) -> Result<(), AllocError>
    ensures { OnOk result (page.new
        ≡ with_value name.now (object_of (frame_members text.now kind payload.now)) page.old) }
{
    page.begin(name, Nest::Object)?;
    page.keyed_number("number", (kind & NLA_TYPE_MASK).into())?;
    show_name(page, text)?;
    show_flags(page, "flags", kind)?;
    page.hex("payload", payload)?;
    page.end()
}

/// Adds those of attributes that are not passed over.
fn show_others(
    page: &mut Page,
    name: &str,
    others: &[Labelled<Option<Kept<'_>>>],
) -> Result<(), AllocError>
    ensures { OnOk result (page.new ≡ with_value name.now (others_shown others.now) page.old) }
{
    page.begin(name, Nest::List)?;
    for one in others {
        if let Some(kept) = one.value {
            show_kept(page, "", kept.name, kept.kind, kept.payload)?;
        }
    }
    page.end()
}

/// Adds the entries of a list of a group.
fn show_entries<D: Depth>(
    cx: &Around<'_>,
    page: &mut Page,
    name: &str,
    group: Group,
    entries: &[Vec<u8>],
) -> Result<(), AllocError>
    ensures { OnOk result (page.new ≡ with_value name.now
        (entries_shown (D.nest cx.now) group entries.now) page.old) }
{
    page.begin(name, Nest::List)?;
    for entry in entries {
        let way = Way::Own(Form::List(group.entry()));
        show_way::<D>(cx, page, "", way, entry.as_slice())?;
    }
    page.end()
}

/// Adds a value.
pub(crate) fn show_value<D: Depth>(
    cx: &Around<'_>,
    page: &mut Page,
    name: &str,
    value: Value<'_>,
) -> Result<(), AllocError>
    requires key { IsKey name.now }
    ensures { OnOk result
        (page.new ≡ with_value name.now (value_shown (D.nest cx.now) cx.now value.entry) page.old) }
{
    match value {
        Value::Payload(way, payload) => show_way::<D>(cx, page, name, way, payload),
        Value::Number(kind) => page.keyed_number(name, (kind & NLA_TYPE_MASK).into()),
        Value::Name(text) => page.keyed_string(name, text),
        Value::Flags(kind) => show_flags(page, name, kind),
        Value::Unsigned(number) => page.keyed_number(name, number),
        Value::Signed(number) => page.keyed_signed(name, number),
        Value::Spelled(plain, bytes) => show_spelled(page, name, plain, bytes),
        Value::Field(field, bytes, place) => show_field(cx, page, name, field, bytes, place),
        Value::Octets(bytes) => page.hex(name, bytes),
        Value::LinkFlags(bits) => show_link_flags(page, name, bits),
        Value::VlanFlags(bits) => show_vlan_flags(page, name, bits),
        Value::Vlans(run) => show_run(page, name, run),
        Value::Listed(list, bytes) => show_listed::<D>(cx, page, name, list, bytes),
        Value::Array(list, number, bytes) => {
            show_array::<D>(cx, page, name, list, number, bytes)
        }
        Value::Entries(group, entries) => show_entries::<D>(cx, page, name, group, entries),
        Value::Others(others) => show_others(page, name, others),
        Value::Kept(text, kind, payload) => show_kept(page, name, text, kind, payload),
    }
}

/// Adds the text of an object that holds this value alone.
pub(crate) fn push_text<D: Depth>(
    cx: &Around<'_>,
    room: &mut Room,
    value: Value<'_>,
    out: &mut Vec<u8>,
) -> Result<(), AllocError>
    ensures { OnOk result (out.new.items
        ≡ out.old.items ++ text_of (value_shown (D.nest cx.now) cx.now value.entry)) }
{
    let mut page = room.begin()?;
    show_value::<D>(cx, &mut page, "", value)?;
    room.finish(page, out)
}
