//! Fields of records.

ghost use Rattle.std.specs.Prelude.{◌≡◌, OnOk, map};
ghost use Rattle.shown.specs.Drafts.{with_members, with_value, object_of};
ghost use Rattle.shown.specs.Keys.{AreKeys, IsKey};
ghost use Rattle.frame_shown.specs.Values.{address_shown, field_shown, fields_in, fields_shown, protocol_name};
ghost use Rattle.frame_shown.specs.Values.{setting_of};

use crate::form::{Around, Field, Record};
use crate::tables::{
    MAP, Part, VF_GUID, VF_LINK_STATE, VF_LINK_STATES, VF_MAC, VF_RATE, VF_SETTING, VF_TX_RATE,
    VF_VLAN, VF_VLAN_INFO,
};
use crate::value::number_at;
use nla_wire::fields::{be16_at, bytes_32_at, u32_at};
use shown::{Nest, Page};
use std::alloc::AllocError;

/// A setting of a function: 0, or 1 where it is on.
#[inline(always)]
fn setting_of(number: u32) -> u64
    ensures { result ≡ setting_of number }
{
    if number == 0 || number == 0xffff_ffff {
        0
    } else {
        1
    }
}

/// The name of the protocol of a vlan: any other number than that of 802.1ad is 802.1Q.
fn protocol_name(number: u16) -> &'static str
    ensures { result.now ≡ protocol_name number }
{
    match number {
        0x88a8 => "8021ad",
        _ => "8021q",
    }
}

/// Adds an address of a function: as many of its 32 bytes as the link's own address has, or all of them.
fn show_address(
    cx: &Around<'_>,
    page: &mut Page,
    name: &str,
    bytes: &[u8; 32],
) -> Result<(), AllocError>
    ensures { OnOk result
        (page.new ≡ with_value name.now (address_shown cx.now bytes.now) page.old) }
{
    let len = cx.address_len;
    if 0 < len && len <= bytes.len() {
        page.address(name, &bytes[..len])
    } else {
        page.hex(name, bytes)
    }
}

/// Adds a field of a record.
pub fn show_field(
    cx: &Around<'_>,
    page: &mut Page,
    name: &str,
    field: Field,
    bytes: &[u8],
    place: u8,
) -> Result<(), AllocError>
    requires key { IsKey name.now }
    ensures { OnOk result
        (page.new ≡ with_value name.now (field_shown cx.now field bytes.now place) page.old) }
{
    let place = usize::from(place);
    match field {
        Field::Number(size) => page.keyed_number(name, number_at(size, bytes, place)),
        Field::Setting => page.keyed_number(name, setting_of(u32_at(bytes, place))),
        Field::LinkState => page.choice(name, u32_at(bytes, place).into(), &VF_LINK_STATES),
        Field::Protocol => page.keyed_string(name, protocol_name(be16_at(bytes, place))),
        Field::Address => show_address(cx, page, name, &bytes_32_at(bytes, place)),
    }
}

/// Adds a field of a record: most are numbers.
#[inline(always)]
fn show_part(cx: &Around<'_>, page: &mut Page, part: &Part, bytes: &[u8]) -> Result<(), AllocError>
    requires key { IsKey part.now.0.now }
    ensures { OnOk result (page.new ≡ with_value part.now.0.now
        (field_shown cx.now part.now.2 bytes.now part.now.1) page.old) }
{
    match part.2 {
        Field::Number(size) => {
            page.keyed_number(part.0, number_at(size, bytes, usize::from(part.1)))
        }
        field => show_field(cx, page, part.0, field, bytes, part.1),
    }
}

/// Adds the fields of a record.
fn show_fields(
    cx: &Around<'_>,
    page: &mut Page,
    parts: &[Part],
    bytes: &[u8],
) -> Result<(), AllocError>
    requires keys { AreKeys (map (λ part. part.0.now) parts.now) }
    ensures { OnOk result (page.new ≡ with_members (fields_shown cx.now
        (map (λ part. (part.0.now, (part.1, part.2))) parts.now) bytes.now) page.old) }
{
    for part in parts {
        show_part(cx, page, part, bytes)?;
    }
    Ok(())
}

/// The fields of a record.
pub fn parts_of(kind: Record) -> &'static [Part]
    ensures fields { map (λ part. (part.0.now, (part.1, part.2))) result.now ≡ fields_in kind }
    ensures keys { AreKeys (map (λ part. part.0.now) result.now) }
{
    match kind {
        Record::Map => &MAP,
        Record::VfMac => &VF_MAC,
        Record::VfVlan => &VF_VLAN,
        Record::VfTxRate => &VF_TX_RATE,
        Record::VfSetting => &VF_SETTING,
        Record::VfLinkState => &VF_LINK_STATE,
        Record::VfRate => &VF_RATE,
        Record::VfGuid => &VF_GUID,
        Record::VfVlanInfo => &VF_VLAN_INFO,
    }
}

/// Adds a record.
pub(super) fn show_parts_of(
    cx: &Around<'_>,
    page: &mut Page,
    name: &str,
    kind: Record,
    bytes: &[u8],
) -> Result<(), AllocError>
    requires key { IsKey name.now }
    ensures { OnOk result (page.new ≡ with_value name.now (object_of
        (fields_shown cx.now (fields_in kind) bytes.now)) page.old) }
{
    page.keyed_begin(name, Nest::Object)?;
    show_fields(cx, page, parts_of(kind), bytes)?;
    page.end()
}
