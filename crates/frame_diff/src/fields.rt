//! The fields of records.

ghost use Rattle.std.specs.Prelude.{◌≡◌, ◌≤◌, ◌++◌, [], ◌∷◌, IfOk, OnOk, cond, length, map};
ghost use Rattle.link_info.specs.Styles.{plain_size, record_size, width};
ghost use Rattle.frame_shown.specs.Values.{behind_settings, counter_names, counter_width, counters_shown, event_in};
ghost use Rattle.frame_shown.specs.Values.{fields_in, fields_shown, hexadecimal, ipv6_named, placed_shown};
ghost use Rattle.frame_shown.specs.Values.{record_shown, setting_names, settings_shown, signed_unless_zero};
ghost use Rattle.frame_shown.specs.Values.{unless_zero_named};
ghost use Rattle.frame_shown.specs.declared.form.Around.{Around as Beside};
ghost use Rattle.frame_diff.specs.Counters.{clears_at, fields_left};
ghost use Rattle.frame_diff.specs.Rows.{clearing, row_shown};

use crate::counters::Cleared;
use crate::leaf::Value;
use crate::rows::Row;
use frame_shown::form::{Record, Settings, Words};
use frame_shown::tables::{
    CACHE_INFO, ICMP6_STATS, INET_CONF, INET6_CONF, INET6_STATS, Part, STATS,
};
use frame_shown::value::{counter_place, event_in, number_at, parts_of};
use link_info::{Member, Size};
use nla_wire::fields::{i32_at, u64_at};
use std::alloc::{AllocError, Global};

/// Whether the part that is passed over has this place.
fn is_in(part: Option<Cleared>, place: usize) -> bool
    ensures { result ≡ clears_at (clearing part) place }
{
    match part {
        Some(part) => part.from <= place && place < part.to,
        None => false,
    }
}

/// Adds a field, unless it stands in the part that is passed over.
fn push_left<'a>(
    rows: &mut Vec<Row<'a>>,
    part: Option<Cleared>,
    place: usize,
    row: Row<'a>,
) -> Result<(), AllocError>
    ensures { OnOk result ((cx : Beside) → map (row_shown cx) rows.new.items
        ≡ map (row_shown cx) rows.old.items
        ++ cond (clears_at (clearing part) place) [] (row_shown cx row.entry ∷ [])) }
{
    if is_in(part, place) {
        return Ok(());
    }
    rows.push(row)?;
    Ok(())
}

/// Numbers of one size.
fn number_rows<'a>(
    alloc: Global,
    names: &[&'static str],
    size: Size,
    bytes: &[u8],
) -> Result<Vec<Row<'a>>, AllocError>
    requires few { length names.now ≤ 256 }
    ensures { IfOk result (λ rows. (cx : Beside) → map (row_shown cx) rows.items
        ≡ counters_shown (map (λ name. name.now) names.now) (width size) bytes.now 0) }
{
    let mut rows = Vec::with_capacity(alloc, names.len())?;
    let mut place = 0;
    for name in names {
        let value = Value::Unsigned(number_at(size, bytes, place));
        rows.push(Row { name: *name, value })?;
        place += size.bytes();
    }
    Ok(rows)
}

/// Counters.
pub(crate) fn counter_rows<'a>(
    alloc: Global,
    words: Words,
    bytes: &[u8],
) -> Result<Vec<Row<'a>>, AllocError>
    ensures { IfOk result (λ rows. (cx : Beside) → map (row_shown cx) rows.items
        ≡ counters_shown (counter_names words) (counter_width words) bytes.now 0) }
{
    match words {
        Words::Stats => number_rows(alloc, &STATS[..24], Size::Four, bytes),
        Words::Stats64 => number_rows(alloc, &STATS, Size::Eight, bytes),
        Words::Icmp6 => number_rows(alloc, &ICMP6_STATS, Size::Eight, bytes),
    }
}

/// Counters by the place that each has in this order.
fn placed_rows<'a>(
    alloc: Global,
    names: &[(&'static str, u8, u8)],
    is_since: bool,
    bytes: &[u8],
) -> Result<Vec<Row<'a>>, AllocError>
    ensures { IfOk result (λ rows. (cx : Beside) → map (row_shown cx) rows.items
        ≡ placed_shown is_since (map (λ row. (row.0.now, (row.1, row.2))) names.now) bytes.now) }
{
    let mut rows = Vec::with_capacity(alloc, names.len())?;
    for row in names {
        let place = 8 * counter_place(is_since, row.1, row.2);
        let value = Value::Unsigned(u64_at(bytes, place));
        rows.push(Row { name: row.0, value })?;
    }
    Ok(rows)
}

/// Adds a number where it is not zero.
fn push_unless_zero<'a>(
    rows: &mut Vec<Row<'a>>,
    name: &'static str,
    number: u64,
) -> Result<(), AllocError>
    ensures { OnOk result ((cx : Beside) → map (row_shown cx) rows.new.items
        ≡ map (row_shown cx) rows.old.items ++ unless_zero_named name.now number) }
{
    if number == 0 {
        return Ok(());
    }
    rows.push(Row {
        name,
        value: Value::Unsigned(number),
    })?;
    Ok(())
}

/// The counters of IPv6, and behind them one that no kernel sends.
pub(crate) fn ipv6_rows<'a>(
    alloc: Global,
    is_since: bool,
    bytes: &[u8],
) -> Result<Vec<Row<'a>>, AllocError>
    ensures { IfOk result (λ rows. (cx : Beside) → map (row_shown cx) rows.items
        ≡ ipv6_named is_since bytes.now) }
{
    let mut rows = placed_rows(alloc, &INET6_STATS, is_since, bytes)?;
    push_unless_zero(&mut rows, "reserved-39", u64_at(bytes, 304))?;
    Ok(rows)
}

/// Settings that are not passed over.
fn setting_rows<'a>(
    alloc: Global,
    names: &[&'static str],
    part: Option<Cleared>,
    bytes: &[u8],
) -> Result<Vec<Row<'a>>, AllocError>
    requires few { length names.now ≤ 256 }
    ensures { IfOk result (λ rows. (cx : Beside) → map (row_shown cx) rows.items
        ≡ fields_left (clearing part) 0 (map (λ name. 4) (map (λ name. name.now) names.now))
        (settings_shown (map (λ name. name.now) names.now) bytes.now 0)) }
{
    let mut rows = Vec::with_capacity(alloc, names.len())?;
    let mut place = 0;
    for name in names {
        let value = Value::Signed(i32_at(bytes, place).into());
        push_left(&mut rows, part, place, Row { name: *name, value })?;
        place += 4;
    }
    Ok(rows)
}

/// Settings by their table.
fn named_rows<'a>(
    alloc: Global,
    set: Settings,
    part: Option<Cleared>,
    bytes: &[u8],
) -> Result<Vec<Row<'a>>, AllocError>
    ensures { IfOk result (λ rows. (cx : Beside) → map (row_shown cx) rows.items
        ≡ fields_left (clearing part) 0 (map (λ name. 4) (setting_names set))
        (settings_shown (setting_names set) bytes.now 0)) }
{
    match set {
        Settings::Inet => setting_rows(alloc, &INET_CONF, part, bytes),
        Settings::Inet6 => setting_rows(alloc, &INET6_CONF, part, bytes),
        Settings::Cache => setting_rows(alloc, &CACHE_INFO, part, bytes),
    }
}

/// Adds a setting where it is not zero.
fn push_reserved<'a>(
    rows: &mut Vec<Row<'a>>,
    name: &'static str,
    number: i32,
) -> Result<(), AllocError>
    ensures { OnOk result ((cx : Beside) → map (row_shown cx) rows.new.items
        ≡ map (row_shown cx) rows.old.items ++ signed_unless_zero name.now number) }
{
    if number == 0 {
        return Ok(());
    }
    rows.push(Row {
        name,
        value: Value::Signed(number.into()),
    })?;
    Ok(())
}

/// Adds what stands behind settings.
fn push_behind<'a>(rows: &mut Vec<Row<'a>>, set: Settings, bytes: &[u8]) -> Result<(), AllocError>
    ensures { OnOk result ((cx : Beside) → map (row_shown cx) rows.new.items
        ≡ map (row_shown cx) rows.old.items ++ behind_settings set bytes.now) }
{
    match set {
        Settings::Inet => push_reserved(rows, "reserved-34", i32_at(bytes, 132)),
        _ => Ok(()),
    }
}

/// Settings that are not passed over, and behind those of IPv4 one that no kernel sends.
#[tactic(auto, using(crate::proofs::Records::settings_behind))]
pub(crate) fn settings_rows<'a>(
    alloc: Global,
    set: Settings,
    part: Option<Cleared>,
    bytes: &[u8],
) -> Result<Vec<Row<'a>>, AllocError>
    ensures { IfOk result (λ rows. (cx : Beside) → map (row_shown cx) rows.items
        ≡ fields_left (clearing part) 0 (map (λ name. 4) (setting_names set))
        (settings_shown (setting_names set) bytes.now 0 ++ behind_settings set bytes.now)) }
{
    let mut rows = named_rows(alloc, set, part, bytes)?;
    push_behind(&mut rows, set, bytes)?;
    Ok(rows)
}

/// The fields of a table.
fn part_rows<'a>(alloc: Global, parts: &[Part], bytes: &'a [u8]) -> Result<Vec<Row<'a>>, AllocError>
    ensures { IfOk result (λ rows. (cx : Beside) → map (row_shown cx) rows.items
        ≡ fields_shown cx (map (λ part. (part.0.now, (part.1, part.2))) parts.now) bytes.now) }
{
    let mut rows = Vec::with_capacity(alloc, parts.len())?;
    for part in parts {
        let value = Value::Field(part.2, bytes, part.1);
        rows.push(Row {
            name: part.0,
            value,
        })?;
    }
    Ok(rows)
}

/// The fields of a record.
pub(crate) fn record_rows<'a>(
    alloc: Global,
    kind: Record,
    bytes: &'a [u8],
) -> Result<Vec<Row<'a>>, AllocError>
    ensures { IfOk result (λ rows. (cx : Beside) → map (row_shown cx) rows.items
        ≡ fields_shown cx (fields_in kind) bytes.now) }
{
    part_rows(alloc, parts_of(kind), bytes)
}

/// What a wireless event holds.
pub(crate) fn event_rows<'a>(alloc: Global, payload: &'a [u8]) -> Result<Vec<Row<'a>>, AllocError>
    ensures { IfOk result (λ rows. (cx : Beside) → map (row_shown cx) rows.items
        ≡ ((event_in payload.now).0, hexadecimal (event_in payload.now).1) ∷ []) }
{
    let (name, bytes) = event_in(payload);
    let mut rows = Vec::new(alloc);
    rows.push(Row {
        name,
        value: Value::Octets(bytes),
    })?;
    Ok(rows)
}

/// The members of a record of link data that are not passed over.
pub(crate) fn member_rows<'a>(
    alloc: Global,
    members: &[Member],
    part: Option<Cleared>,
    bytes: &'a [u8],
) -> Result<Vec<Row<'a>>, AllocError>
    requires { record_size members.now ≡ length bytes.now }
    ensures { IfOk result (λ rows. (cx : Beside) → map (row_shown cx) rows.items
        ≡ fields_left (clearing part) 0 (map (λ m. plain_size m.1) members.now)
        (record_shown members.now bytes.now)) }
{
    let mut rows = Vec::with_capacity(alloc, members.len())?;
    let mut rest = bytes;
    let mut place = 0;
    for Member(name, plain) in members {
        let size = plain.size();
        let (value, behind) = rest.split_at(size.min(rest.len()));
        let value = Value::Spelled(*plain, value);
        push_left(&mut rows, part, place, Row { name: *name, value })?;
        rest = behind;
        place += size;
    }
    Ok(rows)
}
