//! Rows: which name and form the number of an attribute has in its list.

ghost use Rattle.std.specs.Prelude.{◌≡◌, ◌<◌, ℕ, List as Seq, MatchOption, false, get_or, map, true};
ghost use Rattle.link_info.specs.declared.style.Style.TheVariants as Styles;
ghost use Rattle.shown.specs.Keys.{IsKey};
ghost use Rattle.frame_shown.specs.declared.form.Way.TheVariants as Ways;
ghost use Rattle.frame_shown.specs.Tables.{af_spec_form, data_rows, info_row, is_kept, AreInOrder, AreOf, are_from};
ghost use Rattle.frame_shown.specs.Tables.{is_own, manner_way, message_row, nest_row, no_row, place_row};
ghost use Rattle.frame_shown.specs.Tables.{proto_info_form, proto_inet6_row, refused_row, row_by, row_in};
ghost use Rattle.frame_shown.specs.Tables.{row_of_list, rows_in, xstats_row};

use crate::apart::is_kept_by;
use crate::form::{Around, Form, Found, Known, List, Manner, Table};
use crate::tables::{
    DEVLINK_PORT, DOWN_REASON, DPLL_PIN, FAMILIES, FUNCTION, FUNCTION_STATS, FUNCTION_VLANS, INET,
    INET6, KERNEL_NAMES, MCTP, MESSAGE, PROPS, Row, XDP,
};
use link_info::field::row_of;
use link_info::{Place, Row as PlaceRow};

/// The form of what has no row, or none in this family.
const KEPT: Form = Form::Kept;

/// The form of the settings by family, in families that have none.
const UNFLAGGED: Form = Form::Unflagged;

/// The form of the name of a kind of link.
const TEXT: Form = Form::Text;

/// The form of the settings by family, of all families.
const FAMILY_LIST: Form = Form::List(List::Own(Table::Families));

/// The form of the settings of a bridge.
const BRIDGE_SPEC: Form = Form::List(List::Of(Place::BridgeSpec));

/// The form of what a bridge says of a port.
const BRIDGE_PORT: Form = Form::List(List::Of(Place::BridgePort));

/// The form of what IPv6 says of a link.
const INET6_LIST: Form = Form::List(List::ProtoInet6);

/// How many numbers can have a row.
pub(crate) const NUMBERS: usize = 256;

/// Where there is no row.
#[inline(always)]
fn no_row() -> Found
    ensures { (result.0.now, manner_way result.1) ≡ no_row }
{
    ("", Manner::Own(&KEPT))
}

/// The row at a place; behind the last one there is none.
#[inline(always)]
fn row_at(rows: &'static [(&'static str, Form)], number: u16) -> Found
    ensures { (result.0.now, manner_way result.1)
        ≡ row_of_list (map (λ row. (row.0.now, row.1)) rows.now) number }
{
    if (number as usize) < rows.len() {
        let row = &rows[number as usize];
        (row.0, Manner::Own(&row.1))
    } else {
        no_row()
    }
}

/// The first row of a number.
fn row_by(rows: &'static [Row], number: u16) -> Found
    ensures { (result.0.now, manner_way result.1)
        ≡ row_by (map (λ row. (row.0, (row.1.now, row.2))) rows.now) number }
{
    for row in rows {
        if row.0 == number {
            return (row.1, Manner::Own(&row.2));
        }
    }
    no_row()
}

/// The row of a number in a table that has all numbers from the first on.
#[inline(always)]
fn row_from(rows: &'static [Row], first: u16, number: u16) -> Found
    requires { are_from first (map (λ row. (row.0, (row.1.now, row.2))) rows.now) ≡ true }
    ensures { (result.0.now, manner_way result.1)
        ≡ row_by (map (λ row. (row.0, (row.1.now, row.2))) rows.now) number }
{
    if number < first {
        return no_row();
    }
    let place = (number - first) as usize;
    if place < rows.len() {
        let row = &rows[place];
        return (row.1, Manner::Own(&row.2));
    }
    no_row()
}

/// The rows of a table, and the number of the first one, where they have all numbers from it on.
#[derive(Clone, Copy, Drop)]
pub(crate) struct Rows {
    first: Option<u16>,
    rows: &'static [Row],
}

/// The rows of a table.
#[inline(always)]
fn rows_of(table: Table) -> Rows
    ensures rows { map (λ row. (row.0, (row.1.now, row.2))) result.rows.now ≡ rows_in table }
    ensures from { AreInOrder result }
{
    let (first, rows): (Option<u16>, &'static [Row]) = match table {
        Table::Families => (None, &FAMILIES),
        Table::Inet => (Some(1), &INET),
        Table::Inet6 => (Some(1), &INET6),
        Table::Mctp => (Some(1), &MCTP),
        Table::Xdp => (Some(1), &XDP),
        Table::Props => (Some(53), &PROPS),
        Table::DevlinkPort => (None, &DEVLINK_PORT),
        Table::DpllPin => (Some(1), &DPLL_PIN),
        Table::DownReason => (Some(1), &DOWN_REASON),
        Table::Function => (Some(1), &FUNCTION),
        Table::FunctionStats => (Some(0), &FUNCTION_STATS),
        Table::FunctionVlans => (Some(1), &FUNCTION_VLANS),
    };
    Rows { first, rows }
}

/// The row of a number among these.
#[inline(always)]
fn row_among(rows: Rows, number: u16) -> Found
    requires { AreInOrder rows }
    ensures { (result.0.now, manner_way result.1)
        ≡ row_by (map (λ row. (row.0, (row.1.now, row.2))) rows.rows.now) number }
{
    match rows.first {
        Some(first) => row_from(rows.rows, first, number),
        None => row_by(rows.rows, number),
    }
}

/// The row of a number in a table.
fn table_row(table: Table, number: u16) -> Found
    ensures { (result.0.now, manner_way result.1) ≡ row_by (rows_in table) number }
{
    row_among(rows_of(table), number)
}

/// How the settings by family are shown.
fn af_spec_form(family: u8) -> &'static Form
    ensures { result.now ≡ af_spec_form family }
{
    match family {
        0 => &FAMILY_LIST,
        7 => &BRIDGE_SPEC,
        _ => &UNFLAGGED,
    }
}

/// How what a protocol says is shown.
fn proto_info_form(family: u8) -> &'static Form
    ensures { result.now ≡ proto_info_form family }
{
    match family {
        7 => &BRIDGE_PORT,
        10 => &INET6_LIST,
        _ => &KEPT,
    }
}

/// The row of an attribute of a link.
#[inline(always)]
fn message_row(family: u8, number: u16) -> Found
    ensures { (result.0.now, manner_way result.1) ≡ message_row family number }
{
    match number {
        26 => ("af-spec", Manner::Own(af_spec_form(family))),
        12 => ("protinfo", Manner::Own(proto_info_form(family))),
        _ => row_at(&MESSAGE, number),
    }
}

/// The row of link data.
#[inline(always)]
fn place_row(cx: &Around<'_>, place: Place, number: u16) -> Found
    ensures { (result.0.now, manner_way result.1) ≡ place_row cx.now place number }
{
    match row_of(place.rows_in(cx.tables), number) {
        Some(row) => (row.1, Manner::By(&row.2)),
        None => no_row(),
    }
}

/// The row of what IPv6 says of a link.
fn proto_inet6_row(cx: &Around<'_>, number: u16) -> Found
    ensures { (result.0.now, manner_way result.1) ≡ proto_inet6_row cx.now number }
{
    match number {
        2 => table_row(Table::Inet6, number),
        3 => table_row(Table::Inet6, number),
        6 => table_row(Table::Inet6, number),
        _ => place_row(cx, Place::Inet6, number),
    }
}

/// The row of a list, where its place is known.
fn nest_row(name: &'static str, place: Option<Place>) -> Found
    ensures { (result.0.now, manner_way result.1) ≡ nest_row name.now place }
{
    match place {
        Some(place) => (name, Manner::Nest(place)),
        None => (name, Manner::Own(&KEPT)),
    }
}

/// The row of the counters that a place has beside its data.
fn xstats_row(cx: &Around<'_>, link: Option<Place>) -> Found
    ensures { (result.0.now, manner_way result.1) ≡ xstats_row cx.now link }
{
    match link {
        Some(Place::Can) => ("xstats", Manner::Counters(cx.can_stats)),
        _ => ("xstats", Manner::Own(&KEPT)),
    }
}

/// The row of a link's kinds.
fn info_row(cx: &Around<'_>, link: Option<Place>, port: Option<Place>, number: u16) -> Found
    ensures { (result.0.now, manner_way result.1) ≡ info_row cx.now link port number }
{
    match number {
        1 => ("kind", Manner::Own(&TEXT)),
        2 => nest_row("data", link),
        3 => xstats_row(cx, link),
        4 => ("slave-kind", Manner::Own(&TEXT)),
        5 => nest_row("slave-data", port),
        _ => no_row(),
    }
}

/// The row of bytes under the name at a place; behind the last one there is none.
fn bytes_at(names: &'static [&'static str], number: u16) -> Found
    ensures { (result.0.now, manner_way result.1)
        ≡ get_or (map (λ name. (name.now, Ways.By Styles.Bytes)) names.now) number no_row }
{
    if (number as usize) < names.len() {
        (names[number as usize], Manner::Bytes)
    } else {
        no_row()
    }
}

/// The row of an attribute of a link that is refused.
fn refused_row(number: u16) -> Found
    ensures { (result.0.now, manner_way result.1) ≡ refused_row number }
{
    bytes_at(&KERNEL_NAMES, number)
}

/// The rows of link data among those of a list.
pub fn data_rows(cx: &Around<'_>, list: &List) -> &'static [PlaceRow]
    ensures { result.now ≡ data_rows cx.now list.now }
{
    match *list {
        List::Of(place) => place.rows_in(cx.tables),
        List::ProtoInet6 => Place::Inet6.rows_in(cx.tables),
        _ => &[],
    }
}

/// The row of a number in a list, where it stands.
#[inline(always)]
#[tactic(auto, using(crate::proofs::RowKeys::row_key))]
pub(crate) fn found_in(cx: &Around<'_>, list: &List, number: u16) -> Found
    ensures row { (result.0.now, manner_way result.1) ≡ row_in cx.now list.now number }
    ensures key { is_own (manner_way result.1) ≡ true → IsKey result.0.now }
    ensures small { (p : Seq ℕ) → is_kept (manner_way result.1) p ≡ false → number < 256 }
{
    if number as usize >= NUMBERS {
        return no_row();
    }
    match *list {
        List::Own(table) | List::Listed(_, table) => table_row(table, number),
        List::Entries(_) => no_row(),
        List::Message(family) => message_row(family, number),
        List::Of(place) => place_row(cx, place, number),
        List::ProtoInet6 => proto_inet6_row(cx, number),
        List::Info(link, port) => info_row(cx, link, port, number),
        List::Refused => refused_row(number),
    }
}

/// The rows of a list that goes by a table of this crate.
#[inline(always)]
pub(crate) fn own_rows(list: &List) -> Option<Rows>
    ensures { AreOf result list.now }
{
    match *list {
        List::Own(table) | List::Listed(_, table) => Some(rows_of(table)),
        _ => None,
    }
}

/// The row of a number in a list of which these are the rows, if it goes by a table of this crate.
#[inline(always)]
#[tactic(auto, using(crate::proofs::RowKeys::row_among))]
pub(crate) fn found_by(cx: &Around<'_>, list: &List, rows: Option<Rows>, number: u16) -> Found
    requires { AreOf rows list.now }
    ensures row { (result.0.now, manner_way result.1) ≡ row_in cx.now list.now number }
    ensures key { is_own (manner_way result.1) ≡ true → IsKey result.0.now }
{
    let Some(rows) = rows else {
        return found_in(cx, list, number);
    };
    if number as usize >= NUMBERS {
        return no_row();
    }
    row_among(rows, number)
}

/// The name that an attribute is shown under, unless it is kept as it is.
#[inline(always)]
pub fn name_in(cx: &Around<'_>, list: List, number: u16, payload: &[u8]) -> Option<&'static str>
    ensures { MatchOption result (is_kept (row_in cx.now list number).1 payload.now ≡ true)
        (λ name. (is_kept (row_in cx.now list number).1 payload.now ≡ false)
        × (name.now ≡ (row_in cx.now list number).0)) }
{
    let (name, manner) = found_in(cx, &list, number);
    if is_kept_by(manner, payload) {
        return None;
    }
    Some(name)
}

/// The row of a number in a list.
#[inline(always)]
pub fn row_in(cx: &Around<'_>, list: List, number: u16) -> Known
    ensures row { (result.0.now, result.1) ≡ row_in cx.now list number }
    ensures key { is_own result.1 ≡ true → IsKey result.0.now }
    ensures small { (p : Seq ℕ) → is_kept result.1 p ≡ false → number < 256 }
{
    let (name, manner) = found_in(cx, &list, number);
    (name, manner.way())
}
