//! What a payload holds: fields, a list of attributes, values, or nothing.

ghost use Rattle.std.specs.Prelude.{◌≡◌, ◌++◌, [], ◌∷◌, IfOk, length, map};
ghost use Rattle.link_info.specs.Meanings.{read_as};
ghost use Rattle.link_info.specs.Styles.{plain_size, record_size};
ghost use Rattle.frame_shown.specs.Values.{behind_settings, counter_names, counter_width, counters_shown, event_in};
ghost use Rattle.frame_shown.specs.Values.{fields_in, fields_shown, hexadecimal, ipv6_named, record_shown};
ghost use Rattle.frame_shown.specs.Values.{setting_names, settings_shown};
ghost use Rattle.frame_shown.specs.declared.form.Around.{Around as Beside};
ghost use Rattle.frame_diff.specs.Counters.{action_in};
ghost use Rattle.frame_diff.specs.Members.{Inner, fields, fields_kept, form_inside, held_inside, ipv6_inside};
ghost use Rattle.frame_diff.specs.Members.{is_some, meaning_inside, way_inside};
ghost use Rattle.frame_diff.specs.Rows.{clearing, inside_by, row_shown};

use crate::counters::{Cleared, cleared_part, is_passed};
use crate::fields::{counter_rows, event_rows, ipv6_rows, member_rows, record_rows, settings_rows};
use crate::rows::Row;
use crate::walk::Attribute;
use frame_shown::form::{Around, Form, List, Order, Record, Settings, Way, Words};
use frame_shown::value::info_of;
use link_info::read::read;
use link_info::{Member, Plain, Style, Value as Meant};
use std::alloc::{AllocError, Global};

/// Payloads of attributes as values. What an attribute holds keeps them in a box: they are rare, and large.
#[derive(Clone, Copy, Drop)]
pub struct Slots<'a> {
    /// How each is spelled.
    pub plain: Plain,
    /// The bytes of the attributes.
    pub bytes: &'a [u8],
}

/// What a payload holds, beside its bytes.
#[derive(Drop)]
pub enum Holds<'a> {
    /// Nothing: its value is a leaf.
    Nothing,
    /// What moves by itself, all of which is passed over.
    Passed,
    /// Fields, and whether there were any before those that a state clears were left out.
    Fields(Vec<Row<'a>>, bool),
    /// A list of attributes.
    List(List, &'a [u8]),
    /// Values that are the payloads of attributes: a leaf too.
    Slots(Box<Slots<'a>>),
}

/// Fields of which none is passed over.
fn whole<'a>(rows: Vec<Row<'a>>) -> Holds<'a>
    ensures { (inner : Inner) (cx : Beside) → fields (map (row_shown cx) rows.entry.items)
        ≡ inside_by inner cx result }
{
    Holds::Fields(rows, false)
}

/// What counters hold.
fn counters_held<'a>(alloc: Global, words: Words, payload: &[u8]) -> Result<Holds<'a>, AllocError>
    ensures { IfOk result (λ held. (inner : Inner) (cx : Beside)
        → fields (counters_shown (counter_names words) (counter_width words) payload.now 0)
        ≡ inside_by inner cx held) }
{
    let rows = counter_rows(alloc, words, payload)?;
    Ok(whole(rows))
}

/// What the counters of IPv6 hold in an order that is known.
fn ordered_held<'a>(alloc: Global, is_since: bool, payload: &[u8]) -> Result<Holds<'a>, AllocError>
    ensures { IfOk result (λ held. (inner : Inner) (cx : Beside)
        → fields (ipv6_named is_since payload.now) ≡ inside_by inner cx held) }
{
    let rows = ipv6_rows(alloc, is_since, payload)?;
    Ok(whole(rows))
}

/// What the counters of IPv6 hold: where their order is not known they are a list of values.
fn ipv6_held<'a>(alloc: Global, order: Order, payload: &[u8]) -> Result<Holds<'a>, AllocError>
    ensures { IfOk result (λ held. (inner : Inner) (cx : Beside)
        → ipv6_inside order payload.now ≡ inside_by inner cx held) }
{
    match order {
        Order::Unknown => Ok(Holds::Nothing),
        Order::Before => ordered_held(alloc, false, payload),
        Order::Since => ordered_held(alloc, true, payload),
    }
}

/// What settings hold.
fn settings_held<'a>(
    alloc: Global,
    set: Settings,
    part: Option<Cleared>,
    payload: &[u8],
) -> Result<Holds<'a>, AllocError>
    ensures { IfOk result (λ held. (inner : Inner) (cx : Beside)
        → fields_kept (clearing part) (map (λ name. 4) (setting_names set))
        (settings_shown (setting_names set) payload.now 0 ++ behind_settings set payload.now)
        ≡ inside_by inner cx held) }
{
    let rows = settings_rows(alloc, set, part, payload)?;
    Ok(Holds::Fields(rows, true))
}

/// What a record holds.
fn record_held<'a>(alloc: Global, kind: Record, payload: &'a [u8]) -> Result<Holds<'a>, AllocError>
    ensures { IfOk result (λ held. (inner : Inner) (cx : Beside)
        → fields (fields_shown cx (fields_in kind) payload.now) ≡ inside_by inner cx held) }
{
    let rows = record_rows(alloc, kind, payload)?;
    Ok(whole(rows))
}

/// What a wireless event holds.
fn event_held<'a>(alloc: Global, payload: &'a [u8]) -> Result<Holds<'a>, AllocError>
    ensures { IfOk result (λ held. (inner : Inner) (cx : Beside)
        → fields (((event_in payload.now).0, hexadecimal (event_in payload.now).1) ∷ [])
        ≡ inside_by inner cx held) }
{
    let rows = event_rows(alloc, payload)?;
    Ok(whole(rows))
}

/// Whether a record has members.
fn is_any(members: &[Member]) -> bool
    ensures { result ≡ is_some members.now }
{
    !members.is_empty()
}

/// What a record of link data holds.
fn members_held<'a>(
    alloc: Global,
    members: &[Member],
    part: Option<Cleared>,
    bytes: &'a [u8],
) -> Result<Holds<'a>, AllocError>
    requires { record_size members.now ≡ length bytes.now }
    ensures { IfOk result (λ held. (inner : Inner) (cx : Beside)
        → fields_kept (clearing part) (map (λ m. plain_size m.1) members.now)
        (record_shown members.now bytes.now) ≡ inside_by inner cx held) }
{
    let rows = member_rows(alloc, members, part, bytes)?;
    Ok(Holds::Fields(rows, is_any(members)))
}

/// What a payload holds by the form of its row.
fn form_holds<'a>(
    alloc: Global,
    cx: &Around<'_>,
    part: Option<Cleared>,
    form: Form,
    payload: &'a [u8],
) -> Result<Holds<'a>, AllocError>
    ensures { IfOk result (λ held. (inner : Inner)
        → form_inside inner cx.now (clearing part) form payload.now ≡ inside_by inner cx.now held) }
{
    match form {
        Form::Counters(words) => counters_held(alloc, words, payload),
        Form::Ipv6Counters => ipv6_held(alloc, cx.order, payload),
        Form::Settings(set) => settings_held(alloc, set, part, payload),
        Form::Record(kind) => record_held(alloc, kind, payload),
        Form::Wireless => event_held(alloc, payload),
        Form::List(list) => Ok(Holds::List(list, payload)),
        Form::Info => Ok(Holds::List(info_of(payload), payload)),
        _ => Ok(Holds::Nothing),
    }
}

/// What a payload holds by its style. Values of one size and lists of values are leaves.
fn style_holds<'a>(
    alloc: Global,
    part: Option<Cleared>,
    style: Style,
    payload: &'a [u8],
) -> Result<Holds<'a>, AllocError>
    ensures { IfOk result (λ held. (inner : Inner) (cx : Beside)
        → meaning_inside inner (clearing part) (read_as style payload.now)
        ≡ inside_by inner cx held) }
{
    match read(style, payload) {
        Meant::Record(members, bytes) => members_held(alloc, members, part, bytes),
        Meant::Nest(place, bytes) => Ok(Holds::List(List::Of(place), bytes)),
        Meant::List(plain, bytes) => Ok(Holds::Slots(Box::new(alloc, Slots { plain, bytes })?)),
        _ => Ok(Holds::Nothing),
    }
}

/// What a payload holds, without the part of it that is passed over.
fn way_holds<'a>(
    alloc: Global,
    cx: &Around<'_>,
    part: Option<Cleared>,
    way: Way,
    payload: &'a [u8],
) -> Result<Holds<'a>, AllocError>
    ensures { IfOk result (λ held. (inner : Inner)
        → way_inside inner cx.now (clearing part) way payload.now ≡ inside_by inner cx.now held) }
{
    match way {
        Way::Own(form) => form_holds(alloc, cx, part, form, payload),
        Way::By(style) => style_holds(alloc, part, style, payload),
    }
}

/// What an attribute holds.
pub(crate) fn held_in<'a>(
    alloc: Global,
    is_state: bool,
    own: Attribute<'a>,
) -> Result<Holds<'a>, AllocError>
    ensures { IfOk result (λ held. (inner : Inner) → held_inside inner own.entry.around.now
        (action_in is_state own.entry.list own.entry.number) own.entry.way own.entry.payload.now
        ≡ inside_by inner own.entry.around.now held) }
{
    if is_passed(is_state, own.list, own.number) {
        return Ok(Holds::Passed);
    }
    let part = cleared_part(is_state, own.list, own.number);
    way_holds(alloc, own.around, part, own.way, own.payload)
}
