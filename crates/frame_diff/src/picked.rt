//! The attributes of a list that are its values, one after the other.

ghost use Rattle.std.specs.Prelude.{◌≡◌, ◌<◌, ◌+◌, ◌^◌, Bool, IfSome, None, Some, false, map, option_map, true};
ghost use Rattle.nla_wire.specs.Items.{items};
ghost use Rattle.link_info.specs.Tables.{frames_in};
ghost use Rattle.frame_shown.specs.Items.{objects};
ghost use Rattle.frame_diff.specs.Differences.{leaf_in};
ghost use Rattle.frame_diff.specs.Groups.{first_by, first_of, group_at, is_entries, is_group, list_held, next_place};
ghost use Rattle.frame_diff.specs.Groups.{picked, picked_by, rest_by, rest_of, value_at, values_by};
ghost use Rattle.frame_diff.specs.Keyed.{picked_numbers};
ghost use Rattle.frame_diff.specs.Keys.{number_in};
ghost use Rattle.frame_diff.specs.Members.{is_some, value_with};
ghost use Rattle.frame_diff.specs.Walked.{AreBeside, Holding, Showing, StandBeside, reading_at};
ghost use Rattle.frame_diff.specs.declared.keys.Key.{Key as Number};
ghost use Rattle.frame_diff.specs.declared.walk.Attribute.{Attribute as One};
ghost use Rattle.frame_diff.specs.declared.walk.Attributes.{Attributes as Lists};

use crate::lists::{is_without, none_of};
use crate::lookup::behind;
use crate::named::{is_each, is_unnamed};
use crate::walk::{Attribute, Attributes};
use frame_shown::form::{Form, List, Way, row_in};
use nla_wire::{NlaBuffer, NlasIterator};

/// An attribute of a list, if it has a name.
fn named<'a>(is_state: bool, list: Attributes<'a>, frame: &NlaBuffer<'a>) -> Option<Attribute<'a>>
    requires { is_entries list.list ≡ false }
    ensures values { (nest : Showing) (inner : Holding) → picked nest inner is_state result
        ≡ values_by (reading_at nest inner is_state list.entry.around.now) list.entry.list frame.now }
    ensures numbers { (nest : Showing) (inner : Holding) (key : Number) → picked_numbers key result
        ≡ map (λ h. number_in list.entry.around.now (Some key) list.entry.list frame.now)
        (values_by (reading_at nest inner is_state list.entry.around.now) list.entry.list frame.now) }
    ensures list { IfSome result (λ a. a.list ≡ list.entry.list) }
    ensures around { IfSome result (λ a. a.around.now ≡ list.entry.around.now) }
{
    let number = frame.kind();
    let (_, way) = row_in(list.around, list.list, number);
    if is_unnamed(way, frame.value()) {
        return None;
    }
    Some(Attribute {
        around: list.around,
        list: list.list,
        number,
        way,
        payload: frame.value(),
    })
}

/// An attribute of a list of objects, if it is one.
fn entry<'a>(is_state: bool, list: Attributes<'a>, frame: &NlaBuffer<'a>) -> Option<Attribute<'a>>
    requires { is_entries list.list ≡ true }
    ensures values { (nest : Showing) (inner : Holding) → picked nest inner is_state result
        ≡ values_by (reading_at nest inner is_state list.entry.around.now) list.entry.list frame.now }
    ensures numbers { (nest : Showing) (inner : Holding) (key : Number) → picked_numbers key result
        ≡ map (λ h. number_in list.entry.around.now (Some key) list.entry.list frame.now)
        (values_by (reading_at nest inner is_state list.entry.around.now) list.entry.list frame.now) }
    ensures list { IfSome result (λ a. a.list ≡ list.entry.list) }
    ensures around { IfSome result (λ a. a.around.now ≡ list.entry.around.now) }
{
    if frame.kind() != 1 {
        return None;
    }
    Some(Attribute {
        around: list.around,
        list: list.list,
        number: 1,
        way: Way::Own(Form::Kept),
        payload: frame.value(),
    })
}

/// An attribute of a list, if it is a value of the list of this number.
#[tactic(auto, using(crate::proofs::ArraysTold::value_held))]
fn value_of<'a>(
    is_state: bool,
    list: Attributes<'a>,
    number: u16,
    frame: &NlaBuffer<'a>,
) -> Option<Attribute<'a>>
    ensures values { (nest : Showing) (inner : Holding) → picked nest inner is_state result
        ≡ value_with (reading_at nest inner is_state list.entry.around.now) list.entry.list number
        frame.now }
    ensures numbers { (nest : Showing) (inner : Holding) (key : Number) → picked_numbers key result
        ≡ map (λ h. number_in list.entry.around.now (Some key) list.entry.list frame.now)
        (value_with (reading_at nest inner is_state list.entry.around.now) list.entry.list number
        frame.now) }
    ensures list { IfSome result (λ a. a.list ≡ list.entry.list) }
    ensures around { IfSome result (λ a. a.around.now ≡ list.entry.around.now) }
{
    if frame.kind() != number {
        return None;
    }
    let (_, way) = row_in(list.around, list.list, number);
    if !is_each(way) {
        return None;
    }
    Some(Attribute {
        around: list.around,
        list: list.list,
        number,
        way,
        payload: frame.value(),
    })
}

/// Whether the values of a list are those of its entries.
pub(crate) fn is_entries(list: List) -> bool
    ensures { is_entries list ≡ result }
{
    match list {
        List::Entries(_) => true,
        _ => false,
    }
}

/// An attribute of a list, if it is one of its entries, or of those that have a name.
fn pick_any<'a>(
    is_state: bool,
    list: Attributes<'a>,
    frame: &NlaBuffer<'a>,
) -> Option<Attribute<'a>>
    ensures values { (nest : Showing) (inner : Holding) → picked nest inner is_state result
        ≡ values_by (reading_at nest inner is_state list.entry.around.now) list.entry.list frame.now }
    ensures numbers { (nest : Showing) (inner : Holding) (key : Number) → picked_numbers key result
        ≡ map (λ h. number_in list.entry.around.now (Some key) list.entry.list frame.now)
        (values_by (reading_at nest inner is_state list.entry.around.now) list.entry.list frame.now) }
    ensures list { IfSome result (λ a. a.list ≡ list.entry.list) }
    ensures around { IfSome result (λ a. a.around.now ≡ list.entry.around.now) }
{
    if is_entries(list.list) {
        entry(is_state, list, frame)
    } else {
        named(is_state, list, frame)
    }
}

/// An attribute of a list, if it is one of its values.
pub(crate) fn pick<'a>(
    is_state: bool,
    list: Attributes<'a>,
    frame: &NlaBuffer<'a>,
) -> Option<Attribute<'a>>
    ensures values { (nest : Showing) (inner : Holding) → picked nest inner is_state result
        ≡ picked_by (reading_at nest inner is_state list.entry.around.now) list.entry.number
        list.entry.list frame.now }
    ensures numbers { (nest : Showing) (inner : Holding) (key : Number) → picked_numbers key result
        ≡ map (λ h. number_in list.entry.around.now (Some key) list.entry.list frame.now)
        (picked_by (reading_at nest inner is_state list.entry.around.now) list.entry.number
        list.entry.list frame.now) }
    ensures list { IfSome result (λ a. a.list ≡ list.entry.list) }
    ensures around { IfSome result (λ a. a.around.now ≡ list.entry.around.now) }
{
    match list.number {
        Some(number) => value_of(is_state, list, number, frame),
        None => pick_any(is_state, list, frame),
    }
}

/// The first value of a list, and the list behind it.
#[derive(Clone, Copy, Drop)]
pub(crate) struct Taken<'a> {
    /// The value, if there is one.
    pub value: Option<Attribute<'a>>,
    /// What is left.
    pub rest: Attributes<'a>,
}

/// Takes the first value.
fn take<'a>(is_state: bool, list: Attributes<'a>) -> Taken<'a>
    ensures value { (nest : Showing) (inner : Holding)
        → option_map (value_at nest inner is_state) result.value
        ≡ first_of (group_at nest inner is_state list.entry) }
    ensures rest { (nest : Showing) (inner : Holding) → group_at nest inner is_state result.rest
        ≡ rest_of (group_at nest inner is_state list.entry) }
    ensures list { IfSome result.value (λ a. a.list ≡ list.entry.list) }
    ensures around { IfSome result.value (λ a. a.around.now ≡ list.entry.around.now) }
    ensures same { (result.rest.list ≡ list.entry.list)
        × (result.rest.around.now ≡ list.entry.around.now) }
{
    let mut rest = list.bytes;
    for item in NlasIterator::new(list.bytes) {
        let Ok(frame) = item else {
            break;
        };
        rest = behind(rest, &frame);
        let value = pick(is_state, list, &frame);
        if value.is_some() {
            let rest = Attributes {
                bytes: rest,
                ..list
            };
            return Taken { value, rest };
        }
    }
    Taken {
        value: None,
        rest: none_of(list),
    }
}

/// Takes the first value, if there is an own one.
pub(crate) fn take_beside<'a>(
    is_state: bool,
    own: Option<Attribute<'_>>,
    others: Attributes<'a>,
) -> Taken<'a>
    ensures value { (nest : Showing) (inner : Holding)
        → option_map (value_at nest inner is_state) result.value
        ≡ first_by own.entry (group_at nest inner is_state others.entry) }
    ensures rest { (nest : Showing) (inner : Holding) → group_at nest inner is_state result.rest
        ≡ rest_by own.entry (group_at nest inner is_state others.entry) }
    ensures list { IfSome result.value (λ a. a.list ≡ others.entry.list) }
    ensures around { IfSome result.value (λ a. a.around.now ≡ others.entry.around.now) }
    ensures same { (result.rest.list ≡ others.entry.list)
        × (result.rest.around.now ≡ others.entry.around.now) }
{
    match own {
        Some(_) => take(is_state, others),
        None => Taken {
            value: None,
            rest: others,
        },
    }
}

/// The list that an entry is.
pub(crate) fn entry_list<'a>(own: Attribute<'a>) -> Attributes<'a>
    requires { is_entries own.list ≡ true }
    ensures held { (nest : Showing) (inner : Holding) (is_state : Bool)
        → list_held nest inner is_state result ≡ value_at nest inner is_state own.entry }
    ensures object { is_group result.list ≡ false }
    ensures around { result.around.now ≡ own.entry.around.now }
{
    let list = match own.list {
        List::Entries(group) => group.entry(),
        list => list,
    };
    Attributes {
        around: own.around,
        list,
        number: None,
        bytes: own.payload,
    }
}

/// The list that another entry is, if there is one.
pub(crate) fn entry_beside<'a>(beside: Option<Attribute<'a>>) -> Option<Attributes<'a>>
    requires { IfSome beside (λ a. is_entries a.list ≡ true) }
    ensures held { (nest : Showing) (inner : Holding) (is_state : Bool)
        → option_map (list_held nest inner is_state) result
        ≡ option_map (value_at nest inner is_state) beside.entry }
    ensures alike { (list : Lists) (a : One) → list.around.now ≡ a.around.now
        → StandBeside a beside.entry → AreBeside list result }
{
    match beside {
        Some(other) => Some(entry_list(other)),
        None => None,
    }
}

/// A list, where it holds no member.
pub(crate) fn bare_beside<'a>(beside: Option<Attributes<'a>>) -> Option<Attributes<'a>>
    ensures value { (nest : Showing) (inner : Holding) (is_state : Bool)
        → option_map (λ a. (list_held nest inner is_state a).0) result
        ≡ leaf_in (option_map (list_held nest inner is_state) beside.entry) }
    ensures none { IfSome result (λ a. is_some (frames_in (items a.bytes.now)) ≡ false) }
{
    match beside {
        Some(other) => { if is_without(other) { Some(other) } else { None } }
        None => None,
    }
}

/// The place of the next one.
pub(crate) fn next_place(own: Option<Attribute<'_>>, place: usize) -> usize
    requires { place + 1 < 2 ^ 64 }
    ensures { result ≡ next_place own.entry place }
{
    match own {
        Some(_) => place + 1,
        None => place,
    }
}
