//! What tells the values of a list apart.

ghost use Rattle.std.specs.Prelude.{◌≡◌, ◌==◌};
ghost use Rattle.std.specs.List.{list_any};
ghost use Rattle.nla_wire.specs.Frames.{number};
ghost use Rattle.nla_wire.specs.Items.{items};
ghost use Rattle.link_info.specs.Meanings.{read_as};
ghost use Rattle.link_info.specs.Tables.{frames_in};
ghost use Rattle.frame_shown.specs.Tables.{row_in};
ghost use Rattle.frame_diff.specs.Keys.{entry_number, field_number, function_in, is_function, is_key, is_record};
ghost use Rattle.frame_diff.specs.Keys.{key_at, key_name, meaning_number, member_number, named_number, number_of};
ghost use Rattle.frame_diff.specs.Keys.{plain_number, way_number};

use crate::lookup::behind;
use crate::named::find_last;
use crate::walk::{Attribute, Attributes};
use frame_shown::form::{Form, Group, List, Table, Way, row_in};
use link_info::read::read;
use link_info::{Member, Place, Plain, Style, Value as Meant};
use nla_wire::NlasIterator;
use nla_wire::fields::u32_at;

/// What tells the values of a list apart: a number that each of them says.
#[derive(Clone, Copy, Drop)]
pub enum Key {
    /// That of a spanning tree.
    Msti,
    /// The priority that is mapped to another one.
    From,
    /// That of a function.
    Vf,
    /// That of an attribute that is kept as it is.
    Number,
}

impl Key {
    /// The name of the number.
    pub(crate) fn name(self) -> &'static str
        ensures { result.now ≡ key_name self }
    {
        match self {
            Key::Msti => "msti",
            Key::From => "from",
            Key::Vf => "vf",
            Key::Number => "number",
        }
    }
}

/// Whether two lists have the same key.
pub(crate) fn is_key(key: Key, other: Option<Key>) -> bool
    ensures { result ≡ is_key key other }
{
    match (key, other) {
        (Key::Msti, Some(Key::Msti)) => true,
        (Key::From, Some(Key::From)) => true,
        (Key::Vf, Some(Key::Vf)) => true,
        (Key::Number, Some(Key::Number)) => true,
        _ => false,
    }
}

/// What tells the values of a list apart; none where they have their places.
pub(crate) fn key_in(list: Attributes<'_>) -> Option<Key>
    ensures { result ≡ key_at list.entry.number list.entry.list }
{
    match (list.number, list.list) {
        (Some(_), List::Of(Place::BridgeMst)) => Some(Key::Msti),
        (Some(_), List::Of(Place::VlanQos)) => Some(Key::From),
        (None, List::Entries(Group::Info)) => Some(Key::Vf),
        (None, List::Entries(Group::Port)) => Some(Key::Vf),
        _ => None,
    }
}

/// A number that is spelled so; none where it is shown as another value.
fn plain_number(plain: Plain, bytes: &[u8]) -> Option<u64>
    ensures { result ≡ plain_number plain bytes.now }
{
    match (plain, read(Style::Plain(plain), bytes)) {
        (Plain::Unsigned(_), Meant::Unsigned(number)) => Some(number),
        _ => None,
    }
}

/// The number of this name in a record.
fn member_number(members: &[Member], name: &str, bytes: &[u8]) -> Option<u64>
    ensures { result ≡ member_number members.now name.now bytes.now }
{
    let mut rest = bytes;
    for Member(own, plain) in members {
        let (value, behind) = rest.split_at(plain.size().min(rest.len()));
        if *own == name {
            return plain_number(*plain, value);
        }
        rest = behind;
    }
    None
}

/// A number by its row; none where it is shown as another value.
fn way_number(way: Way, bytes: &[u8]) -> Option<u64>
    ensures { result ≡ way_number way bytes.now }
{
    match way {
        Way::By(Style::Plain(plain)) => plain_number(plain, bytes),
        _ => None,
    }
}

/// The number of this name among attributes: that of the last one.
fn named_number(list: Attributes<'_>, name: &str) -> Option<u64>
    ensures { result ≡ named_number list.entry.around.now list.entry.list name.now list.entry.bytes.now }
{
    let frame = find_last(list.around, list.list, name, list.bytes)?;
    let (_, way) = row_in(list.around, list.list, frame.kind());
    way_number(way, frame.value())
}

/// The number of this name in a value that is spelled so.
fn style_number(own: Attribute<'_>, style: Style, name: &str) -> Option<u64>
    ensures { result ≡ meaning_number own.entry.around.now name.now (read_as style own.entry.payload.now) }
{
    match read(style, own.payload) {
        Meant::Record(members, bytes) => member_number(members, name, bytes),
        Meant::Nest(place, bytes) => {
            let list = Attributes {
                around: own.around,
                list: List::Of(place),
                number: None,
                bytes,
            };
            named_number(list, name)
        }
        _ => None,
    }
}

/// The number of this name in a value of an attribute.
fn field_number(own: Attribute<'_>, name: &str) -> Option<u64>
    ensures { result ≡ field_number own.entry.around.now name.now own.entry.way own.entry.payload.now }
{
    match own.way {
        Way::By(style) => style_number(own, style, name),
        Way::Own(_) => None,
    }
}

/// Whether an attribute of this number is among these.
fn comes_again(kind: u16, bytes: &[u8]) -> bool
    ensures { result ≡ list_any (λ f. number f == kind) (frames_in (items bytes.now)) }
{
    for item in NlasIterator::new(bytes) {
        let Ok(frame) = item else {
            break;
        };
        if frame.kind() == kind {
            return true;
        }
    }
    false
}

/// Whether an attribute of a function is a record, which says the number of the function first.
fn is_record(list: Attributes<'_>, number: u16) -> bool
    ensures { result ≡ is_record (row_in list.entry.around.now list.entry.list number).1 }
{
    match row_in(list.around, list.list, number) {
        (_, Way::Own(Form::Record(_))) => true,
        _ => false,
    }
}

/// The number of a function: that of the first record in it behind which none of its number stands.
fn function_number(entry: Attributes<'_>) -> Option<u64>
    ensures { result ≡ function_in entry.entry.around.now entry.entry.list
        (frames_in (items entry.entry.bytes.now)) }
{
    let mut rest = entry.bytes;
    for item in NlasIterator::new(entry.bytes) {
        let Ok(frame) = item else {
            break;
        };
        rest = behind(rest, &frame);
        if is_record(entry, frame.kind()) && !comes_again(frame.kind(), rest) {
            return Some(u32_at(frame.value(), 0).into());
        }
    }
    None
}

/// Whether a list is of what a function says.
fn is_function(list: List) -> bool
    ensures { result ≡ is_function list }
{
    match list {
        List::Own(Table::Function) => true,
        _ => false,
    }
}

/// The number of this name of an entry.
fn entry_number(entry: Attributes<'_>, name: &str) -> Option<u64>
    ensures { result ≡ entry_number entry.entry.around.now name.now entry.entry.list entry.entry.bytes.now }
{
    if is_function(entry.list) {
        return function_number(entry);
    }
    named_number(entry, name)
}

/// The number that tells a value apart, if it says one.
pub(crate) fn number_of(key: Key, own: Attribute<'_>) -> Option<u64>
    ensures { result ≡ number_of key own.entry }
{
    match own.list {
        List::Entries(group) => {
            let entry = Attributes {
                around: own.around,
                list: group.entry(),
                number: None,
                bytes: own.payload,
            };
            entry_number(entry, key.name())
        }
        _ => field_number(own, key.name()),
    }
}
