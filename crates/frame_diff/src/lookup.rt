//! Attributes that are looked for in a list, by their names and by their numbers.

ghost use Rattle.std.specs.Prelude.{◌≡◌, ◌∷◌, Bool, IfSome, List as Seq, Ok, drop, option_map};
ghost use Rattle.std.specs.List.{list_any};
ghost use Rattle.nla_wire.specs.Frames.{number};
ghost use Rattle.nla_wire.specs.Items.{Item, items};
ghost use Rattle.link_info.specs.Tables.{frames_in};
ghost use Rattle.frame_diff.specs.Beside.{held_of, is_named};
ghost use Rattle.frame_diff.specs.Forests.{Step, comes, find, forest};
ghost use Rattle.frame_diff.specs.Walked.{AreOfFrame, Holding, IsOf, IsOfNumber, IsTail, Showing, held_at, named_at};
ghost use Rattle.frame_diff.specs.Walked.{reading_at};

use crate::named::{find_named, is_named};
use crate::walk::{Attribute, Attributes};
use frame_shown::form::{Around, List, row_in};
use nla_wire::{NlaBuffer, NlasIterator, padded_len};

/// Bytes without so many in front.
fn skip(bytes: &[u8], count: usize) -> &[u8]
    ensures { result.now ≡ drop count bytes.now }
{
    &bytes[count.min(bytes.len())..]
}

/// The attributes behind the first one.
#[tactic(auto, using(crate::proofs::Walked::behind_first))]
pub(crate) fn behind<'a>(bytes: &'a [u8], first: &NlaBuffer<'_>) -> &'a [u8]
    ensures { (rest : Seq Item) → items bytes.now ≡ Ok first.now ∷ rest → items result.now ≡ rest }
{
    skip(bytes, padded_len(first.value().len()))
}

/// Whether one of the attributes is told under this name.
fn is_any_named(cx: &Around<'_>, list: List, name: &str, bytes: &[u8]) -> bool
    ensures { result ≡ list_any (is_named cx.now list name.now) (frames_in (items bytes.now)) }
{
    for item in NlasIterator::new(bytes) {
        let Ok(frame) = item else {
            break;
        };
        if is_named(cx, list, name, &frame) {
            return true;
        }
    }
    false
}

/// Whether a member with this name is among them.
pub(crate) fn comes(list: Attributes<'_>, name: &str) -> bool
    ensures { (nest : Showing) (inner : Holding) (is_state : Bool) → result
        ≡ comes (Step.name name.now) (named_at nest inner is_state list.entry) }
{
    is_any_named(list.around, list.list, name, list.bytes)
}

/// An attribute of a list, by its row.
pub(crate) fn attribute<'a>(list: Attributes<'a>, frame: &NlaBuffer<'a>) -> Attribute<'a>
    ensures row { IsOf list.entry result }
    ensures number { result.number ≡ number frame.now }
    ensures payload { result.payload.now ≡ frame.now.payload }
    ensures held { (nest : Showing) (inner : Holding) (is_state : Bool)
        → held_at nest inner is_state result
        ≡ held_of (reading_at nest inner is_state list.entry.around.now) list.entry.list frame.now }
{
    let number = frame.kind();
    let (_, way) = row_in(list.around, list.list, number);
    Attribute {
        around: list.around,
        list: list.list,
        number,
        way,
        payload: frame.value(),
    }
}

/// The attribute that is the member with this name.
pub(crate) fn find_attribute<'a>(list: Attributes<'a>, name: &str) -> Option<Attribute<'a>>
    ensures found { (nest : Showing) (inner : Holding) (is_state : Bool)
        → find (Step.name name.now) (forest (named_at nest inner is_state list.entry))
        ≡ option_map (held_at nest inner is_state) result }
    ensures row { IfSome result (IsOf list.entry) }
{
    match find_named(list.around, list.list, name, list.bytes) {
        Some(frame) => Some(attribute(list, &frame)),
        None => None,
    }
}

/// The first attribute, if it has this number.
fn first_of(wanted: u16, bytes: &[u8]) -> Option<NlaBuffer<'_>>
    ensures { IfSome result (λ f. (number f ≡ wanted)
        × ((rest : Seq Item) × (items bytes.now ≡ Ok f ∷ rest))) }
{
    match NlasIterator::new(bytes).next() {
        Some(Ok(frame)) if frame.kind() == wanted => Some(frame),
        _ => None,
    }
}

/// An attribute of a list, and the bytes behind it; all of them where there is none.
pub(crate) type Sought<'a> = (Option<NlaBuffer<'a>>, &'a [u8]);

/// The first attribute of this number.
fn find_number<'a>(number: u16, all: &'a [u8]) -> Sought<'a>
    ensures found { IsOfNumber number all.now result.0 }
    ensures tail { IsTail all.now result.1.now }
{
    let mut rest = all;
    for item in NlasIterator::new(all) {
        let Ok(frame) = item else {
            break;
        };
        rest = behind(rest, &frame);
        if frame.kind() == number {
            return (Some(frame), rest);
        }
    }
    (None, all)
}

/// An attribute of this number, which is looked for there, and then from the front.
pub(crate) fn look_up<'a>(number: u16, there: &'a [u8], all: &'a [u8]) -> Sought<'a>
    requires { IsTail all.now there.now }
    ensures found { IsOfNumber number all.now result.0 }
    ensures tail { IsTail all.now result.1.now }
{
    match first_of(number, there) {
        Some(frame) => {
            let next = behind(there, &frame);
            (Some(frame), next)
        }
        None => find_number(number, all),
    }
}

/// The attribute of another list, if there is one.
pub(crate) fn attribute_there<'a>(
    others: Attributes<'a>,
    beside: &Option<NlaBuffer<'a>>,
) -> Option<Attribute<'a>>
    ensures row { IfSome result (IsOf others.entry) }
    ensures frame { AreOfFrame result beside.now }
    ensures held { (nest : Showing) (inner : Holding) (is_state : Bool)
        → option_map (held_at nest inner is_state) result
        ≡ option_map (held_of (reading_at nest inner is_state others.entry.around.now)
        others.entry.list) beside.now }
{
    match beside {
        Some(other) => Some(attribute(others, other)),
        None => None,
    }
}
