//! Several attributes of a list, found at once.

ghost use Rattle.std.specs.Prelude.{◌≡◌, map};
ghost use Rattle.link_c.specs.Picks.{IsPicked, cleared, kept};

use crate::list::{Attribute, next_attribute};
use crate::refusal::Refusal;
use nla_wire::NLA_TYPE_MASK;

/// Its number, with no payload.
fn cleared(place: &Attribute) -> Attribute
    ensures { result ≡ cleared place.now }
{
    Attribute {
        payload: 0,
        payload_len: 0,
        ..*place
    }
}

/// This attribute in the place of one with its number.
fn kept(attribute: &Attribute, place: &Attribute) -> Attribute
    ensures { result ≡ kept attribute.now place.now }
{
    if place.kind & NLA_TYPE_MASK == attribute.kind & NLA_TYPE_MASK {
        *attribute
    } else {
        *place
    }
}

/// Nothing was found yet.

fn clear(found: &mut [Attribute])
    ensures { found.new ≡ map cleared found.old }
{
    for place in found.iter_mut() {
        *place = cleared(place);
    }
}

/// Keeps an attribute wherever its number is looked for.

fn keep(found: &mut [Attribute], attribute: &Attribute)
    ensures { found.new ≡ map (kept attribute.now) found.old }
{
    for place in found.iter_mut() {
        *place = kept(attribute, place);
    }
}

/// Finds the last attribute of each of several numbers in a list: each of `found` says its number as its kind, of which
/// the flags do not count, and gets the attribute; without one the payload and its length are 0.
///
/// Refuses a fault, after which those are found that stand in front of it.
pub fn pick_attributes(list: &[u8], found: &mut [Attribute]) -> Result<(), Refusal>
    ensures { IsPicked list.now found.old found.new result }
{
    clear(found);
    let mut at = 0;
    let mut attribute = Attribute {
        kind: 0,
        payload: 0,
        payload_len: 0,
    };
    while at < list.len() {
        next_attribute(list, &mut at, &mut attribute)?;
        keep(found, &attribute);
    }
    Ok(())
}
