//! Lists of attributes: read one at a time, and written.

ghost use Rattle.std.specs.Prelude.{◌≡◌, ◌↔◌, ◌+◌, ◌^◌, ◌<◌, ◌≤◌, length, min, IsTrue};
ghost use Rattle.nla_wire.specs.Frames.{missing};
ghost use Rattle.link_c.specs.Lists.{IsNext, IsPut};

use crate::refusal::Refusal;
use nla_wire::{MOST_VALUE_LEN, NLA_HEADER_SIZE, NlaBuffer, nla_align, padded_len, write_value};

/// An attribute of a list: `struct linkwire_attribute` of linkwire.h.
#[repr(C)]
#[derive(Clone, Copy, Debug, PartialEq, Eq)]
pub struct Attribute {
    /// The number, in the low 14 bits, and both flag bits.
    pub kind: u16,
    /// Where the payload starts, counted from the start of the list.
    pub payload: usize,
    /// The bytes of the payload.
    pub payload_len: usize,
}

/// Whether two attributes are equal: their kinds, and where their payloads stand.
pub fn same_attribute(one: &Attribute, other: &Attribute) -> bool
    ensures { IsTrue result ↔ (one.now ≡ other.now) }
{
    one == other
}

/// The next multiple of four after a frame with a payload of this length, counted from the place where it starts; or
/// the end of the list, where that is less.
fn after(size: usize, at: usize, payload_len: usize) -> usize
    requires { at + 4 + payload_len ≤ size }
    ensures { result ≡ min (at + 4 + payload_len + missing payload_len) size }
{
    let padding = nla_align(payload_len) - payload_len;
    let end = at + NLA_HEADER_SIZE + payload_len;
    if padding < size - end {
        end + padding
    } else {
        size
    }
}

/// The attribute of a frame that starts at this place, for C.
fn told(frame: &NlaBuffer<'_>, at: usize) -> Attribute
    requires { at + 4 < 2 ^ 64 }
    ensures { result ≡ record {
      kind = frame.now.kind;
      payload = at + 4;
      payload_len = length frame.now.payload;
    } }
{
    Attribute {
        kind: frame.kind_with_flags(),
        payload: at + NLA_HEADER_SIZE,
        payload_len: frame.value().len(),
    }
}

/// The attribute at this place of a list, and the place moves on to the next; false at the end of the list.
///
/// Refuses a fault. After it, and at the end, nothing changes.
pub fn next_attribute(
    list: &[u8],
    at: &mut usize,
    attribute: &mut Attribute,
) -> Result<bool, Refusal>
    ensures { IsNext list.now at.old at.new attribute.old attribute.new result }
{
    if *at >= list.len() {
        return Ok(false);
    }
    let frame = NlaBuffer::new_checked(&list[*at..])?;
    *attribute = told(&frame, *at);
    *at = after(list.len(), *at, frame.value().len());
    Ok(true)
}

/// Writes an attribute at this place of a list, and the place moves on past it.
///
/// Refuses `Unfit` where the payload has more than 65531 bytes, and else `NoRoom` where the attribute and its padding
/// have no room. Then nothing changes.
pub fn put_attribute(
    list: &mut [u8],
    at: &mut usize,
    kind: u16,
    payload: &[u8],
) -> Result<(), Refusal>
    ensures { IsPut kind payload.now list.old list.new at.old at.new result }
{
    if payload.len() > MOST_VALUE_LEN {
        return Err(Refusal::Unfit);
    }
    if *at > list.len() || list.len() - *at < padded_len(payload.len()) {
        return Err(Refusal::NoRoom);
    }
    *at += write_value(kind, payload, &mut list[*at..]);
    Ok(())
}
