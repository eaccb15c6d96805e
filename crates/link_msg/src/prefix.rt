//! The copied prefix: the attributes in front of a list that are canonical as they are spelled, and are copied.

ghost use Rattle.std.specs.Prelude.{◌≡◌, ◌≤◌, ◌↔◌, length, replicate, IsTrue};
ghost use Rattle.nla_wire.specs.Frames.{number};
ghost use Rattle.link_msg.specs.Prefixes.{IsOwnText, IsPadded, IsCopiedPrefix};

use crate::attribute::LinkAttribute;
use crate::place::is_empty_ports;
use crate::shape::Shape;
use link_vals::AddressFamily;
use nla_wire::{NlaBuffer, NlasIterator, nla_align, padded_len};

/// Whether at most three bytes are all zero.
#[inline(always)]
fn is_clear(padding: &[u8]) -> bool
    requires { length padding.now ≤ 3 }
    ensures { IsTrue result ↔ (padding.now ≡ replicate (length padding.now) 0) }
{
    match padding.len() {
        1 => padding[0] == 0,
        2 => padding[0] == 0 && padding[1] == 0,
        3 => padding[0] == 0 && padding[1] == 0 && padding[2] == 0,
        _ => true,
    }
}

/// Whether all of the padding stands after a frame of this length at the front, and is zeros.
#[inline(always)]
fn is_padded(bytes: &[u8], front_len: u16) -> bool
    ensures { IsTrue result ↔ IsPadded bytes.now front_len }
{
    let end = front_len as usize;
    let padded = nla_align(end);
    padded <= bytes.len() && is_clear(&bytes[end..padded])
}

impl LinkAttribute {
    /// Whether a frame is canonical as it is spelled, but for its padding, and not an empty list of ports. One with
    /// flags is not looked at.
    #[inline(always)]
    fn is_own_encoding(buffer: &NlaBuffer<'_>, family: AddressFamily) -> bool
        ensures { IsTrue result → IsOwnText family buffer.now }
    {
        let payload = buffer.value();
        if !has_no_flags(buffer) {
            return false;
        }
        if is_empty_ports(buffer, payload.len()) {
            return false;
        }
        let Some(shape) = Shape::of(buffer.kind(), payload.len(), family) else {
            return true;
        };
        if !shape.is_copied() {
            return false;
        }
        match shape.measure(payload) {
            Some(len) => len == payload.len(),
            None => false,
        }
    }
}

/// Whether the kind of a frame is its number alone.
#[inline(always)]
fn has_no_flags(buffer: &NlaBuffer<'_>) -> bool
    ensures { IsTrue result ↔ (buffer.now.kind ≡ number buffer.now) }
{
    buffer.kind_with_flags() == buffer.kind()
}

/// How many bytes in front are attributes that are canonical as they are spelled, under the header's family.
pub(crate) fn copied_prefix(bytes: &[u8], family: AddressFamily) -> usize
    ensures { IsCopiedPrefix family bytes.now result }
{
    let mut prefix = 0;
    for item in NlasIterator::new(bytes) {
        let Ok(frame) = item else {
            return prefix;
        };
        if !is_padded(&bytes[prefix..], frame.length())
            || !LinkAttribute::is_own_encoding(&frame, family)
        {
            return prefix;
        }
        prefix += padded_len(frame.value().len());
    }
    prefix
}
