//! Places of the grammar: how an attribute at a place is read, checked, measured and written.

ghost use Rattle.std.specs.Prelude.{◌≡◌, ◌+◌, ◌*◌, ◌/◌, ◌<◌, ◌≤◌, ◌↔◌, Bool, length, vec_len, vec_capacity, IsTrue};
ghost use Rattle.nla_wire.specs.Sizes.{growth};
ghost use Rattle.nla_wire.specs.Frames.{Frame, IsFrame};
ghost use Rattle.nla_wire.specs.Grammar.{Grammar, Agrees, drops};
ghost use Rattle.nla_wire.specs.Canon.{canon, IsFitting, Weighs, HasRoom, Rewrites};
ghost use Rattle.nla_wire.specs.Gives.{Gives, Adds, Checks};
ghost use Rattle.nla_wire.specs.declared.error.Cause.TheVariants.{OutOfMemory};

use crate::buffer::NlaBuffer;
use crate::error::{DecodeError, empty_list};
use crate::nla::Nla;
use std::alloc::Global;

/// A place of the grammar: it says how an attribute there is read as a value of `V`.
///
/// A place may depend on what was read before it, as that of `IFLA_AF_SPEC` on the family of the message's header.
pub trait Place<V: Nla + Drop> {
    ghost grammar: { Self → Grammar Frame V };

    ghost picks: { Self → Bool };

    /// Whether a list of this place drops the attributes of this number unread.
    fn drops(&self, kind: u16) -> bool
        ensures { result ≡ drops (picks self.now) kind };

    /// The name of the attributes of this number, for a log; empty where they have none.
    fn kind_name(&self, kind: u16) -> &'static str;

    /// Reads the value of an attribute into the room after the last value of a list.
    ///
    /// Refuses with the cause of the first fault, or with `OutOfMemory`.
    fn parse_into(
        &self,
        alloc: Global,
        buffer: &NlaBuffer<'_>,
        values: &mut Vec<V>,
    ) -> Result<(), DecodeError>
        requires { vec_len values.old < vec_capacity values.old }
        ensures { Adds result
            ((grammar self.now).reads buffer.now) values.old.items values.new.items };

    /// Whether an attribute has a value, with no memory taken: `Ok` where it has, else the cause of the first fault.
    fn check(&self, buffer: &NlaBuffer<'_>) -> Result<(), DecodeError>
        ensures { Checks result ((grammar self.now).reads buffer.now) };

    /// The length of the encoding of an attribute's value, without header and padding and with no memory taken; `None`
    /// where the value does not fit, or the attribute is refused.
    fn measure(&self, buffer: &NlaBuffer<'_>) -> Option<usize>
        ensures { Weighs (λ v. (V.frame v).payload) V.fits
            ((grammar self.now).reads buffer.now) result };

    /// Writes the canonical encoding of an attribute that was measured to the front of the buffer, and returns its
    /// length with header and padding. The rest of the buffer is kept.
    fn write(&self, buffer: &NlaBuffer<'_>, out: &mut [u8]) -> usize
        requires { HasRoom (λ v. canon (V.frame v)) V.fits ((grammar self.now).reads buffer.now)
            (length out.old) }
        ensures { Rewrites (λ v. canon (V.frame v))
            ((grammar self.now).reads buffer.now) out.old out.new result };

    ghost agrees: { (place : Self) → Agrees IsFrame (grammar place) };

    ghost no_memory: { (place : Self) (f : Frame) → (grammar place).bad f OutOfMemory → ⊥ };

    ghost bounded: { (place : Self) (f : Frame) (v : V) → (grammar place).means f v
        → length (canon (V.frame v)) ≤ growth * (1 + length f.payload / 4) };
}

/// Reads the value of an attribute as the place does. A fault is told with the attribute's name.
#[inline(always)]
pub(crate) fn add_one<V: Nla + Drop, P: Place<V>>(
    place: &P,
    alloc: Global,
    buffer: &NlaBuffer<'_>,
    values: &mut Vec<V>,
) -> Result<(), DecodeError>
    requires { vec_len values.old < vec_capacity values.old }
    ensures { Adds result
        ((P.grammar place.now).reads buffer.now) values.old.items values.new.items }
{
    match place.parse_into(alloc, buffer, values) {
        Ok(()) => Ok(()),
        Err(error) => Err(error.within(place.kind_name(buffer.kind()))),
    }
}

/// Whether an attribute has a value that fits, by measuring its encoding.
#[inline(always)]
pub(crate) fn is_measured<V: Nla + Drop, P: Place<V>>(place: &P, buffer: &NlaBuffer<'_>) -> bool
    ensures { IsTrue result ↔ IsFitting V.fits ((P.grammar place.now).reads buffer.now) }
{
    place.measure(buffer).is_some()
}

/// Whether an attribute has a value, as the place says it. A fault is told with the attribute's name.
#[inline(never)]
pub fn check_one<V: Nla + Drop, P: Place<V>>(
    place: &P,
    buffer: &NlaBuffer<'_>,
) -> Result<(), DecodeError>
    ensures { Checks result ((P.grammar place.now).reads buffer.now) }
{
    match place.check(buffer) {
        Ok(()) => Ok(()),
        Err(error) => Err(error.within(place.kind_name(buffer.kind()))),
    }
}

/// Reads the value of one attribute.
///
/// Refuses as the place does, or with `OutOfMemory`, which says nothing of the bytes.
pub fn parse_one<V: Nla + Drop, P: Place<V>>(
    place: &P,
    alloc: Global,
    buffer: &NlaBuffer<'_>,
) -> Result<V, DecodeError>
    ensures { Gives result ((P.grammar place.now).reads buffer.now) }
{
    let mut values = Vec::with_capacity(alloc, 1)?;
    add_one(place, alloc, buffer, &mut values)?;
    // for the proof: the value that was added is there
    let Some(value) = values.pop() else {
        return Err(empty_list());
    };
    Ok(value)
}
