//! Types whose values are read from attributes and written to them, at the one place that each has.

ghost use Rattle.std.specs.Prelude.{◌≡◌, ◌≢◌, ◌+◌, ◌*◌, ◌/◌, ◌≤◌, false, List, length, IfOk, IfErr, MatchResult};
ghost use Rattle.nla_wire.specs.Sizes.{most_payload, growth};
ghost use Rattle.nla_wire.specs.Frames.{Frame, IsFrame};
ghost use Rattle.nla_wire.specs.Grammar.{Grammar, Agrees, list, not_empty};
ghost use Rattle.nla_wire.specs.Canon.{canon, canons, AllFit, Weighs, HasRoom, Rewrites};
ghost use Rattle.nla_wire.specs.Canon.{RoomWhereFit, Canonical, MeansLength, MeansEncoding, MeansWritten};
ghost use Rattle.nla_wire.specs.Gives.{Fails, Gives, Checks};
ghost use Rattle.nla_wire.specs.declared.error.Cause.TheVariants.{OutOfMemory};

use crate::buffer::NlaBuffer;
use crate::error::DecodeError;
use crate::members::{
    check_members, measure_members, measure_nested_members, parse_members, write_members,
    write_nested_members,
};
use crate::nla::Nla;
use crate::place::{Place, check_one};
use std::alloc::Global;

/// A value that is read from an attribute, at the one place that its type has.
///
/// The list calls read and write lists of such attributes.
pub trait NlaRead: Nla + Drop {
    ghost grammar: { Grammar Frame Self };

    /// The name of the attributes of this number, for a log; empty where they have none.
    fn kind_name(kind: u16) -> &'static str;

    /// Reads the value of an attribute, for `parse`.
    fn parse_frame(alloc: Global, buffer: &NlaBuffer<'_>) -> Result<Self, DecodeError>
    where
        Self: Sized,
        ensures { Gives result (grammar.reads buffer.now) };

    /// Looks for the first fault of an attribute, with no memory taken, for `check`.
    fn check_frame(buffer: &NlaBuffer<'_>) -> Result<(), DecodeError>
        ensures { Checks result (grammar.reads buffer.now) };

    /// The length of the encoding of an attribute's value, without header and padding and with no memory taken; `None`
    /// where the value does not fit, or the attribute is refused.
    fn measure_frame(buffer: &NlaBuffer<'_>) -> Option<usize>
        ensures { Weighs (λ v. (Self.frame v).payload) Self.fits
            (grammar.reads buffer.now) result };

    /// Writes the canonical encoding of an attribute that was measured to the front of the buffer, and returns its
    /// length with header and padding. The rest of the buffer is kept.
    fn write_frame(buffer: &NlaBuffer<'_>, out: &mut [u8]) -> usize
        requires { HasRoom (λ v. canon (Self.frame v)) Self.fits (grammar.reads buffer.now)
            (length out.old) }
        ensures { Rewrites (λ v. canon (Self.frame v))
            (grammar.reads buffer.now) out.old out.new result };

    ghost agrees: { Agrees IsFrame grammar };

    ghost no_memory: { (f : Frame) → grammar.bad f OutOfMemory → ⊥ };

    ghost bounded: { (f : Frame) (v : Self) → grammar.means f v
        → length (canon (Self.frame v)) ≤ growth * (1 + length f.payload / 4) };

    /// Reads the value of an attribute.
    ///
    /// Refuses with the cause of the first fault, or with `OutOfMemory`.
    #[inline(always)]
    final fn parse(alloc: Global, buffer: &NlaBuffer<'_>) -> Result<Self, DecodeError>
    where
        Self: Sized,
        ensures found { IfOk result (grammar.means buffer.now) }
        ensures fault { IfErr result (λ e. e.cause ≢ OutOfMemory → grammar.bad buffer.now e.cause) }
        ensures refused { IfErr result
            (λ e. e.cause ≢ OutOfMemory → (v : Self) → grammar.means buffer.now v → ⊥) }
        ensures reads { Gives result (grammar.reads buffer.now) }
    {
        buffer.is_frame();
        parse_named(alloc, buffer)
    }

    /// Whether an attribute has a value, with no memory taken: `Ok` where it has, else the cause of the first fault.
    #[inline(always)]
    final fn check(buffer: &NlaBuffer<'_>) -> Result<(), DecodeError>
    where
        Self: Sized,
        ensures found { IfOk result (λ _. (v : Self) × grammar.means buffer.now v) }
        ensures fault { IfErr result (λ e. grammar.bad buffer.now e.cause) }
        ensures refused { IfErr result (λ e. (v : Self) → grammar.means buffer.now v → ⊥) }
        ensures memory { IfErr result (λ e. e.cause ≢ OutOfMemory) }
        ensures reads { Checks result (grammar.reads buffer.now) }
    {
        buffer.is_frame();
        check_one::<Self, OwnPlace>(&OwnPlace, buffer)
    }

    /// Reads a list of these attributes.
    ///
    /// Refuses with the cause of the fault that is met first, front to back, each value before the next frame; or with
    /// `OutOfMemory`. There are at least four bytes for each value.
    final fn parse_list(alloc: Global, bytes: &[u8]) -> Result<Vec<Self>, DecodeError>
    where
        Self: Sized,
        ensures found { IfOk result (λ v. (list grammar).means bytes.now v.items) }
        ensures fault { IfErr result
            (λ e. e.cause ≢ OutOfMemory → (list grammar).bad bytes.now e.cause) }
        ensures refused { IfErr result (λ e. e.cause ≢ OutOfMemory → (vs : List Self)
            → (list grammar).means bytes.now vs → ⊥) }
        ensures reads { MatchResult result (λ v. (list grammar).reads bytes.now ≡ Ok v.items)
            (λ e. Fails e.cause ((list grammar).reads bytes.now)) }
        ensures few { IfOk result (λ v. 4 * length v.items ≤ length bytes.now) }
    {
        parse_members::<Self, OwnPlace>(&OwnPlace, alloc, bytes)
    }

    /// Whether the bytes are a list of these attributes, with no memory taken: `Ok` where they are, else the cause of
    /// the fault that is met first.
    final fn check_list(bytes: &[u8]) -> Result<(), DecodeError>
    where
        Self: Sized,
        ensures found { IfOk result (λ _. (vs : List Self) × (list grammar).means bytes.now vs) }
        ensures fault { IfErr result (λ e. (list grammar).bad bytes.now e.cause) }
        ensures refused { IfErr result
            (λ e. (vs : List Self) → (list grammar).means bytes.now vs → ⊥) }
        ensures memory { IfErr result (λ e. e.cause ≢ OutOfMemory) }
        ensures reads { Checks result ((list grammar).reads bytes.now) }
    {
        check_members::<Self, OwnPlace>(&OwnPlace, bytes)
    }

    /// Writes the canonical encoding of an attribute's value to the front of the buffer, with no memory taken, and
    /// returns its length. The rest of the buffer is kept.
    ///
    /// There is room for that encoding: `growth_per_byte` bytes for each byte of header and payload are enough. Returns
    /// `None` where the value does not fit or the attribute is refused, and changes nothing then.
    final fn canon(buffer: &NlaBuffer<'_>, out: &mut [u8]) -> Option<usize>
    where
        Self: Sized,
        requires room { RoomWhereFit (λ v. canon (Self.frame v)) Self.fits
            (grammar.reads buffer.now) (length out.old) }
        ensures means { MeansEncoding (grammar.means buffer.now) (λ v. canon (Self.frame v))
            Self.fits out.old out.new result }
        ensures reads { Canonical (λ v. canon (Self.frame v)) Self.fits
            (grammar.reads buffer.now) out.old out.new result }
    {
        buffer.is_frame();
        let Some(_len) = Self::measure_frame(buffer) else {
            return None;
        };
        Some(Self::write_frame(buffer, out))
    }

    /// The length of the canonical encoding of a list of these attributes, with no memory taken; `None` where one does
    /// not fit, or the list is refused.
    final fn measure_list(bytes: &[u8]) -> Option<usize>
    where
        Self: Sized,
        ensures means { MeansLength ((list grammar).means bytes.now) (canons Self.frame)
            (AllFit Self.fits Self.frame) result }
        ensures reads { Weighs (canons Self.frame) (AllFit Self.fits Self.frame)
            ((list grammar).reads bytes.now) result }
    {
        measure_members::<Self, OwnPlace>(&OwnPlace, bytes)
    }

    /// The same where the encoding is to be the value of an attribute: `None` too where it has more than 65531 bytes.
    final fn measure_nested(bytes: &[u8]) -> Option<usize>
    where
        Self: Sized,
        ensures means { MeansLength ((list grammar).means bytes.now) (canons Self.frame)
            (λ vs. (length (canons Self.frame vs) ≤ most_payload) × AllFit Self.fits Self.frame vs)
            result }
        ensures reads { Weighs (canons Self.frame) (λ vs. (length (canons Self.frame vs)
            ≤ most_payload) × AllFit Self.fits Self.frame vs) ((list grammar).reads bytes.now)
            result }
    {
        measure_nested_members::<Self, OwnPlace>(&OwnPlace, bytes)
    }

    /// Writes the attribute of this kind whose value is the canonical encoding of a list of these attributes, which was
    /// measured, to the front of the buffer, and returns its length with header and padding.
    final fn write_nested(kind: u16, bytes: &[u8], out: &mut [u8]) -> usize
    where
        Self: Sized,
        requires { HasRoom (λ vs. canon (record { kind = kind; payload = canons Self.frame vs }))
            (λ vs. (length (canons Self.frame vs) ≤ most_payload) × AllFit Self.fits Self.frame vs)
            ((list grammar).reads bytes.now) (length out.old) }
        ensures means { MeansWritten ((list grammar).means bytes.now)
            (λ vs. canon (record { kind = kind; payload = canons Self.frame vs }))
            out.old out.new result }
        ensures reads { Rewrites
            (λ vs. canon (record { kind = kind; payload = canons Self.frame vs }))
            ((list grammar).reads bytes.now) out.old out.new result }
    {
        write_nested_members::<Self, OwnPlace>(&OwnPlace, kind, bytes, out)
    }

    /// As `measure_nested`, of a list that must not be empty: `None` too where it is.
    final fn measure_some(bytes: &[u8]) -> Option<usize>
    where
        Self: Sized,
        ensures means { MeansLength ((not_empty (list grammar)).means bytes.now)
            (canons Self.frame) (λ vs. (length (canons Self.frame vs) ≤ most_payload)
            × AllFit Self.fits Self.frame vs) result }
        ensures reads { Weighs (canons Self.frame) (λ vs. (length (canons Self.frame vs)
            ≤ most_payload) × AllFit Self.fits Self.frame vs)
            ((not_empty (list grammar)).reads bytes.now) result }
    {
        if bytes.is_empty() {
            return None;
        }
        Self::measure_nested(bytes)
    }

    /// As `write_nested`, of a list that must not be empty.
    final fn write_some(kind: u16, bytes: &[u8], out: &mut [u8]) -> usize
    where
        Self: Sized,
        requires { HasRoom (λ vs. canon (record { kind = kind; payload = canons Self.frame vs }))
            (λ vs. (length (canons Self.frame vs) ≤ most_payload) × AllFit Self.fits Self.frame vs)
            ((not_empty (list grammar)).reads bytes.now) (length out.old) }
        ensures means { MeansWritten ((not_empty (list grammar)).means bytes.now)
            (λ vs. canon (record { kind = kind; payload = canons Self.frame vs }))
            out.old out.new result }
        ensures reads { Rewrites
            (λ vs. canon (record { kind = kind; payload = canons Self.frame vs }))
            ((not_empty (list grammar)).reads bytes.now) out.old out.new result }
    {
        Self::write_nested(kind, bytes, out)
    }

    /// Writes the canonical encoding of a list of these attributes to the front of the buffer, with no memory taken,
    /// and returns its length. The rest of the buffer is kept.
    ///
    /// There is room for that encoding: `growth_per_byte` bytes for each byte of the list are enough. Returns `None`
    /// where a member does not fit or the list is refused, and changes nothing then.
    final fn canon_list(bytes: &[u8], out: &mut [u8]) -> Option<usize>
    where
        Self: Sized,
        requires room { RoomWhereFit (canons Self.frame) (AllFit Self.fits Self.frame)
            ((list grammar).reads bytes.now) (length out.old) }
        ensures means { MeansEncoding ((list grammar).means bytes.now) (canons Self.frame)
            (AllFit Self.fits Self.frame) out.old out.new result }
        ensures reads { Canonical (canons Self.frame) (AllFit Self.fits Self.frame)
            ((list grammar).reads bytes.now) out.old out.new result }
    {
        let Some(_len) = Self::measure_list(bytes) else {
            return None;
        };
        Some(write_members::<Self, OwnPlace>(&OwnPlace, bytes, out))
    }
}

/// Reads the value of an attribute. A fault is told with the attribute's name.
#[inline(always)]
fn parse_named<V: NlaRead>(alloc: Global, buffer: &NlaBuffer<'_>) -> Result<V, DecodeError>
    ensures { Gives result (V.NlaRead.grammar.reads buffer.now) }
{
    match V::parse_frame(alloc, buffer) {
        Ok(value) => Ok(value),
        Err(error) => Err(error.within(V::kind_name(buffer.kind()))),
    }
}

/// The one place of a type of values that has no other.
#[derive(Debug, Clone, Copy, Drop)]
pub struct OwnPlace;

impl<V: NlaRead> Place<V> for OwnPlace {
    ghost grammar = { λ place. V.NlaRead.grammar };

    ghost picks = { λ place. false };

    #[inline(always)]
    fn drops(&self, _kind: u16) -> bool {
        false
    }

    fn kind_name(&self, kind: u16) -> &'static str {
        <V as NlaRead>::kind_name(kind)
    }

    #[inline(always)]
    fn parse_into(
        &self,
        alloc: Global,
        buffer: &NlaBuffer<'_>,
        values: &mut Vec<V>,
    ) -> Result<(), DecodeError> {
        let value = <V as NlaRead>::parse_frame(alloc, buffer)?;
        values.push_reserved(value);
        Ok(())
    }

    #[inline(always)]
    fn check(&self, buffer: &NlaBuffer<'_>) -> Result<(), DecodeError> {
        <V as NlaRead>::check_frame(buffer)
    }

    #[inline(always)]
    fn measure(&self, buffer: &NlaBuffer<'_>) -> Option<usize> {
        <V as NlaRead>::measure_frame(buffer)
    }

    #[inline(always)]
    fn write(&self, buffer: &NlaBuffer<'_>, out: &mut [u8]) -> usize {
        <V as NlaRead>::write_frame(buffer, out)
    }

    ghost agrees = { λ place. V.NlaRead.agrees };

    ghost no_memory = { λ place. V.NlaRead.no_memory };

    ghost bounded = { λ place. V.NlaRead.bounded };
}
