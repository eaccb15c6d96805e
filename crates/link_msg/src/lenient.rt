//! Lenient reading: attributes that are refused are kept whole.

ghost use Rattle.std.specs.Prelude.{◌≡◌, ◌≢◌, IfOk, IfErr, Ok};
ghost use Rattle.nla_wire.specs.Gives.{Gives, Adds};
ghost use Rattle.nla_wire.specs.declared.error.Cause.TheVariants.{OutOfMemory};
ghost use Rattle.link_msg.specs.Messages.{IsBounded};
ghost use Rattle.link_msg.specs.Lenient.{MeansLeniently, LenientFault, MeansNoneLeniently, read_by, lenient_place};
ghost use Rattle.link_msg.specs.declared.attribute.LinkAttribute.TheVariants.{Other};

use crate::attribute::LinkAttribute;
use crate::message::{LinkMessage, OUTERMOST, split_header};
use crate::numbers::kind_name;
use crate::place::AttributePlace;
use link_vals::AddressFamily;
use nla_wire::{
    Cause, DecodeError, DefaultNla, List, NlaBuffer, Place, parse_members, write_value,
};
use std::alloc::Global;

/// Keeps a frame whose value was refused.
#[inline(never)]
fn keep_refused(
    alloc: Global,
    buffer: &NlaBuffer<'_>,
    values: &mut Vec<LinkAttribute>,
) -> Result<(), DecodeError>
    ensures { Adds result (Ok (Other buffer.now)) values.old.items values.new.items }
{
    values.reserve(1)?;
    values.push_reserved(LinkAttribute::Other(DefaultNla::parse(alloc, buffer)?));
    Ok(())
}

/// The outermost place, under the family of the message's header, where attributes that are refused are kept whole.
#[derive(Debug, Clone, Copy)]
pub struct LenientPlace {
    /// The family in the header, on which IFLA_PROTINFO and IFLA_AF_SPEC depend.
    pub family: AddressFamily,
}

impl LenientPlace {
    /// The place that refuses.
    #[inline(always)]
    fn strict(&self) -> AttributePlace
        ensures { result.family ≡ self.now.family }
    {
        AttributePlace {
            family: self.family,
        }
    }
}

impl Place<LinkAttribute> for LenientPlace {
    ghost use Rattle.std.specs.Prelude.{false};
    ghost use Rattle.link_msg.specs.LenientTable.{lenient_lawful, lenient_bounded};

    ghost grammar = { λ place. lenient_place place.family };

    ghost picks = { λ place. false };

    #[inline(always)]
    fn drops(&self, _kind: u16) -> bool {
        false
    }

    fn kind_name(&self, kind: u16) -> &'static str {
        kind_name(kind)
    }

    #[inline(always)]
    fn parse_into(
        &self,
        alloc: Global,
        buffer: &NlaBuffer<'_>,
        values: &mut Vec<LinkAttribute>,
    ) -> Result<(), DecodeError> {
        match self.strict().parse_into(alloc, buffer, values) {
            Ok(()) => Ok(()),
            Err(_error) => match _error.cause {
                Cause::OutOfMemory => Err(_error),
                _ => keep_refused(alloc, buffer, values),
            },
        }
    }

    fn check(&self, _buffer: &NlaBuffer<'_>) -> Result<(), DecodeError> {
        Ok(())
    }

    /// A frame that is refused is as long as it was read.
    #[inline(always)]
    fn measure(&self, buffer: &NlaBuffer<'_>) -> Option<usize> {
        let strict = self.strict();
        match strict.measure(buffer) {
            Some(len) => Some(len),
            None => {
                buffer.is_frame();
                match strict.check(buffer) {
                    Ok(()) => None,
                    Err(_) => Some(buffer.value().len()),
                }
            }
        }
    }

    /// A frame that was measured and has no length by itself is refused.
    #[inline(always)]
    fn write(&self, buffer: &NlaBuffer<'_>, out: &mut [u8]) -> usize {
        let strict = self.strict();
        match strict.measure(buffer) {
            Some(_len) => strict.write(buffer, out),
            None => {
                buffer.is_frame();
                write_value(buffer.kind_with_flags(), buffer.value(), out)
            }
        }
    }

    ghost agrees = { λ place. (lenient_lawful place.family).agrees };

    ghost no_memory = { λ place. (lenient_lawful place.family).no_memory };

    ghost bounded = { λ place. lenient_bounded place.family };
}

impl LinkMessage {
    /// Reads a message leniently: a header of 16 bytes, and attributes under its family, of which each that `parse`
    /// refuses is kept whole as `Other`.
    ///
    /// Refuses `TooShort` below 16 bytes, or where bytes are no frame, with the cause of the first such fault; or
    /// `OutOfMemory`, which says nothing of the bytes.
    pub fn parse_lenient(alloc: Global, input: &[u8]) -> Result<LinkMessage, DecodeError>
        ensures means { IfOk result (MeansLeniently input.now) }
        ensures bounds { IfOk result (IsBounded input.now) }
        ensures fault { IfErr result (λ e. e.cause ≢ OutOfMemory → LenientFault input.now e.cause) }
        ensures refused { IfErr result (λ e. e.cause ≢ OutOfMemory → MeansNoneLeniently input.now) }
        ensures reads { Gives result (read_by lenient_place input.now) }
    {
        LinkMessage::parse_each(alloc, input)
    }

    /// What `parse_lenient` does; for the proof: its clause cites the reader alone.
    #[tactic(auto, unfolding(crate::specs::Lenient::read_by))]
    fn parse_each(alloc: Global, input: &[u8]) -> Result<LinkMessage, DecodeError>
        ensures { Gives result (read_by lenient_place input.now) }
    {
        let (header, rest) = split_header(input)?;
        let place = LenientPlace {
            family: header.interface_family,
        };
        match parse_members(&place, alloc, rest) {
            Ok(attributes) => Ok(LinkMessage {
                header,
                attributes: List::new(attributes),
            }),
            Err(error) => Err(error.within(OUTERMOST)),
        }
    }
}
