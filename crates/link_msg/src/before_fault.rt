//! What is read of a message in front of the first fault of its attributes.

ghost use Rattle.std.specs.Prelude.{◌≢◌, ◌≤◌, length, IfOk, IfErr};
ghost use Rattle.nla_wire.specs.declared.error.Cause.TheVariants.{OutOfMemory};
ghost use Rattle.link_msg.specs.BeforeFault.{IsFront, IsBefore, HasNoHeader};

use crate::attribute::LinkAttribute;
use crate::message::{LinkMessage, check_attributes, split_header};
use crate::place::AttributePlace;
use crate::walk::{Found, first_fault};
use link_vals::AddressFamily;
use nla_wire::{DecodeError, List};
use std::alloc::Global;

/// How many bytes of attributes stand in front of the first fault, and the fault; or all of them, where there is none.
fn front_of(family: AddressFamily, rest: &[u8]) -> (usize, Option<DecodeError>)
    ensures front { IsFront family rest.now result.0 result.1 }
    ensures inside { result.0 ≤ length rest.now }
{
    let Some(Found { at, frame: _frame }) = first_fault(&AttributePlace { family }, rest) else {
        return (rest.len(), None);
    };
    match check_attributes(rest, family) {
        Ok(()) => (at, None),
        Err(error) => (at, Some(error)),
    }
}

impl LinkMessage {
    /// Reads a message as far as it goes: the header, and the attributes in front of the first fault of the outermost
    /// list; and that fault, if there is one. Without one the message is that of `parse`.
    ///
    /// It is for messages of kernels whose attributes the format refuses, as a name that is no UTF-8. Refuses
    /// `TooShort` below 16 bytes, as `parse` does; or `OutOfMemory`, which says nothing of the bytes.
    pub fn parse_before_fault(
        alloc: Global,
        input: &[u8],
    ) -> Result<(LinkMessage, Option<DecodeError>), DecodeError>
        ensures read { IfOk result (λ r. IsBefore input.now r.0 r.1) }
        ensures short { IfErr result
            (λ e. e.cause ≢ OutOfMemory → HasNoHeader input.now e.cause) }
    {
        let (header, rest) = split_header(input)?;
        let family = header.interface_family;
        let (front, fault) = front_of(family, rest);
        match LinkAttribute::parse_list_with_param(alloc, &rest[..front], family) {
            Ok(attributes) => Ok((
                LinkMessage {
                    header,
                    attributes: List::new(attributes),
                },
                fault,
            )),
            Err(error) => Err(error),
        }
    }
}
