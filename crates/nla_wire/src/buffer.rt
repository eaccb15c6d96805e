//! A frame over borrowed bytes.

ghost use Rattle.std.specs.Prelude.{◌≡◌, ◌+◌, ◌-◌, ◌≤◌, ◌<◌, List, ℕ, length, MatchResult};
ghost use Rattle.nla_wire.specs.Sizes.{most_payload};
ghost use Rattle.nla_wire.specs.Frames.{Frame, IsBytes, IsFrame, number, is_nested, is_network_order, Begins, BadFront};
ghost use Rattle.nla_wire.specs.Frames.{BeginsWithNone};
ghost use Rattle.nla_wire.specs.Reading.{step, front};
ghost use Rattle.nla_wire.specs.Gives.{without_place};
ghost use Rattle.nla_wire.specs.Same.{same_frame, same_frame-laws, same_frame-partial, same_frame-Decides};

use crate::error::{Cause, DecodeError, PAYLOAD};
use crate::exact::Exact;
use crate::number::to_u16;
use std::alloc::AllocError;
use std::marker::Model;

/// The kind's bit that says that the payload is a list of attributes (linux/netlink.h).
pub const NLA_F_NESTED: u16 = 0x8000;
/// The kind's bit that says that the payload is in network byte order (linux/netlink.h).
pub const NLA_F_NET_BYTEORDER: u16 = 0x4000;
/// The bits of the kind that are its number (linux/netlink.h).
pub const NLA_TYPE_MASK: u16 = 0x3fff;
/// The bytes of a frame's header: a length of two bytes and a kind of two bytes.
pub const NLA_HEADER_SIZE: usize = 4;

/// A frame over borrowed bytes: its kind, and its payload, which is not copied (rtnetlink(7)).
///
/// The length field was checked when it was made, so the payload has at most 65531 bytes.
#[derive(Debug, Drop)]
pub struct NlaBuffer<'a> {
    kind: u16,
    value: &'a [u8],
}

impl<'a> Model for NlaBuffer<'a> {
    ghost Value = { Frame };

    ghost view = { λ s. record { kind = s.kind; payload = s.value.now } };

    ghost invariant = { λ s. length s.value.now ≤ most_payload };
}

impl<'a> NlaBuffer<'a> {
    /// The frame that the bytes begin with.
    ///
    /// Refuses `FrameShort` where fewer than four bytes are there, `FrameOver` where the length passes them, and
    /// `FrameUnder` where it is below four.
    pub fn new_checked(bytes: &'a [u8]) -> Result<NlaBuffer<'a>, DecodeError>
        ensures { MatchResult result (λ f. (rest : List ℕ) × Begins bytes.now f rest)
            (λ e. BadFront bytes.now e.cause × BeginsWithNone bytes.now) }
    {
        NlaBuffer::at_front(bytes)
    }

    pub(crate) fn at_front(bytes: &'a [u8]) -> Result<NlaBuffer<'a>, DecodeError>
        ensures { without_place result ≡ front (step bytes.now) }
    {
        if bytes.len() < NLA_HEADER_SIZE {
            return Err(frame_fault(Cause::FrameShort { left: bytes.len() }));
        }
        let length = u16::from_le_bytes([bytes[0], bytes[1]]);
        if length as usize > bytes.len() {
            return Err(frame_fault(Cause::FrameOver {
                length,
                left: bytes.len(),
            }));
        }
        if length < 4 {
            return Err(frame_fault(Cause::FrameUnder { length }));
        }
        let kind = u16::from_le_bytes([bytes[2], bytes[3]]);
        Ok(NlaBuffer {
            kind,
            value: &bytes[4..length as usize],
        })
    }

    /// The number of the attribute: its kind without the two flag bits.
    pub fn kind(&self) -> u16
        ensures { result ≡ number self.now }
    {
        self.kind & NLA_TYPE_MASK
    }

    /// The whole kind: the number and both flag bits.
    pub fn kind_with_flags(&self) -> u16
        ensures { result ≡ self.now.kind }
    {
        self.kind
    }

    /// Whether `NLA_F_NESTED` is set.
    pub fn nested_flag(&self) -> bool
        ensures { result ≡ is_nested self.now }
    {
        self.kind & NLA_F_NESTED != 0
    }

    /// Whether `NLA_F_NET_BYTEORDER` is set.
    pub fn network_byte_order_flag(&self) -> bool
        ensures { result ≡ is_network_order self.now }
    {
        self.kind & NLA_F_NET_BYTEORDER != 0
    }

    /// The length field: the header and the payload, without padding.
    pub fn length(&self) -> u16
        ensures { result ≡ 4 + length self.now.payload }
    {
        to_u16(NLA_HEADER_SIZE + self.value.len())
    }

    /// The same frame: what is lent to a call that is rarely made is a copy, so that this one can stay in registers.
    #[inline(always)]
    pub(crate) fn again(&self) -> NlaBuffer<'a>
        ensures { result ≡ self.now }
    {
        NlaBuffer {
            kind: self.kind,
            value: self.value,
        }
    }

    /// What holds of every frame that was read: its kind is a number of two bytes, and its payload is bytes, at most
    /// 65531. It does nothing; for the proof: a call of it states this.
    #[inline(always)]
    pub fn is_frame(&self)
        ensures { IsFrame self.now }
    {
        let _kind = self.kind_with_flags();
        are_bytes(self.value());
    }

    /// The payload, a part of the slice that the frame was made over.
    pub fn value(&self) -> &'a [u8]
        ensures value { result.now ≡ self.now.payload }
        ensures small { length result.now ≤ most_payload }
    {
        self.value
    }
}

/// What holds of every slice of bytes: each is below 256. It does nothing; for the proof: a call of it states this.
#[inline(always)]
fn are_bytes(_bytes: &[u8])
    ensures { IsBytes _bytes.now }
{}

fn frame_fault(cause: Cause) -> DecodeError
    ensures { result.cause ≡ cause }
{
    DecodeError::new(PAYLOAD, cause)
}

impl<'a> Clone for NlaBuffer<'a> {
    ghost is_clone = { λ x y. y ≡ x };

    fn clone(&self) -> Result<NlaBuffer<'a>, AllocError> {
        Ok(self.again())
    }
}

impl<'a> PartialEq for NlaBuffer<'a> {
    ghost eq = { same_frame };

    ghost laws = { same_frame-partial };

    fn eq(&self, other: &NlaBuffer<'a>) -> bool {
        self.kind == other.kind && self.value == other.value
    }
}

impl<'a> Eq for NlaBuffer<'a> {
    ghost laws = { same_frame-laws };
}

impl<'a> Exact for NlaBuffer<'a> {
    ghost decides = { same_frame-Decides };
}
