//! The attributes that lenient reading keeps because they are refused.

ghost use Rattle.std.specs.Prelude.{◌≡◌, ◌⊎◌, [], ◌+◌, ◌^◌, ◌<◌, List, length, drop, MatchOption, IfOk, IfErr};
ghost use Rattle.std.specs.Prelude.{None, Some};
ghost use Rattle.nla_wire.specs.Frames.{Frame};
ghost use Rattle.nla_wire.specs.Items.{Item, items};
ghost use Rattle.link_msg.specs.Tables.{attribute_place};
ghost use Rattle.link_msg.specs.FaultPath.{numbers_to};
ghost use Rattle.link_msg.specs.Told.{Told, told_of, told_on, told, told_all, told_from, span, before, TellsNext};
ghost use Rattle.link_msg.specs.Told.{AreRefusals, IsHeaderless, LeadsThere};

use crate::fault_at::in_attribute;
use crate::fault_path::FaultPath;
use crate::header::HEADER_SIZE;
use crate::message::{LinkMessage, OUTERMOST, split_header};
use crate::place::AttributePlace;
use link_vals::AddressFamily;
use nla_wire::{DecodeError, NlaBuffer, NlasIterator, check_one, padded_len};
use std::marker::Model;

/// An attribute that `parse` refuses and `parse_lenient` keeps whole; or the bytes behind the attributes that are no
/// frame, for which both refuse the message.
#[derive(Debug, Drop)]
pub struct Refusal<'a> {
    family: AddressFamily,
    offset: usize,
    frame: Option<NlaBuffer<'a>>,
    error: DecodeError,
    path: FaultPath,
}

impl<'a> Model for Refusal<'a> {
    ghost use Rattle.link_msg.specs.Told.{Told, told_of, LeadsThere};

    ghost Value = { Told };

    ghost view = { λ s. told_of s.family s.offset s.frame s.error.cause };

    ghost invariant = { λ s. LeadsThere (told_of s.family s.offset s.frame s.error.cause) s.path };
}

impl<'a> Refusal<'a> {
    /// How many bytes of the message stand before the attribute, or before the bytes that are no frame.
    pub fn offset(&self) -> usize
        ensures { result ≡ self.now.offset }
    {
        self.offset
    }

    /// The kind of the attribute, its number and both flag bits, and its payload, as they are kept. `None` where the
    /// bytes are no frame.
    pub fn attribute(&self) -> Option<(u16, &'a [u8])>
        ensures { MatchOption result (self.now.frame ≡ None)
            (λ a. self.now.frame ≡ Some (record { kind = a.0; payload = a.1.now })) }
    {
        match &self.frame {
            Some(frame) => Some((frame.kind_with_flags(), frame.value())),
            None => None,
        }
    }

    /// Why it is refused.
    pub fn error(&self) -> DecodeError
        ensures { result.cause ≡ self.now.cause }
    {
        self.error
    }

    /// Where its fault is, as `LinkMessage::fault_path` tells that of a message in which all attributes before it are
    /// accepted.
    pub fn path(&self) -> FaultPath
        ensures { LeadsThere self.now result }
    {
        self.path
    }
}

/// The refusal of bytes that are no frame.
fn stray<'a>(error: DecodeError, offset: usize, family: AddressFamily) -> Refusal<'a>
    ensures { result ≡ told_of family offset None error.cause }
{
    Refusal {
        family,
        offset,
        frame: None,
        error: error.within(OUTERMOST),
        path: FaultPath::stray(offset),
    }
}

/// The refusal of a frame, if it is refused.
fn refused<'a>(frame: NlaBuffer<'a>, offset: usize, family: AddressFamily) -> Option<Refusal<'a>>
    requires { offset + 4 + length frame.payload < 2 ^ 64 }
    ensures { (more : List Told)
        → told_on family offset frame.entry ((attribute_place family).reads frame.entry) more
        ≡ before result more }
{
    frame.is_frame();
    match check_one(&AttributePlace { family }, &frame) {
        Ok(()) => None,
        Err(error) => {
            let path = FaultPath::frame(offset, frame.kind(), in_attribute(&frame, family));
            Some(Refusal {
                family,
                offset,
                frame: Some(frame),
                error,
                path,
            })
        }
    }
}

/// The next refusal among the frames that are left, of which the first starts at this offset.
fn next_refused<'a>(
    frames: &mut NlasIterator<'a>,
    at: &mut usize,
    family: AddressFamily,
) -> Option<Refusal<'a>>
    requires { at.old + span frames.old < 2 ^ 64 }
    ensures room { at.new + span frames.new < 2 ^ 64 }
    ensures told { TellsNext (told family at.old frames.old) result
        (told family at.new frames.new) }
{
    while let Some(item) = frames.next() {
        let frame = match item {
            Ok(frame) => frame,
            Err(error) => return Some(stray(error, *at, family)),
        };
        let offset = *at;
        *at += padded_len(frame.value().len());
        if let Some(refusal) = refused(frame, offset, family) {
            return Some(refusal);
        }
    }
    None
}

/// The attributes of a message that `parse_lenient` keeps because they are refused, one after the other, and then the
/// bytes behind them that are no frame, if any are. No memory is taken.
#[derive(Debug, Drop)]
pub struct Refusals<'a> {
    frames: NlasIterator<'a>,
    at: usize,
    family: AddressFamily,
}

impl<'a> Model for Refusals<'a> {
    ghost use Rattle.std.specs.Prelude.{◌+◌, ◌^◌, ◌<◌, List};
    ghost use Rattle.link_msg.specs.Told.{Told, told, span};

    ghost Value = { List Told };

    ghost view = { λ s. told s.family s.at s.frames };

    ghost invariant = { λ s. s.at + span s.frames < 2 ^ 64 };
}

impl<'a> Iterator for Refusals<'a> {
    ghost use Rattle.std.specs.Iterator.{YieldsFirst, item_count};

    type Item = Refusal<'a>;

    ghost next_gives = { YieldsFirst (λ s. s) };

    ghost remaining = { item_count (λ s. s) };

    fn next(&mut self) -> Option<Refusal<'a>> {
        next_refused(&mut self.frames, &mut self.at, self.family)
    }
}

impl LinkMessage {
    /// The attributes that `parse_lenient` keeps because they are refused, in order, and then the bytes that are no
    /// frame, if any are: exactly those. It takes no memory. Where `parse` accepts the message there are none.
    ///
    /// Refuses `TooShort` below 16 bytes, as `parse_lenient` does.
    #[tactic(auto, unfolding(crate::specs::Told::told_all))]
    pub fn refusals(input: &[u8]) -> Result<Refusals<'_>, DecodeError>
        ensures told { IfOk result (λ s. s ≡ told_all input.now) }
        ensures exact { IfOk result (AreRefusals input.now) }
        ensures short { IfErr result (λ e. IsHeaderless input.now e.cause) }
    {
        let (header, _rest) = split_header(input)?;
        Ok(refusals_at(input, HEADER_SIZE, header.interface_family))
    }

    /// The same of the attributes from an offset on, at which one starts, or of all where it is below 16.
    #[tactic(auto, unfolding(crate::specs::Told::told_from))]
    pub fn refusals_from(input: &[u8], offset: usize) -> Result<Refusals<'_>, DecodeError>
        ensures told { IfOk result (λ s. s ≡ told_from input.now offset) }
        ensures short { IfErr result (λ e. IsHeaderless input.now e.cause) }
    {
        let (header, _rest) = split_header(input)?;
        Ok(refusals_at(input, offset.max(HEADER_SIZE), header.interface_family))
    }
}

/// The refusals among the attributes of a message from an offset on, under this family.
fn refusals_at(input: &[u8], at: usize, family: AddressFamily) -> Refusals<'_>
    ensures { result ≡ told family at (items (drop at input.now)) }
{
    let rest = bytes_from(input, at);
    let frames = NlasIterator::new(rest);
    Refusals { frames, at, family }
}

/// The bytes from a place on, or none where it is past the end.
fn bytes_from(bytes: &[u8], at: usize) -> &[u8]
    ensures rest { result.now ≡ drop at bytes.now }
    ensures room { (at + length result.now < 2 ^ 63) ⊎ (result.now ≡ []) }
{
    if at < bytes.len() { &bytes[at..] } else { &[] }
}
