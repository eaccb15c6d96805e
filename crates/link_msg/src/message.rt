//! Link messages.

ghost use Rattle.std.specs.Prelude.{◌≡◌, ◌≢◌, ◌+◌, ◌-◌, ◌<◌, ◌≤◌, ◌++◌, ◌↔◌, [], length, take, drop, IsTrue, IfOk};
ghost use Rattle.std.specs.Prelude.{IfErr, MatchResult, MatchBool};
ghost use Rattle.nla_wire.specs.Canon.{Filled, Measures};
ghost use Rattle.link_msg.specs.Header.{header_size, header_of};
ghost use Rattle.nla_wire.specs.Fields.{IsShort};
ghost use Rattle.nla_wire.specs.Gives.{Gives, Checks};
ghost use Rattle.nla_wire.specs.Grammar.{list};
ghost use Rattle.link_msg.specs.Tables.{attribute_place, Values};
ghost use Rattle.nla_wire.specs.declared.error.Cause.TheVariants.{OutOfMemory};

use crate::attribute::LinkAttribute;
use crate::header::{HEADER_SIZE, LinkHeader, LinkMessageBuffer, no_header};
use link_vals::AddressFamily;
use nla_wire::{
    CloneIn, DecodeError, Exact, List, fill_bytes, nlas_fill, nlas_measure, nlas_write,
};
use std::alloc::Global;

/// A link message: RTM_NEWLINK and its kin after the netlink header (rtnetlink(7)).
#[derive(Debug, Drop, PartialEq, Eq)]
pub struct LinkMessage {
    /// The 16 bytes at the front.
    pub header: LinkHeader,
    /// What stands after it, in the order of the bytes.
    pub attributes: List<LinkAttribute>,
}

/// The name of the place of a fault that no attribute holds.
pub(crate) const OUTERMOST: &str = "message";

/// The header, and the bytes after it.
#[inline(always)]
pub(crate) fn split_header(input: &[u8]) -> Result<(LinkHeader, &[u8]), DecodeError>
    ensures { MatchResult result
        (λ v. (header_size ≤ length input.now) × (v.0 ≡ header_of (take header_size input.now))
        × (v.1.now ≡ drop header_size input.now)) (IsShort input.now header_size) }
{
    if input.len() < HEADER_SIZE {
        return Err(no_header(input));
    }
    let (front, rest) = input.split_at(HEADER_SIZE);
    Ok((LinkHeader::parse(front)?, rest))
}

/// Whether the bytes after a header are attributes under its family, and the first fault if not, whose place is the
/// message where no attribute holds it.
pub(crate) fn check_attributes(rest: &[u8], family: AddressFamily) -> Result<(), DecodeError>
    ensures found { IfOk result
        (λ _. (vs : Values) × (list (attribute_place family)).means rest.now vs) }
    ensures fault { IfErr result (λ e. (list (attribute_place family)).bad rest.now e.cause) }
    ensures memory { IfErr result (λ e. e.cause ≢ OutOfMemory) }
    ensures reads { Checks result ((list (attribute_place family)).reads rest.now) }
{
    match LinkAttribute::check_list_with_param(rest, family) {
        Ok(()) => Ok(()),
        Err(error) => Err(error.within(OUTERMOST)),
    }
}

impl LinkMessage {
    ghost use Rattle.link_msg.specs.Header.{default_header};
    ghost use Rattle.link_msg.specs.Messages.{Means, FirstFault, MeansNothing, IsBounded, read_message, message_text};
    ghost use Rattle.link_msg.specs.Messages.{MessageFits, NoEmptyPorts};
    ghost use Rattle.link_msg.specs.declared.message.LinkMessage.{LinkMessage};

    /// The message with the default header and no attributes. It takes no memory.
    pub fn new(alloc: Global) -> LinkMessage
        ensures { result ≡ record { header = default_header; attributes = [] } }
    {
        LinkMessage {
            header: LinkHeader::default(),
            attributes: List::new(Vec::new(alloc)),
        }
    }

    /// Reads a message: a header of 16 bytes, and attributes under its family.
    ///
    /// Refuses `TooShort` below 16 bytes, else with the first fault of the attributes, front to back, each value before
    /// the next attribute; or `OutOfMemory`, which says nothing of the bytes. Four times the number of attributes, at
    /// all levels, is at most the number of bytes after the header; their canonical encoding is at most
    /// `growth_per_byte` times as long; and what was read from at most `small_enough` bytes after the header fits.
    pub fn parse(alloc: Global, input: &[u8]) -> Result<LinkMessage, DecodeError>
        ensures means { IfOk result (Means input.now) }
        ensures bounds { IfOk result (IsBounded input.now) }
        ensures fault { IfErr result (λ e. e.cause ≢ OutOfMemory → FirstFault input.now e.cause) }
        ensures refused { IfErr result (λ e. e.cause ≢ OutOfMemory → MeansNothing input.now) }
        ensures reads { Gives result (read_message input.now) }
    {
        LinkMessage::parse_input(alloc, input)
    }

    /// What `parse` does; for the proof: its clause cites the reader alone, and those of `parse` follow.
    #[tactic(auto, unfolding(crate::specs::Messages::read_message))]
    fn parse_input(alloc: Global, input: &[u8]) -> Result<LinkMessage, DecodeError>
        ensures { Gives result (read_message input.now) }
    {
        let (header, rest) = split_header(input)?;
        match LinkAttribute::parse_list_with_param(alloc, rest, header.interface_family) {
            Ok(attributes) => Ok(LinkMessage {
                header,
                attributes: List::new(attributes),
            }),
            Err(error) => Err(error.within(OUTERMOST)),
        }
    }

    /// Whether the bytes are a message: `Ok` exactly where `parse` reads one, else the first fault. It takes no memory,
    /// and never returns `OutOfMemory`.
    pub fn check(input: &[u8]) -> Result<(), DecodeError>
        ensures found { IfOk result (λ _. (m : LinkMessage) × Means input.now m) }
        ensures fault { IfErr result (λ e. FirstFault input.now e.cause) }
        ensures refused { IfErr result (λ e. MeansNothing input.now) }
        ensures memory { IfErr result (λ e. e.cause ≢ OutOfMemory) }
        ensures reads { Checks result (read_message input.now) }
    {
        LinkMessage::check_input(input)
    }

    /// What `check` does; for the proof: its clause cites the reader alone, and those of `check` follow.
    #[tactic(auto, unfolding(crate::specs::Messages::read_message))]
    fn check_input(input: &[u8]) -> Result<(), DecodeError>
        ensures { Checks result (read_message input.now) }
    {
        let (header, rest) = split_header(input)?;
        check_attributes(rest, header.interface_family)
    }

    /// The length of the canonical encoding, or `None` where the message does not fit: one walk over the values.
    #[inline(always)]
    #[tactic(auto, using(crate::proofs::Messaging::text_length))]
    pub(crate) fn measured(&self) -> Option<usize>
        ensures { Measures (MessageFits self.now) (length (message_text self.now)) result }
    {
        match nlas_measure(self.attributes.as_slice()) {
            Some(len) => len.checked_add(HEADER_SIZE),
            None => None,
        }
    }

    /// Whether each attribute fits, and the length of the encoding is a `usize`.
    pub fn fits(&self) -> bool
        ensures { IsTrue result ↔ MessageFits self.now }
    {
        self.measured().is_some()
    }

    /// The length of the canonical encoding.
    pub fn buffer_len(&self) -> usize
        requires { MessageFits self.now }
        ensures { result ≡ length (message_text self.now) }
    {
        match self.measured() {
            Some(len) => len,
            None => unreachable!(),
        }
    }

    /// Fills the last bytes of the buffer with the canonical encoding, and returns the place of its first byte. Earlier
    /// bytes are kept.
    #[tactic(auto, using(crate::proofs::Messaging::text_length))]
    pub fn fill(&self, buffer: &mut [u8]) -> usize
        requires fits { MessageFits self.now }
        requires room { length (message_text self.now) ≤ length buffer.old }
        ensures { Filled buffer.old buffer.new (message_text self.now) result }
    {
        let start = nlas_fill(self.attributes.as_slice(), buffer);
        let header = LinkMessageBuffer::from(&self.header);
        fill_bytes(&mut buffer[..start], header.as_bytes())
    }

    /// Writes the canonical encoding to the front of the buffer, and keeps the rest.
    #[tactic(auto, using(crate::proofs::Messaging::text_length))]
    pub fn emit(&self, buffer: &mut [u8])
        requires fits { MessageFits self.now }
        requires room { length (message_text self.now) ≤ length buffer.old }
        ensures { buffer.new
            ≡ message_text self.now ++ drop (length (message_text self.now)) buffer.old }
    {
        self.header.emit(buffer);
        let _len = nlas_write(self.attributes.as_slice(), &mut buffer[HEADER_SIZE..]);
    }

    /// Whether some attribute is an empty list of ports. It is read, it fits, and `emit` writes it; but it has no
    /// canonical encoding, so that `canonical` and `to_vec` refuse its message.
    pub fn has_empty_ports(&self) -> bool
        ensures { MatchBool result (NoEmptyPorts self.now → ⊥) (NoEmptyPorts self.now) }
    {
        for attribute in self.attributes.as_slice() {
            if attribute.is_empty_ports() {
                return true;
            }
        }
        false
    }
}

impl CloneIn for LinkMessage {
    fn clone_in(&self, alloc: Global) -> Result<LinkMessage, DecodeError> {
        Ok(LinkMessage {
            header: self.header,
            attributes: self.attributes.clone_in(alloc)?,
        })
    }
}

impl Exact for LinkMessage {
    ghost use Rattle.nla_wire.specs.Decided.{list_exact};
    ghost use Rattle.link_msg.specs.contracts.attribute.LinkAttributeExact.TheImpl.Laws.{
      decides-law as attribute_exact,
    };
    ghost use Rattle.link_msg.specs.contracts.header.LinkHeaderExact.TheImpl.Laws.{decides-law as header_exact};
    ghost use Rattle.link_msg.specs.MessageExact.{message_decides};

    ghost decides = { message_decides header_exact (list_exact attribute_exact) };
}
