//! Wireless events.

ghost use Rattle.std.specs.Prelude.{◌≡◌, ◌≢◌, ◌+◌, ◌≤◌, ◌↔◌, ◌⊎◌, length, IsTrue, IfOk, IfErr};
ghost use Rattle.std.specs.Int.{to_le_bytes};
ghost use Rattle.nla_wire.specs.Sizes.{most_payload};
ghost use Rattle.nla_wire.specs.Canon.{Filled, Weighs, HasRoom, Rewrites, RoomWhereFit, Canonical, Writes};
ghost use Rattle.nla_wire.specs.Canon.{MeansLength, MeansEncoding, MeansWritten};
ghost use Rattle.nla_wire.specs.Gives.{Gives, Checks};
ghost use Rattle.nla_wire.specs.declared.error.Cause.TheVariants.{OutOfMemory};
ghost use Rattle.link_nest.specs.Wireless.{wireless_event, wireless_encoding, WirelessFits};
ghost use Rattle.link_nest.specs.Wireless.{event_encoding, event_header};

use crate::numbers::{IWEVASSOCREQIE, IWEVASSOCRESPIE};
use nla_wire::fields::{too_short, u16_at};
use nla_wire::{
    Bytes, CloneIn, DecodeError, Exact, MOST_VALUE_LEN, fill_bytes, to_u16, write_bytes,
};
use std::alloc::Global;

/// The bytes of an event's header: its length and its command of two bytes each, and padding of four bytes.
const HEADER_LEN: usize = 8;

/// The value of IFLA_WIRELESS: an event of the wireless extensions (`struct iw_event` of linux/wireless.h).
///
/// A length of two bytes, which counts the whole event and is not looked at when it is read, a command of two bytes,
/// four bytes of padding, and then the event's bytes. On a 64-bit machine the two events that are read begin, after the
/// padding, with the length and the flags of their data, two bytes each, and four more of padding: these are kept as
/// the first eight of the event's bytes.
#[derive(Debug, Drop, PartialEq, Eq)]
pub enum WirelessEvent {
    /// IWEVASSOCREQIE: the information elements of an association request.
    AssociateRequest(Bytes),
    /// IWEVASSOCRESPIE: the information elements of an association response.
    AssociateResponse(Bytes),
    /// Any other command: the whole payload, header and all.
    Other(Bytes),
}

/// The header of an event.
fn header_of(len: u16, command: u16) -> [u8; 8]
    ensures { result ≡ event_header len command }
{
    let [len_low, len_high] = len.to_le_bytes();
    let [command_low, command_high] = command.to_le_bytes();
    [len_low, len_high, command_low, command_high, 0, 0, 0, 0]
}

/// Fills the last bytes of the buffer with an event and its header, and returns the place of the first.
fn fill_event(buffer: &mut [u8], command: u16, bytes: &[u8]) -> usize
    requires small { 8 + length bytes.now ≤ most_payload }
    requires room { 8 + length bytes.now ≤ length buffer.old }
    ensures { Filled buffer.old buffer.new (event_encoding command bytes.now) result }
{
    let start = fill_bytes(buffer, bytes);
    let header = header_of(to_u16(HEADER_LEN + bytes.len()), command);
    fill_bytes(&mut buffer[..start], &header)
}

/// Writes an event with its header to the front of the buffer, and returns its length.
fn write_event(out: &mut [u8], command: u16, bytes: &[u8]) -> usize
    requires small { 8 + length bytes.now ≤ most_payload }
    requires room { 8 + length bytes.now ≤ length out.old }
    ensures { Writes (event_encoding command bytes.now) out.old out.new result }
{
    let end = HEADER_LEN + bytes.len();
    out[..HEADER_LEN].copy_from_slice(&header_of(to_u16(end), command));
    out[HEADER_LEN..end].copy_from_slice(bytes);
    end
}

impl WirelessEvent {
    /// Reads an event: a request or a response keeps the bytes after its header, and any other event the whole
    /// payload.
    ///
    /// Refuses a payload of fewer than 8 bytes with `TooShort`, and out of memory with `OutOfMemory`.
    #[tactic(auto, unfolding(nla_wire::specs::Payloads::read_sized))]
    pub fn parse(alloc: Global, payload: &[u8]) -> Result<WirelessEvent, DecodeError>
        ensures means { IfOk result (wireless_event.means payload.now) }
        ensures refused { IfErr result
            (λ e. (e.cause ≡ OutOfMemory) ⊎ wireless_event.bad payload.now e.cause) }
        ensures reads { Gives result (wireless_event.reads payload.now) }
    {
        if payload.len() < HEADER_LEN {
            return Err(too_short(payload.len(), HEADER_LEN));
        }
        match u16_at(payload, 2) {
            IWEVASSOCREQIE => Bytes::from_slice(alloc, &payload[8..]).map(
                WirelessEvent::AssociateRequest,
            ),
            IWEVASSOCRESPIE => Bytes::from_slice(alloc, &payload[8..]).map(
                WirelessEvent::AssociateResponse,
            ),
            _ => Bytes::from_slice(alloc, payload).map(WirelessEvent::Other),
        }
    }

    /// `Ok` where a payload is an event, else the fault; for the proof: its clause cites the reader alone, and those of
    /// `check` follow.
    #[tactic(auto, unfolding(nla_wire::specs::Payloads::read_sized))]
    fn check_len(payload: &[u8]) -> Result<(), DecodeError>
        ensures { Checks result (wireless_event.reads payload.now) }
    {
        if payload.len() < HEADER_LEN {
            return Err(too_short(payload.len(), HEADER_LEN));
        }
        Ok(())
    }

    /// Whether a payload is an event, with no memory taken: `Ok` where `parse` reads it, else `TooShort`.
    pub fn check(payload: &[u8]) -> Result<(), DecodeError>
        ensures found { IfOk result
            (λ _. (v : WirelessEvent) × wireless_event.means payload.now v) }
        ensures fault { IfErr result (λ e. wireless_event.bad payload.now e.cause) }
        ensures refused { IfErr result
            (λ e. (v : WirelessEvent) → wireless_event.means payload.now v → ⊥) }
        ensures memory { IfErr result (λ e. e.cause ≢ OutOfMemory) }
        ensures reads { Checks result (wireless_event.reads payload.now) }
    {
        WirelessEvent::check_len(payload)
    }

    /// The length of the encoding of the event that a payload means, with no memory taken: `None` where it has more
    /// than 65531 bytes, or the payload is refused.
    #[tactic(auto, unfolding(nla_wire::specs::Payloads::read_sized))]
    pub fn measure(payload: &[u8]) -> Option<usize>
        ensures means { MeansLength (wireless_event.means payload.now) wireless_encoding
            WirelessFits result }
        ensures reads { Weighs wireless_encoding WirelessFits (wireless_event.reads payload.now)
            result }
    {
        if payload.len() < HEADER_LEN || payload.len() > MOST_VALUE_LEN {
            return None;
        }
        Some(payload.len())
    }

    /// Writes the encoding of the event that a payload means, which was measured, to the front of the buffer, and
    /// returns its length. The rest of the buffer is kept.
    #[tactic(auto, unfolding(nla_wire::specs::Payloads::read_sized))]
    pub fn write(payload: &[u8], out: &mut [u8]) -> usize
        requires { HasRoom wireless_encoding WirelessFits (wireless_event.reads payload.now)
            (length out.old) }
        ensures means { MeansWritten (wireless_event.means payload.now) wireless_encoding
            out.old out.new result }
        ensures reads { Rewrites wireless_encoding (wireless_event.reads payload.now)
            out.old out.new result }
    {
        match u16_at(payload, 2) {
            IWEVASSOCREQIE => write_event(out, IWEVASSOCREQIE, &payload[8..]),
            IWEVASSOCRESPIE => write_event(out, IWEVASSOCRESPIE, &payload[8..]),
            _ => write_bytes(payload, out),
        }
    }

    /// Writes the encoding of the event that a payload means to the front of the buffer, with no memory taken, and
    /// returns its length. The rest of the buffer is kept.
    ///
    /// There is room for that encoding: as many bytes as the payload has are enough. Returns `None` where the encoding
    /// has more than 65531 bytes or the payload is refused, and changes nothing then.
    pub fn canon(payload: &[u8], out: &mut [u8]) -> Option<usize>
        requires room { RoomWhereFit wireless_encoding WirelessFits
            (wireless_event.reads payload.now) (length out.old) }
        ensures means { MeansEncoding (wireless_event.means payload.now) wireless_encoding
            WirelessFits out.old out.new result }
        ensures reads { Canonical wireless_encoding WirelessFits
            (wireless_event.reads payload.now) out.old out.new result }
    {
        let Some(_len) = WirelessEvent::measure(payload) else {
            return None;
        };
        Some(WirelessEvent::write(payload, out))
    }

    /// Whether the encoding has at most 65531 bytes.
    pub fn fits(&self) -> bool
        ensures { IsTrue result ↔ WirelessFits self.now }
    {
        match self {
            WirelessEvent::AssociateRequest(bytes) => bytes.len() <= MOST_VALUE_LEN - HEADER_LEN,
            WirelessEvent::AssociateResponse(bytes) => bytes.len() <= MOST_VALUE_LEN - HEADER_LEN,
            WirelessEvent::Other(bytes) => bytes.len() <= MOST_VALUE_LEN,
        }
    }

    /// The length of the encoding in bytes.
    pub fn buffer_len(&self) -> usize
        requires { WirelessFits self.now }
        ensures { result ≡ length (wireless_encoding self.now) }
    {
        match self {
            WirelessEvent::AssociateRequest(bytes) => HEADER_LEN + bytes.len(),
            WirelessEvent::AssociateResponse(bytes) => HEADER_LEN + bytes.len(),
            WirelessEvent::Other(bytes) => bytes.len(),
        }
    }

    /// Fills the last bytes of the buffer with the encoding, and returns the place of its first byte. Earlier bytes are
    /// kept.
    pub fn fill(&self, buffer: &mut [u8]) -> usize
        requires fits { WirelessFits self.now }
        requires room { length (wireless_encoding self.now) ≤ length buffer.old }
        ensures { Filled buffer.old buffer.new (wireless_encoding self.now) result }
    {
        match self {
            WirelessEvent::AssociateRequest(bytes) => fill_event(
                buffer,
                IWEVASSOCREQIE,
                bytes.as_slice(),
            ),
            WirelessEvent::AssociateResponse(bytes) => fill_event(
                buffer,
                IWEVASSOCRESPIE,
                bytes.as_slice(),
            ),
            WirelessEvent::Other(bytes) => fill_bytes(buffer, bytes.as_slice()),
        }
    }

    /// Writes the encoding into a buffer of exactly its length.
    pub fn emit(&self, buffer: &mut [u8])
        requires fits { WirelessFits self.now }
        requires exact { length buffer.old ≡ length (wireless_encoding self.now) }
        ensures { buffer.new ≡ wireless_encoding self.now }
    {
        let _start = self.fill(buffer);
    }
}

impl CloneIn for WirelessEvent {
    fn clone_in(&self, alloc: Global) -> Result<WirelessEvent, DecodeError> {
        match self {
            WirelessEvent::AssociateRequest(bytes) => {
                bytes.clone_in(alloc).map(WirelessEvent::AssociateRequest)
            }
            WirelessEvent::AssociateResponse(bytes) => {
                bytes.clone_in(alloc).map(WirelessEvent::AssociateResponse)
            }
            WirelessEvent::Other(bytes) => bytes.clone_in(alloc).map(WirelessEvent::Other),
        }
    }
}

impl Exact for WirelessEvent {
    ghost use Rattle.std.proofs.Common.{rules};

    ghost decides = { Prim.search rules };
}
