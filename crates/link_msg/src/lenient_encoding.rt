//! Canonical encoding of what bytes mean leniently.

ghost use Rattle.std.specs.Prelude.{◌≡◌, ◌≢◌, ◌+◌, ◌-◌, ◌^◌, ◌<◌, ◌≤◌, ◌++◌, length, MatchBool, IfOk, IfErr, Ok};
ghost use Rattle.nla_wire.specs.Grammar.{list};
ghost use Rattle.nla_wire.specs.Canon.{canons, AllFit, HasRoom, Rewrites};
ghost use Rattle.link_msg.specs.Header.{header_size, header_bytes};
ghost use Rattle.link_msg.specs.Tables.{attribute_frame, AttributeFits, NotEmptyPorts, Values};
ghost use Rattle.nla_wire.specs.declared.error.Cause.TheVariants.{OutOfMemory};
ghost use Rattle.link_msg.specs.Canonical.{ListWeighs};
ghost use Rattle.link_msg.specs.Lenient.{lenient_place, TellsPorts, IsLenientlyMeasured};
ghost use Rattle.link_msg.specs.Lenient.{IsLenientRefusalAlone, IsLenientlyWithin, IsLenientRefusal, HasLenientText};
ghost use Rattle.link_msg.specs.Lenient.{HasLenientLength, HoldsLenientText, IsLenientlyWritten};
ghost use Rattle.link_msg.specs.declared.attribute.LinkAttribute.{LinkAttribute};

use crate::encoding::{CanonError, RoomError, canonical, canonical_len, canonical_within};
use crate::header::{HEADER_SIZE, LinkHeader};
use crate::lenient::LenientPlace;
use crate::message::{OUTERMOST, split_header};
use crate::numbers::IFLA_VF_PORTS;
use crate::place::AttributePlace;
use link_vals::AddressFamily;
use nla_wire::{
    DecodeError, NlaBuffer, NlasIterator, Place, check_members, measure_members, write_members,
};
use std::alloc::Global;

/// The number of the lenient canonical form: any change of any message's lenient canonical encoding raises it, and so
/// does each that raises `CANONICAL_FORM`. A table that reads what was refused before changes lenient encodings alone.
/// Encodings of different numbers are not to be compared, so a store keeps the number beside its keys.
pub const LENIENT_FORM: u32 = 1;

/// Whether a frame is an empty list of ports: one that is refused, as one of no bytes, is none.
fn is_no_port(frame: &NlaBuffer<'_>, family: AddressFamily) -> bool
    ensures { (v : LinkAttribute) → (lenient_place family).reads frame.now ≡ Ok v
        → MatchBool result (NotEmptyPorts v → ⊥) (NotEmptyPorts v) }
{
    frame.is_frame();
    if frame.kind() != IFLA_VF_PORTS {
        return false;
    }
    match (AttributePlace { family }).measure(frame) {
        Some(len) => len == 0,
        None => false,
    }
}

/// Whether an empty list of ports is among the attributes.
fn holds_no_port(bytes: &[u8], family: AddressFamily) -> bool
    ensures { TellsPorts family bytes.now result }
{
    for item in NlasIterator::new(bytes) {
        let Ok(frame) = item else {
            return false;
        };
        if is_no_port(&frame, family) {
            return true;
        }
    }
    false
}

/// The length of the lenient canonical encoding of a list of attributes, and whether an empty list of ports is among
/// them; `None` where one does not fit, or bytes are no frame.
fn weigh(bytes: &[u8], family: AddressFamily) -> Option<(usize, bool)>
    ensures { ListWeighs ((list (lenient_place family)).reads bytes.now) result }
{
    match measure_members(&LenientPlace { family }, bytes) {
        Some(len) => Some((len, holds_no_port(bytes, family))),
        None => None,
    }
}

/// Whether the bytes after a header are frames that fit, and the first fault if not.
fn check_frames(rest: &[u8], family: AddressFamily) -> Result<(), DecodeError>
    ensures found { IfOk result
        (λ _. (vs : Values) × (list (lenient_place family)).means rest.now vs) }
    ensures fault { IfErr result (λ e. (list (lenient_place family)).bad rest.now e.cause) }
    ensures memory { IfErr result (λ e. e.cause ≢ OutOfMemory) }
{
    match check_members(&LenientPlace { family }, rest) {
        Ok(()) => Ok(()),
        Err(error) => Err(error.within(OUTERMOST)),
    }
}

/// The header of a message, the bytes after it, and the length of their lenient canonical encoding, without memory.
fn measure_lenient(input: &[u8]) -> Result<(LinkHeader, &[u8], usize), CanonError>
    ensures ok { IfOk result (λ w. IsLenientlyMeasured input.now w.0 w.1.now w.2) }
    ensures room { IfOk result (λ w. header_size + w.2 < 2 ^ 64) }
    ensures err { IfErr result (IsLenientRefusalAlone input.now) }
{
    let (header, rest) = split_header(input)?;
    let family = header.interface_family;
    let Some((len, empty)) = weigh(rest, family) else {
        check_frames(rest, family)?;
        return Err(CanonError::DoesNotFit);
    };
    if len > usize::MAX - HEADER_SIZE {
        return Err(CanonError::DoesNotFit);
    }
    if empty {
        return Err(CanonError::EmptyVfPorts);
    }
    Ok((header, rest, len))
}

/// Writes the lenient canonical encoding of a message that was measured to the front of the buffer, and returns its
/// length.
fn write_lenient(header: &LinkHeader, rest: &[u8], out: &mut [u8]) -> usize
    requires measured { HasRoom (canons attribute_frame) (AllFit AttributeFits attribute_frame)
        ((list (lenient_place header.now.interface_family)).reads rest.now)
        (length out.old - header_size) }
    requires long { header_size ≤ length out.old }
    ensures { Rewrites (λ vs. header_bytes header.now ++ canons attribute_frame vs)
        ((list (lenient_place header.now.interface_family)).reads rest.now) out.old
        out.new result }
{
    header.emit(out);
    let place = LenientPlace {
        family: header.interface_family,
    };
    HEADER_SIZE + write_members(&place, rest, &mut out[HEADER_SIZE..])
}

/// What `canonical_lenient_within` does where the strict reading refuses the bytes.
fn within_kept(input: &[u8], out: &mut [u8]) -> Result<usize, RoomError>
    ensures { IsLenientlyWithin input.now out.old out.new result }
{
    let (header, rest, len) = measure_lenient(input)?;
    if out.len() < HEADER_SIZE + len {
        return Err(RoomError::NoRoom {
            wanted: HEADER_SIZE + len,
        });
    }
    Ok(write_lenient(&header, rest, out))
}

/// Writes what the bytes mean leniently, in canonical encoding, to the front of a buffer of any size, without memory,
/// and returns its length. The rest of the buffer is kept.
///
/// Refuses as `canonical_lenient_len` does, and `NoRoom` exactly where the encoding is longer than the buffer. After a
/// refusal the buffer is unchanged. Where the bytes are accepted strictly this is what `canonical_within` does.
#[tactic(auto, using(crate::proofs::Stays::is_unfit, crate::proofs::Stays::has_ports))]
pub fn canonical_lenient_within(input: &[u8], out: &mut [u8]) -> Result<usize, RoomError>
    ensures { IsLenientlyWithin input.now out.old out.new result }
{
    match canonical_within(input, out) {
        Ok(len) => Ok(len),
        Err(refusal) => match refusal {
            RoomError::NoRoom { wanted } => Err(RoomError::NoRoom { wanted }),
            RoomError::NoEncoding(error) => match error {
                CanonError::Decode(_) => within_kept(input, out),
                CanonError::DoesNotFit => Err(RoomError::NoEncoding(CanonError::DoesNotFit)),
                CanonError::EmptyVfPorts => Err(RoomError::NoEncoding(CanonError::EmptyVfPorts)),
                CanonError::OutOfMemory => Err(RoomError::NoEncoding(CanonError::OutOfMemory)),
            },
        },
    }
}

/// The lenient canonical encoding in memory of its own, where the strict reading refuses the bytes.
fn canonical_kept(alloc: Global, input: &[u8]) -> Result<Vec<u8>, CanonError>
    ensures ok { IfOk result (λ t. HasLenientText input.now t.items) }
    ensures err { IfErr result (IsLenientRefusal input.now) }
{
    let (header, rest, len) = measure_lenient(input)?;
    let mut encoding = Vec::with_capacity(alloc, HEADER_SIZE + len)?;
    encoding.resize(HEADER_SIZE + len, 0)?;
    let _len = write_lenient(&header, rest, encoding.as_mut_slice());
    Ok(encoding)
}

/// What the bytes mean leniently, in canonical encoding of the form `LENIENT_FORM`.
///
/// Where `canonical` has an encoding, this is it. The encoding means leniently the same message, and its attributes are
/// at most `growth_per_byte` times as long as those read. Refuses as `canonical_lenient_len` does, or with
/// `OutOfMemory`.
#[tactic(auto, using(crate::proofs::Stays::of_text, crate::proofs::Stays::is_unfit, crate::proofs::Stays::has_ports))]
pub fn canonical_lenient(alloc: Global, input: &[u8]) -> Result<Vec<u8>, CanonError>
    ensures ok { IfOk result (λ t. HasLenientText input.now t.items) }
    ensures err { IfErr result (IsLenientRefusal input.now) }
{
    match canonical(alloc, input) {
        Ok(encoding) => Ok(encoding),
        Err(error) => match error {
            CanonError::Decode(_) => canonical_kept(alloc, input),
            CanonError::DoesNotFit => Err(CanonError::DoesNotFit),
            CanonError::EmptyVfPorts => Err(CanonError::EmptyVfPorts),
            CanonError::OutOfMemory => Err(CanonError::OutOfMemory),
        },
    }
}

/// The length of the lenient canonical encoding where the strict reading refuses the bytes.
fn len_kept(input: &[u8]) -> Result<usize, CanonError>
    ensures { HasLenientLength input.now result }
{
    let (_header, _rest, len) = measure_lenient(input)?;
    Ok(HEADER_SIZE + len)
}

/// The length of the canonical encoding of what the bytes mean leniently, without memory.
///
/// Refuses, in this order: `Decode` where a header is too short or a frame does not fit, with the first such fault;
/// `DoesNotFit`; `EmptyVfPorts`; and never `OutOfMemory`.
#[tactic(auto, using(crate::proofs::Stays::is_unfit, crate::proofs::Stays::has_ports))]
pub fn canonical_lenient_len(input: &[u8]) -> Result<usize, CanonError>
    ensures { HasLenientLength input.now result }
{
    match canonical_len(input) {
        Ok(len) => Ok(len),
        Err(error) => match error {
            CanonError::Decode(_) => len_kept(input),
            CanonError::DoesNotFit => Err(CanonError::DoesNotFit),
            CanonError::EmptyVfPorts => Err(CanonError::EmptyVfPorts),
            CanonError::OutOfMemory => Err(CanonError::OutOfMemory),
        },
    }
}

/// Writes what the bytes mean leniently, in canonical encoding, to the front of the buffer, without memory, and returns
/// its length. The rest of the buffer is kept.
///
/// The buffer has room for the encoding: `growth_per_byte` times as many bytes as the input are enough, and so are
/// those that `canonical_lenient_len` returns. Refuses as that does. After a refusal the buffer is unchanged.
pub fn canonical_lenient_into(input: &[u8], out: &mut [u8]) -> Result<usize, CanonError>
    requires { HoldsLenientText input.now (length out.old) }
    ensures { IsLenientlyWritten input.now out.old out.new result }
{
    match canonical_lenient_within(input, out) {
        Ok(len) => Ok(len),
        Err(RoomError::NoEncoding(error)) => Err(error),
        // for the proof: never taken, since there is room
        Err(RoomError::NoRoom { wanted }) => Ok(wanted),
    }
}
