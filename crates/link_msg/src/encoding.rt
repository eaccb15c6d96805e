//! One canonical encoding for each message.

ghost use Rattle.std.specs.Prelude.{◌≡◌, ℕ, ◌+◌, ◌-◌, ◌^◌, ◌<◌, ◌≤◌, ◌++◌, ◌↔◌, List, length, take, replicate};
ghost use Rattle.std.specs.Prelude.{IsTrue, IfOk, IfErr};
ghost use Rattle.nla_wire.specs.Frames.{IsBytes};
ghost use Rattle.nla_wire.specs.Grammar.{list};
ghost use Rattle.nla_wire.specs.Canon.{canons, AllFit, HasRoom, Rewrites, Writes};
ghost use Rattle.link_msg.specs.Header.{header_size, header_bytes};
ghost use Rattle.link_msg.specs.Tables.{attribute_frame, AttributeFits, attribute_place};
ghost use Rattle.link_msg.specs.CanonErrors.{SameRefusal, SameRoomRefusal};
ghost use Rattle.link_msg.specs.Prefixes.{IsPrefix};
ghost use Rattle.link_msg.specs.Canonical.{IsRefusal, IsRefusalAlone, IsMeasured, HasLength, HasText};
ghost use Rattle.link_msg.specs.Canonical.{HoldsText, AreSame, IsRefusalOfTwo, IsWritten, IsWithin};

use crate::attribute::LinkAttribute;
use crate::header::{HEADER_SIZE, LinkHeader, LinkMessageBuffer};
use crate::message::{LinkMessage, check_attributes, split_header};
use crate::place::AttributePlace;
use nla_wire::{Cause, DecodeError, write_members};
use std::alloc::{AllocError, Global};
use thiserror::Error;

/// Why there is no canonical encoding.
#[derive(Clone, Copy, Debug, PartialEq, Eq, Error)]
pub enum CanonError {
    /// Refusal 1: the bytes are no message. The cause is never `OutOfMemory`.
    #[error("no message: {0}")]
    Decode(DecodeError),
    /// Refusal 2: the message does not fit.
    #[error("the message does not fit")]
    DoesNotFit,
    /// Refusal 3: the message fits, and holds an empty list of ports, which has no canonical encoding.
    #[error("an empty list of ports")]
    EmptyVfPorts,
    /// Refusal 4: no memory was left. It says nothing of the bytes.
    #[error("out of memory")]
    OutOfMemory,
}

impl CanonError {
    ghost use Rattle.link_msg.specs.CanonErrors.{canon_error_number};

    /// The number of the refusal, 1 to 4 in the order of the variants.
    pub fn number(&self) -> u8
        ensures { result ≡ canon_error_number self.now }
    {
        match self {
            CanonError::Decode(_) => 1,
            CanonError::DoesNotFit => 2,
            CanonError::EmptyVfPorts => 3,
            CanonError::OutOfMemory => 4,
        }
    }
}

/// Whether two refusals are equal.
pub fn same_refusal(one: &CanonError, other: &CanonError) -> bool
    ensures { IsTrue result ↔ SameRefusal one.now other.now }
{
    one == other
}

impl From<AllocError> for CanonError {
    ghost use Rattle.link_msg.specs.declared.encoding.CanonError.TheVariants.{OutOfMemory};

    ghost from_gives = { λ _ e. e ≡ OutOfMemory };

    fn from(_error: AllocError) -> CanonError {
        CanonError::OutOfMemory
    }
}

impl From<DecodeError> for CanonError {
    ghost use Rattle.link_msg.specs.CanonErrors.{refusal_of};

    ghost from_gives = { λ e r. r ≡ refusal_of e };

    fn from(error: DecodeError) -> CanonError {
        match error.cause {
            Cause::OutOfMemory => CanonError::OutOfMemory,
            _ => CanonError::Decode(error),
        }
    }
}

/// The header of a message, the bytes after it, the length of their canonical encoding, and how many of them in front
/// are canonical as they are spelled, without memory.
fn measure(input: &[u8]) -> Result<(LinkHeader, &[u8], usize, usize), CanonError>
    ensures ok { IfOk result (λ w. IsMeasured input.now w.0 w.1.now w.2) }
    ensures room { IfOk result (λ w. header_size + w.2 < 2 ^ 64) }
    ensures prefix { IfOk result (λ w. IsPrefix w.0.interface_family w.1.now w.3) }
    ensures err { IfErr result (IsRefusalAlone input.now) }
{
    let (header, rest) = split_header(input)?;
    let family = header.interface_family;
    let Some((len, empty, prefix)) = LinkAttribute::measure_list_with_param(rest, family) else {
        check_attributes(rest, family)?;
        return Err(CanonError::DoesNotFit);
    };
    if len > usize::MAX - HEADER_SIZE {
        return Err(CanonError::DoesNotFit);
    }
    if empty {
        return Err(CanonError::EmptyVfPorts);
    }
    Ok((header, rest, len, prefix))
}

/// Writes the canonical encoding of the attributes after the copied prefix, where the header and the prefix stand in
/// the buffer, and returns the length of the message's encoding.
fn write_after_prefix(header: &LinkHeader, rest: &[u8], prefix: usize, out: &mut [u8]) -> usize
    requires begins { IsPrefix header.now.interface_family rest.now prefix }
    requires measured { HasRoom (canons attribute_frame) (AllFit AttributeFits attribute_frame)
        ((list (attribute_place header.now.interface_family)).reads rest.now)
        (length out.old - header_size) }
    requires long { header_size ≤ length out.old }
    ensures { (before : List ℕ) → Writes (header_bytes header.now ++ take prefix rest.now) before
        out.old (header_size + prefix)
        → Rewrites (λ vs. header_bytes header.now ++ canons attribute_frame vs)
        ((list (attribute_place header.now.interface_family)).reads rest.now) before
        out.new result }
{
    let start = HEADER_SIZE + prefix;
    let place = AttributePlace {
        family: header.interface_family,
    };
    start + write_members(&place, &rest[prefix..], &mut out[start..])
}

/// Writes the canonical encoding of a message that was measured to the front of the buffer, and returns its length. The
/// prefix in front is copied at once.
fn write_message(header: &LinkHeader, rest: &[u8], prefix: usize, out: &mut [u8]) -> usize
    requires begins { IsPrefix header.now.interface_family rest.now prefix }
    requires measured { HasRoom (canons attribute_frame) (AllFit AttributeFits attribute_frame)
        ((list (attribute_place header.now.interface_family)).reads rest.now)
        (length out.old - header_size) }
    requires long { header_size ≤ length out.old }
    ensures { Rewrites (λ vs. header_bytes header.now ++ canons attribute_frame vs)
        ((list (attribute_place header.now.interface_family)).reads rest.now) out.old
        out.new result }
{
    header.emit(out);
    out[HEADER_SIZE..HEADER_SIZE + prefix].copy_from_slice(&rest[..prefix]);
    write_after_prefix(header, rest, prefix, out)
}

/// Memory for an encoding of this length, which begins with the header and the copied prefix, and ends with zeros.
fn begin_encoding(
    alloc: Global,
    header: &LinkHeader,
    prefix: &[u8],
    len: usize,
) -> Result<Vec<u8>, AllocError>
    requires { header_size + length prefix.now ≤ len }
    ensures { IfOk result (λ t. t.items ≡ header_bytes header.now ++ prefix.now
        ++ replicate (len - (header_size + length prefix.now)) 0) }
{
    let mut encoding = Vec::with_capacity(alloc, len)?;
    encoding.extend_from_slice(LinkMessageBuffer::from(header).as_bytes())?;
    encoding.extend_from_slice(prefix)?;
    encoding.resize(len, 0)?;
    Ok(encoding)
}

/// The canonical encoding of a message that was measured.
fn encoded(
    alloc: Global,
    header: &LinkHeader,
    rest: &[u8],
    len: usize,
    prefix: usize,
) -> Result<Vec<u8>, AllocError>
    requires begins { IsPrefix header.now.interface_family rest.now prefix }
    requires measured { (input : List ℕ) × IsMeasured input header.now rest.now len }
    requires room { header_size + len < 2 ^ 64 }
    ensures { IfOk result (λ t. (input : List ℕ) → IsBytes input
        → IsMeasured input header.now rest.now len → HasText input t.items) }
{
    let mut encoding = begin_encoding(alloc, header, &rest[..prefix], HEADER_SIZE + len)?;
    let _len = write_after_prefix(header, rest, prefix, encoding.as_mut_slice());
    Ok(encoding)
}

/// The number of the canonical form: any change of any message's canonical encoding raises it. Encodings of different
/// numbers are not to be compared, so a store keeps the number beside its keys.
pub const CANONICAL_FORM: u32 = 2;

/// The length of the canonical encoding of what the bytes mean, without memory.
///
/// Refuses, in this order: `Decode` with the first fault, `DoesNotFit`, `EmptyVfPorts`; and never `OutOfMemory`.
pub fn canonical_len(input: &[u8]) -> Result<usize, CanonError>
    ensures { HasLength input.now result }
{
    let (_header, _rest, len, _prefix) = measure(input)?;
    Ok(HEADER_SIZE + len)
}

/// What the bytes mean, in canonical encoding of the form `CANONICAL_FORM`.
///
/// The encoding means the same message, and its attributes are at most `growth_per_byte` times as long as
/// those read. Refuses as `canonical_len` does, or with `OutOfMemory`: the message is measured, memory for it is taken
/// once, and it is written.
#[tactic(auto, using(nla_wire::proofs::Front::all_bytes))]
pub fn canonical(alloc: Global, input: &[u8]) -> Result<Vec<u8>, CanonError>
    ensures ok { IfOk result (λ t. HasText input.now t.items) }
    ensures err { IfErr result (IsRefusal input.now) }
{
    let (header, rest, len, prefix) = measure(input)?;
    let encoding = encoded(alloc, &header, rest, len, prefix)?;
    Ok(encoding)
}

/// The most bytes of a canonical encoding that is compared with no memory of its own.
const SHORT: usize = 256;

/// The canonical encoding of a message that was measured, in front of zeros.
fn short_encoding(header: &LinkHeader, rest: &[u8], len: usize, prefix: usize) -> [u8; SHORT]
    requires begins { IsPrefix header.now.interface_family rest.now prefix }
    requires measured { (input : List ℕ) × IsMeasured input header.now rest.now len }
    requires short { header_size + len ≤ 256 }
    ensures { (input : List ℕ) → IsBytes input → IsMeasured input header.now rest.now len
        → HasText input (take (header_size + len) result) }
{
    let mut encoding = [0; SHORT];
    let _len = write_message(header, rest, prefix, &mut encoding[..HEADER_SIZE + len]);
    encoding
}

/// Whether two canonical encodings are equal; for the proof: a call of its own, whose clause gives `same_message` its
/// answer whole.
fn same_encoding(one: &[u8], other: &[u8]) -> bool
    ensures { (a : List ℕ) → (b : List ℕ) → IsBytes a → IsBytes b → HasText a one.now
        → HasText b other.now → AreSame a b result }
{
    one == other
}

/// Whether two messages are equal whose attributes are canonical as they are spelled.
fn same_spelling(
    header: &LinkHeader,
    rest: &[u8],
    other_header: &LinkHeader,
    other_rest: &[u8],
) -> bool
    ensures { (a : List ℕ) → (b : List ℕ) → (n : ℕ) → (k : ℕ) → IsBytes a → IsBytes b
        → IsMeasured a header.now rest.now n → IsMeasured b other_header.now other_rest.now k
        → IsPrefix header.now.interface_family rest.now (length rest.now)
        → IsPrefix other_header.now.interface_family other_rest.now (length other_rest.now)
        → AreSame a b result }
{
    *header == *other_header && rest == other_rest
}

/// Whether two byte strings mean the same message, which is so exactly where their canonical encodings are equal.
///
/// Both have to mean messages that fit and hold no empty list of ports. Refuses as `canonical` does, each refusal of
/// the first before those of the second. Memory is taken for the two encodings where they have one length, more than
/// 256 bytes, and one of the messages is not canonical as it is spelled.
#[tactic(auto, using(nla_wire::proofs::Front::all_bytes))]
pub fn same_message(alloc: Global, first: &[u8], second: &[u8]) -> Result<bool, CanonError>
    ensures ok { IfOk result (AreSame first.now second.now) }
    ensures err { IfErr result (IsRefusalOfTwo first.now second.now) }
{
    let (header, rest, len, prefix) = measure(first)?;
    let (other_header, other_rest, other_len, other_prefix) = measure(second)?;
    if len != other_len {
        return Ok(false);
    }
    if prefix == rest.len() && other_prefix == other_rest.len() {
        return Ok(same_spelling(&header, rest, &other_header, other_rest));
    }
    if HEADER_SIZE + len <= SHORT {
        let one = short_encoding(&header, rest, len, prefix);
        let other = short_encoding(&other_header, other_rest, other_len, other_prefix);
        return Ok(same_encoding(&one[..HEADER_SIZE + len], &other[..HEADER_SIZE + other_len]));
    }
    let one = encoded(alloc, &header, rest, len, prefix)?;
    let other = encoded(alloc, &other_header, other_rest, other_len, other_prefix)?;
    Ok(same_encoding(one.as_slice(), other.as_slice()))
}

/// Why nothing was written to a buffer.
#[derive(Clone, Copy, Debug, PartialEq, Eq, Error)]
pub enum RoomError {
    /// There is no canonical encoding.
    #[error("{0}")]
    NoEncoding(CanonError),
    /// The canonical encoding has more bytes than the buffer.
    #[error("the canonical encoding has {wanted} bytes")]
    NoRoom {
        /// The bytes of the encoding.
        wanted: usize,
    },
}

/// Whether two such refusals are equal.
pub fn same_room_refusal(one: &RoomError, other: &RoomError) -> bool
    ensures { IsTrue result ↔ SameRoomRefusal one.now other.now }
{
    *one == *other
}

impl From<CanonError> for RoomError {
    ghost use Rattle.link_msg.specs.declared.encoding.RoomError.TheVariants.{NoEncoding};

    ghost from_gives = { λ e r. r ≡ NoEncoding e };

    fn from(error: CanonError) -> RoomError {
        RoomError::NoEncoding(error)
    }
}

/// Writes what the bytes mean, in canonical encoding, to the front of a buffer of any size, without memory, and returns
/// its length. The rest of the buffer is kept.
///
/// Refuses as `canonical_len` does, and `NoRoom` exactly where the encoding is longer than the buffer. After a refusal
/// the buffer is unchanged. The message must not change during the call: it is measured, and written then.
pub fn canonical_within(input: &[u8], out: &mut [u8]) -> Result<usize, RoomError>
    ensures { IsWithin input.now out.old out.new result }
{
    let (header, rest, len, prefix) = measure(input)?;
    if out.len() < HEADER_SIZE + len {
        return Err(RoomError::NoRoom {
            wanted: HEADER_SIZE + len,
        });
    }
    Ok(write_message(&header, rest, prefix, out))
}

/// Writes what the bytes mean, in canonical encoding, to the front of the buffer, without memory, and returns its
/// length. The rest of the buffer is kept.
///
/// The buffer has room for the encoding: `growth_per_byte` times as many bytes as the input are enough, and so are
/// those that `canonical_len` returns. Returns exactly what `canonical` returns with ample memory, and never
/// `OutOfMemory`. After a refusal the buffer is unchanged. The message must not change during the call.
pub fn canonical_into(input: &[u8], out: &mut [u8]) -> Result<usize, CanonError>
    requires { HoldsText input.now (length out.old) }
    ensures { IsWritten input.now out.old out.new result }
{
    match canonical_within(input, out) {
        Ok(len) => Ok(len),
        Err(RoomError::NoEncoding(error)) => Err(error),
        // for the proof: never taken, since there is room
        Err(RoomError::NoRoom { wanted }) => Ok(wanted),
    }
}
