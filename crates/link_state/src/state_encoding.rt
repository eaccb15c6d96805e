//! The state encoding of a message.

ghost use Rattle.std.specs.Prelude.{◌≡◌, ◌≤◌, ◌<◌, ◌^◌, length, IfOk, IfErr};
ghost use Rattle.link_msg.specs.Header.{header_size};
ghost use Rattle.link_msg.specs.Canonical.{HoldsText, IsRefusal, IsRefusalOfTwo};
ghost use Rattle.link_msg.specs.Lenient.{HoldsLenientText, IsLenientRefusal};
ghost use Rattle.link_state.specs.LenientState.{HasLenientState, HasLenientStateLength, IsLenientStateWithin};
ghost use Rattle.link_state.specs.LenientState.{IsLenientStateWritten};
ghost use Rattle.link_state.specs.State.{state, HasState, HaveSameState, IsStateWithin, IsStateWritten};

use crate::level::{Level, clear};
use crate::walk::fill_bytes;
use link_msg::header::HEADER_SIZE;
use link_msg::{
    CanonError, RoomError, canonical, canonical_lenient, canonical_lenient_len,
    canonical_lenient_within, canonical_within,
};
use link_vals::AddressFamily;
use std::alloc::Global;

/// The number of the state encoding: it is raised when the table of what moves by itself changes, and when the
/// canonical form does. Encodings of different numbers are not to be compared, so a store keeps the number beside its
/// keys.
pub const STATE_FORM: u32 = 2;

/// The place of the header's mask of changed flags, its last four bytes.
const CHANGE_MASK: usize = 12;

/// Makes the state encoding of a canonical encoding, in place.
fn clear_message(encoding: &mut [u8])
    requires { header_size ≤ length encoding.old }
    ensures { encoding.new ≡ state encoding.old }
{
    let level = Level::Message(AddressFamily::from(encoding[0]));
    fill_bytes::<0>(&mut encoding[CHANGE_MASK..HEADER_SIZE]);
    clear(&mut encoding[HEADER_SIZE..], level);
}

/// Writes the state encoding of what the bytes mean to the front of a buffer of any size, without memory, and returns
/// its length, which is that of the canonical encoding. The rest of the buffer is kept.
///
/// Refuses as `canonical_within` does, and with its causes: a fault, `DoesNotFit` and `EmptyVfPorts`, and `NoRoom`
/// exactly where the encoding is longer than the buffer. After a refusal the buffer is unchanged.
pub fn state_within(input: &[u8], out: &mut [u8]) -> Result<usize, RoomError>
    ensures { IsStateWithin input.now out.old out.new result }
{
    let len = canonical_within(input, out)?;
    clear_message(&mut out[..len]);
    Ok(len)
}

/// Writes the state encoding of what the bytes mean to the front of the buffer, without memory, and returns its length.
/// The rest of the buffer is kept.
///
/// The buffer has room for the canonical encoding, which is as long. Refuses as `canonical_into` does. After a refusal
/// the buffer is unchanged.
pub fn state_into(input: &[u8], out: &mut [u8]) -> Result<usize, CanonError>
    requires { HoldsText input.now (length out.old) }
    ensures { IsStateWritten input.now out.old out.new result }
{
    match state_within(input, out) {
        Ok(len) => Ok(len),
        Err(RoomError::NoEncoding(error)) => Err(error),
        // for the proof: never taken, since there is room
        Err(RoomError::NoRoom { wanted }) => Ok(wanted),
    }
}

/// The state encoding of what the bytes mean, of the form `STATE_FORM`: the canonical encoding with all that moves by
/// itself at zero.
///
/// Refuses as `canonical` does.
pub fn state(alloc: Global, input: &[u8]) -> Result<Vec<u8>, CanonError>
    ensures ok { IfOk result (λ s. HasState input.now s.items) }
    ensures err { IfErr result (IsRefusal input.now) }
{
    let mut encoding = canonical(alloc, input)?;
    clear_message(encoding.as_mut_slice());
    Ok(encoding)
}

/// Whether what two byte strings mean has one state encoding.
///
/// Refuses as `same_message` does, each refusal of the first before those of the second.
pub fn same_state(alloc: Global, first: &[u8], second: &[u8]) -> Result<bool, CanonError>
    ensures ok { IfOk result (HaveSameState first.now second.now) }
    ensures err { IfErr result (IsRefusalOfTwo first.now second.now) }
{
    let one = state(alloc, first)?;
    let other = state(alloc, second)?;
    Ok(one.as_slice() == other.as_slice())
}

/// Writes the state encoding of what the bytes mean leniently to the front of a buffer of any size, without memory, and
/// returns its length, which is that of the lenient canonical encoding. The rest of the buffer is kept.
///
/// Attributes that are kept raw because they are refused are cleared as others of their number are, in a list as far as
/// its first fault. Refuses as `canonical_lenient_within` does. After a refusal the buffer is unchanged.
pub fn state_lenient_within(input: &[u8], out: &mut [u8]) -> Result<usize, RoomError>
    ensures { IsLenientStateWithin input.now out.old out.new result }
{
    let len = canonical_lenient_within(input, out)?;
    clear_message(&mut out[..len]);
    Ok(len)
}

/// Writes the state encoding of what the bytes mean leniently to the front of the buffer, without memory, and returns
/// its length. The rest of the buffer is kept.
///
/// The buffer has room for the lenient canonical encoding, which is as long. Refuses as `canonical_lenient_into` does.
/// After a refusal the buffer is unchanged.
pub fn state_lenient_into(input: &[u8], out: &mut [u8]) -> Result<usize, CanonError>
    requires { HoldsLenientText input.now (length out.old) }
    ensures { IsLenientStateWritten input.now out.old out.new result }
{
    match state_lenient_within(input, out) {
        Ok(len) => Ok(len),
        Err(RoomError::NoEncoding(error)) => Err(error),
        // for the proof: never taken, since there is room
        Err(RoomError::NoRoom { wanted }) => Ok(wanted),
    }
}

/// The length of the state encoding of what the bytes mean leniently, which is that of the lenient canonical encoding,
/// without memory.
///
/// Refuses as `canonical_lenient_len` does.
pub fn state_lenient_len(input: &[u8]) -> Result<usize, CanonError>
    ensures { HasLenientStateLength input.now result }
{
    canonical_lenient_len(input)
}

/// The state encoding of what the bytes mean leniently: their lenient canonical encoding with all that moves by itself
/// at zero. Where `state` has an encoding, this is it.
///
/// Refuses as `canonical_lenient` does.
pub fn state_lenient(alloc: Global, input: &[u8]) -> Result<Vec<u8>, CanonError>
    ensures ok { IfOk result (λ s. HasLenientState input.now s.items) }
    ensures err { IfErr result (IsLenientRefusal input.now) }
{
    let mut encoding = canonical_lenient(alloc, input)?;
    clear_message(encoding.as_mut_slice());
    Ok(encoding)
}
