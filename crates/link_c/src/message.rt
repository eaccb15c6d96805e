//! Messages: checked, measured, written and compared.

ghost use Rattle.std.specs.Prelude.{◌≡◌, ◌<◌, ◌^◌, IfOk, MatchOption};
ghost use Rattle.link_c.specs.Messages.{MeansOrFaults, IsLookAt, IsLength, IsText, IsComparison, IsState};
ghost use Rattle.link_c.specs.Messages.{IsStateComparison};

use crate::refusal::Refusal;
use link_msg::{LinkMessage, canonical_len, canonical_within, same_message};
use link_state::{same_state, state_within};
use std::alloc::Global;

/// Whether the bytes are a message, or the first fault.
pub fn check_message(bytes: &[u8]) -> Result<(), Refusal>
    ensures { MeansOrFaults bytes.now result }
{
    LinkMessage::check(bytes)?;
    Ok(())
}

/// What `check_message` finds; after a fault the place is where the fault is, and else it is unchanged.
pub fn look_for_fault(bytes: &[u8], at: &mut usize) -> Result<(), Refusal>
    ensures { IsLookAt bytes.now at.old at.new result }
{
    match check_message(bytes) {
        Ok(()) => Ok(()),
        Err(refusal) => {
            move_to(at, LinkMessage::fault_at(bytes));
            Err(refusal)
        }
    }
}

/// Moves to a place, if there is one.
fn move_to(at: &mut usize, place: Option<usize>)
    ensures { MatchOption place (at.new ≡ at.old) (λ there. at.new ≡ there) }
{
    if let Some(there) = place {
        *at = there;
    }
}

/// The length of the canonical encoding of what the bytes mean.
///
/// Refuses faults, `Unfit`, also where C has no number for the length, and `EmptyPorts`.
pub fn encoding_len(bytes: &[u8]) -> Result<usize, Refusal>
    ensures { IsLength bytes.now result }
{
    let len = canonical_len(bytes)?;
    if len > isize::MAX as usize {
        return Err(Refusal::Unfit);
    }
    Ok(len)
}

/// Writes what the bytes mean, in canonical encoding, to the front of the buffer, and returns its length. The rest of
/// the buffer is kept.
///
/// Refuses faults, `Unfit`, `EmptyPorts`, and `NoRoom` where the encoding is longer than the buffer. Then the buffer is
/// unchanged.
pub fn write_encoding(bytes: &[u8], out: &mut [u8]) -> Result<usize, Refusal>
    ensures written { IsText bytes.now out.old out.new result }
    ensures short { IfOk result (λ n. n < 2 ^ 63) }
{
    let len = canonical_within(bytes, out)?;
    Ok(len)
}

/// Whether both mean the same message.
///
/// Refuses as `write_encoding` does, but for `NoRoom`, and `OutOfMemory`.
pub fn are_alike(alloc: Global, first: &[u8], second: &[u8]) -> Result<bool, Refusal>
    ensures { IsComparison first.now second.now result }
{
    let answer = same_message(alloc, first, second)?;
    Ok(answer)
}

/// Writes the state encoding of what the bytes mean to the front of the buffer, and returns its length, which is that
/// of the canonical encoding. The rest of the buffer is kept.
///
/// Refuses as `write_encoding` does. Then the buffer is unchanged.
pub fn write_state(bytes: &[u8], out: &mut [u8]) -> Result<usize, Refusal>
    ensures written { IsState bytes.now out.old out.new result }
    ensures short { IfOk result (λ n. n < 2 ^ 63) }
{
    let len = state_within(bytes, out)?;
    Ok(len)
}

/// Whether what both mean has one state encoding.
///
/// Refuses as `are_alike` does.
pub fn have_same_state(alloc: Global, first: &[u8], second: &[u8]) -> Result<bool, Refusal>
    ensures { IsStateComparison first.now second.now result }
{
    let answer = same_state(alloc, first, second)?;
    Ok(answer)
}
