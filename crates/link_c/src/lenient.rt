//! Messages that are read leniently: measured and written.

ghost use Rattle.std.specs.Prelude.{◌<◌, ◌^◌, IfOk};
ghost use Rattle.link_c.specs.Leniently.{IsLenientLength, IsLenientText, IsLenientState};

use crate::refusal::Refusal;
use link_msg::{canonical_lenient_len, canonical_lenient_within};
use link_state::state_lenient_within;

/// The length of the canonical encoding of what the bytes mean leniently.
///
/// Refuses a header that is too short and frames that do not fit, `Unfit`, also where C has no number for the length,
/// and `EmptyPorts`.
pub fn lenient_len(bytes: &[u8]) -> Result<usize, Refusal>
    ensures { IsLenientLength bytes.now result }
{
    let len = canonical_lenient_len(bytes)?;
    if len > isize::MAX as usize {
        return Err(Refusal::Unfit);
    }
    Ok(len)
}

/// Writes what the bytes mean leniently, in canonical encoding, to the front of the buffer, and returns its length. The
/// rest of the buffer is kept.
///
/// Refuses as `lenient_len` does, and `NoRoom` where the encoding is longer than the buffer. Then the buffer is
/// unchanged.
pub fn write_lenient(bytes: &[u8], out: &mut [u8]) -> Result<usize, Refusal>
    ensures written { IsLenientText bytes.now out.old out.new result }
    ensures short { IfOk result (λ n. n < 2 ^ 63) }
{
    let len = canonical_lenient_within(bytes, out)?;
    Ok(len)
}

/// Writes the state encoding of what the bytes mean leniently to the front of the buffer, and returns its length, which
/// is that of the lenient canonical encoding. The rest of the buffer is kept.
///
/// Refuses as `write_lenient` does. Then the buffer is unchanged.
pub fn write_lenient_state(bytes: &[u8], out: &mut [u8]) -> Result<usize, Refusal>
    ensures written { IsLenientState bytes.now out.old out.new result }
    ensures short { IfOk result (λ n. n < 2 ^ 63) }
{
    let len = state_lenient_within(bytes, out)?;
    Ok(len)
}
