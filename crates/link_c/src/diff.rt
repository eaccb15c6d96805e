//! What changed from one message to another, as JSON.

ghost use Rattle.std.specs.Prelude.{◌≡◌, ◌<◌, ◌^◌, IfOk};
ghost use Rattle.link_c.specs.Diffs.{compared, IsDiff};

use crate::flags::{Flags, flags_of};
use crate::refusal::Refusal;
use crate::show::put_text;
use message_diff::{Compared, push_list};
use message_shown::context::Order;
use std::alloc::Global;

/// What is compared by the flags.
fn compared(flags: Flags) -> Compared
    ensures { result ≡ compared flags }
{
    match (flags.lenient, flags.counters) {
        (false, false) => Compared::State,
        (false, true) => Compared::Message,
        (true, false) => Compared::LenientState,
        (true, true) => Compared::LenientMessage,
    }
}

/// Writes what changed from the old message to the new one, as one JSON list, to the front of the buffer, if it has
/// room, and returns its length; 0, where what is compared of both is equal, and then the buffer is unchanged.
///
/// Refuses flags that are none, what has no encoding, and `OutOfMemory`. Then the buffer is unchanged.
pub fn write_diff(
    alloc: Global,
    order: Order,
    flags: u32,
    old: &[u8],
    new: &[u8],
    out: &mut [u8],
) -> Result<usize, Refusal>
    ensures written { IsDiff order flags old.now new.now out.old out.new result }
    ensures short { IfOk result (λ n. n < 2 ^ 63) }
{
    let by = compared(flags_of(flags)?);
    let mut text = Vec::new(alloc);
    if !push_list(alloc, by, order, old, new, &mut text)? {
        return Ok(0);
    }
    if text.len() > isize::MAX as usize {
        return Err(Refusal::OutOfMemory);
    }
    put_text(text.as_slice(), out);
    Ok(text.len())
}
