//! What a message says, as JSON.

ghost use Rattle.std.specs.Prelude.{◌≡◌, ◌<◌, ◌^◌, List, ℕ, IfOk};
ghost use Rattle.line_filter.specs.Lines.{with_lf};
ghost use Rattle.link_c.specs.Shown.{Answers, AnswersBy, IsShown, Puts, numbered_order, release_number};

use crate::flags::flags_of;
use crate::refusal::Refusal;
use link_info::all_rows;
use message_shown::context::{Context, Order};
use message_shown::worded::order_of;
use message_shown::{Lenient, Reading, Strict};
use shown::Room;
use std::alloc::{AllocError, Global};

/// The order of the counters of IPv6 that a number of linkwire.h stands for; any other one is unknown.
pub fn numbered_order(number: u32) -> Order
    ensures { result ≡ numbered_order number }
{
    match number {
        1 => Order::Before,
        2 => Order::Since,
        _ => Order::Unknown,
    }
}

/// The number of the order in a release; that of an unknown one where the text is no release.
pub fn release_number(release: &[u8]) -> u32
    ensures { result ≡ release_number release.now }
{
    match order_of(release) {
        Some(Order::Before) => 1,
        Some(Order::Since) => 2,
        Some(Order::Unknown) | None => 0,
    }
}

/// Writes a text to the front of the buffer, if it has room; else the buffer is unchanged.
pub fn put_text(text: &[u8], out: &mut [u8])
    ensures { Puts text.now out.old out.new }
{
    if text.len() <= out.len() {
        out[..text.len()].copy_from_slice(text);
    }
}

/// A line without its end.
fn without_lf(line: &[u8]) -> &[u8]
    requires { (text : List ℕ) × (line.now ≡ with_lf text) }
    ensures { line.now ≡ with_lf result.now }
{
    &line[..line.len() - 1]
}

/// The answer to these bytes, which are read so, with the end of its line.
fn answer_by<R: Reading>(
    alloc: Global,
    reading: &R,
    order: Order,
    bytes: &[u8],
) -> Result<Vec<u8>, AllocError>
    ensures { IfOk result (λ line. (text : List ℕ)
        × AnswersBy R.is_answer order bytes.now text × (line.items ≡ with_lf text)) }
{
    let tables = all_rows();
    let cx = Context::new(alloc, &tables, order);
    let mut line = Vec::new(alloc);
    reading.push(&cx, &mut Room::new(alloc), &mut line, &[], bytes)?;
    Ok(line)
}

/// The answer to these bytes, which are read leniently or not, with the end of its line.
fn answer_to(
    alloc: Global,
    is_lenient: bool,
    order: Order,
    bytes: &[u8],
) -> Result<Vec<u8>, AllocError>
    ensures { IfOk result (λ line. (text : List ℕ)
        × Answers is_lenient order bytes.now text × (line.items ≡ with_lf text)) }
{
    if is_lenient {
        answer_by(alloc, &Lenient, order, bytes)
    } else {
        answer_by(alloc, &Strict, order, bytes)
    }
}

/// Writes what the bytes say, as one JSON object, to the front of the buffer, if it has room, and returns its length.
///
/// Refuses flags that are none, and `OutOfMemory`. Then the buffer is unchanged.
pub fn write_shown(
    alloc: Global,
    order: Order,
    flags: u32,
    bytes: &[u8],
    out: &mut [u8],
) -> Result<usize, Refusal>
    ensures shown { IsShown order flags bytes.now out.old out.new result }
    ensures short { IfOk result (λ n. n < 2 ^ 63) }
{
    let flags = flags_of(flags)?;
    let line = answer_to(alloc, flags.lenient, order, bytes)?;
    let text = without_lf(line.as_slice());
    if text.len() > isize::MAX as usize {
        return Err(Refusal::OutOfMemory);
    }
    put_text(text, out);
    Ok(text.len())
}
