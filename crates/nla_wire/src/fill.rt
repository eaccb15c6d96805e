//! Texts written from the end of a buffer.

ghost use Rattle.std.specs.Prelude.{◌≡◌, ◌+◌, ◌-◌, ◌≤◌, ◌++◌, [], ◌∷◌, length, drop, replicate};
ghost use Rattle.nla_wire.specs.Sizes.{most_payload};
ghost use Rattle.nla_wire.specs.Frames.{missing};
ghost use Rattle.nla_wire.specs.Canon.{canon, Filled};

use crate::fields::put_u16;
use crate::number::to_u16;
use crate::write::nla_align;

/// Fills the last bytes of the buffer with these, and returns the place of the first.
pub fn fill_bytes(buffer: &mut [u8], bytes: &[u8]) -> usize
    requires { length bytes.now ≤ length buffer.old }
    ensures { Filled buffer.old buffer.new bytes.now result }
{
    let start = buffer.len() - bytes.len();
    buffer[start..].copy_from_slice(bytes);
    start
}

/// Fills the last bytes of the buffer with the text and one NUL, and returns the place of the first.
pub fn fill_text(buffer: &mut [u8], text: &str) -> usize
    requires { length text.now + 1 ≤ length buffer.old }
    ensures { Filled buffer.old buffer.new (text.now ++ 0 ∷ []) result }
{
    let last = fill_bytes(buffer, &[0]);
    fill_bytes(&mut buffer[..last], text.as_bytes())
}

/// Moves a value to the front, over the padding that stands before it, and writes the padding after it.
#[tactic(auto, using(crate::proofs::Placing::moved_front))]
fn pad(buffer: &mut [u8], padding: usize)
    requires { padding ≤ length buffer.old }
    ensures { buffer.new ≡ drop padding buffer.old ++ replicate padding 0 }
{
    if padding == 0 {
        return;
    }
    let end = buffer.len() - padding;
    buffer.copy_within(padding.., 0);
    buffer[end..].fill(0);
}

/// Makes a frame of this kind of the value that the last bytes of the buffer are, and returns the place of its header.
///
/// The value is moved to the front by its padding, three bytes at most.
pub fn close_frame(buffer: &mut [u8], start: usize, kind: u16) -> usize
    requires within { start ≤ length buffer.old }
    requires small { length buffer.old - start ≤ most_payload }
    requires room { 4 + missing (length buffer.old - start) ≤ start }
    ensures { Filled buffer.old buffer.new
        (canon (record { kind = kind; payload = drop start buffer.old })) result }
{
    let len = buffer.len() - start;
    let padding = nla_align(len) - len;
    let at = start - padding;
    pad(&mut buffer[at..], padding);
    put_u16(buffer, at - 2, kind);
    put_u16(buffer, at - 4, to_u16(4 + len));
    at - 4
}
