//! The lines of a piece of the input.

ghost use Rattle.std.specs.Prelude.{◌≡◌, ◌++◌, OnOk, IfErr, [], false};
ghost use Rattle.line_filter.specs.Lines.{complete_lines};
ghost use Rattle.line_filter.specs.Runs.{AddsLine, RunsSome, RunsShort};
ghost use Rattle.line_filter.specs.Steps.{NoLf};

use crate::answers::Take;
use crate::error::RunError;
use crate::write::{write_full, write_out};
use memchr::memchr;
use std::alloc::{AllocError, Global};
use std::io::Write;

/// Takes the line that `held` begins and `part` ends, and empties `held`.
pub(crate) fn end_line<T: Take>(
    alloc: Global,
    held: &mut Vec<u8>,
    part: &[u8],
    taker: &mut T,
    waiting: &mut Vec<u8>,
) -> Result<(), AllocError>
    ensures taken { OnOk result (AddsLine T.takes (held.old.items ++ part.now) taker.old taker.new
        waiting.old.items waiting.new.items) }
    ensures held { OnOk result (held.new.items ≡ []) }
{
    if held.is_empty() {
        return taker.take(alloc, part, waiting);
    }
    held.extend_from_slice(part)?;
    taker.take(alloc, held.as_slice(), waiting)?;
    held.clear();
    Ok(())
}

/// Takes each line that ends in `piece`, and holds what comes after the last of them.
///
/// All that they told is written on return, and no more than enough of it waits on the way.
pub(crate) fn take_piece<T: Take, W: Write>(
    alloc: Global,
    held: &mut Vec<u8>,
    piece: &[u8],
    taker: &mut T,
    waiting: &mut Vec<u8>,
    writer: &mut W,
) -> Result<(), RunError>
    requires held { NoLf held.old.items }
    requires none { waiting.old.items ≡ [] }
    ensures none { OnOk result (waiting.new.items ≡ []) }
    ensures runs { OnOk result (RunsSome T.takes taker.old taker.new (W.contents writer.old)
        (W.contents writer.new) (held.old.items ++ piece.now) held.new.items) }
    ensures err { IfErr result (λ e. RunsShort T.takes e taker.old (W.contents writer.old)
        (W.contents writer.new) (complete_lines false (held.old.items ++ piece.now))) }
{
    let mut rest = piece;
    while let Some(end) = memchr(b'\n', rest) {
        end_line(alloc, held, &rest[..end], taker, waiting)?;
        write_full(writer, waiting)?;
        // for the proof: cut in two steps, at the LF and after it
        rest = &rest[end..][1..];
    }
    held.extend_from_slice(rest)?;
    write_out(writer, waiting)
}
