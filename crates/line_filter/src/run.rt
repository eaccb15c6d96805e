//! The run over all lines.

ghost use Rattle.std.specs.Prelude.{◌≡◌, ◌<◌, IfOk, IfErr, OnOk, length, []};
ghost use Rattle.line_filter.specs.Lines.{RanToEnd, Stopped};
ghost use Rattle.line_filter.specs.Runs.{RunsAll, RunsLast, Stops, StopsLast, ToldEnd};
ghost use Rattle.line_filter.specs.Steps.{NoLf};

use crate::answers::{Answer, Answering, Take};
use crate::error::RunError;
use crate::lines::{end_line, take_piece};
use crate::write::write_out;
use std::alloc::{AllocError, Global};
use std::io::{Read, Write};

/// How many bytes a read may give.
const CHUNK: usize = 65536;

/// Takes the last line, which no LF ends, if there is one.
fn finish<T: Take, W: Write>(
    alloc: Global,
    held: &mut Vec<u8>,
    taker: &mut T,
    waiting: &mut Vec<u8>,
    writer: &mut W,
) -> Result<(), RunError>
    requires held { NoLf held.old.items }
    requires none { waiting.old.items ≡ [] }
    ensures ok { OnOk result (RunsLast T.takes taker.old taker.new (W.contents writer.old)
        (W.contents writer.new) held.old.items) }
    ensures err { IfErr result (λ e. StopsLast T.takes e taker.old (W.contents writer.old)
        (W.contents writer.new) held.old.items) }
{
    if held.is_empty() {
        return Ok(());
    }
    end_line(alloc, held, b"", taker, waiting)?;
    write_out(writer, waiting)
}

/// So many zeros.
fn zeros(alloc: Global, count: usize) -> Result<Vec<u8>, AllocError>
    ensures { IfOk result (λ zeros. length zeros.items ≡ count) }
{
    vec![in alloc; 0u8; count]
}

/// Takes each line that the reader gives, read into the chunk, and returns whether the reader came to its end within
/// 2^64 - 1 reads.
fn take_all<T: Take, R: Read, W: Write>(
    alloc: Global,
    taker: &mut T,
    reader: &mut R,
    chunk: &mut [u8],
    writer: &mut W,
) -> Result<bool, RunError>
    requires { 0 < length chunk.old }
    ensures ok { IfOk result (λ ended. ToldEnd T.takes ended taker.old taker.new
        (R.remaining reader.old) (R.remaining reader.new)
        (W.contents writer.old) (W.contents writer.new)) }
    ensures err { IfErr result (λ e. Stops T.takes e taker.old (R.remaining reader.old)
        (R.remaining reader.new) (W.contents writer.old) (W.contents writer.new)) }
{
    let mut held = Vec::new(alloc);
    let mut waiting = Vec::new(alloc);
    for _reads in 0..u64::MAX {
        let Ok(n) = reader.read(chunk) else {
            return Err(RunError::Read);
        };
        if n == 0 {
            finish(alloc, &mut held, taker, &mut waiting, writer)?;
            return Ok(true);
        }
        take_piece(alloc, &mut held, &chunk[..n], taker, &mut waiting, writer)?;
    }
    Ok(false)
}

/// Takes each line that the reader gives, up to its end, and writes what they told before the next read.
///
/// A line ends with an LF; bytes after the last LF are one too. A reader that fails is not asked again, nor a writer,
/// but where a write was interrupted, and the run is over: `Read` where the reader fails or has not ended after
/// 2^64 - 1 reads, `Write` where the writer fails or takes no byte, and `OutOfMemory` where an allocation is refused.
pub fn read_lines<T: Take, R: Read, W: Write>(
    alloc: Global,
    taker: &mut T,
    reader: &mut R,
    writer: &mut W,
) -> Result<(), RunError>
    ensures ok { OnOk result (RunsAll T.takes taker.old taker.new (R.remaining reader.old)
        (R.remaining reader.new) (W.contents writer.old) (W.contents writer.new)) }
    ensures err { IfErr result (λ e. Stops T.takes e taker.old (R.remaining reader.old)
        (R.remaining reader.new) (W.contents writer.old) (W.contents writer.new)) }
{
    let mut chunk = zeros(alloc, CHUNK)?;
    if take_all(alloc, taker, reader, chunk.as_mut_slice(), writer)? {
        Ok(())
    } else {
        Err(RunError::Read)
    }
}

/// Answers each line that the reader gives, up to its end, by the filter's answer, ended by an LF; else as
/// `read_lines`.
pub fn run<A: Answer, R: Read, W: Write>(
    alloc: Global,
    answer: A,
    reader: &mut R,
    writer: &mut W,
) -> Result<(), RunError>
    ensures ok { OnOk result (RanToEnd A.is_answer (R.remaining reader.old) (R.remaining reader.new)
        (W.contents writer.old) (W.contents writer.new)) }
    ensures err { IfErr result (λ e. Stopped A.is_answer e (R.remaining reader.old)
        (R.remaining reader.new) (W.contents writer.old) (W.contents writer.new)) }
{
    let mut taker = Answering { by: answer };
    read_lines(alloc, &mut taker, reader, writer)
}
