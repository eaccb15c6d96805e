//! The run over all lines, each answered by its canonical encoding.

ghost use Rattle.std.specs.Prelude.{IfErr, OnOk};
ghost use Rattle.linkwire.specs.Lines.{RanToEnd, Stopped};

use crate::encoding::Canonical;
use line_filter::error::RunError;
use line_filter::run as filter;
use message_lines::answers::Encoded;
use std::alloc::Global;
use std::io::{Read, Write};

/// Answers each line that the reader gives, up to its end.
///
/// A line ends with an LF; bytes after the last LF are one too. Its answer is `nothex`, `refused`, `unfit`,
/// `empty-ports`, or `ok ` and the canonical encoding in lower-case hexadecimal, each ended by an LF. Every answer to
/// what was read is written before the next read. A reader or writer that fails is not asked again, but where a write
/// was interrupted, and the run is over: `Read` where the reader fails or has not ended after 2^64 - 1 reads, `Write`
/// where the writer fails or takes no byte, and `OutOfMemory` where an allocation is refused.
pub fn run<R: Read, W: Write>(alloc: Global, reader: &mut R, writer: &mut W) -> Result<(), RunError>
    ensures ok { OnOk result (RanToEnd (R.remaining reader.old) (R.remaining reader.new)
        (W.contents writer.old) (W.contents writer.new)) }
    ensures err { IfErr result (λ e. Stopped e (R.remaining reader.old) (R.remaining reader.new)
        (W.contents writer.old) (W.contents writer.new)) }
{
    filter::run(alloc, Encoded::new(alloc, Canonical), reader, writer)
}
