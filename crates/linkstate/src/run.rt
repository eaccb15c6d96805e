//! The run over all lines, each answered by its words and an encoding.

ghost use Rattle.std.specs.Prelude.{IfErr, OnOk};
ghost use Rattle.linkstate.specs.Lines.{RanToEnd, Stopped};

use line_filter::error::RunError;
use line_filter::run as filter;
use line_filter::worded::Worded;
use message_lines::answers::Encoded;
use message_lines::encoding::Encoding;
use std::alloc::Global;
use std::io::{Read, Write};

/// Answers each line that the reader gives, up to its end.
///
/// A line ends with an LF; bytes after the last LF are one too. Its answer is the words `key=value` in front of it, as
/// they stand, with the blanks after each, and then the answer to the rest of it: `nothex`, `refused`, `unfit`,
/// `empty-ports`, or `ok ` and the encoding in lower-case hexadecimal; and an LF. Every answer to what was read is
/// written before the next read. A reader or writer that fails is not asked again, but where a write was interrupted,
/// and the run is over: `Read` where the reader fails or has not ended after 2^64 - 1 reads, `Write` where the writer
/// fails or takes no byte, and `OutOfMemory` where an allocation is refused.
pub fn run<E: Encoding, R: Read, W: Write>(
    alloc: Global,
    encoding: E,
    reader: &mut R,
    writer: &mut W,
) -> Result<(), RunError>
    ensures ok { OnOk result (RanToEnd E.means E.encodes
        (R.remaining reader.old) (R.remaining reader.new)
        (W.contents writer.old) (W.contents writer.new)) }
    ensures err { IfErr result (λ e. Stopped E.means E.encodes e
        (R.remaining reader.old) (R.remaining reader.new)
        (W.contents writer.old) (W.contents writer.new)) }
{
    let answer = Worded::new(Encoded::new(alloc, encoding));
    filter::run(alloc, answer, reader, writer)
}
