//! The run over all lines.

ghost use Rattle.std.specs.Prelude.{IfErr, OnOk};
ghost use Rattle.linkshow.specs.Lines.{RanToEnd, Stopped};

use line_filter::error::RunError;
use line_filter::run::read_lines;
use message_shown::context::Order;
use message_shown::{Reading, Shown};
use std::alloc::Global;
use std::io::{Read, Write};

/// Answers each line that the reader gives, up to its end, by what it says as JSON, on one line, as it is read.
///
/// The counters of IPv6 have this order, where a line does not say another one by a word `kernel` in front of it. A
/// line ends with an LF; bytes after the last LF are one too. Every answer to what was read is written before the next
/// read. A reader or writer that fails is not asked again, but where a write was interrupted, and the run is over:
/// `Read` where the reader fails or has not ended after 2^64 - 1 reads, `Write` where the writer fails or takes no
/// byte, and `OutOfMemory` where an allocation is refused.
pub fn run<B: Reading, R: Read, W: Write>(
    alloc: Global,
    reading: B,
    order: Order,
    reader: &mut R,
    writer: &mut W,
) -> Result<(), RunError>
    ensures ok { OnOk result (RanToEnd B.is_answer order
        (R.remaining reader.old) (R.remaining reader.new)
        (W.contents writer.old) (W.contents writer.new)) }
    ensures err { IfErr result (λ e. Stopped B.is_answer order e
        (R.remaining reader.old) (R.remaining reader.new)
        (W.contents writer.old) (W.contents writer.new)) }
{
    let mut shown = Shown::new(alloc, reading, order);
    read_lines(alloc, &mut shown, reader, writer)
}
