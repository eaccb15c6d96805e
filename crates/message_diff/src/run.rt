//! A run: each line beside the last one of its interface.

ghost use Rattle.std.specs.Prelude.{IfErr, OnOk};
ghost use Rattle.message_diff.specs.declared.telling.Told.TheVariants.{All};
ghost use Rattle.message_diff.specs.Watched.{Watches, WatchStops};

use crate::snapshot::Compared;
use crate::telling::Told;
use crate::watch::Watch;
use line_filter::error::RunError;
use line_filter::run::read_lines;
use std::alloc::Global;
use std::io::{Read, Write};

/// Compares each line that a reader gives with the last one of its interface, and writes what is to be told.
pub fn watch_lines<R: Read, W: Write>(
    alloc: Global,
    by: Compared,
    told: Told,
    reader: &mut R,
    writer: &mut W,
) -> Result<(), RunError>
    ensures ok { OnOk result (Watches by told (R.remaining reader.old) (R.remaining reader.new)
        (W.contents writer.old) (W.contents writer.new)) }
    ensures err { IfErr result (λ e. WatchStops by told e (R.remaining reader.old)
        (R.remaining reader.new) (W.contents writer.old) (W.contents writer.new)) }
{
    let mut watch = Watch::new(alloc, by, told);
    read_lines(alloc, &mut watch, reader, writer)
}

/// The same, where all is told.
pub fn compare_lines<R: Read, W: Write>(
    alloc: Global,
    by: Compared,
    reader: &mut R,
    writer: &mut W,
) -> Result<(), RunError>
    ensures ok { OnOk result (Watches by All (R.remaining reader.old) (R.remaining reader.new)
        (W.contents writer.old) (W.contents writer.new)) }
    ensures err { IfErr result (λ e. WatchStops by All e (R.remaining reader.old)
        (R.remaining reader.new) (W.contents writer.old) (W.contents writer.new)) }
{
    watch_lines(alloc, by, Told::All, reader, writer)
}
