//! One file beside another.

ghost use Rattle.std.specs.Prelude.{◌≡◌, ◌||◌, IfErr, IfOk, length, nat_lt};
ghost use Rattle.message_diff.specs.declared.telling.Told.TheVariants.{Faults};
ghost use Rattle.message_diff.specs.Watched.{WatchStops};
ghost use Rattle.message_diff.specs.Files.{missings, is_missing, missing_in, NotesTo, TellsNews, Compares};
ghost use Rattle.message_diff.specs.Files.{StopsAtEnds, CompareStops, is_any, notes_line, outcome_of};

mod came;
mod side;
mod went;
mod written;

use crate::desk::Desk;
use crate::snapshot::Compared;
use crate::telling::Told;
use crate::watch::Watch;
use came::push_came;
use line_filter::answers::Take;
use line_filter::error::RunError;
use line_filter::run::read_lines;
use line_filter::write::write_out;
use message_shown::context::text_of;
use std::alloc::{AllocError, Global};
use std::io::{Read, Write};
use went::push_went;
use written::Written;

/// A family of a host of which it is not told what came or what went, since one file has no whole dump of it.
#[derive(Drop)]
pub struct Untold {
    /// Whether it is the new file: then it is not told what went.
    pub is_new: bool,
    pub family: u8,
    host: Vec<u8>,
}

impl Untold {
    /// The host's name: its digits, where it is no UTF-8.
    pub fn host(&self, alloc: Global) -> Result<String, AllocError> {
        match text_of(self.host.as_slice()) {
            Some(text) => String::from_str(alloc, text),
            None => hex::encode(alloc, self.host.as_slice()),
        }
    }

    /// Whether it is this one.
    fn is(&self, is_new: bool, family: u8, host: &[u8]) -> bool
        ensures { result ≡ is_missing
            (record { is_new = is_new; family = family; host = host.now }) (missing_in self.now) }
    {
        is_new == self.is_new && family == self.family && host == self.host.as_slice()
    }
}

/// What two files come to beside each other.
#[derive(Clone, Copy, Debug, PartialEq, Eq)]
pub enum Outcome {
    /// They do not differ.
    Same,
    /// Something came, went or changed.
    Differ,
    /// A line has a fault, or a file has no whole dump of a family, so that they may differ in more than is told.
    Trouble,
}

/// Two files beside each other.
#[derive(Drop)]
pub struct Findings {
    /// Whether a line of one of them has a fault.
    pub has_faults: bool,
    /// Whether something came, went or changed.
    pub differs: bool,
    /// What is not told.
    pub untold: Vec<Untold>,
}

impl Findings {
    /// What they come to.
    pub fn outcome(&self) -> Outcome
        ensures { result ≡ outcome_of self.now.has_faults self.now.differs
            (missings self.now.untold.items) }
    {
        if self.has_faults {
            return Outcome::Trouble;
        }
        if !self.untold.is_empty() {
            return Outcome::Trouble;
        }
        if self.differs {
            Outcome::Differ
        } else {
            Outcome::Same
        }
    }
}

/// Whether there are more bytes than so many.
fn is_longer(bytes: &[u8], len: usize) -> bool
    ensures { result ≡ nat_lt len (length bytes.now) }
{
    len < bytes.len()
}

/// Takes lines, and notes whether something was told of one.
#[derive(Drop)]
struct Noted {
    watch: Watch,
    is_told: bool,
}

impl Take for Noted {
    ghost takes = { notes_line };

    fn take(&mut self, alloc: Global, line: &[u8], out: &mut Vec<u8>) -> Result<(), AllocError> {
        let len = out.as_slice().len();
        self.watch.take(alloc, line, out)?;
        self.is_told |= is_longer(out.as_slice(), len);
        Ok(())
    }
}

/// What a reader leaves at its end, and whether a line had a fault: nothing else is told.
fn read_all<R: Read, W: Write>(
    alloc: Global,
    by: Compared,
    reader: &mut R,
    writer: &mut W,
) -> Result<Noted, RunError>
    ensures ok { IfOk result (λ last. NotesTo by Faults last (R.remaining reader.old)
        (R.remaining reader.new) (W.contents writer.old) (W.contents writer.new)) }
    ensures err { IfErr result (λ e. WatchStops by Faults e (R.remaining reader.old)
        (R.remaining reader.new) (W.contents writer.old) (W.contents writer.new)) }
{
    let watch = Watch::new(alloc, by, Told::Faults);
    let mut noted = Noted {
        watch,
        is_told: false,
    };
    read_lines(alloc, &mut noted, reader, writer)?;
    Ok(noted)
}

/// Whether there is any byte.
fn is_any(bytes: &[u8]) -> bool
    ensures { result ≡ is_any bytes.now }
{
    !bytes.is_empty()
}

/// Writes what two files tell beside each other, and returns whether that is anything, and what they do not tell.
fn write_news<W: Write>(
    alloc: Global,
    old: &Watch,
    new: &Watch,
    writer: &mut W,
) -> Result<(bool, Vec<Untold>), RunError>
    ensures ok { IfOk result (λ found. TellsNews old.now new.now
        (W.contents writer.old) (W.contents writer.new) found.0 (missings found.1.items)) }
    ensures err { IfErr result (λ e. StopsAtEnds e old.now new.now
        (W.contents writer.old) (W.contents writer.new)) }
{
    let mut written = Written {
        desk: Desk::new(alloc),
        out: Vec::new(alloc),
        untold: Vec::new(alloc),
    };
    push_came(alloc, old, new, &mut written)?;
    push_went(alloc, old, new, &mut written)?;
    let differs = is_any(written.out.as_slice());
    write_out(writer, &mut written.out)?;
    let Written { untold, .. } = written;
    Ok((differs, untold))
}

/// Whether one of two holds.
fn either(one: bool, other: bool) -> bool
    ensures { result ≡ (one || other) }
{
    one || other
}

/// Compares what two readers leave at their ends, and writes what came, went or changed: faults first.
///
/// Where dumps began or ended in what a reader gives, it says only of the families of a host of which a dump was whole
/// what is not there. What is not told for that is returned, and whether a line had a fault, and whether anything came,
/// went or changed.
pub fn compare_readers<R: Read, S: Read, W: Write>(
    alloc: Global,
    by: Compared,
    old: &mut R,
    new: &mut S,
    writer: &mut W,
) -> Result<Findings, RunError>
    ensures ok { IfOk result (λ beside. Compares by (R.remaining old.old) (R.remaining old.new)
        (S.remaining new.old) (S.remaining new.new)
        (W.contents writer.old) (W.contents writer.new) beside) }
    ensures err { IfErr result (λ e. CompareStops by e
        (R.remaining old.old) (R.remaining old.new)
        (S.remaining new.old) (S.remaining new.new)
        (W.contents writer.old) (W.contents writer.new)) }
{
    let first = read_all(alloc, by, old, writer)?;
    let second = read_all(alloc, by, new, writer)?;
    let has_faults = either(first.is_told, second.is_told);
    let told = write_news(alloc, &first.watch, &second.watch, writer)?;
    let (differs, untold) = told;
    Ok(Findings {
        has_faults,
        differs,
        untold,
    })
}
