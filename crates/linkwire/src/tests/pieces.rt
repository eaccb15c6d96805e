//! A reader and a writer that take few bytes at a time and fail at one call; what a run over them leaves.

ghost use Rattle.std.specs.Prelude.{IfOk};
ghost use Rattle.line_filter.specs.Lines.{lines_of};
ghost use Rattle.linkwire.specs.Lines.{AreAnswers};

use crate::run::run;
use line_filter::error::RunError;
use std::alloc::Global;
use std::io::{self, Read, Write};

/// A count of calls that is never reached.
pub const NEVER: usize = usize::MAX;

/// Gives its bytes, at most `piece` of them at a read. The read after the first `reads` fails, and no other.
#[derive(Drop)]
pub struct PieceReader<'a> {
    pub bytes: &'a [u8],
    pub piece: usize,
    pub reads: usize,
}

impl<'a> Read for PieceReader<'a> {
    fn read(&mut self, buf: &mut [u8]) -> io::Result<usize> {
        if self.reads == 0 {
            self.reads = NEVER;
            return Err(io::Error::from(io::ErrorKind::Interrupted));
        }
        self.reads -= 1;
        let n = self.piece.min(buf.len()).min(self.bytes.len());
        buf[..n].copy_from_slice(&self.bytes[..n]);
        self.bytes = &self.bytes[n..];
        Ok(n)
    }
}

/// Takes at most `piece` bytes at a write. The write after the first `writes` fails for this reason, and no other.
#[derive(Drop)]
pub struct PieceWriter {
    pub taken: Vec<u8>,
    pub piece: usize,
    pub writes: usize,
    pub why: io::ErrorKind,
    pub longest: usize,
}

impl Write for PieceWriter {
    fn write(&mut self, buf: &[u8]) -> io::Result<usize> {
        if self.writes == 0 {
            self.writes = NEVER;
            return Err(io::Error::from(self.why));
        }
        self.writes -= 1;
        self.longest = self.longest.max(buf.len());
        let n = self.piece.min(buf.len());
        self.taken.extend_from_slice(&buf[..n])?;
        Ok(n)
    }

    fn flush(&mut self) -> io::Result<()> {
        Ok(())
    }
}

/// What a run wrote, how it ended, and the most bytes that it gave to one write.
#[derive(Drop)]
pub struct Ran {
    pub result: Result<(), RunError>,
    pub written: Vec<u8>,
    pub longest: usize,
}

/// Runs over pieces, with a read and a write that fail after so many.
pub fn run_in_pieces(
    alloc: Global,
    text: &[u8],
    pieces: (usize, usize),
    calls: (usize, usize),
) -> Ran {
    run_failing(alloc, text, pieces, calls, io::ErrorKind::BrokenPipe)
}

/// As `run_in_pieces`, where the write fails for this reason.
pub fn run_failing(
    alloc: Global,
    text: &[u8],
    pieces: (usize, usize),
    calls: (usize, usize),
    why: io::ErrorKind,
) -> Ran {
    let mut reader = PieceReader {
        bytes: text,
        piece: pieces.0,
        reads: calls.0,
    };
    let mut writer = PieceWriter {
        taken: Vec::new(alloc),
        piece: pieces.1,
        writes: calls.1,
        why,
        longest: 0,
    };
    let result = run(alloc, &mut reader, &mut writer);
    Ran {
        result,
        longest: writer.longest,
        written: writer.taken,
    }
}

/// The answers to a text in memory.
pub fn answers_to(alloc: Global, text: &[u8]) -> Result<Vec<u8>, RunError>
    ensures { IfOk result (λ written. AreAnswers (lines_of text.now) written.items) }
{
    let mut reader = text;
    let mut written = Vec::new(alloc);
    run(alloc, &mut reader, &mut written)?;
    Ok(written)
}
