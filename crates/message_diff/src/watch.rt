//! What is known of each host, and what each line changes.

ghost use Rattle.std.specs.Prelude.{◌≡◌, [], OnOk};
ghost use Rattle.message_diff.specs.declared.reading.Said.TheVariants.{Blind};
ghost use Rattle.message_diff.specs.Watched.{IsFresh, AddsFor, AddsSaid, is_of_dump, takes_line};

use crate::desk::Desk;
use crate::line::Line;
use crate::reading::{LineReader, Said, word_of};
use crate::snapshot::Compared;
use crate::store::{Host, Hosts};
use crate::telling::{Telling, Told};
use crate::words::push_line;
use line_filter::answers::Take;
use line_filter::words::split;
use std::alloc::{AllocError, Global};
use std::collections::BTreeMap;

/// Whether a line that says this begins a dump or ends one.
fn is_of_dump(said: &Said) -> bool
    ensures { result ≡ is_of_dump said.now }
{
    matches!(said, Said::Begin(_) | Said::Done(_, _))
}

/// What is known of the interfaces of each host, and what the next line changes.
#[derive(Drop)]
pub struct Watch {
    reader: LineReader,
    desk: Desk,
    hosts: Hosts,
    /// How many lines there were.
    lines: u64,
    told: Telling,
    has_dumps: bool,
}

impl Watch {
    /// Tells of messages that are compared by this.
    pub fn new(alloc: Global, by: Compared, told: Told) -> Watch
        ensures { IsFresh by told result }
    {
        Watch {
            reader: LineReader::new(alloc, by),
            desk: Desk::new(alloc),
            hosts: BTreeMap::new(alloc),
            lines: 0,
            told: Telling { told, by },
            has_dumps: false,
        }
    }

    /// Whether a dump began or ended.
    pub fn has_dumps(&self) -> bool
        ensures { result ≡ self.now.has_dumps }
    {
        self.has_dumps
    }

    /// What is compared.
    pub fn by(&self) -> Compared
        ensures { result ≡ self.now.told.by }
    {
        self.told.by
    }

    /// What is known of each host.
    pub fn hosts(&self) -> &Hosts
        ensures { result.now ≡ self.now.hosts }
    {
        &self.hosts
    }

    /// Takes what a line with these words says of its host. One of which nothing is known then is forgotten.
    fn take_said(
        &mut self,
        alloc: Global,
        front: &[u8],
        said: Said,
        out: &mut Vec<u8>,
    ) -> Result<(), AllocError>
        ensures known { OnOk result (AddsFor front.now self.old.told self.old.lines said
            self.old self.new out.old.items out.new.items) }
        ensures reader { self.new.reader ≡ self.old.reader }
        ensures told { self.new.told ≡ self.old.told }
        ensures lines { self.new.lines ≡ self.old.lines }
        ensures dumps { self.new.has_dumps ≡ self.old.has_dumps }
    {
        let line = Line {
            alloc,
            front,
            at: self.lines,
            told: self.told,
        };
        let name = word_of(front, b"host");
        if let Some(host) = self.hosts.get_mut(name) {
            line.apply(host, said, &mut self.desk, out)?;
            if !host.knows_any() {
                self.hosts.remove(name);
            }
            return Ok(());
        }
        let mut host = Host::new(alloc);
        line.apply(&mut host, said, &mut self.desk, out)?;
        if host.knows_any() {
            self.hosts.insert(name.to_vec(alloc)?, host)?;
        }
        Ok(())
    }

    /// Takes that a line with these words says something of its host, and not of which interface.
    fn take_blind(&mut self, front: &[u8])
        ensures known { AddsFor front.now self.old.told self.old.lines Blind
            self.old self.new [] [] }
        ensures reader { self.new.reader ≡ self.old.reader }
        ensures told { self.new.told ≡ self.old.told }
        ensures lines { self.new.lines ≡ self.old.lines }
        ensures dumps { self.new.has_dumps ≡ self.old.has_dumps }
    {
        let name = word_of(front, b"host");
        if let Some(host) = self.hosts.get_mut(name) {
            host.break_dump();
            if !host.knows_any() {
                self.hosts.remove(name);
            }
        }
    }

    /// Takes what a line with these words says.
    fn take_any(
        &mut self,
        alloc: Global,
        front: &[u8],
        said: Said,
        out: &mut Vec<u8>,
    ) -> Result<(), AllocError>
        ensures known { OnOk result (AddsSaid front.now self.old.told self.old.lines said
            self.old self.new out.old.items out.new.items) }
        ensures reader { self.new.reader ≡ self.old.reader }
        ensures told { self.new.told ≡ self.old.told }
        ensures lines { self.new.lines ≡ self.old.lines }
        ensures dumps { self.new.has_dumps ≡ self.old.has_dumps }
    {
        match said {
            Said::Nothing => Ok(()),
            Said::Lost if self.told.says() => push_line(alloc, front, "change", "lost", out),
            Said::Lost => Ok(()),
            Said::Blind => {
                self.take_blind(front);
                Ok(())
            }
            said => self.take_said(alloc, front, said, out),
        }
    }
}

impl Take for Watch {
    ghost takes = { takes_line };

    fn take(&mut self, alloc: Global, line: &[u8], out: &mut Vec<u8>) -> Result<(), AllocError> {
        self.lines = self.lines.saturating_add(1);
        let (front, rest) = split(line);
        let said = self.reader.read(alloc, front, rest, out)?;
        self.has_dumps |= is_of_dump(&said);
        self.take_any(alloc, front, said, out)
    }
}
