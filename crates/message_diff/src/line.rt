//! A line, and what becomes of its host by what it says.

ghost use Rattle.std.specs.Prelude.{OnOk};
ghost use Rattle.message_diff.specs.Held.{Applies, picture};

use crate::desk::Desk;
use crate::reading::Said;
use crate::store::Host;
use crate::telling::Telling;
use std::alloc::{AllocError, Global};

/// A line: its words, its place, and what is to be told.
#[derive(Clone, Copy)]
pub struct Line<'a> {
    pub alloc: Global,
    pub front: &'a [u8],
    pub at: u64,
    pub told: Telling,
}

impl Line<'_> {
    /// Adds what is to be written of what the line says, and keeps what is known from then on.
    pub fn apply(
        self,
        host: &mut Host,
        said: Said,
        desk: &mut Desk,
        out: &mut Vec<u8>,
    ) -> Result<(), AllocError>
        ensures { OnOk result (Applies self.entry.front.now self.entry.told self.entry.at said
            (picture host.old) (picture host.new) out.old.items out.new.items) }
    {
        match said {
            Said::Is(key, snapshot) => self.put(host, key, snapshot, desk, out),
            Said::Refused(key) => host.see(key, self.at),
            Said::Went(key, gone) => self.end(host, key, gone, out),
            Said::Begin(dump) => {
                host.begin(dump, self.at);
                Ok(())
            }
            Said::Done(dump, family) => self.finish(host, dump.as_slice(), family, out),
            Said::Blind => {
                host.break_dump();
                Ok(())
            }
            Said::Lost => Ok(()),
            Said::Nothing => Ok(()),
        }
    }
}
