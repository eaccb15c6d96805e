//! What is written of two files, and what is not told.

ghost use Rattle.std.specs.Prelude.{◌≡◌, ◌∷◌, [], OnOk};
ghost use Rattle.message_diff.specs.Files.{News, Adds, is_last};

use super::Untold;
use crate::desk::Desk;
use std::alloc::{AllocError, Global};

/// What is written, and what is not told.
#[derive(Drop)]
pub(crate) struct Written {
    pub(crate) desk: Desk,
    pub(crate) out: Vec<u8>,
    pub(crate) untold: Vec<Untold>,
}

impl Written {
    /// Whether the last family that was added is this one.
    fn is_last(&self, is_new: bool, family: u8, host: &[u8]) -> bool
        ensures { result ≡ is_last self.now.untold.items
            (record { is_new = is_new; family = family; host = host.now }) }
    {
        match self.untold.as_slice().last() {
            Some(last) => last.is(is_new, family, host),
            None => false,
        }
    }

    /// Adds a family of a host of which something is not told, unless it was the last one that was added.
    pub(crate) fn add_untold(
        &mut self,
        alloc: Global,
        is_new: bool,
        family: u8,
        host: &[u8],
    ) -> Result<(), AllocError>
        ensures { OnOk result (Adds (News.untold
            (record { is_new = is_new; family = family; host = host.now }) ∷ [])
            self.old self.new) }
    {
        if self.is_last(is_new, family, host) {
            return Ok(());
        }
        let host = host.to_vec(alloc)?;
        self.untold.push(Untold {
            is_new,
            family,
            host,
        })?;
        Ok(())
    }
}
