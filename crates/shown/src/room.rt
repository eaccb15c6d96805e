//! The room that pages are written in, one after another.

ghost use Rattle.std.specs.Prelude.{◌≡◌, IfOk, OnOk};
ghost use Rattle.shown.specs.Drafts.{empty_object};
ghost use Rattle.shown.specs.Pages.{AddsText};

use crate::page::{Nest, Page, ROOM};
use std::alloc::{AllocError, Global};
use std::mem;

/// The most bytes that are kept from one page to the next.
const MOST_KEPT: usize = 64 * 1024;

/// The room that pages are written in, one after another, which spares most of them all requests for memory. At most
/// 64 KiB are kept between two pages.
#[derive(Drop)]
pub struct Room {
    alloc: Global,
    bytes: Vec<u8>,
    outer: Vec<Nest>,
}

impl Room {
    /// No room yet. It takes no memory.
    pub fn new(alloc: Global) -> Room {
        Room {
            alloc,
            bytes: Vec::new(alloc),
            outer: Vec::new(alloc),
        }
    }

    /// An object with no member.
    pub fn begin(&mut self) -> Result<Page, AllocError>
        ensures { IfOk result (λ page. page ≡ empty_object) }
    {
        let mut bytes = mem::replace(&mut self.bytes, Vec::new(self.alloc));
        let mut outer = mem::replace(&mut self.outer, Vec::new(self.alloc));
        if bytes.is_empty() {
            bytes = Vec::with_capacity(self.alloc, ROOM)?;
        }
        outer.clear();
        Page::over(self.alloc, bytes, outer)
    }

    /// Adds the text of the object to `out` as `Page::finish` does, and keeps the page's room for the next one.
    pub fn finish(&mut self, page: Page, out: &mut Vec<u8>) -> Result<(), AllocError>
        ensures { OnOk result (AddsText page out.old.items out.new.items) }
    {
        let (bytes, outer) = page.finish_over(out)?;
        self.outer = outer;
        if bytes.capacity() <= MOST_KEPT {
            self.bytes = bytes;
        }
        Ok(())
    }
}
