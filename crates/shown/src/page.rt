//! An object that is written, member by member.

ghost use Rattle.std.specs.Prelude.{◌≡◌, ◌≤◌, [], length, take, OnOk, IfOk};
ghost use Rattle.shown.specs.Drafts.{empty_object, with_begun, Ends};
ghost use Rattle.shown.specs.Keys.{IsKey};
ghost use Rattle.shown.specs.Pages.{IsWholeText, AddsText};
ghost use Rattle.shown.specs.Print.{ends_value};

mod addresses;
mod member;
mod names;
mod value;

use crate::page::member::put_begun;
use crate::sheet::Sheet;
use std::alloc::{AllocError, Global};
use std::marker::Model;

/// How many bytes a page has room for at first: those of most messages.
pub(crate) const ROOM: usize = 8192;

/// What is open in a text.
#[derive(Clone, Copy, Drop)]
pub enum Nest {
    Object,
    List,
}

/// An object that is written, with the objects and lists that are open in it.
///
/// A value goes to the innermost of them. A name that is passed is written where that is an object. What failed once,
/// for lack of memory, fails from then on.
#[derive(Drop)]
pub struct Page {
    alloc: Global,
    sheet: Sheet,
    outer: Vec<Nest>,
    inside: Nest,
    is_broken: bool,
}

impl Model for Page {
    ghost use Rattle.std.specs.Bool.{OnFalse};
    ghost use Rattle.shown.specs.Drafts.{Draft, draft_code};
    ghost use Rattle.shown.specs.Pages.{IsPage};

    ghost Value = { Draft };

    ghost coded = { draft_code };

    ghost view = { λ page. record {
      tokens = page.sheet;
      inside = page.inside;
      outer = page.outer.items;
    } };

    ghost invariant = { λ page.
        OnFalse page.is_broken (IsPage page.sheet page.inside page.outer.items) };
}

impl Page {
    /// An object with no member.
    pub fn new(alloc: Global) -> Result<Page, AllocError>
        ensures { IfOk result (λ page. page ≡ empty_object) }
    {
        let room = Vec::with_capacity(alloc, ROOM)?;
        Page::over(alloc, room, Vec::new(alloc))
    }

    /// An object with no member, which is written over these bytes.
    pub(crate) fn over(alloc: Global, room: Vec<u8>, outer: Vec<Nest>) -> Result<Page, AllocError>
        requires nests { outer.items ≡ [] }
        ensures { IfOk result (λ page. page ≡ empty_object) }
    {
        let mut sheet = Sheet::new(alloc, room);
        sheet.begin(Nest::Object)?;
        Ok(Page {
            alloc,
            sheet,
            outer,
            inside: Nest::Object,
            is_broken: false,
        })
    }

    /// Begins an object or a list, to which what is added goes from then on.
    pub fn begin(&mut self, name: &str, nest: Nest) -> Result<(), AllocError>
        ensures { OnOk result (self.new ≡ with_begun name.now nest self.old) }
    {
        if self.is_broken {
            return Err(AllocError);
        }
        self.is_broken = true;
        self.outer.push(self.inside)?;
        put_begun::<false>(&mut self.sheet, self.inside, name, nest)?;
        self.inside = nest;
        self.is_broken = false;
        Ok(())
    }

    /// Begins an object or a list under a key, to which what is added goes from then on.
    pub fn keyed_begin(&mut self, name: &str, nest: Nest) -> Result<(), AllocError>
        requires key { IsKey name.now }
        ensures { OnOk result (self.new ≡ with_begun name.now nest self.old) }
    {
        if self.is_broken {
            return Err(AllocError);
        }
        self.is_broken = true;
        self.outer.push(self.inside)?;
        put_begun::<true>(&mut self.sheet, self.inside, name, nest)?;
        self.inside = nest;
        self.is_broken = false;
        Ok(())
    }

    /// Ends the innermost object or list that was begun; where none is open, nothing happens.
    pub fn end(&mut self) -> Result<(), AllocError>
        ensures { OnOk result (Ends self.old self.new) }
    {
        if self.is_broken {
            return Err(AllocError);
        }
        let Some(around) = self.outer.pop() else {
            return Ok(());
        };
        self.is_broken = true;
        self.sheet.end(self.inside)?;
        self.inside = around;
        self.is_broken = false;
        Ok(())
    }

    /// Whether the last thing that was written ends a value: not so where what is open holds nothing yet.
    pub fn ends_value(&self) -> bool
        ensures { result ≡ ends_value self.now.tokens }
    {
        self.sheet.ends_value()
    }

    /// Its bytes, of which so many are the text of the object, where all that was begun has been ended; what was open.
    fn text(self) -> Result<(Vec<u8>, usize, Vec<Nest>), AllocError>
        ensures within { IfOk result (λ text. text.1 ≤ length text.0.items) }
        ensures whole { IfOk result (λ text. IsWholeText self (take text.1 text.0.items)) }
    {
        let Page {
            mut sheet,
            outer,
            inside,
            is_broken,
            ..
        } = self;
        if is_broken {
            return Err(AllocError);
        }
        if !outer.is_empty() {
            return Err(AllocError);
        }
        sheet.end(inside)?;
        let (bytes, len) = sheet.into_bytes();
        Ok((bytes, len, outer))
    }

    /// Adds the text of the object to `out`. Where something that was begun has not been ended, it fails as where there
    /// is no memory.
    pub fn finish(self, out: &mut Vec<u8>) -> Result<(), AllocError>
        ensures { OnOk result (AddsText self out.old.items out.new.items) }
    {
        self.finish_over(out)?;
        Ok(())
    }

    /// Does what `finish` does, and returns the bytes that the page was written over, and the room for what is open.
    pub(crate) fn finish_over(self, out: &mut Vec<u8>) -> Result<(Vec<u8>, Vec<Nest>), AllocError>
        ensures { OnOk result (AddsText self out.old.items out.new.items) }
    {
        let (bytes, len, outer) = self.text()?;
        out.extend_from_slice(&bytes[..len])?;
        Ok((bytes, outer))
    }
}
