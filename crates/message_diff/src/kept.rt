//! What is kept, and told, of a message of an interface.

ghost use Rattle.std.specs.Prelude.{◌≡◌, IfOk, OnOk, None, Some, false, option_map};
ghost use Rattle.message_diff.specs.declared.key.Key.{Key};
ghost use Rattle.message_diff.specs.Known.{is_now};
ghost use Rattle.message_diff.specs.Told.{is_new_told, AddsNews, AddsTurned};
ghost use Rattle.message_diff.specs.Held.{picture, whole_in, kind_known, words_for, Puts};

use crate::desk::Desk;
use crate::key::Key;
use crate::line::Line;
use crate::snapshot::{Compared, Snapshot};
use crate::store::{Entry, Host};
use crate::telling::Told;
use crate::told::{push_changed, push_new};
use std::alloc::{AllocError, Global};

/// Adds a line of what changed of an interface, which has the words in front of the new message's line.
fn tell_turned(
    alloc: Global,
    by: Compared,
    front: &[u8],
    last: &Snapshot,
    new: &Snapshot,
    desk: &mut Desk,
    out: &mut Vec<u8>,
) -> Result<(), AllocError>
    ensures { OnOk result
        (AddsTurned by front.now last.now new.now out.old.items out.new.items) }
{
    push_changed(alloc, by, front, last, new, desk, out)?;
    Ok(())
}

impl Line<'_> {
    /// Whether a line is added for an interface that came, maybe in the place of another one.
    fn tells_new(self, host: &Host, key: Key, is_other: bool) -> bool
        ensures { result ≡ is_new_told self.entry.told.told (whole_in host.now) is_other key }
    {
        match self.told.told {
            Told::All => true,
            Told::Changes => is_other || host.is_whole(key.family),
            Told::Faults => false,
        }
    }

    /// The words that are kept with a message: none where what it tells is told at once.
    fn kept_words(self) -> Result<Option<Vec<u8>>, AllocError>
        ensures { IfOk result (λ words. option_map (λ w. w.items) words
            ≡ words_for self.entry.told self.entry.front.now) }
    {
        if self.told.says() {
            return Ok(None);
        }
        let alloc = self.alloc;
        Ok(Some(self.front.to_vec(alloc)?))
    }

    /// Keeps a message of an interface of which none is known, and adds a line that it came, maybe in the place of
    /// another one.
    fn keep(
        self,
        host: &mut Host,
        key: Key,
        is_other: bool,
        earlier: Option<Vec<u8>>,
        snapshot: Snapshot,
        out: &mut Vec<u8>,
    ) -> Result<(), AllocError>
        ensures known { OnOk result ((q : Key) → (picture host.new).of q
            ≡ is_now self.entry.at key (option_map (λ kind. kind.items) earlier) snapshot
            (words_for self.entry.told self.entry.front.now) (picture host.old).of q) }
        ensures dump { host.new.dump ≡ host.old.dump }
        ensures whole { host.new.whole ≡ host.old.whole }
        ensures told { OnOk result (AddsNews self.entry.front.now self.entry.told
            (is_new_told self.entry.told.told (whole_in host.old) is_other key) None snapshot
            out.old.items out.new.items) }
    {
        if self.tells_new(host, key, is_other) {
            push_new(self.alloc, self.front, &snapshot, out)?;
        }
        let entry = Entry {
            front: self.kept_words()?,
            snapshot,
            earlier,
        };
        host.keep(key, self.at, entry)
    }

    /// Keeps a message of an interface whose last one was taken out, and adds a line of what changed.
    fn put_beside(
        self,
        host: &mut Host,
        key: Key,
        last: Entry,
        snapshot: Snapshot,
        desk: &mut Desk,
        out: &mut Vec<u8>,
    ) -> Result<(), AllocError>
        ensures known { OnOk result ((q : Key) → (picture host.new).of q
            ≡ is_now self.entry.at key (kind_known last) snapshot
            (words_for self.entry.told self.entry.front.now) (picture host.old).of q) }
        ensures dump { host.new.dump ≡ host.old.dump }
        ensures whole { host.new.whole ≡ host.old.whole }
        ensures told { OnOk result (AddsNews self.entry.front.now self.entry.told
            (is_new_told self.entry.told.told (whole_in host.old) false key)
            (Some last.snapshot) snapshot
            out.old.items out.new.items) }
    {
        let earlier = last.kind_for(self.alloc, &snapshot)?;
        if !self.told.says() {
            return self.keep(host, key, false, earlier, snapshot, out);
        }
        tell_turned(
            self.alloc,
            self.told.by,
            self.front,
            &last.snapshot,
            &snapshot,
            desk,
            out,
        )?;
        let entry = Entry {
            front: self.kept_words()?,
            snapshot,
            earlier,
        };
        host.keep(key, self.at, entry)
    }

    /// Keeps a message of an interface in the place of its last one, and adds a line of what changed. Where it is of
    /// another kind, the last one went, and it came.
    fn put_over(
        self,
        host: &mut Host,
        key: Key,
        snapshot: Snapshot,
        desk: &mut Desk,
        out: &mut Vec<u8>,
    ) -> Result<(), AllocError>
        ensures known { OnOk result (Puts self.entry.front.now self.entry.told self.entry.at key
            snapshot (picture host.old) (picture host.new) out.old.items out.new.items) }
        ensures dump { host.new.dump ≡ host.old.dump }
        ensures whole { host.new.whole ≡ host.old.whole }
    {
        let Some(last) = host.take_last(key) else {
            return self.keep(host, key, false, None, snapshot, out);
        };
        if !last.is_another(&snapshot) {
            return self.put_beside(host, key, last, snapshot, desk, out);
        }
        self.tell_gone(&last.snapshot, out)?;
        self.end_parts(host, key, out)?;
        self.keep(host, key, true, None, snapshot, out)
    }

    /// Keeps a message of an interface, and adds a line of what changed, or that it came.
    pub fn put(
        self,
        host: &mut Host,
        key: Key,
        snapshot: Snapshot,
        desk: &mut Desk,
        out: &mut Vec<u8>,
    ) -> Result<(), AllocError>
        ensures known { OnOk result (Puts self.entry.front.now self.entry.told self.entry.at key
            snapshot (picture host.old) (picture host.new) out.old.items out.new.items) }
        ensures dump { host.new.dump ≡ host.old.dump }
        ensures whole { host.new.whole ≡ host.old.whole }
    {
        if !self.told.says() {
            return self.put_over(host, key, snapshot, desk, out);
        }
        if host.see_same(key, self.at, &snapshot) {
            return Ok(());
        }
        self.put_over(host, key, snapshot, desk, out)
    }
}
