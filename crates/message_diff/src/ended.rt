//! What is forgotten, and told, of interfaces that went.

ghost use Rattle.std.specs.Prelude.{◌≡◌, ℕ, OnOk, None, Some, cond};
ghost use Rattle.std.specs.List.Sorted.{IsStrictlySortedBy};
ghost use Rattle.message_diff.specs.declared.key.Key.{Key};
ghost use Rattle.message_diff.specs.Known.{Item, key_cmp, is_among, is_ended_with, parts, whole_after, without};
ghost use Rattle.message_diff.specs.Told.{says, is_told_gone, own_shot, AddsGone, AddsAllGone, AddsTold};
ghost use Rattle.message_diff.specs.Held.{held, taken, picture, seen_in, whole_in, shot_told};

use crate::key::{AF_BRIDGE, AF_INET6, Key};
use crate::line::Line;
use crate::snapshot::Snapshot;
use crate::store::Host;
use crate::told::push_gone;
use std::alloc::AllocError;

impl Line<'_> {
    /// Adds a line that an interface went, which was this at last.
    pub fn tell_gone(self, last: &Snapshot, out: &mut Vec<u8>) -> Result<(), AllocError>
        ensures { OnOk result (AddsGone self.entry.front.now
            (cond (says self.entry.told.told) (Some last.now) None) out.old.items out.new.items) }
    {
        if !self.told.says() {
            return Ok(());
        }
        push_gone(self.alloc, self.front, last, out)
    }

    /// Forgets an interface, and adds a line if a message of it was no refusal.
    fn forget(self, host: &mut Host, key: Key, out: &mut Vec<u8>) -> Result<(), AllocError>
        ensures known { (q : Key) → held host.new q ≡ taken key (held host.old) q }
        ensures dump { host.new.dump ≡ host.old.dump }
        ensures whole { host.new.whole ≡ host.old.whole }
        ensures told { OnOk result (AddsGone self.entry.front.now
            (shot_told self.entry.told host.old key) out.old.items out.new.items) }
    {
        let Some(known) = host.take(key) else {
            return Ok(());
        };
        match known.last {
            Some(entry) => self.tell_gone(&entry.snapshot, out),
            None => Ok(()),
        }
    }

    /// Forgets an interface that went, where this is what it was, and adds a line, if anything was known of it: also
    /// where all its lines were refused. One alone has a line even where nothing was known of it.
    fn forget_told(
        self,
        host: &mut Host,
        key: Key,
        gone: &Snapshot,
        out: &mut Vec<u8>,
    ) -> Result<(), AllocError>
        ensures known { (q : Key) → held host.new q ≡ taken key (held host.old) q }
        ensures dump { host.new.dump ≡ host.old.dump }
        ensures whole { host.new.whole ≡ host.old.whole }
        ensures told { OnOk result (AddsGone self.entry.front.now
            (cond (says self.entry.told.told)
            (cond (is_told_gone key (seen_in (held host.old key))) (Some gone.now) None) None)
            out.old.items out.new.items) }
    {
        let is_told = match host.take(key) {
            Some(_known) => true,
            None => key.is_alone(),
        };
        if is_told {
            return self.tell_gone(gone, out);
        }
        Ok(())
    }

    /// Forgets each family in which more was said of an interface that went, and adds a line for each: of a bridge, and
    /// in AF_INET6, the kernel announces only the interface alone.
    pub fn end_parts(self, host: &mut Host, key: Key, out: &mut Vec<u8>) -> Result<(), AllocError>
        ensures known { OnOk result ((q : Key) → held host.new q
            ≡ cond (is_among (parts key) q) None (held host.old q)) }
        ensures dump { host.new.dump ≡ host.old.dump }
        ensures whole { host.new.whole ≡ host.old.whole }
        ensures told { OnOk result (AddsAllGone self.entry.front.now
            (shot_told self.entry.told host.old) (parts key) out.old.items out.new.items) }
    {
        if !key.is_alone() {
            return Ok(());
        }
        self.forget(host, key.in_family(AF_BRIDGE), out)?;
        self.forget(host, key.in_family(AF_INET6), out)
    }

    /// Forgets an interface that went, and adds a line.
    fn forget_own(
        self,
        host: &mut Host,
        key: Key,
        gone: Option<Snapshot>,
        out: &mut Vec<u8>,
    ) -> Result<(), AllocError>
        ensures known { (q : Key) → held host.new q ≡ taken key (held host.old) q }
        ensures dump { host.new.dump ≡ host.old.dump }
        ensures whole { host.new.whole ≡ host.old.whole }
        ensures told { OnOk result (AddsGone self.entry.front.now
            (cond (says self.entry.told.told) (own_shot key gone (seen_in (held host.old key))) None)
            out.old.items out.new.items) }
    {
        match gone {
            Some(snapshot) => self.forget_told(host, key, &snapshot, out),
            None => self.forget(host, key, out),
        }
    }

    /// Forgets an interface that went, with its parts, and adds a line for each.
    pub fn end(
        self,
        host: &mut Host,
        key: Key,
        gone: Option<Snapshot>,
        out: &mut Vec<u8>,
    ) -> Result<(), AllocError>
        ensures known { OnOk result ((q : Key) → held host.new q
            ≡ cond (is_ended_with key q) None (held host.old q)) }
        ensures dump { host.new.dump ≡ host.old.dump }
        ensures whole { host.new.whole ≡ host.old.whole }
        ensures told { OnOk result (AddsTold self.entry.front.now self.entry.told
            (picture host.old) (Item.went key gone) out.old.items out.new.items) }
    {
        self.forget_own(host, key, gone, out)?;
        self.end_parts(host, key, out)
    }

    /// Forgets these interfaces, and adds a line for each.
    fn forget_all(self, host: &mut Host, keys: &[Key], out: &mut Vec<u8>) -> Result<(), AllocError>
        ensures known { OnOk result ((q : Key) → held host.new q
            ≡ cond (is_among keys.now q) None (held host.old q)) }
        ensures dump { host.new.dump ≡ host.old.dump }
        ensures whole { host.new.whole ≡ host.old.whole }
        ensures told { OnOk result (IsStrictlySortedBy key_cmp keys.now
            → AddsAllGone self.entry.front.now (shot_told self.entry.told host.old) keys.now
            out.old.items out.new.items) }
    {
        for key in keys {
            self.forget(host, *key, out)?;
        }
        Ok(())
    }

    /// Forgets the interfaces that a dump of this family did not have, which has ended, and adds a line for each. One
    /// whose beginning was not read, or not all of its lines, ends none.
    pub fn finish(
        self,
        host: &mut Host,
        dump: &[u8],
        family: u8,
        out: &mut Vec<u8>,
    ) -> Result<(), AllocError>
        ensures known { OnOk result ((q : Key) → (picture host.new).of q
            ≡ without (picture host.old) (Item.finished dump.now family) q) }
        ensures dump { host.new.dump ≡ host.old.dump }
        ensures whole { OnOk result ((f : ℕ) → whole_in host.new f
            ≡ whole_after (picture host.old) (Item.finished dump.now family) f) }
        ensures told { OnOk result (AddsTold self.entry.front.now self.entry.told
            (picture host.old) (Item.finished dump.now family) out.old.items out.new.items) }
    {
        let Some(begin) = host.begin_of(dump) else {
            return Ok(());
        };
        let missed = host.missed(self.alloc, family, begin)?;
        self.forget_all(host, missed.as_slice(), out)?;
        host.keep_whole(family)
    }
}
