//! What is known of the interfaces of a host.

ghost use Rattle.std.specs.Prelude.{◌≡◌, ◌==◌, ◌||◌, ◌++◌, ℕ, false, Some, IfOk, OnOk, IsTrue, option_map};
ghost use Rattle.message_diff.specs.declared.key.Key.{Key};
ghost use Rattle.message_diff.specs.Announced.{is_another, kind_in, kind_or};
ghost use Rattle.message_diff.specs.Held.{held, taken, put, last_of, seen_in, is_left, left, left_in};
ghost use Rattle.message_diff.specs.Held.{begin_of, come_again, kind_known, knows_any, picture, whole_in, text_at};
ghost use Rattle.message_diff.specs.Held.{end_of, start_of};
ghost use Rattle.message_diff.specs.Files.{words_told};
ghost use Rattle.message_diff.specs.Known.{key_cmp, is_since, nothing_known};
ghost use Rattle.std.specs.List.Sorted.{IsStrictlySortedBy};
ghost use Rattle.std.specs.Map.{keys_of};

use crate::announced::{are_two, kind_of};
use crate::key::{AF_BRIDGE, AF_INET6, AF_UNSPEC, Key};
use crate::snapshot::Snapshot;
use frame_shown::form::Order;
use std::alloc::{AllocError, Global};
use std::collections::BTreeMap;
use std::ops::Bound;

/// A message, and the words in front of it, where what is told is told at the end.
#[derive(Drop)]
pub struct Entry {
    pub front: Option<Vec<u8>>,
    pub snapshot: Snapshot,
    /// The kind that earlier messages of the interface named, where this one names none.
    pub earlier: Option<Vec<u8>>,
}

impl Entry {
    /// The words that are kept, or none.
    pub fn words(&self) -> &[u8]
        ensures { result.now ≡ words_told self.now }
    {
        match &self.front {
            Some(words) => words.as_slice(),
            None => b"",
        }
    }

    /// The kind of the interface, as far as it is known.
    pub fn kind(&self) -> Option<&[u8]>
        ensures { option_map (λ kind. kind.now) result ≡ kind_known self.now }
    {
        match (kind_of(self.snapshot.text()), &self.earlier) {
            (Some(kind), _) => Some(kind),
            (None, Some(kind)) => Some(kind.as_slice()),
            (None, None) => None,
        }
    }

    /// Whether a message is of another kind: then it is of another interface, which has its place.
    pub fn is_another(&self, new: &Snapshot) -> bool
        ensures { result ≡ is_another (kind_known self.now) new.now.text }
    {
        if self.snapshot.text() == new.text() {
            return false;
        }
        are_two(self.kind(), kind_of(new.text()))
    }

    /// The kind that is kept beside the next message of the interface: none where that names one.
    pub fn kind_for(&self, alloc: Global, new: &Snapshot) -> Result<Option<Vec<u8>>, AllocError>
        ensures { IfOk result (λ kept. kind_or (kind_in new.now.text) (option_map (λ k. k.items) kept)
            ≡ kind_or (kind_in new.now.text) (kind_known self.now)) }
    {
        if kind_of(new.text()).is_some() {
            return Ok(None);
        }
        match self.kind() {
            Some(kind) => Ok(Some(kind.to_vec(alloc)?)),
            None => Ok(None),
        }
    }
}

/// What is known of an interface.
#[derive(Drop)]
pub struct Known {
    /// The place of its last line.
    pub at: u64,
    /// The last message of it that was no refusal.
    pub last: Option<Entry>,
}

impl Known {
    /// The interface had a line with the same message once more, in this order. What it tells is told at once, so that
    /// no words are kept.
    fn see(&mut self, at: u64, order: Order)
        ensures { self.new ≡ record { at = at; last = come_again order self.old.last } }
    {
        self.at = at;
        if let Some(entry) = &mut self.last {
            entry.front = None;
            entry.snapshot.set_order(order);
        }
    }
}

/// A dump that runs.
#[derive(Drop)]
struct Dump {
    name: Vec<u8>,
    begin: u64,
}

/// What is known of the interfaces of a host, and of the dumps that it was asked for.
#[derive(Drop)]
pub struct Host {
    pub known: BTreeMap<Key, Known>,
    dump: Option<Dump>,
    whole: Vec<u8>,
}

/// The first interface of a family.
fn start_of(family: u8) -> Bound<Key>
    ensures { result ≡ start_of family }
{
    Bound::Included(Key { family, index: 0 })
}

/// The first one behind all those of a family.
fn end_of(family: u8) -> Bound<Key>
    ensures { result ≡ end_of family }
{
    match family.checked_add(1) {
        Some(family) => Bound::Excluded(Key { family, index: 0 }),
        None => Bound::Unbounded,
    }
}

/// The hosts, each under its name.
pub type Hosts = BTreeMap<Vec<u8>, Host>;

impl Host {
    /// A host of which nothing is known.
    pub fn new(alloc: Global) -> Host
        ensures { picture result ≡ nothing_known }
    {
        Host {
            known: BTreeMap::new(alloc),
            dump: None,
            whole: Vec::new(alloc),
        }
    }

    /// Whether anything is known, or a dump runs.
    pub fn knows_any(&self) -> bool
        ensures { result ≡ knows_any self.now }
    {
        !self.known.is_empty() || self.dump.is_some() || !self.whole.is_empty()
    }

    /// A dump with this name began at this place.
    pub fn begin(&mut self, name: Vec<u8>, begin: u64)
        ensures known { self.new.known ≡ self.old.known }
        ensures dump { self.new.dump ≡ Some (record { name = name; begin = begin }) }
        ensures whole { self.new.whole ≡ self.old.whole }
    {
        self.dump = Some(Dump { name, begin });
    }

    /// A line was read that may be of any interface: of the dump that runs it is not known what it has.
    pub fn break_dump(&mut self)
        ensures known { self.new.known ≡ self.old.known }
        ensures dump { self.new.dump ≡ None }
        ensures whole { self.new.whole ≡ self.old.whole }
    {
        self.dump = None;
    }

    /// Where the dump with this name began, if it is the one that runs.
    pub fn begin_of(&self, name: &[u8]) -> Option<u64>
        ensures { result ≡ begin_of self.now.dump name.now }
    {
        match &self.dump {
            Some(dump) if dump.name.as_slice() == name => Some(dump.begin),
            _ => None,
        }
    }

    /// A dump of this family had all.
    pub fn keep_whole(&mut self, family: u8) -> Result<(), AllocError>
        ensures known { self.new.known ≡ self.old.known }
        ensures dump { self.new.dump ≡ self.old.dump }
        ensures whole { OnOk result ((f : ℕ) → whole_in self.new f
            ≡ (whole_in self.old f || family == f)) }
    {
        if !self.is_whole(family) {
            self.whole.push(family)?;
        }
        Ok(())
    }

    /// Whether some dump of this family had all.
    pub fn is_whole(&self, family: u8) -> bool
        ensures { result ≡ whole_in self.now family }
    {
        self.whole.as_slice().contains(&family)
    }

    /// Whether an interface had a line at this place or later.
    fn is_since(&self, key: Key, at: u64) -> bool
        ensures { result ≡ is_since at (seen_in (held self.now key)) }
    {
        match self.known.get(&key) {
            Some(known) => at <= known.at,
            None => false,
        }
    }

    /// Whether a dump of this family that began there should have had an interface, and did not.
    fn is_missed(&self, key: Key, known: &Known, family: u8, begin: u64) -> bool
        ensures { result ≡ is_left self.now.known.entries family begin (key, known.now) }
    {
        known.at < begin
            && key.is_reached_from(family)
            && !self.is_since(key.in_family(family), begin)
    }

    /// Adds those in one family, in order, that a dump of another one which began there should have had and did not.
    fn add_missed(
        &self,
        within: u8,
        family: u8,
        begin: u64,
        missed: &mut Vec<Key>,
    ) -> Result<(), AllocError>
        ensures keys { OnOk result (missed.new.items
            ≡ missed.old.items ++ keys_of (left_in self.now within family begin)) }
        ensures ordered { IsStrictlySortedBy key_cmp (keys_of self.now.known.entries) }
    {
        for (key, known) in self.known.range((start_of(within), end_of(within))) {
            if self.is_missed(*key, known, family, begin) {
                missed.push(*key)?;
            }
        }
        Ok(())
    }

    /// The interfaces, in order, that a dump of this family which began there should have had and did not.
    pub fn missed(&self, alloc: Global, family: u8, begin: u64) -> Result<Vec<Key>, AllocError>
        ensures keys { IfOk result (λ keys. keys.items ≡ keys_of (left self.now family begin)) }
        ensures ordered { IsStrictlySortedBy key_cmp (keys_of self.now.known.entries) }
    {
        let mut missed = Vec::new(alloc);
        self.add_missed(family, family, begin, &mut missed)?;
        if family != AF_UNSPEC {
            return Ok(missed);
        }
        self.add_missed(AF_BRIDGE, family, begin, &mut missed)?;
        self.add_missed(AF_INET6, family, begin, &mut missed)?;
        Ok(missed)
    }

    /// Takes an interface out, with its last message.
    pub fn take(&mut self, key: Key) -> Option<Known>
        ensures was { result ≡ held self.old key }
        ensures known { (q : Key) → held self.new q ≡ taken key (held self.old) q }
        ensures dump { self.new.dump ≡ self.old.dump }
        ensures whole { self.new.whole ≡ self.old.whole }
    {
        self.known.remove(&key)
    }

    /// Takes an interface out, and returns its last message.
    pub fn take_last(&mut self, key: Key) -> Option<Entry>
        ensures was { result ≡ last_of (held self.old key) }
        ensures known { (q : Key) → held self.new q ≡ taken key (held self.old) q }
        ensures dump { self.new.dump ≡ self.old.dump }
        ensures whole { self.new.whole ≡ self.old.whole }
    {
        match self.known.remove(&key) {
            Some(known) => known.last,
            None => None,
        }
    }

    /// Whether the last message of an interface has this encoding.
    fn is_same(&self, key: Key, text: &[u8]) -> bool
        ensures { IsTrue result → text_at (last_of (held self.now key)) ≡ Some text.now }
    {
        match self.known.get(&key) {
            Some(
                Known {
                    last: Some(entry),
                    ..
                },
            ) => entry.snapshot.text() == text,
            _ => false,
        }
    }

    /// Sees a line of an interface, if its last message has the same encoding, and returns whether it has. From then on
    /// it has the order of the new one.
    pub fn see_same(&mut self, key: Key, at: u64, new: &Snapshot) -> bool
        ensures same { IsTrue result → text_at (last_of (held self.old key)) ≡ Some new.now.text }
        ensures known { IsTrue result → (q : Key) → held self.new q ≡ put key
            (record { at = at; last = come_again new.now.order (last_of (held self.old key)) })
            (held self.old) q }
        ensures other { result ≡ false → self.new ≡ self.old }
        ensures dump { self.new.dump ≡ self.old.dump }
        ensures whole { self.new.whole ≡ self.old.whole }
    {
        if !self.is_same(key, new.text()) {
            return false;
        }
        match self.known.get_mut(&key) {
            Some(known) => {
                known.see(at, new.order());
                true
            }
            None => false,
        }
    }

    /// An interface had a line that tells nothing more of it.
    pub fn see(&mut self, key: Key, at: u64) -> Result<(), AllocError>
        ensures known { OnOk result ((q : Key) → held self.new q
            ≡ put key (record { at = at; last = last_of (held self.old key) }) (held self.old) q) }
        ensures dump { self.new.dump ≡ self.old.dump }
        ensures whole { self.new.whole ≡ self.old.whole }
    {
        if let Some(known) = self.known.get_mut(&key) {
            known.at = at;
            return Ok(());
        }
        self.known.insert(key, Known { at, last: None })?;
        Ok(())
    }

    /// Keeps a message of an interface.
    pub fn keep(&mut self, key: Key, at: u64, entry: Entry) -> Result<(), AllocError>
        ensures known { OnOk result ((q : Key) → held self.new q
            ≡ put key (record { at = at; last = Some entry }) (held self.old) q) }
        ensures dump { self.new.dump ≡ self.old.dump }
        ensures whole { self.new.whole ≡ self.old.whole }
    {
        let last = Some(entry);
        self.known.insert(key, Known { at, last })?;
        Ok(())
    }
}
