//! Entries of the lists of functions and of ports: the calls that both have.

ghost use Rattle.std.specs.Prelude.{◌≡◌, ◌≢◌, ◌*◌, ◌≤◌, ℕ, List, length, Ok, IfOk, IfErr, MatchResult, true};
ghost use Rattle.nla_wire.specs.Sizes.{most_payload, plain_growth};
ghost use Rattle.nla_wire.specs.Frames.{Frame};
ghost use Rattle.nla_wire.specs.Grammar.{Grammar, picked};
ghost use Rattle.nla_wire.specs.Canon.{canon, canons, AllFit, Weighs, HasRoom, Rewrites, RoomWhereFit, Canonical};
ghost use Rattle.nla_wire.specs.Canon.{MeansLength, MeansEncoding, MeansWritten};
ghost use Rattle.nla_wire.specs.Gives.{Fails, Gives, Checks};
ghost use Rattle.nla_wire.specs.declared.error.Cause.TheVariants.{OutOfMemory};
ghost use Rattle.link_vf.specs.Entries.{entry, EntryLaws};

use nla_wire::{
    DecodeError, List, Nla, NlaBuffer, NlaRead, Place, check_members, empty_list, measure_members,
    measure_nested_members, parse_members, write_members, write_nested_members,
};
use std::alloc::Global;

/// An entry of a list whose entries with another number are dropped unread: IFLA_VFINFO_LIST and IFLA_VF_PORTS. The
/// entry is a list of members itself, which must not be empty.
///
/// A type says its number, its members and its name; how entries and their lists are read and written follows from
/// these, and is said once.
pub trait Entry: Nla + Drop + Sized {
    /// What an entry is a list of.
    type Member: NlaRead;

    /// The number of the entries that are read.
    const NUMBER: u16;

    /// Their name, for a log.
    const NAME: &'static str;

    ghost NUMBER: { ℕ };

    ghost of: { List Self.Member → Self };

    ghost members: { Self → List Self.Member };

    ghost grammar: { Grammar Frame Self };

    ghost count: { Self → ℕ };

    /// The entry with these members.
    fn from_list(list: List<Self::Member>) -> Self
        ensures { result ≡ of list };

    ghost laws: { EntryLaws of members Self.Member.grammar Self.Member.frame Self.Member.fits NUMBER
        grammar Self.frame Self.fits count plain_growth 0 };

    /// Reads the list that is the entry's payload.
    ///
    /// Refuses the empty payload with `EmptyList`, and else with the cause of the first fault, front to back, or with
    /// `OutOfMemory`.
    final fn parse(alloc: Global, payload: &[u8]) -> Result<Self, DecodeError>
        ensures found { IfOk result ((entry of Self.Member.grammar).means payload.now) }
        ensures fault { IfErr result
            (λ e. e.cause ≢ OutOfMemory → (entry of Self.Member.grammar).bad payload.now e.cause) }
        ensures refused { IfErr result (λ e. e.cause ≢ OutOfMemory
            → (v : Self) → (entry of Self.Member.grammar).means payload.now v → ⊥) }
        ensures reads { Gives result ((entry of Self.Member.grammar).reads payload.now) }
        ensures few { IfOk result (λ v. 4 * length (members v) ≤ length payload.now) }
    {
        if payload.is_empty() {
            return Err(empty_list());
        }
        let members = Self::Member::parse_list(alloc, payload)?;
        Ok(Self::from_list(List::new(members)))
    }

    /// Whether a payload is an entry, with no memory taken: `Ok` where `parse` reads it, else the cause of its first
    /// fault.
    final fn check(payload: &[u8]) -> Result<(), DecodeError>
        ensures found { IfOk result
            (λ _. (v : Self) × (entry of Self.Member.grammar).means payload.now v) }
        ensures fault { IfErr result
            (λ e. (entry of Self.Member.grammar).bad payload.now e.cause) }
        ensures refused { IfErr result
            (λ e. (v : Self) → (entry of Self.Member.grammar).means payload.now v → ⊥) }
        ensures memory { IfErr result (λ e. e.cause ≢ OutOfMemory) }
        ensures reads { Checks result ((entry of Self.Member.grammar).reads payload.now) }
    {
        if payload.is_empty() {
            return Err(empty_list());
        }
        Self::Member::check_list(payload)
    }

    /// Writes the canonical encoding of the entry's members to the front of the buffer, with no memory taken, and
    /// returns its length. The rest of the buffer is kept.
    ///
    /// There is room for that encoding: `growth_per_byte` bytes for each byte of the payload are enough. Returns `None`
    /// where a member does not fit or the payload is refused, and changes nothing then.
    final fn canon(payload: &[u8], out: &mut [u8]) -> Option<usize>
        requires room { RoomWhereFit (λ v. canons Self.Member.frame (members v))
            (λ v. AllFit Self.Member.fits Self.Member.frame (members v))
            ((entry of Self.Member.grammar).reads payload.now) (length out.old) }
        ensures means { MeansEncoding ((entry of Self.Member.grammar).means payload.now)
            (λ v. canons Self.Member.frame (members v))
            (λ v. AllFit Self.Member.fits Self.Member.frame (members v)) out.old out.new result }
        ensures reads { Canonical (λ v. canons Self.Member.frame (members v))
            (λ v. AllFit Self.Member.fits Self.Member.frame (members v))
            ((entry of Self.Member.grammar).reads payload.now) out.old out.new result }
    {
        if payload.is_empty() {
            return None;
        }
        Self::Member::canon_list(payload, out)
    }

    /// The length of the canonical encoding of the entry's members as the value of an attribute, with no memory taken;
    /// `None` where it does not fit or the payload is refused.
    final fn measure_entry(payload: &[u8]) -> Option<usize>
        ensures means { MeansLength ((entry of Self.Member.grammar).means payload.now)
            (λ v. canons Self.Member.frame (members v)) Self.fits result }
        ensures reads { Weighs (λ v. canons Self.Member.frame (members v)) Self.fits
            ((entry of Self.Member.grammar).reads payload.now) result }
    {
        Self::Member::measure_some(payload)
    }

    /// Writes the attribute of this kind whose value is the canonical encoding of the entry's members, which was
    /// measured, to the front of the buffer, and returns its length. The rest of the buffer is kept.
    final fn write_entry(kind: u16, payload: &[u8], out: &mut [u8]) -> usize
        requires { HasRoom
            (λ v. canon (record { kind = kind; payload = canons Self.Member.frame (members v) }))
            Self.fits ((entry of Self.Member.grammar).reads payload.now) (length out.old) }
        ensures means { MeansWritten ((entry of Self.Member.grammar).means payload.now)
            (λ v. canon (record { kind = kind; payload = canons Self.Member.frame (members v) }))
            out.old out.new result }
        ensures reads { Rewrites
            (λ v. canon (record { kind = kind; payload = canons Self.Member.frame (members v) }))
            ((entry of Self.Member.grammar).reads payload.now) out.old out.new result }
    {
        Self::Member::write_some(kind, payload, out)
    }

    /// Reads a list of entries: those with another number than `NUMBER` are dropped unread. The empty payload is the
    /// empty list.
    ///
    /// Refuses with the cause of the first fault, front to back, or with `OutOfMemory`.
    final fn parse_list(alloc: Global, payload: &[u8]) -> Result<Vec<Self>, DecodeError>
        ensures found { IfOk result (λ v. (picked grammar).means payload.now v.items) }
        ensures fault { IfErr result
            (λ e. e.cause ≢ OutOfMemory → (picked grammar).bad payload.now e.cause) }
        ensures refused { IfErr result (λ e. e.cause ≢ OutOfMemory
            → (vs : List Self) → (picked grammar).means payload.now vs → ⊥) }
        ensures reads { MatchResult result (λ v. (picked grammar).reads payload.now ≡ Ok v.items)
            (λ e. Fails e.cause ((picked grammar).reads payload.now)) }
        ensures few { IfOk result (λ v. 4 * length v.items ≤ length payload.now) }
    {
        parse_members::<Self, EntryPlace>(&EntryPlace, alloc, payload)
    }

    /// Whether a payload is such a list, with no memory taken: `Ok` where `parse_list` reads it, else the cause of its
    /// first fault.
    final fn check_list(payload: &[u8]) -> Result<(), DecodeError>
        ensures found { IfOk result
            (λ _. (vs : List Self) × (picked grammar).means payload.now vs) }
        ensures fault { IfErr result (λ e. (picked grammar).bad payload.now e.cause) }
        ensures refused { IfErr result
            (λ e. (vs : List Self) → (picked grammar).means payload.now vs → ⊥) }
        ensures memory { IfErr result (λ e. e.cause ≢ OutOfMemory) }
        ensures reads { Checks result ((picked grammar).reads payload.now) }
    {
        check_members::<Self, EntryPlace>(&EntryPlace, payload)
    }

    /// Writes the canonical encoding of such a list's entries to the front of the buffer, with no memory taken, and
    /// returns its length. The rest of the buffer is kept.
    ///
    /// There is room for that encoding: `growth_per_byte` bytes for each byte of the payload are enough. Returns `None`
    /// where an entry does not fit or the payload is refused, and changes nothing then.
    final fn canon_list(payload: &[u8], out: &mut [u8]) -> Option<usize>
        requires room { RoomWhereFit (canons Self.frame) (AllFit Self.fits Self.frame)
            ((picked grammar).reads payload.now) (length out.old) }
        ensures means { MeansEncoding ((picked grammar).means payload.now) (canons Self.frame)
            (AllFit Self.fits Self.frame) out.old out.new result }
        ensures reads { Canonical (canons Self.frame) (AllFit Self.fits Self.frame)
            ((picked grammar).reads payload.now) out.old out.new result }
    {
        let Some(_len) = measure_members::<Self, EntryPlace>(&EntryPlace, payload) else {
            return None;
        };
        Some(write_members::<Self, EntryPlace>(&EntryPlace, payload, out))
    }

    /// The length of the canonical encoding of such a list's entries as the value of an attribute, with no memory
    /// taken; `None` where it does not fit or the payload is refused.
    final fn measure_list(payload: &[u8]) -> Option<usize>
        ensures means { MeansLength ((picked grammar).means payload.now) (canons Self.frame)
            (λ vs. (length (canons Self.frame vs) ≤ most_payload) × AllFit Self.fits Self.frame vs)
            result }
        ensures reads { Weighs (canons Self.frame) (λ vs. (length (canons Self.frame vs)
            ≤ most_payload) × AllFit Self.fits Self.frame vs)
            ((picked grammar).reads payload.now) result }
    {
        measure_nested_members::<Self, EntryPlace>(&EntryPlace, payload)
    }

    /// Writes the attribute of this kind whose value is the canonical encoding of such a list's entries, which was
    /// measured, to the front of the buffer, and returns its length. The rest of the buffer is kept.
    final fn write_list(kind: u16, payload: &[u8], out: &mut [u8]) -> usize
        requires { HasRoom (λ vs. canon (record { kind = kind; payload = canons Self.frame vs }))
            (λ vs. (length (canons Self.frame vs) ≤ most_payload) × AllFit Self.fits Self.frame vs)
            ((picked grammar).reads payload.now) (length out.old) }
        ensures means { MeansWritten ((picked grammar).means payload.now)
            (λ vs. canon (record { kind = kind; payload = canons Self.frame vs }))
            out.old out.new result }
        ensures reads { Rewrites
            (λ vs. canon (record { kind = kind; payload = canons Self.frame vs }))
            ((picked grammar).reads payload.now) out.old out.new result }
    {
        write_nested_members::<Self, EntryPlace>(&EntryPlace, kind, payload, out)
    }
}

/// The place of an entry, whose list drops entries with another number.
#[derive(Debug, Clone, Copy, Drop)]
pub struct EntryPlace;

impl<E: Entry> Place<E> for EntryPlace {
    ghost grammar = { λ place. E.Entry.grammar };

    ghost picks = { λ place. true };

    #[inline(always)]
    fn drops(&self, kind: u16) -> bool {
        kind != E::NUMBER
    }

    fn kind_name(&self, kind: u16) -> &'static str {
        if kind == E::NUMBER { E::NAME } else { "" }
    }

    fn parse_into(
        &self,
        alloc: Global,
        buffer: &NlaBuffer<'_>,
        values: &mut Vec<E>,
    ) -> Result<(), DecodeError> {
        let value = E::parse(alloc, buffer.value())?;
        values.push_reserved(value);
        Ok(())
    }

    fn check(&self, buffer: &NlaBuffer<'_>) -> Result<(), DecodeError> {
        E::check(buffer.value())
    }

    fn measure(&self, buffer: &NlaBuffer<'_>) -> Option<usize> {
        E::Member::measure_some(buffer.value())
    }

    fn write(&self, buffer: &NlaBuffer<'_>, out: &mut [u8]) -> usize {
        E::Member::write_some(E::NUMBER, buffer.value(), out)
    }

    ghost agrees = { λ place. E.Entry.laws.lawful.agrees };

    ghost no_memory = { λ place. E.Entry.laws.lawful.no_memory };

    ghost bounded = { λ place. E.Entry.laws.bounded };
}
