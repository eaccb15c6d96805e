//! Lists of members of a place, without those that it drops: read, checked, measured and written.

ghost use Rattle.std.specs.Prelude.{◌≡◌, ◌≢◌, ◌*◌, ◌≤◌, List, length, IfOk, IfErr, MatchResult};
ghost use Rattle.nla_wire.specs.Sizes.{most_payload};
ghost use Rattle.nla_wire.specs.Grammar.{members};
ghost use Rattle.nla_wire.specs.Canon.{canon, canons, AllFit, Weighs, HasRoom, Rewrites, MeansLength, MeansWritten};
ghost use Rattle.nla_wire.specs.Items.{items, frame_count};
ghost use Rattle.nla_wire.specs.Gives.{Fails, Checks};
ghost use Rattle.nla_wire.specs.declared.error.Cause.TheVariants.{OutOfMemory};

use crate::buffer::NLA_HEADER_SIZE;
use crate::error::DecodeError;
use crate::iterator::NlasIterator;
use crate::nla::Nla;
use crate::place::{Place, add_one, check_one, is_measured};
use crate::write::{add_len, at_most_value, finish, padded_len};
use std::alloc::Global;

/// How many frames the bytes begin with: at most one for each four bytes.
fn count_frames(bytes: &[u8]) -> usize
    ensures count { result ≡ frame_count (items bytes.now) }
    ensures few { 4 * result ≤ length bytes.now }
{
    let mut count = 0;
    for item in NlasIterator::new(bytes) {
        if item.is_ok() {
            count += 1;
        }
    }
    count
}

/// Reads the list that `parse_members` reads; for the proof: its clause cites the reader alone, and those of
/// `parse_members` follow.
fn parse_each<V: Nla + Drop, P: Place<V>>(
    place: &P,
    alloc: Global,
    bytes: &[u8],
) -> Result<Vec<V>, DecodeError>
    ensures reads { MatchResult result
        (λ v. (members (P.picks place.now) (P.grammar place.now)).reads bytes.now ≡ Ok v.items)
        (λ e. Fails e.cause
        ((members (P.picks place.now) (P.grammar place.now)).reads bytes.now)) }
    ensures few { IfOk result (λ v. 4 * length v.items ≤ length bytes.now) }
{
    let mut values = Vec::with_capacity(alloc, count_frames(bytes))?;
    for item in NlasIterator::new(bytes) {
        let frame = item?;
        if !place.drops(frame.kind()) {
            values.reserve(1)?;
            add_one(place, alloc, &frame, &mut values)?;
        }
    }
    Ok(values)
}

/// Reads a list of members of this place; those that it drops are not read.
///
/// Refuses with the cause of the fault that is met first, front to back, each member's value before the next frame; or
/// with `OutOfMemory`. There are at least four bytes for each value.
#[inline(always)]
pub fn parse_members<V: Nla + Drop, P: Place<V>>(
    place: &P,
    alloc: Global,
    bytes: &[u8],
) -> Result<Vec<V>, DecodeError>
    ensures found { IfOk result
        (λ v. (members (P.picks place.now) (P.grammar place.now)).means bytes.now v.items) }
    ensures fault { IfErr result (λ e. e.cause ≢ OutOfMemory
        → (members (P.picks place.now) (P.grammar place.now)).bad bytes.now e.cause) }
    ensures refused { IfErr result (λ e. e.cause ≢ OutOfMemory → (vs : List V)
        → (members (P.picks place.now) (P.grammar place.now)).means bytes.now vs → ⊥) }
    ensures reads { MatchResult result
        (λ v. (members (P.picks place.now) (P.grammar place.now)).reads bytes.now ≡ Ok v.items)
        (λ e. Fails e.cause
        ((members (P.picks place.now) (P.grammar place.now)).reads bytes.now)) }
    ensures few { IfOk result (λ v. 4 * length v.items ≤ length bytes.now) }
{
    parse_each(place, alloc, bytes)
}

/// Looks for the fault that `check_members` finds; for the proof: its clause cites the reader alone, and those of
/// `check_members` follow. Members are measured, and only one that has no length is looked at for a fault.
fn check_each<V: Nla + Drop, P: Place<V>>(place: &P, bytes: &[u8]) -> Result<(), DecodeError>
    ensures { Checks result
        ((members (P.picks place.now) (P.grammar place.now)).reads bytes.now) }
{
    for item in NlasIterator::new(bytes) {
        let frame = item?;
        if !place.drops(frame.kind()) && !is_measured(place, &frame) {
            check_one(place, &frame.again())?;
        }
    }
    Ok(())
}

/// Whether the bytes are a list of members of this place, with no memory taken: `Ok` where they are, else the cause of
/// the fault that is met first.
#[inline(always)]
pub fn check_members<V: Nla + Drop, P: Place<V>>(place: &P, bytes: &[u8]) -> Result<(), DecodeError>
    ensures found { IfOk result (λ _. (vs : List V)
        × (members (P.picks place.now) (P.grammar place.now)).means bytes.now vs) }
    ensures fault { IfErr result
        (λ e. (members (P.picks place.now) (P.grammar place.now)).bad bytes.now e.cause) }
    ensures refused { IfErr result (λ e. (vs : List V)
        → (members (P.picks place.now) (P.grammar place.now)).means bytes.now vs → ⊥) }
    ensures memory { IfErr result (λ e. e.cause ≢ OutOfMemory) }
    ensures reads { Checks result
        ((members (P.picks place.now) (P.grammar place.now)).reads bytes.now) }
{
    check_each(place, bytes)
}

/// The length that `measure_members` returns; for the proof: its clause cites the reader alone, and those of
/// `measure_members` follow. It is a function of its own for each place, whose loop has the registers.
#[inline(never)]
fn measure_each<V: Nla + Drop, P: Place<V>>(place: &P, bytes: &[u8]) -> Option<usize>
    ensures { Weighs (canons V.frame) (AllFit V.fits V.frame)
        ((members (P.picks place.now) (P.grammar place.now)).reads bytes.now) result }
{
    let mut len: usize = 0;
    for item in NlasIterator::new(bytes) {
        let Ok(frame) = item else {
            return None;
        };
        if !place.drops(frame.kind()) {
            let Some(value) = place.measure(&frame) else {
                return None;
            };
            let Some(more) = add_len(len, padded_len(value)) else {
                return None;
            };
            len = more;
        }
    }
    Some(len)
}

/// The length of the canonical encoding of a list's members, with no memory taken; `None` where a member does not fit,
/// or the list is refused.
#[inline(always)]
pub fn measure_members<V: Nla + Drop, P: Place<V>>(place: &P, bytes: &[u8]) -> Option<usize>
    ensures means { MeansLength
        ((members (P.picks place.now) (P.grammar place.now)).means bytes.now)
        (canons V.frame) (AllFit V.fits V.frame) result }
    ensures reads { Weighs (canons V.frame) (AllFit V.fits V.frame)
        ((members (P.picks place.now) (P.grammar place.now)).reads bytes.now) result }
{
    measure_each(place, bytes)
}

/// The same where the encoding is to be the value of an attribute: `None` too where it has more than 65531 bytes.
pub fn measure_nested_members<V: Nla + Drop, P: Place<V>>(place: &P, bytes: &[u8]) -> Option<usize>
    ensures means { MeansLength
        ((members (P.picks place.now) (P.grammar place.now)).means bytes.now)
        (canons V.frame) (λ vs. (length (canons V.frame vs) ≤ most_payload)
        × AllFit V.fits V.frame vs) result }
    ensures reads { Weighs (canons V.frame) (λ vs. (length (canons V.frame vs) ≤ most_payload)
        × AllFit V.fits V.frame vs)
        ((members (P.picks place.now) (P.grammar place.now)).reads bytes.now) result }
{
    let Some(len) = measure_members(place, bytes) else {
        return None;
    };
    at_most_value(len)
}

/// Writes what `write_members` writes; for the proof: its clause cites the reader alone, and those of `write_members`
/// follow. It is a function of its own for each place, whose loop has the registers.
#[inline(never)]
fn write_each<V: Nla + Drop, P: Place<V>>(place: &P, bytes: &[u8], out: &mut [u8]) -> usize
    requires { HasRoom (canons V.frame) (AllFit V.fits V.frame)
        ((members (P.picks place.now) (P.grammar place.now)).reads bytes.now) (length out.old) }
    ensures { Rewrites (canons V.frame)
        ((members (P.picks place.now) (P.grammar place.now)).reads bytes.now)
        out.old out.new result }
{
    let mut at = 0;
    for item in NlasIterator::new(bytes) {
        let Ok(frame) = item else {
            return at;
        };
        if !place.drops(frame.kind()) {
            at += place.write(&frame, &mut out[at..]);
        }
    }
    at
}

/// Writes the canonical encoding of a list's members, one after the other, to the front of the buffer, and returns its
/// length. The rest of the buffer is kept.
///
/// The list was measured, and there is room for its encoding.
#[inline(always)]
pub fn write_members<V: Nla + Drop, P: Place<V>>(place: &P, bytes: &[u8], out: &mut [u8]) -> usize
    requires { HasRoom (canons V.frame) (AllFit V.fits V.frame)
        ((members (P.picks place.now) (P.grammar place.now)).reads bytes.now) (length out.old) }
    ensures means { MeansWritten
        ((members (P.picks place.now) (P.grammar place.now)).means bytes.now)
        (canons V.frame) out.old out.new result }
    ensures reads { Rewrites (canons V.frame)
        ((members (P.picks place.now) (P.grammar place.now)).reads bytes.now)
        out.old out.new result }
{
    write_each(place, bytes, out)
}

/// Writes the attribute of this kind whose value is the canonical encoding of a list's members, as `write_members`
/// does.
pub fn write_nested_members<V: Nla + Drop, P: Place<V>>(
    place: &P,
    kind: u16,
    bytes: &[u8],
    out: &mut [u8],
) -> usize
    requires { HasRoom (λ vs. canon (record { kind = kind; payload = canons V.frame vs }))
        (λ vs. (length (canons V.frame vs) ≤ most_payload) × AllFit V.fits V.frame vs)
        ((members (P.picks place.now) (P.grammar place.now)).reads bytes.now) (length out.old) }
    ensures means { MeansWritten
        ((members (P.picks place.now) (P.grammar place.now)).means bytes.now)
        (λ vs. canon (record { kind = kind; payload = canons V.frame vs }))
        out.old out.new result }
    ensures reads { Rewrites (λ vs. canon (record { kind = kind; payload = canons V.frame vs }))
        ((members (P.picks place.now) (P.grammar place.now)).reads bytes.now)
        out.old out.new result }
{
    let len = write_members(place, bytes, &mut out[NLA_HEADER_SIZE..]);
    finish(out, len, kind)
}
