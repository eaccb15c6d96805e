//! What came with the new file, and what changed.

ghost use Rattle.std.specs.Prelude.{◌≡◌, ◌∷◌, [], Some, cond, OnOk, map, option_copied};
ghost use Rattle.std.specs.List.{flat_map};
ghost use Rattle.std.specs.Map.{keys_of};
ghost use Rattle.message_diff.specs.Known.{in_family};
ghost use Rattle.message_diff.specs.Files.{News, words_told, found, found_last, known_at, are_two};
ghost use Rattle.message_diff.specs.Files.{news_at, host_news, names_in, Adds};

use super::side::Side;
use super::written::Written;
use crate::announced::are_two as names_two;
use crate::key::{AF_UNSPEC, Key};
use crate::snapshot::Compared;
use crate::store::{Entry, Host, Known};
use crate::told::{push_changed, push_gone, push_new};
use crate::watch::Watch;
use std::alloc::{AllocError, Global};

/// Whether an interface has messages of two kinds in two files.
fn are_two(was: &Known, is: &Known) -> bool
    ensures { result ≡ are_two (found_last was.now.last) (found_last is.now.last) }
{
    let Some(last) = was.last.as_ref() else {
        return false;
    };
    let Some(new) = is.last.as_ref() else {
        return false;
    };
    names_two(last.kind(), new.kind())
}

/// The same of the interface alone.
fn are_two_alone(old: Side<'_>, new: Side<'_>, key: Key) -> bool
    ensures { result
        ≡ are_two (found (option_copied old.entry.host) (in_family 0 key))
        (found (option_copied new.entry.host) (in_family 0 key)) }
{
    let alone = key.in_family(AF_UNSPEC);
    let Some(was) = old.known(alone) else {
        return false;
    };
    let Some(is) = new.known(alone) else {
        return false;
    };
    are_two(was, is)
}

/// Adds what changed of an interface which both files have, or that it went and another one came.
fn push_both(
    alloc: Global,
    by: Compared,
    was: &Entry,
    is: &Entry,
    is_replaced: bool,
    written: &mut Written,
) -> Result<(), AllocError>
    ensures { OnOk result (Adds (cond is_replaced
        (News.replaced (words_told was.now) was.now.snapshot (words_told is.now) is.now.snapshot)
        (News.changed by (words_told is.now) was.now.snapshot is.now.snapshot) ∷ [])
        written.old written.new) }
{
    let Written { desk, out, .. } = written;
    let front = is.words();
    if is_replaced {
        push_gone(alloc, was.words(), &was.snapshot, out)?;
        return push_new(alloc, front, &is.snapshot, out);
    }
    push_changed(alloc, by, front, &was.snapshot, &is.snapshot, desk, out)?;
    Ok(())
}

/// Adds what came or changed of an interface of which the new file knows this. Of one of which a file has nothing but
/// refusals nothing is added.
fn push_news(
    alloc: Global,
    old: Side<'_>,
    new: Side<'_>,
    key: Key,
    known: &Known,
    written: &mut Written,
) -> Result<(), AllocError>
    requires { known_at (option_copied new.host) key ≡ Some known.now }
    ensures { OnOk result (Adds (news_at old.entry.by old.entry.has_dumps old.entry.name.now
        (option_copied old.entry.host) (option_copied new.entry.host) key ∷ [])
        written.old written.new) }
{
    let Some(is) = known.last.as_ref() else {
        return Ok(());
    };
    let Some(other) = old.known(key) else {
        if old.tells(key.family) {
            return push_new(alloc, is.words(), &is.snapshot, &mut written.out);
        }
        return written.add_untold(alloc, false, key.family, old.name);
    };
    let Some(was) = other.last.as_ref() else {
        return Ok(());
    };
    let is_replaced = are_two(other, known) || key.is_part() && are_two_alone(old, new, key);
    push_both(alloc, old.by, was, is, is_replaced, written)
}

/// Adds what came or changed of a host.
fn push_host(
    alloc: Global,
    old: Side<'_>,
    new: Side<'_>,
    host: &Host,
    written: &mut Written,
) -> Result<(), AllocError>
    requires { option_copied new.host ≡ Some host.now }
    ensures { OnOk result (Adds (map (news_at old.entry.by old.entry.has_dumps old.entry.name.now
        (option_copied old.entry.host) (option_copied new.entry.host))
        (keys_of host.now.known.entries)) written.old written.new) }
{
    for (key, known) in host.known.iter() {
        push_news(alloc, old, new, *key, known, written)?;
    }
    Ok(())
}

/// Adds what came or changed: each interface of the new file, in order.
pub(crate) fn push_came(
    alloc: Global,
    old: &Watch,
    new: &Watch,
    written: &mut Written,
) -> Result<(), AllocError>
    ensures { OnOk result (Adds (flat_map (host_news old.now new.now) (names_in new.now))
        written.old written.new) }
{
    for (name, host) in new.hosts().iter() {
        let name = name.as_slice();
        let was = Side::of(old, name);
        let is = Side::of(new, name);
        push_host(alloc, was, is, host, written)?;
    }
    Ok(())
}
