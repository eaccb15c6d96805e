//! What went of the old file.

ghost use Rattle.std.specs.Prelude.{◌∷◌, [], Some, true, OnOk, map, option_copied};
ghost use Rattle.std.specs.List.{flat_map};
ghost use Rattle.std.specs.Map.{keys_of};
ghost use Rattle.message_diff.specs.Files.{found, found_last, tells, gone_of, gone_at, host_gone, names_in, Adds};

use super::side::Side;
use super::written::Written;
use crate::key::Key;
use crate::store::{Host, Known};
use crate::told::push_gone;
use crate::watch::Watch;
use std::alloc::{AllocError, Global};

/// Adds that an interface of which the old file knows this went, if the new one has nothing of it.
fn push_left(
    alloc: Global,
    new: Side<'_>,
    key: Key,
    known: &Known,
    written: &mut Written,
) -> Result<(), AllocError>
    ensures { OnOk result (Adds (gone_of
        (tells new.entry.has_dumps (option_copied new.entry.host) key.family)
        (record { is_new = true; family = key.family; host = new.entry.name.now })
        (found_last known.now.last)
        (found (option_copied new.entry.host) key) ∷ [])
        written.old written.new) }
{
    let Some(was) = known.last.as_ref() else {
        return Ok(());
    };
    if new.known(key).is_some() {
        return Ok(());
    }
    if new.tells(key.family) {
        return push_gone(alloc, was.words(), &was.snapshot, &mut written.out);
    }
    written.add_untold(alloc, true, key.family, new.name)
}

/// Adds what went of a host.
fn push_left_of(
    alloc: Global,
    new: Side<'_>,
    host: &Host,
    written: &mut Written,
) -> Result<(), AllocError>
    ensures { OnOk result (Adds (map (gone_at new.entry.has_dumps new.entry.name.now
        (Some host.now) (option_copied new.entry.host))
        (keys_of host.now.known.entries)) written.old written.new) }
{
    for (key, known) in host.known.iter() {
        push_left(alloc, new, *key, known, written)?;
    }
    Ok(())
}

/// Adds what went: each interface of the old file, in order.
pub(crate) fn push_went(
    alloc: Global,
    old: &Watch,
    new: &Watch,
    written: &mut Written,
) -> Result<(), AllocError>
    ensures { OnOk result (Adds (flat_map (host_gone old.now new.now) (names_in old.now))
        written.old written.new) }
{
    for (name, host) in old.hosts().iter() {
        let name = name.as_slice();
        let is = Side::of(new, name);
        push_left_of(alloc, is, host, written)?;
    }
    Ok(())
}
