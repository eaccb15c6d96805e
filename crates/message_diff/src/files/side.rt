//! What one of two files has of a host.

ghost use Rattle.std.specs.Prelude.{◌≡◌, option_copied};
ghost use Rattle.message_diff.specs.Watched.{host_in};
ghost use Rattle.message_diff.specs.Files.{known_at, tells};

use crate::key::Key;
use crate::snapshot::Compared;
use crate::store::{Host, Known};
use crate::watch::Watch;

/// What one file has of a host.
#[derive(Clone, Copy)]
pub(crate) struct Side<'a> {
    pub(crate) by: Compared,
    pub(crate) name: &'a [u8],
    host: Option<&'a Host>,
    has_dumps: bool,
}

impl<'a> Side<'a> {
    /// What a file has of the host with this name.
    pub(crate) fn of(watch: &'a Watch, name: &'a [u8]) -> Side<'a>
        ensures name { result.name.now ≡ name.now }
        ensures host { option_copied result.host ≡ host_in watch.now name.now }
        ensures has_dumps { result.has_dumps ≡ watch.now.has_dumps }
        ensures by { result.by ≡ watch.now.told.by }
    {
        Side {
            by: watch.by(),
            name,
            host: watch.hosts().get(name),
            has_dumps: watch.has_dumps(),
        }
    }

    /// What it has of an interface.
    pub(crate) fn known(self, key: Key) -> Option<&'a Known>
        ensures { option_copied result
            ≡ known_at (option_copied self.entry.host) key }
    {
        match self.host {
            Some(host) => host.known.get(&key),
            None => None,
        }
    }

    /// Whether what it has not of a family was not there.
    pub(crate) fn tells(self, family: u8) -> bool
        ensures { result
            ≡ tells self.entry.has_dumps (option_copied self.entry.host) family }
    {
        match self.host {
            Some(host) => !self.has_dumps || host.is_whole(family),
            None => !self.has_dumps,
        }
    }
}
