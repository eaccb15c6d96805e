//! The headline of the library as one theorem: what bytes mean, what the calls return of them, and their bounds.
//!
//! `specs/Headline.antt` states it, over the tables of `specs/Kernel.antt`, which have the kernel's own numbers. Its
//! proof cites the public contracts of `link_msg` and no other code. `docs/HEADLINE.md` leads through it.
// Tests: none, since it has laws alone. Edits: crates/link_headline/must-fail.
#![tactic(auto)]

ghost use Rattle.link_headline.specs.Headline.{Headline};
ghost use Rattle.link_headline.specs.StateRows.{SameStateRows};
ghost use Rattle.link_headline.specs.Words.{SameMeaning, SameFault};

use link_msg::laws::{law_canonical_twice, law_one_answer, law_one_meaning};
use link_msg::{CanonError, DecodeError, LinkMessage, canonical, same_message};
use std::alloc::Global;

/// What the calls return of two byte strings.
#[derive(Drop)]
pub struct Answers {
    /// The message that `parse` reads of the first.
    pub parsed: Result<LinkMessage, DecodeError>,
    /// Whether `check` accepts the first.
    pub checked: Result<(), DecodeError>,
    /// The canonical encoding of the first.
    pub canonical: Result<Vec<u8>, CanonError>,
    /// Whether both mean the same message.
    pub same: Result<bool, CanonError>,
}

/// The headline: the format by itself, and what the calls return of any bytes.
pub fn law_headline(alloc: Global, first: &[u8], second: &[u8]) -> Answers
    ensures { Headline first.now second.now result.parsed result.checked result.canonical
        result.same }
{
    law_one_meaning();
    law_one_answer();
    law_canonical_twice();
    Answers {
        parsed: LinkMessage::parse(alloc, first),
        checked: LinkMessage::check(first),
        canonical: canonical(alloc, first),
        same: same_message(alloc, first, second),
    }
}

/// What the contracts of `link_msg` call meaning and first fault is what the headline says.
pub fn law_kernel_words()
    ensures means { SameMeaning }
    ensures fault { SameFault }
{}

/// The table of the state encoding has the kernel's numbers.
pub fn law_state_rows()
    ensures rows { SameStateRows }
{}

#[cfg(test)]
mod tests;
