//! The labels of the values of a list: the number that tells each apart, and how many with it stand before it.

ghost use Rattle.std.specs.Prelude.{◌≡◌, ◌<◌, ◌^◌, ℕ, ◌+◌, IfOk, OnOk, Option as Maybe, cond};
ghost use Rattle.frame_diff.specs.Forests.{is_number};
ghost use Rattle.frame_diff.specs.Labels.{count_in, is_above};

use std::alloc::{AllocError, Global};
use std::collections::BTreeMap;

/// The label of a value. No two values of a list have one.
#[derive(Clone, Copy, Debug, PartialEq, Eq, PartialOrd, Ord)]
pub struct Label {
    /// The number that tells it apart, if it says one.
    pub number: Option<u64>,
    /// How many values with this number, or without one, stand before it.
    pub again: usize,
}

/// How many values have each number.
pub(crate) type Counts = BTreeMap<Option<u64>, usize>;

/// Where the value with each label stands.
pub(crate) type Places = BTreeMap<Label, usize>;

/// Whether there is a number, above that before it.
pub(crate) fn is_above(before: Option<u64>, number: Option<u64>) -> bool
    ensures { result ≡ is_above before number }
{
    match (before, number) {
        (_, None) => false,
        (None, Some(_)) => true,
        (Some(before), Some(number)) => before < number,
    }
}

/// How many there were before, of which there is one more now.
pub(crate) fn count(counts: &mut Counts, number: Option<u64>) -> Result<usize, AllocError>
    requires { count_in counts.now number + 1 < 2 ^ 64 }
    ensures before { IfOk result (λ n. n ≡ count_in counts.old number) }
    ensures now { OnOk result ((other : Maybe ℕ) → count_in counts.new other
        ≡ cond (is_number other number) 1 0 + count_in counts.old other) }
{
    let before = match counts.get(&number) {
        Some(count) => *count,
        None => 0,
    };
    counts.insert(number, before + 1)?;
    Ok(before)
}
