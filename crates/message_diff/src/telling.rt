//! What is told: all, changes, or faults alone.

ghost use Rattle.std.specs.Prelude.{◌≡◌};
ghost use Rattle.message_diff.specs.Told.{says};

use crate::snapshot::Compared;

/// What is told.
#[derive(Clone, Copy, Debug, PartialEq, Eq)]
pub enum Told {
    /// What came, went or changed.
    All,
    /// The same, but of what came only what did after the first whole dump of its host and family.
    Changes,
    /// Nothing but faults.
    Faults,
}

/// What is told, and what is compared.
#[derive(Clone, Copy)]
pub struct Telling {
    pub told: Told,
    pub by: Compared,
}

impl Telling {
    /// Whether anything but faults is told.
    pub fn says(self) -> bool
        ensures { result ≡ says self.told }
    {
        match self.told {
            Told::Faults => false,
            Told::All | Told::Changes => true,
        }
    }
}
