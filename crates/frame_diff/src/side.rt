//! Two messages of which one is gone through, beside the other.

ghost use Rattle.std.specs.Prelude.{◌≡◌};
ghost use Rattle.shown.specs.Keys.{IsKey};
ghost use Rattle.frame_diff.specs.Sides.{is_moved, side_name};

/// Which of two messages is gone through.
#[derive(Clone, Copy, Drop)]
pub enum Side {
    /// The old one: what it alone has went, and what both have may have turned.
    Old,
    /// The new one: what it alone has came.
    New,
    /// The old one, where nothing of that is told: lists of which both say the same in another order are told whole.
    Moved,
}

impl Side {
    /// Whether lists in another order alone are told.
    pub(crate) fn is_moved(self) -> bool
        ensures { result ≡ is_moved self }
    {
        match self {
            Side::Old | Side::New => false,
            Side::Moved => true,
        }
    }

    /// The name of its value in a change.
    pub fn name(self) -> &'static str
        ensures name { result.now ≡ side_name self }
        ensures key { IsKey result.now }
    {
        match self {
            Side::Old | Side::Moved => "old",
            Side::New => "new",
        }
    }
}
