//! Modes of links.

ghost use Rattle.std.specs.Prelude.{◌≡◌, Some};
ghost use Rattle.link_vals.specs.LinkModeTable.{link_mode_of, link_mode_number, link_mode_text};

use nla_wire::Exact;
use std::fmt;

/// The mode of a link, one byte: `IF_LINK_MODE_..` of linux/if.h.
#[derive(Clone, Copy, Debug, Default, PartialEq, Eq)]
pub enum LinkMode {
    /// `IF_LINK_MODE_DEFAULT`: up where the carrier is.
    #[default]
    Default,
    /// `IF_LINK_MODE_DORMANT`: dormant before it is up.
    Dormant,
    /// `IF_LINK_MODE_TESTING`: testing before it is up.
    Testing,
    /// A number without a name.
    Other(u8),
}

impl From<u8> for LinkMode {
    ghost from_gives = { λ n v. v ≡ link_mode_of n };

    #[tactic(auto, unfolding(crate::proofs::Opened::link_mode))]
    fn from(number: u8) -> LinkMode {
        match number {
            0 => LinkMode::Default,
            1 => LinkMode::Dormant,
            2 => LinkMode::Testing,
            n => LinkMode::Other(n),
        }
    }
}

impl From<LinkMode> for u8 {
    ghost from_gives = { λ v n. n ≡ link_mode_number v };

    #[tactic(auto, unfolding(crate::specs::LinkModeTable::link_mode_number))]
    fn from(value: LinkMode) -> u8 {
        match value {
            LinkMode::Default => 0,
            LinkMode::Dormant => 1,
            LinkMode::Testing => 2,
            LinkMode::Other(n) => n,
        }
    }
}

impl fmt::Display for LinkMode {
    ghost output = { λ v. Some (link_mode_text v) };

    #[tactic(auto, unfolding(crate::specs::LinkModeTable::link_mode_text))]
    fn fmt<W: fmt::Write>(&self, f: &mut fmt::Formatter<W>) -> fmt::Result {
        match self {
            LinkMode::Default => f.write_str("DEFAULT"),
            LinkMode::Dormant => f.write_str("DORMANT"),
            LinkMode::Testing => f.write_str("TESTING"),
            LinkMode::Other(n) => write!(f, "UNKNOWN:{n}"),
        }
    }
}

impl Exact for LinkMode {
    ghost use Rattle.std.proofs.Common.{rules};

    ghost decides = { Prim.search rules };
}
