//! How links make IPv6 addresses.

ghost use Rattle.std.specs.Prelude.{◌≡◌, Some};
ghost use Rattle.link_vals.specs.In6AddrGenModeTable.{in6_addr_gen_mode_of, in6_addr_gen_mode_number};
ghost use Rattle.link_vals.specs.In6AddrGenModeTable.{in6_addr_gen_mode_text};

use nla_wire::Exact;
use std::fmt;

/// How a link makes its IPv6 addresses, one byte: `IN6_ADDR_GEN_MODE_..` of linux/if_link.h.
#[derive(Clone, Copy, Debug, Default, PartialEq, Eq)]
pub enum In6AddrGenMode {
    /// `IN6_ADDR_GEN_MODE_EUI64`: of the hardware address.
    #[default]
    Eui64,
    /// `IN6_ADDR_GEN_MODE_NONE`: none is made.
    None,
    /// `IN6_ADDR_GEN_MODE_STABLE_PRIVACY`: of a secret, the same each time.
    StablePrivacy,
    /// `IN6_ADDR_GEN_MODE_RANDOM`: as with a secret, which is random.
    Random,
    /// A number without a name.
    Other(u8),
}

impl From<u8> for In6AddrGenMode {
    ghost from_gives = { λ n v. v ≡ in6_addr_gen_mode_of n };

    #[tactic(auto, unfolding(crate::proofs::Opened::in6_addr_gen_mode))]
    fn from(number: u8) -> In6AddrGenMode {
        match number {
            0 => In6AddrGenMode::Eui64,
            1 => In6AddrGenMode::None,
            2 => In6AddrGenMode::StablePrivacy,
            3 => In6AddrGenMode::Random,
            n => In6AddrGenMode::Other(n),
        }
    }
}

impl From<&In6AddrGenMode> for u8 {
    ghost from_gives = { λ v n. n ≡ in6_addr_gen_mode_number v.now };

    #[tactic(auto, unfolding(crate::specs::In6AddrGenModeTable::in6_addr_gen_mode_number))]
    fn from(value: &In6AddrGenMode) -> u8 {
        match value {
            In6AddrGenMode::Eui64 => 0,
            In6AddrGenMode::None => 1,
            In6AddrGenMode::StablePrivacy => 2,
            In6AddrGenMode::Random => 3,
            In6AddrGenMode::Other(n) => *n,
        }
    }
}

impl fmt::Display for In6AddrGenMode {
    ghost output = { λ v. Some (in6_addr_gen_mode_text v) };

    #[tactic(auto, unfolding(crate::specs::In6AddrGenModeTable::in6_addr_gen_mode_text))]
    fn fmt<W: fmt::Write>(&self, f: &mut fmt::Formatter<W>) -> fmt::Result {
        match self {
            In6AddrGenMode::Eui64 => f.write_str("eui64"),
            In6AddrGenMode::None => f.write_str("none"),
            In6AddrGenMode::StablePrivacy => f.write_str("stable_privacy"),
            In6AddrGenMode::Random => f.write_str("random"),
            In6AddrGenMode::Other(n) => write!(f, "other({n})"),
        }
    }
}

impl Exact for In6AddrGenMode {
    ghost use Rattle.std.proofs.Common.{rules};

    ghost decides = { Prim.search rules };
}
