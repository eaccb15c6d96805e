//! Address families.

ghost use Rattle.std.specs.Prelude.{◌≡◌};
ghost use Rattle.link_vals.specs.AddressFamilyTable.{address_family_of, address_family_number};

use nla_wire::Exact;

/// The address family of a link message, one byte: numbers `AF_..` of linux/socket.h. Reading depends on `Unspec`,
/// `Bridge` and `Inet6` alone; `Inet` and `Mctp` are told apart from numbers without a name, and read like these.
#[derive(Clone, Copy, Debug, Default, PartialEq, Eq)]
pub enum AddressFamily {
    /// `AF_UNSPEC`, 0.
    #[default]
    Unspec,
    /// `AF_INET`, 2.
    Inet,
    /// `AF_BRIDGE`, 7.
    Bridge,
    /// `AF_INET6`, 10.
    Inet6,
    /// `AF_MCTP`, 45.
    Mctp,
    /// A number without a name.
    Other(u8),
}

impl From<u8> for AddressFamily {
    ghost from_gives = { λ n v. v ≡ address_family_of n };

    #[tactic(auto, unfolding(crate::proofs::Opened::address_family))]
    #[inline(always)]
    fn from(number: u8) -> AddressFamily {
        match number {
            0 => AddressFamily::Unspec,
            2 => AddressFamily::Inet,
            7 => AddressFamily::Bridge,
            10 => AddressFamily::Inet6,
            45 => AddressFamily::Mctp,
            n => AddressFamily::Other(n),
        }
    }
}

impl From<AddressFamily> for u8 {
    ghost from_gives = { λ v n. n ≡ address_family_number v };

    #[tactic(auto, unfolding(crate::specs::AddressFamilyTable::address_family_number))]
    #[inline(always)]
    fn from(value: AddressFamily) -> u8 {
        match value {
            AddressFamily::Unspec => 0,
            AddressFamily::Inet => 2,
            AddressFamily::Bridge => 7,
            AddressFamily::Inet6 => 10,
            AddressFamily::Mctp => 45,
            AddressFamily::Other(n) => n,
        }
    }
}

impl Exact for AddressFamily {
    ghost use Rattle.std.proofs.Common.{rules};

    ghost decides = { Prim.search rules };
}
