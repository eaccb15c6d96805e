//! Flags of IPv6 interfaces.

ghost use Rattle.std.specs.Prelude.{⊤, ◌≡◌, ◌==◌, ◌^◌, ◌-◌, not, option_map, IsSomeAnd, if◌then◌else◌};
ghost use Rattle.std.specs.Int.RustNames.{bit_and, bit_or, bit_xor};
ghost use Rattle.bitflags.specs.Sets.{without, find_name};
ghost use Rattle.link_vals.specs.Inet6IfaceFlagsTable.{inet6_iface_flags_bits, inet6_iface_flags_table};
ghost use Rattle.link_vals.specs.Inet6IfaceFlagsTable.{inet6_iface_flags_of};

use bitflags::{Flag, Flags};
use nla_wire::Exact;
use std::ops::{
    BitAnd, BitAndAssign, BitOr, BitOrAssign, BitXor, BitXorAssign, Not, Sub, SubAssign,
};

/// The flags of an IPv6 interface, four bytes in host order: `IF_RA_OTHERCONF` to `IF_READY` of net/if_inet6.h in the
/// kernel.
///
/// Every bit is kept; those without a name too.
#[derive(Clone, Copy, Debug, PartialEq, Eq)]
pub struct Inet6IfaceFlags(u32);

impl Inet6IfaceFlags {
    /// IF_RA_OTHERCONF: a router says that settings other than addresses are to be had by DHCPv6.
    pub const Otherconf: Inet6IfaceFlags = Inet6IfaceFlags(0x80);

    /// IF_RA_MANAGED: a router says that addresses are to be had by DHCPv6.
    pub const RaManaged: Inet6IfaceFlags = Inet6IfaceFlags(0x40);

    /// IF_RA_RCVD: a router has advertised itself.
    pub const RaRcvd: Inet6IfaceFlags = Inet6IfaceFlags(0x20);

    /// IF_RS_SENT: routers were asked.
    pub const RsSent: Inet6IfaceFlags = Inet6IfaceFlags(0x10);

    /// IF_READY: the interface is up, and IPv6 is set up on it.
    pub const Ready: Inet6IfaceFlags = Inet6IfaceFlags(0x80000000);

    // each flag with its name, in declared order, and then all bits, without a name
    const FLAGS: &'static [Flag<Inet6IfaceFlags>] = &[
        Flag {
            name: "Otherconf",
            value: Inet6IfaceFlags::Otherconf,
        },
        Flag {
            name: "RaManaged",
            value: Inet6IfaceFlags::RaManaged,
        },
        Flag {
            name: "RaRcvd",
            value: Inet6IfaceFlags::RaRcvd,
        },
        Flag {
            name: "RsSent",
            value: Inet6IfaceFlags::RsSent,
        },
        Flag {
            name: "Ready",
            value: Inet6IfaceFlags::Ready,
        },
        Flag {
            name: "",
            value: Inet6IfaceFlags(0xffff_ffff),
        },
    ];

    /// No bits.
    pub fn empty() -> Inet6IfaceFlags
        ensures { inet6_iface_flags_bits result ≡ 0 }
    {
        Inet6IfaceFlags(0)
    }

    /// All 32 bits.
    pub fn all() -> Inet6IfaceFlags
        ensures { inet6_iface_flags_bits result ≡ 2 ^ 32 - 1 }
    {
        Inet6IfaceFlags(u32::MAX)
    }

    /// The bits as a number.
    pub fn bits(&self) -> u32
        ensures { result ≡ inet6_iface_flags_bits self.now }
    {
        self.0
    }

    /// The value with exactly these bits.
    pub fn from_bits_retain(bits: u32) -> Inet6IfaceFlags
        ensures { result ≡ inet6_iface_flags_of bits }
    {
        Inet6IfaceFlags(bits)
    }

    /// The value with these bits: always there, since every bit is known.
    pub fn from_bits(bits: u32) -> Option<Inet6IfaceFlags>
        ensures { IsSomeAnd result (λ v. v ≡ inet6_iface_flags_of bits) }
    {
        Some(Inet6IfaceFlags(bits))
    }

    /// The value with these bits, all of which are kept, since every bit is known.
    pub fn from_bits_truncate(bits: u32) -> Inet6IfaceFlags
        ensures { result ≡ inet6_iface_flags_of bits }
    {
        Inet6IfaceFlags(bits)
    }

    /// The declared flag of this name, spelled exactly so.
    pub fn from_name(name: &str) -> Option<Inet6IfaceFlags>
        ensures { option_map inet6_iface_flags_bits result
            ≡ find_name inet6_iface_flags_table name.now }
    {
        <Inet6IfaceFlags as Flags>::from_name(name)
    }

    /// Whether no bit is set.
    pub fn is_empty(&self) -> bool
        ensures { result ≡ (inet6_iface_flags_bits self.now == 0) }
    {
        self.0 == 0
    }

    /// Whether all 32 bits are set.
    pub fn is_all(&self) -> bool
        ensures { result ≡ (inet6_iface_flags_bits self.now == 2 ^ 32 - 1) }
    {
        self.0 == u32::MAX
    }

    /// Whether every bit of `other` is set.
    pub fn contains(&self, other: Inet6IfaceFlags) -> bool
        ensures { result ≡ (bit_and (inet6_iface_flags_bits self.now) (inet6_iface_flags_bits other)
            == inet6_iface_flags_bits other) }
    {
        self.0 & other.0 == other.0
    }

    /// Whether the two have a bit in common.
    pub fn intersects(&self, other: Inet6IfaceFlags) -> bool
        ensures { result
            ≡ not (bit_and (inet6_iface_flags_bits self.now) (inet6_iface_flags_bits other) == 0) }
    {
        self.0 & other.0 != 0
    }

    /// The bits that either has.
    pub fn union(self, other: Inet6IfaceFlags) -> Inet6IfaceFlags
        ensures { inet6_iface_flags_bits result
            ≡ bit_or (inet6_iface_flags_bits self) (inet6_iface_flags_bits other) }
    {
        Inet6IfaceFlags(self.0 | other.0)
    }

    /// The bits that both have.
    pub fn intersection(self, other: Inet6IfaceFlags) -> Inet6IfaceFlags
        ensures { inet6_iface_flags_bits result
            ≡ bit_and (inet6_iface_flags_bits self) (inet6_iface_flags_bits other) }
    {
        Inet6IfaceFlags(self.0 & other.0)
    }

    /// The bits of this that `other` has not.
    pub fn difference(self, other: Inet6IfaceFlags) -> Inet6IfaceFlags
        ensures { inet6_iface_flags_bits result
            ≡ without 32 (inet6_iface_flags_bits self) (inet6_iface_flags_bits other) }
    {
        Inet6IfaceFlags(self.0 & !other.0)
    }

    /// The bits that exactly one of them has.
    pub fn symmetric_difference(self, other: Inet6IfaceFlags) -> Inet6IfaceFlags
        ensures { inet6_iface_flags_bits result
            ≡ bit_xor (inet6_iface_flags_bits self) (inet6_iface_flags_bits other) }
    {
        Inet6IfaceFlags(self.0 ^ other.0)
    }

    /// The bits that this has not.
    pub fn complement(self) -> Inet6IfaceFlags
        ensures { inet6_iface_flags_bits result ≡ 2 ^ 32 - 1 - inet6_iface_flags_bits self }
    {
        Inet6IfaceFlags(!self.0)
    }

    /// Sets the bits of `other`.
    pub fn insert(&mut self, other: Inet6IfaceFlags)
        ensures { inet6_iface_flags_bits self.new
            ≡ bit_or (inet6_iface_flags_bits self.old) (inet6_iface_flags_bits other) }
    {
        self.0 |= other.0;
    }

    /// Clears the bits of `other`.
    pub fn remove(&mut self, other: Inet6IfaceFlags)
        ensures { inet6_iface_flags_bits self.new
            ≡ without 32 (inet6_iface_flags_bits self.old) (inet6_iface_flags_bits other) }
    {
        self.0 &= !other.0;
    }

    /// Flips the bits of `other`.
    pub fn toggle(&mut self, other: Inet6IfaceFlags)
        ensures { inet6_iface_flags_bits self.new
            ≡ bit_xor (inet6_iface_flags_bits self.old) (inet6_iface_flags_bits other) }
    {
        self.0 ^= other.0;
    }

    /// Sets the bits of `other`, or clears them.
    pub fn set(&mut self, other: Inet6IfaceFlags, value: bool)
        ensures { inet6_iface_flags_bits self.new
            ≡ (if value then bit_or (inet6_iface_flags_bits self.old) (inet6_iface_flags_bits other)
            else without 32 (inet6_iface_flags_bits self.old) (inet6_iface_flags_bits other)) }
    {
        *self = if value { *self | other } else { *self - other };
    }
}

impl Flags for Inet6IfaceFlags {
    type Bits = u32;

    ghost exact = { ⊤ };

    ghost table = { inet6_iface_flags_table };

    ghost set_of = { λ v. inet6_iface_flags_bits v };

    fn flags<'a>() -> &'a [Flag<Inet6IfaceFlags>] {
        Inet6IfaceFlags::FLAGS
    }

    fn bits(&self) -> u32 {
        self.0
    }

    fn from_bits_retain(bits: u32) -> Inet6IfaceFlags {
        Inet6IfaceFlags(bits)
    }
}

impl BitOr for Inet6IfaceFlags {
    type Output = Inet6IfaceFlags;

    ghost bitor_gives = { λ a b result. inet6_iface_flags_bits result
        ≡ bit_or (inet6_iface_flags_bits a) (inet6_iface_flags_bits b) };

    fn bitor(self, other: Inet6IfaceFlags) -> Inet6IfaceFlags {
        self.union(other)
    }
}

impl BitOrAssign for Inet6IfaceFlags {
    ghost bitor_assign_gives = { λ a b result. inet6_iface_flags_bits result
        ≡ bit_or (inet6_iface_flags_bits a) (inet6_iface_flags_bits b) };

    fn bitor_assign(&mut self, other: Inet6IfaceFlags) {
        self.insert(other);
    }
}

impl BitAnd for Inet6IfaceFlags {
    type Output = Inet6IfaceFlags;

    ghost bitand_gives = { λ a b result. inet6_iface_flags_bits result
        ≡ bit_and (inet6_iface_flags_bits a) (inet6_iface_flags_bits b) };

    fn bitand(self, other: Inet6IfaceFlags) -> Inet6IfaceFlags {
        self.intersection(other)
    }
}

impl BitAndAssign for Inet6IfaceFlags {
    ghost bitand_assign_gives = { λ a b result. inet6_iface_flags_bits result
        ≡ bit_and (inet6_iface_flags_bits a) (inet6_iface_flags_bits b) };

    fn bitand_assign(&mut self, other: Inet6IfaceFlags) {
        self.0 &= other.0;
    }
}

impl BitXor for Inet6IfaceFlags {
    type Output = Inet6IfaceFlags;

    ghost bitxor_gives = { λ a b result. inet6_iface_flags_bits result
        ≡ bit_xor (inet6_iface_flags_bits a) (inet6_iface_flags_bits b) };

    fn bitxor(self, other: Inet6IfaceFlags) -> Inet6IfaceFlags {
        self.symmetric_difference(other)
    }
}

impl BitXorAssign for Inet6IfaceFlags {
    ghost bitxor_assign_gives = { λ a b result. inet6_iface_flags_bits result
        ≡ bit_xor (inet6_iface_flags_bits a) (inet6_iface_flags_bits b) };

    fn bitxor_assign(&mut self, other: Inet6IfaceFlags) {
        self.toggle(other);
    }
}

impl Sub for Inet6IfaceFlags {
    type Output = Inet6IfaceFlags;

    ghost sub_gives = { λ a b result. inet6_iface_flags_bits result
        ≡ without 32 (inet6_iface_flags_bits a) (inet6_iface_flags_bits b) };

    fn sub(self, other: Inet6IfaceFlags) -> Inet6IfaceFlags {
        self.difference(other)
    }
}

impl SubAssign for Inet6IfaceFlags {
    ghost sub_assign_gives = { λ a b result. inet6_iface_flags_bits result
        ≡ without 32 (inet6_iface_flags_bits a) (inet6_iface_flags_bits b) };

    fn sub_assign(&mut self, other: Inet6IfaceFlags) {
        self.remove(other);
    }
}

impl Not for Inet6IfaceFlags {
    type Output = Inet6IfaceFlags;

    ghost not_gives = { λ a result. inet6_iface_flags_bits result
        ≡ 2 ^ 32 - 1 - inet6_iface_flags_bits a };

    fn not(self) -> Inet6IfaceFlags {
        self.complement()
    }
}

impl Exact for Inet6IfaceFlags {
    ghost use Rattle.std.proofs.Common.{rules};

    ghost decides = { Prim.search rules };
}
