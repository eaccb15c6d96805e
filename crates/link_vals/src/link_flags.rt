//! Flags of links.

ghost use Rattle.std.specs.Prelude.{⊤, ◌≡◌, ◌==◌, ◌^◌, ◌-◌, not, option_map, IsSomeAnd, if◌then◌else◌};
ghost use Rattle.std.specs.Int.RustNames.{bit_and, bit_or, bit_xor};
ghost use Rattle.bitflags.specs.Sets.{without, find_name};
ghost use Rattle.link_vals.specs.LinkFlagsTable.{link_flags_bits, link_flags_table, link_flags_of};

mod operators;

use crate::flag_text::write_flags;
use bitflags::{Flag, Flags};
use nla_wire::Exact;
use std::fmt;

/// The flags of a link, four bytes in host order: `IFF_..` of linux/if.h and netdevice(7).
///
/// Every bit is kept; those without a name too.
#[derive(Clone, Copy, Debug, Default, PartialEq, Eq)]
pub struct LinkFlags(u32);

impl LinkFlags {
    /// IFF_UP: the link was set up.
    pub const Up: LinkFlags = LinkFlags(1);

    /// IFF_BROADCAST: its broadcast address is valid.
    pub const Broadcast: LinkFlags = LinkFlags(2);

    /// IFF_DEBUG: its driver is asked for messages.
    pub const Debug: LinkFlags = LinkFlags(4);

    /// IFF_LOOPBACK: what it sends comes back to the host.
    pub const Loopback: LinkFlags = LinkFlags(8);

    /// IFF_POINTOPOINT: it has one other end.
    pub const Pointopoint: LinkFlags = LinkFlags(0x10);

    /// IFF_NOTRAILERS: no trailers, which no protocol of today has.
    pub const Notrailers: LinkFlags = LinkFlags(0x20);

    /// IFF_RUNNING: its operational state is up, or not known.
    pub const Running: LinkFlags = LinkFlags(0x40);

    /// IFF_NOARP: no ARP, and no discovery of neighbours.
    pub const Noarp: LinkFlags = LinkFlags(0x80);

    /// IFF_PROMISC: it takes all packets.
    pub const Promisc: LinkFlags = LinkFlags(0x100);

    /// IFF_ALLMULTI: it takes all multicast packets.
    pub const Allmulti: LinkFlags = LinkFlags(0x200);

    /// IFF_MASTER: others are its ports.
    pub const Controller: LinkFlags = LinkFlags(0x400);

    /// IFF_SLAVE: it is a port of another.
    pub const Port: LinkFlags = LinkFlags(0x800);

    /// IFF_MULTICAST: it can send multicast packets.
    pub const Multicast: LinkFlags = LinkFlags(0x1000);

    /// IFF_PORTSEL: its medium can be set.
    pub const Portsel: LinkFlags = LinkFlags(0x2000);

    /// IFF_AUTOMEDIA: it selects its medium by itself.
    pub const Automedia: LinkFlags = LinkFlags(0x4000);

    /// IFF_DYNAMIC: its addresses are lost when it goes down.
    pub const Dynamic: LinkFlags = LinkFlags(0x8000);

    /// IFF_LOWER_UP: its driver says that there is a carrier.
    pub const LowerUp: LinkFlags = LinkFlags(0x10000);

    /// IFF_DORMANT: its driver says that it waits for an event.
    pub const Dormant: LinkFlags = LinkFlags(0x20000);

    /// IFF_ECHO: packets that are sent come back to the sender.
    pub const Echo: LinkFlags = LinkFlags(0x40000);

    // each flag with its name, in declared order, and then all bits, without a name
    const FLAGS: &'static [Flag<LinkFlags>] = &[
        Flag {
            name: "Up",
            value: LinkFlags::Up,
        },
        Flag {
            name: "Broadcast",
            value: LinkFlags::Broadcast,
        },
        Flag {
            name: "Debug",
            value: LinkFlags::Debug,
        },
        Flag {
            name: "Loopback",
            value: LinkFlags::Loopback,
        },
        Flag {
            name: "Pointopoint",
            value: LinkFlags::Pointopoint,
        },
        Flag {
            name: "Notrailers",
            value: LinkFlags::Notrailers,
        },
        Flag {
            name: "Running",
            value: LinkFlags::Running,
        },
        Flag {
            name: "Noarp",
            value: LinkFlags::Noarp,
        },
        Flag {
            name: "Promisc",
            value: LinkFlags::Promisc,
        },
        Flag {
            name: "Allmulti",
            value: LinkFlags::Allmulti,
        },
        Flag {
            name: "Controller",
            value: LinkFlags::Controller,
        },
        Flag {
            name: "Port",
            value: LinkFlags::Port,
        },
        Flag {
            name: "Multicast",
            value: LinkFlags::Multicast,
        },
        Flag {
            name: "Portsel",
            value: LinkFlags::Portsel,
        },
        Flag {
            name: "Automedia",
            value: LinkFlags::Automedia,
        },
        Flag {
            name: "Dynamic",
            value: LinkFlags::Dynamic,
        },
        Flag {
            name: "LowerUp",
            value: LinkFlags::LowerUp,
        },
        Flag {
            name: "Dormant",
            value: LinkFlags::Dormant,
        },
        Flag {
            name: "Echo",
            value: LinkFlags::Echo,
        },
        Flag {
            name: "",
            value: LinkFlags(0xffff_ffff),
        },
    ];

    /// No bits.
    pub fn empty() -> LinkFlags
        ensures { link_flags_bits result ≡ 0 }
    {
        LinkFlags(0)
    }

    /// All 32 bits.
    pub fn all() -> LinkFlags
        ensures { link_flags_bits result ≡ 2 ^ 32 - 1 }
    {
        LinkFlags(u32::MAX)
    }

    /// The bits as a number.
    pub fn bits(&self) -> u32
        ensures { result ≡ link_flags_bits self.now }
    {
        self.0
    }

    /// The value with exactly these bits.
    pub fn from_bits_retain(bits: u32) -> LinkFlags
        ensures { result ≡ link_flags_of bits }
    {
        LinkFlags(bits)
    }

    /// The value with these bits: always there, since every bit is known.
    pub fn from_bits(bits: u32) -> Option<LinkFlags>
        ensures { IsSomeAnd result (λ v. v ≡ link_flags_of bits) }
    {
        Some(LinkFlags(bits))
    }

    /// The value with these bits, all of which are kept, since every bit is known.
    pub fn from_bits_truncate(bits: u32) -> LinkFlags
        ensures { result ≡ link_flags_of bits }
    {
        LinkFlags(bits)
    }

    /// The declared flag of this name, spelled exactly so.
    pub fn from_name(name: &str) -> Option<LinkFlags>
        ensures { option_map link_flags_bits result ≡ find_name link_flags_table name.now }
    {
        <LinkFlags as Flags>::from_name(name)
    }

    /// Whether no bit is set.
    pub fn is_empty(&self) -> bool
        ensures { result ≡ (link_flags_bits self.now == 0) }
    {
        self.0 == 0
    }

    /// Whether all 32 bits are set.
    pub fn is_all(&self) -> bool
        ensures { result ≡ (link_flags_bits self.now == 2 ^ 32 - 1) }
    {
        self.0 == u32::MAX
    }

    /// Whether every bit of `other` is set.
    pub fn contains(&self, other: LinkFlags) -> bool
        ensures { result ≡ (bit_and (link_flags_bits self.now) (link_flags_bits other)
            == link_flags_bits other) }
    {
        self.0 & other.0 == other.0
    }

    /// Whether the two have a bit in common.
    pub fn intersects(&self, other: LinkFlags) -> bool
        ensures { result ≡ not (bit_and (link_flags_bits self.now) (link_flags_bits other) == 0) }
    {
        self.0 & other.0 != 0
    }

    /// The bits that either has.
    pub fn union(self, other: LinkFlags) -> LinkFlags
        ensures { link_flags_bits result ≡ bit_or (link_flags_bits self) (link_flags_bits other) }
    {
        LinkFlags(self.0 | other.0)
    }

    /// The bits that both have.
    pub fn intersection(self, other: LinkFlags) -> LinkFlags
        ensures { link_flags_bits result ≡ bit_and (link_flags_bits self) (link_flags_bits other) }
    {
        LinkFlags(self.0 & other.0)
    }

    /// The bits of this that `other` has not.
    pub fn difference(self, other: LinkFlags) -> LinkFlags
        ensures { link_flags_bits result
            ≡ without 32 (link_flags_bits self) (link_flags_bits other) }
    {
        LinkFlags(self.0 & !other.0)
    }

    /// The bits that exactly one of them has.
    pub fn symmetric_difference(self, other: LinkFlags) -> LinkFlags
        ensures { link_flags_bits result ≡ bit_xor (link_flags_bits self) (link_flags_bits other) }
    {
        LinkFlags(self.0 ^ other.0)
    }

    /// The bits that this has not.
    pub fn complement(self) -> LinkFlags
        ensures { link_flags_bits result ≡ 2 ^ 32 - 1 - link_flags_bits self }
    {
        LinkFlags(!self.0)
    }

    /// Sets the bits of `other`.
    pub fn insert(&mut self, other: LinkFlags)
        ensures { link_flags_bits self.new
            ≡ bit_or (link_flags_bits self.old) (link_flags_bits other) }
    {
        self.0 |= other.0;
    }

    /// Clears the bits of `other`.
    pub fn remove(&mut self, other: LinkFlags)
        ensures { link_flags_bits self.new
            ≡ without 32 (link_flags_bits self.old) (link_flags_bits other) }
    {
        self.0 &= !other.0;
    }

    /// Flips the bits of `other`.
    pub fn toggle(&mut self, other: LinkFlags)
        ensures { link_flags_bits self.new
            ≡ bit_xor (link_flags_bits self.old) (link_flags_bits other) }
    {
        self.0 ^= other.0;
    }

    /// Sets the bits of `other`, or clears them.
    pub fn set(&mut self, other: LinkFlags, value: bool)
        ensures { link_flags_bits self.new
            ≡ (if value then bit_or (link_flags_bits self.old) (link_flags_bits other)
            else without 32 (link_flags_bits self.old) (link_flags_bits other)) }
    {
        *self = if value { *self | other } else { *self - other };
    }
}

impl Flags for LinkFlags {
    type Bits = u32;

    ghost exact = { ⊤ };

    ghost table = { link_flags_table };

    ghost set_of = { λ v. link_flags_bits v };

    fn flags<'a>() -> &'a [Flag<LinkFlags>] {
        LinkFlags::FLAGS
    }

    fn bits(&self) -> u32 {
        self.0
    }

    fn from_bits_retain(bits: u32) -> LinkFlags {
        LinkFlags(bits)
    }
}

impl Exact for LinkFlags {
    ghost use Rattle.std.proofs.Common.{rules};

    ghost decides = { Prim.search rules };
}

impl fmt::Display for LinkFlags {
    ghost use Rattle.std.specs.Prelude.{Some};
    ghost use Rattle.link_vals.specs.LinkFlagsTable.{link_flags_text};

    ghost output = { λ v. Some (link_flags_text (link_flags_bits v)) };

    /// Writes the names of the bits that are set, in declared order and with ` | ` between them; the bits without a
    /// name come last, as one number in hexadecimal.
    #[tactic(auto, unfolding(crate::proofs::Opened::link_flags))]
    fn fmt<W: fmt::Write>(&self, f: &mut fmt::Formatter<W>) -> fmt::Result {
        write_flags(f, &LinkFlags::FLAGS[..19], *self, 0xfff8_0000)
    }
}
