//! Sets of flags: the bits of each flag, names, texts, and the operators, which both sets have alike.

use crate::testing::{holds, is_same, prints};
use bitflags::Flags;
use link_vals::{Inet6IfaceFlags, LinkFlags};
use nla_wire::exact::same;

/// What the operators make of two sets, and the calls that are named after them.
macro_rules! combined {
    ($one:expr, $other:expr) => {
        [
            ($one & $other).bits(),
            ($one ^ $other).bits(),
            ($one - $other).bits(),
            ($one | $other).bits(),
            (!$one).bits(),
            $one.intersection($other).bits(),
            $one.symmetric_difference($other).bits(),
            $one.difference($other).bits(),
            $one.union($other).bits(),
            $one.complement().bits(),
        ]
    };
}

/// What is asked of two sets that share one flag, of a flag of the first alone, and of one of the second alone.
macro_rules! asked {
    ($kind:ident, $one:expr, $other:expr, $first:expr, $second:expr) => {
        [
            $one.contains($first),
            $one.contains($other),
            $one.intersects($other),
            $one.intersects($second),
            $kind::empty().is_empty(),
            $one.is_empty(),
            $kind::all().is_all(),
            $one.is_all(),
        ]
    };
}

/// What is left of a set of another flag after the calls that change it: two are inserted and one of them removed, both
/// are toggled, and the other flag is taken out.
macro_rules! changed {
    ($kind:ident, $first:ident, $second:ident, $other:ident) => {{
        let two = $kind::$first | $kind::$second;
        let mut flags = $kind::$other;
        flags.insert(two);
        flags.remove($kind::$first);
        flags.toggle(two);
        flags.set($kind::$other, false);
        flags
    }};
}

/// What is left of a set of another flag after the operators that assign.
macro_rules! assigned {
    ($kind:ident, $first:ident, $second:ident, $other:ident) => {{
        let two = $kind::$first | $kind::$second;
        let mut flags = $kind::$other;
        flags |= two;
        flags &= two;
        flags ^= $kind::$other;
        flags -= $kind::$second;
        flags
    }};
}

/// What is made of all bits, and of the bits 0 and 1.
macro_rules! made {
    ($kind:ident) => {
        [
            $kind::all().bits(),
            $kind::from_bits_retain(3).bits(),
            $kind::from_bits_truncate(3).bits(),
        ]
    };
}

#[test]
fn operators(rt: HostRuntime) {
    let one = LinkFlags::Up | LinkFlags::Debug;
    let other = LinkFlags::Debug | LinkFlags::Loopback;
    let wanted = [
        0x4,
        0x9,
        0x1,
        0xd,
        0xffff_fffa,
        0x4,
        0x9,
        0x1,
        0xd,
        0xffff_fffa,
    ];
    is_same(&rt, &combined!(one, other), &wanted);
    let one = Inet6IfaceFlags::Otherconf | Inet6IfaceFlags::Ready;
    let other = Inet6IfaceFlags::Ready | Inet6IfaceFlags::RsSent;
    let (both, either) = (0x8000_0000, 0x8000_0090);
    let wanted = [
        both,
        0x90,
        0x80,
        either,
        0x7fff_ff7f,
        both,
        0x90,
        0x80,
        either,
        0x7fff_ff7f,
    ];
    is_same(&rt, &combined!(one, other), &wanted);
}

#[test]
fn sets_of_bits(rt: HostRuntime) {
    let wanted = [0xffff_ffff, 3, 3];
    is_same(&rt, &made!(LinkFlags), &wanted);
    is_same(&rt, &made!(Inet6IfaceFlags), &wanted);
    let retained = LinkFlags::from_bits_retain(3);
    is_same(&rt, &LinkFlags::from_bits(3), &Some(retained));
    let retained = Inet6IfaceFlags::from_bits_retain(3);
    is_same(&rt, &Inet6IfaceFlags::from_bits(3), &Some(retained));
}

#[test]
fn what_sets_have(rt: HostRuntime) {
    let wanted = [true, false, true, false, true, false, true, false];
    let one = LinkFlags::Up | LinkFlags::Debug;
    let other = LinkFlags::Debug | LinkFlags::Loopback;
    let (first, second) = (LinkFlags::Up, LinkFlags::Loopback);
    is_same(&rt, &asked!(LinkFlags, one, other, first, second), &wanted);
    let one = Inet6IfaceFlags::Otherconf | Inet6IfaceFlags::Ready;
    let other = Inet6IfaceFlags::Ready | Inet6IfaceFlags::RsSent;
    let (first, second) = (Inet6IfaceFlags::Otherconf, Inet6IfaceFlags::RsSent);
    is_same(
        &rt,
        &asked!(Inet6IfaceFlags, one, other, first, second),
        &wanted,
    );
}

#[test]
fn changes(rt: HostRuntime) {
    let flags = changed!(LinkFlags, Up, Debug, Loopback);
    is_same(&rt, &flags, &LinkFlags::Up);
    let flags = changed!(Inet6IfaceFlags, Otherconf, Ready, RsSent);
    is_same(&rt, &flags, &Inet6IfaceFlags::Otherconf);
}

#[test]
fn assignments(rt: HostRuntime) {
    let flags = assigned!(LinkFlags, Up, Debug, Loopback);
    is_same(&rt, &flags, &(LinkFlags::Up | LinkFlags::Loopback));
    let flags = assigned!(Inet6IfaceFlags, Otherconf, Ready, RsSent);
    is_same(
        &rt,
        &flags,
        &(Inet6IfaceFlags::Otherconf | Inet6IfaceFlags::RsSent),
    );
}

/// Sets of flags, and how they are printed.
const LINK_FLAG_TEXTS: &[(u32, &str)] = &[
    (0, ""),
    (0x11043, "Up | Broadcast | Running | Multicast | LowerUp"),
    (0x8000_0001, "Up | 0x80000000"),
    (0x80000, "0x80000"),
    (
        0x7ffff,
        "Up | Broadcast | Debug | Loopback | Pointopoint | Notrailers | Running | Noarp | Promisc | Allmulti | \
            Controller | Port | Multicast | Portsel | Automedia | Dynamic | LowerUp | Dormant | Echo",
    ),
    (
        0xffff_ffff,
        "Up | Broadcast | Debug | Loopback | Pointopoint | Notrailers | Running | Noarp | Promisc | Allmulti | \
            Controller | Port | Multicast | Portsel | Automedia | Dynamic | LowerUp | Dormant | Echo | 0xfff80000",
    ),
];

#[test]
fn link_flag_texts(rt: HostRuntime) {
    for (bits, text) in LINK_FLAG_TEXTS {
        let flags = LinkFlags::from_bits_retain(*bits);
        holds(&rt, text, flags.bits() == *bits);
        prints(&rt, rt.alloc(), &flags, text);
    }
}

/// `IFF_UP` to `IFF_ECHO` of linux/if.h, where `Controller` is `IFF_MASTER` and `Port` is `IFF_SLAVE`.
const LINK_FLAGS: &[(LinkFlags, &str, u32)] = &[
    (LinkFlags::Up, "Up", 1),
    (LinkFlags::Broadcast, "Broadcast", 2),
    (LinkFlags::Debug, "Debug", 4),
    (LinkFlags::Loopback, "Loopback", 8),
    (LinkFlags::Pointopoint, "Pointopoint", 0x10),
    (LinkFlags::Notrailers, "Notrailers", 0x20),
    (LinkFlags::Running, "Running", 0x40),
    (LinkFlags::Noarp, "Noarp", 0x80),
    (LinkFlags::Promisc, "Promisc", 0x100),
    (LinkFlags::Allmulti, "Allmulti", 0x200),
    (LinkFlags::Controller, "Controller", 0x400),
    (LinkFlags::Port, "Port", 0x800),
    (LinkFlags::Multicast, "Multicast", 0x1000),
    (LinkFlags::Portsel, "Portsel", 0x2000),
    (LinkFlags::Automedia, "Automedia", 0x4000),
    (LinkFlags::Dynamic, "Dynamic", 0x8000),
    (LinkFlags::LowerUp, "LowerUp", 0x1_0000),
    (LinkFlags::Dormant, "Dormant", 0x2_0000),
    (LinkFlags::Echo, "Echo", 0x4_0000),
];

#[test]
fn link_flag_numbers(rt: HostRuntime) {
    for (flag, name, bits) in LINK_FLAGS {
        holds(&rt, name, flag.bits() == *bits);
        holds(&rt, name, LinkFlags::from_bits_retain(*bits) == *flag);
        holds(&rt, name, LinkFlags::from_name(name) == Some(*flag));
        prints(&rt, rt.alloc(), flag, name);
    }
}

/// Texts that are no name of a flag.
const NAMES_OF_NO_LINK_FLAGS: &[&str] = &[
    "", "up", "UP", "uP", "Up ", "echo", "ECHO", "lowerUp", "Lowerup", "LOWERUP", "IFF_UP",
];

#[test]
fn names_of_no_link_flags(rt: HostRuntime) {
    for name in NAMES_OF_NO_LINK_FLAGS {
        holds(&rt, name, LinkFlags::from_name(name).is_none());
    }
}

#[test]
fn link_flag_sets(rt: HostRuntime) {
    assert!(rt; (LinkFlags::Up | LinkFlags::Running).bits() == 65);
    is_same(&rt, &LinkFlags::default(), &LinkFlags::empty());
    is_same(&rt, &<LinkFlags as Flags>::all(), &LinkFlags::all());
    let echo = LinkFlags::from_bits_truncate(0x40000);
    assert!(rt; same(&LinkFlags::Echo, &echo));
}

/// `IF_RA_OTHERCONF` to `IF_READY` of net/if_inet6.h in the kernel.
const INTERFACE_FLAGS: &[(Inet6IfaceFlags, &str, u32)] = &[
    (Inet6IfaceFlags::Otherconf, "Otherconf", 0x80),
    (Inet6IfaceFlags::RaManaged, "RaManaged", 0x40),
    (Inet6IfaceFlags::RaRcvd, "RaRcvd", 0x20),
    (Inet6IfaceFlags::RsSent, "RsSent", 0x10),
    (Inet6IfaceFlags::Ready, "Ready", 0x8000_0000),
];

#[test]
fn interface_flag_names(rt: HostRuntime) {
    for (flag, name, bits) in INTERFACE_FLAGS {
        holds(&rt, name, flag.bits() == *bits);
        holds(&rt, name, Inet6IfaceFlags::from_bits_retain(*bits) == *flag);
        holds(&rt, name, Inet6IfaceFlags::from_name(name) == Some(*flag));
    }
}

/// Texts that are no name of a flag of an interface.
const NAMES_OF_NO_INTERFACE_FLAGS: &[&str] = &[
    "",
    "ready",
    "READY",
    "Ready ",
    "OtherConf",
    "OTHERCONF",
    "raManaged",
    "RARCVD",
    "Rssent",
];

#[test]
fn names_of_no_interface_flags(rt: HostRuntime) {
    for name in NAMES_OF_NO_INTERFACE_FLAGS {
        holds(&rt, name, Inet6IfaceFlags::from_name(name).is_none());
    }
}
