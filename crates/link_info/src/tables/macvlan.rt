//! The data of macvlan, macvtap, ipvlan and ipvtap (`IFLA_MACVLAN_*`, `IFLA_IPVLAN_*`, linux/if_link.h).

use crate::place::Place;
use crate::style::{Element, Names, Plain, Row, Size, Style};
use crate::tables::{I32, MAC, U32};

/// How a macvlan passes packets on (`enum macvlan_mode`).
const MODES: Names = &[
    (1, "private"),
    (2, "vepa"),
    (4, "bridge"),
    (8, "passthru"),
    (16, "source"),
];

/// Flags of a macvlan (`MACVLAN_FLAG_*`).
const FLAGS: Names = &[(1, "nopromisc"), (2, "nodst")];

/// What is done with addresses (`enum macvlan_macaddr_mode`).
const MACADDR_MODES: Names = &[(0, "add"), (1, "del"), (2, "flush"), (3, "set")];

/// How an ipvlan passes packets on (`enum ipvlan_mode`).
const IPVLAN_MODES: Names = &[(0, "l2"), (1, "l3"), (2, "l3s")];

/// Flags of an ipvlan (`IPVLAN_F_*`).
const IPVLAN_FLAGS: Names = &[(1, "private"), (2, "vepa")];

/// The data of a macvlan or macvtap.
pub const MACVLAN: &[Row] = &[
    Row(1, "mode", Style::Plain(Plain::Named(Size::Four, MODES))),
    Row(2, "flags", Style::Plain(Plain::Flags(Size::Two, FLAGS))),
    Row(
        3,
        "macaddr-mode",
        Style::Plain(Plain::Named(Size::Four, MACADDR_MODES)),
    ),
    Row(4, "macaddr", MAC),
    Row(5, "macaddr-data", Style::Nest(Place::MacvlanAddresses)),
    Row(6, "macaddr-count", U32),
    Row(7, "bc-queue-len", U32),
    Row(8, "bc-queue-len-used", U32),
    Row(9, "bc-cutoff", I32),
];

/// Addresses that packets are taken from.
pub const MACVLAN_ADDRESSES: &[Row] = &[Row(4, "macaddr", Style::Each(Element::Plain(Plain::Mac)))];

/// The data of an ipvlan or ipvtap.
pub const IPVLAN: &[Row] = &[
    Row(
        1,
        "mode",
        Style::Plain(Plain::Named(Size::Two, IPVLAN_MODES)),
    ),
    Row(
        2,
        "flags",
        Style::Plain(Plain::Flags(Size::Two, IPVLAN_FLAGS)),
    ),
];
