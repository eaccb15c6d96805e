//! The data of a vlan (`IFLA_VLAN_*`, linux/if_link.h).

use crate::place::Place;
use crate::style::{Element, Member, Names, Plain, Row, Size, Style};
use crate::tables::U16;

/// Protocols of vlans (`ETH_P_8021*`, linux/if_ether.h).
const PROTOCOLS: Names = &[(33024, "8021q"), (34984, "8021ad")];

/// Flags of a vlan, and which of them are meant (`struct ifla_vlan_flags`).
const FLAGS: &[Member] = &[
    Member("flags", Plain::Flags(Size::Four, VLAN_FLAGS)),
    Member("mask", Plain::Flags(Size::Four, VLAN_FLAGS)),
];

/// Flags of a vlan (`enum vlan_flags`, linux/if_vlan.h).
const VLAN_FLAGS: Names = &[
    (1, "reorder-hdr"),
    (2, "gvrp"),
    (4, "loose-binding"),
    (8, "mvrp"),
    (16, "bridge-binding"),
];

/// A mapping of priorities (`struct ifla_vlan_qos_mapping`).
const MAPPING: &[Member] = &[
    Member("from", Plain::Unsigned(Size::Four)),
    Member("to", Plain::Unsigned(Size::Four)),
];

/// The data of a vlan.
pub const VLAN: &[Row] = &[
    Row(1, "id", U16),
    Row(2, "flag", Style::Record(FLAGS)),
    Row(3, "egress-qos", Style::Nest(Place::VlanQos)),
    Row(4, "ingress-qos", Style::Nest(Place::VlanQos)),
    Row(
        5,
        "protocol",
        Style::Plain(Plain::BigEndianNamed(Size::Two, PROTOCOLS)),
    ),
];

/// Mappings of priorities.
pub const VLAN_QOS: &[Row] = &[Row(1, "mapping", Style::Each(Element::Record(MAPPING)))];
