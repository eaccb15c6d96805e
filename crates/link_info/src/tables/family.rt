//! Attributes whose members depend on an address family: of `IFLA_AF_SPEC` and `IFLA_PROTINFO`, and of ports.

use crate::place::Place;
use crate::style::{Element, Member, Names, Plain, Row, Size, Style};
use crate::tables::{IPV6, U16, U32};

/// Whom a request is for (`BRIDGE_FLAGS_*`, linux/if_bridge.h).
const BRIDGE_FLAGS: Names = &[(1, "master"), (2, "self")];

/// How a switch in hardware passes packets on (`BRIDGE_MODE_*`, linux/if_bridge.h).
const BRIDGE_MODES: Names = &[(0, "veb"), (1, "vepa")];

/// Flags of a vlan of a port (`BRIDGE_VLAN_INFO_*`, linux/if_bridge.h).
const VLAN_FLAGS: Names = &[
    (1, "master"),
    (2, "pvid"),
    (4, "untagged"),
    (8, "range-begin"),
    (16, "range-end"),
    (32, "brentry"),
    (64, "only-opts"),
];

/// What a port does with packets (`BR_STATE_*`, linux/if_bridge.h).
const STATES: Names = &[
    (0, "disabled"),
    (1, "listening"),
    (2, "learning"),
    (3, "forwarding"),
    (4, "blocking"),
];

/// A vlan of a port (`struct bridge_vlan_info`).
const VLAN_INFO: &[Member] = &[
    Member("flags", Plain::Flags(Size::Two, VLAN_FLAGS)),
    Member("vid", Plain::Unsigned(Size::Two)),
];

/// Times of a link in IPv6 (`struct ifla_cacheinfo`, linux/if_link.h).
const CACHEINFO: &[Member] = &[
    Member("max-reasm-len", Plain::Unsigned(Size::Four)),
    Member("tstamp", Plain::Unsigned(Size::Four)),
    Member("reachable-time", Plain::Unsigned(Size::Four)),
    Member("retrans-time", Plain::Unsigned(Size::Four)),
];

/// How addresses are made (`enum in6_addr_gen_mode`, linux/if_link.h).
const ADDR_GEN_MODES: Names = &[
    (0, "eui64"),
    (1, "none"),
    (2, "stable-privacy"),
    (3, "random"),
];

/// Flags of a link in IPv6 (`IF_*`, net/if_inet6.h).
const INET6_FLAGS: Names = &[
    (16, "rs-sent"),
    (32, "ra-rcvd"),
    (64, "ra-managed"),
    (128, "ra-otherconf"),
    (2147483648, "ready"),
];

/// What is asked of a port (`PORT_REQUEST_*`, linux/if_link.h).
const REQUESTS: Names = &[
    (0, "preassociate"),
    (1, "preassociate-rr"),
    (2, "associate"),
    (3, "disassociate"),
];

/// The members of `IFLA_AF_SPEC` under AF_BRIDGE (`IFLA_BRIDGE_*`, linux/if_bridge.h).
pub const BRIDGE_SPEC: &[Row] = &[
    Row(
        0,
        "flags",
        Style::Plain(Plain::Flags(Size::Two, BRIDGE_FLAGS)),
    ),
    Row(
        1,
        "mode",
        Style::Plain(Plain::Named(Size::Two, BRIDGE_MODES)),
    ),
    Row(2, "vlan-info", Style::Each(Element::Record(VLAN_INFO))),
    Row(
        3,
        "vlan-tunnel-info",
        Style::Each(Element::Nest(Place::BridgeVlanTunnel)),
    ),
    Row(6, "mst", Style::Nest(Place::BridgeMst)),
];

/// A vlan that is a tunnel (`IFLA_BRIDGE_VLAN_TUNNEL_*`, linux/if_bridge.h).
pub const BRIDGE_VLAN_TUNNEL: &[Row] = &[
    Row(1, "id", U32),
    Row(2, "vid", U16),
    Row(
        3,
        "flags",
        Style::Plain(Plain::Flags(Size::Two, VLAN_FLAGS)),
    ),
];

/// Spanning trees of a port (`IFLA_BRIDGE_MST_*`, linux/if_bridge.h).
pub const BRIDGE_MST: &[Row] = &[Row(
    1,
    "entry",
    Style::Each(Element::Nest(Place::BridgeMstEntry)),
)];

/// A spanning tree of a port (`IFLA_BRIDGE_MST_ENTRY_*`, linux/if_bridge.h).
pub const BRIDGE_MST_ENTRY: &[Row] = &[
    Row(1, "msti", U16),
    Row(2, "state", Style::Plain(Plain::Named(Size::One, STATES))),
];

/// The members of AF_INET6 in `IFLA_AF_SPEC`, and of `IFLA_PROTINFO` under AF_INET6 (`IFLA_INET6_*`, linux/if_link.h).
pub const INET6: &[Row] = &[
    Row(
        1,
        "flags",
        Style::Plain(Plain::Flags(Size::Four, INET6_FLAGS)),
    ),
    Row(2, "conf", Style::Array(Plain::Signed(Size::Four))),
    Row(3, "stats", Style::Array(Plain::Unsigned(Size::Eight))),
    Row(4, "mcast", Style::Bytes),
    Row(5, "cacheinfo", Style::Record(CACHEINFO)),
    Row(6, "icmp6-stats", Style::Array(Plain::Unsigned(Size::Eight))),
    Row(7, "token", IPV6),
    Row(
        8,
        "addr-gen-mode",
        Style::Plain(Plain::Named(Size::One, ADDR_GEN_MODES)),
    ),
    Row(9, "ra-mtu", U32),
];

/// The port of a function (`IFLA_PORT_*`, linux/if_link.h). The header says one byte of `IFLA_PORT_REQUEST`, drivers
/// send two.
pub const PORT: &[Row] = &[
    Row(1, "vf", U32),
    Row(2, "profile", Style::Text),
    Row(3, "vsi-type", Style::Bytes),
    Row(4, "instance-uuid", Style::Bytes),
    Row(5, "host-uuid", Style::Bytes),
    Row(
        6,
        "request",
        Style::Plain(Plain::Named(Size::Two, REQUESTS)),
    ),
    Row(7, "response", U16),
];
