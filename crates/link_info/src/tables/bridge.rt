//! The data of a bridge and of its ports (`IFLA_BR_*`, `IFLA_BRPORT_*`, linux/if_link.h).

use crate::place::Place;
use crate::style::{Member, Names, Plain, Row, Size, Style};
use crate::tables::{IPV4, IPV6, MAC, U8, U16, U32, U64};

/// The id of a bridge: its priority and its address (`struct ifla_bridge_id`).
const BRIDGE_ID: &[Member] = &[
    Member("prio", Plain::BigEndian(Size::Two)),
    Member("addr", Plain::Mac),
];

/// Protocols of vlans (`ETH_P_8021*`, linux/if_ether.h).
const PROTOCOLS: Names = &[(33024, "8021q"), (34984, "8021ad")];

/// Options that are on or off, and which of them are meant (`struct br_boolopt_multi`, linux/if_bridge.h).
const BOOLOPTS: &[Member] = &[
    Member("optval", Plain::Flags(Size::Four, BOOLOPT_BITS)),
    Member("optmask", Plain::Flags(Size::Four, BOOLOPT_BITS)),
];

/// Options that are on or off (`enum br_boolopt_id`, linux/if_bridge.h).
const BOOLOPT_BITS: Names = &[
    (1, "no-ll-learn"),
    (2, "mcast-vlan-snooping"),
    (4, "mst-enable"),
];

/// What a port does with packets (`BR_STATE_*`, linux/if_bridge.h).
const STATES: Names = &[
    (0, "disabled"),
    (1, "listening"),
    (2, "learning"),
    (3, "forwarding"),
    (4, "blocking"),
];

/// Who runs the spanning tree (`enum br_stp_mode`, linux/if_link.h).
const STP_MODES: Names = &[(0, "auto"), (1, "user"), (2, "kernel")];

/// The data of a bridge.
pub const BRIDGE: &[Row] = &[
    Row(1, "forward-delay", U32),
    Row(2, "hello-time", U32),
    Row(3, "max-age", U32),
    Row(4, "ageing-time", U32),
    Row(5, "stp-state", U32),
    Row(6, "priority", U16),
    Row(7, "vlan-filtering", U8),
    Row(
        8,
        "vlan-protocol",
        Style::Plain(Plain::BigEndianNamed(Size::Two, PROTOCOLS)),
    ),
    Row(9, "group-fwd-mask", U16),
    Row(10, "root-id", Style::Record(BRIDGE_ID)),
    Row(11, "bridge-id", Style::Record(BRIDGE_ID)),
    Row(12, "root-port", U16),
    Row(13, "root-path-cost", U32),
    Row(14, "topology-change", U8),
    Row(15, "topology-change-detected", U8),
    Row(16, "hello-timer", U64),
    Row(17, "tcn-timer", U64),
    Row(18, "topology-change-timer", U64),
    Row(19, "gc-timer", U64),
    Row(20, "group-addr", MAC),
    Row(21, "fdb-flush", Style::Flag),
    Row(22, "mcast-router", U8),
    Row(23, "mcast-snooping", U8),
    Row(24, "mcast-query-use-ifaddr", U8),
    Row(25, "mcast-querier", U8),
    Row(26, "mcast-hash-elasticity", U32),
    Row(27, "mcast-hash-max", U32),
    Row(28, "mcast-last-member-cnt", U32),
    Row(29, "mcast-startup-query-cnt", U32),
    Row(30, "mcast-last-member-intvl", U64),
    Row(31, "mcast-membership-intvl", U64),
    Row(32, "mcast-querier-intvl", U64),
    Row(33, "mcast-query-intvl", U64),
    Row(34, "mcast-query-response-intvl", U64),
    Row(35, "mcast-startup-query-intvl", U64),
    Row(36, "nf-call-iptables", U8),
    Row(37, "nf-call-ip6-tables", U8),
    Row(38, "nf-call-arptables", U8),
    Row(39, "vlan-default-pvid", U16),
    Row(41, "vlan-stats-enabled", U8),
    Row(42, "mcast-stats-enabled", U8),
    Row(43, "mcast-igmp-version", U8),
    Row(44, "mcast-mld-version", U8),
    Row(45, "vlan-stats-per-port", U8),
    Row(46, "multi-boolopt", Style::Record(BOOLOPTS)),
    Row(47, "mcast-querier-state", Style::Nest(Place::BridgeQuerier)),
    Row(48, "fdb-n-learned", U32),
    Row(49, "fdb-max-learned", U32),
    Row(
        50,
        "stp-mode",
        Style::Plain(Plain::Named(Size::Four, STP_MODES)),
    ),
];

/// Who asks for multicast groups (`BRIDGE_QUERIER_*`, linux/if_bridge.h).
pub const BRIDGE_QUERIER: &[Row] = &[
    Row(1, "ip-address", IPV4),
    Row(2, "ip-port", U32),
    Row(3, "ip-other-timer", U64),
    Row(5, "ipv6-address", IPV6),
    Row(6, "ipv6-port", U32),
    Row(7, "ipv6-other-timer", U64),
];

/// The data of a port of a bridge.
pub const BRIDGE_PORT: &[Row] = &[
    Row(1, "state", Style::Plain(Plain::Named(Size::One, STATES))),
    Row(2, "priority", U16),
    Row(3, "cost", U32),
    Row(4, "mode", U8),
    Row(5, "guard", U8),
    Row(6, "protect", U8),
    Row(7, "fast-leave", U8),
    Row(8, "learning", U8),
    Row(9, "unicast-flood", U8),
    Row(10, "proxyarp", U8),
    Row(11, "learning-sync", U8),
    Row(12, "proxyarp-wifi", U8),
    Row(13, "root-id", Style::Record(BRIDGE_ID)),
    Row(14, "bridge-id", Style::Record(BRIDGE_ID)),
    Row(15, "designated-port", U16),
    Row(16, "designated-cost", U16),
    Row(17, "id", U16),
    Row(18, "no", U16),
    Row(19, "topology-change-ack", U8),
    Row(20, "config-pending", U8),
    Row(21, "message-age-timer", U64),
    Row(22, "forward-delay-timer", U64),
    Row(23, "hold-timer", U64),
    Row(24, "flush", Style::Flag),
    Row(25, "multicast-router", U8),
    Row(27, "mcast-flood", U8),
    Row(28, "mcast-to-ucast", U8),
    Row(29, "vlan-tunnel", U8),
    Row(30, "bcast-flood", U8),
    Row(31, "group-fwd-mask", U16),
    Row(32, "neigh-suppress", U8),
    Row(33, "isolated", U8),
    Row(34, "backup-port", U32),
    Row(35, "mrp-ring-open", U8),
    Row(36, "mrp-in-open", U8),
    Row(37, "mcast-eht-hosts-limit", U32),
    Row(38, "mcast-eht-hosts-cnt", U32),
    Row(39, "locked", U8),
    Row(40, "mab", U8),
    Row(41, "mcast-n-groups", U32),
    Row(42, "mcast-max-groups", U32),
    Row(43, "neigh-vlan-suppress", U8),
    Row(44, "backup-nhid", U32),
    Row(45, "neigh-forward-grat", U8),
];
