//! The data of a bond and of its ports (`IFLA_BOND_*`, linux/if_link.h).

use crate::place::Place;
use crate::style::{Names, Plain, Row, Size, Style};
use crate::tables::{I32, MAC, U8, U16, U32};

/// How a bond uses its ports (`BOND_MODE_*`, linux/if_bonding.h).
const MODES: Names = &[
    (0, "balance-rr"),
    (1, "active-backup"),
    (2, "balance-xor"),
    (3, "broadcast"),
    (4, "802.3ad"),
    (5, "balance-tlb"),
    (6, "balance-alb"),
];

/// Which ARP packets are validated.
const ARP_VALIDATE: Names = &[
    (0, "none"),
    (1, "active"),
    (2, "backup"),
    (3, "all"),
    (4, "filter"),
    (5, "filter-active"),
    (6, "filter-backup"),
];

/// How many targets have to answer.
const ARP_ALL_TARGETS: Names = &[(0, "any"), (1, "all")];

/// When the primary port is chosen again.
const PRIMARY_RESELECT: Names = &[(0, "always"), (1, "better"), (2, "failure")];

/// Whose address the bond has.
const FAIL_OVER_MAC: Names = &[(0, "none"), (1, "active"), (2, "follow")];

/// What a port is chosen by (`BOND_XMIT_POLICY_*`, linux/if_bonding.h).
const XMIT_HASH_POLICIES: Names = &[
    (0, "layer2"),
    (1, "layer3+4"),
    (2, "layer2+3"),
    (3, "encap2+3"),
    (4, "encap3+4"),
    (5, "vlan+srcmac"),
];

/// How often the partner sends LACP packets.
const LACP_RATES: Names = &[(0, "slow"), (1, "fast")];

/// What an aggregator is chosen by.
const AD_SELECT: Names = &[(0, "stable"), (1, "bandwidth"), (2, "count")];

/// Whether a port is in use (`BOND_STATE_*`, linux/if_bonding.h).
const STATES: Names = &[(0, "active"), (1, "backup")];

/// The link of a port (`BOND_LINK_*`, linux/if_bonding.h).
const MII_STATES: Names = &[(0, "up"), (1, "fail"), (2, "down"), (3, "back")];

/// Whether a port and its partner agree (`churn_state_t`, net/bond_3ad.h).
const CHURN_STATES: Names = &[(0, "monitor"), (1, "churn"), (2, "none")];

/// The data of a bond.
pub const BOND: &[Row] = &[
    Row(1, "mode", Style::Plain(Plain::Named(Size::One, MODES))),
    Row(2, "active-slave", U32),
    Row(3, "miimon", U32),
    Row(4, "updelay", U32),
    Row(5, "downdelay", U32),
    Row(6, "use-carrier", U8),
    Row(7, "arp-interval", U32),
    Row(8, "arp-ip-target", Style::List(Plain::Ipv4)),
    Row(
        9,
        "arp-validate",
        Style::Plain(Plain::Named(Size::Four, ARP_VALIDATE)),
    ),
    Row(
        10,
        "arp-all-targets",
        Style::Plain(Plain::Named(Size::Four, ARP_ALL_TARGETS)),
    ),
    Row(11, "primary", U32),
    Row(
        12,
        "primary-reselect",
        Style::Plain(Plain::Named(Size::One, PRIMARY_RESELECT)),
    ),
    Row(
        13,
        "fail-over-mac",
        Style::Plain(Plain::Named(Size::One, FAIL_OVER_MAC)),
    ),
    Row(
        14,
        "xmit-hash-policy",
        Style::Plain(Plain::Named(Size::One, XMIT_HASH_POLICIES)),
    ),
    Row(15, "resend-igmp", U32),
    Row(16, "num-peer-notif", U8),
    Row(17, "all-slaves-active", U8),
    Row(18, "min-links", U32),
    Row(19, "lp-interval", U32),
    Row(20, "packets-per-slave", U32),
    Row(
        21,
        "ad-lacp-rate",
        Style::Plain(Plain::Named(Size::One, LACP_RATES)),
    ),
    Row(
        22,
        "ad-select",
        Style::Plain(Plain::Named(Size::One, AD_SELECT)),
    ),
    Row(23, "ad-info", Style::Nest(Place::BondAdInfo)),
    Row(24, "ad-actor-sys-prio", U16),
    Row(25, "ad-user-port-key", U16),
    Row(26, "ad-actor-system", MAC),
    Row(27, "tlb-dynamic-lb", U8),
    Row(28, "peer-notif-delay", U32),
    Row(29, "ad-lacp-active", U8),
    Row(30, "missed-max", U8),
    Row(31, "ns-ip6-target", Style::List(Plain::Ipv6)),
    Row(32, "coupled-control", U8),
    Row(33, "broadcast-neigh", U8),
    Row(34, "lacp-strict", U8),
];

/// The aggregator in use.
pub const BOND_AD_INFO: &[Row] = &[
    Row(1, "aggregator", U16),
    Row(2, "num-ports", U16),
    Row(3, "actor-key", U16),
    Row(4, "partner-key", U16),
    Row(5, "partner-mac", MAC),
];

/// The data of a port of a bond.
pub const BOND_SLAVE: &[Row] = &[
    Row(1, "state", Style::Plain(Plain::Named(Size::One, STATES))),
    Row(
        2,
        "mii-status",
        Style::Plain(Plain::Named(Size::One, MII_STATES)),
    ),
    Row(3, "link-failure-count", U32),
    Row(4, "perm-hwaddr", MAC),
    Row(5, "queue-id", U16),
    Row(6, "ad-aggregator-id", U16),
    Row(7, "ad-actor-oper-port-state", U8),
    Row(8, "ad-partner-oper-port-state", U16),
    Row(9, "prio", I32),
    Row(10, "actor-port-prio", U16),
    Row(
        11,
        "ad-churn-actor-state",
        Style::Plain(Plain::Named(Size::One, CHURN_STATES)),
    ),
    Row(
        12,
        "ad-churn-partner-state",
        Style::Plain(Plain::Named(Size::One, CHURN_STATES)),
    ),
];
