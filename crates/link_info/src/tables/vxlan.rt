//! The data of a vxlan (`IFLA_VXLAN_*`, linux/if_link.h).

use crate::style::{Member, Names, Plain, Row, Size, Style};
use crate::tables::{BE16, BE32, BE64, IPV4, IPV6, U8, U32};

/// Ports that packets come from, the lowest and the highest (`struct ifla_vxlan_port_range`).
const PORT_RANGE: &[Member] = &[
    Member("low", Plain::BigEndian(Size::Two)),
    Member("high", Plain::BigEndian(Size::Two)),
];

/// When packets get the bit "don't fragment".
const DF: Names = &[(0, "unset"), (1, "set"), (2, "inherit")];

/// Where the flow label comes from (`enum ifla_vxlan_label_policy`).
const LABEL_POLICIES: Names = &[(0, "fixed"), (1, "inherit")];

/// The data of a vxlan.
pub const VXLAN: &[Row] = &[
    Row(1, "id", U32),
    Row(2, "group", IPV4),
    Row(3, "link", U32),
    Row(4, "local", IPV4),
    Row(5, "ttl", U8),
    Row(6, "tos", U8),
    Row(7, "learning", U8),
    Row(8, "ageing", U32),
    Row(9, "limit", U32),
    Row(10, "port-range", Style::Record(PORT_RANGE)),
    Row(11, "proxy", U8),
    Row(12, "rsc", U8),
    Row(13, "l2miss", U8),
    Row(14, "l3miss", U8),
    Row(15, "port", BE16),
    Row(16, "group6", IPV6),
    Row(17, "local6", IPV6),
    Row(18, "udp-csum", U8),
    Row(19, "udp-zero-csum6-tx", U8),
    Row(20, "udp-zero-csum6-rx", U8),
    Row(21, "remcsum-tx", U8),
    Row(22, "remcsum-rx", U8),
    Row(23, "gbp", Style::Flag),
    Row(24, "remcsum-nopartial", Style::Flag),
    Row(25, "collect-metadata", U8),
    Row(26, "label", BE32),
    Row(27, "gpe", Style::Flag),
    Row(28, "ttl-inherit", U8),
    Row(29, "df", Style::Plain(Plain::Named(Size::One, DF))),
    Row(30, "vnifilter", U8),
    Row(31, "localbypass", U8),
    Row(
        32,
        "label-policy",
        Style::Plain(Plain::Named(Size::Four, LABEL_POLICIES)),
    ),
    Row(33, "reserved-bits", BE64),
];
