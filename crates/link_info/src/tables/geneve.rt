//! The data of a geneve tunnel (`IFLA_GENEVE_*`, linux/if_link.h).

use crate::style::{Member, Names, Plain, Row, Size, Style};
use crate::tables::{BE16, BE32, IPV4, IPV6, U8, U32};

/// When packets get the bit "don't fragment".
const DF: Names = &[(0, "unset"), (1, "set"), (2, "inherit")];

/// Ports that packets come from, the lowest and the highest (`struct ifla_vxlan_port_range`).
const PORT_RANGE: &[Member] = &[
    Member("low", Plain::BigEndian(Size::Two)),
    Member("high", Plain::BigEndian(Size::Two)),
];

/// The data of a geneve tunnel.
pub const GENEVE: &[Row] = &[
    Row(1, "id", U32),
    Row(2, "remote", IPV4),
    Row(3, "ttl", U8),
    Row(4, "tos", U8),
    Row(5, "port", BE16),
    Row(6, "collect-metadata", Style::Flag),
    Row(7, "remote6", IPV6),
    Row(8, "udp-csum", U8),
    Row(9, "udp-zero-csum6-tx", U8),
    Row(10, "udp-zero-csum6-rx", U8),
    Row(11, "label", BE32),
    Row(12, "ttl-inherit", U8),
    Row(13, "df", Style::Plain(Plain::Named(Size::One, DF))),
    Row(14, "inner-proto-inherit", Style::Flag),
    Row(15, "port-range", Style::Record(PORT_RANGE)),
];
