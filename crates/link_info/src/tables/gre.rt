//! The data of GRE and ERSPAN tunnels (`IFLA_GRE_*`, linux/if_tunnel.h).

use crate::style::{Names, Plain, Row, Size, Style};
use crate::tables::{BE16, BE32, IPV4, IPV6, U8, U16, U32};

/// How packets are encapsulated (`enum tunnel_encap_types`, linux/if_tunnel.h).
const ENCAPS: Names = &[(0, "none"), (1, "fou"), (2, "gue"), (3, "mpls")];

/// Flags of an encapsulation (`TUNNEL_ENCAP_FLAG_*`, linux/if_tunnel.h).
const ENCAP_FLAGS: Names = &[(1, "csum"), (2, "csum6"), (4, "remcsum")];

/// Flags of GRE packets (`GRE_*`, linux/if_tunnel.h).
const GRE_FLAGS: Names = &[
    (32768, "csum"),
    (16384, "routing"),
    (8192, "key"),
    (4096, "seq"),
    (2048, "strict"),
];

/// The data of a GRE tunnel over IPv4.
pub const GRE: &[Row] = &[
    Row(1, "link", U32),
    Row(
        2,
        "iflags",
        Style::Plain(Plain::BigEndianFlags(Size::Two, GRE_FLAGS)),
    ),
    Row(
        3,
        "oflags",
        Style::Plain(Plain::BigEndianFlags(Size::Two, GRE_FLAGS)),
    ),
    Row(4, "ikey", BE32),
    Row(5, "okey", BE32),
    Row(6, "local", IPV4),
    Row(7, "remote", IPV4),
    Row(8, "ttl", U8),
    Row(9, "tos", U8),
    Row(10, "pmtudisc", U8),
    Row(11, "encap-limit", U8),
    Row(12, "flowinfo", BE32),
    Row(13, "flags", U32),
    Row(
        14,
        "encap-type",
        Style::Plain(Plain::Named(Size::Two, ENCAPS)),
    ),
    Row(
        15,
        "encap-flags",
        Style::Plain(Plain::Flags(Size::Two, ENCAP_FLAGS)),
    ),
    Row(16, "encap-sport", BE16),
    Row(17, "encap-dport", BE16),
    Row(18, "collect-metadata", Style::Flag),
    Row(19, "ignore-df", U8),
    Row(20, "fwmark", U32),
    Row(21, "erspan-index", U32),
    Row(22, "erspan-ver", U8),
    Row(23, "erspan-dir", U8),
    Row(24, "erspan-hwid", U16),
];

/// The data of a GRE tunnel over IPv6.
pub const GRE6: &[Row] = &[
    Row(1, "link", U32),
    Row(
        2,
        "iflags",
        Style::Plain(Plain::BigEndianFlags(Size::Two, GRE_FLAGS)),
    ),
    Row(
        3,
        "oflags",
        Style::Plain(Plain::BigEndianFlags(Size::Two, GRE_FLAGS)),
    ),
    Row(4, "ikey", BE32),
    Row(5, "okey", BE32),
    Row(6, "local", IPV6),
    Row(7, "remote", IPV6),
    Row(8, "ttl", U8),
    Row(9, "tos", U8),
    Row(10, "pmtudisc", U8),
    Row(11, "encap-limit", U8),
    Row(12, "flowinfo", BE32),
    Row(13, "flags", U32),
    Row(
        14,
        "encap-type",
        Style::Plain(Plain::Named(Size::Two, ENCAPS)),
    ),
    Row(
        15,
        "encap-flags",
        Style::Plain(Plain::Flags(Size::Two, ENCAP_FLAGS)),
    ),
    Row(16, "encap-sport", BE16),
    Row(17, "encap-dport", BE16),
    Row(18, "collect-metadata", Style::Flag),
    Row(19, "ignore-df", U8),
    Row(20, "fwmark", U32),
    Row(21, "erspan-index", U32),
    Row(22, "erspan-ver", U8),
    Row(23, "erspan-dir", U8),
    Row(24, "erspan-hwid", U16),
];
