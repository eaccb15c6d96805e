//! The data of IP in IP tunnels (`IFLA_IPTUN_*`, `IFLA_VTI_*`, linux/if_tunnel.h).

use crate::style::{Names, Plain, Row, Size, Style};
use crate::tables::{BE16, BE32, IPV4, IPV6, U8, U16, U32};

/// How packets are encapsulated (`enum tunnel_encap_types`, linux/if_tunnel.h).
const ENCAPS: Names = &[(0, "none"), (1, "fou"), (2, "gue"), (3, "mpls")];

/// Flags of an encapsulation (`TUNNEL_ENCAP_FLAG_*`, linux/if_tunnel.h).
const ENCAP_FLAGS: Names = &[(1, "csum"), (2, "csum6"), (4, "remcsum")];

/// Flags of a sit tunnel (`SIT_ISATAP`, linux/if_tunnel.h).
const SIT_FLAGS: Names = &[(1, "isatap")];

/// The data of an ipip or sit tunnel.
pub const IP_TUNNEL: &[Row] = &[
    Row(1, "link", U32),
    Row(2, "local", IPV4),
    Row(3, "remote", IPV4),
    Row(4, "ttl", U8),
    Row(5, "tos", U8),
    Row(6, "encap-limit", U8),
    Row(7, "flowinfo", BE32),
    Row(8, "flags", Style::Plain(Plain::Flags(Size::Two, SIT_FLAGS))),
    Row(9, "proto", U8),
    Row(10, "pmtudisc", U8),
    Row(11, "6rd-prefix", IPV6),
    Row(12, "6rd-relay-prefix", IPV4),
    Row(13, "6rd-prefixlen", U16),
    Row(14, "6rd-relay-prefixlen", U16),
    Row(
        15,
        "encap-type",
        Style::Plain(Plain::Named(Size::Two, ENCAPS)),
    ),
    Row(
        16,
        "encap-flags",
        Style::Plain(Plain::Flags(Size::Two, ENCAP_FLAGS)),
    ),
    Row(17, "encap-sport", BE16),
    Row(18, "encap-dport", BE16),
    Row(19, "collect-metadata", Style::Flag),
    Row(20, "fwmark", U32),
];

/// The data of an ip6tnl tunnel.
pub const IP6_TUNNEL: &[Row] = &[
    Row(1, "link", U32),
    Row(2, "local", IPV6),
    Row(3, "remote", IPV6),
    Row(4, "ttl", U8),
    Row(5, "tos", U8),
    Row(6, "encap-limit", U8),
    Row(7, "flowinfo", BE32),
    Row(8, "flags", U32),
    Row(9, "proto", U8),
    Row(10, "pmtudisc", U8),
    Row(11, "6rd-prefix", IPV6),
    Row(12, "6rd-relay-prefix", IPV4),
    Row(13, "6rd-prefixlen", U16),
    Row(14, "6rd-relay-prefixlen", U16),
    Row(
        15,
        "encap-type",
        Style::Plain(Plain::Named(Size::Two, ENCAPS)),
    ),
    Row(
        16,
        "encap-flags",
        Style::Plain(Plain::Flags(Size::Two, ENCAP_FLAGS)),
    ),
    Row(17, "encap-sport", BE16),
    Row(18, "encap-dport", BE16),
    Row(19, "collect-metadata", Style::Flag),
    Row(20, "fwmark", U32),
];

/// The data of a vti tunnel.
pub const VTI: &[Row] = &[
    Row(1, "link", U32),
    Row(2, "ikey", BE32),
    Row(3, "okey", BE32),
    Row(4, "local", IPV4),
    Row(5, "remote", IPV4),
    Row(6, "fwmark", U32),
];

/// The data of a vti6 tunnel.
pub const VTI6: &[Row] = &[
    Row(1, "link", U32),
    Row(2, "ikey", BE32),
    Row(3, "okey", BE32),
    Row(4, "local", IPV6),
    Row(5, "remote", IPV6),
    Row(6, "fwmark", U32),
];

/// The data of an xfrm interface (`IFLA_XFRM_*`, linux/if_link.h).
pub const XFRM: &[Row] = &[
    Row(1, "link", U32),
    Row(2, "if-id", U32),
    Row(3, "collect-metadata", Style::Flag),
];
