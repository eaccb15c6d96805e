//! The data of kinds that have few attributes.

use crate::style::{Member, Names, Plain, Row, Size, Style};
use crate::tables::{BE16, I32, IPV4, IPV6, MAC, U8, U16, U32};

/// What a tun device carries (`IFF_TUN`, `IFF_TAP`, linux/if_tun.h).
const TUN_TYPES: Names = &[(1, "tun"), (2, "tap")];

/// What a netkit device does with packets (`enum netkit_action`, linux/if_link.h).
const POLICIES: Names = &[(0, "forward"), (2, "blackhole")];

/// What a netkit device carries (`enum netkit_mode`).
const NETKIT_MODES: Names = &[(0, "l2"), (1, "l3")];

/// What is cleared of packets (`enum netkit_scrub`).
const SCRUBS: Names = &[(0, "none"), (1, "default")];

/// Whether a netkit device has a peer (`enum netkit_pairing`).
const PAIRINGS: Names = &[(0, "pair"), (1, "single")];

/// Protocols of redundancy (`enum hsr_proto`).
const HSR_PROTOCOLS: Names = &[(0, "hsr"), (1, "prp")];

/// The role of a GTP tunnel (`enum ifla_gtp_role`).
const GTP_ROLES: Names = &[(0, "ggsn"), (1, "sgsn")];

/// The role of an AMT tunnel (`enum amt_mode`, linux/amt.h).
const AMT_MODES: Names = &[(0, "gateway"), (1, "relay")];

/// How many peers an ovpn device has (`enum ovpn_mode`, linux/if_link.h).
const OVPN_MODES: Names = &[(0, "p2p"), (1, "mp")];

/// Flags, and which of them are meant (`struct ifla_rmnet_flags`).
const RMNET_FLAGS: &[Member] = &[
    Member("flags", Plain::Flags(Size::Four, RMNET_BITS)),
    Member("mask", Plain::Flags(Size::Four, RMNET_BITS)),
];

/// Flags of an rmnet device (`RMNET_FLAGS_*`, linux/if_link.h).
const RMNET_BITS: Names = &[
    (1, "ingress-deaggregation"),
    (2, "ingress-map-commands"),
    (4, "ingress-map-cksumv4"),
    (8, "egress-map-cksumv4"),
    (16, "ingress-map-cksumv5"),
    (32, "egress-map-cksumv5"),
];

/// The data of a vrf, and of its ports (`IFLA_VRF_TABLE`, linux/if_link.h).
pub const VRF: &[Row] = &[Row(1, "table", U32)];

/// The data of a port of a vrf (`IFLA_VRF_PORT_TABLE`, linux/if_link.h).
pub const VRF_PORT: &[Row] = &[Row(1, "table", U32)];

/// The data of a tun device (`IFLA_TUN_*`, linux/if_link.h).
pub const TUN: &[Row] = &[
    Row(1, "owner", U32),
    Row(2, "group", U32),
    Row(3, "type", Style::Plain(Plain::Named(Size::One, TUN_TYPES))),
    Row(4, "pi", U8),
    Row(5, "vnet-hdr", U8),
    Row(6, "persist", U8),
    Row(7, "multi-queue", U8),
    Row(8, "num-queues", U32),
    Row(9, "num-disabled-queues", U32),
];

/// The data of a netkit device (`IFLA_NETKIT_*`, linux/if_link.h).
pub const NETKIT: &[Row] = &[
    Row(1, "peer-info", Style::Bytes),
    Row(2, "primary", U8),
    Row(
        3,
        "policy",
        Style::Plain(Plain::Named(Size::Four, POLICIES)),
    ),
    Row(
        4,
        "peer-policy",
        Style::Plain(Plain::Named(Size::Four, POLICIES)),
    ),
    Row(
        5,
        "mode",
        Style::Plain(Plain::Named(Size::Four, NETKIT_MODES)),
    ),
    Row(6, "scrub", Style::Plain(Plain::Named(Size::Four, SCRUBS))),
    Row(
        7,
        "peer-scrub",
        Style::Plain(Plain::Named(Size::Four, SCRUBS)),
    ),
    Row(8, "headroom", U16),
    Row(9, "tailroom", U16),
    Row(
        10,
        "pairing",
        Style::Plain(Plain::Named(Size::Four, PAIRINGS)),
    ),
];

/// The data of an hsr device (`IFLA_HSR_*`, linux/if_link.h).
pub const HSR: &[Row] = &[
    Row(1, "slave1", U32),
    Row(2, "slave2", U32),
    Row(3, "multicast-spec", U8),
    Row(4, "supervision-addr", MAC),
    Row(5, "seq-nr", U16),
    Row(6, "version", U8),
    Row(
        7,
        "protocol",
        Style::Plain(Plain::Named(Size::One, HSR_PROTOCOLS)),
    ),
    Row(8, "interlink", U32),
];

/// The data of an rmnet device (`IFLA_RMNET_*`, linux/if_link.h).
pub const RMNET: &[Row] = &[
    Row(1, "mux-id", U16),
    Row(2, "flags", Style::Record(RMNET_FLAGS)),
];

/// The data of a GTP tunnel (`IFLA_GTP_*`, linux/if_link.h).
pub const GTP: &[Row] = &[
    Row(1, "fd0", U32),
    Row(2, "fd1", U32),
    Row(3, "pdp-hashsize", U32),
    Row(4, "role", Style::Plain(Plain::Named(Size::Four, GTP_ROLES))),
    Row(5, "create-sockets", U8),
    Row(6, "restart-count", U8),
    Row(7, "local", IPV4),
    Row(8, "local6", IPV6),
];

/// The data of a bareudp tunnel (`IFLA_BAREUDP_*`, linux/if_link.h).
pub const BAREUDP: &[Row] = &[
    Row(1, "port", BE16),
    Row(2, "ethertype", BE16),
    Row(3, "srcport-min", U16),
    Row(4, "multiproto-mode", Style::Flag),
];

/// The data of an AMT tunnel (`IFLA_AMT_*`, linux/amt.h).
pub const AMT: &[Row] = &[
    Row(1, "mode", Style::Plain(Plain::Named(Size::Four, AMT_MODES))),
    Row(2, "relay-port", BE16),
    Row(3, "gateway-port", BE16),
    Row(4, "link", U32),
    Row(5, "local-ip", IPV4),
    Row(6, "remote-ip", IPV4),
    Row(7, "discovery-ip", IPV4),
    Row(8, "max-tunnels", U32),
];

/// The data of a wwan device (`IFLA_WWAN_*`, linux/wwan.h).
pub const WWAN: &[Row] = &[Row(1, "link-id", U32)];

/// The data of an ovpn device (`IFLA_OVPN_*`, linux/if_link.h).
pub const OVPN: &[Row] = &[Row(1, "mode", Style::Plain(Plain::Named(Size::One, OVPN_MODES)))];

/// The data of an end of a veth pair (`VETH_INFO_*`, linux/veth.h): the message of the other end.
pub const VETH: &[Row] = &[Row(1, "peer", Style::Bytes)];

/// The data of an end of a vxcan pair (`VXCAN_INFO_*`, linux/can/vxcan.h): the message of the other end.
pub const VXCAN: &[Row] = &[Row(1, "peer", Style::Bytes)];

/// The data of a ppp interface (`IFLA_PPP_*`, linux/if_link.h). Kernels send none of it.
pub const PPP: &[Row] = &[Row(1, "dev-fd", I32)];
