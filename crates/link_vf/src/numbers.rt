//! The numbers of the attributes that this crate reads, as linux/if_link.h names them. Each stands here and nowhere
//! else.

/// An entry of IFLA_VFINFO_LIST: what is said of one virtual function.
pub const IFLA_VF_INFO: u16 = 1;

/// The hardware address of a virtual function, in IFLA_VF_INFO.
pub const IFLA_VF_MAC: u16 = 1;
/// Its vlan and priority.
pub const IFLA_VF_VLAN: u16 = 2;
/// Its greatest rate of sending.
pub const IFLA_VF_TX_RATE: u16 = 3;
/// Whether its addresses are checked.
pub const IFLA_VF_SPOOFCHK: u16 = 4;
/// The state of its link.
pub const IFLA_VF_LINK_STATE: u16 = 5;
/// Its least and its greatest rate of sending.
pub const IFLA_VF_RATE: u16 = 6;
/// Whether its receive side scaling may be asked for.
pub const IFLA_VF_RSS_QUERY_EN: u16 = 7;
/// Its statistics.
pub const IFLA_VF_STATS: u16 = 8;
/// Whether it is trusted.
pub const IFLA_VF_TRUST: u16 = 9;
/// The identifier of its InfiniBand node.
pub const IFLA_VF_IB_NODE_GUID: u16 = 10;
/// The identifier of its InfiniBand port.
pub const IFLA_VF_IB_PORT_GUID: u16 = 11;
/// Its vlans.
pub const IFLA_VF_VLAN_LIST: u16 = 12;
/// Its broadcast address.
pub const IFLA_VF_BROADCAST: u16 = 13;

/// Packets received, in IFLA_VF_STATS.
pub const IFLA_VF_STATS_RX_PACKETS: u16 = 0;
/// Packets sent.
pub const IFLA_VF_STATS_TX_PACKETS: u16 = 1;
/// Bytes received.
pub const IFLA_VF_STATS_RX_BYTES: u16 = 2;
/// Bytes sent.
pub const IFLA_VF_STATS_TX_BYTES: u16 = 3;
/// Broadcast packets received.
pub const IFLA_VF_STATS_BROADCAST: u16 = 4;
/// Multicast packets received.
pub const IFLA_VF_STATS_MULTICAST: u16 = 5;
/// Packets dropped on receipt.
pub const IFLA_VF_STATS_RX_DROPPED: u16 = 7;
/// Packets dropped on sending.
pub const IFLA_VF_STATS_TX_DROPPED: u16 = 8;

/// One vlan of a virtual function, in IFLA_VF_VLAN_LIST.
pub const IFLA_VF_VLAN_INFO: u16 = 1;

/// An entry of IFLA_VF_PORTS: what is said of one port.
pub const IFLA_VF_PORT: u16 = 1;
