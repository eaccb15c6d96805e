//! The numbers of the attributes that are kept undecoded and hold what moves by itself, as the kernel's headers name
//! them. Each stands here and nowhere else. What is said of a kind of device is at its level in `Level`.

/// The settings of a device, in IFLA_LINKINFO (linux/if_link.h).
pub const IFLA_INFO_DATA: u16 = 2;
/// The statistics of a device's kind.
pub const IFLA_INFO_XSTATS: u16 = 3;
/// The kind of the device that an interface is a port of.
pub const IFLA_INFO_SLAVE_KIND: u16 = 4;
/// The settings of a port.
pub const IFLA_INFO_SLAVE_DATA: u16 = 5;

/// The time to the next hello, in the settings of a bridge (linux/if_link.h).
pub const IFLA_BR_HELLO_TIMER: u16 = 16;
/// The time to the next notice of a changed topology.
pub const IFLA_BR_TCN_TIMER: u16 = 17;
/// The time for which a changed topology is told.
pub const IFLA_BR_TOPOLOGY_CHANGE_TIMER: u16 = 18;
/// The time to the next removal of old entries.
pub const IFLA_BR_GC_TIMER: u16 = 19;
/// What is known of other queriers of multicast groups.
pub const IFLA_BR_MCAST_QUERIER_STATE: u16 = 47;
/// How many addresses were learned.
pub const IFLA_BR_FDB_N_LEARNED: u16 = 48;

/// How long another querier of IPv4 is waited for, in IFLA_BR_MCAST_QUERIER_STATE (linux/if_bridge.h).
pub const BRIDGE_QUERIER_IP_OTHER_TIMER: u16 = 3;
/// The same of IPv6.
pub const BRIDGE_QUERIER_IPV6_OTHER_TIMER: u16 = 7;

/// Whether a changed topology is still to be confirmed, in the settings of a bridge's port (linux/if_link.h).
pub const IFLA_BRPORT_TOPOLOGY_CHANGE_ACK: u16 = 19;
/// Whether a configuration is still to be sent.
pub const IFLA_BRPORT_CONFIG_PENDING: u16 = 20;
/// The time for which what was heard of the root is believed.
pub const IFLA_BRPORT_MESSAGE_AGE_TIMER: u16 = 21;
/// The time to the next state of the port.
pub const IFLA_BRPORT_FORWARD_DELAY_TIMER: u16 = 22;
/// The time to the next configuration that may be sent.
pub const IFLA_BRPORT_HOLD_TIMER: u16 = 23;
/// How many hosts are tracked.
pub const IFLA_BRPORT_MCAST_EHT_HOSTS_CNT: u16 = 38;
/// How many groups of multicast the port has joined.
pub const IFLA_BRPORT_MCAST_N_GROUPS: u16 = 41;

/// How often the link failed, in the settings of a bond's port (linux/if_link.h).
pub const IFLA_BOND_SLAVE_LINK_FAILURE_COUNT: u16 = 3;

/// Counters of bus errors, in the settings of a CAN device (linux/can/netlink.h).
pub const IFLA_CAN_BERR_COUNTER: u16 = 8;

/// The number of the next supervision frame, in the settings of a ring of HSR or PRP (linux/if_link.h).
pub const IFLA_HSR_SEQ_NR: u16 = 5;
