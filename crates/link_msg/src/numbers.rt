//! The numbers of the attributes of a link message, as linux/if_link.h names them. Each stands here and nowhere else.
//! What an attribute holds is said at its variant of `LinkAttribute`.

use nla_wire::kind_names;

/// The number of `IFLA_ADDRESS`.
pub const IFLA_ADDRESS: u16 = 1;
/// The number of `IFLA_BROADCAST`.
pub const IFLA_BROADCAST: u16 = 2;
/// The number of `IFLA_IFNAME`.
pub const IFLA_IFNAME: u16 = 3;
/// The number of `IFLA_MTU`.
pub const IFLA_MTU: u16 = 4;
/// The number of `IFLA_LINK`.
pub const IFLA_LINK: u16 = 5;
/// The number of `IFLA_QDISC`.
pub const IFLA_QDISC: u16 = 6;
/// The number of `IFLA_STATS`.
pub const IFLA_STATS: u16 = 7;
/// The number of `IFLA_MASTER`.
pub const IFLA_MASTER: u16 = 10;
/// The number of `IFLA_WIRELESS`.
pub const IFLA_WIRELESS: u16 = 11;
/// The number of `IFLA_PROTINFO`.
pub const IFLA_PROTINFO: u16 = 12;
/// The number of `IFLA_TXQLEN`.
pub const IFLA_TXQLEN: u16 = 13;
/// The number of `IFLA_MAP`.
pub const IFLA_MAP: u16 = 14;
/// The number of `IFLA_OPERSTATE`.
pub const IFLA_OPERSTATE: u16 = 16;
/// The number of `IFLA_LINKMODE`.
pub const IFLA_LINKMODE: u16 = 17;
/// The number of `IFLA_LINKINFO`.
pub const IFLA_LINKINFO: u16 = 18;
/// The number of `IFLA_NET_NS_PID`.
pub const IFLA_NET_NS_PID: u16 = 19;
/// The number of `IFLA_IFALIAS`.
pub const IFLA_IFALIAS: u16 = 20;
/// The number of `IFLA_NUM_VF`.
pub const IFLA_NUM_VF: u16 = 21;
/// The number of `IFLA_VFINFO_LIST`.
pub const IFLA_VFINFO_LIST: u16 = 22;
/// The number of `IFLA_STATS64`.
pub const IFLA_STATS64: u16 = 23;
/// The number of `IFLA_VF_PORTS`.
pub const IFLA_VF_PORTS: u16 = 24;
/// The number of `IFLA_PORT_SELF`.
pub const IFLA_PORT_SELF: u16 = 25;
/// The number of `IFLA_AF_SPEC`.
pub const IFLA_AF_SPEC: u16 = 26;
/// The number of `IFLA_GROUP`.
pub const IFLA_GROUP: u16 = 27;
/// The number of `IFLA_NET_NS_FD`.
pub const IFLA_NET_NS_FD: u16 = 28;
/// The number of `IFLA_EXT_MASK`.
pub const IFLA_EXT_MASK: u16 = 29;
/// The number of `IFLA_PROMISCUITY`.
pub const IFLA_PROMISCUITY: u16 = 30;
/// The number of `IFLA_NUM_TX_QUEUES`.
pub const IFLA_NUM_TX_QUEUES: u16 = 31;
/// The number of `IFLA_NUM_RX_QUEUES`.
pub const IFLA_NUM_RX_QUEUES: u16 = 32;
/// The number of `IFLA_CARRIER`.
pub const IFLA_CARRIER: u16 = 33;
/// The number of `IFLA_PHYS_PORT_ID`.
pub const IFLA_PHYS_PORT_ID: u16 = 34;
/// The number of `IFLA_CARRIER_CHANGES`.
pub const IFLA_CARRIER_CHANGES: u16 = 35;
/// The number of `IFLA_PHYS_SWITCH_ID`.
pub const IFLA_PHYS_SWITCH_ID: u16 = 36;
/// The number of `IFLA_LINK_NETNSID`.
pub const IFLA_LINK_NETNSID: u16 = 37;
/// The number of `IFLA_PHYS_PORT_NAME`.
pub const IFLA_PHYS_PORT_NAME: u16 = 38;
/// The number of `IFLA_PROTO_DOWN`.
pub const IFLA_PROTO_DOWN: u16 = 39;
/// The number of `IFLA_GSO_MAX_SEGS`.
pub const IFLA_GSO_MAX_SEGS: u16 = 40;
/// The number of `IFLA_GSO_MAX_SIZE`.
pub const IFLA_GSO_MAX_SIZE: u16 = 41;
/// The number of `IFLA_XDP`.
pub const IFLA_XDP: u16 = 43;
/// The number of `IFLA_EVENT`.
pub const IFLA_EVENT: u16 = 44;
/// The number of `IFLA_NEW_NETNSID`.
pub const IFLA_NEW_NETNSID: u16 = 45;
/// The number of `IFLA_IF_NETNSID`.
pub const IFLA_IF_NETNSID: u16 = 46;
/// The number of `IFLA_CARRIER_UP_COUNT`.
pub const IFLA_CARRIER_UP_COUNT: u16 = 47;
/// The number of `IFLA_CARRIER_DOWN_COUNT`.
pub const IFLA_CARRIER_DOWN_COUNT: u16 = 48;
/// The number of `IFLA_NEW_IFINDEX`.
pub const IFLA_NEW_IFINDEX: u16 = 49;
/// The number of `IFLA_MIN_MTU`.
pub const IFLA_MIN_MTU: u16 = 50;
/// The number of `IFLA_MAX_MTU`.
pub const IFLA_MAX_MTU: u16 = 51;
/// The number of `IFLA_PROP_LIST`.
pub const IFLA_PROP_LIST: u16 = 52;
/// The number of `IFLA_PERM_ADDRESS`.
pub const IFLA_PERM_ADDRESS: u16 = 54;
/// The number of `IFLA_PROTO_DOWN_REASON`.
pub const IFLA_PROTO_DOWN_REASON: u16 = 55;
/// The number of `IFLA_PARENT_DEV_NAME`.
pub const IFLA_PARENT_DEV_NAME: u16 = 56;
/// The number of `IFLA_PARENT_DEV_BUS_NAME`.
pub const IFLA_PARENT_DEV_BUS_NAME: u16 = 57;
/// The number of `IFLA_GRO_MAX_SIZE`.
pub const IFLA_GRO_MAX_SIZE: u16 = 58;
/// The number of `IFLA_TSO_MAX_SIZE`.
pub const IFLA_TSO_MAX_SIZE: u16 = 59;
/// The number of `IFLA_TSO_MAX_SEGS`.
pub const IFLA_TSO_MAX_SEGS: u16 = 60;
/// The number of `IFLA_ALLMULTI`.
pub const IFLA_ALLMULTI: u16 = 61;
/// The number of `IFLA_DEVLINK_PORT`.
pub const IFLA_DEVLINK_PORT: u16 = 62;
/// The number of `IFLA_GSO_IPV4_MAX_SIZE`.
pub const IFLA_GSO_IPV4_MAX_SIZE: u16 = 63;
/// The number of `IFLA_GRO_IPV4_MAX_SIZE`.
pub const IFLA_GRO_IPV4_MAX_SIZE: u16 = 64;
/// The number of `IFLA_DPLL_PIN`.
pub const IFLA_DPLL_PIN: u16 = 65;
/// The number of `IFLA_NETNS_IMMUTABLE`.
pub const IFLA_NETNS_IMMUTABLE: u16 = 67;
/// The number of `IFLA_HEADROOM`.
pub const IFLA_HEADROOM: u16 = 68;
/// The number of `IFLA_TAILROOM`.
pub const IFLA_TAILROOM: u16 = 69;

/// The name of an attribute, by which a fault says where it is; empty where the number is not listed.
pub(crate) fn kind_name(kind: u16) -> &'static str {
    kind_names!(kind;
        IFLA_ADDRESS, IFLA_BROADCAST, IFLA_IFNAME, IFLA_MTU, IFLA_LINK, IFLA_QDISC, IFLA_STATS,
        IFLA_MASTER, IFLA_WIRELESS, IFLA_PROTINFO, IFLA_TXQLEN, IFLA_MAP, IFLA_OPERSTATE,
        IFLA_LINKMODE, IFLA_LINKINFO, IFLA_NET_NS_PID, IFLA_IFALIAS, IFLA_NUM_VF, IFLA_VFINFO_LIST,
        IFLA_STATS64, IFLA_VF_PORTS, IFLA_PORT_SELF, IFLA_AF_SPEC, IFLA_GROUP, IFLA_NET_NS_FD,
        IFLA_EXT_MASK, IFLA_PROMISCUITY, IFLA_NUM_TX_QUEUES, IFLA_NUM_RX_QUEUES, IFLA_CARRIER,
        IFLA_PHYS_PORT_ID, IFLA_CARRIER_CHANGES, IFLA_PHYS_SWITCH_ID, IFLA_LINK_NETNSID,
        IFLA_PHYS_PORT_NAME, IFLA_PROTO_DOWN, IFLA_GSO_MAX_SEGS, IFLA_GSO_MAX_SIZE, IFLA_XDP,
        IFLA_EVENT, IFLA_NEW_NETNSID, IFLA_IF_NETNSID, IFLA_CARRIER_UP_COUNT,
        IFLA_CARRIER_DOWN_COUNT, IFLA_NEW_IFINDEX, IFLA_MIN_MTU, IFLA_MAX_MTU, IFLA_PROP_LIST,
        IFLA_PERM_ADDRESS, IFLA_PROTO_DOWN_REASON, IFLA_PARENT_DEV_NAME, IFLA_PARENT_DEV_BUS_NAME,
        IFLA_GRO_MAX_SIZE, IFLA_TSO_MAX_SIZE, IFLA_TSO_MAX_SEGS, IFLA_ALLMULTI, IFLA_DEVLINK_PORT,
        IFLA_GSO_IPV4_MAX_SIZE, IFLA_GRO_IPV4_MAX_SIZE, IFLA_DPLL_PIN, IFLA_NETNS_IMMUTABLE,
        IFLA_HEADROOM, IFLA_TAILROOM,
    )
}
