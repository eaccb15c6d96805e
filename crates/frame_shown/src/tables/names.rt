//! The names of values, flags, counters and fields of a link.

use crate::form::Field;
use crate::tables::Part;
use link_info::Size;

/// The operational states.
pub const OPERSTATES: [&str; 7] = [
    "unknown",
    "notpresent",
    "down",
    "lowerlayerdown",
    "testing",
    "dormant",
    "up",
];

/// The modes of a link.
pub const LINK_MODES: [&str; 3] = ["default", "dormant", "testing"];

/// The bits of `IFLA_EXT_MASK`.
pub const EXT_MASK: [(u64, &str); 8] = [
    (0x01, "vf"),
    (0x02, "brvlan"),
    (0x04, "brvlan-compressed"),
    (0x08, "skip-stats"),
    (0x10, "mrp"),
    (0x20, "cfm-config"),
    (0x40, "cfm-status"),
    (0x80, "mst"),
];

/// The flags of a link.
pub const LINK_FLAGS: [(u64, &str); 19] = [
    (1, "up"),
    (2, "broadcast"),
    (4, "debug"),
    (8, "loopback"),
    (16, "point-to-point"),
    (32, "no-trailers"),
    (64, "running"),
    (128, "no-arp"),
    (256, "promisc"),
    (512, "all-multi"),
    (0x400, "master"),
    (0x800, "slave"),
    (0x1000, "multicast"),
    (0x2000, "portsel"),
    (0x4000, "auto-media"),
    (0x8000, "dynamic"),
    (0x10000, "lower-up"),
    (0x20000, "dormant"),
    (0x40000, "echo"),
];

/// The counters of a link.
pub const STATS: [&str; 25] = [
    "rx-packets",
    "tx-packets",
    "rx-bytes",
    "tx-bytes",
    "rx-errors",
    "tx-errors",
    "rx-dropped",
    "tx-dropped",
    "multicast",
    "collisions",
    "rx-length-errors",
    "rx-over-errors",
    "rx-crc-errors",
    "rx-frame-errors",
    "rx-fifo-errors",
    "rx-missed-errors",
    "tx-aborted-errors",
    "tx-carrier-errors",
    "tx-fifo-errors",
    "tx-heartbeat-errors",
    "tx-window-errors",
    "rx-compressed",
    "tx-compressed",
    "rx-nohandler",
    "rx-otherhost-dropped",
];

/// `struct rtnl_link_ifmap`.
pub const MAP: [Part; 6] = [
    ("mem-start", 0, Field::Number(Size::Eight)),
    ("mem-end", 8, Field::Number(Size::Eight)),
    ("base-addr", 16, Field::Number(Size::Eight)),
    ("irq", 24, Field::Number(Size::Two)),
    ("dma", 26, Field::Number(Size::One)),
    ("port", 27, Field::Number(Size::One)),
];

/// Where a program is attached, by the numbers.
pub const XDP_ATTACHED: [&str; 5] = ["none", "drv", "skb", "hw", "multi"];

/// Why a link announces itself, by the numbers.
pub const EVENTS: [&str; 7] = [
    "none",
    "reboot",
    "features",
    "bonding-failover",
    "notify-peers",
    "igmp-resend",
    "bonding-options",
];
