//! The numbers of the attributes and events that this crate reads, as the kernel's headers name them. Each stands here
//! and nowhere else.

/// An alternative name, in IFLA_PROP_LIST (linux/if_link.h).
pub const IFLA_ALT_IFNAME: u16 = 53;

/// The name of a bus, in IFLA_DEVLINK_PORT (linux/devlink.h).
pub const DEVLINK_ATTR_BUS_NAME: u16 = 1;
/// The name of a device on its bus.
pub const DEVLINK_ATTR_DEV_NAME: u16 = 2;
/// The index of a port of the device.
pub const DEVLINK_ATTR_PORT_INDEX: u16 = 3;

/// The number of a clock's pin, in IFLA_DPLL_PIN (linux/dpll.h).
pub const DPLL_A_PIN_ID: u16 = 1;

/// Which reasons are meant, in IFLA_PROTO_DOWN_REASON (linux/if_link.h).
pub const IFLA_PROTO_DOWN_REASON_MASK: u16 = 1;
/// Which of them hold.
pub const IFLA_PROTO_DOWN_REASON_VALUE: u16 = 2;

/// A program's file descriptor, in IFLA_XDP (linux/if_link.h).
pub const IFLA_XDP_FD: u16 = 1;
/// Where a program is attached.
pub const IFLA_XDP_ATTACHED: u16 = 2;
/// Flags of attaching.
pub const IFLA_XDP_FLAGS: u16 = 3;
/// A program's number.
pub const IFLA_XDP_PROG_ID: u16 = 4;
/// The number of the program in the driver.
pub const IFLA_XDP_DRV_PROG_ID: u16 = 5;
/// The number of the program on socket buffers.
pub const IFLA_XDP_SKB_PROG_ID: u16 = 6;
/// The number of the program in the hardware.
pub const IFLA_XDP_HW_PROG_ID: u16 = 7;
/// The file descriptor of the program that is to be replaced.
pub const IFLA_XDP_EXPECTED_FD: u16 = 8;

/// The kind of an interface, in IFLA_LINKINFO (linux/if_link.h).
pub const IFLA_INFO_KIND: u16 = 1;

/// The information elements of an association request, in IFLA_WIRELESS (linux/wireless.h).
pub const IWEVASSOCREQIE: u16 = 0x8c07;
/// The information elements of an association response.
pub const IWEVASSOCRESPIE: u16 = 0x8c08;
