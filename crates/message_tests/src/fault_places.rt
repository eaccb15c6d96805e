//! Where faults are: the innermost frame that is refused, or the stray bytes, at each place where attributes stand.

use crate::rows::with_header;
use crate::testing::{cause_checked, holds, is_same};
use link_msg::*;
use std::alloc::Global;
use std::process::Abort;

/// What is wrong, the family, the attributes, and how many bytes after the header the fault is.
type Row<'a> = (&'a str, u8, &'a [u8], usize);

/// How many bytes stand before the fault of a message; for the proof: what the call promises stays here.
fn fault_at(bytes: &[u8]) -> Option<usize> {
    LinkMessage::fault_at(bytes)
}

/// Each of these attributes is refused under its family, and its fault is where the row says.
fn are_at(rt: &impl Abort, alloc: Global, rows: &[Row<'_>]) {
    for (label, family, attributes, at) in rows {
        let bytes = with_header(rt, alloc, *family, attributes);
        holds(rt, label, cause_checked(bytes.as_slice()).is_some());
        holds(rt, label, *at < 100);
        is_same(rt, label, &fault_at(bytes.as_slice()), &Some(16 + *at));
    }
}

#[test]
fn of_short_messages(rt: HostRuntime) {
    assert!(rt; fault_at(&[]) == Some(0));
    assert!(rt; fault_at(&[0; 15]) == Some(0));
}

/// What is read: a label, the family and the attributes.
const READ: &[(&str, u8, &[u8])] = &[
    ("no attribute", 0, &[]),
    (
        "IFLA_MTU and IFLA_IFNAME",
        0,
        &[
            0x08, 0x00, 0x04, 0x00, 0xdc, 0x05, 0x00, 0x00, 0x06, 0x00, 0x03, 0x00, 0x6c, 0x6f,
        ],
    ),
    (
        "IFLA_AF_SPEC of AF_INET",
        2,
        &[0x05, 0x00, 0x1a, 0x00, 0x09],
    ),
    (
        "a foreign entry of functions",
        0,
        &[0x08, 0x00, 0x16, 0x00, 0x04, 0x00, 0x07, 0x00],
    ),
    (
        "a foreign entry of ports",
        0,
        &[0x08, 0x00, 0x18, 0x00, 0x04, 0x00, 0x02, 0x00],
    ),
];

#[test]
fn of_what_is_read(rt: HostRuntime) {
    for (label, family, attributes) in READ {
        let bytes = with_header(&rt, rt.alloc(), *family, attributes);
        is_same(&rt, label, &cause_checked(bytes.as_slice()), &None);
        is_same(&rt, label, &fault_at(bytes.as_slice()), &None);
    }
}

/// The rows of `of_outermost_frames`.
const OF_OUTERMOST_FRAMES: &[Row<'static>] = &[
    ("a length of 3", 0, &[0x03, 0x00, 0x03, 0x00], 0),
    (
        "a stray byte",
        0,
        &[0x08, 0x00, 0x04, 0x00, 0xdc, 0x05, 0x00, 0x00, 0x00],
        8,
    ),
    (
        "a length that passes the message",
        0,
        &[
            0x08, 0x00, 0x04, 0x00, 0xdc, 0x05, 0x00, 0x00, 0xff, 0xff, 0x03, 0x00,
        ],
        8,
    ),
    (
        "a length of 3 after a name",
        0,
        &[
            0x07, 0x00, 0x03, 0x00, 0x6c, 0x6f, 0x00, 0x09, 0x03, 0x00, 0x03, 0x00,
        ],
        8,
    ),
];

#[test]
fn of_outermost_frames(rt: HostRuntime) {
    are_at(&rt, rt.alloc(), OF_OUTERMOST_FRAMES);
}

/// The rows of `of_outermost_payloads`.
const OF_OUTERMOST_PAYLOADS: &[Row<'static>] = &[
    (
        "IFLA_MTU of 2 bytes, and a length of 3",
        0,
        &[
            0x06, 0x00, 0x04, 0x00, 0xdc, 0x05, 0x00, 0x00, 0x03, 0x00, 0x03, 0x00,
        ],
        0,
    ),
    (
        "IFLA_IFNAME that is no UTF-8, after two attributes",
        0,
        &[
            0x07, 0x00, 0x03, 0x00, 0x6c, 0x6f, 0x00, 0x09, 0x08, 0x00, 0x04, 0x00, 0xdc, 0x05,
            0x00, 0x00, 0x05, 0x00, 0x03, 0x00, 0xff,
        ],
        16,
    ),
    (
        "IFLA_WIRELESS of 7 bytes",
        0,
        &[
            0x0b, 0x00, 0x0b, 0x00, 0x00, 0x00, 0x00, 0x00, 0x00, 0x00, 0x00, 0x00,
        ],
        0,
    ),
    (
        "IFLA_LINKINFO of no bytes",
        0,
        &[0x04, 0x00, 0x63, 0x00, 0x04, 0x00, 0x12, 0x00],
        4,
    ),
    ("IFLA_VF_PORTS of no bytes", 0, &[0x04, 0x00, 0x18, 0x00], 0),
    (
        "IFLA_AF_SPEC of AF_BRIDGE and no bytes",
        7,
        &[0x04, 0x00, 0x1a, 0x00],
        0,
    ),
    (
        "IFLA_PROTINFO of AF_INET6 and no bytes",
        10,
        &[0x04, 0x00, 0x0c, 0x00],
        0,
    ),
];

/// The payload of an outermost attribute is refused as a whole.
#[test]
fn of_outermost_payloads(rt: HostRuntime) {
    are_at(&rt, rt.alloc(), OF_OUTERMOST_PAYLOADS);
}

/// The rows of `in_flat_lists`.
const IN_FLAT_LISTS: &[Row<'static>] = &[
    (
        "IFLA_INFO_KIND that is no UTF-8",
        0,
        &[
            0x11, 0x00, 0x12, 0x00, 0x08, 0x00, 0x02, 0x00, 0x01, 0x02, 0x03, 0x04, 0x05, 0x00,
            0x01, 0x00, 0xff, 0x00, 0x00, 0x00,
        ],
        12,
    ),
    (
        "a stray byte in IFLA_PORT_SELF",
        0,
        &[0x05, 0x00, 0x19, 0x00, 0x09, 0x00, 0x00, 0x00],
        4,
    ),
    (
        "IFLA_XDP_FD of 2 bytes",
        0,
        &[
            0x0a, 0x00, 0x2b, 0x00, 0x06, 0x00, 0x01, 0x00, 0x01, 0x02, 0x00, 0x00,
        ],
        4,
    ),
    (
        "IFLA_ALT_IFNAME that is no UTF-8",
        0,
        &[
            0x09, 0x00, 0x34, 0x00, 0x05, 0x00, 0x35, 0x00, 0xff, 0x00, 0x00, 0x00,
        ],
        4,
    ),
    (
        "a stray byte in IFLA_PROP_LIST",
        0,
        &[
            0x09, 0x00, 0x34, 0x00, 0x04, 0x00, 0x63, 0x00, 0x01, 0x00, 0x00, 0x00,
        ],
        8,
    ),
    (
        "IFLA_PROTO_DOWN_REASON_MASK of a byte",
        0,
        &[
            0x09, 0x00, 0x37, 0x00, 0x05, 0x00, 0x01, 0x00, 0x01, 0x00, 0x00, 0x00,
        ],
        4,
    ),
    (
        "DEVLINK_ATTR_BUS_NAME that is no UTF-8",
        0,
        &[
            0x09, 0x00, 0x3e, 0x00, 0x05, 0x00, 0x01, 0x00, 0xff, 0x00, 0x00, 0x00,
        ],
        4,
    ),
    (
        "DPLL_A_PIN_ID of a byte",
        0,
        &[
            0x09, 0x00, 0x41, 0x00, 0x05, 0x00, 0x01, 0x00, 0x01, 0x00, 0x00, 0x00,
        ],
        4,
    ),
];

#[test]
fn in_flat_lists(rt: HostRuntime) {
    are_at(&rt, rt.alloc(), IN_FLAT_LISTS);
}

/// The rows of `in_functions`.
const IN_FUNCTIONS: &[Row<'static>] = &[
    (
        "a stray byte in IFLA_VFINFO_LIST",
        0,
        &[0x05, 0x00, 0x16, 0x00, 0x09, 0x00, 0x00, 0x00],
        4,
    ),
    (
        "IFLA_VF_INFO of no bytes",
        0,
        &[0x08, 0x00, 0x16, 0x00, 0x04, 0x00, 0x01, 0x80],
        4,
    ),
    (
        "IFLA_VF_INFO of no bytes after a foreign entry",
        0,
        &[
            0x10, 0x00, 0x16, 0x00, 0x05, 0x00, 0x07, 0x00, 0xff, 0x00, 0x00, 0x00, 0x04, 0x00,
            0x01, 0x00,
        ],
        12,
    ),
    (
        "a stray byte in IFLA_VF_INFO",
        0,
        &[
            0x09, 0x00, 0x16, 0x00, 0x05, 0x00, 0x01, 0x00, 0x09, 0x00, 0x00, 0x00,
        ],
        8,
    ),
    (
        "IFLA_VF_VLAN of 4 bytes",
        0,
        &[
            0x14, 0x00, 0x16, 0x00, 0x10, 0x00, 0x01, 0x00, 0x04, 0x00, 0x63, 0x00, 0x08, 0x00,
            0x02, 0x00, 0x01, 0x02, 0x03, 0x04,
        ],
        12,
    ),
    (
        "a counter of 7 bytes",
        0,
        &[
            0x18, 0x00, 0x16, 0x00, 0x14, 0x00, 0x01, 0x00, 0x10, 0x00, 0x08, 0x00, 0x0b, 0x00,
            0x00, 0x00, 0x00, 0x00, 0x00, 0x00, 0x00, 0x00, 0x00, 0x00,
        ],
        12,
    ),
    (
        "IFLA_VF_VLAN_INFO of 4 bytes",
        0,
        &[
            0x14, 0x00, 0x16, 0x00, 0x10, 0x00, 0x01, 0x00, 0x0c, 0x00, 0x0c, 0x00, 0x08, 0x00,
            0x01, 0x00, 0x01, 0x02, 0x03, 0x04,
        ],
        12,
    ),
];

#[test]
fn in_functions(rt: HostRuntime) {
    are_at(&rt, rt.alloc(), IN_FUNCTIONS);
}

/// The rows of `in_ports`.
const IN_PORTS: &[Row<'static>] = &[
    (
        "IFLA_VF_PORT of no bytes",
        0,
        &[0x08, 0x00, 0x18, 0x00, 0x04, 0x00, 0x01, 0x00],
        4,
    ),
    (
        "a length of 3 after a foreign entry",
        0,
        &[
            0x0c, 0x00, 0x18, 0x00, 0x04, 0x00, 0x09, 0x00, 0x03, 0x00, 0x01, 0x00,
        ],
        8,
    ),
    (
        "a stray byte in IFLA_VF_PORT",
        0,
        &[
            0x09, 0x00, 0x18, 0x00, 0x05, 0x00, 0x01, 0x00, 0x09, 0x00, 0x00, 0x00,
        ],
        8,
    ),
];

#[test]
fn in_ports(rt: HostRuntime) {
    are_at(&rt, rt.alloc(), IN_PORTS);
}

/// The rows of `in_settings`.
const IN_SETTINGS: &[Row<'static>] = &[
    (
        "a stray byte in IFLA_PROTINFO of AF_BRIDGE",
        7,
        &[0x05, 0x00, 0x0c, 0x00, 0x09, 0x00, 0x00, 0x00],
        4,
    ),
    (
        "a stray byte in IFLA_PROTINFO of AF_INET6",
        10,
        &[0x05, 0x00, 0x0c, 0x00, 0x09, 0x00, 0x00, 0x00],
        4,
    ),
    (
        "a stray byte in IFLA_AF_SPEC of AF_BRIDGE",
        7,
        &[
            0x09, 0x00, 0x1a, 0x00, 0x04, 0x00, 0x01, 0x00, 0x09, 0x00, 0x00, 0x00,
        ],
        8,
    ),
    (
        "AF_INET of no bytes",
        0,
        &[0x08, 0x00, 0x1a, 0x00, 0x04, 0x00, 0x02, 0x00],
        4,
    ),
    (
        "a stray byte in IFLA_AF_SPEC",
        0,
        &[
            0x09, 0x00, 0x1a, 0x00, 0x04, 0x00, 0x63, 0x00, 0x09, 0x00, 0x00, 0x00,
        ],
        8,
    ),
    (
        "a stray byte in AF_INET",
        0,
        &[
            0x09, 0x00, 0x1a, 0x00, 0x05, 0x00, 0x02, 0x00, 0x09, 0x00, 0x00, 0x00,
        ],
        8,
    ),
    (
        "IFLA_INET6_FLAGS of a byte",
        0,
        &[
            0x0d, 0x00, 0x1a, 0x00, 0x09, 0x00, 0x0a, 0x00, 0x05, 0x00, 0x01, 0x00, 0x09, 0x00,
            0x00, 0x00,
        ],
        8,
    ),
    (
        "IFLA_MCTP_NET of a byte",
        0,
        &[
            0x0d, 0x00, 0x1a, 0x00, 0x09, 0x00, 0x2d, 0x00, 0x05, 0x00, 0x01, 0x00, 0x09, 0x00,
            0x00, 0x00,
        ],
        8,
    ),
];

#[test]
fn in_settings(rt: HostRuntime) {
    are_at(&rt, rt.alloc(), IN_SETTINGS);
}
