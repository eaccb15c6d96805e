//! Messages that are refused: the cause of the first fault, whoever looks for it.

use crate::rows::*;
use link_msg::Cause;
use std::alloc::Global;
use std::process::Abort;

/// A length of 65535, with four bytes left.
const OVER_4: Cause = Cause::FrameOver {
    length: 65535,
    left: 4,
};

/// A length of 65535, with eight bytes left.
const OVER_8: Cause = Cause::FrameOver {
    length: 65535,
    left: 8,
};

/// What is wrong, the family, the attributes and the cause.
type Row<'a> = (&'a str, u8, &'a [u8], Cause);

/// Each of these attributes is refused under its family, for its cause.
fn are_refused(rt: &impl Abort, alloc: Global, rows: &[Row<'_>]) {
    for (label, family, attributes, cause) in rows {
        let bytes = with_header(rt, alloc, *family, attributes);
        is_refused_row(rt, alloc, label, bytes.as_slice(), *cause);
    }
}

#[test]
fn short_headers(rt: HostRuntime) {
    for (label, got) in [("no bytes", 0), ("15 bytes", 15)] {
        assert!(rt; got <= 16);
        let cause = Cause::TooShort { got, need: 16 };
        is_refused_row(&rt, rt.alloc(), label, &[0; 16][..got], cause);
    }
}

/// The rows of `outermost_frames`.
const OUTERMOST_FRAMES: &[Row<'static>] = &[
    (
        "a stray byte",
        0,
        &[0x08, 0x00, 0x04, 0x00, 0xdc, 0x05, 0x00, 0x00, 0x00],
        Cause::FrameShort { left: 1 },
    ),
    (
        "a length that passes the message",
        0,
        &[0xff, 0xff, 0x03, 0x00],
        OVER_4,
    ),
    (
        "a length of 3",
        0,
        &[0x03, 0x00, 0x03, 0x00],
        Cause::FrameUnder { length: 3 },
    ),
    (
        "a length of 0",
        0,
        &[0x00, 0x00, 0x00, 0x00],
        Cause::FrameUnder { length: 0 },
    ),
];

#[test]
fn outermost_frames(rt: HostRuntime) {
    are_refused(&rt, rt.alloc(), OUTERMOST_FRAMES);
}

/// IFLA_MAP of 31 bytes.
const SHORT_MAP: [u8; 35] = [
    0x23, 0x00, 0x0e, 0x00, 0x00, 0x00, 0x00, 0x00, 0x00, 0x00, 0x00, 0x00, 0x00, 0x00, 0x00, 0x00,
    0x00, 0x00, 0x00, 0x00, 0x00, 0x00, 0x00, 0x00, 0x00, 0x00, 0x00, 0x00, 0x00, 0x00, 0x00, 0x00,
    0x00, 0x00, 0x00,
];

/// The rows of `flat_values`.
const FLAT_VALUES: &[Row<'static>] = &[
    (
        "IFLA_MTU of 2 bytes",
        0,
        &[0x06, 0x00, 0x04, 0x00, 0xdc, 0x05, 0x00, 0x00],
        Cause::WrongLength { got: 2, want: 4 },
    ),
    (
        "IFLA_IFNAME that is no UTF-8",
        0,
        &[0x05, 0x00, 0x03, 0x00, 0xff, 0x00, 0x00, 0x00],
        Cause::NotUtf8,
    ),
    (
        "IFLA_MAP of 31 bytes",
        0,
        &SHORT_MAP,
        Cause::TooShort { got: 31, need: 32 },
    ),
    (
        "IFLA_WIRELESS of 7 bytes",
        0,
        &[
            0x0b, 0x00, 0x0b, 0x00, 0x00, 0x00, 0x00, 0x00, 0x00, 0x00, 0x00, 0x00,
        ],
        Cause::TooShort { got: 7, need: 8 },
    ),
];

#[test]
fn flat_values(rt: HostRuntime) {
    are_refused(&rt, rt.alloc(), FLAT_VALUES);
}

/// The rows of `several_faults`.
const SEVERAL_FAULTS: &[Row<'static>] = &[
    (
        "IFLA_MTU of 2 bytes, and a length of 3",
        0,
        &[
            0x06, 0x00, 0x04, 0x00, 0xdc, 0x05, 0x00, 0x00, 0x03, 0x00, 0x03, 0x00,
        ],
        Cause::WrongLength { got: 2, want: 4 },
    ),
    (
        "a length of 3, and IFLA_MTU of 2 bytes",
        0,
        &[
            0x03, 0x00, 0x03, 0x00, 0x06, 0x00, 0x04, 0x00, 0xdc, 0x05, 0x00, 0x00,
        ],
        Cause::FrameUnder { length: 3 },
    ),
    (
        "IFLA_IFNAME that is no UTF-8, and two faults more",
        0,
        &[
            0x05, 0x00, 0x03, 0x00, 0xff, 0x00, 0x00, 0x00, 0x06, 0x00, 0x04, 0x00, 0xdc, 0x05,
            0x00, 0x00, 0x03, 0x00, 0x03, 0x00,
        ],
        Cause::NotUtf8,
    ),
];

/// The value of a frame is looked at before the next frame.
#[test]
fn several_faults(rt: HostRuntime) {
    are_refused(&rt, rt.alloc(), SEVERAL_FAULTS);
}

/// The rows of `empty_lists`.
const EMPTY_LISTS: &[Row<'static>] = &[
    (
        "IFLA_LINKINFO",
        0,
        &[0x04, 0x00, 0x12, 0x00],
        Cause::EmptyList,
    ),
    (
        "IFLA_VF_PORTS",
        0,
        &[0x04, 0x00, 0x18, 0x00],
        Cause::EmptyList,
    ),
    (
        "IFLA_PORT_SELF",
        0,
        &[0x04, 0x00, 0x19, 0x00],
        Cause::EmptyList,
    ),
    ("IFLA_XDP", 0, &[0x04, 0x00, 0x2b, 0x00], Cause::EmptyList),
    (
        "IFLA_AF_SPEC of AF_BRIDGE",
        7,
        &[0x04, 0x00, 0x1a, 0x00],
        Cause::EmptyList,
    ),
    (
        "IFLA_PROTINFO of AF_BRIDGE",
        7,
        &[0x04, 0x00, 0x0c, 0x00],
        Cause::EmptyList,
    ),
    (
        "IFLA_PROTINFO of AF_INET6",
        10,
        &[0x04, 0x00, 0x0c, 0x00],
        Cause::EmptyList,
    ),
    (
        "AF_INET",
        0,
        &[0x08, 0x00, 0x1a, 0x00, 0x04, 0x00, 0x02, 0x00],
        Cause::EmptyList,
    ),
    (
        "IFLA_VF_INFO with a flag",
        0,
        &[0x08, 0x00, 0x16, 0x00, 0x04, 0x00, 0x01, 0x80],
        Cause::EmptyList,
    ),
    (
        "IFLA_VF_PORT",
        0,
        &[0x08, 0x00, 0x18, 0x00, 0x04, 0x00, 0x01, 0x00],
        Cause::EmptyList,
    ),
];

#[test]
fn empty_lists(rt: HostRuntime) {
    are_refused(&rt, rt.alloc(), EMPTY_LISTS);
}

/// Entries of the list of this number are frames, whatever their numbers are.
fn are_frames(rt: &impl Abort, alloc: Global, kind: u8) {
    are_refused(
        rt,
        alloc,
        &[
            (
                "a stray byte",
                0,
                &[0x05, 0x00, kind, 0x00, 0x01],
                Cause::FrameShort { left: 1 },
            ),
            (
                "three stray bytes",
                0,
                &[
                    0x0b, 0x00, kind, 0x00, 0x04, 0x00, 0x07, 0x00, 0x04, 0x00, 0x01, 0x00,
                ],
                Cause::FrameShort { left: 3 },
            ),
            (
                "a foreign entry that passes the list",
                0,
                &[0x08, 0x00, kind, 0x00, 0xff, 0xff, 0x07, 0x00],
                OVER_4,
            ),
            (
                "an entry that passes the list",
                0,
                &[0x08, 0x00, kind, 0x00, 0xff, 0xff, 0x01, 0x00],
                OVER_4,
            ),
            (
                "a foreign entry of length 3",
                0,
                &[0x08, 0x00, kind, 0x00, 0x03, 0x00, 0x07, 0x00],
                Cause::FrameUnder { length: 3 },
            ),
            (
                "an entry of length 3",
                0,
                &[0x08, 0x00, kind, 0x00, 0x03, 0x00, 0x01, 0x00],
                Cause::FrameUnder { length: 3 },
            ),
        ],
    );
}

#[test]
fn entries_of_functions(rt: HostRuntime) {
    are_frames(&rt, rt.alloc(), 0x16);
}

#[test]
fn entries_of_ports(rt: HostRuntime) {
    are_frames(&rt, rt.alloc(), 0x18);
}

/// The rows of `frames_inside_lists`.
const FRAMES_INSIDE_LISTS: &[Row<'static>] = &[
    (
        "a stray byte in IFLA_AF_SPEC",
        0,
        &[0x05, 0x00, 0x1a, 0x00, 0xff, 0x00, 0x00, 0x00],
        Cause::FrameShort { left: 1 },
    ),
    (
        "two stray bytes in IFLA_PROP_LIST",
        0,
        &[
            0x0a, 0x00, 0x34, 0x00, 0x04, 0x00, 0x63, 0x00, 0x01, 0x00, 0x00, 0x00,
        ],
        Cause::FrameShort { left: 2 },
    ),
    (
        "a length that passes IFLA_XDP",
        0,
        &[
            0x0c, 0x00, 0x2b, 0x00, 0xff, 0xff, 0x02, 0x00, 0x02, 0x00, 0x00, 0x00,
        ],
        OVER_8,
    ),
    (
        "a length of 3 in IFLA_PROP_LIST",
        0,
        &[0x08, 0x00, 0x34, 0x00, 0x03, 0x00, 0x35, 0x00],
        Cause::FrameUnder { length: 3 },
    ),
    (
        "a counter of 7 bytes",
        0,
        &[
            0x18, 0x00, 0x16, 0x00, 0x14, 0x00, 0x01, 0x00, 0x10, 0x00, 0x08, 0x00, 0x0b, 0x00,
            0x00, 0x00, 0x00, 0x00, 0x00, 0x00, 0x00, 0x00, 0x00, 0x00,
        ],
        Cause::WrongLength { got: 7, want: 8 },
    ),
];

#[test]
fn frames_inside_lists(rt: HostRuntime) {
    are_refused(&rt, rt.alloc(), FRAMES_INSIDE_LISTS);
}
