//! The flat inner lists: what each member means, is refused for, and is written as.

use crate::testing::{has_cause, holds, kept_of, refuses_bad_frames, text_of};
use expected::{equal, means, refuses};
use link_nest::*;
use link_vals::XdpAttached;
use nla_wire::exact::same;
use nla_wire::{Cause, Nla, NlaBuffer, NlaRead};
use std::alloc::Global;
use std::process::Abort;

#[test]
fn alternative_names(rt: HostRuntime) {
    let alloc = rt.alloc();
    refuses_bad_frames::<Prop>(&rt, alloc);
    for (label, bytes) in [
        ("no UTF-8", [0x05, 0x00, 0x35, 0x00, 0xff].as_slice()),
        (
            "no UTF-8, and a length of 3",
            &[
                0x05, 0x00, 0x35, 0x00, 0xff, 0x00, 0x00, 0x00, 0x03, 0x00, 0x35, 0x00,
            ],
        ),
    ] {
        holds(&rt, label, refuses::<Prop>(alloc, bytes, Cause::NotUtf8));
    }
    let values = [
        Prop::AltIfName(text_of(&rt, alloc, "")),
        Prop::Other(kept_of(&rt, alloc, 99 | 0xc000, &[7])),
        Prop::AltIfName(text_of(&rt, alloc, "lo")),
    ];
    assert!(rt;
        means(
            alloc,
            &[
                0x04, 0x00, 0x35, 0x00, 0x05, 0x00, 0x63, 0xc0, 0x07, 0x00, 0x00, 0x00, 0x06, 0x00,
                0x35, 0x80, 0x6c, 0x6f
            ],
            &values,
            &[
                0x05, 0x00, 0x35, 0x00, 0x00, 0x00, 0x00, 0x00, 0x05, 0x00, 0x63, 0xc0, 0x07, 0x00,
                0x00, 0x00, 0x07, 0x00, 0x35, 0x00, 0x6c, 0x6f, 0x00, 0x00
            ]
        )
    );
    assert!(rt; !same(&values[1], &values[2]));
}

#[test]
fn devlink_ports(rt: HostRuntime) {
    let alloc = rt.alloc();
    refuses_bad_frames::<DevlinkPort>(&rt, alloc);
    let short = Cause::WrongLength { got: 0, want: 4 };
    assert!(rt; refuses::<DevlinkPort>(alloc, &[0x04, 0x00, 0x03, 0x00], short));
    assert!(rt; refuses::<DevlinkPort>(alloc, &[0x05, 0x00, 0x02, 0x00, 0xc3], Cause::NotUtf8));
    assert!(rt;
        means(
            alloc,
            &[
                0x08, 0x00, 0x03, 0x00, 0x02, 0x01, 0x00, 0x00, 0x04, 0x00, 0x04, 0x40, 0x05, 0x00,
                0x02, 0x00, 0x00, 0x00, 0x00, 0x00, 0x05, 0x00, 0x01, 0x00, 0x70
            ],
            &[
                DevlinkPort::PortIndex(258),
                DevlinkPort::Other(kept_of(&rt, alloc, 4 | 0x4000, &[])),
                DevlinkPort::DevName(text_of(&rt, alloc, "")),
                DevlinkPort::BusName(text_of(&rt, alloc, "p")),
            ],
            &[
                0x08, 0x00, 0x03, 0x00, 0x02, 0x01, 0x00, 0x00, 0x04, 0x00, 0x04, 0x40, 0x05, 0x00,
                0x02, 0x00, 0x00, 0x00, 0x00, 0x00, 0x06, 0x00, 0x01, 0x00, 0x70, 0x00, 0x00, 0x00
            ]
        )
    );
}

#[test]
fn clock_pins(rt: HostRuntime) {
    let alloc = rt.alloc();
    refuses_bad_frames::<DpllPin>(&rt, alloc);
    let short = Cause::WrongLength { got: 2, want: 4 };
    assert!(rt; refuses::<DpllPin>(alloc, &[0x06, 0x00, 0x01, 0x00, 0x01, 0x02], short));
    let other = DpllPin::Other(kept_of(&rt, alloc, 0x63, &[0xde, 0xad]));
    let bytes = [
        0x08, 0x00, 0x01, 0x00, 0x2a, 0x00, 0x00, 0x00, 0x06, 0x00, 0x63, 0x00, 0xde, 0xad, 0x00,
        0x00,
    ];
    assert!(rt; means(alloc, &bytes, &[DpllPin::PinId(42), other], &bytes));
}

#[test]
fn one_clock_pin(rt: HostRuntime) {
    let bytes = [0x08, 0x00, 0x01, 0x00, 0x2a, 0x00, 0x00, 0x00];
    let frame = NlaBuffer::new_checked(&bytes).expect(&rt, "it is read");
    let pin = DpllPin::parse(rt.alloc(), &frame).expect(&rt, "it is read");
    assert!(rt; same(&pin, &DpllPin::PinId(42)));
    has_cause(&rt, DpllPin::check(&frame), None);
}

#[test]
fn one_clock_pin_written(rt: HostRuntime) {
    let pin = DpllPin::PinId(42);
    assert!(rt; pin.fits());
    assert!(rt; pin.buffer_len() == 8);
    let mut text = [255; 9];
    pin.emit(&mut text);
    assert!(rt;
        equal(
            &text,
            &[0x08, 0x00, 0x01, 0x00, 0x2a, 0x00, 0x00, 0x00, 0xff]
        )
    );
}

#[test]
fn down_reasons(rt: HostRuntime) {
    let alloc = rt.alloc();
    refuses_bad_frames::<LinkProtocolDownReason>(&rt, alloc);
    let long = Cause::WrongLength { got: 5, want: 4 };
    assert!(rt;
        refuses::<LinkProtocolDownReason>(
            alloc,
            &[0x09, 0x00, 0x02, 0x00, 0x01, 0x02, 0x03, 0x04, 0x05],
            long
        )
    );
    let other = LinkProtocolDownReason::Other(kept_of(&rt, alloc, 3, &[]));
    let bytes = [
        0x08, 0x00, 0x01, 0x00, 0x01, 0x00, 0x00, 0x00, 0x08, 0x00, 0x02, 0x00, 0x02, 0x00, 0x00,
        0x00, 0x04, 0x00, 0x03, 0x00,
    ];
    assert!(rt;
        means(
            alloc,
            &bytes,
            &[
                LinkProtocolDownReason::Mask(1),
                LinkProtocolDownReason::Value(2),
                other,
            ],
            &bytes
        )
    );
}

/// What an attribute is, its bytes, the length of its payload, and the one that is wanted.
const REFUSED_PATHS: &[(&str, &[u8], usize, usize)] = &[
    (
        "IFLA_XDP_ATTACHED of no bytes",
        &[0x04, 0x00, 0x02, 0x00],
        0,
        1,
    ),
    (
        "IFLA_XDP_ATTACHED of 2 bytes",
        &[0x06, 0x00, 0x02, 0x00, 0x01, 0x02],
        2,
        1,
    ),
    (
        "IFLA_XDP_FD of a byte",
        &[0x05, 0x00, 0x01, 0x00, 0x01],
        1,
        4,
    ),
    (
        "IFLA_XDP_EXPECTED_FD of no bytes",
        &[0x04, 0x00, 0x08, 0x00],
        0,
        4,
    ),
];

#[test]
fn refused_express_data_paths(rt: HostRuntime) {
    let alloc = rt.alloc();
    refuses_bad_frames::<LinkXdp>(&rt, alloc);
    for (label, bytes, got, want) in REFUSED_PATHS {
        let cause = Cause::WrongLength {
            got: *got,
            want: *want,
        };
        holds(&rt, label, refuses::<LinkXdp>(alloc, bytes, cause));
    }
    let over = Cause::FrameOver {
        length: 65535,
        left: 8,
    };
    assert!(rt;
        refuses::<LinkXdp>(
            alloc,
            &[0xff, 0xff, 0x02, 0x00, 0x02, 0x00, 0x00, 0x00],
            over
        )
    );
}

/// A member of this number is -2, or as many as these bytes are without a sign.
fn is_path(rt: &impl Abort, alloc: Global, label: &str, number: u8, value: LinkXdp) {
    let bytes = [0x08, 0x00, number, 0x00, 0xfe, 0xff, 0xff, 0xff];
    holds(rt, label, means(alloc, &bytes, &[value], &bytes));
}

#[test]
fn express_data_paths(rt: HostRuntime) {
    let alloc = rt.alloc();
    is_path(&rt, alloc, "IFLA_XDP_FD", 0x01, LinkXdp::Fd(-2));
    is_path(
        &rt,
        alloc,
        "IFLA_XDP_FLAGS",
        0x03,
        LinkXdp::Flags(0xffff_fffe),
    );
    is_path(
        &rt,
        alloc,
        "IFLA_XDP_PROG_ID",
        0x04,
        LinkXdp::ProgId(0xffff_fffe),
    );
    is_path(
        &rt,
        alloc,
        "IFLA_XDP_DRV_PROG_ID",
        0x05,
        LinkXdp::DrvProgId(0xffff_fffe),
    );
    is_path(
        &rt,
        alloc,
        "IFLA_XDP_SKB_PROG_ID",
        0x06,
        LinkXdp::SkbProgId(0xffff_fffe),
    );
    is_path(
        &rt,
        alloc,
        "IFLA_XDP_HW_PROG_ID",
        0x07,
        LinkXdp::HwProgId(0xffff_fffe),
    );
    is_path(
        &rt,
        alloc,
        "IFLA_XDP_EXPECTED_FD",
        0x08,
        LinkXdp::ExpectedFd(0xffff_fffe),
    );
}

#[test]
fn attached_express_data_paths(rt: HostRuntime) {
    let alloc = rt.alloc();
    assert!(rt;
        means(
            alloc,
            &[
                0x05, 0x00, 0x02, 0x80, 0x02, 0x09, 0x09, 0x09, 0x04, 0x00, 0x09, 0x00
            ],
            &[
                LinkXdp::Attached(XdpAttached::SocketBuffer),
                LinkXdp::Other(kept_of(&rt, alloc, 9, &[])),
            ],
            &[
                0x05, 0x00, 0x02, 0x00, 0x02, 0x00, 0x00, 0x00, 0x04, 0x00, 0x09, 0x00
            ]
        )
    );
}

#[test]
fn link_infos(rt: HostRuntime) {
    let alloc = rt.alloc();
    refuses_bad_frames::<LinkInfo>(&rt, alloc);
    assert!(rt; refuses::<LinkInfo>(alloc, &[0x05, 0x00, 0x01, 0x00, 0xff], Cause::NotUtf8));
    assert!(rt;
        means(
            alloc,
            &[
                0x04, 0x00, 0x02, 0x00, 0x09, 0x00, 0x01, 0x00, 0x70, 0x66, 0x63, 0x70, 0x00
            ],
            &[
                LinkInfo::Other(kept_of(&rt, alloc, 2, &[])),
                LinkInfo::Kind(text_of(&rt, alloc, "pfcp")),
            ],
            &[
                0x04, 0x00, 0x02, 0x00, 0x09, 0x00, 0x01, 0x00, 0x70, 0x66, 0x63, 0x70, 0x00, 0x00,
                0x00, 0x00
            ]
        )
    );
}

#[test]
fn long_names(rt: HostRuntime) {
    let letters = [97; 65531];
    for (label, from, fits) in [("65531 letters", 0, false), ("65530 letters", 1, true)] {
        let letters = std::str::from_utf8(&letters[from..]).expect(&rt, "memory");
        let name = Prop::AltIfName(text_of(&rt, rt.alloc(), letters));
        holds(&rt, label, name.fits() == fits);
    }
}
