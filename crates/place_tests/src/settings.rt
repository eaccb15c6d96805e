//! Settings by family: records of each length, requests, and members that are kept.

use crate::testing::{holds, kept_of, refuses_bad_frames};
use expected::{SETTINGS, has_value, is_copied, means, refuses, writes, zeros_after};
use link_afspec::*;
use link_recs::InetDevConf;
use link_vals::MctpPhysBinding;
use nla_wire::{Cause, Nla, NlaRead};
use std::process::Abort;

/// The list of a family with settings of IPv4 alone.
const INET: usize = 144;

/// What an attribute is, its bytes, the length of its payload, and the one that is wanted.
const REFUSED_MCTP: &[(&str, &[u8], usize, usize)] = &[
    (
        "IFLA_MCTP_NET of 3 bytes",
        &[0x07, 0x00, 0x01, 0x00, 0x01, 0x02, 0x03],
        3,
        4,
    ),
    (
        "IFLA_MCTP_PHYS_BINDING of no bytes",
        &[0x04, 0x00, 0x02, 0x00],
        0,
        1,
    ),
    (
        "IFLA_MCTP_PHYS_BINDING of 2 bytes",
        &[0x06, 0x00, 0x02, 0x00, 0x01, 0x02],
        2,
        1,
    ),
];

#[test]
fn settings_of_mctp(rt: HostRuntime) {
    let alloc = rt.alloc();
    refuses_bad_frames::<AfSpecMctp>(&rt, alloc);
    for (label, bytes, got, want) in REFUSED_MCTP {
        let cause = Cause::WrongLength {
            got: *got,
            want: *want,
        };
        holds(&rt, label, refuses::<AfSpecMctp>(alloc, bytes, cause));
    }
    assert!(rt;
        means(
            alloc,
            &[
                0x08, 0x00, 0x01, 0x00, 0x05, 0x01, 0x00, 0x00, 0x05, 0x00, 0x02, 0x00, 0x01, 0x00,
                0x00, 0x00, 0x05, 0x00, 0x02, 0x00, 0xff, 0x00, 0x00, 0x00, 0x05, 0x00, 0x02, 0x00,
                0x4d, 0x00, 0x00, 0x00, 0x05, 0x00, 0x03, 0xc0, 0x09
            ],
            &[
                AfSpecMctp::Net(261),
                AfSpecMctp::PhysBinding(MctpPhysBinding::Smbus),
                AfSpecMctp::PhysBinding(MctpPhysBinding::Vendor),
                AfSpecMctp::PhysBinding(MctpPhysBinding::Other(77)),
                AfSpecMctp::Other(kept_of(&rt, alloc, 3 | 0xc000, &[9])),
            ],
            &[
                0x08, 0x00, 0x01, 0x00, 0x05, 0x01, 0x00, 0x00, 0x05, 0x00, 0x02, 0x00, 0x01, 0x00,
                0x00, 0x00, 0x05, 0x00, 0x02, 0x00, 0xff, 0x00, 0x00, 0x00, 0x05, 0x00, 0x02, 0x00,
                0x4d, 0x00, 0x00, 0x00, 0x05, 0x00, 0x03, 0xc0, 0x09, 0x00, 0x00, 0x00
            ]
        )
    );
}

/// Two settings, without the rest of their record: the attribute as it is sent.
const SHORT: [u8; 12] = [
    0x0c, 0x00, 0x01, 0x00, 0x08, 0x00, 0x01, 0x00, 0x01, 0x00, 0x00, 0x00,
];

/// Settings with two numbers, the value of `SHORT`.
pub(crate) fn two_settings() -> AfSpecInet {
    AfSpecInet::DevConf(InetDevConf {
        forwarding: 65544,
        mc_forwarding: 1,
        ..InetDevConf::default()
    })
}

/// How they are written.
fn two_settings_text() -> [u8; SETTINGS] {
    zeros_after(&[
        0x8c, 0x00, 0x01, 0x00, 0x08, 0x00, 0x01, 0x00, 0x01, 0x00, 0x00, 0x00,
    ])
}

/// How the list of a family with them is written.
pub(crate) fn family_text() -> [u8; INET] {
    zeros_after(&[
        0x90, 0x00, 0x02, 0x00, 0x8c, 0x00, 0x01, 0x00, 0x08, 0x00, 0x01, 0x00, 0x01,
    ])
}

#[test]
fn settings_of_ipv4(rt: HostRuntime) {
    refuses_bad_frames::<AfSpecInet>(&rt, rt.alloc());
    let conf = two_settings();
    assert!(rt; conf.fits());
    assert!(rt; conf.kind() == 1);
    assert!(rt; conf.value_len() == 136);
}

#[test]
fn flags_of_settings_of_ipv4(rt: HostRuntime) {
    let values = [two_settings()];
    let text = two_settings_text();
    for (label, flags) in [
        ("no flag", 0x00),
        ("nested", 0x80),
        ("network byte order", 0x40),
        ("both flags", 0xc0),
    ] {
        let mut bytes = SHORT;
        bytes[3] = flags;
        holds(&rt, label, means(rt.alloc(), &bytes, &values, &text));
    }
}

#[test]
fn short_settings_of_ipv4(rt: HostRuntime) {
    let alloc = rt.alloc();
    let none = AfSpecInet::DevConf(InetDevConf::default());
    let text: [u8; SETTINGS] = zeros_after(&[0x8c, 0x00, 0x01, 0x00]);
    assert!(rt; means(alloc, &[0x04, 0x00, 0x01, 0x00], &[none], &text));
    let other = AfSpecInet::Other(kept_of(&rt, alloc, 2, &[]));
    assert!(rt;
        means(
            alloc,
            &[0x04, 0x00, 0x02, 0x00],
            &[other],
            &[0x04, 0x00, 0x02, 0x00]
        )
    );
}

/// A record that is longer than its table means its beginning.
#[test]
fn long_settings_of_ipv4(rt: HostRuntime) {
    let mut bytes = [0xff; SETTINGS + 4];
    let text = two_settings_text();
    bytes[..SETTINGS].copy_from_slice(&text);
    bytes[0] = 0x90;
    assert!(rt; means(rt.alloc(), &bytes, &[two_settings()], &text));
}

/// The record of the kernel is shorter by the field of this project's own, which means zero.
#[test]
fn settings_of_the_kernel(rt: HostRuntime) {
    let conf = AfSpecInet::DevConf(InetDevConf {
        arp_evict_nocarrier: 7,
        ..InetDevConf::default()
    });
    let mut bytes = [0; SETTINGS - 4];
    bytes[0] = 0x88;
    bytes[2] = 1;
    bytes[132] = 7;
    let read = AfSpecInet::parse_list(rt.alloc(), &bytes).expect(&rt, "it is read");
    assert!(rt; read.len() == 1);
    assert!(rt; is_copied(rt.alloc(), &read[0], &conf));
}

/// A request for what the label names is written as this value.
fn asks(rt: &impl Abort, label: &str, conf: InetDevConf, value: &[u8; 8]) {
    holds(
        rt,
        label,
        has_value(&AfSpecInet::DevConfRequest(conf), 0x8001, value),
    );
}

#[test]
fn requests(rt: HostRuntime) {
    let forwarding = InetDevConf {
        forwarding: 1,
        ..InetDevConf::default()
    };
    asks(
        &rt,
        "forwarding",
        forwarding,
        &[0x08, 0x00, 0x01, 0x00, 0x01, 0x00, 0x00, 0x00],
    );
    let rp_filter = InetDevConf {
        rp_filter: 2,
        ..InetDevConf::default()
    };
    asks(
        &rt,
        "rp_filter",
        rp_filter,
        &[0x08, 0x00, 0x08, 0x00, 0x02, 0x00, 0x00, 0x00],
    );
    let arp_evict_nocarrier = InetDevConf {
        arp_evict_nocarrier: -1,
        ..InetDevConf::default()
    };
    asks(
        &rt,
        "arp_evict_nocarrier",
        arp_evict_nocarrier,
        &[0x08, 0x00, 0x21, 0x00, 0xff, 0xff, 0xff, 0xff],
    );
    let reserved = InetDevConf {
        reserved_34: 5,
        ..InetDevConf::default()
    };
    asks(
        &rt,
        "reserved_34",
        reserved,
        &[0x08, 0x00, 0x22, 0x00, 0x05, 0x00, 0x00, 0x00],
    );
}

#[test]
fn written_requests(rt: HostRuntime) {
    let none = InetDevConf::default();
    assert!(rt;
        writes(
            &[AfSpecInet::DevConfRequest(none)],
            &[0x04, 0x00, 0x01, 0x80]
        )
    );
    let two = InetDevConf {
        forwarding: 1,
        rp_filter: 2,
        ..none
    };
    assert!(rt;
        writes(
            &[AfSpecInet::DevConfRequest(two)],
            &[
                0x14, 0x00, 0x01, 0x80, 0x08, 0x00, 0x01, 0x00, 0x01, 0x00, 0x00, 0x00, 0x08, 0x00,
                0x08, 0x00, 0x02, 0x00, 0x00, 0x00
            ]
        )
    );
}
