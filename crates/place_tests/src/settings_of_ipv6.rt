//! Settings of IPv6: records of each length, and what is refused.

use crate::testing::{holds, kept_of, refuses_bad_frames};
use expected::{COUNTERS, means, refuses, zeros_after};
use link_afspec::*;
use link_recs::{Icmp6Stats, Inet6CacheInfo, Inet6DevConf, Inet6Stats};
use link_vals::{In6AddrGenMode, Inet6IfaceFlags};
use nla_wire::Cause;
use std::net::Ipv6Addr;

/// The attribute of IPv6 settings, and of ICMPv6 counters.
const INET6_SETTINGS: usize = 244;

const ICMP6_COUNTERS: usize = 60;

/// What an attribute is, its number and length, and what it is refused for. Its payload is zeros.
const REFUSED_SETTINGS: &[(&str, u8, u8, Cause)] = &[
    (
        "IFLA_INET6_FLAGS of 3 bytes",
        0x01,
        0x07,
        Cause::WrongLength { got: 3, want: 4 },
    ),
    (
        "IFLA_INET6_CACHEINFO of 15 bytes",
        0x05,
        0x13,
        Cause::TooShort { got: 15, need: 16 },
    ),
    (
        "IFLA_INET6_CACHEINFO of no bytes",
        0x05,
        0x04,
        Cause::TooShort { got: 0, need: 16 },
    ),
    (
        "IFLA_INET6_TOKEN of 15 bytes",
        0x07,
        0x13,
        Cause::WrongLength { got: 15, want: 16 },
    ),
    (
        "IFLA_INET6_TOKEN of 17 bytes",
        0x07,
        0x15,
        Cause::WrongLength { got: 17, want: 16 },
    ),
    (
        "IFLA_INET6_ADDR_GEN_MODE of no bytes",
        0x08,
        0x04,
        Cause::WrongLength { got: 0, want: 1 },
    ),
    (
        "IFLA_INET6_ADDR_GEN_MODE of 2 bytes",
        0x08,
        0x06,
        Cause::WrongLength { got: 2, want: 1 },
    ),
    (
        "IFLA_INET6_RA_MTU of 5 bytes",
        0x09,
        0x09,
        Cause::WrongLength { got: 5, want: 4 },
    ),
];

#[test]
fn refused_settings_of_ipv6(rt: HostRuntime) {
    let alloc = rt.alloc();
    refuses_bad_frames::<AfSpecInet6>(&rt, alloc);
    for (label, number, len, cause) in REFUSED_SETTINGS {
        let mut bytes = [0; 24];
        bytes[0] = *len;
        bytes[2] = *number;
        assert!(rt; *len < 24);
        holds(
            &rt,
            label,
            refuses::<AfSpecInet6>(alloc, &bytes[..*len as usize], *cause),
        );
        // a length below 4 after it is not come to
        holds(&rt, label, refuses::<AfSpecInet6>(alloc, &bytes, *cause));
    }
}

#[test]
fn settings_of_ipv6(rt: HostRuntime) {
    let alloc = rt.alloc();
    assert!(rt;
        means(
            alloc,
            &[
                0x08, 0x00, 0x01, 0x00, 0x01, 0x00, 0x00, 0x80, 0x05, 0x00, 0x08, 0x00, 0x02, 0x00,
                0x00, 0x00, 0x08, 0x00, 0x09, 0x00, 0xdc, 0x05, 0x00, 0x00, 0x05, 0x00, 0x04, 0x00,
                0x01
            ],
            &[
                AfSpecInet6::Flags(Inet6IfaceFlags::from_bits_retain(0x8000_0001)),
                AfSpecInet6::AddrGenMode(In6AddrGenMode::StablePrivacy),
                AfSpecInet6::RaMtu(1500),
                AfSpecInet6::Other(kept_of(&rt, alloc, 4, &[1])),
            ],
            &[
                0x08, 0x00, 0x01, 0x00, 0x01, 0x00, 0x00, 0x80, 0x05, 0x00, 0x08, 0x00, 0x02, 0x00,
                0x00, 0x00, 0x08, 0x00, 0x09, 0x00, 0xdc, 0x05, 0x00, 0x00, 0x05, 0x00, 0x04, 0x00,
                0x01, 0x00, 0x00, 0x00
            ]
        )
    );
}

#[test]
fn token_of_ipv6(rt: HostRuntime) {
    let token = AfSpecInet6::Token(Ipv6Addr::new(0x2001, 0xdb8, 0, 0, 0, 0, 0, 0x102));
    let bytes = [
        0x14, 0x00, 0x07, 0x00, 0x20, 0x01, 0x0d, 0xb8, 0x00, 0x00, 0x00, 0x00, 0x00, 0x00, 0x00,
        0x00, 0x00, 0x00, 0x01, 0x02,
    ];
    assert!(rt; means(rt.alloc(), &bytes, &[token], &bytes));
}

#[test]
fn cache_info_of_ipv6(rt: HostRuntime) {
    let info = AfSpecInet6::CacheInfo(Inet6CacheInfo {
        max_reasm_len: 1,
        tstamp: 2,
        reachable_time: 3,
        retrans_time: -1,
    });
    let bytes = [
        0x14, 0x00, 0x05, 0x00, 0x01, 0x00, 0x00, 0x00, 0x02, 0x00, 0x00, 0x00, 0x03, 0x00, 0x00,
        0x00, 0xff, 0xff, 0xff, 0xff,
    ];
    assert!(rt; means(rt.alloc(), &bytes, &[info], &bytes));
}

#[test]
fn records_of_ipv6(rt: HostRuntime) {
    let alloc = rt.alloc();
    let text: [u8; INET6_SETTINGS] = zeros_after(&[0xf4, 0x00, 0x02, 0x00]);
    let conf = AfSpecInet6::DevConf(Inet6DevConf::default());
    assert!(rt; means(alloc, &[0x04, 0x00, 0x02, 0x00], &[conf], &text));
    let text: [u8; COUNTERS] = zeros_after(&[0x3c, 0x01, 0x03, 0x00]);
    let stats = AfSpecInet6::Stats(Inet6Stats::default());
    assert!(rt; means(alloc, &[0x04, 0x00, 0x03, 0x00], &[stats], &text));
    let text: [u8; ICMP6_COUNTERS] = zeros_after(&[0x3c, 0x00, 0x06, 0x00]);
    let stats = AfSpecInet6::Icmp6Stats(Icmp6Stats::default());
    assert!(rt; means(alloc, &[0x04, 0x00, 0x06, 0x00], &[stats], &text));
}

#[test]
fn half_a_record_of_ipv6(rt: HostRuntime) {
    let stats = AfSpecInet6::Stats(Inet6Stats {
        num: 0x0201,
        ..Inet6Stats::default()
    });
    let text: [u8; COUNTERS] = zeros_after(&[0x3c, 0x01, 0x03, 0x00, 0x01, 0x02]);
    assert!(rt;
        means(
            rt.alloc(),
            &[0x06, 0x00, 0x03, 0x80, 0x01, 0x02],
            &[stats],
            &text
        )
    );
}
