//! Virtual functions: what they mean, are refused for, and are written as.

use crate::testing::{holds, kept_of, list_of, refuses_bad_frames};
use expected::{means, refuses, zeros_after};
use link_vals::{VfLinkState, VlanProtocol};
use link_vf::*;
use link_vfrec::{
    VfInfoBroadcast, VfInfoGuid, VfInfoLinkState, VfInfoMac, VfInfoRate, VfInfoRssQueryEn,
    VfInfoSpoofCheck, VfInfoTrust, VfInfoTxRate, VfInfoVlan, VfVlanInfo,
};
use nla_wire::{Cause, List};
use std::alloc::Global;
use std::process::Abort;

#[test]
fn refused_statistics(rt: HostRuntime) {
    let alloc = rt.alloc();
    refuses_bad_frames::<VfStats>(&rt, alloc);
    let short = Cause::WrongLength { got: 7, want: 8 };
    assert!(rt;
        refuses::<VfStats>(
            alloc,
            &[
                0x0b, 0x00, 0x00, 0x00, 0x00, 0x00, 0x00, 0x00, 0x00, 0x00, 0x00
            ],
            short
        )
    );
    let none = Cause::WrongLength { got: 0, want: 8 };
    assert!(rt; refuses::<VfStats>(alloc, &[0x04, 0x00, 0x08, 0x00], none));
}

/// A counter of this number is seven.
fn is_counter(rt: &impl Abort, alloc: Global, label: &str, number: u8, value: VfStats) {
    let bytes = [
        0x0c, 0x00, number, 0x00, 0x07, 0x00, 0x00, 0x00, 0x00, 0x00, 0x00, 0x00,
    ];
    holds(rt, label, means(alloc, &bytes, &[value], &bytes));
}

#[test]
fn statistics(rt: HostRuntime) {
    let alloc = rt.alloc();
    is_counter(
        &rt,
        alloc,
        "IFLA_VF_STATS_RX_PACKETS",
        0,
        VfStats::RxPackets(7),
    );
    is_counter(
        &rt,
        alloc,
        "IFLA_VF_STATS_TX_PACKETS",
        1,
        VfStats::TxPackets(7),
    );
    is_counter(&rt, alloc, "IFLA_VF_STATS_RX_BYTES", 2, VfStats::RxBytes(7));
    is_counter(&rt, alloc, "IFLA_VF_STATS_TX_BYTES", 3, VfStats::TxBytes(7));
    is_counter(
        &rt,
        alloc,
        "IFLA_VF_STATS_BROADCAST",
        4,
        VfStats::Broadcast(7),
    );
    is_counter(
        &rt,
        alloc,
        "IFLA_VF_STATS_MULTICAST",
        5,
        VfStats::Multicast(7),
    );
    is_counter(
        &rt,
        alloc,
        "IFLA_VF_STATS_RX_DROPPED",
        7,
        VfStats::RxDropped(7),
    );
    is_counter(
        &rt,
        alloc,
        "IFLA_VF_STATS_TX_DROPPED",
        8,
        VfStats::TxDropped(7),
    );
}

#[test]
fn padding_among_statistics(rt: HostRuntime) {
    let alloc = rt.alloc();
    let padding = VfStats::Other(kept_of(&rt, alloc, 6 | 0x8000, &[1]));
    let text = [0x05, 0x00, 0x06, 0x80, 0x01, 0x00, 0x00, 0x00];
    assert!(rt; means(alloc, &[0x05, 0x00, 0x06, 0x80, 0x01], &[padding], &text));
}

#[test]
fn vlans(rt: HostRuntime) {
    let alloc = rt.alloc();
    refuses_bad_frames::<VfVlan>(&rt, alloc);
    let short = Cause::TooShort { got: 0, need: 16 };
    assert!(rt; refuses::<VfVlan>(alloc, &[0x04, 0x00, 0x01, 0x00], short));
    assert!(rt;
        means(
            alloc,
            &[
                0x14, 0x00, 0x01, 0x00, 0x01, 0x00, 0x00, 0x00, 0x64, 0x00, 0x00, 0x00, 0x00, 0x00,
                0x00, 0x00, 0x88, 0xa8, 0x12, 0x34, 0x04, 0x00, 0x02, 0x00
            ],
            &[
                VfVlan::Info(VfVlanInfo::new(1, 100, 0, VlanProtocol::Ieee8021Ad)),
                VfVlan::Other(kept_of(&rt, alloc, 2, &[])),
            ],
            &[
                0x14, 0x00, 0x01, 0x00, 0x01, 0x00, 0x00, 0x00, 0x64, 0x00, 0x00, 0x00, 0x00, 0x00,
                0x00, 0x00, 0x88, 0xa8, 0x00, 0x00, 0x04, 0x00, 0x02, 0x00
            ]
        )
    );
}

/// Records of functions, their numbers, and the bytes that they have at least.
const SHORT_RECORDS: &[(&str, u8, usize)] = &[
    ("IFLA_VF_MAC", 1, 36),
    ("IFLA_VF_VLAN", 2, 12),
    ("IFLA_VF_TX_RATE", 3, 8),
    ("IFLA_VF_SPOOFCHK", 4, 8),
    ("IFLA_VF_LINK_STATE", 5, 8),
    ("IFLA_VF_RATE", 6, 12),
    ("IFLA_VF_RSS_QUERY_EN", 7, 8),
    ("IFLA_VF_TRUST", 9, 8),
    ("IFLA_VF_IB_NODE_GUID", 10, 16),
    ("IFLA_VF_IB_PORT_GUID", 11, 16),
    ("IFLA_VF_BROADCAST", 13, 32),
];

#[test]
fn short_records_of_functions(rt: HostRuntime) {
    let alloc = rt.alloc();
    refuses_bad_frames::<VfInfo>(&rt, alloc);
    for (label, number, need) in SHORT_RECORDS {
        let empty = [0x04, 0x00, *number, 0x00];
        let none = Cause::TooShort {
            got: 0,
            need: *need,
        };
        holds(&rt, label, refuses::<VfInfo>(alloc, &empty, none));
        let four = [0x08, 0x00, *number, 0x00, 0x01, 0x02, 0x03, 0x04];
        let some = Cause::TooShort {
            got: 4,
            need: *need,
        };
        holds(&rt, label, refuses::<VfInfo>(alloc, &four, some));
    }
}

#[test]
fn functions(rt: HostRuntime) {
    let alloc = rt.alloc();
    assert!(rt;
        means(
            alloc,
            &[
                0x0c, 0x00, 0x09, 0x00, 0x01, 0x00, 0x00, 0x00, 0x02, 0x00, 0x00, 0x00, 0x0c, 0x00,
                0x09, 0x00, 0x01, 0x00, 0x00, 0x00, 0xff, 0xff, 0xff, 0xff, 0x04, 0x00, 0x0e, 0x40
            ],
            &[
                VfInfo::Trust(VfInfoTrust::new(1, true)),
                VfInfo::Trust(VfInfoTrust::new(1, false)),
                VfInfo::Other(kept_of(&rt, alloc, 14 | 0x4000, &[])),
            ],
            &[
                0x0c, 0x00, 0x09, 0x00, 0x01, 0x00, 0x00, 0x00, 0x01, 0x00, 0x00, 0x00, 0x0c, 0x00,
                0x09, 0x00, 0x01, 0x00, 0x00, 0x00, 0x00, 0x00, 0x00, 0x00, 0x04, 0x00, 0x0e, 0x40
            ]
        )
    );
}

#[test]
fn guids_of_functions(rt: HostRuntime) {
    assert!(rt;
        means(
            rt.alloc(),
            &[
                0x14, 0x00, 0x0a, 0x00, 0x02, 0x00, 0x00, 0x00, 0xff, 0xff, 0xff, 0xff, 0x01, 0x00,
                0x00, 0x00, 0x00, 0x00, 0x00, 0x00, 0x14, 0x00, 0x0b, 0x00, 0x03, 0x00, 0x00, 0x00,
                0x00, 0x00, 0x00, 0x00, 0x01, 0x00, 0x00, 0x00, 0x00, 0x00, 0x00, 0x02
            ],
            &[
                VfInfo::IbNodeGuid(VfInfoGuid::new(2, 1)),
                VfInfo::IbPortGuid(VfInfoGuid::new(3, 0x0200000000000001)),
            ],
            &[
                0x14, 0x00, 0x0a, 0x00, 0x02, 0x00, 0x00, 0x00, 0x00, 0x00, 0x00, 0x00, 0x01, 0x00,
                0x00, 0x00, 0x00, 0x00, 0x00, 0x00, 0x14, 0x00, 0x0b, 0x00, 0x03, 0x00, 0x00, 0x00,
                0x00, 0x00, 0x00, 0x00, 0x01, 0x00, 0x00, 0x00, 0x00, 0x00, 0x00, 0x02
            ]
        )
    );
}

#[test]
fn addresses_of_functions(rt: HostRuntime) {
    let bytes: [u8; 40] = zeros_after(&[0x28, 0x00, 0x01, 0x00, 0x03, 0x00, 0x00, 0x00, 0x52]);
    let address = VfInfo::Mac(VfInfoMac::new(3, &[0x52]));
    assert!(rt; means(rt.alloc(), &bytes, &[address], &bytes));
}

#[test]
fn broadcasts_of_functions(rt: HostRuntime) {
    let bytes: [u8; 36] = zeros_after(&[0x24, 0x00, 0x0d, 0x00, 0xff]);
    let broadcast = VfInfo::Broadcast(VfInfoBroadcast::new(&[0xff]));
    assert!(rt; means(rt.alloc(), &bytes, &[broadcast], &bytes));
}

/// A record of this number says one of the third function.
fn is_record(rt: &impl Abort, alloc: Global, label: &str, number: u8, value: VfInfo) {
    let bytes = [
        0x0c, 0x00, number, 0x00, 0x03, 0x00, 0x00, 0x00, 0x01, 0x00, 0x00, 0x00,
    ];
    holds(rt, label, means(alloc, &bytes, &[value], &bytes));
}

#[test]
fn records_of_functions(rt: HostRuntime) {
    let alloc = rt.alloc();
    let on = VfLinkState::Enable;
    is_record(
        &rt,
        alloc,
        "IFLA_VF_TX_RATE",
        3,
        VfInfo::TxRate(VfInfoTxRate::new(3, 1)),
    );
    is_record(
        &rt,
        alloc,
        "IFLA_VF_SPOOFCHK",
        4,
        VfInfo::SpoofCheck(VfInfoSpoofCheck::new(3, true)),
    );
    is_record(
        &rt,
        alloc,
        "IFLA_VF_LINK_STATE",
        5,
        VfInfo::LinkState(VfInfoLinkState::new(3, on)),
    );
    is_record(
        &rt,
        alloc,
        "IFLA_VF_RSS_QUERY_EN",
        7,
        VfInfo::RssQueryEn(VfInfoRssQueryEn::new(3, true)),
    );
}

#[test]
fn vlans_and_rates_of_functions(rt: HostRuntime) {
    let bytes = [
        0x10, 0x00, 0x02, 0x00, 0x03, 0x00, 0x00, 0x00, 0x01, 0x00, 0x00, 0x00, 0x02, 0x00, 0x00,
        0x00, 0x10, 0x00, 0x06, 0x00, 0x03, 0x00, 0x00, 0x00, 0x01, 0x00, 0x00, 0x00, 0x02, 0x00,
        0x00, 0x00,
    ];
    let vlan = VfInfo::Vlan(VfInfoVlan::new(3, 1, 2));
    let rate = VfInfo::Rate(VfInfoRate::new(3, 1, 2));
    assert!(rt; means(rt.alloc(), &bytes, &[vlan, rate], &bytes));
}

/// What is wrong in a list of a function, its bytes, and what they are refused for.
const REFUSED_LISTS: &[(&str, &[u8], Cause)] = &[
    (
        "a length of 3 in IFLA_VF_STATS",
        &[0x08, 0x00, 0x08, 0x00, 0x03, 0x00, 0x01, 0x00],
        Cause::FrameUnder { length: 3 },
    ),
    (
        "a stray byte in IFLA_VF_VLAN_LIST",
        &[0x05, 0x00, 0x0c, 0x00, 0x01],
        Cause::FrameShort { left: 1 },
    ),
    (
        "a length that passes IFLA_VF_VLAN_LIST",
        &[0x08, 0x00, 0x0c, 0x00, 0x09, 0x00, 0x01, 0x00],
        Cause::FrameOver { length: 9, left: 4 },
    ),
    (
        "a vlan of no bytes, and a length of 3",
        &[
            0x0c, 0x00, 0x0c, 0x00, 0x04, 0x00, 0x01, 0x00, 0x03, 0x00, 0x01, 0x00,
        ],
        Cause::TooShort { got: 0, need: 16 },
    ),
];

#[test]
fn refused_lists_of_functions(rt: HostRuntime) {
    for (label, bytes, cause) in REFUSED_LISTS {
        holds(&rt, label, refuses::<VfInfo>(rt.alloc(), bytes, *cause));
    }
}

#[test]
fn lists_of_functions(rt: HostRuntime) {
    let alloc = rt.alloc();
    let stats = list_of(&rt, alloc, [VfStats::RxPackets(7)]);
    assert!(rt;
        means(
            alloc,
            &[
                0x10, 0x00, 0x08, 0x00, 0x0c, 0x00, 0x00, 0x00, 0x07, 0x00, 0x00, 0x00, 0x00, 0x00,
                0x00, 0x00, 0x04, 0x00, 0x08, 0x00, 0x04, 0x00, 0x0c, 0x80
            ],
            &[
                VfInfo::Stats(stats),
                VfInfo::Stats(List::new(Vec::new(alloc))),
                VfInfo::VlanList(List::new(Vec::new(alloc))),
            ],
            &[
                0x10, 0x00, 0x08, 0x00, 0x0c, 0x00, 0x00, 0x00, 0x07, 0x00, 0x00, 0x00, 0x00, 0x00,
                0x00, 0x00, 0x04, 0x00, 0x08, 0x00, 0x04, 0x00, 0x0c, 0x00
            ]
        )
    );
}
