//! Records measured and written as attributes, from values and from payloads.

use crate::testing::{is_at, is_written};
use link_recs::*;
use link_vfrec::*;
use nla_wire::{PlainRecord, Record};
use std::process::Abort;

/// A payload of so many bytes was measured as the record that the label names. Only one that has the record whole has a
/// text, and that is as long as the record.
fn is_sized(rt: &impl Abort, label: &str, len: usize, found: Option<usize>, size: usize) {
    let answer = if len >= size { Some(size) } else { None };
    assert_eq!(rt; found, answer, "{label} at {len}");
}

#[test]
fn whole_records_are_measured(rt: HostRuntime) {
    let zeros = [0; 40];
    for len in 0..40 {
        let it = &zeros[..len];
        let found = Map::measure_sized(it);
        is_sized(&rt, "Map", len, found, 32);
        let found = Inet6CacheInfo::measure_sized(it);
        is_sized(&rt, "Inet6CacheInfo", len, found, 16);
        let found = VfInfoMac::measure_sized(it);
        is_sized(&rt, "VfInfoMac", len, found, 36);
        let found = VfInfoVlan::measure_sized(it);
        is_sized(&rt, "VfInfoVlan", len, found, 12);
        let found = VfInfoTxRate::measure_sized(it);
        is_sized(&rt, "VfInfoTxRate", len, found, 8);
        let found = VfInfoSpoofCheck::measure_sized(it);
        is_sized(&rt, "VfInfoSpoofCheck", len, found, 8);
        let found = VfInfoLinkState::measure_sized(it);
        is_sized(&rt, "VfInfoLinkState", len, found, 8);
        let found = VfInfoRate::measure_sized(it);
        is_sized(&rt, "VfInfoRate", len, found, 12);
        let found = VfInfoRssQueryEn::measure_sized(it);
        is_sized(&rt, "VfInfoRssQueryEn", len, found, 8);
        let found = VfInfoTrust::measure_sized(it);
        is_sized(&rt, "VfInfoTrust", len, found, 8);
        let found = VfInfoGuid::measure_sized(it);
        is_sized(&rt, "VfInfoGuid", len, found, 16);
        let found = VfInfoBroadcast::measure_sized(it);
        is_sized(&rt, "VfInfoBroadcast", len, found, 32);
        let found = VfVlanInfo::measure_sized(it);
        is_sized(&rt, "VfVlanInfo", len, found, 16);
    }
}

/// A record that is filled up has one length, whatever it is read from.
#[test]
fn filled_records_are_measured(rt: HostRuntime) {
    let zeros = [0; 320];
    for len in [0, 1, 55, 56, 95, 96, 135, 136, 199, 200, 240, 311, 312, 320] {
        let it = &zeros[..len];
        is_at(&rt, len, &Stats::measure_filled(it), &Some(96));
        is_at(&rt, len, &Stats64::measure_filled(it), &Some(200));
        is_at(&rt, len, &InetDevConf::measure_filled(it), &Some(136));
        is_at(&rt, len, &Inet6DevConf::measure_filled(it), &Some(240));
        is_at(&rt, len, &Inet6Stats::measure_filled(it), &Some(312));
        is_at(&rt, len, &Icmp6Stats::measure_filled(it), &Some(56));
    }
}

#[test]
fn records_are_written_as_attributes(rt: HostRuntime) {
    let mut out = [255; 13];
    let len = VfInfoTrust::new(1, true).write_attribute(9, &mut out);
    is_written(
        &rt,
        len,
        &out,
        &[
            0x0c, 0x00, 0x09, 0x00, 0x01, 0x00, 0x00, 0x00, 0x01, 0x00, 0x00, 0x00,
        ],
    );
    let mut out = [255; 21];
    let len = VfInfoGuid::new(2, 0x0200_0000_0000_0001).write_attribute(10, &mut out);
    let text = [
        0x14, 0x00, 0x0a, 0x00, 0x02, 0x00, 0x00, 0x00, 0x00, 0x00, 0x00, 0x00, 0x01, 0x00, 0x00,
        0x00, 0x00, 0x00, 0x00, 0x02,
    ];
    is_written(&rt, len, &out, &text);
    let times = Inet6CacheInfo {
        max_reasm_len: 65535,
        tstamp: 1,
        reachable_time: -2,
        retrans_time: 1000,
    };
    let mut out = [255; 21];
    let len = times.write_attribute(0x4005, &mut out);
    let text = [
        0x14, 0x00, 0x05, 0x40, 0xff, 0xff, 0x00, 0x00, 0x01, 0x00, 0x00, 0x00, 0xfe, 0xff, 0xff,
        0xff, 0xe8, 0x03, 0x00, 0x00,
    ];
    is_written(&rt, len, &out, &text);
}

/// The addresses of functions are written with the zeros after a shorter one, and a map with its padding.
#[test]
fn addresses_and_maps_are_written_as_attributes(rt: HostRuntime) {
    let mut out = [255; 41];
    let mut text = [0; 40];
    text[..9].copy_from_slice(&[0x28, 0x00, 0x01, 0x00, 0x03, 0x00, 0x00, 0x00, 0x52]);
    let len = VfInfoMac::new(3, &[0x52]).write_attribute(1, &mut out);
    is_written(&rt, len, &out, &text);
    let map = Map {
        memory_start: 0x0102,
        port: 3,
        ..Map::default()
    };
    let mut out = [255; 37];
    let mut text = [0; 36];
    text[..6].copy_from_slice(&[0x24, 0x00, 0x0e, 0x00, 0x02, 0x01]);
    text[31] = 3;
    let len = map.write_attribute(14, &mut out);
    is_written(&rt, len, &out, &text);
}

/// What a record does not keep of its payload is written as zeros, and what is after it is not written.
#[test]
#[tactic(auto, unfolding(nla_wire::specs::Payloads::read_sized))]
fn payloads_are_written_as_what_they_mean(rt: HostRuntime) {
    let mut out = [255; 13];
    let trust = [0x01, 0x00, 0x00, 0x00, 0x02, 0x00, 0x00, 0x00, 0x07];
    assert!(rt; VfInfoTrust::measure_sized(&trust) == Some(8));
    let len = VfInfoTrust::write_sized(9, &trust, &mut out);
    is_written(
        &rt,
        len,
        &out,
        &[
            0x0c, 0x00, 0x09, 0x00, 0x01, 0x00, 0x00, 0x00, 0x01, 0x00, 0x00, 0x00,
        ],
    );
    let mut out = [255; 21];
    let guid = [
        0x02, 0x00, 0x00, 0x00, 0xff, 0xff, 0xff, 0xff, 0x01, 0x00, 0x00, 0x00, 0x00, 0x00, 0x00,
        0x00,
    ];
    assert!(rt; VfInfoGuid::measure_sized(&guid) == Some(16));
    let len = VfInfoGuid::write_sized(10, &guid, &mut out);
    let text = [
        0x14, 0x00, 0x0a, 0x00, 0x02, 0x00, 0x00, 0x00, 0x00, 0x00, 0x00, 0x00, 0x01, 0x00, 0x00,
        0x00, 0x00, 0x00, 0x00, 0x00,
    ];
    is_written(&rt, len, &out, &text);
    let mut out = [255; 21];
    let vlan = [
        0x01, 0x00, 0x00, 0x00, 0x64, 0x00, 0x00, 0x00, 0x00, 0x00, 0x00, 0x00, 0x88, 0xa8, 0x12,
        0x34, 0x09,
    ];
    assert!(rt; VfVlanInfo::measure_sized(&vlan) == Some(16));
    let len = VfVlanInfo::write_sized(1, &vlan, &mut out);
    let text = [
        0x14, 0x00, 0x01, 0x00, 0x01, 0x00, 0x00, 0x00, 0x64, 0x00, 0x00, 0x00, 0x00, 0x00, 0x00,
        0x00, 0x88, 0xa8, 0x00, 0x00,
    ];
    is_written(&rt, len, &out, &text);
}

/// A payload of the counters of ICMPv6 is cut to them, or filled up with zeros.
#[test]
fn counters_are_cut_or_filled_up(rt: HostRuntime) {
    for bytes in [[7; 60].as_slice(), &[7; 56], &[7; 5]] {
        let mut text = [0; 60];
        text[..4].copy_from_slice(&[0x3c, 0x00, 0x06, 0x00]);
        for (place, byte) in text.iter_mut().skip(4).zip(bytes) {
            *place = *byte;
        }
        assert!(rt; Icmp6Stats::measure_filled(bytes) == Some(56));
        let mut out = [255; 61];
        let len = Icmp6Stats::write_filled(6, bytes, &mut out);
        is_written(&rt, len, &out, &text);
    }
}
