//! The kernel's records: each field at its offset, payloads that are shorter or longer, and how they are printed.

use crate::testing::{is_read, is_same, is_text, is_written, prints_as, too_few};
use expected::zeros_after;
use link_recs::*;
use nla_wire::{PlainRecord, Record};

fn put(buffer: &mut [u8], bytes: &[(usize, u8)]) {
    for (place, byte) in bytes {
        if *place < buffer.len() {
            buffer[*place] = *byte;
        }
    }
}

/// Offsets of the kernel's `struct rtnl_link_stats`, linux/if_link.h.
#[test]
fn statistics_stand_at_their_offsets(rt: HostRuntime) {
    let mut bytes = [0; 96];
    put(&mut bytes, &[(0, 1), (32, 2), (60, 3), (92, 4)]);
    let stats = Stats {
        rx_packets: 1,
        multicast: 2,
        rx_missed_errors: 3,
        rx_nohandler: 4,
        ..Stats::default()
    };
    is_same(&rt, &Stats::read_padded(&bytes), &stats);
    is_text(&rt, StatsBuffer::from(&stats).as_bytes(), &bytes);
}

/// Offsets of the kernel's `struct rtnl_link_stats64`, linux/if_link.h.
#[test]
fn long_statistics_stand_at_their_offsets(rt: HostRuntime) {
    let mut bytes = [0; 200];
    put(
        &mut bytes,
        &[(0, 1), (64, 2), (120, 3), (192, 4), (199, 255)],
    );
    let stats = Stats64 {
        rx_packets: 1,
        multicast: 2,
        rx_missed_errors: 3,
        rx_otherhost_dropped: 0xff00_0000_0000_0004,
        ..Stats64::default()
    };
    is_same(&rt, &Stats64::read_padded(&bytes), &stats);
    is_text(&rt, Stats64Buffer::from(&stats).as_bytes(), &bytes);
}

/// Settings of IPv4 with five numbers.
fn settings_of_ipv4() -> InetDevConf {
    InetDevConf {
        forwarding: 1,
        tag: 2,
        route_localnet: 3,
        arp_evict_nocarrier: 4,
        reserved_34: 5,
        ..InetDevConf::default()
    }
}

/// Numbers of the constants IPV4_DEVCONF_* of linux/ip.h, from 1, times four; after them this project's own field.
#[test]
fn settings_of_ipv4_stand_at_their_offsets(rt: HostRuntime) {
    let mut bytes = [0; 136];
    put(&mut bytes, &[(0, 1), (44, 2), (100, 3), (128, 4), (132, 5)]);
    let conf = settings_of_ipv4();
    is_same(&rt, &InetDevConf::read_padded(&bytes), &conf);
    is_text(&rt, InetDevConfBuffer::from(&conf).as_bytes(), &bytes);
}

#[test]
fn settings_of_ipv4_have_numbers(rt: HostRuntime) {
    let conf = settings_of_ipv4();
    let found = [
        conf.setting(1),
        conf.setting(2),
        conf.setting(12),
        conf.setting(26),
        conf.setting(33),
        conf.setting(34),
    ];
    is_same(&rt, &found, &[1, 0, 2, 3, 4, 5]);
}

/// Numbers of the constants DEVCONF_* of linux/ipv6.h, from 0, times four.
#[test]
fn settings_of_ipv6_stand_at_their_offsets(rt: HostRuntime) {
    let mut bytes = [0; 240];
    put(
        &mut bytes,
        &[(0, 1), (104, 2), (176, 3), (232, 4), (236, 5)],
    );
    put(&mut bytes, &[(4, 255), (5, 255), (6, 255), (7, 255)]);
    let conf = Inet6DevConf {
        forwarding: 1,
        hoplimit: -1,
        disable_ipv6: 2,
        seg6_enabled: 3,
        accept_ra_min_lft: 4,
        force_forwarding: 5,
        ..Inet6DevConf::default()
    };
    is_same(&rt, &Inet6DevConf::read_padded(&bytes), &conf);
    is_text(&rt, Inet6DevConfBuffer::from(&conf).as_bytes(), &bytes);
}

/// Numbers of the constants IPSTATS_MIB_* of linux/snmp.h, times eight; after them this project's own field.
#[test]
fn counters_of_ipv6_stand_at_their_offsets(rt: HostRuntime) {
    let mut bytes = [0; 312];
    put(
        &mut bytes,
        &[(0, 1), (56, 2), (160, 3), (288, 4), (296, 5), (304, 6)],
    );
    let stats = Inet6Stats {
        num: 1,
        in_hdr_errors: 2,
        frag_oks: 3,
        reasm_overlaps: 4,
        out_pkts: 5,
        reserved_39: 6,
        ..Inet6Stats::default()
    };
    is_same(&rt, &Inet6Stats::read_padded(&bytes), &stats);
    is_text(&rt, Inet6StatsBuffer::from(&stats).as_bytes(), &bytes);
}

/// Numbers of the constants ICMP6_MIB_* of linux/snmp.h, times eight.
#[test]
fn counters_of_icmpv6_stand_at_their_offsets(rt: HostRuntime) {
    let mut bytes = [0; 56];
    put(&mut bytes, &[(0, 1), (16, 2), (32, 3), (48, 4), (55, 128)]);
    let stats = Icmp6Stats {
        num: 1,
        in_errors: 2,
        out_errors: 3,
        rate_limit_host: i64::MIN + 4,
        ..Icmp6Stats::default()
    };
    is_same(&rt, &Icmp6Stats::read_padded(&bytes), &stats);
    is_text(&rt, Icmp6StatsBuffer::from(&stats).as_bytes(), &bytes);
}

/// Offsets of `struct rtnl_link_ifmap`, linux/if_link.h.
#[test]
fn maps_stand_at_their_offsets(rt: HostRuntime) {
    let mut bytes = [0; 32];
    put(&mut bytes, &[(0, 1), (16, 2), (25, 3), (26, 5), (27, 4)]);
    let map = Map {
        memory_start: 1,
        base_address: 2,
        irq: 0x300,
        dma: 5,
        port: 4,
        ..Map::default()
    };
    is_read(&rt, Map::parse(&bytes), &map);
    is_text(&rt, MapBuffer::from(&map).as_bytes(), &bytes);
}

/// Offsets of `struct ifla_cacheinfo`, linux/if_link.h.
#[test]
fn times_stand_at_their_offsets(rt: HostRuntime) {
    let bytes = [
        0x01, 0x00, 0x00, 0x00, 0x02, 0x00, 0x00, 0x00, 0x03, 0x00, 0x00, 0x00, 0x04, 0x00, 0x00,
        0x00,
    ];
    let times = Inet6CacheInfo {
        max_reasm_len: 1,
        tstamp: 2,
        reachable_time: 3,
        retrans_time: 4,
    };
    is_read(&rt, Inet6CacheInfo::parse(&bytes), &times);
    is_text(&rt, Inet6CacheInfoBuffer::from(&times).as_bytes(), &bytes);
}

#[test]
fn short_statistics_are_filled_up(rt: HostRuntime) {
    let stats = Stats {
        rx_packets: 197121,
        ..Stats::default()
    };
    is_read(&rt, Stats::parse(&[0x01, 0x02, 0x03]), &stats);
    is_read(&rt, Stats::parse(&[]), &Stats::default());
    is_read(&rt, Stats::parse(&[0; 95]), &Stats::default());
    let stats = Stats64 {
        rx_packets: 5,
        ..Stats64::default()
    };
    is_read(
        &rt,
        Stats64::parse(&[0x05, 0x00, 0x00, 0x00, 0x00, 0x00, 0x00, 0x00]),
        &stats,
    );
}

#[test]
fn short_settings_are_filled_up(rt: HostRuntime) {
    let conf = InetDevConf {
        forwarding: 65544,
        mc_forwarding: 1,
        ..InetDevConf::default()
    };
    let read = InetDevConf::read_padded(&[0x08, 0x00, 0x01, 0x00, 0x01, 0x00, 0x00, 0x00]);
    is_same(&rt, &read, &conf);
}

/// The records of the kernel, which are shorter by the field of this project's own, mean a zero there.
#[test]
fn records_of_the_kernel_are_filled_up(rt: HostRuntime) {
    let conf = InetDevConf {
        arp_evict_nocarrier: -1,
        ..InetDevConf::default()
    };
    let mut bytes = [0; 132];
    put(
        &mut bytes,
        &[(128, 255), (129, 255), (130, 255), (131, 255)],
    );
    is_same(&rt, &InetDevConf::read_padded(&bytes), &conf);
    let stats = Inet6Stats {
        out_pkts: 7,
        ..Inet6Stats::default()
    };
    let mut bytes = [0; 304];
    put(&mut bytes, &[(296, 7)]);
    is_same(&rt, &Inet6Stats::read_padded(&bytes), &stats);
}

#[test]
fn payloads_are_cut_or_filled_up(rt: HostRuntime) {
    let mut out = [255; 101];
    let text: [u8; 100] = zeros_after(&[0x64, 0x00, 0x07, 0x00, 0x01]);
    assert!(rt; Stats::measure_filled(&[1]) == Some(96));
    let len = Stats::write_filled(7, &[1], &mut out);
    is_written(&rt, len, &out, &text);
    let mut out = [255; 205];
    let text: [u8; 204] = zeros_after(&[0xcc, 0x00, 0x17, 0x00, 0x02]);
    assert!(rt; Stats64::measure_filled(&[2]) == Some(200));
    let len = Stats64::write_filled(23, &[2], &mut out);
    is_written(&rt, len, &out, &text);
    let mut out = [255; 141];
    let text: [u8; 140] = zeros_after(&[0x8c, 0x00, 0x01, 0x00, 0x03]);
    assert!(rt; InetDevConf::measure_filled(&[3]) == Some(136));
    let len = InetDevConf::write_filled(1, &[3], &mut out);
    is_written(&rt, len, &out, &text);
}

#[test]
fn payloads_of_ipv6_are_cut_or_filled_up(rt: HostRuntime) {
    let mut out = [255; 245];
    let text: [u8; 244] = zeros_after(&[0xf4, 0x00, 0x02, 0x00, 0x04]);
    assert!(rt; Inet6DevConf::measure_filled(&[4]) == Some(240));
    let len = Inet6DevConf::write_filled(2, &[4], &mut out);
    is_written(&rt, len, &out, &text);
    let mut out = [255; 317];
    let text: [u8; 316] = zeros_after(&[0x3c, 0x01, 0x03, 0x00, 0x05]);
    assert!(rt; Inet6Stats::measure_filled(&[5]) == Some(312));
    let len = Inet6Stats::write_filled(3, &[5], &mut out);
    is_written(&rt, len, &out, &text);
    let mut out = [255; 61];
    let text: [u8; 60] = zeros_after(&[0x3c, 0x00, 0x06, 0x00, 0x06]);
    assert!(rt; Icmp6Stats::measure_filled(&[6]) == Some(56));
    let len = Icmp6Stats::write_filled(6, &[6], &mut out);
    is_written(&rt, len, &out, &text);
}

#[test]
#[tactic(auto, unfolding(nla_wire::specs::Payloads::read_sized))]
fn payloads_are_written_as_records(rt: HostRuntime) {
    let mut out = [255; 21];
    let info = [7; 17];
    let mut text = [7; 20];
    text[..4].copy_from_slice(&[0x14, 0x00, 0x05, 0x00]);
    assert!(rt; Inet6CacheInfo::measure_sized(&info) == Some(16));
    let len = Inet6CacheInfo::write_sized(5, &info, &mut out);
    is_written(&rt, len, &out, &text);
    let mut out = [255; 37];
    let map = [8; 32];
    let mut text = [8; 36];
    text[..4].copy_from_slice(&[0x24, 0x00, 0x0e, 0x00]);
    text[32..].copy_from_slice(&[0; 4]);
    assert!(rt; Map::measure_sized(&map) == Some(32));
    let len = Map::write_sized(14, &map, &mut out);
    is_written(&rt, len, &out, &text);
}

#[test]
fn short_payloads_are_refused(rt: HostRuntime) {
    let zeros = [0; 311];
    too_few(&rt, InetDevConf::parse(&zeros[..131]), 131, 136);
    too_few(&rt, InetDevConf::parse(&zeros[..135]), 135, 136);
    too_few(&rt, Inet6DevConf::parse(&zeros[..239]), 239, 240);
    too_few(&rt, Inet6Stats::parse(&zeros[..303]), 303, 312);
    too_few(&rt, Inet6Stats::parse(&zeros), 311, 312);
    too_few(&rt, Icmp6Stats::parse(&zeros[..55]), 55, 56);
    too_few(&rt, Inet6CacheInfo::parse(&zeros[..15]), 15, 16);
    too_few(&rt, Map::parse(&zeros[..31]), 31, 32);
    too_few(&rt, StatsBuffer::read_from_prefix(&zeros[..95]), 95, 96);
}

#[test]
fn long_payloads_mean_their_front(rt: HostRuntime) {
    let map = Map {
        memory_start: u64::MAX,
        memory_end: u64::MAX,
        base_address: u64::MAX,
        irq: 65535,
        dma: 255,
        port: 255,
    };
    is_read(&rt, Map::parse(&[255; 33]), &map);
    let mut text = [255; 32];
    put(&mut text, &[(28, 0), (29, 0), (30, 0), (31, 0)]);
    is_text(&rt, MapBuffer::from(&map).as_bytes(), &text);
    is_read(&rt, Stats::parse(&[0; 97]), &Stats::default());
}

#[test]
fn buffers_keep_padding(rt: HostRuntime) {
    let (buffer, rest) = MapBuffer::read_from_prefix(&[255; 33]).expect(&rt, "memory");
    is_text(&rt, buffer.as_bytes(), &[255; 32]);
    is_text(&rt, rest, &[255]);
}

#[test]
fn texts_stand_at_the_end_of_a_longer_buffer(rt: HostRuntime) {
    let stats = Icmp6Stats {
        num: 7,
        ..Icmp6Stats::default()
    };
    let mut buffer = [9; 58];
    assert!(rt; stats.buffer_len() == 56);
    assert!(rt; stats.fill(&mut buffer) == 2);
    let mut text = [0; 58];
    put(&mut text, &[(0, 9), (1, 9), (2, 7)]);
    is_text(&rt, &buffer, &text);
}

#[test]
fn maps_stand_at_the_end_of_a_longer_buffer(rt: HostRuntime) {
    let map = Map {
        port: 3,
        ..Map::default()
    };
    let mut buffer = [9; 33];
    assert!(rt; map.fill(&mut buffer) == 1);
    let mut text = [0; 33];
    put(&mut text, &[(0, 9), (28, 3)]);
    is_text(&rt, &buffer, &text);
}

#[test]
fn records_are_printed_and_copied(rt: HostRuntime) {
    let times = Inet6CacheInfo {
        max_reasm_len: 65535,
        tstamp: 1,
        reachable_time: -2,
        retrans_time: 1000,
    };
    let text =
        "Inet6CacheInfo { max_reasm_len: 65535, tstamp: 1, reachable_time: -2, retrans_time: 1000 }";
    is_same(&rt, &times.clone().expect(&rt, "memory"), &times);
    prints_as(&rt, rt.alloc(), &times, text);
}
