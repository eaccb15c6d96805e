//! The order of IPv6's counters in messages of Linux 6.16 and later.

use crate::testing::is_same;
use link_recs::Inet6Stats;

/// A record as that kernel's linux/snmp.h orders it, from its first counter on, each with its number.
#[test]
fn counters_of_linux_6_16_come_by_name(rt: HostRuntime) {
    let mut bytes = [0; 312];
    for n in 0..39 {
        bytes[8 * n] = n as u8;
    }
    let counters = Inet6Stats {
        num: 0,
        in_pkts: 1,
        in_octets: 2,
        in_delivers: 3,
        in_no_ect_pkts: 4,
        in_ect1_pkts: 5,
        in_ect0_pkts: 6,
        in_ce_pkts: 7,
        out_requests: 8,
        out_pkts: 9,
        out_octets: 10,
        out_forw_datagrams: 11,
        in_hdr_errors: 12,
        in_too_big_errors: 13,
        in_no_routes: 14,
        in_addr_errors: 15,
        in_unknown_protos: 16,
        in_truncated_pkts: 17,
        in_discards: 18,
        out_discards: 19,
        out_no_routes: 20,
        reasm_timeout: 21,
        reasm_reqds: 22,
        reasm_oks: 23,
        reasm_fails: 24,
        frag_oks: 25,
        frag_fails: 26,
        frag_creates: 27,
        in_mcast_pkts: 28,
        out_mcast_pkts: 29,
        in_bcast_pkts: 30,
        out_bcast_pkts: 31,
        in_mcast_octets: 32,
        out_mcast_octets: 33,
        in_bcast_octets: 34,
        out_bcast_octets: 35,
        in_csum_errors: 36,
        reasm_overlaps: 37,
        reserved_39: 38,
    };
    is_same(
        &rt,
        &Inet6Stats::read_padded(&bytes).since_6_16(),
        &counters,
    );
}
