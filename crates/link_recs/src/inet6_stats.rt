//! Counters of IPv6 on a link (IFLA_INET6_STATS).

ghost use Rattle.std.specs.Prelude.{◌≡◌, ◌≤◌, length};
ghost use Rattle.std.specs.Int.{w64};
ghost use Rattle.nla_wire.specs.Fields.{signed_from};
ghost use Rattle.nla_wire.specs.Payloads.{sized};
ghost use Rattle.nla_wire.specs.Canon.{Filled};
ghost use Rattle.nla_wire.specs.Records.{Parses};
ghost use Rattle.link_recs.specs.declared.inet6_stats.TheConstants.{INET6_STATS_COUNT};
ghost use Rattle.link_recs.specs.Inet6StatsFields.{inet6_stats_size, inet6_stats_fields, inet6_stats_of};
ghost use Rattle.link_recs.specs.Inet6StatsFields.{inet6_stats_bytes, inet6_stats_listed, inet6_stats_decides};
ghost use Rattle.link_recs.specs.Inet6StatsFields.{inet6_stats_laws};
ghost use Rattle.link_recs.specs.Inet6StatsOrder.{order_since_6_16, in_order};

use crate::words::read_i64s;
use nla_wire::fields::put_i64s;
use nla_wire::{DecodeError, Exact, PlainRecord, Record, RecordBuffer};

/// The number of fields of a record.
pub const INET6_STATS_COUNT: usize = 39;

/// The number of bytes of a record, 312.
pub const INET6_STATS_SIZE: usize = 8 * INET6_STATS_COUNT;

/// Counters of IPv6 on a link (IFLA_INET6_STATS).
///
/// 39 signed numbers of eight bytes each, 312 bytes, lowest byte first, in the order of the constants IPSTATS_MIB_* of
/// linux/snmp.h, which count from 0: counter number `n` stands at offset `8 * n`. `num` is how many counters the kernel
/// sent, itself among them. The last field is no counter of the kernel's.
///
/// The names of the fields are those of Linux 6.12 and before it. Linux 6.16 has another order, with the same number
/// of counters: `since_6_16` gives what its messages mean. The order of the releases between the two was not looked
/// at, and a message does not say which order it has.
#[derive(Clone, Copy, Debug, Default, PartialEq, Eq)]
pub struct Inet6Stats {
    /// How many counters there are.
    pub num: i64,
    /// `IPSTATS_MIB_INPKTS`.
    pub in_pkts: i64,
    /// `IPSTATS_MIB_INOCTETS`.
    pub in_octets: i64,
    /// `IPSTATS_MIB_INDELIVERS`.
    pub in_delivers: i64,
    /// `IPSTATS_MIB_OUTFORWDATAGRAMS`.
    pub out_forw_datagrams: i64,
    /// `IPSTATS_MIB_OUTREQUESTS`.
    pub out_requests: i64,
    /// `IPSTATS_MIB_OUTOCTETS`.
    pub out_octets: i64,
    /// `IPSTATS_MIB_INHDRERRORS`.
    pub in_hdr_errors: i64,
    /// `IPSTATS_MIB_INTOOBIGERRORS`.
    pub in_too_big_errors: i64,
    /// `IPSTATS_MIB_INNOROUTES`.
    pub in_no_routes: i64,
    /// `IPSTATS_MIB_INADDRERRORS`.
    pub in_addr_errors: i64,
    /// `IPSTATS_MIB_INUNKNOWNPROTOS`.
    pub in_unknown_protos: i64,
    /// `IPSTATS_MIB_INTRUNCATEDPKTS`.
    pub in_truncated_pkts: i64,
    /// `IPSTATS_MIB_INDISCARDS`.
    pub in_discards: i64,
    /// `IPSTATS_MIB_OUTDISCARDS`.
    pub out_discards: i64,
    /// `IPSTATS_MIB_OUTNOROUTES`.
    pub out_no_routes: i64,
    /// `IPSTATS_MIB_REASMTIMEOUT`.
    pub reasm_timeout: i64,
    /// `IPSTATS_MIB_REASMREQDS`.
    pub reasm_reqds: i64,
    /// `IPSTATS_MIB_REASMOKS`.
    pub reasm_oks: i64,
    /// `IPSTATS_MIB_REASMFAILS`.
    pub reasm_fails: i64,
    /// `IPSTATS_MIB_FRAGOKS`.
    pub frag_oks: i64,
    /// `IPSTATS_MIB_FRAGFAILS`.
    pub frag_fails: i64,
    /// `IPSTATS_MIB_FRAGCREATES`.
    pub frag_creates: i64,
    /// `IPSTATS_MIB_INMCASTPKTS`.
    pub in_mcast_pkts: i64,
    /// `IPSTATS_MIB_OUTMCASTPKTS`.
    pub out_mcast_pkts: i64,
    /// `IPSTATS_MIB_INBCASTPKTS`.
    pub in_bcast_pkts: i64,
    /// `IPSTATS_MIB_OUTBCASTPKTS`.
    pub out_bcast_pkts: i64,
    /// `IPSTATS_MIB_INMCASTOCTETS`.
    pub in_mcast_octets: i64,
    /// `IPSTATS_MIB_OUTMCASTOCTETS`.
    pub out_mcast_octets: i64,
    /// `IPSTATS_MIB_INBCASTOCTETS`.
    pub in_bcast_octets: i64,
    /// `IPSTATS_MIB_OUTBCASTOCTETS`.
    pub out_bcast_octets: i64,
    /// `IPSTATS_MIB_CSUMERRORS`.
    pub in_csum_errors: i64,
    /// `IPSTATS_MIB_NOECTPKTS`.
    pub in_no_ect_pkts: i64,
    /// `IPSTATS_MIB_ECT1PKTS`.
    pub in_ect1_pkts: i64,
    /// `IPSTATS_MIB_ECT0PKTS`.
    pub in_ect0_pkts: i64,
    /// `IPSTATS_MIB_CEPKTS`.
    pub in_ce_pkts: i64,
    /// `IPSTATS_MIB_REASM_OVERLAPS`.
    pub reasm_overlaps: i64,
    /// `IPSTATS_MIB_OUTPKTS`.
    pub out_pkts: i64,
    /// Reserved: this project's own, and in no kernel. Zero where the payload is shorter.
    pub reserved_39: i64,
}

impl Inet6Stats {
    #[inline(always)]
    fn from_words(words: [i64; INET6_STATS_COUNT]) -> Inet6Stats
        ensures { result ≡ inet6_stats_listed words }
    {
        Inet6Stats {
            num: words[0],
            in_pkts: words[1],
            in_octets: words[2],
            in_delivers: words[3],
            out_forw_datagrams: words[4],
            out_requests: words[5],
            out_octets: words[6],
            in_hdr_errors: words[7],
            in_too_big_errors: words[8],
            in_no_routes: words[9],
            in_addr_errors: words[10],
            in_unknown_protos: words[11],
            in_truncated_pkts: words[12],
            in_discards: words[13],
            out_discards: words[14],
            out_no_routes: words[15],
            reasm_timeout: words[16],
            reasm_reqds: words[17],
            reasm_oks: words[18],
            reasm_fails: words[19],
            frag_oks: words[20],
            frag_fails: words[21],
            frag_creates: words[22],
            in_mcast_pkts: words[23],
            out_mcast_pkts: words[24],
            in_bcast_pkts: words[25],
            out_bcast_pkts: words[26],
            in_mcast_octets: words[27],
            out_mcast_octets: words[28],
            in_bcast_octets: words[29],
            out_bcast_octets: words[30],
            in_csum_errors: words[31],
            in_no_ect_pkts: words[32],
            in_ect1_pkts: words[33],
            in_ect0_pkts: words[34],
            in_ce_pkts: words[35],
            reasm_overlaps: words[36],
            out_pkts: words[37],
            reserved_39: words[38],
        }
    }

    /// The fields, in their order.
    #[inline(always)]
    #[tactic(auto, unfolding(crate::specs::Inet6StatsFields::inet6_stats_fields))]
    pub fn words(&self) -> [i64; INET6_STATS_COUNT]
        ensures { result ≡ inet6_stats_fields self.now }
    {
        [
            self.num,
            self.in_pkts,
            self.in_octets,
            self.in_delivers,
            self.out_forw_datagrams,
            self.out_requests,
            self.out_octets,
            self.in_hdr_errors,
            self.in_too_big_errors,
            self.in_no_routes,
            self.in_addr_errors,
            self.in_unknown_protos,
            self.in_truncated_pkts,
            self.in_discards,
            self.out_discards,
            self.out_no_routes,
            self.reasm_timeout,
            self.reasm_reqds,
            self.reasm_oks,
            self.reasm_fails,
            self.frag_oks,
            self.frag_fails,
            self.frag_creates,
            self.in_mcast_pkts,
            self.out_mcast_pkts,
            self.in_bcast_pkts,
            self.out_bcast_pkts,
            self.in_mcast_octets,
            self.out_mcast_octets,
            self.in_bcast_octets,
            self.out_bcast_octets,
            self.in_csum_errors,
            self.in_no_ect_pkts,
            self.in_ect1_pkts,
            self.in_ect0_pkts,
            self.in_ce_pkts,
            self.reasm_overlaps,
            self.out_pkts,
            self.reserved_39,
        ]
    }
}

impl Inet6Stats {
    /// The counters of a record that was read from a message of Linux 6.16 or later, each in the field of its name.
    ///
    /// The order of that kernel's IPSTATS_MIB_* (linux/snmp.h): after `in_delivers` come the four counters of packets
    /// by ECN, then `out_requests`, `out_pkts`, `out_octets` and `out_forw_datagrams`, and the others as they were.
    #[tactic(auto, unfolding(crate::specs::Inet6StatsFields::inet6_stats_fields))]
    pub fn since_6_16(&self) -> Inet6Stats
        ensures { inet6_stats_fields result
            ≡ in_order order_since_6_16 (inet6_stats_fields self.now) }
    {
        let words = self.words();
        Inet6Stats::from_words([
            words[0], words[1], words[2], words[3], words[11], words[8], words[10], words[12],
            words[13], words[14], words[15], words[16], words[17], words[18], words[19], words[20],
            words[21], words[22], words[23], words[24], words[25], words[26], words[27], words[28],
            words[29], words[30], words[31], words[32], words[33], words[34], words[35], words[36],
            words[4], words[5], words[6], words[7], words[37], words[9], words[38],
        ])
    }
}

impl Record<INET6_STATS_SIZE> for Inet6Stats {
    ghost of = { inet6_stats_of };

    ghost bytes = { inet6_stats_bytes };

    #[inline(always)]
    #[tactic(auto, using(crate::specs::Inet6StatsFields::inet6_stats_of_table))]
    fn read(payload: &[u8]) -> Inet6Stats {
        let mut words = [0; INET6_STATS_COUNT];
        read_i64s(payload, &mut words);
        Inet6Stats::from_words(words)
    }

    #[tactic(auto, unfolding(crate::specs::Inet6StatsFields::inet6_stats_bytes))]
    fn write(&self, buffer: &mut [u8]) {
        put_i64s(buffer, &self.words());
    }

    ghost laws = { inet6_stats_laws.laws };
}

impl PlainRecord<INET6_STATS_SIZE> for Inet6Stats {
    ghost written = { inet6_stats_laws.plain };
}

impl Inet6Stats {
    /// Reads a record from the front of the payload, as if zeros followed it. Nothing is refused.
    #[tactic(auto, using(crate::specs::Inet6StatsFields::inet6_stats_table))]
    pub fn read_padded(payload: &[u8]) -> Inet6Stats
        ensures value { result ≡ inet6_stats_of payload.now }
        ensures fields { inet6_stats_fields result
            ≡ signed_from w64 payload.now 0 INET6_STATS_COUNT }
    {
        Inet6Stats::read(payload)
    }

    /// Reads a record from the front of the payload. A payload of fewer than 312 bytes is refused with `TooShort`.
    pub fn parse(payload: &[u8]) -> Result<Inet6Stats, DecodeError>
        ensures { Parses (sized inet6_stats_size inet6_stats_of) payload.now result }
    {
        Inet6Stats::parse_sized(payload)
    }

    /// The number of bytes that `emit` writes, 312.
    pub fn buffer_len(&self) -> usize
        ensures { result ≡ inet6_stats_size }
    {
        INET6_STATS_SIZE
    }

    /// Writes the record to a buffer of exactly 312 bytes.
    pub fn emit(&self, buffer: &mut [u8])
        requires { length buffer.old ≡ inet6_stats_size }
        ensures { buffer.new ≡ inet6_stats_bytes self.now }
    {
        self.write(buffer);
    }

    /// Writes the record to the end of a buffer of at least 312 bytes, keeps the bytes before it, and returns where it
    /// starts.
    pub fn fill(&self, buffer: &mut [u8]) -> usize
        requires { inet6_stats_size ≤ length buffer.old }
        ensures { Filled buffer.old buffer.new (inet6_stats_bytes self.now) result }
    {
        self.fill_back(buffer)
    }
}

impl Exact for Inet6Stats {
    ghost decides = { inet6_stats_decides };
}

/// The bytes of a record, `Inet6Stats`.
pub type Inet6StatsBuffer = RecordBuffer<Inet6Stats, INET6_STATS_SIZE>;
