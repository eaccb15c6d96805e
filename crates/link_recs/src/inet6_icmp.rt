//! Counters of ICMPv6 on a link (IFLA_INET6_ICMP6STATS).

ghost use Rattle.std.specs.Prelude.{◌≡◌, ◌≤◌, length};
ghost use Rattle.std.specs.Int.{w64};
ghost use Rattle.nla_wire.specs.Fields.{signed_from};
ghost use Rattle.nla_wire.specs.Payloads.{sized};
ghost use Rattle.nla_wire.specs.Canon.{Filled};
ghost use Rattle.nla_wire.specs.Records.{Parses};
ghost use Rattle.link_recs.specs.declared.inet6_icmp.TheConstants.{ICMP6_STATS_COUNT};
ghost use Rattle.link_recs.specs.Icmp6StatsFields.{icmp6_stats_size, icmp6_stats_fields, icmp6_stats_of};
ghost use Rattle.link_recs.specs.Icmp6StatsFields.{icmp6_stats_bytes, icmp6_stats_listed, icmp6_stats_decides};
ghost use Rattle.link_recs.specs.Icmp6StatsFields.{icmp6_stats_laws};

use crate::words::read_i64s;
use nla_wire::fields::put_i64s;
use nla_wire::{DecodeError, Exact, PlainRecord, Record, RecordBuffer};

/// The number of fields of a record.
pub const ICMP6_STATS_COUNT: usize = 7;

/// The number of bytes of a record, 56.
pub const ICMP6_STATS_SIZE: usize = 8 * ICMP6_STATS_COUNT;

/// Counters of ICMPv6 on a link (IFLA_INET6_ICMP6STATS).
///
/// Seven signed numbers of eight bytes each, 56 bytes, lowest byte first, in the order of the constants ICMP6_MIB_* of
/// linux/snmp.h, which count from 0: counter number `n` stands at offset `8 * n`. `num` is the number of counters that
/// the kernel sent.
#[derive(Clone, Copy, Debug, Default, PartialEq, Eq)]
pub struct Icmp6Stats {
    /// How many counters there are.
    pub num: i64,
    /// `ICMP6_MIB_INMSGS`.
    pub in_msgs: i64,
    /// `ICMP6_MIB_INERRORS`.
    pub in_errors: i64,
    /// `ICMP6_MIB_OUTMSGS`.
    pub out_msgs: i64,
    /// `ICMP6_MIB_OUTERRORS`.
    pub out_errors: i64,
    /// `ICMP6_MIB_CSUMERRORS`.
    pub csum_errors: i64,
    /// `ICMP6_MIB_RATELIMITHOST`.
    pub rate_limit_host: i64,
}

impl Icmp6Stats {
    #[inline(always)]
    fn from_words(words: [i64; ICMP6_STATS_COUNT]) -> Icmp6Stats
        ensures { result ≡ icmp6_stats_listed words }
    {
        Icmp6Stats {
            num: words[0],
            in_msgs: words[1],
            in_errors: words[2],
            out_msgs: words[3],
            out_errors: words[4],
            csum_errors: words[5],
            rate_limit_host: words[6],
        }
    }

    /// The fields, in their order.
    #[inline(always)]
    #[tactic(auto, unfolding(crate::specs::Icmp6StatsFields::icmp6_stats_fields))]
    pub fn words(&self) -> [i64; ICMP6_STATS_COUNT]
        ensures { result ≡ icmp6_stats_fields self.now }
    {
        [
            self.num,
            self.in_msgs,
            self.in_errors,
            self.out_msgs,
            self.out_errors,
            self.csum_errors,
            self.rate_limit_host,
        ]
    }
}

impl Record<ICMP6_STATS_SIZE> for Icmp6Stats {
    ghost of = { icmp6_stats_of };

    ghost bytes = { icmp6_stats_bytes };

    #[inline(always)]
    #[tactic(auto, using(crate::specs::Icmp6StatsFields::icmp6_stats_of_table))]
    fn read(payload: &[u8]) -> Icmp6Stats {
        let mut words = [0; ICMP6_STATS_COUNT];
        read_i64s(payload, &mut words);
        Icmp6Stats::from_words(words)
    }

    #[tactic(auto, unfolding(crate::specs::Icmp6StatsFields::icmp6_stats_bytes))]
    fn write(&self, buffer: &mut [u8]) {
        put_i64s(buffer, &self.words());
    }

    ghost laws = { icmp6_stats_laws.laws };
}

impl PlainRecord<ICMP6_STATS_SIZE> for Icmp6Stats {
    ghost written = { icmp6_stats_laws.plain };
}

impl Icmp6Stats {
    /// Reads a record from the front of the payload, as if zeros followed it. Nothing is refused.
    #[tactic(auto, using(crate::specs::Icmp6StatsFields::icmp6_stats_table))]
    pub fn read_padded(payload: &[u8]) -> Icmp6Stats
        ensures value { result ≡ icmp6_stats_of payload.now }
        ensures fields { icmp6_stats_fields result
            ≡ signed_from w64 payload.now 0 ICMP6_STATS_COUNT }
    {
        Icmp6Stats::read(payload)
    }

    /// Reads a record from the front of the payload. A payload of fewer than 56 bytes is refused with `TooShort`.
    pub fn parse(payload: &[u8]) -> Result<Icmp6Stats, DecodeError>
        ensures { Parses (sized icmp6_stats_size icmp6_stats_of) payload.now result }
    {
        Icmp6Stats::parse_sized(payload)
    }

    /// The number of bytes that `emit` writes, 56.
    pub fn buffer_len(&self) -> usize
        ensures { result ≡ icmp6_stats_size }
    {
        ICMP6_STATS_SIZE
    }

    /// Writes the record to a buffer of exactly 56 bytes.
    pub fn emit(&self, buffer: &mut [u8])
        requires { length buffer.old ≡ icmp6_stats_size }
        ensures { buffer.new ≡ icmp6_stats_bytes self.now }
    {
        self.write(buffer);
    }

    /// Writes the record to the end of a buffer of at least 56 bytes, keeps the bytes before it, and returns where it
    /// starts.
    pub fn fill(&self, buffer: &mut [u8]) -> usize
        requires { icmp6_stats_size ≤ length buffer.old }
        ensures { Filled buffer.old buffer.new (icmp6_stats_bytes self.now) result }
    {
        self.fill_back(buffer)
    }
}

impl Exact for Icmp6Stats {
    ghost decides = { icmp6_stats_decides };
}

/// The bytes of a record, `Icmp6Stats`.
pub type Icmp6StatsBuffer = RecordBuffer<Icmp6Stats, ICMP6_STATS_SIZE>;
