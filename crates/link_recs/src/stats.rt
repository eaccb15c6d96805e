//! Counters of a link, 32 bits each (IFLA_STATS).

ghost use Rattle.std.specs.Prelude.{◌≡◌, ◌≤◌, length};
ghost use Rattle.std.specs.Int.{w32};
ghost use Rattle.nla_wire.specs.Fields.{numbers_from};
ghost use Rattle.nla_wire.specs.Payloads.{filled};
ghost use Rattle.nla_wire.specs.Canon.{Filled};
ghost use Rattle.nla_wire.specs.Records.{Parses};
ghost use Rattle.link_recs.specs.declared.stats.TheConstants.{STATS_COUNT};
ghost use Rattle.link_recs.specs.StatsFields.{stats_size, stats_fields, stats_of, stats_bytes, stats_listed};
ghost use Rattle.link_recs.specs.StatsFields.{stats_decides, stats_laws};

use crate::words::read_u32s;
use nla_wire::fields::put_u32s;
use nla_wire::{DecodeError, Exact, PlainRecord, Record, RecordBuffer};

/// The number of fields of a record.
pub const STATS_COUNT: usize = 24;

/// The number of bytes of a record, 96.
pub const STATS_SIZE: usize = 4 * STATS_COUNT;

/// Counters of a link, 32 bits each (IFLA_STATS).
///
/// 24 numbers of four bytes each, 96 bytes, lowest byte first, in the order of `struct rtnl_link_stats` in
/// linux/if_link.h: field number `i`, counted from 0, stands at offset `4 * i`. Packets and errors are counted in
/// packets, `rx_bytes` and `tx_bytes` in bytes, `rx_over_errors` in events and `collisions` in collisions.
#[derive(Clone, Copy, Debug, Default, PartialEq, Eq)]
pub struct Stats {
    /// Packets that were received.
    pub rx_packets: u32,
    /// Packets that were sent.
    pub tx_packets: u32,
    /// Bytes that were received.
    pub rx_bytes: u32,
    /// Bytes that were sent.
    pub tx_bytes: u32,
    /// Packets that were received with an error.
    pub rx_errors: u32,
    /// Packets that were not sent for an error.
    pub tx_errors: u32,
    /// Packets that were received and not processed, as for lack of memory.
    pub rx_dropped: u32,
    /// Packets that were dropped on their way to be sent.
    pub tx_dropped: u32,
    /// Multicast packets that were received.
    pub multicast: u32,
    /// Collisions while packets were sent.
    pub collisions: u32,
    /// Packets that were dropped for their length.
    pub rx_length_errors: u32,
    /// Packets for which the receiver had no room.
    pub rx_over_errors: u32,
    /// Packets with a wrong checksum of the link.
    pub rx_crc_errors: u32,
    /// Packets whose frame was not aligned.
    pub rx_frame_errors: u32,
    /// Packets for which a queue of the receiver had no room.
    pub rx_fifo_errors: u32,
    /// Packets that the host missed.
    pub rx_missed_errors: u32,
    /// Packets whose sending was given up.
    pub tx_aborted_errors: u32,
    /// Packets that were not sent since the carrier was lost.
    pub tx_carrier_errors: u32,
    /// Packets that were not sent since a queue ran empty.
    pub tx_fifo_errors: u32,
    /// Packets that failed a test of the heartbeat.
    pub tx_heartbeat_errors: u32,
    /// Packets that were not sent since a collision came late.
    pub tx_window_errors: u32,
    /// Compressed packets that were received.
    pub rx_compressed: u32,
    /// Compressed packets that were sent.
    pub tx_compressed: u32,
    /// Packets that were received and that nothing took.
    pub rx_nohandler: u32,
}

impl Stats {
    #[inline(always)]
    fn from_words(words: [u32; STATS_COUNT]) -> Stats
        ensures { result ≡ stats_listed words }
    {
        counters!(made Stats, words)
    }

    /// The fields, in their order.
    #[inline(always)]
    #[tactic(auto, unfolding(crate::specs::StatsFields::stats_fields))]
    pub fn words(&self) -> [u32; STATS_COUNT]
        ensures { result ≡ stats_fields self.now }
    {
        counters!(words self)
    }
}

impl Record<STATS_SIZE> for Stats {
    ghost of = { stats_of };

    ghost bytes = { stats_bytes };

    #[inline(always)]
    #[tactic(auto, using(crate::specs::StatsFields::stats_of_table))]
    fn read(payload: &[u8]) -> Stats {
        let mut words = [0; STATS_COUNT];
        read_u32s(payload, &mut words);
        Stats::from_words(words)
    }

    #[tactic(auto, unfolding(crate::specs::StatsFields::stats_bytes))]
    fn write(&self, buffer: &mut [u8]) {
        put_u32s(buffer, &self.words());
    }

    ghost laws = { stats_laws.laws };
}

impl PlainRecord<STATS_SIZE> for Stats {
    ghost written = { stats_laws.plain };
}

impl Stats {
    /// Reads a record from the front of the payload, as if zeros followed it. Nothing is refused.
    #[tactic(auto, using(crate::specs::StatsFields::stats_table))]
    pub fn read_padded(payload: &[u8]) -> Stats
        ensures value { result ≡ stats_of payload.now }
        ensures fields { stats_fields result ≡ numbers_from w32 payload.now 0 STATS_COUNT }
    {
        Stats::read(payload)
    }

    /// Reads a record from the front of the payload, as if zeros followed it. It never fails.
    pub fn parse(payload: &[u8]) -> Result<Stats, DecodeError>
        ensures { Parses (filled stats_of) payload.now result }
    {
        Stats::parse_filled(payload)
    }

    /// The number of bytes that `emit` writes, 96.
    pub fn buffer_len(&self) -> usize
        ensures { result ≡ stats_size }
    {
        STATS_SIZE
    }

    /// Writes the record to a buffer of exactly 96 bytes.
    pub fn emit(&self, buffer: &mut [u8])
        requires { length buffer.old ≡ stats_size }
        ensures { buffer.new ≡ stats_bytes self.now }
    {
        self.write(buffer);
    }

    /// Writes the record to the end of a buffer of at least 96 bytes, keeps the bytes before it, and returns where it
    /// starts.
    pub fn fill(&self, buffer: &mut [u8]) -> usize
        requires { stats_size ≤ length buffer.old }
        ensures { Filled buffer.old buffer.new (stats_bytes self.now) result }
    {
        self.fill_back(buffer)
    }
}

impl Exact for Stats {
    ghost decides = { stats_decides };
}

/// The bytes of a record, `Stats`.
pub type StatsBuffer = RecordBuffer<Stats, STATS_SIZE>;
