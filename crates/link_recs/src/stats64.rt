//! Counters of a link, 64 bits each (IFLA_STATS64).

ghost use Rattle.std.specs.Prelude.{◌≡◌, ◌≤◌, length};
ghost use Rattle.std.specs.Int.{w64};
ghost use Rattle.nla_wire.specs.Fields.{numbers_from};
ghost use Rattle.nla_wire.specs.Payloads.{filled};
ghost use Rattle.nla_wire.specs.Canon.{Filled};
ghost use Rattle.nla_wire.specs.Records.{Parses};
ghost use Rattle.link_recs.specs.declared.stats64.TheConstants.{STATS64_COUNT};
ghost use Rattle.link_recs.specs.Stats64Fields.{stats64_size, stats64_fields, stats64_of, stats64_bytes};
ghost use Rattle.link_recs.specs.Stats64Fields.{stats64_listed, stats64_decides, stats64_laws};

use crate::words::read_u64s;
use nla_wire::fields::put_u64s;
use nla_wire::{DecodeError, Exact, PlainRecord, Record, RecordBuffer};

/// The number of fields of a record.
pub const STATS64_COUNT: usize = 25;

/// The number of bytes of a record, 200.
pub const STATS64_SIZE: usize = 8 * STATS64_COUNT;

/// Counters of a link, 64 bits each (IFLA_STATS64).
///
/// 25 numbers of eight bytes each, 200 bytes, lowest byte first, in the order of `struct rtnl_link_stats64` in
/// linux/if_link.h: field number `i`, counted from 0, stands at offset `8 * i`. Packets and errors are counted in
/// packets, `rx_bytes` and `tx_bytes` in bytes, `rx_over_errors` in events and `collisions` in collisions.
#[derive(Clone, Copy, Debug, Default, PartialEq, Eq)]
pub struct Stats64 {
    /// Packets that were received.
    pub rx_packets: u64,
    /// Packets that were sent.
    pub tx_packets: u64,
    /// Bytes that were received.
    pub rx_bytes: u64,
    /// Bytes that were sent.
    pub tx_bytes: u64,
    /// Packets that were received with an error.
    pub rx_errors: u64,
    /// Packets that were not sent for an error.
    pub tx_errors: u64,
    /// Packets that were received and not processed, as for lack of memory.
    pub rx_dropped: u64,
    /// Packets that were dropped on their way to be sent.
    pub tx_dropped: u64,
    /// Multicast packets that were received.
    pub multicast: u64,
    /// Collisions while packets were sent.
    pub collisions: u64,
    /// Packets that were dropped for their length.
    pub rx_length_errors: u64,
    /// Packets for which the receiver had no room.
    pub rx_over_errors: u64,
    /// Packets with a wrong checksum of the link.
    pub rx_crc_errors: u64,
    /// Packets whose frame was not aligned.
    pub rx_frame_errors: u64,
    /// Packets for which a queue of the receiver had no room.
    pub rx_fifo_errors: u64,
    /// Packets that the host missed.
    pub rx_missed_errors: u64,
    /// Packets whose sending was given up.
    pub tx_aborted_errors: u64,
    /// Packets that were not sent since the carrier was lost.
    pub tx_carrier_errors: u64,
    /// Packets that were not sent since a queue ran empty.
    pub tx_fifo_errors: u64,
    /// Packets that failed a test of the heartbeat.
    pub tx_heartbeat_errors: u64,
    /// Packets that were not sent since a collision came late.
    pub tx_window_errors: u64,
    /// Compressed packets that were received.
    pub rx_compressed: u64,
    /// Compressed packets that were sent.
    pub tx_compressed: u64,
    /// Packets that were received and that nothing took.
    pub rx_nohandler: u64,
    /// Packets that were received and dropped since they were for another host.
    pub rx_otherhost_dropped: u64,
}

impl Stats64 {
    #[inline(always)]
    fn from_words(words: [u64; STATS64_COUNT]) -> Stats64
        ensures { result ≡ stats64_listed words }
    {
        counters!(made Stats64, words, rx_otherhost_dropped 24)
    }

    /// The fields, in their order.
    #[inline(always)]
    #[tactic(auto, unfolding(crate::specs::Stats64Fields::stats64_fields))]
    pub fn words(&self) -> [u64; STATS64_COUNT]
        ensures { result ≡ stats64_fields self.now }
    {
        counters!(words self, rx_otherhost_dropped)
    }
}

impl Record<STATS64_SIZE> for Stats64 {
    ghost of = { stats64_of };

    ghost bytes = { stats64_bytes };

    #[inline(always)]
    #[tactic(auto, using(crate::specs::Stats64Fields::stats64_of_table))]
    fn read(payload: &[u8]) -> Stats64 {
        let mut words = [0; STATS64_COUNT];
        read_u64s(payload, &mut words);
        Stats64::from_words(words)
    }

    #[tactic(auto, unfolding(crate::specs::Stats64Fields::stats64_bytes))]
    fn write(&self, buffer: &mut [u8]) {
        put_u64s(buffer, &self.words());
    }

    ghost laws = { stats64_laws.laws };
}

impl PlainRecord<STATS64_SIZE> for Stats64 {
    ghost written = { stats64_laws.plain };
}

impl Stats64 {
    /// Reads a record from the front of the payload, as if zeros followed it. Nothing is refused.
    #[tactic(auto, using(crate::specs::Stats64Fields::stats64_table))]
    pub fn read_padded(payload: &[u8]) -> Stats64
        ensures value { result ≡ stats64_of payload.now }
        ensures fields { stats64_fields result ≡ numbers_from w64 payload.now 0 STATS64_COUNT }
    {
        Stats64::read(payload)
    }

    /// Reads a record from the front of the payload, as if zeros followed it. It never fails.
    pub fn parse(payload: &[u8]) -> Result<Stats64, DecodeError>
        ensures { Parses (filled stats64_of) payload.now result }
    {
        Stats64::parse_filled(payload)
    }

    /// The number of bytes that `emit` writes, 200.
    pub fn buffer_len(&self) -> usize
        ensures { result ≡ stats64_size }
    {
        STATS64_SIZE
    }

    /// Writes the record to a buffer of exactly 200 bytes.
    pub fn emit(&self, buffer: &mut [u8])
        requires { length buffer.old ≡ stats64_size }
        ensures { buffer.new ≡ stats64_bytes self.now }
    {
        self.write(buffer);
    }

    /// Writes the record to the end of a buffer of at least 200 bytes, keeps the bytes before it, and returns where it
    /// starts.
    pub fn fill(&self, buffer: &mut [u8]) -> usize
        requires { stats64_size ≤ length buffer.old }
        ensures { Filled buffer.old buffer.new (stats64_bytes self.now) result }
    {
        self.fill_back(buffer)
    }
}

impl Exact for Stats64 {
    ghost decides = { stats64_decides };
}

/// The bytes of a record, `Stats64`.
pub type Stats64Buffer = RecordBuffer<Stats64, STATS64_SIZE>;
