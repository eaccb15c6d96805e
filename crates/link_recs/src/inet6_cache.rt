//! Times of the IPv6 neighbour cache of a link (IFLA_INET6_CACHEINFO).

ghost use Rattle.std.specs.Prelude.{◌≡◌, ◌≤◌, length};
ghost use Rattle.nla_wire.specs.Payloads.{sized};
ghost use Rattle.nla_wire.specs.Canon.{Filled};
ghost use Rattle.nla_wire.specs.Records.{Parses};
ghost use Rattle.link_recs.specs.Inet6CacheInfoFields.{inet6_cache_info_size, inet6_cache_info_fields};
ghost use Rattle.link_recs.specs.Inet6CacheInfoFields.{inet6_cache_info_of, inet6_cache_info_bytes};
ghost use Rattle.link_recs.specs.Inet6CacheInfoFields.{inet6_cache_info_listed, inet6_cache_info_decides};
ghost use Rattle.link_recs.specs.Inet6CacheInfoFields.{inet6_cache_info_laws};

use crate::words::read_i32s;
use nla_wire::fields::put_i32s;
use nla_wire::{DecodeError, Exact, PlainRecord, Record, RecordBuffer};

/// The number of fields of a record.
pub const INET6_CACHE_INFO_COUNT: usize = 4;

/// The number of bytes of a record, 16.
pub const INET6_CACHE_INFO_SIZE: usize = 4 * INET6_CACHE_INFO_COUNT;

/// Times of the IPv6 neighbour cache of a link (IFLA_INET6_CACHEINFO).
///
/// Four signed numbers of four bytes each, 16 bytes, lowest byte first, in the order of `struct ifla_cacheinfo` in
/// linux/if_link.h, at offsets 0, 4, 8 and 12. `max_reasm_len` is in bytes, `tstamp` in hundredths of a second,
/// `reachable_time` and `retrans_time` in milliseconds.
#[derive(Clone, Copy, Debug, PartialEq, Eq)]
pub struct Inet6CacheInfo {
    /// The longest packet that is put together of fragments, in bytes.
    pub max_reasm_len: i32,
    /// When the interface was last changed, in hundredths of a second since the system began.
    pub tstamp: i32,
    /// How long a neighbour counts as reachable, in milliseconds.
    pub reachable_time: i32,
    /// The time between two solicitations, in milliseconds.
    pub retrans_time: i32,
}

impl Inet6CacheInfo {
    #[inline(always)]
    fn from_words(words: [i32; INET6_CACHE_INFO_COUNT]) -> Inet6CacheInfo
        ensures { result ≡ inet6_cache_info_listed words }
    {
        Inet6CacheInfo {
            max_reasm_len: words[0],
            tstamp: words[1],
            reachable_time: words[2],
            retrans_time: words[3],
        }
    }

    /// The fields, in their order.
    #[inline(always)]
    #[tactic(auto, unfolding(crate::specs::Inet6CacheInfoFields::inet6_cache_info_fields))]
    pub fn words(&self) -> [i32; INET6_CACHE_INFO_COUNT]
        ensures { result ≡ inet6_cache_info_fields self.now }
    {
        [
            self.max_reasm_len,
            self.tstamp,
            self.reachable_time,
            self.retrans_time,
        ]
    }
}

impl Record<INET6_CACHE_INFO_SIZE> for Inet6CacheInfo {
    ghost of = { inet6_cache_info_of };

    ghost bytes = { inet6_cache_info_bytes };

    #[inline(always)]
    #[tactic(auto, using(crate::specs::Inet6CacheInfoFields::inet6_cache_info_of_table))]
    fn read(payload: &[u8]) -> Inet6CacheInfo {
        let mut words = [0; INET6_CACHE_INFO_COUNT];
        read_i32s(payload, &mut words);
        Inet6CacheInfo::from_words(words)
    }

    #[tactic(auto, unfolding(crate::specs::Inet6CacheInfoFields::inet6_cache_info_bytes))]
    fn write(&self, buffer: &mut [u8]) {
        put_i32s(buffer, &self.words());
    }

    ghost laws = { inet6_cache_info_laws.laws };
}

impl PlainRecord<INET6_CACHE_INFO_SIZE> for Inet6CacheInfo {
    ghost written = { inet6_cache_info_laws.plain };
}

impl Inet6CacheInfo {
    /// Reads a record from the front of the payload. A payload of fewer than 16 bytes is refused with `TooShort`.
    pub fn parse(payload: &[u8]) -> Result<Inet6CacheInfo, DecodeError>
        ensures { Parses (sized inet6_cache_info_size inet6_cache_info_of) payload.now result }
    {
        Inet6CacheInfo::parse_sized(payload)
    }

    /// The number of bytes that `emit` writes, 16.
    pub fn buffer_len(&self) -> usize
        ensures { result ≡ inet6_cache_info_size }
    {
        INET6_CACHE_INFO_SIZE
    }

    /// Writes the record to a buffer of exactly 16 bytes.
    pub fn emit(&self, buffer: &mut [u8])
        requires { length buffer.old ≡ inet6_cache_info_size }
        ensures { buffer.new ≡ inet6_cache_info_bytes self.now }
    {
        self.write(buffer);
    }

    /// Writes the record to the end of a buffer of at least 16 bytes, keeps the bytes before it, and returns where it
    /// starts.
    pub fn fill(&self, buffer: &mut [u8]) -> usize
        requires { inet6_cache_info_size ≤ length buffer.old }
        ensures { Filled buffer.old buffer.new (inet6_cache_info_bytes self.now) result }
    {
        self.fill_back(buffer)
    }
}

impl Exact for Inet6CacheInfo {
    ghost decides = { inet6_cache_info_decides };
}

/// The bytes of a record, `Inet6CacheInfo`.
pub type Inet6CacheInfoBuffer = RecordBuffer<Inet6CacheInfo, INET6_CACHE_INFO_SIZE>;
