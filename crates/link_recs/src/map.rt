//! The places in the machine of a link's device (IFLA_MAP).

ghost use Rattle.std.proofs.Common.{rules};
ghost use Rattle.std.specs.Prelude.{◌≡◌, ◌≤◌, length};
ghost use Rattle.nla_wire.specs.Payloads.{sized};
ghost use Rattle.nla_wire.specs.Canon.{Filled};
ghost use Rattle.nla_wire.specs.Records.{Parses};
ghost use Rattle.link_recs.specs.MapFields.{map_size, map_of, map_bytes, map_laws};

use nla_wire::fields::{put_bytes, put_u16, put_u64, u8_at, u16_at, u64_at};
use nla_wire::{DecodeError, Exact, Record, RecordBuffer};

/// The number of bytes of a record.
pub const MAP_SIZE: usize = 32;

/// The places in the machine of a link's device (IFLA_MAP).
///
/// `struct rtnl_link_ifmap` of linux/if_link.h, 32 bytes, numbers with the lowest byte first: `memory_start` at 0,
/// `memory_end` at 8 and `base_address` at 16, of eight bytes; `irq` at 24, of two; `dma` at 26 and `port` at 27, of
/// one; then four bytes of padding, which are not read and written as zeros.
#[derive(Clone, Copy, Debug, Default, PartialEq, Eq)]
pub struct Map {
    /// Where the memory of the device begins.
    pub memory_start: u64,
    /// Where the memory of the device ends.
    pub memory_end: u64,
    /// The base address of its ports.
    pub base_address: u64,
    /// The interrupt.
    pub irq: u16,
    /// The channel of direct memory access.
    pub dma: u8,
    /// The kind of port: `IF_PORT_*`.
    pub port: u8,
}

impl Record<MAP_SIZE> for Map {
    ghost of = { map_of };

    ghost bytes = { map_bytes };

    #[inline(always)]
    #[tactic(auto, unfolding(crate::specs::MapFields::map_of))]
    fn read(payload: &[u8]) -> Map {
        Map {
            memory_start: u64_at(payload, 0),
            memory_end: u64_at(payload, 8),
            base_address: u64_at(payload, 16),
            irq: u16_at(payload, 24),
            dma: u8_at(payload, 26),
            port: u8_at(payload, 27),
        }
    }

    #[tactic(auto, unfolding(crate::specs::MapFields::map_bytes))]
    fn write(&self, buffer: &mut [u8]) {
        put_u64(buffer, 0, self.memory_start);
        put_u64(buffer, 8, self.memory_end);
        put_u64(buffer, 16, self.base_address);
        put_u16(buffer, 24, self.irq);
        put_bytes(buffer, 26, &[self.dma, self.port, 0, 0, 0, 0]);
    }

    ghost laws = { map_laws };
}

impl Map {
    /// Reads a record from the front of the payload. A payload of fewer than 32 bytes is refused with `TooShort`.
    pub fn parse(payload: &[u8]) -> Result<Map, DecodeError>
        ensures { Parses (sized map_size map_of) payload.now result }
    {
        Map::parse_sized(payload)
    }

    /// The number of bytes that `emit` writes, 32.
    pub fn buffer_len(&self) -> usize
        ensures { result ≡ map_size }
    {
        MAP_SIZE
    }

    /// Writes the record to a buffer of exactly 32 bytes.
    pub fn emit(&self, buffer: &mut [u8])
        requires { length buffer.old ≡ map_size }
        ensures { buffer.new ≡ map_bytes self.now }
    {
        self.write(buffer);
    }

    /// Writes the record to the end of a buffer of at least 32 bytes, keeps the bytes before it, and returns where it
    /// starts.
    pub fn fill(&self, buffer: &mut [u8]) -> usize
        requires { map_size ≤ length buffer.old }
        ensures { Filled buffer.old buffer.new (map_bytes self.now) result }
    {
        self.fill_back(buffer)
    }
}

impl Exact for Map {
    ghost decides = { Prim.search rules };
}

/// The bytes of a record, `Map`.
pub type MapBuffer = RecordBuffer<Map, MAP_SIZE>;
