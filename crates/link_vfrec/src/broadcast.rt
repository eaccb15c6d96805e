//! The broadcast address of a virtual function (IFLA_VF_BROADCAST).

ghost use Rattle.std.proofs.Common.{rules};
ghost use Rattle.std.specs.Prelude.{◌≡◌, length};
ghost use Rattle.nla_wire.specs.Fields.{zero_filled};
ghost use Rattle.nla_wire.specs.Payloads.{sized};
ghost use Rattle.nla_wire.specs.Records.{Parses};
ghost use Rattle.link_vfrec.specs.Records.{vf_info_broadcast_size, vf_info_broadcast_of, vf_info_broadcast_bytes};
ghost use Rattle.link_vfrec.specs.Laws.{vf_info_broadcast_laws};

use nla_wire::fields::{bytes_32_at, put_bytes, zero_filled_32};
use nla_wire::{DecodeError, Exact, Record, RecordBuffer};

/// The number of bytes of a record.
pub const VF_INFO_BROADCAST_SIZE: usize = 32;

/// The broadcast address of a virtual function (IFLA_VF_BROADCAST).
///
/// `struct ifla_vf_broadcast` of linux/if_link.h, 32 bytes: the address at 0, with zeros after a shorter one.
#[derive(Clone, Copy, Debug, Default, PartialEq, Eq)]
pub struct VfInfoBroadcast {
    /// The broadcast address, and zeros after it.
    pub addr: [u8; 32],
}

impl Record<VF_INFO_BROADCAST_SIZE> for VfInfoBroadcast {
    ghost of = { vf_info_broadcast_of };

    ghost bytes = { vf_info_broadcast_bytes };

    #[inline(always)]
    #[tactic(auto, unfolding(crate::specs::Records::vf_info_broadcast_of))]
    fn read(payload: &[u8]) -> VfInfoBroadcast {
        VfInfoBroadcast {
            addr: bytes_32_at(payload, 0),
        }
    }

    #[tactic(auto, unfolding(crate::specs::Records::vf_info_broadcast_bytes))]
    fn write(&self, buffer: &mut [u8]) {
        put_bytes(buffer, 0, &self.addr);
    }

    ghost laws = { vf_info_broadcast_laws };
}

impl VfInfoBroadcast {
    /// The record with these fields: an address is cut to 32 bytes, or zeros follow it.
    pub fn new(addr: &[u8]) -> VfInfoBroadcast
        ensures { result ≡ record { addr = zero_filled 32 addr.now } }
    {
        VfInfoBroadcast {
            addr: zero_filled_32(addr),
        }
    }

    /// Reads a record from the front of the payload. A payload of fewer than 32 bytes is refused with `TooShort`.
    pub fn parse(payload: &[u8]) -> Result<VfInfoBroadcast, DecodeError>
        ensures { Parses (sized vf_info_broadcast_size vf_info_broadcast_of) payload.now result }
    {
        VfInfoBroadcast::parse_sized(payload)
    }

    /// The number of bytes that `emit` writes, 32.
    pub fn buffer_len(&self) -> usize
        ensures { result ≡ vf_info_broadcast_size }
    {
        VF_INFO_BROADCAST_SIZE
    }

    /// Writes the record to a buffer of exactly 32 bytes.
    pub fn emit(&self, buffer: &mut [u8])
        requires { length buffer.old ≡ vf_info_broadcast_size }
        ensures { buffer.new ≡ vf_info_broadcast_bytes self.now }
    {
        self.write(buffer);
    }
}

impl Exact for VfInfoBroadcast {
    ghost decides = { Prim.search rules };
}

/// The bytes of a record, `VfInfoBroadcast`.
pub type VfInfoBroadcastBuffer = RecordBuffer<VfInfoBroadcast, VF_INFO_BROADCAST_SIZE>;
