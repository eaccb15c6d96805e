//! The bounds of the rate of transmission of a virtual function (IFLA_VF_RATE).

ghost use Rattle.std.proofs.Common.{rules};
ghost use Rattle.std.specs.Prelude.{◌≡◌, length};
ghost use Rattle.nla_wire.specs.Payloads.{sized};
ghost use Rattle.nla_wire.specs.Records.{Parses};
ghost use Rattle.link_vfrec.specs.Records.{vf_info_rate_size, vf_info_rate_of, vf_info_rate_bytes};
ghost use Rattle.link_vfrec.specs.Laws.{vf_info_rate_laws};

use nla_wire::fields::{put_u32, u32_at};
use nla_wire::{DecodeError, Exact, Record, RecordBuffer};

/// The number of bytes of a record.
pub const VF_INFO_RATE_SIZE: usize = 12;

/// The bounds of the rate of transmission of a virtual function (IFLA_VF_RATE).
///
/// `struct ifla_vf_rate` of linux/if_link.h, 12 bytes, numbers of four bytes, lowest byte first: `vf_id` at 0;
/// `min_tx_rate` at 4 and `max_tx_rate` at 8, in megabits a second.
#[derive(Clone, Copy, Debug, Default, PartialEq, Eq)]
pub struct VfInfoRate {
    /// The number of the function.
    pub vf_id: u32,
    /// The least rate of sending, in Mbit/s; 0 is none.
    pub min_tx_rate: u32,
    /// The greatest rate of sending, in Mbit/s; 0 is none.
    pub max_tx_rate: u32,
}

impl Record<VF_INFO_RATE_SIZE> for VfInfoRate {
    ghost of = { vf_info_rate_of };

    ghost bytes = { vf_info_rate_bytes };

    #[inline(always)]
    #[tactic(auto, unfolding(crate::specs::Records::vf_info_rate_of))]
    fn read(payload: &[u8]) -> VfInfoRate {
        VfInfoRate {
            vf_id: u32_at(payload, 0),
            min_tx_rate: u32_at(payload, 4),
            max_tx_rate: u32_at(payload, 8),
        }
    }

    #[tactic(auto, unfolding(crate::specs::Records::vf_info_rate_bytes))]
    fn write(&self, buffer: &mut [u8]) {
        put_u32(buffer, 0, self.vf_id);
        put_u32(buffer, 4, self.min_tx_rate);
        put_u32(buffer, 8, self.max_tx_rate);
    }

    ghost laws = { vf_info_rate_laws };
}

impl VfInfoRate {
    /// The record with these fields.
    pub fn new(vf_id: u32, min_tx_rate: u32, max_tx_rate: u32) -> VfInfoRate
        ensures { result
            ≡ record { vf_id = vf_id; min_tx_rate = min_tx_rate; max_tx_rate = max_tx_rate } }
    {
        VfInfoRate {
            vf_id,
            min_tx_rate,
            max_tx_rate,
        }
    }

    /// Reads a record from the front of the payload. A payload of fewer than 12 bytes is refused with `TooShort`.
    pub fn parse(payload: &[u8]) -> Result<VfInfoRate, DecodeError>
        ensures { Parses (sized vf_info_rate_size vf_info_rate_of) payload.now result }
    {
        VfInfoRate::parse_sized(payload)
    }

    /// The number of bytes that `emit` writes, 12.
    pub fn buffer_len(&self) -> usize
        ensures { result ≡ vf_info_rate_size }
    {
        VF_INFO_RATE_SIZE
    }

    /// Writes the record to a buffer of exactly 12 bytes.
    pub fn emit(&self, buffer: &mut [u8])
        requires { length buffer.old ≡ vf_info_rate_size }
        ensures { buffer.new ≡ vf_info_rate_bytes self.now }
    {
        self.write(buffer);
    }
}

impl Exact for VfInfoRate {
    ghost decides = { Prim.search rules };
}

/// The bytes of a record, `VfInfoRate`.
pub type VfInfoRateBuffer = RecordBuffer<VfInfoRate, VF_INFO_RATE_SIZE>;
