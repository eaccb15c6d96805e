//! The greatest rate of transmission of a virtual function (IFLA_VF_TX_RATE).

ghost use Rattle.std.proofs.Common.{rules};
ghost use Rattle.std.specs.Prelude.{◌≡◌, length};
ghost use Rattle.nla_wire.specs.Payloads.{sized};
ghost use Rattle.nla_wire.specs.Records.{Parses};
ghost use Rattle.link_vfrec.specs.Records.{vf_info_tx_rate_size, vf_info_tx_rate_of, vf_info_tx_rate_bytes};
ghost use Rattle.link_vfrec.specs.Laws.{vf_info_tx_rate_laws};

use nla_wire::fields::{put_u32, u32_at};
use nla_wire::{DecodeError, Exact, Record, RecordBuffer};

/// The number of bytes of a record.
pub const VF_INFO_TX_RATE_SIZE: usize = 8;

/// The greatest rate of transmission of a virtual function (IFLA_VF_TX_RATE).
///
/// `struct ifla_vf_tx_rate` of linux/if_link.h, 8 bytes, numbers of four bytes, lowest byte first: `vf_id` at 0; `rate`
/// at 4, in megabits a second, where 0 is no bound.
#[derive(Clone, Copy, Debug, Default, PartialEq, Eq)]
pub struct VfInfoTxRate {
    /// The number of the function.
    pub vf_id: u32,
    /// The greatest rate of sending, in Mbit/s; 0 is none.
    pub rate: u32,
}

impl Record<VF_INFO_TX_RATE_SIZE> for VfInfoTxRate {
    ghost of = { vf_info_tx_rate_of };

    ghost bytes = { vf_info_tx_rate_bytes };

    #[inline(always)]
    #[tactic(auto, unfolding(crate::specs::Records::vf_info_tx_rate_of))]
    fn read(payload: &[u8]) -> VfInfoTxRate {
        VfInfoTxRate {
            vf_id: u32_at(payload, 0),
            rate: u32_at(payload, 4),
        }
    }

    #[tactic(auto, unfolding(crate::specs::Records::vf_info_tx_rate_bytes))]
    fn write(&self, buffer: &mut [u8]) {
        put_u32(buffer, 0, self.vf_id);
        put_u32(buffer, 4, self.rate);
    }

    ghost laws = { vf_info_tx_rate_laws };
}

impl VfInfoTxRate {
    /// The record with these fields.
    pub fn new(vf_id: u32, rate: u32) -> VfInfoTxRate
        ensures { result ≡ record { vf_id = vf_id; rate = rate } }
    {
        VfInfoTxRate { vf_id, rate }
    }

    /// Reads a record from the front of the payload. A payload of fewer than 8 bytes is refused with `TooShort`.
    pub fn parse(payload: &[u8]) -> Result<VfInfoTxRate, DecodeError>
        ensures { Parses (sized vf_info_tx_rate_size vf_info_tx_rate_of) payload.now result }
    {
        VfInfoTxRate::parse_sized(payload)
    }

    /// The number of bytes that `emit` writes, 8.
    pub fn buffer_len(&self) -> usize
        ensures { result ≡ vf_info_tx_rate_size }
    {
        VF_INFO_TX_RATE_SIZE
    }

    /// Writes the record to a buffer of exactly 8 bytes.
    pub fn emit(&self, buffer: &mut [u8])
        requires { length buffer.old ≡ vf_info_tx_rate_size }
        ensures { buffer.new ≡ vf_info_tx_rate_bytes self.now }
    {
        self.write(buffer);
    }
}

impl Exact for VfInfoTxRate {
    ghost decides = { Prim.search rules };
}

/// The bytes of a record, `VfInfoTxRate`.
pub type VfInfoTxRateBuffer = RecordBuffer<VfInfoTxRate, VF_INFO_TX_RATE_SIZE>;
