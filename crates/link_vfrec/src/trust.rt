//! Whether a virtual function is trusted (IFLA_VF_TRUST).

ghost use Rattle.std.proofs.Common.{rules};
ghost use Rattle.std.specs.Prelude.{◌≡◌, length};
ghost use Rattle.nla_wire.specs.Payloads.{sized};
ghost use Rattle.nla_wire.specs.Records.{Parses};
ghost use Rattle.link_vfrec.specs.Records.{vf_info_trust_size, vf_info_trust_of, vf_info_trust_bytes};
ghost use Rattle.link_vfrec.specs.Laws.{vf_info_trust_laws};

use crate::truth::{is_on, on_number};
use nla_wire::fields::{put_u32, u32_at};
use nla_wire::{DecodeError, Exact, Record, RecordBuffer};

/// The number of bytes of a record.
pub const VF_INFO_TRUST_SIZE: usize = 8;

/// Whether a virtual function is trusted (IFLA_VF_TRUST).
///
/// `struct ifla_vf_trust` of linux/if_link.h, 8 bytes, numbers of four bytes, lowest byte first: `vf_id` at 0; at 4 the
/// setting, where 0 and 4294967295 are off and all else is on. It is written as 0 or 1.
#[derive(Clone, Copy, Debug, Default, PartialEq, Eq)]
pub struct VfInfoTrust {
    /// The number of the function.
    pub vf_id: u32,
    /// Whether it is on.
    pub enabled: bool,
}

impl Record<VF_INFO_TRUST_SIZE> for VfInfoTrust {
    ghost of = { vf_info_trust_of };

    ghost bytes = { vf_info_trust_bytes };

    #[inline(always)]
    #[tactic(auto, unfolding(crate::specs::Records::vf_info_trust_of))]
    fn read(payload: &[u8]) -> VfInfoTrust {
        VfInfoTrust {
            vf_id: u32_at(payload, 0),
            enabled: is_on(u32_at(payload, 4)),
        }
    }

    #[tactic(auto, unfolding(crate::specs::Records::vf_info_trust_bytes))]
    fn write(&self, buffer: &mut [u8]) {
        put_u32(buffer, 0, self.vf_id);
        put_u32(buffer, 4, on_number(self.enabled));
    }

    ghost laws = { vf_info_trust_laws };
}

impl VfInfoTrust {
    /// The record with these fields.
    pub fn new(vf_id: u32, enabled: bool) -> VfInfoTrust
        ensures { result ≡ record { vf_id = vf_id; enabled = enabled } }
    {
        VfInfoTrust { vf_id, enabled }
    }

    /// Reads a record from the front of the payload. A payload of fewer than 8 bytes is refused with `TooShort`.
    pub fn parse(payload: &[u8]) -> Result<VfInfoTrust, DecodeError>
        ensures { Parses (sized vf_info_trust_size vf_info_trust_of) payload.now result }
    {
        VfInfoTrust::parse_sized(payload)
    }

    /// The number of bytes that `emit` writes, 8.
    pub fn buffer_len(&self) -> usize
        ensures { result ≡ vf_info_trust_size }
    {
        VF_INFO_TRUST_SIZE
    }

    /// Writes the record to a buffer of exactly 8 bytes.
    pub fn emit(&self, buffer: &mut [u8])
        requires { length buffer.old ≡ vf_info_trust_size }
        ensures { buffer.new ≡ vf_info_trust_bytes self.now }
    {
        self.write(buffer);
    }
}

impl Exact for VfInfoTrust {
    ghost decides = { Prim.search rules };
}

/// The bytes of a record, `VfInfoTrust`.
pub type VfInfoTrustBuffer = RecordBuffer<VfInfoTrust, VF_INFO_TRUST_SIZE>;
