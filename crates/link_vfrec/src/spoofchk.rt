//! Whether source addresses of a virtual function are checked (IFLA_VF_SPOOFCHK).

ghost use Rattle.std.proofs.Common.{rules};
ghost use Rattle.std.specs.Prelude.{◌≡◌, length};
ghost use Rattle.nla_wire.specs.Payloads.{sized};
ghost use Rattle.nla_wire.specs.Records.{Parses};
ghost use Rattle.link_vfrec.specs.Records.{vf_info_spoof_check_size, vf_info_spoof_check_of, vf_info_spoof_check_bytes};
ghost use Rattle.link_vfrec.specs.Laws.{vf_info_spoof_check_laws};

use crate::truth::{is_on, on_number};
use nla_wire::fields::{put_u32, u32_at};
use nla_wire::{DecodeError, Exact, Record, RecordBuffer};

/// The number of bytes of a record.
pub const VF_INFO_SPOOF_CHECK_SIZE: usize = 8;

/// Whether source addresses of a virtual function are checked (IFLA_VF_SPOOFCHK).
///
/// `struct ifla_vf_spoofchk` of linux/if_link.h, 8 bytes, numbers of four bytes, lowest byte first: `vf_id` at 0; at 4
/// the setting, where 0 and 4294967295 are off and all else is on. It is written as 0 or 1.
#[derive(Clone, Copy, Debug, Default, PartialEq, Eq)]
pub struct VfInfoSpoofCheck {
    /// The number of the function.
    pub vf_id: u32,
    /// Whether it is on.
    pub enabled: bool,
}

impl Record<VF_INFO_SPOOF_CHECK_SIZE> for VfInfoSpoofCheck {
    ghost of = { vf_info_spoof_check_of };

    ghost bytes = { vf_info_spoof_check_bytes };

    #[inline(always)]
    #[tactic(auto, unfolding(crate::specs::Records::vf_info_spoof_check_of))]
    fn read(payload: &[u8]) -> VfInfoSpoofCheck {
        VfInfoSpoofCheck {
            vf_id: u32_at(payload, 0),
            enabled: is_on(u32_at(payload, 4)),
        }
    }

    #[tactic(auto, unfolding(crate::specs::Records::vf_info_spoof_check_bytes))]
    fn write(&self, buffer: &mut [u8]) {
        put_u32(buffer, 0, self.vf_id);
        put_u32(buffer, 4, on_number(self.enabled));
    }

    ghost laws = { vf_info_spoof_check_laws };
}

impl VfInfoSpoofCheck {
    /// The record with these fields.
    pub fn new(vf_id: u32, enabled: bool) -> VfInfoSpoofCheck
        ensures { result ≡ record { vf_id = vf_id; enabled = enabled } }
    {
        VfInfoSpoofCheck { vf_id, enabled }
    }

    /// Reads a record from the front of the payload. A payload of fewer than 8 bytes is refused with `TooShort`.
    pub fn parse(payload: &[u8]) -> Result<VfInfoSpoofCheck, DecodeError>
        ensures { Parses (sized vf_info_spoof_check_size vf_info_spoof_check_of)
            payload.now result }
    {
        VfInfoSpoofCheck::parse_sized(payload)
    }

    /// The number of bytes that `emit` writes, 8.
    pub fn buffer_len(&self) -> usize
        ensures { result ≡ vf_info_spoof_check_size }
    {
        VF_INFO_SPOOF_CHECK_SIZE
    }

    /// Writes the record to a buffer of exactly 8 bytes.
    pub fn emit(&self, buffer: &mut [u8])
        requires { length buffer.old ≡ vf_info_spoof_check_size }
        ensures { buffer.new ≡ vf_info_spoof_check_bytes self.now }
    {
        self.write(buffer);
    }
}

impl Exact for VfInfoSpoofCheck {
    ghost decides = { Prim.search rules };
}

/// The bytes of a record, `VfInfoSpoofCheck`.
pub type VfInfoSpoofCheckBuffer = RecordBuffer<VfInfoSpoofCheck, VF_INFO_SPOOF_CHECK_SIZE>;
