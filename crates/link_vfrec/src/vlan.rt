//! The vlan of a virtual function (IFLA_VF_VLAN).

ghost use Rattle.std.proofs.Common.{rules};
ghost use Rattle.std.specs.Prelude.{◌≡◌, length};
ghost use Rattle.nla_wire.specs.Payloads.{sized};
ghost use Rattle.nla_wire.specs.Records.{Parses};
ghost use Rattle.link_vfrec.specs.Records.{vf_info_vlan_size, vf_info_vlan_of, vf_info_vlan_bytes};
ghost use Rattle.link_vfrec.specs.Laws.{vf_info_vlan_laws};

use nla_wire::fields::{put_u32, u32_at};
use nla_wire::{DecodeError, Exact, Record, RecordBuffer};

/// The number of bytes of a record.
pub const VF_INFO_VLAN_SIZE: usize = 12;

/// The vlan of a virtual function (IFLA_VF_VLAN).
///
/// `struct ifla_vf_vlan` of linux/if_link.h, 12 bytes, numbers of four bytes, lowest byte first: `vf_id` at 0;
/// `vlan_id` at 4, 0 to 4095, where 0 turns the filter off; `qos` at 8.
#[derive(Clone, Copy, Debug, Default, PartialEq, Eq)]
pub struct VfInfoVlan {
    /// The number of the function.
    pub vf_id: u32,
    /// The vlan, 1 to 4095; 0 is none.
    pub vlan_id: u32,
    /// The priority of the vlan, 0 to 7.
    pub qos: u32,
}

impl Record<VF_INFO_VLAN_SIZE> for VfInfoVlan {
    ghost of = { vf_info_vlan_of };

    ghost bytes = { vf_info_vlan_bytes };

    #[inline(always)]
    #[tactic(auto, unfolding(crate::specs::Records::vf_info_vlan_of))]
    fn read(payload: &[u8]) -> VfInfoVlan {
        VfInfoVlan {
            vf_id: u32_at(payload, 0),
            vlan_id: u32_at(payload, 4),
            qos: u32_at(payload, 8),
        }
    }

    #[tactic(auto, unfolding(crate::specs::Records::vf_info_vlan_bytes))]
    fn write(&self, buffer: &mut [u8]) {
        put_u32(buffer, 0, self.vf_id);
        put_u32(buffer, 4, self.vlan_id);
        put_u32(buffer, 8, self.qos);
    }

    ghost laws = { vf_info_vlan_laws };
}

impl VfInfoVlan {
    /// The record with these fields.
    pub fn new(vf_id: u32, vlan_id: u32, qos: u32) -> VfInfoVlan
        ensures { result ≡ record { vf_id = vf_id; vlan_id = vlan_id; qos = qos } }
    {
        VfInfoVlan {
            vf_id,
            vlan_id,
            qos,
        }
    }

    /// Reads a record from the front of the payload. A payload of fewer than 12 bytes is refused with `TooShort`.
    pub fn parse(payload: &[u8]) -> Result<VfInfoVlan, DecodeError>
        ensures { Parses (sized vf_info_vlan_size vf_info_vlan_of) payload.now result }
    {
        VfInfoVlan::parse_sized(payload)
    }

    /// The number of bytes that `emit` writes, 12.
    pub fn buffer_len(&self) -> usize
        ensures { result ≡ vf_info_vlan_size }
    {
        VF_INFO_VLAN_SIZE
    }

    /// Writes the record to a buffer of exactly 12 bytes.
    pub fn emit(&self, buffer: &mut [u8])
        requires { length buffer.old ≡ vf_info_vlan_size }
        ensures { buffer.new ≡ vf_info_vlan_bytes self.now }
    {
        self.write(buffer);
    }
}

impl Exact for VfInfoVlan {
    ghost decides = { Prim.search rules };
}

/// The bytes of a record, `VfInfoVlan`.
pub type VfInfoVlanBuffer = RecordBuffer<VfInfoVlan, VF_INFO_VLAN_SIZE>;
