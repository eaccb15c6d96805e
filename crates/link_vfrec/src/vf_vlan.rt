//! One vlan of a virtual function (IFLA_VF_VLAN_INFO).

ghost use Rattle.std.proofs.Common.{rules};
ghost use Rattle.std.specs.Prelude.{◌≡◌, length};
ghost use Rattle.nla_wire.specs.Payloads.{sized};
ghost use Rattle.nla_wire.specs.Records.{Parses};
ghost use Rattle.link_vfrec.specs.Records.{vf_vlan_info_size, vf_vlan_info_of, vf_vlan_info_bytes};
ghost use Rattle.link_vfrec.specs.Laws.{vf_vlan_info_laws};

use link_vals::VlanProtocol;
use nla_wire::fields::{be16_at, put_be16, put_bytes, put_u32, u32_at};
use nla_wire::{DecodeError, Exact, Record, RecordBuffer};

/// The number of bytes of a record.
pub const VF_VLAN_INFO_SIZE: usize = 16;

/// One vlan of a virtual function (IFLA_VF_VLAN_INFO).
///
/// `struct ifla_vf_vlan_info` of linux/if_link.h, 16 bytes: `vf_id` at 0, `vlan_id` at 4, 0 to 4095, where 0 turns the
/// filter off, and `qos` at 8, of four bytes, lowest byte first; the number of `protocol` at 12, of two bytes, highest
/// byte first; two bytes of padding, which are not read and written as zeros.
#[derive(Clone, Copy, Debug, Default, PartialEq, Eq)]
pub struct VfVlanInfo {
    /// The number of the function.
    pub vf_id: u32,
    /// The vlan, 1 to 4095; 0 is none.
    pub vlan_id: u32,
    /// The priority of the vlan, 0 to 7.
    pub qos: u32,
    /// The protocol of the vlan.
    pub protocol: VlanProtocol,
}

impl Record<VF_VLAN_INFO_SIZE> for VfVlanInfo {
    ghost of = { vf_vlan_info_of };

    ghost bytes = { vf_vlan_info_bytes };

    #[inline(always)]
    #[tactic(auto, unfolding(crate::specs::Records::vf_vlan_info_of))]
    fn read(payload: &[u8]) -> VfVlanInfo {
        VfVlanInfo {
            vf_id: u32_at(payload, 0),
            vlan_id: u32_at(payload, 4),
            qos: u32_at(payload, 8),
            protocol: VlanProtocol::from(be16_at(payload, 12)),
        }
    }

    #[tactic(auto, unfolding(crate::specs::Records::vf_vlan_info_bytes))]
    fn write(&self, buffer: &mut [u8]) {
        put_u32(buffer, 0, self.vf_id);
        put_u32(buffer, 4, self.vlan_id);
        put_u32(buffer, 8, self.qos);
        put_be16(buffer, 12, u16::from(self.protocol));
        put_bytes(buffer, 14, &[0, 0]);
    }

    ghost laws = { vf_vlan_info_laws };
}

impl VfVlanInfo {
    /// The record with these fields.
    pub fn new(vf_id: u32, vlan_id: u32, qos: u32, protocol: VlanProtocol) -> VfVlanInfo
        ensures { result
            ≡ record { vf_id = vf_id; vlan_id = vlan_id; qos = qos; protocol = protocol } }
    {
        VfVlanInfo {
            vf_id,
            vlan_id,
            qos,
            protocol,
        }
    }

    /// Reads a record from the front of the payload. A payload of fewer than 16 bytes is refused with `TooShort`.
    pub fn parse(payload: &[u8]) -> Result<VfVlanInfo, DecodeError>
        ensures { Parses (sized vf_vlan_info_size vf_vlan_info_of) payload.now result }
    {
        VfVlanInfo::parse_sized(payload)
    }

    /// The number of bytes that `emit` writes, 16.
    pub fn buffer_len(&self) -> usize
        ensures { result ≡ vf_vlan_info_size }
    {
        VF_VLAN_INFO_SIZE
    }

    /// Writes the record to a buffer of exactly 16 bytes.
    #[tactic(auto, unfolding(crate::specs::Records::vf_vlan_info_bytes))]
    pub fn emit(&self, buffer: &mut [u8])
        requires { length buffer.old ≡ vf_vlan_info_size }
        ensures { buffer.new ≡ vf_vlan_info_bytes self.now }
    {
        buffer.copy_from_slice(VfVlanInfoBuffer::from(self).as_bytes());
    }
}

impl Exact for VfVlanInfo {
    ghost decides = { Prim.search rules };
}

/// The bytes of a record, `VfVlanInfo`.
type VfVlanInfoBuffer = RecordBuffer<VfVlanInfo, VF_VLAN_INFO_SIZE>;
