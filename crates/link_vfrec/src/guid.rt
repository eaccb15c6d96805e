//! A global identifier of a virtual function (IFLA_VF_IB_NODE_GUID, IFLA_VF_IB_PORT_GUID).

ghost use Rattle.std.proofs.Common.{rules};
ghost use Rattle.std.specs.Prelude.{◌≡◌, length};
ghost use Rattle.nla_wire.specs.Payloads.{sized};
ghost use Rattle.nla_wire.specs.Records.{Parses};
ghost use Rattle.link_vfrec.specs.Records.{vf_info_guid_size, vf_info_guid_of, vf_info_guid_bytes};
ghost use Rattle.link_vfrec.specs.Laws.{vf_info_guid_laws};

use nla_wire::fields::{put_bytes, put_u32, put_u64, u32_at, u64_at};
use nla_wire::{DecodeError, Exact, Record, RecordBuffer};

/// The number of bytes of a record.
pub const VF_INFO_GUID_SIZE: usize = 16;

/// A global identifier of a virtual function (IFLA_VF_IB_NODE_GUID, IFLA_VF_IB_PORT_GUID).
///
/// `struct ifla_vf_guid` of linux/if_link.h, 16 bytes, numbers with the lowest byte first: `vf_id` at 0, of four bytes;
/// four bytes of padding, which are not read and written as zeros; `guid` at 8, of eight bytes.
#[derive(Clone, Copy, Debug, Default, PartialEq, Eq)]
pub struct VfInfoGuid {
    /// The number of the function.
    pub vf_id: u32,
    /// The identifier.
    pub guid: u64,
}

impl Record<VF_INFO_GUID_SIZE> for VfInfoGuid {
    ghost of = { vf_info_guid_of };

    ghost bytes = { vf_info_guid_bytes };

    #[inline(always)]
    #[tactic(auto, unfolding(crate::specs::Records::vf_info_guid_of))]
    fn read(payload: &[u8]) -> VfInfoGuid {
        VfInfoGuid {
            vf_id: u32_at(payload, 0),
            guid: u64_at(payload, 8),
        }
    }

    #[tactic(auto, unfolding(crate::specs::Records::vf_info_guid_bytes))]
    fn write(&self, buffer: &mut [u8]) {
        put_u32(buffer, 0, self.vf_id);
        put_bytes(buffer, 4, &[0, 0, 0, 0]);
        put_u64(buffer, 8, self.guid);
    }

    ghost laws = { vf_info_guid_laws };
}

impl VfInfoGuid {
    /// The record with these fields.
    pub fn new(vf_id: u32, guid: u64) -> VfInfoGuid
        ensures { result ≡ record { vf_id = vf_id; guid = guid } }
    {
        VfInfoGuid { vf_id, guid }
    }

    /// Reads a record from the front of the payload. A payload of fewer than 16 bytes is refused with `TooShort`.
    pub fn parse(payload: &[u8]) -> Result<VfInfoGuid, DecodeError>
        ensures { Parses (sized vf_info_guid_size vf_info_guid_of) payload.now result }
    {
        VfInfoGuid::parse_sized(payload)
    }

    /// The number of bytes that `emit` writes, 16.
    pub fn buffer_len(&self) -> usize
        ensures { result ≡ vf_info_guid_size }
    {
        VF_INFO_GUID_SIZE
    }

    /// Writes the record to a buffer of exactly 16 bytes.
    pub fn emit(&self, buffer: &mut [u8])
        requires { length buffer.old ≡ vf_info_guid_size }
        ensures { buffer.new ≡ vf_info_guid_bytes self.now }
    {
        self.write(buffer);
    }
}

impl Exact for VfInfoGuid {
    ghost decides = { Prim.search rules };
}

/// The bytes of a record, `VfInfoGuid`.
pub type VfInfoGuidBuffer = RecordBuffer<VfInfoGuid, VF_INFO_GUID_SIZE>;
