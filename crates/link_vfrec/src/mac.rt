//! The hardware address of a virtual function (IFLA_VF_MAC).

ghost use Rattle.std.proofs.Common.{rules};
ghost use Rattle.std.specs.Prelude.{◌≡◌, length};
ghost use Rattle.nla_wire.specs.Fields.{zero_filled};
ghost use Rattle.nla_wire.specs.Payloads.{sized};
ghost use Rattle.nla_wire.specs.Records.{Parses};
ghost use Rattle.link_vfrec.specs.Records.{vf_info_mac_size, vf_info_mac_of, vf_info_mac_bytes};
ghost use Rattle.link_vfrec.specs.Laws.{vf_info_mac_laws};

use nla_wire::fields::{bytes_32_at, put_bytes, put_u32, u32_at, zero_filled_32};
use nla_wire::{DecodeError, Exact, Record, RecordBuffer};

/// The number of bytes of a record.
pub const VF_INFO_MAC_SIZE: usize = 36;

/// The hardware address of a virtual function (IFLA_VF_MAC).
///
/// `struct ifla_vf_mac` of linux/if_link.h, 36 bytes: `vf_id` at 0, of four bytes, lowest byte first; the address at 4,
/// of 32 bytes, with zeros after a shorter one.
#[derive(Clone, Copy, Debug, Default, PartialEq, Eq)]
pub struct VfInfoMac {
    /// The number of the function.
    pub vf_id: u32,
    /// The hardware address, and zeros after it.
    pub mac: [u8; 32],
}

impl Record<VF_INFO_MAC_SIZE> for VfInfoMac {
    ghost of = { vf_info_mac_of };

    ghost bytes = { vf_info_mac_bytes };

    #[inline(always)]
    #[tactic(auto, unfolding(crate::specs::Records::vf_info_mac_of))]
    fn read(payload: &[u8]) -> VfInfoMac {
        VfInfoMac {
            vf_id: u32_at(payload, 0),
            mac: bytes_32_at(payload, 4),
        }
    }

    #[tactic(auto, unfolding(crate::specs::Records::vf_info_mac_bytes))]
    fn write(&self, buffer: &mut [u8]) {
        put_u32(buffer, 0, self.vf_id);
        put_bytes(buffer, 4, &self.mac);
    }

    ghost laws = { vf_info_mac_laws };
}

impl VfInfoMac {
    /// The record with these fields: an address is cut to 32 bytes, or zeros follow it.
    pub fn new(vf_id: u32, mac: &[u8]) -> VfInfoMac
        ensures { result ≡ record { vf_id = vf_id; mac = zero_filled 32 mac.now } }
    {
        VfInfoMac {
            vf_id,
            mac: zero_filled_32(mac),
        }
    }

    /// Reads a record from the front of the payload. A payload of fewer than 36 bytes is refused with `TooShort`.
    pub fn parse(payload: &[u8]) -> Result<VfInfoMac, DecodeError>
        ensures { Parses (sized vf_info_mac_size vf_info_mac_of) payload.now result }
    {
        VfInfoMac::parse_sized(payload)
    }

    /// The number of bytes that `emit` writes, 36.
    pub fn buffer_len(&self) -> usize
        ensures { result ≡ vf_info_mac_size }
    {
        VF_INFO_MAC_SIZE
    }

    /// Writes the record to a buffer of exactly 36 bytes.
    pub fn emit(&self, buffer: &mut [u8])
        requires { length buffer.old ≡ vf_info_mac_size }
        ensures { buffer.new ≡ vf_info_mac_bytes self.now }
    {
        self.write(buffer);
    }
}

impl Exact for VfInfoMac {
    ghost decides = { Prim.search rules };
}

/// The bytes of a record, `VfInfoMac`.
pub type VfInfoMacBuffer = RecordBuffer<VfInfoMac, VF_INFO_MAC_SIZE>;
