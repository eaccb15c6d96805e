//! How the link of a virtual function follows that of its device (IFLA_VF_LINK_STATE).

ghost use Rattle.std.proofs.Common.{rules};
ghost use Rattle.std.specs.Prelude.{◌≡◌, length};
ghost use Rattle.nla_wire.specs.Payloads.{sized};
ghost use Rattle.nla_wire.specs.Records.{Parses};
ghost use Rattle.link_vfrec.specs.Records.{vf_info_link_state_size, vf_info_link_state_of, vf_info_link_state_bytes};
ghost use Rattle.link_vfrec.specs.Laws.{vf_info_link_state_laws};

use link_vals::VfLinkState;
use nla_wire::fields::{put_u32, u32_at};
use nla_wire::{DecodeError, Exact, Record, RecordBuffer};

/// The number of bytes of a record.
pub const VF_INFO_LINK_STATE_SIZE: usize = 8;

/// How the link of a virtual function follows that of its device (IFLA_VF_LINK_STATE).
///
/// `struct ifla_vf_link_state` of linux/if_link.h, 8 bytes, numbers of four bytes, lowest byte first: `vf_id` at 0; the
/// number of `state` at 4.
#[derive(Clone, Copy, Debug, Default, PartialEq, Eq)]
pub struct VfInfoLinkState {
    /// The number of the function.
    pub vf_id: u32,
    /// The state.
    pub state: VfLinkState,
}

impl Record<VF_INFO_LINK_STATE_SIZE> for VfInfoLinkState {
    ghost of = { vf_info_link_state_of };

    ghost bytes = { vf_info_link_state_bytes };

    #[inline(always)]
    #[tactic(auto, unfolding(crate::specs::Records::vf_info_link_state_of))]
    fn read(payload: &[u8]) -> VfInfoLinkState {
        VfInfoLinkState {
            vf_id: u32_at(payload, 0),
            state: VfLinkState::from(u32_at(payload, 4)),
        }
    }

    #[tactic(auto, unfolding(crate::specs::Records::vf_info_link_state_bytes))]
    fn write(&self, buffer: &mut [u8]) {
        put_u32(buffer, 0, self.vf_id);
        put_u32(buffer, 4, u32::from(self.state));
    }

    ghost laws = { vf_info_link_state_laws };
}

impl VfInfoLinkState {
    /// The record with these fields.
    pub fn new(vf_id: u32, state: VfLinkState) -> VfInfoLinkState
        ensures { result ≡ record { vf_id = vf_id; state = state } }
    {
        VfInfoLinkState { vf_id, state }
    }

    /// Reads a record from the front of the payload. A payload of fewer than 8 bytes is refused with `TooShort`.
    pub fn parse(payload: &[u8]) -> Result<VfInfoLinkState, DecodeError>
        ensures { Parses (sized vf_info_link_state_size vf_info_link_state_of) payload.now result }
    {
        VfInfoLinkState::parse_sized(payload)
    }

    /// The number of bytes that `emit` writes, 8.
    pub fn buffer_len(&self) -> usize
        ensures { result ≡ vf_info_link_state_size }
    {
        VF_INFO_LINK_STATE_SIZE
    }

    /// Writes the record to a buffer of exactly 8 bytes.
    pub fn emit(&self, buffer: &mut [u8])
        requires { length buffer.old ≡ vf_info_link_state_size }
        ensures { buffer.new ≡ vf_info_link_state_bytes self.now }
    {
        self.write(buffer);
    }
}

impl Exact for VfInfoLinkState {
    ghost decides = { Prim.search rules };
}

/// The bytes of a record, `VfInfoLinkState`.
pub type VfInfoLinkStateBuffer = RecordBuffer<VfInfoLinkState, VF_INFO_LINK_STATE_SIZE>;
