//! Link states of virtual functions.

ghost use Rattle.std.specs.Prelude.{◌≡◌};
ghost use Rattle.link_vals.specs.VfLinkStateTable.{vf_link_state_of, vf_link_state_number};

use nla_wire::Exact;

/// How the link of a virtual function follows that of its device, four bytes: `IFLA_VF_LINK_STATE_..` of
/// linux/if_link.h.
#[derive(Clone, Copy, Debug, Default, PartialEq, Eq)]
pub enum VfLinkState {
    /// `IFLA_VF_LINK_STATE_AUTO`: as the physical function.
    #[default]
    Auto,
    /// `IFLA_VF_LINK_STATE_ENABLE`: always up.
    Enable,
    /// `IFLA_VF_LINK_STATE_DISABLE`: always down.
    Disable,
    /// A number without a name.
    Other(u32),
}

impl From<u32> for VfLinkState {
    ghost from_gives = { λ n v. v ≡ vf_link_state_of n };

    #[tactic(auto, unfolding(crate::proofs::Opened::vf_link_state))]
    fn from(number: u32) -> VfLinkState {
        match number {
            0 => VfLinkState::Auto,
            1 => VfLinkState::Enable,
            2 => VfLinkState::Disable,
            n => VfLinkState::Other(n),
        }
    }
}

impl From<VfLinkState> for u32 {
    ghost from_gives = { λ v n. n ≡ vf_link_state_number v };

    #[tactic(auto, unfolding(crate::specs::VfLinkStateTable::vf_link_state_number))]
    fn from(value: VfLinkState) -> u32 {
        match value {
            VfLinkState::Auto => 0,
            VfLinkState::Enable => 1,
            VfLinkState::Disable => 2,
            VfLinkState::Other(n) => n,
        }
    }
}

impl Exact for VfLinkState {
    ghost use Rattle.std.proofs.Common.{rules};

    ghost decides = { Prim.search rules };
}
