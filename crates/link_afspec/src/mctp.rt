//! Settings of MCTP on a link, members of AF_MCTP in IFLA_AF_SPEC.

ghost use Rattle.std.specs.Prelude.{◌≡◌};
ghost use Rattle.nla_wire.specs.Gives.{without_place};
ghost use Rattle.link_afspec.specs.Tables.{phys_binding};

use crate::numbers::*;
use link_vals::MctpPhysBinding;
use nla_wire::{
    CloneIn, DecodeError, DefaultNla, Exact, Flat, FlatView, Nla, NlaBuffer, NlaRead, parse_u8,
    rows,
};
use std::alloc::Global;

/// A member of AF_MCTP in IFLA_AF_SPEC (linux/if_link.h).
#[derive(Debug, Drop, PartialEq, Eq)]
pub enum AfSpecMctp {
    /// IFLA_MCTP_NET: the number of the network, four bytes.
    Net(u32),
    /// IFLA_MCTP_PHYS_BINDING: the physical binding, one byte.
    PhysBinding(MctpPhysBinding),
    /// A number that is not listed here.
    Other(DefaultNla),
}

/// A physical binding, one byte.
fn parse_binding(payload: &[u8]) -> Result<MctpPhysBinding, DecodeError>
    ensures { without_place result ≡ phys_binding.grammar.reads payload.now }
{
    parse_u8(payload).map(MctpPhysBinding::from)
}

/// A row for each member that is listed, in their order.
macro_rules! members {
    ($($call:tt)*) => {
        rows! { ($($call)*)
            plain Net(u32, IFLA_MCTP_NET)
            named PhysBinding(u8, IFLA_MCTP_PHYS_BINDING, parse_binding)
        }
    };
}

#[tactic(auto, unfolding(crate::specs::Tables::af_spec_mctp_place))]
impl Flat for AfSpecMctp {
    ghost use Rattle.link_afspec.specs.Tables.{af_spec_mctp_place, af_spec_mctp_small};

    ghost frame = { af_spec_mctp_place.frame };

    ghost fits = { af_spec_mctp_place.Fits };

    ghost is_small = { af_spec_mctp_place.is_small };

    ghost when_small = { af_spec_mctp_small };

    #[inline]
    fn view(&self) -> (u16, FlatView<'_>) {
        members!(view AfSpecMctp, self)
    }
}

impl NlaRead for AfSpecMctp {
    ghost use Rattle.link_afspec.specs.Tables.{af_spec_mctp_place};
    ghost use Rattle.nla_wire.proofs.Codec.{place_bounded};

    ghost grammar = { af_spec_mctp_place.grammar };

    fn kind_name(kind: u16) -> &'static str {
        members!(name kind)
    }

    #[tactic(auto, unfolding(crate::specs::Tables::af_spec_mctp_place))]
    fn parse_frame(alloc: Global, buffer: &NlaBuffer<'_>) -> Result<AfSpecMctp, DecodeError> {
        members!(parse AfSpecMctp, alloc, buffer)
    }

    #[tactic(auto, unfolding(crate::specs::Tables::af_spec_mctp_place))]
    fn check_frame(buffer: &NlaBuffer<'_>) -> Result<(), DecodeError> {
        members!(check buffer)
    }

    #[inline(always)]
    #[tactic(auto, unfolding(crate::proofs::Opened::mctp), using(link_vals::proofs::Numbers::mctp_phys_binding_again))]
    fn measure_frame(buffer: &NlaBuffer<'_>) -> Option<usize> {
        members!(measure buffer)
    }

    #[tactic(auto, unfolding(crate::proofs::Opened::mctp), using(link_vals::proofs::Numbers::mctp_phys_binding_again))]
    fn write_frame(buffer: &NlaBuffer<'_>, out: &mut [u8]) -> usize {
        members!(write buffer, out)
    }

    ghost agrees = { af_spec_mctp_place.lawful.agrees };

    ghost no_memory = { af_spec_mctp_place.lawful.no_memory };

    ghost bounded = { place_bounded af_spec_mctp_place };
}

impl CloneIn for AfSpecMctp {
    fn clone_in(&self, alloc: Global) -> Result<AfSpecMctp, DecodeError> {
        members!(copy AfSpecMctp, self, alloc)
    }
}

impl Exact for AfSpecMctp {
    ghost use Rattle.std.proofs.Common.{rules};

    ghost decides = { Prim.search rules };
}
