//! Settings of bridges, members of IFLA_AF_SPEC of the family AF_BRIDGE, which are kept undecoded.

use nla_wire::{
    CloneIn, DecodeError, DefaultNla, Exact, Flat, FlatView, Nla, NlaBuffer, NlaRead, write_value,
};
use std::alloc::Global;

/// A member of IFLA_AF_SPEC of the family AF_BRIDGE (linux/if_bridge.h), kept as it is.
#[derive(Debug, Drop, PartialEq, Eq)]
pub enum AfSpecBridge {
    /// An attribute of any number.
    Other(DefaultNla),
}

#[tactic(auto, unfolding(crate::specs::Tables::af_spec_bridge_place))]
impl Flat for AfSpecBridge {
    ghost use Rattle.link_afspec.specs.Tables.{af_spec_bridge_place, af_spec_bridge_small};

    ghost frame = { af_spec_bridge_place.frame };

    ghost fits = { af_spec_bridge_place.Fits };

    ghost is_small = { af_spec_bridge_place.is_small };

    ghost when_small = { af_spec_bridge_small };

    #[inline]
    fn view(&self) -> (u16, FlatView<'_>) {
        let AfSpecBridge::Other(nla) = self;
        (nla.kind(), FlatView::Bytes(nla.value()))
    }
}

impl NlaRead for AfSpecBridge {
    ghost use Rattle.nla_wire.proofs.Codec.{place_bounded};
    ghost use Rattle.link_afspec.specs.Tables.{af_spec_bridge_place};

    ghost grammar = { af_spec_bridge_place.grammar };

    fn kind_name(_kind: u16) -> &'static str {
        ""
    }

    #[tactic(auto, unfolding(crate::specs::Tables::af_spec_bridge_place))]
    fn parse_frame(alloc: Global, buffer: &NlaBuffer<'_>) -> Result<AfSpecBridge, DecodeError> {
        DefaultNla::parse(alloc, buffer).map(AfSpecBridge::Other)
    }

    #[tactic(auto, unfolding(crate::specs::Tables::af_spec_bridge_place))]
    fn check_frame(_buffer: &NlaBuffer<'_>) -> Result<(), DecodeError> {
        Ok(())
    }

    #[inline(always)]
    #[tactic(auto, unfolding(crate::specs::Tables::af_spec_bridge_place))]
    fn measure_frame(buffer: &NlaBuffer<'_>) -> Option<usize> {
        Some(buffer.value().len())
    }

    #[tactic(auto, unfolding(crate::specs::Tables::af_spec_bridge_place))]
    fn write_frame(buffer: &NlaBuffer<'_>, out: &mut [u8]) -> usize {
        write_value(buffer.kind_with_flags(), buffer.value(), out)
    }

    ghost agrees = { af_spec_bridge_place.lawful.agrees };

    ghost no_memory = { af_spec_bridge_place.lawful.no_memory };

    ghost bounded = { place_bounded af_spec_bridge_place };
}

impl CloneIn for AfSpecBridge {
    fn clone_in(&self, alloc: Global) -> Result<AfSpecBridge, DecodeError> {
        let AfSpecBridge::Other(nla) = self;
        nla.clone_in(alloc).map(AfSpecBridge::Other)
    }
}

impl Exact for AfSpecBridge {
    ghost use Rattle.std.proofs.Common.{rules};

    ghost decides = { Prim.search rules };
}
