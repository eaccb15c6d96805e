//! What is said of a port, members of IFLA_VF_PORT and of IFLA_PORT_SELF.

use nla_wire::{
    CloneIn, DecodeError, DefaultNla, Exact, Flat, FlatView, Nla, NlaBuffer, NlaRead, write_value,
};
use std::alloc::Global;

/// A member of IFLA_VF_PORT (linux/if_link.h).
#[derive(Debug, Drop, PartialEq, Eq)]
pub enum VfPort {
    /// No number is listed: each is kept as it is.
    Other(DefaultNla),
}

#[tactic(auto, unfolding(crate::specs::Tables::vf_port_place))]
impl Flat for VfPort {
    ghost use Rattle.link_vf.specs.Tables.{vf_port_place, vf_port_small};

    ghost frame = { vf_port_place.frame };

    ghost fits = { vf_port_place.Fits };

    ghost is_small = { vf_port_place.is_small };

    ghost when_small = { vf_port_small };

    #[inline]
    fn view(&self) -> (u16, FlatView<'_>) {
        match self {
            VfPort::Other(nla) => (nla.kind(), FlatView::Bytes(nla.value())),
        }
    }
}

impl NlaRead for VfPort {
    ghost use Rattle.nla_wire.proofs.Codec.{place_bounded};
    ghost use Rattle.link_vf.specs.Tables.{vf_port_place};

    ghost grammar = { vf_port_place.grammar };

    fn kind_name(_kind: u16) -> &'static str {
        ""
    }

    #[tactic(auto, unfolding(crate::specs::Tables::vf_port_place))]
    fn parse_frame(alloc: Global, buffer: &NlaBuffer<'_>) -> Result<VfPort, DecodeError> {
        DefaultNla::parse(alloc, buffer).map(VfPort::Other)
    }

    #[tactic(auto, unfolding(crate::specs::Tables::vf_port_place))]
    fn check_frame(_buffer: &NlaBuffer<'_>) -> Result<(), DecodeError> {
        Ok(())
    }

    #[inline(always)]
    #[tactic(auto, unfolding(crate::specs::Tables::vf_port_place))]
    fn measure_frame(buffer: &NlaBuffer<'_>) -> Option<usize> {
        Some(buffer.value().len())
    }

    #[tactic(auto, unfolding(crate::specs::Tables::vf_port_place))]
    fn write_frame(buffer: &NlaBuffer<'_>, out: &mut [u8]) -> usize {
        write_value(buffer.kind_with_flags(), buffer.value(), out)
    }

    ghost agrees = { vf_port_place.lawful.agrees };

    ghost no_memory = { vf_port_place.lawful.no_memory };

    ghost bounded = { place_bounded vf_port_place };
}

impl CloneIn for VfPort {
    fn clone_in(&self, alloc: Global) -> Result<VfPort, DecodeError> {
        match self {
            VfPort::Other(nla) => nla.clone_in(alloc).map(VfPort::Other),
        }
    }
}

impl Exact for VfPort {
    ghost use Rattle.std.proofs.Common.{rules};

    ghost decides = { Prim.search rules };
}
