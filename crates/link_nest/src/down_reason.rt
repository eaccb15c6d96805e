//! Why a protocol holds an interface down, members of IFLA_PROTO_DOWN_REASON.

use crate::numbers::*;
use nla_wire::{
    CloneIn, DecodeError, DefaultNla, Exact, Flat, FlatView, Nla, NlaBuffer, NlaRead, rows,
};
use std::alloc::Global;

/// A member of IFLA_PROTO_DOWN_REASON (linux/if_link.h).
#[derive(Debug, Drop, PartialEq, Eq)]
pub enum LinkProtocolDownReason {
    /// IFLA_PROTO_DOWN_REASON_MASK: which reasons are meant, four bytes.
    Mask(u32),
    /// IFLA_PROTO_DOWN_REASON_VALUE: the reasons, four bytes.
    Value(u32),
    /// A number that is not listed here.
    Other(DefaultNla),
}

/// A row for each member that is listed, in their order.
macro_rules! members {
    ($($call:tt)*) => {
        rows! { ($($call)*)
            plain Mask(u32, IFLA_PROTO_DOWN_REASON_MASK)
            plain Value(u32, IFLA_PROTO_DOWN_REASON_VALUE)
        }
    };
}

#[tactic(auto, unfolding(crate::specs::Tables::down_reason_place))]
impl Flat for LinkProtocolDownReason {
    ghost use Rattle.link_nest.specs.Tables.{down_reason_place, down_reason_small};

    ghost frame = { down_reason_place.frame };

    ghost fits = { down_reason_place.Fits };

    ghost is_small = { down_reason_place.is_small };

    ghost when_small = { down_reason_small };

    #[inline]
    fn view(&self) -> (u16, FlatView<'_>) {
        members!(view LinkProtocolDownReason, self)
    }
}

impl NlaRead for LinkProtocolDownReason {
    ghost use Rattle.nla_wire.proofs.Codec.{place_bounded};
    ghost use Rattle.link_nest.specs.Tables.{down_reason_place};

    ghost grammar = { down_reason_place.grammar };

    fn kind_name(kind: u16) -> &'static str {
        members!(name kind)
    }

    #[tactic(auto, unfolding(crate::specs::Tables::down_reason_place))]
    fn parse_frame(
        alloc: Global,
        buffer: &NlaBuffer<'_>,
    ) -> Result<LinkProtocolDownReason, DecodeError> {
        members!(parse LinkProtocolDownReason, alloc, buffer)
    }

    #[tactic(auto, unfolding(crate::specs::Tables::down_reason_place))]
    fn check_frame(buffer: &NlaBuffer<'_>) -> Result<(), DecodeError> {
        members!(check buffer)
    }

    #[inline(always)]
    #[tactic(auto, unfolding(crate::specs::Tables::down_reason_place, nla_wire::specs::Payloads::read_number))]
    fn measure_frame(buffer: &NlaBuffer<'_>) -> Option<usize> {
        members!(measure buffer)
    }

    #[tactic(auto, unfolding(crate::specs::Tables::down_reason_place, nla_wire::specs::Payloads::read_number))]
    fn write_frame(buffer: &NlaBuffer<'_>, out: &mut [u8]) -> usize {
        members!(write buffer, out)
    }

    ghost agrees = { down_reason_place.lawful.agrees };

    ghost no_memory = { down_reason_place.lawful.no_memory };

    ghost bounded = { place_bounded down_reason_place };
}

impl CloneIn for LinkProtocolDownReason {
    fn clone_in(&self, alloc: Global) -> Result<LinkProtocolDownReason, DecodeError> {
        members!(copy LinkProtocolDownReason, self, alloc)
    }
}

impl Exact for LinkProtocolDownReason {
    ghost use Rattle.std.proofs.Common.{rules};

    ghost decides = { Prim.search rules };
}
