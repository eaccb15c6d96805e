//! Members of IFLA_PROTINFO of a bridge, which are kept undecoded.

use nla_wire::{
    CloneIn, DecodeError, DefaultNla, Exact, Flat, FlatView, Nla, NlaBuffer, NlaRead, write_value,
};
use std::alloc::Global;

/// A member of IFLA_PROTINFO of the family AF_BRIDGE (linux/if_link.h), kept as it is.
#[derive(Debug, Drop, PartialEq, Eq)]
pub enum LinkProtoInfoBridge {
    /// An attribute of any number.
    Other(DefaultNla),
}

#[tactic(auto, unfolding(crate::specs::Tables::link_proto_info_bridge_place))]
impl Flat for LinkProtoInfoBridge {
    ghost use Rattle.link_afspec.specs.Tables.{link_proto_info_bridge_place, link_proto_info_bridge_small};

    ghost frame = { link_proto_info_bridge_place.frame };

    ghost fits = { link_proto_info_bridge_place.Fits };

    ghost is_small = { link_proto_info_bridge_place.is_small };

    ghost when_small = { link_proto_info_bridge_small };

    #[inline]
    fn view(&self) -> (u16, FlatView<'_>) {
        let LinkProtoInfoBridge::Other(nla) = self;
        (nla.kind(), FlatView::Bytes(nla.value()))
    }
}

impl NlaRead for LinkProtoInfoBridge {
    ghost use Rattle.nla_wire.proofs.Codec.{place_bounded};
    ghost use Rattle.link_afspec.specs.Tables.{link_proto_info_bridge_place};

    ghost grammar = { link_proto_info_bridge_place.grammar };

    fn kind_name(_kind: u16) -> &'static str {
        ""
    }

    #[tactic(auto, unfolding(crate::specs::Tables::link_proto_info_bridge_place))]
    fn parse_frame(
        alloc: Global,
        buffer: &NlaBuffer<'_>,
    ) -> Result<LinkProtoInfoBridge, DecodeError> {
        DefaultNla::parse(alloc, buffer).map(LinkProtoInfoBridge::Other)
    }

    #[tactic(auto, unfolding(crate::specs::Tables::link_proto_info_bridge_place))]
    fn check_frame(_buffer: &NlaBuffer<'_>) -> Result<(), DecodeError> {
        Ok(())
    }

    #[inline(always)]
    #[tactic(auto, unfolding(crate::specs::Tables::link_proto_info_bridge_place))]
    fn measure_frame(buffer: &NlaBuffer<'_>) -> Option<usize> {
        Some(buffer.value().len())
    }

    #[tactic(auto, unfolding(crate::specs::Tables::link_proto_info_bridge_place))]
    fn write_frame(buffer: &NlaBuffer<'_>, out: &mut [u8]) -> usize {
        write_value(buffer.kind_with_flags(), buffer.value(), out)
    }

    ghost agrees = { link_proto_info_bridge_place.lawful.agrees };

    ghost no_memory = { link_proto_info_bridge_place.lawful.no_memory };

    ghost bounded = { place_bounded link_proto_info_bridge_place };
}

impl CloneIn for LinkProtoInfoBridge {
    fn clone_in(&self, alloc: Global) -> Result<LinkProtoInfoBridge, DecodeError> {
        let LinkProtoInfoBridge::Other(nla) = self;
        nla.clone_in(alloc).map(LinkProtoInfoBridge::Other)
    }
}

impl Exact for LinkProtoInfoBridge {
    ghost use Rattle.std.proofs.Common.{rules};

    ghost decides = { Prim.search rules };
}
