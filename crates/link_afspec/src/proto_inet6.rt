//! Members of IFLA_PROTINFO of IPv6, which are kept undecoded.

use nla_wire::{
    CloneIn, DecodeError, DefaultNla, Exact, Flat, FlatView, Nla, NlaBuffer, NlaRead, write_value,
};
use std::alloc::Global;

/// A member of IFLA_PROTINFO of the family AF_INET6 (linux/if_link.h), kept as it is.
#[derive(Debug, Drop, PartialEq, Eq)]
pub enum LinkProtoInfoInet6 {
    /// An attribute of any number.
    Other(DefaultNla),
}

#[tactic(auto, unfolding(crate::specs::Tables::link_proto_info_inet6_place))]
impl Flat for LinkProtoInfoInet6 {
    ghost use Rattle.link_afspec.specs.Tables.{link_proto_info_inet6_place, link_proto_info_inet6_small};

    ghost frame = { link_proto_info_inet6_place.frame };

    ghost fits = { link_proto_info_inet6_place.Fits };

    ghost is_small = { link_proto_info_inet6_place.is_small };

    ghost when_small = { link_proto_info_inet6_small };

    #[inline]
    fn view(&self) -> (u16, FlatView<'_>) {
        let LinkProtoInfoInet6::Other(nla) = self;
        (nla.kind(), FlatView::Bytes(nla.value()))
    }
}

impl NlaRead for LinkProtoInfoInet6 {
    ghost use Rattle.nla_wire.proofs.Codec.{place_bounded};
    ghost use Rattle.link_afspec.specs.Tables.{link_proto_info_inet6_place};

    ghost grammar = { link_proto_info_inet6_place.grammar };

    fn kind_name(_kind: u16) -> &'static str {
        ""
    }

    #[tactic(auto, unfolding(crate::specs::Tables::link_proto_info_inet6_place))]
    fn parse_frame(
        alloc: Global,
        buffer: &NlaBuffer<'_>,
    ) -> Result<LinkProtoInfoInet6, DecodeError> {
        DefaultNla::parse(alloc, buffer).map(LinkProtoInfoInet6::Other)
    }

    #[tactic(auto, unfolding(crate::specs::Tables::link_proto_info_inet6_place))]
    fn check_frame(_buffer: &NlaBuffer<'_>) -> Result<(), DecodeError> {
        Ok(())
    }

    #[inline(always)]
    #[tactic(auto, unfolding(crate::specs::Tables::link_proto_info_inet6_place))]
    fn measure_frame(buffer: &NlaBuffer<'_>) -> Option<usize> {
        Some(buffer.value().len())
    }

    #[tactic(auto, unfolding(crate::specs::Tables::link_proto_info_inet6_place))]
    fn write_frame(buffer: &NlaBuffer<'_>, out: &mut [u8]) -> usize {
        write_value(buffer.kind_with_flags(), buffer.value(), out)
    }

    ghost agrees = { link_proto_info_inet6_place.lawful.agrees };

    ghost no_memory = { link_proto_info_inet6_place.lawful.no_memory };

    ghost bounded = { place_bounded link_proto_info_inet6_place };
}

impl CloneIn for LinkProtoInfoInet6 {
    fn clone_in(&self, alloc: Global) -> Result<LinkProtoInfoInet6, DecodeError> {
        let LinkProtoInfoInet6::Other(nla) = self;
        nla.clone_in(alloc).map(LinkProtoInfoInet6::Other)
    }
}

impl Exact for LinkProtoInfoInet6 {
    ghost use Rattle.std.proofs.Common.{rules};

    ghost decides = { Prim.search rules };
}
