//! Information of an interface's type, members of IFLA_LINKINFO, of which the data are kept undecoded.

use crate::numbers::IFLA_INFO_KIND;
use nla_wire::{
    CloneIn, DecodeError, DefaultNla, Exact, Flat, FlatView, Nla, NlaBuffer, NlaRead, Text,
    check_string, kind_names, measure_text, parse_string, write_text_payload, write_value,
};
use std::alloc::Global;

/// A member of IFLA_LINKINFO (linux/if_link.h).
#[derive(Debug, Drop, PartialEq, Eq)]
pub enum LinkInfo {
    /// IFLA_INFO_KIND: the type of the interface, a text with one NUL.
    Kind(Text),
    /// A number that is not listed here.
    Other(DefaultNla),
}

#[tactic(auto, unfolding(crate::specs::Tables::link_info_place))]
impl Flat for LinkInfo {
    ghost use Rattle.link_nest.specs.Tables.{link_info_place, link_info_small};

    ghost frame = { link_info_place.frame };

    ghost fits = { link_info_place.Fits };

    ghost is_small = { link_info_place.is_small };

    ghost when_small = { link_info_small };

    #[inline]
    fn view(&self) -> (u16, FlatView<'_>) {
        match self {
            LinkInfo::Kind(kind) => (IFLA_INFO_KIND, FlatView::Text(kind.as_str())),
            LinkInfo::Other(nla) => (nla.kind(), FlatView::Bytes(nla.value())),
        }
    }
}

impl NlaRead for LinkInfo {
    ghost use Rattle.nla_wire.proofs.Codec.{place_bounded};
    ghost use Rattle.link_nest.specs.Tables.{link_info_place};

    ghost grammar = { link_info_place.grammar };

    fn kind_name(kind: u16) -> &'static str {
        kind_names!(kind; IFLA_INFO_KIND)
    }

    #[tactic(auto, unfolding(crate::specs::Tables::link_info_place))]
    fn parse_frame(alloc: Global, buffer: &NlaBuffer<'_>) -> Result<LinkInfo, DecodeError> {
        match buffer.kind() {
            IFLA_INFO_KIND => parse_string(alloc, buffer.value()).map(LinkInfo::Kind),
            _ => DefaultNla::parse(alloc, buffer).map(LinkInfo::Other),
        }
    }

    #[tactic(auto, unfolding(crate::specs::Tables::link_info_place))]
    fn check_frame(buffer: &NlaBuffer<'_>) -> Result<(), DecodeError> {
        match buffer.kind() {
            IFLA_INFO_KIND => check_string(buffer.value()),
            _ => Ok(()),
        }
    }

    #[inline(always)]
    #[tactic(auto, unfolding(crate::specs::Tables::link_info_place, nla_wire::specs::Payloads::read_text))]
    fn measure_frame(buffer: &NlaBuffer<'_>) -> Option<usize> {
        match buffer.kind() {
            IFLA_INFO_KIND => measure_text(buffer.value()),
            _ => Some(buffer.value().len()),
        }
    }

    #[tactic(auto, unfolding(crate::specs::Tables::link_info_place, nla_wire::specs::Payloads::read_text))]
    fn write_frame(buffer: &NlaBuffer<'_>, out: &mut [u8]) -> usize {
        match buffer.kind() {
            IFLA_INFO_KIND => write_text_payload(IFLA_INFO_KIND, buffer.value(), out),
            _ => write_value(buffer.kind_with_flags(), buffer.value(), out),
        }
    }

    ghost agrees = { link_info_place.lawful.agrees };

    ghost no_memory = { link_info_place.lawful.no_memory };

    ghost bounded = { place_bounded link_info_place };
}

impl CloneIn for LinkInfo {
    fn clone_in(&self, alloc: Global) -> Result<LinkInfo, DecodeError> {
        match self {
            LinkInfo::Kind(kind) => kind.clone_in(alloc).map(LinkInfo::Kind),
            LinkInfo::Other(nla) => nla.clone_in(alloc).map(LinkInfo::Other),
        }
    }
}

impl Exact for LinkInfo {
    ghost use Rattle.std.proofs.Common.{rules};

    ghost decides = { Prim.search rules };
}
