//! Alternative names of an interface, members of IFLA_PROP_LIST.

use crate::numbers::IFLA_ALT_IFNAME;
use nla_wire::{
    CloneIn, DecodeError, DefaultNla, Exact, Flat, FlatView, Nla, NlaBuffer, NlaRead, Text,
    check_string, kind_names, measure_text, parse_string, write_text_payload, write_value,
};
use std::alloc::Global;

/// A member of IFLA_PROP_LIST (linux/if_link.h).
#[derive(Debug, Drop, PartialEq, Eq)]
pub enum Prop {
    /// IFLA_ALT_IFNAME: an alternative name, a text with one NUL.
    AltIfName(Text),
    /// A number that is not listed here.
    Other(DefaultNla),
}

#[tactic(auto, unfolding(crate::specs::Tables::prop_place))]
impl Flat for Prop {
    ghost use Rattle.link_nest.specs.Tables.{prop_place, prop_small};

    ghost frame = { prop_place.frame };

    ghost fits = { prop_place.Fits };

    ghost is_small = { prop_place.is_small };

    ghost when_small = { prop_small };

    #[inline]
    fn view(&self) -> (u16, FlatView<'_>) {
        match self {
            Prop::AltIfName(name) => (IFLA_ALT_IFNAME, FlatView::Text(name.as_str())),
            Prop::Other(nla) => (nla.kind(), FlatView::Bytes(nla.value())),
        }
    }
}

impl NlaRead for Prop {
    ghost use Rattle.nla_wire.proofs.Codec.{place_bounded};
    ghost use Rattle.link_nest.specs.Tables.{prop_place};

    ghost grammar = { prop_place.grammar };

    fn kind_name(kind: u16) -> &'static str {
        kind_names!(kind; IFLA_ALT_IFNAME)
    }

    #[tactic(auto, unfolding(crate::specs::Tables::prop_place))]
    fn parse_frame(alloc: Global, buffer: &NlaBuffer<'_>) -> Result<Prop, DecodeError> {
        match buffer.kind() {
            IFLA_ALT_IFNAME => parse_string(alloc, buffer.value()).map(Prop::AltIfName),
            _ => DefaultNla::parse(alloc, buffer).map(Prop::Other),
        }
    }

    #[tactic(auto, unfolding(crate::specs::Tables::prop_place))]
    fn check_frame(buffer: &NlaBuffer<'_>) -> Result<(), DecodeError> {
        match buffer.kind() {
            IFLA_ALT_IFNAME => check_string(buffer.value()),
            _ => Ok(()),
        }
    }

    #[inline(always)]
    #[tactic(auto, unfolding(crate::specs::Tables::prop_place, nla_wire::specs::Payloads::read_text))]
    fn measure_frame(buffer: &NlaBuffer<'_>) -> Option<usize> {
        match buffer.kind() {
            IFLA_ALT_IFNAME => measure_text(buffer.value()),
            _ => Some(buffer.value().len()),
        }
    }

    #[tactic(auto, unfolding(crate::specs::Tables::prop_place, nla_wire::specs::Payloads::read_text))]
    fn write_frame(buffer: &NlaBuffer<'_>, out: &mut [u8]) -> usize {
        match buffer.kind() {
            IFLA_ALT_IFNAME => write_text_payload(IFLA_ALT_IFNAME, buffer.value(), out),
            _ => write_value(buffer.kind_with_flags(), buffer.value(), out),
        }
    }

    ghost agrees = { prop_place.lawful.agrees };

    ghost no_memory = { prop_place.lawful.no_memory };

    ghost bounded = { place_bounded prop_place };
}

impl CloneIn for Prop {
    fn clone_in(&self, alloc: Global) -> Result<Prop, DecodeError> {
        match self {
            Prop::AltIfName(name) => name.clone_in(alloc).map(Prop::AltIfName),
            Prop::Other(nla) => nla.clone_in(alloc).map(Prop::Other),
        }
    }
}

impl Exact for Prop {
    ghost use Rattle.std.proofs.Common.{rules};

    ghost decides = { Prim.search rules };
}
