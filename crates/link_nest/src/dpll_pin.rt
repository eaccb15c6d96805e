//! The clock pin of an interface, members of IFLA_DPLL_PIN.

use crate::numbers::DPLL_A_PIN_ID;
use nla_wire::error::checked;
use nla_wire::{
    CloneIn, DecodeError, DefaultNla, Exact, Flat, FlatView, Nla, NlaBuffer, NlaRead, kind_names,
    measure_u32, parse_u32, write_u32_payload, write_value,
};
use std::alloc::Global;

/// A member of IFLA_DPLL_PIN (linux/dpll.h).
#[derive(Debug, Drop, PartialEq, Eq)]
pub enum DpllPin {
    /// DPLL_A_PIN_ID: the number of the pin, four bytes.
    PinId(u32),
    /// A number that is not listed here.
    Other(DefaultNla),
}

#[tactic(auto, unfolding(crate::specs::Tables::dpll_pin_place))]
impl Flat for DpllPin {
    ghost use Rattle.link_nest.specs.Tables.{dpll_pin_place, dpll_pin_small};

    ghost frame = { dpll_pin_place.frame };

    ghost fits = { dpll_pin_place.Fits };

    ghost is_small = { dpll_pin_place.is_small };

    ghost when_small = { dpll_pin_small };

    #[inline]
    fn view(&self) -> (u16, FlatView<'_>) {
        match self {
            DpllPin::PinId(id) => (DPLL_A_PIN_ID, FlatView::U32(*id)),
            DpllPin::Other(nla) => (nla.kind(), FlatView::Bytes(nla.value())),
        }
    }
}

impl NlaRead for DpllPin {
    ghost use Rattle.nla_wire.proofs.Codec.{place_bounded};
    ghost use Rattle.link_nest.specs.Tables.{dpll_pin_place};

    ghost grammar = { dpll_pin_place.grammar };

    fn kind_name(kind: u16) -> &'static str {
        kind_names!(kind; DPLL_A_PIN_ID)
    }

    #[tactic(auto, unfolding(crate::specs::Tables::dpll_pin_place))]
    fn parse_frame(alloc: Global, buffer: &NlaBuffer<'_>) -> Result<DpllPin, DecodeError> {
        match buffer.kind() {
            DPLL_A_PIN_ID => parse_u32(buffer.value()).map(DpllPin::PinId),
            _ => DefaultNla::parse(alloc, buffer).map(DpllPin::Other),
        }
    }

    #[tactic(auto, unfolding(crate::specs::Tables::dpll_pin_place))]
    fn check_frame(buffer: &NlaBuffer<'_>) -> Result<(), DecodeError> {
        match buffer.kind() {
            DPLL_A_PIN_ID => checked(parse_u32(buffer.value())),
            _ => Ok(()),
        }
    }

    #[inline(always)]
    #[tactic(auto, unfolding(crate::specs::Tables::dpll_pin_place, nla_wire::specs::Payloads::read_number))]
    fn measure_frame(buffer: &NlaBuffer<'_>) -> Option<usize> {
        match buffer.kind() {
            DPLL_A_PIN_ID => measure_u32(buffer.value()),
            _ => Some(buffer.value().len()),
        }
    }

    #[tactic(auto, unfolding(crate::specs::Tables::dpll_pin_place, nla_wire::specs::Payloads::read_number))]
    fn write_frame(buffer: &NlaBuffer<'_>, out: &mut [u8]) -> usize {
        match buffer.kind() {
            DPLL_A_PIN_ID => write_u32_payload(DPLL_A_PIN_ID, buffer.value(), out),
            _ => write_value(buffer.kind_with_flags(), buffer.value(), out),
        }
    }

    ghost agrees = { dpll_pin_place.lawful.agrees };

    ghost no_memory = { dpll_pin_place.lawful.no_memory };

    ghost bounded = { place_bounded dpll_pin_place };
}

impl CloneIn for DpllPin {
    fn clone_in(&self, alloc: Global) -> Result<DpllPin, DecodeError> {
        match self {
            DpllPin::PinId(id) => Ok(DpllPin::PinId(*id)),
            DpllPin::Other(nla) => nla.clone_in(alloc).map(DpllPin::Other),
        }
    }
}

impl Exact for DpllPin {
    ghost use Rattle.std.proofs.Common.{rules};

    ghost decides = { Prim.search rules };
}
