//! The devlink port of an interface, members of IFLA_DEVLINK_PORT.

use crate::numbers::*;
use nla_wire::{
    CloneIn, DecodeError, DefaultNla, Exact, Flat, FlatView, Nla, NlaBuffer, NlaRead, Text, rows,
};
use std::alloc::Global;

/// A member of IFLA_DEVLINK_PORT (linux/devlink.h).
#[derive(Debug, Drop, PartialEq, Eq)]
pub enum DevlinkPort {
    /// DEVLINK_ATTR_BUS_NAME: the name of the bus, a text with one NUL.
    BusName(Text),
    /// DEVLINK_ATTR_DEV_NAME: the name of the device, a text with one NUL.
    DevName(Text),
    /// DEVLINK_ATTR_PORT_INDEX: the index of the port, four bytes.
    PortIndex(u32),
    /// A number that is not listed here.
    Other(DefaultNla),
}

/// A row for each member that is listed, in their order.
macro_rules! members {
    ($($call:tt)*) => {
        rows! { ($($call)*)
            text BusName(Text, DEVLINK_ATTR_BUS_NAME)
            text DevName(Text, DEVLINK_ATTR_DEV_NAME)
            plain PortIndex(u32, DEVLINK_ATTR_PORT_INDEX)
        }
    };
}

#[tactic(auto, unfolding(crate::specs::Tables::devlink_port_place))]
impl Flat for DevlinkPort {
    ghost use Rattle.link_nest.specs.Tables.{devlink_port_place, devlink_port_small};

    ghost frame = { devlink_port_place.frame };

    ghost fits = { devlink_port_place.Fits };

    ghost is_small = { devlink_port_place.is_small };

    ghost when_small = { devlink_port_small };

    #[inline]
    fn view(&self) -> (u16, FlatView<'_>) {
        members!(view DevlinkPort, self)
    }
}

impl NlaRead for DevlinkPort {
    ghost use Rattle.nla_wire.proofs.Codec.{place_bounded};
    ghost use Rattle.link_nest.specs.Tables.{devlink_port_place};

    ghost grammar = { devlink_port_place.grammar };

    fn kind_name(kind: u16) -> &'static str {
        members!(name kind)
    }

    #[tactic(auto, unfolding(crate::specs::Tables::devlink_port_place))]
    fn parse_frame(alloc: Global, buffer: &NlaBuffer<'_>) -> Result<DevlinkPort, DecodeError> {
        members!(parse DevlinkPort, alloc, buffer)
    }

    #[tactic(auto, unfolding(crate::specs::Tables::devlink_port_place))]
    fn check_frame(buffer: &NlaBuffer<'_>) -> Result<(), DecodeError> {
        members!(check buffer)
    }

    #[inline(always)]
    #[tactic(auto, unfolding(crate::proofs::Opened::devlink_port))]
    fn measure_frame(buffer: &NlaBuffer<'_>) -> Option<usize> {
        members!(measure buffer)
    }

    #[tactic(auto, unfolding(crate::proofs::Opened::devlink_port))]
    fn write_frame(buffer: &NlaBuffer<'_>, out: &mut [u8]) -> usize {
        members!(write buffer, out)
    }

    ghost agrees = { devlink_port_place.lawful.agrees };

    ghost no_memory = { devlink_port_place.lawful.no_memory };

    ghost bounded = { place_bounded devlink_port_place };
}

impl CloneIn for DevlinkPort {
    fn clone_in(&self, alloc: Global) -> Result<DevlinkPort, DecodeError> {
        members!(copy DevlinkPort, self, alloc)
    }
}

impl Exact for DevlinkPort {
    ghost use Rattle.std.proofs.Common.{rules};

    ghost decides = { Prim.search rules };
}
