//! The express data path of an interface, members of IFLA_XDP.

use crate::attached::parse_attached;
use crate::numbers::*;
use link_vals::XdpAttached;
use nla_wire::{
    CloneIn, DecodeError, DefaultNla, Exact, Flat, FlatView, Nla, NlaBuffer, NlaRead, rows,
};
use std::alloc::Global;

/// A member of IFLA_XDP (linux/if_link.h).
#[derive(Debug, Drop, PartialEq, Eq)]
pub enum LinkXdp {
    /// IFLA_XDP_FD: a file descriptor of a program, four bytes, signed.
    Fd(i32),
    /// IFLA_XDP_ATTACHED: where a program is attached, one byte.
    Attached(XdpAttached),
    /// IFLA_XDP_FLAGS: four bytes.
    Flags(u32),
    /// IFLA_XDP_PROG_ID: the number of the program, four bytes.
    ProgId(u32),
    /// IFLA_XDP_DRV_PROG_ID: the number of the program in the driver, four bytes.
    DrvProgId(u32),
    /// IFLA_XDP_SKB_PROG_ID: the number of the program on socket buffers, four bytes.
    SkbProgId(u32),
    /// IFLA_XDP_HW_PROG_ID: the number of the program in the hardware, four bytes.
    HwProgId(u32),
    /// IFLA_XDP_EXPECTED_FD: the file descriptor that is to be replaced, four bytes.
    ExpectedFd(u32),
    /// A number that is not listed here.
    Other(DefaultNla),
}

/// A row for each member that is listed, in their order.
macro_rules! members {
    ($($call:tt)*) => {
        rows! { ($($call)*)
            plain Fd(i32, IFLA_XDP_FD)
            listed Attached(u8, IFLA_XDP_ATTACHED, parse_attached)
            plain Flags(u32, IFLA_XDP_FLAGS)
            plain ProgId(u32, IFLA_XDP_PROG_ID)
            plain DrvProgId(u32, IFLA_XDP_DRV_PROG_ID)
            plain SkbProgId(u32, IFLA_XDP_SKB_PROG_ID)
            plain HwProgId(u32, IFLA_XDP_HW_PROG_ID)
            plain ExpectedFd(u32, IFLA_XDP_EXPECTED_FD)
        }
    };
}

#[tactic(auto, unfolding(crate::specs::Tables::xdp_place))]
impl Flat for LinkXdp {
    ghost use Rattle.link_nest.specs.Tables.{xdp_place, xdp_small};

    ghost frame = { xdp_place.frame };

    ghost fits = { xdp_place.Fits };

    ghost is_small = { xdp_place.is_small };

    ghost when_small = { xdp_small };

    #[inline]
    fn view(&self) -> (u16, FlatView<'_>) {
        members!(view LinkXdp, self)
    }
}

impl NlaRead for LinkXdp {
    ghost use Rattle.nla_wire.proofs.Codec.{place_bounded};
    ghost use Rattle.link_nest.specs.Tables.{xdp_place};

    ghost grammar = { xdp_place.grammar };

    fn kind_name(kind: u16) -> &'static str {
        members!(name kind)
    }

    #[tactic(auto, unfolding(crate::specs::Tables::xdp_place))]
    fn parse_frame(alloc: Global, buffer: &NlaBuffer<'_>) -> Result<LinkXdp, DecodeError> {
        members!(parse LinkXdp, alloc, buffer)
    }

    #[tactic(auto, unfolding(crate::specs::Tables::xdp_place))]
    fn check_frame(buffer: &NlaBuffer<'_>) -> Result<(), DecodeError> {
        members!(check buffer)
    }

    #[inline(always)]
    #[tactic(auto, unfolding(crate::proofs::Opened::xdp), using(link_vals::proofs::Numbers::xdp_attached_again))]
    fn measure_frame(buffer: &NlaBuffer<'_>) -> Option<usize> {
        members!(measure buffer)
    }

    #[tactic(auto, unfolding(crate::proofs::Opened::xdp), using(link_vals::proofs::Numbers::xdp_attached_again))]
    fn write_frame(buffer: &NlaBuffer<'_>, out: &mut [u8]) -> usize {
        members!(write buffer, out)
    }

    ghost agrees = { xdp_place.lawful.agrees };

    ghost no_memory = { xdp_place.lawful.no_memory };

    ghost bounded = { place_bounded xdp_place };
}

impl CloneIn for LinkXdp {
    fn clone_in(&self, alloc: Global) -> Result<LinkXdp, DecodeError> {
        members!(copy LinkXdp, self, alloc)
    }
}

impl Exact for LinkXdp {
    ghost use Rattle.std.proofs.Common.{rules};

    ghost decides = { Prim.search rules };
}
