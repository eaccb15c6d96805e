//! Statistics of a virtual function, members of IFLA_VF_STATS.

use crate::numbers::*;
use nla_wire::{
    CloneIn, DecodeError, DefaultNla, Exact, Flat, FlatView, Nla, NlaBuffer, NlaRead, rows,
};
use std::alloc::Global;

/// A member of IFLA_VF_STATS (linux/if_link.h): a number of eight bytes.
#[derive(Debug, Drop, PartialEq, Eq)]
pub enum VfStats {
    /// IFLA_VF_STATS_RX_PACKETS: packets received.
    RxPackets(u64),
    /// IFLA_VF_STATS_TX_PACKETS: packets sent.
    TxPackets(u64),
    /// IFLA_VF_STATS_RX_BYTES: bytes received.
    RxBytes(u64),
    /// IFLA_VF_STATS_TX_BYTES: bytes sent.
    TxBytes(u64),
    /// IFLA_VF_STATS_BROADCAST: broadcast packets received.
    Broadcast(u64),
    /// IFLA_VF_STATS_MULTICAST: multicast packets received.
    Multicast(u64),
    /// IFLA_VF_STATS_RX_DROPPED: packets dropped on receipt.
    RxDropped(u64),
    /// IFLA_VF_STATS_TX_DROPPED: packets dropped on sending.
    TxDropped(u64),
    /// A number that is not listed here.
    Other(DefaultNla),
}

/// A row for each member that is listed, in their order.
macro_rules! members {
    ($($call:tt)*) => {
        rows! { ($($call)*)
            plain RxPackets(u64, IFLA_VF_STATS_RX_PACKETS)
            plain TxPackets(u64, IFLA_VF_STATS_TX_PACKETS)
            plain RxBytes(u64, IFLA_VF_STATS_RX_BYTES)
            plain TxBytes(u64, IFLA_VF_STATS_TX_BYTES)
            plain Broadcast(u64, IFLA_VF_STATS_BROADCAST)
            plain Multicast(u64, IFLA_VF_STATS_MULTICAST)
            plain RxDropped(u64, IFLA_VF_STATS_RX_DROPPED)
            plain TxDropped(u64, IFLA_VF_STATS_TX_DROPPED)
        }
    };
}

#[tactic(auto, unfolding(crate::specs::Tables::vf_stats_place))]
impl Flat for VfStats {
    ghost use Rattle.link_vf.specs.Tables.{vf_stats_place, vf_stats_small};

    ghost frame = { vf_stats_place.frame };

    ghost fits = { vf_stats_place.Fits };

    ghost is_small = { vf_stats_place.is_small };

    ghost when_small = { vf_stats_small };

    #[inline]
    fn view(&self) -> (u16, FlatView<'_>) {
        members!(view VfStats, self)
    }
}

impl NlaRead for VfStats {
    ghost use Rattle.nla_wire.proofs.Codec.{place_bounded};
    ghost use Rattle.link_vf.specs.Tables.{vf_stats_place};

    ghost grammar = { vf_stats_place.grammar };

    fn kind_name(kind: u16) -> &'static str {
        members!(name kind)
    }

    #[tactic(auto, unfolding(crate::specs::Tables::vf_stats_place))]
    fn parse_frame(alloc: Global, buffer: &NlaBuffer<'_>) -> Result<VfStats, DecodeError> {
        members!(parse VfStats, alloc, buffer)
    }

    #[tactic(auto, unfolding(crate::specs::Tables::vf_stats_place))]
    fn check_frame(buffer: &NlaBuffer<'_>) -> Result<(), DecodeError> {
        members!(check buffer)
    }

    #[inline(always)]
    #[tactic(auto, unfolding(crate::specs::Tables::vf_stats_place, nla_wire::specs::Payloads::read_number))]
    fn measure_frame(buffer: &NlaBuffer<'_>) -> Option<usize> {
        members!(measure buffer)
    }

    #[tactic(auto, unfolding(crate::specs::Tables::vf_stats_place, nla_wire::specs::Payloads::read_number))]
    fn write_frame(buffer: &NlaBuffer<'_>, out: &mut [u8]) -> usize {
        members!(write buffer, out)
    }

    ghost agrees = { vf_stats_place.lawful.agrees };

    ghost no_memory = { vf_stats_place.lawful.no_memory };

    ghost bounded = { place_bounded vf_stats_place };
}

impl CloneIn for VfStats {
    fn clone_in(&self, alloc: Global) -> Result<VfStats, DecodeError> {
        members!(copy VfStats, self, alloc)
    }
}

impl Exact for VfStats {
    ghost use Rattle.std.proofs.Common.{rules};

    ghost decides = { Prim.search rules };
}
