//! Vlans of a virtual function, members of IFLA_VF_VLAN_LIST.

use crate::numbers::*;
use link_vfrec::VfVlanInfo;
use nla_wire::{CloneIn, DecodeError, DefaultNla, Exact, Nla, NlaBuffer, NlaRead, Record, rows};
use std::alloc::Global;

/// A member of IFLA_VF_VLAN_LIST (linux/if_link.h).
#[derive(Debug, Drop, PartialEq, Eq)]
pub enum VfVlan {
    /// IFLA_VF_VLAN_INFO: one vlan, a record of 16 bytes.
    Info(VfVlanInfo),
    /// A number that is not listed here.
    Other(DefaultNla),
}

/// A row for each member that is listed.
macro_rules! members {
    ($($call:tt)*) => {
        rows! { ($($call)*)
            record Info(VfVlanInfo, IFLA_VF_VLAN_INFO)
        }
    };
}

impl Nla for VfVlan {
    ghost use Rattle.link_vf.specs.Tables.{vf_vlan_place};

    ghost frame = { vf_vlan_place.frame };

    ghost fits = { vf_vlan_place.Fits };

    ghost is_small = { vf_vlan_place.is_small };

    #[tactic(auto, unfolding(crate::specs::Tables::vf_vlan_place))]
    fn kind(&self) -> u16 {
        members!(kind VfVlan, self)
    }

    #[tactic(auto, unfolding(crate::specs::Tables::vf_vlan_place, link_vfrec::specs::Records::vf_vlan_info_bytes))]
    fn fits(&self) -> bool {
        self.measure().is_some()
    }

    #[tactic(auto, unfolding(crate::specs::Tables::vf_vlan_place, link_vfrec::specs::Records::vf_vlan_info_bytes))]
    fn value_len(&self) -> usize {
        self.measure().unwrap_or(0)
    }

    #[tactic(auto, unfolding(crate::specs::Tables::vf_vlan_place, link_vfrec::specs::Records::vf_vlan_info_bytes))]
    fn fill_value(&self, buffer: &mut [u8]) -> usize {
        members!(fill VfVlan, self, buffer)
    }

    #[tactic(auto, unfolding(crate::specs::Tables::vf_vlan_place, link_vfrec::specs::Records::vf_vlan_info_bytes))]
    fn measure(&self) -> Option<usize> {
        members!(size VfVlan, self)
    }

    #[tactic(auto, unfolding(crate::specs::Tables::vf_vlan_place, link_vfrec::specs::Records::vf_vlan_info_bytes))]
    fn write(&self, buffer: &mut [u8]) -> usize {
        members!(put VfVlan, self, buffer)
    }
}

impl NlaRead for VfVlan {
    ghost use Rattle.nla_wire.proofs.Codec.{place_bounded};
    ghost use Rattle.link_vf.specs.Tables.{vf_vlan_place};

    ghost grammar = { vf_vlan_place.grammar };

    fn kind_name(kind: u16) -> &'static str {
        members!(name kind)
    }

    #[tactic(auto, unfolding(crate::specs::Tables::vf_vlan_place))]
    fn parse_frame(alloc: Global, buffer: &NlaBuffer<'_>) -> Result<VfVlan, DecodeError> {
        members!(parse VfVlan, alloc, buffer)
    }

    #[tactic(auto, unfolding(crate::specs::Tables::vf_vlan_place))]
    fn check_frame(buffer: &NlaBuffer<'_>) -> Result<(), DecodeError> {
        members!(check buffer)
    }

    #[inline(always)]
    #[tactic(auto, unfolding(crate::specs::Tables::vf_vlan_place))]
    fn measure_frame(buffer: &NlaBuffer<'_>) -> Option<usize> {
        members!(measure buffer)
    }

    #[tactic(auto, unfolding(crate::specs::Tables::vf_vlan_place, nla_wire::specs::Payloads::read_sized))]
    fn write_frame(buffer: &NlaBuffer<'_>, out: &mut [u8]) -> usize {
        members!(write buffer, out)
    }

    ghost agrees = { vf_vlan_place.lawful.agrees };

    ghost no_memory = { vf_vlan_place.lawful.no_memory };

    ghost bounded = { place_bounded vf_vlan_place };
}

impl CloneIn for VfVlan {
    fn clone_in(&self, alloc: Global) -> Result<VfVlan, DecodeError> {
        members!(copy VfVlan, self, alloc)
    }
}

impl Exact for VfVlan {
    ghost use Rattle.std.proofs.Common.{rules};

    ghost decides = { Prim.search rules };
}
