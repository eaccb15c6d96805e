//! The list of virtual functions, IFLA_VFINFO_LIST.

ghost use Rattle.std.specs.Prelude.{◌≡◌, List};
ghost use Rattle.link_vf.specs.Tables.{link_vf_info_place};

use crate::VfInfo;
use crate::entry::Entry;
use crate::numbers::IFLA_VF_INFO;
use nla_wire::{
    CloneIn, DecodeError, Exact, List, Nla, list_fits, list_measure, nlas_buffer_len, nlas_fill,
    write_list,
};
use std::alloc::Global;

/// An entry of IFLA_VFINFO_LIST, with the number of IFLA_VF_INFO (linux/if_link.h): what is said of one virtual
/// function.
#[derive(Debug, Drop, PartialEq, Eq)]
pub struct LinkVfInfo(pub List<VfInfo>);

#[tactic(auto, unfolding(crate::specs::Tables::link_vf_info_place))]
impl Nla for LinkVfInfo {
    ghost frame = { link_vf_info_place.frame };

    ghost fits = { link_vf_info_place.Fits };

    ghost is_small = { link_vf_info_place.is_small };

    fn kind(&self) -> u16 {
        IFLA_VF_INFO
    }

    fn fits(&self) -> bool {
        list_fits(self.0.as_slice())
    }

    fn value_len(&self) -> usize {
        nlas_buffer_len(self.0.as_slice())
    }

    fn fill_value(&self, buffer: &mut [u8]) -> usize {
        nlas_fill(self.0.as_slice(), buffer)
    }

    fn measure(&self) -> Option<usize> {
        list_measure(self.0.as_slice())
    }

    fn write(&self, buffer: &mut [u8]) -> usize {
        write_list(IFLA_VF_INFO, self.0.as_slice(), buffer)
    }
}

impl Entry for LinkVfInfo {
    ghost use Rattle.link_vf.specs.declared.numbers.TheConstants.{IFLA_VF_INFO};
    ghost use Rattle.link_vf.specs.Tables.{link_vf_info_of, link_vf_info_members, link_vf_info_entries};

    type Member = VfInfo;

    const NUMBER: u16 = IFLA_VF_INFO;

    const NAME: &'static str = "IFLA_VF_INFO";

    ghost NUMBER = { IFLA_VF_INFO };

    ghost of = { link_vf_info_of };

    ghost members = { link_vf_info_members };

    ghost grammar = { link_vf_info_place.grammar };

    ghost count = { link_vf_info_place.count };

    fn from_list(list: List<VfInfo>) -> LinkVfInfo
        ensures { result ≡ link_vf_info_of list }
    {
        LinkVfInfo(list)
    }

    ghost laws = { link_vf_info_entries };
}

impl CloneIn for LinkVfInfo {
    fn clone_in(&self, alloc: Global) -> Result<LinkVfInfo, DecodeError> {
        self.0.clone_in(alloc).map(LinkVfInfo)
    }
}

impl Exact for LinkVfInfo {
    ghost use Rattle.std.proofs.Common.{rules};
    ghost use Rattle.std.specs.Prelude.{◌≡◌};
    ghost use Rattle.std.specs.Bool.{Decides};
    ghost use Rattle.nla_wire.specs.Decided.{list_exact};
    ghost use Rattle.link_vf.specs.declared.vf_info.VfInfo.{VfInfo};
    ghost use Rattle.link_vf.specs.contracts.vf_info.VfInfoExact.TheImpl.Laws.{decides-law};

    ghost decides = { λ x y. let h : (p q : List VfInfo) → Decides (⟦<List<VfInfo> as PartialEq>⟧.eq p q) (p ≡ q) =
        list_exact decides-law in Prim.search (rules, h) };
}
