//! The list of ports, IFLA_VF_PORTS, and the port of the interface itself, IFLA_PORT_SELF.

ghost use Rattle.std.specs.Prelude.{◌≡◌, List};
ghost use Rattle.link_vf.specs.Tables.{link_vf_port_place};

use crate::VfPort;
use crate::entry::Entry;
use crate::numbers::IFLA_VF_PORT;
use nla_wire::{
    CloneIn, DecodeError, Exact, List, Nla, list_fits, list_measure, nlas_buffer_len, nlas_fill,
    write_list,
};
use std::alloc::Global;

/// An entry of IFLA_VF_PORTS, with the number of IFLA_VF_PORT (linux/if_link.h): what is said of one port. Alone it is
/// the value of IFLA_PORT_SELF.
#[derive(Debug, Drop, PartialEq, Eq)]
pub struct LinkVfPort(pub List<VfPort>);

#[tactic(auto, unfolding(crate::specs::Tables::link_vf_port_place))]
impl Nla for LinkVfPort {
    ghost frame = { link_vf_port_place.frame };

    ghost fits = { link_vf_port_place.Fits };

    ghost is_small = { link_vf_port_place.is_small };

    fn kind(&self) -> u16 {
        IFLA_VF_PORT
    }

    fn fits(&self) -> bool {
        list_fits(self.0.as_slice())
    }

    fn value_len(&self) -> usize {
        nlas_buffer_len(self.0.as_slice())
    }

    fn fill_value(&self, buffer: &mut [u8]) -> usize {
        nlas_fill(self.0.as_slice(), buffer)
    }

    fn measure(&self) -> Option<usize> {
        list_measure(self.0.as_slice())
    }

    fn write(&self, buffer: &mut [u8]) -> usize {
        write_list(IFLA_VF_PORT, self.0.as_slice(), buffer)
    }
}

impl Entry for LinkVfPort {
    ghost use Rattle.link_vf.specs.declared.numbers.TheConstants.{IFLA_VF_PORT};
    ghost use Rattle.link_vf.specs.Tables.{link_vf_port_of, link_vf_port_members, link_vf_port_entries};

    type Member = VfPort;

    const NUMBER: u16 = IFLA_VF_PORT;

    const NAME: &'static str = "IFLA_VF_PORT";

    ghost NUMBER = { IFLA_VF_PORT };

    ghost of = { link_vf_port_of };

    ghost members = { link_vf_port_members };

    ghost grammar = { link_vf_port_place.grammar };

    ghost count = { link_vf_port_place.count };

    fn from_list(list: List<VfPort>) -> LinkVfPort
        ensures { result ≡ link_vf_port_of list }
    {
        LinkVfPort(list)
    }

    ghost laws = { link_vf_port_entries };
}

impl CloneIn for LinkVfPort {
    fn clone_in(&self, alloc: Global) -> Result<LinkVfPort, DecodeError> {
        self.0.clone_in(alloc).map(LinkVfPort)
    }
}

impl Exact for LinkVfPort {
    ghost use Rattle.std.proofs.Common.{rules};
    ghost use Rattle.std.specs.Prelude.{◌≡◌};
    ghost use Rattle.std.specs.Bool.{Decides};
    ghost use Rattle.nla_wire.specs.Decided.{list_exact};
    ghost use Rattle.link_vf.specs.declared.vf_port.VfPort.{VfPort};
    ghost use Rattle.link_vf.specs.contracts.vf_port.VfPortExact.TheImpl.Laws.{decides-law};

    ghost decides = { λ x y. let h : (p q : List VfPort) → Decides (⟦<List<VfPort> as PartialEq>⟧.eq p q) (p ≡ q) =
        list_exact decides-law in Prim.search (rules, h) };
}
