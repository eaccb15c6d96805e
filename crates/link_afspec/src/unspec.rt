//! Settings of a link by family, members of IFLA_AF_SPEC of the family AF_UNSPEC.

use crate::numbers::*;
use crate::{AfSpecInet, AfSpecInet6, AfSpecMctp};
use nla_wire::{CloneIn, DecodeError, DefaultNla, Exact, List, Nla, NlaBuffer, NlaRead, rows};
use std::alloc::Global;

/// A member of IFLA_AF_SPEC of the family AF_UNSPEC (linux/if_link.h): its number is a family (linux/socket.h), and its
/// payload a non-empty list.
#[derive(Debug, Drop, PartialEq, Eq)]
pub enum AfSpecUnspec {
    /// AF_INET: settings of IPv4.
    Inet(List<AfSpecInet>),
    /// AF_INET6: settings and statistics of IPv6.
    Inet6(List<AfSpecInet6>),
    /// AF_MCTP: settings of MCTP.
    Mctp(List<AfSpecMctp>),
    /// A number that is not listed here.
    Other(DefaultNla),
}

/// A row for each member that is listed, in their order.
macro_rules! members {
    ($($call:tt)*) => {
        rows! { ($($call)*)
            some Inet(AfSpecInet, AF_INET)
            some Inet6(AfSpecInet6, AF_INET6)
            some Mctp(AfSpecMctp, AF_MCTP)
        }
    };
}

#[tactic(auto, unfolding(crate::specs::Tables::af_spec_unspec_place))]
impl Nla for AfSpecUnspec {
    ghost use Rattle.link_afspec.specs.Tables.{af_spec_unspec_place};

    ghost frame = { af_spec_unspec_place.frame };

    ghost fits = { af_spec_unspec_place.Fits };

    ghost is_small = { af_spec_unspec_place.is_small };

    fn kind(&self) -> u16 {
        members!(kind AfSpecUnspec, self)
    }

    fn fits(&self) -> bool {
        self.measure().is_some()
    }

    fn value_len(&self) -> usize {
        self.measure().unwrap_or(0)
    }

    fn fill_value(&self, buffer: &mut [u8]) -> usize {
        members!(fill AfSpecUnspec, self, buffer)
    }

    fn measure(&self) -> Option<usize> {
        members!(size AfSpecUnspec, self)
    }

    fn write(&self, buffer: &mut [u8]) -> usize {
        members!(put AfSpecUnspec, self, buffer)
    }
}

impl NlaRead for AfSpecUnspec {
    ghost use Rattle.link_afspec.specs.Tables.{af_spec_unspec_place};
    ghost use Rattle.nla_wire.proofs.Codec.{place_bounded};

    ghost grammar = { af_spec_unspec_place.grammar };

    fn kind_name(kind: u16) -> &'static str {
        members!(name kind)
    }

    #[tactic(auto, unfolding(crate::specs::Tables::af_spec_unspec_place, nla_wire::specs::Grammar::unless_empty))]
    fn parse_frame(alloc: Global, buffer: &NlaBuffer<'_>) -> Result<AfSpecUnspec, DecodeError> {
        members!(parse AfSpecUnspec, alloc, buffer)
    }

    #[tactic(auto, unfolding(crate::specs::Tables::af_spec_unspec_place, nla_wire::specs::Grammar::unless_empty))]
    fn check_frame(buffer: &NlaBuffer<'_>) -> Result<(), DecodeError> {
        members!(check buffer)
    }

    #[inline(always)]
    #[tactic(auto, unfolding(crate::specs::Tables::af_spec_unspec_place, nla_wire::specs::Grammar::unless_empty))]
    fn measure_frame(buffer: &NlaBuffer<'_>) -> Option<usize> {
        members!(measure buffer)
    }

    #[tactic(auto, unfolding(crate::specs::Tables::af_spec_unspec_place, nla_wire::specs::Grammar::unless_empty))]
    fn write_frame(buffer: &NlaBuffer<'_>, out: &mut [u8]) -> usize {
        members!(write buffer, out)
    }

    ghost agrees = { af_spec_unspec_place.lawful.agrees };

    ghost no_memory = { af_spec_unspec_place.lawful.no_memory };

    ghost bounded = { place_bounded af_spec_unspec_place };
}

impl CloneIn for AfSpecUnspec {
    fn clone_in(&self, alloc: Global) -> Result<AfSpecUnspec, DecodeError> {
        members!(copy AfSpecUnspec, self, alloc)
    }
}

impl Exact for AfSpecUnspec {
    ghost use Rattle.nla_wire.specs.Decided.{◌&◌, by_exact, list_exact};
    ghost use Rattle.nla_wire.specs.Same.{same_frame-Decides};
    ghost use Rattle.link_afspec.specs.contracts.unspec.AfSpecUnspec.{enum};
    ghost use Rattle.link_afspec.specs.contracts.inet.AfSpecInetExact.TheImpl.Laws.{decides-law as inet_exact};
    ghost use Rattle.link_afspec.specs.contracts.inet6.AfSpecInet6Exact.TheImpl.Laws.{decides-law as inet6_exact};
    ghost use Rattle.link_afspec.specs.contracts.mctp.AfSpecMctpExact.TheImpl.Laws.{decides-law as mctp_exact};

    ghost decides = { by_exact enum _ (
        list_exact inet_exact
        & list_exact inet6_exact
        & list_exact mctp_exact
        & same_frame-Decides
        & tt) };
}
