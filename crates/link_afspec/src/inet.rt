//! Settings of IPv4 on a link, members of AF_INET in IFLA_AF_SPEC.

ghost use Rattle.link_afspec.specs.Tables.{af_spec_inet_place};

use crate::numbers::IFLA_INET_CONF;
use crate::request::{fill_request, request_len};
use link_recs::InetDevConf;
use nla_wire::{
    CloneIn, DecodeError, DefaultNla, Exact, NLA_F_NESTED, Nla, NlaBuffer, NlaRead, PlainRecord,
    Record, kind_names, write_value,
};
use std::alloc::Global;

/// A member of AF_INET in IFLA_AF_SPEC (linux/if_link.h).
#[derive(Debug, Drop, PartialEq, Eq)]
pub enum AfSpecInet {
    /// IFLA_INET_CONF: all settings, a record of 136 bytes, as the kernel sends them. A shorter one is filled up with
    /// zeros.
    DevConf(InetDevConf),
    /// IFLA_INET_CONF, with the nested flag: an attribute of four bytes for each setting that is not zero, as the
    /// kernel is asked to change them. It is written only: no bytes are read as it.
    DevConfRequest(InetDevConf),
    /// A number that is not listed here.
    Other(DefaultNla),
}

#[tactic(auto, unfolding(crate::specs::Tables::af_spec_inet_place), using(crate::proofs::Lengths::inet_lengths))]
impl Nla for AfSpecInet {
    ghost frame = { af_spec_inet_place.frame };

    ghost fits = { af_spec_inet_place.Fits };

    ghost is_small = { af_spec_inet_place.is_small };

    fn kind(&self) -> u16 {
        match self {
            AfSpecInet::DevConf(_) => IFLA_INET_CONF,
            AfSpecInet::DevConfRequest(_) => IFLA_INET_CONF | NLA_F_NESTED,
            AfSpecInet::Other(nla) => nla.kind(),
        }
    }

    fn fits(&self) -> bool {
        match self {
            AfSpecInet::Other(nla) => nla.fits(),
            _ => true,
        }
    }

    fn value_len(&self) -> usize {
        match self {
            AfSpecInet::DevConf(conf) => conf.buffer_len(),
            AfSpecInet::DevConfRequest(conf) => request_len(conf),
            AfSpecInet::Other(nla) => nla.value_len(),
        }
    }

    fn fill_value(&self, buffer: &mut [u8]) -> usize {
        match self {
            AfSpecInet::DevConf(conf) => conf.fill(buffer),
            AfSpecInet::DevConfRequest(conf) => fill_request(conf, buffer),
            AfSpecInet::Other(nla) => nla.fill_value(buffer),
        }
    }
}

impl NlaRead for AfSpecInet {
    ghost use Rattle.nla_wire.proofs.Codec.{place_bounded};

    ghost grammar = { af_spec_inet_place.grammar };

    fn kind_name(kind: u16) -> &'static str {
        kind_names!(kind; IFLA_INET_CONF)
    }

    #[tactic(auto, unfolding(crate::specs::Tables::af_spec_inet_place))]
    fn parse_frame(alloc: Global, buffer: &NlaBuffer<'_>) -> Result<AfSpecInet, DecodeError> {
        match buffer.kind() {
            IFLA_INET_CONF => Ok(AfSpecInet::DevConf(InetDevConf::read_padded(buffer.value()))),
            _ => DefaultNla::parse(alloc, buffer).map(AfSpecInet::Other),
        }
    }

    #[tactic(auto, unfolding(crate::specs::Tables::af_spec_inet_place))]
    fn check_frame(_buffer: &NlaBuffer<'_>) -> Result<(), DecodeError> {
        Ok(())
    }

    #[inline(always)]
    #[tactic(auto, unfolding(crate::specs::Tables::af_spec_inet_place))]
    fn measure_frame(buffer: &NlaBuffer<'_>) -> Option<usize> {
        match buffer.kind() {
            IFLA_INET_CONF => InetDevConf::measure_filled(buffer.value()),
            _ => Some(buffer.value().len()),
        }
    }

    #[tactic(auto, unfolding(crate::specs::Tables::af_spec_inet_place))]
    fn write_frame(buffer: &NlaBuffer<'_>, out: &mut [u8]) -> usize {
        match buffer.kind() {
            IFLA_INET_CONF => InetDevConf::write_filled(IFLA_INET_CONF, buffer.value(), out),
            _ => write_value(buffer.kind_with_flags(), buffer.value(), out),
        }
    }

    ghost agrees = { af_spec_inet_place.lawful.agrees };

    ghost no_memory = { af_spec_inet_place.lawful.no_memory };

    ghost bounded = { place_bounded af_spec_inet_place };
}

impl CloneIn for AfSpecInet {
    fn clone_in(&self, alloc: Global) -> Result<AfSpecInet, DecodeError> {
        match self {
            AfSpecInet::DevConf(conf) => Ok(AfSpecInet::DevConf(*conf)),
            AfSpecInet::DevConfRequest(conf) => Ok(AfSpecInet::DevConfRequest(*conf)),
            AfSpecInet::Other(nla) => Ok(AfSpecInet::Other(nla.clone_in(alloc)?)),
        }
    }
}

impl Exact for AfSpecInet {
    ghost use Rattle.nla_wire.specs.Decided.{◌&◌, by_exact};
    ghost use Rattle.nla_wire.specs.Same.{same_frame-Decides};
    ghost use Rattle.link_recs.specs.InetDevConfFields.{inet_dev_conf_decides};
    ghost use Rattle.link_afspec.specs.contracts.inet.AfSpecInet.{enum};

    ghost decides = { by_exact enum _ (
        inet_dev_conf_decides
        & inet_dev_conf_decides
        & same_frame-Decides
        & tt) };
}
