//! Settings and statistics of IPv6 on a link, members of AF_INET6 in IFLA_AF_SPEC.

ghost use Rattle.std.specs.Prelude.{◌≡◌};
ghost use Rattle.nla_wire.specs.Gives.{without_place};
ghost use Rattle.link_afspec.specs.Tables.{iface_flags, addr_gen_mode, af_spec_inet6_place};

use crate::numbers::*;
use link_recs::{Icmp6Stats, Inet6CacheInfo, Inet6DevConf, Inet6Stats};
use link_vals::{In6AddrGenMode, Inet6IfaceFlags};
use nla_wire::{
    CloneIn, DecodeError, DefaultNla, Exact, Nla, NlaBuffer, NlaRead, PlainRecord, Record,
    parse_u8, parse_u32, rows,
};
use std::alloc::Global;
use std::net::Ipv6Addr;

/// A member of AF_INET6 in IFLA_AF_SPEC (linux/if_link.h).
#[derive(Debug, Drop, PartialEq, Eq)]
pub enum AfSpecInet6 {
    /// IFLA_INET6_FLAGS: flags of the interface, four bytes, of which every bit is kept.
    Flags(Inet6IfaceFlags),
    /// IFLA_INET6_CACHEINFO: times of the neighbour cache, a record of 16 bytes. A shorter one is refused.
    CacheInfo(Inet6CacheInfo),
    /// IFLA_INET6_CONF: all settings, a record of 240 bytes. A shorter one is filled up with zeros.
    DevConf(Inet6DevConf),
    /// IFLA_INET6_STATS: statistics, a record of 312 bytes. A shorter one is filled up with zeros.
    Stats(Inet6Stats),
    /// IFLA_INET6_ICMP6STATS: statistics of ICMPv6, a record of 56 bytes. A shorter one is filled up with zeros.
    Icmp6Stats(Icmp6Stats),
    /// IFLA_INET6_TOKEN: an address, its sixteen octets in order.
    Token(Ipv6Addr),
    /// IFLA_INET6_ADDR_GEN_MODE: how addresses are made, one byte.
    AddrGenMode(In6AddrGenMode),
    /// IFLA_INET6_RA_MTU: the largest packet that a router advertised, in bytes, a number of four bytes.
    RaMtu(u32),
    /// A number that is not listed here.
    Other(DefaultNla),
}

/// A row for each member that is listed, in their order.
macro_rules! members {
    ($($call:tt)*) => {
        rows! { ($($call)*)
            flags Flags(u32, IFLA_INET6_FLAGS, parse_flags)
            whole CacheInfo(Inet6CacheInfo, IFLA_INET6_CACHEINFO)
            filled DevConf(Inet6DevConf, IFLA_INET6_CONF)
            filled Stats(Inet6Stats, IFLA_INET6_STATS)
            filled Icmp6Stats(Icmp6Stats, IFLA_INET6_ICMP6STATS)
            address Token(Ipv6Addr, IFLA_INET6_TOKEN)
            named AddrGenMode(u8, IFLA_INET6_ADDR_GEN_MODE, parse_mode)
            plain RaMtu(u32, IFLA_INET6_RA_MTU)
        }
    };
}

#[tactic(auto, unfolding(crate::specs::Tables::af_spec_inet6_place), using(crate::proofs::Lengths::inet6_lengths))]
impl Nla for AfSpecInet6 {
    ghost frame = { af_spec_inet6_place.frame };

    ghost fits = { af_spec_inet6_place.Fits };

    ghost is_small = { af_spec_inet6_place.is_small };

    fn kind(&self) -> u16 {
        members!(kind AfSpecInet6, self)
    }

    fn fits(&self) -> bool {
        self.measure().is_some()
    }

    fn value_len(&self) -> usize {
        self.measure().unwrap_or(0)
    }

    fn fill_value(&self, buffer: &mut [u8]) -> usize {
        members!(fill AfSpecInet6, self, buffer)
    }

    fn measure(&self) -> Option<usize> {
        members!(size AfSpecInet6, self)
    }
}

/// Flags of an interface, four bytes.
fn parse_flags(payload: &[u8]) -> Result<Inet6IfaceFlags, DecodeError>
    ensures { without_place result ≡ iface_flags.grammar.reads payload.now }
{
    parse_u32(payload).map(Inet6IfaceFlags::from_bits_retain)
}

/// How addresses are made, one byte.
fn parse_mode(payload: &[u8]) -> Result<In6AddrGenMode, DecodeError>
    ensures { without_place result ≡ addr_gen_mode.grammar.reads payload.now }
{
    parse_u8(payload).map(In6AddrGenMode::from)
}

impl NlaRead for AfSpecInet6 {
    ghost use Rattle.nla_wire.proofs.Codec.{place_bounded};

    ghost grammar = { af_spec_inet6_place.grammar };

    fn kind_name(kind: u16) -> &'static str {
        members!(name kind)
    }

    #[tactic(auto, unfolding(crate::specs::Tables::af_spec_inet6_place))]
    fn parse_frame(alloc: Global, buffer: &NlaBuffer<'_>) -> Result<AfSpecInet6, DecodeError> {
        members!(parse AfSpecInet6, alloc, buffer)
    }

    #[tactic(auto, unfolding(crate::specs::Tables::af_spec_inet6_place))]
    fn check_frame(buffer: &NlaBuffer<'_>) -> Result<(), DecodeError> {
        members!(check buffer)
    }

    #[inline(always)]
    #[tactic(auto, unfolding(crate::proofs::Opened::inet6), using(link_vals::proofs::Numbers::in6_addr_gen_mode_again))]
    fn measure_frame(buffer: &NlaBuffer<'_>) -> Option<usize> {
        members!(measure buffer)
    }

    #[tactic(auto, unfolding(crate::proofs::Opened::inet6), using(link_vals::proofs::Numbers::in6_addr_gen_mode_again))]
    fn write_frame(buffer: &NlaBuffer<'_>, out: &mut [u8]) -> usize {
        members!(write buffer, out)
    }

    ghost agrees = { af_spec_inet6_place.lawful.agrees };

    ghost no_memory = { af_spec_inet6_place.lawful.no_memory };

    ghost bounded = { place_bounded af_spec_inet6_place };
}

impl CloneIn for AfSpecInet6 {
    fn clone_in(&self, alloc: Global) -> Result<AfSpecInet6, DecodeError> {
        members!(copy AfSpecInet6, self, alloc)
    }
}

impl Exact for AfSpecInet6 {
    ghost use Rattle.nla_wire.specs.Decided.{by_exact, one_field, number_exact};
    ghost use Rattle.nla_wire.specs.Same.{same_frame-Decides};
    ghost use Rattle.link_recs.specs.Inet6DevConfFields.{inet6_dev_conf_decides};
    ghost use Rattle.link_recs.specs.Inet6StatsFields.{inet6_stats_decides};
    ghost use Rattle.link_recs.specs.Icmp6StatsFields.{icmp6_stats_decides};
    ghost use Rattle.link_recs.specs.Inet6CacheInfoFields.{inet6_cache_info_decides};
    ghost use Rattle.link_vals.specs.contracts.inet6_iface_flags.Inet6IfaceFlagsExact.TheImpl.Laws.{
      decides-law as flags_exact,
    };
    ghost use Rattle.link_vals.specs.contracts.addr_gen_mode.In6AddrGenModeExact.TheImpl.Laws.{
      decides-law as mode_exact,
    };
    ghost use Rattle.link_afspec.specs.Same.{address_exact};
    ghost use Rattle.link_afspec.specs.contracts.inet6.AfSpecInet6.{enum};

    ghost decides = { by_exact enum _ (Prim.assumption (
      one_field flags_exact,
      one_field inet6_cache_info_decides,
      one_field inet6_dev_conf_decides,
      one_field inet6_stats_decides,
      one_field icmp6_stats_decides,
      one_field address_exact,
      one_field mode_exact,
      one_field number_exact,
      one_field same_frame-Decides,
    )) };
}
