//! Members of AF_INET6 in IFLA_AF_SPEC over borrowed bytes, made by scripts/erase/borrowed.py of the rows of
//! `AfSpecInet6`: do not edit.

ghost use Rattle.std.specs.Prelude.{◌≡◌, None};
ghost use Rattle.nla_wire.specs.Frames.{number};
ghost use Rattle.nla_wire.specs.Items.{items};
ghost use Rattle.link_afspec.specs.Tables.{af_spec_inet6_place};
ghost use Rattle.link_view.specs.Views.{latest};
ghost use Rattle.link_view.specs.Search.{IsFound};
ghost use Rattle.link_view.specs.Told.{told, told_found, read_found, IsNext};

use crate::message_view::last_in;
use crate::payload::{borrow, flags_of, mode_of, within};
use crate::sought::{Sought, frame_of};
use link_afspec::AfSpecInet6;
use link_afspec::numbers::*;
use link_recs::{Icmp6Stats, Inet6CacheInfo, Inet6DevConf, Inet6Stats};
use link_vals::{In6AddrGenMode, Inet6IfaceFlags};
use nla_wire::{DecodeError, NlaBuffer, NlasIterator, parse_ipv6_addr, parse_u32};
use std::net::Ipv6Addr;

/// A member of AF_INET6 in IFLA_AF_SPEC over borrowed bytes: a variant for each of `AfSpecInet6`.
#[derive(Drop)]
pub enum BorrowedAfSpecInet6<'a> {
    Flags(Inet6IfaceFlags),
    CacheInfo(Inet6CacheInfo),
    DevConf(Inet6DevConf),
    Stats(Inet6Stats),
    Icmp6Stats(Icmp6Stats),
    Token(Ipv6Addr),
    AddrGenMode(In6AddrGenMode),
    RaMtu(u32),
    Other(NlaBuffer<'a>),
}

impl<'a> BorrowedAfSpecInet6<'a> {
    ghost use Rattle.link_view.specs.Afspec.{owned_af_spec_inet6};

    #[tactic(auto, unfolding(link_afspec::specs::Tables::af_spec_inet6_place))]
    #[inline(always)]
    fn read(kind: u16, frame: NlaBuffer<'a>) -> Result<BorrowedAfSpecInet6<'a>, DecodeError>
        requires { kind ≡ number frame }
        ensures { told owned_af_spec_inet6 result ≡ af_spec_inet6_place.grammar.reads frame.entry }
    {
        let payload = frame.value();
        match kind {
            IFLA_INET6_FLAGS => borrow!(BorrowedAfSpecInet6::Flags, flags_of(payload)),
            IFLA_INET6_CACHEINFO => borrow!(
                BorrowedAfSpecInet6::CacheInfo,
                Inet6CacheInfo::parse(payload)
            ),
            IFLA_INET6_CONF => Ok(BorrowedAfSpecInet6::DevConf(Inet6DevConf::read_padded(payload))),
            IFLA_INET6_STATS => Ok(BorrowedAfSpecInet6::Stats(Inet6Stats::read_padded(payload))),
            IFLA_INET6_ICMP6STATS => Ok(BorrowedAfSpecInet6::Icmp6Stats(Icmp6Stats::read_padded(
                payload,
            ))),
            IFLA_INET6_TOKEN => borrow!(BorrowedAfSpecInet6::Token, parse_ipv6_addr(payload)),
            IFLA_INET6_ADDR_GEN_MODE => borrow!(BorrowedAfSpecInet6::AddrGenMode, mode_of(payload)),
            IFLA_INET6_RA_MTU => borrow!(BorrowedAfSpecInet6::RaMtu, parse_u32(payload)),
            _ => Ok(BorrowedAfSpecInet6::Other(frame)),
        }
    }

    /// Reads a frame, whose number is given beside it: the value that `parse` gives, or the same fault. A list is not
    /// looked at: its payload may be refused by `parse`.
    #[inline(always)]
    pub fn borrow(kind: u16, frame: NlaBuffer<'a>) -> Result<BorrowedAfSpecInet6<'a>, DecodeError>
        requires { kind ≡ number frame }
        ensures { told owned_af_spec_inet6 result ≡ af_spec_inet6_place.grammar.reads frame.entry }
    {
        match Self::read(kind, frame) {
            Ok(value) => Ok(value),
            Err(fault) => Err(within::<AfSpecInet6>(fault, kind)),
        }
    }

    /// The last member of this number; `None` where there is none. Of a list that `parse` reads it is what `parse`
    /// gives: the same variant with the same value.
    #[inline(always)]
    pub fn last(list: &'a [u8], number: u16) -> Result<Option<BorrowedAfSpecInet6<'a>>, DecodeError>
        ensures { told_found owned_af_spec_inet6 result
            ≡ read_found af_spec_inet6_place.grammar.reads (latest number None (items list.now)) }
    {
        match last_in(list, number) {
            Ok(Some(frame)) => match Self::borrow(number, frame) {
                Ok(value) => Ok(Some(value)),
                Err(fault) => Err(fault),
            },
            Ok(None) => Ok(None),
            Err(fault) => Err(fault),
        }
    }

    /// The member that `last_each` found: what `last` gives of its number.
    #[inline(always)]
    pub fn found(
        list: &'a [u8],
        sought: Sought,
    ) -> Result<Option<BorrowedAfSpecInet6<'a>>, DecodeError>
        requires { IsFound list.now sought }
        ensures { told_found owned_af_spec_inet6 result
            ≡ read_found af_spec_inet6_place.grammar.reads (latest sought.number None (items list.now)) }
    {
        match frame_of(list, sought) {
            Ok(Some(frame)) => match Self::borrow(sought.number, frame) {
                Ok(value) => Ok(Some(value)),
                Err(fault) => Err(fault),
            },
            Ok(None) => Ok(None),
            Err(fault) => Err(fault),
        }
    }

    /// The next member of a list, front to back; `None` after the last.
    #[inline(always)]
    pub fn next(left: &mut NlasIterator<'a>) -> Option<Result<BorrowedAfSpecInet6<'a>, DecodeError>>
        ensures { IsNext owned_af_spec_inet6 af_spec_inet6_place.grammar.reads left.old result left.new }
    {
        match left.next() {
            Some(Ok(frame)) => {
                let number = frame.kind();
                Some(Self::borrow(number, frame))
            }
            Some(Err(fault)) => Some(Err(fault)),
            None => None,
        }
    }
}
