//! Members of IFLA_XDP over borrowed bytes, made by scripts/erase/borrowed.py of the rows of `LinkXdp`: do not edit.

ghost use Rattle.std.specs.Prelude.{◌≡◌, None};
ghost use Rattle.nla_wire.specs.Frames.{number};
ghost use Rattle.nla_wire.specs.Items.{items};
ghost use Rattle.link_nest.specs.Tables.{xdp_place};
ghost use Rattle.link_view.specs.Views.{latest};
ghost use Rattle.link_view.specs.Search.{IsFound};
ghost use Rattle.link_view.specs.Told.{told, told_found, read_found, IsNext};

use crate::message_view::last_in;
use crate::payload::{attached_of, borrow, within};
use crate::sought::{Sought, frame_of};
use link_nest::LinkXdp;
use link_nest::numbers::*;
use link_vals::XdpAttached;
use nla_wire::{DecodeError, NlaBuffer, NlasIterator, parse_i32, parse_u32};

/// A member of IFLA_XDP over borrowed bytes: a variant for each of `LinkXdp`.
#[derive(Drop)]
pub enum BorrowedLinkXdp<'a> {
    Fd(i32),
    Attached(XdpAttached),
    Flags(u32),
    ProgId(u32),
    DrvProgId(u32),
    SkbProgId(u32),
    HwProgId(u32),
    ExpectedFd(u32),
    Other(NlaBuffer<'a>),
}

impl<'a> BorrowedLinkXdp<'a> {
    ghost use Rattle.link_view.specs.Nest.{owned_link_xdp};

    #[tactic(auto, unfolding(link_nest::specs::Tables::xdp_place))]
    #[inline(always)]
    fn read(kind: u16, frame: NlaBuffer<'a>) -> Result<BorrowedLinkXdp<'a>, DecodeError>
        requires { kind ≡ number frame }
        ensures { told owned_link_xdp result ≡ xdp_place.grammar.reads frame.entry }
    {
        let payload = frame.value();
        match kind {
            IFLA_XDP_FD => borrow!(BorrowedLinkXdp::Fd, parse_i32(payload)),
            IFLA_XDP_ATTACHED => borrow!(BorrowedLinkXdp::Attached, attached_of(payload)),
            IFLA_XDP_FLAGS => borrow!(BorrowedLinkXdp::Flags, parse_u32(payload)),
            IFLA_XDP_PROG_ID => borrow!(BorrowedLinkXdp::ProgId, parse_u32(payload)),
            IFLA_XDP_DRV_PROG_ID => borrow!(BorrowedLinkXdp::DrvProgId, parse_u32(payload)),
            IFLA_XDP_SKB_PROG_ID => borrow!(BorrowedLinkXdp::SkbProgId, parse_u32(payload)),
            IFLA_XDP_HW_PROG_ID => borrow!(BorrowedLinkXdp::HwProgId, parse_u32(payload)),
            IFLA_XDP_EXPECTED_FD => borrow!(BorrowedLinkXdp::ExpectedFd, parse_u32(payload)),
            _ => Ok(BorrowedLinkXdp::Other(frame)),
        }
    }

    /// Reads a frame, whose number is given beside it: the value that `parse` gives, or the same fault. A list is not
    /// looked at: its payload may be refused by `parse`.
    #[inline(always)]
    pub fn borrow(kind: u16, frame: NlaBuffer<'a>) -> Result<BorrowedLinkXdp<'a>, DecodeError>
        requires { kind ≡ number frame }
        ensures { told owned_link_xdp result ≡ xdp_place.grammar.reads frame.entry }
    {
        match Self::read(kind, frame) {
            Ok(value) => Ok(value),
            Err(fault) => Err(within::<LinkXdp>(fault, kind)),
        }
    }

    /// The last member of this number; `None` where there is none. Of a list that `parse` reads it is what `parse`
    /// gives: the same variant with the same value.
    #[inline(always)]
    pub fn last(list: &'a [u8], number: u16) -> Result<Option<BorrowedLinkXdp<'a>>, DecodeError>
        ensures { told_found owned_link_xdp result
            ≡ read_found xdp_place.grammar.reads (latest number None (items list.now)) }
    {
        match last_in(list, number) {
            Ok(Some(frame)) => match Self::borrow(number, frame) {
                Ok(value) => Ok(Some(value)),
                Err(fault) => Err(fault),
            },
            Ok(None) => Ok(None),
            Err(fault) => Err(fault),
        }
    }

    /// The member that `last_each` found: what `last` gives of its number.
    #[inline(always)]
    pub fn found(list: &'a [u8], sought: Sought) -> Result<Option<BorrowedLinkXdp<'a>>, DecodeError>
        requires { IsFound list.now sought }
        ensures { told_found owned_link_xdp result
            ≡ read_found xdp_place.grammar.reads (latest sought.number None (items list.now)) }
    {
        match frame_of(list, sought) {
            Ok(Some(frame)) => match Self::borrow(sought.number, frame) {
                Ok(value) => Ok(Some(value)),
                Err(fault) => Err(fault),
            },
            Ok(None) => Ok(None),
            Err(fault) => Err(fault),
        }
    }

    /// The next member of a list, front to back; `None` after the last.
    #[inline(always)]
    pub fn next(left: &mut NlasIterator<'a>) -> Option<Result<BorrowedLinkXdp<'a>, DecodeError>>
        ensures { IsNext owned_link_xdp xdp_place.grammar.reads
            left.old result left.new }
    {
        match left.next() {
            Some(Ok(frame)) => {
                let number = frame.kind();
                Some(Self::borrow(number, frame))
            }
            Some(Err(fault)) => Some(Err(fault)),
            None => None,
        }
    }
}
