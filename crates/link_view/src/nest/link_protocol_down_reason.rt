//! Members of IFLA_PROTO_DOWN_REASON over borrowed bytes, made by scripts/erase/borrowed.py of the rows of
//! `LinkProtocolDownReason`: do not edit.

ghost use Rattle.std.specs.Prelude.{◌≡◌, None};
ghost use Rattle.nla_wire.specs.Frames.{number};
ghost use Rattle.nla_wire.specs.Items.{items};
ghost use Rattle.link_nest.specs.Tables.{down_reason_place};
ghost use Rattle.link_view.specs.Views.{latest};
ghost use Rattle.link_view.specs.Search.{IsFound};
ghost use Rattle.link_view.specs.Told.{told, told_found, read_found, IsNext};

use crate::message_view::last_in;
use crate::payload::{borrow, within};
use crate::sought::{Sought, frame_of};
use link_nest::LinkProtocolDownReason;
use link_nest::numbers::*;
use nla_wire::{DecodeError, NlaBuffer, NlasIterator, parse_u32};

/// A member of IFLA_PROTO_DOWN_REASON over borrowed bytes: a variant for each of `LinkProtocolDownReason`.
#[derive(Drop)]
pub enum BorrowedLinkProtocolDownReason<'a> {
    Mask(u32),
    Value(u32),
    Other(NlaBuffer<'a>),
}

impl<'a> BorrowedLinkProtocolDownReason<'a> {
    ghost use Rattle.link_view.specs.Nest.{owned_link_protocol_down_reason};

    #[tactic(auto, unfolding(link_nest::specs::Tables::down_reason_place))]
    #[inline(always)]
    fn read(
        kind: u16,
        frame: NlaBuffer<'a>,
    ) -> Result<BorrowedLinkProtocolDownReason<'a>, DecodeError>
        requires { kind ≡ number frame }
        ensures { told owned_link_protocol_down_reason result ≡ down_reason_place.grammar.reads frame.entry }
    {
        let payload = frame.value();
        match kind {
            IFLA_PROTO_DOWN_REASON_MASK => borrow!(
                BorrowedLinkProtocolDownReason::Mask,
                parse_u32(payload)
            ),
            IFLA_PROTO_DOWN_REASON_VALUE => borrow!(
                BorrowedLinkProtocolDownReason::Value,
                parse_u32(payload)
            ),
            _ => Ok(BorrowedLinkProtocolDownReason::Other(frame)),
        }
    }

    /// Reads a frame, whose number is given beside it: the value that `parse` gives, or the same fault. A list is not
    /// looked at: its payload may be refused by `parse`.
    #[inline(always)]
    pub fn borrow(
        kind: u16,
        frame: NlaBuffer<'a>,
    ) -> Result<BorrowedLinkProtocolDownReason<'a>, DecodeError>
        requires { kind ≡ number frame }
        ensures { told owned_link_protocol_down_reason result ≡ down_reason_place.grammar.reads frame.entry }
    {
        match Self::read(kind, frame) {
            Ok(value) => Ok(value),
            Err(fault) => Err(within::<LinkProtocolDownReason>(fault, kind)),
        }
    }

    /// The last member of this number; `None` where there is none. Of a list that `parse` reads it is what `parse`
    /// gives: the same variant with the same value.
    #[inline(always)]
    pub fn last(
        list: &'a [u8],
        number: u16,
    ) -> Result<Option<BorrowedLinkProtocolDownReason<'a>>, DecodeError>
        ensures { told_found owned_link_protocol_down_reason result
            ≡ read_found down_reason_place.grammar.reads (latest number None (items list.now)) }
    {
        match last_in(list, number) {
            Ok(Some(frame)) => match Self::borrow(number, frame) {
                Ok(value) => Ok(Some(value)),
                Err(fault) => Err(fault),
            },
            Ok(None) => Ok(None),
            Err(fault) => Err(fault),
        }
    }

    /// The member that `last_each` found: what `last` gives of its number.
    #[inline(always)]
    pub fn found(
        list: &'a [u8],
        sought: Sought,
    ) -> Result<Option<BorrowedLinkProtocolDownReason<'a>>, DecodeError>
        requires { IsFound list.now sought }
        ensures { told_found owned_link_protocol_down_reason result
            ≡ read_found down_reason_place.grammar.reads (latest sought.number None (items list.now)) }
    {
        match frame_of(list, sought) {
            Ok(Some(frame)) => match Self::borrow(sought.number, frame) {
                Ok(value) => Ok(Some(value)),
                Err(fault) => Err(fault),
            },
            Ok(None) => Ok(None),
            Err(fault) => Err(fault),
        }
    }

    /// The next member of a list, front to back; `None` after the last.
    #[inline(always)]
    pub fn next(
        left: &mut NlasIterator<'a>,
    ) -> Option<Result<BorrowedLinkProtocolDownReason<'a>, DecodeError>>
        ensures { IsNext owned_link_protocol_down_reason down_reason_place.grammar.reads
            left.old result left.new }
    {
        match left.next() {
            Some(Ok(frame)) => {
                let number = frame.kind();
                Some(Self::borrow(number, frame))
            }
            Some(Err(fault)) => Some(Err(fault)),
            None => None,
        }
    }
}
