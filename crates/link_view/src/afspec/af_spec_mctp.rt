//! Members of AF_MCTP in IFLA_AF_SPEC over borrowed bytes, made by scripts/erase/borrowed.py of the rows of
//! `AfSpecMctp`: do not edit.

ghost use Rattle.std.specs.Prelude.{◌≡◌, None};
ghost use Rattle.nla_wire.specs.Frames.{number};
ghost use Rattle.nla_wire.specs.Items.{items};
ghost use Rattle.link_afspec.specs.Tables.{af_spec_mctp_place};
ghost use Rattle.link_view.specs.Views.{latest};
ghost use Rattle.link_view.specs.Search.{IsFound};
ghost use Rattle.link_view.specs.Told.{told, told_found, read_found, IsNext};

use crate::message_view::last_in;
use crate::payload::{binding_of, borrow, within};
use crate::sought::{Sought, frame_of};
use link_afspec::AfSpecMctp;
use link_afspec::numbers::*;
use link_vals::MctpPhysBinding;
use nla_wire::{DecodeError, NlaBuffer, NlasIterator, parse_u32};

/// A member of AF_MCTP in IFLA_AF_SPEC over borrowed bytes: a variant for each of `AfSpecMctp`.
#[derive(Drop)]
pub enum BorrowedAfSpecMctp<'a> {
    Net(u32),
    PhysBinding(MctpPhysBinding),
    Other(NlaBuffer<'a>),
}

impl<'a> BorrowedAfSpecMctp<'a> {
    ghost use Rattle.link_view.specs.Afspec.{owned_af_spec_mctp};

    #[tactic(auto, unfolding(link_afspec::specs::Tables::af_spec_mctp_place))]
    #[inline(always)]
    fn read(kind: u16, frame: NlaBuffer<'a>) -> Result<BorrowedAfSpecMctp<'a>, DecodeError>
        requires { kind ≡ number frame }
        ensures { told owned_af_spec_mctp result ≡ af_spec_mctp_place.grammar.reads frame.entry }
    {
        let payload = frame.value();
        match kind {
            IFLA_MCTP_NET => borrow!(BorrowedAfSpecMctp::Net, parse_u32(payload)),
            IFLA_MCTP_PHYS_BINDING => borrow!(BorrowedAfSpecMctp::PhysBinding, binding_of(payload)),
            _ => Ok(BorrowedAfSpecMctp::Other(frame)),
        }
    }

    /// Reads a frame, whose number is given beside it: the value that `parse` gives, or the same fault. A list is not
    /// looked at: its payload may be refused by `parse`.
    #[inline(always)]
    pub fn borrow(kind: u16, frame: NlaBuffer<'a>) -> Result<BorrowedAfSpecMctp<'a>, DecodeError>
        requires { kind ≡ number frame }
        ensures { told owned_af_spec_mctp result ≡ af_spec_mctp_place.grammar.reads frame.entry }
    {
        match Self::read(kind, frame) {
            Ok(value) => Ok(value),
            Err(fault) => Err(within::<AfSpecMctp>(fault, kind)),
        }
    }

    /// The last member of this number; `None` where there is none. Of a list that `parse` reads it is what `parse`
    /// gives: the same variant with the same value.
    #[inline(always)]
    pub fn last(list: &'a [u8], number: u16) -> Result<Option<BorrowedAfSpecMctp<'a>>, DecodeError>
        ensures { told_found owned_af_spec_mctp result
            ≡ read_found af_spec_mctp_place.grammar.reads (latest number None (items list.now)) }
    {
        match last_in(list, number) {
            Ok(Some(frame)) => match Self::borrow(number, frame) {
                Ok(value) => Ok(Some(value)),
                Err(fault) => Err(fault),
            },
            Ok(None) => Ok(None),
            Err(fault) => Err(fault),
        }
    }

    /// The member that `last_each` found: what `last` gives of its number.
    #[inline(always)]
    pub fn found(
        list: &'a [u8],
        sought: Sought,
    ) -> Result<Option<BorrowedAfSpecMctp<'a>>, DecodeError>
        requires { IsFound list.now sought }
        ensures { told_found owned_af_spec_mctp result
            ≡ read_found af_spec_mctp_place.grammar.reads (latest sought.number None (items list.now)) }
    {
        match frame_of(list, sought) {
            Ok(Some(frame)) => match Self::borrow(sought.number, frame) {
                Ok(value) => Ok(Some(value)),
                Err(fault) => Err(fault),
            },
            Ok(None) => Ok(None),
            Err(fault) => Err(fault),
        }
    }

    /// The next member of a list, front to back; `None` after the last.
    #[inline(always)]
    pub fn next(left: &mut NlasIterator<'a>) -> Option<Result<BorrowedAfSpecMctp<'a>, DecodeError>>
        ensures { IsNext owned_af_spec_mctp af_spec_mctp_place.grammar.reads left.old result left.new }
    {
        match left.next() {
            Some(Ok(frame)) => {
                let number = frame.kind();
                Some(Self::borrow(number, frame))
            }
            Some(Err(fault)) => Some(Err(fault)),
            None => None,
        }
    }
}
