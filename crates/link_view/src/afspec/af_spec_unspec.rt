//! Members of IFLA_AF_SPEC of the family AF_UNSPEC over borrowed bytes, made by scripts/erase/borrowed.py of the rows
//! of `AfSpecUnspec`: do not edit.

ghost use Rattle.std.specs.Prelude.{◌≡◌, None};
ghost use Rattle.nla_wire.specs.Frames.{number};
ghost use Rattle.nla_wire.specs.Items.{items};
ghost use Rattle.link_afspec.specs.Tables.{af_spec_unspec_place};
ghost use Rattle.link_view.specs.Views.{latest};
ghost use Rattle.link_view.specs.Search.{IsFound};
ghost use Rattle.link_view.specs.Told.{told, told_found, read_found, IsNext};

use crate::message_view::last_in;
use crate::payload::{some, within};
use crate::sought::{Sought, frame_of};
use link_afspec::AfSpecUnspec;
use link_afspec::numbers::*;
use nla_wire::{DecodeError, NlaBuffer, NlasIterator, empty_list};

/// A member of IFLA_AF_SPEC of the family AF_UNSPEC over borrowed bytes: a variant for each of `AfSpecUnspec`.
#[derive(Drop)]
pub enum BorrowedAfSpecUnspec<'a> {
    Inet(&'a [u8]),
    Inet6(&'a [u8]),
    Mctp(&'a [u8]),
    Other(NlaBuffer<'a>),
}

impl<'a> BorrowedAfSpecUnspec<'a> {
    ghost use Rattle.link_view.specs.Afspec.{owned_af_spec_unspec};

    #[tactic(auto, unfolding(link_afspec::specs::Tables::af_spec_unspec_place, nla_wire::specs::Grammar::unless_empty))]
    #[inline(always)]
    fn read(kind: u16, frame: NlaBuffer<'a>) -> Result<BorrowedAfSpecUnspec<'a>, DecodeError>
        requires { kind ≡ number frame }
        ensures { told owned_af_spec_unspec result ≡ af_spec_unspec_place.grammar.reads frame.entry }
    {
        let payload = frame.value();
        match kind {
            AF_INET => some!(BorrowedAfSpecUnspec::Inet, payload),
            AF_INET6 => some!(BorrowedAfSpecUnspec::Inet6, payload),
            AF_MCTP => some!(BorrowedAfSpecUnspec::Mctp, payload),
            _ => Ok(BorrowedAfSpecUnspec::Other(frame)),
        }
    }

    /// Reads a frame, whose number is given beside it: the value that `parse` gives, or the same fault. A list is not
    /// looked at: its payload may be refused by `parse`.
    #[inline(always)]
    pub fn borrow(kind: u16, frame: NlaBuffer<'a>) -> Result<BorrowedAfSpecUnspec<'a>, DecodeError>
        requires { kind ≡ number frame }
        ensures { told owned_af_spec_unspec result ≡ af_spec_unspec_place.grammar.reads frame.entry }
    {
        match Self::read(kind, frame) {
            Ok(value) => Ok(value),
            Err(fault) => Err(within::<AfSpecUnspec>(fault, kind)),
        }
    }

    /// The last member of this number; `None` where there is none. Of a list that `parse` reads it is what `parse`
    /// gives: the same variant with the same value.
    #[inline(always)]
    pub fn last(
        list: &'a [u8],
        number: u16,
    ) -> Result<Option<BorrowedAfSpecUnspec<'a>>, DecodeError>
        ensures { told_found owned_af_spec_unspec result
            ≡ read_found af_spec_unspec_place.grammar.reads (latest number None (items list.now)) }
    {
        match last_in(list, number) {
            Ok(Some(frame)) => match Self::borrow(number, frame) {
                Ok(value) => Ok(Some(value)),
                Err(fault) => Err(fault),
            },
            Ok(None) => Ok(None),
            Err(fault) => Err(fault),
        }
    }

    /// The member that `last_each` found: what `last` gives of its number.
    #[inline(always)]
    pub fn found(
        list: &'a [u8],
        sought: Sought,
    ) -> Result<Option<BorrowedAfSpecUnspec<'a>>, DecodeError>
        requires { IsFound list.now sought }
        ensures { told_found owned_af_spec_unspec result
            ≡ read_found af_spec_unspec_place.grammar.reads (latest sought.number None (items list.now)) }
    {
        match frame_of(list, sought) {
            Ok(Some(frame)) => match Self::borrow(sought.number, frame) {
                Ok(value) => Ok(Some(value)),
                Err(fault) => Err(fault),
            },
            Ok(None) => Ok(None),
            Err(fault) => Err(fault),
        }
    }

    /// The next member of a list, front to back; `None` after the last.
    #[inline(always)]
    pub fn next(
        left: &mut NlasIterator<'a>,
    ) -> Option<Result<BorrowedAfSpecUnspec<'a>, DecodeError>>
        ensures { IsNext owned_af_spec_unspec af_spec_unspec_place.grammar.reads left.old result left.new }
    {
        match left.next() {
            Some(Ok(frame)) => {
                let number = frame.kind();
                Some(Self::borrow(number, frame))
            }
            Some(Err(fault)) => Some(Err(fault)),
            None => None,
        }
    }
}
