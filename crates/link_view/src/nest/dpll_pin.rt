//! Members of IFLA_DPLL_PIN over borrowed bytes, made by scripts/erase/borrowed.py of the rows of `DpllPin`: do not
//! edit.

ghost use Rattle.std.specs.Prelude.{◌≡◌, None};
ghost use Rattle.nla_wire.specs.Frames.{number};
ghost use Rattle.nla_wire.specs.Items.{items};
ghost use Rattle.link_nest.specs.Tables.{dpll_pin_place};
ghost use Rattle.link_view.specs.Views.{latest};
ghost use Rattle.link_view.specs.Search.{IsFound};
ghost use Rattle.link_view.specs.Told.{told, told_found, read_found, IsNext};

use crate::message_view::last_in;
use crate::payload::{borrow, within};
use crate::sought::{Sought, frame_of};
use link_nest::DpllPin;
use link_nest::numbers::*;
use nla_wire::{DecodeError, NlaBuffer, NlasIterator, parse_u32};

/// A member of IFLA_DPLL_PIN over borrowed bytes: a variant for each of `DpllPin`.
#[derive(Drop)]
pub enum BorrowedDpllPin<'a> {
    PinId(u32),
    Other(NlaBuffer<'a>),
}

impl<'a> BorrowedDpllPin<'a> {
    ghost use Rattle.link_view.specs.Nest.{owned_dpll_pin};

    #[tactic(auto, unfolding(link_nest::specs::Tables::dpll_pin_place))]
    #[inline(always)]
    fn read(kind: u16, frame: NlaBuffer<'a>) -> Result<BorrowedDpllPin<'a>, DecodeError>
        requires { kind ≡ number frame }
        ensures { told owned_dpll_pin result ≡ dpll_pin_place.grammar.reads frame.entry }
    {
        let payload = frame.value();
        match kind {
            DPLL_A_PIN_ID => borrow!(BorrowedDpllPin::PinId, parse_u32(payload)),
            _ => Ok(BorrowedDpllPin::Other(frame)),
        }
    }

    /// Reads a frame, whose number is given beside it: the value that `parse` gives, or the same fault. A list is not
    /// looked at: its payload may be refused by `parse`.
    #[inline(always)]
    pub fn borrow(kind: u16, frame: NlaBuffer<'a>) -> Result<BorrowedDpllPin<'a>, DecodeError>
        requires { kind ≡ number frame }
        ensures { told owned_dpll_pin result ≡ dpll_pin_place.grammar.reads frame.entry }
    {
        match Self::read(kind, frame) {
            Ok(value) => Ok(value),
            Err(fault) => Err(within::<DpllPin>(fault, kind)),
        }
    }

    /// The last member of this number; `None` where there is none. Of a list that `parse` reads it is what `parse`
    /// gives: the same variant with the same value.
    #[inline(always)]
    pub fn last(list: &'a [u8], number: u16) -> Result<Option<BorrowedDpllPin<'a>>, DecodeError>
        ensures { told_found owned_dpll_pin result
            ≡ read_found dpll_pin_place.grammar.reads (latest number None (items list.now)) }
    {
        match last_in(list, number) {
            Ok(Some(frame)) => match Self::borrow(number, frame) {
                Ok(value) => Ok(Some(value)),
                Err(fault) => Err(fault),
            },
            Ok(None) => Ok(None),
            Err(fault) => Err(fault),
        }
    }

    /// The member that `last_each` found: what `last` gives of its number.
    #[inline(always)]
    pub fn found(list: &'a [u8], sought: Sought) -> Result<Option<BorrowedDpllPin<'a>>, DecodeError>
        requires { IsFound list.now sought }
        ensures { told_found owned_dpll_pin result
            ≡ read_found dpll_pin_place.grammar.reads (latest sought.number None (items list.now)) }
    {
        match frame_of(list, sought) {
            Ok(Some(frame)) => match Self::borrow(sought.number, frame) {
                Ok(value) => Ok(Some(value)),
                Err(fault) => Err(fault),
            },
            Ok(None) => Ok(None),
            Err(fault) => Err(fault),
        }
    }

    /// The next member of a list, front to back; `None` after the last.
    #[inline(always)]
    pub fn next(left: &mut NlasIterator<'a>) -> Option<Result<BorrowedDpllPin<'a>, DecodeError>>
        ensures { IsNext owned_dpll_pin dpll_pin_place.grammar.reads
            left.old result left.new }
    {
        match left.next() {
            Some(Ok(frame)) => {
                let number = frame.kind();
                Some(Self::borrow(number, frame))
            }
            Some(Err(fault)) => Some(Err(fault)),
            None => None,
        }
    }
}
