//! Members of IFLA_VF_VLAN_LIST over borrowed bytes, made by scripts/erase/borrowed.py of the rows of `VfVlan`: do not
//! edit.

ghost use Rattle.std.specs.Prelude.{◌≡◌, None};
ghost use Rattle.nla_wire.specs.Frames.{number};
ghost use Rattle.nla_wire.specs.Items.{items};
ghost use Rattle.link_vf.specs.Tables.{vf_vlan_place};
ghost use Rattle.link_view.specs.Views.{latest};
ghost use Rattle.link_view.specs.Search.{IsFound};
ghost use Rattle.link_view.specs.Told.{told, told_found, read_found, IsNext};

use crate::message_view::last_in;
use crate::payload::{borrow, within};
use crate::sought::{Sought, frame_of};
use link_vf::VfVlan;
use link_vf::numbers::*;
use link_vfrec::VfVlanInfo;
use nla_wire::{DecodeError, NlaBuffer, NlasIterator};

/// A member of IFLA_VF_VLAN_LIST over borrowed bytes: a variant for each of `VfVlan`.
#[derive(Drop)]
pub enum BorrowedVfVlan<'a> {
    Info(VfVlanInfo),
    Other(NlaBuffer<'a>),
}

impl<'a> BorrowedVfVlan<'a> {
    ghost use Rattle.link_view.specs.Vf.{owned_vf_vlan};

    #[tactic(auto, unfolding(link_vf::specs::Tables::vf_vlan_place))]
    #[inline(always)]
    fn read(kind: u16, frame: NlaBuffer<'a>) -> Result<BorrowedVfVlan<'a>, DecodeError>
        requires { kind ≡ number frame }
        ensures { told owned_vf_vlan result ≡ vf_vlan_place.grammar.reads frame.entry }
    {
        let payload = frame.value();
        match kind {
            IFLA_VF_VLAN_INFO => borrow!(BorrowedVfVlan::Info, VfVlanInfo::parse(payload)),
            _ => Ok(BorrowedVfVlan::Other(frame)),
        }
    }

    /// Reads a frame, whose number is given beside it: the value that `parse` gives, or the same fault. A list is not
    /// looked at: its payload may be refused by `parse`.
    #[inline(always)]
    pub fn borrow(kind: u16, frame: NlaBuffer<'a>) -> Result<BorrowedVfVlan<'a>, DecodeError>
        requires { kind ≡ number frame }
        ensures { told owned_vf_vlan result ≡ vf_vlan_place.grammar.reads frame.entry }
    {
        match Self::read(kind, frame) {
            Ok(value) => Ok(value),
            Err(fault) => Err(within::<VfVlan>(fault, kind)),
        }
    }

    /// The last member of this number; `None` where there is none. Of a list that `parse` reads it is what `parse`
    /// gives: the same variant with the same value.
    #[inline(always)]
    pub fn last(list: &'a [u8], number: u16) -> Result<Option<BorrowedVfVlan<'a>>, DecodeError>
        ensures { told_found owned_vf_vlan result
            ≡ read_found vf_vlan_place.grammar.reads (latest number None (items list.now)) }
    {
        match last_in(list, number) {
            Ok(Some(frame)) => match Self::borrow(number, frame) {
                Ok(value) => Ok(Some(value)),
                Err(fault) => Err(fault),
            },
            Ok(None) => Ok(None),
            Err(fault) => Err(fault),
        }
    }

    /// The member that `last_each` found: what `last` gives of its number.
    #[inline(always)]
    pub fn found(list: &'a [u8], sought: Sought) -> Result<Option<BorrowedVfVlan<'a>>, DecodeError>
        requires { IsFound list.now sought }
        ensures { told_found owned_vf_vlan result
            ≡ read_found vf_vlan_place.grammar.reads (latest sought.number None (items list.now)) }
    {
        match frame_of(list, sought) {
            Ok(Some(frame)) => match Self::borrow(sought.number, frame) {
                Ok(value) => Ok(Some(value)),
                Err(fault) => Err(fault),
            },
            Ok(None) => Ok(None),
            Err(fault) => Err(fault),
        }
    }

    /// The next member of a list, front to back; `None` after the last.
    #[inline(always)]
    pub fn next(left: &mut NlasIterator<'a>) -> Option<Result<BorrowedVfVlan<'a>, DecodeError>>
        ensures { IsNext owned_vf_vlan vf_vlan_place.grammar.reads left.old result left.new }
    {
        match left.next() {
            Some(Ok(frame)) => {
                let number = frame.kind();
                Some(Self::borrow(number, frame))
            }
            Some(Err(fault)) => Some(Err(fault)),
            None => None,
        }
    }
}
