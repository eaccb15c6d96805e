//! Members of IFLA_VF_INFO over borrowed bytes, made by scripts/erase/borrowed.py of the rows of `VfInfo`: do not edit.

ghost use Rattle.std.specs.Prelude.{◌≡◌, None};
ghost use Rattle.nla_wire.specs.Frames.{number};
ghost use Rattle.nla_wire.specs.Items.{items};
ghost use Rattle.link_vf.specs.Tables.{vf_info_place};
ghost use Rattle.link_view.specs.Views.{latest};
ghost use Rattle.link_view.specs.Search.{IsFound};
ghost use Rattle.link_view.specs.Told.{told, told_found, read_found, IsNext};

use crate::message_view::last_in;
use crate::payload::{borrow, within};
use crate::sought::{Sought, frame_of};
use link_vf::VfInfo;
use link_vf::numbers::*;
use link_vfrec::{
    VfInfoBroadcast, VfInfoGuid, VfInfoLinkState, VfInfoMac, VfInfoRate, VfInfoRssQueryEn,
    VfInfoSpoofCheck, VfInfoTrust, VfInfoTxRate, VfInfoVlan,
};
use nla_wire::{DecodeError, NlaBuffer, NlasIterator};

/// A member of IFLA_VF_INFO over borrowed bytes: a variant for each of `VfInfo`.
#[derive(Drop)]
pub enum BorrowedVfInfo<'a> {
    Mac(VfInfoMac),
    Vlan(VfInfoVlan),
    TxRate(VfInfoTxRate),
    SpoofCheck(VfInfoSpoofCheck),
    LinkState(VfInfoLinkState),
    Rate(VfInfoRate),
    RssQueryEn(VfInfoRssQueryEn),
    Stats(&'a [u8]),
    Trust(VfInfoTrust),
    IbNodeGuid(VfInfoGuid),
    IbPortGuid(VfInfoGuid),
    VlanList(&'a [u8]),
    Broadcast(VfInfoBroadcast),
    Other(NlaBuffer<'a>),
}

impl<'a> BorrowedVfInfo<'a> {
    ghost use Rattle.link_view.specs.Vf.{owned_vf_info};

    #[tactic(auto, unfolding(link_vf::specs::Tables::vf_info_place))]
    #[inline(always)]
    fn read(kind: u16, frame: NlaBuffer<'a>) -> Result<BorrowedVfInfo<'a>, DecodeError>
        requires { kind ≡ number frame }
        ensures { told owned_vf_info result ≡ vf_info_place.grammar.reads frame.entry }
    {
        let payload = frame.value();
        match kind {
            IFLA_VF_MAC => borrow!(BorrowedVfInfo::Mac, VfInfoMac::parse(payload)),
            IFLA_VF_VLAN => borrow!(BorrowedVfInfo::Vlan, VfInfoVlan::parse(payload)),
            IFLA_VF_TX_RATE => borrow!(BorrowedVfInfo::TxRate, VfInfoTxRate::parse(payload)),
            IFLA_VF_SPOOFCHK => borrow!(
                BorrowedVfInfo::SpoofCheck,
                VfInfoSpoofCheck::parse(payload)
            ),
            IFLA_VF_LINK_STATE => borrow!(
                BorrowedVfInfo::LinkState,
                VfInfoLinkState::parse(payload)
            ),
            IFLA_VF_RATE => borrow!(BorrowedVfInfo::Rate, VfInfoRate::parse(payload)),
            IFLA_VF_RSS_QUERY_EN => borrow!(
                BorrowedVfInfo::RssQueryEn,
                VfInfoRssQueryEn::parse(payload)
            ),
            IFLA_VF_STATS => Ok(BorrowedVfInfo::Stats(payload)),
            IFLA_VF_TRUST => borrow!(BorrowedVfInfo::Trust, VfInfoTrust::parse(payload)),
            IFLA_VF_IB_NODE_GUID => borrow!(BorrowedVfInfo::IbNodeGuid, VfInfoGuid::parse(payload)),
            IFLA_VF_IB_PORT_GUID => borrow!(BorrowedVfInfo::IbPortGuid, VfInfoGuid::parse(payload)),
            IFLA_VF_VLAN_LIST => Ok(BorrowedVfInfo::VlanList(payload)),
            IFLA_VF_BROADCAST => borrow!(
                BorrowedVfInfo::Broadcast,
                VfInfoBroadcast::parse(payload)
            ),
            _ => Ok(BorrowedVfInfo::Other(frame)),
        }
    }

    /// Reads a frame, whose number is given beside it: the value that `parse` gives, or the same fault. A list is not
    /// looked at: its payload may be refused by `parse`.
    #[inline(always)]
    pub fn borrow(kind: u16, frame: NlaBuffer<'a>) -> Result<BorrowedVfInfo<'a>, DecodeError>
        requires { kind ≡ number frame }
        ensures { told owned_vf_info result ≡ vf_info_place.grammar.reads frame.entry }
    {
        match Self::read(kind, frame) {
            Ok(value) => Ok(value),
            Err(fault) => Err(within::<VfInfo>(fault, kind)),
        }
    }

    /// The last member of this number; `None` where there is none. Of a list that `parse` reads it is what `parse`
    /// gives: the same variant with the same value.
    #[inline(always)]
    pub fn last(list: &'a [u8], number: u16) -> Result<Option<BorrowedVfInfo<'a>>, DecodeError>
        ensures { told_found owned_vf_info result
            ≡ read_found vf_info_place.grammar.reads (latest number None (items list.now)) }
    {
        match last_in(list, number) {
            Ok(Some(frame)) => match Self::borrow(number, frame) {
                Ok(value) => Ok(Some(value)),
                Err(fault) => Err(fault),
            },
            Ok(None) => Ok(None),
            Err(fault) => Err(fault),
        }
    }

    /// The member that `last_each` found: what `last` gives of its number.
    #[inline(always)]
    pub fn found(list: &'a [u8], sought: Sought) -> Result<Option<BorrowedVfInfo<'a>>, DecodeError>
        requires { IsFound list.now sought }
        ensures { told_found owned_vf_info result
            ≡ read_found vf_info_place.grammar.reads (latest sought.number None (items list.now)) }
    {
        match frame_of(list, sought) {
            Ok(Some(frame)) => match Self::borrow(sought.number, frame) {
                Ok(value) => Ok(Some(value)),
                Err(fault) => Err(fault),
            },
            Ok(None) => Ok(None),
            Err(fault) => Err(fault),
        }
    }

    /// The next member of a list, front to back; `None` after the last.
    #[inline(always)]
    pub fn next(left: &mut NlasIterator<'a>) -> Option<Result<BorrowedVfInfo<'a>, DecodeError>>
        ensures { IsNext owned_vf_info vf_info_place.grammar.reads left.old result left.new }
    {
        match left.next() {
            Some(Ok(frame)) => {
                let number = frame.kind();
                Some(Self::borrow(number, frame))
            }
            Some(Err(fault)) => Some(Err(fault)),
            None => None,
        }
    }
}
