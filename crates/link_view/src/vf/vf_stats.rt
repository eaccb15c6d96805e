//! Members of IFLA_VF_STATS over borrowed bytes, made by scripts/erase/borrowed.py of the rows of `VfStats`: do not
//! edit.

ghost use Rattle.std.specs.Prelude.{◌≡◌, None};
ghost use Rattle.nla_wire.specs.Frames.{number};
ghost use Rattle.nla_wire.specs.Items.{items};
ghost use Rattle.link_vf.specs.Tables.{vf_stats_place};
ghost use Rattle.link_view.specs.Views.{latest};
ghost use Rattle.link_view.specs.Search.{IsFound};
ghost use Rattle.link_view.specs.Told.{told, told_found, read_found, IsNext};

use crate::message_view::last_in;
use crate::payload::{borrow, within};
use crate::sought::{Sought, frame_of};
use link_vf::VfStats;
use link_vf::numbers::*;
use nla_wire::{DecodeError, NlaBuffer, NlasIterator, parse_u64};

/// A member of IFLA_VF_STATS over borrowed bytes: a variant for each of `VfStats`.
#[derive(Drop)]
pub enum BorrowedVfStats<'a> {
    RxPackets(u64),
    TxPackets(u64),
    RxBytes(u64),
    TxBytes(u64),
    Broadcast(u64),
    Multicast(u64),
    RxDropped(u64),
    TxDropped(u64),
    Other(NlaBuffer<'a>),
}

impl<'a> BorrowedVfStats<'a> {
    ghost use Rattle.link_view.specs.Vf.{owned_vf_stats};

    #[tactic(auto, unfolding(link_vf::specs::Tables::vf_stats_place))]
    #[inline(always)]
    fn read(kind: u16, frame: NlaBuffer<'a>) -> Result<BorrowedVfStats<'a>, DecodeError>
        requires { kind ≡ number frame }
        ensures { told owned_vf_stats result ≡ vf_stats_place.grammar.reads frame.entry }
    {
        let payload = frame.value();
        match kind {
            IFLA_VF_STATS_RX_PACKETS => borrow!(BorrowedVfStats::RxPackets, parse_u64(payload)),
            IFLA_VF_STATS_TX_PACKETS => borrow!(BorrowedVfStats::TxPackets, parse_u64(payload)),
            IFLA_VF_STATS_RX_BYTES => borrow!(BorrowedVfStats::RxBytes, parse_u64(payload)),
            IFLA_VF_STATS_TX_BYTES => borrow!(BorrowedVfStats::TxBytes, parse_u64(payload)),
            IFLA_VF_STATS_BROADCAST => borrow!(BorrowedVfStats::Broadcast, parse_u64(payload)),
            IFLA_VF_STATS_MULTICAST => borrow!(BorrowedVfStats::Multicast, parse_u64(payload)),
            IFLA_VF_STATS_RX_DROPPED => borrow!(BorrowedVfStats::RxDropped, parse_u64(payload)),
            IFLA_VF_STATS_TX_DROPPED => borrow!(BorrowedVfStats::TxDropped, parse_u64(payload)),
            _ => Ok(BorrowedVfStats::Other(frame)),
        }
    }

    /// Reads a frame, whose number is given beside it: the value that `parse` gives, or the same fault. A list is not
    /// looked at: its payload may be refused by `parse`.
    #[inline(always)]
    pub fn borrow(kind: u16, frame: NlaBuffer<'a>) -> Result<BorrowedVfStats<'a>, DecodeError>
        requires { kind ≡ number frame }
        ensures { told owned_vf_stats result ≡ vf_stats_place.grammar.reads frame.entry }
    {
        match Self::read(kind, frame) {
            Ok(value) => Ok(value),
            Err(fault) => Err(within::<VfStats>(fault, kind)),
        }
    }

    /// The last member of this number; `None` where there is none. Of a list that `parse` reads it is what `parse`
    /// gives: the same variant with the same value.
    #[inline(always)]
    pub fn last(list: &'a [u8], number: u16) -> Result<Option<BorrowedVfStats<'a>>, DecodeError>
        ensures { told_found owned_vf_stats result
            ≡ read_found vf_stats_place.grammar.reads (latest number None (items list.now)) }
    {
        match last_in(list, number) {
            Ok(Some(frame)) => match Self::borrow(number, frame) {
                Ok(value) => Ok(Some(value)),
                Err(fault) => Err(fault),
            },
            Ok(None) => Ok(None),
            Err(fault) => Err(fault),
        }
    }

    /// The member that `last_each` found: what `last` gives of its number.
    #[inline(always)]
    pub fn found(list: &'a [u8], sought: Sought) -> Result<Option<BorrowedVfStats<'a>>, DecodeError>
        requires { IsFound list.now sought }
        ensures { told_found owned_vf_stats result
            ≡ read_found vf_stats_place.grammar.reads (latest sought.number None (items list.now)) }
    {
        match frame_of(list, sought) {
            Ok(Some(frame)) => match Self::borrow(sought.number, frame) {
                Ok(value) => Ok(Some(value)),
                Err(fault) => Err(fault),
            },
            Ok(None) => Ok(None),
            Err(fault) => Err(fault),
        }
    }

    /// The next member of a list, front to back; `None` after the last.
    #[inline(always)]
    pub fn next(left: &mut NlasIterator<'a>) -> Option<Result<BorrowedVfStats<'a>, DecodeError>>
        ensures { IsNext owned_vf_stats vf_stats_place.grammar.reads left.old result left.new }
    {
        match left.next() {
            Some(Ok(frame)) => {
                let number = frame.kind();
                Some(Self::borrow(number, frame))
            }
            Some(Err(fault)) => Some(Err(fault)),
            None => None,
        }
    }
}
