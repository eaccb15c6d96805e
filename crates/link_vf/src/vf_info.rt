//! What is said of a virtual function, members of IFLA_VF_INFO.

ghost use Rattle.std.specs.Prelude.{◌≡◌, ◌+◌, ◌*◌, ◌≤◌, length};
ghost use Rattle.nla_wire.specs.Sizes.{most_payload};
ghost use Rattle.nla_wire.specs.Canon.{Measures};
ghost use Rattle.link_vfrec.specs.Records.{vf_info_mac_bytes, vf_info_broadcast_bytes};
ghost use Rattle.link_vf.specs.Tables.{vf_info_place};

use crate::numbers::*;
use crate::{VfStats, VfVlan};
use link_vfrec::{
    VfInfoBroadcast, VfInfoBroadcastBuffer, VfInfoGuid, VfInfoLinkState, VfInfoMac,
    VfInfoMacBuffer, VfInfoRate, VfInfoRssQueryEn, VfInfoSpoofCheck, VfInfoTrust, VfInfoTxRate,
    VfInfoVlan,
};
use nla_wire::{
    CloneIn, DecodeError, DefaultNla, Exact, List, Nla, NlaBuffer, NlaRead, Record, rows,
};
use std::alloc::Global;

/// A member of IFLA_VF_INFO (linux/if_link.h).
#[derive(Debug, Drop, PartialEq, Eq)]
pub enum VfInfo {
    /// IFLA_VF_MAC: the hardware address, a record of 36 bytes.
    Mac(VfInfoMac),
    /// IFLA_VF_VLAN: vlan and priority, a record of 12 bytes.
    Vlan(VfInfoVlan),
    /// IFLA_VF_TX_RATE: the greatest rate of sending, a record of 8 bytes.
    TxRate(VfInfoTxRate),
    /// IFLA_VF_SPOOFCHK: whether addresses are checked, a record of 8 bytes.
    SpoofCheck(VfInfoSpoofCheck),
    /// IFLA_VF_LINK_STATE: the state of the link, a record of 8 bytes.
    LinkState(VfInfoLinkState),
    /// IFLA_VF_RATE: the least and the greatest rate of sending, a record of 12 bytes.
    Rate(VfInfoRate),
    /// IFLA_VF_RSS_QUERY_EN: whether its receive side scaling may be asked for, a record of 8 bytes.
    RssQueryEn(VfInfoRssQueryEn),
    /// IFLA_VF_STATS: statistics, a list that may be empty.
    Stats(List<VfStats>),
    /// IFLA_VF_TRUST: whether the function is trusted, a record of 8 bytes.
    Trust(VfInfoTrust),
    /// IFLA_VF_IB_NODE_GUID: the identifier of its InfiniBand node, a record of 16 bytes.
    IbNodeGuid(VfInfoGuid),
    /// IFLA_VF_IB_PORT_GUID: the identifier of its InfiniBand port, a record of 16 bytes.
    IbPortGuid(VfInfoGuid),
    /// IFLA_VF_VLAN_LIST: vlans, a list that may be empty.
    VlanList(List<VfVlan>),
    /// IFLA_VF_BROADCAST: the broadcast address, a record of 32 bytes.
    Broadcast(VfInfoBroadcast),
    /// A number that is not listed here.
    Other(DefaultNla),
}

/// The number of bytes of a hardware address: 36; for the proof: it is counted.
#[tactic(auto, unfolding(link_vfrec::specs::Records::vf_info_mac_bytes))]
fn mac_len(mac: &VfInfoMac) -> usize
    ensures { result ≡ length (vf_info_mac_bytes mac.now) }
{
    let address: &[u8] = &mac.mac;
    4 + address.len()
}

/// The number of bytes of a broadcast address: 32; for the proof: it is counted.
#[tactic(auto, unfolding(link_vfrec::specs::Records::vf_info_broadcast_bytes))]
fn broadcast_len(broadcast: &VfInfoBroadcast) -> usize
    ensures { result ≡ length (vf_info_broadcast_bytes broadcast.now) }
{
    let address: &[u8] = &broadcast.addr;
    address.len()
}

/// A row for each member that is listed, in their order.
macro_rules! members {
    ($($call:tt)*) => {
        rows! { ($($call)*)
            long Mac(VfInfoMac, IFLA_VF_MAC, mac_len, VfInfoMacBuffer)
            record Vlan(VfInfoVlan, IFLA_VF_VLAN)
            record TxRate(VfInfoTxRate, IFLA_VF_TX_RATE)
            record SpoofCheck(VfInfoSpoofCheck, IFLA_VF_SPOOFCHK)
            record LinkState(VfInfoLinkState, IFLA_VF_LINK_STATE)
            record Rate(VfInfoRate, IFLA_VF_RATE)
            record RssQueryEn(VfInfoRssQueryEn, IFLA_VF_RSS_QUERY_EN)
            list Stats(VfStats, IFLA_VF_STATS)
            record Trust(VfInfoTrust, IFLA_VF_TRUST)
            record IbNodeGuid(VfInfoGuid, IFLA_VF_IB_NODE_GUID)
            record IbPortGuid(VfInfoGuid, IFLA_VF_IB_PORT_GUID)
            list VlanList(VfVlan, IFLA_VF_VLAN_LIST)
            long Broadcast(VfInfoBroadcast, IFLA_VF_BROADCAST, broadcast_len, VfInfoBroadcastBuffer)
        }
    };
}

#[tactic(auto, unfolding(crate::proofs::Opened::vf_info))]
impl Nla for VfInfo {
    ghost frame = { vf_info_place.frame };

    ghost fits = { vf_info_place.Fits };

    ghost is_small = { vf_info_place.is_small };

    fn kind(&self) -> u16 {
        members!(kind VfInfo, self)
    }

    fn fits(&self) -> bool {
        self.measure().is_some()
    }

    fn value_len(&self) -> usize {
        self.measure().unwrap_or(0)
    }

    fn fill_value(&self, buffer: &mut [u8]) -> usize {
        members!(fill VfInfo, self, buffer)
    }

    fn measure(&self) -> Option<usize> {
        members!(size VfInfo, self)
    }

    fn write(&self, buffer: &mut [u8]) -> usize {
        members!(put VfInfo, self, buffer)
    }
}

impl NlaRead for VfInfo {
    ghost use Rattle.nla_wire.proofs.Codec.{place_bounded};

    ghost grammar = { vf_info_place.grammar };

    fn kind_name(kind: u16) -> &'static str {
        members!(name kind)
    }

    #[tactic(auto, unfolding(crate::proofs::Opened::vf_info))]
    fn parse_frame(alloc: Global, buffer: &NlaBuffer<'_>) -> Result<VfInfo, DecodeError> {
        members!(parse VfInfo, alloc, buffer)
    }

    #[tactic(auto, unfolding(crate::proofs::Opened::vf_info))]
    fn check_frame(buffer: &NlaBuffer<'_>) -> Result<(), DecodeError> {
        members!(check buffer)
    }

    #[inline(always)]
    #[tactic(auto, unfolding(crate::specs::Tables::vf_info_place))]
    fn measure_frame(buffer: &NlaBuffer<'_>) -> Option<usize> {
        members!(measure buffer)
    }

    #[tactic(auto, unfolding(crate::specs::Tables::vf_info_place, nla_wire::specs::Payloads::read_sized))]
    fn write_frame(buffer: &NlaBuffer<'_>, out: &mut [u8]) -> usize {
        members!(write buffer, out)
    }

    ghost agrees = { vf_info_place.lawful.agrees };

    ghost no_memory = { vf_info_place.lawful.no_memory };

    ghost bounded = { place_bounded vf_info_place };
}

impl CloneIn for VfInfo {
    fn clone_in(&self, alloc: Global) -> Result<VfInfo, DecodeError> {
        members!(copy VfInfo, self, alloc)
    }
}

impl Exact for VfInfo {
    ghost use Rattle.nla_wire.specs.Decided.{by_exact, one_field, list_exact};
    ghost use Rattle.nla_wire.specs.Same.{same_frame-Decides};
    ghost use Rattle.link_vf.specs.contracts.vf_info.VfInfo.{enum};
    ghost use Rattle.link_vfrec.specs.contracts.broadcast.VfInfoBroadcastExact.TheImpl.Laws.{
      decides-law as vf_info_broadcast_exact,
    };
    ghost use Rattle.link_vfrec.specs.contracts.guid.VfInfoGuidExact.TheImpl.Laws.{decides-law as vf_info_guid_exact};
    ghost use Rattle.link_vfrec.specs.contracts.link_state.VfInfoLinkStateExact.TheImpl.Laws.{
      decides-law as vf_info_link_state_exact,
    };
    ghost use Rattle.link_vfrec.specs.contracts.mac.VfInfoMacExact.TheImpl.Laws.{decides-law as vf_info_mac_exact};
    ghost use Rattle.link_vfrec.specs.contracts.rate.VfInfoRateExact.TheImpl.Laws.{decides-law as vf_info_rate_exact};
    ghost use Rattle.link_vfrec.specs.contracts.rss_query.VfInfoRssQueryEnExact.TheImpl.Laws.{
      decides-law as vf_info_rss_query_en_exact,
    };
    ghost use Rattle.link_vfrec.specs.contracts.spoofchk.VfInfoSpoofCheckExact.TheImpl.Laws.{
      decides-law as vf_info_spoof_check_exact,
    };
    ghost use Rattle.link_vfrec.specs.contracts.trust.VfInfoTrustExact.TheImpl.Laws.{
      decides-law as vf_info_trust_exact,
    };
    ghost use Rattle.link_vfrec.specs.contracts.tx_rate.VfInfoTxRateExact.TheImpl.Laws.{
      decides-law as vf_info_tx_rate_exact,
    };
    ghost use Rattle.link_vfrec.specs.contracts.vlan.VfInfoVlanExact.TheImpl.Laws.{decides-law as vf_info_vlan_exact};
    ghost use Rattle.link_vf.specs.contracts.stats.VfStatsExact.TheImpl.Laws.{decides-law as vf_stats_exact};
    ghost use Rattle.link_vf.specs.contracts.vf_vlan.VfVlanExact.TheImpl.Laws.{decides-law as vf_vlan_exact};

    ghost decides = { by_exact enum _ (Prim.assumption (
      one_field vf_info_mac_exact,
      one_field vf_info_vlan_exact,
      one_field vf_info_tx_rate_exact,
      one_field vf_info_spoof_check_exact,
      one_field vf_info_link_state_exact,
      one_field vf_info_rate_exact,
      one_field vf_info_rss_query_en_exact,
      one_field (list_exact vf_stats_exact),
      one_field vf_info_trust_exact,
      one_field vf_info_guid_exact,
      one_field (list_exact vf_vlan_exact),
      one_field vf_info_broadcast_exact,
      one_field same_frame-Decides,
    )) };
}
