//! What holds of the records' readings and bytes, and of their defaults, beside the contracts of the calls.
//!
//! Each function's contract says of its record: what was read, written and read again is the same;
//! bytes after a payload that is long enough change nothing; what was read is written in as many
//! bytes as the record has.
//!
//! The functions `.._buffer` read a named buffer: it is of its record, takes as many bytes as the record has, and gives
//! the rest of the slice.
//!
//! The functions `default_..` make the default records: numbers and the bytes of addresses are zeros, a setting is off,
//! a state is `Auto` and a protocol `Ieee8021Q`.

ghost use Rattle.std.specs.Prelude.{◌≡◌, false, replicate};
ghost use Rattle.nla_wire.specs.Buffers.{TakesRecord};
ghost use Rattle.nla_wire.specs.Records.{RecordLaws};
ghost use Rattle.link_vfrec.specs.Records.{vf_info_mac_size, vf_info_mac_of, vf_info_mac_bytes};
ghost use Rattle.link_vfrec.specs.Records.{vf_info_broadcast_size, vf_info_broadcast_of, vf_info_broadcast_bytes};
ghost use Rattle.link_vfrec.specs.Records.{vf_info_vlan_size, vf_info_vlan_of, vf_info_vlan_bytes};
ghost use Rattle.link_vfrec.specs.Records.{vf_info_tx_rate_size, vf_info_tx_rate_of, vf_info_tx_rate_bytes};
ghost use Rattle.link_vfrec.specs.Records.{vf_info_rate_size, vf_info_rate_of, vf_info_rate_bytes};
ghost use Rattle.link_vfrec.specs.Records.{vf_info_spoof_check_size, vf_info_spoof_check_of};
ghost use Rattle.link_vfrec.specs.Records.{vf_info_spoof_check_bytes, vf_info_rss_query_en_size};
ghost use Rattle.link_vfrec.specs.Records.{vf_info_rss_query_en_of, vf_info_rss_query_en_bytes, vf_info_trust_size};
ghost use Rattle.link_vfrec.specs.Records.{vf_info_trust_of, vf_info_trust_bytes, vf_info_link_state_size};
ghost use Rattle.link_vfrec.specs.Records.{vf_info_link_state_of, vf_info_link_state_bytes, vf_info_guid_size};
ghost use Rattle.link_vfrec.specs.Records.{vf_info_guid_of, vf_info_guid_bytes, vf_vlan_info_size, vf_vlan_info_of};
ghost use Rattle.link_vfrec.specs.Records.{vf_vlan_info_bytes};

use crate::broadcast::{VfInfoBroadcast, VfInfoBroadcastBuffer};
use crate::guid::{VfInfoGuid, VfInfoGuidBuffer};
use crate::link_state::{VfInfoLinkState, VfInfoLinkStateBuffer};
use crate::mac::{VfInfoMac, VfInfoMacBuffer};
use crate::rate::{VfInfoRate, VfInfoRateBuffer};
use crate::rss_query::{VfInfoRssQueryEn, VfInfoRssQueryEnBuffer};
use crate::spoofchk::{VfInfoSpoofCheck, VfInfoSpoofCheckBuffer};
use crate::trust::{VfInfoTrust, VfInfoTrustBuffer};
use crate::tx_rate::{VfInfoTxRate, VfInfoTxRateBuffer};
use crate::vf_vlan::VfVlanInfo;
use crate::vlan::{VfInfoVlan, VfInfoVlanBuffer};
use link_vals::{VfLinkState, VlanProtocol};
use nla_wire::DecodeError;

/// `VfInfoMac`.
#[tactic(auto, using(crate::specs::Laws::vf_info_mac_laws))]
pub fn vf_info_mac()
    ensures { RecordLaws vf_info_mac_size vf_info_mac_of vf_info_mac_bytes }
{}

/// `VfInfoBroadcast`.
#[tactic(auto, using(crate::specs::Laws::vf_info_broadcast_laws))]
pub fn vf_info_broadcast()
    ensures { RecordLaws vf_info_broadcast_size vf_info_broadcast_of vf_info_broadcast_bytes }
{}

/// `VfInfoVlan`.
#[tactic(auto, using(crate::specs::Laws::vf_info_vlan_laws))]
pub fn vf_info_vlan()
    ensures { RecordLaws vf_info_vlan_size vf_info_vlan_of vf_info_vlan_bytes }
{}

/// `VfInfoTxRate`.
#[tactic(auto, using(crate::specs::Laws::vf_info_tx_rate_laws))]
pub fn vf_info_tx_rate()
    ensures { RecordLaws vf_info_tx_rate_size vf_info_tx_rate_of vf_info_tx_rate_bytes }
{}

/// `VfInfoRate`.
#[tactic(auto, using(crate::specs::Laws::vf_info_rate_laws))]
pub fn vf_info_rate()
    ensures { RecordLaws vf_info_rate_size vf_info_rate_of vf_info_rate_bytes }
{}

/// `VfInfoSpoofCheck`.
#[tactic(auto, using(crate::specs::Laws::vf_info_spoof_check_laws))]
pub fn vf_info_spoof_check()
    ensures { RecordLaws vf_info_spoof_check_size vf_info_spoof_check_of vf_info_spoof_check_bytes }
{}

/// `VfInfoRssQueryEn`.
#[tactic(auto, using(crate::specs::Laws::vf_info_rss_query_en_laws))]
pub fn vf_info_rss_query_en()
    ensures { RecordLaws vf_info_rss_query_en_size vf_info_rss_query_en_of
        vf_info_rss_query_en_bytes }
{}

/// `VfInfoTrust`.
#[tactic(auto, using(crate::specs::Laws::vf_info_trust_laws))]
pub fn vf_info_trust()
    ensures { RecordLaws vf_info_trust_size vf_info_trust_of vf_info_trust_bytes }
{}

/// `VfInfoLinkState`.
#[tactic(auto, using(crate::specs::Laws::vf_info_link_state_laws))]
pub fn vf_info_link_state()
    ensures { RecordLaws vf_info_link_state_size vf_info_link_state_of vf_info_link_state_bytes }
{}

/// `VfInfoGuid`.
#[tactic(auto, using(crate::specs::Laws::vf_info_guid_laws))]
pub fn vf_info_guid()
    ensures { RecordLaws vf_info_guid_size vf_info_guid_of vf_info_guid_bytes }
{}

/// `VfVlanInfo`.
#[tactic(auto, using(crate::specs::Laws::vf_vlan_info_laws))]
pub fn vf_vlan_info()
    ensures { RecordLaws vf_vlan_info_size vf_vlan_info_of vf_vlan_info_bytes }
{}

/// `VfInfoMacBuffer`.
pub fn vf_info_mac_buffer(bytes: &[u8]) -> Result<(VfInfoMacBuffer, &[u8]), DecodeError>
    ensures { TakesRecord vf_info_mac_size vf_info_mac_of bytes.entry result }
{
    VfInfoMacBuffer::read_from_prefix(bytes)
}

/// `VfInfoBroadcastBuffer`.
pub fn vf_info_broadcast_buffer(bytes: &[u8]) -> Result<(VfInfoBroadcastBuffer, &[u8]), DecodeError>
    ensures { TakesRecord vf_info_broadcast_size vf_info_broadcast_of bytes.entry result }
{
    VfInfoBroadcastBuffer::read_from_prefix(bytes)
}

/// `VfInfoVlanBuffer`.
pub fn vf_info_vlan_buffer(bytes: &[u8]) -> Result<(VfInfoVlanBuffer, &[u8]), DecodeError>
    ensures { TakesRecord vf_info_vlan_size vf_info_vlan_of bytes.entry result }
{
    VfInfoVlanBuffer::read_from_prefix(bytes)
}

/// `VfInfoTxRateBuffer`.
pub fn vf_info_tx_rate_buffer(bytes: &[u8]) -> Result<(VfInfoTxRateBuffer, &[u8]), DecodeError>
    ensures { TakesRecord vf_info_tx_rate_size vf_info_tx_rate_of bytes.entry result }
{
    VfInfoTxRateBuffer::read_from_prefix(bytes)
}

/// `VfInfoRateBuffer`.
pub fn vf_info_rate_buffer(bytes: &[u8]) -> Result<(VfInfoRateBuffer, &[u8]), DecodeError>
    ensures { TakesRecord vf_info_rate_size vf_info_rate_of bytes.entry result }
{
    VfInfoRateBuffer::read_from_prefix(bytes)
}

/// `VfInfoSpoofCheckBuffer`.
pub fn vf_info_spoof_check_buffer(
    bytes: &[u8],
) -> Result<(VfInfoSpoofCheckBuffer, &[u8]), DecodeError>
    ensures { TakesRecord vf_info_spoof_check_size vf_info_spoof_check_of bytes.entry result }
{
    VfInfoSpoofCheckBuffer::read_from_prefix(bytes)
}

/// `VfInfoRssQueryEnBuffer`.
pub fn vf_info_rss_query_en_buffer(
    bytes: &[u8],
) -> Result<(VfInfoRssQueryEnBuffer, &[u8]), DecodeError>
    ensures { TakesRecord vf_info_rss_query_en_size vf_info_rss_query_en_of bytes.entry result }
{
    VfInfoRssQueryEnBuffer::read_from_prefix(bytes)
}

/// `VfInfoTrustBuffer`.
pub fn vf_info_trust_buffer(bytes: &[u8]) -> Result<(VfInfoTrustBuffer, &[u8]), DecodeError>
    ensures { TakesRecord vf_info_trust_size vf_info_trust_of bytes.entry result }
{
    VfInfoTrustBuffer::read_from_prefix(bytes)
}

/// `VfInfoLinkStateBuffer`.
pub fn vf_info_link_state_buffer(
    bytes: &[u8],
) -> Result<(VfInfoLinkStateBuffer, &[u8]), DecodeError>
    ensures { TakesRecord vf_info_link_state_size vf_info_link_state_of bytes.entry result }
{
    VfInfoLinkStateBuffer::read_from_prefix(bytes)
}

/// `VfInfoGuidBuffer`.
pub fn vf_info_guid_buffer(bytes: &[u8]) -> Result<(VfInfoGuidBuffer, &[u8]), DecodeError>
    ensures { TakesRecord vf_info_guid_size vf_info_guid_of bytes.entry result }
{
    VfInfoGuidBuffer::read_from_prefix(bytes)
}

/// The default `VfInfoMac` is of function 0, with an address of zeros.
#[tactic(auto, using(crate::proofs::Zeros::address_zeros))]
pub fn default_vf_info_mac() -> VfInfoMac
    ensures { result ≡ record { vf_id = 0; mac = replicate 32 0 } }
{
    VfInfoMac::default()
}

/// The default `VfInfoBroadcast` has an address of zeros.
#[tactic(auto, using(crate::proofs::Zeros::address_zeros))]
pub fn default_vf_info_broadcast() -> VfInfoBroadcast
    ensures { result ≡ record { addr = replicate 32 0 } }
{
    VfInfoBroadcast::default()
}

/// The default `VfInfoVlan` has zeros.
pub fn default_vf_info_vlan() -> VfInfoVlan
    ensures { result ≡ record { vf_id = 0; vlan_id = 0; qos = 0 } }
{
    VfInfoVlan::default()
}

/// The default `VfInfoTxRate` has zeros.
pub fn default_vf_info_tx_rate() -> VfInfoTxRate
    ensures { result ≡ record { vf_id = 0; rate = 0 } }
{
    VfInfoTxRate::default()
}

/// The default `VfInfoRate` has zeros.
pub fn default_vf_info_rate() -> VfInfoRate
    ensures { result ≡ record { vf_id = 0; min_tx_rate = 0; max_tx_rate = 0 } }
{
    VfInfoRate::default()
}

/// The default `VfInfoSpoofCheck` is off, of function 0.
pub fn default_vf_info_spoof_check() -> VfInfoSpoofCheck
    ensures { result ≡ record { vf_id = 0; enabled = false } }
{
    VfInfoSpoofCheck::default()
}

/// The default `VfInfoRssQueryEn` is off, of function 0.
pub fn default_vf_info_rss_query_en() -> VfInfoRssQueryEn
    ensures { result ≡ record { vf_id = 0; enabled = false } }
{
    VfInfoRssQueryEn::default()
}

/// The default `VfInfoTrust` is off, of function 0.
pub fn default_vf_info_trust() -> VfInfoTrust
    ensures { result ≡ record { vf_id = 0; enabled = false } }
{
    VfInfoTrust::default()
}

/// The default `VfInfoLinkState` is `Auto`, of function 0.
pub fn default_vf_info_link_state() -> VfInfoLinkState
    ensures { result ≡ record { vf_id = 0; state = VfLinkState.Auto } }
{
    VfInfoLinkState::default()
}

/// The default `VfInfoGuid` has zeros.
pub fn default_vf_info_guid() -> VfInfoGuid
    ensures { result ≡ record { vf_id = 0; guid = 0 } }
{
    VfInfoGuid::default()
}

/// The default `VfVlanInfo` has zeros, and the protocol `Ieee8021Q`.
pub fn default_vf_vlan_info() -> VfVlanInfo
    ensures { result
        ≡ record { vf_id = 0; vlan_id = 0; qos = 0; protocol = VlanProtocol.Ieee8021Q } }
{
    VfVlanInfo::default()
}
