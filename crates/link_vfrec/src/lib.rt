//! Fixed records of virtual functions, as link attributes carry them.
// Tests: the crate `value_tests`. Edits: edits/link_vfrec.txt.
#![tactic(auto)]

pub mod broadcast;
pub mod guid;
pub mod laws;
pub mod link_state;
pub mod mac;
pub mod rate;
pub mod rss_query;
pub mod spoofchk;
pub mod trust;
mod truth;
pub mod tx_rate;
pub mod vf_vlan;
pub mod vlan;

pub use broadcast::{VfInfoBroadcast, VfInfoBroadcastBuffer};
pub use guid::{VfInfoGuid, VfInfoGuidBuffer};
pub use link_state::{VfInfoLinkState, VfInfoLinkStateBuffer};
pub use mac::{VfInfoMac, VfInfoMacBuffer};
pub use rate::{VfInfoRate, VfInfoRateBuffer};
pub use rss_query::{VfInfoRssQueryEn, VfInfoRssQueryEnBuffer};
pub use spoofchk::{VfInfoSpoofCheck, VfInfoSpoofCheckBuffer};
pub use trust::{VfInfoTrust, VfInfoTrustBuffer};
pub use tx_rate::{VfInfoTxRate, VfInfoTxRateBuffer};
pub use vf_vlan::VfVlanInfo;
pub use vlan::{VfInfoVlan, VfInfoVlanBuffer};
