//! Virtual functions and ports of link messages: statistics, vlans, and the lists of functions and of ports.
// Tests: the crate `place_tests`. Edits: edits/link_vf.txt.
#![tactic(auto)]

pub mod entry;
pub mod laws;
pub mod numbers;
pub mod port_list;
pub mod stats;
pub mod vf_info;
pub mod vf_list;
pub mod vf_port;
pub mod vf_vlan;

pub use entry::{Entry, EntryPlace};
pub use port_list::LinkVfPort;
pub use stats::VfStats;
pub use vf_info::VfInfo;
pub use vf_list::LinkVfInfo;
pub use vf_port::VfPort;
pub use vf_vlan::VfVlan;
