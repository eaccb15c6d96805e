//! Members of the lists of link_vf over borrowed bytes, by a module for each list.

pub mod vf_info;
pub mod vf_port;
pub mod vf_stats;
pub mod vf_vlan;

pub use vf_info::BorrowedVfInfo;
pub use vf_port::BorrowedVfPort;
pub use vf_stats::BorrowedVfStats;
pub use vf_vlan::BorrowedVfVlan;
