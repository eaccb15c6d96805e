//! Members of the lists of link_nest over borrowed bytes, by a module for each list.

pub mod devlink_port;
pub mod dpll_pin;
pub mod link_info;
pub mod link_protocol_down_reason;
pub mod link_xdp;
pub mod prop;

pub use devlink_port::BorrowedDevlinkPort;
pub use dpll_pin::BorrowedDpllPin;
pub use link_info::BorrowedLinkInfo;
pub use link_protocol_down_reason::BorrowedLinkProtocolDownReason;
pub use link_xdp::BorrowedLinkXdp;
pub use prop::BorrowedProp;
