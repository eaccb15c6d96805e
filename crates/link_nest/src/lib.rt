//! Inner lists of link messages: names, devlink ports, clock pins, reasons, express data paths, link information; and
//! wireless events.
// Tests: the crate `place_tests`. Edits: edits/link_nest.txt.
#![tactic(auto)]

mod attached;
pub mod devlink_port;
pub mod down_reason;
pub mod dpll_pin;
pub mod laws;
pub mod link_info;
pub mod numbers;
pub mod prop_list;
pub mod wireless;
pub mod xdp;

pub use devlink_port::DevlinkPort;
pub use down_reason::LinkProtocolDownReason;
pub use dpll_pin::DpllPin;
pub use link_info::LinkInfo;
pub use prop_list::Prop;
pub use wireless::WirelessEvent;
pub use xdp::LinkXdp;
