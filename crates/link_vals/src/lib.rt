//! Values of link messages: enums by their numbers, flag sets, extent masks and physical ids.
// Tests: the crate `value_tests`. Edits: edits/link_vals.txt, tests/edits/link_vals.txt.
#![tactic(auto)]

pub mod addr_gen_mode;
pub mod address_family;
pub mod event;
pub mod ext_mask;
mod flag_text;
pub mod inet6_iface_flags;
pub mod laws;
pub mod link_flags;
pub mod link_layer_type;
pub mod link_mode;
pub mod link_state;
pub mod mctp_phys_binding;
pub mod phys_id;
pub mod vf_link_state;
pub mod vlan_protocol;
pub mod xdp_attached;

pub use addr_gen_mode::In6AddrGenMode;
pub use address_family::AddressFamily;
pub use event::LinkEvent;
pub use ext_mask::LinkExtentMask;
pub use inet6_iface_flags::Inet6IfaceFlags;
pub use link_flags::LinkFlags;
pub use link_layer_type::LinkLayerType;
pub use link_mode::LinkMode;
pub use link_state::State;
pub use mctp_phys_binding::MctpPhysBinding;
pub use phys_id::LinkPhysId;
pub use vf_link_state::VfLinkState;
pub use vlan_protocol::VlanProtocol;
pub use xdp_attached::XdpAttached;
