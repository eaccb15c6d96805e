//! Settings of links by family: members of IFLA_AF_SPEC and of IFLA_PROTINFO.
// Tests: the crate `place_tests`. Edits: edits/link_afspec.txt.
#![tactic(auto)]

pub mod bridge;
pub mod inet;
pub mod inet6;
pub mod laws;
pub mod mctp;
pub mod numbers;
pub mod proto_bridge;
pub mod proto_inet6;
mod request;
pub mod unspec;

pub use bridge::AfSpecBridge;
pub use inet::AfSpecInet;
pub use inet6::AfSpecInet6;
pub use mctp::AfSpecMctp;
pub use proto_bridge::LinkProtoInfoBridge;
pub use proto_inet6::LinkProtoInfoInet6;
pub use unspec::AfSpecUnspec;
