//! Lists of VLANs and tunnels of bridge ports (`IFLA_BRIDGE_VLAN_INFO` and `IFLA_BRIDGE_VLAN_TUNNEL_INFO` in
//! `IFLA_AF_SPEC`, linux/if_bridge.h): the VLANs that a list has, and where two lists say otherwise.
// Tests: the crate `diff_checks`, and tests/linkdiff. Edits: edits/link_vlans.txt.
#![tactic(auto)]

mod pieces;
mod run;
mod vlan;

pub use pieces::{Piece, pieces_of};
pub use run::{Run, Said, runs_in};
