//! Protocols of vlan tags.

ghost use Rattle.std.specs.Prelude.{◌≡◌};
ghost use Rattle.link_vals.specs.VlanProtocolTable.{vlan_protocol_of, vlan_protocol_number};

use nla_wire::Exact;

/// The protocol of a vlan tag, `ETH_P_8021Q` and `ETH_P_8021AD` of linux/if_ether.h.
///
/// Any other number is read as `Ieee8021Q`. The numbers here are those of the protocols; the wire has them highest byte
/// first.
#[derive(Clone, Copy, Debug, Default, PartialEq, Eq)]
pub enum VlanProtocol {
    /// `ETH_P_8021Q`: the tags of customers.
    #[default]
    Ieee8021Q,
    /// `ETH_P_8021AD`: the tags of providers.
    Ieee8021Ad,
}

impl From<u16> for VlanProtocol {
    ghost from_gives = { λ n v. v ≡ vlan_protocol_of n };

    #[tactic(auto, unfolding(crate::proofs::Opened::vlan_protocol))]
    fn from(number: u16) -> VlanProtocol {
        match number {
            0x8100 => VlanProtocol::Ieee8021Q,
            0x88a8 => VlanProtocol::Ieee8021Ad,
            _ => VlanProtocol::Ieee8021Q,
        }
    }
}

impl From<VlanProtocol> for u16 {
    ghost from_gives = { λ v n. n ≡ vlan_protocol_number v };

    #[tactic(auto, unfolding(crate::specs::VlanProtocolTable::vlan_protocol_number))]
    fn from(value: VlanProtocol) -> u16 {
        match value {
            VlanProtocol::Ieee8021Q => 0x8100,
            VlanProtocol::Ieee8021Ad => 0x88a8,
        }
    }
}

impl Exact for VlanProtocol {
    ghost use Rattle.std.proofs.Common.{rules};

    ghost decides = { Prim.search rules };
}
