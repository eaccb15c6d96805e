//! The places of rows: each has a table.

ghost use Rattle.std.specs.Prelude.{◌≡◌, map};
ghost use Rattle.link_info.specs.Lent.{row_now};
ghost use Rattle.link_info.specs.Places.{place_among, place_number, place_of_kind, place_of_slave_kind, rows_of};
ghost use Rattle.link_info.specs.Rows.{AreAllRows, own_rows};

use crate::style::Row;
use crate::tables::{
    bond, bridge, can, family, geneve, gre, macsec, macvlan, others, tunnel, vlan, vxlan,
};

/// Where attributes stand. Each place has its table.
#[derive(Clone, Copy, Debug, Drop)]
pub enum Place {
    /// The data of a vlan.
    Vlan,
    /// Mappings of priorities of a vlan.
    VlanQos,
    /// The data of a bond.
    Bond,
    /// The aggregator in use of a bond.
    BondAdInfo,
    /// The data of a port of a bond.
    BondSlave,
    /// The data of a bridge.
    Bridge,
    /// Who asks for multicast groups.
    BridgeQuerier,
    /// The data of a port of a bridge.
    BridgePort,
    /// The data of a vxlan.
    Vxlan,
    /// The data of a geneve tunnel.
    Geneve,
    /// The data of a GRE or ERSPAN tunnel over IPv4.
    Gre,
    /// The data of a GRE or ERSPAN tunnel over IPv6.
    Gre6,
    /// The data of an ipip or sit tunnel.
    IpTunnel,
    /// The data of an ip6tnl tunnel.
    Ip6Tunnel,
    /// The data of a vti tunnel.
    Vti,
    /// The data of a vti6 tunnel.
    Vti6,
    /// The data of an xfrm interface.
    Xfrm,
    /// The data of a macvlan or macvtap.
    Macvlan,
    /// Addresses that a macvlan takes packets from.
    MacvlanAddresses,
    /// The data of an ipvlan or ipvtap.
    Ipvlan,
    /// The data of a macsec interface.
    Macsec,
    /// The data of a CAN interface.
    Can,
    /// The compensation of delays of a CAN transceiver.
    CanTdc,
    /// Modes that a CAN controller knows.
    CanCtrlmode,
    /// The data of a vrf.
    Vrf,
    /// The data of a port of a vrf.
    VrfPort,
    /// The data of a tun device.
    Tun,
    /// The data of a netkit device.
    Netkit,
    /// The data of an hsr device.
    Hsr,
    /// The data of an rmnet device.
    Rmnet,
    /// The data of a GTP tunnel.
    Gtp,
    /// The data of a bareudp tunnel.
    Bareudp,
    /// The data of an AMT tunnel.
    Amt,
    /// The data of a wwan device.
    Wwan,
    /// The data of an ovpn device.
    Ovpn,
    /// The data of an end of a veth pair.
    Veth,
    /// The data of an end of a vxcan pair.
    Vxcan,
    /// The data of a ppp interface.
    Ppp,
    /// `IFLA_AF_SPEC` under AF_BRIDGE. The members of `IFLA_PROTINFO` there are those of `BridgePort`.
    BridgeSpec,
    /// A vlan of a port that is a tunnel.
    BridgeVlanTunnel,
    /// Spanning trees of a port.
    BridgeMst,
    /// A spanning tree of a port.
    BridgeMstEntry,
    /// AF_INET6 in `IFLA_AF_SPEC`, and `IFLA_PROTINFO` under AF_INET6.
    Inet6,
    /// `IFLA_PORT_SELF`, and each port of `IFLA_VF_PORTS`.
    Port,
}

/// The number of places.
pub const PLACES: usize = 44;

/// The rows of all places, in their order.
pub type Tables = [&'static [Row]; PLACES];

/// A kind of interface or of port, and the place of its data.
#[derive(Clone, Copy, Debug, Drop)]
pub struct KindRow(pub &'static str, pub Place);

/// The kinds of interfaces that have a table: texts of `IFLA_INFO_KIND`, and the places of their `IFLA_INFO_DATA`.
pub const KINDS: &[KindRow] = &[
    KindRow("vlan", Place::Vlan),
    KindRow("bond", Place::Bond),
    KindRow("bridge", Place::Bridge),
    KindRow("vxlan", Place::Vxlan),
    KindRow("geneve", Place::Geneve),
    KindRow("gre", Place::Gre),
    KindRow("gretap", Place::Gre),
    KindRow("erspan", Place::Gre),
    KindRow("ip6gre", Place::Gre6),
    KindRow("ip6gretap", Place::Gre6),
    KindRow("ip6erspan", Place::Gre6),
    KindRow("ipip", Place::IpTunnel),
    KindRow("sit", Place::IpTunnel),
    KindRow("ip6tnl", Place::Ip6Tunnel),
    KindRow("vti", Place::Vti),
    KindRow("vti6", Place::Vti6),
    KindRow("xfrm", Place::Xfrm),
    KindRow("macvlan", Place::Macvlan),
    KindRow("macvtap", Place::Macvlan),
    KindRow("ipvlan", Place::Ipvlan),
    KindRow("ipvtap", Place::Ipvlan),
    KindRow("macsec", Place::Macsec),
    KindRow("can", Place::Can),
    KindRow("vcan", Place::Can),
    KindRow("vrf", Place::Vrf),
    KindRow("tun", Place::Tun),
    KindRow("netkit", Place::Netkit),
    KindRow("hsr", Place::Hsr),
    KindRow("rmnet", Place::Rmnet),
    KindRow("gtp", Place::Gtp),
    KindRow("bareudp", Place::Bareudp),
    KindRow("amt", Place::Amt),
    KindRow("wwan", Place::Wwan),
    KindRow("ovpn", Place::Ovpn),
    KindRow("veth", Place::Veth),
    KindRow("vxcan", Place::Vxcan),
    KindRow("ppp", Place::Ppp),
];

/// The kinds of ports that have a table: texts of `IFLA_INFO_SLAVE_KIND`, and the places of their
/// `IFLA_INFO_SLAVE_DATA`.
pub const SLAVE_KINDS: &[KindRow] = &[
    KindRow("bond", Place::BondSlave),
    KindRow("bridge", Place::BridgePort),
    KindRow("vrf", Place::VrfPort),
];

/// The place beside the first of these kinds that has this text.
fn place_among(kinds: &'static [KindRow], kind: &str) -> Option<Place>
    ensures { result ≡ place_among kinds.now kind.now }
{
    for row in kinds {
        if row.0 == kind {
            return Some(row.1);
        }
    }
    None
}

impl Place {
    /// Where its rows stand in a table of all places.
    pub fn number(self) -> usize
        ensures { result ≡ place_number self }
    {
        match self {
            Place::Vlan => 0,
            Place::VlanQos => 1,
            Place::Bond => 2,
            Place::BondAdInfo => 3,
            Place::BondSlave => 4,
            Place::Bridge => 5,
            Place::BridgeQuerier => 6,
            Place::BridgePort => 7,
            Place::Vxlan => 8,
            Place::Geneve => 9,
            Place::Gre => 10,
            Place::Gre6 => 11,
            Place::IpTunnel => 12,
            Place::Ip6Tunnel => 13,
            Place::Vti => 14,
            Place::Vti6 => 15,
            Place::Xfrm => 16,
            Place::Macvlan => 17,
            Place::MacvlanAddresses => 18,
            Place::Ipvlan => 19,
            Place::Macsec => 20,
            Place::Can => 21,
            Place::CanTdc => 22,
            Place::CanCtrlmode => 23,
            Place::Vrf => 24,
            Place::VrfPort => 25,
            Place::Tun => 26,
            Place::Netkit => 27,
            Place::Hsr => 28,
            Place::Rmnet => 29,
            Place::Gtp => 30,
            Place::Bareudp => 31,
            Place::Amt => 32,
            Place::Wwan => 33,
            Place::Ovpn => 34,
            Place::Veth => 35,
            Place::Vxcan => 36,
            Place::Ppp => 37,
            Place::BridgeSpec => 38,
            Place::BridgeVlanTunnel => 39,
            Place::BridgeMst => 40,
            Place::BridgeMstEntry => 41,
            Place::Inet6 => 42,
            Place::Port => 43,
        }
    }

    /// Its rows in a table of all places; none where the table is shorter.
    pub fn rows_in(self, tables: &[&'static [Row]]) -> &'static [Row]
        ensures { result.now ≡ rows_of tables.now self }
    {
        let number = self.number();
        if number < tables.len() {
            tables[number]
        } else {
            &[]
        }
    }

    /// Its rows.
    pub fn rows(self) -> &'static [Row]
        ensures { map row_now result.now ≡ own_rows self }
    {
        match self {
            Place::Vlan => vlan::VLAN,
            Place::VlanQos => vlan::VLAN_QOS,
            Place::Bond => bond::BOND,
            Place::BondAdInfo => bond::BOND_AD_INFO,
            Place::BondSlave => bond::BOND_SLAVE,
            Place::Bridge => bridge::BRIDGE,
            Place::BridgeQuerier => bridge::BRIDGE_QUERIER,
            Place::BridgePort => bridge::BRIDGE_PORT,
            Place::Vxlan => vxlan::VXLAN,
            Place::Geneve => geneve::GENEVE,
            Place::Gre => gre::GRE,
            Place::Gre6 => gre::GRE6,
            Place::IpTunnel => tunnel::IP_TUNNEL,
            Place::Ip6Tunnel => tunnel::IP6_TUNNEL,
            Place::Vti => tunnel::VTI,
            Place::Vti6 => tunnel::VTI6,
            Place::Xfrm => tunnel::XFRM,
            Place::Macvlan => macvlan::MACVLAN,
            Place::MacvlanAddresses => macvlan::MACVLAN_ADDRESSES,
            Place::Ipvlan => macvlan::IPVLAN,
            Place::Macsec => macsec::MACSEC,
            Place::Can => can::CAN,
            Place::CanTdc => can::CAN_TDC,
            Place::CanCtrlmode => can::CAN_CTRLMODE,
            Place::Vrf => others::VRF,
            Place::VrfPort => others::VRF_PORT,
            Place::Tun => others::TUN,
            Place::Netkit => others::NETKIT,
            Place::Hsr => others::HSR,
            Place::Rmnet => others::RMNET,
            Place::Gtp => others::GTP,
            Place::Bareudp => others::BAREUDP,
            Place::Amt => others::AMT,
            Place::Wwan => others::WWAN,
            Place::Ovpn => others::OVPN,
            Place::Veth => others::VETH,
            Place::Vxcan => others::VXCAN,
            Place::Ppp => others::PPP,
            Place::BridgeSpec => family::BRIDGE_SPEC,
            Place::BridgeVlanTunnel => family::BRIDGE_VLAN_TUNNEL,
            Place::BridgeMst => family::BRIDGE_MST,
            Place::BridgeMstEntry => family::BRIDGE_MST_ENTRY,
            Place::Inet6 => family::INET6,
            Place::Port => family::PORT,
        }
    }

    /// The place of the members of `IFLA_INFO_DATA` of links of this kind, the text of `IFLA_INFO_KIND`.
    pub fn of_kind(kind: &str) -> Option<Place>
        ensures { result ≡ place_of_kind kind.now }
    {
        place_among(KINDS, kind)
    }

    /// The place of the members of `IFLA_INFO_SLAVE_DATA` of ports of this kind, the text of `IFLA_INFO_SLAVE_KIND`.
    pub fn of_slave_kind(kind: &str) -> Option<Place>
        ensures { result ≡ place_of_slave_kind kind.now }
    {
        place_among(SLAVE_KINDS, kind)
    }
}

/// The rows of all places, in their order.
pub fn all_rows() -> Tables
    ensures { AreAllRows result }
{
    [
        Place::Vlan.rows(),
        Place::VlanQos.rows(),
        Place::Bond.rows(),
        Place::BondAdInfo.rows(),
        Place::BondSlave.rows(),
        Place::Bridge.rows(),
        Place::BridgeQuerier.rows(),
        Place::BridgePort.rows(),
        Place::Vxlan.rows(),
        Place::Geneve.rows(),
        Place::Gre.rows(),
        Place::Gre6.rows(),
        Place::IpTunnel.rows(),
        Place::Ip6Tunnel.rows(),
        Place::Vti.rows(),
        Place::Vti6.rows(),
        Place::Xfrm.rows(),
        Place::Macvlan.rows(),
        Place::MacvlanAddresses.rows(),
        Place::Ipvlan.rows(),
        Place::Macsec.rows(),
        Place::Can.rows(),
        Place::CanTdc.rows(),
        Place::CanCtrlmode.rows(),
        Place::Vrf.rows(),
        Place::VrfPort.rows(),
        Place::Tun.rows(),
        Place::Netkit.rows(),
        Place::Hsr.rows(),
        Place::Rmnet.rows(),
        Place::Gtp.rows(),
        Place::Bareudp.rows(),
        Place::Amt.rows(),
        Place::Wwan.rows(),
        Place::Ovpn.rows(),
        Place::Veth.rows(),
        Place::Vxcan.rows(),
        Place::Ppp.rows(),
        Place::BridgeSpec.rows(),
        Place::BridgeVlanTunnel.rows(),
        Place::BridgeMst.rows(),
        Place::BridgeMstEntry.rows(),
        Place::Inet6.rows(),
        Place::Port.rows(),
    ]
}
