//! Kinds and their tables.

use crate::values::set;
use link_info::info::{Info, InfoError};
use link_info::{KINDS, Place, Row, SLAVE_KINDS, Value};
use std::alloc::Global;

/// The kinds of interfaces whose data has a table, each with the name of the attribute that the kernel's headers number
/// lowest (linux/if_link.h, if_tunnel.h, can/netlink.h, veth.h, can/vxcan.h).
const FIRSTS: &[(&str, &str)] = &[
    ("amt", "mode"),
    ("bareudp", "port"),
    ("bond", "mode"),
    ("bridge", "forward-delay"),
    ("can", "bittiming"),
    ("erspan", "link"),
    ("geneve", "id"),
    ("gre", "link"),
    ("gretap", "link"),
    ("gtp", "fd0"),
    ("hsr", "slave1"),
    ("ip6erspan", "link"),
    ("ip6gre", "link"),
    ("ip6gretap", "link"),
    ("ip6tnl", "link"),
    ("ipip", "link"),
    ("ipvlan", "mode"),
    ("ipvtap", "mode"),
    ("macsec", "sci"),
    ("macvlan", "mode"),
    ("macvtap", "mode"),
    ("netkit", "peer-info"),
    ("ovpn", "mode"),
    ("ppp", "dev-fd"),
    ("rmnet", "mux-id"),
    ("sit", "link"),
    ("tun", "owner"),
    ("vcan", "bittiming"),
    ("veth", "peer"),
    ("vlan", "id"),
    ("vrf", "table"),
    ("vti", "link"),
    ("vti6", "link"),
    ("vxcan", "peer"),
    ("vxlan", "id"),
    ("wwan", "link-id"),
    ("xfrm", "link"),
];

/// Those of ports.
const SLAVE_FIRSTS: &[(&str, &str)] = &[("bond", "state"), ("bridge", "state"), ("vrf", "table")];

/// Whether the first row of a place, if there is one, has this name.
fn begins_with(place: Option<Place>, name: &str) -> bool {
    match place {
        Some(place) => match place.rows() {
            [Row(_, first, _), ..] => *first == name,
            [] => false,
        },
        None => false,
    }
}

/// Whether an interface is of this kind, with rows of which the first has this name.
fn is_of(info: &Info, kind: &str, name: &str) -> bool {
    info.kind() == kind && begins_with(info.place(), name)
}

/// Whether an interface of this kind is made, with rows of which the first has this name.
fn is_made(alloc: Global, kind: &str, name: &str) -> bool {
    match Info::new(alloc, kind) {
        Ok(info) => is_of(&info, kind, name),
        Err(_) => false,
    }
}

#[test]
fn each_kind_is_known(rt: HostRuntime) {
    assert_eq!(rt; KINDS.len(), FIRSTS.len());
    for (kind, name) in FIRSTS {
        assert!(rt; begins_with(Place::of_kind(kind), name), "{kind}");
        assert!(rt; is_made(rt.alloc(), kind, name), "{kind}");
    }
    assert_eq!(rt; SLAVE_KINDS.len(), SLAVE_FIRSTS.len());
    for (kind, name) in SLAVE_FIRSTS {
        assert!(rt; begins_with(Place::of_slave_kind(kind), name), "{kind}");
    }
}

#[test]
fn other_kinds_are_not(rt: HostRuntime) {
    let others: &[&str] = &["", "vlan\0", "VLAN", "vlan1", "dummy", "veth1"];
    for kind in others {
        assert!(rt; Place::of_kind(kind).is_none(), "{kind}");
        assert!(rt; Place::of_slave_kind(kind).is_none(), "{kind}");
    }
}

/// Whether the numbers of rows ascend, and no two have one name.
fn are_in_order(rows: &[Row]) -> bool {
    for (at, Row(number, name, _)) in rows.iter().enumerate() {
        for Row(lower, other, _) in rows.iter().take(at) {
            if number <= lower || name == other {
                return false;
            }
        }
    }
    true
}

#[test]
fn an_interface_has_the_rows_of_its_place(rt: HostRuntime) {
    for row in KINDS {
        let rows = row.1.rows();
        assert!(rt; are_in_order(rows), "{}", row.0);
        let mut info = Info::new(rt.alloc(), row.0).expect(&rt, "it has a table");
        for Row(_, name, _) in rows {
            // it is found, and no data of a kind holds a text
            let set = set(&mut info, rt.alloc(), name, Value::Text("x"));
            assert_eq!(rt; set, Err(InfoError::NotHeld), "{} of {}", *name, row.0);
        }
    }
    for row in SLAVE_KINDS {
        assert!(rt; are_in_order(row.1.rows()), "{}", row.0);
    }
    let others = [
        Place::VlanQos,
        Place::BondAdInfo,
        Place::BridgeQuerier,
        Place::MacvlanAddresses,
        Place::CanTdc,
        Place::CanCtrlmode,
        Place::BridgeSpec,
        Place::BridgeVlanTunnel,
        Place::BridgeMst,
        Place::BridgeMstEntry,
        Place::Inet6,
        Place::Port,
    ];
    for place in others {
        assert!(rt; are_in_order(place.rows()), "{place:?}");
    }
}
