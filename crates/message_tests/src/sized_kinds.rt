//! Numbers round those that are read at one size of payload alone, at each place, with each flag and ten sizes.

use crate::rows::*;
use crate::testing::{holds, kept_of, vec_of};
use expected::{rewrites, writes};
use link_msg::numbers::{IFLA_HEADROOM, IFLA_NETNS_IMMUTABLE, IFLA_TAILROOM};
use link_msg::*;
use std::alloc::Global;
use std::process::Abort;

/// The numbers: two before the headroom, headroom, tailroom, and one after.
const NUMBERS: [u16; 5] = [
    IFLA_HEADROOM - 2,
    IFLA_NETNS_IMMUTABLE,
    IFLA_HEADROOM,
    IFLA_TAILROOM,
    IFLA_TAILROOM + 1,
];

/// The flag bits of a kind.
const FLAGS: [u16; 4] = [
    0,
    NLA_F_NET_BYTEORDER,
    NLA_F_NESTED,
    NLA_F_NESTED | NLA_F_NET_BYTEORDER,
];

/// Families of which the outermost table depends on some.
const FAMILIES: [u8; 6] = [0, 2, 7, 10, 45, 99];

/// The payloads are the beginnings of these bytes.
const PAYLOAD: [u8; 9] = [0x20, 0x01, 0x02, 0x03, 0x04, 0x05, 0x06, 0x07, 0x08];

/// A frame of this kind and payload, with its padding.
fn frame(rt: &impl Abort, alloc: Global, kind: u16, payload: &[u8]) -> Vec<u8> {
    assert!(rt; payload.len() < 10);
    let [low, high] = kind.to_le_bytes();
    let mut bytes = vec_of(rt, alloc, &[4 + payload.len() as u8, 0, low, high]);
    bytes.extend_from_slice(payload).expect(rt, "memory");
    let padding = [0; 3];
    let missing = (4 - payload.len() % 4) % 4;
    bytes
        .extend_from_slice(&padding[..missing])
        .expect(rt, "memory");
    bytes
}

/// What an attribute of this kind and payload is read as, and the frame that it is written as.
fn outcome(
    rt: &impl Abort,
    alloc: Global,
    kind: u16,
    payload: &[u8],
) -> Result<(LinkAttribute, Vec<u8>), Cause> {
    let number = kind & 0x3fff;
    if number == IFLA_NETNS_IMMUTABLE {
        if payload.len() != 1 {
            return Err(Cause::WrongLength {
                got: payload.len(),
                want: 1,
            });
        }
        let text = frame(rt, alloc, number, &[1]);
        return Ok((LinkAttribute::NetnsImmutable(true), text));
    }
    if payload.len() == 2 && number == IFLA_HEADROOM {
        return Ok((
            LinkAttribute::Headroom(288),
            frame(rt, alloc, number, payload),
        ));
    }
    if payload.len() == 2 && number == IFLA_TAILROOM {
        return Ok((
            LinkAttribute::Tailroom(288),
            frame(rt, alloc, number, payload),
        ));
    }
    let nla = kept_of(rt, alloc, kind, payload);
    Ok((LinkAttribute::Other(nla), frame(rt, alloc, kind, payload)))
}

/// An attribute of this kind and payload under this family is what the table of this file says.
fn is_as_told(rt: &impl Abort, alloc: Global, family: u8, kind: u16, payload: &[u8]) {
    let attribute = frame(rt, alloc, kind, payload);
    let attribute = attribute.as_slice();
    let label = format!(in alloc; "family {family}, kind {kind}, {} bytes", payload.len());
    let label = label.expect(rt, "memory");
    let label = label.as_str();
    match outcome(rt, alloc, kind, payload) {
        Ok((wanted, text)) => {
            is_attribute_row(rt, alloc, label, family, attribute, wanted, text.as_slice());
        },
        Err(cause) => {
            let bytes = with_header(rt, alloc, family, attribute);
            is_refused_row(rt, alloc, label, bytes.as_slice(), cause);
        },
    }
}

#[test]
fn at_the_outermost_place(rt: HostRuntime) {
    let alloc = rt.alloc();
    for family in FAMILIES {
        for number in NUMBERS {
            for flags in FLAGS {
                for len in 0..10 {
                    is_as_told(&rt, alloc, family, number | flags, &PAYLOAD[..len]);
                }
            }
        }
    }
}

/// Whether a member of this kind and payload is kept as it is.
fn is_kept<N: NlaRead + Drop>(rt: &impl Abort, alloc: Global, kind: u16, payload: &[u8]) -> bool {
    let bytes = frame(rt, alloc, kind, payload);
    let values = N::parse_list(alloc, bytes.as_slice()).expect(rt, "it is read");
    let [value] = values.as_slice() else {
        return false;
    };
    value.kind() == kind
        && value.fits()
        && value.value_len() == payload.len()
        && writes(values.as_slice(), bytes.as_slice())
        && rewrites::<N>(bytes.as_slice(), bytes.as_slice())
}

/// At the place that the label names none of the numbers is read.
fn keeps_all<N: NlaRead + Drop>(rt: &impl Abort, alloc: Global, label: &str) {
    for number in NUMBERS {
        for flags in FLAGS {
            for len in 0..10 {
                let kind = number | flags;
                let is_kept = is_kept::<N>(rt, alloc, kind, &PAYLOAD[..len]);
                holds(rt, label, is_kept);
            }
        }
    }
}

#[test]
fn at_the_flat_lists(rt: HostRuntime) {
    let alloc = rt.alloc();
    keeps_all::<Prop>(&rt, alloc, "IFLA_PROP_LIST");
    keeps_all::<DevlinkPort>(&rt, alloc, "IFLA_DEVLINK_PORT");
    keeps_all::<DpllPin>(&rt, alloc, "IFLA_DPLL_PIN");
    keeps_all::<LinkProtocolDownReason>(&rt, alloc, "IFLA_PROTO_DOWN_REASON");
    keeps_all::<LinkXdp>(&rt, alloc, "IFLA_XDP");
    keeps_all::<LinkInfo>(&rt, alloc, "IFLA_LINKINFO");
}

#[test]
fn in_functions_and_ports(rt: HostRuntime) {
    let alloc = rt.alloc();
    keeps_all::<VfInfo>(&rt, alloc, "IFLA_VF_INFO");
    keeps_all::<VfStats>(&rt, alloc, "IFLA_VF_STATS");
    keeps_all::<VfVlan>(&rt, alloc, "IFLA_VF_VLAN_LIST");
    keeps_all::<VfPort>(&rt, alloc, "IFLA_VF_PORT");
}

#[test]
fn in_settings(rt: HostRuntime) {
    let alloc = rt.alloc();
    keeps_all::<AfSpecUnspec>(&rt, alloc, "IFLA_AF_SPEC");
    keeps_all::<AfSpecInet>(&rt, alloc, "AF_INET");
    keeps_all::<AfSpecInet6>(&rt, alloc, "AF_INET6");
    keeps_all::<AfSpecMctp>(&rt, alloc, "AF_MCTP");
    keeps_all::<AfSpecBridge>(&rt, alloc, "IFLA_AF_SPEC of AF_BRIDGE");
    keeps_all::<LinkProtoInfoBridge>(&rt, alloc, "IFLA_PROTINFO of AF_BRIDGE");
    keeps_all::<LinkProtoInfoInet6>(&rt, alloc, "IFLA_PROTINFO of AF_INET6");
}
