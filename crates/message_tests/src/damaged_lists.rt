//! Damaged lists in each place, and the refusals of whole messages.

use crate::rows::is_refused_row;
use crate::testing::{cause_checked, cause_read, is_same, vec_of};
use link_msg::Cause;
use std::alloc::Global;
use std::process::Abort;

/// A message of a header of this family, and the payload in attributes of these numbers, the innermost last and each
/// without padding.
fn message(rt: &impl Abort, alloc: Global, family: u8, path: &[u8], payload: &[u8]) -> Vec<u8> {
    let header = [
        family, 0x00, 0x00, 0x00, 0x00, 0x00, 0x00, 0x00, 0x00, 0x00, 0x00, 0x00, 0x00, 0x00, 0x00,
        0x00,
    ];
    let mut bytes = vec_of(rt, alloc, &header);
    assert!(rt; path.len() < 10);
    assert!(rt; payload.len() < 100);
    let mut len = (4 * path.len() + payload.len()) as u8;
    for number in path {
        bytes
            .extend_from_slice(&[len, 0x00, *number, 0x00])
            .expect(rt, "memory");
        len = len.saturating_sub(4);
    }
    bytes.extend_from_slice(payload).expect(rt, "memory");
    bytes
}

/// A message with this payload in attributes of these numbers has this first fault or none.
fn fails_in(
    rt: &impl Abort,
    alloc: Global,
    label: &str,
    family: u8,
    path: &[u8],
    payload: &[u8],
    wanted: Option<Cause>,
) {
    let bytes = message(rt, alloc, family, path, payload);
    let bytes = bytes.as_slice();
    match wanted {
        Some(cause) => is_refused_row(rt, alloc, label, bytes, cause),
        None => {
            is_same(rt, label, &cause_checked(bytes), &None);
            is_same(rt, label, &cause_read(alloc, bytes), &None);
        },
    }
}

/// The place of a list, the family, and the numbers that lead there.
type Place<'a> = (&'a str, u8, &'a [u8]);

/// What a list has, its bytes, and what it is refused for, or nothing.
const MEMBERS: &[(&str, &[u8], Option<Cause>)] = &[
    (
        "a stray byte",
        &[0x04, 0x00, 0x63, 0x00, 0x01],
        Some(Cause::FrameShort { left: 1 }),
    ),
    (
        "a length that passes the list",
        &[0x09, 0x00, 0x63, 0x00, 0x01, 0x02, 0x03, 0x04],
        Some(Cause::FrameOver { length: 9, left: 8 }),
    ),
    (
        "a length of 3",
        &[0x03, 0x00, 0x63, 0x00],
        Some(Cause::FrameUnder { length: 3 }),
    ),
    ("a foreign number", &[0x05, 0x00, 0x63, 0x00, 0x01], None),
];

/// The list at this place has this first fault or none, where it has what is said.
fn fails_at(
    rt: &impl Abort,
    alloc: Global,
    place: &Place<'_>,
    what: &str,
    payload: &[u8],
    wanted: Option<Cause>,
) {
    let (name, family, path) = place;
    let label = format!(in alloc; "{what} in {name}").expect(rt, "memory");
    fails_in(rt, alloc, label.as_str(), *family, path, payload, wanted);
}

/// Each place is refused where a frame in it is damaged, and takes a foreign number. It takes no bytes, or refuses
/// them.
fn are_places(rt: &impl Abort, alloc: Global, places: &[Place<'_>], empty: Option<Cause>) {
    for place in places {
        for (what, payload, wanted) in MEMBERS {
            fails_at(rt, alloc, place, what, payload, *wanted);
        }
        fails_at(rt, alloc, place, "no bytes", &[], empty);
    }
}

/// The rows of `lists_that_may_be_empty`.
const LISTS_THAT_MAY_BE_EMPTY: &[Place<'static>] = &[
    ("IFLA_PROP_LIST", 0, &[0x34]),
    ("IFLA_DEVLINK_PORT", 0, &[0x3e]),
    ("IFLA_DPLL_PIN", 0, &[0x41]),
    ("IFLA_PROTO_DOWN_REASON", 0, &[0x37]),
    ("IFLA_AF_SPEC", 0, &[0x1a]),
    ("IFLA_VFINFO_LIST", 0, &[0x16]),
    ("IFLA_VF_STATS", 0, &[0x16, 0x01, 0x08]),
    ("IFLA_VF_VLAN_LIST", 0, &[0x16, 0x01, 0x0c]),
];

#[test]
fn lists_that_may_be_empty(rt: HostRuntime) {
    are_places(&rt, rt.alloc(), LISTS_THAT_MAY_BE_EMPTY, None);
}

/// The rows of `lists_that_are_not_empty`.
const LISTS_THAT_ARE_NOT_EMPTY: &[Place<'static>] = &[
    ("IFLA_LINKINFO", 0, &[0x12]),
    ("IFLA_XDP", 0, &[0x2b]),
    ("IFLA_VF_PORTS", 0, &[0x18]),
    ("IFLA_PORT_SELF", 0, &[0x19]),
    ("IFLA_VF_INFO", 0, &[0x16, 0x01]),
    ("IFLA_VF_PORT", 0, &[0x18, 0x01]),
    ("AF_INET", 0, &[0x1a, 0x02]),
    ("AF_INET6", 0, &[0x1a, 0x0a]),
    ("AF_MCTP", 0, &[0x1a, 0x2d]),
    ("IFLA_AF_SPEC of AF_BRIDGE", 7, &[0x1a]),
    ("IFLA_PROTINFO of AF_BRIDGE", 7, &[0x0c]),
    ("IFLA_PROTINFO of AF_INET6", 10, &[0x0c]),
];

#[test]
fn lists_that_are_not_empty(rt: HostRuntime) {
    are_places(
        &rt,
        rt.alloc(),
        LISTS_THAT_ARE_NOT_EMPTY,
        Some(Cause::EmptyList),
    );
}

/// Attributes, the families under which they are bytes, and their numbers.
const BYTES: &[(&str, u8, u8)] = &[
    ("IFLA_AF_SPEC of AF_INET", 2, 0x1a),
    ("IFLA_AF_SPEC of AF_INET6", 10, 0x1a),
    ("IFLA_PROTINFO of AF_INET", 2, 0x0c),
    ("IFLA_PROTINFO of AF_UNSPEC", 0, 0x0c),
];

#[test]
fn bytes_of_other_families(rt: HostRuntime) {
    for (label, family, number) in BYTES {
        fails_in(&rt, rt.alloc(), label, *family, &[*number], &[0xff], None);
    }
}

/// Entries with another number than IFLA_VF_INFO or IFLA_VF_PORT are dropped unread, but their frames are whole.
#[test]
fn entries_are_dropped(rt: HostRuntime) {
    for (label, number) in [("IFLA_VFINFO_LIST", 0x16), ("IFLA_VF_PORTS", 0x18)] {
        let dropped = [0x08, 0x00, 0x05, 0x00, 0xff, 0xff, 0xff, 0xff];
        fails_in(&rt, rt.alloc(), label, 0, &[number], &dropped, None);
        let over = Cause::FrameOver {
            length: 65535,
            left: 4,
        };
        let broken = [0xff, 0xff, 0x07, 0x00];
        fails_in(&rt, rt.alloc(), label, 0, &[number], &broken, Some(over));
    }
}

/// Attributes, the numbers that lead to them, the length of their payload, and what they are refused for.
const EXACT_CAUSES: &[(&str, &[u8], usize, Cause)] = &[
    (
        "IFLA_MAP",
        &[0x0e],
        31,
        Cause::TooShort { got: 31, need: 32 },
    ),
    (
        "IFLA_WIRELESS",
        &[0x0b],
        7,
        Cause::TooShort { got: 7, need: 8 },
    ),
    (
        "IFLA_VF_STATS_RX_PACKETS",
        &[0x16, 0x01, 0x08, 0x00],
        7,
        Cause::WrongLength { got: 7, want: 8 },
    ),
    (
        "IFLA_VF_TRUST",
        &[0x16, 0x01, 0x09],
        7,
        Cause::TooShort { got: 7, need: 8 },
    ),
];

#[test]
fn exact_causes(rt: HostRuntime) {
    let zeros = [0; 31];
    for (label, path, len, cause) in EXACT_CAUSES {
        assert!(rt; *len <= 31);
        let payload = &zeros[..*len];
        fails_in(&rt, rt.alloc(), label, 0, path, payload, Some(*cause));
    }
}
