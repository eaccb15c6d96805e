//! Families: members that are refused, read, asked for and kept.

use crate::settings::{family_text, two_settings};
use crate::testing::{holds, is_same, kept_of, list_of, refuses_bad_frames, vec_of};
use expected::{BAD_FRAMES, means, refuses, rewrites, writes, wrong_bad_frame};
use link_afspec::*;
use link_recs::InetDevConf;
use link_vals::MctpPhysBinding;
use nla_wire::{Cause, CloneIn, Exact, NlaRead};
use std::alloc::Global;
use std::process::Abort;

/// The list of a family is refused for each damaged frame in it.
fn refuses_bad_members(rt: &impl Abort, alloc: Global, label: &str, family: u8) {
    for (members, cause) in &BAD_FRAMES {
        assert!(rt; members.len() <= 12);
        let len = 4 + members.len() as u8;
        let mut bytes = vec_of(rt, alloc, &[len, 0x00, family, 0x00]);
        bytes.extend_from_slice(members).expect(rt, "memory");
        let is_refused = refuses::<AfSpecUnspec>(alloc, bytes.as_slice(), *cause);
        holds(rt, label, is_refused);
    }
}

#[test]
fn refused_families(rt: HostRuntime) {
    let alloc = rt.alloc();
    refuses_bad_frames::<AfSpecUnspec>(&rt, alloc);
    let empty = Cause::EmptyList;
    for (label, family) in [("AF_INET", 0x02), ("AF_INET6", 0x0a), ("AF_MCTP", 0x2d)] {
        for flag in [0x00, 0x80] {
            let bytes = [0x04, 0x00, family, flag];
            holds(&rt, label, refuses::<AfSpecUnspec>(alloc, &bytes, empty));
        }
        let followed = [0x04, 0x00, family, 0x00, 0x03, 0x00, 0x02, 0x00];
        holds(&rt, label, refuses::<AfSpecUnspec>(alloc, &followed, empty));
        refuses_bad_members(&rt, alloc, label, family);
    }
    let short = Cause::WrongLength { got: 0, want: 1 };
    let second = [
        0x08, 0x00, 0x2d, 0x00, 0x04, 0x00, 0x02, 0x00, 0x04, 0x00, 0x02, 0x00,
    ];
    assert!(rt; refuses::<AfSpecUnspec>(alloc, &second, short));
}

#[test]
fn families(rt: HostRuntime) {
    let alloc = rt.alloc();
    let mtus = list_of(&rt, alloc, [AfSpecInet6::RaMtu(1500)]);
    let vendor = AfSpecMctp::PhysBinding(MctpPhysBinding::Vendor);
    let vendors = list_of(&rt, alloc, [vendor]);
    let foreign = AfSpecMctp::Other(kept_of(&rt, alloc, 99, &[]));
    let others = list_of(&rt, alloc, [foreign]);
    let bytes = [
        0x0c, 0x00, 0x0a, 0x00, 0x08, 0x00, 0x09, 0x00, 0xdc, 0x05, 0x00, 0x00, 0x0c, 0x00, 0x2d,
        0x00, 0x05, 0x00, 0x02, 0x00, 0xff, 0x00, 0x00, 0x00, 0x08, 0x00, 0x2d, 0x00, 0x04, 0x00,
        0x63, 0x00, 0x04, 0x00, 0x03, 0x00,
    ];
    assert!(rt;
        means(
            alloc,
            &bytes,
            &[
                AfSpecUnspec::Inet6(mtus),
                AfSpecUnspec::Mctp(vendors),
                AfSpecUnspec::Mctp(others),
                AfSpecUnspec::Other(kept_of(&rt, alloc, 3, &[])),
            ],
            &bytes
        )
    );
}

#[test]
fn family_of_ipv4(rt: HostRuntime) {
    let alloc = rt.alloc();
    let conf = list_of(&rt, alloc, [two_settings()]);
    let inet = AfSpecUnspec::Inet(conf);
    let bytes = [
        0x10, 0x00, 0x02, 0x00, 0x0c, 0x00, 0x01, 0x00, 0x08, 0x00, 0x01, 0x00, 0x01, 0x00, 0x00,
        0x00,
    ];
    assert!(rt; means(alloc, &bytes, &[inet], &family_text()));
}

/// A member of one request.
fn one_request(rt: &impl Abort, alloc: Global) -> AfSpecUnspec {
    let request = AfSpecInet::DevConfRequest(InetDevConf {
        forwarding: 1,
        ..InetDevConf::default()
    });
    AfSpecUnspec::Inet(list_of(rt, alloc, [request]))
}

/// A request is read as settings, whose record begins with its attributes.
#[test]
fn requests_of_a_family(rt: HostRuntime) {
    let member = one_request(&rt, rt.alloc());
    let bytes = [
        0x10, 0x00, 0x02, 0x00, 0x0c, 0x00, 0x01, 0x80, 0x08, 0x00, 0x01, 0x00, 0x01, 0x00, 0x00,
        0x00,
    ];
    assert!(rt; writes(&[member], &bytes));
    assert!(rt; rewrites::<AfSpecUnspec>(&bytes, &family_text()));
}

/// A list takes these values, one of kind 2 with both flags, and is refused where it is damaged.
fn keeps<N: NlaRead + Exact + CloneIn>(rt: &impl Abort, alloc: Global, label: &str, values: &[N]) {
    is_same(rt, label, &wrong_bad_frame::<N>(alloc), &None);
    let bytes = [0x05, 0x00, 0x02, 0xc0, 0x07];
    let text = [0x05, 0x00, 0x02, 0xc0, 0x07, 0x00, 0x00, 0x00];
    holds(rt, label, means(alloc, &bytes, values, &text));
}

#[test]
fn kept_members(rt: HostRuntime) {
    let alloc = rt.alloc();
    let member = kept_of(&rt, alloc, 2 | 0xc000, &[7]);
    keeps(
        &rt,
        alloc,
        "IFLA_AF_SPEC of AF_BRIDGE",
        &[AfSpecBridge::Other(member)],
    );
    let member = kept_of(&rt, alloc, 2 | 0xc000, &[7]);
    keeps(
        &rt,
        alloc,
        "IFLA_PROTINFO of AF_BRIDGE",
        &[LinkProtoInfoBridge::Other(member)],
    );
    let member = kept_of(&rt, alloc, 2 | 0xc000, &[7]);
    keeps(
        &rt,
        alloc,
        "IFLA_PROTINFO of AF_INET6",
        &[LinkProtoInfoInet6::Other(member)],
    );
}
