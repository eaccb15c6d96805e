//! An attribute of each variant, read from bytes.

use crate::copies::every_variant;
use crate::variant_rows::{ROWS, Row};
use expected::{is_copied, kept_byte, list};
use link_msg::*;
use std::alloc::Global;
use std::process::Abort;

/// Each attribute means the value at its place.
fn are_read(rt: &impl Abort, alloc: Global, rows: &[Row<'_>], wanted: &[LinkAttribute]) {
    assert!(rt; rows.len() == wanted.len());
    for ((label, family, bytes), wanted) in rows.iter().zip(wanted) {
        let Ok(buffer) = NlaBuffer::new_checked(bytes) else {
            panic!(rt; "{label} is no frame");
        };
        let family = AddressFamily::from(*family);
        let Ok(read) = LinkAttribute::parse_with_param(alloc, &buffer, family) else {
            panic!(rt; "{label} is not read");
        };
        assert!(rt; is_copied(alloc, &read, wanted), "{label}");
    }
}

#[test]
fn each_variant_is_read(rt: HostRuntime) {
    let wanted = every_variant(&rt, rt.alloc(), 200, "lo");
    are_read(&rt, rt.alloc(), &ROWS, wanted.as_slice());
}

/// A member of a number that no place lists, in the lists that have none of it above.
const FOREIGN: [Row<'_>; 9] = [
    (
        "IFLA_XDP",
        0,
        &[0x09, 0x00, 0x2b, 0x00, 0x05, 0x00, 0x63, 0x80, 0x07],
    ),
    (
        "IFLA_PROTO_DOWN_REASON",
        0,
        &[0x09, 0x00, 0x37, 0x00, 0x05, 0x00, 0x63, 0x80, 0x07],
    ),
    (
        "IFLA_DEVLINK_PORT",
        0,
        &[0x09, 0x00, 0x3e, 0x00, 0x05, 0x00, 0x63, 0x80, 0x07],
    ),
    (
        "IFLA_DPLL_PIN",
        0,
        &[0x09, 0x00, 0x41, 0x00, 0x05, 0x00, 0x63, 0x80, 0x07],
    ),
    (
        "IFLA_VF_STATS",
        0,
        &[
            0x11, 0x00, 0x16, 0x00, 0x0d, 0x00, 0x01, 0x00, 0x09, 0x00, 0x08, 0x00, 0x05, 0x00,
            0x63, 0x80, 0x07,
        ],
    ),
    (
        "IFLA_VF_VLAN_LIST",
        0,
        &[
            0x11, 0x00, 0x16, 0x00, 0x0d, 0x00, 0x01, 0x00, 0x09, 0x00, 0x0c, 0x00, 0x05, 0x00,
            0x63, 0x80, 0x07,
        ],
    ),
    (
        "AF_INET",
        0,
        &[
            0x0d, 0x00, 0x1a, 0x00, 0x09, 0x00, 0x02, 0x00, 0x05, 0x00, 0x63, 0x80, 0x07,
        ],
    ),
    (
        "AF_INET6",
        0,
        &[
            0x0d, 0x00, 0x1a, 0x00, 0x09, 0x00, 0x0a, 0x00, 0x05, 0x00, 0x63, 0x80, 0x07,
        ],
    ),
    (
        "AF_MCTP",
        0,
        &[
            0x0d, 0x00, 0x1a, 0x00, 0x09, 0x00, 0x2d, 0x00, 0x05, 0x00, 0x63, 0x80, 0x07,
        ],
    ),
];

/// A list of functions with one member.
fn function(rt: &impl Abort, alloc: Global, member: VfInfo) -> LinkAttribute {
    let function = LinkVfInfo(list(alloc, [member]).expect(rt, "memory"));
    LinkAttribute::VfInfoList(list(alloc, [function]).expect(rt, "memory"))
}

/// IFLA_AF_SPEC with one family.
fn family(rt: &impl Abort, alloc: Global, member: AfSpecUnspec) -> LinkAttribute {
    LinkAttribute::AfSpecUnspec(list(alloc, [member]).expect(rt, "memory"))
}

/// The values of these lists, with the byte 7.
fn foreign(rt: &impl Abort, alloc: Global) -> [LinkAttribute; 9] {
    let stats = list(
        alloc,
        [VfStats::Other(kept_byte(alloc, 7).expect(rt, "memory"))],
    )
    .expect(rt, "memory");
    let vlans = list(
        alloc,
        [VfVlan::Other(kept_byte(alloc, 7).expect(rt, "memory"))],
    )
    .expect(rt, "memory");
    let inet = list(
        alloc,
        [AfSpecInet::Other(kept_byte(alloc, 7).expect(rt, "memory"))],
    )
    .expect(rt, "memory");
    let inet6 = list(
        alloc,
        [AfSpecInet6::Other(kept_byte(alloc, 7).expect(rt, "memory"))],
    )
    .expect(rt, "memory");
    let mctp = list(
        alloc,
        [AfSpecMctp::Other(kept_byte(alloc, 7).expect(rt, "memory"))],
    )
    .expect(rt, "memory");
    [
        LinkAttribute::Xdp(list(
            alloc,
            [LinkXdp::Other(kept_byte(alloc, 7).expect(rt, "memory"))],
        )
        .expect(rt, "memory")),
        LinkAttribute::ProtoDownReason(list(
            alloc,
            [LinkProtocolDownReason::Other(kept_byte(alloc, 7).expect(rt, "memory"))],
        )
        .expect(rt, "memory")),
        LinkAttribute::DevlinkPort(list(
            alloc,
            [DevlinkPort::Other(kept_byte(alloc, 7).expect(rt, "memory"))],
        )
        .expect(rt, "memory")),
        LinkAttribute::DpllPin(list(
            alloc,
            [DpllPin::Other(kept_byte(alloc, 7).expect(rt, "memory"))],
        )
        .expect(rt, "memory")),
        function(rt, alloc, VfInfo::Stats(stats)),
        function(rt, alloc, VfInfo::VlanList(vlans)),
        family(rt, alloc, AfSpecUnspec::Inet(inet)),
        family(rt, alloc, AfSpecUnspec::Inet6(inet6)),
        family(rt, alloc, AfSpecUnspec::Mctp(mctp)),
    ]
}

#[test]
fn foreign_members_are_kept(rt: HostRuntime) {
    let wanted = foreign(&rt, rt.alloc());
    are_read(&rt, rt.alloc(), &FOREIGN, &wanted);
}
