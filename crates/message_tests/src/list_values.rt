//! Messages of one attribute that is a list: the value that is read, and its text.

use crate::rows::*;
use crate::testing::{kept_of, list_of, text_of, value_of};
use expected::{equal, zeros_after};
use link_msg::*;
use std::alloc::Global;
use std::process::Abort;

#[test]
fn empty_lists(rt: HostRuntime) {
    let alloc = rt.alloc();
    is_attribute_row(
        &rt,
        alloc,
        "IFLA_VFINFO_LIST of no bytes",
        0,
        &[0x04, 0x00, 0x16, 0x00],
        LinkAttribute::VfInfoList(list_of(&rt, alloc, [])),
        &[0x04, 0x00, 0x16, 0x00],
    );
    is_attribute_row(
        &rt,
        alloc,
        "IFLA_VFINFO_LIST of a foreign entry",
        0,
        &[
            0x0c, 0x00, 0x16, 0x00, 0x08, 0x00, 0x05, 0x00, 0xff, 0xff, 0xff, 0xff,
        ],
        LinkAttribute::VfInfoList(list_of(&rt, alloc, [])),
        &[0x04, 0x00, 0x16, 0x00],
    );
    is_attribute_row(
        &rt,
        alloc,
        "IFLA_AF_SPEC of no bytes",
        0,
        &[0x04, 0x00, 0x1a, 0x00],
        LinkAttribute::AfSpecUnspec(list_of(&rt, alloc, [])),
        &[0x04, 0x00, 0x1a, 0x00],
    );
    is_attribute_row(
        &rt,
        alloc,
        "IFLA_PROP_LIST of no bytes",
        0,
        &[0x04, 0x00, 0x34, 0x00],
        LinkAttribute::PropList(list_of(&rt, alloc, [])),
        &[0x04, 0x00, 0x34, 0x80],
    );
}

#[test]
fn one_port(rt: HostRuntime) {
    let alloc = rt.alloc();
    let member = VfPort::Other(kept_of(&rt, alloc, 1, &[0x05, 0x00, 0x00, 0x00]));
    let port = LinkAttribute::PortSelf(LinkVfPort(list_of(&rt, alloc, [member])));
    let text = [
        0x0c, 0x00, 0x19, 0x00, 0x08, 0x00, 0x01, 0x00, 0x05, 0x00, 0x00, 0x00,
    ];
    is_attribute_row(&rt, alloc, "IFLA_PORT_SELF", 0, &text, port, &text);
}

/// A list of two ports, and an entry between them that is dropped.
#[test]
fn two_ports(rt: HostRuntime) {
    let alloc = rt.alloc();
    let first = VfPort::Other(kept_of(&rt, alloc, 1, &[0x05, 0x00, 0x00, 0x00]));
    let second = VfPort::Other(kept_of(&rt, alloc, 2 | NLA_F_NESTED, &[0xff]));
    let ports = [
        LinkVfPort(list_of(&rt, alloc, [first])),
        LinkVfPort(list_of(&rt, alloc, [second])),
    ];
    let ports = LinkAttribute::VfPorts(list_of(&rt, alloc, ports));
    let bytes = [
        0x21, 0x00, 0x18, 0x00, 0x0c, 0x00, 0x01, 0x00, 0x08, 0x00, 0x01, 0x00, 0x05, 0x00, 0x00,
        0x00, 0x05, 0x00, 0x02, 0x00, 0xff, 0x00, 0x00, 0x00, 0x09, 0x00, 0x01, 0x80, 0x05, 0x00,
        0x02, 0x80, 0xff,
    ];
    let text = [
        0x1c, 0x00, 0x18, 0x00, 0x0c, 0x00, 0x01, 0x00, 0x08, 0x00, 0x01, 0x00, 0x05, 0x00, 0x00,
        0x00, 0x0c, 0x00, 0x01, 0x00, 0x05, 0x00, 0x02, 0x80, 0xff, 0x00, 0x00, 0x00,
    ];
    is_attribute_row(&rt, alloc, "IFLA_VF_PORTS", 0, &bytes, ports, &text);
}

/// The list of one function with one member.
fn function(rt: &impl Abort, alloc: Global, member: VfInfo) -> LinkAttribute {
    let function = LinkVfInfo(list_of(rt, alloc, [member]));
    LinkAttribute::VfInfoList(list_of(rt, alloc, [function]))
}

#[test]
fn functions_with_one_record(rt: HostRuntime) {
    let alloc = rt.alloc();
    let off = [
        0x14, 0x00, 0x16, 0x00, 0x10, 0x00, 0x01, 0x00, 0x0c, 0x00, 0x09, 0x00, 0x01, 0x00, 0x00,
        0x00, 0x00, 0x00, 0x00, 0x00,
    ];
    let mut off_read = off;
    off_read[16..].copy_from_slice(&[0xff; 4]);
    let mut on = off;
    on[16] = 1;
    let mut on_read = off;
    on_read[16] = 2;
    let guid = [
        0x1c, 0x00, 0x16, 0x00, 0x18, 0x00, 0x01, 0x00, 0x14, 0x00, 0x0a, 0x00, 0x02, 0x00, 0x00,
        0x00, 0x00, 0x00, 0x00, 0x00, 0x01, 0x00, 0x00, 0x00, 0x00, 0x00, 0x00, 0x00,
    ];
    let mut guid_read = guid;
    guid_read[16..20].copy_from_slice(&[0xff; 4]);
    let trusted = VfInfo::Trust(VfInfoTrust::new(1, true));
    let untrusted = VfInfo::Trust(VfInfoTrust::new(1, false));
    let named = VfInfo::IbNodeGuid(VfInfoGuid::new(2, 1));
    is_attribute_row(
        &rt,
        alloc,
        "IFLA_VF_TRUST on",
        0,
        &on_read,
        function(&rt, alloc, trusted),
        &on,
    );
    is_attribute_row(
        &rt,
        alloc,
        "IFLA_VF_TRUST off",
        0,
        &off_read,
        function(&rt, alloc, untrusted),
        &off,
    );
    is_attribute_row(
        &rt,
        alloc,
        "IFLA_VF_IB_NODE_GUID",
        0,
        &guid_read,
        function(&rt, alloc, named),
        &guid,
    );
}

#[test]
fn functions_with_lists(rt: HostRuntime) {
    let alloc = rt.alloc();
    let counted = [
        0x18, 0x00, 0x16, 0x00, 0x14, 0x00, 0x01, 0x00, 0x10, 0x00, 0x08, 0x00, 0x0c, 0x00, 0x00,
        0x00, 0x07, 0x00, 0x00, 0x00, 0x00, 0x00, 0x00, 0x00,
    ];
    let uncounted = [
        0x0c, 0x00, 0x16, 0x00, 0x08, 0x00, 0x01, 0x00, 0x04, 0x00, 0x08, 0x00,
    ];
    let tagged = [
        0x20, 0x00, 0x16, 0x00, 0x1c, 0x00, 0x01, 0x00, 0x18, 0x00, 0x0c, 0x00, 0x14, 0x00, 0x01,
        0x00, 0x01, 0x00, 0x00, 0x00, 0x64, 0x00, 0x00, 0x00, 0x00, 0x00, 0x00, 0x00, 0x88, 0xa8,
        0x00, 0x00,
    ];
    let mut tagged_read = tagged;
    tagged_read[30] = 0x12;
    tagged_read[31] = 0x34;
    let one = VfInfo::Stats(list_of(&rt, alloc, [VfStats::RxPackets(7)]));
    let none = VfInfo::Stats(list_of(&rt, alloc, []));
    let vlan = VfVlan::Info(VfVlanInfo::new(1, 100, 0, VlanProtocol::Ieee8021Ad));
    let vlans = VfInfo::VlanList(list_of(&rt, alloc, [vlan]));
    is_attribute_row(
        &rt,
        alloc,
        "IFLA_VF_STATS of one counter",
        0,
        &counted,
        function(&rt, alloc, one),
        &counted,
    );
    is_attribute_row(
        &rt,
        alloc,
        "IFLA_VF_STATS of none",
        0,
        &uncounted,
        function(&rt, alloc, none),
        &uncounted,
    );
    is_attribute_row(
        &rt,
        alloc,
        "IFLA_VF_VLAN_LIST",
        0,
        &tagged_read,
        function(&rt, alloc, vlans),
        &tagged,
    );
}

#[test]
fn flat_lists(rt: HostRuntime) {
    let alloc = rt.alloc();
    let name = Prop::AltIfName(text_of(&rt, alloc, ""));
    let letter = Prop::AltIfName(text_of(&rt, alloc, "a"));
    let attached = LinkXdp::Attached(XdpAttached::SocketBuffer);
    let binding = AfSpecMctp::PhysBinding(MctpPhysBinding::Vendor);
    let mctp = AfSpecUnspec::Mctp(list_of(&rt, alloc, [binding]));
    let path = [
        0x0c, 0x00, 0x2b, 0x00, 0x05, 0x00, 0x02, 0x00, 0x02, 0x00, 0x00, 0x00,
    ];
    let families = [
        0x10, 0x00, 0x1a, 0x00, 0x0c, 0x00, 0x2d, 0x00, 0x05, 0x00, 0x02, 0x00, 0xff, 0x00, 0x00,
        0x00,
    ];
    is_attribute_row(
        &rt,
        alloc,
        "IFLA_ALT_IFNAME of no letters",
        0,
        &[0x08, 0x00, 0x34, 0x00, 0x04, 0x00, 0x35, 0x00],
        LinkAttribute::PropList(list_of(&rt, alloc, [name])),
        &[
            0x0c, 0x00, 0x34, 0x80, 0x05, 0x00, 0x35, 0x00, 0x00, 0x00, 0x00, 0x00,
        ],
    );
    is_attribute_row(
        &rt,
        alloc,
        "IFLA_ALT_IFNAME of a letter",
        0,
        &[0x09, 0x00, 0x34, 0x00, 0x05, 0x00, 0x35, 0x00, 0x61],
        LinkAttribute::PropList(list_of(&rt, alloc, [letter])),
        &[
            0x0c, 0x00, 0x34, 0x80, 0x06, 0x00, 0x35, 0x00, 0x61, 0x00, 0x00, 0x00,
        ],
    );
    is_attribute_row(
        &rt,
        alloc,
        "IFLA_XDP_ATTACHED",
        0,
        &path,
        LinkAttribute::Xdp(list_of(&rt, alloc, [attached])),
        &path,
    );
    is_attribute_row(
        &rt,
        alloc,
        "AF_MCTP",
        0,
        &families,
        LinkAttribute::AfSpecUnspec(list_of(&rt, alloc, [mctp])),
        &families,
    );
}

/// What IFLA_PROTINFO and IFLA_AF_SPEC mean under the families that read them as lists.
#[test]
fn lists_by_family(rt: HostRuntime) {
    let alloc = rt.alloc();
    let inet6 = LinkProtoInfoInet6::Other(kept_of(&rt, alloc, 5, &[]));
    let bridge = LinkProtoInfoBridge::Other(kept_of(&rt, alloc, 1, &[]));
    let settings = AfSpecBridge::Other(kept_of(&rt, alloc, 2, &[]));
    is_attribute_row(
        &rt,
        alloc,
        "IFLA_PROTINFO of AF_INET6",
        10,
        &[0x08, 0x00, 0x0c, 0x00, 0x04, 0x00, 0x05, 0x00],
        LinkAttribute::ProtoInfoInet6(list_of(&rt, alloc, [inet6])),
        &[0x08, 0x00, 0x0c, 0x80, 0x04, 0x00, 0x05, 0x00],
    );
    is_attribute_row(
        &rt,
        alloc,
        "IFLA_PROTINFO of AF_BRIDGE",
        7,
        &[0x08, 0x00, 0x0c, 0x00, 0x04, 0x00, 0x01, 0x00],
        LinkAttribute::ProtoInfoBridge(list_of(&rt, alloc, [bridge])),
        &[0x08, 0x00, 0x0c, 0x80, 0x04, 0x00, 0x01, 0x00],
    );
    is_attribute_row(
        &rt,
        alloc,
        "IFLA_AF_SPEC of AF_BRIDGE",
        7,
        &[0x08, 0x00, 0x1a, 0x00, 0x04, 0x00, 0x02, 0x00],
        LinkAttribute::AfSpecBridge(list_of(&rt, alloc, [settings])),
        &[0x08, 0x00, 0x1a, 0x00, 0x04, 0x00, 0x02, 0x00],
    );
}

/// What they mean under other families.
#[test]
fn bytes_by_family(rt: HostRuntime) {
    let alloc = rt.alloc();
    let info = kept_of(&rt, alloc, 12, &[0x04, 0x00, 0x05, 0x00]);
    let settings = value_of(&rt, alloc, &[0xff]);
    is_attribute_row(
        &rt,
        alloc,
        "IFLA_PROTINFO of AF_INET",
        2,
        &[0x08, 0x00, 0x0c, 0x00, 0x04, 0x00, 0x05, 0x00],
        LinkAttribute::ProtoInfoUnknown(info),
        &[0x08, 0x00, 0x0c, 0x00, 0x04, 0x00, 0x05, 0x00],
    );
    is_attribute_row(
        &rt,
        alloc,
        "IFLA_AF_SPEC of AF_INET",
        2,
        &[0x05, 0x00, 0x1a, 0x00, 0xff, 0x00, 0x00, 0x00],
        LinkAttribute::AfSpecUnknown(settings),
        &[0x05, 0x00, 0x1a, 0x00, 0xff, 0x00, 0x00, 0x00],
    );
}

/// A setting is written as its whole record.
#[test]
fn settings_of_ipv4(rt: HostRuntime) {
    let conf = AfSpecInet::DevConf(InetDevConf {
        forwarding: 1,
        ..InetDevConf::default()
    });
    assert!(rt; conf.kind() == 1);
    assert!(rt; conf.fits());
    assert!(rt; conf.value_len() == 136);
    let mut value = [255; 136];
    conf.emit_value(&mut value);
    let wanted: [u8; 136] = zeros_after(&[0x01]);
    assert!(rt; equal(&value, &wanted));
}
