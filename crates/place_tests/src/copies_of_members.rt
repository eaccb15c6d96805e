//! Copies of what stands inside of attributes: each is equal to what it was made from and to nothing else, and is
//! written as the same text.

use crate::testing::{bytes_of, kept_byte_of, kept_of, list_of, text_of};
use expected::{are_copied_alike, are_told_apart, equal, filled};
use link_afspec::*;
use link_nest::*;
use link_recs::*;
use link_vals::*;
use link_vf::*;
use link_vfrec::*;
use nla_wire::*;
use std::alloc::Global;
use std::net::Ipv6Addr;
use std::process::Abort;

#[test]
fn bytes_and_texts(rt: HostRuntime) {
    let alloc = rt.alloc();
    let bytes = [
        bytes_of(&rt, alloc, &[]),
        bytes_of(&rt, alloc, &[0]),
        bytes_of(&rt, alloc, &[0, 1]),
        bytes_of(&rt, alloc, &[0, 2]),
    ];
    assert!(rt; are_told_apart(alloc, &bytes, &[]));
    let texts = [
        text_of(&rt, alloc, ""),
        text_of(&rt, alloc, "l"),
        text_of(&rt, alloc, "lo"),
        text_of(&rt, alloc, "l\0"),
    ];
    assert!(rt; are_told_apart(alloc, &texts, &[]));
}

#[test]
fn lists(rt: HostRuntime) {
    let alloc = rt.alloc();
    let two = [text_of(&rt, alloc, ""), text_of(&rt, alloc, "lo")];
    let turned = [text_of(&rt, alloc, "lo"), text_of(&rt, alloc, "")];
    let values = [
        List::new(Vec::new(alloc)),
        list_of(&rt, alloc, [text_of(&rt, alloc, "")]),
        list_of(&rt, alloc, [text_of(&rt, alloc, "lo")]),
        list_of(&rt, alloc, two),
        list_of(&rt, alloc, turned),
    ];
    assert!(rt; are_told_apart(alloc, &values, &[]));
}

#[test]
fn kept_attributes(rt: HostRuntime) {
    let alloc = rt.alloc();
    let values = [
        kept_of(&rt, alloc, 99, &[]),
        kept_of(&rt, alloc, 99, &[1]),
        kept_of(&rt, alloc, 99, &[2]),
        kept_of(&rt, alloc, 99 | NLA_F_NESTED, &[1]),
        kept_of(&rt, alloc, 99 | NLA_F_NET_BYTEORDER, &[1]),
        kept_of(&rt, alloc, 98, &[1]),
    ];
    assert!(rt; are_copied_alike(alloc, &values, &[]));
}

/// Wireless events with these bytes.
fn events(rt: &impl Abort, alloc: Global, bytes: &[u8]) -> [WirelessEvent; 3] {
    [
        WirelessEvent::AssociateRequest(bytes_of(rt, alloc, bytes)),
        WirelessEvent::AssociateResponse(bytes_of(rt, alloc, bytes)),
        WirelessEvent::Other(bytes_of(rt, alloc, bytes)),
    ]
}

/// The text of an event.
fn event_written(rt: &impl Abort, alloc: Global, event: &WirelessEvent) -> Vec<u8> {
    assert!(rt; event.fits());
    let len = event.buffer_len();
    let mut text = filled(alloc, 255, len).expect(rt, "memory");
    assert!(rt; text.len() == len);
    event.emit(text.as_mut_slice());
    text
}

#[test]
fn wireless_events(rt: HostRuntime) {
    let alloc = rt.alloc();
    let ones = events(&rt, alloc, &[1]);
    let others = events(&rt, alloc, &[2]);
    assert!(rt; are_told_apart(alloc, &ones, &others));
    assert!(rt; are_told_apart(alloc, &others, &ones));
    for event in &ones {
        let copy = event.clone_in(alloc).expect(&rt, "memory");
        let text = event_written(&rt, alloc, event);
        let of_copy = event_written(&rt, alloc, &copy);
        assert!(rt; equal(of_copy.as_slice(), text.as_slice()), "{event:?}");
    }
}

/// Members of IFLA_PROP_LIST with these letters and this number.
fn properties(rt: &impl Abort, alloc: Global, letters: &str, n: u8) -> [Prop; 2] {
    [
        Prop::AltIfName(text_of(rt, alloc, letters)),
        Prop::Other(kept_byte_of(rt, alloc, n)),
    ]
}

/// Members of IFLA_LINKINFO with these letters and this number.
fn infos(rt: &impl Abort, alloc: Global, letters: &str, n: u8) -> [LinkInfo; 2] {
    [
        LinkInfo::Kind(text_of(rt, alloc, letters)),
        LinkInfo::Other(kept_byte_of(rt, alloc, n)),
    ]
}

#[test]
fn properties_and_infos(rt: HostRuntime) {
    let alloc = rt.alloc();
    let ones = properties(&rt, alloc, "lo", 1);
    assert!(rt; are_copied_alike(alloc, &ones, &properties(&rt, alloc, "", 2)));
    let ones = infos(&rt, alloc, "veth", 1);
    assert!(rt; are_copied_alike(alloc, &ones, &infos(&rt, alloc, "vlan", 2)));
}

/// Members of IFLA_DEVLINK_PORT with these letters and this number.
fn devlink(rt: &impl Abort, alloc: Global, letters: &str, n: u8) -> [DevlinkPort; 4] {
    [
        DevlinkPort::BusName(text_of(rt, alloc, letters)),
        DevlinkPort::DevName(text_of(rt, alloc, letters)),
        DevlinkPort::PortIndex(u32::from(n)),
        DevlinkPort::Other(kept_byte_of(rt, alloc, n)),
    ]
}

/// Members of IFLA_PROTO_DOWN_REASON with this number.
fn reasons(rt: &impl Abort, alloc: Global, n: u8) -> [LinkProtocolDownReason; 3] {
    [
        LinkProtocolDownReason::Mask(u32::from(n)),
        LinkProtocolDownReason::Value(u32::from(n)),
        LinkProtocolDownReason::Other(kept_byte_of(rt, alloc, n)),
    ]
}

/// Members of IFLA_DPLL_PIN with this number.
fn pins(rt: &impl Abort, alloc: Global, n: u8) -> [DpllPin; 2] {
    [
        DpllPin::PinId(u32::from(n)),
        DpllPin::Other(kept_byte_of(rt, alloc, n)),
    ]
}

#[test]
fn ports_reasons_and_pins(rt: HostRuntime) {
    let alloc = rt.alloc();
    let ones = devlink(&rt, alloc, "p", 1);
    assert!(rt; are_copied_alike(alloc, &ones, &devlink(&rt, alloc, "q", 2)));
    assert!(rt; are_copied_alike(alloc, &reasons(&rt, alloc, 1), &reasons(&rt, alloc, 2)));
    assert!(rt; are_copied_alike(alloc, &pins(&rt, alloc, 1), &pins(&rt, alloc, 2)));
}

/// Members of IFLA_XDP with this number.
fn paths(rt: &impl Abort, alloc: Global, n: u8) -> [LinkXdp; 9] {
    let number = u32::from(n);
    [
        LinkXdp::Fd(i32::from(n)),
        LinkXdp::Attached(XdpAttached::Other(n)),
        LinkXdp::Flags(number),
        LinkXdp::ProgId(number),
        LinkXdp::DrvProgId(number),
        LinkXdp::SkbProgId(number),
        LinkXdp::HwProgId(number),
        LinkXdp::ExpectedFd(number),
        LinkXdp::Other(kept_byte_of(rt, alloc, n)),
    ]
}

#[test]
fn express_data_paths(rt: HostRuntime) {
    let alloc = rt.alloc();
    assert!(rt; are_copied_alike(alloc, &paths(&rt, alloc, 1), &paths(&rt, alloc, 200)));
}

/// Statistics of a function with this number.
fn statistics_of(rt: &impl Abort, alloc: Global, n: u8) -> [VfStats; 9] {
    let number = u64::from(n);
    [
        VfStats::RxPackets(number),
        VfStats::TxPackets(number),
        VfStats::RxBytes(number),
        VfStats::TxBytes(number),
        VfStats::Broadcast(number),
        VfStats::Multicast(number),
        VfStats::RxDropped(number),
        VfStats::TxDropped(number),
        VfStats::Other(kept_byte_of(rt, alloc, n)),
    ]
}

/// Vlans of a function with this number.
fn vlans(rt: &impl Abort, alloc: Global, n: u8) -> [VfVlan; 2] {
    let info = VfVlanInfo::new(1, 2, u32::from(n), VlanProtocol::Ieee8021Ad);
    [
        VfVlan::Info(info),
        VfVlan::Other(kept_byte_of(rt, alloc, n)),
    ]
}

#[test]
fn statistics_and_vlans(rt: HostRuntime) {
    let alloc = rt.alloc();
    let ones = statistics_of(&rt, alloc, 1);
    assert!(rt; are_copied_alike(alloc, &ones, &statistics_of(&rt, alloc, 2)));
    assert!(rt; are_copied_alike(alloc, &vlans(&rt, alloc, 1), &vlans(&rt, alloc, 2)));
}

/// Members of a function, with this number.
fn functions_of(rt: &impl Abort, alloc: Global, n: u8) -> [VfInfo; 14] {
    let id = u32::from(n);
    [
        VfInfo::Mac(VfInfoMac::new(id, &[n])),
        VfInfo::Vlan(VfInfoVlan::new(id, 1, 2)),
        VfInfo::TxRate(VfInfoTxRate::new(id, 1)),
        VfInfo::SpoofCheck(VfInfoSpoofCheck::new(id, true)),
        VfInfo::LinkState(VfInfoLinkState::new(id, VfLinkState::Other(9))),
        VfInfo::Rate(VfInfoRate::new(id, 1, 2)),
        VfInfo::RssQueryEn(VfInfoRssQueryEn::new(id, true)),
        VfInfo::Stats(list_of(rt, alloc, [VfStats::RxBytes(u64::from(n))])),
        VfInfo::Trust(VfInfoTrust::new(id, true)),
        VfInfo::IbNodeGuid(VfInfoGuid::new(id, 7)),
        VfInfo::IbPortGuid(VfInfoGuid::new(id, 7)),
        VfInfo::VlanList(list_of(rt, alloc, [VfVlan::Other(kept_byte_of(rt, alloc, n))])),
        VfInfo::Broadcast(VfInfoBroadcast::new(&[n])),
        VfInfo::Other(kept_byte_of(rt, alloc, n)),
    ]
}

#[test]
fn functions(rt: HostRuntime) {
    let alloc = rt.alloc();
    let ones = functions_of(&rt, alloc, 1);
    assert!(rt; are_copied_alike(alloc, &ones, &functions_of(&rt, alloc, 2)));
}

#[test]
fn lists_of_functions_and_ports(rt: HostRuntime) {
    let alloc = rt.alloc();
    let ones = list_of(&rt, alloc, functions_of(&rt, alloc, 1));
    let others = list_of(&rt, alloc, functions_of(&rt, alloc, 2));
    let functions = [LinkVfInfo(ones), LinkVfInfo(others)];
    let other = [LinkVfInfo(List::new(Vec::new(alloc)))];
    assert!(rt; are_copied_alike(alloc, &functions, &other));
    let one = [VfPort::Other(kept_byte_of(&rt, alloc, 1))];
    let other = [VfPort::Other(kept_byte_of(&rt, alloc, 2))];
    assert!(rt; are_copied_alike(alloc, &one, &other));
    let one = [LinkVfPort(list_of(&rt, alloc, one))];
    let other = [LinkVfPort(list_of(&rt, alloc, other))];
    assert!(rt; are_copied_alike(alloc, &one, &other));
}

/// Settings of IPv4 with this number, as they are told and as they are asked for.
fn ipv4(rt: &impl Abort, alloc: Global, n: u8) -> [AfSpecInet; 3] {
    let conf = InetDevConf {
        forwarding: -i32::from(n),
        ..InetDevConf::default()
    };
    [
        AfSpecInet::DevConf(conf),
        AfSpecInet::DevConfRequest(conf),
        AfSpecInet::Other(kept_byte_of(rt, alloc, n)),
    ]
}

/// Settings of MCTP with this number.
fn mctp(rt: &impl Abort, alloc: Global, n: u8) -> [AfSpecMctp; 3] {
    [
        AfSpecMctp::Net(u32::from(n)),
        AfSpecMctp::PhysBinding(MctpPhysBinding::Other(n)),
        AfSpecMctp::Other(kept_byte_of(rt, alloc, n)),
    ]
}

#[test]
fn settings_of_ipv4_and_mctp(rt: HostRuntime) {
    let alloc = rt.alloc();
    let ones = ipv4(&rt, alloc, 1);
    assert!(rt; are_copied_alike(alloc, &ones, &ipv4(&rt, alloc, 2)));
    let ones = mctp(&rt, alloc, 101);
    assert!(rt; are_copied_alike(alloc, &ones, &mctp(&rt, alloc, 102)));
}

/// Settings and statistics of IPv6 with this number.
fn ipv6(rt: &impl Abort, alloc: Global, n: u8) -> [AfSpecInet6; 9] {
    let number = u32::from(n);
    let times = Inet6CacheInfo {
        max_reasm_len: i32::from(n),
        tstamp: 0,
        reachable_time: 0,
        retrans_time: 0,
    };
    [
        AfSpecInet6::Flags(Inet6IfaceFlags::from_bits_retain(number)),
        AfSpecInet6::CacheInfo(times),
        AfSpecInet6::DevConf(Inet6DevConf::read_padded(&[n])),
        AfSpecInet6::Stats(Inet6Stats::read_padded(&[n])),
        AfSpecInet6::Icmp6Stats(Icmp6Stats::read_padded(&[n])),
        AfSpecInet6::Token(Ipv6Addr::from_octets([n; 16])),
        AfSpecInet6::AddrGenMode(In6AddrGenMode::Other(n)),
        AfSpecInet6::RaMtu(number),
        AfSpecInet6::Other(kept_byte_of(rt, alloc, n)),
    ]
}

#[test]
fn settings_of_ipv6(rt: HostRuntime) {
    let alloc = rt.alloc();
    let ones = ipv6(&rt, alloc, 101);
    assert!(rt; are_copied_alike(alloc, &ones, &ipv6(&rt, alloc, 102)));
}

/// Settings by family with this number.
fn families_of(rt: &impl Abort, alloc: Global, n: u8) -> [AfSpecUnspec; 4] {
    let inet = AfSpecInet::Other(kept_byte_of(rt, alloc, n));
    let inet6 = AfSpecInet6::Other(kept_byte_of(rt, alloc, n));
    let mctp = AfSpecMctp::Other(kept_byte_of(rt, alloc, n));
    [
        AfSpecUnspec::Inet(list_of(rt, alloc, [inet])),
        AfSpecUnspec::Inet6(list_of(rt, alloc, [inet6])),
        AfSpecUnspec::Mctp(list_of(rt, alloc, [mctp])),
        AfSpecUnspec::Other(kept_byte_of(rt, alloc, n)),
    ]
}

#[test]
fn families(rt: HostRuntime) {
    let alloc = rt.alloc();
    let ones = families_of(&rt, alloc, 1);
    assert!(rt; are_copied_alike(alloc, &ones, &families_of(&rt, alloc, 2)));
}

#[test]
fn members_that_are_all_kept(rt: HostRuntime) {
    let alloc = rt.alloc();
    let one = [AfSpecBridge::Other(kept_byte_of(&rt, alloc, 1))];
    let other = [AfSpecBridge::Other(kept_byte_of(&rt, alloc, 2))];
    assert!(rt; are_copied_alike(alloc, &one, &other));
    let one = [LinkProtoInfoBridge::Other(kept_byte_of(&rt, alloc, 1))];
    let other = [LinkProtoInfoBridge::Other(kept_byte_of(&rt, alloc, 2))];
    assert!(rt; are_copied_alike(alloc, &one, &other));
    let one = [LinkProtoInfoInet6::Other(kept_byte_of(&rt, alloc, 1))];
    let other = [LinkProtoInfoInet6::Other(kept_byte_of(&rt, alloc, 2))];
    assert!(rt; are_copied_alike(alloc, &one, &other));
}
