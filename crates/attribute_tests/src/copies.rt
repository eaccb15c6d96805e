//! Copies of messages and of their attributes: each is equal to what it was made from and to nothing else, and is
//! written as the same text.

use expected::{
    are_copied_alike, are_told_apart, bytes_from, equal, kept, kept_byte, list, text_from,
};
use link_msg::*;
use nla_wire::exact::same;
use std::alloc::Global;
use std::process::Abort;

/// More bytes than a message here has.
const MOST_OF_MESSAGE: usize = 8000;

/// The variants of `LinkAttribute`.
pub(crate) const VARIANTS: usize = 68;

/// Attributes that hold this number of four bytes.
fn words(n: u32) -> [LinkAttribute; 23] {
    [
        LinkAttribute::Mtu(n),
        LinkAttribute::Link(n),
        LinkAttribute::Controller(n),
        LinkAttribute::TxQueueLen(n),
        LinkAttribute::NetNsPid(n),
        LinkAttribute::NumVf(n),
        LinkAttribute::Group(n),
        LinkAttribute::Promiscuity(n),
        LinkAttribute::NumTxQueues(n),
        LinkAttribute::NumRxQueues(n),
        LinkAttribute::CarrierChanges(n),
        LinkAttribute::GsoMaxSegs(n),
        LinkAttribute::GsoMaxSize(n),
        LinkAttribute::CarrierUpCount(n),
        LinkAttribute::CarrierDownCount(n),
        LinkAttribute::MinMtu(n),
        LinkAttribute::MaxMtu(n),
        LinkAttribute::GroMaxSize(n),
        LinkAttribute::TsoMaxSize(n),
        LinkAttribute::TsoMaxSegs(n),
        LinkAttribute::AllMulticast(n),
        LinkAttribute::GsoIpv4MaxSize(n),
        LinkAttribute::GroIpv4MaxSize(n),
    ]
}

/// Attributes that hold this number with a sign or as a value of an enum, or in fewer bytes.
fn numbers(n: u8) -> [LinkAttribute; 13] {
    let signed = -i32::from(n);
    let half = u16::from(n);
    [
        LinkAttribute::NetNsFd(signed),
        LinkAttribute::LinkNetNsId(signed),
        LinkAttribute::NewNetnsId(signed),
        LinkAttribute::IfNetnsId(signed),
        LinkAttribute::NewIfIndex(signed),
        LinkAttribute::Headroom(half),
        LinkAttribute::Tailroom(half),
        LinkAttribute::Carrier(n),
        LinkAttribute::ProtoDown(n),
        LinkAttribute::NetnsImmutable(n == 1),
        LinkAttribute::OperState(State::Other(n)),
        LinkAttribute::Mode(LinkMode::Other(n)),
        LinkAttribute::Event(LinkEvent::Other(u32::from(n))),
    ]
}

/// Attributes that hold a record with this number, or an id with this byte.
fn records(n: u8) -> [LinkAttribute; 5] {
    let mut id = [0; 32];
    id[0] = n;
    id[1] = n;
    let id = LinkPhysId { id, len: 2 };
    let map = Map {
        port: n,
        ..Map::default()
    };
    let stats = Stats {
        rx_nohandler: u32::from(n),
        ..Stats::default()
    };
    let stats64 = Stats64 {
        rx_otherhost_dropped: u64::from(n),
        ..Stats64::default()
    };
    [
        LinkAttribute::Stats(stats),
        LinkAttribute::Stats64(stats64),
        LinkAttribute::Map(map),
        LinkAttribute::PhysPortId(id),
        LinkAttribute::PhysSwitchId(id),
    ]
}

/// Attributes that hold this text.
fn texts(rt: &impl Abort, alloc: Global, letters: &str) -> [LinkAttribute; 6] {
    [
        LinkAttribute::IfName(text_from(alloc, letters).expect(rt, "memory")),
        LinkAttribute::Qdisc(text_from(alloc, letters).expect(rt, "memory")),
        LinkAttribute::IfAlias(text_from(alloc, letters).expect(rt, "memory")),
        LinkAttribute::PhysPortName(text_from(alloc, letters).expect(rt, "memory")),
        LinkAttribute::ParentDevName(text_from(alloc, letters).expect(rt, "memory")),
        LinkAttribute::ParentDevBusName(text_from(alloc, letters).expect(rt, "memory")),
    ]
}

/// These bytes.
fn bytes_of(rt: &impl Abort, alloc: Global, n: u8) -> Bytes {
    bytes_from(alloc, &[n, 0, n]).expect(rt, "memory")
}

/// Attributes that hold bytes with this one.
fn bytes(rt: &impl Abort, alloc: Global, n: u8) -> [LinkAttribute; 7] {
    let event = WirelessEvent::AssociateRequest(bytes_of(rt, alloc, n));
    [
        LinkAttribute::Address(bytes_of(rt, alloc, n)),
        LinkAttribute::Broadcast(bytes_of(rt, alloc, n)),
        LinkAttribute::PermAddress(bytes_of(rt, alloc, n)),
        LinkAttribute::AfSpecUnknown(bytes_of(rt, alloc, n)),
        LinkAttribute::Wireless(event),
        LinkAttribute::ProtoInfoUnknown(kept(alloc, link_msg::numbers::IFLA_PROTINFO, &[n]).expect(
            rt, "memory",
        )),
        LinkAttribute::Other(kept_byte(alloc, n).expect(rt, "memory")),
    ]
}

/// Attributes that hold a list of one number. Of the mask it is one above the listed flags.
fn lists_of_numbers(rt: &impl Abort, alloc: Global, n: u8) -> [LinkAttribute; 5] {
    let number = u32::from(n);
    let reason = LinkProtocolDownReason::Mask(number);
    let port = DevlinkPort::PortIndex(number);
    let flag = LinkExtentMask::Other(256 * number);
    [
        LinkAttribute::Xdp(list(alloc, [LinkXdp::Flags(number)]).expect(rt, "memory")),
        LinkAttribute::ProtoDownReason(list(alloc, [reason]).expect(rt, "memory")),
        LinkAttribute::DevlinkPort(list(alloc, [port]).expect(rt, "memory")),
        LinkAttribute::ExtMask(list(alloc, [flag]).expect(rt, "memory")),
        LinkAttribute::DpllPin(list(alloc, [DpllPin::PinId(number)]).expect(rt, "memory")),
    ]
}

/// Attributes that hold a list of one attribute that is kept.
fn lists(rt: &impl Abort, alloc: Global, n: u8) -> [LinkAttribute; 7] {
    let bridge = LinkProtoInfoBridge::Other(kept_byte(alloc, n).expect(rt, "memory"));
    let inet6 = LinkProtoInfoInet6::Other(kept_byte(alloc, n).expect(rt, "memory"));
    let info = LinkInfo::Other(kept_byte(alloc, n).expect(rt, "memory"));
    let of_bridge = AfSpecBridge::Other(kept_byte(alloc, n).expect(rt, "memory"));
    let unspec = AfSpecUnspec::Other(kept_byte(alloc, n).expect(rt, "memory"));
    let prop = Prop::Other(kept_byte(alloc, n).expect(rt, "memory"));
    let function = VfInfo::Other(kept_byte(alloc, n).expect(rt, "memory"));
    let function = LinkVfInfo(list(alloc, [function]).expect(rt, "memory"));
    [
        LinkAttribute::ProtoInfoBridge(list(alloc, [bridge]).expect(rt, "memory")),
        LinkAttribute::ProtoInfoInet6(list(alloc, [inet6]).expect(rt, "memory")),
        LinkAttribute::LinkInfo(list(alloc, [info]).expect(rt, "memory")),
        LinkAttribute::AfSpecBridge(list(alloc, [of_bridge]).expect(rt, "memory")),
        LinkAttribute::AfSpecUnspec(list(alloc, [unspec]).expect(rt, "memory")),
        LinkAttribute::PropList(list(alloc, [prop]).expect(rt, "memory")),
        LinkAttribute::VfInfoList(list(alloc, [function]).expect(rt, "memory")),
    ]
}

/// A port of one attribute that is kept.
fn port(rt: &impl Abort, alloc: Global, n: u8) -> LinkVfPort {
    LinkVfPort(list(
        alloc,
        [VfPort::Other(kept_byte(alloc, n).expect(rt, "memory"))],
    )
    .expect(rt, "memory"))
}

/// Attributes that hold ports.
fn ports(rt: &impl Abort, alloc: Global, n: u8) -> [LinkAttribute; 2] {
    [
        LinkAttribute::VfPorts(list(alloc, [port(rt, alloc, n)]).expect(rt, "memory")),
        LinkAttribute::PortSelf(port(rt, alloc, n)),
    ]
}

/// Adds values after others.
fn add<const N: usize>(
    rt: &impl Abort,
    alloc: Global,
    all: &mut Vec<LinkAttribute>,
    values: [LinkAttribute; N],
) {
    let mut more = Vec::from_array(alloc, values).expect(rt, "memory");
    all.append(&mut more).expect(rt, "memory");
}

/// An attribute of each variant, with this payload.
pub(crate) fn every_variant(
    rt: &impl Abort,
    alloc: Global,
    n: u8,
    letters: &str,
) -> Vec<LinkAttribute> {
    let mut all = Vec::new(alloc);
    add(rt, alloc, &mut all, words(u32::from(n)));
    add(rt, alloc, &mut all, numbers(n));
    add(rt, alloc, &mut all, records(n));
    add(rt, alloc, &mut all, texts(rt, alloc, letters));
    add(rt, alloc, &mut all, bytes(rt, alloc, n));
    add(rt, alloc, &mut all, lists_of_numbers(rt, alloc, n));
    add(rt, alloc, &mut all, lists(rt, alloc, n));
    add(rt, alloc, &mut all, ports(rt, alloc, n));
    assert!(rt; all.len() == VARIANTS);
    all
}

/// Two attributes of each variant, with different payloads.
fn two_of_each(rt: &impl Abort, alloc: Global) -> Vec<LinkAttribute> {
    let mut all = every_variant(rt, alloc, 1, "lo");
    let mut more = every_variant(rt, alloc, 2, "l\0");
    all.append(&mut more).expect(rt, "memory");
    all
}

#[test]
fn attributes(rt: HostRuntime) {
    let alloc = rt.alloc();
    let ones = every_variant(&rt, alloc, 1, "lo");
    let others = every_variant(&rt, alloc, 2, "l\0");
    assert!(rt; are_copied_alike(alloc, ones.as_slice(), others.as_slice()));
}

/// A message of these attributes, and a header with this index.
fn message(index: u32, attributes: Vec<LinkAttribute>) -> LinkMessage {
    LinkMessage {
        header: LinkHeader {
            index,
            ..LinkHeader::default()
        },
        attributes: List::new(attributes),
    }
}

#[test]
fn messages(rt: HostRuntime) {
    let alloc = rt.alloc();
    let values = [
        message(1, two_of_each(&rt, alloc)),
        message(2, two_of_each(&rt, alloc)),
        message(1, every_variant(&rt, alloc, 1, "lo")),
        message(1, Vec::new(alloc)),
    ];
    assert!(rt; are_told_apart(alloc, &values, &[]));
}

/// The text of a message, at the front of a buffer.
fn message_written(rt: &impl Abort, message: &LinkMessage) -> [u8; MOST_OF_MESSAGE] {
    let mut text = [255; MOST_OF_MESSAGE];
    assert!(rt; message.fits());
    assert!(rt; message.buffer_len() <= MOST_OF_MESSAGE);
    message.emit(&mut text);
    text
}

#[test]
fn texts_of_messages(rt: HostRuntime) {
    let value = message(1, two_of_each(&rt, rt.alloc()));
    let copy = value.clone_in(rt.alloc()).expect(&rt, "memory");
    assert!(rt; equal(&message_written(&rt, &copy), &message_written(&rt, &value)));
}
