//! Attributes over borrowed bytes, made by scripts/erase/borrowed.py of the rows of `LinkAttribute`: do not edit.

ghost use Rattle.std.specs.Prelude.{◌≡◌};
ghost use Rattle.nla_wire.specs.Frames.{number};
ghost use Rattle.link_msg.specs.Tables.{attribute_place, proto_info, af_spec};
ghost use Rattle.link_view.specs.Told.{told};
ghost use Rattle.link_view.specs.Borrowed.{owned};

use crate::payload::{WirelessEventView, borrow, event_of, some};
use link_msg::numbers::*;
use link_msg::{
    AddressFamily, LinkEvent, LinkMode, LinkPhysId, Map, State, Stats, Stats64, parse_i32,
    parse_u8, parse_u16, parse_u32,
};
use nla_wire::{DecodeError, NlaBuffer, borrow_string, empty_list};

/// An attribute over borrowed bytes: a variant for each of `LinkAttribute`, with its value. That of a list is its
/// payload, and that of an extent mask the number.
#[derive(Drop)]
pub enum BorrowedAttribute<'a> {
    Address(&'a [u8]),
    Broadcast(&'a [u8]),
    IfName(&'a str),
    Mtu(u32),
    Link(u32),
    Qdisc(&'a str),
    Stats(Stats),
    Controller(u32),
    Wireless(WirelessEventView<'a>),
    ProtoInfoBridge(&'a [u8]),
    ProtoInfoInet6(&'a [u8]),
    ProtoInfoUnknown(NlaBuffer<'a>),
    TxQueueLen(u32),
    Map(Map),
    OperState(State),
    Mode(LinkMode),
    LinkInfo(&'a [u8]),
    NetNsPid(u32),
    IfAlias(&'a str),
    NumVf(u32),
    VfInfoList(&'a [u8]),
    Stats64(Stats64),
    VfPorts(&'a [u8]),
    PortSelf(&'a [u8]),
    AfSpecBridge(&'a [u8]),
    AfSpecUnspec(&'a [u8]),
    AfSpecUnknown(&'a [u8]),
    Group(u32),
    NetNsFd(i32),
    ExtMask(u32),
    Promiscuity(u32),
    NumTxQueues(u32),
    NumRxQueues(u32),
    Carrier(u8),
    PhysPortId(LinkPhysId),
    CarrierChanges(u32),
    PhysSwitchId(LinkPhysId),
    LinkNetNsId(i32),
    PhysPortName(&'a str),
    ProtoDown(u8),
    GsoMaxSegs(u32),
    GsoMaxSize(u32),
    Xdp(&'a [u8]),
    Event(LinkEvent),
    NewNetnsId(i32),
    IfNetnsId(i32),
    CarrierUpCount(u32),
    CarrierDownCount(u32),
    NewIfIndex(i32),
    MinMtu(u32),
    MaxMtu(u32),
    PropList(&'a [u8]),
    PermAddress(&'a [u8]),
    ProtoDownReason(&'a [u8]),
    ParentDevName(&'a str),
    ParentDevBusName(&'a str),
    GroMaxSize(u32),
    TsoMaxSize(u32),
    TsoMaxSegs(u32),
    AllMulticast(u32),
    DevlinkPort(&'a [u8]),
    GsoIpv4MaxSize(u32),
    GroIpv4MaxSize(u32),
    DpllPin(&'a [u8]),
    NetnsImmutable(bool),
    Headroom(u16),
    Tailroom(u16),
    Other(NlaBuffer<'a>),
}

/// Reads a frame, whose number is given beside it, for `borrow_frame`.
#[tactic(auto, unfolding(link_msg::proofs::Opened::table, nla_wire::specs::Grammar::unless_empty))]
#[inline(always)]
pub(crate) fn read_frame<'a>(
    kind: u16,
    frame: NlaBuffer<'a>,
    family: AddressFamily,
) -> Result<BorrowedAttribute<'a>, DecodeError>
    requires { kind ≡ number frame }
    ensures { told owned result ≡ (attribute_place family).reads frame.entry }
{
    let payload = frame.value();
    match kind {
        IFLA_ADDRESS => Ok(BorrowedAttribute::Address(payload)),
        IFLA_BROADCAST => Ok(BorrowedAttribute::Broadcast(payload)),
        IFLA_IFNAME => borrow!(BorrowedAttribute::IfName, borrow_string(payload)),
        IFLA_MTU => borrow!(BorrowedAttribute::Mtu, parse_u32(payload)),
        IFLA_LINK => borrow!(BorrowedAttribute::Link, parse_u32(payload)),
        IFLA_QDISC => borrow!(BorrowedAttribute::Qdisc, borrow_string(payload)),
        IFLA_STATS => Ok(BorrowedAttribute::Stats(Stats::read_padded(payload))),
        IFLA_MASTER => borrow!(BorrowedAttribute::Controller, parse_u32(payload)),
        IFLA_WIRELESS => borrow!(BorrowedAttribute::Wireless, event_of(payload)),
        IFLA_TXQLEN => borrow!(BorrowedAttribute::TxQueueLen, parse_u32(payload)),
        IFLA_MAP => borrow!(BorrowedAttribute::Map, Map::parse(payload)),
        IFLA_OPERSTATE =>
            borrow!(BorrowedAttribute::OperState, n => State::from(n), parse_u8(payload)),
        IFLA_LINKMODE =>
            borrow!(BorrowedAttribute::Mode, n => LinkMode::from(n), parse_u8(payload)),
        IFLA_LINKINFO => some!(BorrowedAttribute::LinkInfo, payload),
        IFLA_NET_NS_PID => borrow!(BorrowedAttribute::NetNsPid, parse_u32(payload)),
        IFLA_IFALIAS => borrow!(BorrowedAttribute::IfAlias, borrow_string(payload)),
        IFLA_NUM_VF => borrow!(BorrowedAttribute::NumVf, parse_u32(payload)),
        IFLA_VFINFO_LIST => Ok(BorrowedAttribute::VfInfoList(payload)),
        IFLA_STATS64 => Ok(BorrowedAttribute::Stats64(Stats64::read_padded(payload))),
        IFLA_VF_PORTS => some!(BorrowedAttribute::VfPorts, payload),
        IFLA_PORT_SELF => some!(BorrowedAttribute::PortSelf, payload),
        IFLA_GROUP => borrow!(BorrowedAttribute::Group, parse_u32(payload)),
        IFLA_NET_NS_FD => borrow!(BorrowedAttribute::NetNsFd, parse_i32(payload)),
        IFLA_EXT_MASK => borrow!(BorrowedAttribute::ExtMask, parse_u32(payload)),
        IFLA_PROMISCUITY => borrow!(BorrowedAttribute::Promiscuity, parse_u32(payload)),
        IFLA_NUM_TX_QUEUES => borrow!(BorrowedAttribute::NumTxQueues, parse_u32(payload)),
        IFLA_NUM_RX_QUEUES => borrow!(BorrowedAttribute::NumRxQueues, parse_u32(payload)),
        IFLA_CARRIER => borrow!(BorrowedAttribute::Carrier, parse_u8(payload)),
        IFLA_PHYS_PORT_ID => borrow!(BorrowedAttribute::PhysPortId, LinkPhysId::parse(payload)),
        IFLA_CARRIER_CHANGES => borrow!(BorrowedAttribute::CarrierChanges, parse_u32(payload)),
        IFLA_PHYS_SWITCH_ID => borrow!(BorrowedAttribute::PhysSwitchId, LinkPhysId::parse(payload)),
        IFLA_LINK_NETNSID => borrow!(BorrowedAttribute::LinkNetNsId, parse_i32(payload)),
        IFLA_PHYS_PORT_NAME => borrow!(BorrowedAttribute::PhysPortName, borrow_string(payload)),
        IFLA_PROTO_DOWN => borrow!(BorrowedAttribute::ProtoDown, parse_u8(payload)),
        IFLA_GSO_MAX_SEGS => borrow!(BorrowedAttribute::GsoMaxSegs, parse_u32(payload)),
        IFLA_GSO_MAX_SIZE => borrow!(BorrowedAttribute::GsoMaxSize, parse_u32(payload)),
        IFLA_XDP => some!(BorrowedAttribute::Xdp, payload),
        IFLA_EVENT => borrow!(BorrowedAttribute::Event, LinkEvent::parse(payload)),
        IFLA_NEW_NETNSID => borrow!(BorrowedAttribute::NewNetnsId, parse_i32(payload)),
        IFLA_IF_NETNSID => borrow!(BorrowedAttribute::IfNetnsId, parse_i32(payload)),
        IFLA_CARRIER_UP_COUNT => borrow!(BorrowedAttribute::CarrierUpCount, parse_u32(payload)),
        IFLA_CARRIER_DOWN_COUNT => borrow!(BorrowedAttribute::CarrierDownCount, parse_u32(payload)),
        IFLA_NEW_IFINDEX => borrow!(BorrowedAttribute::NewIfIndex, parse_i32(payload)),
        IFLA_MIN_MTU => borrow!(BorrowedAttribute::MinMtu, parse_u32(payload)),
        IFLA_MAX_MTU => borrow!(BorrowedAttribute::MaxMtu, parse_u32(payload)),
        IFLA_PROP_LIST => Ok(BorrowedAttribute::PropList(payload)),
        IFLA_PERM_ADDRESS => Ok(BorrowedAttribute::PermAddress(payload)),
        IFLA_PROTO_DOWN_REASON => Ok(BorrowedAttribute::ProtoDownReason(payload)),
        IFLA_PARENT_DEV_NAME => borrow!(BorrowedAttribute::ParentDevName, borrow_string(payload)),
        IFLA_PARENT_DEV_BUS_NAME => borrow!(
            BorrowedAttribute::ParentDevBusName,
            borrow_string(payload)
        ),
        IFLA_GRO_MAX_SIZE => borrow!(BorrowedAttribute::GroMaxSize, parse_u32(payload)),
        IFLA_TSO_MAX_SIZE => borrow!(BorrowedAttribute::TsoMaxSize, parse_u32(payload)),
        IFLA_TSO_MAX_SEGS => borrow!(BorrowedAttribute::TsoMaxSegs, parse_u32(payload)),
        IFLA_ALLMULTI => borrow!(BorrowedAttribute::AllMulticast, parse_u32(payload)),
        IFLA_DEVLINK_PORT => Ok(BorrowedAttribute::DevlinkPort(payload)),
        IFLA_GSO_IPV4_MAX_SIZE => borrow!(BorrowedAttribute::GsoIpv4MaxSize, parse_u32(payload)),
        IFLA_GRO_IPV4_MAX_SIZE => borrow!(BorrowedAttribute::GroIpv4MaxSize, parse_u32(payload)),
        IFLA_DPLL_PIN => Ok(BorrowedAttribute::DpllPin(payload)),
        IFLA_NETNS_IMMUTABLE =>
            borrow!(BorrowedAttribute::NetnsImmutable, n => n != 0, parse_u8(payload)),
        IFLA_HEADROOM => match payload.len() {
            2 => borrow!(BorrowedAttribute::Headroom, parse_u16(payload)),
            _ => Ok(BorrowedAttribute::Other(frame)),
        },
        IFLA_TAILROOM => match payload.len() {
            2 => borrow!(BorrowedAttribute::Tailroom, parse_u16(payload)),
            _ => Ok(BorrowedAttribute::Other(frame)),
        },
        IFLA_PROTINFO => proto_info_of(frame, family),
        IFLA_AF_SPEC => af_spec_of(frame, family),
        _ => Ok(BorrowedAttribute::Other(frame)),
    }
}

/// Reads IFLA_PROTINFO under the header's family.
#[tactic(auto, unfolding(link_msg::specs::Tables::proto_info, nla_wire::specs::Grammar::unless_empty))]
#[inline(always)]
fn proto_info_of<'a>(
    frame: NlaBuffer<'a>,
    family: AddressFamily,
) -> Result<BorrowedAttribute<'a>, DecodeError>
    ensures { told owned result ≡ (proto_info family).reads.reads frame.entry }
{
    let payload = frame.value();
    match family {
        AddressFamily::Bridge => some!(BorrowedAttribute::ProtoInfoBridge, payload),
        AddressFamily::Inet6 => some!(BorrowedAttribute::ProtoInfoInet6, payload),
        _ => Ok(BorrowedAttribute::ProtoInfoUnknown(frame)),
    }
}

/// Reads IFLA_AF_SPEC under the header's family.
#[tactic(auto, unfolding(link_msg::specs::Tables::af_spec, nla_wire::specs::Grammar::unless_empty))]
#[inline(always)]
fn af_spec_of<'a>(
    frame: NlaBuffer<'a>,
    family: AddressFamily,
) -> Result<BorrowedAttribute<'a>, DecodeError>
    ensures { told owned result ≡ (af_spec family).reads.reads frame.entry }
{
    let payload = frame.value();
    match family {
        AddressFamily::Bridge => some!(BorrowedAttribute::AfSpecBridge, payload),
        AddressFamily::Unspec => Ok(BorrowedAttribute::AfSpecUnspec(payload)),
        _ => Ok(BorrowedAttribute::AfSpecUnknown(payload)),
    }
}
