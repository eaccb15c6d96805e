//! The attributes of a link message: what each holds, its number, and what its value is written from.

ghost use Rattle.std.specs.Prelude.{◌≡◌};

mod write;

use crate::numbers::*;
use crate::payload::{clone_mask, truth_byte};
use crate::view::View;
use link_afspec::{AfSpecBridge, AfSpecUnspec, LinkProtoInfoBridge, LinkProtoInfoInet6};
use link_nest::{
    DevlinkPort, DpllPin, LinkInfo, LinkProtocolDownReason, LinkXdp, Prop, WirelessEvent,
};
use link_recs::{Map, Stats, Stats64};
use link_vals::{LinkEvent, LinkExtentMask, LinkMode, LinkPhysId, State};
use link_vf::{LinkVfInfo, LinkVfPort, VfPort};
use nla_wire::{
    Bytes, CloneIn, DecodeError, DefaultNla, Exact, FlatView, List, NLA_F_NESTED, Nla, Text,
};
use std::alloc::Global;

/// An attribute of a link message (linux/if_link.h, IFLA_*). Numbers are in host order.
#[derive(Debug, Drop, PartialEq, Eq)]
pub enum LinkAttribute {
    /// IFLA_ADDRESS: the hardware address, bytes.
    Address(Bytes),
    /// IFLA_BROADCAST: the broadcast address, bytes.
    Broadcast(Bytes),
    /// IFLA_IFNAME: the name, a text with one NUL.
    IfName(Text),
    /// IFLA_MTU: the largest size of a packet, in bytes.
    Mtu(u32),
    /// IFLA_LINK: the index of the link below.
    Link(u32),
    /// IFLA_QDISC: the queueing discipline, a text.
    Qdisc(Text),
    /// IFLA_STATS: counters of 32 bits, a record of 96 bytes. A shorter one is filled up with zeros.
    Stats(Stats),
    /// IFLA_MASTER: the index of the link that this one belongs to.
    Controller(u32),
    /// IFLA_WIRELESS: an event of the wireless extensions.
    Wireless(WirelessEvent),
    /// IFLA_PROTINFO, of the family AF_BRIDGE: a non-empty list; written with the nested flag.
    ProtoInfoBridge(List<LinkProtoInfoBridge>),
    /// IFLA_PROTINFO, of the family AF_INET6: a non-empty list; written with the nested flag.
    ProtoInfoInet6(List<LinkProtoInfoInet6>),
    /// IFLA_PROTINFO, of any other family: kept as it is, with its flags.
    ProtoInfoUnknown(DefaultNla),
    /// IFLA_TXQLEN: the length of the transmit queue, in packets.
    TxQueueLen(u32),
    /// IFLA_MAP: addresses of the device, a record of 32 bytes. A shorter one is refused.
    Map(Map),
    /// IFLA_OPERSTATE: the operational state, one byte.
    OperState(State),
    /// IFLA_LINKMODE: the mode of the link, one byte.
    Mode(LinkMode),
    /// IFLA_LINKINFO: the kind of the link and its data, a non-empty list.
    LinkInfo(List<LinkInfo>),
    /// IFLA_NET_NS_PID: a process whose network namespace is meant.
    NetNsPid(u32),
    /// IFLA_IFALIAS: an alias, a text.
    IfAlias(Text),
    /// IFLA_NUM_VF: how many virtual functions there are.
    NumVf(u32),
    /// IFLA_VFINFO_LIST: virtual functions. Entries with another number than IFLA_VF_INFO are dropped.
    VfInfoList(List<LinkVfInfo>),
    /// IFLA_STATS64: counters of 64 bits, a record of 200 bytes. A shorter one is filled up with zeros.
    Stats64(Stats64),
    /// IFLA_VF_PORTS: ports of virtual functions, a non-empty payload. Entries with another number than IFLA_VF_PORT
    /// are dropped, so that the list may be empty; it has no canonical encoding then.
    VfPorts(List<LinkVfPort>),
    /// IFLA_PORT_SELF: the port of the interface itself, a non-empty list.
    PortSelf(LinkVfPort),
    /// IFLA_AF_SPEC, of the family AF_BRIDGE: settings of a bridge, a non-empty list.
    AfSpecBridge(List<AfSpecBridge>),
    /// IFLA_AF_SPEC, of the family AF_UNSPEC: settings by family, a list.
    AfSpecUnspec(List<AfSpecUnspec>),
    /// IFLA_AF_SPEC, of any other family: bytes.
    AfSpecUnknown(Bytes),
    /// IFLA_GROUP: the group of the link.
    Group(u32),
    /// IFLA_NET_NS_FD: a descriptor of a network namespace.
    NetNsFd(i32),
    /// IFLA_EXT_MASK: what more is asked for, flags in a number of four bytes.
    ExtMask(List<LinkExtentMask>),
    /// IFLA_PROMISCUITY: how often promiscuous mode was asked for.
    Promiscuity(u32),
    /// IFLA_NUM_TX_QUEUES: how many queues send.
    NumTxQueues(u32),
    /// IFLA_NUM_RX_QUEUES: how many queues receive.
    NumRxQueues(u32),
    /// IFLA_CARRIER: 1 where there is a carrier.
    Carrier(u8),
    /// IFLA_PHYS_PORT_ID: the id of the port, at most 32 bytes.
    PhysPortId(LinkPhysId),
    /// IFLA_CARRIER_CHANGES: how often the carrier came or went.
    CarrierChanges(u32),
    /// IFLA_PHYS_SWITCH_ID: the id of the switch, at most 32 bytes.
    PhysSwitchId(LinkPhysId),
    /// IFLA_LINK_NETNSID: the id of the network namespace of the link below.
    LinkNetNsId(i32),
    /// IFLA_PHYS_PORT_NAME: the name of the port, a text.
    PhysPortName(Text),
    /// IFLA_PROTO_DOWN: 1 where a protocol holds the link down.
    ProtoDown(u8),
    /// IFLA_GSO_MAX_SEGS: the most segments of one packet that the device splits.
    GsoMaxSegs(u32),
    /// IFLA_GSO_MAX_SIZE: the most bytes of one packet that the device splits.
    GsoMaxSize(u32),
    /// IFLA_XDP: the attached program, a non-empty list.
    Xdp(List<LinkXdp>),
    /// IFLA_EVENT: why the link announced itself, four bytes.
    Event(LinkEvent),
    /// IFLA_NEW_NETNSID: the id of the network namespace that the link has moved to.
    NewNetnsId(i32),
    /// IFLA_IF_NETNSID, also IFLA_TARGET_NETNSID: the id of the network namespace that is asked about.
    IfNetnsId(i32),
    /// IFLA_CARRIER_UP_COUNT: how often the carrier came.
    CarrierUpCount(u32),
    /// IFLA_CARRIER_DOWN_COUNT: how often the carrier went.
    CarrierDownCount(u32),
    /// IFLA_NEW_IFINDEX: the index of the link in the network namespace that it has moved to.
    NewIfIndex(i32),
    /// IFLA_MIN_MTU: the least MTU that the link takes, in bytes.
    MinMtu(u32),
    /// IFLA_MAX_MTU: the greatest MTU that the link takes, in bytes.
    MaxMtu(u32),
    /// IFLA_PROP_LIST: alternative names, a list; written with the nested flag.
    PropList(List<Prop>),
    /// IFLA_PERM_ADDRESS: the permanent hardware address, bytes.
    PermAddress(Bytes),
    /// IFLA_PROTO_DOWN_REASON: why a protocol holds the link down, a list.
    ProtoDownReason(List<LinkProtocolDownReason>),
    /// IFLA_PARENT_DEV_NAME: the name of the device above, a text.
    ParentDevName(Text),
    /// IFLA_PARENT_DEV_BUS_NAME: the name of its bus, a text.
    ParentDevBusName(Text),
    /// IFLA_GRO_MAX_SIZE: the most bytes of one packet that is joined from received ones.
    GroMaxSize(u32),
    /// IFLA_TSO_MAX_SIZE: the most bytes of one packet that the hardware splits.
    TsoMaxSize(u32),
    /// IFLA_TSO_MAX_SEGS: the most segments of one packet that the hardware splits.
    TsoMaxSegs(u32),
    /// IFLA_ALLMULTI: how often all multicast packets were asked for.
    AllMulticast(u32),
    /// IFLA_DEVLINK_PORT: the port of devlink, a list; written with the nested flag.
    DevlinkPort(List<DevlinkPort>),
    /// IFLA_GSO_IPV4_MAX_SIZE: as `GsoMaxSize`, of IPv4 packets.
    GsoIpv4MaxSize(u32),
    /// IFLA_GRO_IPV4_MAX_SIZE: as `GroMaxSize`, of IPv4 packets.
    GroIpv4MaxSize(u32),
    /// IFLA_DPLL_PIN: the pin of a clock, a list; written with the nested flag.
    DpllPin(List<DpllPin>),
    /// IFLA_NETNS_IMMUTABLE: whether the link stays in its network namespace, one byte: 0 is false, all else true;
    /// written 0 or 1.
    NetnsImmutable(bool),
    /// IFLA_HEADROOM: how many bytes a packet needs in front of its data, where the payload has two bytes.
    Headroom(u16),
    /// IFLA_TAILROOM: how many bytes a packet needs after its data, where the payload has two bytes.
    Tailroom(u16),
    /// A number that is not listed here, or a size of payload that its number is not read at: kept as it is, with its
    /// flags.
    Other(DefaultNla),
}

/// A row for each variant, in their order, for `view` and `CloneIn`: how it is copied, its name, what it holds, its
/// kind with both flag bits, and what its value is written from. `plain` is copied as it is, `held` with memory, and
/// `mask` is a list of flags.
macro_rules! variants {
    ($then:ident) => {
        $then! {
            held Address(bytes => IFLA_ADDRESS, View::Flat(FlatView::Bytes(bytes.as_slice())))
            held Broadcast(bytes => IFLA_BROADCAST, View::Flat(FlatView::Bytes(bytes.as_slice())))
            held IfName(text => IFLA_IFNAME, View::Flat(FlatView::Text(text.as_str())))
            plain Mtu(n => IFLA_MTU, View::Flat(FlatView::U32(*n)))
            plain Link(n => IFLA_LINK, View::Flat(FlatView::U32(*n)))
            held Qdisc(text => IFLA_QDISC, View::Flat(FlatView::Text(text.as_str())))
            plain Stats(stats => IFLA_STATS, View::Stats(stats))
            plain Controller(n => IFLA_MASTER, View::Flat(FlatView::U32(*n)))
            held Wireless(event => IFLA_WIRELESS, View::Event(event))
            held ProtoInfoBridge(members => IFLA_PROTINFO | NLA_F_NESTED, View::BridgeInfos(members.as_slice()))
            held ProtoInfoInet6(members => IFLA_PROTINFO | NLA_F_NESTED, View::Inet6Infos(members.as_slice()))
            held ProtoInfoUnknown(nla => nla.kind(), View::Flat(FlatView::Bytes(nla.value())))
            plain TxQueueLen(n => IFLA_TXQLEN, View::Flat(FlatView::U32(*n)))
            plain Map(map => IFLA_MAP, View::Map(map))
            plain OperState(state => IFLA_OPERSTATE, View::Flat(FlatView::U8(u8::from(*state))))
            plain Mode(mode => IFLA_LINKMODE, View::Flat(FlatView::U8(u8::from(*mode))))
            held LinkInfo(members => IFLA_LINKINFO, View::Infos(members.as_slice()))
            plain NetNsPid(n => IFLA_NET_NS_PID, View::Flat(FlatView::U32(*n)))
            held IfAlias(text => IFLA_IFALIAS, View::Flat(FlatView::Text(text.as_str())))
            plain NumVf(n => IFLA_NUM_VF, View::Flat(FlatView::U32(*n)))
            held VfInfoList(members => IFLA_VFINFO_LIST, View::Functions(members.as_slice()))
            plain Stats64(stats => IFLA_STATS64, View::Stats64(stats))
            held VfPorts(members => IFLA_VF_PORTS, View::Ports(members.as_slice()))
            held PortSelf(port => IFLA_PORT_SELF, View::Port(port.0.as_slice()))
            held AfSpecBridge(members => IFLA_AF_SPEC, View::Bridges(members.as_slice()))
            held AfSpecUnspec(members => IFLA_AF_SPEC, View::Unspecs(members.as_slice()))
            held AfSpecUnknown(bytes => IFLA_AF_SPEC, View::Flat(FlatView::Bytes(bytes.as_slice())))
            plain Group(n => IFLA_GROUP, View::Flat(FlatView::U32(*n)))
            plain NetNsFd(n => IFLA_NET_NS_FD, View::Flat(FlatView::I32(*n)))
            mask ExtMask(flags => IFLA_EXT_MASK, View::Mask(flags.as_slice()))
            plain Promiscuity(n => IFLA_PROMISCUITY, View::Flat(FlatView::U32(*n)))
            plain NumTxQueues(n => IFLA_NUM_TX_QUEUES, View::Flat(FlatView::U32(*n)))
            plain NumRxQueues(n => IFLA_NUM_RX_QUEUES, View::Flat(FlatView::U32(*n)))
            plain Carrier(n => IFLA_CARRIER, View::Flat(FlatView::U8(*n)))
            plain PhysPortId(id => IFLA_PHYS_PORT_ID, View::Id(id))
            plain CarrierChanges(n => IFLA_CARRIER_CHANGES, View::Flat(FlatView::U32(*n)))
            plain PhysSwitchId(id => IFLA_PHYS_SWITCH_ID, View::Id(id))
            plain LinkNetNsId(n => IFLA_LINK_NETNSID, View::Flat(FlatView::I32(*n)))
            held PhysPortName(text => IFLA_PHYS_PORT_NAME, View::Flat(FlatView::Text(text.as_str())))
            plain ProtoDown(n => IFLA_PROTO_DOWN, View::Flat(FlatView::U8(*n)))
            plain GsoMaxSegs(n => IFLA_GSO_MAX_SEGS, View::Flat(FlatView::U32(*n)))
            plain GsoMaxSize(n => IFLA_GSO_MAX_SIZE, View::Flat(FlatView::U32(*n)))
            held Xdp(members => IFLA_XDP, View::Xdps(members.as_slice()))
            plain Event(event => IFLA_EVENT, View::Flat(FlatView::U32(u32::from(*event))))
            plain NewNetnsId(n => IFLA_NEW_NETNSID, View::Flat(FlatView::I32(*n)))
            plain IfNetnsId(n => IFLA_IF_NETNSID, View::Flat(FlatView::I32(*n)))
            plain CarrierUpCount(n => IFLA_CARRIER_UP_COUNT, View::Flat(FlatView::U32(*n)))
            plain CarrierDownCount(n => IFLA_CARRIER_DOWN_COUNT, View::Flat(FlatView::U32(*n)))
            plain NewIfIndex(n => IFLA_NEW_IFINDEX, View::Flat(FlatView::I32(*n)))
            plain MinMtu(n => IFLA_MIN_MTU, View::Flat(FlatView::U32(*n)))
            plain MaxMtu(n => IFLA_MAX_MTU, View::Flat(FlatView::U32(*n)))
            held PropList(members => IFLA_PROP_LIST | NLA_F_NESTED, View::Props(members.as_slice()))
            held PermAddress(bytes => IFLA_PERM_ADDRESS, View::Flat(FlatView::Bytes(bytes.as_slice())))
            held ProtoDownReason(members => IFLA_PROTO_DOWN_REASON, View::Reasons(members.as_slice()))
            held ParentDevName(text => IFLA_PARENT_DEV_NAME, View::Flat(FlatView::Text(text.as_str())))
            held ParentDevBusName(text => IFLA_PARENT_DEV_BUS_NAME, View::Flat(FlatView::Text(text.as_str())))
            plain GroMaxSize(n => IFLA_GRO_MAX_SIZE, View::Flat(FlatView::U32(*n)))
            plain TsoMaxSize(n => IFLA_TSO_MAX_SIZE, View::Flat(FlatView::U32(*n)))
            plain TsoMaxSegs(n => IFLA_TSO_MAX_SEGS, View::Flat(FlatView::U32(*n)))
            plain AllMulticast(n => IFLA_ALLMULTI, View::Flat(FlatView::U32(*n)))
            held DevlinkPort(members => IFLA_DEVLINK_PORT | NLA_F_NESTED, View::DevlinkPorts(members.as_slice()))
            plain GsoIpv4MaxSize(n => IFLA_GSO_IPV4_MAX_SIZE, View::Flat(FlatView::U32(*n)))
            plain GroIpv4MaxSize(n => IFLA_GRO_IPV4_MAX_SIZE, View::Flat(FlatView::U32(*n)))
            held DpllPin(members => IFLA_DPLL_PIN | NLA_F_NESTED, View::DpllPins(members.as_slice()))
            plain NetnsImmutable(value => IFLA_NETNS_IMMUTABLE, View::Flat(FlatView::U8(truth_byte(*value))))
            plain Headroom(n => IFLA_HEADROOM, View::Flat(FlatView::U16(*n)))
            plain Tailroom(n => IFLA_TAILROOM, View::Flat(FlatView::U16(*n)))
            held Other(nla => nla.kind(), View::Flat(FlatView::Bytes(nla.value())))
        }
    };
}

impl LinkAttribute {
    ghost use Rattle.std.specs.Prelude.{◌↔◌, MatchBool};
    ghost use Rattle.link_msg.specs.Tables.{attribute_frame, InsideFits, NotEmptyPorts};
    ghost use Rattle.link_msg.specs.View.{view_bytes, view_now, viewed, ViewFits};

    /// Its kind, with both flag bits, and what its value is written from.
    #[tactic(auto, unfolding(crate::specs::Tables::attribute_view))]
    #[inline(always)]
    pub fn view(&self) -> (u16, View<'_>)
        ensures kind { result.0 ≡ (attribute_frame self.now).kind }
        ensures value { view_now result.1 ≡ viewed self.now }
        ensures payload { view_bytes result.1 ≡ (attribute_frame self.now).payload }
        ensures inside { ViewFits result.1 ↔ InsideFits self.now }
    {
        macro_rules! viewed {
            ($($how:ident $variant:ident($value:ident => $kind:expr, $view:expr))+) => {
                match self {
                    $(LinkAttribute::$variant($value) => ($kind, $view),)+
                }
            };
        }
        variants!(viewed)
    }

    /// Whether it is an empty list of ports, whose encoding would be refused.
    pub(crate) fn is_empty_ports(&self) -> bool
        ensures { MatchBool result (NotEmptyPorts self.now → ⊥) (NotEmptyPorts self.now) }
    {
        match self {
            LinkAttribute::VfPorts(ports) => ports.is_empty(),
            _ => false,
        }
    }
}

impl CloneIn for LinkAttribute {
    fn clone_in(&self, alloc: Global) -> Result<LinkAttribute, DecodeError> {
        macro_rules! copy {
            (plain $value:ident) => { *$value };
            (held $value:ident) => { $value.clone_in(alloc)? };
            (mask $value:ident) => { clone_mask(alloc, $value.as_slice())? };
        }
        macro_rules! copied {
            ($($how:ident $variant:ident $row:tt)+) => {
                match self {
                    $(LinkAttribute::$variant(value) => {
                        LinkAttribute::$variant(copy!($how value))
                    })+
                }
            };
        }
        Ok(variants!(copied))
    }
}

impl Exact for LinkAttribute {
    ghost use Rattle.nla_wire.specs.Decided.{by_exact, one_field, number_exact, signed_exact, bool_exact, bytes_exact};
    ghost use Rattle.nla_wire.specs.Decided.{list_exact};
    ghost use Rattle.nla_wire.specs.Same.{same_frame-Decides};
    ghost use Rattle.link_recs.specs.StatsFields.{stats_decides};
    ghost use Rattle.link_recs.specs.Stats64Fields.{stats64_decides};
    ghost use Rattle.link_vf.specs.contracts.port_list.LinkVfPortExact.TheImpl.Laws.{decides-law as port_exact};
    ghost use Rattle.link_nest.specs.contracts.link_info.LinkInfoExact.TheImpl.Laws.{decides-law as info_exact};
    ghost use Rattle.link_vf.specs.contracts.vf_list.LinkVfInfoExact.TheImpl.Laws.{decides-law as functions_exact};
    ghost use Rattle.link_nest.specs.contracts.xdp.LinkXdpExact.TheImpl.Laws.{decides-law as xdp_exact};
    ghost use Rattle.link_nest.specs.contracts.prop_list.PropExact.TheImpl.Laws.{decides-law as props_exact};
    ghost use Rattle.link_nest.specs.contracts.down_reason.LinkProtocolDownReasonExact.TheImpl.Laws.{
      decides-law as reasons_exact,
    };
    ghost use Rattle.link_nest.specs.contracts.devlink_port.DevlinkPortExact.TheImpl.Laws.{
      decides-law as devlink_exact,
    };
    ghost use Rattle.link_nest.specs.contracts.dpll_pin.DpllPinExact.TheImpl.Laws.{decides-law as dpll_exact};
    ghost use Rattle.link_afspec.specs.contracts.proto_bridge.LinkProtoInfoBridgeExact.TheImpl.Laws.{
      decides-law as proto_bridge_exact,
    };
    ghost use Rattle.link_afspec.specs.contracts.proto_inet6.LinkProtoInfoInet6Exact.TheImpl.Laws.{
      decides-law as proto_inet6_exact,
    };
    ghost use Rattle.link_afspec.specs.contracts.bridge.AfSpecBridgeExact.TheImpl.Laws.{decides-law as af_bridge_exact};
    ghost use Rattle.link_afspec.specs.contracts.unspec.AfSpecUnspecExact.TheImpl.Laws.{decides-law as af_unspec_exact};
    ghost use Rattle.link_vals.specs.contracts.link_state.StateExact.TheImpl.Laws.{decides-law as state_exact};
    ghost use Rattle.link_vals.specs.contracts.link_mode.LinkModeExact.TheImpl.Laws.{decides-law as mode_exact};
    ghost use Rattle.link_vals.specs.contracts.event.LinkEventExact.TheImpl.Laws.{decides-law as event_exact};
    ghost use Rattle.link_vals.specs.contracts.phys_id.LinkPhysIdExact.TheImpl.Laws.{decides-law as phys_id_exact};
    ghost use Rattle.link_recs.specs.contracts.map.MapExact.TheImpl.Laws.{decides-law as map_exact};
    ghost use Rattle.link_nest.specs.contracts.wireless.WirelessEventExact.TheImpl.Laws.{decides-law as wireless_exact};
    ghost use Rattle.link_vals.specs.contracts.ext_mask.LinkExtentMaskExact.TheImpl.Laws.{
      decides-law as ext_mask_exact,
    };
    ghost use Rattle.link_msg.specs.contracts.attribute.LinkAttribute.{enum};

    ghost decides = { by_exact enum _ (Prim.assumption (
      one_field bytes_exact,
      one_field number_exact,
      one_field stats_decides,
      one_field wireless_exact,
      one_field (list_exact proto_bridge_exact),
      one_field (list_exact proto_inet6_exact),
      one_field same_frame-Decides,
      one_field map_exact,
      one_field state_exact,
      one_field mode_exact,
      one_field (list_exact info_exact),
      one_field (list_exact functions_exact),
      one_field stats64_decides,
      one_field (list_exact port_exact),
      one_field port_exact,
      one_field (list_exact af_bridge_exact),
      one_field (list_exact af_unspec_exact),
      one_field signed_exact,
      one_field (list_exact ext_mask_exact),
      one_field phys_id_exact,
      one_field (list_exact xdp_exact),
      one_field event_exact,
      one_field (list_exact props_exact),
      one_field (list_exact reasons_exact),
      one_field (list_exact devlink_exact),
      one_field (list_exact dpll_exact),
      one_field bool_exact,
    )) };
}
