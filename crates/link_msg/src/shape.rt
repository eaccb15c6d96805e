//! The attributes by the shape of their payloads: they are checked, and written again, from the payload and without a
//! value.

ghost use Rattle.std.specs.Prelude.{◌≡◌, ◌≤◌, ◌<◌, ◌^◌, length, IsTrue};
ghost use Rattle.nla_wire.specs.Sizes.{most_payload};
ghost use Rattle.nla_wire.proofs.Codec.{kind_of};
ghost use Rattle.nla_wire.proofs.Shapes.{ShapeChecks, ShapeWeighs, ShapeRoom, ShapeWrites};
ghost use Rattle.link_msg.specs.Tables.{base, proto_info, af_spec, as_way, attribute_way};
ghost use Rattle.link_msg.specs.Prefixes.{IsCopied};
ghost use Rattle.link_msg.specs.declared.shape.Shape.TheVariants as Shapes;

use crate::numbers::*;
use crate::payload::{
    check_ports, check_some, measure_ports, truth_byte, write_event, write_ports,
};
use link_afspec::{AfSpecBridge, AfSpecUnspec, LinkProtoInfoBridge, LinkProtoInfoInet6};
use link_nest::{
    DevlinkPort, DpllPin, LinkInfo, LinkProtocolDownReason, LinkXdp, Prop, WirelessEvent,
};
use link_recs::{Map, Stats, Stats64};
use link_vals::AddressFamily;
use link_vf::{Entry, LinkVfInfo, LinkVfPort};
use nla_wire::error::checked;
use nla_wire::{
    DecodeError, NLA_F_NESTED, NlaRead, PlainRecord, Record, check_string, measure_text,
    measure_u8, measure_u16, measure_u32, parse_u8, parse_u16, parse_u32, write_text_payload,
    write_u8, write_u8_payload, write_u16_payload, write_u32_payload, write_value,
};

/// The most bytes of an id that are written.
const ID_SIZE: usize = 32;

/// What a payload has to be, and how its canonical encoding follows from it.
#[derive(Clone, Copy)]
pub enum Shape {
    /// Bytes, written as they are.
    Bytes,
    /// A text, written with one NUL.
    Text,
    /// A number of one byte, written as it is.
    U8,
    /// A number of two bytes, written as it is.
    U16,
    /// A number of four bytes, written as it is.
    U32,
    /// A number of one byte, written 0 or 1.
    Truth,
    /// Any bytes, of which the first 32 are written.
    Id,
    /// Any bytes, cut to the size of the record or filled up with zeros.
    Stats,
    /// Any bytes, cut to the size of the record or filled up with zeros.
    Stats64,
    /// At least the bytes of the record, which are written with zeros at their end.
    Map,
    /// A wireless event.
    Event,
    /// A non-empty list of members of IFLA_VF_PORT.
    Port,
    /// A non-empty list of members of IFLA_LINKINFO.
    Infos,
    /// A list of virtual functions.
    Functions,
    /// A list of ports, of a non-empty payload.
    Ports,
    /// A non-empty list of members of IFLA_XDP.
    Xdps,
    /// A list of members of IFLA_PROP_LIST.
    Props,
    /// A list of members of IFLA_PROTO_DOWN_REASON.
    Reasons,
    /// A list of members of IFLA_DEVLINK_PORT.
    DevlinkPorts,
    /// A list of members of IFLA_DPLL_PIN.
    DpllPins,
    /// A non-empty list of members of IFLA_PROTINFO of a bridge.
    BridgeInfos,
    /// A non-empty list of members of IFLA_PROTINFO of IPv6.
    Inet6Infos,
    /// A non-empty list of settings of a bridge.
    Bridges,
    /// A list of settings by family.
    Unspecs,
}

impl Shape {
    /// The shape of a payload of this size, of an attribute of this number under the header's family; `None` where the
    /// attribute is kept as it is, as `LinkAttribute::Other`, whatever its payload.
    ///
    /// It reads no payload: one of this shape may still be refused.
    #[tactic(auto, unfolding(crate::specs::Tables::attribute_view, crate::specs::Tables::attribute_entries))]
    #[inline(always)]
    pub fn of(number: u16, size: usize, family: AddressFamily) -> Option<Shape>
        ensures { as_way result ≡ attribute_way family number size }
    {
        match number {
            IFLA_ADDRESS => Some(Shape::Bytes),
            IFLA_BROADCAST => Some(Shape::Bytes),
            IFLA_IFNAME => Some(Shape::Text),
            IFLA_MTU => Some(Shape::U32),
            IFLA_LINK => Some(Shape::U32),
            IFLA_QDISC => Some(Shape::Text),
            IFLA_STATS => Some(Shape::Stats),
            IFLA_MASTER => Some(Shape::U32),
            IFLA_WIRELESS => Some(Shape::Event),
            IFLA_TXQLEN => Some(Shape::U32),
            IFLA_MAP => Some(Shape::Map),
            IFLA_OPERSTATE => Some(Shape::U8),
            IFLA_LINKMODE => Some(Shape::U8),
            IFLA_LINKINFO => Some(Shape::Infos),
            IFLA_NET_NS_PID => Some(Shape::U32),
            IFLA_IFALIAS => Some(Shape::Text),
            IFLA_NUM_VF => Some(Shape::U32),
            IFLA_VFINFO_LIST => Some(Shape::Functions),
            IFLA_STATS64 => Some(Shape::Stats64),
            IFLA_VF_PORTS => Some(Shape::Ports),
            IFLA_PORT_SELF => Some(Shape::Port),
            IFLA_GROUP => Some(Shape::U32),
            IFLA_NET_NS_FD => Some(Shape::U32),
            IFLA_EXT_MASK => Some(Shape::U32),
            IFLA_PROMISCUITY => Some(Shape::U32),
            IFLA_NUM_TX_QUEUES => Some(Shape::U32),
            IFLA_NUM_RX_QUEUES => Some(Shape::U32),
            IFLA_CARRIER => Some(Shape::U8),
            IFLA_PHYS_PORT_ID => Some(Shape::Id),
            IFLA_CARRIER_CHANGES => Some(Shape::U32),
            IFLA_PHYS_SWITCH_ID => Some(Shape::Id),
            IFLA_LINK_NETNSID => Some(Shape::U32),
            IFLA_PHYS_PORT_NAME => Some(Shape::Text),
            IFLA_PROTO_DOWN => Some(Shape::U8),
            IFLA_GSO_MAX_SEGS => Some(Shape::U32),
            IFLA_GSO_MAX_SIZE => Some(Shape::U32),
            IFLA_XDP => Some(Shape::Xdps),
            IFLA_EVENT => Some(Shape::U32),
            IFLA_NEW_NETNSID => Some(Shape::U32),
            IFLA_IF_NETNSID => Some(Shape::U32),
            IFLA_CARRIER_UP_COUNT => Some(Shape::U32),
            IFLA_CARRIER_DOWN_COUNT => Some(Shape::U32),
            IFLA_NEW_IFINDEX => Some(Shape::U32),
            IFLA_MIN_MTU => Some(Shape::U32),
            IFLA_MAX_MTU => Some(Shape::U32),
            IFLA_PROP_LIST => Some(Shape::Props),
            IFLA_PERM_ADDRESS => Some(Shape::Bytes),
            IFLA_PROTO_DOWN_REASON => Some(Shape::Reasons),
            IFLA_PARENT_DEV_NAME => Some(Shape::Text),
            IFLA_PARENT_DEV_BUS_NAME => Some(Shape::Text),
            IFLA_GRO_MAX_SIZE => Some(Shape::U32),
            IFLA_TSO_MAX_SIZE => Some(Shape::U32),
            IFLA_TSO_MAX_SEGS => Some(Shape::U32),
            IFLA_ALLMULTI => Some(Shape::U32),
            IFLA_DEVLINK_PORT => Some(Shape::DevlinkPorts),
            IFLA_GSO_IPV4_MAX_SIZE => Some(Shape::U32),
            IFLA_GRO_IPV4_MAX_SIZE => Some(Shape::U32),
            IFLA_DPLL_PIN => Some(Shape::DpllPins),
            IFLA_NETNS_IMMUTABLE => Some(Shape::Truth),
            IFLA_HEADROOM => (size == 2).then_some(Shape::U16),
            IFLA_TAILROOM => (size == 2).then_some(Shape::U16),
            IFLA_PROTINFO => Shape::of_proto_info(family),
            IFLA_AF_SPEC => Shape::of_af_spec(family),
            _ => None,
        }
    }

    #[tactic(auto, unfolding(crate::specs::Tables::proto_info))]
    fn of_proto_info(family: AddressFamily) -> Option<Shape>
        ensures { as_way result ≡ (proto_info family).way }
    {
        match family {
            AddressFamily::Inet6 => Some(Shape::Inet6Infos),
            AddressFamily::Bridge => Some(Shape::BridgeInfos),
            _ => None,
        }
    }

    #[tactic(auto, unfolding(crate::specs::Tables::af_spec))]
    fn of_af_spec(family: AddressFamily) -> Option<Shape>
        ensures { as_way result ≡ (af_spec family).way }
    {
        match family {
            AddressFamily::Unspec => Some(Shape::Unspecs),
            AddressFamily::Bridge => Some(Shape::Bridges),
            _ => Some(Shape::Bytes),
        }
    }

    /// Whether a payload of this shape is read, and the fault if not.
    pub(crate) fn check(self, payload: &[u8]) -> Result<(), DecodeError>
        ensures { ShapeChecks base self payload.now result }
    {
        match self {
            Shape::Bytes => Ok(()),
            Shape::Text => check_string(payload),
            Shape::U8 => checked(parse_u8(payload)),
            Shape::U16 => checked(parse_u16(payload)),
            Shape::U32 => checked(parse_u32(payload)),
            Shape::Truth => check_truth(payload),
            Shape::Id => Ok(()),
            Shape::Stats => Ok(()),
            Shape::Stats64 => Ok(()),
            Shape::Map => checked(Map::parse(payload)),
            Shape::Event => WirelessEvent::check(payload),
            Shape::Port => LinkVfPort::check(payload),
            Shape::Infos => check_some::<LinkInfo>(payload),
            Shape::Functions => LinkVfInfo::check_list(payload),
            Shape::Ports => check_ports(payload),
            Shape::Xdps => check_some::<LinkXdp>(payload),
            Shape::Props => Prop::check_list(payload),
            Shape::Reasons => LinkProtocolDownReason::check_list(payload),
            Shape::DevlinkPorts => DevlinkPort::check_list(payload),
            Shape::DpllPins => DpllPin::check_list(payload),
            Shape::BridgeInfos => check_some::<LinkProtoInfoBridge>(payload),
            Shape::Inet6Infos => check_some::<LinkProtoInfoInet6>(payload),
            Shape::Bridges => check_some::<AfSpecBridge>(payload),
            Shape::Unspecs => AfSpecUnspec::check_list(payload),
        }
    }

    /// Whether a payload of this shape that is as long as its canonical encoding is that encoding.
    #[inline(always)]
    pub(crate) fn is_copied(self) -> bool
        ensures { IsTrue result → IsCopied self }
    {
        match self {
            Shape::Bytes => true,
            Shape::Text => true,
            Shape::U8 => true,
            Shape::U16 => true,
            Shape::U32 => true,
            Shape::Stats => true,
            Shape::Stats64 => true,
            _ => false,
        }
    }

    /// The length of the encoding of the value that a payload of this shape means, with no memory; `None` where the
    /// value does not fit, or the payload is refused.
    #[tactic(auto, unfolding(nla_wire::specs::Payloads::read_text, nla_wire::specs::Payloads::read_number))]
    #[inline(always)]
    pub(crate) fn measure(self, payload: &[u8]) -> Option<usize>
        requires { length payload.now ≤ most_payload }
        ensures { ShapeWeighs base self payload.now result }
    {
        match self {
            Shape::Bytes => Some(payload.len()),
            Shape::Text => measure_text(payload),
            Shape::U8 => measure_u8(payload),
            Shape::U16 => measure_u16(payload),
            Shape::U32 => measure_u32(payload),
            Shape::Truth => measure_u8(payload),
            Shape::Id => Some(payload.len().min(ID_SIZE)),
            Shape::Stats => Stats::measure_filled(payload),
            Shape::Stats64 => Stats64::measure_filled(payload),
            Shape::Map => Map::measure_sized(payload),
            Shape::Event => WirelessEvent::measure(payload),
            Shape::Port => LinkVfPort::measure_entry(payload),
            Shape::Infos => LinkInfo::measure_some(payload),
            Shape::Functions => LinkVfInfo::measure_list(payload),
            Shape::Ports => measure_ports(payload),
            Shape::Xdps => LinkXdp::measure_some(payload),
            Shape::Props => Prop::measure_nested(payload),
            Shape::Reasons => LinkProtocolDownReason::measure_nested(payload),
            Shape::DevlinkPorts => DevlinkPort::measure_nested(payload),
            Shape::DpllPins => DpllPin::measure_nested(payload),
            Shape::BridgeInfos => LinkProtoInfoBridge::measure_some(payload),
            Shape::Inet6Infos => LinkProtoInfoInet6::measure_some(payload),
            Shape::Bridges => AfSpecBridge::measure_some(payload),
            Shape::Unspecs => AfSpecUnspec::measure_nested(payload),
        }
    }

    /// Writes the attribute of this number that a payload of this shape means, which was measured, to the front of the
    /// buffer, and returns its length with padding. The rest of the buffer is kept.
    #[tactic(auto, unfolding(nla_wire::proofs::Opened::readers))]
    #[inline(always)]
    pub(crate) fn write(self, number: u16, payload: &[u8], out: &mut [u8]) -> usize
        requires number { number < 2 ^ 14 }
        requires room { ShapeRoom base self (kind_of (base self).flags number) payload.now
            (length out.old) }
        ensures { ShapeWrites base self
            (kind_of (base self).flags number) payload.now out.old out.new result }
    {
        match self {
            Shape::Bytes => write_value(number, payload, out),
            Shape::Text => write_text_payload(number, payload, out),
            Shape::U8 => write_u8_payload(number, payload, out),
            Shape::U16 => write_u16_payload(number, payload, out),
            Shape::U32 => write_u32_payload(number, payload, out),
            Shape::Truth => write_truth(number, payload, out),
            Shape::Id => write_value(number, &payload[..payload.len().min(ID_SIZE)], out),
            Shape::Stats => Stats::write_filled(number, payload, out),
            Shape::Stats64 => Stats64::write_filled(number, payload, out),
            Shape::Map => Map::write_sized(number, payload, out),
            Shape::Event => write_event(number, payload, out),
            Shape::Port => LinkVfPort::write_entry(number, payload, out),
            Shape::Infos => LinkInfo::write_some(number, payload, out),
            Shape::Functions => LinkVfInfo::write_list(number, payload, out),
            Shape::Ports => write_ports(number, payload, out),
            Shape::Xdps => LinkXdp::write_some(number, payload, out),
            Shape::Props => Prop::write_nested(number + NLA_F_NESTED, payload, out),
            Shape::Reasons => LinkProtocolDownReason::write_nested(number, payload, out),
            Shape::DevlinkPorts => DevlinkPort::write_nested(number + NLA_F_NESTED, payload, out),
            Shape::DpllPins => DpllPin::write_nested(number + NLA_F_NESTED, payload, out),
            Shape::BridgeInfos => LinkProtoInfoBridge::write_some(
                number + NLA_F_NESTED,
                payload,
                out,
            ),
            Shape::Inet6Infos => LinkProtoInfoInet6::write_some(
                number + NLA_F_NESTED,
                payload,
                out,
            ),
            Shape::Bridges => AfSpecBridge::write_some(number, payload, out),
            Shape::Unspecs => AfSpecUnspec::write_nested(number, payload, out),
        }
    }
}

/// Whether a payload is a truth value, and the fault if not; for the proof: as an arm of `check` it is not proved.
fn check_truth(payload: &[u8]) -> Result<(), DecodeError>
    ensures { ShapeChecks base Shapes.Truth payload.now result }
{
    checked(parse_u8(payload))
}

/// Writes an attribute of one byte, 1 where the payload's is another than 0.
#[tactic(auto, unfolding(nla_wire::specs::Payloads::read_number))]
fn write_truth(kind: u16, payload: &[u8], out: &mut [u8]) -> usize
    requires { ShapeRoom base Shapes.Truth kind payload.now (length out.old) }
    ensures { ShapeWrites base Shapes.Truth kind payload.now out.old out.new result }
{
    write_u8(kind, truth_byte(payload[0] != 0), out)
}
