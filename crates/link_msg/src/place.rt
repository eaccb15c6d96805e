//! The outermost table: how a frame is read under the header's family, checked, and written again without memory.

ghost use Rattle.std.specs.Prelude.{◌≡◌, ◌<◌, ◌↔◌, length, vec_len, vec_capacity, IsTrue};
ghost use Rattle.nla_wire.specs.Frames.{IsFrame, number};
ghost use Rattle.nla_wire.specs.Canon.{canon, Weighs, HasRoom, Rewrites};
ghost use Rattle.link_msg.specs.declared.attribute.LinkAttribute.TheVariants.{Other};
ghost use Rattle.link_msg.specs.declared.numbers.TheConstants.{IFLA_VF_PORTS};
ghost use Rattle.nla_wire.specs.Gives.{Adds, Checks};

mod with_param;

use crate::attribute::LinkAttribute;
use crate::family::{parse_af_spec_into, parse_proto_info_into};
use crate::numbers::*;
use crate::payload::{parse_any, parse_functions, parse_mask, parse_ports, parse_some};
use crate::shape::Shape;
use link_nest::WirelessEvent;
use link_recs::{Map, Stats, Stats64};
use link_vals::{AddressFamily, LinkEvent, LinkMode, LinkPhysId, State};
use link_vf::{Entry, LinkVfPort};
use nla_wire::{
    Bytes, DecodeError, DefaultNla, NlaBuffer, Place, parse_i32, parse_string, parse_u8, parse_u16,
    parse_u32, write_value,
};
use std::alloc::Global;

/// Adds a value in the room after the last one, or what was read as this variant. A call of a function would cost 4
/// percent, since its result is looked at again; for the proof: with a `?` in each arm it takes half as long again.
macro_rules! push {
    ($values:ident, $value:expr $(,)?) => {{
        $values.push_reserved($value);
        Ok(())
    }};
    ($values:ident, $variant:path, $read:expr $(,)?) => {
        push!($values, it => $variant(it), $read)
    };
    ($values:ident, $it:ident => $value:expr, $read:expr $(,)?) => {
        match $read {
            Ok($it) => {
                $values.push_reserved($value);
                Ok(())
            }
            Err(error) => Err(error),
        }
    };
}

pub(crate) use push;

impl LinkAttribute {
    ghost use Rattle.link_msg.specs.Plain.{NotPlain, NotText};
    ghost use Rattle.link_msg.specs.Tables.{attribute_place, attribute_frame, AttributeFits};

    /// Reads a frame into the room after the last value: its number selects the variant. Numbers, ids and records are
    /// read here, with no room on the stack for a value.
    #[inline(always)]
    #[tactic(auto, unfolding(crate::proofs::Opened::table))]
    fn parse_into(
        alloc: Global,
        buffer: &NlaBuffer<'_>,
        family: AddressFamily,
        values: &mut Vec<LinkAttribute>,
    ) -> Result<(), DecodeError>
        requires { vec_len values.old < vec_capacity values.old }
        ensures { Adds result
            ((attribute_place family).reads buffer.now) values.old.items values.new.items }
    {
        let payload = buffer.value();
        match buffer.kind() {
            IFLA_MTU => push!(values, Self::Mtu, parse_u32(payload)),
            IFLA_LINK => push!(values, Self::Link, parse_u32(payload)),
            IFLA_STATS => push!(values, Self::Stats(Stats::read_padded(payload))),
            IFLA_MASTER => push!(values, Self::Controller, parse_u32(payload)),
            IFLA_TXQLEN => push!(values, Self::TxQueueLen, parse_u32(payload)),
            IFLA_MAP => push!(values, Self::Map, Map::parse(payload)),
            IFLA_OPERSTATE =>
                push!(values, n => Self::OperState(State::from(n)), parse_u8(payload)),
            IFLA_LINKMODE => push!(values, n => Self::Mode(LinkMode::from(n)), parse_u8(payload)),
            IFLA_NET_NS_PID => push!(values, Self::NetNsPid, parse_u32(payload)),
            IFLA_NUM_VF => push!(values, Self::NumVf, parse_u32(payload)),
            IFLA_STATS64 => push!(values, Self::Stats64(Stats64::read_padded(payload))),
            IFLA_GROUP => push!(values, Self::Group, parse_u32(payload)),
            IFLA_NET_NS_FD => push!(values, Self::NetNsFd, parse_i32(payload)),
            IFLA_PROMISCUITY => push!(values, Self::Promiscuity, parse_u32(payload)),
            IFLA_NUM_TX_QUEUES => push!(values, Self::NumTxQueues, parse_u32(payload)),
            IFLA_NUM_RX_QUEUES => push!(values, Self::NumRxQueues, parse_u32(payload)),
            IFLA_CARRIER => push!(values, Self::Carrier, parse_u8(payload)),
            IFLA_PHYS_PORT_ID => push!(values, Self::PhysPortId, LinkPhysId::parse(payload)),
            IFLA_CARRIER_CHANGES => push!(values, Self::CarrierChanges, parse_u32(payload)),
            IFLA_PHYS_SWITCH_ID => push!(values, Self::PhysSwitchId, LinkPhysId::parse(payload)),
            IFLA_LINK_NETNSID => push!(values, Self::LinkNetNsId, parse_i32(payload)),
            IFLA_PROTO_DOWN => push!(values, Self::ProtoDown, parse_u8(payload)),
            IFLA_GSO_MAX_SEGS => push!(values, Self::GsoMaxSegs, parse_u32(payload)),
            IFLA_GSO_MAX_SIZE => push!(values, Self::GsoMaxSize, parse_u32(payload)),
            IFLA_EVENT => push!(values, Self::Event, LinkEvent::parse(payload)),
            IFLA_NEW_NETNSID => push!(values, Self::NewNetnsId, parse_i32(payload)),
            IFLA_IF_NETNSID => push!(values, Self::IfNetnsId, parse_i32(payload)),
            IFLA_CARRIER_UP_COUNT => push!(values, Self::CarrierUpCount, parse_u32(payload)),
            IFLA_CARRIER_DOWN_COUNT => push!(values, Self::CarrierDownCount, parse_u32(payload)),
            IFLA_NEW_IFINDEX => push!(values, Self::NewIfIndex, parse_i32(payload)),
            IFLA_MIN_MTU => push!(values, Self::MinMtu, parse_u32(payload)),
            IFLA_MAX_MTU => push!(values, Self::MaxMtu, parse_u32(payload)),
            IFLA_GRO_MAX_SIZE => push!(values, Self::GroMaxSize, parse_u32(payload)),
            IFLA_TSO_MAX_SIZE => push!(values, Self::TsoMaxSize, parse_u32(payload)),
            IFLA_TSO_MAX_SEGS => push!(values, Self::TsoMaxSegs, parse_u32(payload)),
            IFLA_ALLMULTI => push!(values, Self::AllMulticast, parse_u32(payload)),
            IFLA_GSO_IPV4_MAX_SIZE => push!(values, Self::GsoIpv4MaxSize, parse_u32(payload)),
            IFLA_GRO_IPV4_MAX_SIZE => push!(values, Self::GroIpv4MaxSize, parse_u32(payload)),
            IFLA_NETNS_IMMUTABLE =>
                push!(values, n => Self::NetnsImmutable(n != 0), parse_u8(payload)),
            _ => Self::parse_other_into(alloc, buffer, family, values),
        }
    }

    /// Reads a frame whose number `parse_into` does not read by itself: bytes and texts are read here, since a
    /// function's room on the stack is cleared for all of its arms when it is entered.
    #[inline(never)]
    #[tactic(auto, unfolding(crate::proofs::Opened::table))]
    fn parse_other_into(
        alloc: Global,
        buffer: &NlaBuffer<'_>,
        family: AddressFamily,
        values: &mut Vec<LinkAttribute>,
    ) -> Result<(), DecodeError>
        requires room { vec_len values.old < vec_capacity values.old }
        requires other { NotPlain (number buffer.now) }
        ensures { Adds result
            ((attribute_place family).reads buffer.now) values.old.items values.new.items }
    {
        let payload = buffer.value();
        match buffer.kind() {
            IFLA_ADDRESS => push!(values, Self::Address(Bytes::from_slice(alloc, payload)?)),
            IFLA_BROADCAST => push!(values, Self::Broadcast(Bytes::from_slice(alloc, payload)?)),
            IFLA_IFNAME => push!(values, Self::IfName, parse_string(alloc, payload)),
            IFLA_QDISC => push!(values, Self::Qdisc, parse_string(alloc, payload)),
            IFLA_IFALIAS => push!(values, Self::IfAlias, parse_string(alloc, payload)),
            IFLA_PHYS_PORT_NAME => push!(values, Self::PhysPortName, parse_string(alloc, payload)),
            IFLA_PERM_ADDRESS => push!(
                values,
                Self::PermAddress(Bytes::from_slice(alloc, payload)?),
            ),
            IFLA_PARENT_DEV_NAME => push!(
                values,
                Self::ParentDevName,
                parse_string(alloc, payload)
            ),
            IFLA_PARENT_DEV_BUS_NAME => push!(
                values,
                Self::ParentDevBusName,
                parse_string(alloc, payload)
            ),
            _ => Self::parse_nested_into(alloc, buffer, family, values),
        }
    }

    /// Reads a frame whose number neither of the two above reads: lists, events, masks, what its size or the family
    /// decides, and frames that are kept.
    #[inline(never)]
    #[tactic(auto, unfolding(crate::proofs::Opened::table))]
    fn parse_nested_into(
        alloc: Global,
        buffer: &NlaBuffer<'_>,
        family: AddressFamily,
        values: &mut Vec<LinkAttribute>,
    ) -> Result<(), DecodeError>
        requires room { vec_len values.old < vec_capacity values.old }
        requires other { NotPlain (number buffer.now) }
        requires nested { NotText (number buffer.now) }
        ensures { Adds result
            ((attribute_place family).reads buffer.now) values.old.items values.new.items }
    {
        let payload = buffer.value();
        match buffer.kind() {
            IFLA_WIRELESS => push!(values, Self::Wireless, WirelessEvent::parse(alloc, payload)),
            IFLA_LINKINFO => push!(values, Self::LinkInfo, parse_some(alloc, payload)),
            IFLA_VFINFO_LIST => push!(values, Self::VfInfoList, parse_functions(alloc, payload)),
            IFLA_VF_PORTS => push!(values, Self::VfPorts, parse_ports(alloc, payload)),
            IFLA_PORT_SELF => push!(values, Self::PortSelf, LinkVfPort::parse(alloc, payload)),
            IFLA_EXT_MASK => push!(values, Self::ExtMask, parse_mask(alloc, payload)),
            IFLA_XDP => push!(values, Self::Xdp, parse_some(alloc, payload)),
            IFLA_PROP_LIST => push!(values, Self::PropList, parse_any(alloc, payload)),
            IFLA_PROTO_DOWN_REASON => push!(
                values,
                Self::ProtoDownReason,
                parse_any(alloc, payload)
            ),
            IFLA_DEVLINK_PORT => push!(values, Self::DevlinkPort, parse_any(alloc, payload)),
            IFLA_DPLL_PIN => push!(values, Self::DpllPin, parse_any(alloc, payload)),
            IFLA_HEADROOM => match payload.len() {
                2 => push!(values, Self::Headroom, parse_u16(payload)),
                _ => keep_into(alloc, buffer, values),
            },
            IFLA_TAILROOM => match payload.len() {
                2 => push!(values, Self::Tailroom, parse_u16(payload)),
                _ => keep_into(alloc, buffer, values),
            },
            IFLA_PROTINFO => parse_proto_info_into(alloc, buffer, family, values),
            IFLA_AF_SPEC => parse_af_spec_into(alloc, buffer, family, values),
            _ => keep_into(alloc, buffer, values),
        }
    }

    /// `Ok` where a frame is read, else its first fault, by the shape of its payload; for the proof: its clause cites
    /// the reader alone, and those of `check_with_param` follow.
    #[inline(always)]
    fn check_frame(buffer: &NlaBuffer<'_>, family: AddressFamily) -> Result<(), DecodeError>
        ensures { Checks result ((attribute_place family).reads buffer.now) }
    {
        let payload = buffer.value();
        match Shape::of(buffer.kind(), payload.len(), family) {
            Some(shape) => shape.check(payload),
            None => Ok(()),
        }
    }

    /// The length of the encoding of a frame's value under the header's family, without header and padding and with no
    /// memory; `None` where the value does not fit, or the frame is refused.
    #[inline(always)]
    fn measure_frame(buffer: &NlaBuffer<'_>, family: AddressFamily) -> Option<usize>
        ensures { Weighs (λ v. (attribute_frame v).payload) AttributeFits
            ((attribute_place family).reads buffer.now) result }
    {
        buffer.is_frame();
        let payload = buffer.value();
        match Shape::of(buffer.kind(), payload.len(), family) {
            Some(shape) => shape.measure(payload),
            None => Some(payload.len()),
        }
    }

    /// Writes the canonical encoding of a frame that was measured to the front of the buffer, and returns its length
    /// with header and padding.
    #[inline(always)]
    fn write_frame(buffer: &NlaBuffer<'_>, family: AddressFamily, out: &mut [u8]) -> usize
        requires { HasRoom (λ v. canon (attribute_frame v)) AttributeFits
            ((attribute_place family).reads buffer.now) (length out.old) }
        ensures { Rewrites (λ v. canon (attribute_frame v))
            ((attribute_place family).reads buffer.now) out.old out.new result }
    {
        buffer.is_frame();
        let payload = buffer.value();
        match Shape::of(buffer.kind(), payload.len(), family) {
            Some(shape) => shape.write(buffer.kind(), payload, out),
            None => write_value(buffer.kind_with_flags(), payload, out),
        }
    }
}

/// Keeps a frame that no line reads.
#[inline(never)]
fn keep_into(
    alloc: Global,
    buffer: &NlaBuffer<'_>,
    values: &mut Vec<LinkAttribute>,
) -> Result<(), DecodeError>
    requires { vec_len values.old < vec_capacity values.old }
    ensures { Adds result (Ok (Other buffer.now)) values.old.items values.new.items }
{
    values.push_reserved(LinkAttribute::Other(DefaultNla::parse(alloc, buffer)?));
    Ok(())
}

/// Whether a frame whose value has an encoding of so many bytes is an empty list of ports.
#[inline(always)]
pub(crate) fn is_empty_ports(buffer: &NlaBuffer<'_>, value_len: usize) -> bool
    ensures told { IsTrue result ↔ ((number buffer.now ≡ IFLA_VF_PORTS) × (value_len ≡ 0)) }
    ensures frame { IsFrame buffer.now }
{
    buffer.is_frame();
    value_len == 0 && buffer.kind() == IFLA_VF_PORTS
}

/// The outermost place, under the family of the message's header.
#[derive(Debug, Clone, Copy)]
pub struct AttributePlace {
    /// The family in the header, on which IFLA_PROTINFO and IFLA_AF_SPEC depend.
    pub family: AddressFamily,
}

impl Place<LinkAttribute> for AttributePlace {
    ghost use Rattle.std.specs.Prelude.{false};
    ghost use Rattle.link_msg.specs.Tables.{attribute_place, attribute_lawful, attribute_bounded};

    ghost grammar = { λ place. attribute_place place.family };

    ghost picks = { λ place. false };

    #[inline(always)]
    fn drops(&self, _kind: u16) -> bool {
        false
    }

    fn kind_name(&self, kind: u16) -> &'static str {
        kind_name(kind)
    }

    #[inline(always)]
    fn parse_into(
        &self,
        alloc: Global,
        buffer: &NlaBuffer<'_>,
        values: &mut Vec<LinkAttribute>,
    ) -> Result<(), DecodeError> {
        LinkAttribute::parse_into(alloc, buffer, self.family, values)
    }

    #[inline(always)]
    fn check(&self, buffer: &NlaBuffer<'_>) -> Result<(), DecodeError> {
        LinkAttribute::check_frame(buffer, self.family)
    }

    #[inline(always)]
    fn measure(&self, buffer: &NlaBuffer<'_>) -> Option<usize> {
        LinkAttribute::measure_frame(buffer, self.family)
    }

    #[inline(always)]
    fn write(&self, buffer: &NlaBuffer<'_>, out: &mut [u8]) -> usize {
        LinkAttribute::write_frame(buffer, self.family, out)
    }

    ghost agrees = { λ place. (attribute_lawful place.family).agrees };

    ghost no_memory = { λ place. (attribute_lawful place.family).no_memory };

    ghost bounded = { λ place. attribute_bounded place.family };
}
