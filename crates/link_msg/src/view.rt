//! What an attribute's value is written from: measured, and written as an attribute.

ghost use Rattle.std.specs.Prelude.{◌+◌, ◌≤◌, length};
ghost use Rattle.nla_wire.specs.Sizes.{most_payload};
ghost use Rattle.nla_wire.specs.Canon.{canon, Measures, Writes};
ghost use Rattle.link_nest.specs.Wireless.{wireless_encoding, WirelessFits};
ghost use Rattle.link_msg.specs.View.{view_bytes, ViewFits};

use link_afspec::{AfSpecBridge, AfSpecUnspec, LinkProtoInfoBridge, LinkProtoInfoInet6};
use link_nest::{
    DevlinkPort, DpllPin, LinkInfo, LinkProtocolDownReason, LinkXdp, Prop, WirelessEvent,
};
use link_recs::map::MAP_SIZE;
use link_recs::stats::STATS_SIZE;
use link_recs::stats64::STATS64_SIZE;
use link_recs::{Map, Stats, Stats64};
use link_vals::{LinkExtentMask, LinkPhysId};
use link_vf::{LinkVfInfo, LinkVfPort, VfPort};
use nla_wire::{
    FlatView, NLA_HEADER_SIZE, Record, at_most_value, finish, list_measure, write_list, write_u32,
    write_value,
};

/// What an attribute's value is written from.
#[derive(Clone, Copy)]
pub enum View<'a> {
    /// One number, text or bytes.
    Flat(FlatView<'a>),
    /// IFLA_PHYS_PORT_ID, IFLA_PHYS_SWITCH_ID: the bytes of an id.
    Id(&'a LinkPhysId),
    /// IFLA_STATS: a record.
    Stats(&'a Stats),
    /// IFLA_STATS64: a record.
    Stats64(&'a Stats64),
    /// IFLA_MAP: a record.
    Map(&'a Map),
    /// IFLA_EXT_MASK: flags, written as the sum of their numbers.
    Mask(&'a [LinkExtentMask]),
    /// IFLA_WIRELESS: an event.
    Event(&'a WirelessEvent),
    /// IFLA_PORT_SELF: the members of the port.
    Port(&'a [VfPort]),
    /// IFLA_LINKINFO: its members.
    Infos(&'a [LinkInfo]),
    /// IFLA_VFINFO_LIST: its virtual functions.
    Functions(&'a [LinkVfInfo]),
    /// IFLA_VF_PORTS: its ports.
    Ports(&'a [LinkVfPort]),
    /// IFLA_XDP: its members.
    Xdps(&'a [LinkXdp]),
    /// IFLA_PROP_LIST: its members.
    Props(&'a [Prop]),
    /// IFLA_PROTO_DOWN_REASON: its members.
    Reasons(&'a [LinkProtocolDownReason]),
    /// IFLA_DEVLINK_PORT: its members.
    DevlinkPorts(&'a [DevlinkPort]),
    /// IFLA_DPLL_PIN: its members.
    DpllPins(&'a [DpllPin]),
    /// IFLA_PROTINFO, of the family AF_BRIDGE: its members.
    BridgeInfos(&'a [LinkProtoInfoBridge]),
    /// IFLA_PROTINFO, of the family AF_INET6: its members.
    Inet6Infos(&'a [LinkProtoInfoInet6]),
    /// IFLA_AF_SPEC, of the family AF_BRIDGE: its members.
    Bridges(&'a [AfSpecBridge]),
    /// IFLA_AF_SPEC, of the family AF_UNSPEC: its members.
    Unspecs(&'a [AfSpecUnspec]),
}

/// Writes the attribute of this kind with the encoding of an event.
fn write_event(kind: u16, event: &WirelessEvent, buffer: &mut [u8]) -> usize
    requires fits { WirelessFits event.now }
    requires room { length (canon (record { kind = kind; payload = wireless_encoding event.now }))
        ≤ length buffer.old }
    ensures { Writes (canon (record { kind = kind; payload = wireless_encoding event.now }))
        buffer.old buffer.new result }
{
    let len = event.buffer_len();
    event.emit(&mut buffer[NLA_HEADER_SIZE..NLA_HEADER_SIZE + len]);
    finish(buffer, len, kind)
}

impl View<'_> {
    /// The length of the encoding; `None` where it has more than 65531 bytes, or what is inside does not fit.
    #[inline(always)]
    #[tactic(auto, using(crate::proofs::Lengths::record_lengths))]
    pub(crate) fn measure(&self) -> Option<usize>
        ensures { Measures ((length (view_bytes self.now) ≤ most_payload) × ViewFits self.now)
            (length (view_bytes self.now)) result }
    {
        match self {
            View::Flat(flat) => at_most_value(flat.len()),
            // for the proof: the length of the slice that is written, where `id.len` would do
            View::Id(id) if id.fits() => Some(id.id[..id.len].len()),
            View::Id(_) => None,
            View::Stats(_) => Some(STATS_SIZE),
            View::Stats64(_) => Some(STATS64_SIZE),
            View::Map(_) => Some(MAP_SIZE),
            View::Mask(flags) => LinkExtentMask::sum_fits(flags).then_some(4),
            View::Event(event) if event.fits() => Some(event.buffer_len()),
            View::Event(_) => None,
            View::Port(members) => list_measure(members),
            View::Infos(members) => list_measure(members),
            View::Functions(members) => list_measure(members),
            View::Ports(members) => list_measure(members),
            View::Xdps(members) => list_measure(members),
            View::Props(members) => list_measure(members),
            View::Reasons(members) => list_measure(members),
            View::DevlinkPorts(members) => list_measure(members),
            View::DpllPins(members) => list_measure(members),
            View::BridgeInfos(members) => list_measure(members),
            View::Inet6Infos(members) => list_measure(members),
            View::Bridges(members) => list_measure(members),
            View::Unspecs(members) => list_measure(members),
        }
    }

    /// Writes the attribute of this kind with the encoding as its value to the front of the buffer, and returns its
    /// length. The rest of the buffer is kept.
    #[inline(always)]
    #[tactic(auto, using(crate::proofs::Lengths::record_lengths))]
    pub(crate) fn write(&self, kind: u16, buffer: &mut [u8]) -> usize
        requires small { length (view_bytes self.now) ≤ most_payload }
        requires inside { ViewFits self.now }
        requires room { length (canon (record { kind = kind; payload = view_bytes self.now }))
            ≤ length buffer.old }
        ensures { Writes (canon (record { kind = kind; payload = view_bytes self.now }))
            buffer.old buffer.new result }
    {
        match self {
            View::Flat(flat) => flat.write(kind, buffer),
            View::Id(id) => write_value(kind, &id.id[..id.len], buffer),
            View::Stats(stats) => stats.write_attribute(kind, buffer),
            View::Stats64(stats) => stats.write_attribute(kind, buffer),
            View::Map(map) => map.write_attribute(kind, buffer),
            View::Mask(flags) => write_u32(kind, LinkExtentMask::sum(flags), buffer),
            View::Event(event) => write_event(kind, event, buffer),
            View::Port(members) => write_list(kind, members, buffer),
            View::Infos(members) => write_list(kind, members, buffer),
            View::Functions(members) => write_list(kind, members, buffer),
            View::Ports(members) => write_list(kind, members, buffer),
            View::Xdps(members) => write_list(kind, members, buffer),
            View::Props(members) => write_list(kind, members, buffer),
            View::Reasons(members) => write_list(kind, members, buffer),
            View::DevlinkPorts(members) => write_list(kind, members, buffer),
            View::DpllPins(members) => write_list(kind, members, buffer),
            View::BridgeInfos(members) => write_list(kind, members, buffer),
            View::Inet6Infos(members) => write_list(kind, members, buffer),
            View::Bridges(members) => write_list(kind, members, buffer),
            View::Unspecs(members) => write_list(kind, members, buffer),
        }
    }
}
