//! Where the fault of a message is: the innermost frame that is refused, or the stray bytes.

ghost use Rattle.std.specs.Prelude.{◌≡◌, ◌≤◌, length, IfSome, MatchOption};
ghost use Rattle.nla_wire.specs.Frames.{number};
ghost use Rattle.nla_wire.specs.declared.error.Cause.{Cause};
ghost use Rattle.nla_wire.specs.Grammar.{list};
ghost use Rattle.link_msg.specs.Tables.{attribute_place, Values};
ghost use Rattle.link_msg.specs.Messages.{Means, FirstFault, MeansNothing};
ghost use Rattle.link_msg.specs.Nested.{leaves, in_function, in_functions, in_ports, in_families, in_attribute};
ghost use Rattle.link_msg.specs.Nested.{in_vf_info, in_family, in_shape, outermost};
ghost use Rattle.link_msg.specs.FaultAt.{FaultsAt};
ghost use Rattle.link_msg.specs.FaultPath.{numbers_to, IsPathIn, IsPathOf};

use crate::fault_path::FaultPath;
use crate::header::HEADER_SIZE;
use crate::message::{LinkMessage, split_header};
use crate::place::AttributePlace;
use crate::shape::Shape;
use crate::walk::{Found, first_fault};
use link_afspec::numbers::{AF_INET, AF_INET6, AF_MCTP};
use link_afspec::{
    AfSpecBridge, AfSpecInet, AfSpecInet6, AfSpecMctp, AfSpecUnspec, LinkProtoInfoBridge,
    LinkProtoInfoInet6,
};
use link_nest::{DevlinkPort, DpllPin, LinkInfo, LinkProtocolDownReason, LinkXdp, Prop};
use link_vals::AddressFamily;
use link_vf::numbers::{IFLA_VF_STATS, IFLA_VF_VLAN_LIST};
use link_vf::{EntryPlace, LinkVfInfo, LinkVfPort, VfInfo, VfPort, VfStats, VfVlan};
use nla_wire::{NlaBuffer, NlaRead, OwnPlace};

/// Where the fault of a list is, of which no member holds others.
fn in_list<N: NlaRead>(bytes: &[u8]) -> Option<FaultPath>
    ensures { IsPathIn (leaves N.NlaRead.grammar) bytes.now 1 result }
{
    let Some(Found { at, frame }) = first_fault::<N, OwnPlace>(&OwnPlace, bytes) else {
        return None;
    };
    match frame {
        Some(frame) => Some(FaultPath::frame(at, frame.kind(), None)),
        None => Some(FaultPath::stray(at)),
    }
}

/// Where the fault is in the payload of a member of an entry.
fn in_vf_info(frame: &NlaBuffer<'_>) -> Option<FaultPath>
    ensures { IsPathIn (in_vf_info (number frame.now)) frame.now.payload 1 result }
{
    match frame.kind() {
        IFLA_VF_STATS => in_list::<VfStats>(frame.value()),
        IFLA_VF_VLAN_LIST => in_list::<VfVlan>(frame.value()),
        _ => None,
    }
}

/// Where the fault of what is said of one virtual function is.
fn in_function(bytes: &[u8]) -> Option<FaultPath>
    ensures { IsPathIn in_function bytes.now 2 result }
{
    let Some(Found { at, frame }) = first_fault::<VfInfo, OwnPlace>(&OwnPlace, bytes) else {
        return None;
    };
    match frame {
        Some(frame) => Some(FaultPath::frame(at, frame.kind(), in_vf_info(&frame))),
        None => Some(FaultPath::stray(at)),
    }
}

/// Where the fault of a list of virtual functions is.
fn in_functions(bytes: &[u8]) -> Option<FaultPath>
    ensures { IsPathIn in_functions bytes.now 3 result }
{
    let Some(Found { at, frame }) = first_fault::<LinkVfInfo, EntryPlace>(&EntryPlace, bytes) else {
        return None;
    };
    match frame {
        Some(frame) => Some(FaultPath::frame(at, frame.kind(), in_function(frame.value()))),
        None => Some(FaultPath::stray(at)),
    }
}

/// Where the fault of a list of ports is.
fn in_ports(bytes: &[u8]) -> Option<FaultPath>
    ensures { IsPathIn in_ports bytes.now 2 result }
{
    let Some(Found { at, frame }) = first_fault::<LinkVfPort, EntryPlace>(&EntryPlace, bytes) else {
        return None;
    };
    match frame {
        Some(frame) => Some(FaultPath::frame(at, frame.kind(), in_list::<VfPort>(frame.value()))),
        None => Some(FaultPath::stray(at)),
    }
}

/// Where the fault is in the settings of one family.
fn in_family(frame: &NlaBuffer<'_>) -> Option<FaultPath>
    ensures { IsPathIn (in_family (number frame.now)) frame.now.payload 1 result }
{
    match frame.kind() {
        AF_INET => in_list::<AfSpecInet>(frame.value()),
        AF_INET6 => in_list::<AfSpecInet6>(frame.value()),
        AF_MCTP => in_list::<AfSpecMctp>(frame.value()),
        _ => None,
    }
}

/// Where the fault of a list of settings by family is.
fn in_families(bytes: &[u8]) -> Option<FaultPath>
    ensures { IsPathIn in_families bytes.now 2 result }
{
    let Some(Found { at, frame }) = first_fault::<AfSpecUnspec, OwnPlace>(&OwnPlace, bytes) else {
        return None;
    };
    match frame {
        Some(frame) => Some(FaultPath::frame(at, frame.kind(), in_family(&frame))),
        None => Some(FaultPath::stray(at)),
    }
}

/// Where the fault is in a payload of this shape.
fn in_shape(shape: Shape, payload: &[u8]) -> Option<FaultPath>
    ensures { IsPathIn (in_shape shape) payload.now 3 result }
{
    match shape {
        Shape::Port => in_list::<VfPort>(payload),
        Shape::Infos => in_list::<LinkInfo>(payload),
        Shape::Functions => in_functions(payload),
        Shape::Ports => in_ports(payload),
        Shape::Xdps => in_list::<LinkXdp>(payload),
        Shape::Props => in_list::<Prop>(payload),
        Shape::Reasons => in_list::<LinkProtocolDownReason>(payload),
        Shape::DevlinkPorts => in_list::<DevlinkPort>(payload),
        Shape::DpllPins => in_list::<DpllPin>(payload),
        Shape::BridgeInfos => in_list::<LinkProtoInfoBridge>(payload),
        Shape::Inet6Infos => in_list::<LinkProtoInfoInet6>(payload),
        Shape::Bridges => in_list::<AfSpecBridge>(payload),
        Shape::Unspecs => in_families(payload),
        _ => None,
    }
}

/// Where the fault is in the payload of an attribute of a message whose header has this family.
pub(crate) fn in_attribute(frame: &NlaBuffer<'_>, family: AddressFamily) -> Option<FaultPath>
    ensures { IsPathIn (in_attribute family frame.now) frame.now.payload 3 result }
{
    let payload = frame.value();
    match Shape::of(frame.kind(), payload.len(), family) {
        Some(shape) => in_shape(shape, payload),
        None => None,
    }
}

/// Where the fault of the attributes after a header of this family is.
fn in_attributes(family: AddressFamily, rest: &[u8]) -> Option<FaultPath>
    ensures path { IsPathIn (outermost family) rest.now 4 result }
    ensures read { MatchOption result
        ((vs : Values) × (list (attribute_place family)).means rest.now vs) (λ _. Unit {0}) }
{
    let Some(Found { at, frame }) = first_fault(&AttributePlace { family }, rest) else {
        return None;
    };
    match frame {
        Some(frame) => Some(FaultPath::frame(at, frame.kind(), in_attribute(&frame, family))),
        None => Some(FaultPath::stray(at)),
    }
}

impl LinkMessage {
    ghost use Rattle.link_msg.specs.declared.message.LinkMessage.{LinkMessage};

    /// Where the fault is that `check` finds, without memory: how many bytes stand before the innermost frame that is
    /// refused, or before the bytes that are no frame; and the numbers of the attributes that lead there. `None`
    /// exactly where `check` finds none.
    ///
    /// Bytes that are no frame are fewer than four at the end of a list, or begin with a length that is below four or
    /// passes the end. Of a message that is shorter than its header the offset is 0. A frame is refused where its value
    /// is, and it is the innermost where its payload is no list, or a list of which no member is refused, as an empty
    /// one. All that stands before it in each list is read.
    pub fn fault_path(input: &[u8]) -> Option<FaultPath>
        ensures path { IsPathOf input.now result }
        ensures few { IfSome result (λ p. length (numbers_to p) ≤ 4) }
        ensures refused { IfSome result (λ _. MeansNothing input.now) }
        ensures inside { IfSome result (λ p. p.offset ≤ length input.now) }
    {
        let Ok((header, rest)) = split_header(input) else {
            return Some(FaultPath::stray(0));
        };
        match in_attributes(header.interface_family, rest) {
            Some(path) => Some(path.after(HEADER_SIZE)),
            None => None,
        }
    }

    /// Where the fault is that `check` finds, without memory: the offset of `fault_path`.
    pub fn fault_at(input: &[u8]) -> Option<usize>
        ensures found { MatchOption result
            ((m : LinkMessage) × Means input.now m)
            (λ at. (c : Cause) × FirstFault input.now c × FaultsAt input.now c at) }
        ensures refused { IfSome result (λ _. MeansNothing input.now) }
        ensures inside { IfSome result (λ at. at ≤ length input.now) }
    {
        match LinkMessage::fault_path(input) {
            Some(path) => Some(path.offset),
            None => None,
        }
    }
}
