//! Payloads of attributes: non-empty lists, extent masks, events and truth values.

ghost use Rattle.std.specs.Prelude.{◌≡◌, ◌≤◌, length, IfOk, IfErr};
ghost use Rattle.nla_wire.specs.Sizes.{most_payload};
ghost use Rattle.nla_wire.specs.Grammar.{list, not_empty};
ghost use Rattle.nla_wire.specs.Canon.{canon, canons, AllFit, Weighs, HasRoom, Rewrites};
ghost use Rattle.nla_wire.specs.Gives.{Gives, Checks};
ghost use Rattle.nla_wire.specs.declared.error.Cause.TheVariants.{OutOfMemory};
ghost use Rattle.link_vf.specs.Tables.{link_vf_port_place, vf_info_list, vf_port_list};
ghost use Rattle.nla_wire.proofs.Shapes.{ShapeRoom, ShapeWrites};
ghost use Rattle.link_msg.specs.Tables.{base, ext_masks, truth_number};
ghost use Rattle.link_msg.specs.declared.shape.Shape.TheVariants as Shapes;

use link_nest::WirelessEvent;
use link_vals::LinkExtentMask;
use link_vf::{Entry, LinkVfInfo, LinkVfPort};
use nla_wire::{DecodeError, List, NLA_HEADER_SIZE, NlaRead, empty_list, finish, parse_u32};
use std::alloc::Global;

/// Reads a list. It and the readers of lists below are functions of their own, so that where they are called a result
/// has room on the stack, and not what each of them needs.
#[inline(never)]
pub(crate) fn parse_any<N: NlaRead>(alloc: Global, payload: &[u8]) -> Result<List<N>, DecodeError>
    ensures { Gives result ((list N.grammar).reads payload.now) }
{
    N::parse_list(alloc, payload).map(List::new)
}

/// Reads a non-empty list.
#[inline(never)]
#[tactic(auto, unfolding(nla_wire::specs::Grammar::unless_empty))]
pub(crate) fn parse_some<N: NlaRead>(alloc: Global, payload: &[u8]) -> Result<List<N>, DecodeError>
    ensures { Gives result ((not_empty (list N.grammar)).reads payload.now) }
{
    if payload.is_empty() {
        return Err(empty_list());
    }
    N::parse_list(alloc, payload).map(List::new)
}

/// Whether a payload is a non-empty list, and the first fault if not.
#[tactic(auto, unfolding(nla_wire::specs::Grammar::unless_empty))]
pub(crate) fn check_some<N: NlaRead>(payload: &[u8]) -> Result<(), DecodeError>
    ensures { Checks result ((not_empty (list N.grammar)).reads payload.now) }
{
    if payload.is_empty() {
        return Err(empty_list());
    }
    N::check_list(payload)
}

/// Reads virtual functions.
#[inline(never)]
pub(crate) fn parse_functions(
    alloc: Global,
    payload: &[u8],
) -> Result<List<LinkVfInfo>, DecodeError>
    ensures { Gives result (vf_info_list.grammar.reads payload.now) }
{
    LinkVfInfo::parse_list(alloc, payload).map(List::new)
}

/// Reads ports of virtual functions from a non-empty payload.
#[inline(never)]
#[tactic(auto, unfolding(nla_wire::specs::Grammar::unless_empty))]
pub(crate) fn parse_ports(alloc: Global, payload: &[u8]) -> Result<List<LinkVfPort>, DecodeError>
    ensures { Gives result ((not_empty vf_port_list.grammar).reads payload.now) }
{
    if payload.is_empty() {
        return Err(empty_list());
    }
    LinkVfPort::parse_list(alloc, payload).map(List::new)
}

/// Whether a payload is one of ports of virtual functions, and the first fault if not.
#[tactic(auto, unfolding(nla_wire::specs::Grammar::unless_empty))]
pub(crate) fn check_ports(payload: &[u8]) -> Result<(), DecodeError>
    ensures { Checks result ((not_empty vf_port_list.grammar).reads payload.now) }
{
    if payload.is_empty() {
        return Err(empty_list());
    }
    LinkVfPort::check_list(payload)
}

/// The length of the encoding of ports of virtual functions: `None` where it does not fit or the payload is refused.
pub(crate) fn measure_ports(payload: &[u8]) -> Option<usize>
    ensures { Weighs (canons link_vf_port_place.frame)
        (λ vs. (length (canons link_vf_port_place.frame vs) ≤ most_payload)
        × AllFit link_vf_port_place.Fits link_vf_port_place.frame vs)
        ((not_empty vf_port_list.grammar).reads payload.now) result }
{
    if payload.is_empty() {
        return None;
    }
    LinkVfPort::measure_list(payload)
}

/// Writes the attribute of ports of virtual functions that were measured.
pub(crate) fn write_ports(kind: u16, payload: &[u8], out: &mut [u8]) -> usize
    requires { HasRoom
        (λ vs. canon (record { kind = kind; payload = canons link_vf_port_place.frame vs }))
        (λ vs. (length (canons link_vf_port_place.frame vs) ≤ most_payload)
        × AllFit link_vf_port_place.Fits link_vf_port_place.frame vs)
        ((not_empty vf_port_list.grammar).reads payload.now) (length out.old) }
    ensures { Rewrites
        (λ vs. canon (record { kind = kind; payload = canons link_vf_port_place.frame vs }))
        ((not_empty vf_port_list.grammar).reads payload.now) out.old out.new result }
{
    LinkVfPort::write_list(kind, payload, out)
}

/// Reads an extent mask, a number of four bytes, as the list of its flags.
#[inline(never)]
pub(crate) fn parse_mask(alloc: Global, payload: &[u8]) -> Result<List<LinkExtentMask>, DecodeError>
    ensures { Gives result (ext_masks.grammar.reads payload.now) }
{
    let number = parse_u32(payload)?;
    LinkExtentMask::list_from(alloc, number).map(List::new)
}

/// A copy of flags, or `OutOfMemory`.
pub(crate) fn clone_mask(
    alloc: Global,
    flags: &[LinkExtentMask],
) -> Result<List<LinkExtentMask>, DecodeError>
    ensures copy { IfOk result (λ copy. copy ≡ flags.now) }
    ensures memory { IfErr result (λ e. e.cause ≡ OutOfMemory) }
{
    let copy = Vec::from_slice(alloc, flags)?;
    Ok(List::new(copy))
}

/// Writes the attribute of a wireless event that was measured.
pub(crate) fn write_event(kind: u16, payload: &[u8], out: &mut [u8]) -> usize
    requires { ShapeRoom base Shapes.Event kind payload.now (length out.old) }
    ensures { ShapeWrites base Shapes.Event kind payload.now out.old out.new result }
{
    let len = WirelessEvent::write(payload, &mut out[NLA_HEADER_SIZE..]);
    finish(out, len, kind)
}

/// The byte of a truth value.
pub(crate) fn truth_byte(value: bool) -> u8
    ensures { result ≡ truth_number value }
{
    if value { 1 } else { 0 }
}
