//! Attributes whose payload depends on the family of the message's header: IFLA_AF_SPEC and IFLA_PROTINFO.

ghost use Rattle.std.specs.Prelude.{◌<◌, vec_len, vec_capacity};
ghost use Rattle.nla_wire.specs.Gives.{Adds};
ghost use Rattle.link_msg.specs.Tables.{af_spec, proto_info};

use crate::attribute::LinkAttribute;
use crate::payload::{parse_any, parse_some};
use crate::place::push;
use link_vals::AddressFamily;
use nla_wire::{Bytes, DecodeError, DefaultNla, NlaBuffer};
use std::alloc::Global;

/// Reads IFLA_AF_SPEC into the room after the last value.
#[inline(never)]
#[tactic(auto, unfolding(crate::specs::Tables::af_spec))]
pub(crate) fn parse_af_spec_into(
    alloc: Global,
    buffer: &NlaBuffer<'_>,
    family: AddressFamily,
    values: &mut Vec<LinkAttribute>,
) -> Result<(), DecodeError>
    requires { vec_len values.old < vec_capacity values.old }
    ensures { Adds result
        ((af_spec family).reads.reads buffer.now) values.old.items values.new.items }
{
    let payload = buffer.value();
    match family {
        AddressFamily::Unspec => push!(
            values,
            LinkAttribute::AfSpecUnspec(parse_any(alloc, payload)?),
        ),
        AddressFamily::Bridge => push!(
            values,
            LinkAttribute::AfSpecBridge(parse_some(alloc, payload)?),
        ),
        _ => push!(
            values,
            LinkAttribute::AfSpecUnknown(Bytes::from_slice(alloc, payload)?),
        ),
    }
}

/// Reads IFLA_PROTINFO into the room after the last value.
#[inline(never)]
#[tactic(auto, unfolding(crate::specs::Tables::proto_info))]
pub(crate) fn parse_proto_info_into(
    alloc: Global,
    buffer: &NlaBuffer<'_>,
    family: AddressFamily,
    values: &mut Vec<LinkAttribute>,
) -> Result<(), DecodeError>
    requires { vec_len values.old < vec_capacity values.old }
    ensures { Adds result
        ((proto_info family).reads.reads buffer.now) values.old.items values.new.items }
{
    let payload = buffer.value();
    match family {
        AddressFamily::Inet6 => push!(
            values,
            LinkAttribute::ProtoInfoInet6(parse_some(alloc, payload)?),
        ),
        AddressFamily::Bridge => push!(
            values,
            LinkAttribute::ProtoInfoBridge(parse_some(alloc, payload)?),
        ),
        _ => push!(
            values,
            LinkAttribute::ProtoInfoUnknown(DefaultNla::parse(alloc, buffer)?),
        ),
    }
}
