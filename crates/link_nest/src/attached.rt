//! Where a program is attached.

ghost use Rattle.std.specs.Prelude.{◌≡◌};
ghost use Rattle.nla_wire.specs.Gives.{without_place};
ghost use Rattle.link_nest.specs.Tables.{xdp_attached};

use link_vals::XdpAttached;
use nla_wire::{DecodeError, parse_u8};

/// Where a program is attached, one byte.
pub(crate) fn parse_attached(payload: &[u8]) -> Result<XdpAttached, DecodeError>
    ensures { without_place result ≡ xdp_attached.grammar.reads payload.now }
{
    XdpAttached::try_from(parse_u8(payload)?)
}
