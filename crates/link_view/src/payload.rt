//! Payloads over borrowed bytes.

ghost use Rattle.std.specs.Prelude.{◌≡◌, Ok, Err, MatchResult};
ghost use Rattle.nla_wire.specs.Gives.{without_place};
ghost use Rattle.link_afspec.specs.Tables.{iface_flags, addr_gen_mode, phys_binding};
ghost use Rattle.link_nest.specs.Tables.{xdp_attached};
ghost use Rattle.link_nest.specs.Wireless.{wireless_event};
ghost use Rattle.link_view.specs.Events.{owned_event};

use link_nest::numbers::{IWEVASSOCREQIE, IWEVASSOCRESPIE};
use link_vals::{In6AddrGenMode, Inet6IfaceFlags, MctpPhysBinding, XdpAttached};
use nla_wire::fields::{too_short, u16_at};
use nla_wire::{DecodeError, NlaRead, parse_u8, parse_u32};

/// The bytes of a wireless event's header.
const EVENT_HEADER_LEN: usize = 8;

/// An event of the wireless extensions over borrowed bytes: a variant for each of `WirelessEvent`.
#[derive(Clone, Copy, Debug)]
pub enum WirelessEventView<'a> {
    /// IWEVASSOCREQIE: the information elements of an association request.
    AssociateRequest(&'a [u8]),
    /// IWEVASSOCRESPIE: the information elements of an association response.
    AssociateResponse(&'a [u8]),
    /// Any other command: the whole payload, header and all.
    Other(&'a [u8]),
}

/// What was read, as this variant.
macro_rules! borrow {
    ($variant:path, $read:expr) => {
        borrow!($variant, it => it, $read)
    };
    ($variant:path, $it:ident => $value:expr, $read:expr) => {
        match $read {
            Ok($it) => Ok($variant($value)),
            Err(error) => Err(error),
        }
    };
}

/// A list that must not be empty, as this variant.
macro_rules! some {
    ($variant:path, $payload:ident) => {
        if $payload.is_empty() { Err(empty_list()) } else { Ok($variant($payload)) }
    };
}

pub(crate) use borrow;
pub(crate) use some;

/// The same fault in the member of this number.
#[cold]
pub(crate) fn within<N: NlaRead>(fault: DecodeError, number: u16) -> DecodeError
    ensures { result.cause ≡ fault.cause }
{
    fault.within(N::kind_name(number))
}

/// Where a program is attached, one byte.
pub(crate) fn attached_of(payload: &[u8]) -> Result<XdpAttached, DecodeError>
    ensures { without_place result ≡ xdp_attached.grammar.reads payload.now }
{
    XdpAttached::try_from(parse_u8(payload)?)
}

/// The flags of an interface, four bytes.
pub(crate) fn flags_of(payload: &[u8]) -> Result<Inet6IfaceFlags, DecodeError>
    ensures { without_place result ≡ iface_flags.grammar.reads payload.now }
{
    parse_u32(payload).map(Inet6IfaceFlags::from_bits_retain)
}

/// How addresses are made, one byte.
pub(crate) fn mode_of(payload: &[u8]) -> Result<In6AddrGenMode, DecodeError>
    ensures { without_place result ≡ addr_gen_mode.grammar.reads payload.now }
{
    parse_u8(payload).map(In6AddrGenMode::from)
}

/// The physical binding, one byte.
pub(crate) fn binding_of(payload: &[u8]) -> Result<MctpPhysBinding, DecodeError>
    ensures { without_place result ≡ phys_binding.grammar.reads payload.now }
{
    parse_u8(payload).map(MctpPhysBinding::from)
}

/// The event that a payload is, or `TooShort`.
#[tactic(auto, unfolding(nla_wire::specs::Payloads::read_sized))]
#[inline]
pub fn event_of(payload: &[u8]) -> Result<WirelessEventView<'_>, DecodeError>
    ensures { MatchResult result (λ v. wireless_event.reads payload.now ≡ Ok (owned_event v))
        (λ e. wireless_event.reads payload.now ≡ Err e.cause) }
{
    if payload.len() < EVENT_HEADER_LEN {
        return Err(too_short(payload.len(), EVENT_HEADER_LEN));
    }
    match u16_at(payload, 2) {
        IWEVASSOCREQIE => Ok(WirelessEventView::AssociateRequest(&payload[8..])),
        IWEVASSOCRESPIE => Ok(WirelessEventView::AssociateResponse(&payload[8..])),
        _ => Ok(WirelessEventView::Other(payload)),
    }
}
