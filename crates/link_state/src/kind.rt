//! Kinds of device.

ghost use Rattle.std.specs.Prelude.{◌≡◌};
ghost use Rattle.nla_wire.specs.Payloads.{without_nul};
ghost use Rattle.link_nest.specs.declared.numbers.TheConstants as link_nest;
ghost use Rattle.link_state.specs.declared.numbers.TheConstants as numbers;
ghost use Rattle.link_state.specs.Kinds.{device_kind_of, port_kind_of, kind_at};

use crate::numbers::IFLA_INFO_SLAVE_KIND;
use link_nest::numbers::IFLA_INFO_KIND;
use nla_wire::NlasIterator;

/// A kind of device of which something moves by itself.
#[derive(Clone, Copy, Debug, PartialEq, Eq)]
pub enum Kind {
    /// `bridge`: of it, and of its ports.
    Bridge,
    /// `bond`: of its ports.
    Bond,
    /// `can` and `vcan`.
    Can,
    /// `hsr`.
    Hsr,
    /// Any other kind, or none.
    Other,
}

/// The name in a payload, which one NUL may end.
fn name_in(payload: &[u8]) -> &[u8]
    ensures { without_nul payload.now ≡ result.now }
{
    match payload {
        [name @ .., 0] => name,
        _ => payload,
    }
}

/// The kind with the name in this payload.
fn device_kind(payload: &[u8]) -> Kind
    ensures { result ≡ device_kind_of (without_nul payload.now) }
{
    let name = name_in(payload);
    if name == b"bridge".as_slice() {
        Kind::Bridge
    } else if name == b"can".as_slice() || name == b"vcan".as_slice() {
        Kind::Can
    } else if name == b"hsr".as_slice() {
        Kind::Hsr
    } else {
        Kind::Other
    }
}

/// The kind with the name in this payload, where something of its ports moves.
fn port_kind(payload: &[u8]) -> Kind
    ensures { result ≡ port_kind_of (without_nul payload.now) }
{
    let name = name_in(payload);
    if name == b"bridge".as_slice() {
        Kind::Bridge
    } else if name == b"bond".as_slice() {
        Kind::Bond
    } else {
        Kind::Other
    }
}

/// The kind of the device that attributes of these frames name, and that of the device that it is a port of: of several
/// of one number the first one decides, whatever it names.
pub(crate) fn kinds(list: &[u8]) -> (Kind, Kind)
    ensures device { result.0 ≡ kind_at link_nest.IFLA_INFO_KIND list.now }
    ensures port { result.1 ≡ kind_at numbers.IFLA_INFO_SLAVE_KIND list.now }
{
    let mut kind = None;
    let mut slave_kind = None;
    for item in NlasIterator::new(list) {
        let Ok(frame) = item else {
            break;
        };
        let payload = frame.value();
        match frame.kind() {
            IFLA_INFO_KIND => kind = Some(kind.unwrap_or(device_kind(payload))),
            IFLA_INFO_SLAVE_KIND => slave_kind = Some(slave_kind.unwrap_or(port_kind(payload))),
            _ => {}
        }
    }
    (
        kind.unwrap_or(Kind::Other),
        slave_kind.unwrap_or(Kind::Other),
    )
}
