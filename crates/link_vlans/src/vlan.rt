//! A VLAN, or a tunnel, as an attribute spells it.

ghost use Rattle.std.specs.Prelude.{◌≡◌};
ghost use Rattle.link_vlans.specs.Runs.{plain_vlan, take_field, tunnel, tunnel_by, vlan_by};

use nla_wire::NlasIterator;
use nla_wire::fields::{u16_at, u32_at};

/// A value of a list of VLANs.
#[derive(Clone, Copy, Drop)]
pub(crate) struct Vlan {
    /// The VLAN.
    pub vid: u16,
    /// Its flags (`BRIDGE_VLAN_INFO_*`).
    pub flags: u16,
    /// The id of its tunnel, if it is one.
    pub id: Option<u32>,
}

/// `IFLA_BRIDGE_VLAN_TUNNEL_ID`.
const ID: u16 = 1;

/// `IFLA_BRIDGE_VLAN_TUNNEL_VID`.
const VID: u16 = 2;

/// `IFLA_BRIDGE_VLAN_TUNNEL_FLAGS`.
const FLAGS: u16 = 3;

/// Reads a record of a VLAN (`struct bridge_vlan_info`): two bytes of flags, and two of the VLAN.
fn plain_vlan(bytes: &[u8]) -> Option<Vlan>
    ensures { result ≡ plain_vlan bytes.now }
{
    if bytes.len() != 4 {
        return None;
    }
    Some(Vlan {
        vid: u16_at(bytes, 2),
        flags: u16_at(bytes, 0),
        id: None,
    })
}

/// What is read of a tunnel: its id, its VLAN, and flags.
type Parts = (Option<u32>, Option<u16>, Option<u16>);

/// Reads an attribute of a tunnel, which has each once.
fn take_field(parts: Parts, number: u16, bytes: &[u8]) -> Option<Parts>
    ensures { result ≡ take_field parts number bytes.now }
{
    match (number, bytes.len(), parts) {
        (ID, 4, (None, vid, flags)) => Some((Some(u32_at(bytes, 0)), vid, flags)),
        (VID, 2, (id, None, flags)) => Some((id, Some(u16_at(bytes, 0)), flags)),
        (FLAGS, 2, (id, vid, None)) => Some((id, vid, Some(u16_at(bytes, 0)))),
        _ => None,
    }
}

/// The tunnel that these are of, if none is missing.
fn tunnel_by(parts: Parts) -> Option<Vlan>
    ensures { result ≡ tunnel_by (Some parts) }
{
    match parts {
        (Some(id), Some(vid), Some(flags)) => Some(Vlan {
            vid,
            flags,
            id: Some(id),
        }),
        _ => None,
    }
}

/// Reads the attributes of a tunnel.
fn tunnel(bytes: &[u8]) -> Option<Vlan>
    ensures { result ≡ tunnel bytes.now }
{
    let mut parts = (None, None, None);
    for item in NlasIterator::new(bytes) {
        let Ok(frame) = item else {
            return None;
        };
        parts = take_field(parts, frame.kind(), frame.value())?;
    }
    tunnel_by(parts)
}

/// Reads the payload of an attribute of this number: a VLAN or a tunnel.
pub(crate) fn vlan_by(number: u16, bytes: &[u8]) -> Option<Vlan>
    ensures { result ≡ vlan_by number bytes.now }
{
    match number {
        2 => plain_vlan(bytes),
        3 => tunnel(bytes),
        _ => None,
    }
}
