//! Where XDP programs are attached.

ghost use Rattle.std.specs.Prelude.{◌≡◌, Ok};
ghost use Rattle.link_vals.specs.XdpAttachedTable.{xdp_attached_of, xdp_attached_number};

use nla_wire::{DecodeError, Exact};

/// Where the XDP program of a link is attached, one byte: `XDP_ATTACHED_..` of linux/if_link.h.
#[derive(Clone, Copy, Debug, PartialEq, Eq)]
pub enum XdpAttached {
    /// `XDP_ATTACHED_NONE`: no program.
    None,
    /// `XDP_ATTACHED_DRV`: in the driver.
    Driver,
    /// `XDP_ATTACHED_SKB`: on socket buffers.
    SocketBuffer,
    /// `XDP_ATTACHED_HW`: in the hardware.
    Hardware,
    /// `XDP_ATTACHED_MULTI`: more than one.
    Multiple,
    /// A number without a name.
    Other(u8),
}

impl TryFrom<u8> for XdpAttached {
    type Error = DecodeError;

    ghost try_from_gives = { λ n result. result ≡ Ok (xdp_attached_of n) };

    /// Never fails.
    #[tactic(auto, unfolding(crate::proofs::Opened::xdp_attached))]
    fn try_from(number: u8) -> Result<XdpAttached, DecodeError> {
        Ok(match number {
            0 => XdpAttached::None,
            1 => XdpAttached::Driver,
            2 => XdpAttached::SocketBuffer,
            3 => XdpAttached::Hardware,
            4 => XdpAttached::Multiple,
            n => XdpAttached::Other(n),
        })
    }
}

impl From<XdpAttached> for u8 {
    ghost from_gives = { λ v n. n ≡ xdp_attached_number v };

    #[tactic(auto, unfolding(crate::specs::XdpAttachedTable::xdp_attached_number))]
    fn from(value: XdpAttached) -> u8 {
        match value {
            XdpAttached::None => 0,
            XdpAttached::Driver => 1,
            XdpAttached::SocketBuffer => 2,
            XdpAttached::Hardware => 3,
            XdpAttached::Multiple => 4,
            XdpAttached::Other(n) => n,
        }
    }
}

impl Exact for XdpAttached {
    ghost use Rattle.std.proofs.Common.{rules};

    ghost decides = { Prim.search rules };
}
