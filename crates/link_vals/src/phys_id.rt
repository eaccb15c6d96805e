//! Physical ids of ports and switches.

ghost use Rattle.std.specs.Prelude.{◌≡◌, ◌≤◌, ◌↔◌, ◌++◌, length, drop, Ok, IsTrue};
ghost use Rattle.link_vals.specs.LinkPhysIdBytes.{phys_id_of, phys_id_bytes};

use nla_wire::fields::{put_bytes, zero_filled_32};
use nla_wire::{DecodeError, Exact};

/// The physical id of a port or a switch, as `IFLA_PHYS_PORT_ID` and `IFLA_PHYS_SWITCH_ID` of linux/if_link.h carry it:
/// at most 32 bytes.
///
/// The bytes of `id` from `len` on are no part of it.
#[derive(Clone, Copy, Debug, PartialEq, Eq)]
pub struct LinkPhysId {
    /// The bytes, and zeros after them.
    pub id: [u8; 32],
    /// How many bytes it has, at most 32.
    pub len: usize,
}

impl LinkPhysId {
    /// Reads the first 32 bytes of a payload, with zeros after them where there are fewer, and how many there were. It
    /// never fails.
    #[tactic(auto, unfolding(crate::specs::LinkPhysIdBytes::phys_id_of))]
    pub fn parse(payload: &[u8]) -> Result<LinkPhysId, DecodeError>
        ensures { result ≡ Ok (phys_id_of payload.now) }
    {
        Ok(LinkPhysId {
            id: zero_filled_32(payload),
            len: payload.len().min(32),
        })
    }

    /// Whether `len` is at most 32, so that the id can be written.
    pub fn fits(&self) -> bool
        ensures { IsTrue result ↔ (self.now.len ≤ 32) }
    {
        self.len <= 32
    }

    /// The length of its text, which is `len`.
    pub fn buffer_len(&self) -> usize
        ensures { result ≡ self.now.len }
    {
        self.len
    }

    /// Writes the first `len` bytes of the id to the front of the buffer, and keeps the rest.
    pub fn emit(&self, buffer: &mut [u8])
        requires fits { self.now.len ≤ 32 }
        requires room { self.now.len ≤ length buffer.old }
        ensures { buffer.new ≡ phys_id_bytes self.now ++ drop self.now.len buffer.old }
    {
        put_bytes(buffer, 0, &self.id[..self.len]);
    }
}

impl Exact for LinkPhysId {
    ghost use Rattle.std.proofs.Common.{rules};

    ghost decides = { Prim.search rules };
}
