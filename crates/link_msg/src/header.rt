//! The header of a link message.

ghost use Rattle.std.specs.Prelude.{◌≡◌, ◌≤◌, ◌<◌, ◌++◌, length, take, drop, MatchResult};
ghost use Rattle.nla_wire.specs.Fields.{IsShort};
ghost use Rattle.nla_wire.specs.declared.error.Cause.TheVariants.{TooShort};
ghost use Rattle.link_msg.specs.Header.{header_size};

use link_vals::{AddressFamily, LinkFlags, LinkLayerType};
use nla_wire::fields::{put_bytes, put_u16, put_u32, too_short, u16_at, u32_at};
use nla_wire::{DecodeError, Exact};

/// The header of a link message, 16 bytes: `struct ifinfomsg` of linux/rtnetlink.h.
///
/// Layout: family at 0, one byte that is not read and written zero at 1, layer type (two bytes) at 2, index (four
/// bytes) at 4, flags (four bytes) at 8, mask of the flags that change (four bytes) at 12. Numbers are in host order.
#[derive(Clone, Copy, Debug, Default, PartialEq, Eq)]
pub struct LinkHeader {
    /// The address family: `AF_UNSPEC`, or the one that asks or answers.
    pub interface_family: AddressFamily,
    /// The index of the interface; 0 is none.
    pub index: u32,
    /// The type of the link layer: `ARPHRD_*` of linux/if_arp.h.
    pub link_layer_type: LinkLayerType,
    /// The flags: `IFF_*` of linux/if.h.
    pub flags: LinkFlags,
    /// Which flags are meant, in a request; which have changed, in a notification.
    pub change_mask: LinkFlags,
}

/// The bytes of a message's header.
pub const HEADER_SIZE: usize = 16;

impl Exact for LinkHeader {
    ghost use Rattle.link_vals.specs.contracts.address_family.AddressFamilyExact.TheImpl.Laws.{
      decides-law as family_exact,
    };
    ghost use Rattle.link_vals.specs.contracts.link_layer_type.LinkLayerTypeExact.TheImpl.Laws.{
      decides-law as layer_exact,
    };
    ghost use Rattle.link_vals.specs.contracts.link_flags.LinkFlagsExact.TheImpl.Laws.{decides-law as flags_exact};
    ghost use Rattle.link_msg.specs.HeaderExact.{header_decides};

    ghost decides = { header_decides _ _ _ family_exact layer_exact flags_exact };
}

/// The fault of bytes that are shorter than a header.
#[cold]
pub(crate) fn no_header(bytes: &[u8]) -> DecodeError
    ensures { result.cause ≡ TooShort (length bytes.now) header_size }
{
    too_short(bytes.len(), HEADER_SIZE).within("header")
}

impl LinkHeader {
    ghost use Rattle.link_msg.specs.Header.{header_of, header_bytes};

    /// Reads the header at the front of the bytes, or refuses with `TooShort` below 16 bytes.
    #[tactic(auto, unfolding(crate::specs::Header::header_of))]
    #[inline(always)]
    pub fn parse(bytes: &[u8]) -> Result<LinkHeader, DecodeError>
        ensures { MatchResult result (λ v. (header_size ≤ length bytes.now)
            × (v ≡ header_of bytes.now)) (IsShort bytes.now header_size) }
    {
        if bytes.len() < HEADER_SIZE {
            return Err(no_header(bytes));
        }
        Ok(LinkHeader {
            interface_family: AddressFamily::from(bytes[0]),
            index: u32_at(bytes, 4),
            link_layer_type: LinkLayerType::from(u16_at(bytes, 2)),
            flags: LinkFlags::from_bits_retain(u32_at(bytes, 8)),
            change_mask: LinkFlags::from_bits_retain(u32_at(bytes, 12)),
        })
    }

    /// The length of the header, 16 bytes.
    pub fn buffer_len(&self) -> usize
        ensures { result ≡ header_size }
    {
        HEADER_SIZE
    }

    /// Writes the header into exactly 16 bytes.
    #[tactic(auto, unfolding(crate::specs::Header::header_bytes))]
    #[inline(always)]
    fn emit_whole(&self, buffer: &mut [u8])
        requires { length buffer.old ≡ header_size }
        ensures { buffer.new ≡ header_bytes self.now }
    {
        put_bytes(buffer, 0, &[u8::from(self.interface_family), 0]);
        put_u16(buffer, 2, u16::from(self.link_layer_type));
        put_u32(buffer, 4, self.index);
        put_u32(buffer, 8, self.flags.bits());
        put_u32(buffer, 12, self.change_mask.bits());
    }

    /// Writes the header to the first 16 bytes, and keeps the rest.
    #[inline(always)]
    pub fn emit(&self, buffer: &mut [u8])
        requires { header_size ≤ length buffer.old }
        ensures { buffer.new ≡ header_bytes self.now ++ drop header_size buffer.old }
    {
        self.emit_whole(&mut buffer[..HEADER_SIZE]);
    }
}

/// The sixteen bytes of a header.
#[derive(Clone, Copy, Debug, PartialEq, Eq)]
pub struct LinkMessageBuffer {
    bytes: [u8; 16],
}

impl Exact for LinkMessageBuffer {
    ghost use Rattle.std.proofs.Common.{rules};

    ghost decides = { Prim.search rules };
}

impl From<&LinkHeader> for LinkMessageBuffer {
    ghost use Rattle.link_msg.specs.HeaderBuffer.{link_message_buffer_bytes};
    ghost use Rattle.link_msg.specs.Header.{header_bytes};

    ghost from_gives = { λ v b. link_message_buffer_bytes b ≡ header_bytes v.now };

    fn from(header: &LinkHeader) -> LinkMessageBuffer {
        let mut bytes = [0; 16];
        header.emit_whole(&mut bytes);
        LinkMessageBuffer { bytes }
    }
}

impl LinkMessageBuffer {
    ghost use Rattle.nla_wire.specs.Buffers.{after};
    ghost use Rattle.link_msg.specs.HeaderBuffer.{link_message_buffer_bytes};

    /// The bytes.
    pub fn as_bytes(&self) -> &[u8]
        ensures { result.now ≡ link_message_buffer_bytes self.now }
    {
        &self.bytes
    }

    /// The first 16 bytes as they are, and the rest, which is the part of `bytes` that begins after them; or
    /// `TooShort`.
    pub fn read_from_prefix(bytes: &[u8]) -> Result<(LinkMessageBuffer, &[u8]), DecodeError>
        ensures { MatchResult result
            (λ v. (link_message_buffer_bytes v.0 ≡ take header_size bytes.now)
            × (header_size ≤ length bytes.now) × (v.1 ≡ after header_size bytes.entry))
            (IsShort bytes.now header_size) }
    {
        if bytes.len() < HEADER_SIZE {
            return Err(no_header(bytes));
        }
        let mut front = [0; 16];
        front.copy_from_slice(&bytes[..HEADER_SIZE]);
        Ok((LinkMessageBuffer { bytes: front }, &bytes[HEADER_SIZE..]))
    }
}
