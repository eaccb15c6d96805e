//! Attributes measured and written again from payloads, with no value made: numbers, addresses and texts.

ghost use Rattle.std.specs.Prelude.{◌≡◌, ◌+◌, ◌<◌, ◌≤◌, ◌++◌, [], ◌∷◌, length};
ghost use Rattle.std.specs.Int.{w8, w16, w32, w64, to_le_bytes, from_le_bytes, cast_signed, cast_unsigned};
ghost use Rattle.std.specs.Net.Addr.{ipv6_octets};
ghost use Rattle.nla_wire.specs.Sizes.{most_payload};
ghost use Rattle.nla_wire.specs.Fields.{zero_filled};
ghost use Rattle.nla_wire.specs.Payloads.{number_of, signed_of, ipv6_address, address_of_octets, without_nul};
ghost use Rattle.nla_wire.specs.Payloads.{text};
ghost use Rattle.nla_wire.specs.Canon.{canon, Writes, Weighs};

use crate::buffer::NLA_HEADER_SIZE;
use crate::text;
use crate::write::{MOST_VALUE_LEN, finish, write_bytes, write_text, write_value};

/// The length of the number of one byte that a payload is: `None` where it has another length.
#[inline(always)]
#[tactic(auto, unfolding(crate::specs::Payloads::read_number))]
pub fn measure_u8(payload: &[u8]) -> Option<usize>
    ensures { Weighs (λ n. to_le_bytes w8 n) (λ n. length (to_le_bytes w8 n) ≤ most_payload)
        ((number_of w8).reads payload.now) result }
{
    if payload.len() == 1 { Some(1) } else { None }
}

/// The length of the number of two bytes that a payload is: `None` where it has another length.
#[inline(always)]
#[tactic(auto, unfolding(crate::specs::Payloads::read_number))]
pub fn measure_u16(payload: &[u8]) -> Option<usize>
    ensures { Weighs (λ n. to_le_bytes w16 n) (λ n. length (to_le_bytes w16 n) ≤ most_payload)
        ((number_of w16).reads payload.now) result }
{
    if payload.len() == 2 { Some(2) } else { None }
}

/// The length of the number of four bytes that a payload is: `None` where it has another length.
#[inline(always)]
#[tactic(auto, unfolding(crate::specs::Payloads::read_number))]
pub fn measure_u32(payload: &[u8]) -> Option<usize>
    ensures { Weighs (λ n. to_le_bytes w32 n) (λ n. length (to_le_bytes w32 n) ≤ most_payload)
        ((number_of w32).reads payload.now) result }
{
    if payload.len() == 4 { Some(4) } else { None }
}

/// The length of the number of eight bytes that a payload is: `None` where it has another length.
#[inline(always)]
#[tactic(auto, unfolding(crate::specs::Payloads::read_number))]
pub fn measure_u64(payload: &[u8]) -> Option<usize>
    ensures { Weighs (λ n. to_le_bytes w64 n) (λ n. length (to_le_bytes w64 n) ≤ most_payload)
        ((number_of w64).reads payload.now) result }
{
    if payload.len() == 8 { Some(8) } else { None }
}

/// The length of the signed number of four bytes that a payload is: `None` where it has another length.
#[inline(always)]
#[tactic(auto, unfolding(crate::specs::Payloads::read_number))]
pub fn measure_i32(payload: &[u8]) -> Option<usize>
    ensures { Weighs (λ z. to_le_bytes w32 (cast_unsigned w32 z))
        (λ z. length (to_le_bytes w32 (cast_unsigned w32 z)) ≤ most_payload)
        ((signed_of w32).reads payload.now) result }
{
    if payload.len() == 4 { Some(4) } else { None }
}

/// The length of the IPv6 address that a payload is: `None` where it has another length.
#[inline(always)]
#[tactic(auto, unfolding(crate::specs::Payloads::read_exactly))]
pub fn measure_ipv6_addr(payload: &[u8]) -> Option<usize>
    ensures { Weighs (λ a. ipv6_octets a) (λ a. length (ipv6_octets a) ≤ most_payload)
        (ipv6_address.reads payload.now) result }
{
    if payload.len() == 16 { Some(16) } else { None }
}

/// The length of the text that a payload is, with its NUL: `None` where it is not UTF-8, or longer than 65530 bytes.
pub fn measure_text(payload: &[u8]) -> Option<usize>
    ensures { Weighs (λ s. s ++ 0 ∷ []) (λ s. length (s ++ 0 ∷ []) ≤ most_payload)
        (text.reads payload.now) result }
{
    let text = text::without_nul(payload);
    if text.len() >= MOST_VALUE_LEN {
        return None;
    }
    if text::is_utf8(text) {
        return Some(text.len() + 1);
    }
    None
}

/// Writes the attribute of this kind with the text of a payload, which ends in one NUL.
#[inline(always)]
pub fn write_text_payload(kind: u16, payload: &[u8], out: &mut [u8]) -> usize
    requires small { length (without_nul payload.now ++ 0 ∷ []) ≤ most_payload }
    requires room { length (canon
        (record { kind = kind; payload = without_nul payload.now ++ 0 ∷ [] })) ≤ length out.old }
    ensures { Writes (canon (record { kind = kind; payload = without_nul payload.now ++ 0 ∷ [] }))
        out.old out.new result }
{
    write_text(kind, text::without_nul(payload), out)
}

/// Writes the attribute of this kind with the number of one byte that its payload is.
#[inline(always)]
pub fn write_u8_payload(kind: u16, payload: &[u8], out: &mut [u8]) -> usize
    requires exact { length payload.now ≡ 1 }
    requires room { 8 ≤ length out.old }
    ensures { Writes
        (canon (record { kind = kind; payload = to_le_bytes w8 (from_le_bytes w8 payload.now) }))
        out.old out.new result }
{
    write_value(kind, &payload[..1], out)
}

/// Writes the attribute of this kind with the number of two bytes that its payload is.
#[inline(always)]
pub fn write_u16_payload(kind: u16, payload: &[u8], out: &mut [u8]) -> usize
    requires exact { length payload.now ≡ 2 }
    requires room { 8 ≤ length out.old }
    ensures { Writes
        (canon (record { kind = kind; payload = to_le_bytes w16 (from_le_bytes w16 payload.now) }))
        out.old out.new result }
{
    write_value(kind, &payload[..2], out)
}

/// Writes the attribute of this kind with the number of four bytes that its payload is.
#[inline(always)]
pub fn write_u32_payload(kind: u16, payload: &[u8], out: &mut [u8]) -> usize
    requires exact { length payload.now ≡ 4 }
    requires room { 8 ≤ length out.old }
    ensures { Writes
        (canon (record { kind = kind; payload = to_le_bytes w32 (from_le_bytes w32 payload.now) }))
        out.old out.new result }
{
    write_value(kind, &payload[..4], out)
}

/// Writes the attribute of this kind with the number of eight bytes that its payload is.
#[inline(always)]
pub fn write_u64_payload(kind: u16, payload: &[u8], out: &mut [u8]) -> usize
    requires exact { length payload.now ≡ 8 }
    requires room { 12 ≤ length out.old }
    ensures { Writes
        (canon (record { kind = kind; payload = to_le_bytes w64 (from_le_bytes w64 payload.now) }))
        out.old out.new result }
{
    write_value(kind, &payload[..8], out)
}

/// Writes the attribute of this kind with the signed number of four bytes, in two's complement, that its payload is.
#[inline(always)]
pub fn write_i32_payload(kind: u16, payload: &[u8], out: &mut [u8]) -> usize
    requires exact { length payload.now ≡ 4 }
    requires room { 8 ≤ length out.old }
    ensures { Writes (canon (record {
      kind = kind;
      payload =
          to_le_bytes w32 (cast_unsigned w32 (cast_signed w32 (from_le_bytes w32 payload.now)));
    })) out.old out.new result }
{
    write_value(kind, &payload[..4], out)
}

/// Writes the attribute of this kind with the IPv6 address whose sixteen octets its payload is.
#[inline(always)]
pub fn write_ipv6_addr_payload(kind: u16, payload: &[u8], out: &mut [u8]) -> usize
    requires exact { length payload.now ≡ 16 }
    requires room { 20 ≤ length out.old }
    ensures { Writes
        (canon (record { kind = kind; payload = ipv6_octets (address_of_octets payload.now) }))
        out.old out.new result }
{
    write_value(kind, &payload[..16], out)
}

/// Writes a payload of fewer than `size` bytes to the front of the buffer, zeros after it up to `size`, and returns
/// `size`.
fn write_filled(payload: &[u8], size: usize, out: &mut [u8]) -> usize
    requires short { length payload.now < size }
    requires room { size ≤ length out.old }
    ensures { Writes (zero_filled size payload.now) out.old out.new result }
{
    let len = write_bytes(payload, out);
    out[len..size].fill(0);
    size
}

/// Writes the attribute of this kind with the first `size` bytes of a payload, and zeros after a shorter one.
#[inline(always)]
pub fn write_filled_payload(kind: u16, size: usize, payload: &[u8], out: &mut [u8]) -> usize
    requires small { size ≤ most_payload }
    requires room { length (canon (record { kind = kind; payload = zero_filled size payload.now }))
        ≤ length out.old }
    ensures { Writes (canon (record { kind = kind; payload = zero_filled size payload.now }))
        out.old out.new result }
{
    if size <= payload.len() {
        return write_value(kind, &payload[..size], out);
    }
    let len = write_filled(payload, size, &mut out[NLA_HEADER_SIZE..]);
    finish(out, len, kind)
}
