//! Numbers and addresses as whole payloads, and numbers written to the front of a buffer.

ghost use Rattle.std.specs.Prelude.{◌≡◌, ◌^◌, ◌<◌, ◌≤◌, ◌++◌, length, drop, MatchResult};
ghost use Rattle.std.specs.Int.{w8, w16, w32, w64, to_le_bytes, cast_unsigned};
ghost use Rattle.nla_wire.specs.Payloads.{number_of, signed_of, ipv6_address};
ghost use Rattle.nla_wire.specs.Gives.{without_place};
ghost use Rattle.nla_wire.specs.declared.error.Cause.TheVariants.{WrongLength};

use crate::error::{Cause, DecodeError, PAYLOAD};
use std::net::Ipv6Addr;

/// The number as two bytes: what the proof carries, that it fits, stands here alone.
#[inline(always)]
pub fn to_u16(number: usize) -> u16
    requires { number < 2 ^ 16 }
    ensures { result ≡ number }
{
    number as u16
}

fn wrong_length(bytes: &[u8], want: usize) -> DecodeError
    ensures { result.cause ≡ WrongLength (length bytes.now) want }
{
    DecodeError::new(
        PAYLOAD,
        Cause::WrongLength {
            got: bytes.len(),
            want,
        },
    )
}

/// Reads a number of one byte, or refuses with `WrongLength`.
#[tactic(auto, unfolding(crate::specs::Payloads::read_number))]
pub fn parse_u8(bytes: &[u8]) -> Result<u8, DecodeError>
    ensures means { MatchResult result ((number_of w8).means bytes.now)
        (λ e. (number_of w8).bad bytes.now e.cause) }
    ensures reads { without_place result ≡ (number_of w8).reads bytes.now }
{
    match bytes {
        [a] => Ok(*a),
        _ => Err(wrong_length(bytes, 1)),
    }
}

/// Reads a number of two bytes in host order, lowest byte first, or refuses with `WrongLength`.
#[tactic(auto, unfolding(crate::specs::Payloads::read_number))]
pub fn parse_u16(bytes: &[u8]) -> Result<u16, DecodeError>
    ensures means { MatchResult result ((number_of w16).means bytes.now)
        (λ e. (number_of w16).bad bytes.now e.cause) }
    ensures reads { without_place result ≡ (number_of w16).reads bytes.now }
{
    if bytes.len() != 2 {
        return Err(wrong_length(bytes, 2));
    }
    Ok(u16::from_le_bytes([bytes[0], bytes[1]]))
}

/// Reads a number of four bytes in host order, or refuses with `WrongLength`.
#[tactic(auto, unfolding(crate::specs::Payloads::read_number))]
pub fn parse_u32(bytes: &[u8]) -> Result<u32, DecodeError>
    ensures means { MatchResult result ((number_of w32).means bytes.now)
        (λ e. (number_of w32).bad bytes.now e.cause) }
    ensures reads { without_place result ≡ (number_of w32).reads bytes.now }
{
    if bytes.len() != 4 {
        return Err(wrong_length(bytes, 4));
    }
    Ok(u32::from_le_bytes([bytes[0], bytes[1], bytes[2], bytes[3]]))
}

/// Reads a number of eight bytes in host order, or refuses with `WrongLength`.
#[tactic(auto, unfolding(crate::specs::Payloads::read_number))]
pub fn parse_u64(bytes: &[u8]) -> Result<u64, DecodeError>
    ensures means { MatchResult result ((number_of w64).means bytes.now)
        (λ e. (number_of w64).bad bytes.now e.cause) }
    ensures reads { without_place result ≡ (number_of w64).reads bytes.now }
{
    if bytes.len() != 8 {
        return Err(wrong_length(bytes, 8));
    }
    Ok(u64::from_le_bytes([
        bytes[0], bytes[1], bytes[2], bytes[3], bytes[4], bytes[5], bytes[6], bytes[7],
    ]))
}

/// Reads a signed number of four bytes in host order, in two's complement, or refuses with `WrongLength`.
#[tactic(auto, unfolding(crate::specs::Payloads::read_number))]
pub fn parse_i32(bytes: &[u8]) -> Result<i32, DecodeError>
    ensures means { MatchResult result ((signed_of w32).means bytes.now)
        (λ e. (signed_of w32).bad bytes.now e.cause) }
    ensures reads { without_place result ≡ (signed_of w32).reads bytes.now }
{
    if bytes.len() != 4 {
        return Err(wrong_length(bytes, 4));
    }
    Ok(i32::from_le_bytes([bytes[0], bytes[1], bytes[2], bytes[3]]))
}

/// Reads an IPv6 address, its sixteen octets in order, or refuses with `WrongLength`.
#[tactic(auto, unfolding(crate::specs::Payloads::read_exactly))]
pub fn parse_ipv6_addr(bytes: &[u8]) -> Result<Ipv6Addr, DecodeError>
    ensures means { MatchResult result (ipv6_address.means bytes.now)
        (λ e. ipv6_address.bad bytes.now e.cause) }
    ensures reads { without_place result ≡ ipv6_address.reads bytes.now }
{
    if bytes.len() != 16 {
        return Err(wrong_length(bytes, 16));
    }
    let mut octets = [0; 16];
    octets.copy_from_slice(bytes);
    Ok(Ipv6Addr::from_octets(octets))
}

/// Writes a number to the first two bytes, and keeps the rest.
pub fn emit_u16(buffer: &mut [u8], value: u16)
    requires { 2 ≤ length buffer.old }
    ensures { buffer.new ≡ to_le_bytes w16 value ++ drop 2 buffer.old }
{
    buffer[..2].copy_from_slice(&value.to_le_bytes());
}

/// Writes a number to the first four bytes, and keeps the rest.
pub fn emit_u32(buffer: &mut [u8], value: u32)
    requires { 4 ≤ length buffer.old }
    ensures { buffer.new ≡ to_le_bytes w32 value ++ drop 4 buffer.old }
{
    buffer[..4].copy_from_slice(&value.to_le_bytes());
}

/// Writes a number to the first eight bytes, and keeps the rest.
pub fn emit_u64(buffer: &mut [u8], value: u64)
    requires { 8 ≤ length buffer.old }
    ensures { buffer.new ≡ to_le_bytes w64 value ++ drop 8 buffer.old }
{
    buffer[..8].copy_from_slice(&value.to_le_bytes());
}

/// Writes a signed number to the first four bytes, in two's complement, and keeps the rest.
pub fn emit_i32(buffer: &mut [u8], value: i32)
    requires { 4 ≤ length buffer.old }
    ensures { buffer.new ≡ to_le_bytes w32 (cast_unsigned w32 value) ++ drop 4 buffer.old }
{
    buffer[..4].copy_from_slice(&value.to_le_bytes());
}
