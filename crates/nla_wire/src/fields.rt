//! Fields of fixed records: numbers at a place of a payload that has zeros after it, and numbers put at a place.

ghost use Rattle.std.specs.Prelude.{◌≡◌, ◌+◌, ◌*◌, ◌^◌, ◌<◌, ◌≤◌, ◌++◌, length, take, drop, slice_index};
ghost use Rattle.std.specs.Int.{w16, w32, w64, to_le_bytes, to_be_bytes, cast_signed, cast_unsigned};
ghost use Rattle.nla_wire.specs.Fields.{number_at, be_number_at, signed_at, le_all, le_all_signed, zero_filled};
ghost use Rattle.nla_wire.specs.declared.error.Cause.TheVariants.{TooShort};

use crate::error::{Cause, DecodeError, PAYLOAD};

/// The fault of a payload that is shorter than its record.
pub fn too_short(got: usize, need: usize) -> DecodeError
    ensures { result.cause ≡ TooShort got need }
{
    DecodeError::new(PAYLOAD, Cause::TooShort { got, need })
}

/// The byte at a place, zero past the end.
#[inline(always)]
pub fn u8_at(bytes: &[u8], place: usize) -> u8
    ensures { result ≡ slice_index bytes.now place }
{
    if place < bytes.len() { bytes[place] } else { 0 }
}

/// The number of two bytes at a place, lowest byte first, with zeros past the end.
#[inline(always)]
#[tactic(auto, unfolding(crate::specs::Fields::number_at))]
pub fn u16_at(bytes: &[u8], place: usize) -> u16
    requires { place < 2 ^ 32 }
    ensures { result ≡ number_at w16 bytes.now place }
{
    u16::from_le_bytes([u8_at(bytes, place), u8_at(bytes, place + 1)])
}

/// The number of two bytes at a place, highest byte first, with zeros past the end.
#[inline(always)]
#[tactic(auto, unfolding(crate::specs::Fields::be_number_at))]
pub fn be16_at(bytes: &[u8], place: usize) -> u16
    requires { place < 2 ^ 32 }
    ensures { result ≡ be_number_at w16 bytes.now place }
{
    u16::from_be_bytes([u8_at(bytes, place), u8_at(bytes, place + 1)])
}

/// The number of four bytes at a place whose end the payload has not.
#[cold]
#[tactic(auto, unfolding(crate::specs::Fields::number_at))]
fn u32_near_end(bytes: &[u8], place: usize) -> u32
    requires { place < 2 ^ 32 }
    ensures { result ≡ number_at w32 bytes.now place }
{
    u32::from_le_bytes([
        u8_at(bytes, place),
        u8_at(bytes, place + 1),
        u8_at(bytes, place + 2),
        u8_at(bytes, place + 3),
    ])
}

/// The number of four bytes at a place, lowest byte first, with zeros past the end.
#[inline(always)]
#[tactic(auto, unfolding(crate::specs::Fields::number_at))]
pub fn u32_at(bytes: &[u8], place: usize) -> u32
    requires { place < 2 ^ 32 }
    ensures { result ≡ number_at w32 bytes.now place }
{
    if bytes.len() < place + 4 {
        return u32_near_end(bytes, place);
    }
    u32::from_le_bytes([
        bytes[place],
        bytes[place + 1],
        bytes[place + 2],
        bytes[place + 3],
    ])
}

/// The number of eight bytes at a place whose end the payload has not.
#[cold]
#[tactic(auto, unfolding(crate::specs::Fields::number_at))]
fn u64_near_end(bytes: &[u8], place: usize) -> u64
    requires { place < 2 ^ 32 }
    ensures { result ≡ number_at w64 bytes.now place }
{
    u64::from_le_bytes([
        u8_at(bytes, place),
        u8_at(bytes, place + 1),
        u8_at(bytes, place + 2),
        u8_at(bytes, place + 3),
        u8_at(bytes, place + 4),
        u8_at(bytes, place + 5),
        u8_at(bytes, place + 6),
        u8_at(bytes, place + 7),
    ])
}

/// The number of eight bytes at a place, lowest byte first, with zeros past the end.
#[inline(always)]
#[tactic(auto, unfolding(crate::specs::Fields::number_at))]
pub fn u64_at(bytes: &[u8], place: usize) -> u64
    requires { place < 2 ^ 32 }
    ensures { result ≡ number_at w64 bytes.now place }
{
    if bytes.len() < place + 8 {
        return u64_near_end(bytes, place);
    }
    u64::from_le_bytes([
        bytes[place],
        bytes[place + 1],
        bytes[place + 2],
        bytes[place + 3],
        bytes[place + 4],
        bytes[place + 5],
        bytes[place + 6],
        bytes[place + 7],
    ])
}

/// The signed number of four bytes at a place, in two's complement, with zeros past the end.
#[inline(always)]
pub fn i32_at(bytes: &[u8], place: usize) -> i32
    requires { place < 2 ^ 32 }
    ensures value { result ≡ signed_at w32 bytes.now place }
    ensures passed { cast_signed w32 (cast_unsigned w32 result) ≡ signed_at w32 bytes.now place }
{
    u32_at(bytes, place).cast_signed()
}

/// The signed number of eight bytes at a place, in two's complement, with zeros past the end.
#[inline(always)]
pub fn i64_at(bytes: &[u8], place: usize) -> i64
    requires { place < 2 ^ 32 }
    ensures value { result ≡ signed_at w64 bytes.now place }
    ensures passed { cast_signed w64 (cast_unsigned w64 result) ≡ signed_at w64 bytes.now place }
{
    u64_at(bytes, place).cast_signed()
}

/// The first 32 bytes, with zeros after them where there are fewer.
#[inline(always)]
#[tactic(auto, unfolding(crate::specs::Fields::zero_filled))]
pub fn zero_filled_32(bytes: &[u8]) -> [u8; 32]
    ensures { result ≡ zero_filled 32 bytes.now }
{
    let mut found = [0; 32];
    let len = bytes.len().min(32);
    found[..len].copy_from_slice(&bytes[..len]);
    found
}

/// The 32 bytes at a place, with zeros past the end.
#[inline(always)]
pub fn bytes_32_at(bytes: &[u8], place: usize) -> [u8; 32]
    ensures { result ≡ zero_filled 32 (drop place bytes.now) }
{
    zero_filled_32(&bytes[place.min(bytes.len())..])
}

/// Puts bytes at a place, and keeps the rest.
pub fn put_bytes(buffer: &mut [u8], place: usize, bytes: &[u8])
    requires { place + length bytes.now ≤ length buffer.old }
    ensures after { buffer.new
        ≡ take place buffer.old ++ bytes.now ++ drop (place + length bytes.now) buffer.old }
    ensures front { take (place + length bytes.now) buffer.new
        ≡ take place buffer.old ++ bytes.now }
{
    buffer[place..place + bytes.len()].copy_from_slice(bytes);
}

/// Puts a number of two bytes at a place, lowest byte first, and keeps the rest.
pub fn put_u16(buffer: &mut [u8], place: usize, value: u16)
    requires { place + 2 ≤ length buffer.old }
    ensures after { buffer.new
        ≡ take place buffer.old ++ to_le_bytes w16 value ++ drop (place + 2) buffer.old }
    ensures front { take (place + 2) buffer.new ≡ take place buffer.old ++ to_le_bytes w16 value }
{
    buffer[place..place + 2].copy_from_slice(&value.to_le_bytes());
}

/// Puts a number of two bytes at a place, highest byte first, and keeps the rest.
pub fn put_be16(buffer: &mut [u8], place: usize, value: u16)
    requires { place + 2 ≤ length buffer.old }
    ensures after { buffer.new
        ≡ take place buffer.old ++ to_be_bytes w16 value ++ drop (place + 2) buffer.old }
    ensures front { take (place + 2) buffer.new ≡ take place buffer.old ++ to_be_bytes w16 value }
{
    buffer[place..place + 2].copy_from_slice(&value.to_be_bytes());
}

/// Puts a number of four bytes at a place, lowest byte first, and keeps the rest.
pub fn put_u32(buffer: &mut [u8], place: usize, value: u32)
    requires { place + 4 ≤ length buffer.old }
    ensures after { buffer.new
        ≡ take place buffer.old ++ to_le_bytes w32 value ++ drop (place + 4) buffer.old }
    ensures front { take (place + 4) buffer.new ≡ take place buffer.old ++ to_le_bytes w32 value }
{
    buffer[place..place + 4].copy_from_slice(&value.to_le_bytes());
}

/// Puts a number of eight bytes at a place, lowest byte first, and keeps the rest.
pub fn put_u64(buffer: &mut [u8], place: usize, value: u64)
    requires { place + 8 ≤ length buffer.old }
    ensures after { buffer.new
        ≡ take place buffer.old ++ to_le_bytes w64 value ++ drop (place + 8) buffer.old }
    ensures front { take (place + 8) buffer.new ≡ take place buffer.old ++ to_le_bytes w64 value }
{
    buffer[place..place + 8].copy_from_slice(&value.to_le_bytes());
}

/// Puts a signed number of four bytes at a place, in two's complement, and keeps the rest.
pub fn put_i32(buffer: &mut [u8], place: usize, value: i32)
    requires { place + 4 ≤ length buffer.old }
    ensures after { buffer.new ≡ take place buffer.old ++ to_le_bytes w32 (cast_unsigned w32 value)
        ++ drop (place + 4) buffer.old }
    ensures front { take (place + 4) buffer.new
        ≡ take place buffer.old ++ to_le_bytes w32 (cast_unsigned w32 value) }
{
    put_u32(buffer, place, value.cast_unsigned());
}

/// Puts a signed number of eight bytes at a place, in two's complement, and keeps the rest.
pub fn put_i64(buffer: &mut [u8], place: usize, value: i64)
    requires { place + 8 ≤ length buffer.old }
    ensures after { buffer.new ≡ take place buffer.old ++ to_le_bytes w64 (cast_unsigned w64 value)
        ++ drop (place + 8) buffer.old }
    ensures front { take (place + 8) buffer.new
        ≡ take place buffer.old ++ to_le_bytes w64 (cast_unsigned w64 value) }
{
    put_u64(buffer, place, value.cast_unsigned());
}

/// Writes all the numbers, four bytes each, lowest byte first.
pub fn put_u32s(buffer: &mut [u8], words: &[u32])
    requires { length buffer.old ≡ 4 * length words.now }
    ensures { buffer.new ≡ le_all w32 words.now }
{
    for (i, word) in words.iter().enumerate() {
        put_u32(buffer, 4 * i, *word);
    }
}

/// Writes all the numbers, eight bytes each, lowest byte first.
pub fn put_u64s(buffer: &mut [u8], words: &[u64])
    requires { length buffer.old ≡ 8 * length words.now }
    ensures { buffer.new ≡ le_all w64 words.now }
{
    for (i, word) in words.iter().enumerate() {
        put_u64(buffer, 8 * i, *word);
    }
}

/// Writes all the signed numbers, four bytes each, in two's complement, lowest byte first.
pub fn put_i32s(buffer: &mut [u8], words: &[i32])
    requires { length buffer.old ≡ 4 * length words.now }
    ensures { buffer.new ≡ le_all_signed w32 words.now }
{
    for (i, word) in words.iter().enumerate() {
        put_i32(buffer, 4 * i, *word);
    }
}

/// Writes all the signed numbers, eight bytes each, in two's complement, lowest byte first.
pub fn put_i64s(buffer: &mut [u8], words: &[i64])
    requires { length buffer.old ≡ 8 * length words.now }
    ensures { buffer.new ≡ le_all_signed w64 words.now }
{
    for (i, word) in words.iter().enumerate() {
        put_i64(buffer, 8 * i, *word);
    }
}
