//! Hexadecimal digits, many at a time.

ghost use Rattle.std.specs.Prelude.{◌≡◌, ◌+◌, ◌<◌, ◌≤◌, ℕ, length, slice_index};
ghost use Rattle.std.specs.Bool.{OnTrue, OnFalse};
ghost use Rattle.line_filter.specs.Lanes.{Reads, Spelled, Decoded, Encoded};

use std::simd::prelude::*;

/// How many bytes a block has.
pub(crate) const BYTES: usize = 16;

/// Where the first digit of each byte stands.
const HIGH: [usize; 16] = [0, 2, 4, 6, 8, 10, 12, 14, 16, 18, 20, 22, 24, 26, 28, 30];

/// Where the second digit of each byte stands.
const LOW: [usize; 16] = [1, 3, 5, 7, 9, 11, 13, 15, 17, 19, 21, 23, 25, 27, 29, 31];

/// The value of each digit, and a number above 15 for each byte that is none.
#[inline(always)]
fn values_of(digits: u8x32) -> u8x32
    ensures { Reads 32 digits result }
{
    let from_zero = digits - u8x32::splat(b'0');
    let from_a = (digits | u8x32::splat(0x20)) - u8x32::splat(b'a');
    let letters = from_a
        .simd_lt(u8x32::splat(6))
        .select(from_a + u8x32::splat(10), u8x32::splat(255));
    from_zero
        .simd_lt(u8x32::splat(10))
        .select(from_zero, letters)
}

/// The digit of each value below 16.
#[inline(always)]
fn digits_of(values: u8x16) -> u8x16
    requires { (k : ℕ) → k < 16 → slice_index values k < 16 }
    ensures { Spelled 16 values result }
{
    values
        .simd_lt(u8x16::splat(10))
        .select(u8x16::splat(b'0'), u8x16::splat(b'a' - 10))
        + values
}

/// Whether all lanes are below 16.
#[inline(always)]
fn are_digits(values: u8x32) -> bool
    ensures { OnTrue result ((k : ℕ) → k < 32 → slice_index values k < 16) }
{
    values.simd_ge(u8x32::splat(16)).to_bitmask() == 0
}

/// Reads the digits of a block from one place on, and puts its bytes to another; returns whether all are digits.
///
/// If not, the bytes stay as they are.
#[inline(always)]
pub(crate) fn decode_block(digits: &[u8], at: usize, bytes: &mut [u8], to: usize) -> bool
    requires from { at + 32 ≤ length digits.now }
    requires to { to + 16 ≤ length bytes.old }
    ensures read { OnTrue result (Decoded digits.now at bytes.old bytes.new to) }
    ensures kept { OnFalse result (bytes.new ≡ bytes.old) }
{
    let values = values_of(u8x32::from_slice(&digits[at..]));
    if !are_digits(values) {
        return false;
    }
    let high = values.swizzle(HIGH);
    let low = values.swizzle(LOW);
    ((high << u8x16::splat(4)) | low).copy_to_slice(&mut bytes[to..]);
    true
}

/// Puts the digits of a block of bytes from one place on to another.
#[inline(always)]
pub(crate) fn encode_block(bytes: &[u8], at: usize, digits: &mut [u8], to: usize)
    requires from { at + 16 ≤ length bytes.now }
    requires to { to + 32 ≤ length digits.old }
    ensures { Encoded bytes.now at digits.old digits.new to }
{
    let values = u8x16::from_slice(&bytes[at..]);
    let high = digits_of(values >> u8x16::splat(4));
    let low = digits_of(values & u8x16::splat(15));
    let (front, back) = high.interleave(low);
    front.copy_to_slice(&mut digits[to..]);
    back.copy_to_slice(&mut digits[to + 16..]);
}
