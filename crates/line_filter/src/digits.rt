//! Hexadecimal digits.

ghost use Rattle.std.specs.Prelude.{◌≡◌, ◌*◌, ◌/◌, length};
ghost use Rattle.hex.specs.Hex.{encode_lower};
ghost use Rattle.line_filter.specs.Digits.{IsTable, Spells};

use crate::lanes::{BYTES, decode_block, encode_block};

/// The value of each hexadecimal digit, and 255 for each byte that is none.
const VALUES: [u8; 256] = [
    255, 255, 255, 255, 255, 255, 255, 255, 255, 255, 255, 255, 255, 255, 255, 255, 255, 255, 255,
    255, 255, 255, 255, 255, 255, 255, 255, 255, 255, 255, 255, 255, 255, 255, 255, 255, 255, 255,
    255, 255, 255, 255, 255, 255, 255, 255, 255, 255, 0, 1, 2, 3, 4, 5, 6, 7, 8, 9, 255, 255, 255,
    255, 255, 255, 255, 10, 11, 12, 13, 14, 15, 255, 255, 255, 255, 255, 255, 255, 255, 255, 255,
    255, 255, 255, 255, 255, 255, 255, 255, 255, 255, 255, 255, 255, 255, 255, 255, 10, 11, 12, 13,
    14, 15, 255, 255, 255, 255, 255, 255, 255, 255, 255, 255, 255, 255, 255, 255, 255, 255, 255,
    255, 255, 255, 255, 255, 255, 255, 255, 255, 255, 255, 255, 255, 255, 255, 255, 255, 255, 255,
    255, 255, 255, 255, 255, 255, 255, 255, 255, 255, 255, 255, 255, 255, 255, 255, 255, 255, 255,
    255, 255, 255, 255, 255, 255, 255, 255, 255, 255, 255, 255, 255, 255, 255, 255, 255, 255, 255,
    255, 255, 255, 255, 255, 255, 255, 255, 255, 255, 255, 255, 255, 255, 255, 255, 255, 255, 255,
    255, 255, 255, 255, 255, 255, 255, 255, 255, 255, 255, 255, 255, 255, 255, 255, 255, 255, 255,
    255, 255, 255, 255, 255, 255, 255, 255, 255, 255, 255, 255, 255, 255, 255, 255, 255, 255, 255,
    255, 255, 255, 255, 255, 255, 255, 255, 255, 255, 255, 255, 255, 255, 255, 255, 255, 255, 255,
    255, 255, 255,
];

/// The table of the digits' values.
pub fn values() -> &'static [u8; 256]
    ensures { IsTable result.now }
{
    &VALUES
}

/// Reads a text of digits by a table of their values, and returns whether it is an even number of digits.
///
/// If not, nothing is said of the bytes.
pub fn decode(digits: &[u8], values: &[u8; 256], bytes: &mut [u8]) -> bool
    requires room { length bytes.old ≡ length digits.now / 2 }
    requires table { IsTable values.now }
    ensures { Spells digits.now bytes.new result }
{
    if digits.len() % 2 != 0 {
        return false;
    }
    if digits.len() >= 2 && values[digits[0] as usize] > 15 {
        return false;
    }
    let mut done = 0;
    while bytes.len() - done >= BYTES && decode_block(digits, 2 * done, bytes, done) {
        done += BYTES;
    }
    for i in done..bytes.len() {
        let high = values[digits[2 * i] as usize];
        let low = values[digits[2 * i + 1] as usize];
        if high > 15 {
            return false;
        }
        if low > 15 {
            return false;
        }
        bytes[i] = high * 16 + low;
    }
    true
}

/// The digits, in lower case.
const LOWER: [u8; 16] = *b"0123456789abcdef";

/// Writes bytes as digits in lower case, two a byte.
pub fn encode(bytes: &[u8], digits: &mut [u8])
    requires room { length digits.old ≡ 2 * length bytes.now }
    ensures { digits.new ≡ encode_lower bytes.now }
{
    let mut done = 0;
    while bytes.len() - done >= BYTES {
        encode_block(bytes, done, digits, 2 * done);
        done += BYTES;
    }
    for place in done..bytes.len() {
        digits[2 * place] = LOWER[(bytes[place] / 16) as usize];
        digits[2 * place + 1] = LOWER[(bytes[place] % 16) as usize];
    }
}
