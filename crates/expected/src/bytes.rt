//! Bytes and buffers, and what a read is refused for.

ghost use Rattle.std.specs.Prelude.{◌≡◌, length, IfOk};

use nla_wire::{Bytes, Cause, DecodeError, DefaultNla, NLA_F_NESTED, Text};
use std::alloc::{AllocError, Global};

/// The bytes of an attribute of IPv4 settings, as it is written: 34 numbers of four bytes after the header.
pub const SETTINGS: usize = 140;

/// The bytes of an attribute of IPv6 counters, as it is written: 39 numbers of eight bytes after the header.
pub const COUNTERS: usize = 316;

/// The bytes of buffer for each byte that is read that are room for any text: a header alone may be written as a frame
/// of the longest record.
pub const GROWTH: usize = 79;

/// Bytes with zeros after them.
pub fn zeros_after<const N: usize>(bytes: &[u8]) -> [u8; N] {
    let mut text = [0; N];
    for (place, byte) in text.iter_mut().zip(bytes) {
        *place = *byte;
    }
    text
}

/// A buffer of this byte, so many times. Of its bytes no test has to know more than how many they are.
pub fn filled(alloc: Global, byte: u8, count: usize) -> Result<Vec<u8>, AllocError>
    ensures { IfOk result (λ v. length v.items ≡ count) }
{
    vec![in alloc; byte; count]
}

/// A text of these letters. What it holds is looked at when the test runs.
pub fn text_from(alloc: Global, letters: &str) -> Result<Text, DecodeError> {
    Text::from_str(alloc, letters)
}

/// These bytes as a value.
pub fn bytes_from(alloc: Global, bytes: &[u8]) -> Result<Bytes, DecodeError> {
    Bytes::from_slice(alloc, bytes)
}

/// These bytes in memory of their own.
pub fn vec_from(alloc: Global, bytes: &[u8]) -> Result<Vec<u8>, AllocError> {
    Vec::from_slice(alloc, bytes)
}

/// Whether the bytes are these.
pub fn equal(bytes: &[u8], wanted: &[u8]) -> bool {
    bytes == wanted
}

/// Whether this text was written to the front of a buffer of 255, whose other bytes are kept.
pub fn is_stored(len: usize, out: &[u8], text: &[u8]) -> bool {
    len == text.len() && out.starts_with(text) && out.iter().skip(len).all(|byte| *byte == 255)
}

/// What a read is refused for, or nothing.
pub fn cause_of<T: Drop>(read: Result<T, DecodeError>) -> Option<Cause> {
    read.err().map(|error| error.cause)
}

/// An attribute that is kept as it is.
pub fn kept(alloc: Global, kind: u16, value: &[u8]) -> Result<DefaultNla, AllocError> {
    Ok(DefaultNla::new(kind, Vec::from_slice(alloc, value)?))
}

/// An attribute that is kept, with this byte of payload.
pub fn kept_byte(alloc: Global, byte: u8) -> Result<DefaultNla, AllocError> {
    kept(alloc, 99 | NLA_F_NESTED, &[byte])
}
