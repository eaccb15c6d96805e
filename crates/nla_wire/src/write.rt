//! Attributes written to the front of a buffer: a header, a value, and its padding.

ghost use Rattle.std.specs.Prelude.{◌≡◌, ◌+◌, ◌^◌, ◌<◌, ◌≤◌, ◌++◌, [], ◌∷◌, length, take, drop, replicate};
ghost use Rattle.std.specs.Option.{SomeIff};
ghost use Rattle.std.specs.Int.{w8, w16, w32, w64, to_le_bytes, cast_unsigned};
ghost use Rattle.nla_wire.specs.Sizes.{most_payload};
ghost use Rattle.nla_wire.specs.Frames.{missing};
ghost use Rattle.nla_wire.specs.Canon.{canon, Measures, Writes};

use crate::buffer::NLA_HEADER_SIZE;
use crate::number::to_u16;

/// The most bytes that the value of an attribute has: its length field of two bytes counts the header too.
pub const MOST_VALUE_LEN: usize = 65531;

/// A length that the value of an attribute may have, or `None`.
#[inline(always)]
pub fn at_most_value(len: usize) -> Option<usize>
    ensures { Measures (len ≤ most_payload) len result }
{
    if len <= MOST_VALUE_LEN {
        Some(len)
    } else {
        None
    }
}

/// A length rounded up to a multiple of four, at which each frame starts (`NLA_ALIGN` of linux/netlink.h).
#[inline(always)]
pub fn nla_align(len: usize) -> usize
    requires { len + 3 < 2 ^ 64 }
    ensures { result ≡ len + missing len }
{
    (len + 3) / 4 * 4
}

/// The length of an attribute whose value has so many bytes: with its header and its padding.
#[inline(always)]
pub fn padded_len(value_len: usize) -> usize
    requires { value_len ≤ most_payload }
    ensures { result ≡ 4 + value_len + missing value_len }
{
    NLA_HEADER_SIZE + nla_align(value_len)
}

/// The sum of two lengths, or `None` where it is no `usize`, which its carry tells.
#[inline(always)]
pub fn add_len(len: usize, more: usize) -> Option<usize>
    ensures { SomeIff result (len + more < 2 ^ 64) (len + more) }
{
    let sum = len.wrapping_add(more);
    if sum < len { None } else { Some(sum) }
}

/// Writes the header of a frame to the first four bytes, and keeps the rest.
#[inline(always)]
pub(crate) fn write_header(out: &mut [u8], len: u16, kind: u16)
    requires { 4 ≤ length out.old }
    ensures { out.new ≡ to_le_bytes w16 len ++ to_le_bytes w16 kind ++ drop 4 out.old }
{
    out[..2].copy_from_slice(&len.to_le_bytes());
    out[2..4].copy_from_slice(&kind.to_le_bytes());
}

/// Clears at most three bytes, by a store each.
#[inline(always)]
fn clear(padding: &mut [u8])
    requires { length padding.old ≤ 3 }
    ensures { padding.new ≡ replicate (length padding.old) 0 }
{
    match padding.len() {
        1 => padding[0] = 0,
        2 => {
            padding[0] = 0;
            padding[1] = 0;
        }
        3 => {
            padding[0] = 0;
            padding[1] = 0;
            padding[2] = 0;
        }
        _ => {}
    }
}

/// Makes a frame of this kind of the value that stands after the four bytes of its header: writes the header before it
/// and the padding after it, and returns the length with both. The rest of the buffer is kept.
#[inline(always)]
pub fn finish(out: &mut [u8], len: usize, kind: u16) -> usize
    requires small { len ≤ most_payload }
    requires room { 4 + len + missing len ≤ length out.old }
    ensures { Writes (canon (record { kind = kind; payload = take len (drop 4 out.old) })) out.old
        out.new result }
{
    let end = NLA_HEADER_SIZE + len;
    let padded = nla_align(end);
    write_header(out, to_u16(end), kind);
    clear(&mut out[end..padded]);
    padded
}

/// Writes bytes to the front of the buffer, and returns their number.
#[inline(always)]
pub fn write_bytes(bytes: &[u8], out: &mut [u8]) -> usize
    requires { length bytes.now ≤ length out.old }
    ensures { Writes bytes.now out.old out.new result }
{
    out[..bytes.len()].copy_from_slice(bytes);
    bytes.len()
}

/// Writes the attribute of this kind and value to the front of the buffer, and returns its length with padding. The
/// rest of the buffer is kept.
#[inline(always)]
pub fn write_value(kind: u16, value: &[u8], out: &mut [u8]) -> usize
    requires small { length value.now ≤ most_payload }
    requires room { length (canon (record { kind = kind; payload = value.now })) ≤ length out.old }
    ensures { Writes (canon (record { kind = kind; payload = value.now })) out.old out.new result }
{
    let len = write_bytes(value, &mut out[NLA_HEADER_SIZE..]);
    finish(out, len, kind)
}

/// Writes bytes to the front of the buffer as their first and their last `half` bytes, which meet or overlap.
#[inline(always)]
fn write_ends(bytes: &[u8], half: usize, out: &mut [u8])
    requires some { half ≤ length bytes.now }
    requires all { length bytes.now ≤ half + half }
    requires room { length bytes.now ≤ length out.old }
    ensures { out.new ≡ bytes.now ++ drop (length bytes.now) out.old }
{
    let last = bytes.len() - half;
    out[..half].copy_from_slice(&bytes[..half]);
    out[last..bytes.len()].copy_from_slice(&bytes[last..]);
}

/// Writes the bytes of a text, and returns their number. Most names are short, and are two words that overlap.
#[inline(always)]
fn write_name(bytes: &[u8], out: &mut [u8]) -> usize
    requires { length bytes.now ≤ length out.old }
    ensures { Writes bytes.now out.old out.new result }
{
    let len = bytes.len();
    match len {
        4..=7 => write_ends(bytes, 4, out),
        8..=16 => write_ends(bytes, 8, out),
        _ => return write_bytes(bytes, out),
    }
    len
}

/// Writes bytes and one NUL after them to the front of the buffer, and returns their number.
#[inline(always)]
fn write_terminated(bytes: &[u8], out: &mut [u8]) -> usize
    requires { length bytes.now + 1 ≤ length out.old }
    ensures { Writes (bytes.now ++ 0 ∷ []) out.old out.new result }
{
    let len = write_name(bytes, out);
    out[len] = 0;
    len + 1
}

/// Writes the attribute of this kind with these bytes of a text, and one NUL after them.
#[inline(always)]
pub fn write_text(kind: u16, text: &[u8], out: &mut [u8]) -> usize
    requires small { length (text.now ++ 0 ∷ []) ≤ most_payload }
    requires room { length (canon (record { kind = kind; payload = text.now ++ 0 ∷ [] }))
        ≤ length out.old }
    ensures { Writes (canon (record { kind = kind; payload = text.now ++ 0 ∷ [] })) out.old
        out.new result }
{
    let len = write_terminated(text, &mut out[NLA_HEADER_SIZE..]);
    finish(out, len, kind)
}

/// Writes the attribute of this kind with a number of one byte.
#[inline(always)]
pub fn write_u8(kind: u16, value: u8, out: &mut [u8]) -> usize
    requires { 8 ≤ length out.old }
    ensures { Writes (canon (record { kind = kind; payload = to_le_bytes w8 value })) out.old
        out.new result }
{
    write_value(kind, &[value], out)
}

/// Writes the attribute of this kind with a number of two bytes, lowest byte first.
#[inline(always)]
pub fn write_u16(kind: u16, value: u16, out: &mut [u8]) -> usize
    requires { 8 ≤ length out.old }
    ensures { Writes (canon (record { kind = kind; payload = to_le_bytes w16 value })) out.old
        out.new result }
{
    write_value(kind, &value.to_le_bytes(), out)
}

/// Writes the attribute of this kind with a number of four bytes, lowest byte first.
#[inline(always)]
pub fn write_u32(kind: u16, value: u32, out: &mut [u8]) -> usize
    requires { 8 ≤ length out.old }
    ensures { Writes (canon (record { kind = kind; payload = to_le_bytes w32 value })) out.old
        out.new result }
{
    write_value(kind, &value.to_le_bytes(), out)
}

/// Writes the attribute of this kind with a number of eight bytes, lowest byte first.
#[inline(always)]
pub fn write_u64(kind: u16, value: u64, out: &mut [u8]) -> usize
    requires { 12 ≤ length out.old }
    ensures { Writes (canon (record { kind = kind; payload = to_le_bytes w64 value })) out.old
        out.new result }
{
    write_value(kind, &value.to_le_bytes(), out)
}

/// Writes the attribute of this kind with a signed number of four bytes, in two's complement.
#[inline(always)]
pub fn write_i32(kind: u16, value: i32, out: &mut [u8]) -> usize
    requires { 8 ≤ length out.old }
    ensures { Writes
        (canon (record { kind = kind; payload = to_le_bytes w32 (cast_unsigned w32 value) }))
        out.old out.new result }
{
    write_value(kind, &value.to_le_bytes(), out)
}
