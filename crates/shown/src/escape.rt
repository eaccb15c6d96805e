//! Texts that are stored with the escapes that they need.
//!
//! An escape is made in six bytes, of which some count, as by the writer of the toolchain's crate `json`. Here all six
//! are stored. Characters have escapes too that show nothing, or that turn what stands beside them.

ghost use Rattle.std.specs.Prelude.{◌≡◌, ◌+◌, ◌-◌, ◌<◌, ◌≤◌, ◌*◌, ◌==◌, ◌||◌, length, take, drop, not, true};
ghost use Rattle.std.specs.Prelude.{slice_index};
ghost use Rattle.std.specs.Char.{digit_char};
ghost use Rattle.shown.specs.Print.{escape_byte};
ghost use Rattle.shown.specs.Escapes.{Escaped, may_escape};
ghost use Rattle.shown.specs.Print.{bytes_behind, escape_first, unicode_escape, unseen, unseen_in};

use crate::block::{are_seen, put_byte, put_exactly, put_plain};

/// The escape of each byte below a blank, at the front of six bytes, and its length.
const CONTROLS: [([u8; 6], usize); 32] = [
    (*b"\\u0000", 6),
    (*b"\\u0001", 6),
    (*b"\\u0002", 6),
    (*b"\\u0003", 6),
    (*b"\\u0004", 6),
    (*b"\\u0005", 6),
    (*b"\\u0006", 6),
    (*b"\\u0007", 6),
    (*b"\\b\0\0\0\0", 2),
    (*b"\\t\0\0\0\0", 2),
    (*b"\\n\0\0\0\0", 2),
    (*b"\\u000b", 6),
    (*b"\\f\0\0\0\0", 2),
    (*b"\\r\0\0\0\0", 2),
    (*b"\\u000e", 6),
    (*b"\\u000f", 6),
    (*b"\\u0010", 6),
    (*b"\\u0011", 6),
    (*b"\\u0012", 6),
    (*b"\\u0013", 6),
    (*b"\\u0014", 6),
    (*b"\\u0015", 6),
    (*b"\\u0016", 6),
    (*b"\\u0017", 6),
    (*b"\\u0018", 6),
    (*b"\\u0019", 6),
    (*b"\\u001a", 6),
    (*b"\\u001b", 6),
    (*b"\\u001c", 6),
    (*b"\\u001d", 6),
    (*b"\\u001e", 6),
    (*b"\\u001f", 6),
];

/// The digit of a value below 16.
#[inline(always)]
fn digit(value: u16) -> u8
    requires { value < 16 }
    ensures { result ≡ digit_char value }
{
    match value {
        0..10 => b'0' + value as u8,
        _ => b'a' + (value - 10) as u8,
    }
}

/// The escape of a byte, or the byte where it needs none, at the front of six bytes, and its length.
#[inline(always)]
fn escape_of(byte: u8) -> ([u8; 6], usize)
    ensures value { take result.1 result.0 ≡ escape_byte byte }
    ensures bound { result.1 ≤ 6 }
{
    match CONTROLS.get(usize::from(byte)) {
        Some(escape) => *escape,
        None if is_slashed(byte) => ([b'\\', byte, 0, 0, 0, 0], 2),
        None => ([byte, 0, 0, 0, 0, 0], 1),
    }
}

/// The escape of a character by its number.
fn unicode_escape(number: u16) -> [u8; 6]
    ensures { result ≡ unicode_escape number }
{
    let first = digit(number / 4096);
    let second = digit(number / 256 % 16);
    let third = digit(number / 16 % 16);
    let fourth = digit(number % 16);
    [b'\\', b'u', first, second, third, fourth]
}

/// The number of the character that begins with these bytes, where it shows nothing or turns what stands beside it;
/// else 0.
fn unseen(first: u8, second: u8, third: u8) -> u16
    ensures { result ≡ unseen first second third }
{
    match (first, second, third) {
        (0x7f, _, _) => 0x7f,
        (0xc2, 0x80..=0x9f, _) => u16::from(second),
        (0xd8, 0x9c, _) => 0x61c,
        (0xe2, 0x80, 0x8e..=0x8f) => 0x1f80 + u16::from(third),
        (0xe2, 0x80, 0xa8..=0xae) => 0x1f80 + u16::from(third),
        (0xe2, 0x81, 0xa6..=0xa9) => 0x1fc0 + u16::from(third),
        _ => 0,
    }
}

/// How many bytes a character has behind its first one.
#[inline(always)]
fn bytes_behind(number: u16) -> usize
    ensures { result ≡ bytes_behind number }
{
    match number {
        0..0x80 => 0,
        0x80..0x800 => 1,
        _ => 2,
    }
}

/// A byte of a text, or 0 behind its end.
#[inline(always)]
fn byte_at(text: &[u8], at: usize) -> u8
    ensures { result ≡ slice_index text.now at }
{
    match text.get(at) {
        Some(byte) => *byte,
        None => 0,
    }
}

/// The number of the character at a place of a text, where it shows nothing or turns what stands beside it; else 0.
/// No byte below DEL is one, or begins one.
#[inline(always)]
#[tactic(auto, using(crate::proofs::Escapes::none_low))]
fn unseen_at(text: &[u8], at: usize) -> u16
    requires { at < length text.now }
    ensures { result ≡ unseen_in (drop at text.now) }
{
    let first = text[at];
    if first < 0x7f {
        return 0;
    }
    unseen(first, byte_at(text, at + 1), byte_at(text, at + 2))
}

/// What stands for such a character, or for a byte where there is none, at the front of six bytes, and its length.
#[inline(always)]
fn escape_first(number: u16, byte: u8) -> ([u8; 6], usize)
    ensures value { take result.1 result.0 ≡ escape_first number byte }
    ensures bound { result.1 ≤ 6 }
{
    match number {
        0 => escape_of(byte),
        _ => (unicode_escape(number), 6),
    }
}

/// Stores the character at a place of a text, or the byte there, with its escape; where it ends in both.
#[inline(always)]
fn put_escape(buf: &mut [u8], at: usize, text: &[u8], from: usize) -> (usize, usize)
    requires within { from < length text.now }
    requires room { at + 6 ≤ length buf.old }
    ensures escaped { Escaped buf.old buf.new at result.0 text.now from result.1 }
    ensures onwards { (from < result.1) × (result.1 ≤ from + 3) }
{
    let number = unseen_at(text, from);
    let byte = text[from];
    if number == 0 && byte > 0x7f {
        return (put_byte(buf, at, byte), from + 1);
    }
    let (escape, len) = escape_first(number, byte);
    buf[at..at + 6].copy_from_slice(&escape);
    (at + len, from + 1 + bytes_behind(number))
}

/// Whether something begins with a byte that has an escape, or may have one.
#[inline(always)]
fn may_escape(byte: u8) -> bool
    ensures { result ≡ may_escape byte }
{
    matches!(byte, 0..=0x1f | b'"' | b'\\' | 0x7f | 0xc2 | 0xd8 | 0xe2)
}

/// Whether the escape of a byte is a backslash and the byte itself.
#[inline(always)]
fn is_slashed(byte: u8) -> bool
    ensures { result ≡ (byte == 34) || (byte == 92) }
{
    byte == b'"' || byte == b'\\'
}

/// Stores a byte of a text, or what begins there and has an escape; where it ends in both.
#[inline(always)]
fn put_next(buf: &mut [u8], at: usize, text: &[u8], from: usize) -> (usize, usize)
    requires within { from < length text.now }
    requires room { at + 6 ≤ length buf.old }
    ensures escaped { Escaped buf.old buf.new at result.0 text.now from result.1 }
    ensures onwards { (from < result.1) × (result.1 ≤ from + 3) }
{
    let byte = text[from];
    if is_slashed(byte) {
        let second = put_byte(buf, at, b'\\');
        return (put_byte(buf, second, byte), from + 1);
    }
    if may_escape(byte) {
        return put_escape(buf, at, text, from);
    }
    (put_byte(buf, at, byte), from + 1)
}

/// Stores a few bytes of a text, one by one, up to a place, or up to the end of a character that stands there.
#[inline(always)]
fn put_few(buf: &mut [u8], at: usize, text: &[u8], from: usize, to: usize) -> (usize, usize)
    requires within { to ≤ length text.now }
    requires room { at + (to - from) * 6 ≤ length buf.old }
    ensures escaped { Escaped buf.old buf.new at result.0 text.now from result.1 }
    ensures reached { (to ≤ result.1) × (result.1 ≤ from + (to + 2 - from)) }
{
    let mut end = at;
    let mut done = from;
    while done < to {
        let step = put_next(buf, end, text, done);
        end = step.0;
        done = step.1;
    }
    (end, done)
}

/// Stores a block of a text: at once, where each of its bytes stands for itself.
#[inline(always)]
fn put_part(buf: &mut [u8], at: usize, text: &[u8], from: usize) -> (usize, usize)
    requires within { from + 16 ≤ length text.now }
    requires room { at + 96 ≤ length buf.old }
    ensures escaped { Escaped buf.old buf.new at result.0 text.now from result.1 }
    ensures reached { (from + 16 ≤ result.1) × (result.1 ≤ from + 18) }
{
    if put_exactly(buf, at, text, from) {
        return (at + 16, from + 16);
    }
    if text.len() - from > 16 && are_seen(text, from) {
        return (at + 16, from + 16);
    }
    put_few(buf, at, text, from, from + 16)
}

/// Stores what stands in a text from one place up to another, or up to the end of a character there, with the escapes
/// that it needs.
#[inline(always)]
pub(crate) fn put_escaped(
    buf: &mut [u8],
    at: usize,
    text: &[u8],
    from: usize,
    to: usize,
) -> (usize, usize)
    requires within { (to ≤ length text.now) × (from ≤ to + 2) }
    requires room { at + (to - from + 2) * 6 ≤ length buf.old }
    ensures escaped { Escaped buf.old buf.new at result.0 text.now from result.1 }
    ensures reached { (to ≤ result.1) × (result.1 ≤ to + 2) }
{
    let mut end = at;
    let mut done = from;
    while done + 16 <= to {
        let step = put_part(buf, end, text, done);
        end = step.0;
        done = step.1;
    }
    put_few(buf, end, text, done, to)
}

/// Stores the same: at once, where none of these bytes may need an escape.
#[inline(always)]
pub(crate) fn put_between(
    buf: &mut [u8],
    at: usize,
    text: &[u8],
    from: usize,
    to: usize,
) -> (usize, usize)
    requires within { (to ≤ length text.now) × (from ≤ to + 2) }
    requires room { at + (to - from + 2) * 6 ≤ length buf.old }
    ensures escaped { Escaped buf.old buf.new at result.0 text.now from result.1 }
    ensures reached { (to ≤ result.1) × (result.1 ≤ to + 2) }
{
    if from <= to && put_plain(buf, at, &text[from..to]) {
        return (at + (to - from), to);
    }
    put_escaped(buf, at, text, from, to)
}
