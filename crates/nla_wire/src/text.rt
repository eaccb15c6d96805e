//! Texts as payloads: UTF-8, which may end in one NUL.

ghost use Rattle.std.specs.Prelude.{◌≡◌, ◌≢◌, ◌⊎◌, ◌<◌, ◌≤◌, ◌↔◌, List, ℕ, IfOk, IfErr, IsTrue, IsUtf8, MatchOption};
ghost use Rattle.std.specs.Prelude.{MatchResult, Ok, Err};
ghost use Rattle.std.specs.Prelude.{◌+◌, length, take};
ghost use Rattle.std.specs.List.{AllByRecursion};
ghost use Rattle.nla_wire.specs.Payloads.{text, AreAscii, IsTextOf};
ghost use Rattle.nla_wire.specs.Gives.{Gives, Checks};
ghost use Rattle.nla_wire.specs.declared.error.Cause.TheVariants.{OutOfMemory, NotUtf8};

use crate::error::{Cause, DecodeError, PAYLOAD};
use crate::fields::{u32_at, u64_at};
use crate::values::Text;
use std::alloc::Global;
use std::str;

/// The bytes without one NUL at their end, if they have one.
pub(crate) fn without_nul(bytes: &[u8]) -> &[u8]
    ensures { IsTextOf bytes.now result.now }
{
    match bytes {
        [front @ .., 0] => front,
        _ => bytes,
    }
}

fn not_utf8() -> DecodeError
    ensures { result.cause ≡ NotUtf8 }
{
    DecodeError::new(PAYLOAD, Cause::NotUtf8)
}

/// The highest of the bytes, or 0: one look at each, with no branch.
#[inline(always)]
fn highest(bytes: &[u8]) -> u8
    ensures { (n : ℕ) → (AllByRecursion (λ b. b ≤ n) bytes.now ↔ (result ≤ n)) }
{
    let mut high = 0;
    for byte in bytes {
        if *byte > high {
            high = *byte;
        }
    }
    high
}

/// The highest bit of each of four bytes.
const HIGH_BITS_4: u32 = 0x8080_8080;

/// The highest bit of each of eight bytes.
const HIGH_BITS_8: u64 = 0x8080_8080_8080_8080;

/// Whether the first four bytes are ASCII.
#[inline(always)]
fn begins_ascii_4(bytes: &[u8]) -> bool
    requires { 4 ≤ length bytes.now }
    ensures { IsTrue result ↔ AreAscii (take 4 bytes.now) }
{
    u32_at(bytes, 0) & HIGH_BITS_4 == 0
}

/// Whether the first eight bytes are ASCII.
#[inline(always)]
fn begins_ascii_8(bytes: &[u8]) -> bool
    requires { 8 ≤ length bytes.now }
    ensures { IsTrue result ↔ AreAscii (take 8 bytes.now) }
{
    u64_at(bytes, 0) & HIGH_BITS_8 == 0
}

/// Whether one to three bytes are ASCII.
#[inline(always)]
fn is_ascii_short(bytes: &[u8]) -> bool
    requires some { 0 < length bytes.now }
    requires short { length bytes.now < 4 }
    ensures { IsTrue result ↔ AreAscii bytes.now }
{
    let last = bytes.len() - 1;
    bytes[0] < 128 && bytes[bytes.len() / 2] < 128 && bytes[last] < 128
}

/// Whether bytes are ASCII, of which so many in front and so many at the end, which meet or overlap, are all.
#[inline(always)]
fn are_ends_ascii(bytes: &[u8], front: usize, back: usize) -> bool
    requires first { front ≤ length bytes.now }
    requires last { back ≤ length bytes.now }
    requires all { length bytes.now ≤ front + back }
    ensures { IsTrue result ↔ AreAscii bytes.now }
{
    highest(&bytes[..front]) < 128 && highest(&bytes[bytes.len() - back..]) < 128
}

/// Whether bytes are ASCII. Most names are short, and two words that overlap are all of their bytes; of a longer text
/// whole blocks of 32 bytes are looked at, and the last 32, so that no loop goes byte by byte.
#[inline(always)]
fn is_ascii(bytes: &[u8]) -> bool
    ensures { IsTrue result ↔ AreAscii bytes.now }
{
    match bytes.len() {
        0 => true,
        1..=3 => is_ascii_short(bytes),
        4..=7 => begins_ascii_4(bytes) && begins_ascii_4(&bytes[bytes.len() - 4..]),
        8..=16 => begins_ascii_8(bytes) && begins_ascii_8(&bytes[bytes.len() - 8..]),
        17..=31 => are_ends_ascii(bytes, 16, 16),
        len => are_ends_ascii(bytes, len / 32 * 32, 32),
    }
}

/// Whether bytes, some of which are not ASCII, are UTF-8.
#[inline(never)]
fn is_decoded(bytes: &[u8]) -> bool
    ensures { IsTrue result ↔ IsUtf8 bytes.now }
{
    str::from_utf8(bytes).is_ok()
}

/// Whether bytes are UTF-8, as ASCII is.
#[inline(always)]
pub(crate) fn is_utf8(bytes: &[u8]) -> bool
    ensures { IsTrue result ↔ IsUtf8 bytes.now }
{
    is_ascii(bytes) || is_decoded(bytes)
}

/// The bytes as a text, where they are UTF-8.
#[inline(always)]
fn utf8(bytes: &[u8]) -> Option<&str>
    ensures { MatchOption result (IsUtf8 bytes.now → ⊥)
        (λ s. (s.now ≡ bytes.now) × IsUtf8 bytes.now) }
{
    if is_utf8(bytes) {
        // SAFETY: the bytes were found to be UTF-8.
        return Some(unsafe { str::from_utf8_unchecked(bytes) });
    }
    None
}

/// Reads a text: one NUL at the end is dropped, and the rest has to be UTF-8. The empty payload is the empty text.
///
/// Refuses other bytes with `NotUtf8`; or with `OutOfMemory`, which says nothing of the bytes.
#[inline(always)]
pub fn parse_string(alloc: Global, bytes: &[u8]) -> Result<Text, DecodeError>
    ensures means { IfOk result (text.means bytes.now) }
    ensures refused { IfErr result (λ e. (e.cause ≡ OutOfMemory) ⊎ text.bad bytes.now e.cause) }
    ensures reads { Gives result (text.reads bytes.now) }
{
    match utf8(without_nul(bytes)) {
        Some(text) => Text::from_str(alloc, text),
        None => Err(not_utf8()),
    }
}

/// The text that a payload is, in place: what `parse_string` reads, with no memory taken; else `NotUtf8`.
#[inline(always)]
pub fn borrow_string(bytes: &[u8]) -> Result<&str, DecodeError>
    ensures { MatchResult result (λ s. text.reads bytes.now ≡ Ok s.now)
        (λ e. text.reads bytes.now ≡ Err e.cause) }
{
    match utf8(without_nul(bytes)) {
        Some(text) => Ok(text),
        None => Err(not_utf8()),
    }
}

/// `Ok` where the payload is a text, else the fault; for the proof: its clause cites the reader alone, and those of
/// `check_string` follow.
fn check_utf8(bytes: &[u8]) -> Result<(), DecodeError>
    ensures { Checks result (text.reads bytes.now) }
{
    if is_utf8(without_nul(bytes)) {
        return Ok(());
    }
    Err(not_utf8())
}

/// Whether a payload is a text, with no memory taken: `Ok` where `parse_string` reads it, else `NotUtf8`.
pub fn check_string(bytes: &[u8]) -> Result<(), DecodeError>
    ensures found { IfOk result (λ _. (s : List ℕ) × text.means bytes.now s) }
    ensures fault { IfErr result (λ e. text.bad bytes.now e.cause) }
    ensures refused { IfErr result (λ e. (s : List ℕ) → text.means bytes.now s → ⊥) }
    ensures memory { IfErr result (λ e. e.cause ≢ OutOfMemory) }
    ensures reads { Checks result (text.reads bytes.now) }
{
    check_utf8(bytes)
}
