//! Texts that are stored as blocks which overlap, and are looked at for bytes that may need an escape on the way.
//!
//! Both by blocks of vectors, as by the writer of the toolchain's crate `json`, which looks at a text before it stores
//! it. Names and most texts have only the bytes from the blank to `~`, without the quote and the backslash, which three
//! tests tell; where others stand, a text is looked at again, as it is stored by `escape`.

ghost use Rattle.std.specs.Prelude.{◌≡◌, ◌+◌, ◌<◌, ◌≤◌, [], ◌∷◌, length, take, drop};
ghost use Rattle.std.specs.Bool.{OnTrue};
ghost use Rattle.json.specs.Filled.{Placed};
ghost use Rattle.shown.specs.Escapes.{PlainBetween, SeenBetween};

use std::simd::prelude::*;

/// Stores a byte.
#[inline(always)]
pub(crate) fn put_byte(buf: &mut [u8], at: usize, byte: u8) -> usize
    requires { at < length buf.old }
    ensures { Placed buf.old buf.new at (byte ∷ []) result }
{
    buf[at] = byte;
    at + 1
}

/// Stores N bytes of a text, from one place of it on, at a place of the buffer; whether all are from the blank to `~`,
/// and none is a quote or a backslash.
#[inline(always)]
pub(crate) fn put_block<const N: usize>(buf: &mut [u8], at: usize, text: &[u8], from: usize) -> bool
    requires few { N ≤ 64 }
    requires from { from + N ≤ length text.now }
    requires room { at + N ≤ length buf.old }
    ensures placed { Placed buf.old buf.new at (take N (drop from text.now)) (at + N) }
    ensures plain { OnTrue result (PlainBetween text.now from (from + N)) }
{
    let block = Simd::<u8, N>::from_slice(&text[from..]);
    block.copy_to_slice(&mut buf[at..]);
    let above = block - Simd::<u8, N>::splat(b' ');
    (above.simd_gt(Simd::<u8, N>::splat(b'~' - b' '))
        | block.simd_eq(Simd::<u8, N>::splat(b'"'))
        | block.simd_eq(Simd::<u8, N>::splat(b'\\'))).to_bitmask()
        == 0
}

/// Stores 16 bytes of a text, from one place of it on; whether none of them may need an escape.
#[inline(always)]
pub(crate) fn put_exactly(buf: &mut [u8], at: usize, text: &[u8], from: usize) -> bool
    requires from { from + 16 ≤ length text.now }
    requires room { at + 16 ≤ length buf.old }
    ensures placed { Placed buf.old buf.new at (take 16 (drop from text.now)) (at + 16) }
    ensures plain { OnTrue result (PlainBetween text.now from (from + 16)) }
{
    let block = u8x16::from_slice(&text[from..]);
    block.copy_to_slice(&mut buf[at..]);
    (block.simd_lt(u8x16::splat(0x20))
        | block.simd_eq(u8x16::splat(b'"'))
        | block.simd_eq(u8x16::splat(b'\\'))
        | block.simd_eq(u8x16::splat(0x7f))
        | block.simd_eq(u8x16::splat(0xc2))
        | block.simd_eq(u8x16::splat(0xd8))
        | block.simd_eq(u8x16::splat(0xe2))).to_bitmask()
        == 0
}

/// Whether each of 16 bytes of a text, from one place of it on, stands for itself: none may need an escape but 0xe2,
/// and behind none stands 0x80 or 0x81, with which the characters go on that begin with 0xe2 and have one.
#[inline(always)]
pub(crate) fn are_seen(text: &[u8], from: usize) -> bool
    requires { from + 17 ≤ length text.now }
    ensures { OnTrue result (SeenBetween text.now from (from + 16)) }
{
    let block = u8x16::from_slice(&text[from..]);
    let next = u8x16::from_slice(&text[from + 1..]);
    let are_alone = (block.simd_lt(u8x16::splat(0x20))
        | block.simd_eq(u8x16::splat(b'"'))
        | block.simd_eq(u8x16::splat(b'\\'))
        | block.simd_eq(u8x16::splat(0x7f))
        | block.simd_eq(u8x16::splat(0xc2))
        | block.simd_eq(u8x16::splat(0xd8))).to_bitmask()
        == 0;
    let are_others = (next.simd_eq(u8x16::splat(0x80))
        | next.simd_eq(u8x16::splat(0x81))).to_bitmask()
        == 0;
    are_alone & are_others
}

/// Stores a text of N to 2N bytes; whether none of them may need an escape.
#[inline(always)]
fn put_ends<const N: usize>(buf: &mut [u8], at: usize, text: &[u8]) -> bool
    requires few { N ≤ 64 }
    requires twice { (N ≤ length text.now) × (length text.now ≤ N + N) }
    requires room { at + length text.now ≤ length buf.old }
    ensures placed { Placed buf.old buf.new at text.now (at + length text.now) }
    ensures plain { OnTrue result (PlainBetween text.now 0 (length text.now)) }
{
    let last = text.len() - N;
    let front = put_block::<N>(buf, at, text, 0);
    let back = put_block::<N>(buf, at + last, text, last);
    front & back
}

/// Stores a text of 16 bytes or more; whether none of them may need an escape.
#[inline(always)]
fn put_long(buf: &mut [u8], at: usize, text: &[u8]) -> bool
    requires long { 16 ≤ length text.now }
    requires room { at + length text.now ≤ length buf.old }
    ensures placed { Placed buf.old buf.new at text.now (at + length text.now) }
    ensures plain { OnTrue result (PlainBetween text.now 0 (length text.now)) }
{
    let mut done = 0;
    let mut is_plain = true;
    while text.len() - done > 32 {
        let block = put_block::<16>(buf, at + done, text, done);
        is_plain &= block;
        done += 16;
    }
    let rest = put_ends::<16>(buf, at + done, &text[done..]);
    is_plain & rest
}

/// Stores a text at a place of the buffer; whether none of its bytes may need an escape.
#[inline(always)]
pub(crate) fn put_text(buf: &mut [u8], at: usize, text: &[u8]) -> bool
    requires room { at + length text.now ≤ length buf.old }
    ensures placed { Placed buf.old buf.new at text.now (at + length text.now) }
    ensures plain { OnTrue result (PlainBetween text.now 0 (length text.now)) }
{
    let len = text.len();
    if len >= 16 {
        return put_long(buf, at, text);
    }
    if len >= 8 {
        return put_ends::<8>(buf, at, text);
    }
    if len >= 4 {
        return put_ends::<4>(buf, at, text);
    }
    if len >= 2 {
        return put_ends::<2>(buf, at, text);
    }
    len == 0 || put_ends::<1>(buf, at, text)
}

/// Stores a text of more than 32 bytes, up to where a byte may need an escape; whether none may.
#[inline(always)]
fn put_long_plain(buf: &mut [u8], at: usize, text: &[u8]) -> bool
    requires long { 32 < length text.now }
    requires room { at + length text.now ≤ length buf.old }
    ensures placed { OnTrue result (Placed buf.old buf.new at text.now (at + length text.now)) }
    ensures plain { OnTrue result (PlainBetween text.now 0 (length text.now)) }
    ensures kept { take at buf.new ≡ take at buf.old }
    ensures len { length buf.new ≡ length buf.old }
{
    let mut done = 0;
    while text.len() - done > 32 {
        if !put_block::<16>(buf, at + done, text, done) {
            return false;
        }
        done += 16;
    }
    put_ends::<16>(buf, at + done, &text[done..])
}

/// Stores a text at a place of the buffer, where none of its bytes may need an escape; else a part of it.
#[inline(always)]
pub(crate) fn put_plain(buf: &mut [u8], at: usize, text: &[u8]) -> bool
    requires room { at + length text.now ≤ length buf.old }
    ensures placed { OnTrue result (Placed buf.old buf.new at text.now (at + length text.now)) }
    ensures plain { OnTrue result (PlainBetween text.now 0 (length text.now)) }
    ensures kept { take at buf.new ≡ take at buf.old }
    ensures len { length buf.new ≡ length buf.old }
{
    if text.len() > 32 {
        return put_long_plain(buf, at, text);
    }
    put_text(buf, at, text)
}
