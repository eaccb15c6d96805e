//! Numbers of one width at the front of a payload, read into an array.

ghost use Rattle.std.specs.Prelude.{◌≡◌, ◌*◌, ◌^◌, ◌<◌, length};
ghost use Rattle.std.specs.Int.{w32, w64};
ghost use Rattle.nla_wire.specs.Fields.{numbers_from, signed_from};

use nla_wire::fields::{i32_at, i64_at, u32_at, u64_at};

#[inline(always)]
fn load_u32s(payload: &[u8], words: &mut [u32])
    requires { 4 * length words.old < 2 ^ 32 }
    ensures { words.new ≡ numbers_from w32 payload.now 0 (length words.old) }
{
    for i in 0..words.len() {
        words[i] = u32_at(payload, 4 * i);
    }
}

/// Reads numbers from the front of the payload, as if zeros followed it. One test, of the payload's length.
#[inline(always)]
#[tactic(auto, using(crate::proofs::Numbers::numbers_cut))]
pub fn read_u32s(payload: &[u8], words: &mut [u32])
    requires { 4 * length words.old < 2 ^ 32 }
    ensures { words.new ≡ numbers_from w32 payload.now 0 (length words.old) }
{
    let size = 4 * words.len();
    if payload.len() < size {
        load_u32s(payload, words);
    } else {
        load_u32s(&payload[..size], words);
    }
}

#[inline(always)]
fn load_u64s(payload: &[u8], words: &mut [u64])
    requires { 8 * length words.old < 2 ^ 32 }
    ensures { words.new ≡ numbers_from w64 payload.now 0 (length words.old) }
{
    for i in 0..words.len() {
        words[i] = u64_at(payload, 8 * i);
    }
}

/// Reads numbers from the front of the payload, as if zeros followed it. One test, of the payload's length.
#[inline(always)]
#[tactic(auto, using(crate::proofs::Numbers::numbers_cut))]
pub fn read_u64s(payload: &[u8], words: &mut [u64])
    requires { 8 * length words.old < 2 ^ 32 }
    ensures { words.new ≡ numbers_from w64 payload.now 0 (length words.old) }
{
    let size = 8 * words.len();
    if payload.len() < size {
        load_u64s(payload, words);
    } else {
        load_u64s(&payload[..size], words);
    }
}

#[inline(always)]
fn load_i32s(payload: &[u8], words: &mut [i32])
    requires { 4 * length words.old < 2 ^ 32 }
    ensures { words.new ≡ signed_from w32 payload.now 0 (length words.old) }
{
    for i in 0..words.len() {
        words[i] = i32_at(payload, 4 * i);
    }
}

/// Reads signed numbers from the front of the payload, as if zeros followed it. One test, of the payload's length.
#[inline(always)]
#[tactic(auto, using(crate::proofs::Numbers::signed_cut))]
pub fn read_i32s(payload: &[u8], words: &mut [i32])
    requires { 4 * length words.old < 2 ^ 32 }
    ensures { words.new ≡ signed_from w32 payload.now 0 (length words.old) }
{
    let size = 4 * words.len();
    if payload.len() < size {
        load_i32s(payload, words);
    } else {
        load_i32s(&payload[..size], words);
    }
}

#[inline(always)]
fn load_i64s(payload: &[u8], words: &mut [i64])
    requires { 8 * length words.old < 2 ^ 32 }
    ensures { words.new ≡ signed_from w64 payload.now 0 (length words.old) }
{
    for i in 0..words.len() {
        words[i] = i64_at(payload, 8 * i);
    }
}

/// Reads signed numbers from the front of the payload, as if zeros followed it. One test, of the payload's length.
#[inline(always)]
#[tactic(auto, using(crate::proofs::Numbers::signed_cut))]
pub fn read_i64s(payload: &[u8], words: &mut [i64])
    requires { 8 * length words.old < 2 ^ 32 }
    ensures { words.new ≡ signed_from w64 payload.now 0 (length words.old) }
{
    let size = 8 * words.len();
    if payload.len() < size {
        load_i64s(payload, words);
    } else {
        load_i64s(&payload[..size], words);
    }
}
