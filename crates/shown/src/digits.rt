//! The decimal digits of numbers, stored at a place of a buffer.

ghost use Rattle.std.specs.Prelude.{◌+◌, ◌<◌, ◌≤◌, decimal, length};
ghost use Rattle.json.specs.Filled.{Placed};

use crate::block::{put_byte, put_text};
use itoa::Buffer;

/// The most digits of a number.
pub(crate) const DIGITS: usize = 20;

/// Stores the digit of a number below 10.
#[inline(always)]
fn put_one(buf: &mut [u8], at: usize, value: u64) -> usize
    requires small { value < 10 }
    requires room { at < length buf.old }
    ensures placed { Placed buf.old buf.new at (decimal value) result }
    ensures within { result ≤ at + 1 }
{
    put_byte(buf, at, b'0' + value as u8)
}

/// Stores the digits of a number below 100.
#[inline(always)]
fn put_two(buf: &mut [u8], at: usize, value: u64) -> usize
    requires small { value < 100 }
    requires room { at + 2 ≤ length buf.old }
    ensures placed { Placed buf.old buf.new at (decimal value) result }
    ensures within { result ≤ at + 2 }
{
    if value < 10 {
        return put_one(buf, at, value);
    }
    let end = put_one(buf, at, value / 10);
    put_byte(buf, end, b'0' + (value % 10) as u8)
}

/// Stores the digits of a number below 1,000.
#[inline(always)]
fn put_three(buf: &mut [u8], at: usize, value: u64) -> usize
    requires small { value < 1000 }
    requires room { at + 3 ≤ length buf.old }
    ensures placed { Placed buf.old buf.new at (decimal value) result }
    ensures within { result ≤ at + 3 }
{
    if value < 100 {
        return put_two(buf, at, value);
    }
    let end = put_two(buf, at, value / 10);
    put_byte(buf, end, b'0' + (value % 10) as u8)
}

/// Stores the digits of a number of any length.
#[inline(always)]
fn put_long(buf: &mut [u8], at: usize, value: u64) -> usize
    requires { at + 20 ≤ length buf.old }
    ensures placed { Placed buf.old buf.new at (decimal value) result }
    ensures within { result ≤ at + 20 }
{
    let mut digits = Buffer::new();
    let text = digits.format(value).as_bytes();
    put_text(buf, at, text);
    at + text.len()
}

/// Stores the digits of a number. It is a function of its own, so that its caller saves few registers.
#[inline(never)]
fn put_digits(buf: &mut [u8], at: usize, value: u64) -> usize
    requires { at + 20 ≤ length buf.old }
    ensures placed { Placed buf.old buf.new at (decimal value) result }
    ensures within { result ≤ at + 20 }
{
    if value < 1000 {
        return put_three(buf, at, value);
    }
    put_long(buf, at, value)
}

/// Stores a number. Most of a link's have one digit.
#[inline(always)]
pub(crate) fn put_number(buf: &mut [u8], at: usize, value: u64) -> usize
    requires { at + 20 ≤ length buf.old }
    ensures placed { Placed buf.old buf.new at (decimal value) result }
    ensures within { result ≤ at + 20 }
{
    if value < 10 {
        return put_one(buf, at, value);
    }
    put_digits(buf, at, value)
}
