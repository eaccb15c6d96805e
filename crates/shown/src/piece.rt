//! Pieces of JSON (RFC 8259) that are added behind the first bytes of a buffer.
//!
//! Room is made first, and bytes are put at a place of it, as by the writer of the toolchain's crate `json`. Added are
//! a name and a number in one call, and escapes in parts.

ghost use Rattle.std.specs.Prelude.{◌+◌, ◌≤◌, [], ◌∷◌, ◌++◌, OnOk, MatchResult, decimal, length};
ghost use Rattle.shown.specs.Escapes.{AddsEscaped};
ghost use Rattle.shown.specs.Print.{escape, quoted};
ghost use Rattle.shown.specs.Sheets.{Added, Keeps, comma_if};

use crate::at_once::try_string;
use crate::block::{put_byte, put_text};
use crate::digits::{DIGITS, put_number};
use crate::escape::{put_between, put_escaped};
use crate::quote::{put_comma, put_name, put_quote};
use std::alloc::AllocError;

/// How many bytes of a text that needs escapes are stored at a time.
const PART: usize = 256;

/// What room is made of.
static BLANK: [u8; 512] = [0; 512];

/// Makes room for so many bytes more behind the first ones.
#[cold]
#[inline(never)]
fn grow(bytes: &mut Vec<u8>, len: usize, more: usize) -> Result<(), AllocError>
    requires within { len ≤ length bytes.old.items }
    ensures kept { Keeps bytes.old.items bytes.new.items len }
    ensures room { OnOk result (len + more ≤ length bytes.new.items) }
{
    while bytes.len() - len < more {
        bytes.extend_from_slice(&BLANK)?;
    }
    Ok(())
}

/// Makes room where it lacks.
#[inline(always)]
fn reserve(bytes: &mut Vec<u8>, len: usize, more: usize) -> Result<(), AllocError>
    requires within { len ≤ length bytes.old.items }
    ensures kept { Keeps bytes.old.items bytes.new.items len }
    ensures room { OnOk result (len + more ≤ length bytes.new.items) }
{
    if more <= bytes.len() - len {
        return Ok(());
    }
    grow(bytes, len, more)
}

/// Adds a byte, after a comma where one is due.
#[inline(always)]
pub(crate) fn add_byte(
    bytes: &mut Vec<u8>,
    len: usize,
    comma: bool,
    byte: u8,
) -> Result<usize, AllocError>
    requires within { len ≤ length bytes.old.items }
    ensures { Added result bytes.old.items bytes.new.items len (comma_if comma ++ byte ∷ []) }
{
    reserve(bytes, len, 2)?;
    let buf = bytes.as_mut_slice();
    let start = put_comma(buf, len, comma);
    Ok(put_byte(buf, start, byte))
}

/// Adds bytes behind the first ones, after a comma where one is due, and returns where they end.
pub(crate) fn add_bytes(
    bytes: &mut Vec<u8>,
    len: usize,
    comma: bool,
    text: &[u8],
) -> Result<usize, AllocError>
    requires within { len ≤ length bytes.old.items }
    ensures { Added result bytes.old.items bytes.new.items len (comma_if comma ++ text.now) }
{
    reserve(bytes, len, text.len() + 1)?;
    let buf = bytes.as_mut_slice();
    let start = put_comma(buf, len, comma);
    put_text(buf, start, text);
    Ok(start + text.len())
}

/// Adds what stands in a text from one place up to another, or up to the end of a character there, with the escapes
/// that it needs; where it ends in both.
#[inline(always)]
fn add_part(
    bytes: &mut Vec<u8>,
    len: usize,
    text: &[u8],
    from: usize,
    to: usize,
) -> Result<(usize, usize), AllocError>
    requires few { (to ≤ from + 256) × (from ≤ to + 2) × (to ≤ length text.now) }
    requires within { len ≤ length bytes.old.items }
    ensures { MatchResult result
        (λ r. AddsEscaped bytes.old.items bytes.new.items len r.0 text.now from r.1
        × (to ≤ r.1) × (r.1 ≤ to + 2))
        (λ _. Keeps bytes.old.items bytes.new.items len) }
{
    reserve(bytes, len, (to.saturating_sub(from) + 2) * 6)?;
    Ok(put_between(bytes.as_mut_slice(), len, text, from, to))
}

/// Adds a text with the escapes that it needs, part after part: no room is made that its escapes may not fill.
fn add_escapes(bytes: &mut Vec<u8>, len: usize, text: &[u8]) -> Result<usize, AllocError>
    requires within { len ≤ length bytes.old.items }
    ensures { Added result bytes.old.items bytes.new.items len (escape text.now) }
{
    let mut at = len;
    let mut done = 0;
    while done + PART < text.len() {
        let step = add_part(bytes, at, text, done, done + PART)?;
        at = step.0;
        done = step.1;
    }
    let last = add_part(bytes, at, text, done, text.len())?;
    Ok(last.0)
}

/// Adds a text of at most 256 bytes in quotes with the escapes that it needs, after a comma where one is due: room is
/// made once.
#[inline(always)]
fn add_short(bytes: &mut Vec<u8>, len: usize, comma: bool, text: &[u8]) -> Result<usize, AllocError>
    requires few { length text.now ≤ 256 }
    requires within { len ≤ length bytes.old.items }
    ensures { Added result bytes.old.items bytes.new.items len (comma_if comma ++ quoted text.now) }
{
    reserve(bytes, len, (text.len() + 2) * 6 + 3)?;
    let buf = bytes.as_mut_slice();
    let start = put_quote(buf, len, comma);
    let (end, _) = put_escaped(buf, start, text, 0, text.len());
    Ok(put_byte(buf, end, b'"'))
}

/// Adds a text in quotes with the escapes that it needs, after a comma where one is due.
#[cold]
#[inline(never)]
fn add_escaped(
    bytes: &mut Vec<u8>,
    len: usize,
    comma: bool,
    text: &[u8],
) -> Result<usize, AllocError>
    requires within { len ≤ length bytes.old.items }
    ensures { Added result bytes.old.items bytes.new.items len (comma_if comma ++ quoted text.now) }
{
    if text.len() <= PART {
        return add_short(bytes, len, comma, text);
    }
    let start = add_byte(bytes, len, comma, b'"')?;
    let end = add_escapes(bytes, start, text)?;
    add_byte(bytes, end, false, b'"')
}

/// Adds a name that may need an escape, and a colon.
fn add_escaped_name(
    bytes: &mut Vec<u8>,
    len: usize,
    comma: bool,
    name: &[u8],
) -> Result<usize, AllocError>
    requires within { len ≤ length bytes.old.items }
    ensures { Added result bytes.old.items bytes.new.items len
        (comma_if comma ++ (quoted name.now ++ 58 ∷ [])) }
{
    let end = add_escaped(bytes, len, comma, name)?;
    add_bytes(bytes, end, false, b":")
}

/// Adds a name and a colon.
pub(crate) fn add_name(
    bytes: &mut Vec<u8>,
    len: usize,
    comma: bool,
    name: &str,
) -> Result<usize, AllocError>
    requires within { len ≤ length bytes.old.items }
    ensures { Added result bytes.old.items bytes.new.items len
        (comma_if comma ++ (quoted name.now ++ 58 ∷ [])) }
{
    let text = name.as_bytes();
    reserve(bytes, len, text.len() + 4)?;
    let buf = bytes.as_mut_slice();
    match put_name::<false>(buf, len, comma, text) {
        Some(end) => Ok(end),
        None => add_escaped_name(bytes, len, comma, text),
    }
}

/// Adds a string, with the escapes that it needs: at once where room alone lacked.
#[inline(always)]
pub(crate) fn add_string(
    bytes: &mut Vec<u8>,
    len: usize,
    comma: bool,
    text: &str,
) -> Result<usize, AllocError>
    requires within { len ≤ length bytes.old.items }
    ensures { Added result bytes.old.items bytes.new.items len (comma_if comma ++ quoted text.now) }
{
    let text = text.as_bytes();
    if text.len() + 3 > bytes.len() - len {
        grow(bytes, len, text.len() + 3)?;
        if let Some(end) = try_string(bytes, len, comma, text) {
            return Ok(end);
        }
    }
    add_escaped(bytes, len, comma, text)
}

/// Adds a number.
pub(crate) fn add_number(
    bytes: &mut Vec<u8>,
    len: usize,
    comma: bool,
    value: u64,
) -> Result<usize, AllocError>
    requires within { len ≤ length bytes.old.items }
    ensures { Added result bytes.old.items bytes.new.items len (comma_if comma ++ decimal value) }
{
    reserve(bytes, len, DIGITS + 1)?;
    let buf = bytes.as_mut_slice();
    let start = put_comma(buf, len, comma);
    Ok(put_number(buf, start, value))
}

/// Adds a name that may need an escape and, after a colon, a number.
#[cold]
#[inline(never)]
fn add_escaped_numbered(
    bytes: &mut Vec<u8>,
    len: usize,
    comma: bool,
    name: &[u8],
    value: u64,
) -> Result<usize, AllocError>
    requires within { len ≤ length bytes.old.items }
    ensures { Added result bytes.old.items bytes.new.items len
        ((comma_if comma ++ (quoted name.now ++ 58 ∷ [])) ++ decimal value) }
{
    let end = add_escaped_name(bytes, len, comma, name)?;
    add_number(bytes, end, false, value)
}

/// Adds a name and, after a colon, a number.
pub(crate) fn add_numbered(
    bytes: &mut Vec<u8>,
    len: usize,
    comma: bool,
    name: &str,
    value: u64,
) -> Result<usize, AllocError>
    requires within { len ≤ length bytes.old.items }
    ensures { Added result bytes.old.items bytes.new.items len
        ((comma_if comma ++ (quoted name.now ++ 58 ∷ [])) ++ decimal value) }
{
    let text = name.as_bytes();
    reserve(bytes, len, text.len() + 4 + DIGITS)?;
    let buf = bytes.as_mut_slice();
    if let Some(start) = put_name::<false>(buf, len, comma, text) {
        return Ok(put_number(buf, start, value));
    }
    add_escaped_numbered(bytes, len, comma, text, value)
}
