//! Pieces of JSON that are added at once, where there is room and no byte needs an escape; else nothing is.

ghost use Rattle.std.specs.Prelude.{◌≡◌, ◌≤◌, [], ◌∷◌, ◌++◌, IfSome, IfNone, decimal, length, true};
ghost use Rattle.shown.specs.Print.{quoted};
ghost use Rattle.shown.specs.Keys.{IsKey};
ghost use Rattle.shown.specs.Sheets.{Adds, Keeps, comma_if};

use crate::block::put_byte;
use crate::digits::{DIGITS, put_number};
use crate::quote::{put_comma, put_name, put_quoted};

/// Adds a name and, after a colon, a number, where there is room and the name needs no escape; else nothing.
#[inline(always)]
pub(crate) fn try_numbered<const IS_KEY: bool>(
    bytes: &mut Vec<u8>,
    len: usize,
    comma: bool,
    name: &str,
    value: u64,
) -> Option<usize>
    requires key { IS_KEY ≡ true → IsKey name.now }
    requires within { len ≤ length bytes.old.items }
    ensures added { IfSome result (Adds bytes.old.items bytes.new.items len
        ((comma_if comma ++ (quoted name.now ++ 58 ∷ [])) ++ decimal value)) }
    ensures kept { IfNone result (Keeps bytes.old.items bytes.new.items len) }
{
    let text = name.as_bytes();
    if text.len() + (4 + DIGITS) > bytes.len() - len {
        return None;
    }
    let buf = bytes.as_mut_slice();
    match put_name::<IS_KEY>(buf, len, comma, text) {
        Some(start) => Some(put_number(buf, start, value)),
        None => None,
    }
}

/// Adds a name and, after a colon, a text, where there is room and neither needs an escape; else nothing.
#[inline(always)]
pub(crate) fn try_named<const IS_KEY: bool>(
    bytes: &mut Vec<u8>,
    len: usize,
    comma: bool,
    name: &str,
    text: &[u8],
) -> Option<usize>
    requires key { IS_KEY ≡ true → IsKey name.now }
    requires within { len ≤ length bytes.old.items }
    ensures added { IfSome result (Adds bytes.old.items bytes.new.items len
        ((comma_if comma ++ (quoted name.now ++ 58 ∷ [])) ++ quoted text.now)) }
    ensures kept { IfNone result (Keeps bytes.old.items bytes.new.items len) }
{
    let front = name.as_bytes();
    let room = bytes.len() - len;
    if front.len() + 4 > room || text.len() + 3 > room - (front.len() + 4) {
        return None;
    }
    let buf = bytes.as_mut_slice();
    match put_name::<IS_KEY>(buf, len, comma, front) {
        Some(start) => put_quoted::<false>(buf, start, false, text),
        None => None,
    }
}

/// Adds a name and, after a colon, a bracket, where there is room and the name needs no escape; else nothing.
#[inline(always)]
pub(crate) fn try_begun<const IS_KEY: bool>(
    bytes: &mut Vec<u8>,
    len: usize,
    comma: bool,
    name: &str,
    bracket: u8,
) -> Option<usize>
    requires key { IS_KEY ≡ true → IsKey name.now }
    requires within { len ≤ length bytes.old.items }
    ensures added { IfSome result (Adds bytes.old.items bytes.new.items len
        ((comma_if comma ++ (quoted name.now ++ 58 ∷ [])) ++ bracket ∷ [])) }
    ensures kept { IfNone result (Keeps bytes.old.items bytes.new.items len) }
{
    let text = name.as_bytes();
    if text.len() + 5 > bytes.len() - len {
        return None;
    }
    let buf = bytes.as_mut_slice();
    match put_name::<IS_KEY>(buf, len, comma, text) {
        Some(start) => Some(put_byte(buf, start, bracket)),
        None => None,
    }
}

/// Adds a number, where there is room; else nothing.
#[inline(always)]
pub(crate) fn try_number(bytes: &mut Vec<u8>, len: usize, comma: bool, value: u64) -> Option<usize>
    requires within { len ≤ length bytes.old.items }
    ensures added { IfSome result (Adds bytes.old.items bytes.new.items len
        (comma_if comma ++ decimal value)) }
    ensures kept { IfNone result (Keeps bytes.old.items bytes.new.items len) }
{
    if DIGITS + 1 > bytes.len() - len {
        return None;
    }
    let buf = bytes.as_mut_slice();
    let start = put_comma(buf, len, comma);
    Some(put_number(buf, start, value))
}

/// Adds a text in quotes, where there is room and it needs no escape; else nothing.
#[inline(always)]
pub(crate) fn try_string(bytes: &mut Vec<u8>, len: usize, comma: bool, text: &[u8]) -> Option<usize>
    requires within { len ≤ length bytes.old.items }
    ensures added { IfSome result (Adds bytes.old.items bytes.new.items len
        (comma_if comma ++ quoted text.now)) }
    ensures kept { IfNone result (Keeps bytes.old.items bytes.new.items len) }
{
    if text.len() + 3 > bytes.len() - len {
        return None;
    }
    put_quoted::<false>(bytes.as_mut_slice(), len, comma, text)
}
