//! Commas, quotes, and texts and names in quotes that need no escape, stored at a place of a buffer.

ghost use Rattle.std.specs.Prelude.{◌≡◌, ◌+◌, ◌<◌, ◌≤◌, [], ◌∷◌, ◌++◌, IfSome, length, take, true};
ghost use Rattle.json.specs.Filled.{Placed};
ghost use Rattle.std.specs.Bool.{OnTrue};
ghost use Rattle.shown.specs.Print.{escape, quoted};
ghost use Rattle.shown.specs.Keys.{IsKey};
ghost use Rattle.shown.specs.Sheets.{comma_if};

use crate::block::{put_byte, put_plain, put_text};

/// Stores a comma, where one is due.
#[inline(always)]
pub(crate) fn put_comma(buf: &mut [u8], at: usize, is_due: bool) -> usize
    requires { at < length buf.old }
    ensures { Placed buf.old buf.new at (comma_if is_due) result }
{
    if !is_due {
        return at;
    }
    put_byte(buf, at, b',')
}

/// Stores the quote in front of a text, after a comma where one is due: what is stored of the comma without one is
/// stored over.
#[inline(always)]
pub(crate) fn put_quote(buf: &mut [u8], at: usize, comma: bool) -> usize
    requires { at + 1 < length buf.old }
    ensures { Placed buf.old buf.new at (comma_if comma ++ 34 ∷ []) result }
{
    buf[at] = b',';
    let quote = at + usize::from(comma);
    buf[quote] = b'"';
    quote + 1
}

/// Stores a text where none of its bytes may need an escape. Of a key this is known, and no byte is looked at.
#[inline(always)]
fn put_known<const IS_KEY: bool>(buf: &mut [u8], at: usize, text: &[u8]) -> bool
    requires key { IS_KEY ≡ true → IsKey text.now }
    requires room { at + length text.now ≤ length buf.old }
    ensures placed { OnTrue result
        (Placed buf.old buf.new at (escape text.now) (at + length text.now)) }
    ensures kept { take at buf.new ≡ take at buf.old }
    ensures len { length buf.new ≡ length buf.old }
{
    if IS_KEY {
        put_text(buf, at, text);
        return true;
    }
    put_plain(buf, at, text)
}

/// Stores a text in quotes, where none of its bytes may need an escape.
#[inline(always)]
pub(crate) fn put_quoted<const IS_KEY: bool>(
    buf: &mut [u8],
    at: usize,
    comma: bool,
    text: &[u8],
) -> Option<usize>
    requires key { IS_KEY ≡ true → IsKey text.now }
    requires room { at + length text.now + 3 ≤ length buf.old }
    ensures placed { IfSome result (Placed buf.old buf.new at (comma_if comma ++ quoted text.now)) }
    ensures within { IfSome result (λ end. end ≤ at + length text.now + 3) }
    ensures kept { take at buf.new ≡ take at buf.old }
    ensures len { length buf.new ≡ length buf.old }
{
    let start = put_quote(buf, at, comma);
    if !put_known::<IS_KEY>(buf, start, text) {
        return None;
    }
    Some(put_byte(buf, start + text.len(), b'"'))
}

/// Stores a name in quotes and a colon, where none of its bytes may need an escape.
#[inline(always)]
pub(crate) fn put_name<const IS_KEY: bool>(
    buf: &mut [u8],
    at: usize,
    comma: bool,
    name: &[u8],
) -> Option<usize>
    requires key { IS_KEY ≡ true → IsKey name.now }
    requires room { at + length name.now + 4 ≤ length buf.old }
    ensures placed { IfSome result
        (Placed buf.old buf.new at (comma_if comma ++ (quoted name.now ++ 58 ∷ []))) }
    ensures within { IfSome result (λ end. end ≤ at + length name.now + 4) }
    ensures kept { take at buf.new ≡ take at buf.old }
    ensures len { length buf.new ≡ length buf.old }
{
    match put_quoted::<IS_KEY>(buf, at, comma, name) {
        Some(end) => Some(put_byte(buf, end, b':')),
        None => None,
    }
}
