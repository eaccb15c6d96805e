//! Which words in front of a line are members of its answer.

ghost use Rattle.std.specs.Prelude.{◌≡◌, ◌<◌, false, List, [], IfSome, get_or, length, map, option_map};
ghost use Rattle.std.specs.Bool.{◌==◌, OnFalse};
ghost use Rattle.std.specs.List.{list_any};
ghost use lib.Pointwise.{pointwise};
ghost use Rattle.message_shown.specs.WordKeys.{written_keys, is_among, is_member, name_if, with_key};

use frame_shown::form::Form;
use frame_shown::tables::MESSAGE;
use std::marker::Model;
use std::str;

/// How many words of a line are members at most.
const MOST: usize = 32;

/// The keys of an answer that are no attribute's name, that of the list of words first.
const OWN_KEYS: [&str; 18] = [
    "words",
    "ifi-family",
    "ifi-type",
    "ifi-index",
    "ifi-flags",
    "ifi-change",
    "repeated",
    "other",
    "refused",
    "fault",
    "at",
    "got",
    "need",
    "want",
    "left",
    "length",
    "offset",
    "before",
];

/// The bytes that the keys of an answer begin with, by their lengths.
const FIRSTS: [&[u8]; 27] = [
    b"",
    b"",
    b"a",
    b"gmpx",
    b"clnw",
    b"efgoqsw",
    b"bilmnotw",
    b"acimrs",
    b"adehilprtvw",
    b"binop",
    b"ainp",
    b"npv",
    b"dglpt",
    b"n",
    b"pt",
    b"cnp",
    b"c",
    b"gp",
    b"c",
    b"p",
    b"",
    b"",
    b"",
    b"",
    b"",
    b"",
    b"m",
];

/// The bytes that the keys of this length begin with.
fn firsts_of<'a>(firsts: &[&'a [u8]], len: usize) -> &'a [u8]
    requires { len < length firsts.now }
    ensures { result.now ≡ get_or (map (λ f. f.now) firsts.now) len [] }
{
    firsts[len]
}

/// Whether a byte is one of these.
fn has_byte(bytes: &[u8], byte: u8) -> bool
    ensures { result ≡ list_any (λ y. y == byte) bytes.now }
{
    bytes.contains(&byte)
}

/// Whether a key may be one that the program writes, by its length and its first byte. So the keys of most words are
/// compared with no name.
fn may_be_written(key: &[u8]) -> bool
    ensures { OnFalse result (is_among key.now written_keys ≡ false) }
{
    if key.is_empty() {
        return true;
    }
    key.len() < FIRSTS.len() && has_byte(firsts_of(&FIRSTS, key.len()), key[0])
}

/// Whether it is one of these names.
fn has_name(names: &[&str], key: &[u8]) -> bool
    ensures { result ≡ list_any (λ name. pointwise ◌==◌ name.now key.now) names.now }
{
    for name in names {
        if name.as_bytes() == key {
            return true;
        }
    }
    false
}

/// Whether an attribute of these has this name.
fn has_row(rows: &[(&str, Form)], key: &[u8]) -> bool
    ensures { result ≡ list_any (λ row. pointwise ◌==◌ row.0.now key.now) rows.now }
{
    for row in rows {
        if row.0.as_bytes() == key {
            return true;
        }
    }
    false
}

/// Whether the program writes this key.
fn is_written(key: &[u8]) -> bool
    ensures { result ≡ is_among key.now written_keys }
{
    may_be_written(key) && (has_name(&OWN_KEYS, key) || has_row(&MESSAGE, key))
}

/// Whether it is one of these keys.
fn is_among(key: &[u8], keys: &[&[u8]]) -> bool
    ensures { result ≡ is_among key.now (map (λ k. k.now) keys.now) }
{
    keys.contains(&key)
}

/// The name of the member that a word of this key is, where these are the keys of the members before it.
fn name_of<'a>(keys: &[&[u8]], key: &'a [u8]) -> Option<&'a str>
    ensures name { option_map (λ name. name.now) result
        ≡ name_if (is_member written_keys (map (λ k. k.now) keys.now) key.now) key.now }
    ensures few { IfSome result (λ _. length keys.now < 32) }
{
    if keys.len() >= MOST || is_written(key) || is_among(key, keys) {
        return None;
    }
    match str::from_utf8(key) {
        Ok(name) => Some(name),
        Err(_) => None,
    }
}

/// The keys of the words that are members so far.
#[derive(Drop)]
pub(crate) struct Keys<'a> {
    keys: [&'a [u8]; MOST],
    len: usize,
}

impl<'a> Model for Keys<'a> {
    ghost use Rattle.std.specs.Prelude.{ℕ, ◌≤◌, List, map, take};

    ghost Value = { List (List ℕ) };

    ghost view = { λ s. map (λ k. k.now) (take s.len s.keys) };

    ghost invariant = { λ s. s.len ≤ 32 };
}

impl<'a> Keys<'a> {
    /// None.
    pub(crate) fn new() -> Keys<'a>
        ensures { result ≡ [] }
    {
        Keys {
            keys: [b""; MOST],
            len: 0,
        }
    }

    /// The name of the member that a word of this key is, if it is one; its key is then one of these.
    pub(crate) fn take(&mut self, key: &'a [u8]) -> Option<&'a str>
        ensures name { option_map (λ name. name.now) result
            ≡ name_if (is_member written_keys self.old key.now) key.now }
        ensures keys { self.new
            ≡ with_key (is_member written_keys self.old key.now) key.now self.old }
    {
        let name = name_of(&self.keys[..self.len], key)?;
        self.keys[self.len] = key;
        self.len += 1;
        Some(name)
    }
}
