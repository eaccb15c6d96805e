//! Words `key=value` in front of a line.

ghost use Rattle.std.specs.Prelude.{◌≡◌, ◌<◌, ◌≤◌, ◌++◌, false, true, drop, length};
ghost use Rattle.std.specs.Prelude.{MatchOption, IfSome, Some, None};
ghost use Rattle.std.specs.List.{prefix_len};
ghost use Rattle.line_filter.specs.Words.{is_blank, part_len, has_word, step_len, first_key, first_value};
ghost use Rattle.line_filter.specs.Words.{are_alone, digits_of, front_len, front_of, rest_of, words_of, value_in};

use memchr::{memchr, memchr2};

/// A word in front of a line.
#[derive(Clone, Copy, Debug)]
pub struct Word<'a> {
    /// What stands before its first `=`: never empty.
    pub key: &'a [u8],
    /// What stands after its first `=`.
    pub value: &'a [u8],
    /// How many bytes it takes up, with the blanks after it.
    pub len: usize,
}

/// How many blanks a text begins with: spaces and tabs.
fn blanks_len(text: &[u8]) -> usize
    ensures { result ≡ prefix_len is_blank text.now }
{
    text.iter()
        .take_while(|byte| **byte == b' ' || **byte == b'\t')
        .count()
}

/// How long the first part of a line is, which a blank or the line's end follows.
fn part_len(line: &[u8]) -> usize
    ensures len { result ≡ part_len line.now }
    ensures within { result ≤ length line.now }
{
    match memchr2(b' ', b'\t', line) {
        Some(end) => end,
        None => line.len(),
    }
}

/// The word that stands first in a line, if one does.
///
/// A word is `key=value`: no blank is in it, the key is not empty and holds no `=`, the value may be empty and may hold
/// any other byte, and a blank or the line's end follows it.
pub fn first_word(line: &[u8]) -> Option<Word<'_>>
    ensures none { MatchOption result (has_word line.now ≡ false) (λ _. has_word line.now ≡ true) }
    ensures key { IfSome result (λ word. word.key.now ≡ first_key line.now) }
    ensures value { IfSome result (λ word. word.value.now ≡ first_value line.now) }
    ensures len { IfSome result (λ word. word.len ≡ step_len line.now) }
    ensures some { IfSome result (λ word. 0 < word.len) }
    ensures within { IfSome result (λ word. word.len ≤ length line.now) }
{
    let equals = memchr(b'=', line)?;
    let end = part_len(line);
    if equals == 0 || end <= equals {
        return None;
    }
    let blanks = blanks_len(&line[end..]);
    Some(Word {
        key: &line[..equals],
        value: &line[equals + 1..end],
        len: end + blanks,
    })
}

/// How many bytes the words in front of a line take up, with the blanks after each.
pub fn words_len(line: &[u8]) -> usize
    ensures len { result ≡ front_len line.now }
    ensures within { result ≤ length line.now }
    ensures over { has_word (drop result line.now) ≡ false }
{
    let mut at = 0;
    while let Some(word) = first_word(&line[at..]) {
        at += word.len;
    }
    at
}

/// The words in front of a line, as they stand, with the blanks after each, and the rest of the line.
///
/// A line with no word in front is all rest.
#[inline(always)]
pub fn split(line: &[u8]) -> (&[u8], &[u8])
    ensures front { result.0.now ≡ front_of line.now }
    ensures rest { result.1.now ≡ rest_of line.now }
    ensures whole { line.now ≡ result.0.now ++ result.1.now }
    ensures over { has_word result.1.now ≡ false }
{
    line.split_at(words_len(line))
}

/// Whether words stand in front and nothing follows them: such a line is no message.
pub fn are_alone(front: &[u8], rest: &[u8]) -> bool
    ensures { result ≡ are_alone front.now rest.now }
{
    0 < front.len() && rest.len() == 0
}

/// The digits of what follows the words in front. The word `ok` before them, which an answer of `linkwire` has, is
/// passed over.
pub fn digits_of(rest: &[u8]) -> &[u8]
    ensures { result.now ≡ digits_of rest.now }
{
    match rest.strip_prefix(b"ok ") {
        Some(digits) => digits,
        None => rest,
    }
}

/// The value of a key among the words in front of a line.
///
/// Where two words have the key, it is that of the first: what was put in front of a line later counts.
pub fn value_of<'a>(line: &'a [u8], key: &[u8]) -> Option<&'a [u8]>
    ensures { let value = value_in key.now (words_of line.now) in
        MatchOption result (value ≡ None) (λ found. value ≡ Some found.now) }
{
    let mut rest = line;
    while let Some(word) = first_word(rest) {
        if word.key == key {
            return Some(word.value);
        }
        rest = &rest[word.len..];
    }
    None
}
