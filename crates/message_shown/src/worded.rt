//! The words in front of a line: what they are shown as, and the kernel that they name.

ghost use Rattle.std.specs.Prelude.{◌≡◌, ◌≤◌, ◌++◌, [], ◌∷◌, not, true, false, OnOk, IfOk, length};
ghost use Rattle.json.specs.Token.{string};
ghost use Rattle.line_filter.specs.Words.{has_word, first_key, first_value, words_of};
ghost use Rattle.shown.specs.Drafts.{with_members, with_value};
ghost use Rattle.frame_shown.specs.Items.{are_any};
ghost use Rattle.message_shown.specs.WordKeys.{written_keys, is_member, with_key};
ghost use Rattle.message_shown.specs.Worded.{digits_len, number_of, order_in, order_of, order_for, word_text};
ghost use Rattle.message_shown.specs.Worded.{words_shown, member_if, members_in, others_in, as_items, list_shown};
ghost use Rattle.message_shown.specs.Worded.{WordsAreApart, EachWordIsShown};

use crate::context::{Order, text_of};
use crate::word_keys::Keys;
use line_filter::words::{Word, first_word, value_of};
use shown::{Nest, Page};
use std::alloc::{AllocError, Global};

/// Adds the value of a word under its name: bytes that are no UTF-8 are shown by their digits.
pub fn show_value(page: &mut Page, name: &str, value: &[u8]) -> Result<(), AllocError>
    ensures { OnOk result (page.new
        ≡ with_value name.now (string (word_text value.now) ∷ []) page.old) }
{
    match text_of(value) {
        Some(text) => page.string(name, text),
        None => page.hex(name, value),
    }
}

/// Adds a word if it is a member; whether it is none.
fn show_member<'a>(
    keys: &mut Keys<'a>,
    page: &mut Page,
    key: &'a [u8],
    value: &[u8],
) -> Result<bool, AllocError>
    ensures other { IfOk result (λ other. other ≡ not (is_member written_keys keys.old key.now)) }
    ensures keys { keys.new
        ≡ with_key (is_member written_keys keys.old key.now) key.now keys.old }
    ensures page { OnOk result (page.new ≡ with_members
        (member_if (is_member written_keys keys.old key.now) (key.now, value.now)) page.old) }
{
    match keys.take(key) {
        Some(name) => {
            show_value(page, name, value)?;
            Ok(false)
        }
        None => Ok(true),
    }
}

/// Adds the words that are members; whether there are others.
fn show_members(page: &mut Page, line: &[u8]) -> Result<bool, AllocError>
    ensures others { IfOk result
        (λ others. others ≡ are_any (others_in written_keys [] (words_of line.now))) }
    ensures page { OnOk result (page.new
        ≡ with_members (members_in written_keys [] (words_of line.now)) page.old) }
{
    let mut keys = Keys::new();
    let mut others = false;
    let mut rest = line;
    while let Some(word) = first_word(rest) {
        others |= show_member(&mut keys, page, word.key, word.value)?;
        rest = &rest[word.len..];
    }
    Ok(others)
}

/// A word as it stands in front of a line.
fn text_of_word<'a>(line: &'a [u8], word: &Word<'_>) -> &'a [u8]
    requires is { has_word line.now ≡ true }
    requires key { word.now.key.now ≡ first_key line.now }
    requires value { word.now.value.now ≡ first_value line.now }
    ensures { result.now ≡ first_key line.now ++ 61 ∷ first_value line.now }
{
    &line[..word.key.len() + 1 + word.value.len()]
}

/// Adds a word, as it stands, to a list, unless it is a member.
fn show_other<'a>(
    keys: &mut Keys<'a>,
    page: &mut Page,
    key: &'a [u8],
    text: &[u8],
) -> Result<(), AllocError>
    ensures keys { keys.new
        ≡ with_key (is_member written_keys keys.old key.now) key.now keys.old }
    ensures member { OnOk result
        (is_member written_keys keys.old key.now ≡ true → page.new ≡ page.old) }
    ensures other { OnOk result (is_member written_keys keys.old key.now ≡ false
        → page.new ≡ with_members (as_items (text.now ∷ [])) page.old) }
{
    match keys.take(key) {
        Some(_) => Ok(()),
        None => show_value(page, "", text),
    }
}

/// Adds the words that are no members, as they stand, to a list.
fn show_items(page: &mut Page, line: &[u8]) -> Result<(), AllocError>
    ensures { OnOk result (page.new
        ≡ with_members (as_items (others_in written_keys [] (words_of line.now))) page.old) }
{
    let mut keys = Keys::new();
    let mut rest = line;
    while let Some(word) = first_word(rest) {
        let text = text_of_word(rest, &word);
        show_other(&mut keys, page, word.key, text)?;
        rest = &rest[word.len..];
    }
    Ok(())
}

/// Adds the list of the words that are no members, if there are any.
fn show_others(page: &mut Page, line: &[u8]) -> Result<(), AllocError>
    requires { are_any (others_in written_keys [] (words_of line.now)) ≡ true }
    ensures { OnOk result (page.new
        ≡ with_members (list_shown (others_in written_keys [] (words_of line.now))) page.old) }
{
    page.begin("words", Nest::List)?;
    show_items(page, line)?;
    page.end()
}

/// Adds the words in front of a line.
pub fn show_words(_alloc: Global, page: &mut Page, line: &[u8]) -> Result<(), AllocError>
    ensures { OnOk result (page.new ≡ with_members (words_shown line.now) page.old) }
{
    if line.is_empty() {
        return Ok(());
    }
    if show_members(page, line)? {
        return show_others(page, line);
    }
    Ok(())
}

/// No word has a key of the rest of an answer, no two members have one key, and no word is left out.
pub fn law_words()
    ensures apart { WordsAreApart }
    ensures each { EachWordIsShown }
{}

/// How many digits a text begins with.
fn digits_len(text: &[u8]) -> usize
    ensures len { result ≡ digits_len text.now }
    ensures within { result ≤ length text.now }
{
    text.iter()
        .take_while(|byte| b'0' <= **byte && **byte <= b'9')
        .count()
}

/// The number of digits, as far as it is below 9999.
fn number_of(digits: &[u8]) -> u64
    ensures { result ≡ number_of digits.now }
{
    let mut number = 0;
    for digit in digits {
        number = (number * 10 + (*digit).saturating_sub(b'0') as u64).min(9999);
    }
    number
}

/// The order of the counters of IPv6 in this release.
fn order_in(major: u64, minor: u64) -> Order
    ensures { result ≡ order_in major minor }
{
    if major < 6 || (major == 6 && minor < 13) {
        Order::Before
    } else if major == 6 && minor < 16 {
        Order::Unknown
    } else {
        Order::Since
    }
}

/// The order of the counters of IPv6 in the release of a kernel, as `6.12.0-47`: two numbers with a dot between them,
/// and anything behind them; none where the text is no release.
pub fn order_of(release: &[u8]) -> Option<Order>
    ensures { result ≡ order_of release.now }
{
    let (major, rest) = release.split_at(digits_len(release));
    let [b'.', rest @ ..] = rest else {
        return None;
    };
    let (minor, _) = rest.split_at(digits_len(rest));
    if major.is_empty() || minor.is_empty() {
        return None;
    }
    Some(order_in(number_of(major), number_of(minor)))
}

/// The order that a line says by its first word `kernel`, or another one where it says none. A word that is no release
/// leaves the order unknown.
pub fn order_for(line: &[u8], other: Order) -> Order
    ensures { result ≡ order_for line.now other }
{
    match value_of(line, b"kernel") {
        Some(release) => order_of(release).unwrap_or(Order::Unknown),
        None => other,
    }
}
