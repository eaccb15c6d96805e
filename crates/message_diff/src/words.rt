//! The words in front of a line that are told.

ghost use Rattle.std.specs.Prelude.{◌≡◌, ◌<◌, ◌++◌, OnOk, length, codes};
ghost use Rattle.line_filter.specs.Words.{value_in, words_of};
ghost use Rattle.shown.specs.Drafts.{with_members};
ghost use Rattle.message_diff.specs.Alone.{word_member, told_words, member_line, ToldAreApart};
ghost use Rattle.message_diff.specs.Faults.{told_front};

use line_filter::words::value_of;
use message_shown::answers::push_bare_not_hex;
use message_shown::worded::show_value;
use shown::Page;
use std::alloc::{AllocError, Global};

/// Adds the value of a word, if there is one with this key in front of the line.
fn show_told_word(page: &mut Page, front: &[u8], key: &str) -> Result<(), AllocError>
    ensures { OnOk result (page.new
        ≡ with_members (word_member key.now (value_in key.now (words_of front.now))) page.old) }
{
    match value_of(front, key.as_bytes()) {
        Some(value) => show_value(page, key, value),
        None => Ok(()),
    }
}

/// Adds the words in front of a line that are told: `type`, `time` and `host`.
pub fn show_told(page: &mut Page, front: &[u8]) -> Result<(), AllocError>
    ensures { OnOk result (page.new ≡ with_members (told_words front.now) page.old) }
{
    show_told_word(page, front, "type")?;
    show_told_word(page, front, "time")?;
    show_told_word(page, front, "host")
}

/// Begins a line by the words that are told, with a comma after each.
#[tactic(auto, unfolding(crate::specs::Faults::told_front))]
pub fn push_words(alloc: Global, front: &[u8], out: &mut Vec<u8>) -> Result<(), AllocError>
    ensures said { OnOk result (length out.old.items < length out.new.items) }
    ensures added { OnOk result (out.new.items ≡ out.old.items ++ told_front front.now) }
{
    let mut text = Vec::new(alloc);
    let mut page = Page::new(alloc)?;
    show_told(&mut page, front)?;
    page.finish(&mut text)?;
    text.pop();
    if text.len() > 1 {
        text.push(b',')?;
    }
    out.push(b'{')?;
    out.extend_from_slice(text.as_slice().get(1..).unwrap_or(b""))
}

/// Adds a line with the words that are told and this member alone.
pub fn push_line(
    alloc: Global,
    front: &[u8],
    name: &str,
    value: &str,
    out: &mut Vec<u8>,
) -> Result<(), AllocError>
    ensures { OnOk result (out.new.items
        ≡ out.old.items ++ member_line front.now name.now value.now) }
{
    let mut page = Page::new(alloc)?;
    show_told(&mut page, front)?;
    page.string(name, value)?;
    page.finish(out)?;
    out.push(b'\n')?;
    Ok(())
}

/// Adds a line with the words that are told and the fault of digits that spell no bytes.
pub fn push_not_hex(alloc: Global, front: &[u8], out: &mut Vec<u8>) -> Result<(), AllocError>
    ensures { OnOk result (out.new.items
        ≡ out.old.items ++ member_line front.now (codes "fault") (codes "not-hex")) }
{
    if front.is_empty() {
        push_bare_not_hex(out)?;
        return Ok(());
    }
    push_line(alloc, front, "fault", "not-hex", out)
}

/// No word that is told has the key of another member of its line.
pub fn law_words()
    ensures { ToldAreApart }
{}
