//! Bytes of which some attributes are refused: the others are shown, and those last.

ghost use Rattle.std.specs.Prelude.{◌≡◌, ◌≤◌, [], OnOk, get_or, length, map};
ghost use Rattle.link_msg.specs.Header.{header_size};
ghost use Rattle.link_msg.specs.Lenient.{MeansLeniently};
ghost use Rattle.link_msg.specs.Messages.{FirstFault, MeansNothing};
ghost use Rattle.link_msg.specs.Told.{told_all};
ghost use Rattle.link_msg.specs.declared.message.LinkMessage.{LinkMessage};
ghost use Rattle.shown.specs.Drafts.{with_members};
ghost use Rattle.message_shown.specs.Leniently.{AddsOne, AddsTold, AddsList, holder_members, frame_told};
ghost use Rattle.message_shown.specs.Leniently.{Fits, IsLenientAnswerTo, TellsLeniently, name_of};
ghost use Rattle.message_shown.specs.Lines.{AddsAnswerTo};
ghost use Rattle.message_shown.specs.Whole.{IsWholeLenientAnswerTo};
ghost use Rattle.message_shown.specs.Worded.{words_shown};

use crate::answers::{push_fault, push_message};
use crate::context::Context;
use crate::wire::{cause_name, show_cause};
use crate::worded::show_words;
use frame_shown::accepted::{are_frames, show_leniently};
use frame_shown::form::Form;
use frame_shown::tables::MESSAGE;
use link_msg::header::HEADER_SIZE;
use link_msg::{DecodeError, LinkMessage, NLA_TYPE_MASK, Refusal};
use shown::{Nest, Page, Room};
use std::alloc::AllocError;

/// Whether bytes are a header and frames that fit.
fn fits(bytes: &[u8]) -> bool
    ensures { Fits bytes.now result }
{
    if bytes.len() < HEADER_SIZE {
        return false;
    }
    let (_, rest) = bytes.split_at(HEADER_SIZE);
    are_frames(rest)
}

/// The name at a place of a table; behind the last one there is none.
fn name_at(rows: &[(&'static str, Form)], number: usize) -> &'static str
    ensures { result.now ≡ get_or (map (λ row. row.0.now) rows.now) number [] }
{
    if number < rows.len() {
        rows[number].0
    } else {
        ""
    }
}

/// The name of an attribute of this kind.
fn name_of(kind: u16) -> &'static str
    ensures { result.now ≡ name_of kind }
{
    name_at(&MESSAGE, (kind & NLA_TYPE_MASK) as usize)
}

/// Adds the name of an attribute of this kind, where these numbers lead to one that is inside of it.
fn show_holder(page: &mut Page, numbers: &[u16], kind: u16) -> Result<(), AllocError>
    ensures { OnOk result (page.new ≡ with_members (holder_members numbers.now kind) page.old) }
{
    match numbers {
        [_, _, ..] => page.keyed_string("in", name_of(kind)),
        _ => Ok(()),
    }
}

/// Adds the bytes of an attribute that is refused, behind its name where these numbers lead to one inside of it.
fn show_attribute(page: &mut Page, refusal: &Refusal<'_>, numbers: &[u16]) -> Result<(), AllocError>
    ensures { OnOk result
        (page.new ≡ with_members (frame_told numbers.now refusal.now.frame) page.old) }
{
    let Some((kind, payload)) = refusal.attribute() else {
        return Ok(());
    };
    show_holder(page, numbers, kind)?;
    page.hex("payload", payload)
}

/// Adds an attribute that is refused, to a list.
fn show_refusal(page: &mut Page, refusal: &Refusal<'_>) -> Result<(), AllocError>
    ensures { OnOk result (AddsOne refusal.now page.old page.new) }
{
    let error = refusal.error();
    let path = refusal.path();
    page.begin("", Nest::Object)?;
    page.keyed_string("at", error.place)?;
    page.keyed_string("fault", cause_name(&error.cause))?;
    show_cause(page, &error.cause)?;
    page.keyed_number("offset", path.offset as u64)?;
    show_attribute(page, refusal, path.numbers())?;
    page.end()
}

/// Adds the attributes that are refused, to a list.
fn show_refusals(page: &mut Page, bytes: &[u8]) -> Result<(), AllocError>
    requires { header_size ≤ length bytes.now }
    ensures { OnOk result (AddsTold (told_all bytes.now) page.old page.new) }
{
    let Ok(refusals) = LinkMessage::refusals(bytes) else {
        return Ok(());
    };
    for refusal in refusals {
        show_refusal(page, &refusal)?;
    }
    Ok(())
}

/// Adds the list of the attributes that are refused.
fn show_refused(page: &mut Page, bytes: &[u8]) -> Result<(), AllocError>
    requires { header_size ≤ length bytes.now }
    ensures { OnOk result (AddsList (told_all bytes.now) page.old page.new) }
{
    page.keyed_begin("refused", Nest::List)?;
    show_refusals(page, bytes)?;
    page.end()
}

/// Adds the answer to a line whose bytes mean a message leniently: the attributes that are accepted, and last those
/// that are refused.
fn push_accepted(
    cx: &Context<'_>,
    room: &mut Room,
    waiting: &mut Vec<u8>,
    front: &[u8],
    bytes: &[u8],
) -> Result<(), AllocError>
    requires { (m : LinkMessage) × MeansLeniently bytes.now m }
    ensures answer { OnOk result (AddsAnswerTo IsLenientAnswerTo (words_shown front.now) bytes.now
        waiting.old.items waiting.new.items) }
    ensures whole { OnOk result (MeansNothing bytes.now
        → AddsAnswerTo (IsWholeLenientAnswerTo cx.now) (words_shown front.now) bytes.now
        waiting.old.items waiting.new.items) }
{
    let mut page = room.begin()?;
    show_words(cx.alloc, &mut page, front)?;
    show_leniently(&cx.around, &mut page, cx.alloc, bytes)?;
    show_refused(&mut page, bytes)?;
    room.finish(page, waiting)?;
    waiting.push(b'\n')?;
    Ok(())
}

/// Adds the answer to a line whose bytes mean no message, for this cause.
fn push_refused(
    cx: &Context<'_>,
    room: &mut Room,
    waiting: &mut Vec<u8>,
    front: &[u8],
    bytes: &[u8],
    error: &DecodeError,
) -> Result<(), AllocError>
    requires { FirstFault bytes.now error.now.cause }
    ensures { OnOk result
        (AddsAnswerTo (IsWholeLenientAnswerTo cx.now) (words_shown front.now) bytes.now
        waiting.old.items waiting.new.items) }
{
    if fits(bytes) {
        return push_accepted(cx, room, waiting, front, bytes);
    }
    push_fault(cx, room, waiting, front, bytes, error)
}

/// Adds the answer to a line that spells these bytes, and writes its page in this room. The answer to bytes that are a
/// message is that of `push_bytes_in`, and so is that to bytes that are not even frames that fit. Of others the
/// attributes are shown that are accepted, and last, under `refused`, those that are not.
pub fn push_leniently_in(
    cx: &Context<'_>,
    room: &mut Room,
    waiting: &mut Vec<u8>,
    front: &[u8],
    bytes: &[u8],
) -> Result<(), AllocError>
    ensures whole { OnOk result
        (AddsAnswerTo (IsWholeLenientAnswerTo cx.now) (words_shown front.now) bytes.now
        waiting.old.items waiting.new.items) }
    ensures answer { OnOk result (AddsAnswerTo IsLenientAnswerTo (words_shown front.now) bytes.now
        waiting.old.items waiting.new.items) }
    ensures told { OnOk result (TellsLeniently (words_shown front.now) cx.now bytes.now
        waiting.old.items waiting.new.items) }
{
    match LinkMessage::check(bytes) {
        Ok(()) => push_message(cx, room, waiting, front, bytes),
        Err(error) => push_refused(cx, room, waiting, front, bytes, &error),
    }
}
