//! The answer to a line.

ghost use Rattle.std.specs.Prelude.{◌≡◌, [], ◌∷◌, ◌++◌, ◌/◌, OnOk, length};
ghost use Rattle.link_msg.specs.Messages.{Means, FirstFault};
ghost use Rattle.link_msg.specs.declared.message.LinkMessage.{LinkMessage};
ghost use Rattle.message_shown.specs.Lines.{IsAnswerTo, AddsAnswerOf, AddsAnswerTo, AddsSpelled};
ghost use Rattle.message_shown.specs.Lines.{TellsMessage, whole_object, nothex_member};
ghost use Rattle.message_shown.specs.Whole.{IsWholeAnswer, IsWholeAnswerTo, ToBytes, ToLine};
ghost use Rattle.message_shown.specs.Worded.{words_shown};
ghost use Rattle.line_filter.specs.Lines.{with_lf};
ghost use Rattle.line_filter.specs.Runs.{answering};

use crate::context::{Context, Order};
use crate::fault::show_fault;
use crate::reading::Reading;
use crate::wire::cause_name;
use crate::worded::{order_for, show_words};
use frame_shown::message::show_message;
use line_filter::answers::Take;
use line_filter::digits::{decode, values};
use line_filter::words::{are_alone, digits_of, split};
use link_info::{Tables, all_rows};
use link_msg::{DecodeError, LinkMessage};
use shown::Room;
use std::alloc::{AllocError, Global};
use std::marker::Model;
use std::mem;

/// Answers lines by what they say, with room for the bytes of one line and for the page of its answer.
#[derive(Drop)]
pub struct Shown<R: Reading> {
    reading: R,
    message: Vec<u8>,
    room: Room,
    tables: Tables,
    order: Order,
}

impl<R: Reading> Model for Shown<R> {
    ghost use Rattle.link_info.specs.Rows.{AreAllRows};
    ghost use Rattle.frame_shown.specs.declared.form.Order.{Order};

    ghost Value = { Order };

    ghost view = { λ shown. shown.order };

    ghost invariant = { λ shown. AreAllRows shown.tables };
}

impl<R: Reading> Shown<R> {
    /// Bytes are read so. Counters of IPv6 have this order, where a line does not say another one.
    pub fn new(alloc: Global, reading: R, order: Order) -> Shown<R>
        ensures { result ≡ order }
    {
        Shown {
            reading,
            message: Vec::new(alloc),
            room: Room::new(alloc),
            tables: all_rows(),
            order,
        }
    }
}

impl<R: Reading> Shown<R> {
    /// Adds the answer to a line that spells these bytes.
    fn push_message(
        &mut self,
        alloc: Global,
        front: &[u8],
        bytes: &[u8],
        waiting: &mut Vec<u8>,
    ) -> Result<(), AllocError>
        ensures answer { OnOk result
            (AddsAnswerTo (ToLine R.is_answer self.old front.now)
            (words_shown front.now) bytes.now waiting.old.items waiting.new.items) }
        ensures kept { OnOk result (self.new ≡ self.old) }
    {
        let tables = self.tables;
        let cx = Context::new(alloc, &tables, order_for(front, self.order));
        let mut room = mem::replace(&mut self.room, Room::new(alloc));
        let done = self.reading.push(&cx, &mut room, waiting, front, bytes);
        self.room = room;
        done
    }

    /// Adds the answer to a line with these digits after its words. `message` has room for the bytes that they spell.
    fn push_digits(
        &mut self,
        alloc: Global,
        front: &[u8],
        digits: &[u8],
        message: &mut [u8],
        waiting: &mut Vec<u8>,
    ) -> Result<(), AllocError>
        requires { length message.old ≡ length digits.now / 2 }
        ensures answer { OnOk result
            (AddsSpelled (ToLine R.is_answer self.old front.now)
            (words_shown front.now) digits.now waiting.old.items waiting.new.items) }
        ensures kept { OnOk result (self.new ≡ self.old) }
    {
        if !decode(digits, values(), message) {
            return push_not_hex(alloc, &mut self.room, waiting, front);
        }
        self.push_message(alloc, front, message, waiting)
    }

    /// Adds the answer to a line with this rest after its words. `message` is room for the bytes that it spells.
    fn push_rest(
        &mut self,
        alloc: Global,
        front: &[u8],
        rest: &[u8],
        message: &mut Vec<u8>,
        waiting: &mut Vec<u8>,
    ) -> Result<(), AllocError>
        ensures answer { OnOk result
            (AddsAnswerOf (ToLine R.is_answer self.old front.now)
            front.now rest.now waiting.old.items waiting.new.items) }
        ensures kept { OnOk result (self.new ≡ self.old) }
    {
        if are_alone(front, rest) {
            return push_alone(alloc, &mut self.room, waiting, front);
        }
        let digits = digits_of(rest);
        message.resize(digits.len() / 2, 0)?;
        self.push_digits(alloc, front, digits, message.as_mut_slice(), waiting)
    }
}

impl<R: Reading> Take for Shown<R> {
    ghost takes = { answering (IsWholeAnswer R.is_answer) (λ order. order) };

    fn take(
        &mut self,
        alloc: Global,
        line: &[u8],
        waiting: &mut Vec<u8>,
    ) -> Result<(), AllocError> {
        let (front, rest) = split(line);
        let mut message = mem::replace(&mut self.message, Vec::new(alloc));
        let done = self.push_rest(alloc, front, rest, &mut message, waiting);
        self.message = message;
        done
    }
}

/// Adds the answer to a line whose bytes are a message.
pub(crate) fn push_message(
    cx: &Context<'_>,
    room: &mut Room,
    waiting: &mut Vec<u8>,
    front: &[u8],
    bytes: &[u8],
) -> Result<(), AllocError>
    requires { (m : LinkMessage) × Means bytes.now m }
    ensures { OnOk result
        (AddsAnswerTo (IsWholeAnswerTo cx.now) (words_shown front.now) bytes.now
        waiting.old.items waiting.new.items) }
{
    let mut page = room.begin()?;
    show_words(cx.alloc, &mut page, front)?;
    show_message(&cx.around, &mut page, bytes)?;
    room.finish(page, waiting)?;
    waiting.push(b'\n')?;
    Ok(())
}

/// Adds the answer to a line whose bytes are refused for this cause.
pub(crate) fn push_fault(
    cx: &Context<'_>,
    room: &mut Room,
    waiting: &mut Vec<u8>,
    front: &[u8],
    bytes: &[u8],
    error: &DecodeError,
) -> Result<(), AllocError>
    requires { FirstFault bytes.now error.now.cause }
    ensures { OnOk result
        (AddsAnswerTo (IsWholeAnswerTo cx.now) (words_shown front.now) bytes.now
        waiting.old.items waiting.new.items) }
{
    let mut page = room.begin()?;
    show_words(cx.alloc, &mut page, front)?;
    page.keyed_string("fault", cause_name(&error.cause))?;
    show_fault(cx, &mut page, bytes, error)?;
    room.finish(page, waiting)?;
    waiting.push(b'\n')?;
    Ok(())
}

/// Adds the answer to a line of words alone.
fn push_alone(
    alloc: Global,
    room: &mut Room,
    waiting: &mut Vec<u8>,
    front: &[u8],
) -> Result<(), AllocError>
    ensures { OnOk result (waiting.new.items ≡ waiting.old.items
        ++ with_lf (whole_object (words_shown front.now))) }
{
    let mut page = room.begin()?;
    show_words(alloc, &mut page, front)?;
    room.finish(page, waiting)?;
    waiting.push(b'\n')?;
    Ok(())
}

/// Adds the answer to a line without words whose rest spells no bytes.
pub fn push_bare_not_hex(waiting: &mut Vec<u8>) -> Result<(), AllocError>
    ensures { OnOk result (waiting.new.items ≡ waiting.old.items
        ++ with_lf (whole_object (nothex_member ∷ []))) }
{
    waiting.extend_from_slice(b"{\"fault\":\"not-hex\"}\n")?;
    Ok(())
}

/// Adds the answer to a line whose rest spells no bytes.
fn push_not_hex(
    alloc: Global,
    room: &mut Room,
    waiting: &mut Vec<u8>,
    front: &[u8],
) -> Result<(), AllocError>
    ensures { OnOk result (waiting.new.items ≡ waiting.old.items
        ++ with_lf (whole_object (words_shown front.now ++ nothex_member ∷ []))) }
{
    if front.is_empty() {
        push_bare_not_hex(waiting)?;
        return Ok(());
    }
    let mut page = room.begin()?;
    show_words(alloc, &mut page, front)?;
    page.keyed_string("fault", "not-hex")?;
    room.finish(page, waiting)?;
    waiting.push(b'\n')?;
    Ok(())
}

/// Adds the answer to a line that spells these bytes. Its page is written in this room.
pub fn push_bytes_in(
    cx: &Context<'_>,
    room: &mut Room,
    waiting: &mut Vec<u8>,
    front: &[u8],
    bytes: &[u8],
) -> Result<(), AllocError>
    ensures whole { OnOk result
        (AddsAnswerTo (IsWholeAnswerTo cx.now) (words_shown front.now) bytes.now
        waiting.old.items waiting.new.items) }
    ensures answer { OnOk result
        (AddsAnswerTo IsAnswerTo (words_shown front.now) bytes.now
        waiting.old.items waiting.new.items) }
    ensures told { OnOk result (TellsMessage (words_shown front.now) cx.now bytes.now
        waiting.old.items waiting.new.items) }
{
    match LinkMessage::check(bytes) {
        Ok(()) => push_message(cx, room, waiting, front, bytes),
        Err(error) => push_fault(cx, room, waiting, front, bytes, &error),
    }
}

/// Adds the answer to these bytes alone: what they say, or why they are no message. Counters of IPv6 have this order.
pub fn push_answer(
    alloc: Global,
    order: Order,
    waiting: &mut Vec<u8>,
    bytes: &[u8],
) -> Result<(), AllocError>
    ensures whole { OnOk result (AddsAnswerTo (ToBytes IsWholeAnswerTo order) [] bytes.now
        waiting.old.items waiting.new.items) }
    ensures answer { OnOk result
        (AddsAnswerTo IsAnswerTo [] bytes.now waiting.old.items waiting.new.items) }
{
    let tables = all_rows();
    let cx = Context::new(alloc, &tables, order);
    let mut room = Room::new(alloc);
    push_bytes_in(&cx, &mut room, waiting, &[], bytes)
}
