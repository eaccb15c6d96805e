//! Shows lines of hexadecimal link messages as lines of JSON, by their values: a line is read, what was read of it is
//! written again, and the frames of that are shown. It is what linkshow writes of those that are messages, and of
//! others what can be read of them. A word `before` or `since` says which order the counters of IPv6 have, and a word
//! `lenient` that attributes which are refused do not hide the others.
// Tests: `stdin` and `stdout` beside `src`. Edits: edits/beside.txt.
#![tactic(auto)]

ghost use Rattle.std.specs.Prelude.{OnOk};
ghost use Rattle.beside.specs.Grown.{Grows};

use frame_shown::accepted::{show_before, show_leniently};
use frame_shown::message::{rest_of, show_message};
use line_filter::answers::Take;
use line_filter::digits::{decode, values};
use line_filter::program::{ended, refuse_all};
use line_filter::run::read_lines;
use link_info::{Tables, all_rows};
use link_msg::header::HEADER_SIZE;
use link_msg::{CanonError, Cause, LinkMessage};
use message_shown::context::{Context, Order};
use shown::{Page, Room};
use std::alloc::{AllocError, Global};
use std::env::{self, Args};
use std::process::ExitCode;

/// The name of the program.
const NAME: &str = "beside";

/// What lines are answered by.
#[derive(Drop)]
struct Lines {
    room: Room,
    message: Vec<u8>,
    tables: Tables,
    order: Order,
    is_lenient: bool,
    alloc: Global,
}

/// What was read of bytes, written behind their header. What no encoding has is shown as it is spelled.
fn written(alloc: Global, message: &LinkMessage, bytes: &[u8]) -> Result<Vec<u8>, AllocError> {
    match message.to_vec(alloc) {
        Ok(encoding) => {
            let mut text = bytes[..HEADER_SIZE.min(bytes.len())].to_vec(alloc)?;
            text.extend_from_slice(rest_of(encoding.as_slice()))?;
            Ok(text)
        }
        Err(CanonError::OutOfMemory) => Err(AllocError),
        Err(_) => bytes.to_vec(alloc),
    }
}

/// Adds what stands in front of a fault: family and index, and the attributes in front of the one that is refused.
fn show_front(cx: &Context<'_>, page: &mut Page, bytes: &[u8]) -> Result<(), AllocError> {
    match LinkMessage::parse_before_fault(cx.alloc, bytes) {
        Ok((message, _)) => {
            let text = written(cx.alloc, &message, bytes)?;
            show_before(&cx.around, page, cx.alloc, text.as_slice())
        }
        Err(error) => match error.cause {
            Cause::OutOfMemory => Err(AllocError),
            _ => Ok(()),
        },
    }
}

/// Adds why bytes are no message, and what stands in front of that.
fn show_fault(cx: &Context<'_>, page: &mut Page, bytes: &[u8]) -> Result<(), AllocError> {
    page.string("fault", "refused")?;
    show_front(cx, page, bytes)
}

/// Adds what is read of bytes that are no message, leniently: the attributes that are accepted.
fn show_accepted(cx: &Context<'_>, page: &mut Page, bytes: &[u8]) -> Result<(), AllocError> {
    match LinkMessage::parse_lenient(cx.alloc, bytes) {
        Ok(message) => {
            let text = written(cx.alloc, &message, bytes)?;
            show_leniently(&cx.around, page, cx.alloc, text.as_slice())
        }
        Err(error) => match error.cause {
            Cause::OutOfMemory => Err(AllocError),
            _ => show_fault(cx, page, bytes),
        },
    }
}

/// Adds what is read of bytes.
fn show_bytes(
    cx: &Context<'_>,
    page: &mut Page,
    bytes: &[u8],
    is_lenient: bool,
) -> Result<(), AllocError> {
    match LinkMessage::parse(cx.alloc, bytes) {
        Ok(message) => {
            let text = written(cx.alloc, &message, bytes)?;
            show_message(&cx.around, page, text.as_slice())
        }
        Err(error) => match error.cause {
            Cause::OutOfMemory => Err(AllocError),
            _ if is_lenient => show_accepted(cx, page, bytes),
            _ => show_fault(cx, page, bytes),
        },
    }
}

/// Adds what bytes say.
fn push_bytes(lines: &mut Lines, bytes: &[u8], waiting: &mut Vec<u8>) -> Result<(), AllocError>
    ensures { OnOk result (Grows waiting.old.items waiting.new.items) }
{
    let tables = lines.tables;
    let cx = Context::new(lines.alloc, &tables, lines.order);
    let mut page = lines.room.begin()?;
    show_bytes(&cx, &mut page, bytes, lines.is_lenient)?;
    lines.room.finish(page, waiting)?;
    waiting.extend_from_slice(b"\n")
}

/// Adds what digits spell.
fn push_digits(
    lines: &mut Lines,
    line: &[u8],
    message: &mut Vec<u8>,
    waiting: &mut Vec<u8>,
) -> Result<(), AllocError>
    ensures { OnOk result (Grows waiting.old.items waiting.new.items) }
{
    message.resize(line.len() / 2, 0)?;
    if !decode(line, values(), message.as_mut_slice()) {
        return waiting.extend_from_slice(b"{\"fault\":\"not-hex\"}\n");
    }
    push_bytes(lines, message.as_slice(), waiting)
}

/// Adds the answer to a line.
fn answer(
    lines: &mut Lines,
    alloc: Global,
    line: &[u8],
    waiting: &mut Vec<u8>,
) -> Result<(), AllocError>
    ensures { OnOk result (Grows waiting.old.items waiting.new.items) }
{
    let mut message = std::mem::replace(&mut lines.message, Vec::new(alloc));
    let done = push_digits(lines, line, &mut message, waiting);
    lines.message = message;
    done
}

impl Take for Lines {
    ghost takes = { λ old line new added. Unit {0} };

    fn take(
        &mut self,
        alloc: Global,
        line: &[u8],
        waiting: &mut Vec<u8>,
    ) -> Result<(), AllocError> {
        answer(self, alloc, line, waiting)
    }
}

/// The order that these words ask for, and whether lines are read leniently. The first word is the program's name.
fn asked_in(words: Args) -> (Order, bool) {
    let mut order = Order::Unknown;
    let mut is_lenient = false;
    for word in words.skip(1) {
        if word.as_str() == "before" {
            order = Order::Before;
        }
        if word.as_str() == "since" {
            order = Order::Since;
        }
        if word.as_str() == "lenient" {
            is_lenient = true;
        }
    }
    (order, is_lenient)
}

fn main(rt: HostRuntime) -> ExitCode {
    let (order, is_lenient) = match env::args(&rt) {
        Ok(words) => asked_in(words),
        Err(error) => return refuse_all(&rt, NAME, error.kind()),
    };
    let mut reader = rt.stdin();
    let mut writer = rt.stdout();
    let mut lines = Lines {
        room: Room::new(rt.alloc()),
        message: Vec::new(rt.alloc()),
        tables: all_rows(),
        order,
        is_lenient,
        alloc: rt.alloc(),
    };
    let outcome = read_lines(rt.alloc(), &mut lines, &mut reader, &mut writer);
    ended(&rt, NAME, outcome)
}
