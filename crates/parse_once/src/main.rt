//! Reads one message from standard input, with one read, and prints what each call that takes memory returns of it.
#![tactic(auto)]

mod digits;
mod refused;

use digits::Digits;
use link_msg::{LinkExtentMask, LinkMessage, canonical, same_message};
use nla_wire::CloneIn;
use refused::Refused;
use std::alloc::Global;
use std::fmt::Debug;
use std::io::{self, Read};
use std::process::ExitCode;

/// How many bytes are read at most.
const ROOM: usize = 512;

/// Two flags that are listed, and one that is not.
const MASK: u32 = 0x109;

/// Prints what a call returned, or why it returned nothing.
fn tell<T: Debug + Drop>(
    rt: &impl Print,
    call: &str,
    answer: Result<T, Refused>,
) -> io::Result<()> {
    match answer {
        Ok(value) => println!(rt; "{call}: {value:?}"),
        Err(refused) => println!(rt; "{call}: {refused}"),
    }
}

/// What `LinkMessage::parse` returns.
fn parsed(alloc: Global, bytes: &[u8]) -> Result<LinkMessage, Refused> {
    Ok(LinkMessage::parse(alloc, bytes)?)
}

/// The calls of a message.
fn tell_of_message(rt: &impl Print, alloc: Global, message: &LinkMessage) -> io::Result<()> {
    let copy = message.clone_in(alloc).map_err(Refused::from);
    tell(rt, "clone_in", copy)?;
    let text = message.to_vec(alloc).map(Digits).map_err(Refused::from);
    tell(rt, "to_vec", text)?;
    let same = message.reads_back(alloc).map_err(Refused::from);
    tell(rt, "reads_back", same)
}

/// The calls of bytes.
fn tell_of_bytes(rt: &impl Print, alloc: Global, bytes: &[u8]) -> io::Result<()> {
    let text = canonical(alloc, bytes).map(Digits).map_err(Refused::from);
    tell(rt, "canonical", text)?;
    let same = same_message(alloc, bytes, bytes).map_err(Refused::from);
    tell(rt, "same_message", same)?;
    let front = LinkMessage::parse_before_fault(alloc, bytes).map_err(Refused::from);
    tell(rt, "parse_before_fault", front)?;
    let list = LinkExtentMask::list_from(alloc, MASK).map_err(Refused::from);
    tell(rt, "list_from", list)
}

/// All calls. Where the first reading is refused the message is read once more, for the calls that want one.
fn tell_all(rt: &impl Print, alloc: Global, bytes: &[u8]) -> io::Result<()> {
    match parsed(alloc, bytes) {
        Ok(message) => {
            println!(rt; "parse: {message:?}")?;
            tell_of_message(rt, alloc, &message)?;
        },
        Err(refused) => {
            println!(rt; "parse: {refused}")?;
            if let Ok(message) = parsed(alloc, bytes) {
                tell_of_message(rt, alloc, &message)?;
            }
        },
    }
    tell_of_bytes(rt, alloc, bytes)
}

fn main(rt: HostRuntime) -> ExitCode {
    let mut room = [0u8; ROOM];
    let Ok(len) = rt.stdin().read(&mut room) else {
        return ExitCode::FAILURE;
    };
    match tell_all(&rt, rt.alloc(), &room[..len]) {
        Ok(()) => ExitCode::SUCCESS,
        Err(_) => ExitCode::FAILURE,
    }
}
