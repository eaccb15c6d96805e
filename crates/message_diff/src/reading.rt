//! What a line says.

ghost use Rattle.std.specs.Prelude.{◌≡◌, ◌≢◌, ◌++◌, ℕ, List, IfOk, OnOk};
ghost use Rattle.line_filter.specs.Words.{value_in, words_of};
ghost use Rattle.link_msg.specs.declared.encoding.CanonError.TheVariants.{OutOfMemory};
ghost use Rattle.message_diff.specs.Faults.{IsAnswered, AddsFault};
ghost use Rattle.message_diff.specs.Known.{dump_name, value_or_nothing};
ghost use Rattle.message_diff.specs.Said.{is_type, sort_of, key_in, accepted_says, refused_says};
ghost use Rattle.message_diff.specs.Said.{family_in, family_of, SaysWords, AddsCompared, AddsMessage, AddsSays};

use crate::announced::{is_wireless_alone, without_event};
use crate::key::Key;
use crate::snapshot::{Compared, Snapshot};
use crate::words::{push_line, push_not_hex, push_words};
use frame_shown::form::Order;
use line_filter::digits::{decode, values};
use line_filter::words::{are_alone, digits_of, value_of};
use link_msg::CanonError;
use message_shown::answers::push_answer;
use message_shown::context::text_of;
use message_shown::worded::order_for;
use std::alloc::{AllocError, Global};

/// What a line says of its host.
#[derive(Drop)]
pub enum Said {
    /// What an interface is.
    Is(Key, Snapshot),
    /// That an interface is there: its message is refused.
    Refused(Key),
    /// That an interface went, and what it was, unless that is refused.
    Went(Key, Option<Snapshot>),
    /// That a dump with this name begins.
    Begin(Vec<u8>),
    /// That the dump with this name ended, and all links of the family were in it.
    Done(Vec<u8>, u8),
    /// That messages were lost.
    Lost,
    /// Something of an interface, and not of which one.
    Blind,
    /// Nothing of an interface.
    Nothing,
}

/// Reads lines, with room for what one of them holds.
#[derive(Drop)]
pub struct LineReader {
    by: Compared,
    message: Vec<u8>,
}

/// Adds a line with the words and the fault of bytes that are no message, as linkshow tells it: what stood before it by
/// the kernel that the words name.
fn push_decode_fault(
    alloc: Global,
    front: &[u8],
    bytes: &[u8],
    out: &mut Vec<u8>,
) -> Result<(), AllocError>
    ensures { OnOk result ((line : List ℕ) × IsAnswered front.now bytes.now line
        × (out.new.items ≡ out.old.items ++ line)) }
{
    let mut shown = Vec::new(alloc);
    push_answer(alloc, order_for(front, Order::Unknown), &mut shown, bytes)?;
    push_words(alloc, front, out)?;
    out.extend_from_slice(shown.as_slice().strip_prefix(b"{").unwrap_or(b""))
}

/// Adds a line with the words and the fault of bytes that are refused for this reason.
fn push_refusal(
    alloc: Global,
    front: &[u8],
    bytes: &[u8],
    error: CanonError,
    out: &mut Vec<u8>,
) -> Result<(), AllocError>
    ensures added { OnOk result
        (AddsFault front.now bytes.now error out.old.items out.new.items) }
    ensures known { OnOk result (error ≢ OutOfMemory) }
{
    match error {
        CanonError::OutOfMemory => Err(AllocError),
        CanonError::Decode(_) => push_decode_fault(alloc, front, bytes, out),
        CanonError::DoesNotFit => push_line(alloc, front, "fault", "unfit", out),
        CanonError::EmptyVfPorts => push_line(alloc, front, "fault", "empty-ports", out),
    }
}

/// The value of a word in front of a line, or nothing.
pub fn word_of<'a>(front: &'a [u8], key: &[u8]) -> &'a [u8]
    ensures { result.now ≡ value_or_nothing (value_in key.now (words_of front.now)) }
{
    if front.is_empty() {
        return b"";
    }
    match value_of(front, key) {
        Some(value) => value,
        None => b"",
    }
}

/// The name of the dump that a line with these words is of: its number and its port.
fn dump_of(alloc: Global, front: &[u8]) -> Result<Vec<u8>, AllocError>
    ensures { IfOk result (λ name. name.items ≡ dump_name (words_of front.now)) }
{
    let mut name = word_of(front, b"seq").to_vec(alloc)?;
    name.push(b' ')?;
    name.extend_from_slice(word_of(front, b"port"))?;
    Ok(name)
}

/// The family that a text is.
fn parse_family(text: &str) -> Option<u8>
    ensures { result ≡ family_of text.now }
{
    text.parse::<u8>().ok()
}

/// The family that a line says by its words.
#[tactic(auto, unfolding(crate::specs::Said::family_in))]
fn family_of(front: &[u8]) -> Option<u8>
    ensures { result ≡ family_in front.now }
{
    parse_family(text_of(value_of(front, b"family")?)?)
}

/// Whether the word `type` in front of a line is this.
fn is_type(front: &[u8], name: &[u8]) -> bool
    ensures { result ≡ is_type front.now name.now }
{
    word_of(front, b"type") == name
}

/// What words alone say.
fn said_by_words(alloc: Global, front: &[u8]) -> Result<Said, AllocError>
    ensures { IfOk result (SaysWords front.now) }
{
    if is_type(front, b"begin") {
        return Ok(Said::Begin(dump_of(alloc, front)?));
    }
    if is_type(front, b"lost") {
        return Ok(Said::Lost);
    }
    if is_type(front, b"done") {
        if let Some(family) = family_of(front) {
            return Ok(Said::Done(dump_of(alloc, front)?, family));
        }
    }
    Ok(Said::Nothing)
}

/// What the word `type` says of a message.
#[derive(Clone, Copy, Debug, PartialEq, Eq)]
enum Sort {
    /// `del`: that its interface went.
    Gone,
    /// `get` or `set`: what somebody asked for.
    Asked,
    /// Anything else: that its interface is there.
    There,
}

/// What the word `type` says of a message.
fn sort_of(front: &[u8]) -> Sort
    ensures { result ≡ sort_of front.now }
{
    let name = word_of(front, b"type");
    if name == b"del".as_slice() {
        Sort::Gone
    } else if name == b"get".as_slice() || name == b"set".as_slice() {
        Sort::Asked
    } else {
        Sort::There
    }
}

/// What a line with these words and this message says, where that tells what its interface is, or nothing of it.
fn said_of(front: &[u8], bytes: &[u8], tells: bool, snapshot: Snapshot) -> Said
    ensures { result ≡ accepted_says (sort_of front.now) tells (key_in bytes.now) snapshot }
{
    let Some(key) = Key::of(bytes) else {
        return Said::Blind;
    };
    match sort_of(front) {
        Sort::Gone => Said::Went(key, Some(snapshot)),
        Sort::Asked => Said::Nothing,
        Sort::There if tells => Said::Is(key, snapshot),
        Sort::There => Said::Nothing,
    }
}

/// What a line with these words and a message that is refused says.
fn said_by_refused(front: &[u8], bytes: &[u8]) -> Said
    ensures { result ≡ refused_says (sort_of front.now) (key_in bytes.now) }
{
    match (sort_of(front), Key::of(bytes)) {
        (Sort::Asked, _) => Said::Nothing,
        (_, None) => Said::Blind,
        (Sort::Gone, Some(key)) => Said::Went(key, None),
        (Sort::There, Some(key)) => Said::Refused(key),
    }
}

/// What a line with these words says by its bytes, of which these are compared.
fn said_by_bytes(
    alloc: Global,
    by: Compared,
    front: &[u8],
    bytes: &[u8],
    compared: &[u8],
    out: &mut Vec<u8>,
) -> Result<Said, AllocError>
    ensures { IfOk result (λ said. AddsCompared by front.now bytes.now compared.now said
        out.old.items out.new.items) }
{
    let order = order_for(front, Order::Unknown);
    match Snapshot::new(alloc, by, order, compared) {
        Ok(snapshot) => Ok(said_of(front, bytes, !is_wireless_alone(bytes), snapshot)),
        Err(error) => {
            push_refusal(alloc, front, bytes, error, out)?;
            Ok(said_by_refused(front, bytes))
        }
    }
}

/// What a line with these words says by the bytes that its digits spell. What is compared of them has no attributes
/// IFLA_EVENT.
fn said_by_message(
    alloc: Global,
    by: Compared,
    front: &[u8],
    bytes: &[u8],
    out: &mut Vec<u8>,
) -> Result<Said, AllocError>
    ensures { IfOk result (λ said. AddsMessage by front.now bytes.now said
        out.old.items out.new.items) }
{
    match without_event(alloc, bytes)? {
        Some(shorter) => said_by_bytes(alloc, by, front, bytes, shorter.as_slice(), out),
        None => said_by_bytes(alloc, by, front, bytes, bytes, out),
    }
}

impl LineReader {
    /// Compares messages by this.
    pub fn new(alloc: Global, by: Compared) -> LineReader
        ensures { result.by ≡ by }
    {
        LineReader {
            by,
            message: Vec::new(alloc),
        }
    }

    /// What a line says that has these words in front of this rest. A line with a fault is answered by the fault.
    pub fn read(
        &mut self,
        alloc: Global,
        front: &[u8],
        rest: &[u8],
        out: &mut Vec<u8>,
    ) -> Result<Said, AllocError>
        ensures said { IfOk result (λ said. AddsSays self.old.by front.now rest.now said
            out.old.items out.new.items) }
        ensures by { self.new.by ≡ self.old.by }
    {
        if are_alone(front, rest) {
            return said_by_words(alloc, front);
        }
        let digits = digits_of(rest);
        self.message.resize(digits.len() / 2, 0)?;
        if !decode(digits, values(), self.message.as_mut_slice()) {
            push_not_hex(alloc, front, out)?;
            return Ok(said_by_refused(front, b""));
        }
        said_by_message(alloc, self.by, front, self.message.as_slice(), out)
    }
}
