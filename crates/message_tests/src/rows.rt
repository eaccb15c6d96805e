//! What holds of bytes that mean a message, and of bytes that mean none.

ghost use Rattle.std.specs.Prelude.{◌≡◌, length};

use crate::testing::{
    are_same, cause_checked, cause_read, holds, is_same, list_of, read_message, text_made, vec_of,
    written_within,
};
use expected::{GROWTH, equal, filled, is_copied, is_stored};
use link_msg::laws::{law_exact_room, law_room};
use link_msg::*;
use std::alloc::Global;
use std::process::Abort;

/// A header of zeros and a name without its NUL and padding.
pub(crate) const NAME: [u8; 22] = [
    0x00, 0x00, 0x00, 0x00, 0x00, 0x00, 0x00, 0x00, 0x00, 0x00, 0x00, 0x00, 0x00, 0x00, 0x00, 0x00,
    0x06, 0x00, 0x03, 0x00, 0x6c, 0x6f,
];

/// The canonical encoding of `NAME`.
pub(crate) const NAME_TEXT: [u8; 24] = [
    0x00, 0x00, 0x00, 0x00, 0x00, 0x00, 0x00, 0x00, 0x00, 0x00, 0x00, 0x00, 0x00, 0x00, 0x00, 0x00,
    0x07, 0x00, 0x03, 0x00, 0x6c, 0x6f, 0x00, 0x00,
];

/// More bytes than a message of these tests has.
const MOST: usize = 66000;

/// A message of the default header and these attributes.
pub(crate) fn message_of<const N: usize>(
    rt: &impl Abort,
    alloc: Global,
    attributes: [LinkAttribute; N],
) -> LinkMessage {
    LinkMessage {
        header: LinkHeader::default(),
        attributes: list_of(rt, alloc, attributes),
    }
}

/// The bytes of a header of zeros after this family, and of these attributes.
pub(crate) fn with_header(
    rt: &impl Abort,
    alloc: Global,
    family: u8,
    attributes: &[u8],
) -> Vec<u8> {
    let header = [
        family, 0x00, 0x00, 0x00, 0x00, 0x00, 0x00, 0x00, 0x00, 0x00, 0x00, 0x00, 0x00, 0x00, 0x00,
        0x00,
    ];
    let mut bytes = vec_of(rt, alloc, &header);
    bytes.extend_from_slice(attributes).expect(rt, "memory");
    bytes
}

/// Whether each of these bytes is this one.
pub(crate) fn are_all(bytes: &[u8], wanted: u8) -> bool {
    bytes.iter().all(|byte| *byte == wanted)
}

/// Bytes mean this message, when they are checked and when they are read.
pub(crate) fn is_read(
    rt: &impl Abort,
    alloc: Global,
    label: &str,
    bytes: &[u8],
    wanted: &LinkMessage,
) {
    is_same(rt, label, &cause_checked(bytes), &None);
    let read = read_message(rt, alloc, bytes);
    holds(rt, label, is_copied(alloc, &read, wanted));
}

/// A buffer of this byte, so many bytes long.
fn room_of(rt: &impl Abort, alloc: Global, byte: u8, count: usize) -> Vec<u8>
    ensures { length result.items ≡ count }
{
    filled(alloc, byte, count).expect(rt, "memory")
}

/// A buffer holds this text at its front, and after it this byte alone.
fn is_at_front(out: &[u8], text: &[u8], byte: u8) -> bool {
    out.starts_with(text) && out.iter().skip(text.len()).all(|other| *other == byte)
}

/// A buffer of three bytes more than the text holds it at its end, and before it this byte alone.
fn is_at_end(out: &[u8], text: &[u8], byte: u8) -> bool {
    out.ends_with(text) && out.starts_with(&[byte; 3])
}

/// A message is written as this text to the front of a longer buffer of this byte, which keeps its other bytes.
fn is_emitted(
    rt: &impl Abort,
    alloc: Global,
    label: &str,
    message: &LinkMessage,
    text: &[u8],
    byte: u8,
) {
    holds(rt, label, text.len() < MOST);
    holds(rt, label, message.fits());
    holds(rt, label, message.buffer_len() == text.len());
    let mut out = room_of(rt, alloc, byte, text.len() + 3);
    message.emit(out.as_mut_slice());
    holds(rt, label, is_at_front(out.as_slice(), text, byte));
}

/// The same, at the end of the buffer.
fn is_filled(
    rt: &impl Abort,
    alloc: Global,
    label: &str,
    message: &LinkMessage,
    text: &[u8],
    byte: u8,
) {
    holds(rt, label, text.len() < MOST);
    holds(rt, label, message.fits());
    holds(rt, label, message.buffer_len() == text.len());
    let mut out = room_of(rt, alloc, byte, text.len() + 3);
    holds(rt, label, message.fill(out.as_mut_slice()) == 3);
    holds(rt, label, is_at_end(out.as_slice(), text, byte));
}

/// A message is written as this text, to the front and to the end of longer buffers, which keep their other bytes.
pub(crate) fn is_written(
    rt: &impl Abort,
    alloc: Global,
    label: &str,
    message: &LinkMessage,
    text: &[u8],
) {
    for byte in [0, 255] {
        is_emitted(rt, alloc, label, message, text, byte);
        is_filled(rt, alloc, label, message, text, byte);
    }
}

/// A refusal without the name of the place, which is unspecified.
fn without_place(error: CanonError) -> CanonError {
    match error {
        CanonError::Decode(fault) => no_message(fault.cause),
        _ => error,
    }
}

/// A call that makes a text is refused so. The name of the place is unspecified.
pub(crate) fn is_refused_so<T: Drop>(
    rt: &impl Abort,
    label: &str,
    answer: Result<T, CanonError>,
    wanted: CanonError,
) {
    let found = answer.err().map(|error| without_place(error));
    is_same(rt, label, &found, &Some(without_place(wanted)));
}

/// The refusal of bytes that are no message, for this cause.
pub(crate) fn no_message(cause: Cause) -> CanonError {
    CanonError::Decode(DecodeError::new("bytes", cause))
}

/// Bytes are written again as this text, into a buffer with `GROWTH` bytes for each of theirs, which is room enough.
fn is_rewritten(rt: &impl Abort, alloc: Global, label: &str, bytes: &[u8], text: &[u8]) {
    holds(rt, label, bytes.len() < MOST);
    law_room(bytes);
    let mut out = room_of(rt, alloc, 255, GROWTH * bytes.len());
    let out = out.as_mut_slice();
    holds(rt, label, canonical_into(bytes, out) == Ok(text.len()));
    holds(rt, label, is_stored(text.len(), out, text));
}

/// Bytes are written again as this text into a buffer of just its length.
fn is_rewritten_exactly(rt: &impl Abort, alloc: Global, label: &str, bytes: &[u8], text: &[u8]) {
    match canonical_len(bytes) {
        Ok(len) => {
            law_exact_room(bytes, len);
            let mut out = room_of(rt, alloc, 255, len);
            let out = out.as_mut_slice();
            holds(rt, label, canonical_into(bytes, out) == Ok(text.len()));
            holds(rt, label, equal(out, text));
        },
        Err(_) => panic!(rt; "{label}: the bytes have no canonical encoding"),
    }
}

/// Bytes are written again as this text where there is room for it, be it no byte more.
fn is_rewritten_within(rt: &impl Abort, alloc: Global, label: &str, bytes: &[u8], text: &[u8]) {
    holds(rt, label, text.len() < MOST);
    for more in [0, 1, 5] {
        let mut out = room_of(rt, alloc, 255, text.len() + more);
        let len = written_within(bytes, out.as_mut_slice());
        holds(rt, label, len == Ok(text.len()));
        holds(rt, label, is_stored(text.len(), out.as_slice(), text));
    }
}

/// In this room, which is too short, the bytes are not written, and the buffer is left as it is.
fn is_too_long_for(
    rt: &impl Abort,
    alloc: Global,
    label: &str,
    bytes: &[u8],
    wanted: usize,
    room: usize,
) {
    let mut out = room_of(rt, alloc, 255, room);
    let found = written_within(bytes, out.as_mut_slice());
    is_same(rt, label, &found, &Err(RoomError::NoRoom { wanted }));
    holds(rt, label, are_all(out.as_slice(), 255));
}

/// With one byte less than the text has, or with none, the bytes are not written, and the buffer is left as it is.
fn is_too_long(rt: &impl Abort, alloc: Global, label: &str, bytes: &[u8], text: &[u8]) {
    let wanted = text.len();
    holds(rt, label, 0 < wanted);
    is_too_long_for(rt, alloc, label, bytes, wanted, 0);
    is_too_long_for(rt, alloc, label, bytes, wanted, 1);
    is_too_long_for(rt, alloc, label, bytes, wanted, wanted - 1);
}

/// Bytes have this canonical encoding, made in memory and without.
fn has_text(rt: &impl Abort, alloc: Global, label: &str, bytes: &[u8], text: &[u8]) {
    let made = text_made(rt, alloc, bytes);
    holds(rt, label, equal(made.as_slice(), text));
    holds(rt, label, canonical_len(bytes) == Ok(text.len()));
    is_rewritten(rt, alloc, label, bytes, text);
    is_rewritten_exactly(rt, alloc, label, bytes, text);
    is_rewritten_within(rt, alloc, label, bytes, text);
    is_too_long(rt, alloc, label, bytes, text);
}

/// What a call that writes into any buffer was refused for, other than want of room.
fn without_room(
    rt: &impl Abort,
    label: &str,
    answer: Result<usize, RoomError>,
) -> Result<usize, CanonError> {
    match answer {
        Ok(len) => Ok(len),
        Err(RoomError::NoEncoding(error)) => Err(error),
        Err(RoomError::NoRoom { wanted }) => panic!(rt; "{label}: the call wants {wanted} bytes"),
    }
}

/// Bytes have no canonical encoding, for this reason, which a buffer of this room is not changed by.
fn has_no_text_within(
    rt: &impl Abort,
    alloc: Global,
    label: &str,
    bytes: &[u8],
    wanted: CanonError,
    room: usize,
) {
    let mut out = room_of(rt, alloc, 255, room);
    let answer = written_within(bytes, out.as_mut_slice());
    let answer = without_room(rt, label, answer);
    is_refused_so(rt, label, answer, wanted);
    holds(rt, label, are_all(out.as_slice(), 255));
}

/// Bytes have no canonical encoding, for this reason, and no buffer is changed.
fn has_no_text(rt: &impl Abort, alloc: Global, label: &str, bytes: &[u8], wanted: CanonError) {
    is_refused_so(rt, label, canonical(alloc, bytes), wanted);
    is_refused_so(rt, label, canonical_len(bytes), wanted);
    holds(rt, label, bytes.len() < MOST);
    law_room(bytes);
    let mut out = room_of(rt, alloc, 255, GROWTH * bytes.len());
    let answer = canonical_into(bytes, out.as_mut_slice());
    is_refused_so(rt, label, answer, wanted);
    holds(rt, label, are_all(out.as_slice(), 255));
    for room in [0, 15, 100] {
        has_no_text_within(rt, alloc, label, bytes, wanted, room);
    }
}

/// The bytes that the label names mean this message, whose text is this one, and the text means it too.
pub(crate) fn is_row(
    rt: &impl Abort,
    alloc: Global,
    label: &str,
    bytes: &[u8],
    wanted: &LinkMessage,
    text: &[u8],
) {
    is_read(rt, alloc, label, bytes, wanted);
    holds(rt, label, !wanted.has_empty_ports());
    is_written(rt, alloc, label, wanted, text);
    is_written(rt, alloc, label, &read_message(rt, alloc, bytes), text);
    has_text(rt, alloc, label, bytes, text);
    is_read(rt, alloc, label, text, wanted);
    are_same(rt, alloc, label, bytes, text, true);
}

/// A message of this family and one attribute, as in `is_row`.
pub(crate) fn is_attribute_row(
    rt: &impl Abort,
    alloc: Global,
    label: &str,
    family: u8,
    attribute: &[u8],
    wanted: LinkAttribute,
    text: &[u8],
) {
    let wanted = LinkMessage {
        header: LinkHeader {
            interface_family: AddressFamily::from(family),
            ..LinkHeader::default()
        },
        attributes: list_of(rt, alloc, [wanted]),
    };
    let bytes = with_header(rt, alloc, family, attribute);
    let text = with_header(rt, alloc, family, text);
    is_row(rt, alloc, label, bytes.as_slice(), &wanted, text.as_slice());
}

/// The bytes that the label names are no message, for this cause.
pub(crate) fn is_refused_row(
    rt: &impl Abort,
    alloc: Global,
    label: &str,
    bytes: &[u8],
    cause: Cause,
) {
    is_same(rt, label, &cause_checked(bytes), &Some(cause));
    is_same(rt, label, &cause_read(alloc, bytes), &Some(cause));
    has_no_text(rt, alloc, label, bytes, no_message(cause));
}

/// The bytes that the label names mean this message, which does not fit.
pub(crate) fn is_unfit_row(
    rt: &impl Abort,
    alloc: Global,
    label: &str,
    bytes: &[u8],
    wanted: &LinkMessage,
) {
    is_read(rt, alloc, label, bytes, wanted);
    holds(rt, label, !wanted.fits());
    has_no_text(rt, alloc, label, bytes, CanonError::DoesNotFit);
}

/// The bytes that the label names mean this message, which fits and holds an empty list of ports. It is written as
/// this text.
pub(crate) fn is_portless_row(
    rt: &impl Abort,
    alloc: Global,
    label: &str,
    bytes: &[u8],
    wanted: &LinkMessage,
    text: &[u8],
) {
    is_read(rt, alloc, label, bytes, wanted);
    holds(rt, label, wanted.has_empty_ports());
    is_written(rt, alloc, label, wanted, text);
    is_written(rt, alloc, label, &read_message(rt, alloc, bytes), text);
    has_no_text(rt, alloc, label, bytes, CanonError::EmptyVfPorts);
}
