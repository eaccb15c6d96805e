//! What each line is answered.

ghost use Rattle.std.specs.Prelude.{◌≡◌, ◌++◌, ◌/◌, OnOk, codes, length};
ghost use Rattle.hex.specs.Hex.{encode_lower};
ghost use Rattle.line_filter.specs.Lines.{with_lf};
ghost use Rattle.message_lines.specs.Answers.{IsAnswer, AddsAnswer, AddsAnswerTo};
ghost use Rattle.message_lines.specs.OneAnswer.{each_answered};

use crate::encoding::Encoding;
use line_filter::answers::Answer;
use line_filter::digits::{decode, encode, values};
use link_msg::CanonError;
use std::alloc::{AllocError, Global};

/// Answers lines by encodings, with room for the bytes of one line.
#[derive(Drop)]
pub struct Encoded<E: Encoding> {
    encoding: E,
    message: Vec<u8>,
}

impl<E: Encoding> Encoded<E> {
    /// Answers by this encoding.
    pub fn new(alloc: Global, encoding: E) -> Encoded<E> {
        Encoded {
            encoding,
            message: Vec::new(alloc),
        }
    }
}

impl<E: Encoding> Answer for Encoded<E> {
    ghost is_answer = { IsAnswer E.means E.encodes };

    fn push(
        &mut self,
        alloc: Global,
        line: &[u8],
        waiting: &mut Vec<u8>,
    ) -> Result<(), AllocError> {
        self.message.resize(line.len() / 2, 0)?;
        push_spelled(
            &self.encoding,
            alloc,
            waiting,
            line,
            self.message.as_mut_slice(),
        )
    }

    ghost has = { each_answered E.means E.encodes E.one };
}

/// Adds `ok `, the text in lower-case hexadecimal and an LF.
fn push_text(waiting: &mut Vec<u8>, text: &[u8]) -> Result<(), AllocError>
    ensures { OnOk result
        (waiting.new.items ≡ waiting.old.items ++ with_lf (codes "ok " ++ encode_lower text.now)) }
{
    waiting.extend_from_slice(b"ok ")?;
    let start = waiting.len();
    let end = start.checked_add(2 * text.len()).ok_or(AllocError)?;
    waiting.resize(end, 0)?;
    encode(text, &mut waiting[start..]);
    waiting.push(b'\n')?;
    Ok(())
}

/// Adds the answer to a line that spells these bytes.
fn push_encoded<E: Encoding>(
    encoding: &E,
    alloc: Global,
    waiting: &mut Vec<u8>,
    bytes: &[u8],
) -> Result<(), AllocError>
    ensures { OnOk result
        (AddsAnswerTo E.means E.encodes bytes.now waiting.old.items waiting.new.items) }
{
    match encoding.encode(alloc, bytes) {
        Ok(text) => push_text(waiting, text.as_slice()),
        Err(CanonError::Decode(_)) => waiting.extend_from_slice(b"refused\n"),
        Err(CanonError::DoesNotFit) => waiting.extend_from_slice(b"unfit\n"),
        Err(CanonError::EmptyVfPorts) => waiting.extend_from_slice(b"empty-ports\n"),
        Err(CanonError::OutOfMemory) => Err(AllocError),
    }
}

/// Adds the answer to a line, with room for the bytes that it spells.
fn push_spelled<E: Encoding>(
    encoding: &E,
    alloc: Global,
    waiting: &mut Vec<u8>,
    line: &[u8],
    room: &mut [u8],
) -> Result<(), AllocError>
    requires { length room.old ≡ length line.now / 2 }
    ensures { OnOk result
        (AddsAnswer E.means E.encodes line.now waiting.old.items waiting.new.items) }
{
    if !decode(line, values(), room) {
        return waiting.extend_from_slice(b"nothex\n");
    }
    push_encoded(encoding, alloc, waiting, room)
}
