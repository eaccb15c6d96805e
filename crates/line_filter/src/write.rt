//! Writing what waits.

ghost use Rattle.std.specs.Prelude.{◌≡◌, [], IfOk, IfErr, OnOk};
ghost use Rattle.std.specs.Io.KnownBytes.{Appends};
ghost use Rattle.line_filter.specs.Steps.{Sends, FailedWrite};
ghost use Rattle.line_filter.specs.declared.error.RunError.TheVariants as Errors;

use crate::error::RunError;
use std::io::{ErrorKind, Write};

/// How many bytes may wait to be written.
const ENOUGH: usize = 65536;

/// Writes some of the bytes, and returns the others. A write that is interrupted took none, and one that takes no byte
/// is refused.
fn write_some<'a, W: Write>(writer: &mut W, bytes: &'a [u8]) -> Result<&'a [u8], RunError>
    ensures ok { IfOk result (λ rest. Sends (W.contents writer.old) (W.contents writer.new)
        bytes.now rest.now) }
    ensures err { IfErr result (λ e. (e ≡ Errors.Write)
        × Appends (W.contents writer.old) (W.contents writer.new) []) }
{
    match writer.write(bytes) {
        Ok(0) => Err(RunError::Write),
        Ok(n) => Ok(&bytes[n..]),
        Err(error) => {
            if error.kind() == ErrorKind::Interrupted {
                return Ok(bytes);
            }
            Err(RunError::Write)
        }
    }
}

/// Writes all the bytes.
fn write_bytes<W: Write>(writer: &mut W, bytes: &[u8]) -> Result<(), RunError>
    ensures ok { OnOk result (Appends (W.contents writer.old) (W.contents writer.new) bytes.now) }
    ensures err { IfErr result
        (λ e. FailedWrite e (W.contents writer.old) (W.contents writer.new) bytes.now) }
{
    let mut rest = bytes;
    for _writes in 0..u64::MAX {
        if rest.is_empty() {
            return Ok(());
        }
        rest = write_some(writer, rest)?;
    }
    if rest.is_empty() {
        return Ok(());
    }
    Err(RunError::Write)
}

/// Writes what waits, so that nothing waits. A write that is interrupted is tried again; one that takes no byte is
/// refused.
pub fn write_out<W: Write>(writer: &mut W, waiting: &mut Vec<u8>) -> Result<(), RunError>
    ensures none { OnOk result (waiting.new.items ≡ []) }
    ensures ok { OnOk result
        (Appends (W.contents writer.old) (W.contents writer.new) waiting.old.items) }
    ensures err { IfErr result
        (λ e. FailedWrite e (W.contents writer.old) (W.contents writer.new) waiting.old.items) }
{
    write_bytes(writer, waiting.as_slice())?;
    waiting.clear();
    Ok(())
}

/// Writes what waits, if enough of it waits.
pub(crate) fn write_full<W: Write>(writer: &mut W, waiting: &mut Vec<u8>) -> Result<(), RunError>
    ensures ok { OnOk result (Sends (W.contents writer.old) (W.contents writer.new)
        waiting.old.items waiting.new.items) }
    ensures err { IfErr result
        (λ e. FailedWrite e (W.contents writer.old) (W.contents writer.new) waiting.old.items) }
{
    if waiting.len() < ENOUGH {
        return Ok(());
    }
    write_out(writer, waiting)
}
