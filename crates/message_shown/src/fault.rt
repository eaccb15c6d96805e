//! What is said of bytes that are no message.

ghost use Rattle.std.specs.Prelude.{OnOk};
ghost use Rattle.message_shown.specs.Faults.{AddsBefore, AddsFault};

use crate::context::Context;
use crate::wire::show_cause;
use frame_shown::accepted::show_before;
use link_msg::header::HEADER_SIZE;
use link_msg::{DecodeError, LinkMessage};
use shown::Page;
use std::alloc::AllocError;

/// Adds what is said after a cause's name.
pub fn show_fault(
    cx: &Context<'_>,
    page: &mut Page,
    bytes: &[u8],
    error: &DecodeError,
) -> Result<(), AllocError>
    ensures { OnOk result (AddsFault cx.now bytes.now error.now page.old page.new) }
{
    page.keyed_string("at", error.place)?;
    show_cause(page, &error.cause)?;
    if let Some(at) = LinkMessage::fault_at(bytes) {
        page.keyed_number("offset", at as u64)?;
        show_rest(cx, page, bytes)?;
    }
    Ok(())
}

/// Adds what can be read of bytes with a fault: family and index, and the attributes in front of the outermost one that
/// has the fault.
fn show_rest(cx: &Context<'_>, page: &mut Page, bytes: &[u8]) -> Result<(), AllocError>
    ensures { OnOk result (AddsBefore cx.now bytes.now page.old page.new) }
{
    if bytes.len() < HEADER_SIZE {
        return Ok(());
    }
    show_before(&cx.around, page, cx.alloc, bytes)
}
