//! Why bytes were refused, as members of a page.

ghost use Rattle.std.specs.Prelude.{◌≡◌, [], ◌∷◌, OnOk};
ghost use Rattle.message_shown.specs.Causes.{cause_text, cause_members};
ghost use Rattle.shown.specs.Drafts.{with_members};
ghost use Rattle.shown.specs.Values.{numbered};

use nla_wire::Cause;
use shown::Page;
use std::alloc::AllocError;

/// The name of a cause.
pub fn cause_name(cause: &Cause) -> &'static str
    ensures { result.now ≡ cause_text cause.now }
{
    match cause {
        Cause::TooShort { .. } => "too-short",
        Cause::FrameShort { .. } => "frame-short",
        Cause::FrameOver { .. } => "frame-over",
        Cause::FrameUnder { .. } => "frame-under",
        Cause::EmptyList => "empty-list",
        Cause::WrongLength { .. } => "wrong-length",
        Cause::NotUtf8 => "not-utf8",
        Cause::InvalidState => "invalid-state",
        Cause::OutOfMemory => "out-of-memory",
    }
}

/// Adds two numbers.
fn show_two(
    page: &mut Page,
    first: &str,
    one: usize,
    second: &str,
    other: usize,
) -> Result<(), AllocError>
    ensures { OnOk result
        (page.new ≡ with_members (numbered first.now one ∷ numbered second.now other ∷ [])
        page.old) }
{
    page.number(first, one as u64)?;
    page.number(second, other as u64)
}

/// Adds the numbers of a cause.
pub fn show_cause(page: &mut Page, cause: &Cause) -> Result<(), AllocError>
    ensures { OnOk result (page.new ≡ with_members (cause_members cause.now) page.old) }
{
    match cause {
        Cause::TooShort { got, need } => show_two(page, "got", *got, "need", *need),
        Cause::FrameShort { left } => page.keyed_number("left", *left as u64),
        Cause::FrameOver { length, left } => show_two(
            page,
            "length",
            *length as usize,
            "left",
            *left,
        ),
        Cause::FrameUnder { length } => page.keyed_number("length", (*length).into()),
        Cause::WrongLength { got, want } => show_two(page, "got", *got, "want", *want),
        _ => Ok(()),
    }
}
