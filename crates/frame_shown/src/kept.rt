//! Attributes that are shown as they are.

ghost use Rattle.std.specs.Prelude.{◌≡◌, [], ◌∷◌, OnOk};
ghost use Rattle.frame_shown.specs.Kept.{frame_members, text_unless_empty};
ghost use Rattle.shown.specs.Keys.{IsKey};
ghost use Rattle.shown.specs.Drafts.{with_value, with_members, object_of};

use nla_wire::{NLA_F_NESTED, NLA_F_NET_BYTEORDER, NLA_TYPE_MASK};
use shown::{Nest, Page};
use std::alloc::AllocError;

const FRAME_FLAGS: [(u64, &str); 2] = [
    (NLA_F_NESTED as u64, "nested"),
    (NLA_F_NET_BYTEORDER as u64, "net-byteorder"),
];

/// Adds a text where it is not empty.
fn show_text(page: &mut Page, name: &str, text: &str) -> Result<(), AllocError>
    requires key { IsKey name.now }
    ensures { OnOk result
        (page.new ≡ with_members (text_unless_empty name.now text.now) page.old) }
{
    if text.is_empty() {
        return Ok(());
    }
    page.keyed_string(name, text)
}

/// Adds an attribute as it is, to a list: its number, the name that the number has, if any, its flags and its payload.
#[cold]
#[inline(never)]
pub fn show_kept(page: &mut Page, name: &str, kind: u16, payload: &[u8]) -> Result<(), AllocError>
    ensures { OnOk result
        (page.new ≡ with_value [] (object_of (frame_members name.now kind payload.now)) page.old) }
{
    page.begin("", Nest::Object)?;
    page.keyed_number("number", (kind & NLA_TYPE_MASK).into())?;
    show_text(page, "name", name)?;
    page.flags(
        "flags",
        (kind & (NLA_F_NESTED | NLA_F_NET_BYTEORDER)).into(),
        &FRAME_FLAGS,
    )?;
    page.hex("payload", payload)?;
    page.end()
}
