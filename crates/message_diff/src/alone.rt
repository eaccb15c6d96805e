//! A line that tells of an interface, and not of what changed of it.

ghost use Rattle.std.specs.Prelude.{◌≡◌, ◌<◌, OnOk, MatchOption, length};
ghost use Rattle.link_msg.specs.Header.{header_size};
ghost use Rattle.shown.specs.Drafts.{with_members};
ghost use Rattle.message_diff.specs.Alone.{interface_members, AddsAlone};
ghost use Rattle.message_diff.specs.Named.{IsSplit, head_of};

use crate::named::last_name;
use crate::words::show_told;
use link_msg::header::HEADER_SIZE;
use link_msg::{AddressFamily, LinkHeader};
use nla_wire::Text;
use nla_wire::fields::i32_at;
use shown::Page;
use std::alloc::{AllocError, Global};

/// Adds which interface a message of this family is of: its family, its index and its name.
fn show_head(
    page: &mut Page,
    bytes: &[u8],
    family: AddressFamily,
    name: &Option<Text>,
) -> Result<(), AllocError>
    ensures { OnOk result
        (page.new ≡ with_members (interface_members family name.now bytes.now) page.old) }
{
    page.keyed_number("ifi-family", u8::from(family).into())?;
    page.keyed_signed("ifi-index", i32_at(bytes, 4).into())?;
    match name {
        Some(name) => page.keyed_string("ifname", name.as_str()),
        None => Ok(()),
    }
}

/// The family of a message and the bytes of its attributes; nothing where it has no header.
fn split(text: &[u8]) -> Option<(AddressFamily, &[u8])>
    ensures { MatchOption result (length text.now < header_size)
        (λ r. IsSplit text.now r.0 r.1.now) }
{
    if text.len() < HEADER_SIZE {
        return None;
    }
    let (front, attributes) = text.split_at(HEADER_SIZE);
    match LinkHeader::parse(front) {
        Ok(header) => Some((header.interface_family, attributes)),
        Err(_error) => None,
    }
}

/// Adds which interface an encoding is of, by its header and the last name among its attributes.
pub fn show_interface(alloc: Global, page: &mut Page, text: &[u8]) -> Result<(), AllocError>
    ensures { OnOk result (page.new ≡ with_members (head_of text.now) page.old) }
{
    match split(text) {
        Some((family, attributes)) => {
            let name = last_name(alloc, family, attributes)?;
            show_head(page, text, family, &name)
        }
        None => Ok(()),
    }
}

/// Adds a line that tells that this became of the interface whose encoding this is: the words that are told, `change`,
/// and its family, index and name.
pub fn push_alone(
    alloc: Global,
    front: &[u8],
    change: &str,
    text: &[u8],
    out: &mut Vec<u8>,
) -> Result<(), AllocError>
    ensures { OnOk result (AddsAlone front.now change.now text.now out.old.items out.new.items) }
{
    let mut page = Page::new(alloc)?;
    show_told(&mut page, front)?;
    page.keyed_string("change", change)?;
    show_interface(alloc, &mut page, text)?;
    page.finish(out)?;
    out.push(b'\n')?;
    Ok(())
}
