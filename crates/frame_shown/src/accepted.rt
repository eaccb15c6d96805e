//! The attributes that are accepted of bytes that are no message.

ghost use Rattle.std.specs.Prelude.{◌≡◌, ◌++◌, IfOk, OnOk, codes, false, true};
ghost use Rattle.nla_wire.specs.Canon.{canon};
ghost use Rattle.nla_wire.specs.Items.{items};
ghost use Rattle.link_info.specs.Styles.{are_frames};
ghost use Rattle.shown.specs.Drafts.{object_of, with_members, with_value};
ghost use Rattle.frame_shown.specs.Accepted.{accepted, accepts, before_members, lenient_members, refused};
ghost use Rattle.frame_shown.specs.Messages.{attribute_members};

use crate::form::Around;
use crate::message::{rest_of, show_attributes, show_header, show_index};
use link_msg::{AddressFamily, LinkAttribute};
use nla_wire::fields::u8_at;
use nla_wire::{NlaBuffer, NlasIterator, padded_len};
use shown::{Nest, Page};
use std::alloc::{AllocError, Global};

/// Whether an attribute is accepted in a message of this family.
#[tactic(auto, unfolding(crate::specs::Accepted::accepts))]
fn is_accepted(frame: &NlaBuffer<'_>, family: u8) -> bool
    ensures { result ≡ accepts family frame.now }
{
    match LinkAttribute::check_with_param(frame, AddressFamily::from(family)) {
        Ok(()) => true,
        Err(_) => false,
    }
}

/// Adds an attribute as it is spelled, with zeros for its padding.
pub fn push_frame(out: &mut Vec<u8>, frame: &NlaBuffer<'_>) -> Result<(), AllocError>
    ensures { OnOk result (out.new.items ≡ out.old.items ++ canon frame.now) }
{
    let end = out.len() + padded_len(frame.value().len());
    out.extend_from_slice(&frame.length().to_le_bytes())?;
    out.extend_from_slice(&frame.kind_with_flags().to_le_bytes())?;
    out.extend_from_slice(frame.value())?;
    out.resize(end, 0)
}

/// The attributes that are accepted of a message of this family, spelled one after the other: all, or those in front of
/// the first one that is not.
pub fn accepted(
    alloc: Global,
    bytes: &[u8],
    family: u8,
    is_all: bool,
) -> Result<Vec<u8>, AllocError>
    ensures { IfOk result (λ out. out.items ≡ accepted is_all family bytes.now) }
{
    let mut out = Vec::new(alloc);
    for item in NlasIterator::new(bytes) {
        let Ok(frame) = item else {
            break;
        };
        if is_accepted(&frame, family) {
            push_frame(&mut out, &frame)?;
        } else if !is_all {
            break;
        }
    }
    Ok(out)
}

/// The attributes that are accepted of a message of this family, and those that are refused, each spelled one after the
/// other.
pub fn parted(alloc: Global, bytes: &[u8], family: u8) -> Result<(Vec<u8>, Vec<u8>), AllocError>
    ensures { IfOk result (λ parts. (parts.0.items ≡ accepted true family bytes.now)
        × (parts.1.items ≡ refused family bytes.now)) }
{
    let mut accepted = Vec::new(alloc);
    let mut refused = Vec::new(alloc);
    for item in NlasIterator::new(bytes) {
        let Ok(frame) = item else {
            break;
        };
        if is_accepted(&frame, family) {
            push_frame(&mut accepted, &frame)?;
        } else {
            push_frame(&mut refused, &frame)?;
        }
    }
    Ok((accepted, refused))
}

/// Whether bytes are frames that fit.
pub fn are_frames(bytes: &[u8]) -> bool
    ensures { result ≡ are_frames (items bytes.now) }
{
    for item in NlasIterator::new(bytes) {
        if item.is_err() {
            return false;
        }
    }
    true
}

/// Adds what is shown of bytes of which some attributes are refused: the header, and the attributes that are accepted.
pub fn show_leniently(
    cx: &Around<'_>,
    page: &mut Page,
    alloc: Global,
    bytes: &[u8],
) -> Result<(), AllocError>
    ensures { OnOk result (page.new ≡ with_members (lenient_members cx.now bytes.now) page.old) }
{
    let family = u8_at(bytes, 0);
    let list = accepted(alloc, rest_of(bytes), family, true)?;
    show_header(page, bytes)?;
    show_attributes(cx, page, family, list.as_slice())
}

/// Adds the attributes in front of the first one that is refused, as an object.
fn show_front(
    cx: &Around<'_>,
    page: &mut Page,
    alloc: Global,
    family: u8,
    bytes: &[u8],
) -> Result<(), AllocError>
    ensures { OnOk result (page.new ≡ with_value (codes "before") (object_of
        (attribute_members cx.now family (accepted false family bytes.now))) page.old) }
{
    let list = accepted(alloc, bytes, family, false)?;
    page.keyed_begin("before", Nest::Object)?;
    show_attributes(cx, page, family, list.as_slice())?;
    page.end()
}

/// Adds what can be read of bytes with a fault: family and index, and the attributes in front of the one that is
/// refused.
pub fn show_before(
    cx: &Around<'_>,
    page: &mut Page,
    alloc: Global,
    bytes: &[u8],
) -> Result<(), AllocError>
    ensures { OnOk result (page.new ≡ with_members (before_members cx.now bytes.now) page.old) }
{
    let family = u8_at(bytes, 0);
    page.keyed_number("ifi-family", family.into())?;
    show_index(page, bytes)?;
    show_front(cx, page, alloc, family, rest_of(bytes))
}
