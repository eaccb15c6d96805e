//! What announcements have and dumps have not, and the kind of a link.

ghost use Rattle.std.specs.Prelude.{◌≡◌, IfOk, option_map};
ghost use Rattle.std.specs.List.{list_any};
ghost use Rattle.message_diff.specs.Frames.{frames_of};
ghost use Rattle.message_diff.specs.Announced.{is_event, without_event, shorter_or, is_wireless_alone};
ghost use Rattle.message_diff.specs.Announced.{payload_of, kind_in, are_two};

use crate::frames::{Frames, number_of};
use link_msg::NLA_HEADER_SIZE;
use link_msg::header::HEADER_SIZE;
use link_msg::numbers::{IFLA_EVENT, IFLA_IFNAME, IFLA_LINKINFO, IFLA_WIRELESS};
use memchr::memchr;
use nla_wire::fields::u16_at;
use std::alloc::{AllocError, Global};

/// The number of the attribute with the kind of a link (linux/if_link.h).
const IFLA_INFO_KIND: u16 = 1;

/// How long an attribute that holds one number is.
const NUMBER_SIZE: usize = NLA_HEADER_SIZE + 4;

/// Whether a frame is an attribute IFLA_EVENT. One of another length than the kernel's is none, so that the message
/// without it is refused where the whole one is.
fn is_event(frame: &[u8]) -> bool
    ensures { result ≡ is_event frame.now }
{
    frame.len() == NUMBER_SIZE
        && u16_at(frame, 0) as usize == NUMBER_SIZE
        && number_of(frame) == IFLA_EVENT
}

/// Whether a message has an attribute IFLA_EVENT.
fn has_event(message: &[u8]) -> bool
    ensures { result ≡ list_any is_event (frames_of message.now) }
{
    memchr(IFLA_EVENT as u8, message).is_some() && Frames::of(message).any(is_event)
}

/// The message without the attributes IFLA_EVENT, if it has one: they say why it was announced, and not what the link
/// is.
pub fn without_event(alloc: Global, message: &[u8]) -> Result<Option<Vec<u8>>, AllocError>
    ensures { IfOk result (λ kept. shorter_or (option_map (λ k. k.items) kept) message.now
        ≡ without_event message.now) }
{
    if !has_event(message) {
        return Ok(None);
    }
    let mut kept = Vec::with_capacity(alloc, message.len())?;
    kept.extend_from_slice(message.get(..HEADER_SIZE).unwrap_or(b""))?;
    for frame in Frames::of(message) {
        if !is_event(frame) {
            kept.extend_from_slice(frame)?;
        }
    }
    Ok(Some(kept))
}

/// Whether a message has no attributes but a name and what a wireless driver announces: it does not say what the link
/// is.
pub fn is_wireless_alone(message: &[u8]) -> bool
    ensures { result ≡ is_wireless_alone message.now }
{
    let mut is_any = false;
    for frame in Frames::of(message) {
        match number_of(frame) {
            _ if frame.len() < NLA_HEADER_SIZE => {}
            IFLA_WIRELESS => is_any = true,
            IFLA_IFNAME => {}
            _ => return false,
        }
    }
    is_any
}

/// The payload of the last attribute with this number.
fn payload_of<'a>(frames: Frames<'a>, number: u16) -> Option<&'a [u8]>
    ensures { option_map (λ payload. payload.now) result ≡ payload_of number frames.entry }
{
    let mut last = None;
    for frame in frames {
        if frame.len() >= NLA_HEADER_SIZE && number_of(frame) == number {
            last = frame.get(NLA_HEADER_SIZE..u16_at(frame, 0) as usize);
        }
    }
    last
}

/// The kind of a link, if its message has one: of attributes that come again the last counts, as for the kernel.
#[tactic(auto, unfolding(crate::specs::Announced::kind_in))]
pub fn kind_of(message: &[u8]) -> Option<&[u8]>
    ensures { option_map (λ kind. kind.now) result ≡ kind_in message.now }
{
    let info = payload_of(Frames::of(message), IFLA_LINKINFO)?;
    let payload = payload_of(Frames::new(info), IFLA_INFO_KIND)?;
    match memchr(0, payload) {
        Some(0) => None,
        Some(len) => payload.get(..len),
        None => Some(payload),
    }
}

/// Whether these are kinds, and two different ones: they are of two links.
pub fn are_two(old: Option<&[u8]>, new: Option<&[u8]>) -> bool
    ensures { result ≡ are_two (option_map (λ kind. kind.now) old.entry)
        (option_map (λ kind. kind.now) new.entry) }
{
    let Some(was) = old else {
        return false;
    };
    let Some(is) = new else {
        return false;
    };
    was != is
}
