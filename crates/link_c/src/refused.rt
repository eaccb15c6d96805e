//! The attributes that lenient reading keeps because they are refused, one at a time.

ghost use Rattle.std.specs.Prelude.{Option};
ghost use Rattle.nla_wire.specs.Frames.{Frame};
ghost use Rattle.link_c.specs.Refused.{StartsAs, TellsFrame, Tells, IsNextRefused, WalkTellsAll};

use crate::list::{Attribute, next_attribute};
use crate::path::{Path, told};
use crate::refusal::Refusal;
use link_msg::header::HEADER_SIZE;
use link_msg::{Cause, LinkMessage, Refusal as Kept};

/// An attribute that is refused, or bytes that are none: `struct linkwire_refusal` of linkwire.h.
#[repr(C)]
#[derive(Clone, Copy, Debug)]
pub struct Refused {
    /// Where it starts, counted from the start of the message.
    pub offset: usize,
    /// Why it is refused: minus the number of the cause.
    pub fault: i32,
    /// 1, or 0 where the bytes are no attribute.
    pub is_attribute: u32,
    /// The attribute, whose payload is counted from the start of the message; zeros where there is none.
    pub attribute: Attribute,
    /// Where its fault is.
    pub path: Path,
}

/// In place of an attribute.
const NO_ATTRIBUTE: Attribute = Attribute {
    kind: 0,
    payload: 0,
    payload_len: 0,
};

/// Whether an attribute stands at this place of a message, as 1 or 0; which one; and where the next may start.
fn attribute_at(bytes: &[u8], at: usize) -> (u32, Attribute, usize)
    ensures { (f : Option Frame) → StartsAs bytes.now at f
        → TellsFrame bytes.now at f result.2 result.0 result.1 }
{
    let mut next = at;
    let mut attribute = NO_ATTRIBUTE;
    match next_attribute(bytes, &mut next, &mut attribute) {
        Ok(true) => (1, attribute, next),
        Ok(false) | Err(_) => (0, NO_ATTRIBUTE, bytes.len()),
    }
}

/// What is told of a refusal, for C, and the place behind it.
fn tell(bytes: &[u8], kept: &Kept<'_>) -> (Refused, usize)
    ensures { StartsAs bytes.now kept.now.offset kept.now.frame
        → Tells bytes.now kept.now result.1 result.0 }
{
    let offset = kept.offset();
    let (is_attribute, attribute, next) = attribute_at(bytes, offset);
    let refused = Refused {
        offset,
        fault: Refusal::from(kept.error()).code(),
        is_attribute,
        attribute,
        path: told(&kept.path()),
    };
    (refused, next)
}

/// The next refusal of a message from this place on, and the place moves on behind it; false where there is none.
///
/// Refuses bytes that are shorter than a header. Then, and where there is none, nothing changes.
pub fn next_refused(bytes: &[u8], at: &mut usize, refused: &mut Refused) -> Result<bool, Refusal>
    ensures { IsNextRefused bytes.now at.old at.new refused.old refused.new result }
{
    if bytes.len() < HEADER_SIZE {
        let (got, need) = (bytes.len(), HEADER_SIZE);
        return Err(Refusal::Fault(Cause::TooShort { got, need }));
    }
    let mut refusals = LinkMessage::refusals_from(bytes, *at)?;
    let Some(kept) = refusals.next() else {
        return Ok(false);
    };
    (*refused, *at) = tell(bytes, &kept);
    Ok(true)
}

/// A loop over the call from the start of a message on is told of each refusal, and of nothing else.
pub fn law_walk()
    ensures { WalkTellsAll }
{}
