//! The frames of a byte string, one after the other.

ghost use Rattle.std.specs.Prelude.{◌≡◌, ◌∷◌, ◌+◌, ◌*◌, ◌<◌, ◌≤◌, List, Result, length, drop};
ghost use Rattle.std.specs.Iterator.{YieldsFirstBy, item_count};
ghost use Rattle.nla_wire.specs.Frames.{missing};
ghost use Rattle.nla_wire.specs.Items.{Item, items, AreItems, frame_count};
ghost use Rattle.nla_wire.specs.Gives.{without_place};

use crate::buffer::NlaBuffer;
use crate::error::DecodeError;
use crate::write::nla_align;
use std::marker::Model;

/// The frames of a byte string, one after the other. Where one is damaged its fault comes in its place, and nothing
/// after it.
///
/// After a frame it goes on at the next multiple of four. Padding is not looked at, and after the last frame it
/// can be missing.
#[derive(Debug, Drop)]
pub struct NlasIterator<'a> {
    /// What is left, with the frame in front that was given last.
    left: &'a [u8],
    /// The bytes of that frame, with its padding; it may be more than there are, where padding is missing.
    given: usize,
}

impl<'a> Model for NlasIterator<'a> {
    ghost Value = { List Item };

    ghost view = { λ s. items (drop s.given s.left.now) };
}

impl<'a> NlasIterator<'a> {
    /// The frames of these bytes. Four times their number is at most the number of bytes.
    pub fn new(bytes: &'a [u8]) -> NlasIterator<'a>
        ensures value { result ≡ items bytes.now }
        ensures frames { AreItems bytes.now result }
        ensures few { 4 * frame_count result ≤ length bytes.now }
    {
        NlasIterator {
            left: bytes,
            given: 0,
        }
    }
}

/// The first item, and the place from which the others are read.
#[inline(always)]
fn first(bytes: &[u8]) -> (Result<NlaBuffer<'_>, DecodeError>, usize)
    requires { 0 < length bytes.now }
    ensures { items bytes.now ≡ without_place result.0 ∷ items (drop result.1 bytes.now) }
{
    match NlaBuffer::at_front(bytes) {
        Ok(frame) => {
            let given = nla_align(frame.length() as usize);
            (Ok(frame), given)
        }
        Err(error) => (Err(error), bytes.len()),
    }
}

impl<'a> Iterator for NlasIterator<'a> {
    type Item = Result<NlaBuffer<'a>, DecodeError>;

    ghost next_gives = { YieldsFirstBy without_place (λ items. items) };

    ghost remaining = { item_count (λ items. items) };

    #[inline(always)]
    fn next(&mut self) -> Option<Result<NlaBuffer<'a>, DecodeError>> {
        if self.left.len() <= self.given {
            return None;
        }
        let bytes = &self.left[self.given..];
        let (item, given) = first(bytes);
        self.left = bytes;
        self.given = given;
        Some(item)
    }
}
