//! The frames of a list of attributes.

ghost use Rattle.std.specs.Prelude.{◌≡◌, ◌≤◌, ◌<◌, length};
ghost use Rattle.std.specs.Iterator.{YieldsFirstBy, item_count};
ghost use Rattle.message_diff.specs.Frames.{frame_len, frames_in, frames_of, frame_number};

use link_msg::header::HEADER_SIZE;
use link_msg::{NLA_HEADER_SIZE, NLA_TYPE_MASK};
use nla_wire::fields::u16_at;
use std::marker::Model;

/// The frames of a list, each with its padding. One that is damaged has as many bytes as it says, or as are left.
#[derive(Drop)]
pub struct Frames<'a> {
    rest: &'a [u8],
}

impl<'a> Model for Frames<'a> {
    ghost use Rattle.std.specs.Prelude.{ℕ, List};
    ghost use Rattle.message_diff.specs.Frames.{frames_in};

    ghost Value = { List (List ℕ) };

    ghost view = { λ s. frames_in s.rest.now };
}

impl<'a> Frames<'a> {
    /// Those of a list.
    pub fn new(list: &'a [u8]) -> Frames<'a>
        ensures { result ≡ frames_in list.now }
    {
        Frames { rest: list }
    }

    /// Those of a message.
    pub fn of(message: &'a [u8]) -> Frames<'a>
        ensures { result ≡ frames_of message.now }
    {
        Frames::new(message.get(HEADER_SIZE..).unwrap_or(b""))
    }
}

impl<'a> Iterator for Frames<'a> {
    type Item = &'a [u8];

    ghost next_gives = { YieldsFirstBy (λ frame. frame.now) (λ frames. frames) };

    ghost remaining = { item_count (λ frames. frames) };

    #[inline(always)]
    fn next(&mut self) -> Option<&'a [u8]> {
        if self.rest.is_empty() {
            return None;
        }
        let (frame, rest) = self.rest.split_at(frame_len(self.rest));
        self.rest = rest;
        Some(frame)
    }
}

/// How many bytes the frame takes up that a list begins with, with its padding.
#[inline(always)]
#[tactic(auto, using(std::proofs::lemmas::Bool::Decides::nat_tests), unfolding(crate::specs::Frames::frame_len))]
fn frame_len(list: &[u8]) -> usize
    ensures is { result ≡ frame_len list.now }
    ensures within { result ≤ length list.now }
    ensures some { 0 < length list.now → 0 < result }
{
    if list.len() < NLA_HEADER_SIZE {
        return list.len();
    }
    let len = u16_at(list, 0) as usize;
    ((len + 3) / 4 * 4).max(NLA_HEADER_SIZE).min(list.len())
}

/// The number of a frame.
#[inline(always)]
pub fn number_of(frame: &[u8]) -> u16
    ensures { result ≡ frame_number frame.now }
{
    u16_at(frame, 2) & NLA_TYPE_MASK
}
