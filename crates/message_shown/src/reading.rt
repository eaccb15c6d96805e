//! How the bytes that a line spells are read, and the answer to them.

ghost use Rattle.std.specs.Prelude.{ℕ, List, OnOk};
ghost use Rattle.shown.specs.Drafts.{Members};
ghost use Rattle.message_shown.specs.Lines.{AddsAnswerTo};
ghost use Rattle.message_shown.specs.Whole.{IsWholeAnswerTo, IsWholeLenientAnswerTo};
ghost use Rattle.message_shown.specs.Worded.{words_shown};
ghost use Rattle.message_shown.specs.declared.context.Context.{Context as Around};

use crate::answers::push_bytes_in;
use crate::context::Context;
use crate::lenient::push_leniently_in;
use shown::Room;
use std::alloc::AllocError;

/// How bytes are read, and the answer to them.
pub trait Reading: Drop {
    ghost is_answer: { Around → Members → List ℕ → List ℕ → Type 0 };

    /// Adds the answer to a line that spells these bytes, with these words in front of them. The page of the answer is
    /// written in this room.
    fn push(
        &self,
        cx: &Context<'_>,
        room: &mut Room,
        waiting: &mut Vec<u8>,
        front: &[u8],
        bytes: &[u8],
    ) -> Result<(), AllocError>
        ensures { OnOk result (AddsAnswerTo (is_answer cx.now) (words_shown front.now) bytes.now
            waiting.old.items waiting.new.items) };
}

/// Bytes are a message, or are refused.
#[derive(Drop)]
pub struct Strict;

impl Reading for Strict {
    ghost is_answer = { IsWholeAnswerTo };

    fn push(
        &self,
        cx: &Context<'_>,
        room: &mut Room,
        waiting: &mut Vec<u8>,
        front: &[u8],
        bytes: &[u8],
    ) -> Result<(), AllocError> {
        push_bytes_in(cx, room, waiting, front, bytes)
    }
}

/// Bytes are a message as far as their frames fit; attributes that are refused are told apart.
#[derive(Drop)]
pub struct Lenient;

impl Reading for Lenient {
    ghost is_answer = { IsWholeLenientAnswerTo };

    fn push(
        &self,
        cx: &Context<'_>,
        room: &mut Room,
        waiting: &mut Vec<u8>,
        front: &[u8],
        bytes: &[u8],
    ) -> Result<(), AllocError> {
        push_leniently_in(cx, room, waiting, front, bytes)
    }
}
