//! A filter of lines that may have words in front.

ghost use Rattle.std.specs.Prelude.{◌≡◌, ◌++◌, OnOk};
ghost use Rattle.line_filter.specs.Words.{WithWords};
ghost use Rattle.line_filter.specs.OneWorded.{each_worded};

use crate::answers::Answer;
use crate::words::{are_alone, digits_of, split};
use std::alloc::{AllocError, Global};

/// Answers a line by the words in front of it, as they stand, and then as another filter answers the rest, if there is
/// one. A line of words alone is its own answer.
#[derive(Drop)]
pub struct Worded<A: Answer> {
    rest: A,
}

impl<A: Answer> Worded<A> {
    /// Answers the rest of a line by this filter.
    pub fn new(rest: A) -> Worded<A> {
        Worded { rest }
    }
}

/// Adds the words in front of a line, if there are any.
#[inline(always)]
fn push_front(waiting: &mut Vec<u8>, front: &[u8]) -> Result<(), AllocError>
    ensures { OnOk result (waiting.new.items ≡ waiting.old.items ++ front.now) }
{
    if front.is_empty() {
        return Ok(());
    }
    waiting.extend_from_slice(front)
}

impl<A: Answer> Answer for Worded<A> {
    ghost is_answer = { WithWords A.is_answer };

    fn push(
        &mut self,
        alloc: Global,
        line: &[u8],
        waiting: &mut Vec<u8>,
    ) -> Result<(), AllocError> {
        let (front, rest) = split(line);
        push_front(waiting, front)?;
        if are_alone(front, rest) {
            waiting.push(b'\n')?;
            return Ok(());
        }
        self.rest.push(alloc, digits_of(rest), waiting)
    }

    ghost has = { each_worded A.is_answer A.has };
}
