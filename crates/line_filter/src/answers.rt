//! What takes lines one after another, and filters, which answer each line by one.

ghost use Rattle.std.specs.Prelude.{List, OnOk, ℕ};
ghost use Rattle.line_filter.specs.Lines.{AnswersEach};
ghost use Rattle.line_filter.specs.Runs.{AddsLine, answering, nothing};
ghost use Rattle.line_filter.specs.Steps.{AddsAnswer};

use std::alloc::{AllocError, Global};

/// What takes lines, and adds what it tells of each.
pub trait Take {
    // From a state, a line leads to another one, and these bytes are added.
    ghost takes: { Self → List ℕ → Self → List ℕ → Type 0 };

    /// Takes a line, without its LF, and adds what it tells.
    fn take(&mut self, alloc: Global, line: &[u8], waiting: &mut Vec<u8>) -> Result<(), AllocError>
        ensures { OnOk result
            (AddsLine takes line.now self.old self.new waiting.old.items waiting.new.items) };
}

/// What a filter answers a line, and what it keeps from one line to the next.
pub trait Answer: Drop {
    ghost is_answer: { List ℕ → List ℕ → Type 0 };

    /// Adds the answer to a line, and its LF.
    fn push(&mut self, alloc: Global, line: &[u8], waiting: &mut Vec<u8>) -> Result<(), AllocError>
        ensures { OnOk result (AddsAnswer is_answer line.now waiting.old.items waiting.new.items) };

    ghost has: { AnswersEach is_answer };
}

/// A filter takes lines by its answers.
#[derive(Drop)]
pub(crate) struct Answering<A: Answer> {
    pub(crate) by: A,
}

impl<A: Answer> Take for Answering<A> {
    ghost takes = { answering (λ _. A.is_answer) nothing };

    fn take(
        &mut self,
        alloc: Global,
        line: &[u8],
        waiting: &mut Vec<u8>,
    ) -> Result<(), AllocError> {
        self.by.push(alloc, line, waiting)
    }
}
