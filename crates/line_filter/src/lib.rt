//! A run over lines, whatever takes them; and filters, which answer each line by one line, whatever the answers are.
// Tests: the lines of the programs (`stdin` and `stdout` beside their `src`), and scripts/test/program.sh. Edits:
// edits/line_filter.txt, tests/edits/line_filter.txt.
#![tactic(auto)]

pub mod answers;
pub mod digits;
pub mod error;
mod lanes;
mod lines;
pub mod program;
pub mod run;
pub mod worded;
pub mod words;
pub mod write;
