//! Lines of hexadecimal link messages, each answered by an encoding of what it spells, whatever the encoding is.
// Tests: the lines of `linkwire` and `linkstate` (`stdin` and `stdout` beside their `src`). Edits:
// edits/message_lines.txt.
#![tactic(auto)]

pub mod answers;
pub mod encoding;
