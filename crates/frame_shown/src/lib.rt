//! What is shown of a link message: its frames, one after another, each by the row of its number in a table.
// Tests: the lines of `linkshow`, and `beside`. Edits: edits/frame_shown.txt.
#![tactic(auto)]

pub mod accepted;
mod apart;
pub mod depth;
pub mod form;
mod kept;
pub mod laws;
pub mod list;
pub mod message;
mod row;
pub mod tables;
pub mod value;
