//! Values shown as JSON: objects that are written member by member, each on one line.
// Tests: the lines of `linkshow`, and `beside`. Edits: edits/shown.txt.
#![tactic(auto)]

mod address;
mod at_once;
mod block;
mod digits;
mod escape;
pub mod laws;
pub mod page;
mod piece;
mod quote;
pub mod room;
mod sheet;

pub use page::{Nest, Page};
pub use room::Room;
