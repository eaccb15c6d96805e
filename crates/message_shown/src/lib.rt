//! What is shown of a link message: one JSON object for the header and each attribute, and for a fault.
// Tests: the lines of `linkshow`, and `beside`. Edits: edits/message_shown.txt.
#![tactic(auto)]

pub mod answers;
pub mod context;
mod fault;
pub mod laws;
mod lenient;
pub mod reading;
mod wire;
mod word_keys;
pub mod worded;

pub use answers::Shown;
pub use reading::{Lenient, Reading, Strict};
