//! Link messages for programs in C: `include/linkwire.h` declares what is exported here.
// Tests: tests/c. Edits: edits/link_c.txt.
#![tactic(auto)]

pub mod diff;
pub mod export;
pub mod flags;
pub mod lenient;
pub mod list;
pub mod message;
pub mod path;
pub mod pick;
pub mod refusal;
pub mod refused;
pub mod show;
