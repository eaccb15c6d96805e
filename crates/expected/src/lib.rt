//! What the test crates share: each call tells whether something holds, so that the test itself can end.
// Tests: the test crates, which call it. Edits: edits/expected.txt.
#![tactic(auto)]

mod bytes;
mod copies;
mod lists;

pub use bytes::{
    COUNTERS, GROWTH, SETTINGS, bytes_from, cause_of, equal, filled, is_stored, kept, kept_byte,
    text_from, vec_from, zeros_after,
};
pub use copies::{are_copied_alike, are_told_apart, is_copied, list};
pub use lists::{BAD_FRAMES, has_value, means, refuses, rewrites, writes, wrong_bad_frame};
