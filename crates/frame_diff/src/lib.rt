//! What differs between two link messages, attribute by attribute: their frames, by the rows of `frame_shown`.
// Tests: the crate `diff_checks`, and tests/linkdiff. Edits: edits/frame_diff.txt.
#![tactic(auto)]

pub mod again;
pub mod arrays;
pub mod counters;
pub mod depth;
mod each;
pub mod fields;
pub mod groups;
pub mod held;
pub mod kept;
mod keyed;
mod keys;
mod labels;
pub mod laws;
pub mod leaf;
pub mod list;
pub mod lists;
mod lookup;
pub mod members;
pub mod message;
pub mod named;
pub mod nests;
mod one_value;
pub mod path;
mod picked;
mod plain_lists;
mod ranges;
pub mod rows;
mod same;
pub mod side;
pub mod value;
pub mod walk;
mod wholes;
