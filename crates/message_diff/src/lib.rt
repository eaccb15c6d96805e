//! What differs between two link messages, by the members that linkshow shows of them, and what lines of messages tell
//! of interfaces.
// Tests: the crate `diff_checks`, and tests/linkdiff. Edits: edits/message_diff.txt.
#![tactic(auto)]

mod alone;
mod announced;
mod changes;
mod desk;
mod ended;
mod files;
mod frames;
mod kept;
mod key;
pub mod laws;
mod line;
mod named;
mod reading;
mod run;
mod snapshot;
mod store;
mod telling;
mod told;
mod watch;
mod words;

pub use desk::Desk;
pub use files::{Findings, Outcome, Untold, compare_readers};
pub use run::{compare_lines, watch_lines};
pub use snapshot::{Compared, Snapshot};
pub use telling::Told;
pub use told::{push_changed, push_gone, push_list, push_new};
