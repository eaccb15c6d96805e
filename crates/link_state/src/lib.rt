//! The state encoding of link messages: the canonical encoding with all that moves by itself at zero.
// Tests: the crate `state_tests`. Edits: edits/link_state.txt.
#![tactic(auto)]

mod kind;
pub mod laws;
mod level;
pub mod numbers;
mod state_encoding;
mod thin;
mod walk;

pub use kind::Kind;
pub use level::{Level, clear, fill};
pub use state_encoding::{
    STATE_FORM, same_state, state, state_into, state_lenient, state_lenient_into,
    state_lenient_len, state_lenient_within, state_within,
};
pub use thin::{thin_families, thin_inet6};
