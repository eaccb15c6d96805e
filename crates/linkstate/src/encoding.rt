//! The state encoding, strict or lenient, which is the answer to a line.

ghost use Rattle.link_msg.specs.Lenient.{MeansLeniently};
ghost use Rattle.link_msg.specs.Messages.{Means};
ghost use Rattle.link_state.specs.LenientState.{HasLenientState};
ghost use Rattle.link_state.specs.State.{HasState};
ghost use Rattle.linkstate.specs.OneText.{one_text, one_lenient_text};

use link_msg::CanonError;
use link_state::{state, state_lenient};
use message_lines::encoding::Encoding;
use std::alloc::Global;

/// The state encoding of what bytes mean.
#[derive(Drop)]
pub struct State;

impl Encoding for State {
    ghost means = { Means };

    ghost encodes = { HasState };

    #[tactic(auto, using(message_lines::proofs::Refused::refused))]
    fn encode(&self, alloc: Global, bytes: &[u8]) -> Result<Vec<u8>, CanonError> {
        state(alloc, bytes)
    }

    ghost one = { one_text };
}

/// The state encoding of what bytes mean leniently.
#[derive(Drop)]
pub struct LenientState;

impl Encoding for LenientState {
    ghost means = { MeansLeniently };

    ghost encodes = { HasLenientState };

    #[tactic(auto, using(crate::proofs::Refused::refused_leniently))]
    fn encode(&self, alloc: Global, bytes: &[u8]) -> Result<Vec<u8>, CanonError> {
        state_lenient(alloc, bytes)
    }

    ghost one = { one_lenient_text };
}
