//! The canonical text, which is the answer to a line.

ghost use Rattle.link_msg.specs.Canonical.{HasText};
ghost use Rattle.link_msg.specs.Messages.{Means};
ghost use Rattle.linkwire.specs.OneText.{one_text};

use link_msg::{CanonError, canonical};
use message_lines::encoding::Encoding;
use std::alloc::Global;

/// The canonical text.
#[derive(Drop)]
pub struct Canonical;

impl Encoding for Canonical {
    ghost means = { Means };

    ghost encodes = { HasText };

    #[tactic(auto, using(message_lines::proofs::Refused::refused))]
    fn encode(&self, alloc: Global, bytes: &[u8]) -> Result<Vec<u8>, CanonError> {
        canonical(alloc, bytes)
    }

    ghost one = { one_text };
}
