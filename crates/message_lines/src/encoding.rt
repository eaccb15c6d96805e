//! An encoding of messages.

ghost use Rattle.std.specs.Prelude.{ℕ, List, IfOk, IfErr};
ghost use Rattle.link_msg.specs.declared.message.LinkMessage.{LinkMessage};
ghost use Rattle.message_lines.specs.Answers.{IsEncoding, IsRefusal};

use link_msg::CanonError;
use std::alloc::Global;

/// An encoding of messages, which a filter answers lines with.
pub trait Encoding: Drop {
    ghost means: { List ℕ → LinkMessage → Type 0 };

    ghost encodes: { List ℕ → List ℕ → Type 0 };

    /// The encoding of what the bytes mean.
    ///
    /// Refuses bytes that mean no message, as `Decode`, and a message that has no encoding, as `canonical` does.
    fn encode(&self, alloc: Global, bytes: &[u8]) -> Result<Vec<u8>, CanonError>
        ensures ok { IfOk result (λ text. encodes bytes.now text.items) }
        ensures err { IfErr result (IsRefusal means bytes.now) };

    ghost one: { IsEncoding means encodes };
}
