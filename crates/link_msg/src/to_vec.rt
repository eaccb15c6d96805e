//! Messages that were built or changed: written into memory of their own, and read again.

ghost use Rattle.std.specs.Prelude.{◌≡◌, ◌↔◌, length, IsTrue, IfOk, IfErr};
ghost use Rattle.link_msg.specs.Messages.{Means, message_text, MessageFits, NoEmptyPorts};
ghost use Rattle.link_msg.specs.Written.{IsUnwritten, IsWhole};

use crate::encoding::CanonError;
use crate::message::LinkMessage;
use nla_wire::Cause;
use std::alloc::{AllocError, Global};

impl LinkMessage {
    /// The canonical encoding of a message that was measured, or out of memory.
    #[inline]
    fn encoding(&self, alloc: Global, len: usize) -> Result<Vec<u8>, AllocError>
        requires fits { MessageFits self.now }
        requires measured { len ≡ length (message_text self.now) }
        ensures { IfOk result (λ encoding. encoding.items ≡ message_text self.now) }
    {
        let mut encoding = Vec::with_capacity(alloc, len)?;
        encoding.resize(len, 0)?;
        self.emit(encoding.as_mut_slice());
        Ok(encoding)
    }

    /// The canonical encoding, in memory that is taken once.
    ///
    /// Refuses, in this order: `DoesNotFit`, `EmptyVfPorts`, and `OutOfMemory`, which says nothing of the message.
    #[inline]
    pub fn to_vec(&self, alloc: Global) -> Result<Vec<u8>, CanonError>
        ensures ok { IfOk result (λ encoding. IsWhole self.now encoding.items) }
        ensures err { IfErr result (IsUnwritten self.now) }
    {
        let Some(len) = self.measured() else {
            return Err(CanonError::DoesNotFit);
        };
        if self.has_empty_ports() {
            return Err(CanonError::EmptyVfPorts);
        }
        Ok(self.encoding(alloc, len)?)
    }

    /// Whether the message fits and its canonical encoding means it, which is so of every message that was read, fits
    /// and holds no empty list of ports.
    ///
    /// Of a message that was built it can be otherwise: a list is empty that must not be, an attribute holds what is
    /// read under another family, or `Other` holds a frame with the number of a listed attribute. The encoding is
    /// written and read, in memory that is given back; the error says that there was too little.
    pub fn reads_back(&self, alloc: Global) -> Result<bool, AllocError>
        ensures { IfOk result (λ same.
            IsTrue same ↔ (MessageFits self.now × Means (message_text self.now) self.now)) }
    {
        let Some(len) = self.measured() else {
            return Ok(false);
        };
        let encoding = self.encoding(alloc, len)?;
        match LinkMessage::parse(alloc, encoding.as_slice()) {
            Ok(read) => Ok(read == *self),
            Err(error) => match error.cause {
                Cause::OutOfMemory => Err(AllocError),
                _ => Ok(false),
            },
        }
    }
}
