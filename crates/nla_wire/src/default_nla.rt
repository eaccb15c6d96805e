//! An attribute that is kept as it is.

ghost use Rattle.std.specs.Prelude.{◌≡◌, IfOk, IfErr};
ghost use Rattle.nla_wire.specs.Frames.{Frame};
ghost use Rattle.nla_wire.specs.Canon.{IsSmall};
ghost use Rattle.nla_wire.specs.Same.{same_frame, same_frame-laws, same_frame-partial, same_frame-Decides};
ghost use Rattle.nla_wire.specs.declared.error.Cause.TheVariants.{OutOfMemory};

use crate::buffer::NlaBuffer;
use crate::error::DecodeError;
use crate::exact::Exact;
use crate::fill::fill_bytes;
use crate::nla::Nla;
use crate::values::CloneIn;
use crate::write::{MOST_VALUE_LEN, write_value};
use std::alloc::Global;
use std::marker::Model;

/// An attribute whose number is not known at its place: its kind with both flag bits, and its payload.
#[derive(Debug, Drop)]
pub struct DefaultNla {
    kind: u16,
    value: Vec<u8>,
}

impl Model for DefaultNla {
    ghost Value = { Frame };

    ghost view = { λ s. record { kind = s.kind; payload = s.value.items } };
}

impl DefaultNla {
    /// The attribute of this kind, flag bits and all, and payload. Any kind is allowed.
    pub fn new(kind: u16, value: Vec<u8>) -> DefaultNla
        ensures { result ≡ record { kind = kind; payload = value.items } }
    {
        DefaultNla { kind, value }
    }

    /// The frame as it is, or `OutOfMemory`.
    pub fn parse(alloc: Global, buffer: &NlaBuffer<'_>) -> Result<DefaultNla, DecodeError>
        ensures ok { IfOk result (λ d. d ≡ buffer.now) }
        ensures err { IfErr result (λ e. e.cause ≡ OutOfMemory) }
    {
        let value = Vec::from_slice(alloc, buffer.value())?;
        Ok(DefaultNla {
            kind: buffer.kind_with_flags(),
            value,
        })
    }

    /// The payload.
    pub fn value(&self) -> &[u8]
        ensures { result.now ≡ self.now.payload }
    {
        self.value.as_slice()
    }
}

impl Nla for DefaultNla {
    ghost frame = { λ d. d };

    ghost fits = { λ d. IsSmall d };

    ghost is_small = { λ d h. h };

    fn kind(&self) -> u16 {
        self.kind
    }

    fn fits(&self) -> bool {
        self.value.len() <= MOST_VALUE_LEN
    }

    fn value_len(&self) -> usize {
        self.value.len()
    }

    fn fill_value(&self, buffer: &mut [u8]) -> usize {
        fill_bytes(buffer, self.value.as_slice())
    }

    #[inline(always)]
    fn write(&self, buffer: &mut [u8]) -> usize {
        write_value(self.kind, self.value.as_slice(), buffer)
    }
}

impl CloneIn for DefaultNla {
    fn clone_in(&self, alloc: Global) -> Result<DefaultNla, DecodeError> {
        let value = Vec::from_slice(alloc, self.value.as_slice())?;
        Ok(DefaultNla {
            kind: self.kind,
            value,
        })
    }
}

impl PartialEq for DefaultNla {
    ghost eq = { same_frame };

    ghost laws = { same_frame-partial };

    fn eq(&self, other: &DefaultNla) -> bool {
        self.kind == other.kind && self.value.as_slice() == other.value.as_slice()
    }
}

impl Eq for DefaultNla {
    ghost laws = { same_frame-laws };
}

impl Exact for DefaultNla {
    ghost decides = { same_frame-Decides };
}
