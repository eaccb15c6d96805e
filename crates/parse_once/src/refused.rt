//! Why a call returned nothing.

use link_msg::CanonError;
use nla_wire::{Cause, DecodeError};
use std::alloc::AllocError;
use std::fmt;

/// Whether a call was refused memory, or refused the bytes.
#[derive(Clone, Copy, Debug)]
pub enum Refused {
    Memory,
    Bytes,
}

impl fmt::Display for Refused {
    fn fmt<W: fmt::Write>(&self, f: &mut fmt::Formatter<W>) -> fmt::Result {
        match self {
            Refused::Memory => f.write_str("out of memory"),
            Refused::Bytes => f.write_str("refused"),
        }
    }
}

impl From<DecodeError> for Refused {
    fn from(error: DecodeError) -> Refused {
        match error.cause {
            Cause::OutOfMemory => Refused::Memory,
            _ => Refused::Bytes,
        }
    }
}

impl From<CanonError> for Refused {
    fn from(error: CanonError) -> Refused {
        match error {
            CanonError::OutOfMemory => Refused::Memory,
            _ => Refused::Bytes,
        }
    }
}

impl From<AllocError> for Refused {
    fn from(_error: AllocError) -> Refused {
        Refused::Memory
    }
}
