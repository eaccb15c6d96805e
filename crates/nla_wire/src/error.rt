//! Why bytes were refused.

ghost use Rattle.std.specs.Prelude.{◌≡◌, ◌↔◌, IsTrue};
ghost use Rattle.nla_wire.specs.Causes.{cause_number};
ghost use Rattle.nla_wire.specs.Gives.{Checks, without_place};
ghost use Rattle.nla_wire.specs.declared.error.Cause.TheVariants.{EmptyList, OutOfMemory};

use crate::exact::Exact;
use std::alloc::{AllocError, AllocFailed};
use thiserror::Error;

/// Why bytes were refused.
#[derive(Clone, Copy, Debug, PartialEq, Eq, Error)]
pub enum Cause {
    /// Cause 1: a header, record or wireless event has fewer bytes than it needs.
    #[error("{got} bytes where {need} are needed")]
    TooShort {
        /// How many bytes there are.
        got: usize,
        /// How many are needed at least.
        need: usize,
    },
    /// Cause 2: fewer than four bytes are left for the header of a frame.
    #[error("{left} bytes are left for a header of 4")]
    FrameShort {
        /// How many bytes are left.
        left: usize,
    },
    /// Cause 3: the length of a frame passes the bytes that are left.
    #[error("a length of {length} with {left} bytes left")]
    FrameOver {
        /// The length that the header of the attribute says.
        length: u16,
        /// How many bytes are left.
        left: usize,
    },
    /// Cause 4: the length of a frame is below that of its header.
    #[error("a length of {length}, below that of a header")]
    FrameUnder {
        /// The length that the header of the attribute says.
        length: u16,
    },
    /// Cause 5: the payload of a list that must not be empty is empty.
    #[error("an empty list where one member is needed")]
    EmptyList,
    /// Cause 6: a number or an address has another length than its own.
    #[error("{got} bytes where exactly {want} are wanted")]
    WrongLength {
        /// How many bytes there are.
        got: usize,
        /// How many there have to be.
        want: usize,
    },
    /// Cause 7: a text is not UTF-8.
    #[error("text that is not UTF-8")]
    NotUtf8,
    /// Cause 8: a name names no operational state.
    #[error("the name of no state")]
    InvalidState,
    /// Cause 9: no memory was left. It says nothing of the bytes.
    #[error("out of memory")]
    OutOfMemory,
}

impl Cause {
    /// The number of the cause, 1 to 9 in the order of the variants.
    pub fn number(&self) -> u8
        ensures { result ≡ cause_number self.now }
    {
        match self {
            Cause::TooShort { .. } => 1,
            Cause::FrameShort { .. } => 2,
            Cause::FrameOver { .. } => 3,
            Cause::FrameUnder { .. } => 4,
            Cause::EmptyList => 5,
            Cause::WrongLength { .. } => 6,
            Cause::NotUtf8 => 7,
            Cause::InvalidState => 8,
            Cause::OutOfMemory => 9,
        }
    }
}

impl Exact for Cause {
    ghost use Rattle.std.proofs.Common.{rules};

    ghost decides = { Prim.search rules };
}

/// The place of a fault that no attribute is known to hold.
pub const PAYLOAD: &str = "payload";

/// A fault: why bytes were refused, and where, for a log.
///
/// `place` names the innermost attribute whose payload was read: of the fault of a frame the attribute that holds its
/// list, `message` for the outermost list; `header` for the bytes in front of that; of a number without a name the
/// nearest attribute around it that has one; `memory` where none was left; and `payload` where a payload was read by
/// itself. That the calls which read name it so is tested, and not proved.
#[derive(Clone, Copy, Debug, PartialEq, Eq, Error)]
#[error("{place}: {cause}")]
pub struct DecodeError {
    /// The name of what was to be read.
    pub place: &'static str,
    /// What is wrong.
    pub cause: Cause,
}

impl DecodeError {
    /// The fault of this cause at this place.
    pub fn new(place: &'static str, cause: Cause) -> DecodeError
        ensures why { result.cause ≡ cause }
        ensures named { result.place.now ≡ place.now }
    {
        DecodeError { place, cause }
    }

    /// The same fault in what has this name, unless its place is known or the name is empty.
    #[cold]
    pub fn within(self, holder: &'static str) -> DecodeError
        ensures { result.cause ≡ self.cause }
    {
        if self.place == PAYLOAD && !holder.is_empty() {
            DecodeError::new(holder, self.cause)
        } else {
            self
        }
    }

    /// The number of the cause.
    pub fn number(&self) -> u8
        ensures { result ≡ cause_number self.now.cause }
    {
        self.cause.number()
    }
}

/// Whether two faults are equal: their causes are, and so are the names of their places.
pub fn same_fault(one: &DecodeError, other: &DecodeError) -> bool
    ensures { IsTrue result
        ↔ ((one.now.place.now ≡ other.now.place.now) × (one.now.cause ≡ other.now.cause)) }
{
    one == other
}

impl From<AllocError> for DecodeError {
    ghost from_gives = { λ _ e. e.cause ≡ OutOfMemory };

    fn from(_error: AllocError) -> DecodeError {
        DecodeError::new("memory", Cause::OutOfMemory)
    }
}

impl<T: Drop> From<AllocFailed<T>> for DecodeError {
    ghost from_gives = { λ _ e. e.cause ≡ OutOfMemory };

    fn from(_error: AllocFailed<T>) -> DecodeError {
        DecodeError::new("memory", Cause::OutOfMemory)
    }
}

/// The fault of an empty list where one member is needed.
pub fn empty_list() -> DecodeError
    ensures { result.cause ≡ EmptyList }
{
    DecodeError::new(PAYLOAD, Cause::EmptyList)
}

/// Whether something was read, without what was read.
pub fn checked<T: Drop>(read: Result<T, DecodeError>) -> Result<(), DecodeError>
    ensures { Checks result (without_place read) }
{
    match read {
        Ok(_) => Ok(()),
        Err(error) => Err(error),
    }
}
