//! Refusals and their numbers, and results as the numbers that C gets.

ghost use Rattle.std.specs.Prelude.{◌≡◌, ◌<◌, ◌^◌, ◌↔◌, IsTrue, IfOk, pos, neg_ℤ};
ghost use Rattle.link_c.specs.Answers.{refusal_number, Says, itself, as_bit, as_one, as_zero};

use link_msg::{CanonError, RoomError};
use nla_wire::{Cause, DecodeError};
use std::alloc::AllocError;
use thiserror::Error;

/// Why a call was refused: each has one number, whatever the call.
#[derive(Clone, Copy, Debug, PartialEq, Eq, Error)]
pub enum Refusal {
    /// Refusals 1 to 7: the number of the cause of the first fault.
    #[error("{0}")]
    Fault(Cause),
    /// Refusal 16: the value of an attribute would be too long.
    #[error("an attribute that would be too long")]
    Unfit,
    /// Refusal 17: the message holds an empty list of ports, which has no canonical encoding.
    #[error("an empty list of ports")]
    EmptyPorts,
    /// Refusal 18: no memory was left. It says nothing of the bytes.
    #[error("out of memory")]
    OutOfMemory,
    /// Refusal 19: the buffer is too short.
    #[error("a buffer that is too short")]
    NoRoom,
    /// Refusal 20: a flag that is none.
    #[error("an unknown flag")]
    UnknownFlag,
}

impl Refusal {
    /// The number of the refusal.
    pub fn number(&self) -> u8
        ensures { result ≡ refusal_number self.now }
    {
        match self {
            Refusal::Fault(cause) => cause.number(),
            Refusal::Unfit => 16,
            Refusal::EmptyPorts => 17,
            Refusal::OutOfMemory => 18,
            Refusal::NoRoom => 19,
            Refusal::UnknownFlag => 20,
        }
    }

    /// Minus the number of the refusal.
    pub fn code(&self) -> i32
        ensures { result ≡ neg_ℤ (pos (refusal_number self.now)) }
    {
        -i32::from(self.number())
    }
}

impl From<DecodeError> for Refusal {
    ghost use Rattle.link_c.specs.declared.refusal.Refusal.TheVariants.{Fault};

    ghost from_gives = { λ e r. r ≡ Fault e.cause };

    fn from(error: DecodeError) -> Refusal {
        Refusal::Fault(error.cause)
    }
}

impl From<CanonError> for Refusal {
    ghost use Rattle.link_c.specs.Answers.{of_canon};

    ghost from_gives = { λ e r. r ≡ of_canon e };

    fn from(error: CanonError) -> Refusal {
        match error {
            CanonError::Decode(error) => Refusal::Fault(error.cause),
            CanonError::DoesNotFit => Refusal::Unfit,
            CanonError::EmptyVfPorts => Refusal::EmptyPorts,
            CanonError::OutOfMemory => Refusal::OutOfMemory,
        }
    }
}

impl From<RoomError> for Refusal {
    ghost use Rattle.link_c.specs.Answers.{of_room};

    ghost from_gives = { λ e r. r ≡ of_room e };

    fn from(error: RoomError) -> Refusal {
        match error {
            RoomError::NoEncoding(error) => Refusal::from(error),
            RoomError::NoRoom { .. } => Refusal::NoRoom,
        }
    }
}

impl From<AllocError> for Refusal {
    ghost use Rattle.link_c.specs.declared.refusal.Refusal.TheVariants.{OutOfMemory};

    ghost from_gives = { λ e r. r ≡ OutOfMemory };

    fn from(_error: AllocError) -> Refusal {
        Refusal::OutOfMemory
    }
}

/// 0 where nothing is amiss, or minus the number of the refusal.
pub fn fault_code(found: Result<(), Refusal>) -> i32
    ensures { Says as_zero (λ r. r ≡ found) result }
{
    match found {
        Ok(()) => 0,
        Err(refusal) => refusal.code(),
    }
}

/// 1 for what was done, or minus the number of the refusal.
pub fn done_code(found: Result<(), Refusal>) -> i32
    ensures { Says as_one (λ r. r ≡ found) result }
{
    match found {
        Ok(()) => 1,
        Err(refusal) => refusal.code(),
    }
}

/// 1 for yes, 0 for no, or minus the number of the refusal.
pub fn whether_code(found: Result<bool, Refusal>) -> i32
    ensures { Says as_bit (λ r. r ≡ found) result }
{
    match found {
        Ok(yes) => i32::from(yes),
        Err(refusal) => refusal.code(),
    }
}

/// A length, or minus the number of the refusal.
pub fn length_code(found: Result<usize, Refusal>) -> isize
    requires { IfOk found (λ n. n < 2 ^ 63) }
    ensures { Says itself (λ r. r ≡ found) result }
{
    match found {
        Ok(len) => len as isize,
        Err(refusal) => refusal.code() as isize,
    }
}

/// Whether two refusals are equal.
pub fn same_refusal(one: &Refusal, other: &Refusal) -> bool
    ensures { IsTrue result ↔ (one.now ≡ other.now) }
{
    one == other
}
