//! Why a run ended.

ghost use Rattle.std.proofs.Common.{rules};
ghost use Rattle.std.specs.Prelude.{◌≡◌};

use nla_wire::Exact;
use std::alloc::AllocError;
use thiserror::Error;

/// Why a run ended before the end of its input.
#[derive(Clone, Copy, Debug, PartialEq, Eq, Error)]
pub enum RunError {
    /// The reader failed, or had not ended after 2^64 - 1 reads.
    #[error("read failed")]
    Read,
    /// The writer failed, or took no byte.
    #[error("write failed")]
    Write,
    /// No memory was left.
    #[error("out of memory")]
    OutOfMemory,
}

impl From<AllocError> for RunError {
    ghost use Rattle.line_filter.specs.declared.error.RunError.TheVariants.{OutOfMemory};

    ghost from_gives = { λ _ e. e ≡ OutOfMemory };

    fn from(_error: AllocError) -> RunError {
        RunError::OutOfMemory
    }
}

impl Exact for RunError {
    ghost decides = { Prim.search rules };
}
