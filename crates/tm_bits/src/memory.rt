// Want of memory, the one answer that no clause ties to a cause.

use std::alloc::{AllocError, AllocFailed};
use thiserror::Error;

/// The allocator refused.
#[derive(Clone, Copy, Debug, PartialEq, Eq, Error)]
#[error("no memory")]
pub struct NoMemory;

impl From<AllocError> for NoMemory {
    ghost use Rattle.std.specs.Prelude.{◌≡◌};
    ghost use Rattle.tm_bits.specs.declared.memory.NoMemory.{NoMemory};

    ghost from_gives = { λ _ answer. answer ≡ record {} };

    fn from(_refused: AllocError) -> Self {
        NoMemory
    }
}

impl<T: Drop> From<AllocFailed<T>> for NoMemory {
    ghost use Rattle.std.specs.Prelude.{◌≡◌};

    ghost from_gives = { λ _ answer. answer ≡ record {} };

    fn from(_refused: AllocFailed<T>) -> Self {
        NoMemory
    }
}
