// What is wrong with a text before its words mean anything.

ghost use Rattle.blif_lex.specs.declared.fault.LexFault.TheVariants.{NoMemory};
ghost use Rattle.std.specs.Prelude.{◌≡◌};

use std::alloc::{AllocError, AllocFailed};
use thiserror::Error;

/// What is wrong with a line.
#[derive(Clone, Copy, Debug, PartialEq, Eq)]
pub enum LexKind {
    /// A byte outside 33 to 126, or a `\`, in a word.
    BadByte,
    /// A word with more bytes than a name may have.
    LongName,
}

/// Why a text has no lines: a fault of its own, with the number of the line, or want of memory.
#[derive(Clone, Copy, Debug, PartialEq, Eq, Error)]
pub enum LexFault {
    #[error("line {line}: {kind:?}")]
    Text { line: u32, kind: LexKind },
    #[error("no memory")]
    NoMemory,
}

impl From<AllocError> for LexFault {
    ghost from_gives = { λ _ fault. fault ≡ NoMemory };

    fn from(_refused: AllocError) -> Self {
        LexFault::NoMemory
    }
}

impl<T: Drop> From<AllocFailed<T>> for LexFault {
    ghost from_gives = { λ _ fault. fault ≡ NoMemory };

    fn from(_refused: AllocFailed<T>) -> Self {
        LexFault::NoMemory
    }
}
