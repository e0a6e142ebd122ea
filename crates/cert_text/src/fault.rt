// Why a text is no certificate.

ghost use Rattle.std.specs.Prelude.{◌≡◌};
ghost use Rattle.cert_text.specs.declared.fault.CertFault.TheVariants.{NoMemory as WantOfMemory};

use std::alloc::{AllocError, AllocFailed};
use thiserror::Error;
use tm_bits::NoMemory;

/// What is wrong with a line. Within a line they are tested in the order `Ending`, `Version`, `Word`, `Number`.
#[derive(Clone, Copy, Debug, PartialEq, Eq)]
pub enum CertKind {
    /// Line 1 is neither `turbomap 1` nor `turbomap 2`.
    Version,
    /// A later line has not its first word, has too few or too many words, or has an empty word.
    Word,
    /// A number, a leaf or a walk has not its form or is past its bound.
    Number,
    /// The text ends where a line is due, or the line has no LF, or something follows the last line.
    Ending,
}

/// Why a text has no certificate: its first fault, with the number of the line, or want of memory.
#[derive(Clone, Copy, Debug, PartialEq, Eq, Error)]
pub enum CertFault {
    /// The line counts from 1. A line that is wanting has the number of the line that is due.
    #[error("line {line}: {kind:?}")]
    Text { line: u32, kind: CertKind },
    #[error("no memory")]
    NoMemory,
}

impl From<NoMemory> for CertFault {
    ghost from_gives = { λ _ fault. fault ≡ WantOfMemory };

    fn from(_refused: NoMemory) -> Self {
        CertFault::NoMemory
    }
}

impl From<AllocError> for CertFault {
    ghost from_gives = { λ _ fault. fault ≡ WantOfMemory };

    fn from(_refused: AllocError) -> Self {
        CertFault::NoMemory
    }
}

impl<T: Drop> From<AllocFailed<T>> for CertFault {
    ghost from_gives = { λ _ fault. fault ≡ WantOfMemory };

    fn from(_refused: AllocFailed<T>) -> Self {
        CertFault::NoMemory
    }
}

/// The fault of this kind at a line.
pub fn at(line: u32, kind: CertKind) -> CertFault
    ensures { result ≡ CertFault.Text line kind }
{
    CertFault::Text { line, kind }
}
