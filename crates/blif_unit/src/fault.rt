// Why a text has no circuit.

ghost use Rattle.std.specs.Prelude.{◌≡◌};
ghost use Rattle.blif_unit.specs.declared.fault.BlifFault.TheVariants.{NoMemory};

use blif_lex::{LexFault, LexKind};
use std::alloc::{AllocError, AllocFailed};
use thiserror::Error;

/// What is wrong with a text, in the order in which the rules on one model are tested; then the kinds that several models bring.
#[derive(Clone, Copy, Debug, PartialEq, Eq)]
pub enum BlifKind {
    BadByte,
    LongName,
    UnknownWord,
    LeftOut,
    Misplaced,
    BadCount,
    TooManyPins,
    RepeatedDriver,
    RepeatedOutput,
    BadRow,
    MixedRows,
    BadType,
    BadInit,
    UnknownInit,
    ManyClocks,
    Undriven,
    GatedClock,
    ClockAsData,
    TooManySignals,
    Loop,
    BadBinding,
    RepeatedModel,
    NoModel,
    UnknownFormal,
    RepeatedFormal,
    Unbound,
    Recursion,
    TooDeep,
    TooLarge,
}

/// Why no circuit was answered: the first fault of the text with its line, or want of memory.
#[derive(Clone, Copy, Debug, PartialEq, Eq, Error)]
pub enum BlifFault {
    /// The line counts from 1; it is 0 where the fault is one of the whole text.
    #[error("line {line}: {kind:?}")]
    Text { line: u32, kind: BlifKind },
    #[error("no memory")]
    NoMemory,
}

impl From<tm_bits::NoMemory> for BlifFault {
    ghost from_gives = { λ _ fault. fault ≡ NoMemory };

    fn from(_refused: tm_bits::NoMemory) -> Self {
        BlifFault::NoMemory
    }
}

impl From<AllocError> for BlifFault {
    ghost from_gives = { λ _ fault. fault ≡ NoMemory };

    fn from(_refused: AllocError) -> Self {
        BlifFault::NoMemory
    }
}

impl<T: Drop> From<AllocFailed<T>> for BlifFault {
    ghost from_gives = { λ _ fault. fault ≡ NoMemory };

    fn from(_refused: AllocFailed<T>) -> Self {
        BlifFault::NoMemory
    }
}

impl From<LexFault> for BlifFault {
    ghost use Rattle.blif_unit.specs.Fault.{fault_by};

    ghost from_gives = { λ lexed fault. fault ≡ fault_by lexed };

    fn from(lexed: LexFault) -> Self {
        match lexed {
            LexFault::Text { line, kind } => BlifFault::Text {
                line,
                kind: match kind {
                    LexKind::BadByte => BlifKind::BadByte,
                    LexKind::LongName => BlifKind::LongName,
                },
            },
            LexFault::NoMemory => BlifFault::NoMemory,
        }
    }
}

/// The fault of this kind at a line.
pub fn at(line: u32, kind: BlifKind) -> BlifFault
    ensures { result ≡ BlifFault.Text line kind }
{
    BlifFault::Text { line, kind }
}
