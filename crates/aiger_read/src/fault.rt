// Why a text has no circuit.

ghost use Rattle.std.specs.Prelude.{◌≡◌};
ghost use Rattle.aiger_read.specs.declared.fault.AigerFault.TheVariants.{NoMemory as WantOfMemory};

use std::alloc::{AllocError, AllocFailed};
use thiserror::Error;
use tm_bits::NoMemory;

/// What is wrong with a text. Those up to `BadSymbol` are tested line by line, within a line in this order; the others are of the
/// whole text, and come after them in this order.
#[derive(Clone, Copy, Debug, PartialEq, Eq)]
pub enum AigerKind {
    /// Line 1 is not `aag` and 5 to 9 numbers, or its first number does not fit the others.
    BadHeader,
    /// Line 1 asks for a section that is left out here.
    LeftOut,
    /// The text ends where a counted line is due.
    Ending,
    /// A counted line has too few or too many numbers, or a word that is no number.
    BadLine,
    /// A literal is past the last variable, or one that is to be defined is negated or the constant.
    BadLiteral,
    /// A variable is defined twice.
    Repeated,
    /// A reset is neither 0, 1 nor the latch's own literal.
    BadReset,
    /// A reset is the latch's own literal.
    UnknownInit,
    /// A line behind the counted ones is no symbol, or names a second time.
    BadSymbol,
    /// A literal is of a variable that no line defines.
    Undriven,
    /// There are more signals than allowed.
    TooManySignals,
    /// Gates read one another in a circle with no latch in it.
    Loop,
}

/// Why no circuit was answered: the first fault of the text with its line, or want of memory.
#[derive(Clone, Copy, Debug, PartialEq, Eq, Error)]
pub enum AigerFault {
    /// The line counts from 1; a line that is wanting has the number of the line that is due. It is 0 where the fault is one of
    /// the whole text but for `Undriven`.
    #[error("line {line}: {kind:?}")]
    Text { line: u32, kind: AigerKind },
    #[error("no memory")]
    NoMemory,
}

impl From<NoMemory> for AigerFault {
    ghost from_gives = { λ _ fault. fault ≡ WantOfMemory };

    fn from(_refused: NoMemory) -> Self {
        AigerFault::NoMemory
    }
}

impl From<AllocError> for AigerFault {
    ghost from_gives = { λ _ fault. fault ≡ WantOfMemory };

    fn from(_refused: AllocError) -> Self {
        AigerFault::NoMemory
    }
}

impl<T: Drop> From<AllocFailed<T>> for AigerFault {
    ghost from_gives = { λ _ fault. fault ≡ WantOfMemory };

    fn from(_refused: AllocFailed<T>) -> Self {
        AigerFault::NoMemory
    }
}

/// The fault of this kind at a line.
pub fn at(line: u32, kind: AigerKind) -> AigerFault
    ensures { result ≡ AigerFault.Text line kind }
{
    AigerFault::Text { line, kind }
}
