// Why a text has no circuit, whichever kind of text it is.

use aiger_read::AigerKind;
use blif_read::BlifKind;
use thiserror::Error;

/// What is wrong with a text, by the rules on BLIF or by those on AIGER.
#[derive(Clone, Copy, Debug, PartialEq, Eq)]
pub enum TextKind {
    Blif(BlifKind),
    Aiger(AigerKind),
}

/// Why no circuit was answered: the first fault of the text with its line, or want of memory.
#[derive(Clone, Copy, Debug, PartialEq, Eq, Error)]
pub enum TextFault {
    /// The line counts from 1; it is 0 where the fault is one of the whole text.
    #[error("line {line}: {kind:?}")]
    Text { line: u32, kind: TextKind },
    #[error("no memory")]
    NoMemory,
}
