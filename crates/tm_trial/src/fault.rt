// Why there is nothing of a line.

use std::alloc::{AllocError, AllocFailed};
use thiserror::Error;
use tm_bits::NoMemory;
use tm_circuit::CircuitFault;

/// Why there is nothing of a line.
#[derive(Clone, Copy, Debug, PartialEq, Eq, Error)]
pub enum TrialFault {
    /// The allocator refused.
    #[error("no memory")]
    NoMemory,
    /// The rows of a cover are uneven, or it is an off cover without rows.
    #[error("no cover")]
    Cover,
    /// The parts make no circuit.
    #[error("no circuit")]
    Circuit(CircuitFault),
}

impl From<AllocError> for TrialFault {
    fn from(_refused: AllocError) -> Self {
        TrialFault::NoMemory
    }
}

impl<T: Drop> From<AllocFailed<T>> for TrialFault {
    fn from(_refused: AllocFailed<T>) -> Self {
        TrialFault::NoMemory
    }
}

impl From<NoMemory> for TrialFault {
    fn from(_refused: NoMemory) -> Self {
        TrialFault::NoMemory
    }
}

impl From<CircuitFault> for TrialFault {
    fn from(fault: CircuitFault) -> Self {
        TrialFault::Circuit(fault)
    }
}
