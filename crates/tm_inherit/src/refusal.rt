// What is asked of a gate, and what refuses it.

use tm_circuit::Signal;

/// A gate at a lag and an arrival, before which the leaves of a cut are to be served. No drop goes past the target.
#[derive(Clone, Copy)]
pub struct Aim {
    /// The advance that stands for the present.
    pub base: u8,
    /// The most leaves of a cut.
    pub k: u8,
    pub gate: Signal,
    /// In steps.
    pub lag: u8,
    pub arrival: u32,
    pub target: u32,
}

/// Walks from a gate at a lag, each as digits, that no cut goes with that is served before an arrival.
#[derive(Drop)]
pub struct Refusal {
    pub arrival: u32,
    pub walks: Vec<Vec<u8>>,
}
