// What a two-way bound is made of. An amount is how many steps ahead of the present a value is, and less than 0 behind it.

use tm_circuit::Signal;

/// A signal so many steps ahead.
#[derive(Clone, Copy, Debug, PartialEq, Eq)]
pub struct TwoNode {
    pub signal: Signal,
    /// In steps; less than 0 behind the present.
    pub advance: i8,
}

/// A lookup table: it gives the value of its gate `lag` steps ahead, from its leaves.
#[derive(Debug, PartialEq, Eq, Drop)]
pub struct TwoLut {
    pub gate: Signal,
    /// In steps; less than 0 behind the present, where registers move backward over the gate.
    pub lag: i8,
    /// In ascending order.
    pub leaves: Vec<TwoNode>,
}

/// A drop of a replay: it lowers the label of its gate, which has its lag, to the one next below that lag and its arrival.
#[derive(Debug, PartialEq, Eq, Drop)]
pub struct TwoDrop {
    pub gate: Signal,
    /// In steps; less than 0 behind the present.
    pub lag: i8,
    pub arrival: u32,
    /// Walks from the gate, each as digits: for each node that it leaves the index of the node that is read next.
    pub walks: Vec<Vec<u8>>,
}

/// The least period of two-way mappings (Leiserson and Saxe, Pan and Liu), and what shows it.
#[derive(Debug, PartialEq, Eq, Drop)]
pub struct TwoWay {
    pub period: u32,
    /// A mapping of this period, in ascending order of the gates.
    pub luts: Vec<TwoLut>,
    /// Drops that refute the period less one; none for the period 0.
    pub drops: Option<Vec<TwoDrop>>,
}
