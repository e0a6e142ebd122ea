// What the replay of a list of drops comes to.

use crate::label::Label;

/// Why a drop is not lawful. A drop is tested in this order.
#[derive(Clone, Copy, Debug, PartialEq, Eq)]
pub enum DropWhy {
    /// Its gate is no gate, its arrival is 0 or more than the target, or the label of its gate is none, has another lag, or
    /// has a greater arrival.
    Order,
    /// The number of its walks is neither 1 nor `k + 1`.
    TooFew,
    /// One of its walks is no walk from its gate at its lag to an end.
    Path,
    /// A node that is served before its arrival stands on two of its walks, or on the walk where there is one.
    Shared,
}

/// The first drop of a list that is not lawful under the labels of its moment.
#[derive(Clone, Copy, Debug, PartialEq, Eq)]
pub struct DropFault {
    /// The drop, counted from 1.
    pub entry: u32,
    pub why: DropWhy,
}

/// What a list of drops comes to.
#[derive(Debug, PartialEq, Eq, Drop)]
pub enum Replayed {
    /// All drops are lawful, and these are the labels at the end, one for each signal.
    Labels(Vec<Option<Label>>),
    Fault(DropFault),
}
