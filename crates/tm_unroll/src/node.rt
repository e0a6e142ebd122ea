// What a mapping is made of, and what may be wrong with one.

ghost use Rattle.std.specs.Prelude.{◌↔◌, IsTrue};
ghost use Rattle.tm_unroll.specs.Nodes.{IsBefore};

use smallvec::SmallVec;
use tm_circuit::Signal;

/// A signal so many steps ahead. Nodes are ordered by signal, then by advance.
#[derive(Clone, Copy, Debug, Default, PartialEq, Eq, PartialOrd, Ord, Hash)]
pub struct Node {
    pub signal: Signal,
    /// In steps.
    pub advance: u8,
}

impl Node {
    /// Whether this node stands before the other one: by signal, then by advance.
    pub fn is_before(self, other: Node) -> bool
        ensures { IsTrue result ↔ IsBefore self other }
    {
        self < other
    }
}

/// A lookup table: it gives the value of its gate `lag` steps ahead, from its leaves.
#[derive(Drop)]
pub struct Lut {
    pub gate: Signal,
    /// In steps.
    pub lag: u8,
    /// In ascending order, where the mapping is lawful.
    pub leaves: SmallVec<Node, 8>,
}

/// A mapping: a list of tables, in ascending order of their gates where it is lawful.
#[derive(Drop)]
pub struct Mapping {
    pub luts: Vec<Lut>,
}

/// The first thing that is wrong with a mapping.
#[derive(Clone, Copy, Debug, PartialEq, Eq)]
pub struct MappingFault {
    /// The table, or for `Output` the output, counted from 1.
    pub entry: u32,
    pub why: MapWhy,
}

/// Why a mapping is not lawful. A table is tested in this order, and the outputs after all tables.
#[derive(Clone, Copy, Debug, PartialEq, Eq)]
pub enum MapWhy {
    /// The gate of the table is no gate, or is not greater than that of the table before, or the lag is not allowed.
    Lag,
    /// The table has too many leaves, or they do not ascend, or one is no leaf of a table of this lag.
    Leaves,
    /// A walk from the table meets none of its leaves, or a leaf is not reached.
    Uncovered,
    /// A gate leaf has no table of at least its advance, or the source gate of a latch leaf has none.
    Unserved,
    /// The source gate of the output has no table.
    Output,
}
