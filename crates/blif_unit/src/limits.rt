// What a text may have.

/// What a text may have at most.
#[derive(Clone, Copy, Debug, PartialEq, Eq)]
pub struct Limits {
    /// Signals of the circuit.
    pub signals: u32,
    /// Bytes of a name.
    pub name: u32,
}
