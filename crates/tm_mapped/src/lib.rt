//! What the mapped circuit of a mapping is: which nodes it needs, which of them are registers with which initial values, and names.
//! The definitions stand in specs/; the laws say that it behaves like the circuit mapped and has the mapping's period.
#![tactic(auto)]

pub mod laws;
