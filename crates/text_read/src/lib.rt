//! Reads a text that is given as input, whichever kind it is: one that begins with `aag ` is ASCII AIGER, any other is BLIF, of one or
//! several models. The answer is the circuit of the text or its first fault, by the rules of its kind.
//! Which kind a text is, is told by its first four bytes alone, here and nowhere else.
#![tactic(auto)]

mod fault;
pub mod laws;
mod reading;

pub use fault::{TextFault, TextKind};
pub use reading::{is_aiger, read, too_many};
