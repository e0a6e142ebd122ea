//! The first steps of a circuit whose inputs are 0: the bit of each signal at each of them.
//! A register that is moved forward over gates starts with such a bit. Where every path back to an input has more latches than
//! the step, the bit is the same for all inputs.
#![tactic(auto)]

mod bits;
pub mod laws;
mod starts;

pub use starts::{Starts, first_steps};
