//! A simulator of circuits: a machine that makes one step after another, and the rows of bits that go in and come out.
//! A machine takes all its memory before its first step, and a step costs the rows of the gates.
//! Rows are read from a text of `0` and `1`, one line for each step, and written as one.
#![tactic(auto)]

mod machine;
pub mod vectors;

pub use machine::Machine;
