//! The least period of a circuit: a target that is settled with labels for all outputs, while the one below it is refuted.
//! How the period is guessed is not proved; that it is the least is, by the two settlings.
#![tactic(auto)]

pub mod laws;
mod least;

pub use least::{Least, least_for_outputs, least_period};
