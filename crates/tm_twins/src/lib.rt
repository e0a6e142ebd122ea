//! Equal latches of a circuit: those of the same source and the same initial word always hold the same value.
//! The twin of a latch is the least that is equal to it.
//! In the joined circuit each pin and each next is replaced by its twin.
#![tactic(auto)]

mod classes;
mod join;
pub mod laws;
mod parts;
mod twin;

pub use join::joined;
pub use twin::twins;
