//! The words of a BLIF text: its logical lines, each with the number of its first physical line.
//! A text is gone over once, from line to line; words are slices of it.
//! What a line means is left to the readers.
#![tactic(auto)]

mod bytes;
mod cuts;
mod fault;
mod lines;
mod rules;

pub use cuts::cut_at;
pub use fault::{LexFault, LexKind};
pub use lines::Lines;
