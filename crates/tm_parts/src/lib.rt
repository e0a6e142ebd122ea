//! What passes that make one circuit out of another share: the names of a circuit and the runs in them, joiners for new
//! names, and parts that begin as a frame without signals and grow signal by signal.
//! `FitsMapping` of the definitions is what a circuit has to be so that it can be mapped.
#![tactic(auto)]

pub mod laws;
mod names;
mod parts;
mod runs;

pub use names::{has_names_within, name_of};
pub use parts::{add_signal, frame};
pub use runs::joiner;
