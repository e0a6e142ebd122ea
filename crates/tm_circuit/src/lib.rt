//! Sequential circuits: inputs, latches and gates numbered as signals, with one clock.
//! A circuit is built once from its parts, tested whole, and then only read.
//! Contracts see a circuit as plain lists over its signals.
#![tactic(auto)]

mod build;
mod circuit;
mod depths;
mod distinct;
mod draft;
mod extent;
mod lawful;
pub mod laws;
mod parts;
mod sources;

pub use circuit::{Circuit, CircuitFault};
pub use parts::{Clock, Driver, Edge, GatePart, LatchPart, Name, Parts, Signal};
pub use sources::Source;
