//! Circuits and mappings for tests, each written on a line, so that a test is a table of texts.
//! A word that should be a number and is none stands for the greatest one, which is no signal.
#![tactic(auto)]

mod circuits;
mod fault;
mod mappings;

pub use circuits::{circuit, cover};
pub use fault::TrialFault;
pub use mappings::{mapping, nodes};
