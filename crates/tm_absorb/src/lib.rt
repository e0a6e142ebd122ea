//! Mappings without tables that fit into all their readers: such a table goes, and its readers take in its leaves.
//! `absorb` does so again and again, the least gate first, until no table is left that can be absorbed.
//! What can be absorbed, and what an absorbed mapping is, stands in specs/, and the laws of it beside the code.
#![tactic(auto)]

mod absorbing;
mod admits;
pub mod laws;
mod queue;
mod readers;
mod slots;
mod under_way;

pub use absorbing::absorb;
