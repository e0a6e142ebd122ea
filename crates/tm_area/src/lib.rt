//! Mappings with fewer tables at the same period. `recover` chooses among the cuts of each gate at its label's lag: by area flow
//! within required times, and then by what a table alone keeps needed. What it finds is a guess that is tested: it is answered
//! only where it is lawful, has no longer chains and no more tables than the mapping given, and otherwise that mapping is.
#![tactic(auto)]

mod counts;
mod cuts;
mod level;
mod plan;
mod recovering;
mod rounds;

pub use recovering::recover;
