//! Cuts of gates under labels, made of the present cuts of other gates: a leaf that is served too late is replaced by its own cut.
//! What is found is a cut; where nothing is found there may be one all the same. `can_settle` guesses by such cuts alone whether a
//! target can be settled.
//! The definitions of cuts within a number stand in specs/.
#![tactic(auto)]

mod cuts;
mod guess;
mod lags;
mod outputs;
mod pins;
mod queue;
#[cfg(test)]
mod tests;
mod watchers;

pub use cuts::{behind_latches, merge};
pub use guess::{Guess, can_settle};
pub use lags::greatest_lags;
pub use outputs::leads_to_output;
