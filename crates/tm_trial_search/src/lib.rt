//! Tests of the settling, the shortened drops, the search, the chosen and the absorbed mapping, and bounds, on worked rows. They stand in a
//! crate of their own so that the crates they test are proved but once.
//! Each module has the rows of one crate.
#![tactic(auto)]

#[cfg(test)]
mod absorbing;
#[cfg(test)]
mod bounds;
#[cfg(test)]
mod choosing;
#[cfg(test)]
mod searching;
#[cfg(test)]
mod settlings;
#[cfg(test)]
mod shortening;
