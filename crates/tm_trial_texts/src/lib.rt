//! Tests of the readers of ASCII AIGER, of texts with several models and of texts of either kind, which have worked rows written
//! out. They stand in a crate of their own so that the crates they test are proved but once.
#![tactic(auto)]

#[cfg(test)]
mod aiger;
#[cfg(test)]
mod kinds;
#[cfg(test)]
mod models;
