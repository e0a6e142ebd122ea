//! Models that are placed in others become one flat unit.
//! It is made only where the instances are few enough and small enough; else its fault is answered unmade.
#![tactic(auto)]

mod around;
mod expand;
mod extent;
mod formals;
mod joiner;
mod order;
mod site;
mod sites;
mod size;
#[cfg(test)]
mod tests;
mod tree;

pub use tree::flat;
