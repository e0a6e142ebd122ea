//! The mapping of a settling: tables for just the gates that the outputs want, with the cuts that the settling found.
//! `choose` makes it; that it is lawful and meets the settling's target is said beside it.
#![tactic(auto)]

mod chosen;
pub mod laws;
mod wanted;

pub use chosen::{choose, choose_from};
