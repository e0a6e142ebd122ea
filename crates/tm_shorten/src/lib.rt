//! Shorter lists of drops: of those that refute a target, the drops that the first output to lose its label stands on.
//! What is left is replayed, and where it refutes nothing all drops are answered, so that finding them needs no proof.
//! What it is to be a part of a list stands in specs/.
#![tactic(auto)]

mod marking;
mod parts;
mod shorter;

pub use shorter::shorten;
