//! The checker of certificates: whether a mapped circuit and a certificate are accepted for a circuit, and else their first failure.
//! It takes nothing on trust: the mapping, the mapped circuit and each drop of the replay are judged anew.
//! What is accepted stands in specs/, and `laws` says what follows from it.
#![tactic(auto)]

mod agreement;
mod checking;
pub mod laws;
mod verdict;

pub use checking::check;
pub use verdict::{Verdict, Why};
