//! Circuits with prime covers: each gate's cover is replaced by a prime cover of its table, and all else stays.
//! Such a circuit behaves like the one given, and is as large and as deep.
//! Where that was the mapped circuit of a mapping, this one is too, by the rule of prime rows, and a certificate accepts it.
#![tactic(auto)]

mod covers;
pub mod laws;

pub use covers::with_prime_covers;
