//! Prime covers of tables: a few wide rows in place of one row for each row of value 1.
//! No place of a row can be made `-` and no row can be left out, or the cover would have another function.
//! It isn't promised to be the smallest such cover: another choice of wide rows may have fewer.
#![tactic(auto)]

mod cube;
pub mod laws;
mod primes;
mod sets;

pub use primes::prime;
