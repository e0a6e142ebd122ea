//! The two-way bound: the least period that any mapping reaches where registers may move forward and backward, initial values left
//! aside. `least` answers it with a mapping that has it and with drops that refute the period below.
//! The definitions stand in specs/ over amounts that may be less than 0, and `laws` ties them to those over a base.
#![tactic(auto)]

mod amounts;
mod answer;
mod bound;
pub mod laws;

pub use answer::{TwoDrop, TwoLut, TwoNode, TwoWay};
pub use bound::least;
