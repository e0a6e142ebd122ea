//! Splits gates with more than K pins into gates of at most two pins, and leaves all else as it is.
//! A row is reduced by rounds of pairing to one literal, and the literals of the rows in the same way.
//! The new gates stand before the gate that they are made for, under names that no other signal has.
#![tactic(auto)]

mod circuit;
mod count;
mod gates;
pub mod limits;
mod names;
mod parts;
mod piece;
mod pieces;

pub use circuit::{SplitFault, into_subject, subject};
pub use count::MOST_SUBJECT_SIGNALS;
