//! Makes sample texts: BLIF texts of any size whose gates read what numbers of a fixed sequence choose.
//! The sample of a number is one text, byte for byte, wherever it is made.
//! It is the text of a circuit of gates with two pins, and is read as that circuit.
#![tactic(auto)]

mod make;
mod parts;

pub use make::sample;
