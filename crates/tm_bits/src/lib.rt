//! Lookup tables and covers: the boolean functions of gates, as BLIF spells them.
//! A cover is a list of rows over the pins of a gate; a table has one bit for each row of up to 8 inputs.
//! Also the one error that every allocating call shares, `NoMemory`.
#![tactic(auto)]

mod cover;
pub mod limits;
mod memory;
mod table;

pub use cover::{Cover, Place, Row};
pub use memory::NoMemory;
pub use table::{Table, row_bits, row_number};

/// The most inputs that a table can have, and so the greatest K.
pub const MOST_K: u8 = 8;
