//! Drops that are taken over from others: where what a gate reads last has fallen, walks that show why show it of the gate, too,
//! with one edge in front. So most labels fall without a search.
//! What refuses a gate a cut, and what it reads behind latches, stands in specs/.
#![tactic(auto)]

mod inherited;
pub mod laws;
mod reads;
mod refusal;

pub use inherited::inherit;
pub use reads::{Read, latest_read};
pub use refusal::{Aim, Refusal};
