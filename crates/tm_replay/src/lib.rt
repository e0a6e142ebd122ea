//! Labels of gates and their replays: what a label is, which nodes labels serve, when a drop of a label is lawful, and what a
//! list of drops refutes.
//! The definitions stand in specs/, and the laws of them beside the code.
#![tactic(auto)]

mod drops;
mod fault;
mod label;
pub mod laws;
mod lost;
mod node;
mod served;

pub use drops::{replay, replay_from};
pub use fault::{DropFault, DropWhy, Replayed};
pub use label::{Label, Lowering};
pub use lost::{has_lost_source, have_lost};
pub use served::{Served, ServedFrom, serves, serves_from};
