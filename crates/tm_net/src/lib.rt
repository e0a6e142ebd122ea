//! The mapped circuit of a lawful mapping, built: registers between advances, initial values, tables, names.
//! What it is stands in tm_mapped, with the laws that it behaves like the circuit mapped.
#![tactic(auto)]

mod layout;
mod needed;
mod net;
mod numbers;
mod parts;
mod plan;

pub use net::mapped;
