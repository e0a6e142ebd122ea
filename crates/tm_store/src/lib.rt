//! The outside of TurboMap: a store of named files and a sayer of lines, as traits whose meaning and
//! counts of faults every caller can rely on. With implementations in memory, for tests, and over the
//! file system and standard output, for the program.
#![tactic(auto)]

mod file_store;
mod mem_say;
mod mem_store;
mod out_say;
mod say;
mod slot;
mod store;

pub use file_store::FileStore;
pub use mem_say::MemSay;
pub use mem_store::MemStore;
pub use out_say::OutSay;
pub use say::{Say, SayFailed};
pub use slot::Slot;
pub use store::{Store, StoreFault, WriteFailed};
