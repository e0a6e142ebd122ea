//! The circuit of a model: its names become signals, unless the model is at fault as a whole.
//! Each use of a name is driven, the clock is neither driven nor used, and no gates read one another in a circle.
//! The statements of the model are taken as they stand, whatever text they came from.
#![tactic(auto)]

mod clock;
mod order;
mod parts;
mod signals;
mod uses;

pub use signals::circuit_of;
