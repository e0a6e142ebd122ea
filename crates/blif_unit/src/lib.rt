//! What the readers of BLIF share: models as statements with names, the faults of a text, and the limits on a text.
//! A model with all its names is a unit; lists of names are kept in the order in which the names came.
//! The definitions of the specs see a unit as plain lists.
#![tactic(auto)]

mod fault;
mod limits;
mod names;
mod unit;

pub use fault::{BlifFault, BlifKind, at};
pub use limits::Limits;
pub use names::Names;
pub use unit::{Binding, Control, Stated, Statement, Unit};
