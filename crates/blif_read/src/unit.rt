// A model as its statements, with names in place of signals.

pub use blif_unit::{Binding, Control, Stated, Statement, Unit};
