// Why a text has no circuit.

pub use blif_unit::{BlifFault, BlifKind};
