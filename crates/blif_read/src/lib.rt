//! Reads a BLIF text with one model as a sequential circuit, or answers the text's first fault.
//! The lines of the text become statements, a model's statements are a unit, and a unit becomes a circuit.
//! The rules on texts are stated in the specs, over plain lists of words.
#![tactic(auto)]

ghost use Rattle.std.specs.Prelude.{◌^◌, ◌<◌, ◌≤◌, length, IfOk, IfErr};
ghost use Rattle.tm_circuit.specs.Plain.{Plain};
ghost use Rattle.blif_read.specs.Text.{IsCircuitOf, IsFaultOf, OnText};

pub mod fault;
pub mod keyword;
pub mod laws;
pub mod unit;
mod whole;

use blif_circuit::circuit_of;
use blif_lex::Lines;
use blif_models::unit_of;
pub use blif_models::units;
pub use blif_unit::Limits;
pub use fault::{BlifFault, BlifKind};
pub use keyword::Keyword;
use std::alloc::Global;
use tm_circuit::Circuit;
pub use unit::{Binding, Control, Stated, Statement, Unit};
pub use whole::circuit;

/// The limits on a text that is mapped.
pub const SOURCE: Limits = Limits {
    signals: 100_000,
    name: 255,
};

/// The limits on a mapped text, which no circuit exceeds.
pub const MAPPED: Limits = Limits {
    signals: 900_000,
    name: 1_023,
};

/// The circuit of a text with one model, or the text's first fault.
pub fn read(alloc: Global, text: &[u8], limits: &Limits) -> Result<Circuit, BlifFault>
    requires short { length text.now < 2 ^ 32 }
    requires signals { limits.now.signals ≤ 900000 }
    requires name { limits.now.name ≤ 1023 }
    // What is answered is the circuit that the text has.
    ensures circuit { IfOk result (λ c. IsCircuitOf limits.now text.now c) }
    // The fault is the text's first, and then the text has no circuit.
    ensures fault { IfErr result (λ e. OnText e (IsFaultOf limits.now text.now)) }
    ensures none { IfErr result (λ e. OnText e (λ _. (c : Plain) → ¬ IsCircuitOf limits.now text.now c)) }
{
    let lines = Lines::of(alloc, text, limits.name, false)?;
    let unit = unit_of(alloc, &lines)?;
    circuit_of(alloc, &unit, limits)
}
