//! Reads a BLIF text with one or several models as a sequential circuit, or answers the text's first fault.
//! The text becomes models, models that are placed in one another become one flat unit, and that becomes a circuit.
//! The outputs of the circuit are those that the models have as they are nested.
#![tactic(auto)]

ghost use Rattle.std.specs.Prelude.{◌^◌, ◌<◌, ◌≤◌, length, IfOk, IfErr};
ghost use Rattle.tm_circuit.specs.Plain.{Plain};
ghost use Rattle.tm_circuit.specs.Sound.{IsSound};
ghost use Rattle.blif_hier.specs.Nested.{MeansText};
ghost use Rattle.blif_hier.specs.Text.{IsCircuitOf, IsFaultOf, OnText};

pub mod laws;

pub use blif_flat::flat;
use blif_read::{BlifFault, Limits, circuit, units};
use std::alloc::Global;
use tm_circuit::Circuit;

/// The circuit of a text with one or several models, or the text's first fault.
pub fn read(alloc: Global, text: &[u8], limits: &Limits) -> Result<Circuit, BlifFault>
    requires short { length text.now < 2 ^ 32 }
    requires signals { limits.now.signals ≤ 900000 }
    requires name { limits.now.name ≤ 1023 }
    // What is answered is the circuit that the text has,
    ensures circuit { IfOk result (λ c. IsCircuitOf limits.now text.now c) }
    ensures sound { IfOk result IsSound }
    // and its outputs are those of the top at every step of every input sequence.
    ensures trace { IfOk result (λ c. MeansText limits.now text.now c) }
    // The fault is the text's first, and then the text has no circuit.
    ensures fault { IfErr result (λ e. OnText e (IsFaultOf limits.now text.now)) }
    ensures none { IfErr result (λ e. OnText e (λ _. (c : Plain) → ¬ IsCircuitOf limits.now text.now c)) }
{
    let units = units(alloc, text, limits)?;
    let unit = flat(alloc, &units)?;
    let circuit = circuit(alloc, &unit, limits)?;
    // Each circuit in hand is known to be sound.
    let _signals = circuit.signals();
    laws::meaning();
    Ok(circuit)
}
