//! Reads an ASCII AIGER text as a sequential circuit, or answers the text's first fault.
//! The lines of the text become statements and names, and these become a circuit of gates over the text's variables.
//! The rules on texts and the meaning of a text are stated in the specs, over plain lists of lines and numbers.
#![tactic(auto)]

ghost use Rattle.std.specs.Prelude.{◌^◌, ◌<◌, ◌≤◌, length, IfOk, IfErr};
ghost use Rattle.tm_circuit.specs.Plain.{Plain};
ghost use Rattle.tm_circuit.specs.Sound.{IsSound};
ghost use Rattle.aiger_read.specs.Text.{IsCircuitOf, IsFaultOf, OnText};
ghost use Rattle.aiger_read.specs.Trace.{MeansText};

mod circuit;
mod fault;
mod gates;
mod header;
pub mod laws;
mod lines;
mod names;
mod parts;
mod reading;
mod sections;
mod seen;
mod statement;
mod symbols;
mod variables;

use blif_read::Limits;
use circuit::circuit_of;
pub use fault::{AigerFault, AigerKind};
use lines::lines_of;
use reading::content_of;
use std::alloc::Global;
use tm_circuit::Circuit;

/// The circuit of an ASCII AIGER text, or the text's first fault. Takes time in proportion to the text, and no number in the
/// text makes room by itself.
pub fn read(alloc: Global, text: &[u8], limits: &Limits) -> Result<Circuit, AigerFault>
    requires short { length text.now < 2 ^ 32 }
    requires signals { limits.now.signals ≤ 900000 }
    requires name { limits.now.name ≤ 1023 }
    // What is answered is the circuit that the text has,
    ensures circuit { IfOk result (λ c. IsCircuitOf limits.now text.now c) }
    ensures sound { IfOk result IsSound }
    // and its outputs are the output literals of the text at every step of every input sequence.
    ensures trace { IfOk result (λ c. MeansText text.now c) }
    // The fault is the text's first, and then the text has no circuit.
    ensures fault { IfErr result (λ e. OnText e (IsFaultOf limits.now text.now)) }
    ensures none { IfErr result (λ e. OnText e (λ _. (c : Plain) → ¬ IsCircuitOf limits.now text.now c)) }
{
    let lines = lines_of(alloc, text)?;
    let content = content_of(alloc, &lines)?;
    circuit_of(
        alloc,
        &content.header,
        &content.counted,
        &content.names,
        limits,
    )
}
