// The reader of texts of both kinds.

ghost use Rattle.std.specs.Prelude.{◌≡◌, ◌^◌, ◌<◌, ◌≤◌, length, IfOk, IfErr};
ghost use Rattle.tm_circuit.specs.Plain.{Plain};
ghost use Rattle.tm_circuit.specs.Sound.{IsSound};
ghost use Rattle.aiger_read.specs.Text as aiger;
ghost use Rattle.aiger_read.specs.Trace as bits;
ghost use Rattle.blif_hier.specs.Nested as nested;
ghost use Rattle.blif_hier.specs.Text as blif;
ghost use Rattle.text_read.specs.Texts.{is_aiger as begins_aiger, too_many as too_many_in, IsCircuitOf, ShowsMeaning, IsBlifFault, IsAigerFault, IsFaultOf, OnText};

use crate::fault::{TextFault, TextKind};
use aiger_read::{AigerFault, AigerKind};
use blif_read::{BlifFault, BlifKind, Limits};
use std::alloc::Global;
use tm_circuit::Circuit;

/// Whether a text is ASCII AIGER.
pub fn is_aiger(text: &[u8]) -> bool
    ensures { result ≡ begins_aiger text.now }
{
    text.starts_with(b"aag ")
}

/// The kind of fault of a text of which a circuit with too many signals would be made.
pub fn too_many(text: &[u8]) -> TextKind
    ensures { result ≡ too_many_in text.now }
{
    if is_aiger(text) {
        TextKind::Aiger(AigerKind::TooManySignals)
    } else {
        TextKind::Blif(BlifKind::TooManySignals)
    }
}

/// The circuit of a text, or the text's first fault.
pub fn read(alloc: Global, text: &[u8], limits: &Limits) -> Result<Circuit, TextFault>
    requires short { length text.now < 2 ^ 32 }
    requires signals { limits.now.signals ≤ 900000 }
    requires name { limits.now.name ≤ 1023 }
    // What is answered is the circuit that the text has, and it shows what the text means.
    ensures circuit { IfOk result (λ c. IsCircuitOf limits.now text.now c) }
    ensures meaning { IfOk result (λ c. ShowsMeaning limits.now text.now c) }
    ensures sound { IfOk result (λ c. IsSound c) }
    // The fault is the text's first, and then the text has no circuit.
    ensures fault { IfErr result (λ e. OnText e (IsFaultOf limits.now text.now)) }
    ensures none { IfErr result (λ e. OnText e (λ _. (c : Plain) → ¬ IsCircuitOf limits.now text.now c)) }
{
    if is_aiger(text) {
        read_aiger(alloc, text, limits)
    } else {
        read_blif(alloc, text, limits)
    }
}

/// The circuit of an AIGER text.
fn read_aiger(alloc: Global, text: &[u8], limits: &Limits) -> Result<Circuit, TextFault>
    requires short { length text.now < 2 ^ 32 }
    requires signals { limits.now.signals ≤ 900000 }
    requires name { limits.now.name ≤ 1023 }
    ensures circuit { IfOk result (λ c. aiger.IsCircuitOf limits.now text.now c) }
    ensures meaning { IfOk result (λ c. bits.MeansText text.now c) }
    ensures sound { IfOk result (λ c. IsSound c) }
    ensures fault { IfErr result (λ e. OnText e (IsAigerFault limits.now text.now)) }
    ensures none { IfErr result (λ e. OnText e (λ _. (c : Plain) → ¬ aiger.IsCircuitOf limits.now text.now c)) }
{
    match aiger_read::read(alloc, text, limits) {
        Ok(circuit) => Ok(circuit),
        Err(AigerFault::Text { line, kind }) => Err(TextFault::Text {
            line,
            kind: TextKind::Aiger(kind),
        }),
        Err(AigerFault::NoMemory) => Err(TextFault::NoMemory),
    }
}

/// The circuit of a BLIF text, of one or several models.
fn read_blif(alloc: Global, text: &[u8], limits: &Limits) -> Result<Circuit, TextFault>
    requires short { length text.now < 2 ^ 32 }
    requires signals { limits.now.signals ≤ 900000 }
    requires name { limits.now.name ≤ 1023 }
    ensures circuit { IfOk result (λ c. blif.IsCircuitOf limits.now text.now c) }
    ensures meaning { IfOk result (λ c. nested.MeansText limits.now text.now c) }
    ensures sound { IfOk result (λ c. IsSound c) }
    ensures fault { IfErr result (λ e. OnText e (IsBlifFault limits.now text.now)) }
    ensures none { IfErr result (λ e. OnText e (λ _. (c : Plain) → ¬ blif.IsCircuitOf limits.now text.now c)) }
{
    match blif_hier::read(alloc, text, limits) {
        Ok(circuit) => Ok(circuit),
        Err(BlifFault::Text { line, kind }) => Err(TextFault::Text {
            line,
            kind: TextKind::Blif(kind),
        }),
        Err(BlifFault::NoMemory) => Err(TextFault::NoMemory),
    }
}
