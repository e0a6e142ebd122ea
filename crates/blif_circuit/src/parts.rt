// The parts of a model's circuit, with each use of a name by its signal.

ghost use Rattle.std.specs.Prelude.{◌≡◌, ◌≤◌, Some, true, map, flat_map, [], ◌∷◌, ◌++◌, length, slice_get, option_copied, bytes_eq, IfOk, OnOk};
ghost use Rattle.std.specs.List.{list_any};
ghost use Rattle.tm_circuit.specs.Build.{circuit_of};
ghost use Rattle.blif_unit.specs.Unit.{told_of, telling_of, model_of, latch_told, gate_told, inputs_told, outputs_told, uses_told, over};
ghost use Rattle.blif_circuit.specs.Circuit.{clock_name, clock_in, names_of, latches_read, gates_read, IsSpelled};
ghost use Rattle.blif_circuit.specs.Signals.{AreKnown, unclocked, latch_name, gate_name, latch_reading, gate_reading};

use crate::clock::{clock_edge, clock_place, is_clock, is_declared};
use crate::order::{inputs_in, outputs_in};
use blif_unit::{Names, Stated, Statement, Unit};
use smallvec::SmallVec;
use std::alloc::Global;
use tm_bits::NoMemory;
use tm_circuit::{Clock, GatePart, LatchPart, Name, Parts, Signal};

/// The signal with this name.
fn signal_named(signals: &Names, name: &Name) -> Signal
    requires few { length signals.now ≤ 900000 }
    requires known { list_any (bytes_eq name.now) signals.now ≡ true }
    ensures { slice_get signals.now result ≡ Some name.now }
{
    Signal(signals.position(name.bytes()).unwrap() as u32)
}

/// The signals with these names, as the pins of a gate.
fn pins_named(
    alloc: Global,
    signals: &Names,
    names: &[Name],
) -> Result<SmallVec<Signal, 8>, NoMemory>
    requires few { length signals.now ≤ 900000 }
    requires known { AreKnown signals.now names.now }
    ensures { IfOk result (λ pins. map (slice_get signals.now) pins.items ≡ map Some names.now) }
{
    let mut pins = SmallVec::new(alloc);
    for name in names {
        pins.push(signal_named(signals, name))?;
    }
    Ok(pins)
}

/// Puts the signals with these names last.
fn push_outputs(signals: &Names, names: &[Name], outputs: &mut Vec<Signal>) -> Result<(), NoMemory>
    requires few { length signals.now ≤ 900000 }
    requires known { AreKnown signals.now names.now }
    ensures { OnOk result (map (slice_get signals.now) outputs.new.items
        ≡ map (slice_get signals.now) outputs.old.items ++ map Some names.now) }
{
    for name in names {
        outputs.push(signal_named(signals, name))?;
    }
    Ok(())
}

/// Puts a copy of the name last, unless it is the clock's.
fn push_input(
    alloc: Global,
    clock: Option<&Name>,
    name: &Name,
    inputs: &mut Vec<Name>,
) -> Result<(), NoMemory>
    ensures { OnOk result (inputs.new.items ≡ inputs.old.items ++ unclocked (option_copied clock.entry) (name.now ∷ [])) }
{
    if !is_clock(clock, name.bytes()) {
        inputs.push(name.try_clone(alloc)?)?;
    }
    Ok(())
}

/// Puts copies of those names last that are not the clock's.
fn push_inputs(
    alloc: Global,
    clock: Option<&Name>,
    names: &[Name],
    inputs: &mut Vec<Name>,
) -> Result<(), NoMemory>
    ensures { OnOk result (inputs.new.items ≡ inputs.old.items ++ unclocked (option_copied clock.entry) names.now) }
{
    for name in names {
        push_input(alloc, clock, name, inputs)?;
    }
    Ok(())
}

/// The inputs of the circuit.
fn inputs_of(alloc: Global, body: &[Stated], clock: Option<&Name>) -> Result<Vec<Name>, NoMemory>
    ensures { IfOk result (λ inputs. inputs.items
        ≡ over (λ told. unclocked (option_copied clock.entry) (inputs_told told)) (map telling_of body.now)) }
{
    let mut inputs = Vec::new(alloc);
    for stated in body {
        push_inputs(alloc, clock, inputs_in(&stated.what), &mut inputs)?;
    }
    Ok(inputs)
}

/// Puts the latch that the statement is last.
fn push_latch(
    alloc: Global,
    signals: &Names,
    what: &Statement,
    latches: &mut Vec<LatchPart>,
) -> Result<(), NoMemory>
    requires few { length signals.now ≤ 900000 }
    requires known { AreKnown signals.now (uses_told (told_of what.now)) }
    ensures names { OnOk result (map latch_name latches.new.items ≡ map latch_name latches.old.items ++ latch_told (told_of what.now)) }
    ensures drives { OnOk result (map (latch_reading signals.now) latches.new.items
        ≡ map (latch_reading signals.now) latches.old.items ++ latches_read (told_of what.now)) }
{
    if let Statement::Latch {
        next,
        name,
        init,
        ..
    } = what
    {
        let next = signal_named(signals, next);
        let name = name.try_clone(alloc)?;
        latches.push(LatchPart {
            name,
            next,
            init: *init,
        })?;
    }
    Ok(())
}

/// Puts the gate that the statement is last.
fn push_gate(
    alloc: Global,
    signals: &Names,
    what: &Statement,
    gates: &mut Vec<GatePart>,
) -> Result<(), NoMemory>
    requires few { length signals.now ≤ 900000 }
    requires known { AreKnown signals.now (uses_told (told_of what.now)) }
    ensures names { OnOk result (map gate_name gates.new.items ≡ map gate_name gates.old.items ++ gate_told (told_of what.now)) }
    ensures drives { OnOk result (map (gate_reading signals.now) gates.new.items
        ≡ map (gate_reading signals.now) gates.old.items ++ gates_read (told_of what.now)) }
{
    if let Statement::Gate { pins, name, cover } = what {
        let pins = pins_named(alloc, signals, pins)?;
        let name = name.try_clone(alloc)?;
        let cover = cover.try_clone(alloc)?;
        gates.push(GatePart { name, pins, cover })?;
    }
    Ok(())
}

/// The latches of the circuit.
fn latches_of(alloc: Global, body: &[Stated], signals: &Names) -> Result<Vec<LatchPart>, NoMemory>
    requires few { length signals.now ≤ 900000 }
    requires known { AreKnown signals.now (over uses_told (map telling_of body.now)) }
    ensures names { IfOk result (λ parts. map latch_name parts.items ≡ over latch_told (map telling_of body.now)) }
    ensures drives { IfOk result (λ parts. map (latch_reading signals.now) parts.items
        ≡ flat_map (λ t. latches_read t.what) (map telling_of body.now)) }
{
    let mut latches = Vec::new(alloc);
    for stated in body {
        push_latch(alloc, signals, &stated.what, &mut latches)?;
    }
    Ok(latches)
}

/// The gates of the circuit.
fn gates_of(alloc: Global, body: &[Stated], signals: &Names) -> Result<Vec<GatePart>, NoMemory>
    requires few { length signals.now ≤ 900000 }
    requires known { AreKnown signals.now (over uses_told (map telling_of body.now)) }
    ensures names { IfOk result (λ parts. map gate_name parts.items ≡ over gate_told (map telling_of body.now)) }
    ensures drives { IfOk result (λ parts. map (gate_reading signals.now) parts.items
        ≡ flat_map (λ t. gates_read t.what) (map telling_of body.now)) }
{
    let mut gates = Vec::new(alloc);
    for stated in body {
        push_gate(alloc, signals, &stated.what, &mut gates)?;
    }
    Ok(gates)
}

/// The outputs of the circuit.
fn outputs_of(alloc: Global, body: &[Stated], signals: &Names) -> Result<Vec<Signal>, NoMemory>
    requires few { length signals.now ≤ 900000 }
    requires known { AreKnown signals.now (over outputs_told (map telling_of body.now)) }
    ensures { IfOk result (λ outputs. map (slice_get signals.now) outputs.items
        ≡ map Some (over outputs_told (map telling_of body.now))) }
{
    let mut outputs = Vec::new(alloc);
    for stated in body {
        push_outputs(signals, outputs_in(&stated.what), &mut outputs)?;
    }
    Ok(outputs)
}

/// The clock of the circuit, by its name.
fn clock_of(alloc: Global, body: &[Stated], name: Option<&Name>) -> Result<Option<Clock>, NoMemory>
    requires clock { option_copied name ≡ clock_name (map telling_of body.now) }
    requires few { length (over inputs_told (map telling_of body.now)) ≤ 900001 }
    ensures { IfOk result (λ clock. clock ≡ clock_in (map telling_of body.now)) }
{
    match name {
        None => Ok(None),
        Some(name) => Ok(Some(Clock {
            name: name.try_clone(alloc)?,
            edge: clock_edge(body),
            declared: is_declared(body, name.bytes()),
            place: clock_place(body, name.bytes()),
        })),
    }
}

/// The parts of the circuit that the statements spell.
pub fn parts_of(
    alloc: Global,
    unit: &Unit,
    clock: Option<&Name>,
    signals: &Names,
) -> Result<Parts, NoMemory>
    requires clock { option_copied clock ≡ clock_name (map telling_of unit.now.body.items) }
    requires names { signals.now ≡ names_of (map telling_of unit.now.body.items) }
    requires few { length signals.now ≤ 900000 }
    requires few_inputs { length (over inputs_told (map telling_of unit.now.body.items)) ≤ 900001 }
    requires known { AreKnown signals.now (over uses_told (map telling_of unit.now.body.items)) }
    requires known_outputs { AreKnown signals.now (over outputs_told (map telling_of unit.now.body.items)) }
    ensures { IfOk result (λ parts. IsSpelled (model_of unit.now) (circuit_of parts)) }
{
    let body = unit.body.as_slice();
    Ok(Parts {
        model: unit.name.try_clone(alloc)?,
        clock: clock_of(alloc, body, clock)?,
        inputs: inputs_of(alloc, body, clock)?,
        latches: latches_of(alloc, body, signals)?,
        gates: gates_of(alloc, body, signals)?,
        outputs: outputs_of(alloc, body, signals)?,
    })
}
