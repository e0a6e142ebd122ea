// The parts of a circuit as lists over its signals, before any test.

ghost use Rattle.std.specs.Prelude.{◌≡◌, ◌++◌, map, IfOk, OnOk};
ghost use Rattle.tm_circuit.specs.Plain.{drive_of, input, latch, gate};
ghost use Rattle.tm_circuit.specs.Build.{circuit_of};
ghost use Rattle.tm_circuit.specs.Draft.{plain_of_draft, IsLaidOut};

use crate::parts::{Clock, Driver, GatePart, LatchPart, Name, Parts, Signal};
use std::alloc::Global;
use tm_bits::NoMemory;

/// A circuit to be, with its signals numbered and nothing tested.
#[derive(Drop)]
pub struct Draft {
    pub model: Name,
    pub clock: Option<Clock>,
    pub names: Vec<Name>,
    pub drivers: Vec<Driver>,
    pub outputs: Vec<Signal>,
    /// The number of inputs.
    pub inputs: usize,
    /// The number of latches.
    pub latches: usize,
}

impl Draft {
    /// The parts in the order of their signals: the inputs, then the latches, then the gates.
    pub fn of(alloc: Global, parts: Parts) -> Result<Draft, NoMemory>
        ensures plain { IfOk result (λ draft. plain_of_draft draft ≡ circuit_of parts) }
        ensures laid_out { IfOk result IsLaidOut }
    {
        let Parts {
            model,
            clock,
            inputs: input_names,
            latches: latch_parts,
            gates,
            outputs,
        } = parts;
        let inputs = input_names.len();
        let latches = latch_parts.len();
        let mut names = Vec::new(alloc);
        let mut drivers = Vec::new(alloc);
        add_inputs(input_names, &mut names, &mut drivers)?;
        add_latches(latch_parts, &mut names, &mut drivers)?;
        add_gates(gates, &mut names, &mut drivers)?;
        Ok(Draft {
            model,
            clock,
            names,
            drivers,
            outputs,
            inputs,
            latches,
        })
    }
}

fn add_inputs(
    inputs: Vec<Name>,
    names: &mut Vec<Name>,
    drivers: &mut Vec<Driver>,
) -> Result<(), NoMemory>
    ensures names { OnOk result (names.new.items ≡ names.old.items ++ inputs.items) }
    ensures drives { OnOk result (map drive_of drivers.new.items ≡ map drive_of drivers.old.items ++ map (λ _. input) inputs.items) }
{
    for name in inputs {
        names.push(name)?;
        drivers.push(Driver::Input)?;
    }
    Ok(())
}

fn add_latches(
    latches: Vec<LatchPart>,
    names: &mut Vec<Name>,
    drivers: &mut Vec<Driver>,
) -> Result<(), NoMemory>
    ensures names { OnOk result (names.new.items ≡ names.old.items ++ map (λ l. l.name) latches.items) }
    ensures drives { OnOk result (map drive_of drivers.new.items ≡ map drive_of drivers.old.items
        ++ map (λ l. latch l.next l.init) latches.items) }
{
    for LatchPart { name, next, init } in latches {
        names.push(name)?;
        drivers.push(Driver::Latch { next, init })?;
    }
    Ok(())
}

fn add_gates(
    gates: Vec<GatePart>,
    names: &mut Vec<Name>,
    drivers: &mut Vec<Driver>,
) -> Result<(), NoMemory>
    ensures names { OnOk result (names.new.items ≡ names.old.items ++ map (λ g. g.name) gates.items) }
    ensures drives { OnOk result (map drive_of drivers.new.items ≡ map drive_of drivers.old.items
        ++ map (λ g. gate g.pins.items g.cover) gates.items) }
{
    for GatePart { name, pins, cover } in gates {
        names.push(name)?;
        drivers.push(Driver::Gate { pins, cover })?;
    }
    Ok(())
}
