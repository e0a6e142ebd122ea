// The parts of the subject circuit, signal by signal.

ghost use Rattle.std.specs.Prelude.{◌≡◌, ◌<◌, ◌≤◌, length, IfOk, OnOk};
ghost use Rattle.tm_circuit.specs.Plain.{drive_of};
ghost use Rattle.tm_circuit.specs.Sound.{ReadsBelow, FitsPins};
ghost use Rattle.tm_circuit.specs.Build.{circuit_of};
ghost use Rattle.tm_parts.specs.Parts.{KeepsFrame};
ghost use Rattle.tm_parts.specs.Runs.{joiner_of};
ghost use Rattle.tm_split.specs.Limits.{most_subject_signals};
ghost use Rattle.tm_split.specs.Names.{tilde};
ghost use Rattle.tm_split.specs.Counts.{AreNumbers};
ghost use Rattle.tm_split.specs.Subject.{extra as extra_of, subject_of};
ghost use Rattle.tm_split.specs.Making.{GainsPlace};

use crate::gates::{Plan, add_gate, moved, number};
use std::alloc::Global;
use tm_bits::NoMemory;
use tm_circuit::{Circuit, Driver, Name, Parts, Signal};
use tm_parts::{add_signal, frame};

/// Adds what stands in the place of a signal, whose new number is `own`.
fn add_place(
    alloc: Global,
    parts: &mut Parts,
    name: Name,
    driver: &Driver,
    own: Signal,
    plan: &Plan,
) -> Result<(), NoMemory>
    requires reads { ReadsBelow (length plan.now.numbers.items) (drive_of driver.now) }
    requires fits { FitsPins (drive_of driver.now) }
    requires own { extra_of plan.now.most (drive_of driver.now) ≤ own }
    requires few { own < most_subject_signals }
    ensures frame { KeepsFrame parts.old parts.new }
    ensures place { OnOk result (GainsPlace plan.now.most plan.now.numbers.items plan.now.joiner.items own
        parts.old parts.new name (drive_of driver.now)) }
{
    match driver {
        Driver::Input => add_signal(parts, name, Driver::Input),
        Driver::Latch { next, init } => {
            let next = number(*next, &plan.numbers);
            add_signal(parts, name, Driver::Latch { next, init: *init })
        }
        Driver::Gate { pins, cover } => {
            add_gate(
                alloc,
                &mut parts.gates,
                name,
                pins.as_slice(),
                cover,
                own,
                plan,
            )
        }
    }
}

/// The parts of the subject circuit.
pub fn split_parts(alloc: Global, circuit: &Circuit, plan: &Plan) -> Result<Parts, NoMemory>
    requires numbers { AreNumbers plan.now.most circuit.now.drives plan.now.numbers.items }
    requires joiner { plan.now.joiner.items ≡ joiner_of tilde circuit.now }
    requires few { length (subject_of plan.now.most circuit.now).drives ≤ most_subject_signals }
    ensures { IfOk result (λ parts. circuit_of parts ≡ subject_of plan.now.most circuit.now) }
{
    let count = circuit.signals();
    let outputs = moved(alloc, circuit.outputs(), &plan.numbers)?;
    let mut parts = frame(alloc, circuit, outputs)?;
    for s in 0..count {
        let name = circuit.name(Signal(s)).try_clone(alloc)?;
        let own = number(Signal(s), &plan.numbers);
        add_place(
            alloc,
            &mut parts,
            name,
            circuit.driver(Signal(s)),
            own,
            plan,
        )?;
    }
    Ok(parts)
}
