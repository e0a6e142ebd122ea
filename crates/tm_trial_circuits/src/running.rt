// A machine that runs a small circuit.

ghost use Rattle.std.specs.Prelude.{◌≡◌, length};
ghost use Rattle.tm_circuit.specs.Plain.{input_count};

use std::alloc::Global;
use tm_bits::NoMemory;
use tm_circuit::Circuit;
use tm_sim::Machine;
use tm_trial::{TrialFault, circuit};

/// The one output of a step on one input.
fn output_after(machine: &mut Machine<'_>, input: bool) -> bool
    requires inputs { input_count machine.old.circuit.drives ≡ 1 }
    requires outputs { length machine.old.circuit.outputs ≡ 1 }
    ensures { machine.new.circuit ≡ machine.old.circuit }
{
    let mut outputs = [false];
    machine.step(&[input], &mut outputs);
    outputs[0]
}

/// What the one output shows at five steps on the one input.
fn shown(alloc: Global, circuit: &Circuit) -> Result<[bool; 5], NoMemory> {
    if circuit.inputs() != 1 || circuit.outputs().len() != 1 {
        return Ok([true; 5]);
    }
    let mut machine = Machine::new(alloc, circuit)?;
    let first = output_after(&mut machine, true);
    let second = output_after(&mut machine, true);
    let third = output_after(&mut machine, false);
    let fourth = output_after(&mut machine, true);
    let fifth = output_after(&mut machine, false);
    Ok([first, second, third, fourth, fifth])
}

/// What a latch that is turned where the input is 1 shows.
fn toggled(alloc: Global) -> Result<[bool; 5], TrialFault> {
    let circuit = circuit(alloc, "en", "q 2;", "d 0 1 =10,01;", "1")?;
    Ok(shown(alloc, &circuit)?)
}

#[test]
fn a_toggle_runs(rt: HostRuntime) {
    assert!(rt; toggled(rt.alloc()) == Ok([false, true, false, false, true]));
}
