// The first steps of two small circuits, worked out by hand.

ghost use Rattle.std.specs.Prelude.{◌≤◌};
ghost use Rattle.tm_init.specs.Limits.{most_steps};

use std::alloc::Global;
use tm_bits::NoMemory;
use tm_circuit::{Circuit, Signal};
use tm_init::first_steps;
use tm_trial::{TrialFault, circuit};

/// A circuit, and the bits of its signals at the first steps, each signal's with the first step first and a blank behind the last.
struct Row<'a> {
    inputs: &'a str,
    latches: &'a str,
    gates: &'a str,
    steps: u8,
    bits: &'a str,
}

const ROWS: &[Row<'static>] = &[
    // A counter of two bits.
    Row {
        inputs: "",
        latches: "q 2;r 3;",
        gates: "n 0 =0;m 0 1 =10,01;",
        steps: 3,
        bits: "010 001 101 011 ",
    },
    // A latch that starts at 1, with an input and a second latch before it.
    Row {
        inputs: "a",
        latches: "p 3 1;r 1;",
        gates: "g 0 2 =1-,-0;h 1 2 =11;",
        steps: 8,
        bits: "00000000 11001100 01100110 10011001 01000100 ",
    },
    Row {
        inputs: "a",
        latches: "",
        gates: "",
        steps: 0,
        bits: " ",
    },
];

/// The bits of a circuit's signals as in a row.
fn bits(alloc: Global, circuit: &Circuit, steps: u8) -> Result<String, NoMemory>
    requires { steps ≤ most_steps }
{
    let starts = first_steps(alloc, circuit, steps)?;
    let mut text = String::new(alloc);
    for s in 0..circuit.signals() {
        for step in 0..steps {
            let is_one = starts.value(Signal(s), step);
            text.push(if is_one { '1' } else { '0' })?;
        }
        text.push(' ')?;
    }
    Ok(text)
}

/// Whether a row is as written.
fn holds(alloc: Global, row: &Row<'_>) -> Result<bool, TrialFault> {
    let circuit = circuit(alloc, row.inputs, row.latches, row.gates, "0")?;
    Ok(bits(alloc, &circuit, row.steps.min(8))?.as_str() == row.bits)
}

#[test]
fn first_steps_are_as_worked_out(rt: HostRuntime) {
    for row in ROWS {
        assert!(rt; holds(rt.alloc(), row) == Ok(true), "{}", row.gates);
    }
}
