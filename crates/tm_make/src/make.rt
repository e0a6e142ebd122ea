// The sample text of a number.

ghost use Rattle.std.specs.Prelude.{◌≡◌, ◌≤◌, length, IfOk};
ghost use Rattle.tm_circuit.specs.Build.{circuit_of};
ghost use Rattle.tm_make.specs.Sample.{sample_text};
ghost use Rattle.tm_make.specs.SampleCircuit.{sample_circuit, HasNarrowCircuit};

use crate::parts::{gates, inputs, latches, outputs};
use blif_write::text;
use std::alloc::Global;
use tm_bits::NoMemory;
use tm_circuit::{Circuit, CircuitFault, Name, Parts};

/// The parts of the sample circuit of a number.
fn sample_parts(alloc: Global, number: u32) -> Result<Parts, NoMemory>
    requires some { 8 ≤ number }
    requires few { number ≤ 20000 }
    ensures { IfOk result (λ parts. circuit_of parts ≡ sample_circuit number) }
{
    let model = Name::new(Vec::from_slice(alloc, b"sample")?);
    let inputs = inputs(alloc)?;
    let latches = latches(alloc, number)?;
    let gates = gates(alloc, number)?;
    let outputs = outputs(alloc, number)?;
    Ok(Parts {
        model,
        clock: None,
        inputs,
        latches,
        gates,
        outputs,
    })
}

/// The sample circuit of a number.
fn circuit(alloc: Global, number: u32) -> Result<Circuit, NoMemory>
    requires some { 8 ≤ number }
    requires few { number ≤ 20000 }
    ensures { IfOk result (λ circuit. circuit ≡ sample_circuit number) }
{
    let parts = sample_parts(alloc, number)?;
    match Circuit::build(alloc, parts) {
        Ok(circuit) => Ok(circuit),
        Err(fault) => match fault {
            CircuitFault::NoMemory => Err(NoMemory),
            _ => unreachable!(),
        },
    }
}

/// The sample text of a number: that of a circuit with 8 inputs, so many gates and a quarter as many latches.
pub fn sample(alloc: Global, number: u32) -> Result<Vec<u8>, NoMemory>
    requires some { 8 ≤ number }
    requires few { number ≤ 20000 }
    // The one text of the number,
    ensures text { IfOk result (λ text. text.items ≡ sample_text number) }
    // which is that of a circuit of narrow gates, within the limits on a text that is mapped,
    ensures circuit { IfOk result (λ text. HasNarrowCircuit text.items (sample_circuit number)) }
    // and has at most 16 MiB.
    ensures short { IfOk result (λ text. length text.items ≤ 16777216) }
{
    let circuit = circuit(alloc, number)?;
    text(alloc, &circuit)
}
