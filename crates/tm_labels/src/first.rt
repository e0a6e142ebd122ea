// The labels that a settling begins with.

ghost use Rattle.std.specs.Prelude.{◌≡◌, IfOk};
ghost use Rattle.tm_circuit.specs.Plain.{drive_of};
ghost use Rattle.tm_replay.specs.Labels.{first_label, first_labels};

use std::alloc::Global;
use tm_bits::NoMemory;
use tm_circuit::{Circuit, Driver, Signal};
use tm_replay::Label;

/// The first labels of all signals.
pub fn first_labels(
    alloc: Global,
    circuit: &Circuit,
    d: u8,
    target: u32,
) -> Result<Vec<Option<Label>>, NoMemory>
    ensures { IfOk result (λ labels. labels.items ≡ first_labels circuit.now.drives d target) }
{
    let mut labels = Vec::with_capacity(alloc, circuit.signals() as usize)?;
    for s in 0..circuit.signals() {
        labels.push(first_label(circuit.driver(Signal(s)), d, target))?;
    }
    Ok(labels)
}

/// The first label of a signal: a gate has the greatest lag and arrival 1, where the target is not 0.
fn first_label(driver: &Driver, d: u8, target: u32) -> Option<Label>
    ensures { result ≡ first_label d target (drive_of driver.now) }
{
    match driver {
        Driver::Gate { .. } if target > 0 => Some(Label { lag: d, arrival: 1 }),
        Driver::Input | Driver::Latch { .. } | Driver::Gate { .. } => None,
    }
}
