// How far chains go on behind each signal, by one pass over the gates, each before the gates among its pins.

ghost use Rattle.std.specs.Prelude.{◌≡◌, ◌<◌, ◌≤◌, length, All, IfOk};
ghost use Rattle.tm_circuit.specs.Plain.{drive_of, pins_of};
ghost use Rattle.tm_report.specs.Onward.{IsBetter, OffersAll, IsOnward};

use std::alloc::Global;
use tm_bits::NoMemory;
use tm_circuit::{Circuit, Driver, Signal};

/// How the first of the longest chains goes on behind a signal.
#[derive(Clone, Copy, Debug)]
pub struct Onward {
    /// The number of gates behind the signal.
    pub gates: u32,
    /// The gate next to the signal, which reads it; any signal where there are no gates.
    pub next: Signal,
}

/// How chains go on behind each signal of a circuit.
pub fn onward_of(alloc: Global, circuit: &Circuit) -> Result<Vec<Onward>, NoMemory>
    ensures { IfOk result (λ onward. IsOnward circuit.now onward.items) }
{
    let nothing = Onward {
        gates: 0,
        next: Signal(0),
    };
    let mut onward = vec![in alloc; nothing; circuit.signals() as usize]?;
    let order = circuit.order();
    for place in (0..order.len()).rev() {
        let gate = order[place];
        let step = Onward {
            gates: onward[gate.0 as usize].gates + 1,
            next: gate,
        };
        offer_all(&mut onward, pins(circuit.driver(gate)), &step);
    }
    Ok(onward)
}

/// Offers some signals a way on.
fn offer_all(onward: &mut [Onward], signals: &[Signal], step: &Onward)
    requires { All (λ s. s < length onward.old) signals.now }
    ensures { OffersAll onward.old onward.new signals.now step.now }
{
    for signal in signals {
        let held = onward[signal.0 as usize];
        onward[signal.0 as usize] = better(&held, step);
    }
}

/// The longer of two ways on, and of two that are equally long the one with the lesser next gate.
fn better(held: &Onward, offered: &Onward) -> Onward
    ensures { IsBetter held.now offered.now result }
{
    if held.gates < offered.gates {
        return *offered;
    }
    if held.gates == offered.gates && offered.next.0 < held.next.0 {
        return *offered;
    }
    *held
}

/// The signals that a gate reads in the same step; an input and a latch read none.
fn pins(driver: &Driver) -> &[Signal]
    ensures { result.now ≡ pins_of (drive_of driver.now) }
{
    match driver {
        Driver::Gate { pins, .. } => pins.as_slice(),
        Driver::Input | Driver::Latch { .. } => &[],
    }
}
