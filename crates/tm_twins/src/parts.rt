// The parts of the joined circuit, signal by signal.

ghost use Rattle.std.specs.Prelude.{◌≡◌, ◌<◌, length, map, All, IfOk};
ghost use Rattle.tm_circuit.specs.Plain.{drive_of};
ghost use Rattle.tm_circuit.specs.Sound.{ReadsBelow};
ghost use Rattle.tm_circuit.specs.Build.{circuit_of};
ghost use Rattle.tm_parts.specs.Parts.{IsRefusedForMemory};
ghost use Rattle.tm_twins.specs.Twins.{AreTwins, twin_in};
ghost use Rattle.tm_twins.specs.Joined.{joined_drive, IsJoined};

use smallvec::SmallVec;
use std::alloc::Global;
use tm_bits::NoMemory;
use tm_circuit::{Circuit, Driver, Parts, Signal};
use tm_parts::{add_signal, frame};

/// The parts of the circuit with the twin of each pin and each next in its place.
pub fn joined_parts(alloc: Global, circuit: &Circuit, twins: &[Signal]) -> Result<Parts, NoMemory>
    requires sized { length twins.now ≡ length circuit.now.drives }
    requires twins { AreTwins circuit.now.drives (twin_in twins.now) }
    ensures joined { IfOk result (λ parts. IsJoined circuit.now (circuit_of parts)) }
    ensures lawful { IfOk result (λ parts. IsRefusedForMemory (circuit_of parts)) }
{
    let outputs = Vec::from_slice(alloc, circuit.outputs())?;
    let mut parts = frame(alloc, circuit, outputs)?;
    for s in 0..circuit.signals() {
        let name = circuit.name(Signal(s)).try_clone(alloc)?;
        let driver = joined_driver(alloc, twins, circuit.driver(Signal(s)))?;
        add_signal(&mut parts, name, driver)?;
    }
    Ok(parts)
}

/// A driver with the twin of each signal that it reads in its place.
fn joined_driver(alloc: Global, twins: &[Signal], driver: &Driver) -> Result<Driver, NoMemory>
    requires { ReadsBelow (length twins.now) (drive_of driver.now) }
    ensures { IfOk result (λ joined. drive_of joined ≡ joined_drive (twin_in twins.now) (drive_of driver.now)) }
{
    match driver {
        Driver::Input => Ok(Driver::Input),
        Driver::Latch { next, init } => Ok(Driver::Latch {
            next: twins[next.0 as usize],
            init: *init,
        }),
        Driver::Gate { pins, cover } => Ok(Driver::Gate {
            pins: twins_of_pins(alloc, twins, pins.as_slice())?,
            cover: cover.try_clone(alloc)?,
        }),
    }
}

/// The twins of some pins, in order.
fn twins_of_pins(
    alloc: Global,
    twins: &[Signal],
    pins: &[Signal],
) -> Result<SmallVec<Signal, 8>, NoMemory>
    requires { All (λ p. p < length twins.now) pins.now }
    ensures { IfOk result (λ joined. joined.items ≡ map (twin_in twins.now) pins.now) }
{
    let mut joined = SmallVec::new(alloc);
    for pin in pins {
        joined.push(twins[pin.0 as usize])?;
    }
    Ok(joined)
}
