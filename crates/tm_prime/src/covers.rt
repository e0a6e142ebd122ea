// A circuit with prime covers, from its parts.

ghost use Rattle.std.specs.Prelude.{◌≤◌, length, IfOk};
ghost use Rattle.tm_bits.specs.Limits.{most_inputs};
ghost use Rattle.tm_circuit.specs.Plain.{drive_of, pins_of, widest};
ghost use Rattle.tm_circuit.specs.Sound.{FitsPins, IsSound};
ghost use Rattle.tm_circuit.specs.Same.{IsSame};
ghost use Rattle.tm_circuit.specs.Build.{circuit_of};
ghost use Rattle.tm_parts.specs.Parts.{IsRefusedForMemory};
ghost use Rattle.tm_twins.specs.Joined.{IsAsLarge};
ghost use Rattle.tm_prime.specs.Covers.{IsPrimeDrive, HasPrimeCovers, HasSamePeriod};

use prime_cover::prime;
use smallvec::SmallVec;
use std::alloc::Global;
use tm_bits::NoMemory;
use tm_circuit::{Circuit, CircuitFault, Driver, Parts, Signal, laws};
use tm_parts::{add_signal, frame};

/// The circuit with a prime cover of its table in the place of each gate's cover; all else is the same. Takes time in proportion to
/// the circuit, but for the prime covers of its gates.
pub fn with_prime_covers(alloc: Global, circuit: &Circuit) -> Result<Circuit, NoMemory>
    requires { widest circuit.now.drives ≤ most_inputs }
    ensures primed { IfOk result (λ primed. HasPrimeCovers circuit.now primed) }
    ensures sound { IfOk result (λ primed. IsSound primed) }
    ensures same { IfOk result (λ primed. IsSame circuit.now primed) }
    ensures period { IfOk result (λ primed. HasSamePeriod circuit.now primed) }
    ensures large { IfOk result (λ primed. IsAsLarge circuit.now primed) }
{
    laws::gates_of_equal_values();
    let parts = primed_parts(alloc, circuit)?;
    match Circuit::build(alloc, parts) {
        Ok(primed) => Ok(primed),
        Err(fault) => match fault {
            CircuitFault::NoMemory => Err(NoMemory),
            _ => unreachable!(),
        },
    }
}

/// The parts of the circuit, signal by signal, with prime covers.
fn primed_parts(alloc: Global, circuit: &Circuit) -> Result<Parts, NoMemory>
    requires { widest circuit.now.drives ≤ most_inputs }
    ensures primed { IfOk result (λ parts. HasPrimeCovers circuit.now (circuit_of parts)) }
    ensures lawful { IfOk result (λ parts. IsRefusedForMemory (circuit_of parts)) }
{
    let outputs = Vec::from_slice(alloc, circuit.outputs())?;
    let mut parts = frame(alloc, circuit, outputs)?;
    for s in 0..circuit.signals() {
        let name = circuit.name(Signal(s)).try_clone(alloc)?;
        let driver = primed_driver(alloc, circuit.driver(Signal(s)))?;
        add_signal(&mut parts, name, driver)?;
    }
    Ok(parts)
}

/// A driver with a prime cover of its table in the place of its cover.
fn primed_driver(alloc: Global, driver: &Driver) -> Result<Driver, NoMemory>
    requires few { length (pins_of (drive_of driver.now)) ≤ most_inputs }
    requires fits { FitsPins (drive_of driver.now) }
    ensures { IfOk result (λ primed. IsPrimeDrive (drive_of driver.now) (drive_of primed)) }
{
    match driver {
        Driver::Input => Ok(Driver::Input),
        Driver::Latch { next, init } => Ok(Driver::Latch {
            next: *next,
            init: *init,
        }),
        Driver::Gate { pins, cover } => {
            let pins = pins.as_slice();
            let table = cover.table(pins.len() as u8);
            Ok(Driver::Gate {
                pins: SmallVec::from_slice(alloc, pins)?,
                cover: prime(alloc, &table)?,
            })
        }
    }
}
