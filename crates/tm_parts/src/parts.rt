// Parts that begin as a frame and grow by one signal at a time.

ghost use Rattle.std.specs.Prelude.{◌≡◌, IfOk, OnOk, option_copied};
ghost use Rattle.tm_circuit.specs.Plain.{drive_of};
ghost use Rattle.tm_parts.specs.Parts.{HasFrame, HasNoSignals, KeepsFrame, Gains};

use std::alloc::Global;
use tm_bits::NoMemory;
use tm_circuit::{Circuit, Clock, Driver, GatePart, LatchPart, Name, Parts, Signal};

/// The same clock again, where there is one.
fn copied_clock(alloc: Global, clock: Option<&Clock>) -> Result<Option<Clock>, NoMemory>
    ensures { IfOk result (λ copy. copy ≡ option_copied clock.entry) }
{
    match clock {
        Some(clock) => Ok(Some(clock.try_clone(alloc)?)),
        None => Ok(None),
    }
}

/// The parts of a circuit with the model and the clock of another and these outputs, without signals yet.
pub fn frame(alloc: Global, circuit: &Circuit, outputs: Vec<Signal>) -> Result<Parts, NoMemory>
    ensures frame { IfOk result (λ parts. HasFrame circuit.now outputs.items parts) }
    ensures empty { IfOk result HasNoSignals }
{
    Ok(Parts {
        model: circuit.model().try_clone(alloc)?,
        clock: copied_clock(alloc, circuit.clock())?,
        inputs: Vec::new(alloc),
        latches: Vec::new(alloc),
        gates: Vec::new(alloc),
        outputs,
    })
}

/// Adds a signal at the end of its kind.
pub fn add_signal(parts: &mut Parts, name: Name, driver: Driver) -> Result<(), NoMemory>
    ensures frame { KeepsFrame parts.old parts.new }
    ensures signal { OnOk result (Gains parts.old parts.new name (drive_of driver)) }
{
    match driver {
        Driver::Input => parts.inputs.push(name)?,
        Driver::Latch { next, init } => parts.latches.push(LatchPart { name, next, init })?,
        Driver::Gate { pins, cover } => parts.gates.push(GatePart { name, pins, cover })?,
    }
    Ok(())
}
