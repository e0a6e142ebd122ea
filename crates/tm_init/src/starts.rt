// The first steps of a circuit whose inputs are 0, by one pass over its signals for each step.

ghost use Rattle.std.specs.Prelude.{◌≡◌, ℕ, ◌+◌, ◌<◌, ◌≤◌, Bool, List, length, map, false, All, IfOk};
ghost use Rattle.tm_circuit.specs.Plain.{Plain, drive_of, pins_of};
ghost use Rattle.tm_circuit.specs.Sound.{ReadsBelow, FitsPins};
ghost use Rattle.tm_circuit.specs.Trace.{driven, ObeysAlways};
ghost use Rattle.tm_init.specs.Limits.{most_steps};
ghost use Rattle.tm_init.specs.Paths.{zeros};
ghost use Rattle.tm_init.specs.Starts.{bit_in, HasFirst, AreFirstSteps, ServesAllInputs};
ghost use Rattle.tm_init.specs.Passes.{HasRoom, Takes, IsHeld};

use crate::bits::{bit, with_bit};
use std::alloc::Global;
use std::marker::Model;
use tm_bits::NoMemory;
use tm_circuit::{Circuit, Driver, Signal};

/// The bits of all signals of a circuit at its first steps, in the trace whose inputs are all 0.
#[derive(Drop)]
pub struct Starts {
    steps: u8,
    /// A byte for each signal, whose bit at place 0 is the signal's bit at step 0.
    bytes: Vec<u8>,
}

impl Model for Starts {
    ghost use Rattle.std.specs.Prelude.{◌≤◌};
    ghost use Rattle.tm_init.specs.Limits.{most_steps};
    ghost use Rattle.tm_init.specs.Starts.{Bits};

    ghost Value = { Bits };

    ghost view = { λ s. record { steps = s.steps; bytes = s.bytes.items } };

    ghost invariant = { λ s. s.steps ≤ most_steps };
}

impl Starts {
    /// The bit of a gate, or of another signal, at one of the first steps. In the first steps of a circuit it is the bit of the
    /// one table that obeys the circuit's drives for ever with inputs 0. Takes no memory.
    pub fn value(&self, gate: Signal, step: u8) -> bool
        requires gate { gate < length self.now.bytes }
        requires step { step < self.now.steps }
        ensures bit { result ≡ bit_in self.now.bytes gate step }
        ensures first { (c : Plain) (d : ℕ) (t : ℕ → ℕ → Bool) → AreFirstSteps c d self.now → ObeysAlways c zeros t
            → result ≡ t gate step }
    {
        bit(self.bytes[gate.0 as usize], step)
    }
}

/// The first `d` steps of a circuit, `d` at most 8, where all inputs are 0. Takes one byte a signal, and time in proportion to
/// the circuit for each step.
pub fn first_steps(alloc: Global, circuit: &Circuit, d: u8) -> Result<Starts, NoMemory>
    requires { d ≤ most_steps }
    ensures first { IfOk result (AreFirstSteps circuit.now d) }
    ensures all_inputs { IfOk result (ServesAllInputs circuit.now d) }
{
    let mut bytes = vec![in alloc; 0; circuit.signals() as usize]?;
    let mut read = vec![in alloc; false; circuit.widest() as usize]?;
    for step in 0..d {
        hold(circuit, step, &mut bytes, &mut read);
        settle(circuit, step, &mut bytes, &mut read);
    }
    Ok(Starts { steps: d, bytes })
}

/// Gives the inputs and the latches their bits at a step.
fn hold(circuit: &Circuit, step: u8, bytes: &mut [u8], read: &mut [bool])
    requires room { HasRoom circuit.now step (length bytes.old) (length read.old) }
    requires before { HasFirst circuit.now step bytes.old }
    ensures before { HasFirst circuit.now step bytes.new }
    ensures held { IsHeld circuit.now step bytes.new }
{
    for signal in 0..circuit.inputs() + circuit.latches() {
        drive(circuit, Signal(signal), step, bytes, read);
    }
}

/// Gives each gate its value at a step, where the inputs and the latches have their bits.
fn settle(circuit: &Circuit, step: u8, bytes: &mut [u8], read: &mut [bool])
    requires room { HasRoom circuit.now step (length bytes.old) (length read.old) }
    requires before { HasFirst circuit.now step bytes.old }
    requires held { IsHeld circuit.now step bytes.old }
    ensures { HasFirst circuit.now (step + 1) bytes.new }
{
    for gate in circuit.order() {
        drive(circuit, *gate, step, bytes, read);
    }
}

/// Gives a signal the bit that its driver asks for at a step.
fn drive(circuit: &Circuit, signal: Signal, step: u8, bytes: &mut [u8], read: &mut [bool])
    requires room { HasRoom circuit.now step (length bytes.old) (length read.old) }
    requires signal { signal < length circuit.now.drives }
    ensures { Takes circuit.now signal step bytes.old bytes.new }
{
    let place = signal.0 as usize;
    let value = driven(circuit.driver(signal), step, bytes, read);
    bytes[place] = with_bit(bytes[place], step, value);
}

/// The bit that a driver asks for at a step: an input is 0; a latch has its initial value at step 0, and afterwards the bit that
/// its next had one step earlier; a gate has the value of its cover on its pins.
fn driven(driver: &Driver, step: u8, bytes: &[u8], read: &mut [bool]) -> bool
    requires near { step < most_steps }
    requires reads { ReadsBelow (length bytes.now) (drive_of driver.now) }
    requires fits { FitsPins (drive_of driver.now) }
    requires room { length (pins_of (drive_of driver.now)) ≤ length read.old }
    ensures { result ≡ driven (drive_of driver.now) false (bit_in bytes.now) step }
{
    match driver {
        Driver::Input => false,
        Driver::Latch { init, .. } if step == 0 => *init,
        Driver::Latch { next, .. } => bit(bytes[next.0 as usize], step - 1),
        Driver::Gate { pins, cover } => {
            let pins = pins.as_slice();
            let read = &mut read[..pins.len()];
            gather(pins, step, bytes, read);
            cover.holds(read)
        }
    }
}

/// Writes the bits of some signals at a step, in their order.
fn gather(signals: &[Signal], step: u8, bytes: &[u8], bits: &mut [bool])
    requires near { step < most_steps }
    requires inside { All (λ s. s < length bytes.now) signals.now }
    requires room { length bits.old ≡ length signals.now }
    ensures { bits.new ≡ map (λ s. bit_in bytes.now s step) signals.now }
{
    for (place, signal) in signals.iter().enumerate() {
        bits[place] = bit(bytes[signal.0 as usize], step);
    }
}
