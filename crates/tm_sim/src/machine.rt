// A machine that runs a circuit step by step, by its gates in an order in which each stands after its pins.

ghost use Rattle.std.specs.Prelude.{◌≡◌, ◌+◌, ◌<◌, ◌≤◌, List, Bool, [], ◌∷◌, ◌++◌, length, map, take, All, IfOk};
ghost use Rattle.tm_circuit.specs.Plain.{drive_of, pins_of, input_count, latch_count, widest};
ghost use Rattle.tm_circuit.specs.Sound.{ReadsBelow, FitsPins, IsSound};
ghost use Rattle.tm_sim.specs.Machine.{StandsAfter, ShowsLast};
ghost use Rattle.tm_sim.specs.Settled.{bit_of, settled, Settles, first_bit, next_bit, first_bits, next_bits};

use std::alloc::Global;
use std::marker::Model;
use tm_bits::NoMemory;
use tm_circuit::{Circuit, Driver, Signal};

/// A circuit with the bits that its latches have before the next step.
#[derive(Drop)]
pub struct Machine<'a> {
    circuit: &'a Circuit,
    /// The bits of the latches.
    latches: Vec<bool>,
    /// The bits of all signals, written anew in each step.
    values: Vec<bool>,
    /// Where the bits of a gate's pins are put together.
    read: Vec<bool>,
}

impl<'a> Model for Machine<'a> {
    ghost use Rattle.tm_sim.specs.Machine.{State};
    ghost use Rattle.tm_sim.specs.Settled.{HasRoom};

    ghost Value = { State };

    ghost view = { λ m. record { circuit = m.circuit.now; latches = m.latches.items } };

    ghost invariant = { λ m. HasRoom m.circuit.now m.latches.items m.values.items m.read.items };
}

impl<'a> Machine<'a> {
    /// A machine before step 0: its latches have their initial values.
    pub fn new(alloc: Global, circuit: &'a Circuit) -> Result<Machine<'a>, NoMemory>
        ensures circuit { IfOk result (λ m. m.circuit ≡ circuit.now) }
        ensures first { IfOk result (λ m. m.latches ≡ first_bits circuit.now) }
        ensures stands { IfOk result (λ m. StandsAfter m []) }
    {
        let values = vec![in alloc; false; circuit.signals() as usize]?;
        let latches = starting_bits(alloc, circuit)?;
        let read = vec![in alloc; false; circuit.widest() as usize]?;
        Ok(Machine {
            circuit,
            latches,
            values,
            read,
        })
    }

    /// Makes one step on these bits of the inputs, and writes the bits of the outputs. After whatever rows the machine stands,
    /// the outputs are those of the circuit's trace for these rows and this one, and the machine then stands after all of them.
    /// Takes no memory.
    pub fn step(&mut self, inputs: &[bool], outputs: &mut [bool])
        requires inputs { length inputs.now ≡ input_count self.old.circuit.drives }
        requires outputs { length outputs.old ≡ length self.old.circuit.outputs }
        ensures circuit { self.new.circuit ≡ self.old.circuit }
        ensures outputs { (rows : List (List Bool)) → StandsAfter self.old rows
            → ShowsLast self.old.circuit rows inputs.now outputs.new }
        ensures stands { (rows : List (List Bool)) → StandsAfter self.old rows
            → StandsAfter self.new (rows ++ inputs.now ∷ []) }
    {
        load(&mut self.values, inputs, &self.latches);
        settle(self.circuit, &mut self.values, &mut self.read);
        gather(self.circuit.outputs(), &self.values, outputs);
        advance(self.circuit, &self.values, &mut self.latches);
    }
}

/// The bit that a signal starts with.
fn first_bit(driver: &Driver) -> bool
    ensures { result ≡ first_bit (drive_of driver.now) }
{
    match driver {
        Driver::Latch { init, .. } => *init,
        Driver::Input | Driver::Gate { .. } => false,
    }
}

/// The initial values of the latches, in order.
fn starting_bits(alloc: Global, circuit: &Circuit) -> Result<Vec<bool>, NoMemory>
    requires { IsSound circuit.now }
    ensures { IfOk result (λ bits. bits.items ≡ first_bits circuit.now) }
{
    let first = circuit.inputs();
    let mut bits = Vec::new(alloc);
    for place in 0..circuit.latches() {
        bits.push(first_bit(circuit.driver(Signal(first + place))))?;
    }
    Ok(bits)
}

/// Puts the bits of the inputs and of the latches in front, where these signals stand.
fn load(values: &mut [bool], inputs: &[bool], latches: &[bool])
    requires { length inputs.now + length latches.now ≤ length values.old }
    ensures { take (length inputs.now + length latches.now) values.new ≡ inputs.now ++ latches.now }
{
    let middle = inputs.len();
    values[..middle].copy_from_slice(inputs);
    values[middle..middle + latches.len()].copy_from_slice(latches);
}

/// Writes the bits of some signals, in their order.
fn gather(signals: &[Signal], values: &[bool], bits: &mut [bool])
    requires inside { All (λ s. s < length values.now) signals.now }
    requires room { length bits.old ≡ length signals.now }
    ensures { bits.new ≡ map (bit_of values.now) signals.now }
{
    for (place, signal) in signals.iter().enumerate() {
        bits[place] = values[signal.0 as usize];
    }
}

/// The bit of a signal that had a bit before: the value of the cover at a gate, and else the same.
fn settled(driver: &Driver, before: bool, values: &[bool], read: &mut [bool]) -> bool
    requires reads { ReadsBelow (length values.now) (drive_of driver.now) }
    requires fits { FitsPins (drive_of driver.now) }
    requires room { length (pins_of (drive_of driver.now)) ≤ length read.old }
    ensures { result ≡ settled (drive_of driver.now) before (bit_of values.now) }
{
    match driver {
        Driver::Gate { pins, cover } => {
            let pins = pins.as_slice();
            let read = &mut read[..pins.len()];
            gather(pins, values, read);
            cover.holds(read)
        }
        Driver::Input | Driver::Latch { .. } => before,
    }
}

/// Gives each gate its value, where the inputs and the latches have their bits.
fn settle(circuit: &Circuit, values: &mut [bool], read: &mut [bool])
    requires sound { IsSound circuit.now }
    requires values { length values.old ≡ length circuit.now.drives }
    requires room { widest circuit.now.drives ≤ length read.old }
    ensures { Settles circuit.now values.old values.new }
{
    for gate in circuit.order() {
        let place = gate.0 as usize;
        let value = settled(circuit.driver(*gate), values[place], values, read);
        values[place] = value;
    }
}

/// The bit that a latch has after a step in which the signals have these bits.
fn next_bit(driver: &Driver, values: &[bool]) -> bool
    requires { ReadsBelow (length values.now) (drive_of driver.now) }
    ensures { result ≡ next_bit (drive_of driver.now) (bit_of values.now) }
{
    match driver {
        Driver::Latch { next, .. } => values[next.0 as usize],
        Driver::Input | Driver::Gate { .. } => false,
    }
}

/// Gives each latch the bit of its next.
fn advance(circuit: &Circuit, values: &[bool], latches: &mut [bool])
    requires sound { IsSound circuit.now }
    requires values { length values.now ≡ length circuit.now.drives }
    requires latches { length latches.old ≡ latch_count circuit.now.drives }
    ensures { latches.new ≡ next_bits circuit.now (bit_of values.now) }
{
    let first = circuit.inputs();
    for (place, latch) in latches.iter_mut().enumerate() {
        *latch = next_bit(circuit.driver(Signal(first + place as u32)), values);
    }
}
