// The order in which gates that wait are looked for. Nothing rests on it: whoever follows it looks whether a gate waits at all.

ghost use Rattle.std.specs.Prelude.{◌≡◌, ◌≢◌, ℕ, ◌<◌, true, length, All, Contains, IfOk, IfSome, OnOk};
ghost use Rattle.tm_circuit.specs.Plain.{Plain};
ghost use Rattle.tm_labels.specs.Marks.{is_marked};
ghost use Rattle.tm_labels.specs.Orders.{places_in, IsNewOrder, KeepsWays, AddsPlaces, PutsAhead};
ghost use Rattle.tm_labels.specs.Ways.{IsStepOn, AreStepsOn};

use crate::marks::{is_marked, label_of};
use std::alloc::Global;
use std::collections::BinaryHeap;
use tm_bits::NoMemory;
use tm_circuit::{Circuit, Driver, Signal, Source};
use tm_replay::Label;

/// No gate.
const NONE: u32 = u32::MAX;

/// A gate at its place in the order: the greatest entry comes first.
#[derive(Clone, Copy, PartialEq, Eq, PartialOrd, Ord)]
struct Entry {
    /// Whether the label has more lag than is foreseen. It falls without a search once those have fallen that come before it.
    falls: bool,
    /// Greater where the label, or what is foreseen of it, has less lag.
    loss: u8,
    arrival: u32,
    /// Greater where the rank is less.
    early: u32,
    gate: Signal,
}

/// Gates that may wait: first where labels fall as foreseen, then the one of the worst label, then of the least rank.
#[derive(Drop)]
pub struct Order {
    entries: BinaryHeap<Entry>,
    /// The greatest lag that each label may come to have, by the signals.
    foreseen: Vec<u8>,
    /// For each gate one that reads it and is nearer to an output, or the gate itself where an output has it as its source.
    towards: Vec<u32>,
    /// The gate that comes before all others.
    ahead: u32,
}

impl Order {
    /// No gate yet.
    pub fn new(
        alloc: Global,
        circuit: &Circuit,
        foreseen: Vec<u8>,
        towards: Vec<u32>,
    ) -> Result<Order, NoMemory>
        ensures { IfOk result (IsNewOrder foreseen.items towards.items) }
    {
        Ok(Order {
            entries: BinaryHeap::with_capacity(alloc, circuit.signals() as usize)?,
            foreseen,
            towards,
            ahead: NONE,
        })
    }

    /// Puts a gate at its place.
    pub fn add(
        &mut self,
        circuit: &Circuit,
        labels: &[Option<Label>],
        gate: Signal,
    ) -> Result<(), NoMemory>
        requires { gate < length circuit.now.drives }
        ensures adds { AddsPlaces self.old self.new }
        ensures has { OnOk result (Contains (places_in self.new) gate) }
    {
        let entry = self.entry_of(circuit, labels, gate);
        self.entries.push(entry)?;
        Ok(())
    }

    /// Puts gates at their places.
    pub fn add_all(
        &mut self,
        circuit: &Circuit,
        labels: &[Option<Label>],
        gates: &[Signal],
    ) -> Result<(), NoMemory>
        requires { All (λ g. g < length circuit.now.drives) gates.now }
        ensures adds { AddsPlaces self.old self.new }
        ensures have { OnOk result ((g : ℕ) → Contains gates.now g → Contains (places_in self.new) g) }
    {
        for gate in gates {
            self.add(circuit, labels, *gate)?;
        }
        Ok(())
    }

    /// The label of the gate that came first has fallen. Without room for its new place it has none.
    pub fn fall(&mut self, circuit: &Circuit, labels: &[Option<Label>], gate: Signal)
        requires { gate < length circuit.now.drives }
        ensures others { (g : ℕ) → g ≢ gate → Contains (places_in self.old) g → Contains (places_in self.new) g }
        ensures ways { KeepsWays self.old self.new }
    {
        self.take_first(gate);
        let _ = self.add(circuit, labels, gate);
    }

    /// The first place goes where a gate has it.
    fn take_first(&mut self, gate: Signal)
        ensures others { (g : ℕ) → g ≢ gate → Contains (places_in self.old) g → Contains (places_in self.new) g }
        ensures ways { KeepsWays self.old self.new }
    {
        if let Some(entry) = self.entries.peek() {
            if entry.gate == gate {
                let _ = self.entries.pop();
            }
        }
    }

    /// A gate has lost its label, so that those that lead from it to an output lose theirs: they come first.
    pub fn lose(&mut self, gate: Signal)
        ensures { PutsAhead gate self.old self.new }
    {
        let next = self.towards.get(gate.0 as usize).copied().unwrap_or(NONE);
        self.ahead = if next == gate.0 { NONE } else { next };
    }

    /// The first gate of the order that waits.
    pub fn first(&mut self, queued: &[bool]) -> Option<Signal>
        ensures waits { IfSome result (λ gate. is_marked queued.now gate ≡ true) }
        ensures keeps { (g : ℕ) → is_marked queued.now g ≡ true → Contains (places_in self.old) g
            → Contains (places_in self.new) g }
        ensures ways { KeepsWays self.old self.new }
    {
        if is_marked(queued, Signal(self.ahead)) {
            return Some(Signal(self.ahead));
        }
        while let Some(entry) = self.entries.peek() {
            let gate = entry.gate;
            if is_marked(queued, gate) {
                return Some(gate);
            }
            let _ = self.entries.pop();
        }
        None
    }

    /// The place of a gate under labels. A gate without a label comes first, since it leaves at once.
    fn entry_of(&self, circuit: &Circuit, labels: &[Option<Label>], gate: Signal) -> Entry
        requires { gate < length circuit.now.drives }
        ensures { result.gate ≡ gate }
    {
        let early = u32::MAX - circuit.rank(gate);
        let Some(label) = label_of(labels, gate) else {
            return Entry {
                falls: true,
                loss: u8::MAX,
                arrival: u32::MAX,
                early,
                gate,
            };
        };
        let lag = self.foreseen.get(gate.0 as usize).copied();
        let lag = lag.unwrap_or(u8::MAX).min(label.lag);
        let falls = lag < label.lag;
        Entry {
            falls,
            loss: u8::MAX - lag,
            arrival: if falls { 0 } else { label.arrival },
            early,
            gate,
        }
    }
}

/// For each gate that leads to an output one that reads it, perhaps behind latches, and is nearer to an output, or the gate itself
/// where an output has it as its source.
pub fn towards_outputs(alloc: Global, circuit: &Circuit) -> Result<Vec<u32>, NoMemory>
    ensures { IfOk result (λ towards. AreStepsOn circuit.now towards.items) }
{
    let mut towards = vec![in alloc; NONE; circuit.signals() as usize]?;
    let mut found = Vec::new(alloc);
    find_outputs(circuit, &mut towards, &mut found)?;
    for place in 0..circuit.signals() as usize {
        let Some(gate) = found.get(place).copied() else {
            break;
        };
        find_sources(circuit, &mut towards, &mut found, gate)?;
    }
    Ok(towards)
}

/// The sources of the outputs lead to themselves.
fn find_outputs(
    circuit: &Circuit,
    towards: &mut [u32],
    found: &mut Vec<Signal>,
) -> Result<(), NoMemory>
    requires { AreStepsOn circuit.now towards.old }
    ensures { OnOk result (AreStepsOn circuit.now towards.new) }
{
    let _sound = circuit.signals();
    for output in circuit.outputs() {
        if let Source::Gate(gate) = circuit.source(*output) {
            find(towards, found, gate, gate)?;
        }
    }
    Ok(())
}

/// The sources of the pins of a gate lead to it.
fn find_sources(
    circuit: &Circuit,
    towards: &mut [u32],
    found: &mut Vec<Signal>,
    gate: Signal,
) -> Result<(), NoMemory>
    requires { AreStepsOn circuit.now towards.old }
    ensures { OnOk result (AreStepsOn circuit.now towards.new) }
{
    let _sound = circuit.signals();
    if gate.0 >= circuit.signals() {
        return Ok(());
    }
    let Driver::Gate { pins, .. } = circuit.driver(gate) else {
        return Ok(());
    };
    for pin in pins.as_slice() {
        if let Source::Gate(source) = circuit.source(*pin) {
            find(towards, found, source, gate)?;
        }
    }
    Ok(())
}

/// A gate leads to another, unless it was found before.
fn find(
    towards: &mut [u32],
    found: &mut Vec<Signal>,
    gate: Signal,
    to: Signal,
) -> Result<(), NoMemory>
    ensures { OnOk result ((c : Plain) → AreStepsOn c towards.old → IsStepOn c gate to → AreStepsOn c towards.new) }
{
    let place = gate.0 as usize;
    if place < towards.len() && towards[place] == NONE {
        found.push(gate)?;
        towards[place] = to.0;
    }
    Ok(())
}
