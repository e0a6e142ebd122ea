// The gates that wait for a visit.

ghost use Rattle.std.specs.Prelude.{◌≡◌, ◌↔◌, ◌<◌, ◌^◌, false, true, length, IsTrue, All, slice_set, IfOk, OnOk, OnErr, MatchOption};
ghost use Rattle.tm_circuit.specs.Chain.{IsGate};
ghost use Rattle.tm_labels.specs.Marks.{is_marked, IsUnmarked, MarksGates, JoinsMarks};

use crate::marks::is_marked;
use crate::order::Order;
use std::alloc::Global;
use std::marker::Model;
use tm_bits::NoMemory;
use tm_circuit::{Circuit, Driver, Signal};
use tm_replay::Label;

/// The gates that wait. Which of them comes first is left open.
#[derive(Drop)]
pub struct Queue {
    /// Whether each signal waits.
    queued: Vec<bool>,
    /// Where a gate that waits is looked for first.
    order: Order,
}

impl Model for Queue {
    ghost use Rattle.std.specs.Prelude.{Bool, List, ◌<◌, ◌^◌, length};

    ghost Value = { List Bool };

    ghost view = { λ q. q.queued.items };

    ghost invariant = { λ q. length q.queued.items < 2 ^ 32 };
}

impl Queue {
    /// The gates that count, which all wait.
    pub fn new(
        alloc: Global,
        circuit: &Circuit,
        labels: &[Option<Label>],
        counts: &[bool],
        order: Order,
    ) -> Result<Queue, NoMemory>
        requires { length counts.now ≡ length circuit.now.drives }
        ensures { IfOk result (MarksGates circuit.now.drives counts.now) }
    {
        let mut order = order;
        let mut queued = Vec::with_capacity(alloc, counts.len())?;
        for s in 0..circuit.signals() {
            let signal = Signal(s);
            let waits = is_counting_gate(circuit, counts, signal);
            if waits {
                order.add(circuit, labels, signal)?;
            }
            queued.push(waits)?;
        }
        Ok(Queue { queued, order })
    }

    /// Whether each signal waits.
    pub fn queued(&self) -> &[bool]
        ensures { result.now ≡ self.now }
    {
        &self.queued
    }

    /// The gate that is to be visited first, where one waits.
    pub fn first(&mut self) -> Option<Signal>
        ensures same { self.new ≡ self.old }
        ensures first { MatchOption result (IsUnmarked self.old) (λ g. is_marked self.old g ≡ true) }
    {
        match self.order.first(&self.queued) {
            Some(gate) => Some(gate),
            None => first_marked(&self.queued),
        }
    }

    /// The label of a gate that waits has fallen.
    pub fn fall(&mut self, circuit: &Circuit, labels: &[Option<Label>], gate: Signal)
        requires { gate < length circuit.now.drives }
        ensures { self.new ≡ self.old }
    {
        self.order.fall(circuit, labels, gate);
    }

    /// A gate waits no more.
    pub fn leave(&mut self, gate: Signal)
        requires { gate < length self.old }
        ensures { self.new ≡ slice_set self.old gate false }
    {
        self.queued[gate.0 as usize] = false;
    }

    /// The same for a gate that has lost its label.
    pub fn leave_lost(&mut self, gate: Signal)
        requires { gate < length self.old }
        ensures { self.new ≡ slice_set self.old gate false }
    {
        self.leave(gate);
        self.order.lose(gate);
    }

    /// Some gates wait, too. After `NoMemory` those wait that waited before.
    pub fn enter(
        &mut self,
        circuit: &Circuit,
        labels: &[Option<Label>],
        gates: &[Signal],
    ) -> Result<(), NoMemory>
        requires sized { length self.old ≡ length circuit.now.drives }
        requires gates { All (λ g. g < length circuit.now.drives) gates.now }
        ensures joins { OnOk result (JoinsMarks gates.now self.old self.new) }
        ensures same { OnErr result (self.new ≡ self.old) }
    {
        self.order.add_all(circuit, labels, gates)?;
        mark_all(&mut self.queued, gates);
        Ok(())
    }
}

/// Whether a signal is a gate that counts.
fn is_counting_gate(circuit: &Circuit, counts: &[bool], s: Signal) -> bool
    requires { s < length circuit.now.drives }
    ensures { IsTrue result ↔ (is_marked counts.now s ≡ true × IsGate circuit.now.drives s) }
{
    is_marked(counts, s) && matches!(circuit.driver(s), Driver::Gate { .. })
}

/// The first signal that is marked.
fn first_marked(marks: &[bool]) -> Option<Signal>
    requires { length marks.now < 2 ^ 32 }
    ensures { MatchOption result (IsUnmarked marks.now) (λ g. is_marked marks.now g ≡ true) }
{
    for (s, marked) in marks.iter().enumerate() {
        if *marked {
            return Some(Signal(s as u32));
        }
    }
    None
}

/// Marks some signals.
fn mark_all(marks: &mut [bool], signals: &[Signal])
    requires { All (λ s. s < length marks.old) signals.now }
    ensures { JoinsMarks signals.now marks.old marks.new }
{
    for s in signals {
        marks[s.0 as usize] = true;
    }
}
