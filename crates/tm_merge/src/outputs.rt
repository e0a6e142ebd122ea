// The gates that lead to an output.

ghost use Rattle.std.specs.Prelude.{◌≡◌, ◌<◌, ◌∷◌, [], length, All, IfOk, OnOk};
ghost use Rattle.tm_circuit.specs.Plain.{drive, pins_of};
ghost use Rattle.tm_merge.specs.Leading.{AreMarked, IsMarking, Marks, MarksSources};

use std::alloc::Global;
use tm_bits::NoMemory;
use tm_circuit::{Circuit, Driver, Signal, Source};

/// Marks the gates that lead to an output, by the signals: the source gate of each output, and the source gate of each pin of a gate
/// that is marked.
pub fn leads_to_output(alloc: Global, circuit: &Circuit) -> Result<Vec<bool>, NoMemory>
    ensures { IfOk result (λ marks. AreMarked circuit.now marks.items) }
{
    let mut marking = Marking::new(alloc, circuit)?;
    let _sound = circuit.signals();
    marking.mark_sources(circuit, circuit.outputs())?;
    let mut place = 0;
    while place < marking.found.len() {
        let gate = marking.found[place];
        marking.mark_sources(circuit, pins_of(circuit, gate))?;
        place += 1;
    }
    Ok(marking.marks)
}

/// The pins of a gate; what is no gate has none.
pub(crate) fn pins_of(circuit: &Circuit, gate: Signal) -> &[Signal]
    requires { gate < length circuit.now.drives }
    ensures pins { result.now ≡ pins_of (drive circuit.now gate) }
    ensures signals { All (λ p. p < length circuit.now.drives) result.now }
{
    let _sound = circuit.signals();
    match circuit.driver(gate) {
        Driver::Gate { pins, .. } => pins.as_slice(),
        Driver::Input | Driver::Latch { .. } => &[],
    }
}

/// The gates that were found to lead to an output, as marks and in the order in which they were found.
#[derive(Drop)]
struct Marking {
    /// One for each signal.
    marks: Vec<bool>,
    found: Vec<Signal>,
}

impl Marking {
    /// Nothing is marked yet.
    fn new(alloc: Global, circuit: &Circuit) -> Result<Marking, NoMemory>
        ensures marking { IfOk result IsMarking }
        ensures sized { IfOk result (λ m. length m.marks.items ≡ length circuit.now.drives) }
    {
        Ok(Marking {
            marks: vec![in alloc; false; circuit.signals() as usize]?,
            found: Vec::new(alloc),
        })
    }

    /// Marks the sources of some signals, where they are gates.
    fn mark_sources(&mut self, circuit: &Circuit, signals: &[Signal]) -> Result<(), NoMemory>
        requires signals { All (λ p. p < length circuit.now.drives) signals.now }
        requires marking { IsMarking self.old }
        requires sized { length self.old.marks.items ≡ length circuit.now.drives }
        ensures { OnOk result (MarksSources circuit.now signals.now self.old self.new) }
    {
        for s in signals {
            self.mark_source(circuit, *s)?;
        }
        Ok(())
    }

    /// Marks the source of a signal, where it is a gate.
    fn mark_source(&mut self, circuit: &Circuit, s: Signal) -> Result<(), NoMemory>
        requires signal { s < length circuit.now.drives }
        requires marking { IsMarking self.old }
        requires sized { length self.old.marks.items ≡ length circuit.now.drives }
        ensures { OnOk result (MarksSources circuit.now (s ∷ []) self.old self.new) }
    {
        let _sound = circuit.signals();
        if let Source::Gate(gate) = circuit.source(s) {
            self.mark(gate)?;
        }
        Ok(())
    }

    /// Marks a signal.
    fn mark(&mut self, s: Signal) -> Result<(), NoMemory>
        requires signal { s < length self.old.marks.items }
        requires marking { IsMarking self.old }
        ensures { OnOk result (Marks s self.old self.new) }
    {
        let at = s.0 as usize;
        if !self.marks[at] {
            self.marks[at] = true;
            self.found.push(s)?;
        }
        Ok(())
    }
}
