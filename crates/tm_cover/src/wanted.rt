// The gates that are wanted, by one search from the outputs through the cuts.

ghost use Rattle.std.specs.Prelude.{◌≡◌, ℕ, ◌<◌, length, map, IfOk, OnOk, Contains};
ghost use Rattle.tm_circuit.specs.Source.{IsSource};
ghost use Rattle.tm_circuit.specs.declared.sources.Source.TheVariants.{Gate};
ghost use Rattle.tm_unroll.specs.declared.node.Node.{Node as NodeValue};
ghost use Rattle.tm_cover.specs.Wanted.{IsStart, Meets, IsSourceAmong, IsSourceUnder, AreSignals, AreWanted};

use std::alloc::Global;
use tm_bits::NoMemory;
use tm_circuit::{Circuit, Signal, Source};
use tm_labels::Settled;
use tm_unroll::Node;

/// A search for the wanted gates: marks by the signals of those that it has met, and those of them that it has still to go through.
#[derive(Drop)]
pub struct Search {
    met: Vec<bool>,
    left: Vec<Signal>,
}

/// Marks by the signals of the gates that are wanted. Each of them is gone through once.
pub fn wanted_gates(
    alloc: Global,
    circuit: &Circuit,
    settled: &Settled,
) -> Result<Vec<bool>, NoMemory>
    requires signals { AreSignals circuit.now settled.now.cuts }
    requires sized { length settled.now.cuts ≡ length circuit.now.drives }
    ensures { IfOk result (λ marks. AreWanted circuit.now settled.now.cuts marks.items) }
{
    let mut search = Search::new(alloc, circuit.signals() as usize)?;
    search.meet_outputs(circuit)?;
    while let Some(gate) = search.left.pop() {
        search.meet_leaves(circuit, settled.cut(gate))?;
    }
    Ok(search.met)
}

impl Search {
    /// A search that has met nothing.
    fn new(alloc: Global, signals: usize) -> Result<Search, NoMemory>
        ensures { IfOk result (IsStart signals) }
    {
        Ok(Search {
            met: vec![in alloc; false; signals]?,
            left: Vec::new(alloc),
        })
    }

    /// Meets the source gates of the outputs.
    fn meet_outputs(&mut self, circuit: &Circuit) -> Result<(), NoMemory>
        requires { length self.old.met.items ≡ length circuit.now.drives }
        ensures { OnOk result (Meets (IsSourceAmong circuit.now.drives circuit.now.outputs) self.old self.new) }
    {
        let _sound = circuit.signals();
        for output in circuit.outputs() {
            self.meet_source(circuit, *output)?;
        }
        Ok(())
    }

    /// Meets the source gates of some nodes' signals.
    fn meet_leaves(&mut self, circuit: &Circuit, leaves: &[Node]) -> Result<(), NoMemory>
        requires sized { length self.old.met.items ≡ length circuit.now.drives }
        requires signals { (x : NodeValue) → Contains leaves.now x → x.signal < length circuit.now.drives }
        ensures { OnOk result (Meets (IsSourceUnder circuit.now.drives leaves.now) self.old self.new) }
    {
        for leaf in leaves {
            self.meet_source(circuit, leaf.signal)?;
        }
        Ok(())
    }

    /// Meets the source of a signal, where it is a gate.
    fn meet_source(&mut self, circuit: &Circuit, s: Signal) -> Result<(), NoMemory>
        requires signal { s < length circuit.now.drives }
        requires sized { length self.old.met.items ≡ length circuit.now.drives }
        ensures { OnOk result (Meets (λ g. IsSource circuit.now.drives s (Gate g)) self.old self.new) }
    {
        match circuit.source(s) {
            Source::Gate(gate) => self.meet(gate),
            Source::Input(_) | Source::Ring => Ok(()),
        }
    }

    /// Meets a gate. Where it was not met before it is left.
    fn meet(&mut self, gate: Signal) -> Result<(), NoMemory>
        requires { gate < length self.old.met.items }
        ensures { OnOk result (Meets (λ g. gate ≡ g) self.old self.new) }
    {
        let place = gate.0 as usize;
        if self.met[place] {
            return Ok(());
        }
        self.left.push(gate)?;
        self.met[place] = true;
        Ok(())
    }
}
