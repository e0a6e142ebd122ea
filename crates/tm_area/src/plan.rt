// A choice of a cut for each gate with a label, and what follows from it: arrivals, area flows, required times and readers.

ghost use Rattle.std.specs.Prelude.{◌≡◌, ◌<◌, length};

use crate::counts::{Counts, leaves_in};
use crate::cuts::{Cut, Weight};
use crate::level::Level;
use smallvec::SmallVec;
use std::alloc::Global;
use tm_bits::NoMemory;
use tm_circuit::{Circuit, Driver, Signal};
use tm_labels::Settled;
use tm_unroll::{Lut, Mapping, Node};

/// The area flow of one table.
const TABLE: u64 = 1 << 12;

/// One reader, as readers are expected.
const READER: u64 = 1 << 4;

/// What is known of a signal. All but the first two are of a gate with a label.
#[derive(Clone, Copy)]
pub(crate) struct Fact {
    /// Whether it is a gate with a label, so that its table may be read.
    pub labelled: bool,
    /// The lag of the label.
    pub lag: u8,
    /// The number of tables on the longest chain that ends in its table.
    pub arrival: u32,
    /// The greatest arrival at which no chain is longer than the period.
    pub required: u32,
    /// The area flow of its table for each reader.
    pub share: u64,
    /// How many readers its table is expected to have, at first those of its gate.
    readers: u64,
}

/// The fact of a signal that is no gate with a label.
const NO_FACT: Fact = Fact {
    labelled: false,
    lag: 0,
    arrival: 0,
    required: u32::MAX,
    share: 0,
    readers: 0,
};

/// A choice of cuts under way, by the signals.
#[derive(Drop)]
pub(crate) struct Plan {
    pub facts: Vec<Fact>,
    pub choices: Vec<SmallVec<Node, 8>>,
    /// The gates with labels, those of a lesser lag first, and then in the order of the circuit: so each table comes after those that
    /// are before it in a chain.
    pub sequence: Vec<Signal>,
    pub counts: Counts,
    /// The cuts that are kept of gates with labels, each at the lag of its label.
    pub kept: Level,
    /// The number of tables on the longest chain of the cuts of the settling.
    pub period: u32,
    /// The greatest lag of a label.
    pub deepest: u8,
}

impl Plan {
    /// The cuts of a settling.
    pub fn new(alloc: Global, circuit: &Circuit, settled: &Settled) -> Result<Plan, NoMemory>
        requires { length settled.now.cuts ≡ length circuit.now.drives }
    {
        let mut plan = Plan {
            facts: vec![in alloc; NO_FACT; circuit.signals() as usize]?,
            choices: Vec::with_capacity(alloc, circuit.signals() as usize)?,
            sequence: Vec::new(alloc),
            counts: Counts::new(alloc, circuit)?,
            kept: Level::empty(alloc, circuit)?,
            period: 0,
            deepest: 0,
        };
        for s in 0..circuit.signals() {
            plan.add_signal(alloc, settled, Signal(s))?;
        }
        plan.make_sequence(circuit)?;
        Ok(plan)
    }

    /// Takes a signal up, with its label and its cut.
    fn add_signal(&mut self, alloc: Global, settled: &Settled, s: Signal) -> Result<(), NoMemory>
        requires { s < length settled.now.cuts }
    {
        let mut leaves = SmallVec::new(alloc);
        if let Some(label) = settled.label(s) {
            self.deepest = self.deepest.max(label.lag);
            if let Some(fact) = self.facts.get_mut(s.0 as usize) {
                fact.labelled = true;
                fact.lag = label.lag;
            }
            leaves = SmallVec::from_slice(alloc, settled.cut(s))?;
        }
        self.choices.push(leaves)?;
        Ok(())
    }

    /// Puts the gates with labels in sequence.
    fn make_sequence(&mut self, circuit: &Circuit) -> Result<(), NoMemory> {
        for lag in 0..u8::MAX {
            if lag > self.deepest {
                break;
            }
            self.add_to_sequence(circuit, lag)?;
        }
        Ok(())
    }

    /// Adds the gates whose labels have a lag to the sequence.
    fn add_to_sequence(&mut self, circuit: &Circuit, lag: u8) -> Result<(), NoMemory> {
        for gate in circuit.order() {
            let fact = self.fact(*gate);
            if fact.labelled && fact.lag == lag {
                self.sequence.push(*gate)?;
            }
        }
        Ok(())
    }

    /// What is known of a signal.
    pub fn fact(&self, s: Signal) -> Fact {
        self.facts.get(s.0 as usize).copied().unwrap_or(NO_FACT)
    }

    /// What a node comes to as the only leaf.
    pub fn weigh_itself(&self, signal: Signal, advance: u8) -> Weight {
        self.weigh(&[Node { signal, advance }])
    }

    /// What some leaves come to. A register's leaf has no arrival.
    pub fn weigh(&self, leaves: &[Node]) -> Weight {
        let (mut arrival, mut flow) = (0u32, 0u64);
        for leaf in leaves {
            if let Some(fact) = self.facts.get(leaf.signal.0 as usize) {
                if fact.labelled && fact.lag == leaf.advance {
                    arrival = arrival.max(fact.arrival);
                }
                flow = flow.saturating_add(fact.share);
            }
        }
        Weight {
            arrival,
            flow,
            leaves: leaves.len(),
        }
    }

    /// What the chosen cut of a gate comes to.
    pub fn present(&self, gate: Signal) -> Weight {
        self.weigh(leaves_in(&self.choices, gate))
    }

    /// Chooses a cut for a gate, or none in place of its own, and notes what it gives the table.
    pub fn choose(
        &mut self,
        alloc: Global,
        gate: Signal,
        cut: Option<Cut<'_>>,
        weight: Weight,
    ) -> Result<(), NoMemory> {
        if let Some(cut) = cut {
            let leaves = SmallVec::from_slice(alloc, cut.leaves)?;
            if let Some(choice) = self.choices.get_mut(gate.0 as usize) {
                *choice = leaves;
            }
        }
        self.note(gate, weight);
        Ok(())
    }

    /// Notes what the chosen cut of a gate gives its table.
    pub fn note(&mut self, gate: Signal, weight: Weight) {
        if let Some(fact) = self.facts.get_mut(gate.0 as usize) {
            fact.arrival = weight.arrival.saturating_add(1);
            fact.share = weight.flow.saturating_add(TABLE).saturating_mul(READER)
                / fact.readers.max(READER);
        }
    }

    /// Works out the readers, arrivals and area flows of the cuts that are chosen, from these the period, and the required times.
    pub fn begin(&mut self, circuit: &Circuit) -> Result<(), NoMemory> {
        self.counts.renew(circuit, &self.choices)?;
        self.count_all_reads(circuit);
        let mut period = 0;
        for place in 0..self.sequence.len() {
            period = self.note_at(place).max(period);
        }
        self.period = period;
        self.require_all();
        Ok(())
    }

    /// Counts the readers of the chosen cuts anew, expects readers after them, and works out the required times.
    pub fn renew(&mut self, circuit: &Circuit) -> Result<(), NoMemory> {
        self.counts.renew(circuit, &self.choices)?;
        self.mix_all_readers();
        self.require_all();
        Ok(())
    }

    /// Notes what the chosen cut of the gate at a place of the sequence gives, and tells the arrival of its table where it is in use.
    fn note_at(&mut self, place: usize) -> u32 {
        let Some(gate) = self.sequence.get(place).copied() else {
            return 0;
        };
        let weight = self.present(gate);
        self.note(gate, weight);
        if self.counts.is_used(gate.0 as usize) {
            weight.arrival.saturating_add(1)
        } else {
            0
        }
    }

    /// Expects each table to have as many readers as its gate has, of signals and outputs.
    fn count_all_reads(&mut self, circuit: &Circuit) {
        for s in 0..circuit.signals() {
            self.count_reads(circuit, Signal(s));
        }
        self.add_reads(circuit.outputs());
    }

    /// Adds the readings of a signal to the readers of what it reads.
    fn count_reads(&mut self, circuit: &Circuit, s: Signal) {
        if s.0 >= circuit.signals() {
            return;
        }
        match circuit.driver(s) {
            Driver::Gate { pins, .. } => self.add_reads(pins.as_slice()),
            Driver::Latch { next, .. } => self.add_read(*next),
            Driver::Input => {}
        }
    }

    /// Adds a reader to each of some signals.
    fn add_reads(&mut self, signals: &[Signal]) {
        for signal in signals {
            self.add_read(*signal);
        }
    }

    /// Adds a reader to a signal.
    fn add_read(&mut self, signal: Signal) {
        if let Some(fact) = self.facts.get_mut(signal.0 as usize) {
            fact.readers = fact.readers.saturating_add(READER);
        }
    }

    /// Brings the expected readers of all tables nearer to those that they have.
    fn mix_all_readers(&mut self) {
        for place in 0..self.facts.len() {
            self.mix_readers(place);
        }
    }

    /// Brings the expected readers of the table of a signal nearer to those that it has. What was expected counts twice.
    fn mix_readers(&mut self, place: usize) {
        let readers = self.counts.readers(place).saturating_mul(READER);
        if let Some(fact) = self.facts.get_mut(place) {
            fact.readers = fact.readers.saturating_mul(2).saturating_add(readers) / 3;
        }
    }

    /// Works out the required times of all tables from the last ones of chains on.
    fn require_all(&mut self) {
        for place in 0..self.facts.len() {
            self.start_required(place);
        }
        for gate in self.sequence.iter().rev() {
            require_leaves(&mut self.facts, &self.counts, &self.choices, *gate);
        }
    }

    /// The required time of a gate's table, as far as no reader asks for less. It is the period for a table that isn't in use too, since
    /// the table may come into use by a reader behind a register before its own cut is chosen anew.
    fn start_required(&mut self, place: usize) {
        let period = self.period;
        if let Some(fact) = self.facts.get_mut(place) {
            fact.required = period;
        }
    }

    /// The tables in use, in ascending order of their gates.
    pub fn mapping(&self, alloc: Global, circuit: &Circuit) -> Result<Mapping, NoMemory> {
        let mut luts = Vec::new(alloc);
        for s in 0..circuit.signals() {
            let gate = Signal(s);
            if self.counts.is_used(gate.0 as usize) {
                luts.push(Lut {
                    gate,
                    lag: self.fact(gate).lag,
                    leaves: SmallVec::from_slice(alloc, leaves_in(&self.choices, gate))?,
                })?;
            }
        }
        Ok(Mapping { luts })
    }
}

/// Lets the table of a gate require of those before it in a chain that they come before it, where it is in use, or may come into use by a
/// reader behind a register, who doesn't ask when it comes.
fn require_leaves(
    facts: &mut Vec<Fact>,
    counts: &Counts,
    choices: &[SmallVec<Node, 8>],
    gate: Signal,
) {
    let Some(fact) = facts.get(gate.0 as usize).copied() else {
        return;
    };
    if fact.lag == 0 && !counts.is_used(gate.0 as usize) {
        return;
    }
    for leaf in leaves_in(choices, gate) {
        require(facts, *leaf, fact.required.saturating_sub(1));
    }
}

/// Lets a table come at some time at the latest, where it is before its reader in a chain.
fn require(facts: &mut Vec<Fact>, leaf: Node, time: u32) {
    if let Some(fact) = facts.get_mut(leaf.signal.0 as usize) {
        if fact.labelled && fact.lag == leaf.advance {
            fact.required = fact.required.min(time);
        }
    }
}
