// How often the table of each gate is read by the tables in use and the outputs. What a table alone keeps in use goes with it.

use smallvec::SmallVec;
use std::alloc::Global;
use tm_bits::NoMemory;
use tm_circuit::{Circuit, Signal, Source};
use tm_unroll::Node;

/// The most readings that the trial of a cut goes through.
pub(crate) const MOST_TRIED: usize = 64;

/// The readings of tables, by the signals.
#[derive(Drop)]
pub(crate) struct Counts {
    /// The gate whose table is read at a leaf with this signal.
    sources: Vec<Option<Signal>>,
    readers: Vec<u64>,
    /// Whether the readings by the gate's own table are counted.
    used: Vec<bool>,
    /// Tables that have still to be counted as read.
    waiting: Vec<Signal>,
    /// Tables that a trial brought into use.
    trail: Vec<Signal>,
}

/// The leaves of the cut that is chosen for a gate.
pub(crate) fn leaves_in(choices: &[SmallVec<Node, 8>], gate: Signal) -> &[Node] {
    match choices.get(gate.0 as usize) {
        Some(leaves) => leaves.as_slice(),
        None => &[],
    }
}

impl Counts {
    /// No table is in use.
    pub fn new(alloc: Global, circuit: &Circuit) -> Result<Counts, NoMemory> {
        let signals = circuit.signals() as usize;
        let mut sources = Vec::with_capacity(alloc, signals)?;
        for s in 0..circuit.signals() {
            sources.push(gate_behind(circuit, Signal(s)))?;
        }
        Ok(Counts {
            sources,
            readers: vec![in alloc; 0; signals]?,
            used: vec![in alloc; false; signals]?,
            waiting: Vec::new(alloc),
            trail: Vec::new(alloc),
        })
    }

    /// Whether the table of the signal with a number is in use.
    pub fn is_used(&self, place: usize) -> bool {
        self.used.get(place).copied().unwrap_or(false)
    }

    /// How often the table of the signal with a number is read.
    pub fn readers(&self, place: usize) -> u64 {
        self.readers.get(place).copied().unwrap_or(0)
    }

    /// Counts anew from the outputs.
    pub fn renew(
        &mut self,
        circuit: &Circuit,
        choices: &[SmallVec<Node, 8>],
    ) -> Result<(), NoMemory> {
        self.clear();
        self.waiting.clear();
        for output in circuit.outputs() {
            self.wait_for(*output)?;
        }
        self.count(choices)
    }

    /// Counts no table as read.
    fn clear(&mut self) {
        for used in self.used.iter_mut() {
            *used = false;
        }
        self.clear_readers();
    }

    /// Sets all numbers of readers to 0.
    fn clear_readers(&mut self) {
        for readers in self.readers.iter_mut() {
            *readers = 0;
        }
    }

    /// Brings the readings at some leaves in, and all that come into use by them.
    pub fn bring_in(
        &mut self,
        choices: &[SmallVec<Node, 8>],
        leaves: &[Node],
    ) -> Result<(), NoMemory> {
        self.waiting.clear();
        self.wait_for_all(leaves)?;
        self.count(choices)
    }

    /// Counts the tables that wait, and those that wait for them in turn.
    fn count(&mut self, choices: &[SmallVec<Node, 8>]) -> Result<(), NoMemory> {
        for _ in 0..usize::MAX {
            let Some(gate) = self.waiting.pop() else {
                return Ok(());
            };
            if self.add_reading(gate) {
                self.wait_for_all(leaves_in(choices, gate))?;
            }
        }
        Ok(())
    }

    /// Counts one reading of a table, and tells whether the table came into use.
    fn add_reading(&mut self, gate: Signal) -> bool {
        if let Some(readers) = self.readers.get_mut(gate.0 as usize) {
            *readers = readers.saturating_add(1);
        }
        if self.is_used(gate.0 as usize) {
            return false;
        }
        self.set_used(gate, true);
        true
    }

    /// The number of tables that some leaves would bring into use, where it is at most so many and few enough readings are gone
    /// through for it, and else the greatest.
    pub fn area_of(
        &mut self,
        choices: &[SmallVec<Node, 8>],
        leaves: &[Node],
        most: usize,
    ) -> Result<usize, NoMemory> {
        let area = self.try_out(choices, leaves, most)?;
        self.take_back();
        Ok(area.unwrap_or(usize::MAX))
    }

    /// Brings the tables that some leaves read into use, and those that they read in turn, but counts no reading. `None` says that
    /// they are too many, and not all came.
    fn try_out(
        &mut self,
        choices: &[SmallVec<Node, 8>],
        leaves: &[Node],
        most: usize,
    ) -> Result<Option<usize>, NoMemory> {
        self.trail.clear();
        let mut readings = self.try_all(leaves)?;
        for place in 0..MOST_TRIED {
            let tables = self.trail.len();
            if readings >= MOST_TRIED || tables > most {
                return Ok(None);
            }
            let Some(gate) = self.trail.get(place).copied() else {
                return Ok(Some(tables));
            };
            readings = readings.saturating_add(self.try_all(leaves_in(choices, gate))?);
        }
        Ok(None)
    }

    /// Brings the tables that are read at some leaves into use, and gives the number of readings.
    fn try_all(&mut self, leaves: &[Node]) -> Result<usize, NoMemory> {
        let mut readings = 0usize;
        for leaf in leaves {
            if let Some(gate) = self.source_of(leaf.signal) {
                readings = readings.saturating_add(1);
                self.try_table(gate)?;
            }
        }
        Ok(readings)
    }

    /// Brings a table into use, unless it is.
    fn try_table(&mut self, gate: Signal) -> Result<(), NoMemory> {
        if !self.is_used(gate.0 as usize) {
            self.set_used(gate, true);
            self.trail.push(gate)?;
        }
        Ok(())
    }

    /// Takes the tables that a trial brought into use out of it.
    fn take_back(&mut self) {
        for place in 0..self.trail.len() {
            if let Some(gate) = self.trail.get(place).copied() {
                self.set_used(gate, false);
            }
        }
    }

    /// Takes the readings at some leaves out, and all that goes out of use by them. Tables past the most that may be gone through stay
    /// in use with no reader, and are there when they are read again.
    pub fn take_out(
        &mut self,
        choices: &[SmallVec<Node, 8>],
        leaves: &[Node],
        most: usize,
    ) -> Result<(), NoMemory> {
        self.waiting.clear();
        self.wait_for_all(leaves)?;
        for step in 0..usize::MAX {
            let Some(gate) = self.waiting.pop() else {
                return Ok(());
            };
            let readers = self.remove_reading(gate);
            if readers == 0 && step < most && self.is_used(gate.0 as usize) {
                self.set_used(gate, false);
                self.wait_for_all(leaves_in(choices, gate))?;
            }
        }
        Ok(())
    }

    /// Counts one reading of a table less, and gives the number that is left.
    fn remove_reading(&mut self, gate: Signal) -> u64 {
        if let Some(readers) = self.readers.get_mut(gate.0 as usize) {
            *readers = readers.saturating_sub(1);
        }
        self.readers(gate.0 as usize)
    }

    /// Says whether the table of a gate is in use.
    pub fn set_used(&mut self, gate: Signal, yes: bool) {
        if let Some(used) = self.used.get_mut(gate.0 as usize) {
            *used = yes;
        }
    }

    /// Makes the tables that are read at some leaves wait.
    fn wait_for_all(&mut self, leaves: &[Node]) -> Result<(), NoMemory> {
        for leaf in leaves {
            self.wait_for(leaf.signal)?;
        }
        Ok(())
    }

    /// Makes the table that is read at a signal wait, where there is one.
    fn wait_for(&mut self, signal: Signal) -> Result<(), NoMemory> {
        if let Some(gate) = self.source_of(signal) {
            self.waiting.push(gate)?;
        }
        Ok(())
    }

    /// The gate whose table is read at a leaf with this signal.
    fn source_of(&self, signal: Signal) -> Option<Signal> {
        self.sources.get(signal.0 as usize).copied().flatten()
    }
}

/// The gate that is the source of a signal.
fn gate_behind(circuit: &Circuit, s: Signal) -> Option<Signal> {
    if s.0 >= circuit.signals() {
        return None;
    }
    match circuit.source(s) {
        Source::Gate(gate) => Some(gate),
        Source::Input(_) | Source::Ring => None,
    }
}
