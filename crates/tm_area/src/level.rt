// Cuts that are kept of nodes, by their signals.

use crate::cuts::{Cut, Cuts, Listed, Span, Weight, sign_of};
use std::alloc::Global;
use tm_bits::NoMemory;
use tm_circuit::{Circuit, Driver, Signal};
use tm_unroll::Node;

/// The span of what has nothing.
const NOTHING: Span = Span { from: 0, to: 0 };

/// Cuts of nodes by their signals. In one for all nodes of an advance they are what may stand for a node among the leaves of a cut: the
/// node itself, where it may be a leaf, and its cuts.
#[derive(Drop)]
pub(crate) struct Level {
    cuts: Cuts,
    /// The cuts of each signal's node.
    spans: Vec<Span>,
}

impl Level {
    /// No cuts.
    pub fn empty(alloc: Global, circuit: &Circuit) -> Result<Level, NoMemory> {
        Ok(Level {
            cuts: Cuts::new(alloc),
            spans: vec![in alloc; NOTHING; circuit.signals() as usize]?,
        })
    }

    /// A level of an advance, in which the inputs and latches have their cuts. `below` is the one of the advance before.
    pub fn new(
        alloc: Global,
        circuit: &Circuit,
        advance: u8,
        below: Option<&Level>,
    ) -> Result<Level, NoMemory> {
        let mut level = Level::empty(alloc, circuit)?;
        for s in 0..circuit.signals() {
            level.add_end(circuit, Signal(s), advance, below)?;
        }
        Ok(level)
    }

    /// Gives an input or a latch its cuts: itself at present, and else what the latch reads one step before.
    fn add_end(
        &mut self,
        circuit: &Circuit,
        s: Signal,
        advance: u8,
        below: Option<&Level>,
    ) -> Result<(), NoMemory> {
        if s.0 >= circuit.signals() {
            return Ok(());
        }
        let from = self.cuts.len();
        match circuit.driver(s) {
            Driver::Gate { .. } => return Ok(()),
            Driver::Input => self.add_present(s, advance)?,
            Driver::Latch { next, .. } => match below {
                None => self.add_present(s, advance)?,
                Some(below) => self.add_all_of(below, *next)?,
            },
        }
        self.close(s, from);
        Ok(())
    }

    /// Adds the cut of a node itself, where it is one of the present.
    fn add_present(&mut self, signal: Signal, advance: u8) -> Result<(), NoMemory> {
        if advance > 0 {
            return Ok(());
        }
        let nothing = Weight {
            arrival: 0,
            flow: 0,
            leaves: 1,
        };
        self.add_itself(signal, advance, nothing)
    }

    /// Adds the cut of a node itself.
    fn add_itself(&mut self, signal: Signal, advance: u8, weight: Weight) -> Result<(), NoMemory> {
        let itself = [Node { signal, advance }];
        self.cuts.push(Cut {
            leaves: &itself,
            sign: sign_of(&itself),
            weight,
        })
    }

    /// Gives a gate's node its cuts: itself with a weight, where it may be a leaf, and some that were found.
    pub fn add_gate(
        &mut self,
        gate: Signal,
        advance: u8,
        itself: Option<Weight>,
        cuts: &Cuts,
    ) -> Result<(), NoMemory> {
        let from = self.cuts.len();
        if let Some(weight) = itself {
            self.add_itself(gate, advance, weight)?;
        }
        for listed in cuts.all() {
            self.cuts.push(cuts.cut(listed))?;
        }
        self.close(gate, from);
        Ok(())
    }

    /// Adds all cuts that a signal's node has in another level.
    fn add_all_of(&mut self, other: &Level, signal: Signal) -> Result<(), NoMemory> {
        for listed in other.cuts_of(signal) {
            self.cuts.push(other.cuts.cut(listed))?;
        }
        Ok(())
    }

    /// Makes the cuts from a place on those of a signal's node.
    fn close(&mut self, signal: Signal, from: usize) {
        let to = self.cuts.len();
        if let Some(span) = self.spans.get_mut(signal.0 as usize) {
            *span = Span { from, to };
        }
    }

    /// The cuts of a signal's node.
    pub fn cuts_of(&self, signal: Signal) -> &[Listed] {
        match self.spans.get(signal.0 as usize) {
            Some(span) => self.cuts.some(*span),
            None => &[],
        }
    }

    /// A cut that is kept here, with its leaves.
    pub fn cut(&self, listed: &Listed) -> Cut<'_> {
        self.cuts.cut(listed)
    }

    /// The leaves of a cut that is kept here.
    pub fn leaves_of(&self, listed: &Listed) -> &[Node] {
        self.cuts.leaves_of(listed)
    }
}
