// A guess whether a target can be settled: by merged cuts alone, with no search for cuts and no record of why labels fall. Nothing
// is proved of the answer; who needs it to be right settles the target.
//
// A gate waits where its cut is not served in time any more, or where it has none yet. A visit lets its label fall to the first for
// which a cut is found, and then the gates wait whose cuts rest on the better label. Labels only fall, so that this ends.

use crate::cuts::{Moment, behind_latches};
use crate::lags::{marked_order, most_lags};
use crate::outputs::leads_to_output;
use crate::pins::{Pins, label_of, number_of};
use crate::queue::Queue;
use crate::watchers::Watchers;
use smallvec::SmallVec;
use std::alloc::Global;
use tm_bits::NoMemory;
use tm_circuit::{Circuit, Signal, Source};
use tm_replay::Label;
use tm_unroll::Node;

/// The most leaves of a cut.
const MOST_LEAVES: u32 = 8;

/// Whether merged cuts alone settle a target with labels for all outputs, for tables of at most `k` leaves, lags of at most `d`
/// steps, and a base, the advance that stands for the present. A guess: where it says no, the target may be settled all the same.
pub fn can_settle(
    alloc: Global,
    base: u8,
    circuit: &Circuit,
    k: u8,
    d: u8,
    target: u32,
) -> Result<bool, NoMemory> {
    let mut guess = Guess::new(alloc, base, circuit, k, d)?;
    guess.can_settle(alloc, target)
}

/// A guess for one target after another, over the gates that lead to an output.
#[derive(Drop)]
pub struct Guess<'a> {
    base: u8,
    circuit: &'a Circuit,
    k: u8,
    /// The gates, each after those among its pins.
    order: Vec<Signal>,
    /// The place of each gate in the order, by the signals.
    places: Vec<u32>,
    pins: Pins,
    /// The greatest lag that each gate may have, by the signals.
    most_lags: Vec<u8>,
    /// The least lag that the outputs leave to their source gates, by the signals.
    needs: Vec<u8>,
    labels: Vec<Option<Label>>,
    cuts: Vec<SmallVec<Node, 8>>,
    /// The gates that wait, by the signals.
    stale: Vec<bool>,
    /// The same, by their places.
    waiting: Queue,
    /// The leaves of the cuts, at their gates.
    watchers: Watchers,
}

impl<'a> Guess<'a> {
    /// What serves for all targets. More than 8 leaves count as 8.
    pub fn new(
        alloc: Global,
        base: u8,
        circuit: &'a Circuit,
        k: u8,
        d: u8,
    ) -> Result<Guess<'a>, NoMemory> {
        let signals = circuit.signals() as usize;
        let marks = leads_to_output(alloc, circuit)?;
        let order = marked_order(alloc, circuit, &marks)?;
        let places = places_by_signal(alloc, signals, &order)?;
        let pins = Pins::new(alloc, circuit, d, &marks)?;
        let most_lags = most_lags(alloc, base, d, signals, &order, &pins)?;
        let needs = needs_by_signal(alloc, base, circuit)?;
        let mut cuts = Vec::with_capacity(alloc, signals)?;
        for _signal in 0..signals {
            cuts.push(SmallVec::new(alloc))?;
        }
        let waiting = Queue::new(alloc, order.len())?;
        let watchers = Watchers::new(
            alloc,
            signals,
            order.len().saturating_mul(MOST_LEAVES as usize),
        )?;
        Ok(Guess {
            base,
            circuit,
            k: k.min(MOST_LEAVES as u8),
            order,
            places,
            pins,
            most_lags,
            needs,
            labels: vec![in alloc; None; signals]?,
            cuts,
            stale: vec![in alloc; true; signals]?,
            waiting,
            watchers,
        })
    }

    /// `can_settle` for one target.
    pub fn can_settle(&mut self, alloc: Global, target: u32) -> Result<bool, NoMemory> {
        if target == 0 {
            return Ok(self.order.is_empty());
        }
        self.start();
        for _visit in 0..u64::MAX {
            let Some(place) = self.waiting.take() else {
                return Ok(true);
            };
            let Some(gate) = self.order.get(place as usize).copied() else {
                continue;
            };
            if !self.visit(alloc, target, gate)? {
                return Ok(false);
            }
        }
        Ok(false)
    }

    /// Gives each gate its first label, and lets it wait.
    fn start(&mut self) {
        self.waiting.rewind();
        for (place, gate) in (0..u32::MAX).zip(&self.order) {
            let s = gate.0 as usize;
            let lag = self.most_lags.get(s).copied().unwrap_or(0);
            if let Some(label) = self.labels.get_mut(s) {
                *label = Some(Label { lag, arrival: 1 });
            }
            if let Some(stale) = self.stale.get_mut(s) {
                *stale = true;
            }
            self.waiting.add(place);
        }
    }

    /// Lets the label of a gate fall until there is a cut for it. Where there is none, or less lag than an output needs, the target is
    /// given up: each gate leads to an output.
    fn visit(&mut self, alloc: Global, target: u32, gate: Signal) -> Result<bool, NoMemory> {
        let Some(before) = label_of(&self.labels, gate.0) else {
            return Ok(false);
        };
        let Some((label, cut)) = self.next_cut(alloc, target, gate, before)? else {
            return Ok(false);
        };
        if label.lag < self.needs.get(gate.0 as usize).copied().unwrap_or(0) {
            return Ok(false);
        }
        self.keep(gate, label, cut);
        if label != before {
            self.wake(gate, label);
        }
        Ok(true)
    }

    /// The first label of a gate from one on for which a cut is found, with the cut.
    fn next_cut(
        &self,
        alloc: Global,
        target: u32,
        gate: Signal,
        from: Label,
    ) -> Result<Option<(Label, SmallVec<Node, 8>)>, NoMemory> {
        for lag in (0..=from.lag).rev() {
            let arrival = if lag == from.lag { from.arrival } else { 1 };
            let label = Label { lag, arrival };
            let found = self.cut_at_lag(alloc, target, gate, label)?;
            if found.is_some() {
                return Ok(found);
            }
        }
        Ok(None)
    }

    /// The same at one lag. No cut is served before the worst pin, and the pins themselves are served just after it, so that only one
    /// number is in question.
    fn cut_at_lag(
        &self,
        alloc: Global,
        target: u32,
        gate: Signal,
        from: Label,
    ) -> Result<Option<(Label, SmallVec<Node, 8>)>, NoMemory> {
        let lag = from.lag;
        let mut arrival = from.arrival;
        for pin in self.pins.of(gate) {
            arrival = arrival.max(pin.number(self.base, &self.labels, lag));
        }
        for arrival in [arrival, arrival.saturating_add(1)] {
            if arrival > target {
                return Ok(None);
            }
            let moment = self.moment(arrival.saturating_sub(1));
            if let Some(cut) = moment.merged(alloc, gate, lag)? {
                return Ok(Some((Label { lag, arrival }, cut)));
            }
        }
        Ok(None)
    }

    /// The labels and cuts of now, with a number within which nodes are served in time.
    fn moment(&self, within: u32) -> Moment<'_> {
        Moment {
            base: self.base,
            circuit: self.circuit,
            k: self.k,
            labels: &self.labels,
            cuts: &self.cuts,
            stale: &self.stale,
            within,
        }
    }

    /// Keeps the label and the cut of a gate, which waits no more, and links the leaves of the new cut in the place of the old one's.
    fn keep(&mut self, gate: Signal, label: Label, cut: SmallVec<Node, 8>) {
        let s = gate.0 as usize;
        let first = self.first_leaf(gate);
        if let Some(old) = self.cuts.get(s) {
            for (leaf, node) in (first..u32::MAX).zip(old.as_slice()) {
                self.watchers.remove(node.signal, leaf);
            }
        }
        for (leaf, node) in (first..u32::MAX).zip(cut.as_slice()) {
            self.watchers.add(node.signal, leaf);
        }
        if let Some(kept) = self.cuts.get_mut(s) {
            *kept = cut;
        }
        if let Some(kept) = self.labels.get_mut(s) {
            *kept = Some(label);
        }
        if let Some(stale) = self.stale.get_mut(s) {
            *stale = false;
        }
    }

    /// The number of the first leaf of a gate's cut.
    fn first_leaf(&self, gate: Signal) -> u32 {
        let place = self.places.get(gate.0 as usize).copied();
        place.unwrap_or(u32::MAX).saturating_mul(MOST_LEAVES)
    }

    /// Lets each gate wait in whose cut a gate stands that its new label does not serve in time any more.
    fn wake(&mut self, gate: Signal, label: Label) {
        let mut next = self.watchers.first(gate);
        for _leaf in 0..self.watchers.most() {
            let Some(leaf) = next else {
                return;
            };
            next = self.watchers.next(leaf);
            let place = leaf / MOST_LEAVES;
            if let Some(reader) = self.order.get(place as usize).copied() {
                if self.is_late(reader, (leaf % MOST_LEAVES) as usize, label) {
                    if let Some(stale) = self.stale.get_mut(reader.0 as usize) {
                        *stale = true;
                    }
                    self.waiting.add(place);
                }
            }
        }
    }

    /// Whether a leaf of a gate's cut comes too late with a label for it.
    fn is_late(&self, reader: Signal, leaf: usize, label: Label) -> bool {
        let Some(cut) = self.cuts.get(reader.0 as usize) else {
            return false;
        };
        match (cut.as_slice().get(leaf), label_of(&self.labels, reader.0)) {
            (Some(node), Some(read)) => number_of(Some(label), node.advance) >= read.arrival,
            _ => false,
        }
    }
}

/// The place of each gate in an order.
fn places_by_signal(alloc: Global, signals: usize, order: &[Signal]) -> Result<Vec<u32>, NoMemory> {
    let mut places = vec![in alloc; u32::MAX; signals]?;
    for (place, gate) in (0..u32::MAX).zip(order) {
        if let Some(at) = places.get_mut(gate.0 as usize) {
            *at = place;
        }
    }
    Ok(places)
}

/// The lag that the outputs need of each signal.
fn needs_by_signal(alloc: Global, base: u8, circuit: &Circuit) -> Result<Vec<u8>, NoMemory> {
    let mut needs = vec![in alloc; 0; circuit.signals() as usize]?;
    for output in circuit.outputs() {
        if let Source::Gate(gate) = circuit.source(*output) {
            let need = behind_latches(circuit, *output, base).advance;
            if let Some(at) = needs.get_mut(gate.0 as usize) {
                *at = need.max(*at);
            }
        }
    }
    Ok(needs)
}
