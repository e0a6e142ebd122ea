// One settling under way.

ghost use Rattle.std.specs.Prelude.{◌≡◌, ◌≤◌, ◌<◌, ◌-◌, true, length, map, replicate, IfOk, OnOk, OnErr};
ghost use Rattle.tm_bits.specs.Limits.{most_inputs};
ghost use Rattle.tm_circuit.specs.Plain.{widest};
ghost use Rattle.tm_unroll.specs.Nodes.{node_at};
ghost use Rattle.tm_replay.specs.Labels.{label_in};
ghost use Rattle.tm_replay.specs.Replays.{drop_of, IsLawfulDrop};
ghost use Rattle.tm_merge.specs.Cuts.{IsCutWithin};
ghost use Rattle.tm_labels.specs.Marks.{is_marked};
ghost use Rattle.tm_labels.specs.Watched.{Wakes};
ghost use Rattle.tm_labels.specs.Steps.{IsStep};
ghost use Rattle.tm_labels.specs.Working.{IsWorking, IsSameWork, IsTurn, IsLeaving, IsLowering, IsBegun, settling_of};

use crate::cuts::Cuts;
use crate::find::{Step, find};
use crate::first::first_labels;
use crate::lasts::Lasts;
use crate::marks::{is_marked, label_of};
use crate::order::Order;
use crate::queue::Queue;
use crate::searches::Searches;
use crate::settled::Settled;
use smallvec::SmallVec;
use std::alloc::Global;
use std::marker::Model;
use tm_bits::NoMemory;
use tm_circuit::{Circuit, Signal};
use tm_inherit::Aim;
use tm_merge::greatest_lags;
use tm_replay::{Label, Lowering};
use tm_unroll::Node;

/// One settling under way: labels, the drops that led to them, and a queue of gates. Each gate out of the queue that has a label has
/// a cut that is served in time.
#[derive(Drop)]
pub struct Work<'a> {
    alloc: Global,
    base: u8,
    k: u8,
    d: u8,
    target: u32,
    /// Whether each signal counts: others keep their first labels.
    counts: Vec<bool>,
    /// One for each signal.
    labels: Vec<Option<Label>>,
    drops: Vec<Lowering>,
    lasts: Lasts,
    cuts: Cuts<'a>,
    queue: Queue,
    searches: Searches,
}

impl<'a> Model for Work<'a> {
    ghost use Rattle.tm_labels.specs.Working.{Working};

    ghost Value = { Working };

    ghost use Rattle.tm_labels.specs.Keeping.{working_of, IsKept};

    ghost view = { working_of };

    ghost invariant = { IsKept };
}

impl<'a> Work<'a> {
    /// The first labels, no drop, and every gate in the queue.
    pub fn new(
        alloc: Global,
        circuit: &'a Circuit,
        k: u8,
        d: u8,
        target: u32,
    ) -> Result<Work<'a>, NoMemory>
        requires few { (2 ≤ k) × (k ≤ most_inputs) }
        requires near { d ≤ 8 }
        requires narrow { widest circuit.now.drives ≤ k }
        requires target { target ≤ 100000 }
        ensures { IfOk result (IsBegun 0 circuit.entry.now k d target (replicate (length circuit.entry.now.drives) true)) }
    {
        let counts = vec![in alloc; true; circuit.signals() as usize]?;
        Work::over(alloc, 0, circuit, k, d, target, counts, Vec::new(alloc))
    }

    /// The same over the gates that count, with a base, the advance that stands for the present. Where a gate has lost its label, the
    /// one comes first to which it leads by the last list.
    pub(crate) fn over(
        alloc: Global,
        base: u8,
        circuit: &'a Circuit,
        k: u8,
        d: u8,
        target: u32,
        counts: Vec<bool>,
        towards: Vec<u32>,
    ) -> Result<Work<'a>, NoMemory>
        requires few { (2 ≤ k) × (k ≤ most_inputs) }
        requires base { base ≤ 8 }
        requires near { d ≤ 16 }
        requires narrow { widest circuit.now.drives ≤ k }
        requires target { target ≤ 100000 }
        requires sized { length counts.items ≡ length circuit.now.drives }
        ensures { IfOk result (IsBegun base circuit.entry.now k d target counts.items) }
    {
        let labels = first_labels(alloc, circuit, d, target)?;
        let foreseen = greatest_lags(alloc, base, circuit, d, &counts)?;
        let order = Order::new(alloc, circuit, foreseen, towards)?;
        let queue = Queue::new(alloc, circuit, &labels, &counts, order)?;
        let cuts = Cuts::new(alloc, circuit)?;
        let lasts = Lasts::new(alloc, circuit.signals(), d)?;
        Ok(Work {
            alloc,
            base,
            k,
            d,
            target,
            counts,
            labels,
            drops: Vec::new(alloc),
            lasts,
            cuts,
            queue,
            searches: Searches::new(alloc),
        })
    }

    /// Whether a signal is in the queue.
    pub fn queued(&self, s: Signal) -> bool
        requires { s < length self.now.circuit.drives }
        ensures queued { result ≡ is_marked self.now.queued s }
        ensures working { IsWorking self.now }
    {
        is_marked(self.queue.queued(), s)
    }

    /// The label of a signal, where it has one.
    pub fn label(&self, s: Signal) -> Option<Label>
        requires { s < length self.now.circuit.drives }
        ensures label { result ≡ label_in self.now.labels s }
        ensures working { IsWorking self.now }
    {
        label_of(&self.labels, s)
    }

    /// The labels, one for each signal.
    pub fn labels(&self) -> &[Option<Label>]
        ensures { result.now ≡ self.now.labels }
    {
        &self.labels
    }

    /// The drops, in the order in which they were made.
    pub fn drops(&self) -> &[Lowering]
        ensures drops { map drop_of result.now ≡ self.now.drops }
        ensures working { IsWorking self.now }
    {
        &self.drops
    }

    /// How many searches for a cut or for walks were made: those visits in which merging found no cut and no walks were taken over.
    /// Nothing is promised of this number.
    pub fn searches(&self) -> u64 {
        self.searches.made
    }

    /// One turn: `false` where the queue is empty. Else one gate leaves the queue, or one drop is added, which may bring gates into
    /// the queue. After `NoMemory` all is as before.
    pub fn turn(&mut self) -> Result<bool, NoMemory>
        ensures turn { IfOk result (IsTurn self.old self.new) }
        ensures same { OnErr result (IsSameWork self.old self.new) }
    {
        let Some(gate) = self.queue.first() else {
            return Ok(false);
        };
        let Some(label) = label_of(&self.labels, gate) else {
            self.queue.leave_lost(gate);
            return Ok(true);
        };
        match self.visit(gate, label)? {
            Step::Cut(leaves) => self.keep(gate, label, leaves)?,
            Step::Refused(refusal) => self.lower(Lowering {
                gate,
                lag: label.lag,
                arrival: refusal.arrival,
                walks: refusal.walks,
            })?,
        }
        Ok(true)
    }

    /// A cut of a gate at its label, or walks that show that it has none, before its arrival or before a later one.
    fn visit(&mut self, gate: Signal, label: Label) -> Result<Step, NoMemory>
        requires { label_in self.old.labels gate ≡ Some label }
        ensures same { self.new ≡ self.old }
        ensures step { IfOk result (IsStep self.old.base self.old.circuit self.old.k self.old.labels label.arrival self.old.target
            (node_at label.lag gate)) }
    {
        let aim = Aim {
            base: self.base,
            k: self.k,
            gate,
            lag: label.lag,
            arrival: label.arrival,
            target: self.target,
        };
        find(
            self.alloc,
            &mut self.searches,
            self.cuts.circuit(),
            &self.labels,
            self.cuts.leaves(),
            self.cuts.stale(),
            &self.drops,
            &self.lasts,
            &aim,
        )
    }

    /// A gate leaves the queue with a cut.
    fn keep(
        &mut self,
        gate: Signal,
        label: Label,
        leaves: SmallVec<Node, 8>,
    ) -> Result<(), NoMemory>
        requires has { label_in self.old.labels gate ≡ Some label }
        requires waits { is_marked self.old.queued gate ≡ true }
        requires cut { IsCutWithin self.old.base self.old.circuit self.old.k self.old.labels (label.arrival - 1)
            (node_at label.lag gate) leaves.items }
        ensures leaves { OnOk result (IsLeaving gate self.old self.new) }
        ensures same { OnErr result (IsSameWork self.old self.new) }
    {
        let _sound = self.cuts.circuit().signals();
        self.cuts.keep(gate, leaves)?;
        self.queue.leave(gate);
        Ok(())
    }

    /// A drop is made: the label of its gate falls, and the gates come into the queue that are served too late by that.
    fn lower(&mut self, drop: Lowering) -> Result<(), NoMemory>
        requires lawful { IsLawfulDrop self.old.base self.old.circuit self.old.k self.old.target self.old.labels (drop_of drop) }
        requires waits { is_marked self.old.queued drop.gate ≡ true }
        ensures lowers { OnOk result (IsLowering (drop_of drop) self.old self.new) }
        ensures same { OnErr result (IsSameWork self.old self.new) }
    {
        let _sound = self.cuts.circuit().signals();
        self.drops.reserve(1)?;
        let gate = drop.gate;
        let lag = drop.lag;
        let arrival = drop.arrival;
        let place = gate.0 as usize;
        let label = Label { lag, arrival };
        let next = label.next_below(self.target);
        let before = self.labels[place];
        self.labels[place] = next;
        let woken = wake(
            self.base,
            &self.labels,
            &self.counts,
            &mut self.cuts,
            &mut self.queue,
            gate,
        );
        match woken {
            Err(refused) => {
                self.labels[place] = before;
                Err(refused)
            }
            Ok(()) => {
                self.cuts.fall(gate, lag, next);
                self.lasts.note(gate, lag, self.drops.len());
                self.queue.fall(self.cuts.circuit(), &self.labels, gate);
                // There is room for it.
                let _ = self.drops.push(drop);
                Ok(())
            }
        }
    }

    /// What is left of the settling.
    pub(crate) fn into_settled(self) -> Settled
        ensures settling { result ≡ settling_of self.entry }
        ensures working { IsWorking self.entry }
    {
        Settled::of(
            self.target,
            self.labels,
            self.drops,
            self.cuts.into_leaves(),
        )
    }
}

/// The gates come into the queue that are served too late now that the label of a gate has fallen.
fn wake(
    base: u8,
    labels: &[Option<Label>],
    counts: &[bool],
    cuts: &mut Cuts<'_>,
    queue: &mut Queue,
    gate: Signal,
) -> Result<(), NoMemory>
    requires gate { gate < length cuts.old.circuit.drives }
    requires sized { (length queue.old ≡ length cuts.old.circuit.drives) × (length counts.now ≡ length cuts.old.circuit.drives) }
    ensures cuts { cuts.new ≡ cuts.old }
    ensures wakes { OnOk result (Wakes base cuts.old.circuit labels.now counts.now cuts.old.leaves gate queue.old queue.new) }
    ensures same { OnErr result (queue.new ≡ queue.old) }
{
    let late = cuts.late(base, labels, counts, queue.queued(), gate)?;
    queue.enter(cuts.circuit(), labels, &late)
}
