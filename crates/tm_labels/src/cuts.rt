// The present cuts of gates, and who looks at whom.

ghost use Rattle.std.specs.Prelude.{◌≡◌, ℕ, ◌<◌, true, false, [], length, map, Contains, slice_set, slice_index_or, IfOk, OnOk, OnErr};
ghost use Rattle.tm_unroll.specs.declared.node.Node.{Node as NodeValue};
ghost use Rattle.tm_labels.specs.Marks.{is_marked};
ghost use Rattle.tm_labels.specs.Watched.{AreLate, FallsWith};

use crate::watcher::{Moment, Watcher, late_among, prune, watch};
use smallvec::SmallVec;
use std::alloc::Global;
use std::marker::Model;
use tm_bits::NoMemory;
use tm_circuit::{Circuit, Signal};
use tm_replay::Label;
use tm_unroll::Node;

/// The present cuts of the gates of a circuit.
#[derive(Drop)]
pub struct Cuts<'a> {
    alloc: Global,
    circuit: &'a Circuit,
    /// One for each signal, empty where it has none.
    leaves: Vec<SmallVec<Node, 8>>,
    /// Whether the cut of each signal covers no more at the lag of the signal's label.
    stale: Vec<bool>,
    /// The version of each cut. It tells old watchers from new ones, and no more rests on it.
    versions: Vec<u32>,
    /// For each gate the gates whose cuts look at it, and some whose cuts did.
    watchers: Vec<Vec<Watcher>>,
}

impl<'a> Model for Cuts<'a> {
    ghost use Rattle.std.specs.Prelude.{map};
    ghost use Rattle.tm_labels.specs.Watched.{Kept, KeepsCuts};

    ghost Value = { Kept };

    ghost view = { λ a. record { circuit = a.circuit.now; leaves = map (λ cut. cut.items) a.leaves.items; stale = a.stale.items } };

    ghost invariant = { λ a. KeepsCuts a.circuit.now.drives (map (λ cut. cut.items) a.leaves.items) a.stale.items
        a.versions.items (map (λ list. list.items) a.watchers.items) };
}

impl<'a> Cuts<'a> {
    /// No cut of any gate, and all of them stale.
    pub fn new(alloc: Global, circuit: &'a Circuit) -> Result<Self, NoMemory>
        ensures circuit { IfOk result (λ cuts. cuts.circuit ≡ circuit.entry.now) }
        ensures none { IfOk result (λ cuts. (g : ℕ) → slice_index_or cuts.leaves g [] ≡ []) }
        ensures stale { IfOk result (λ cuts. (g : ℕ) → g < length circuit.entry.now.drives → is_marked cuts.stale g ≡ true) }
        ensures sized { IfOk result (λ cuts. (length cuts.leaves ≡ length circuit.entry.now.drives)
            × (length cuts.stale ≡ length circuit.entry.now.drives)) }
    {
        let signals = circuit.signals() as usize;
        let mut leaves = Vec::with_capacity(alloc, signals)?;
        let mut watchers = Vec::with_capacity(alloc, signals)?;
        for _ in 0..signals {
            leaves.push(SmallVec::new(alloc))?;
            watchers.push(Vec::new(alloc))?;
        }
        Ok(Cuts {
            alloc,
            circuit,
            leaves,
            stale: vec![in alloc; true; signals]?,
            versions: vec![in alloc; 0; signals]?,
            watchers,
        })
    }

    /// The circuit of the gates.
    pub fn circuit(&self) -> &'a Circuit
        ensures { result.now ≡ self.now.circuit }
    {
        self.circuit
    }

    /// The cuts, one for each signal.
    pub fn leaves(&self) -> &[SmallVec<Node, 8>]
        ensures { map (λ cut. cut.items) result.now ≡ self.now.leaves }
    {
        &self.leaves
    }

    /// Whether the cut of each signal covers no more at the lag of the signal's label.
    pub fn stale(&self) -> &[bool]
        ensures { result.now ≡ self.now.stale }
    {
        &self.stale
    }

    /// The cuts, without the rest.
    pub fn into_leaves(self) -> Vec<SmallVec<Node, 8>>
        ensures { map (λ cut. cut.items) result.items ≡ self.entry.leaves }
    {
        self.leaves
    }

    /// A gate has a new cut, which covers it at the lag of its label.
    pub fn keep(&mut self, gate: Signal, leaves: SmallVec<Node, 8>) -> Result<(), NoMemory>
        requires gate { gate < length self.old.circuit.drives }
        requires within { (y : NodeValue) → Contains leaves.items y → y.signal < length self.old.circuit.drives }
        ensures circuit { self.new.circuit ≡ self.old.circuit }
        ensures kept { OnOk result ((self.new.leaves ≡ slice_set self.old.leaves gate leaves.items)
            × (self.new.stale ≡ slice_set self.old.stale gate false)) }
        ensures same { OnErr result (self.new ≡ self.old) }
    {
        let place = gate.0 as usize;
        let version = self.versions[place].wrapping_add(1);
        watch(
            self.circuit,
            &mut self.watchers,
            gate,
            version,
            leaves.as_slice(),
        )?;
        self.versions[place] = version;
        put(&mut self.leaves, place, leaves);
        self.stale[place] = false;
        Ok(())
    }

    /// The label of a gate has fallen to the next one below a lag.
    pub fn fall(&mut self, gate: Signal, lag: u8, next: Option<Label>)
        requires { gate < length self.old.circuit.drives }
        ensures { FallsWith gate lag next self.old self.new }
    {
        let place = gate.0 as usize;
        match next {
            None => put(&mut self.leaves, place, SmallVec::new(self.alloc)),
            Some(label) => {
                if label.lag != lag {
                    self.stale[place] = true;
                }
            }
        }
    }

    /// The gates that count and do not wait, and that are served too late now that the label of a gate has fallen.
    pub fn late(
        &mut self,
        base: u8,
        labels: &[Option<Label>],
        counts: &[bool],
        queued: &[bool],
        gate: Signal,
    ) -> Result<Vec<Signal>, NoMemory>
        requires { gate < length self.old.circuit.drives }
        ensures same { self.new ≡ self.old }
        ensures late { IfOk result (λ late. AreLate base self.old.circuit labels.now counts.now queued.now self.old.leaves
            gate late.items) }
    {
        let place = gate.0 as usize;
        prune(&self.versions, &mut self.watchers[place]);
        let _sound = self.circuit.signals();
        let moment = Moment {
            base,
            circuit: self.circuit,
            labels,
            counts,
            queued,
            leaves: &self.leaves,
        };
        late_among(self.alloc, &moment, &self.watchers[place])
    }
}

/// Puts a cut at a place.
fn put(leaves: &mut [SmallVec<Node, 8>], place: usize, cut: SmallVec<Node, 8>)
    requires { place < length leaves.old }
    ensures { map (λ cut. cut.items) leaves.new ≡ slice_set (map (λ cut. cut.items) leaves.old) place cut.items }
{
    leaves[place] = cut;
}
