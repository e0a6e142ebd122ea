// Cuts that are merged of other cuts.
//
// Nodes are taken in one by one, those that are served in time as leaves in their order, the others on a stack of nodes that have
// still to be replaced. A table has at most 8 leaves, so both stay where the merge is, and nothing is allocated or hashed.

ghost use Rattle.std.specs.Prelude.{◌≡◌, ◌<◌, ◌≤◌, ◌∷◌, [], length, map, true, false, slice_index_or, All, AllPairs, IfOk, IfSome, IsTrue};
ghost use Rattle.tm_circuit.specs.Chain.{IsGate};
ghost use Rattle.tm_unroll.specs.Nodes.{node_at, IsBefore};
ghost use Rattle.tm_unroll.specs.Latches.{behind_latches};
ghost use Rattle.tm_unroll.specs.Replaced.{PartsAt, Joins};
ghost use Rattle.tm_merge.specs.Cuts.{IsCutWithin, HaveCovers};
ghost use Rattle.tm_merge.specs.Merges.{in_time, AreLeaves, HasOneMore, TakesIn, TakesReads, IsKeptFor, IsMerged};

use smallvec::SmallVec;
use std::alloc::Global;
use tm_bits::NoMemory;
use tm_circuit::{Circuit, Driver, Signal};
use tm_replay::{Label, serves_from};
use tm_unroll::Node;

/// The most nodes that a merge replaces. A kept cut that is not stale is served before its gate, so that few merges come near it.
const MOST_ROUNDS: u32 = 64;

/// The most nodes that may wait to be replaced, which is for how many there is room.
const MOST_LATE: usize = 8;

/// A cut of a gate at a lag within a number, of at most `k` leaves, merged of its pins and the kept cuts of other gates: a pin that is
/// not served within the number is replaced by what it reads behind a latch, or by the cut of its gate where the gate's label has
/// just its lag and its cut is not left out as stale, and so on. `None` says that this found no cut.
pub fn merge(
    alloc: Global,
    base: u8,
    circuit: &Circuit,
    k: u8,
    labels: &[Option<Label>],
    cuts: &[SmallVec<Node, 8>],
    stale: &[bool],
    gate: Signal,
    lag: u8,
    within: u32,
) -> Result<Option<SmallVec<Node, 8>>, NoMemory>
    requires few { k ≤ 8 }
    requires gate { IsGate circuit.now.drives gate }
    requires sized { (length labels.now ≡ length circuit.now.drives) × (length cuts.now ≡ length circuit.now.drives)
        × (length stale.now ≡ length circuit.now.drives) }
    requires cuts { HaveCovers circuit.now k labels.now (λ g. slice_index_or stale.now g false ≡ true)
        (map (λ cut. cut.items) cuts.now) }
    ensures { IfOk result (λ found. IfSome found (λ leaves.
        IsCutWithin base circuit.now k labels.now within (node_at lag gate) leaves.items)) }
{
    let moment = Moment {
        base,
        circuit,
        k,
        labels,
        cuts,
        stale,
        within,
    };
    moment.merged(alloc, gate, lag)
}

/// Labels and present cuts as they are at a moment, and when a node counts as served in time.
#[derive(Clone, Copy)]
pub(crate) struct Moment<'a> {
    /// The advance that stands for the present.
    pub base: u8,
    pub circuit: &'a Circuit,
    /// The most leaves of a cut.
    pub k: u8,
    pub labels: &'a [Option<Label>],
    pub cuts: &'a [SmallVec<Node, 8>],
    /// The gates whose cuts are left out.
    pub stale: &'a [bool],
    /// The number within which a node is in time.
    pub within: u32,
}

/// A merge under way: leaves that are served in time, in ascending order, and nodes that have still to be replaced.
#[derive(Drop)]
struct Merging {
    leaves: SmallVec<Node, 8>,
    late: SmallVec<Node, 8>,
}

impl Moment<'_> {
    /// `merge`, whatever the kept cuts are: what is found is a cut where they are covers. Nothing is found of what is no gate.
    pub(crate) fn merged(
        &self,
        alloc: Global,
        gate: Signal,
        lag: u8,
    ) -> Result<Option<SmallVec<Node, 8>>, NoMemory>
        ensures { IfOk result (λ found. IfSome found (λ leaves. IsMerged self.now (node_at lag gate) leaves.items)) }
    {
        let mut merging = Merging::new(alloc);
        if !self.add_reads(&mut merging, gate, lag)? {
            return Ok(None);
        }
        for _round in 0..MOST_ROUNDS {
            let Some(node) = merging.late.pop() else {
                return Ok(Some(merging.leaves));
            };
            let Some(cut) = self.cut_of(node) else {
                return Ok(None);
            };
            if !self.add_all(&mut merging, cut)? {
                return Ok(None);
            }
        }
        Ok(None)
    }

    /// Takes in what a gate reads at a lag, behind latches, and tells whether it is a gate and there is room.
    fn add_reads(&self, merging: &mut Merging, gate: Signal, lag: u8) -> Result<bool, NoMemory>
        requires { AreLeaves self.now merging.old.leaves.items }
        ensures { IfOk result (λ added. IsTrue added → TakesReads self.now gate lag merging.old merging.new) }
    {
        if gate.0 >= self.circuit.signals() {
            return Ok(false);
        }
        match self.circuit.driver(gate) {
            Driver::Gate { pins, .. } => self.add_pins(merging, pins.as_slice(), lag),
            Driver::Input | Driver::Latch { .. } => Ok(false),
        }
    }

    /// Takes in the nodes behind latches from some signals at a lag, and tells whether there is room.
    fn add_pins(&self, merging: &mut Merging, pins: &[Signal], lag: u8) -> Result<bool, NoMemory>
        requires signals { All (λ p. p < length self.now.circuit.now.drives) pins.now }
        requires leaves { AreLeaves self.now merging.old.leaves.items }
        ensures { IfOk result (λ added. IsTrue added → TakesIn self.now
            (map (λ p. behind_latches self.now.circuit.now.drives lag p) pins.now) merging.old merging.new) }
    {
        for pin in pins {
            let node = behind_latches(self.circuit, *pin, lag);
            if !self.add(merging, &node)? {
                return Ok(false);
            }
        }
        Ok(true)
    }

    /// Takes in some nodes, and tells whether there is room for them.
    fn add_all(&self, merging: &mut Merging, nodes: &[Node]) -> Result<bool, NoMemory>
        requires { AreLeaves self.now merging.old.leaves.items }
        ensures { IfOk result (λ added. IsTrue added → TakesIn self.now nodes.now merging.old merging.new) }
    {
        for node in nodes {
            if !self.add(merging, node)? {
                return Ok(false);
            }
        }
        Ok(true)
    }

    /// Takes in a node, and tells whether there is room for it.
    fn add(&self, merging: &mut Merging, node: &Node) -> Result<bool, NoMemory>
        requires { AreLeaves self.now merging.old.leaves.items }
        ensures { IfOk result (λ added. IsTrue added → TakesIn self.now (node.now ∷ []) merging.old merging.new) }
    {
        if self.is_in_time(node) {
            merging.add_leaf(self.k, *node)
        } else {
            merging.add_late(*node)
        }
    }

    /// Whether a node is served within the number.
    fn is_in_time(&self, node: &Node) -> bool
        ensures { IsTrue result → in_time self.now node.now ≡ true }
    {
        node.signal.0 < self.circuit.signals()
            && serves_from(self.base, self.circuit, self.labels, *node, self.within)
    }

    /// The cut of the gate of a node, where its label has just the node's advance and its cut is not left out.
    fn cut_of(&self, node: Node) -> Option<&[Node]>
        ensures { IfSome result (λ cut. IsKeptFor self.now node cut.now) }
    {
        let gate = node.signal.0 as usize;
        let label = self.labels.get(gate).copied().flatten()?;
        if label.lag != node.advance || gate >= self.stale.len() || gate >= self.cuts.len() {
            return None;
        }
        if self.stale[gate] {
            return None;
        }
        Some(self.cuts[gate].as_slice())
    }
}

impl Merging {
    /// Nothing is taken in yet.
    fn new(alloc: Global) -> Merging
        ensures leaves { result.leaves.items ≡ [] }
        ensures late { result.late.items ≡ [] }
    {
        Merging {
            leaves: SmallVec::new(alloc),
            late: SmallVec::new(alloc),
        }
    }

    /// Puts a leaf at its place, unless it stands there, and tells whether there is room for it among `k`.
    fn add_leaf(&mut self, k: u8, node: Node) -> Result<bool, NoMemory>
        requires ascending { AllPairs IsBefore self.old.leaves.items }
        requires few { length self.old.leaves.items ≤ k }
        ensures leaves { IfOk result (λ added. IsTrue added → Joins (λ z. node ≡ z) k self.old.leaves.items self.new.leaves.items) }
        ensures late { self.new.late.items ≡ self.old.late.items }
    {
        if self.leaves.as_slice().contains(&node) {
            return Ok(true);
        }
        if self.leaves.len() >= k as usize {
            return Ok(false);
        }
        let place = count_before(self.leaves.as_slice(), &node);
        self.leaves.insert(place, node)?;
        Ok(true)
    }

    /// Puts a node on the stack of those that have still to be replaced, unless it stands there, and tells whether there is room
    /// for it.
    fn add_late(&mut self, node: Node) -> Result<bool, NoMemory>
        ensures late { IfOk result (λ added. IsTrue added → HasOneMore node self.old.late.items self.new.late.items) }
        ensures leaves { self.new.leaves.items ≡ self.old.leaves.items }
    {
        if self.late.as_slice().contains(&node) {
            return Ok(true);
        }
        if self.late.len() >= MOST_LATE {
            return Ok(false);
        }
        self.late.push(node)?;
        Ok(true)
    }
}

/// The node to which latches lead from a signal at an advance, with one advance less for each.
pub fn behind_latches(circuit: &Circuit, s: Signal, advance: u8) -> Node
    requires { s < length circuit.now.drives }
    ensures { result ≡ behind_latches circuit.now.drives advance s }
{
    let _sound = circuit.signals();
    let mut node = Node { signal: s, advance };
    for _latch in 0..advance {
        let Driver::Latch { next, .. } = circuit.driver(node.signal) else {
            return node;
        };
        node = Node {
            signal: *next,
            advance: node.advance - 1,
        };
    }
    node
}

/// How many of the nodes stand before one.
fn count_before(ascending: &[Node], node: &Node) -> usize
    requires { AllPairs IsBefore ascending.now }
    ensures { PartsAt ascending.now node.now result }
{
    for (place, other) in ascending.iter().enumerate() {
        if !other.is_before(*node) {
            return place;
        }
    }
    ascending.len()
}
