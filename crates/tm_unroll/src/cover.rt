// Whether the leaves of a table cover its root, by a search that keeps only the nodes that it meets.

ghost use Rattle.std.specs.Prelude.{◌≡◌, ◌↔◌, ℕ, ◌<◌, List, [], ◌∷◌, length, map, Contains, IsTrue, IfOk, IfSome, OnOk, MatchBool, MatchOption};
ghost use Rattle.tm_circuit.specs.Sound.{IsSound};
ghost use Rattle.tm_circuit.specs.Chain.{IsGate};
ghost use Rattle.tm_unroll.specs.declared.node.Node.{Node as NodeValue};
ghost use Rattle.tm_unroll.specs.Nodes.{node_at, reads, is_end};
ghost use Rattle.tm_unroll.specs.Walks.{Covers};
ghost use Rattle.tm_unroll.specs.Falls.{IsLower};
ghost use Rattle.tm_unroll.specs.Mappings.{table_of, root};
ghost use Rattle.tm_unroll.specs.Searches.{met_by, MeetsMore, IsStart, IsBeforeLeaves, IsLowestMissing, IsLowerOf, HasGoneDownTo, TakesUp};

use crate::node::{Lut, Node};
use indexmap::IndexSet;
use std::alloc::Global;
use tm_bits::NoMemory;
use tm_circuit::{Circuit, Driver, Signal};

/// A search from a root along reads, depth first: the nodes that it has met, and those of them that it has still to go
/// through, the next one last. Its memory serves for one table after another.
#[derive(Drop)]
pub struct Search {
    root: Node,
    met: IndexSet<Node>,
    stack: Vec<Node>,
}

/// Whether the leaves of a table cover its root. The search goes behind the leaves only where it has not met all of them
/// before, and then no further than the lowest leaf that is missing.
pub fn covers(search: &mut Search, circuit: &Circuit, lut: &Lut) -> Result<bool, NoMemory>
    requires sound { IsSound circuit.now }
    requires gate { IsGate circuit.now.drives lut.now.gate }
    requires leaves { (x : NodeValue) → Contains lut.now.leaves.items x → x.signal < length circuit.now.drives }
    ensures { IfOk result (λ covers. IsTrue covers
        ↔ Covers circuit.now.drives lut.now.leaves.items (root (table_of lut.now))) }
{
    let leaves = lut.leaves.as_slice();
    search.start(circuit, lut)?;
    if !search.go_before(circuit, leaves)? {
        return Ok(false);
    }
    let Some(floor) = search.lowest_missing(circuit, leaves) else {
        return Ok(true);
    };
    search.go_behind(circuit, leaves, floor)?;
    Ok(search.has_met(leaves))
}

impl Search {
    /// A search that has taken no memory. Each table begins with nothing met, so that any search serves as well.
    pub fn new(alloc: Global) -> Search {
        Search {
            root: Node::default(),
            met: IndexSet::new(alloc),
            stack: Vec::new(alloc),
        }
    }

    /// Begins with the root of a table, and meets what it reads.
    fn start(&mut self, circuit: &Circuit, lut: &Lut) -> Result<(), NoMemory>
        requires gate { IsGate circuit.now.drives lut.now.gate }
        ensures start { OnOk result (IsStart circuit.now.drives self.new) }
        ensures root { OnOk result (self.new.root ≡ root (table_of lut.now)) }
    {
        self.root = Node {
            signal: lut.gate,
            advance: lut.lag,
        };
        // `truncate` removes what was met, where `clear` goes over all places of the set.
        self.met.truncate(0);
        self.stack.clear();
        let root = self.root;
        self.meet_reads(circuit, root)?;
        Ok(())
    }

    /// Goes through the nodes before the leaves, and tells whether each walk from the root meets a leaf.
    fn go_before(&mut self, circuit: &Circuit, leaves: &[Node]) -> Result<bool, NoMemory>
        requires sound { IsSound circuit.now }
        requires start { IsStart circuit.now.drives self.old }
        ensures answer { IfOk result (λ meets. MatchBool meets (IsBeforeLeaves circuit.now.drives leaves.now self.new)
            (¬ Covers circuit.now.drives leaves.now self.old.root)) }
        ensures root { OnOk result (self.new.root ≡ self.old.root) }
    {
        while let Some(node) = self.stack.pop() {
            if !leaves.contains(&node) {
                if is_end(circuit, node) {
                    return Ok(false);
                }
                self.meet_reads(circuit, node)?;
            }
        }
        Ok(true)
    }

    /// The lowest of the leaves that were not met, in the pair of advance and rank.
    fn lowest_missing(&self, circuit: &Circuit, leaves: &[Node]) -> Option<Node>
        requires { (x : NodeValue) → Contains leaves.now x → x.signal < length circuit.now.drives }
        ensures { MatchOption result ((x : NodeValue) → Contains leaves.now x → Contains (met_by self.now) x)
            (IsLowestMissing circuit.now leaves.now self.now) }
    {
        let mut lowest = None;
        for leaf in leaves {
            if !self.met.contains(leaf) {
                lowest = Some(lower_of(circuit, lowest, *leaf));
            }
        }
        lowest
    }

    /// Goes through the leaves that were met, and behind them through all that may reach a node no lower than the floor.
    fn go_behind(&mut self, circuit: &Circuit, leaves: &[Node], floor: Node) -> Result<(), NoMemory>
        requires sound { IsSound circuit.now }
        requires floor { floor.signal < length circuit.now.drives }
        requires before { IsBeforeLeaves circuit.now.drives leaves.now self.old }
        ensures { OnOk result (HasGoneDownTo circuit.now floor self.old self.new) }
    {
        self.take_up(leaves)?;
        while let Some(node) = self.stack.pop() {
            if is_lower(circuit, &floor, &node) {
                self.meet_reads(circuit, node)?;
            }
        }
        Ok(())
    }

    /// Puts the leaves that were met on the stack.
    fn take_up(&mut self, leaves: &[Node]) -> Result<(), NoMemory>
        ensures { OnOk result (TakesUp leaves.now self.old self.new) }
    {
        for leaf in leaves {
            if self.met.contains(leaf) {
                self.stack.push(*leaf)?;
            }
        }
        Ok(())
    }

    /// Whether all of some nodes were met.
    fn has_met(&self, nodes: &[Node]) -> bool
        ensures { IsTrue result ↔ ((x : NodeValue) → Contains nodes.now x → Contains (met_by self.now) x) }
    {
        for node in nodes {
            if !self.met.contains(node) {
                return false;
            }
        }
        true
    }

    /// Meets what a node reads.
    fn meet_reads(&mut self, circuit: &Circuit, node: Node) -> Result<(), NoMemory>
        requires { node.signal < length circuit.now.drives }
        ensures { OnOk result (MeetsMore (reads circuit.now.drives node) self.old self.new) }
    {
        match circuit.driver(node.signal) {
            Driver::Input => Ok(()),
            Driver::Latch { next, .. } => {
                if node.advance == 0 {
                    return Ok(());
                }
                self.meet(*next, node.advance - 1)
            }
            Driver::Gate { pins, .. } => self.meet_pins(pins.as_slice(), node.advance),
        }
    }

    /// Meets some signals at one advance.
    fn meet_pins(&mut self, pins: &[Signal], advance: u8) -> Result<(), NoMemory>
        ensures { OnOk result (MeetsMore (map (λ p. node_at advance p) pins.now) self.old self.new) }
    {
        for pin in pins {
            self.meet(*pin, advance)?;
        }
        Ok(())
    }

    /// Meets a signal at an advance. Where this node was not met before it goes on the stack.
    fn meet(&mut self, signal: Signal, advance: u8) -> Result<(), NoMemory>
        ensures { OnOk result (MeetsMore (node_at advance signal ∷ []) self.old self.new) }
    {
        let is_new = self.met.insert(Node { signal, advance })?;
        if is_new {
            self.stack.push(Node { signal, advance })?;
        }
        Ok(())
    }
}

/// Whether a node is an end: an input, or a latch with no advance to spend.
fn is_end(circuit: &Circuit, node: Node) -> bool
    requires { node.signal < length circuit.now.drives }
    ensures { result ≡ is_end circuit.now.drives node }
{
    match circuit.driver(node.signal) {
        Driver::Input => true,
        Driver::Latch { .. } => node.advance == 0,
        Driver::Gate { .. } => false,
    }
}

/// Whether a node is lower than another: by its advance, and at the same advance by its rank. Along reads nodes become
/// lower, so that a node reaches only nodes that are lower.
fn is_lower(circuit: &Circuit, node: &Node, other: &Node) -> bool
    requires node { node.now.signal < length circuit.now.drives }
    requires other { other.now.signal < length circuit.now.drives }
    ensures { IsTrue result ↔ IsLower circuit.now node.now other.now }
{
    node.advance < other.advance
        || (node.advance == other.advance && circuit.rank(node.signal) < circuit.rank(other.signal))
}

/// The lower of two nodes, where there is a first one.
fn lower_of(circuit: &Circuit, first: Option<Node>, second: Node) -> Node
    requires first { IfSome first (λ x. x.signal < length circuit.now.drives) }
    requires second { second.signal < length circuit.now.drives }
    ensures { IsLowerOf circuit.now first second result }
{
    let Some(first) = first else {
        return second;
    };
    if is_lower(circuit, &second, &first) {
        second
    } else {
        first
    }
}
