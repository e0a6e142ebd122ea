// The tests of a table by itself: its place among the tables, and the kinds and order of its leaves.

ghost use Rattle.std.specs.Prelude.{◌↔◌, ℕ, ◌≤◌, length, map, AllPairs, Contains, IsTrue};
ghost use Rattle.tm_circuit.specs.Chain.{IsGate};
ghost use Rattle.tm_unroll.specs.Nodes.{IsBefore};
ghost use Rattle.tm_unroll.specs.Mappings.{table_of, IsLeaf, HasLeaves};
ghost use Rattle.tm_unroll.specs.Faults.{HasLawfulRoot};
ghost use Rattle.tm_unroll.specs.Lookups.{ComesAfter};
ghost use Rattle.tm_unroll.specs.declared.node.Node.{Node as NodeValue};

use crate::node::{Lut, Node};
use tm_circuit::{Circuit, Driver, Signal};

/// Whether the gate of a table is a gate and greater than that of the table before the place, and its lag is at most `d`.
pub fn is_placed(circuit: &Circuit, d: u8, luts: &[Lut], place: usize, lut: &Lut) -> bool
    requires { place ≤ length luts.now }
    ensures { IsTrue result ↔ HasLawfulRoot circuit.now d (map table_of luts.now) place (table_of lut.now) }
{
    lut.lag <= d && is_gate(circuit, lut.gate) && is_after(luts, place, lut.gate)
}

/// Whether a gate is greater than that of the table before the place.
fn is_after(luts: &[Lut], place: usize, gate: Signal) -> bool
    requires { place ≤ length luts.now }
    ensures { IsTrue result ↔ ComesAfter (map table_of luts.now) place gate }
{
    if place == 0 {
        return true;
    }
    luts[place - 1].gate < gate
}

/// Whether a number is that of a gate.
fn is_gate(circuit: &Circuit, s: Signal) -> bool
    ensures { IsTrue result ↔ IsGate circuit.now.drives s }
{
    if s.0 >= circuit.signals() {
        return false;
    }
    match circuit.driver(s) {
        Driver::Gate { .. } => true,
        Driver::Input | Driver::Latch { .. } => false,
    }
}

/// Whether the leaves of a table are at most `k`, ascend strictly, and are leaves.
pub fn has_leaves(circuit: &Circuit, k: u8, lut: &Lut) -> bool
    ensures { IsTrue result ↔ HasLeaves 0 circuit.now.drives k (table_of lut.now) }
{
    let leaves = lut.leaves.as_slice();
    leaves.len() <= k as usize && is_ascending(leaves) && are_leaves(circuit, lut.lag, leaves)
}

/// Whether nodes ascend strictly.
fn is_ascending(nodes: &[Node]) -> bool
    ensures { IsTrue result ↔ AllPairs IsBefore nodes.now }
{
    for place in 1..nodes.len() {
        if !nodes[place - 1].is_before(nodes[place]) {
            return false;
        }
    }
    true
}

/// Whether each node is a leaf of a table with this lag.
fn are_leaves(circuit: &Circuit, lag: u8, nodes: &[Node]) -> bool
    ensures { IsTrue result ↔ ((x : NodeValue) → Contains nodes.now x → IsLeaf 0 circuit.now.drives lag x) }
{
    for node in nodes {
        if !is_leaf(circuit, lag, *node) {
            return false;
        }
    }
    true
}

/// Whether a node is a leaf of a table with this lag: a gate at most as far ahead, or an input or a latch at advance 0.
fn is_leaf(circuit: &Circuit, lag: u8, node: Node) -> bool
    ensures { IsTrue result ↔ IsLeaf 0 circuit.now.drives lag node }
{
    if node.signal.0 >= circuit.signals() {
        return false;
    }
    match circuit.driver(node.signal) {
        Driver::Gate { .. } => node.advance <= lag,
        Driver::Input | Driver::Latch { .. } => node.advance == 0,
    }
}
