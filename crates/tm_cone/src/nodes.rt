// The nodes between the root of a table and its leaves, and an order in which each comes after all that it reads.

ghost use Rattle.std.specs.Prelude.{◌≡◌, ◌<◌, [], ◌∷◌, length, map, All, IfOk, OnOk};
ghost use Rattle.std.specs.List.Sorted.{IsPermutation};
ghost use Rattle.tm_circuit.specs.Sound.{IsSound};
ghost use Rattle.tm_unroll.specs.Nodes.{node_at, reads};
ghost use Rattle.tm_unroll.specs.Falls.{height};
ghost use Rattle.tm_cone.specs.Values.{IsGuarded, IsCone};
ghost use Rattle.tm_cone.specs.Searches.{Meets, AscendInHeight};

use indexmap::IndexSet;
use std::alloc::Global;
use tm_bits::NoMemory;
use tm_circuit::{Circuit, Driver, Signal};
use tm_unroll::Node;

/// A node with its height, which falls along reads.
#[derive(Clone, Copy)]
pub struct Step {
    height: u64,
    pub node: Node,
}

/// The nodes from a root down to leaves, each once. The set is gone through in the order in which it grows.
pub fn cone_nodes(
    alloc: Global,
    circuit: &Circuit,
    leaves: &[Node],
    root: Node,
) -> Result<IndexSet<Node>, NoMemory>
    requires sound { IsSound circuit.now }
    requires root { root.signal < length circuit.now.drives }
    requires guarded { IsGuarded circuit.now.drives leaves.now root }
    ensures { IfOk result (λ met. IsCone circuit.now.drives leaves.now root met.keys) }
{
    let mut met = IndexSet::new(alloc);
    met.insert(root)?;
    let mut gone = 0;
    while let Some(node) = met.get_index(gone).copied() {
        if !leaves.contains(&node) {
            meet_reads(&mut met, circuit, node)?;
        }
        gone += 1;
    }
    Ok(met)
}

/// Meets what a node reads.
fn meet_reads(met: &mut IndexSet<Node>, circuit: &Circuit, node: Node) -> Result<(), NoMemory>
    requires { node.signal < length circuit.now.drives }
    ensures { OnOk result (Meets (reads circuit.now.drives node) met.old.keys met.new.keys) }
{
    match circuit.driver(node.signal) {
        Driver::Input => Ok(()),
        Driver::Latch { next, .. } => {
            if node.advance == 0 {
                return Ok(());
            }
            meet(met, *next, node.advance - 1)
        }
        Driver::Gate { pins, .. } => meet_pins(met, pins.as_slice(), node.advance),
    }
}

/// Meets some signals at one advance.
fn meet_pins(met: &mut IndexSet<Node>, pins: &[Signal], advance: u8) -> Result<(), NoMemory>
    ensures { OnOk result (Meets (map (λ p. node_at advance p) pins.now) met.old.keys met.new.keys) }
{
    for pin in pins {
        meet(met, *pin, advance)?;
    }
    Ok(())
}

/// Meets a signal at an advance.
fn meet(met: &mut IndexSet<Node>, signal: Signal, advance: u8) -> Result<(), NoMemory>
    ensures { OnOk result (Meets (node_at advance signal ∷ []) met.old.keys met.new.keys) }
{
    met.insert(Node { signal, advance })?;
    Ok(())
}

/// The nodes in ascending order of their heights, so that each comes after all that it reads.
pub fn in_order(alloc: Global, circuit: &Circuit, nodes: &[Node]) -> Result<Vec<Step>, NoMemory>
    requires { All (λ x. x.signal < length circuit.now.drives) nodes.now }
    ensures nodes { IfOk result (λ steps. IsPermutation nodes.now (map (λ step. step.node) steps.items)) }
    ensures order { IfOk result (λ steps. AscendInHeight circuit.now (map (λ step. step.node) steps.items)) }
{
    let mut steps = Vec::with_capacity(alloc, nodes.len())?;
    for node in nodes {
        let height = height(circuit, node);
        steps.push(Step {
            height,
            node: *node,
        })?;
    }
    steps.sort_unstable_by_key(|step| step.height);
    Ok(steps)
}

/// The height of a node: the pair of advance and rank as one number.
fn height(circuit: &Circuit, node: &Node) -> u64
    requires { node.now.signal < length circuit.now.drives }
    ensures { result ≡ height circuit.now node.now }
{
    u64::from(node.advance) * (u64::from(circuit.gates()) + 1)
        + u64::from(circuit.rank(node.signal))
}
