// The words of the nodes of a cone, worked out from the leaves up.

ghost use Rattle.std.specs.Prelude.{◌≡◌, ◌<◌, ◌≤◌, Some, false, length, map, slice_get, Contains, IfOk, MatchOption};
ghost use Rattle.tm_bits.specs.Limits.{most_inputs};
ghost use Rattle.tm_circuit.specs.Plain.{drive_in};
ghost use Rattle.tm_unroll.specs.Nodes.{node_at, reads, is_end};
ghost use Rattle.tm_cone.specs.Cones.{asked_of};
ghost use Rattle.tm_cone.specs.Values.{HaveBits, HasWordsFor, AreValues, IsInOrder, bits_on, words_in};

use crate::covers::cover_lanes;
use crate::nodes::Step;
use crate::words::{Lanes, Words, place_words};
use indexmap::IndexMap;
use smallvec::SmallVec;
use std::alloc::Global;
use tm_bits::NoMemory;
use tm_circuit::{Circuit, Driver, Signal};
use tm_unroll::Node;

/// The words of each node of a cone, where a node comes after all that it reads.
pub fn cone_values(
    alloc: Global,
    circuit: &Circuit,
    leaves: &[Node],
    steps: &[Step],
) -> Result<IndexMap<Node, Words>, NoMemory>
    requires few { length leaves.now ≤ most_inputs }
    requires order { IsInOrder circuit.now.drives leaves.now (map (λ step. step.node) steps.now) }
    ensures { IfOk result (λ values. AreValues circuit.now.drives leaves.now (map (λ step. step.node) steps.now) values) }
{
    let mut values = IndexMap::with_capacity(alloc, steps.len())?;
    for step in steps {
        let words = match leaf_index(leaves, &step.node) {
            Some(index) => place_words((leaves.len() - 1 - index) as u8),
            None => node_words(alloc, circuit, &values, step.node)?,
        };
        values.insert(step.node, words)?;
    }
    Ok(values)
}

/// The place of a node among the leaves.
fn leaf_index(leaves: &[Node], node: &Node) -> Option<usize>
    ensures { MatchOption result (¬ Contains leaves.now node.now) (λ i. slice_get leaves.now i ≡ Some node.now) }
{
    leaves.iter().position(|leaf| leaf == node)
}

/// The words that a node asks for, from those of the nodes that it reads.
fn node_words(
    alloc: Global,
    circuit: &Circuit,
    values: &IndexMap<Node, Words>,
    node: Node,
) -> Result<Words, NoMemory>
    requires signal { node.signal < length circuit.now.drives }
    requires goes_on { is_end circuit.now.drives node ≡ false }
    requires known { HasWordsFor values.now (reads circuit.now.drives node) }
    ensures { IfOk result (λ words. HaveBits words (λ row. asked_of (drive_in circuit.now.drives node.signal) node.advance
        (bits_on row (words_in values.now)) false)) }
{
    match circuit.driver(node.signal) {
        Driver::Input => unreachable!(),
        Driver::Latch { next, .. } => {
            let read = Node {
                signal: *next,
                advance: node.advance - 1,
            };
            Ok(values[&read])
        }
        Driver::Gate { pins, cover } => {
            let lanes = pin_lanes(alloc, values, pins.as_slice(), node.advance)?;
            Ok(cover_lanes(cover, lanes.as_slice()).to_array())
        }
    }
}

/// The words of some signals at one advance, in order, as lanes.
fn pin_lanes(
    alloc: Global,
    values: &IndexMap<Node, Words>,
    pins: &[Signal],
    advance: u8,
) -> Result<SmallVec<Lanes, 8>, NoMemory>
    requires { HasWordsFor values.now (map (λ p. node_at advance p) pins.now) }
    ensures { IfOk result (λ lanes. lanes.items ≡ map (λ p. words_in values.now (node_at advance p)) pins.now) }
{
    let mut lanes = SmallVec::new(alloc);
    for pin in pins {
        let node = Node {
            signal: *pin,
            advance,
        };
        lanes.push(Lanes::from_array(values[&node]))?;
    }
    Ok(lanes)
}
