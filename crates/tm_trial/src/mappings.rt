// Nodes and mappings, written on a line.

use crate::circuits::signal;
use crate::fault::TrialFault;
use std::alloc::Global;
use tm_unroll::{Lut, Mapping, Node};

/// The node that a word spells, as `9.1`.
fn node(word: &str) -> Node {
    let (left, right) = word.split_once('.').unwrap_or((word, ""));
    Node {
        signal: signal(left),
        advance: right.parse().unwrap_or(u8::MAX),
    }
}

/// Nodes, as `4.0 9.1`.
pub fn nodes(alloc: Global, text: &str) -> Result<Vec<Node>, TrialFault> {
    Ok(text.split_whitespace().map(node).collect(alloc)?)
}

/// A table: its gate and its lag as a node, and its leaves.
fn lut(alloc: Global, line: &str) -> Result<Lut, TrialFault> {
    let mut words = line.split_whitespace();
    let root = node(words.next().unwrap_or(""));
    Ok(Lut {
        gate: root.signal,
        lag: root.advance,
        leaves: words.map(node).collect(alloc)?,
    })
}

/// A mapping: a table with its leaves and a semicolon for each gate, as `9.1 0.0 1.0;11.0 9.0 10.0;`.
pub fn mapping(alloc: Global, text: &str) -> Result<Mapping, TrialFault> {
    let mut luts = Vec::new(alloc);
    for line in text.split_terminator(';') {
        luts.push(lut(alloc, line)?)?;
    }
    Ok(Mapping { luts })
}
