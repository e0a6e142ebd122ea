// Who looks at a gate, and who of them is served too late.

ghost use Rattle.std.specs.Prelude.{◌≡◌, ◌↔◌, ◌==◌, ◌<◌, length, map, filter, All, Contains, slice_index, IfOk, OnOk, IsTrue, MatchBool};
ghost use Rattle.tm_merge.specs.Cuts.{cut_in};
ghost use Rattle.tm_labels.specs.Watched.{watchers_in, AddsWatchers, AreWatchedAs, AreWithin, AreLateAmong, IsLate};

use crate::marks::{is_marked, label_of};
use smallvec::SmallVec;
use std::alloc::Global;
use tm_bits::NoMemory;
use tm_circuit::{Circuit, Signal, Source};
use tm_replay::{Label, serves_from};
use tm_unroll::Node;

/// A gate whose cut has a leaf that a gate serves. It counts only as long as the cut has this version.
#[derive(Clone, Copy)]
pub struct Watcher {
    pub gate: Signal,
    /// The leaf.
    pub node: Node,
    pub version: u32,
}

/// A moment of a settling: labels, which gates count, which wait, and the present cuts.
#[derive(Clone, Copy)]
pub struct Moment<'a> {
    pub base: u8,
    pub circuit: &'a Circuit,
    pub labels: &'a [Option<Label>],
    pub counts: &'a [bool],
    pub queued: &'a [bool],
    pub leaves: &'a [SmallVec<Node, 8>],
}

/// Watches the leaves of a gate's cut, each at the gate that is its source. After `NoMemory` some may be watched.
pub fn watch(
    circuit: &Circuit,
    watchers: &mut [Vec<Watcher>],
    gate: Signal,
    version: u32,
    leaves: &[Node],
) -> Result<(), NoMemory>
    requires sized { length watchers.old ≡ length circuit.now.drives }
    requires within { All (λ y. y.signal < length circuit.now.drives) leaves.now }
    ensures adds { AddsWatchers (map (λ list. list.items) watchers.old) (map (λ list. list.items) watchers.new) }
    ensures watched { OnOk result (AreWatchedAs circuit.now.drives gate version leaves.now (map (λ list. list.items) watchers.new)) }
{
    for leaf in leaves {
        if let Source::Gate(source) = circuit.source(leaf.signal) {
            let watcher = Watcher {
                gate,
                node: *leaf,
                version,
            };
            add_watcher(watchers, source, watcher)?;
        }
    }
    Ok(())
}

/// Adds a watcher to those of a gate.
fn add_watcher(
    watchers: &mut [Vec<Watcher>],
    gate: Signal,
    watcher: Watcher,
) -> Result<(), NoMemory>
    requires { gate < length watchers.old }
    ensures adds { AddsWatchers (map (λ list. list.items) watchers.old) (map (λ list. list.items) watchers.new) }
    ensures watched { OnOk result (Contains (watchers_in (map (λ list. list.items) watchers.new) gate) watcher) }
{
    let list = &mut watchers[gate.0 as usize];
    list.push(watcher)?;
    Ok(())
}

/// Throws away the watchers of older cuts.
pub fn prune(versions: &[u32], watchers: &mut Vec<Watcher>)
    ensures { watchers.new.items ≡ filter (λ w. slice_index versions.now w.gate == w.version) watchers.old.items }
{
    watchers.retain(|watcher| version_of(versions, watcher.gate) == watcher.version);
}

/// The version of the cut of a signal.
fn version_of(versions: &[u32], s: Signal) -> u32
    ensures { result ≡ slice_index versions.now s }
{
    versions.get(s.0 as usize).copied().unwrap_or(0)
}

/// The watchers that are served too late at the leaf that they look at, as their gates.
pub fn late_among(
    alloc: Global,
    moment: &Moment<'_>,
    watchers: &[Watcher],
) -> Result<Vec<Signal>, NoMemory>
    requires { AreWithin (length moment.now.circuit.now.drives) (map (λ cut. cut.items) moment.now.leaves.now) }
    ensures { IfOk result (λ late. AreLateAmong moment.now.base moment.now.circuit.now moment.now.labels.now moment.now.counts.now
        moment.now.queued.now (map (λ cut. cut.items) moment.now.leaves.now) watchers.now late.items) }
{
    let mut late = Vec::new(alloc);
    for watcher in watchers {
        if is_late(moment, watcher.gate, watcher.node) {
            late.push(watcher.gate)?;
        }
    }
    Ok(late)
}

/// Whether a gate counts and does not wait, and is served too late at a node that is a leaf of its cut.
fn is_late(moment: &Moment<'_>, gate: Signal, node: Node) -> bool
    requires { AreWithin (length moment.now.circuit.now.drives) (map (λ cut. cut.items) moment.now.leaves.now) }
    ensures { MatchBool result
        (IsLate moment.now.base moment.now.circuit.now moment.now.labels.now moment.now.counts.now moment.now.queued.now
        (map (λ cut. cut.items) moment.now.leaves.now) gate node)
        (IsLate moment.now.base moment.now.circuit.now moment.now.labels.now moment.now.counts.now moment.now.queued.now
        (map (λ cut. cut.items) moment.now.leaves.now) gate node → ⊥) }
{
    if !is_marked(moment.counts, gate) || is_marked(moment.queued, gate) {
        return false;
    }
    let Some(label) = label_of(moment.labels, gate) else {
        return false;
    };
    if !is_leaf(moment.leaves, gate, &node) {
        return false;
    }
    let within = label.arrival.saturating_sub(1);
    !serves_from(moment.base, moment.circuit, moment.labels, node, within)
}

/// Whether a node is a leaf of the cut of a signal.
fn is_leaf(leaves: &[SmallVec<Node, 8>], s: Signal, node: &Node) -> bool
    ensures { IsTrue result ↔ Contains (cut_in (map (λ cut. cut.items) leaves.now) s) node.now }
{
    match leaves.get(s.0 as usize) {
        None => false,
        Some(cut) => cut.as_slice().contains(node),
    }
}
