// A refusal of a gate that is taken over from what the gate reads.

ghost use Rattle.std.specs.Prelude.{◌≡◌, ◌<◌, ◌≤◌, ◌++◌, true, length, map, IfOk, IfSome, IsTrue, ◌↔◌};
ghost use Rattle.std.specs.Option.{ForSome};
ghost use Rattle.tm_circuit.specs.Chain.{IsGate};
ghost use Rattle.tm_flow.specs.Lists.{lists_in};
ghost use Rattle.tm_unroll.specs.Nodes.{node_at, is_end};
ghost use Rattle.tm_replay.specs.Replays.{drop_of};
ghost use Rattle.tm_inherit.specs.Reads.{IsRead, way_to};
ghost use Rattle.tm_inherit.specs.Refusals.{HasBarrier, IsRefusal};

use crate::reads::Read;
use crate::refusal::{Aim, Refusal};
use std::alloc::Global;
use tm_bits::NoMemory;
use tm_circuit::{Circuit, Driver};
use tm_replay::{Label, Lowering, serves_from};
use tm_unroll::Node;

/// Walks that refuse a gate at a lag a cut before its arrival or a later one, taken over from a node that it reads: from the walks of
/// an earlier drop of that node, or, where it is an end, from the node itself. `None` where the drop is of another node, too early, or
/// past the target, or where the node is served before that.
pub fn inherit(
    alloc: Global,
    circuit: &Circuit,
    labels: &[Option<Label>],
    aim: &Aim,
    read: &Read,
    last: Option<&Lowering>,
) -> Result<Option<Refusal>, NoMemory>
    requires gate { IsGate circuit.now.drives aim.now.gate }
    requires read { IsRead circuit.now.drives aim.now.gate aim.now.lag read.now }
    requires some { 1 ≤ aim.now.arrival }
    requires most { aim.now.arrival ≤ aim.now.target }
    requires last { ForSome last (λ drop. HasBarrier aim.now.base circuit.now aim.now.k labels.now (drop_of drop.now)) }
    ensures { IfOk result (λ found. IfSome found (IsRefusal aim.now.base circuit.now aim.now.k labels.now aim.now.arrival aim.now.target
        (node_at aim.now.lag aim.now.gate))) }
{
    let _sound = circuit.signals();
    if is_end(circuit, read.node) {
        return end_refusal(alloc, circuit, labels, aim, read);
    }
    match last {
        None => Ok(None),
        Some(drop) => taken_over(alloc, circuit, labels, aim, read, drop),
    }
}

/// Whether walks end at a node: an input, or a latch at advance 0.
fn is_end(circuit: &Circuit, node: Node) -> bool
    requires { node.signal < length circuit.now.drives }
    ensures { IsTrue result ↔ (is_end circuit.now.drives node ≡ true) }
{
    match circuit.driver(node.signal) {
        Driver::Input => true,
        Driver::Latch { .. } => node.advance == 0,
        Driver::Gate { .. } => false,
    }
}

/// The step to an end that is not served before the target.
fn end_refusal(
    alloc: Global,
    circuit: &Circuit,
    labels: &[Option<Label>],
    aim: &Aim,
    read: &Read,
) -> Result<Option<Refusal>, NoMemory>
    requires gate { IsGate circuit.now.drives aim.now.gate }
    requires read { IsRead circuit.now.drives aim.now.gate aim.now.lag read.now }
    requires some { 1 ≤ aim.now.arrival }
    requires most { aim.now.arrival ≤ aim.now.target }
    requires end { is_end circuit.now.drives read.now.node ≡ true }
    ensures { IfOk result (λ found. IfSome found (IsRefusal aim.now.base circuit.now aim.now.k labels.now aim.now.arrival aim.now.target
        (node_at aim.now.lag aim.now.gate))) }
{
    let _sound = circuit.signals();
    let Aim {
        base,
        lag,
        target,
        ..
    } = *aim;
    if serves_from(base, circuit, labels, read.node, target - 1) {
        return Ok(None);
    }
    let mut walks = Vec::new(alloc);
    walks.push(walk_over(alloc, read, lag, &[])?)?;
    Ok(Some(Refusal {
        arrival: target,
        walks,
    }))
}

/// The walks of an earlier drop, with the way to its node in front, where it is of the node that is read and serves.
fn taken_over(
    alloc: Global,
    circuit: &Circuit,
    labels: &[Option<Label>],
    aim: &Aim,
    read: &Read,
    drop: &Lowering,
) -> Result<Option<Refusal>, NoMemory>
    requires gate { IsGate circuit.now.drives aim.now.gate }
    requires read { IsRead circuit.now.drives aim.now.gate aim.now.lag read.now }
    requires some { 1 ≤ aim.now.arrival }
    requires last { HasBarrier aim.now.base circuit.now aim.now.k labels.now (drop_of drop.now) }
    ensures { IfOk result (λ found. IfSome found (IsRefusal aim.now.base circuit.now aim.now.k labels.now aim.now.arrival aim.now.target
        (node_at aim.now.lag aim.now.gate))) }
{
    let _sound = circuit.signals();
    let node = read.node;
    let arrival = drop.arrival;
    if drop.gate != node.signal || drop.lag != node.advance {
        return Ok(None);
    }
    if arrival < aim.arrival || aim.target < arrival {
        return Ok(None);
    }
    if serves_from(aim.base, circuit, labels, node, arrival - 1) {
        return Ok(None);
    }
    let walks = walks_over(alloc, read, aim.lag, &drop.walks)?;
    Ok(Some(Refusal { arrival, walks }))
}

/// Walks from a node, as walks from what reads it.
fn walks_over(
    alloc: Global,
    read: &Read,
    lag: u8,
    walks: &[Vec<u8>],
) -> Result<Vec<Vec<u8>>, NoMemory>
    ensures { IfOk result (λ lists. lists_in lists.items ≡ map (λ w. way_to lag read.now ++ w) (lists_in walks.now)) }
{
    let mut lists = Vec::with_capacity(alloc, walks.len())?;
    for walk in walks {
        lists.push(walk_over(alloc, read, lag, walk)?)?;
    }
    Ok(lists)
}

/// A walk from a node, as one from what reads it.
fn walk_over(alloc: Global, read: &Read, lag: u8, walk: &[u8]) -> Result<Vec<u8>, NoMemory>
    ensures { IfOk result (λ list. list.items ≡ way_to lag read.now ++ walk.now) }
{
    let latches = lag.saturating_sub(read.node.advance);
    let room = walk.len().saturating_add(usize::from(latches) + 1);
    let mut list = Vec::with_capacity(alloc, room)?;
    list.push(read.index)?;
    for _latch in 0..latches {
        list.push(0)?;
    }
    list.extend_from_slice(walk)?;
    Ok(list)
}
