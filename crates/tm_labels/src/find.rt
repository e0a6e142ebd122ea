// What becomes of a gate that is visited: a cut of it, or walks that show that it has none.

ghost use Rattle.std.specs.Prelude.{◌≡◌, ℕ, ◌-◌, ◌<◌, ◌≤◌, false, true, List, length, map, All, Contains, IfOk, IfSome};
ghost use Rattle.tm_circuit.specs.Plain.{widest};
ghost use Rattle.tm_circuit.specs.Chain.{IsGate};
ghost use Rattle.tm_flow.specs.Lists.{Each, lists_in};
ghost use Rattle.tm_flow.specs.Nets.{IsIndexWalk};
ghost use Rattle.tm_unroll.specs.Nodes.{node_at};
ghost use Rattle.tm_replay.specs.Served.{served};
ghost use Rattle.tm_replay.specs.Replays.{drop_of};
ghost use Rattle.tm_merge.specs.Cuts.{HaveCovers};
ghost use Rattle.tm_labels.specs.Marks.{is_marked};
ghost use Rattle.tm_inherit.specs.Refusals.{IsRefusal};
ghost use Rattle.tm_labels.specs.Steps.{HaveBarriers, IsStep};

use crate::known::known_walks;
use crate::lasts::Lasts;
use crate::searches::Searches;
use smallvec::SmallVec;
use std::alloc::Global;
use tm_bits::NoMemory;
use tm_circuit::Circuit;
use tm_flow::Found;
use tm_inherit::{Aim, Refusal, inherit, latest_read};
use tm_merge::merge;
use tm_replay::{Label, Lowering, Served, ServedFrom};
use tm_unroll::{Node, in_order};

/// What a gate at a lag comes to.
#[derive(Drop)]
pub enum Step {
    /// A cut of it that is served before its arrival.
    Cut(SmallVec<Node, 8>),
    /// It has none before its arrival, or before a later one.
    Refused(Refusal),
}

/// A cut of a gate at a lag, merged of the present cuts of others where that finds one, or walks that show that there is none before
/// its arrival or before a later one up to the target. Walks are taken over from an earlier drop of what the gate reads, where that
/// is served after the arrival alone; otherwise they are searched for where merging finds nothing.
pub fn find(
    alloc: Global,
    searches: &mut Searches,
    circuit: &Circuit,
    labels: &[Option<Label>],
    cuts: &[SmallVec<Node, 8>],
    stale: &[bool],
    drops: &[Lowering],
    lasts: &Lasts,
    aim: &Aim,
) -> Result<Step, NoMemory>
    requires few { aim.now.k ≤ 8 }
    requires gate { IsGate circuit.now.drives aim.now.gate }
    requires lag { aim.now.lag < 256 }
    requires some { 1 ≤ aim.now.arrival }
    requires most { aim.now.arrival ≤ aim.now.target }
    requires sized { (length labels.now ≡ length circuit.now.drives) × (length cuts.now ≡ length circuit.now.drives)
        × (length stale.now ≡ length circuit.now.drives) }
    requires cuts { HaveCovers circuit.now aim.now.k labels.now (λ g. is_marked stale.now g ≡ true) (map (λ cut. cut.items) cuts.now) }
    requires drops { HaveBarriers aim.now.base circuit.now aim.now.k labels.now (map drop_of drops.now) }
    ensures { IfOk result (IsStep aim.now.base circuit.now aim.now.k labels.now aim.now.arrival aim.now.target
        (node_at aim.now.lag aim.now.gate)) }
{
    if let Some(refusal) = taken_over(alloc, circuit, labels, drops, lasts, aim)? {
        return Ok(Step::Refused(refusal));
    }
    let Aim {
        base,
        k,
        gate,
        lag,
        arrival,
        ..
    } = *aim;
    let within = arrival - 1;
    let merged = merge(
        alloc, base, circuit, k, labels, cuts, stale, gate, lag, within,
    )?;
    match merged {
        Some(leaves) => Ok(Step::Cut(leaves)),
        None => search(alloc, searches, circuit, labels, drops, lasts, aim),
    }
}

/// Walks that show that a gate at a lag has no cut before its arrival or a later one, taken over from what it reads last, where that
/// is served after the arrival alone.
fn taken_over(
    alloc: Global,
    circuit: &Circuit,
    labels: &[Option<Label>],
    drops: &[Lowering],
    lasts: &Lasts,
    aim: &Aim,
) -> Result<Option<Refusal>, NoMemory>
    requires gate { IsGate circuit.now.drives aim.now.gate }
    requires some { 1 ≤ aim.now.arrival }
    requires most { aim.now.arrival ≤ aim.now.target }
    requires drops { HaveBarriers aim.now.base circuit.now aim.now.k labels.now (map drop_of drops.now) }
    ensures { IfOk result (λ found. IfSome found
        (IsRefusal aim.now.base circuit.now aim.now.k labels.now aim.now.arrival aim.now.target (node_at aim.now.lag aim.now.gate))) }
{
    let latest = latest_read(aim.base, circuit, labels, aim.gate, aim.lag);
    let Some(read) = latest else {
        return Ok(None);
    };
    if read.number <= aim.arrival {
        return Ok(None);
    }
    let last = lasts.last(drops, read.node);
    inherit(alloc, circuit, labels, aim, &read, last)
}

/// A cut before the arrival or walks, by one search. It starts from the walks of the last drop of the gate at the lag, as far as they
/// are still apart.
fn search(
    alloc: Global,
    searches: &mut Searches,
    circuit: &Circuit,
    labels: &[Option<Label>],
    drops: &[Lowering],
    lasts: &Lasts,
    aim: &Aim,
) -> Result<Step, NoMemory>
    requires few { aim.now.k ≤ 8 }
    requires gate { IsGate circuit.now.drives aim.now.gate }
    requires lag { aim.now.lag < 256 }
    requires some { 1 ≤ aim.now.arrival }
    requires most { aim.now.arrival ≤ aim.now.target }
    requires sized { length labels.now ≡ length circuit.now.drives }
    requires drops { HaveBarriers aim.now.base circuit.now aim.now.k labels.now (map drop_of drops.now) }
    ensures { IfOk result (IsStep aim.now.base circuit.now aim.now.k labels.now aim.now.arrival aim.now.target
        (node_at aim.now.lag aim.now.gate)) }
{
    let root = Node {
        signal: aim.gate,
        advance: aim.lag,
    };
    let known = known_walks(alloc, drops, lasts, root)?;
    search_from(alloc, searches, circuit, labels, aim, &known)
}

/// The same from walks of the gate at the lag.
fn search_from(
    alloc: Global,
    searches: &mut Searches,
    circuit: &Circuit,
    labels: &[Option<Label>],
    aim: &Aim,
    known: &[Vec<u32>],
) -> Result<Step, NoMemory>
    requires few { aim.now.k ≤ 8 }
    requires gate { IsGate circuit.now.drives aim.now.gate }
    requires lag { aim.now.lag < 256 }
    requires some { 1 ≤ aim.now.arrival }
    requires most { aim.now.arrival ≤ aim.now.target }
    requires sized { length labels.now ≡ length circuit.now.drives }
    requires known { Each (IsIndexWalk (served aim.now.base circuit.now labels.now (aim.now.arrival - 1))
        (node_at aim.now.lag aim.now.gate)) (lists_in known.now) }
    ensures { IfOk result (IsStep aim.now.base circuit.now aim.now.k labels.now aim.now.arrival aim.now.target
        (node_at aim.now.lag aim.now.gate)) }
{
    let _sound = circuit.signals();
    let served = Served {
        circuit,
        labels,
        within: aim.arrival - 1,
    };
    let net = ServedFrom {
        base: aim.base,
        served,
    };
    let root = Node {
        signal: aim.gate,
        advance: aim.lag,
    };
    searches.made = searches.made.saturating_add(1);
    match searches
        .searcher
        .cut_or_walks_from(alloc, &net, root, u32::from(aim.k), known)?
    {
        Found::Cut(nodes) => Ok(Step::Cut(in_order(alloc, &nodes)?)),
        Found::Walks(walks) => Ok(Step::Refused(Refusal {
            arrival: aim.arrival,
            walks: digit_lists(alloc, &walks)?,
        })),
    }
}

/// Walks as digits.
fn digit_lists(alloc: Global, walks: &[Vec<u32>]) -> Result<Vec<Vec<u8>>, NoMemory>
    requires { (w : List ℕ) → Contains (lists_in walks.now) w → All (λ i. i < 256) w }
    ensures { IfOk result (λ lists. lists_in lists.items ≡ lists_in walks.now) }
{
    let mut lists = Vec::with_capacity(alloc, walks.len())?;
    for walk in walks {
        lists.push(digits(alloc, walk)?)?;
    }
    Ok(lists)
}

/// A walk as digits.
fn digits(alloc: Global, walk: &[u32]) -> Result<Vec<u8>, NoMemory>
    requires { All (λ i. i < 256) walk.now }
    ensures { IfOk result (λ list. list.items ≡ walk.now) }
{
    let mut list = Vec::with_capacity(alloc, walk.len())?;
    for index in walk {
        list.push(*index as u8)?;
    }
    Ok(list)
}
