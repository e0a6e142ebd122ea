// The searches of one root: as long as one more walk is found the flow grows, and where none is left it is cut.

ghost use Rattle.std.specs.Prelude.{◌≡◌, ◌↔◌, ℕ, ◌+◌, ◌<◌, ◌≤◌, ◌++◌, ◌∷◌, [], List, false, length, map, option_to_list, All, IsTrue, IfOk, OnOk, IfSome, MatchOption};
ghost use Rattle.tm_flow.specs.Cuts.{IsBarrier, IsCut};
ghost use Rattle.tm_flow.specs.Flows.{IsFlow, indices_of};
ghost use Rattle.tm_flow.specs.Lists.{At, Each, lists_in};
ghost use Rattle.tm_flow.specs.Nets.{IsIndexWalk};
ghost use Rattle.tm_flow.specs.Searches.{IsKnown, IsNumbered, is_far_met, first_unmet, all_first_unmet};
ghost use Rattle.tm_flow.specs.Starts.{IsBegun};
ghost use Rattle.tm_flow.specs.declared.flow.Edge.{Edge};
ghost use Rattle.tm_flow.specs.Founds.{IsAnswer};

use crate::flow::Edge;
use crate::grow::augment;
use crate::known::{Start, known_walks};
use crate::net::{Found, LazyNet};
use crate::search::{Memory, Met, Searched, find_walk, is_far_met};
use crate::used::use_way;
use std::alloc::Global;
use tm_bits::NoMemory;

/// At most `k` nodes that cut the root from every end of the net, or the walks that refute every such
/// cut. The net is asked for one node at a time, and only the nodes that a search meets are kept.
/// Want of memory is the only error.
pub fn cut_or_walks<N: LazyNet>(
    alloc: Global,
    net: &N,
    root: N::Node,
    k: u32,
) -> Result<Found<N::Node>, NoMemory>
    requires few { k ≤ 8 }
    requires no_end { (N.shape net.now).is_end root ≡ false }
    ensures { IfOk result (IsAnswer (N.shape net.now) root k) }
{
    cut_or_walks_from(alloc, net, root, k, &[])
}

/// `cut_or_walks` that starts from walks which are known already, such as those of an earlier search
/// of the same root, and spares the searches for these. A walk that shares a node that may be cut with
/// one before it is left out.
pub fn cut_or_walks_from<N: LazyNet>(
    alloc: Global,
    net: &N,
    root: N::Node,
    k: u32,
    known: &[Vec<u32>],
) -> Result<Found<N::Node>, NoMemory>
    requires few { k ≤ 8 }
    requires no_end { (N.shape net.now).is_end root ≡ false }
    requires known { Each (IsIndexWalk (N.shape net.now) root) (lists_in known.now) }
    ensures { IfOk result (IsAnswer (N.shape net.now) root k) }
{
    let mut memory = Memory::new(alloc);
    answer(alloc, net, &mut memory, root, k, known)
}

/// The answer, by searches in this memory, whatever it holds.
pub fn answer<N: LazyNet>(
    alloc: Global,
    net: &N,
    memory: &mut Memory<N::Node>,
    root: N::Node,
    k: u32,
    known: &[Vec<u32>],
) -> Result<Found<N::Node>, NoMemory>
    requires few { k ≤ 8 }
    requires known { Each (IsIndexWalk (N.shape net.now) root) (lists_in known.now) }
    ensures { IfOk result (IsAnswer (N.shape net.now) root k) }
{
    match known_walks(alloc, net, &mut memory.search.met, root, k, known)? {
        Start::Free(walk) => Ok(Found::Walks(only::<N>(alloc, walk.as_slice())?)),
        Start::Flow(walks) => grow_on(alloc, net, memory, root, k, walks),
    }
}

/// Grows the flow until it is cut, or refutes every cut.
fn grow_on<N: LazyNet>(
    alloc: Global,
    net: &N,
    memory: &mut Memory<N::Node>,
    root: N::Node,
    k: u32,
    known: Vec<Vec<Edge<N::Node>>>,
) -> Result<Found<N::Node>, NoMemory>
    requires few { k ≤ 8 }
    requires begun { IsBegun (N.shape net.now) N.Node.eq root k memory.old.search.met.nodes.keys
        memory.old.search.met.marks.items (lists_in known.items) }
    ensures { IfOk result (IsAnswer (N.shape net.now) root k) }
{
    let mut walks = known;
    for _round in walks.len()..k as usize + 1 {
        if let Some(free) = free_walk(net, walks.as_slice()) {
            return Ok(Found::Walks(only::<N>(alloc, walks[free].as_slice())?));
        }
        if let Some(nodes) = grow(alloc, net, memory, root, &mut walks)? {
            return Ok(Found::Cut(nodes));
        }
    }
    Ok(Found::Walks(barrier(alloc, net, walks.as_slice())?))
}

/// The walks of a flow, each as the indices that lead along it.
fn index_lists<N: LazyNet>(
    alloc: Global,
    walks: &[Vec<Edge<N::Node>>],
) -> Result<Vec<Vec<u32>>, NoMemory>
    ensures { IfOk result (λ lists. lists_in lists.items ≡ map indices_of (lists_in walks.now)) }
{
    let mut lists = Vec::with_capacity(alloc, walks.len())?;
    for walk in walks {
        lists.push(indices::<N>(alloc, walk.as_slice())?)?;
    }
    Ok(lists)
}

fn indices<N: LazyNet>(alloc: Global, walk: &[Edge<N::Node>]) -> Result<Vec<u32>, NoMemory>
    ensures { IfOk result (λ list. list.items ≡ indices_of walk.now) }
{
    let list = walk.iter().map(|edge| edge.index).collect(alloc)?;
    Ok(list)
}

/// Where the first walk stands that has no node which may be cut. Such a walk refutes every cut.
fn free_walk<N: LazyNet>(net: &N, walks: &[Vec<Edge<N::Node>>]) -> Option<usize>
    ensures within { IfSome result (λ which. which < length walks.now) }
    ensures free { IfSome result (λ which. (w : List (Edge N.Node))
        × At (lists_in walks.now) which w × All (λ e. (N.shape net.now).may_cut e.to
        ≡ false) w) }
{
    for (which, walk) in walks.iter().enumerate() {
        if is_free(net, walk.as_slice()) {
            return Some(which);
        }
    }
    None
}

pub fn is_free<N: LazyNet>(net: &N, walk: &[Edge<N::Node>]) -> bool
    ensures { IsTrue result ↔ All (λ e. (N.shape net.now).may_cut e.to ≡ false) walk.now }
{
    walk.iter().all(|edge| !net.may_cut(edge.to))
}

/// The free walk where there is one, else all walks.
fn barrier<N: LazyNet>(
    alloc: Global,
    net: &N,
    walks: &[Vec<Edge<N::Node>>],
) -> Result<Vec<Vec<u32>>, NoMemory>
    ensures { IfOk result (λ lists. (root : N.Node) (k : ℕ)
        → IsFlow (N.shape net.now) N.Node.eq root (lists_in walks.now) → length walks.now ≡ k + 1
        → IsBarrier (N.shape net.now) root k (lists_in lists.items)) }
{
    match free_walk(net, walks) {
        Some(free) => only::<N>(alloc, walks[free].as_slice()),
        None => index_lists::<N>(alloc, walks),
    }
}

fn only<N: LazyNet>(alloc: Global, walk: &[Edge<N::Node>]) -> Result<Vec<Vec<u32>>, NoMemory>
    ensures { IfOk result (λ lists. lists_in lists.items ≡ indices_of walk.now ∷ []) }
{
    let mut lists = Vec::new(alloc);
    lists.push(indices::<N>(alloc, walk)?)?;
    Ok(lists)
}

/// One search: the flow grows by one walk, or the nodes of a cut are answered.
fn grow<N: LazyNet>(
    alloc: Global,
    net: &N,
    memory: &mut Memory<N::Node>,
    root: N::Node,
    walks: &mut Vec<Vec<Edge<N::Node>>>,
) -> Result<Option<Vec<N::Node>>, NoMemory>
    requires flow { IsFlow (N.shape net.now) N.Node.eq root (lists_in walks.old.items) }
    requires known { IsKnown (N.shape net.now) root (lists_in walks.old.items)
        memory.old.search.met.nodes.keys memory.old.search.met.marks.items }
    ensures { IfOk result (λ found. MatchOption found (IsFlow (N.shape net.now) N.Node.eq root
        (lists_in walks.new.items) × (length walks.new.items ≡ length walks.old.items + 1)
        × IsKnown (N.shape net.now) root (lists_in walks.new.items)
        memory.new.search.met.nodes.keys memory.new.search.met.marks.items)
        (λ nodes. IsCut (N.shape net.now) root (length walks.old.items) nodes.items)) }
{
    match find_walk(net, walks.as_slice(), memory, root)? {
        Searched::Walk => {
            augment(alloc, net, walks, memory.way.as_slice())?;
            use_way::<N>(&mut memory.search.met, memory.way.as_slice());
            Ok(None)
        }
        Searched::Nowhere => {
            let met = &memory.search.met;
            Ok(Some(cut_of::<N>(alloc, walks.as_slice(), met)?))
        }
    }
}

/// The first node of each walk whose far side was not met.
fn cut_of<N: LazyNet>(
    alloc: Global,
    walks: &[Vec<Edge<N::Node>>],
    met: &Met<N::Node>,
) -> Result<Vec<N::Node>, NoMemory>
    requires { IsNumbered met.now.nodes.keys met.now.marks.items }
    ensures { IfOk result (λ nodes. nodes.items ≡ all_first_unmet
        (is_far_met N.Node.eq met.now.nodes.keys met.now.marks.items) (lists_in walks.now)) }
{
    let mut nodes = Vec::with_capacity(alloc, walks.len())?;
    for walk in walks {
        push_first::<N>(&mut nodes, walk.as_slice(), met)?;
    }
    Ok(nodes)
}

fn push_first<N: LazyNet>(
    nodes: &mut Vec<N::Node>,
    walk: &[Edge<N::Node>],
    met: &Met<N::Node>,
) -> Result<(), NoMemory>
    requires { IsNumbered met.now.nodes.keys met.now.marks.items }
    ensures { OnOk result (nodes.new.items ≡ nodes.old.items ++ option_to_list (first_unmet
        (is_far_met N.Node.eq met.now.nodes.keys met.now.marks.items) walk.now)) }
{
    if let Some(node) = first_on_walk::<N>(walk, met) {
        nodes.push(node)?;
    }
    Ok(())
}

fn first_on_walk<N: LazyNet>(walk: &[Edge<N::Node>], met: &Met<N::Node>) -> Option<N::Node>
    requires { IsNumbered met.now.nodes.keys met.now.marks.items }
    ensures { result ≡ first_unmet
        (is_far_met N.Node.eq met.now.nodes.keys met.now.marks.items) walk.now }
{
    for edge in walk {
        if !is_far_met::<N>(met, edge.to) {
            return Some(edge.to);
        }
    }
    None
}
