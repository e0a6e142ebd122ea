// The walks that the searches of a root start from: those of the known walks that share no node that may
// be cut with one before them, or one alone that has no such node.

ghost use Rattle.std.specs.Prelude.{◌≡◌, true, false, [], IsTrue, IfOk, OnOk};
ghost use Rattle.tm_flow.specs.Flows.{Leads, AreWalks, edges_along, all_edges_to};
ghost use Rattle.tm_flow.specs.Lists.{Has, Each, lists_in};
ghost use Rattle.tm_flow.specs.Nets.{IsIndexWalk};
ghost use Rattle.tm_flow.specs.Starts.{IsBegun, IsStart};
ghost use Rattle.tm_flow.specs.declared.flow.Edge.{Edge};

use crate::cut::is_free;
use crate::flow::{Edge, place_to};
use crate::net::LazyNet;
use crate::search::Met;
use crate::used::use_walk;
use std::alloc::Global;
use tm_bits::NoMemory;

/// What is known when the searches of a root begin.
#[derive(Drop)]
pub enum Start<T> {
    /// A walk with no node that may be cut.
    Free(Vec<Edge<T>>),
    /// Walks that share no node that may be cut.
    Flow(Vec<Vec<Edge<T>>>),
}

/// The free walk where one is known, else the first `k + 1` at most of the known walks that go together.
/// Nothing is met but the nodes of these.
pub fn known_walks<N: LazyNet>(
    alloc: Global,
    net: &N,
    met: &mut Met<N::Node>,
    root: N::Node,
    k: u32,
    known: &[Vec<u32>],
) -> Result<Start<N::Node>, NoMemory>
    requires { Each (IsIndexWalk (N.shape net.now) root) (lists_in known.now) }
    ensures { IfOk result (IsStart (N.shape net.now) N.Node.eq root k
        met.new.nodes.keys met.new.marks.items) }
{
    met.nodes.truncate(0);
    met.marks.clear();
    let mut walks = Vec::new(alloc);
    for list in known {
        let walk = edges_of(alloc, net, root, list.as_slice())?;
        if is_free(net, walk.as_slice()) {
            return Ok(Start::Free(walk));
        }
        keep(net, met, k, &mut walks, walk)?;
    }
    Ok(Start::Flow(walks))
}

/// Keeps the walk where there is room and it shares no node that may be cut with those before it.
fn keep<N: LazyNet>(
    net: &N,
    met: &mut Met<N::Node>,
    k: u32,
    walks: &mut Vec<Vec<Edge<N::Node>>>,
    walk: Vec<Edge<N::Node>>,
) -> Result<(), NoMemory>
    requires { (root : N.Node) × Leads (N.shape net.now) root walk.items × IsBegun (N.shape net.now)
        N.Node.eq root k met.old.nodes.keys met.old.marks.items (lists_in walks.old.items) }
    ensures { OnOk result ((root : N.Node) → Leads (N.shape net.now) root walk.items
        → IsBegun (N.shape net.now) N.Node.eq root k met.old.nodes.keys met.old.marks.items
        (lists_in walks.old.items) → IsBegun (N.shape net.now) N.Node.eq root k
        met.new.nodes.keys met.new.marks.items (lists_in walks.new.items)) }
{
    if walks.len() > k as usize {
        return Ok(());
    }
    if !goes_with(net, walks.as_slice(), walk.as_slice()) {
        return Ok(());
    }
    use_walk::<N>(met, walk.as_slice())?;
    walks.push(walk)?;
    Ok(())
}

/// Whether no node of the walk that may be cut stands on one of the walks.
fn goes_with<N: LazyNet>(net: &N, walks: &[Vec<Edge<N::Node>>], walk: &[Edge<N::Node>]) -> bool
    requires { AreWalks (N.shape net.now) (lists_in walks.now) }
    ensures { IsTrue result → (e : Edge N.Node) → Has walk.now e
        → (N.shape net.now).may_cut e.to ≡ true
        → all_edges_to N.Node.eq e.to (lists_in walks.now) ≡ [] }
{
    for edge in walk {
        if is_taken(net, walks, edge.to) {
            return false;
        }
    }
    true
}

/// Whether the node may be cut and one of the walks comes to it.
fn is_taken<N: LazyNet>(net: &N, walks: &[Vec<Edge<N::Node>>], node: N::Node) -> bool
    requires { AreWalks (N.shape net.now) (lists_in walks.now) }
    ensures { result ≡ false → (N.shape net.now).may_cut node ≡ true
        → all_edges_to N.Node.eq node (lists_in walks.now) ≡ [] }
{
    net.may_cut(node) && is_on(net, walks, node)
}

/// Whether one of the walks comes to the node.
fn is_on<N: LazyNet>(net: &N, walks: &[Vec<Edge<N::Node>>], node: N::Node) -> bool
    requires { AreWalks (N.shape net.now) (lists_in walks.now) }
    ensures { result ≡ false → all_edges_to N.Node.eq node (lists_in walks.now) ≡ [] }
{
    for walk in walks {
        if let Some(_place) = place_to(net, walk.as_slice(), node) {
            return true;
        }
    }
    false
}

fn edges_of<N: LazyNet>(
    alloc: Global,
    net: &N,
    root: N::Node,
    indices: &[u32],
) -> Result<Vec<Edge<N::Node>>, NoMemory>
    requires { IsIndexWalk (N.shape net.now) root indices.now }
    ensures { IfOk result (λ edges. edges.items ≡ edges_along (N.shape net.now) root indices.now) }
{
    let mut edges = Vec::with_capacity(alloc, indices.len())?;
    let mut node = root;
    for index in indices {
        let to = net.read(node, *index);
        edges.push(Edge {
            from: node,
            index: *index,
            to,
        })?;
        node = to;
    }
    Ok(edges)
}
