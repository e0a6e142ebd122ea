// The flow of a root: walks to ends that share no node that may be cut, kept as lists of edges.
// Ranks fall along a walk, so that the place of an edge, or of the edge to a node, is found by halving.

ghost use Rattle.std.specs.Prelude.{◌≡◌, false, ◌↔◌, ◌+◌, ◌<◌, ◌⊎◌, ◌++◌, [], ◌∷◌, length, take, drop, reverse, map, IsTrue, IfSome, IfNone, IfOk, OnOk};
ghost use Rattle.tm_flow.specs.Flows.{AreWalks, Leads, InFlow, IsOnWalk, BeginsWith, TakesBack, Exchanges, edges_to, all_edges_to};
ghost use Rattle.tm_flow.specs.Lists.{Has, At, lists_in};

use crate::net::LazyNet;
use std::alloc::Global;
use tm_bits::NoMemory;

/// A step of a walk: `to` is what `from` reads at the index.
#[derive(Clone, Copy, PartialEq, Eq)]
pub struct Edge<T> {
    pub from: T,
    pub index: u32,
    pub to: T,
}

/// The edges of the walks that come to the node, of which there are none where it is not used.
pub fn edges_into<N: LazyNet>(
    net: &N,
    walks: &[Vec<Edge<N::Node>>],
    is_used: bool,
    node: N::Node,
    edges: &mut Vec<Edge<N::Node>>,
) -> Result<(), NoMemory>
    requires walks { AreWalks (N.shape net.now) (lists_in walks.now) }
    requires unused { is_used ≡ false → all_edges_to N.Node.eq node (lists_in walks.now) ≡ [] }
    ensures { OnOk result (edges.new.items ≡ all_edges_to N.Node.eq node (lists_in walks.now)) }
{
    edges.clear();
    if is_used {
        push_edges(net, walks, node, edges)?;
    }
    Ok(())
}

/// Few of the nodes that a search meets stand on walks, so this stays out of the search's loop.
#[inline(never)]
fn push_edges<N: LazyNet>(
    net: &N,
    walks: &[Vec<Edge<N::Node>>],
    node: N::Node,
    edges: &mut Vec<Edge<N::Node>>,
) -> Result<(), NoMemory>
    requires { AreWalks (N.shape net.now) (lists_in walks.now) }
    ensures { OnOk result (edges.new.items ≡ edges.old.items
        ++ all_edges_to N.Node.eq node (lists_in walks.now)) }
{
    for walk in walks {
        push_edge(net, walk.as_slice(), node, edges)?;
    }
    Ok(())
}

/// At most one edge of a walk comes to a node.
fn push_edge<N: LazyNet>(
    net: &N,
    walk: &[Edge<N::Node>],
    node: N::Node,
    edges: &mut Vec<Edge<N::Node>>,
) -> Result<(), NoMemory>
    requires { (x : N.Node) × Leads (N.shape net.now) x walk.now }
    ensures { OnOk result (edges.new.items ≡ edges.old.items ++ edges_to N.Node.eq node walk.now) }
{
    if let Some(place) = place_to(net, walk, node) {
        edges.push(walk[place])?;
    }
    Ok(())
}

/// Where the edge stands on the walk that comes to the node.
pub fn place_to<N: LazyNet>(net: &N, walk: &[Edge<N::Node>], node: N::Node) -> Option<usize>
    requires { (x : N.Node) × Leads (N.shape net.now) x walk.now }
    ensures found { IfSome result (λ place. (e : Edge N.Node) × At walk.now place e × (e.to ≡ node)) }
    ensures absent { IfNone result (edges_to N.Node.eq node walk.now ≡ []) }
{
    let rank = net.rank(node);
    let place = walk.partition_point(|edge| rank < net.rank(edge.to));
    if comes_to::<N>(walk, place, node) {
        Some(place)
    } else {
        None
    }
}

fn comes_to<N: LazyNet>(walk: &[Edge<N::Node>], place: usize, node: N::Node) -> bool
    ensures { IsTrue result ↔ ((e : Edge N.Node) × At walk.now place e × (e.to ≡ node)) }
{
    place < walk.len() && walk[place].to == node
}

/// Takes the edge out of the flow and of the walk in hand, which is kept from its last edge to its
/// first. Where it is the first edge of that walk, it goes. Else it stands on a walk of the flow,
/// whose part after the edge becomes the walk in hand, and the walk in hand takes its place.
pub fn take_back<N: LazyNet>(
    alloc: Global,
    net: &N,
    walks: &mut Vec<Vec<Edge<N::Node>>>,
    rest: &mut Vec<Edge<N::Node>>,
    edge: Edge<N::Node>,
) -> Result<(), NoMemory>
    requires walks { AreWalks (N.shape net.now) (lists_in walks.old.items) }
    requires there { BeginsWith edge (reverse rest.old.items) ⊎ InFlow
        (lists_in walks.old.items) edge }
    ensures { OnOk result (TakesBack edge (lists_in walks.old.items) (reverse rest.old.items)
        (lists_in walks.new.items) (reverse rest.new.items)) }
{
    let first = rest.len().saturating_sub(1);
    if is_at::<N>(rest.as_slice(), first, edge) {
        rest.truncate(first);
        return Ok(());
    }
    match find_edge(net, walks.as_slice(), edge) {
        Some((which, place)) => exchange_at::<N>(alloc, walks, rest, which, place),
        None => unreachable!(),
    }
}

/// Which walk has the edge, and where.
fn find_edge<N: LazyNet>(
    net: &N,
    walks: &[Vec<Edge<N::Node>>],
    edge: Edge<N::Node>,
) -> Option<(usize, usize)>
    requires { AreWalks (N.shape net.now) (lists_in walks.now) }
    ensures found { IfSome result (λ r. IsOnWalk (lists_in walks.now) r.0 r.1 edge) }
    ensures absent { IfNone result (InFlow (lists_in walks.now) edge → ⊥) }
{
    for (which, walk) in walks.iter().enumerate() {
        if let Some(place) = place_of(net, walk.as_slice(), edge) {
            return Some((which, place));
        }
    }
    None
}

/// Where the edge stands on the walk.
fn place_of<N: LazyNet>(net: &N, walk: &[Edge<N::Node>], edge: Edge<N::Node>) -> Option<usize>
    requires { (x : N.Node) × Leads (N.shape net.now) x walk.now }
    ensures found { IfSome result (λ place. At walk.now place edge) }
    ensures absent { IfNone result (Has walk.now edge → ⊥) }
{
    let rank = net.rank(edge.from);
    let place = walk.partition_point(|other| rank < net.rank(other.from));
    if is_at::<N>(walk, place, edge) {
        Some(place)
    } else {
        None
    }
}

fn is_at<N: LazyNet>(walk: &[Edge<N::Node>], place: usize, edge: Edge<N::Node>) -> bool
    ensures { IsTrue result ↔ At walk.now place edge }
{
    place < walk.len() && walk[place] == edge
}

fn exchange_at<N: LazyNet>(
    alloc: Global,
    walks: &mut Vec<Vec<Edge<N::Node>>>,
    rest: &mut Vec<Edge<N::Node>>,
    which: usize,
    place: usize,
) -> Result<(), NoMemory>
    requires { (e : Edge N.Node) × IsOnWalk (lists_in walks.old.items) which place e }
    ensures { OnOk result ((e : Edge N.Node) → IsOnWalk (lists_in walks.old.items) which place e
        → Exchanges e (lists_in walks.old.items) (reverse rest.old.items)
        (lists_in walks.new.items) (reverse rest.new.items)) }
{
    let mut walk = walks.remove(which);
    exchange::<N>(alloc, &mut walk, rest, place)?;
    walks.insert(which, walk)?;
    Ok(())
}

/// The part of the walk after the place goes in hand, and what was in hand takes its place and that of
/// the edge before it.
fn exchange<N: LazyNet>(
    alloc: Global,
    walk: &mut Vec<Edge<N::Node>>,
    rest: &mut Vec<Edge<N::Node>>,
    place: usize,
) -> Result<(), NoMemory>
    requires { place < length walk.old.items }
    ensures walk { OnOk result (walk.new.items
        ≡ take place walk.old.items ++ reverse rest.old.items) }
    ensures rest { OnOk result (rest.new.items ≡ reverse (drop (place + 1) walk.old.items)) }
{
    let mut after = Vec::from_slice(alloc, &walk.as_slice()[place + 1..])?;
    after.reverse();
    walk.truncate(place);
    rest.reverse();
    walk.extend_from_slice(rest.as_slice())?;
    *rest = after;
    Ok(())
}
