// Whether walks that are given as digits are a barrier, and what is wrong with them where they are none.

ghost use Rattle.std.specs.Prelude.{◌≡◌, ◌↔◌, ℕ, ◌≤◌, [], ◌∷◌, IsNone, IsTrue, IfOk, IfSome, MatchBool};
ghost use Rattle.tm_flow.specs.Cuts.{IsBarrier};
ghost use Rattle.tm_flow.specs.Judges.{Clashes, HasNoWalk, HasShared, IsWalkFault, Takes};
ghost use Rattle.tm_flow.specs.Lists.{Each, lists_in};
ghost use Rattle.tm_flow.specs.Nets.{IsIndexWalk, nodes_of};

use crate::net::LazyNet;
use indexmap::IndexSet;
use std::alloc::Global;
use std::hash::Hash;
use tm_bits::NoMemory;

/// The first thing that is wrong with walks that are no barrier.
#[derive(Debug, Clone, Copy, PartialEq, Eq)]
pub enum WalkFault {
    /// Their number is neither 1 nor `k + 1`: there are too few, or too many.
    TooFew,
    /// One of them is no walk from the root to an end.
    Path,
    /// A node that may be cut stands on two of them, or on the walk where there is one.
    Shared,
}

/// The memory of tests of walks, kept from test to test: the nodes that may be cut and stand on the
/// walks of the last one.
#[derive(Debug, Drop)]
pub struct Judge<T: Eq + Hash> {
    held: IndexSet<T>,
}

impl<T: Eq + Hash> Judge<T> {
    /// A judge that has taken no memory. Each test begins with nothing held, so that any judge serves as
    /// well, and no contract speaks of what a judge holds.
    pub fn new(alloc: Global) -> Judge<T> {
        Judge {
            held: IndexSet::new(alloc),
        }
    }
}

/// What is wrong with walks from the root, or `None` where they are a barrier for `k`. A walk is a list
/// of digits, the index of the read at each node that it leaves. The root counts as a node of no walk.
/// The time of a call follows the lengths of its walks and of those before it, and not the memory
/// that the judge has. Want of memory is the only error, and the judge serves after it as before.
pub fn judge_walks<N: LazyNet>(
    judge: &mut Judge<N::Node>,
    net: &N,
    root: N::Node,
    k: u32,
    walks: &[Vec<u8>],
) -> Result<Option<WalkFault>, NoMemory>
    requires { 1 ≤ k }
    ensures barrier { IfOk result (λ fault. IsNone fault
        ↔ IsBarrier (N.shape net.now) root k (lists_in walks.now)) }
    ensures fault { IfOk result (λ fault. IfSome fault
        (IsWalkFault (N.shape net.now) root k (lists_in walks.now))) }
{
    if walks.len() != 1 && walks.len() != k as usize + 1 {
        return Ok(Some(WalkFault::TooFew));
    }
    if !are_walks(net, root, walks) {
        return Ok(Some(WalkFault::Path));
    }
    if has_shared(judge, net, root, walks)? {
        return Ok(Some(WalkFault::Shared));
    }
    Ok(None)
}

fn are_walks<N: LazyNet>(net: &N, root: N::Node, walks: &[Vec<u8>]) -> bool
    ensures { MatchBool result (Each (IsIndexWalk (N.shape net.now) root) (lists_in walks.now))
        (HasNoWalk (N.shape net.now) root (lists_in walks.now)) }
{
    for walk in walks {
        if !is_walk(net, root, walk.as_slice()) {
            return false;
        }
    }
    true
}

/// Whether the digits lead from the root along reads to an end.
fn is_walk<N: LazyNet>(net: &N, root: N::Node, walk: &[u8]) -> bool
    ensures { IsTrue result ↔ IsIndexWalk (N.shape net.now) root walk.now }
{
    let mut node = root;
    for digit in walk {
        let index = u32::from(*digit);
        if net.reads(node) <= index {
            return false;
        }
        node = net.read(node, index);
    }
    net.is_end(node)
}

/// Whether a node that may be cut stands on two walks, or on the only one.
fn has_shared<N: LazyNet>(
    judge: &mut Judge<N::Node>,
    net: &N,
    root: N::Node,
    walks: &[Vec<u8>],
) -> Result<bool, NoMemory>
    requires { Each (IsIndexWalk (N.shape net.now) root) (lists_in walks.now) }
    ensures { IfOk result (λ shared. IsTrue shared
        ↔ HasShared (N.shape net.now) root (lists_in walks.now)) }
{
    // `truncate` removes what is held, where `clear` goes over all places of the set.
    judge.held.truncate(0);
    for walk in walks {
        if hold_walk(net, &mut judge.held, root, walk.as_slice())? {
            return Ok(true);
        }
    }
    Ok(walks.len() == 1 && !judge.held.is_empty())
}

/// Holds the nodes of a walk that may be cut, and tells whether one of them is held already. No node
/// stands twice on a walk, so that such a node is held by an earlier walk.
fn hold_walk<N: LazyNet>(
    net: &N,
    held: &mut IndexSet<N::Node>,
    root: N::Node,
    walk: &[u8],
) -> Result<bool, NoMemory>
    requires { IsIndexWalk (N.shape net.now) root walk.now }
    ensures { IfOk result (λ clashes. MatchBool clashes
        (Clashes (N.shape net.now) (nodes_of (N.shape net.now) root walk.now) held.old.keys)
        (Takes (N.shape net.now) (nodes_of (N.shape net.now) root walk.now) held.old.keys held.new.keys)) }
{
    let mut node = root;
    for digit in walk {
        node = net.read(node, u32::from(*digit));
        if hold(net, held, node)? {
            return Ok(true);
        }
    }
    Ok(false)
}

/// Holds a node that may be cut, and tells whether it is held already.
fn hold<N: LazyNet>(net: &N, held: &mut IndexSet<N::Node>, node: N::Node) -> Result<bool, NoMemory>
    ensures { IfOk result (λ clashes. MatchBool clashes
        (Clashes (N.shape net.now) (node ∷ []) held.old.keys)
        (Takes (N.shape net.now) (node ∷ []) held.old.keys held.new.keys)) }
{
    if !net.may_cut(node) {
        return Ok(false);
    }
    let is_new = held.insert(node)?;
    Ok(!is_new)
}
