// Leaves in order, as a table has them, and leaves of which one is replaced by others, as where cuts are merged, and where
// a table takes in the table of a leaf.

ghost use Rattle.std.specs.Prelude.{◌≡◌, ◌↔◌, ◌≤◌, [], ◌∷◌, length, Some, AllPairs, IsTrue, IsOk, IfOk, MatchBool, MatchOption};
ghost use Rattle.tm_unroll.specs.Nodes.{IsBefore};
ghost use Rattle.tm_unroll.specs.Replaced.{IsInOrder, IsReplacement, ReplacesBeyond, Joins, JoinsBeyond, IsTaken, PartsAt};

use crate::node::Node;
use smallvec::SmallVec;
use std::alloc::Global;
use tm_bits::NoMemory;

/// The nodes of a list, each once and in strictly ascending order. It never fails for up to 8 nodes.
pub fn in_order(alloc: Global, nodes: &[Node]) -> Result<SmallVec<Node, 8>, NoMemory>
    ensures order { IfOk result (λ ordered. IsInOrder nodes.now ordered.items) }
    ensures succeeds { length nodes.now ≤ 8 → IsOk result }
{
    let mut ordered = SmallVec::new(alloc);
    // There is room for all of them.
    let _ = add_nodes(&mut ordered, nodes, None, nodes.len())?;
    Ok(ordered)
}

/// The leaves other than one, together with those that replace it, each once and in strictly ascending order. `None` where
/// these are more than `k`. The given ones may stand in any order. It never fails where `k` is at most 8.
pub fn replace_leaf(
    alloc: Global,
    leaves: &[Node],
    leaf: Node,
    others: &[Node],
    k: u8,
) -> Result<Option<SmallVec<Node, 8>>, NoMemory>
    ensures answer { IfOk result (λ answer. MatchOption answer (ReplacesBeyond k leaves.now leaf others.now)
        (λ new. IsReplacement k leaves.now leaf others.now new.items)) }
    ensures succeeds { k ≤ 8 → IsOk result }
{
    let mut new = SmallVec::new(alloc);
    if !add_nodes(&mut new, leaves, Some(leaf), k as usize)? {
        return Ok(None);
    }
    if !add_nodes(&mut new, others, None, k as usize)? {
        return Ok(None);
    }
    Ok(Some(new))
}

/// Adds the nodes of a list other than the one that is left out, and tells whether there is room for all of them among `k`.
fn add_nodes(
    ascending: &mut SmallVec<Node, 8>,
    nodes: &[Node],
    but: Option<Node>,
    k: usize,
) -> Result<bool, NoMemory>
    requires ascending { AllPairs IsBefore ascending.old.items }
    requires few { length ascending.old.items ≤ k }
    ensures all { IfOk result (λ all. MatchBool all (Joins (IsTaken but nodes.now) k ascending.old.items ascending.new.items)
        (JoinsBeyond (IsTaken but nodes.now) k ascending.old.items)) }
    ensures succeeds { k ≤ ascending.old.capacity → IsOk result }
    ensures capacity { k ≤ ascending.old.capacity → ascending.new.capacity ≡ ascending.old.capacity }
{
    for node in nodes {
        if !add_node(ascending, *node, but, k)? {
            return Ok(false);
        }
    }
    Ok(true)
}

/// Adds a node at its place, unless it is left out or stands there, and tells whether there is room for it among `k`.
fn add_node(
    ascending: &mut SmallVec<Node, 8>,
    node: Node,
    but: Option<Node>,
    k: usize,
) -> Result<bool, NoMemory>
    requires ascending { AllPairs IsBefore ascending.old.items }
    requires few { length ascending.old.items ≤ k }
    ensures added { IfOk result (λ added. MatchBool added
        (Joins (IsTaken but (node ∷ [])) k ascending.old.items ascending.new.items)
        (JoinsBeyond (IsTaken but (node ∷ [])) k ascending.old.items)) }
    ensures succeeds { k ≤ ascending.old.capacity → IsOk result }
    ensures capacity { k ≤ ascending.old.capacity → ascending.new.capacity ≡ ascending.old.capacity }
{
    if is_left_out(but, node) || ascending.as_slice().contains(&node) {
        return Ok(true);
    }
    if ascending.len() >= k {
        return Ok(false);
    }
    let place = count_before(ascending.as_slice(), &node);
    ascending.insert(place, node)?;
    Ok(true)
}

/// Whether a node is the one that is left out.
fn is_left_out(but: Option<Node>, node: Node) -> bool
    ensures { IsTrue result ↔ (but ≡ Some node) }
{
    match but {
        Some(other) => other == node,
        None => false,
    }
}

/// How many of the nodes stand before one.
fn count_before(ascending: &[Node], node: &Node) -> usize
    requires { AllPairs IsBefore ascending.now }
    ensures { PartsAt ascending.now node.now result }
{
    for (place, other) in ascending.iter().enumerate() {
        if !other.is_before(*node) {
            return place;
        }
    }
    ascending.len()
}
