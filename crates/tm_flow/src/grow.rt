// One more walk: the steps of a way are undone from its end back to the root, with the walk from there
// to an end in hand.

ghost use Rattle.std.specs.Prelude.{◌≡◌, ◌+◌, ◌⊎◌, length, map, reverse, OnOk};
ghost use Rattle.tm_flow.specs.Flows.{AreWalks, InFlow, IsFlow};
ghost use Rattle.tm_flow.specs.Lists.{Has, lists_in};
ghost use Rattle.tm_flow.specs.Searches.{CanUndo, IsUndone, CanGrow};
ghost use Rattle.tm_flow.specs.declared.flow.Edge.{Edge};

use crate::flow::{Edge, take_back};
use crate::net::LazyNet;
use crate::search::{Side, Step, Taken};
use std::alloc::Global;
use tm_bits::NoMemory;

/// Adds to the flow the walk that a search has found the way for.
pub fn augment<N: LazyNet>(
    alloc: Global,
    net: &N,
    walks: &mut Vec<Vec<Edge<N::Node>>>,
    way: &[Taken<N::Node>],
) -> Result<(), NoMemory>
    requires { (root : N.Node) × CanGrow (N.shape net.now) N.Node.eq root
        (lists_in walks.old.items) way.now }
    ensures flow { OnOk result ((root : N.Node)
        → CanGrow (N.shape net.now) N.Node.eq root (lists_in walks.old.items) way.now
        → IsFlow (N.shape net.now) N.Node.eq root (lists_in walks.new.items)) }
    ensures len { OnOk result (length walks.new.items ≡ length walks.old.items + 1) }
    ensures edges { OnOk result ((e : Edge N.Node) → InFlow (lists_in walks.new.items) e
        → InFlow (lists_in walks.old.items) e ⊎ Has (map (λ t. t.side.node) way.now) e.to) }
{
    let mut rest = Vec::with_capacity(alloc, way.len())?;
    let mut at = way.len().saturating_sub(1);
    while at > 0 {
        let taken = way[at];
        at -= 1;
        undo(alloc, net, walks, &mut rest, way[at].side, taken)?;
    }
    rest.reverse();
    walks.push(rest)?;
    Ok(())
}

/// Undoes the step from the side before to the one that was taken.
fn undo<N: LazyNet>(
    alloc: Global,
    net: &N,
    walks: &mut Vec<Vec<Edge<N::Node>>>,
    rest: &mut Vec<Edge<N::Node>>,
    before: Side<N::Node>,
    taken: Taken<N::Node>,
) -> Result<(), NoMemory>
    requires walks { AreWalks (N.shape net.now) (lists_in walks.old.items) }
    requires step { CanUndo before taken.step taken.side (lists_in walks.old.items)
        (reverse rest.old.items) }
    ensures { OnOk result (IsUndone before taken.step taken.side (lists_in walks.old.items)
        (reverse rest.old.items) (lists_in walks.new.items) (reverse rest.new.items)) }
{
    match taken.step {
        Step::Cross | Step::Return => Ok(()),
        Step::Read(index) => {
            rest.push(Edge {
                from: before.node,
                index,
                to: taken.side.node,
            })?;
            Ok(())
        }
        Step::Back(index) => {
            take_back(
                alloc,
                net,
                walks,
                rest,
                Edge {
                    from: taken.side.node,
                    index,
                    to: before.node,
                },
            )
        }
    }
}
