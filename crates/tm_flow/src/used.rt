// Which nodes the walks of the flow come to: each of them has its number and its mark.

ghost use Rattle.std.specs.Prelude.{◌≡◌, ◌<◌, length, map, OnOk};
ghost use Rattle.tm_flow.specs.Lists.{Has, Each, At};
ghost use Rattle.tm_flow.specs.Searches.{IsNumbered, Uses};

use crate::flow::Edge;
use crate::net::LazyNet;
use crate::search::{Met, Taken, number_of};
use tm_bits::NoMemory;

/// Marks each node of the way.
pub fn use_way<N: LazyNet>(met: &mut Met<N::Node>, way: &[Taken<N::Node>])
    requires numbered { IsNumbered met.old.nodes.keys met.old.marks.items }
    requires numbers { Each (λ t. At met.old.nodes.keys t.number t.side.node) way.now }
    ensures nodes { met.new.nodes.keys ≡ met.old.nodes.keys }
    ensures uses { Uses (Has (map (λ t. t.side.node) way.now)) met.old.nodes.keys met.old.marks.items
        met.new.nodes.keys met.new.marks.items }
{
    for taken in way {
        use_number::<N>(met, taken.number);
    }
}

/// Marks each node of the walk.
pub fn use_walk<N: LazyNet>(met: &mut Met<N::Node>, walk: &[Edge<N::Node>]) -> Result<(), NoMemory>
    requires { IsNumbered met.old.nodes.keys met.old.marks.items }
    ensures { OnOk result (Uses (Has (map (λ e. e.to) walk.now)) met.old.nodes.keys
        met.old.marks.items met.new.nodes.keys met.new.marks.items) }
{
    for edge in walk {
        use_node::<N>(met, edge.to)?;
    }
    Ok(())
}

fn use_node<N: LazyNet>(met: &mut Met<N::Node>, node: N::Node) -> Result<(), NoMemory>
    requires { IsNumbered met.old.nodes.keys met.old.marks.items }
    ensures { OnOk result (Uses (λ v. v ≡ node) met.old.nodes.keys met.old.marks.items
        met.new.nodes.keys met.new.marks.items) }
{
    let number = number_of::<N>(met, node)?;
    use_number::<N>(met, number);
    Ok(())
}

/// Marks the node that has the number.
fn use_number<N: LazyNet>(met: &mut Met<N::Node>, number: usize)
    requires numbered { IsNumbered met.old.nodes.keys met.old.marks.items }
    requires within { number < length met.old.nodes.keys }
    ensures nodes { met.new.nodes.keys ≡ met.old.nodes.keys }
    ensures uses { Uses (At met.old.nodes.keys number) met.old.nodes.keys met.old.marks.items
        met.new.nodes.keys met.new.marks.items }
{
    met.marks[number] = met.marks[number].with_use();
}
