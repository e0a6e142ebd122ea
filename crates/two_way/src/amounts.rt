// Amounts in place of the numbers that stand for them over a base.

ghost use Rattle.std.specs.Prelude.{◌≡◌, ◌≤◌, map, Contains, IfOk};
ghost use Rattle.tm_unroll.specs.declared.node.Node.{Node as NodeValue};
ghost use Rattle.tm_unroll.specs.Mappings.{Table, table_of};
ghost use Rattle.tm_replay.specs.declared.label.Lowering.{Lowering as LoweringValue};
ghost use Rattle.tm_replay.specs.Replays.{drop_of};
ghost use Rattle.two_way.specs.Mappings.{table_of as two_table_of};
ghost use Rattle.two_way.specs.Replays.{drop_of as two_drop_of};
ghost use Rattle.two_way.specs.Amounts.{amount, two_node, two_table, two_drop, IsLow};

use crate::answer::{TwoDrop, TwoLut, TwoNode};
use std::alloc::Global;
use tm_bits::NoMemory;
use tm_replay::Lowering;
use tm_unroll::{Lut, Node};

/// The tables of a mapping over the base `b`, with amounts.
pub(crate) fn two_luts(alloc: Global, b: u8, luts: &[Lut]) -> Result<Vec<TwoLut>, NoMemory>
    requires base { b ≤ 8 }
    requires low { (t : Table) → Contains (map table_of luts.now) t → IsLow t }
    ensures { IfOk result (λ two. map two_table_of two.items ≡ map (two_table b) (map table_of luts.now)) }
{
    let mut two = Vec::with_capacity(alloc, luts.len())?;
    for lut in luts {
        two.push(two_lut(alloc, b, lut)?)?;
    }
    Ok(two)
}

/// A table with amounts.
fn two_lut(alloc: Global, b: u8, lut: &Lut) -> Result<TwoLut, NoMemory>
    requires base { b ≤ 8 }
    requires low { IsLow (table_of lut.now) }
    ensures { IfOk result (λ two. two_table_of two ≡ two_table b (table_of lut.now)) }
{
    Ok(TwoLut {
        gate: lut.gate,
        lag: amount(b, lut.lag),
        leaves: two_nodes(alloc, b, lut.leaves.as_slice())?,
    })
}

/// Nodes with amounts.
fn two_nodes(alloc: Global, b: u8, nodes: &[Node]) -> Result<Vec<TwoNode>, NoMemory>
    requires base { b ≤ 8 }
    requires low { (x : NodeValue) → Contains nodes.now x → x.advance ≤ 16 }
    ensures { IfOk result (λ two. two.items ≡ map (two_node b) nodes.now) }
{
    let mut two = Vec::with_capacity(alloc, nodes.len())?;
    for node in nodes {
        two.push(TwoNode {
            signal: node.signal,
            advance: amount(b, node.advance),
        })?;
    }
    Ok(two)
}

/// Drops with amounts. Their walks are moved.
pub(crate) fn two_drops(
    alloc: Global,
    b: u8,
    drops: Vec<Lowering>,
) -> Result<Vec<TwoDrop>, NoMemory>
    requires base { b ≤ 8 }
    requires low { (x : LoweringValue) → Contains drops.items x → x.lag ≤ 16 }
    ensures { IfOk result (λ two. map two_drop_of two.items ≡ map (two_drop b) (map drop_of drops.items)) }
{
    let mut two = Vec::with_capacity(alloc, drops.len())?;
    for drop in drops {
        let Lowering {
            gate,
            lag,
            arrival,
            walks,
        } = drop;
        two.push(TwoDrop {
            gate,
            lag: amount(b, lag),
            arrival,
            walks,
        })?;
    }
    Ok(two)
}

/// The amount for which a number stands over the base `b`.
fn amount(b: u8, raised: u8) -> i8
    requires base { b ≤ 8 }
    requires low { raised ≤ 16 }
    ensures { result ≡ amount b raised }
{
    raised as i8 - b as i8
}
