// The period of a mapping. Each table is one deeper than the deepest table at a leaf, and the greatest depth is the period.
// A table comes after those at its leaves: they have less lag, or the same lag and a gate that stands earlier in the order
// of the circuit. So the order is gone through once for each lag, and each leaf is looked at once.

ghost use Rattle.std.specs.Prelude.{◌≡◌, suc, ◌<◌, ◌≤◌, [], ◌∷◌, length, map, slice_index, All, AllPairs, IfOk, MatchOption};
ghost use Rattle.tm_bits.specs.Limits.{most_inputs};
ghost use Rattle.tm_circuit.specs.Plain.{widest, greatest};
ghost use Rattle.tm_circuit.specs.Sound.{IsSound};
ghost use Rattle.tm_unroll.specs.Mappings.{tables_of, IsLawful};
ghost use Rattle.tm_unroll.specs.Chains.{IsPeriodOf};
ghost use Rattle.tm_unroll.specs.Depths.{tables_in, IsMapping, ArePlaces, HaveLeavesBelow, HasNoRoot, IsRootAt, HaveRoom, IsDeepest, AddsNode, HasDepths};

use crate::node::{Lut, Mapping, Node};
use std::alloc::Global;
use tm_bits::NoMemory;
use tm_circuit::Circuit;

/// The period of a lawful mapping: the greatest number of tables in a list in which each table, by its gate and lag, is a
/// leaf of the next. Takes time in proportion to the circuit and the mapping.
pub fn chain(
    alloc: Global,
    circuit: &Circuit,
    k: u8,
    d: u8,
    mapping: &Mapping,
) -> Result<u32, NoMemory>
    requires few { (2 ≤ k) × (k ≤ most_inputs) }
    requires near { d ≤ 8 }
    requires narrow { widest circuit.now.drives ≤ k }
    requires lawful { IsLawful circuit.now k d (tables_of mapping.now) }
    ensures { IfOk result (λ period. IsPeriodOf (tables_of mapping.now) period) }
{
    // Only the contract speaks of the number of leaves.
    let _ = k;
    let luts = mapping.luts.as_slice();
    let depths = depths_by_gate(alloc, circuit, d, luts)?;
    Ok(deepest_table(luts, &depths))
}

/// The depth of the table of each signal, 0 where it has none.
fn depths_by_gate(
    alloc: Global,
    circuit: &Circuit,
    d: u8,
    luts: &[Lut],
) -> Result<Vec<u32>, NoMemory>
    requires near { d ≤ 8 }
    requires mapping { IsMapping circuit.now (tables_in luts.now) }
    ensures { IfOk result (λ depths. HasDepths circuit.now (tables_in luts.now) (suc d) [] depths.items) }
{
    let signals = circuit.signals() as usize;
    let places = places_by_gate(alloc, signals, luts)?;
    let mut depths = vec![in alloc; 0; signals]?;
    for lag in 0..=d {
        add_lag(circuit, luts, &places, lag, &mut depths);
    }
    Ok(depths)
}

/// The place of the table of each signal, where it has one.
fn places_by_gate(
    alloc: Global,
    signals: usize,
    luts: &[Lut],
) -> Result<Vec<Option<usize>>, NoMemory>
    requires within { All (λ lut. lut.gate < signals) luts.now }
    requires ascending { AllPairs (λ t u. t.gate < u.gate) (tables_in luts.now) }
    ensures { IfOk result (λ places. ArePlaces (tables_in luts.now) signals places.items) }
{
    let mut places = vec![in alloc; None; signals]?;
    for (place, lut) in luts.iter().enumerate() {
        places[lut.gate.0 as usize] = Some(place);
    }
    Ok(places)
}

/// Works out the depths of the tables of one lag, after those of all lesser lags.
fn add_lag(circuit: &Circuit, luts: &[Lut], places: &[Option<usize>], lag: u8, depths: &mut [u32])
    requires sound { IsSound circuit.now }
    requires mapping { IsMapping circuit.now (tables_in luts.now) }
    requires places { ArePlaces (tables_in luts.now) (length circuit.now.drives) places.now }
    requires depths { HasDepths circuit.now (tables_in luts.now) lag [] depths.old }
    ensures { HasDepths circuit.now (tables_in luts.now) (suc lag) [] depths.new }
{
    let order = circuit.order();
    for gate in order {
        let root = Node {
            signal: *gate,
            advance: lag,
        };
        add_node(luts, places, &root, depths);
    }
}

/// Works out the depth of the table with a node as its root, where there is one, from the depths at its leaves.
fn add_node(luts: &[Lut], places: &[Option<usize>], node: &Node, depths: &mut [u32])
    requires signal { node.now.signal < length places.now }
    requires places { ArePlaces (tables_in luts.now) (length places.now) places.now }
    requires sized { length depths.old ≡ length places.now }
    requires leaves { HaveLeavesBelow (tables_in luts.now) (length places.now) }
    requires room { HaveRoom (tables_in luts.now) depths.old }
    ensures { AddsNode (tables_in luts.now) node.now depths.old depths.new }
{
    if let Some(place) = table_at(luts, places, node) {
        let deepest = deepest_leaf(luts, places, depths, luts[place].leaves.as_slice());
        depths[node.signal.0 as usize] = deepest + 1;
    }
}

/// The greatest depth of the tables at some leaves, 0 where there is none.
fn deepest_leaf(luts: &[Lut], places: &[Option<usize>], depths: &[u32], leaves: &[Node]) -> u32
    requires signals { All (λ x. x.signal < length places.now) leaves.now }
    requires places { ArePlaces (tables_in luts.now) (length places.now) places.now }
    requires sized { length depths.now ≡ length places.now }
    ensures { IsDeepest (tables_in luts.now) depths.now leaves.now result }
{
    let mut deepest = 0;
    for leaf in leaves {
        deepest = deepest.max(depth_at(luts, places, depths, leaf));
    }
    deepest
}

/// The depth of the table with a node as its root, 0 where there is none.
fn depth_at(luts: &[Lut], places: &[Option<usize>], depths: &[u32], node: &Node) -> u32
    requires signal { node.now.signal < length places.now }
    requires places { ArePlaces (tables_in luts.now) (length places.now) places.now }
    requires sized { length depths.now ≡ length places.now }
    ensures { IsDeepest (tables_in luts.now) depths.now (node.now ∷ []) result }
{
    match table_at(luts, places, node) {
        Some(_) => depths[node.signal.0 as usize],
        None => 0,
    }
}

/// The place of the table whose gate and lag are those of a node.
fn table_at(luts: &[Lut], places: &[Option<usize>], node: &Node) -> Option<usize>
    requires signal { node.now.signal < length places.now }
    requires places { ArePlaces (tables_in luts.now) (length places.now) places.now }
    ensures { MatchOption result (HasNoRoot (tables_in luts.now) node.now) (IsRootAt (tables_in luts.now) node.now) }
{
    let place = places[node.signal.0 as usize]?;
    if luts[place].lag == node.advance {
        Some(place)
    } else {
        None
    }
}

/// The greatest depth of a table, 0 without tables.
fn deepest_table(luts: &[Lut], depths: &[u32]) -> u32
    requires { All (λ lut. lut.gate < length depths.now) luts.now }
    ensures { result ≡ greatest (map (λ lut. slice_index depths.now lut.gate) luts.now) }
{
    let mut deepest = 0;
    for lut in luts {
        deepest = deepest.max(depths[lut.gate.0 as usize]);
    }
    deepest
}
