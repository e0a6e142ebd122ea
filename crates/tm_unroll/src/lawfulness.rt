// Whether a mapping is lawful.

ghost use Rattle.std.specs.Prelude.{◌≡◌, ℕ, ◌+◌, ◌<◌, ◌≤◌, List, length, map, Some, slice_get, IfOk, MatchOption};
ghost use Rattle.tm_bits.specs.Limits.{most_inputs};
ghost use Rattle.tm_circuit.specs.declared.lawful.TheConstants.{MOST_SIGNALS};
ghost use Rattle.tm_circuit.specs.Plain.{widest};
ghost use Rattle.tm_circuit.specs.Sound.{IsSound};
ghost use Rattle.tm_unroll.specs.Mappings.{Table, table_of, tables_of};
ghost use Rattle.tm_unroll.specs.declared.node.Lut.{Lut as LutValue};
ghost use Rattle.tm_unroll.specs.Faults.{IsJudged, AreGivenBelow};
ghost use Rattle.tm_unroll.specs.Lookups.{AreGreatestLags, IsTableJudged, IsFirstMissing};

use crate::cover::{Search, covers};
use crate::leaves::{has_leaves, is_placed};
use crate::lookup::{are_served, greatest_lags, has_source_table};
use crate::node::{Lut, MapWhy, Mapping, MappingFault};
use std::alloc::Global;
use tm_bits::NoMemory;
use tm_circuit::Circuit;

/// `None` where the mapping is lawful for tables of at most `k` leaves and lags of at most `d` steps, else its first fault:
/// table by table in the order of `MapWhy`, and then the outputs. A table costs at most the nodes that its root reaches and that
/// are not below all of its leaves; the memory of one table's search serves the next.
pub fn lawful(
    alloc: Global,
    circuit: &Circuit,
    k: u8,
    d: u8,
    mapping: &Mapping,
) -> Result<Option<MappingFault>, NoMemory>
    requires few { (2 ≤ k) × (k ≤ most_inputs) }
    requires near { d ≤ 8 }
    requires narrow { widest circuit.now.drives ≤ k }
    ensures { IfOk result (λ answer. IsJudged circuit.now k d (tables_of mapping.now) answer) }
{
    let lags = greatest_lags(alloc, circuit.signals() as usize, &mapping.luts)?;
    let mut search = Search::new(alloc);
    for place in 0..mapping.luts.len() {
        if let Some(why) = judge_table(&mut search, circuit, k, d, &mapping.luts, place, &lags)? {
            return Ok(Some(fault_at(place, why)));
        }
    }
    match first_missing(circuit, &lags) {
        None => Ok(None),
        Some(place) => Ok(Some(fault_at(place, MapWhy::Output))),
    }
}

/// The fault of the table or the output at a place. Entries count from 1.
fn fault_at(place: usize, why: MapWhy) -> MappingFault
    requires { place ≤ MOST_SIGNALS }
    ensures { result ≡ record { entry = place + 1; why = why } }
{
    MappingFault {
        entry: place as u32 + 1,
        why,
    }
}

/// `None` where the table at the place passes its tests, else the first that it fails.
fn judge_table(
    search: &mut Search,
    circuit: &Circuit,
    k: u8,
    d: u8,
    luts: &[Lut],
    place: usize,
    lags: &[Option<u8>],
) -> Result<Option<MapWhy>, NoMemory>
    requires sound { IsSound circuit.now }
    requires place { place < length luts.now }
    requires lags { AreGreatestLags (length circuit.now.drives) (map table_of luts.now) lags.now }
    ensures { IfOk result (λ answer. (t : LutValue) → slice_get luts.now place ≡ Some t
        → IsTableJudged circuit.now k d (map table_of luts.now) place (table_of t) answer) }
{
    let lut = &luts[place];
    if !is_placed(circuit, d, luts, place, lut) {
        return Ok(Some(MapWhy::Lag));
    }
    if !has_leaves(circuit, k, lut) {
        return Ok(Some(MapWhy::Leaves));
    }
    if !covers(search, circuit, lut)? {
        return Ok(Some(MapWhy::Uncovered));
    }
    if !are_served(circuit, lags, lut.leaves.as_slice()) {
        return Ok(Some(MapWhy::Unserved));
    }
    Ok(None)
}

/// The place of the first output whose source gate has no table.
fn first_missing(circuit: &Circuit, lags: &[Option<u8>]) -> Option<usize>
    requires sound { IsSound circuit.now }
    requires sized { length lags.now ≡ length circuit.now.drives }
    ensures { (tables : List Table) → AreGreatestLags (length circuit.now.drives) tables lags.now
        → MatchOption result (AreGivenBelow (λ _. 0) circuit.now tables (length circuit.now.outputs))
        (λ place. IsFirstMissing circuit.now tables place) }
{
    for (place, output) in circuit.outputs().iter().enumerate() {
        if !has_source_table(circuit, lags, *output) {
            return Some(place);
        }
    }
    None
}
