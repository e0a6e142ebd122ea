// The recovered mapping, which is tested before it is answered.

ghost use Rattle.std.specs.Prelude.{◌≡◌, ℕ, ◌≤◌, length, IfOk, IsTrue};
ghost use Rattle.tm_bits.specs.Limits.{most_inputs};
ghost use Rattle.tm_circuit.specs.Plain.{widest};
ghost use Rattle.tm_unroll.specs.Mappings.{tables_of, IsLawful};
ghost use Rattle.tm_unroll.specs.Chains.{HasChainsWithin};
ghost use Rattle.tm_area.specs.Recovered.{IsRecovered};

use crate::rounds::lighter;
use std::alloc::Global;
use tm_bits::NoMemory;
use tm_circuit::Circuit;
use tm_labels::Settled;
use tm_unroll::{Mapping, chain, lawful};

/// A lawful mapping with no longer chains and no more tables than the lawful one given, each table at the lag of its gate's label
/// unless it is the given one itself. The labels and cuts of the settling guide the search alone.
pub fn recover(
    alloc: Global,
    circuit: &Circuit,
    k: u8,
    d: u8,
    settled: &Settled,
    mapping: Mapping,
) -> Result<Mapping, NoMemory>
    requires few { (2 ≤ k) × (k ≤ most_inputs) }
    requires near { d ≤ 8 }
    requires narrow { widest circuit.now.drives ≤ k }
    requires sized { length settled.now.cuts ≡ length circuit.now.drives }
    requires lawful { IsLawful circuit.now k d (tables_of mapping) }
    ensures lawful { IfOk result (λ new. IsLawful circuit.now k d (tables_of new)) }
    ensures within { IfOk result (λ new. (most : ℕ) → HasChainsWithin (tables_of mapping) most
        → HasChainsWithin (tables_of new) most) }
    ensures fewer { IfOk result (λ new. length (tables_of new) ≤ length (tables_of mapping)) }
{
    let found = lighter(alloc, circuit, k, settled)?;
    if is_recovered(alloc, circuit, k, d, &mapping, &found)? {
        return Ok(found);
    }
    Ok(mapping)
}

/// Whether a mapping is lawful, with no longer chains and fewer tables than a lawful one.
fn is_recovered(
    alloc: Global,
    circuit: &Circuit,
    k: u8,
    d: u8,
    old: &Mapping,
    new: &Mapping,
) -> Result<bool, NoMemory>
    requires few { (2 ≤ k) × (k ≤ most_inputs) }
    requires near { d ≤ 8 }
    requires narrow { widest circuit.now.drives ≤ k }
    requires lawful { IsLawful circuit.now k d (tables_of old.now) }
    ensures { IfOk result (λ yes. IsTrue yes → IsRecovered circuit.now k d (tables_of old.now) (tables_of new.now)) }
{
    if new.luts.len() >= old.luts.len() {
        return Ok(false);
    }
    if lawful(alloc, circuit, k, d, new)?.is_some() {
        return Ok(false);
    }
    let least = chain(alloc, circuit, k, d, old)?;
    Ok(chain(alloc, circuit, k, d, new)? <= least)
}
