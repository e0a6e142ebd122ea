// The absorbed mapping.

ghost use Rattle.std.specs.Prelude.{ℕ, IfOk};
ghost use Rattle.tm_unroll.specs.Mappings.{tables_of, IsLawful};
ghost use Rattle.tm_unroll.specs.Chains.{HasChainsWithin};
ghost use Rattle.tm_absorb.specs.Absorbing.{IsAbsorbed};

use crate::laws;
use crate::under_way::UnderWay;
use std::alloc::Global;
use tm_bits::NoMemory;
use tm_circuit::Circuit;
use tm_unroll::Mapping;

/// The absorbed mapping of a lawful one, for tables of at most `k` leaves and lags of at most `d` steps. By the laws it is lawful and has
/// no longer chains. An absorption costs what its readers do, times their leaves.
pub fn absorb(
    alloc: Global,
    circuit: &Circuit,
    k: u8,
    d: u8,
    mapping: &Mapping,
) -> Result<Mapping, NoMemory>
    requires { IsLawful circuit.now k d (tables_of mapping.now) }
    ensures absorbed { IfOk result (λ new. IsAbsorbed circuit.now k (tables_of mapping.now) (tables_of new)) }
    ensures lawful { IfOk result (λ new. IsLawful circuit.now k d (tables_of new)) }
    ensures within { IfOk result (λ new. (most : ℕ) → HasChainsWithin (tables_of mapping.now) most
        → HasChainsWithin (tables_of new) most) }
{
    laws::absorbed_is_lawful();
    let _sound = circuit.signals();
    let mut under_way = UnderWay::new(alloc, circuit, k, d, mapping)?;
    while let Some(gate) = under_way.next(alloc, circuit, k, d)? {
        under_way.absorb(alloc, circuit, k, d, gate)?;
    }
    let absorbed = under_way.into_mapping(alloc)?;
    Ok(absorbed)
}
