// The mapped circuit, built from its parts.

ghost use Rattle.std.specs.Prelude.{◌≡◌, ◌↔◌, ℕ, ◌≤◌, IfOk};
ghost use Rattle.tm_bits.specs.Limits.{most_inputs};
ghost use Rattle.tm_circuit.specs.Plain.{widest};
ghost use Rattle.tm_circuit.specs.Chain.{IsPeriod};
ghost use Rattle.tm_circuit.specs.Same.{IsSame};
ghost use Rattle.tm_circuit.specs.Build.{circuit_of};
ghost use Rattle.tm_parts.specs.Fits.{FitsMapping};
ghost use Rattle.tm_parts.specs.Names.{HasNamesWithin};
ghost use Rattle.tm_unroll.specs.Mappings.{tables_of, IsLawful};
ghost use Rattle.tm_unroll.specs.Chains.{IsPeriodOf};
ghost use Rattle.tm_unroll.specs.Depths.{tables_in};
ghost use Rattle.tm_mapped.specs.Mapped.{IsMapped};
ghost use Rattle.tm_net.specs.Limits.{longest_mapped_name};
ghost use Rattle.tm_net.specs.Registers.{IsSmallMapping};

use crate::parts::{clock, gates, inputs, outputs, registers};
use crate::plan::Plan;
use std::alloc::Global;
use tm_bits::NoMemory;
use tm_circuit::{Circuit, CircuitFault, Parts};
use tm_mapped::laws;
use tm_unroll::{Lut, Mapping};

/// The parts of the mapped circuit of a mapping.
fn mapped_parts(alloc: Global, circuit: &Circuit, luts: &[Lut]) -> Result<Parts, NoMemory>
    requires { IsSmallMapping circuit.now (tables_in luts.now) }
    ensures { IfOk result (λ parts. IsMapped circuit.now (tables_in luts.now) (circuit_of parts)) }
{
    let _sound = circuit.signals();
    let plan = Plan::new(alloc, circuit, luts)?;
    let latches = registers(alloc, circuit, &plan)?;
    Ok(Parts {
        model: circuit.model().try_clone(alloc)?,
        clock: clock(alloc, circuit, latches.len())?,
        inputs: inputs(alloc, circuit)?,
        latches,
        gates: gates(alloc, circuit, &plan, luts)?,
        outputs: outputs(alloc, circuit, &plan.layout)?,
    })
}

/// The mapped circuit of a lawful mapping: Same as the circuit mapped, with a gate of at most `k` pins for each table and the period
/// of the mapping. Its names have at most 774 bytes. Takes time in proportion to the circuit, the mapping and what is made.
pub fn mapped(
    alloc: Global,
    circuit: &Circuit,
    k: u8,
    d: u8,
    mapping: &Mapping,
) -> Result<Circuit, NoMemory>
    requires few { (2 ≤ k) × (k ≤ most_inputs) }
    requires near { d ≤ 8 }
    requires narrow { widest circuit.now.drives ≤ k }
    requires lawful { IsLawful circuit.now k d (tables_of mapping.now) }
    requires fits { FitsMapping circuit.now }
    ensures mapped { IfOk result (IsMapped circuit.now (tables_of mapping.now)) }
    ensures same { IfOk result (IsSame circuit.now) }
    ensures period { IfOk result (λ c. (p : ℕ) → IsPeriodOf (tables_of mapping.now) p ↔ IsPeriod c p) }
    ensures narrow { IfOk result (λ c. widest c.drives ≤ k) }
    ensures names { IfOk result (HasNamesWithin longest_mapped_name) }
{
    // Only the contract speaks of the limits of the mapping.
    let _ = (k, d);
    laws::single_rows_have_values();
    laws::mapped_is_same();
    laws::mapped_has_period();
    laws::mapped_is_narrow();
    laws::refused_for_memory_alone();
    let _sound = circuit.signals();
    let parts = mapped_parts(alloc, circuit, mapping.luts.as_slice())?;
    match Circuit::build(alloc, parts) {
        Ok(mapped) => Ok(mapped),
        Err(fault) => match fault {
            CircuitFault::NoMemory => Err(NoMemory),
            _ => unreachable!(),
        },
    }
}
