// The two-way bound of a circuit.

ghost use Rattle.std.specs.Prelude.{◌≡◌, ◌≤◌, length, IfOk};
ghost use Rattle.tm_bits.specs.Limits.{most_inputs};
ghost use Rattle.tm_circuit.specs.Plain.{widest};
ghost use Rattle.tm_search.specs.Optimal.{IsLeastPeriodOf};
ghost use Rattle.two_way.specs.Least.{IsTwoWayLeast, IsAnswer};

use crate::amounts::{two_drops, two_luts};
use crate::answer::TwoWay;
use std::alloc::Global;
use tm_bits::NoMemory;
use tm_circuit::Circuit;
use tm_cover::choose_from;
use tm_search::{Least, least_for_outputs};

/// The least period of the lawful mappings of a circuit into tables of at most `k` leaves, over which registers move forward by at most
/// `d` steps and backward by at most `b`: a mapping that has it, and drops that refute the period below it. Where `b` is 0 it is the
/// least period of the mappings that move registers forward alone.
pub fn least(alloc: Global, circuit: &Circuit, k: u8, d: u8, b: u8) -> Result<TwoWay, NoMemory>
    requires few { (2 ≤ k) × (k ≤ most_inputs) }
    requires near { d ≤ 8 }
    requires back { b ≤ 8 }
    requires narrow { widest circuit.now.drives ≤ k }
    requires signals { length circuit.now.drives ≤ 100000 }
    ensures answer { IfOk result (IsAnswer circuit.now k d b) }
    ensures least { IfOk result (λ answer. IsTwoWayLeast circuit.now k d b answer.period) }
    ensures one_way { b ≡ 0 → IfOk result (λ answer. IsLeastPeriodOf circuit.now k d answer.period) }
{
    let _sound = circuit.signals();
    let most = d + b;
    let Least { period, at, below } = least_for_outputs(alloc, b, circuit, k, most)?;
    let mapping = choose_from(alloc, b, circuit, k, most, &at)?;
    let luts = two_luts(alloc, b, &mapping.luts)?;
    let drops = match below {
        None => None,
        Some(below) => Some(two_drops(alloc, b, below.into_drops())?),
    };
    Ok(TwoWay {
        period,
        luts,
        drops,
    })
}
