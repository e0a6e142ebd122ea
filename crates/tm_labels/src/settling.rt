// Settlings from the first labels to their end.

ghost use Rattle.std.specs.Prelude.{◌≡◌, ◌≤◌, length, IfOk};
ghost use Rattle.tm_bits.specs.Limits.{most_inputs};
ghost use Rattle.tm_circuit.specs.Plain.{widest};
ghost use Rattle.tm_labels.specs.Settled.{IsSettled, IsSettledOrLost};

use crate::lost::{have_lost_from, need_of};
use crate::order::towards_outputs;
use crate::settled::Settled;
use crate::work::Work;
use std::alloc::Global;
use tm_bits::NoMemory;
use tm_circuit::{Circuit, Source};
use tm_merge::leads_to_output;

/// Settles a target, over tables of at most `k` leaves and lags of at most `d` steps.
pub fn settle(
    alloc: Global,
    circuit: &Circuit,
    k: u8,
    d: u8,
    target: u32,
) -> Result<Settled, NoMemory>
    requires few { (2 ≤ k) × (k ≤ most_inputs) }
    requires near { d ≤ 8 }
    requires narrow { widest circuit.now.drives ≤ k }
    requires target { target ≤ 100000 }
    ensures target { IfOk result (λ s. s.target ≡ target) }
    ensures settled { IfOk result (IsSettled 0 circuit.now k d) }
    ensures sized { IfOk result (λ s. length s.cuts ≡ length circuit.now.drives) }
{
    let mut work = Work::new(alloc, circuit, k, d, target)?;
    while work.turn()? {}
    Ok(work.into_settled())
}

/// Settles the gates that lead to an output, with a base, the advance that stands for the present, and ends early where the source
/// gate of some output has lost the label that it needs.
pub fn settle_outputs(
    alloc: Global,
    base: u8,
    circuit: &Circuit,
    k: u8,
    d: u8,
    target: u32,
) -> Result<Settled, NoMemory>
    requires few { (2 ≤ k) × (k ≤ most_inputs) }
    requires base { base ≤ 8 }
    requires near { d ≤ 16 }
    requires narrow { widest circuit.now.drives ≤ k }
    requires target { target ≤ 100000 }
    ensures ends { IfOk result (IsSettledOrLost base circuit.now k d target) }
    ensures sized { IfOk result (λ s. length s.cuts ≡ length circuit.now.drives) }
{
    let counts = leads_to_output(alloc, circuit)?;
    let needs = needs(alloc, base, circuit)?;
    let towards = towards_outputs(alloc, circuit)?;
    let mut work = Work::over(alloc, base, circuit, k, d, target, counts, towards)?;
    while work.turn()? {
        if may_have_lost(&needs, &work) && have_lost_from(base, circuit, work.labels()) {
            return Ok(work.into_settled());
        }
    }
    Ok(work.into_settled())
}

/// For each gate that is the source of an output the greatest lag that such an output needs.
fn needs(alloc: Global, base: u8, circuit: &Circuit) -> Result<Vec<Option<u8>>, NoMemory> {
    let mut needs: Vec<Option<u8>> = vec![in alloc; None; circuit.signals() as usize]?;
    let _sound = circuit.signals();
    for output in circuit.outputs() {
        if let Source::Gate(gate) = circuit.source(*output) {
            let need = need_of(base, circuit, *output);
            if let Some(most) = needs.get_mut(gate.0 as usize) {
                *most = Some(need.max(most.unwrap_or(0)));
            }
        }
    }
    Ok(needs)
}

/// Whether the last drop may have taken a label that an output needs.
fn may_have_lost(needs: &[Option<u8>], work: &Work<'_>) -> bool {
    let Some(drop) = work.drops().last() else {
        return false;
    };
    let place = drop.gate.0 as usize;
    match (
        needs.get(place).copied().flatten(),
        work.labels().get(place).copied().flatten(),
    ) {
        (None, _) => false,
        (Some(_), None) => true,
        (Some(need), Some(label)) => label.lag < need,
    }
}
