// The wanted gates of a settling, and their tables.

ghost use Rattle.std.specs.Prelude.{◌≡◌, ◌<◌, ◌≤◌, length, map, IfOk};
ghost use Rattle.tm_bits.specs.Limits.{most_inputs};
ghost use Rattle.tm_circuit.specs.Plain.{widest};
ghost use Rattle.tm_unroll.specs.Latches.{need_of};
ghost use Rattle.tm_unroll.specs.Mappings.{table_of, tables_of, IsLawful, IsLawfulFrom};
ghost use Rattle.tm_unroll.specs.Chains.{HasChainsWithin};
ghost use Rattle.tm_replay.specs.declared.label.Label.{Label as LabelValue};
ghost use Rattle.tm_replay.specs.Labels.{label_in};
ghost use Rattle.tm_replay.specs.Replays.{HaveLost};
ghost use Rattle.tm_labels.specs.Settled.{IsSettledForOutputs};
ghost use Rattle.tm_cover.specs.Chosen.{IsTableAt, AreChosen};
ghost use Rattle.tm_cover.specs.Wanted.{AreWanted, AreLabelled};

use crate::wanted::wanted_gates;
use smallvec::SmallVec;
use std::alloc::Global;
use tm_bits::NoMemory;
use tm_circuit::{Circuit, Signal};
use tm_labels::Settled;
use tm_unroll::{Lut, Mapping};

/// The mapping of a settling in which the source gate of each output has a label: lawful, and of a period of at most the target.
pub fn choose(
    alloc: Global,
    circuit: &Circuit,
    k: u8,
    d: u8,
    settled: &Settled,
) -> Result<Mapping, NoMemory>
    requires few { (2 ≤ k) × (k ≤ most_inputs) }
    requires near { d ≤ 8 }
    requires narrow { widest circuit.now.drives ≤ k }
    requires settled { IsSettledForOutputs 0 circuit.now k d settled.now }
    requires sized { length settled.now.cuts ≡ length circuit.now.drives }
    requires labelled { HaveLost (λ _. 0) circuit.now settled.now.labels → ⊥ }
    ensures lawful { IfOk result (λ mapping. IsLawful circuit.now k d (tables_of mapping)) }
    ensures within { IfOk result (λ mapping. HasChainsWithin (tables_of mapping) settled.now.target) }
    ensures chosen { IfOk result (λ mapping. AreChosen circuit.now settled.now (tables_of mapping)) }
{
    choose_from(alloc, 0, circuit, k, d, settled)
}

/// `choose` with a base, the advance that stands for the present: the source gate of each output has the lag that it needs.
pub fn choose_from(
    alloc: Global,
    base: u8,
    circuit: &Circuit,
    k: u8,
    d: u8,
    settled: &Settled,
) -> Result<Mapping, NoMemory>
    requires few { (2 ≤ k) × (k ≤ most_inputs) }
    requires base { base ≤ 8 }
    requires near { d ≤ 16 }
    requires settled { IsSettledForOutputs base circuit.now k d settled.now }
    requires sized { length settled.now.cuts ≡ length circuit.now.drives }
    requires labelled { HaveLost (need_of base circuit.now) circuit.now settled.now.labels → ⊥ }
    ensures lawful { IfOk result (λ mapping. IsLawfulFrom base (need_of base circuit.now) circuit.now k d (tables_of mapping)) }
    ensures within { IfOk result (λ mapping. HasChainsWithin (tables_of mapping) settled.now.target) }
    ensures chosen { IfOk result (λ mapping. AreChosen circuit.now settled.now (tables_of mapping)) }
{
    // Only the contract speaks of the base and the limits.
    let _ = (base, k, d);
    let _sound = circuit.signals();
    let wanted = wanted_gates(alloc, circuit, settled)?;
    tables(alloc, circuit, settled, &wanted)
}

/// The tables of the marked gates, in ascending order.
fn tables(
    alloc: Global,
    circuit: &Circuit,
    settled: &Settled,
    wanted: &[bool],
) -> Result<Mapping, NoMemory>
    requires sized { length settled.now.cuts ≡ length circuit.now.drives }
    requires wanted { AreWanted circuit.now settled.now.cuts wanted.now }
    requires labelled { AreLabelled circuit.now settled.now }
    ensures { IfOk result (λ mapping. AreChosen circuit.now settled.now (tables_of mapping)) }
{
    let mut luts = Vec::new(alloc);
    for s in 0..circuit.signals() {
        if wanted[s as usize] {
            luts.push(table(alloc, settled, Signal(s))?)?;
        }
    }
    Ok(Mapping { luts })
}

/// The table of a gate at its label.
fn table(alloc: Global, settled: &Settled, gate: Signal) -> Result<Lut, NoMemory>
    requires sized { gate < length settled.now.cuts }
    requires labelled { (x : LabelValue) × (label_in settled.now.labels gate ≡ Some x) }
    ensures table { IfOk result (λ lut. IsTableAt settled.now (table_of lut)) }
    ensures gate { IfOk result (λ lut. lut.gate ≡ gate) }
{
    let Some(label) = settled.label(gate) else {
        unreachable!()
    };
    Ok(Lut {
        gate,
        lag: label.lag,
        leaves: SmallVec::from_slice(alloc, settled.cut(gate))?,
    })
}
