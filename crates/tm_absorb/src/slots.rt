// The tables of a mapping by the signals of their gates.

ghost use Rattle.std.specs.Prelude.{◌≡◌, ◌<◌, ◌≤◌, length, map, Some, None, AllPairs, All, IfOk, OnOk, MatchOption};
ghost use Rattle.tm_unroll.specs.Mappings.{table_of};
ghost use Rattle.tm_absorb.specs.Slots.{present, slot_in, AreOwn};

use smallvec::SmallVec;
use std::alloc::Global;
use tm_bits::NoMemory;
use tm_circuit::Signal;
use tm_unroll::Lut;

/// The tables in the slots of their gates, for so many signals.
pub(crate) fn slots_of(
    alloc: Global,
    signals: usize,
    luts: &[Lut],
) -> Result<Vec<Option<Lut>>, NoMemory>
    requires ascending { AllPairs (λ t u. t.gate < u.gate) (map table_of luts.now) }
    requires within { All (λ lut. lut.gate < signals) luts.now }
    ensures sized { IfOk result (λ slots. length slots.items ≡ signals) }
    ensures own { IfOk result (λ slots. AreOwn slots.items) }
    ensures present { IfOk result (λ slots. present slots.items ≡ map table_of luts.now) }
{
    let mut slots = Vec::with_capacity(alloc, signals)?;
    for lut in luts {
        pad(&mut slots, place_of(lut))?;
        let copy = copy_of(alloc, lut)?;
        slots.push(Some(copy))?;
    }
    pad(&mut slots, signals)?;
    Ok(slots)
}

/// Adds empty slots up to a number of slots.
fn pad(slots: &mut Vec<Option<Lut>>, count: usize) -> Result<(), NoMemory>
    requires few { length slots.old.items ≤ count }
    requires own { AreOwn slots.old.items }
    ensures sized { OnOk result (length slots.new.items ≡ count) }
    ensures own { OnOk result (AreOwn slots.new.items) }
    ensures present { OnOk result (present slots.new.items ≡ present slots.old.items) }
{
    while slots.len() < count {
        slots.push(None)?;
    }
    Ok(())
}

/// The table in the slot of a gate, where there is one.
pub(crate) fn table_in(slots: &[Option<Lut>], gate: Signal) -> Option<&Lut>
    ensures { MatchOption result (slot_in slots.now gate ≡ None) (λ lut. slot_in slots.now gate ≡ Some (table_of lut.now)) }
{
    match slots.get(gate.0 as usize) {
        Some(slot) => slot.as_ref(),
        None => None,
    }
}

/// The slot of a table.
fn place_of(lut: &Lut) -> usize
    ensures { result ≡ lut.now.gate }
{
    lut.gate.0 as usize
}

/// A copy of a table.
fn copy_of(alloc: Global, lut: &Lut) -> Result<Lut, NoMemory>
    ensures { IfOk result (λ copy. table_of copy ≡ table_of lut.now) }
{
    Ok(Lut {
        gate: lut.gate,
        lag: lut.lag,
        leaves: SmallVec::from_slice(alloc, lut.leaves.as_slice())?,
    })
}

/// The tables in slots, in order.
pub(crate) fn luts_of(alloc: Global, slots: Vec<Option<Lut>>) -> Result<Vec<Lut>, NoMemory>
    ensures { IfOk result (λ luts. map table_of luts.items ≡ present slots.items) }
{
    let mut luts = Vec::new(alloc);
    for slot in slots {
        match slot {
            Some(lut) => luts.push(lut)?,
            None => {}
        }
    }
    Ok(luts)
}
