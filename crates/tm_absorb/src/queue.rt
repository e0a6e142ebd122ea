// The gates whose tables may have become absorbable.

ghost use Rattle.std.specs.Prelude.{ℕ, ◌<◌, length, All, IfOk, OnOk, Contains};
ghost use Rattle.tm_unroll.specs.Mappings.{table_of};
ghost use Rattle.tm_unroll.specs.declared.node.Lut.{Lut as LutValue};
ghost use Rattle.tm_absorb.specs.Admitting.{IsQueued};
ghost use Rattle.tm_absorb.specs.Slots.{KeepsQueue};

use crate::readers::sources_of;
use std::alloc::Global;
use std::collections::BTreeSet;
use tm_bits::NoMemory;
use tm_circuit::{Circuit, Signal};
use tm_unroll::Lut;

/// The gates of some tables.
pub(crate) fn gates_of(alloc: Global, luts: &[Lut]) -> Result<BTreeSet<u32>, NoMemory>
    ensures { IfOk result (λ queue. (lut : LutValue) → Contains luts.now lut → Contains queue.keys lut.gate) }
{
    let mut queue = BTreeSet::new(alloc);
    for lut in luts {
        add(&mut queue, lut.gate)?;
    }
    Ok(queue)
}

/// Puts the gate of a table into the queue, and the gates that are the sources of its leaves.
pub(crate) fn enqueue(
    alloc: Global,
    circuit: &Circuit,
    queue: &mut BTreeSet<u32>,
    lut: &Lut,
) -> Result<(), NoMemory>
    requires { All (λ x. x.signal < length circuit.now.drives) lut.now.leaves.items }
    ensures keeps { OnOk result (KeepsQueue queue.old.keys queue.new.keys) }
    ensures queued { OnOk result (IsQueued circuit.now.drives queue.new.keys (table_of lut.now)) }
{
    add(queue, lut.gate)?;
    let sources = sources_of(alloc, circuit, lut.leaves.as_slice())?;
    let gates = sources.as_slice();
    add_all(queue, gates)?;
    Ok(())
}

/// Puts some gates into the queue.
fn add_all(queue: &mut BTreeSet<u32>, gates: &[Signal]) -> Result<(), NoMemory>
    ensures keeps { OnOk result (KeepsQueue queue.old.keys queue.new.keys) }
    ensures has { OnOk result ((g : ℕ) → Contains gates.now g → Contains queue.new.keys g) }
{
    for gate in gates {
        add(queue, *gate)?;
    }
    Ok(())
}

/// Puts a gate into the queue.
fn add(queue: &mut BTreeSet<u32>, gate: Signal) -> Result<(), NoMemory>
    ensures keeps { OnOk result (KeepsQueue queue.old.keys queue.new.keys) }
    ensures has { OnOk result (Contains queue.new.keys gate) }
{
    queue.insert(gate.0)?;
    Ok(())
}
