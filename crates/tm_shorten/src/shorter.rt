// The shorter list of drops, tested by a replay.

ghost use Rattle.std.specs.Prelude.{◌≡◌, ◌↔◌, ◌^◌, ◌<◌, ◌≤◌, length, map, IsTrue, IfOk};
ghost use Rattle.tm_replay.specs.Replays.{drop_of, Refutes};
ghost use Rattle.tm_shorten.specs.Parts.{IsPartOf};

use crate::marking::mark;
use crate::parts::{Parts, join, part};
use std::alloc::Global;
use tm_bits::NoMemory;
use tm_circuit::Circuit;
use tm_replay::{Lowering, Replayed, have_lost, laws, replay};

/// Drops that refute a target as those given do, for tables of at most `k` leaves and lags of at most `d` steps: some of them, in
/// their order. It costs what the lengths of the walks add up to.
pub fn shorten(
    alloc: Global,
    circuit: &Circuit,
    k: u8,
    d: u8,
    target: u32,
    drops: Vec<Lowering>,
) -> Result<Vec<Lowering>, NoMemory>
    requires some { 1 ≤ k }
    requires few { length drops.items < 2 ^ 32 }
    requires refute { Refutes circuit.now k d target (map drop_of drops.items) }
    ensures refute { IfOk result (λ shorter. Refutes circuit.now k d target (map drop_of shorter.items)) }
    ensures part { IfOk result (λ shorter. IsPartOf shorter.items drops.items) }
{
    let marks = mark(alloc, circuit, d, target, &drops)?;
    let Parts { kept, left } = part(alloc, &marks, drops)?;
    let enough = refutes(alloc, circuit, k, d, target, &kept)?;
    if enough {
        return Ok(kept);
    }
    let whole = join(alloc, &marks, kept, left)?;
    Ok(whole)
}

/// Whether drops refute a target.
fn refutes(
    alloc: Global,
    circuit: &Circuit,
    k: u8,
    d: u8,
    target: u32,
    drops: &[Lowering],
) -> Result<bool, NoMemory>
    requires some { 1 ≤ k }
    requires few { length drops.now < 2 ^ 32 }
    ensures { IfOk result (λ yes. IsTrue yes ↔ Refutes circuit.now k d target (map drop_of drops.now)) }
{
    laws::one_fault();
    match replay(alloc, circuit, k, d, target, drops)? {
        Replayed::Labels(labels) => Ok(have_lost(circuit, &labels)),
        Replayed::Fault(_) => Ok(false),
    }
}
