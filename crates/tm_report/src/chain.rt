// The first of the longest chains: from the first gate that begins one, always to the first gate that goes on as far.

ghost use Rattle.std.specs.Prelude.{◌≡◌, ℕ, ◌≤◌, ◌∷◌, MatchOption, IfOk};
ghost use Rattle.tm_circuit.specs.Plain.{drive_of, is_gate};
ghost use Rattle.tm_circuit.specs.Chain.{IsGate, IsPeriod};
ghost use Rattle.tm_report.specs.Report.{IsFirstLongest};
ghost use Rattle.tm_report.specs.Onward.{IsOnward, BeginsLongest, way_behind};

use crate::onward::Onward;
use std::alloc::Global;
use tm_bits::NoMemory;
use tm_circuit::{Circuit, Driver, Signal};

/// Whether a driver is that of a gate.
pub fn is_gate(driver: &Driver) -> bool
    ensures { result ≡ is_gate (drive_of driver.now) }
{
    matches!(driver, Driver::Gate { .. })
}

/// The first gate that begins a chain as long as the period, `None` where the period is 0.
fn first_gate(circuit: &Circuit, onward: &[Onward], period: u32) -> Option<Signal>
    requires { IsOnward circuit.now onward.now }
    ensures { MatchOption result ((s : ℕ) → ¬ BeginsLongest circuit.now onward.now period s)
        (λ g. BeginsLongest circuit.now onward.now period g
        × ((s : ℕ) → BeginsLongest circuit.now onward.now period s → g ≤ s)) }
{
    for s in 0..circuit.signals() {
        let begins = onward[s as usize].gates + 1 == period;
        if begins && is_gate(circuit.driver(Signal(s))) {
            return Some(Signal(s));
        }
    }
    None
}

/// The first longest chain of a circuit, which has no gates where the period is 0.
pub fn first_chain(
    alloc: Global,
    circuit: &Circuit,
    onward: &[Onward],
    period: u32,
) -> Result<Vec<Signal>, NoMemory>
    requires onward { IsOnward circuit.now onward.now }
    requires period { IsPeriod circuit.now period }
    ensures { IfOk result (λ chain. IsFirstLongest circuit.now chain.items) }
{
    match first_gate(circuit, onward, period) {
        None => Ok(Vec::new(alloc)),
        Some(first) => chain_from(alloc, circuit, onward, first),
    }
}

/// A gate and the gates of the first of the longest ways on behind it.
fn chain_from(
    alloc: Global,
    circuit: &Circuit,
    onward: &[Onward],
    first: Signal,
) -> Result<Vec<Signal>, NoMemory>
    requires onward { IsOnward circuit.now onward.now }
    requires gate { IsGate circuit.now.drives first }
    ensures { IfOk result (λ chain. chain.items ≡ first ∷ way_behind onward.now first) }
{
    let mut chain = Vec::new(alloc);
    chain.push(first)?;
    let mut gate = first;
    while onward[gate.0 as usize].gates > 0 {
        gate = onward[gate.0 as usize].next;
        chain.push(gate)?;
    }
    Ok(chain)
}
