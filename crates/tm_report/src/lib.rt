//! The report of a circuit: its size, its period, the first of its longest chains and the slack of each gate.
//! It takes time in proportion to the circuit: two numbers for each signal say how long the chains through it are.
//! A circuit has exactly one report.
#![tactic(auto)]

ghost use Rattle.std.specs.Prelude.{map, IfOk};
ghost use Rattle.tm_report.specs.Report.{IsReport};

mod chain;
pub mod laws;
mod line;
mod onward;
mod slack;

use crate::chain::first_chain;
use crate::line::head_lines;
use crate::onward::onward_of;
use crate::slack::push_slacks;
use std::alloc::Global;
use tm_bits::NoMemory;
use tm_circuit::Circuit;

/// The lines of the report of a circuit, each without its LF. Takes time in proportion to the circuit, with its names.
pub fn show(alloc: Global, circuit: &Circuit) -> Result<Vec<Vec<u8>>, NoMemory>
    ensures { IfOk result (λ lines. IsReport circuit.now (map (λ line. line.items) lines.items)) }
{
    let period = circuit.period(alloc)?;
    let onward = onward_of(alloc, circuit)?;
    let chain = first_chain(alloc, circuit, &onward, period)?;
    let mut lines = head_lines(alloc, circuit, period, &chain)?;
    push_slacks(alloc, &mut lines, circuit, &onward, period)?;
    Ok(lines)
}
