// The slack of each gate: the period less the gates on the longest chain up to it and behind it.

ghost use Rattle.std.specs.Prelude.{◌≡◌, ◌++◌, map, OnOk};
ghost use Rattle.tm_circuit.specs.Chain.{IsPeriod};
ghost use Rattle.tm_report.specs.Report.{gates_of, slack_line};
ghost use Rattle.tm_report.specs.Onward.{IsOnward, slack_of};

use crate::chain::is_gate;
use crate::line::slack_line;
use crate::onward::Onward;
use std::alloc::Global;
use tm_bits::NoMemory;
use tm_circuit::{Circuit, Signal};

/// Appends the line of each gate's slack.
pub fn push_slacks(
    alloc: Global,
    lines: &mut Vec<Vec<u8>>,
    circuit: &Circuit,
    onward: &[Onward],
    period: u32,
) -> Result<(), NoMemory>
    requires onward { IsOnward circuit.now onward.now }
    requires period { IsPeriod circuit.now period }
    ensures { OnOk result (map (λ line. line.items) lines.new.items
        ≡ map (λ line. line.items) lines.old.items
        ++ map (λ g. slack_line circuit.now g (slack_of circuit.now onward.now period g))
        (gates_of circuit.now.drives)) }
{
    for s in 0..circuit.signals() {
        let gate = Signal(s);
        if is_gate(circuit.driver(gate)) {
            let slack = period - circuit.rank(gate) - onward[s as usize].gates;
            lines.push(slack_line(alloc, circuit, gate, slack)?)?;
        }
    }
    Ok(())
}
