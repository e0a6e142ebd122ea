// The lines of a report, each without its LF.

ghost use Rattle.std.specs.Prelude.{◌≡◌, ◌<◌, [], ◌∷◌, length, map, All, IfOk};
ghost use Rattle.tm_report.specs.Report.{model_line, counts_line, widest_line, period_line, chain_line, slack_line};

use std::alloc::Global;
use tm_bits::NoMemory;
use tm_circuit::{Circuit, Signal};

/// The lines before those of the slacks.
pub fn head_lines(
    alloc: Global,
    circuit: &Circuit,
    period: u32,
    chain: &[Signal],
) -> Result<Vec<Vec<u8>>, NoMemory>
    requires { All (λ s. s < length circuit.now.drives) chain.now }
    ensures { IfOk result (λ lines. map (λ line. line.items) lines.items
        ≡ model_line circuit.now ∷ counts_line circuit.now ∷ widest_line circuit.now
        ∷ period_line period ∷ chain_line circuit.now chain.now ∷ []) }
{
    let mut lines = Vec::new(alloc);
    lines.push(model_line(alloc, circuit)?)?;
    lines.push(counts_line(alloc, circuit)?)?;
    lines.push(widest_line(alloc, circuit)?)?;
    lines.push(period_line(alloc, period)?)?;
    lines.push(chain_line(alloc, circuit, chain)?)?;
    Ok(lines)
}

/// The line of the model's name.
fn model_line(alloc: Global, circuit: &Circuit) -> Result<Vec<u8>, NoMemory>
    ensures { IfOk result (λ line. line.items ≡ model_line circuit.now) }
{
    let mut line = Vec::from_slice(alloc, b"model ")?;
    line.extend_from_slice(circuit.model().bytes())?;
    Ok(line)
}

/// The line of the numbers of inputs, outputs, latches and gates.
fn counts_line(alloc: Global, circuit: &Circuit) -> Result<Vec<u8>, NoMemory>
    ensures { IfOk result (λ line. line.items ≡ counts_line circuit.now) }
{
    let inputs = circuit.inputs();
    let outputs = circuit.outputs().len();
    let latches = circuit.latches();
    let gates = circuit.gates();
    let line = format!(in alloc;
        "inputs {inputs} outputs {outputs} latches {latches} gates {gates}"
    )?;
    Ok(line.into_bytes())
}

/// The line of the greatest number of pins of a gate.
fn widest_line(alloc: Global, circuit: &Circuit) -> Result<Vec<u8>, NoMemory>
    ensures { IfOk result (λ line. line.items ≡ widest_line circuit.now) }
{
    let widest = circuit.widest();
    let line = format!(in alloc; "widest {widest}")?;
    Ok(line.into_bytes())
}

/// The line of the period.
fn period_line(alloc: Global, period: u32) -> Result<Vec<u8>, NoMemory>
    ensures { IfOk result (λ line. line.items ≡ period_line period) }
{
    let line = format!(in alloc; "period {period}")?;
    Ok(line.into_bytes())
}

/// The line of a chain, by the names of its gates.
fn chain_line(alloc: Global, circuit: &Circuit, chain: &[Signal]) -> Result<Vec<u8>, NoMemory>
    requires { All (λ s. s < length circuit.now.drives) chain.now }
    ensures { IfOk result (λ line. line.items ≡ chain_line circuit.now chain.now) }
{
    let mut line = Vec::from_slice(alloc, b"chain")?;
    for gate in chain {
        line.push(b' ')?;
        line.extend_from_slice(circuit.name(*gate).bytes())?;
    }
    Ok(line)
}

/// The line of a gate's slack.
pub fn slack_line(
    alloc: Global,
    circuit: &Circuit,
    gate: Signal,
    slack: u32,
) -> Result<Vec<u8>, NoMemory>
    requires { gate < length circuit.now.drives }
    ensures { IfOk result (λ line. line.items ≡ slack_line circuit.now gate slack) }
{
    let mut line = Vec::from_slice(alloc, b"slack ")?;
    line.extend_from_slice(circuit.name(gate).bytes())?;
    let number = format!(in alloc; " {slack}")?;
    line.extend_from_slice(number.as_bytes())?;
    Ok(line)
}
