// What the counted lines say, kind by kind.

ghost use Rattle.std.specs.Prelude.{◌≡◌, IfOk};
ghost use Rattle.aiger_read.specs.Circuit as spelled;
ghost use Rattle.aiger_read.specs.Circuit.{input_said, latch_said, output_said, and_said, inputs_in, latches_in, outputs_in, ands_in, sections_in};
ghost use Rattle.aiger_read.specs.Making.{sections_of};

use crate::statement::{AndLine, LatchLine, Statement};
use std::alloc::Global;
use tm_bits::NoMemory;

/// What the lines of each kind say, in order.
#[derive(Drop)]
pub struct Sections {
    /// Literals.
    pub inputs: Vec<u32>,
    pub latches: Vec<LatchLine>,
    /// Literals.
    pub outputs: Vec<u32>,
    pub ands: Vec<AndLine>,
}

/// The literal of an input.
fn input_said(statement: &Statement) -> Option<u32>
    ensures { result ≡ input_said statement.now }
{
    match statement {
        Statement::Input(literal) => Some(*literal),
        _ => None,
    }
}

/// The latch that the statement is.
fn latch_said(statement: &Statement) -> Option<LatchLine>
    ensures { result ≡ latch_said statement.now }
{
    match statement {
        Statement::Latch(latch) => Some(*latch),
        _ => None,
    }
}

/// The literal of an output.
fn output_said(statement: &Statement) -> Option<u32>
    ensures { result ≡ output_said statement.now }
{
    match statement {
        Statement::Output(literal) => Some(*literal),
        _ => None,
    }
}

/// The and that the statement is.
fn and_said(statement: &Statement) -> Option<AndLine>
    ensures { result ≡ and_said statement.now }
{
    match statement {
        Statement::And(and) => Some(*and),
        _ => None,
    }
}

/// The literals of the inputs.
fn inputs_in(alloc: Global, body: &[Statement]) -> Result<Vec<u32>, NoMemory>
    ensures { IfOk result (λ found. found.items ≡ inputs_in body.now) }
{
    let found = body.iter().filter_map(|s| input_said(s)).collect(alloc)?;
    Ok(found)
}

/// The latches.
fn latches_in(alloc: Global, body: &[Statement]) -> Result<Vec<LatchLine>, NoMemory>
    ensures { IfOk result (λ found. found.items ≡ latches_in body.now) }
{
    let found = body.iter().filter_map(|s| latch_said(s)).collect(alloc)?;
    Ok(found)
}

/// The literals of the outputs.
fn outputs_in(alloc: Global, body: &[Statement]) -> Result<Vec<u32>, NoMemory>
    ensures { IfOk result (λ found. found.items ≡ outputs_in body.now) }
{
    let found = body.iter().filter_map(|s| output_said(s)).collect(alloc)?;
    Ok(found)
}

/// The ands.
fn ands_in(alloc: Global, body: &[Statement]) -> Result<Vec<AndLine>, NoMemory>
    ensures { IfOk result (λ found. found.items ≡ ands_in body.now) }
{
    let found = body.iter().filter_map(|s| and_said(s)).collect(alloc)?;
    Ok(found)
}

/// What the lines of each kind say.
pub fn sections_of(alloc: Global, body: &[Statement]) -> Result<Sections, NoMemory>
    ensures { IfOk result (λ s. sections_of s ≡ sections_in body.now) }
{
    Ok(Sections {
        inputs: inputs_in(alloc, body)?,
        latches: latches_in(alloc, body)?,
        outputs: outputs_in(alloc, body)?,
        ands: ands_in(alloc, body)?,
    })
}
