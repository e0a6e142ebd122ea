// Simulates the circuit of one text on the rows of another.

ghost use Rattle.std.specs.Prelude.{◌≡◌, ◌+◌, ◌*◌, ◌≤◌, length, Ok, IfOk, IfErr, OnOk};
ghost use Rattle.tm_circuit.specs.Plain.{input_count};
ghost use Rattle.tm_circuit.specs.Sound.{IsSound};
ghost use Rattle.tm_sim.specs.Vectors.{vectors_of};
ghost use Rattle.text_read.specs.Texts.{IsCircuitOf, ShowsMeaning};
ghost use Rattle.tm_texts.specs.Limits.{mapped_bytes, vector_bytes, output_bytes, mapped_limits};
ghost use Rattle.tm_texts.specs.Simulates.{bytes_of, IsOutput, Simulates, IsSimFault};
ghost use Rattle.tm_texts.specs.Rows.{IsCircuitFault, IsRowsFault};

use crate::limits::OUTPUT_BYTES;
use blif_read::MAPPED;
use std::alloc::Global;
use text_read::{TextFault, TextKind, read};
use thiserror::Error;
use tm_bits::NoMemory;
use tm_circuit::Circuit;
use tm_sim::vectors::{VectorFault, VectorKind, Vectors};
use tm_sim::{Machine, vectors};

/// The output rows of a simulation as a vectors text, and their number.
#[derive(Drop)]
pub struct Simulated {
    pub text: Vec<u8>,
    pub steps: u32,
}

/// Why two texts were not simulated, in the order in which this is found.
#[derive(Clone, Copy, Debug, PartialEq, Eq, Error)]
pub enum SimFault {
    /// The first fault of the circuit's text; its line is 0 where the fault is one of the whole text.
    #[error("circuit, line {line}: {kind:?}")]
    Blif { line: u32, kind: TextKind },
    /// The first fault of the vectors text.
    #[error("vectors, line {line}: {kind:?}")]
    Vectors { line: u32, kind: VectorKind },
    #[error("the output rows are too long")]
    TooLong,
    #[error("no memory")]
    NoMemory,
}

impl From<NoMemory> for SimFault {
    ghost use Rattle.std.specs.Prelude.{◌≡◌};
    ghost use Rattle.tm_texts.specs.declared.simulate.SimFault.TheVariants.{NoMemory as WantOfMemory};

    ghost from_gives = { λ _ fault. fault ≡ WantOfMemory };

    fn from(_refused: NoMemory) -> Self {
        SimFault::NoMemory
    }
}

/// Simulates the circuit of the text, read with the limits of a mapped text, on the rows of the vectors: the answer has the bits of
/// the outputs at each step. The output rows have at most 268,435,456 bytes.
pub fn sim_text(alloc: Global, text: &[u8], vectors: &[u8]) -> Result<Simulated, SimFault>
    requires text { length text.now ≤ mapped_bytes }
    requires vectors { length vectors.now ≤ vector_bytes }
    ensures simulates { IfOk result (λ simulated. Simulates text.now vectors.now simulated.text.items simulated.steps) }
    ensures fault { IfErr result (IsSimFault text.now vectors.now) }
{
    let circuit = read_circuit(alloc, text)?;
    let rows = read_rows(alloc, circuit.inputs(), vectors)?;
    let row_bytes = circuit.outputs().len() as u64 + 1;
    if u64::from(rows.steps()).saturating_mul(row_bytes) > OUTPUT_BYTES {
        return Err(SimFault::TooLong);
    }
    let output = output_rows(alloc, &circuit, &rows)?;
    Ok(Simulated {
        text: vectors::write(alloc, &output)?,
        steps: rows.steps(),
    })
}

// The circuit of the text.
fn read_circuit(alloc: Global, text: &[u8]) -> Result<Circuit, SimFault>
    requires { length text.now ≤ mapped_bytes }
    ensures circuit { IfOk result (IsCircuitOf mapped_limits text.now) }
    ensures meaning { IfOk result (ShowsMeaning mapped_limits text.now) }
    ensures fault { IfErr result (IsCircuitFault text.now) }
{
    match read(alloc, text, &MAPPED) {
        Ok(circuit) => Ok(circuit),
        Err(TextFault::Text { line, kind }) => Err(SimFault::Blif { line, kind }),
        Err(TextFault::NoMemory) => Err(SimFault::NoMemory),
    }
}

// The rows of the vectors for so many inputs.
fn read_rows(alloc: Global, width: u32, text: &[u8]) -> Result<Vectors, SimFault>
    requires { length text.now ≤ vector_bytes }
    ensures width { IfOk result (λ rows. rows.width ≡ width) }
    ensures rows { IfOk result (λ rows. vectors_of width text.now ≡ Ok rows.rows) }
    ensures fault { IfErr result (IsRowsFault width text.now) }
{
    match vectors::read(alloc, width, text) {
        Ok(rows) => Ok(rows),
        Err(VectorFault::Text { line, kind }) => Err(SimFault::Vectors { line, kind }),
        Err(VectorFault::NoMemory) => Err(SimFault::NoMemory),
    }
}

// The output rows of the circuit for the rows.
fn output_rows(alloc: Global, circuit: &Circuit, rows: &Vectors) -> Result<Vectors, NoMemory>
    requires width { rows.now.width ≡ input_count circuit.now.drives }
    requires few { bytes_of circuit.now rows.now.rows ≤ output_bytes }
    ensures output { IfOk result (λ output. IsOutput circuit.now rows.now.rows output.rows) }
    ensures sound { OnOk result (IsSound circuit.now) }
{
    let width = circuit.outputs().len();
    let steps = rows.steps();
    prove!(width <= circuit.signals() as usize);
    prove!(rows.width() == circuit.inputs());
    let mut machine = Machine::new(alloc, circuit)?;
    let mut row = vec![in alloc; false; width]?;
    let mut bits = Vec::with_capacity(alloc, width * steps as usize)?;
    for step in 0..steps {
        machine.step(rows.row(step), &mut row);
        bits.extend_from_slice(&row)?;
    }
    Ok(Vectors::new(width as u32, steps, bits))
}
