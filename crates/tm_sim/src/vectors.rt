// Rows of bits, and the text that spells them: a line of `0` and `1` for each row.

ghost use Rattle.std.specs.Prelude.{◌≡◌, ◌+◌, ◌*◌, ◌<◌, ◌≤◌, ◌==◌, ◌++◌, length, slice_get, All, Some, Ok, IfOk, IfErr, OnOk};
ghost use Rattle.std.specs.List.{before_first, after_first, position_or_len, list_all};
ghost use Rattle.tm_sim.specs.Grid.{rows_at};
ghost use Rattle.tm_sim.specs.Vectors.{is_bit_byte, fault_in, row_of, vectors_of, IsFaultOf, line_of, text_of};
ghost use Rattle.tm_sim.specs.declared.vectors.VectorFault.TheVariants.{NoMemory as WantOfMemory};

use std::alloc::Global;
use std::marker::Model;
use thiserror::Error;
use tm_bits::NoMemory;

/// What is wrong with a line.
#[derive(Clone, Copy, Debug, PartialEq, Eq)]
pub enum VectorKind {
    /// A byte other than `0` and `1`.
    Byte,
    /// Another number of bits than there are inputs.
    Width,
}

/// Why a text has no rows: its first fault, with the number of the line, or want of memory.
#[derive(Clone, Copy, Debug, PartialEq, Eq, Error)]
pub enum VectorFault {
    /// The line counts from 1.
    #[error("line {line}: {kind:?}")]
    Text { line: u32, kind: VectorKind },
    #[error("no memory")]
    NoMemory,
}

impl From<NoMemory> for VectorFault {
    ghost from_gives = { λ _ fault. fault ≡ WantOfMemory };

    fn from(_refused: NoMemory) -> Self {
        VectorFault::NoMemory
    }
}

/// Rows of bits, all of one width: a row for each step.
#[derive(Drop)]
pub struct Vectors {
    width: u32,
    steps: u32,
    bits: Vec<bool>,
}

impl Model for Vectors {
    ghost use Rattle.std.specs.Prelude.{◌≡◌, ◌*◌, length};
    ghost use Rattle.tm_sim.specs.Grid.{Grid, rows_at};

    ghost Value = { Grid };

    ghost view = { λ v. record { width = v.width; rows = rows_at v.width v.steps v.bits.items } };

    ghost invariant = { λ v. length v.bits.items ≡ v.width * v.steps };
}

impl Vectors {
    /// So many rows of this width, from their bits: row number `i` has the bits from place `i` times the width on.
    pub fn new(width: u32, steps: u32, bits: Vec<bool>) -> Vectors
        requires { length bits.items ≡ width * steps }
        ensures { result ≡ record { width = width; rows = rows_at width steps bits.items } }
    {
        Vectors { width, steps, bits }
    }

    /// The number of bits of each row.
    pub fn width(&self) -> u32
        ensures width { result ≡ self.now.width }
        ensures even { All (λ row. length row ≡ self.now.width) self.now.rows }
    {
        self.width
    }

    /// The number of rows.
    pub fn steps(&self) -> u32
        ensures { result ≡ length self.now.rows }
    {
        self.steps
    }

    /// The row of a step.
    pub fn row(&self, step: u32) -> &[bool]
        requires { step < length self.now.rows }
        ensures { slice_get self.now.rows step ≡ Some result.now }
    {
        let width = self.width as usize;
        let start = step as usize * width;
        &self.bits[start..start + width]
    }
}

/// The rows of a text for so many inputs, or its first fault. Each line, which ends at its LF or at the end of the text, has a
/// `0` or a `1` for each input. Want of memory may come at any text.
pub fn read(alloc: Global, width: u32, text: &[u8]) -> Result<Vectors, VectorFault>
    requires { length text.now ≤ 16777216 }
    ensures width { IfOk result (λ v. v.width ≡ width) }
    ensures rows { IfOk result (λ v. vectors_of width text.now ≡ Ok v.rows) }
    ensures fault { IfErr result (λ fault. IsFaultOf fault (vectors_of width text.now)) }
{
    let mut bits = Vec::new(alloc);
    let mut steps = 0;
    let mut rest = text;
    while !rest.is_empty() {
        let (line, after) = cut_line(rest);
        steps += 1;
        if let Some(kind) = fault_in(width, line) {
            return Err(VectorFault::Text { line: steps, kind });
        }
        push_row(&mut bits, line)?;
        rest = after;
    }
    Ok(Vectors::new(width, steps, bits))
}

/// The text of the rows: a byte for each bit, and an LF after each row. Read again for the same width it gives the same rows.
pub fn write(alloc: Global, vectors: &Vectors) -> Result<Vec<u8>, NoMemory>
    ensures text { IfOk result (λ text. text.items ≡ text_of vectors.now.rows) }
    ensures again { IfOk result (λ text. vectors_of vectors.now.width text.items ≡ Ok vectors.now.rows) }
{
    let room = (vectors.width() as usize + 1) * vectors.steps() as usize;
    let mut text = Vec::with_capacity(alloc, room)?;
    for step in 0..vectors.steps() {
        push_line(&mut text, vectors.row(step))?;
    }
    Ok(text)
}

/// Where the first line of a text ends: at its first LF, or at its end.
fn line_end(text: &[u8]) -> usize
    ensures place { result ≡ position_or_len (λ b. b == 10) text.now }
    ensures inside { result ≤ length text.now }
{
    text.iter()
        .position(|byte| *byte == b'\n')
        .unwrap_or(text.len())
}

/// The first line of a text without its LF, and what follows it.
fn cut_line(text: &[u8]) -> (&[u8], &[u8])
    ensures line { result.0.now ≡ before_first (λ b. b == 10) text.now }
    ensures after { result.1.now ≡ after_first (λ b. b == 10) text.now }
{
    let end = line_end(text);
    let next = text.len().min(end + 1);
    (&text[..end], &text[next..])
}

/// Whether each byte stands for a bit.
fn are_bits(line: &[u8]) -> bool
    ensures { result ≡ list_all is_bit_byte line.now }
{
    line.iter().all(|byte| is_bit_byte(*byte))
}

/// The fault of a line for so many inputs.
fn fault_in(width: u32, line: &[u8]) -> Option<VectorKind>
    ensures { result ≡ fault_in width line.now }
{
    if !are_bits(line) {
        Some(VectorKind::Byte)
    } else if line.len() != width as usize {
        Some(VectorKind::Width)
    } else {
        None
    }
}

/// Whether the byte stands for a bit.
fn is_bit_byte(byte: u8) -> bool
    ensures { result ≡ is_bit_byte byte }
{
    byte == b'0' || byte == b'1'
}

/// Adds the bits that a line spells.
fn push_row(bits: &mut Vec<bool>, line: &[u8]) -> Result<(), NoMemory>
    ensures { OnOk result (bits.new.items ≡ bits.old.items ++ row_of line.now) }
{
    for byte in line {
        bits.push(*byte == b'1')?;
    }
    Ok(())
}

/// Adds the line of a row, with its LF.
fn push_line(text: &mut Vec<u8>, row: &[bool]) -> Result<(), NoMemory>
    ensures { OnOk result (text.new.items ≡ text.old.items ++ line_of row.now) }
{
    for bit in row {
        text.push(if *bit { b'1' } else { b'0' })?;
    }
    text.push(b'\n')?;
    Ok(())
}
