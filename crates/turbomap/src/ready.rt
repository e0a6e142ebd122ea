// What a command has ready before its first write.

ghost use Rattle.std.specs.Prelude.{◌≡◌, ◌≢◌, [], ◌∷◌, map, IfOk, string_bytes};
ghost use Rattle.turbomap.specs.Command.{write_of};
ghost use Rattle.turbomap.specs.Prepared.{seen, SaysUnwritten, AreReady};

use crate::line::unwritten_line;
use std::alloc::Global;
use tm_bits::NoMemory;

/// A file to be written: its name, its bytes, and the line for when the write fails.
#[derive(Drop)]
pub struct Output<'a> {
    pub name: &'a str,
    pub bytes: Vec<u8>,
    pub unwritten: String,
}

/// The files to be written, in order, and the lines to be said after them, each without its LF.
#[derive(Drop)]
pub struct Ready<'a> {
    pub outputs: Vec<Output<'a>>,
    pub lines: Vec<Vec<u8>>,
}

/// One file to be written, and one line to be said.
pub fn one_output<'a>(
    alloc: Global,
    name: &'a str,
    bytes: Vec<u8>,
    line: String,
) -> Result<Ready<'a>, NoMemory>
    ensures { IfOk result (AreReady (write_of name.now bytes.items ∷ []) (string_bytes line)) }
{
    let output = output_of(alloc, name, bytes)?;
    let mut outputs = Vec::new(alloc);
    outputs.push(output)?;
    Ok(Ready {
        outputs,
        lines: one_line(alloc, line)?,
    })
}

/// Two files to be written, in this order, and one line to be said.
pub fn two_outputs<'a>(
    alloc: Global,
    first: &'a str,
    first_bytes: Vec<u8>,
    second: &'a str,
    second_bytes: Vec<u8>,
    line: String,
) -> Result<Ready<'a>, NoMemory>
    requires apart { first.now ≢ second.now }
    ensures { IfOk result
        (AreReady (write_of first.now first_bytes.items ∷ write_of second.now second_bytes.items ∷ []) (string_bytes line)) }
{
    let first = output_of(alloc, first, first_bytes)?;
    let second = output_of(alloc, second, second_bytes)?;
    let mut outputs = Vec::new(alloc);
    outputs.push(first)?;
    outputs.push(second)?;
    Ok(Ready {
        outputs,
        lines: one_line(alloc, line)?,
    })
}

/// One line to be said, and no file to be written.
pub fn no_output<'a>(alloc: Global, line: String) -> Result<Ready<'a>, NoMemory>
    ensures { IfOk result (AreReady [] (string_bytes line)) }
{
    Ok(Ready {
        outputs: Vec::new(alloc),
        lines: one_line(alloc, line)?,
    })
}

// A file to be written, with the line for when the write fails.
fn output_of<'a>(alloc: Global, name: &'a str, bytes: Vec<u8>) -> Result<Output<'a>, NoMemory>
    ensures seen { IfOk result (λ output. seen output ≡ write_of name.now bytes.items) }
    ensures line { IfOk result SaysUnwritten }
{
    let unwritten = unwritten_line(alloc, name)?;
    Ok(Output {
        name,
        bytes,
        unwritten,
    })
}

// One line.
fn one_line(alloc: Global, line: String) -> Result<Vec<Vec<u8>>, NoMemory>
    ensures { IfOk result (λ lines. map (λ line. line.items) lines.items ≡ string_bytes line ∷ []) }
{
    let mut lines = Vec::new(alloc);
    lines.push(line.into_bytes())?;
    Ok(lines)
}
