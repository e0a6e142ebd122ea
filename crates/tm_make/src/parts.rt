// The parts of the sample circuit.

ghost use Rattle.std.specs.Prelude.{◌≡◌, ◌+◌, ◌-◌, ◌*◌, ◌/◌, ◌%◌, ◌<◌, ◌≤◌, true, [], ◌∷◌, ◌++◌, map, All, length, IfOk};
ghost use Rattle.std.specs.Fmt.{decimal};
ghost use Rattle.std.specs.List.{range_with_len};
ghost use Rattle.tm_circuit.specs.Plain.{latch, gate};
ghost use Rattle.tm_make.specs.Sample.{number_at, input_name, latch_name, gate_name};
ghost use Rattle.tm_make.specs.SampleCircuit.{kind_rows, gate_signal, latch_drive, gate_drive};

use smallvec::SmallVec;
use std::alloc::Global;
use tm_bits::{Cover, NoMemory, Place, Row};
use tm_circuit::{GatePart, LatchPart, Name, Signal};

/// The inputs of each sample.
pub(crate) const INPUTS: u32 = 8;

/// A name of a letter and a number.
fn name(alloc: Global, letter: u8, number: u32) -> Result<Name, NoMemory>
    ensures { IfOk result (λ name. name ≡ letter ∷ decimal number) }
{
    let mut bytes = Vec::new(alloc);
    bytes.push(letter)?;
    let digits = format!(in alloc; "{number}")?;
    bytes.extend_from_slice(digits.as_bytes())?;
    Ok(Name::new(bytes))
}

/// The number after one.
fn following(number: u32) -> u32
    requires { number < 65537 }
    ensures value { result ≡ (75 * number + 74) % 65537 }
    ensures below { result < 65537 }
{
    (75 * number + 74) % 65537
}

/// The inputs.
pub(crate) fn inputs(alloc: Global) -> Result<Vec<Name>, NoMemory>
    ensures { IfOk result (λ inputs. inputs.items ≡ map input_name (range_with_len 0 8)) }
{
    let mut inputs = Vec::new(alloc);
    for index in 0..INPUTS {
        inputs.push(name(alloc, b'i', index)?)?;
    }
    Ok(inputs)
}

/// The latches of the sample of a number: each takes the last of four gates, and every other one starts at 1.
pub(crate) fn latches(alloc: Global, number: u32) -> Result<Vec<LatchPart>, NoMemory>
    requires { number ≤ 20000 }
    ensures names { IfOk result (λ latches. map (λ l. l.name) latches.items ≡ map latch_name (range_with_len 0 (number / 4))) }
    ensures drives { IfOk result (λ latches. map (λ l. latch l.next l.init) latches.items
        ≡ map (latch_drive number) (range_with_len 0 (number / 4))) }
{
    let mut latches = Vec::new(alloc);
    for index in 0..number / 4 {
        latches.push(LatchPart {
            name: name(alloc, b'l', index)?,
            next: Signal(INPUTS + number / 4 + 4 * index + 3),
            init: index % 2 == 1,
        })?;
    }
    Ok(latches)
}

/// The on cover of rows of two places.
fn cover(alloc: Global, rows: &[[Place; 2]]) -> Result<Cover, NoMemory>
    requires { All (λ row. length row ≡ 2) rows.now }
    ensures { IfOk result (λ cover. cover ≡ record { on = true; rows = rows.now }) }
{
    let mut all = Vec::new(alloc);
    for places in rows {
        all.push(Row::new(Vec::from_slice(alloc, places)?))?;
    }
    match Cover::new(true, all) {
        Some(cover) => Ok(cover),
        None => unreachable!(),
    }
}

/// The cover of a kind of gate: both pins, one of them, just one of them.
fn kind_cover(alloc: Global, kind: u32) -> Result<Cover, NoMemory>
    ensures { IfOk result (λ cover. cover ≡ record { on = true; rows = kind_rows kind }) }
{
    match kind {
        0 => cover(alloc, &[[Place::One, Place::One]]),
        1 => cover(alloc, &[[Place::One, Place::Any], [Place::Any, Place::One]]),
        _ => cover(
            alloc,
            &[[Place::One, Place::Zero], [Place::Zero, Place::One]],
        ),
    }
}

/// A gate by its number, the number of choices that its pins have, and the three numbers that choose.
fn gate_part(
    alloc: Global,
    index: u32,
    choices: u32,
    first: u32,
    second: u32,
    third: u32,
) -> Result<GatePart, NoMemory>
    requires { 0 < choices }
    ensures name { IfOk result (λ part. part.name ≡ gate_name index) }
    ensures drive { IfOk result (λ part. gate part.pins.items part.cover
        ≡ gate (first % choices ∷ second % choices ∷ []) (record { on = true; rows = kind_rows (third % 3) })) }
{
    let name = name(alloc, b'g', index)?;
    let mut pins = SmallVec::new(alloc);
    pins.push(Signal(first % choices))?;
    pins.push(Signal(second % choices))?;
    let cover = kind_cover(alloc, third % 3)?;
    Ok(GatePart { name, pins, cover })
}

/// The gates of the sample of a number.
pub(crate) fn gates(alloc: Global, number: u32) -> Result<Vec<GatePart>, NoMemory>
    requires { number ≤ 20000 }
    ensures names { IfOk result (λ gates. map (λ g. g.name) gates.items ≡ map gate_name (range_with_len 0 number)) }
    ensures drives { IfOk result (λ gates. map (λ g. gate g.pins.items g.cover) gates.items
        ≡ map (gate_drive number) (range_with_len 0 number)) }
{
    let mut gates = Vec::new(alloc);
    let mut last = number;
    for index in 0..number {
        let first = following(last);
        let second = following(first);
        last = following(second);
        let choices = INPUTS + number / 4 + index;
        gates.push(gate_part(alloc, index, choices, first, second, last)?)?;
    }
    Ok(gates)
}

/// The outputs of the sample of a number: the last 8 gates.
pub(crate) fn outputs(alloc: Global, number: u32) -> Result<Vec<Signal>, NoMemory>
    requires few { number ≤ 20000 }
    requires some { 8 ≤ number }
    ensures { IfOk result (λ outputs. outputs.items ≡ map (gate_signal number) (range_with_len (number - 8) 8)) }
{
    let mut outputs = Vec::new(alloc);
    for index in 0..8u32 {
        outputs.push(Signal(INPUTS + number / 4 + (number - 8 + index)))?;
    }
    Ok(outputs)
}
