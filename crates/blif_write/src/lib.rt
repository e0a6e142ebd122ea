//! The BLIF text of a circuit: one spelling for each circuit, written in one pass over each kind of signal.
//! The text says all that the circuit is: it is read again as the very circuit.
#![tactic(auto)]

ghost use Rattle.std.specs.Prelude.{ℕ, ◌≡◌, ◌<◌, ◌≤◌, ◌++◌, [], ◌∷◌, length, map, All, OnOk, IfOk, slice_range, option_copied};
ghost use Rattle.std.specs.List.{flat_map};
ghost use Rattle.tm_bits.specs.Rows.{IsEven};
ghost use Rattle.tm_circuit.specs.Plain.{Plain, drive};
ghost use Rattle.tm_circuit.specs.Same.{input_names};
ghost use Rattle.tm_circuit.specs.Sound.{IsSound};
ghost use Rattle.blif_read.specs.Text.{IsCircuitOf};
ghost use Rattle.blif_read.specs.declared.TheConstants.{MAPPED};
ghost use Rattle.blif_write.specs.Even.{IsEvenDrive};
ghost use Rattle.blif_write.specs.Text.{further_word, line_text, lines_text, name_of, names_of, with_clock, inputs_line, outputs_line, clock_lines, control_words, latch_lines, gate_lines, all_lines, row_words, place_byte, bit_word, text_of};

pub mod laws;

use std::alloc::Global;
use tm_bits::{Cover, NoMemory, Place};
use tm_circuit::{Circuit, Clock, Driver, Edge, Signal};

/// Writes a word that is not the first of its line.
fn push_word(out: &mut Vec<u8>, word: &[u8]) -> Result<(), NoMemory>
    ensures { OnOk result (out.new.items ≡ out.old.items ++ further_word word.now) }
{
    out.push(b' ')?;
    out.extend_from_slice(word)?;
    Ok(())
}

/// Writes the names of signals, each behind a blank.
fn push_names(out: &mut Vec<u8>, circuit: &Circuit, signals: &[Signal]) -> Result<(), NoMemory>
    requires { All (λ s. s < length circuit.now.drives) signals.now }
    ensures { OnOk result (out.new.items ≡ out.old.items ++ flat_map further_word (names_of circuit.now signals.now)) }
{
    for signal in signals {
        push_word(out, circuit.name(*signal).bytes())?;
    }
    Ok(())
}

/// Writes the names of the signals from one number up to another, each behind a blank.
fn push_range(out: &mut Vec<u8>, circuit: &Circuit, start: u32, end: u32) -> Result<(), NoMemory>
    requires ordered { start ≤ end }
    requires inside { end ≤ length circuit.now.drives }
    ensures { OnOk result (out.new.items ≡ out.old.items ++ flat_map further_word (slice_range circuit.now.names start end)) }
{
    for signal in start..end {
        push_word(out, circuit.name(Signal(signal)).bytes())?;
    }
    Ok(())
}

/// Writes the names of the inputs, with the clock's name at its place where it has one.
fn push_inputs(out: &mut Vec<u8>, circuit: &Circuit) -> Result<(), NoMemory>
    requires { IsSound circuit.now }
    ensures { OnOk result (out.new.items ≡ out.old.items
        ++ flat_map further_word (with_clock circuit.now.clock (input_names circuit.now))) }
{
    let inputs = circuit.inputs();
    match circuit.clock() {
        None => push_range(out, circuit, 0, inputs),
        Some(clock) => match clock.place {
            None => push_range(out, circuit, 0, inputs),
            Some(place) => {
                push_range(out, circuit, 0, place)?;
                push_word(out, clock.name.bytes())?;
                push_range(out, circuit, place, inputs)
            }
        },
    }
}

/// Writes the line of the inputs.
fn write_inputs(out: &mut Vec<u8>, circuit: &Circuit) -> Result<(), NoMemory>
    requires { IsSound circuit.now }
    ensures { OnOk result (out.new.items ≡ out.old.items ++ line_text (inputs_line circuit.now)) }
{
    out.extend_from_slice(b".inputs")?;
    push_inputs(out, circuit)?;
    out.push(b'\n')?;
    Ok(())
}

/// Writes the line of the outputs.
fn write_outputs(out: &mut Vec<u8>, circuit: &Circuit) -> Result<(), NoMemory>
    requires { IsSound circuit.now }
    ensures { OnOk result (out.new.items ≡ out.old.items ++ line_text (outputs_line circuit.now)) }
{
    out.extend_from_slice(b".outputs")?;
    push_names(out, circuit, circuit.outputs())?;
    out.push(b'\n')?;
    Ok(())
}

/// Writes the line that declares the clock, where it is declared.
fn write_clock(out: &mut Vec<u8>, clock: Option<&Clock>) -> Result<(), NoMemory>
    ensures { OnOk result (out.new.items ≡ out.old.items ++ lines_text (clock_lines (option_copied clock.entry))) }
{
    if let Some(clock) = clock
        && clock.declared
    {
        out.extend_from_slice(b".clock")?;
        push_word(out, clock.name.bytes())?;
        out.push(b'\n')?;
    }
    Ok(())
}

/// Writes the edge and the clock's name as words of a latch, where the clock has an edge.
fn push_control(out: &mut Vec<u8>, clock: Option<&Clock>) -> Result<(), NoMemory>
    ensures { OnOk result (out.new.items ≡ out.old.items ++ flat_map further_word (control_words (option_copied clock.entry))) }
{
    if let Some(clock) = clock
        && let Some(edge) = clock.edge
    {
        let word = match edge {
            Edge::Rise => b"re",
            Edge::Fall => b"fe",
        };
        push_word(out, word)?;
        push_word(out, clock.name.bytes())?;
    }
    Ok(())
}

/// Writes a bit as a word that is not the first of its line, and ends the line.
fn push_last_bit(out: &mut Vec<u8>, bit: bool) -> Result<(), NoMemory>
    ensures { OnOk result (out.new.items ≡ out.old.items ++ further_word (bit_word bit) ++ 10 ∷ []) }
{
    out.push(b' ')?;
    out.push(if bit { b'1' } else { b'0' })?;
    out.push(b'\n')?;
    Ok(())
}

/// Writes the byte of each place.
fn push_places(out: &mut Vec<u8>, places: &[Place]) -> Result<(), NoMemory>
    ensures { OnOk result (out.new.items ≡ out.old.items ++ map place_byte places.now) }
{
    for place in places {
        let byte = match place {
            Place::Zero => b'0',
            Place::One => b'1',
            Place::Any => b'-',
        };
        out.push(byte)?;
    }
    Ok(())
}

/// Writes the line of a row: its places, where it has some, and its output.
fn write_row(out: &mut Vec<u8>, on: bool, places: &[Place]) -> Result<(), NoMemory>
    ensures { OnOk result (out.new.items ≡ out.old.items ++ line_text (row_words on places.now)) }
{
    push_places(out, places)?;
    if !places.is_empty() {
        out.push(b' ')?;
    }
    out.push(if on { b'1' } else { b'0' })?;
    out.push(b'\n')?;
    Ok(())
}

/// Writes a line for each row of a cover.
fn write_rows(out: &mut Vec<u8>, cover: &Cover) -> Result<(), NoMemory>
    ensures written { OnOk result (out.new.items ≡ out.old.items ++ lines_text (map (row_words cover.now.on) cover.now.rows)) }
    ensures even { IsEven cover.now }
{
    for row in cover.rows() {
        write_row(out, cover.on(), row.places())?;
    }
    Ok(())
}

/// Writes the line of a signal that is a latch.
fn write_latch(out: &mut Vec<u8>, circuit: &Circuit, signal: Signal) -> Result<(), NoMemory>
    requires sound { IsSound circuit.now }
    requires inside { signal < length circuit.now.drives }
    ensures { OnOk result (out.new.items
        ≡ out.old.items ++ lines_text (latch_lines circuit.now (name_of circuit.now signal) (drive circuit.now signal))) }
{
    if let Driver::Latch { next, init } = circuit.driver(signal) {
        out.extend_from_slice(b".latch")?;
        push_word(out, circuit.name(*next).bytes())?;
        push_word(out, circuit.name(signal).bytes())?;
        push_control(out, circuit.clock())?;
        push_last_bit(out, *init)?;
    }
    Ok(())
}

/// Writes the line of each latch among so many signals.
fn write_latches(out: &mut Vec<u8>, circuit: &Circuit, signals: u32) -> Result<(), NoMemory>
    requires sound { IsSound circuit.now }
    requires all { signals ≡ length circuit.now.drives }
    ensures { OnOk result (out.new.items ≡ out.old.items ++ lines_text (all_lines latch_lines circuit.now)) }
{
    for signal in 0..signals {
        write_latch(out, circuit, Signal(signal))?;
    }
    Ok(())
}

/// Writes the lines of a signal that is a gate.
fn write_gate(out: &mut Vec<u8>, circuit: &Circuit, signal: Signal) -> Result<(), NoMemory>
    requires sound { IsSound circuit.now }
    requires inside { signal < length circuit.now.drives }
    ensures written { OnOk result (out.new.items
        ≡ out.old.items ++ lines_text (gate_lines circuit.now (name_of circuit.now signal) (drive circuit.now signal))) }
    ensures even { OnOk result (IsEvenDrive (drive circuit.now signal)) }
{
    if let Driver::Gate { pins, cover } = circuit.driver(signal) {
        out.extend_from_slice(b".names")?;
        push_names(out, circuit, pins.as_slice())?;
        push_word(out, circuit.name(signal).bytes())?;
        out.push(b'\n')?;
        write_rows(out, cover)?;
    }
    Ok(())
}

/// Writes the lines of each gate among so many signals.
fn write_gates(out: &mut Vec<u8>, circuit: &Circuit, signals: u32) -> Result<(), NoMemory>
    requires sound { IsSound circuit.now }
    requires all { signals ≡ length circuit.now.drives }
    ensures written { OnOk result (out.new.items ≡ out.old.items ++ lines_text (all_lines gate_lines circuit.now)) }
    ensures even { OnOk result ((s : ℕ) → s < length circuit.now.drives → IsEvenDrive (drive circuit.now s)) }
{
    for signal in 0..signals {
        write_gate(out, circuit, Signal(signal))?;
    }
    Ok(())
}

/// Writes the whole text.
fn write_text(out: &mut Vec<u8>, circuit: &Circuit) -> Result<(), NoMemory>
    ensures written { OnOk result (out.new.items ≡ out.old.items ++ text_of circuit.now) }
    ensures circuit { OnOk result (IsCircuitOf MAPPED (text_of circuit.now) circuit.now) }
    ensures only { OnOk result ((c : Plain) → IsCircuitOf MAPPED (text_of circuit.now) c → c ≡ circuit.now) }
{
    let signals = circuit.signals();
    out.extend_from_slice(b".model")?;
    push_word(out, circuit.model().bytes())?;
    out.push(b'\n')?;
    write_inputs(out, circuit)?;
    write_outputs(out, circuit)?;
    write_clock(out, circuit.clock())?;
    write_latches(out, circuit, signals)?;
    write_gates(out, circuit, signals)?;
    out.extend_from_slice(b".end\n")?;
    Ok(())
}

/// The text of a circuit. It is as long as the names, pins and rows together, and so is the time to write it.
pub fn text(alloc: Global, circuit: &Circuit) -> Result<Vec<u8>, NoMemory>
    // The one spelling.
    ensures text { IfOk result (λ text. text.items ≡ text_of circuit.now) }
    // As a text with one model it has the circuit given, with limits that no circuit exceeds,
    ensures circuit { IfOk result (λ text. IsCircuitOf MAPPED text.items circuit.now) }
    // and no other circuit.
    ensures only { IfOk result (λ text. (c : Plain) → IsCircuitOf MAPPED text.items c → c ≡ circuit.now) }
{
    let mut out = Vec::new(alloc);
    write_text(&mut out, circuit)?;
    Ok(out)
}
