// Covers and circuits, written on a line.

use crate::fault::TrialFault;
use std::alloc::Global;
use tm_bits::{Cover, Place, Row};
use tm_circuit::{Circuit, GatePart, LatchPart, Name, Parts, Signal};

/// The signal that a word spells.
pub(crate) fn signal(word: &str) -> Signal {
    Signal(word.parse().unwrap_or(u32::MAX))
}

fn name(alloc: Global, word: &str) -> Result<Name, TrialFault> {
    Ok(Name::new(Vec::from_slice(alloc, word.as_bytes())?))
}

/// The place that a byte of a row spells in BLIF.
fn place(byte: u8) -> Place {
    match byte {
        b'0' => Place::Zero,
        b'1' => Place::One,
        _ => Place::Any,
    }
}

/// What stands before the rows of a line, whether these are the rows where a cover is 1, and the rows.
fn split_rows(line: &str) -> (&str, bool, &str) {
    if let Some((before, rows)) = line.split_once('!') {
        return (before, false, rows);
    }
    let (before, rows) = line.split_once('=').unwrap_or((line, ""));
    (before, true, rows)
}

/// The cover at the end of a line: an `=` before the rows where it is 1, or a `!` before those where it is 0, each row as in BLIF
/// and with a comma between two. So `=` is never 1, and `=,`, which has one empty row, is always 1. A line without either is
/// never 1.
pub fn cover(alloc: Global, line: &str) -> Result<Cover, TrialFault> {
    let (_, on, texts) = split_rows(line);
    let mut rows = Vec::new(alloc);
    for row in texts.split_terminator(',') {
        rows.push(Row::new(row.bytes().map(place).collect(alloc)?))?;
    }
    Cover::new(on, rows).ok_or(TrialFault::Cover)
}

/// A latch: its name, its next, and a `1` where it starts at 1.
fn latch(alloc: Global, line: &str) -> Result<LatchPart, TrialFault> {
    let mut words = line.split_whitespace();
    Ok(LatchPart {
        name: name(alloc, words.next().unwrap_or(""))?,
        next: signal(words.next().unwrap_or("")),
        init: words.next() == Some("1"),
    })
}

/// A gate: its name, its pins and its cover.
fn gate(alloc: Global, line: &str) -> Result<GatePart, TrialFault> {
    let cover = cover(alloc, line)?;
    let (before, _, _) = split_rows(line);
    let mut words = before.split_whitespace();
    let name = name(alloc, words.next().unwrap_or(""))?;
    let pins = words.map(signal).collect(alloc)?;
    Ok(GatePart { name, pins, cover })
}

fn add_inputs(alloc: Global, parts: &mut Parts, text: &str) -> Result<(), TrialFault> {
    for word in text.split_whitespace() {
        parts.inputs.push(name(alloc, word)?)?;
    }
    Ok(())
}

fn add_latches(alloc: Global, parts: &mut Parts, text: &str) -> Result<(), TrialFault> {
    for line in text.split_terminator(';') {
        parts.latches.push(latch(alloc, line)?)?;
    }
    Ok(())
}

fn add_gates(alloc: Global, parts: &mut Parts, text: &str) -> Result<(), TrialFault> {
    for line in text.split_terminator(';') {
        parts.gates.push(gate(alloc, line)?)?;
    }
    Ok(())
}

/// The circuit `tried` without a clock. Inputs are names, as `a b`; latches are names with their next, and with a `1` where they
/// start at 1, as `q 3;r 0 1;`; gates are names with pins and the rows of a cover, as `g 0 1 =11;h 0;k 0 !1;`; outputs are signals.
pub fn circuit(
    alloc: Global,
    inputs: &str,
    latches: &str,
    gates: &str,
    outputs: &str,
) -> Result<Circuit, TrialFault> {
    let mut parts = Parts {
        model: name(alloc, "tried")?,
        clock: None,
        inputs: Vec::new(alloc),
        latches: Vec::new(alloc),
        gates: Vec::new(alloc),
        outputs: Vec::new(alloc),
    };
    add_inputs(alloc, &mut parts, inputs)?;
    add_latches(alloc, &mut parts, latches)?;
    add_gates(alloc, &mut parts, gates)?;
    parts.outputs = outputs.split_whitespace().map(signal).collect(alloc)?;
    Ok(Circuit::build(alloc, parts)?)
}
