// The gates of the subject circuit: those that stay and those that others are split into.

ghost use Rattle.std.specs.Prelude.{◌≡◌, ◌≢◌, ◌++◌, [], ◌-◌, ◌<◌, ◌≤◌, All, false, length, map, slice_index, if◌then◌else◌, IfOk, OnOk};
ghost use Rattle.std.specs.Fmt.{decimal};
ghost use Rattle.tm_bits.specs.Rows.{HasWidth};
ghost use Rattle.tm_bits.specs.Tables.{place_of};
ghost use Rattle.tm_circuit.specs.Plain.{gate};
ghost use Rattle.tm_parts.specs.Parts.{part_drive, part_names, part_drives};
ghost use Rattle.tm_split.specs.Limits.{most_subject_signals};
ghost use Rattle.tm_split.specs.Pieces.{wires_of, rows_of};
ghost use Rattle.tm_split.specs.Names.{piece_names};
ghost use Rattle.tm_split.specs.Subject.{extra as extra_of, wire_number as number_of_wire, piece_drive, gates_of, drives_for, names_for};
ghost use Rattle.tm_split.specs.Making.{IsWireOf, IsReadOf, AreWired};

use crate::names::new_name;
use crate::piece::{Literal, Piece, Wire};
use crate::pieces::pieces;
use smallvec::SmallVec;
use std::alloc::Global;
use tm_bits::{Cover, NoMemory, Place, Row};
use tm_circuit::{GatePart, Name, Signal};

/// The new number of a signal.
pub fn number(s: Signal, numbers: &[Signal]) -> Signal
    requires { s < length numbers.now }
    ensures { result ≡ slice_index numbers.now s }
{
    numbers[s.0 as usize]
}

/// Signals by their new numbers.
pub fn moved(alloc: Global, signals: &[Signal], numbers: &[Signal]) -> Result<Vec<Signal>, NoMemory>
    requires { All (λ s. s < length numbers.now) signals.now }
    ensures { IfOk result (λ moved. moved.items ≡ map (slice_index numbers.now) signals.now) }
{
    let moved = signals.iter().map(|s| number(*s, numbers)).collect(alloc)?;
    Ok(moved)
}

/// The number of what a new gate reads.
fn wire_number(wire: Wire, numbers: &[Signal], first: u32) -> Signal
    requires wire { IsWireOf (length numbers.now) most_subject_signals wire }
    requires first { first ≤ most_subject_signals }
    ensures { result ≡ number_of_wire (slice_index numbers.now) first wire }
{
    match wire {
        Wire::Pin(pin) => number(pin, numbers),
        Wire::Made(n) => Signal(first + n as u32),
    }
}

/// The pins of a new gate.
fn piece_pins(
    alloc: Global,
    piece: &Piece,
    numbers: &[Signal],
    first: u32,
) -> Result<SmallVec<Signal, 8>, NoMemory>
    requires wires { IsReadOf (length numbers.now) piece.now }
    requires first { first ≤ most_subject_signals }
    ensures { IfOk result (λ pins. pins.items ≡ map (number_of_wire (slice_index numbers.now) first) (wires_of piece.now)) }
{
    let mut pins = SmallVec::new(alloc);
    match piece {
        Piece::NoRow | Piece::BareRow => {}
        Piece::Alone(one) => pins.push(wire_number(one.wire, numbers, first))?,
        Piece::Both(one, other) | Piece::Either(one, other) => {
            pins.push(wire_number(one.wire, numbers, first))?;
            pins.push(wire_number(other.wire, numbers, first))?;
        }
    }
    Ok(pins)
}

/// The place that asks for a literal.
fn place(literal: &Literal) -> Place
    ensures { result ≡ place_of literal.now.positive }
{
    Place::of(literal.positive)
}

/// A row of some places.
fn row(alloc: Global, places: &[Place]) -> Result<Row, NoMemory>
    ensures { IfOk result (λ row. row ≡ places.now) }
{
    Ok(Row::new(Vec::from_slice(alloc, places)?))
}

/// The rows of a new gate.
fn piece_rows(alloc: Global, piece: &Piece) -> Result<Vec<Row>, NoMemory>
    ensures { IfOk result (λ rows. rows.items ≡ rows_of piece.now) }
{
    let mut rows = Vec::new(alloc);
    match piece {
        Piece::NoRow => {}
        Piece::BareRow => rows.push(row(alloc, &[])?)?,
        Piece::Alone(one) => rows.push(row(alloc, &[place(one)])?)?,
        Piece::Both(one, other) => rows.push(row(alloc, &[place(one), place(other)])?)?,
        Piece::Either(one, other) => {
            rows.push(row(alloc, &[place(one), Place::Any])?)?;
            rows.push(row(alloc, &[Place::Any, place(other)])?)?;
        }
    }
    Ok(rows)
}

/// The cover of a new gate. An off cover needs a row.
fn piece_cover(alloc: Global, piece: &Piece, on: bool) -> Result<Cover, NoMemory>
    requires { on ≡ false → rows_of piece.now ≢ [] }
    ensures { IfOk result (λ cover. cover ≡ record { on = on; rows = rows_of piece.now }) }
{
    let rows = piece_rows(alloc, piece)?;
    match Cover::new(on, rows) {
        Some(cover) => Ok(cover),
        None => unreachable!(),
    }
}

/// What all gates of a subject circuit are made with.
#[derive(Drop)]
pub struct Plan {
    /// The new numbers of the signals.
    pub numbers: Vec<Signal>,
    /// What stands between the name of a gate and the number of a new gate of it.
    pub joiner: Vec<u8>,
    /// The most pins of a gate that stays.
    pub most: usize,
}

/// A new gate.
fn piece_part(
    alloc: Global,
    name: Name,
    piece: &Piece,
    on: bool,
    numbers: &[Signal],
    first: u32,
) -> Result<GatePart, NoMemory>
    requires wires { IsReadOf (length numbers.now) piece.now }
    requires first { first ≤ most_subject_signals }
    requires row { on ≡ false → rows_of piece.now ≢ [] }
    ensures name { IfOk result (λ part. part.name ≡ name) }
    ensures drive { IfOk result (λ part. part_drive part ≡ piece_drive on (slice_index numbers.now) first piece.now) }
{
    let pins = piece_pins(alloc, piece, numbers, first)?;
    let cover = piece_cover(alloc, piece, on)?;
    Ok(GatePart { name, pins, cover })
}

/// The name of the piece of a number, the last under the name of the gate itself.
fn piece_name(
    alloc: Global,
    name: &Name,
    joiner: &[u8],
    number: usize,
    is_last: bool,
) -> Result<Name, NoMemory>
    ensures { IfOk result (λ made. made ≡ (if is_last then name.now else name.now ++ joiner.now ++ decimal number)) }
{
    if is_last {
        name.try_clone(alloc)
    } else {
        new_name(alloc, name, joiner, number)
    }
}

/// Adds the gates of pieces. Their covers are on covers, but the last has the polarity of the gate that is split.
fn add_pieces(
    alloc: Global,
    gates: &mut Vec<GatePart>,
    name: &Name,
    pieces: &[Piece],
    on: bool,
    plan: &Plan,
    first: u32,
) -> Result<(), NoMemory>
    requires wired { AreWired on (length plan.now.numbers.items) 0 pieces.now }
    requires few { length pieces.now ≤ most_subject_signals }
    requires first { first ≤ most_subject_signals }
    ensures names { OnOk result (part_names gates.new.items
        ≡ part_names gates.old.items ++ piece_names name.now plan.now.joiner.items 1 pieces.now) }
    ensures drives { OnOk result (part_drives gates.new.items
        ≡ part_drives gates.old.items ++ gates_of on (slice_index plan.now.numbers.items) first pieces.now) }
{
    let mut rest = pieces;
    let mut number = 1;
    while let [piece, others @ ..] = rest {
        let is_last = others.is_empty();
        let name = piece_name(alloc, name, &plan.joiner, number, is_last)?;
        let part = piece_part(alloc, name, piece, on || !is_last, &plan.numbers, first)?;
        gates.push(part)?;
        number += 1;
        rest = others;
    }
    Ok(())
}

/// A gate that stays, but for the numbers of its pins.
fn kept_gate(
    alloc: Global,
    name: Name,
    pins: &[Signal],
    cover: &Cover,
    numbers: &[Signal],
) -> Result<GatePart, NoMemory>
    requires { All (λ p. p < length numbers.now) pins.now }
    ensures name { IfOk result (λ part. part.name ≡ name) }
    ensures drive { IfOk result (λ part. part_drive part ≡ gate (map (slice_index numbers.now) pins.now) cover.now) }
{
    let moved = moved(alloc, pins, numbers)?;
    Ok(GatePart {
        name,
        pins: SmallVec::from_slice(alloc, &moved)?,
        cover: cover.try_clone(alloc)?,
    })
}

/// Adds what stands in the place of a gate, whose new number is `own`.
pub fn add_gate(
    alloc: Global,
    gates: &mut Vec<GatePart>,
    name: Name,
    pins: &[Signal],
    cover: &Cover,
    own: Signal,
    plan: &Plan,
) -> Result<(), NoMemory>
    requires reads { All (λ p. p < length plan.now.numbers.items) pins.now }
    requires wide { HasWidth cover.now (length pins.now) }
    requires own { extra_of plan.now.most (gate pins.now cover.now) ≤ own }
    requires few { own < most_subject_signals }
    ensures names { OnOk result (part_names gates.new.items
        ≡ part_names gates.old.items ++ names_for plan.now.most name plan.now.joiner.items (gate pins.now cover.now)) }
    ensures drives { OnOk result (part_drives gates.new.items
        ≡ part_drives gates.old.items ++ drives_for plan.now.most (slice_index plan.now.numbers.items)
        (own - extra_of plan.now.most (gate pins.now cover.now)) (gate pins.now cover.now)) }
{
    if pins.len() <= plan.most {
        let part = kept_gate(alloc, name, pins, cover, &plan.numbers)?;
        gates.push(part)?;
        return Ok(());
    }
    let pieces = pieces(alloc, pins, cover)?;
    let first = own.0 - (pieces.len() - 1) as u32;
    add_pieces(alloc, gates, &name, &pieces, cover.on(), plan, first)
}
