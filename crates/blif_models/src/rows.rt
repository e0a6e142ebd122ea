// The rows of a gate.

ghost use Rattle.std.specs.Prelude.{◌≡◌, ◌≤◌, ◌<◌, None, Some, length, map, slice_range, bytes_eq, IfOk, IfErr, OnOk};
ghost use Rattle.std.specs.List.{list_all};
ghost use Rattle.blif_lex.specs.Spans.{nth_line};
ghost use Rattle.blif_models.specs.Statement.{is_on, fault_in_rows, cover_of as cover_by, place_of as place_by, is_place as is_place_byte};
ghost use Rattle.blif_unit.specs.Fault.{OnText};
ghost use Rattle.blif_models.specs.Words.{texts, bit_in, IsOutputRow, IsRowOf};

use crate::words::word;
use blif_lex::Lines;
use blif_unit::{BlifFault, BlifKind, at};
use std::alloc::Global;
use tm_bits::{Cover, NoMemory, Place, Row};

/// A row by its places and its output.
#[derive(Drop)]
pub struct OutputRow {
    pub row: Row,
    pub output: bool,
}

/// The cover that the lines from `start` to `end` give a gate with so many pins, or their first fault.
pub fn cover_of(
    alloc: Global,
    lines: &Lines,
    start: u32,
    end: u32,
    pins: usize,
) -> Result<Cover, BlifFault>
    requires order { start ≤ end }
    requires within { end ≤ length lines.now }
    ensures lawful { OnOk result (fault_in_rows pins (is_on (slice_range lines.now start end)) (slice_range lines.now start end) ≡ None) }
    ensures cover { IfOk result (λ cover. cover ≡ cover_by (slice_range lines.now start end)) }
    ensures fault { IfErr result (λ e. OnText e
        (λ f. fault_in_rows pins (is_on (slice_range lines.now start end)) (slice_range lines.now start end) ≡ Some f)) }
{
    let on = first_output(lines, start, end);
    let mut rows = Vec::new(alloc);
    for line in start..end {
        let Some(OutputRow { row, output }) = row_of(alloc, lines.words(line), pins)? else {
            return Err(at(lines.number(line), BlifKind::BadRow));
        };
        if on != output {
            return Err(at(lines.number(line), BlifKind::MixedRows));
        }
        rows.push(row)?;
    }
    match Cover::new(on, rows) {
        Some(cover) => Ok(cover),
        None => unreachable!(),
    }
}

/// The output of the first row; without rows the cover is on.
fn first_output(lines: &Lines, start: u32, end: u32) -> bool
    requires order { start ≤ end }
    requires within { end ≤ length lines.now }
    ensures { result ≡ is_on (slice_range lines.now start end) }
{
    if start == end {
        return true;
    }
    let words = lines.words(start);
    word(words, words.len() - 1) == b"1".as_slice()
}

/// The row of these words for a gate with so many pins, if they are one.
fn row_of(alloc: Global, words: &[&[u8]], pins: usize) -> Result<Option<OutputRow>, NoMemory>
    ensures { IfOk result (λ row. IsRowOf row pins (texts words.now)) }
{
    if pins == 0 && words.len() == 1 {
        return output_row(alloc, b"", word(words, 0));
    }
    if pins > 0 && words.len() == 2 && word(words, 0).len() == pins {
        return output_row(alloc, word(words, 0), word(words, 1));
    }
    Ok(None)
}

/// The row with these places and this output, if they are spelled so.
#[tactic(auto, using(crate::proofs::WordLemmas::bit_in_some))]
fn output_row(alloc: Global, places: &[u8], output: &[u8]) -> Result<Option<OutputRow>, NoMemory>
    ensures { IfOk result (λ row. IsOutputRow row places.now output.now) }
{
    let Some(output) = output_of(output) else {
        return Ok(None);
    };
    if !are_places(places) {
        return Ok(None);
    }
    Ok(Some(OutputRow {
        row: Row::new(places_of(alloc, places)?),
        output,
    }))
}

/// Whether all bytes are places of a row.
fn are_places(bytes: &[u8]) -> bool
    ensures { result ≡ list_all is_place_byte bytes.now }
{
    bytes.iter().all(|byte| is_place(*byte))
}

/// The places that bytes spell.
fn places_of(alloc: Global, bytes: &[u8]) -> Result<Vec<Place>, NoMemory>
    ensures { IfOk result (λ places. places.items ≡ map place_by bytes.now) }
{
    Ok(bytes.iter().map(|byte| place_of(*byte)).collect(alloc)?)
}

/// The output of a row, if a word is one.
fn output_of(word: &[u8]) -> Option<bool>
    ensures { result ≡ bit_in word.now }
{
    if word == b"1".as_slice() {
        Some(true)
    } else if word == b"0".as_slice() {
        Some(false)
    } else {
        None
    }
}

/// Whether a byte is a place of a row.
fn is_place(byte: u8) -> bool
    ensures { result ≡ is_place_byte byte }
{
    byte == b'0' || byte == b'1' || byte == b'-'
}

/// The place that a byte spells.
fn place_of(byte: u8) -> Place
    ensures { result ≡ place_by byte }
{
    match byte {
        b'0' => Place::Zero,
        b'1' => Place::One,
        _ => Place::Any,
    }
}
