// From the lines of a text to the statements of its model.

ghost use Rattle.std.specs.Prelude.{◌≡◌, ◌≤◌, ◌<◌, ◌+◌, false, Some, None, IfOk, IfErr, OnOk, length, drop, take_while, slice_range};
ghost use Rattle.blif_lex.specs.Spans.{nth_line};
ghost use Rattle.blif_models.specs.Keyword.{keyword_at};
ghost use Rattle.blif_unit.specs.Unit.{model_of, IsOrderly};
ghost use Rattle.blif_models.specs.Statement.{fault_of_lines, fault_in_block, blocks_of, is_row, word_at, begins_row as is_row_keyword};
ghost use Rattle.blif_models.specs.Words.{texts, earlier_of, block_at, after_block, told_by, told_in_block, name_by, named_in_block};
ghost use Rattle.blif_models.specs.Lines.{model_in, AreNamed};
ghost use Rattle.blif_unit.specs.Fault.{OnText};

use crate::heads::{Said, Seen, gate, plain_statement};
use crate::keyword::{Keyword, keyword_of};
use crate::rows::cover_of;
use crate::words::{name_of, word};
use blif_lex::Lines;
use blif_unit::{BlifFault, BlifKind, Stated, Statement, Unit, at};
use std::alloc::Global;

/// The model of the lines, or the first fault among them.
pub fn unit_of(alloc: Global, lines: &Lines) -> Result<Unit, BlifFault>
    requires { AreNamed lines.now }
    ensures lawful { IfOk result (λ _. fault_of_lines lines.now ≡ None) }
    ensures unit { IfOk result (λ u. model_of u ≡ model_in lines.now) }
    ensures orderly { IfOk result (λ u. IsOrderly (model_of u)) }
    ensures fault { IfErr result (λ e. OnText e (λ f. fault_of_lines lines.now ≡ Some f)) }
{
    if rows_end(lines, 0) > 0 {
        return Err(at(lines.number(0), BlifKind::Misplaced));
    }
    let mut seen = Seen::new(alloc);
    let mut unit = Unit {
        name: name_of(alloc, b"top")?,
        line: 0,
        body: Vec::new(alloc),
    };
    let mut line = 0;
    while line < lines.len() {
        let end = rows_end(lines, line + 1);
        match statement(alloc, lines, line, end, &mut seen)? {
            Said::Nothing => {}
            Said::Model(name) => {
                unit.name = name;
                unit.line = lines.number(line);
            }
            Said::Body(what) => unit.body.push(Stated {
                line: lines.number(line),
                what,
            })?,
        }
        line = end;
    }
    Ok(unit)
}

/// The first line from `start` on that is no row.
pub fn rows_end(lines: &Lines, start: u32) -> u32
    requires { start ≤ length lines.now }
    ensures order { start ≤ result }
    ensures within { result ≤ length lines.now }
    ensures rows { slice_range lines.now start result ≡ take_while is_row (drop start lines.now) }
    ensures rest { blocks_of (drop result lines.now) ≡ blocks_of (drop start lines.now) }
    ensures stop { result < length lines.now → is_row (nth_line lines.now result) ≡ false }
{
    let mut end = start;
    while end < lines.len() && begins_row(lines.words(end)) {
        end += 1;
    }
    end
}

/// Whether the words are those of a row.
fn begins_row(words: &[&[u8]]) -> bool
    requires { 0 < length words.now }
    ensures { result ≡ is_row_keyword (keyword_at (word_at (texts words.now) 0)) }
{
    matches!(keyword_of(word(words, 0)), Keyword::Row)
}

/// The statement of a line with its rows, which go up to `end`, or the first fault in them.
pub fn statement<'a>(
    alloc: Global,
    lines: &Lines<'a>,
    line: u32,
    end: u32,
    seen: &mut Seen<'a>,
) -> Result<Said, BlifFault>
    requires order { line < end }
    requires within { end ≤ length lines.now }
    requires head { is_row (nth_line lines.now line) ≡ false }
    ensures lawful { OnOk result (fault_in_block (earlier_of seen.old) (block_at lines.now line end) ≡ None) }
    ensures seen { OnOk result (earlier_of seen.new ≡ after_block (block_at lines.now line end) (earlier_of seen.old)) }
    ensures told { IfOk result (λ said. told_by said ≡ told_in_block (block_at lines.now line end)) }
    ensures name { IfOk result (λ said. name_by said ≡ named_in_block (block_at lines.now line end)) }
    ensures fault { IfErr result (λ e. OnText e (λ f. fault_in_block (earlier_of seen.old) (block_at lines.now line end) ≡ Some f)) }
{
    let words = lines.words(line);
    let number = lines.number(line);
    let further = &words[1..];
    match keyword_of(word(words, 0)) {
        Keyword::Names => {
            let (pins, name) = gate(alloc, number, further, seen)?;
            let cover = cover_of(alloc, lines, line + 1, end, pins.len())?;
            Ok(Said::Body(Statement::Gate { pins, name, cover }))
        }
        keyword => {
            let said = plain_statement(alloc, number, keyword, further, seen)?;
            if line + 1 < end {
                return Err(at(lines.number(line + 1), BlifKind::Misplaced));
            }
            Ok(said)
        }
    }
}
