// The models of a text, which may be several.

ghost use Rattle.std.specs.Prelude.{◌≡◌, ◌^◌, ◌<◌, ◌≤◌, ◌++◌, ◌∷◌, [], false, true, Some, None, length, map, drop, take_while, option_map, codes, IfOk, IfErr, OnOk};
ghost use Rattle.std.specs.List.{list_all};
ghost use Rattle.blif_lex.specs.Spans.{nth_line};
ghost use Rattle.blif_lex.specs.Words.{places_model as places_model_in};
ghost use Rattle.blif_unit.specs.Fault.{OnText};
ghost use Rattle.blif_unit.specs.Fit.{AreFit};
ghost use Rattle.blif_unit.specs.Unit.{model_of, told_of, telling_of};
ghost use Rattle.blif_models.specs.Keyword.{keyword_at};
ghost use Rattle.blif_models.specs.Sections.{head_at, IsNewModel, ArePartsFrom, HasModels};
ghost use Rattle.blif_models.specs.Several.{is_binding as is_binding_word, binding_of as binding_in, place_in, fault_in_place, fault_in_part, fault_in_parts, told_in_part, parts_before, fault_at, fault_of_models, AreModelsOfLines, AreModelsOf, IsFaultOfModels};
ghost use Rattle.blif_models.specs.Statement.{blocks_of, is_row, is_model, keyword_in, further, word_at};
ghost use Rattle.blif_models.specs.Words.{texts, earlier_of, block_at, after_block, IsHeadFault};

use crate::heads::{Said, Seen};
use crate::keyword::{Keyword, keyword_of};
use crate::statements::{rows_end, statement};
use crate::words::{name_of, word};
use blif_lex::{Lines, cut_at};
use blif_unit::{Binding, BlifFault, BlifKind, Limits, Names, Stated, Statement, Unit, at};
use std::alloc::Global;
use tm_bits::NoMemory;

/// The statements of a model, and the line at which the next model begins.
#[derive(Drop)]
struct Parts {
    body: Vec<Stated>,
    end: u32,
}

/// The models of a text with one or several, in order, or the first fault of its words or its lines.
pub fn units(alloc: Global, text: &[u8], limits: &Limits) -> Result<Vec<Unit>, BlifFault>
    requires short { length text.now < 2 ^ 32 }
    requires signals { limits.now.signals ≤ 900000 }
    requires name { limits.now.name ≤ 1023 }
    // The models are those of the text.
    ensures models { IfOk result (λ units. AreModelsOf limits.now text.now (map model_of units.items)) }
    // They are fit to be placed in one another, or to be a circuit.
    ensures fit { IfOk result (λ units. AreFit limits.now.name (map model_of units.items)) }
    // The fault is the first of the first two passes of four.
    ensures fault { IfErr result (λ e. OnText e (IsFaultOfModels limits.now text.now)) }
{
    let lines = Lines::of(alloc, text, limits.name, true)?;
    models_of(alloc, &lines)
}

/// The models of the lines, or the first fault among them.
fn models_of(alloc: Global, lines: &Lines) -> Result<Vec<Unit>, BlifFault>
    ensures models { IfOk result (λ units. AreModelsOfLines lines.now (map model_of units.items)) }
    ensures fault { IfErr result (λ e. OnText e (λ f. fault_of_models lines.now ≡ Some f)) }
{
    if rows_end(lines, 0) > 0 {
        return Err(at(lines.number(0), BlifKind::Misplaced));
    }
    let mut names = Names::new(alloc);
    let Parts { body, end } = parts_from(alloc, lines, 0)?;
    let mut units = first_models(alloc, lines, body, end, &mut names)?;
    let mut line = end;
    while line < lines.len() {
        let name = model_name(lines, line, &mut names)?;
        let Parts { body, end } = parts_from(alloc, lines, line + 1)?;
        let name = name_of(alloc, name)?;
        units.push(Unit {
            name,
            line: lines.number(line),
            body,
        })?;
        line = end;
    }
    Ok(units)
}

/// The first model where it has no `.model`, by the statements before the line `end`, which is the first `.model`.
fn first_models<'a>(
    alloc: Global,
    lines: &Lines<'a>,
    body: Vec<Stated>,
    end: u32,
    names: &mut Names<'a>,
) -> Result<Vec<Unit>, NoMemory>
    requires fresh { names.old ≡ [] }
    requires rows { take_while is_row lines.now ≡ [] }
    requires head { 0 < length lines.now → is_row (nth_line lines.now 0) ≡ false }
    requires parts { ArePartsFrom lines.now 0 end (map telling_of body.items) }
    ensures { IfOk result (λ units. HasModels lines.now end names.new (map model_of units.items)) }
{
    if end > 0 {
        return top_model(alloc, body, names);
    }
    if lines.len() == 0 {
        return top_model(alloc, body, names);
    }
    Ok(Vec::new(alloc))
}

/// The model `top` with these statements, alone.
fn top_model<'a>(
    alloc: Global,
    body: Vec<Stated>,
    names: &mut Names<'a>,
) -> Result<Vec<Unit>, NoMemory>
    requires { names.old ≡ [] }
    ensures names { OnOk result (names.new ≡ codes "top" ∷ []) }
    ensures units { IfOk result (λ units. map model_of units.items
        ≡ record { name = codes "top"; line = 0; body = map telling_of body.items } ∷ []) }
{
    names.insert(b"top")?;
    let name = name_of(alloc, b"top")?;
    let mut units = Vec::new(alloc);
    units.push(Unit {
        name,
        line: 0,
        body,
    })?;
    Ok(units)
}

/// Whether the words are those of a `.model`.
fn begins_model(words: &[&[u8]]) -> bool
    requires { 0 < length words.now }
    ensures { result ≡ is_model (keyword_at (word_at (texts words.now) 0)) }
{
    matches!(keyword_of(word(words, 0)), Keyword::Model)
}

/// The name that a `.model` gives, which is new. No rows follow it.
fn model_name<'a>(
    lines: &Lines<'a>,
    line: u32,
    names: &mut Names<'a>,
) -> Result<&'a [u8], BlifFault>
    requires inside { line < length lines.now }
    requires small { length lines.now < 2 ^ 32 }
    ensures name { IfOk result (λ name. IsNewModel names.old lines.now line name.now) }
    ensures names { OnOk result (names.new ≡ names.old ++ word_at (further (nth_line lines.now line)) 0 ∷ []) }
    ensures fault { IfErr result (λ e. OnText e (λ f. fault_at names.old (Some (head_at lines.now line)) ≡ Some f)) }
{
    let words = lines.words(line);
    let number = lines.number(line);
    if words.len() != 2 {
        return Err(at(number, BlifKind::BadCount));
    }
    let name = word(words, 1);
    if !names.insert(name)? {
        return Err(at(number, BlifKind::RepeatedModel));
    }
    if rows_end(lines, line + 1) > line + 1 {
        return Err(at(lines.number(line + 1), BlifKind::Misplaced));
    }
    Ok(name)
}

/// The statements from a line up to the next `.model`, or the first fault in them.
fn parts_from(alloc: Global, lines: &Lines, start: u32) -> Result<Parts, BlifFault>
    requires within { start ≤ length lines.now }
    requires head { start < length lines.now → is_row (nth_line lines.now start) ≡ false }
    ensures parts { IfOk result (λ parts. ArePartsFrom lines.now start parts.end (map telling_of parts.body.items)) }
    ensures fault { IfErr result (λ e. OnText e (λ f. fault_in_parts [] (parts_before (blocks_of (drop start lines.now))) ≡ Some f)) }
{
    let mut seen = Seen::new(alloc);
    let mut body = Vec::new(alloc);
    let mut line = start;
    while line < lines.len() && !begins_model(lines.words(line)) {
        let end = rows_end(lines, line + 1);
        if let Some(what) = part(alloc, lines, line, end, &mut seen)? {
            body.push(Stated {
                line: lines.number(line),
                what,
            })?;
        }
        line = end;
    }
    Ok(Parts { body, end: line })
}

/// What a line that is no `.model` says with its rows, which go up to `end`, or the first fault in them.
fn part<'a>(
    alloc: Global,
    lines: &Lines<'a>,
    line: u32,
    end: u32,
    seen: &mut Seen<'a>,
) -> Result<Option<Statement>, BlifFault>
    requires order { line < end }
    requires within { end ≤ length lines.now }
    requires head { is_row (nth_line lines.now line) ≡ false }
    requires unnamed { is_model (keyword_in (nth_line lines.now line)) ≡ false }
    ensures lawful { OnOk result (fault_in_part (earlier_of seen.old) (block_at lines.now line end) ≡ None) }
    ensures seen { OnOk result (earlier_of seen.new ≡ after_block (block_at lines.now line end) (earlier_of seen.old)) }
    ensures told { IfOk result (λ what. option_map told_of what ≡ told_in_part (block_at lines.now line end)) }
    ensures fault { IfErr result (λ e. OnText e (λ f. fault_in_part (earlier_of seen.old) (block_at lines.now line end) ≡ Some f)) }
{
    let words = lines.words(line);
    if places_model(words) {
        let placed = placed(alloc, lines.number(line), &words[1..], seen)?;
        if line + 1 < end {
            return Err(at(lines.number(line + 1), BlifKind::Misplaced));
        }
        return Ok(Some(placed));
    }
    match statement(alloc, lines, line, end, seen)? {
        Said::Body(what) => Ok(Some(what)),
        Said::Nothing => Ok(None),
        Said::Model(_) => unreachable!(),
    }
}

/// Whether the words place a model.
fn places_model(words: &[&[u8]]) -> bool
    requires { 0 < length words.now }
    ensures { result ≡ places_model_in (texts words.now) }
{
    word(words, 0) == b".subckt".as_slice()
}

/// A placed model by the words after `.subckt`.
fn placed(
    alloc: Global,
    number: u32,
    further: &[&[u8]],
    seen: &mut Seen,
) -> Result<Statement, BlifFault>
    ensures lawful { OnOk result (fault_in_place (earlier_of seen.old) (texts further.now) ≡ None) }
    ensures seen { OnOk result (earlier_of seen.new ≡ record (earlier_of seen.old) { some = true }) }
    ensures told { IfOk result (λ what. told_of what ≡ place_in (texts further.now)) }
    ensures fault { IfErr result (λ e. IsHeadFault e number (fault_in_place (earlier_of seen.old) (texts further.now))) }
{
    if seen.ended {
        return Err(at(number, BlifKind::Misplaced));
    }
    let Some((model, bindings)) = further.split_first() else {
        return Err(at(number, BlifKind::BadCount));
    };
    if !are_bindings(bindings) {
        return Err(at(number, BlifKind::BadBinding));
    }
    seen.some = true;
    Ok(Statement::Place {
        model: name_of(alloc, model)?,
        bindings: bindings_of(alloc, bindings)?,
    })
}

/// Whether each word has an `=` with bytes on both of its sides.
fn are_bindings(words: &[&[u8]]) -> bool
    ensures { result ≡ list_all is_binding_word (texts words.now) }
{
    words.iter().all(|word| is_binding(word))
}

/// Whether the word has an `=` with bytes on both of its sides.
fn is_binding(word: &[u8]) -> bool
    ensures { result ≡ is_binding_word word.now }
{
    let (before, after) = cut_at(b'=', word);
    !before.is_empty() && !after.is_empty()
}

/// The names on the two sides of a binding's first `=`.
fn binding_of(alloc: Global, word: &[u8]) -> Result<Binding, NoMemory>
    ensures { IfOk result (λ binding. binding ≡ binding_in word.now) }
{
    let (formal, actual) = cut_at(b'=', word);
    Ok(Binding {
        formal: name_of(alloc, formal)?,
        actual: name_of(alloc, actual)?,
    })
}

/// The bindings that words spell, in order.
fn bindings_of(alloc: Global, words: &[&[u8]]) -> Result<Vec<Binding>, NoMemory>
    ensures { IfOk result (λ bindings. bindings.items ≡ map binding_in (texts words.now)) }
{
    let mut bindings = Vec::with_capacity(alloc, words.len())?;
    for word in words {
        bindings.push(binding_of(alloc, word)?)?;
    }
    Ok(bindings)
}
