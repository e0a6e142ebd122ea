// What a statement's line says by its words, and the rules that it may break.

ghost use Rattle.std.specs.Bool.{OnTrue};
ghost use Rattle.std.specs.Prelude.{◌≡◌, slice_get, [], true, if◌then◌else◌, ◌≢◌, not, false, ◌||◌, ◌&&◌, ◌++◌, nat_lt, length, Some, None, IfOk, IfErr, OnOk, IsOkAnd, option_map, option_copied, option_to_list, bytes_eq, MatchResult};
ghost use Rattle.std.specs.List.{list_any};
ghost use Rattle.std.specs.Option.{option_or};
ghost use Rattle.blif_unit.specs.Unit.{told_of};
ghost use Rattle.blif_models.specs.Statement.{word_at, last_of, but_last, fault_in_head, control_in, control_named, differ, differs_from_first, earlier, is_type, repeats, same_control, told_in};
ghost use Rattle.blif_models.specs.Words.{texts, control_seen, clashes, clock_by, differ_from, earlier_of, first_seen, with_control, after, IsHeadFault, told_by, name_by, named_in, IsInit, IsInitBy};

use crate::keyword::Keyword;
use crate::words::{name_of, names_of, word};
use blif_unit::{BlifFault, BlifKind, Control, Names, Statement, at};
use std::alloc::Global;
use tm_bits::NoMemory;
use tm_circuit::{Edge, Name};

/// The words of a latch's control.
#[derive(Clone, Copy)]
pub struct ControlWords<'a> {
    pub edge: &'a [u8],
    pub name: &'a [u8],
}

/// What the rules ask of the statements before a line.
#[derive(Drop)]
pub struct Seen<'a> {
    pub some: bool,
    pub named: bool,
    pub ended: bool,
    pub drivers: Names<'a>,
    pub outputs: Names<'a>,
    pub clock: Option<&'a [u8]>,
    pub control: Option<Option<ControlWords<'a>>>,
}

/// What a statement says.
#[derive(Drop)]
pub enum Said {
    Nothing,
    Model(Name),
    Body(Statement),
}

impl<'a> Seen<'a> {
    /// No statement.
    pub fn new(alloc: Global) -> Self
        ensures { earlier_of result ≡ earlier [] }
    {
        Seen {
            some: false,
            named: false,
            ended: false,
            drivers: Names::new(alloc),
            outputs: Names::new(alloc),
            clock: None,
            control: None,
        }
    }
}

/// The pins and the name of a gate, by the words after `.names`.
#[tactic(auto, using(crate::proofs::WordLemmas::length_texts), unfolding(crate::specs::Statement::fault_in_head))]
pub fn gate<'a>(
    alloc: Global,
    number: u32,
    further: &[&'a [u8]],
    seen: &mut Seen<'a>,
) -> Result<(Vec<Name>, Name), BlifFault>
    ensures lawful { OnOk result (fault_in_head Keyword.Names (earlier_of seen.old) (texts further.now) ≡ None) }
    ensures seen { OnOk result (earlier_of seen.new ≡ after Keyword.Names (texts further.now) (earlier_of seen.old)) }
    ensures pins { IfOk result (λ gate. gate.0.items ≡ but_last (texts further.now)) }
    ensures name { IfOk result (λ gate. gate.1 ≡ last_of (texts further.now)) }
    ensures fault { IfErr result (λ e. IsHeadFault e number (fault_in_head Keyword.Names (earlier_of seen.old) (texts further.now))) }
{
    if seen.ended {
        return Err(at(number, BlifKind::Misplaced));
    }
    if further.is_empty() {
        return Err(at(number, BlifKind::BadCount));
    }
    if further.len() > 256 {
        return Err(at(number, BlifKind::TooManyPins));
    }
    let last = further.len() - 1;
    let name = word(further, last);
    if !seen.drivers.insert(name)? {
        return Err(at(number, BlifKind::RepeatedDriver));
    }
    seen.some = true;
    Ok((names_of(alloc, &further[..last])?, name_of(alloc, name)?))
}

/// What a line says that is no `.names` and no row.
#[tactic(auto, using(crate::proofs::WordLemmas::length_texts), unfolding(crate::specs::Statement::fault_in_head))]
pub fn plain_statement<'a>(
    alloc: Global,
    number: u32,
    keyword: Keyword,
    further: &[&'a [u8]],
    seen: &mut Seen<'a>,
) -> Result<Said, BlifFault>
    requires gate { keyword ≢ Keyword.Names }
    requires row { keyword ≢ Keyword.Row }
    ensures lawful { OnOk result (fault_in_head keyword (earlier_of seen.old) (texts further.now) ≡ None) }
    ensures seen { OnOk result (earlier_of seen.new ≡ after keyword (texts further.now) (earlier_of seen.old)) }
    ensures told { IfOk result (λ said. told_by said ≡ told_in keyword (texts further.now) []) }
    ensures name { IfOk result (λ said. name_by said ≡ named_in keyword (texts further.now)) }
    ensures fault { IfErr result (λ e. IsHeadFault e number (fault_in_head keyword (earlier_of seen.old) (texts further.now))) }
{
    let said = match keyword {
        Keyword::Unknown => return Err(at(number, BlifKind::UnknownWord)),
        Keyword::Omitted => return Err(at(number, BlifKind::LeftOut)),
        Keyword::Model => Said::Model(model(alloc, number, further, seen)?),
        _ if seen.ended => return Err(at(number, BlifKind::Misplaced)),
        Keyword::Inputs => {
            let names = new_names(
                alloc,
                number,
                further,
                &mut seen.drivers,
                BlifKind::RepeatedDriver,
            )?;
            Said::Body(Statement::Inputs(names))
        }
        Keyword::Outputs => {
            let names = new_names(
                alloc,
                number,
                further,
                &mut seen.outputs,
                BlifKind::RepeatedOutput,
            )?;
            Said::Body(Statement::Outputs(names))
        }
        Keyword::Clock => Said::Body(Statement::Clock(clock(
            alloc,
            number,
            further,
            &mut seen.clock,
        )?)),
        Keyword::Latch => Said::Body(latch(alloc, number, further, seen)?),
        Keyword::End => {
            if !further.is_empty() {
                return Err(at(number, BlifKind::BadCount));
            }
            seen.ended = true;
            Said::Nothing
        }
        Keyword::Names | Keyword::Row => unreachable!(),
    };
    seen.some = true;
    Ok(said)
}

/// The model's name, by the words after `.model`.
#[tactic(auto, using(crate::proofs::WordLemmas::length_texts), unfolding(crate::specs::Statement::fault_in_head))]
fn model<'a>(
    alloc: Global,
    number: u32,
    further: &[&'a [u8]],
    seen: &mut Seen<'a>,
) -> Result<Name, BlifFault>
    ensures lawful { OnOk result (fault_in_head Keyword.Model (earlier_of seen.old) (texts further.now) ≡ None) }
    ensures seen { OnOk result (earlier_of seen.new ≡ record (earlier_of seen.old) { named = true }) }
    ensures name { IfOk result (λ name. name ≡ word_at (texts further.now) 0) }
    ensures fault { IfErr result (λ e. IsHeadFault e number (fault_in_head Keyword.Model (earlier_of seen.old) (texts further.now))) }
{
    if seen.named {
        return Err(at(number, BlifKind::LeftOut));
    }
    if seen.some {
        return Err(at(number, BlifKind::Misplaced));
    }
    if further.len() != 1 {
        return Err(at(number, BlifKind::BadCount));
    }
    seen.named = true;
    Ok(name_of(alloc, word(further, 0))?)
}

/// Names of which none may stand before, which are then seen; `kind` is the fault of one that does.
fn new_names<'a>(
    alloc: Global,
    number: u32,
    further: &[&'a [u8]],
    seen: &mut Names<'a>,
    kind: BlifKind,
) -> Result<Vec<Name>, BlifFault>
    ensures new { OnOk result (repeats seen.old (texts further.now) ≡ false) }
    ensures seen { OnOk result (seen.new ≡ seen.old ++ texts further.now) }
    ensures names { IfOk result (λ names. names.items ≡ texts further.now) }
    ensures fault { IfErr result (λ e. IsHeadFault e number (if repeats seen.old (texts further.now) then Some kind else None)) }
{
    for name in further {
        if !seen.insert(name)? {
            return Err(at(number, kind));
        }
    }
    Ok(names_of(alloc, further)?)
}

/// The names of clocks that a `.clock` declares, which are all the same.
#[tactic(auto, using(crate::proofs::WordLemmas::differ_first))]
fn clock<'a>(
    alloc: Global,
    number: u32,
    further: &[&'a [u8]],
    seen: &mut Option<&'a [u8]>,
) -> Result<Vec<Name>, BlifFault>
    ensures same { OnOk result (differ (option_to_list (option_copied seen.old) ++ texts further.now) ≡ false) }
    ensures seen { OnOk result (option_copied seen.new ≡ option_or (option_copied seen.old) (slice_get (texts further.now) 0)) }
    ensures names { IfOk result (λ names. names.items ≡ texts further.now) }
    ensures fault { IfErr result (λ e. IsHeadFault e number
        (if differ (option_to_list (option_copied seen.old) ++ texts further.now) then Some BlifKind.ManyClocks else None)) }
{
    let first = first_clock(*seen, further);
    if are_other_clocks(first, further) {
        return Err(at(number, BlifKind::ManyClocks));
    }
    *seen = first;
    Ok(names_of(alloc, further)?)
}

/// The clock seen before, or else the first of these names.
fn first_clock<'a>(clock: Option<&'a [u8]>, names: &[&'a [u8]]) -> Option<&'a [u8]>
    ensures { option_copied result ≡ option_or (option_copied clock.entry) (slice_get (texts names.now) 0) }
{
    if clock.is_some() {
        return clock;
    }
    names.first().copied()
}

/// Whether one of the names is another than the clock's.
fn are_other_clocks(clock: Option<&[u8]>, names: &[&[u8]]) -> bool
    ensures { result ≡ differ_from (option_copied clock.entry) (texts names.now) }
{
    match clock {
        Some(clock) => has_other(clock, names),
        None => false,
    }
}

/// Whether one of the names is another than this one.
fn has_other(clock: &[u8], names: &[&[u8]]) -> bool
    ensures { result ≡ list_any (λ name. not (bytes_eq clock.now name.now)) names.now }
{
    names.iter().any(|name| clock != *name)
}

/// A latch by the words after `.latch`.
#[tactic(auto, using(crate::proofs::WordLemmas::length_texts), unfolding(crate::specs::Statement::fault_in_head))]
fn latch<'a>(
    alloc: Global,
    number: u32,
    further: &[&'a [u8]],
    seen: &mut Seen<'a>,
) -> Result<Statement, BlifFault>
    requires { seen.old.ended ≡ false }
    ensures lawful { OnOk result (fault_in_head Keyword.Latch (earlier_of seen.old) (texts further.now) ≡ None) }
    ensures seen { OnOk result (earlier_of seen.new
        ≡ record (after Keyword.Latch (texts further.now) (earlier_of seen.old)) { some = seen.old.some }) }
    ensures told { IfOk result (λ latch. Some (told_of latch) ≡ told_in Keyword.Latch (texts further.now) []) }
    ensures fault { IfErr result (λ e. IsHeadFault e number (fault_in_head Keyword.Latch (earlier_of seen.old) (texts further.now))) }
{
    if further.len() < 2 || further.len() > 5 {
        return Err(at(number, BlifKind::BadCount));
    }
    let name = word(further, 1);
    if !seen.drivers.insert(name)? {
        return Err(at(number, BlifKind::RepeatedDriver));
    }
    if further.len() > 3 && !is_edge(word(further, 2)) {
        return Err(at(number, BlifKind::BadType));
    }
    let init = match init_in(further) {
        Ok(init) => init,
        Err(kind) => return Err(at(number, kind)),
    };
    let control = control_words(further);
    if !see_control(control, seen) {
        return Err(at(number, BlifKind::ManyClocks));
    }
    Ok(Statement::Latch {
        next: name_of(alloc, word(further, 0))?,
        name: name_of(alloc, name)?,
        init,
        control: named_control(alloc, control)?,
    })
}

/// Whether a word is a type of latches that are read.
fn is_edge(word: &[u8]) -> bool
    ensures { result ≡ is_type word.now }
{
    word == b"re".as_slice() || word == b"fe".as_slice()
}

/// The initial value of a latch, or what is wrong with it.
fn init_in(further: &[&[u8]]) -> Result<bool, BlifKind>
    ensures { IsInit result (texts further.now) }
{
    if further.len() != 3 && further.len() != 5 {
        return Err(BlifKind::UnknownInit);
    }
    init_by(word(further, further.len() - 1))
}

/// The initial value that a word spells, or what is wrong with it.
fn init_by(word: &[u8]) -> Result<bool, BlifKind>
    ensures { IsInitBy result word.now }
{
    if word == b"1".as_slice() {
        Ok(true)
    } else if word == b"0".as_slice() || word == b"2".as_slice() {
        Ok(false)
    } else if word == b"3".as_slice() {
        Err(BlifKind::UnknownInit)
    } else {
        Err(BlifKind::BadInit)
    }
}

/// The control of a latch. `NIL` is none.
fn control_words<'a>(further: &[&'a [u8]]) -> Option<ControlWords<'a>>
    ensures { control_seen result ≡ control_in (texts further.now) }
{
    if further.len() <= 3 {
        return None;
    }
    let name = word(further, 3);
    if name == b"NIL".as_slice() {
        return None;
    }
    Some(ControlWords {
        edge: word(further, 2),
        name,
    })
}

/// Sees the control of a latch, unless it brings a second clock or is another than the first latch's.
fn see_control<'a>(control: Option<ControlWords<'a>>, seen: &mut Seen<'a>) -> bool
    ensures answer { result ≡ not (clashes (control_seen control.entry) (earlier_of seen.old)) }
    ensures seen { OnTrue result (earlier_of seen.new ≡ with_control (control_seen control.entry) (earlier_of seen.old)) }
{
    if brings_other_clock(seen.clock, control) || is_other_control(seen.control, control) {
        return false;
    }
    seen.clock = clock_with(seen.clock, control);
    seen.control = Some(match seen.control {
        Some(first) => first,
        None => control,
    });
    true
}

/// Whether a control brings a second clock.
fn brings_other_clock(clock: Option<&[u8]>, control: Option<ControlWords>) -> bool
    ensures { result ≡ differ (option_to_list (option_copied clock.entry) ++ clock_by (control_seen control.entry)) }
{
    match (clock, control) {
        (Some(clock), Some(words)) => clock != words.name,
        _ => false,
    }
}

/// The clock seen before, or else that of a control.
fn clock_with<'a>(clock: Option<&'a [u8]>, control: Option<ControlWords<'a>>) -> Option<&'a [u8]>
    ensures { option_copied result ≡ option_or (option_copied clock.entry) (slice_get (clock_by (control_seen control.entry)) 0) }
{
    match (clock, control) {
        (Some(clock), _) => Some(clock),
        (None, Some(words)) => Some(words.name),
        (None, None) => None,
    }
}

/// Whether a control is another than that of the first latch.
fn is_other_control(first: Option<Option<ControlWords>>, control: Option<ControlWords>) -> bool
    ensures { result ≡ differs_from_first (first_seen first.entry) (control_seen control.entry) }
{
    match first {
        Some(first) => !is_same_control(first, control),
        None => false,
    }
}

/// Whether two latches have the same control.
fn is_same_control(first: Option<ControlWords>, second: Option<ControlWords>) -> bool
    ensures { result ≡ same_control (control_seen first.entry) (control_seen second.entry) }
{
    match (first, second) {
        (None, None) => true,
        (Some(first), Some(second)) => first.edge == second.edge && first.name == second.name,
        _ => false,
    }
}

/// The control with a name of its own.
fn named_control(alloc: Global, control: Option<ControlWords>) -> Result<Option<Control>, NoMemory>
    ensures { IfOk result (λ named. named ≡ control_named (control_seen control.entry)) }
{
    let Some(words) = control else {
        return Ok(None);
    };
    let edge = if words.edge == b"re".as_slice() {
        Edge::Rise
    } else {
        Edge::Fall
    };
    Ok(Some(Control {
        name: name_of(alloc, words.name)?,
        edge,
    }))
}
