// From the lines of a text to what they say, with the first fault among them.

ghost use Rattle.std.specs.Prelude.{◌≡◌, ◌+◌, ◌-◌, ◌++◌, ◌≤◌, ◌<◌, ◌^◌, Bool, None, [], ◌∷◌, length, IfOk, IfErr, OnOk};
ghost use Rattle.aiger_read.specs.Lines.{line_at};
ghost use Rattle.aiger_read.specs.Header.{header_numbers, header_of, counted, fault_in_header};
ghost use Rattle.aiger_read.specs.Statements.{statements, statement_at, defined_in, defines};
ghost use Rattle.aiger_read.specs.Symbols.{symbol_lines, names_given};
ghost use Rattle.aiger_read.specs.Faults.{fault_at, fault_at_counted, IsFirstFault, AreLawful};
ghost use Rattle.aiger_read.specs.Text.{body_of, OnText};
ghost use Rattle.aiger_read.specs.Steps.{texts, maybe_texts, IsFaultOn, IsLawfulTo};

use crate::fault::{AigerFault, AigerKind, at};
use crate::header::{Header, header_on};
use crate::lines::numbers_on;
use crate::statement::{Role, Statement, statement_on};
use crate::symbols::names_on;
use crate::variables::Variables;
use std::alloc::Global;

/// What the counted lines say, and the variables that they define.
#[derive(Drop)]
pub struct Counted {
    pub body: Vec<Statement>,
    pub variables: Variables,
}

/// What the lines of a text say: the header, the counted lines, and the names that symbols give to inputs, outputs and latches.
#[derive(Drop)]
pub struct Content<'a> {
    pub header: Header,
    pub counted: Counted,
    pub names: Vec<Option<&'a [u8]>>,
}

/// The first line, which is empty where there is none.
fn first_line<'a>(lines: &[&'a [u8]]) -> &'a [u8]
    ensures { result.now ≡ line_at (texts lines.now) 0 }
{
    match lines {
        [] => b"",
        [first, ..] => first,
    }
}

/// What the counted line at a place says.
#[tactic(auto, unfolding(crate::specs::Faults::fault_at_counted))]
fn statement_due(
    alloc: Global,
    lines: &[&[u8]],
    header: &Header,
    place: usize,
    variables: &mut Variables,
) -> Result<Statement, AigerFault>
    requires few { length lines.now + 1 < 2 ^ 32 }
    requires place { 0 < place }
    requires within { place ≤ length lines.now }
    requires variables { variables.old ≡ defined_in (statements header.now (texts lines.now) (place - 1)) }
    ensures lawful { OnOk result (fault_at_counted header.now (texts lines.now) place ≡ None) }
    ensures within { OnOk result (place < length lines.now) }
    ensures said { IfOk result (λ s. s ≡ statement_at header.now (texts lines.now) place) }
    ensures defined { OnOk result (variables.new ≡ variables.old ++ defines (statement_at header.now (texts lines.now) place)) }
    ensures fault { IfErr result (λ e. IsFaultOn e (place + 1) (fault_at_counted header.now (texts lines.now) place)) }
{
    let number = place as u32 + 1;
    let Some(line) = lines.get(place) else {
        return Err(at(number, AigerKind::Ending));
    };
    let numbers = numbers_on(alloc, line)?;
    let role = Role::at(header, place as u64);
    statement_on(header, number, role, &numbers, variables)
}

/// What the counted lines say. Memory is taken line by line.
fn counted_due(alloc: Global, lines: &[&[u8]], header: &Header) -> Result<Counted, AigerFault>
    requires few { length lines.now + 1 < 2 ^ 32 }
    requires some { 0 < length lines.now }
    requires header { header.now ≡ header_of (texts lines.now) }
    requires lawful { fault_at (texts lines.now) 0 ≡ None }
    ensures lawful { OnOk result (IsLawfulTo (texts lines.now) (1 + counted header.now)) }
    ensures within { OnOk result (counted header.now < length lines.now) }
    ensures body { IfOk result (λ c. c.body.items ≡ body_of (texts lines.now)) }
    ensures variables { IfOk result (λ c. c.variables ≡ defined_in (body_of (texts lines.now))) }
    ensures fault { IfErr result (λ e. OnText e (IsFirstFault (texts lines.now))) }
{
    let mut body = Vec::new(alloc);
    let mut variables = Variables::new(alloc);
    for taken in 0..header.counted() {
        let place = taken as usize + 1;
        body.push(statement_due(alloc, lines, header, place, &mut variables)?)?;
    }
    Ok(Counted { body, variables })
}

/// What the lines of a text say, or the first fault among them.
pub fn content_of<'a>(alloc: Global, lines: &[&'a [u8]]) -> Result<Content<'a>, AigerFault>
    requires { length (line_at (texts lines.now) 0) + length lines.now ≤ 2 ^ 32 }
    ensures lawful { OnOk result (AreLawful (texts lines.now)) }
    ensures header { IfOk result (λ c. c.header ≡ header_of (texts lines.now)) }
    ensures body { IfOk result (λ c. c.counted.body.items ≡ body_of (texts lines.now)) }
    ensures variables { IfOk result (λ c. c.counted.variables ≡ defined_in (body_of (texts lines.now))) }
    ensures names { IfOk result (λ c. maybe_texts c.names.items
        ≡ names_given (header_of (texts lines.now)) (symbol_lines (header_of (texts lines.now)) (texts lines.now))) }
    ensures fault { IfErr result (λ e. OnText e (IsFirstFault (texts lines.now))) }
{
    let header = header_on(alloc, first_line(lines))?;
    let counted = counted_due(alloc, lines, &header)?;
    let names = names_on(alloc, lines, &header)?;
    Ok(Content {
        header,
        counted,
        names,
    })
}
