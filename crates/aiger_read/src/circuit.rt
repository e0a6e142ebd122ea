// From what the lines of a text say to its circuit, with the faults of the whole.

ghost use Rattle.std.specs.Prelude.{◌≡◌, ◌≤◌, ◌<◌, ◌+◌, ◌^◌, Bool, None, position, length, IfSome, IfOk, IfErr, OnOk};
ghost use Rattle.tm_circuit.specs.Build as build;
ghost use Rattle.tm_circuit.specs.Sound.{IsSound};
ghost use Rattle.aiger_read.specs.Statements.{defined_in};
ghost use Rattle.aiger_read.specs.Circuit.{sections_in, variables_of, circuit_of as circuit_spelled};
ghost use Rattle.aiger_read.specs.Text as whole;
ghost use Rattle.aiger_read.specs.Text.{OnText};
ghost use Rattle.aiger_read.specs.Steps.{maybe_texts};
ghost use Rattle.aiger_read.specs.Making.{sections_of, signal_count, IsLaid, IsSaid, IsLoop, IsFaultSaid, fault_said};

use crate::fault::{AigerFault, AigerKind, at};
use crate::header::Header;
use crate::names::{joiner, used};
use crate::parts::{parts_of, signal_count};
use crate::reading::Counted;
use crate::sections::{Sections, sections_of};
use crate::statement::Statement;
use crate::variables::Variables;
use blif_read::Limits;
use std::alloc::Global;
use tm_circuit::{Circuit, CircuitFault, Parts};

/// Whether no line defines the variable of a literal, and it is not the constant.
fn is_undriven(variables: &Variables, literal: u32) -> bool
    ensures { result ≡ whole.is_undriven variables.now literal }
{
    literal / 2 != 0 && !variables.contains(literal / 2)
}

/// Whether a statement uses such a literal.
fn uses_undriven(variables: &Variables, statement: &Statement) -> bool
    ensures { result ≡ whole.uses_undriven variables.now statement.now }
{
    match statement {
        Statement::Input(_) => false,
        Statement::Latch(latch) => is_undriven(variables, latch.next),
        Statement::Output(literal) => is_undriven(variables, *literal),
        Statement::And(and) => {
            is_undriven(variables, and.left) || is_undriven(variables, and.right)
        }
    }
}

/// The first statement that uses such a literal.
fn first_undriven(variables: &Variables, body: &[Statement]) -> Option<usize>
    ensures place { result ≡ position (whole.uses_undriven variables.now) body.now }
    ensures within { IfSome result (λ k. k < length body.now) }
{
    body.iter()
        .position(|statement| uses_undriven(variables, statement))
}

/// The circuit of the parts, unless gates read one another in a circle.
fn built(alloc: Global, parts: Parts) -> Result<Circuit, AigerFault>
    requires { IsLaid (build.circuit_of parts) }
    ensures circuit { IfOk result (λ c. (c ≡ build.circuit_of parts) × IsSound c) }
    ensures fault { IfErr result (λ e. OnText e (IsLoop (build.circuit_of parts))) }
{
    match Circuit::build(alloc, parts) {
        Ok(circuit) => Ok(circuit),
        Err(CircuitFault::Loop) => Err(at(0, AigerKind::Loop)),
        Err(CircuitFault::NoMemory) => Err(AigerFault::NoMemory),
        Err(_) => unreachable!(),
    }
}

/// The circuit that the lines of each kind and the names given spell, unless gates read one another in a circle.
#[tactic(auto, unfolding(crate::specs::Circuit::circuit_of))]
fn spelled(
    alloc: Global,
    header: &Header,
    sections: &Sections,
    variables: &Variables,
    given: &[Option<&[u8]>],
    name: u32,
) -> Result<Circuit, AigerFault>
    requires name { name ≤ 1023 }
    requires few { signal_count (sections_of sections.now) ≤ 900000 }
    requires variables { variables.now ≡ variables_of (sections_of sections.now) }
    requires said { IsSaid header.now (sections_of sections.now) (maybe_texts given.now) }
    ensures circuit { IfOk result (λ c. c ≡ circuit_spelled name header.now (maybe_texts given.now) (sections_of sections.now)) }
    ensures sound { IfOk result IsSound }
    ensures fault { IfErr result (λ e. OnText e
        (IsLoop (circuit_spelled name header.now (maybe_texts given.now) (sections_of sections.now)))) }
{
    let names = used(alloc, given, name)?;
    let joiner = joiner(alloc, &names)?;
    let parts = parts_of(alloc, header, sections, variables, &names, &joiner)?;
    built(alloc, parts)
}

/// The circuit of what the lines of a text say, or the first fault of the whole, where so many signals, and so many bytes of a
/// symbol's name, are allowed.
pub fn circuit_of(
    alloc: Global,
    header: &Header,
    counted: &Counted,
    given: &[Option<&[u8]>],
    limits: &Limits,
) -> Result<Circuit, AigerFault>
    requires signals { limits.now.signals ≤ 900000 }
    requires name { limits.now.name ≤ 1023 }
    requires few { length counted.now.body.items + 2 < 2 ^ 32 }
    requires variables { counted.now.variables ≡ variables_of (sections_in counted.now.body.items) }
    requires sorted { defined_in counted.now.body.items ≡ variables_of (sections_in counted.now.body.items) }
    requires said { IsSaid header.now (sections_in counted.now.body.items) (maybe_texts given.now) }
    ensures circuit { IfOk result (λ c. c
        ≡ circuit_spelled limits.now.name header.now (maybe_texts given.now) (sections_in counted.now.body.items)) }
    ensures sound { IfOk result IsSound }
    ensures whole { OnOk result (fault_said limits.now.signals counted.now.body.items
        (circuit_spelled limits.now.name header.now (maybe_texts given.now) (sections_in counted.now.body.items)) ≡ None) }
    ensures fault { IfErr result (λ e. OnText e (IsFaultSaid limits.now.signals counted.now.body.items
        (circuit_spelled limits.now.name header.now (maybe_texts given.now) (sections_in counted.now.body.items)))) }
{
    if let Some(place) = first_undriven(&counted.variables, &counted.body) {
        return Err(at(place as u32 + 2, AigerKind::Undriven));
    }
    let sections = sections_of(alloc, &counted.body)?;
    if signal_count(&sections, &counted.variables) > limits.signals as usize {
        return Err(at(0, AigerKind::TooManySignals));
    }
    spelled(
        alloc,
        header,
        &sections,
        &counted.variables,
        given,
        limits.name,
    )
}
