// The signals of a model, by their names in order: the inputs, then the latches, then the gates.

ghost use Rattle.std.specs.Prelude.{◌≡◌, [], ◌∷◌, ◌++◌, map, option_copied, option_to_list, IfOk, OnOk};
ghost use Rattle.blif_unit.specs.Unit.{AreDistinct, told_of, telling_of, inputs_told, outputs_told, latch_told, gate_told, over};
ghost use Rattle.blif_circuit.specs.Circuit.{clock_name, names_of};
ghost use Rattle.blif_circuit.specs.Signals.{put_all, unclocked};

use crate::clock::is_clock;
use blif_unit::{Names, Stated, Statement};
use std::alloc::Global;
use tm_bits::NoMemory;
use tm_circuit::Name;

/// The names that the statement makes inputs.
pub fn inputs_in(what: &Statement) -> &[Name]
    ensures { result.now ≡ inputs_told (told_of what.now) }
{
    match what {
        Statement::Inputs(names) => names,
        _ => &[],
    }
}

/// The name of the latch that the statement is.
pub fn latch_in(what: &Statement) -> Option<&Name>
    ensures { option_to_list (option_copied result) ≡ latch_told (told_of what.now) }
{
    match what {
        Statement::Latch { name, .. } => Some(name),
        _ => None,
    }
}

/// The name of the gate that the statement is.
pub fn gate_in(what: &Statement) -> Option<&Name>
    ensures { option_to_list (option_copied result) ≡ gate_told (told_of what.now) }
{
    match what {
        Statement::Gate { name, .. } => Some(name),
        _ => None,
    }
}

/// The names that the statement makes outputs.
pub fn outputs_in(what: &Statement) -> &[Name]
    ensures { result.now ≡ outputs_told (told_of what.now) }
{
    match what {
        Statement::Outputs(names) => names,
        _ => &[],
    }
}

/// Puts the name, where there is one.
fn put<'a>(names: &mut Names<'a>, name: Option<&'a Name>) -> Result<(), NoMemory>
    ensures { OnOk result (names.new ≡ put_all names.old (option_to_list (option_copied name.entry))) }
{
    if let Some(name) = name {
        names.insert(name.bytes())?;
    }
    Ok(())
}

/// Puts the name, unless it is the clock's.
fn put_input<'a>(
    names: &mut Names<'a>,
    clock: Option<&Name>,
    input: &'a Name,
) -> Result<(), NoMemory>
    ensures { OnOk result (names.new ≡ put_all names.old (unclocked (option_copied clock.entry) (input.now ∷ []))) }
{
    if !is_clock(clock, input.bytes()) {
        names.insert(input.bytes())?;
    }
    Ok(())
}

/// Puts those names that are not the clock's.
fn put_inputs_of<'a>(
    names: &mut Names<'a>,
    clock: Option<&Name>,
    inputs: &'a [Name],
) -> Result<(), NoMemory>
    ensures { OnOk result (names.new ≡ put_all names.old (unclocked (option_copied clock.entry) inputs.now)) }
{
    for input in inputs {
        put_input(names, clock, input)?;
    }
    Ok(())
}

/// Puts the inputs, without the clock.
fn put_inputs<'a>(
    names: &mut Names<'a>,
    clock: Option<&Name>,
    body: &'a [Stated],
) -> Result<(), NoMemory>
    ensures { OnOk result (names.new ≡ put_all names.old
        (over (λ told. unclocked (option_copied clock.entry) (inputs_told told)) (map telling_of body.now))) }
{
    for stated in body {
        put_inputs_of(names, clock, inputs_in(&stated.what))?;
    }
    Ok(())
}

/// Puts the latches.
fn put_latches<'a>(names: &mut Names<'a>, body: &'a [Stated]) -> Result<(), NoMemory>
    ensures { OnOk result (names.new ≡ put_all names.old (over latch_told (map telling_of body.now))) }
{
    for stated in body {
        put(names, latch_in(&stated.what))?;
    }
    Ok(())
}

/// Puts the gates.
fn put_gates<'a>(names: &mut Names<'a>, body: &'a [Stated]) -> Result<(), NoMemory>
    ensures { OnOk result (names.new ≡ put_all names.old (over gate_told (map telling_of body.now))) }
{
    for stated in body {
        put(names, gate_in(&stated.what))?;
    }
    Ok(())
}

/// The names of the signals, in the order of the signals.
pub fn signal_names<'a>(
    alloc: Global,
    body: &'a [Stated],
    clock: Option<&Name>,
) -> Result<Names<'a>, NoMemory>
    requires clock { option_copied clock ≡ clock_name (map telling_of body.now) }
    requires distinct { AreDistinct (names_of (map telling_of body.now)) }
    ensures { IfOk result (λ names. names ≡ names_of (map telling_of body.now)) }
{
    let mut names = Names::new(alloc);
    put_inputs(&mut names, clock, body)?;
    put_latches(&mut names, body)?;
    put_gates(&mut names, body)?;
    Ok(names)
}
