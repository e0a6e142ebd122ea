// The joiner of models, by the longest run of `@` in their names.

ghost use Rattle.std.specs.Prelude.{◌≡◌, ◌<◌, ◌^◌, ◌∷◌, map, flat_map, IfOk};
ghost use Rattle.tm_parts.specs.Runs.{longest_run as longest_run_of};
ghost use Rattle.blif_unit.specs.Fit.{names_bound, names_told};
ghost use Rattle.blif_unit.specs.Unit.{controls_named, told_of, model_of, over};
ghost use Rattle.blif_flat.specs.Flat.{names_in, joiner_of};
ghost use Rattle.blif_flat.specs.Run.{run_in};

use blif_unit::{Binding, Control, Statement, Unit};
use std::alloc::Global;
use tm_bits::NoMemory;
use tm_circuit::Name;

/// The length of the longest run of `@` in a name.
fn longest_run(bytes: &[u8]) -> usize
    ensures run { result ≡ longest_run_of 64 bytes.now }
    ensures small { result < 2 ^ 63 }
{
    let mut run: usize = 0;
    let mut longest: usize = 0;
    for byte in bytes {
        run = if *byte == b'@' { run + 1 } else { 0 };
        longest = run.max(longest);
    }
    longest
}

/// The same in names.
fn in_names(names: &[Name]) -> usize
    ensures run { result ≡ run_in names.now }
    ensures small { result < 2 ^ 63 }
{
    let mut longest: usize = 0;
    for name in names {
        longest = longest.max(longest_run(name.bytes()));
    }
    longest
}

/// The same in bindings.
fn in_bindings(bindings: &[Binding]) -> usize
    ensures run { result ≡ run_in (flat_map names_bound bindings.now) }
    ensures small { result < 2 ^ 63 }
{
    let mut longest: usize = 0;
    for binding in bindings {
        let formal = longest_run(binding.formal.bytes());
        let actual = longest_run(binding.actual.bytes());
        longest = longest.max(formal.max(actual));
    }
    longest
}

/// The same in the name of a control, 0 where there is none.
fn in_control(control: &Option<Control>) -> usize
    ensures run { result ≡ run_in (controls_named control.now) }
    ensures small { result < 2 ^ 63 }
{
    match control {
        Some(control) => longest_run(control.name.bytes()),
        None => 0,
    }
}

/// The same in a statement.
fn in_statement(statement: &Statement) -> usize
    ensures run { result ≡ run_in (names_told (told_of statement.now)) }
    ensures small { result < 2 ^ 63 }
{
    match statement {
        Statement::Inputs(names) => in_names(names),
        Statement::Outputs(names) => in_names(names),
        Statement::Clock(names) => in_names(names),
        Statement::Gate { pins, name, .. } => in_names(pins).max(longest_run(name.bytes())),
        Statement::Latch {
            next,
            name,
            control,
            ..
        } => longest_run(next.bytes())
            .max(longest_run(name.bytes()))
            .max(in_control(control)),
        Statement::Place { model, bindings } => {
            longest_run(model.bytes()).max(in_bindings(bindings))
        }
    }
}

/// The same in a model.
fn in_unit(unit: &Unit) -> usize
    ensures run { result ≡ run_in ((model_of unit.now).name ∷ over names_told (model_of unit.now).body) }
    ensures small { result < 2 ^ 63 }
{
    let mut longest = longest_run(unit.name.bytes());
    for stated in &unit.body {
        longest = longest.max(in_statement(&stated.what));
    }
    longest
}

/// The same in models.
fn in_units(units: &[Unit]) -> usize
    ensures run { result ≡ run_in (names_in (map model_of units.now)) }
    ensures small { result < 2 ^ 63 }
{
    let mut longest: usize = 0;
    for unit in units {
        longest = longest.max(in_unit(unit));
    }
    longest
}

/// A run of `@` that is one longer than the longest in any name of the models.
pub fn joiner(alloc: Global, units: &[Unit]) -> Result<Vec<u8>, NoMemory>
    ensures { IfOk result (λ joiner. joiner.items ≡ joiner_of (map model_of units.now)) }
{
    let longest = in_units(units);
    Ok(vec![in alloc; b'@'; longest + 1]?)
}
