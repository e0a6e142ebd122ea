// The circuit of a unit that places no model.

ghost use Rattle.std.specs.Bool.{OnTrue};
ghost use Rattle.std.specs.Option.{option_or};
ghost use Rattle.std.specs.Prelude.{◌≡◌, ◌≤◌, ◌++◌, [], true, not, nat_lt, Some, None, length, map, flat_map, slice_get, bytes_eq, option_copied, option_map, option_to_list, IfOk, IfErr, OnOk};
ghost use Rattle.std.specs.List.{AllByRecursion, list_any};
ghost use Rattle.tm_circuit.specs.Plain.{Plain};
ghost use Rattle.blif_read.specs.Fault.{OnText};
ghost use Rattle.blif_read.specs.Fit.{IsFit, IsNameWithin, PlacesNone, names_bound, names_told};
ghost use Rattle.blif_read.specs.Seen.{before_of, after};
ghost use Rattle.blif_read.specs.Unit.{model_of, told_of, telling_of, controls_named, drivers_told, repeats, differ};
ghost use Rattle.blif_read.specs.Whole.{are_same_controls, is_another_control, brings_other_clock, fault_in_statement, fault_in_statements, IsCircuitOfUnit, IsFaultOfUnit};

use blif_circuit::circuit_of;
use blif_unit::{
    Binding, BlifFault, BlifKind, Control, Limits, Names, Stated, Statement, Unit, at,
};
use std::alloc::Global;
use tm_bits::NoMemory;
use tm_circuit::{Circuit, Name};

/// What the rules ask of the statements before one.
#[derive(Drop)]
struct Seen<'a> {
    drivers: Names<'a>,
    clock: Option<&'a Name>,
    /// The control of the first latch.
    control: Option<Option<&'a Control>>,
}

/// The circuit of a unit that places no model, or the unit's first fault.
pub fn circuit(alloc: Global, unit: &Unit, limits: &Limits) -> Result<Circuit, BlifFault>
    requires signals { limits.now.signals ≤ 900000 }
    requires name { limits.now.name ≤ 1023 }
    requires fit { IsFit (model_of unit.now) }
    requires alone { AllByRecursion (λ t. PlacesNone t.what) (model_of unit.now).body }
    requires own { IsNameWithin limits.now.name (model_of unit.now).name }
    ensures circuit { IfOk result (IsCircuitOfUnit limits.now (model_of unit.now)) }
    ensures fault { IfErr result (λ e. OnText e (IsFaultOfUnit limits.now (model_of unit.now))) }
    ensures none { IfErr result (λ e. OnText e (λ _. (c : Plain) → ¬ IsCircuitOfUnit limits.now (model_of unit.now) c)) }
{
    test_statements(alloc, unit.body.as_slice(), limits.name)?;
    circuit_of(alloc, unit, limits)
}

/// Tests each statement by those before it, and answers the first fault.
fn test_statements(alloc: Global, body: &[Stated], name: u32) -> Result<(), BlifFault>
    ensures lawful { OnOk result (fault_in_statements name [] (map telling_of body.now) ≡ None) }
    ensures fault { IfErr result (λ e. OnText e (λ f. fault_in_statements name [] (map telling_of body.now) ≡ Some f)) }
{
    let mut seen = Seen {
        drivers: Names::new(alloc),
        clock: None,
        control: None,
    };
    for stated in body {
        if let Some(kind) = test(&stated.what, name, &mut seen)? {
            return Err(at(stated.line, kind));
        }
    }
    Ok(())
}

/// What is wrong with a statement after those that were seen. Where nothing is, it is seen too.
fn test<'a>(
    what: &'a Statement,
    name: u32,
    seen: &mut Seen<'a>,
) -> Result<Option<BlifKind>, NoMemory>
    ensures kind { IfOk result (λ kind. kind ≡ fault_in_statement name (before_of seen.old) (told_of what.now)) }
    ensures seen { IfOk result (λ kind. kind ≡ None → before_of seen.new ≡ after (before_of seen.old) (told_of what.now)) }
{
    if has_long_name(what, name as usize) {
        return Ok(Some(BlifKind::LongName));
    }
    if !put_drivers(what, &mut seen.drivers)? {
        return Ok(Some(BlifKind::RepeatedDriver));
    }
    if !see_clock(what, seen) {
        return Ok(Some(BlifKind::ManyClocks));
    }
    Ok(None)
}

/// Whether one of the names is longer than `most`.
fn is_one_long(names: &[Name], most: usize) -> bool
    ensures { result ≡ list_any (λ n. nat_lt most (length n)) names.now }
{
    names.iter().any(|name| name.bytes().len() > most)
}

/// Whether a name of the control is longer than `most`.
fn is_control_long(control: Option<&Control>, most: usize) -> bool
    ensures { result ≡ list_any (λ n. nat_lt most (length n)) (controls_named (option_copied control.entry)) }
{
    match control {
        Some(control) => control.name.bytes().len() > most,
        None => false,
    }
}

/// Whether a name in the statement is longer than `most`.
fn has_long_name(what: &Statement, most: usize) -> bool
    ensures { result ≡ list_any (λ n. nat_lt most (length n)) (names_told (told_of what.now)) }
{
    match what {
        Statement::Inputs(names) | Statement::Outputs(names) | Statement::Clock(names) => {
            is_one_long(names, most)
        }
        Statement::Gate { pins, name, .. } => {
            is_one_long(pins, most) || name.bytes().len() > most
        }
        Statement::Latch {
            next,
            name,
            control,
            ..
        } => {
            next.bytes().len() > most
                || name.bytes().len() > most
                || is_control_long(control.as_ref(), most)
        }
        Statement::Place { model, bindings } => {
            model.bytes().len() > most || is_binding_long(bindings, most)
        }
    }
}

/// Whether a name of the bindings is longer than `most`.
fn is_binding_long(bindings: &[Binding], most: usize) -> bool
    ensures { result ≡ list_any (λ n. nat_lt most (length n)) (flat_map names_bound bindings.now) }
{
    for binding in bindings {
        if binding.formal.bytes().len() > most || binding.actual.bytes().len() > most {
            return true;
        }
    }
    false
}

/// Puts the names that the statement drives, up to one that is driven already, and answers whether there is none such.
fn put_drivers<'a>(what: &'a Statement, drivers: &mut Names<'a>) -> Result<bool, NoMemory>
    ensures new { IfOk result (λ new. new ≡ not (repeats drivers.old (drivers_told (told_of what.now)))) }
    ensures drivers { IfOk result (λ new. new ≡ true → drivers.new ≡ drivers.old ++ drivers_told (told_of what.now)) }
{
    match what {
        Statement::Inputs(names) => put_names(names, drivers),
        Statement::Gate { name, .. } | Statement::Latch { name, .. } => drivers.insert(
            name.bytes(),
        ),
        _ => Ok(true),
    }
}

/// Puts the names, up to one that is there already, and answers whether there is none such.
fn put_names<'a>(names: &'a [Name], seen: &mut Names<'a>) -> Result<bool, NoMemory>
    ensures new { IfOk result (λ new. new ≡ not (repeats seen.old names.now)) }
    ensures seen { IfOk result (λ new. new ≡ true → seen.new ≡ seen.old ++ names.now) }
{
    for name in names {
        if !seen.insert(name.bytes())? {
            return Ok(false);
        }
    }
    Ok(true)
}

/// Sees the clock that the statement brings, unless it is a second one or its control is not that of the first latch.
fn see_clock<'a>(what: &'a Statement, seen: &mut Seen<'a>) -> bool
    ensures answer { result ≡ not (brings_other_clock (before_of seen.old) (told_of what.now)) }
    ensures seen { OnTrue result (before_of seen.new
        ≡ record (after (before_of seen.old) (told_of what.now)) { drivers = seen.old.drivers }) }
{
    match what {
        Statement::Clock(names) => see_names(names, &mut seen.clock),
        Statement::Latch { control, .. } => {
            let control = control.as_ref();
            if is_other_control(seen.control, control) || is_other_clock(seen.clock, control) {
                return false;
            }
            seen.clock = clock_with(seen.clock, control);
            seen.control = Some(match seen.control {
                Some(first) => first,
                None => control,
            });
            true
        }
        _ => true,
    }
}

/// Sees the names of clocks, unless two of them differ.
fn see_names<'a>(names: &'a [Name], seen: &mut Option<&'a Name>) -> bool
    ensures answer { result ≡ not (differ (option_to_list (option_copied seen.old) ++ names.now)) }
    ensures seen { OnTrue result (option_copied seen.new ≡ option_or (option_copied seen.old) (slice_get names.now 0)) }
{
    let Some(first) = first_clock(*seen, names) else {
        return true;
    };
    if has_other(first, names) {
        return false;
    }
    *seen = Some(first);
    true
}

/// The clock seen before, or else the first of these names.
fn first_clock<'a>(clock: Option<&'a Name>, names: &'a [Name]) -> Option<&'a Name>
    ensures { option_copied result ≡ option_or (option_copied clock.entry) (slice_get names.now 0) }
{
    if clock.is_some() {
        return clock;
    }
    names.first()
}

/// Whether one of the names is another than this one.
fn has_other(clock: &Name, names: &[Name]) -> bool
    ensures { result ≡ list_any (λ name. not (bytes_eq clock.now name)) names.now }
{
    names.iter().any(|name| clock.bytes() != name.bytes())
}

/// Whether the control brings a second clock.
fn is_other_clock(clock: Option<&Name>, control: Option<&Control>) -> bool
    ensures { result ≡ differ (option_to_list (option_copied clock.entry) ++ controls_named (option_copied control.entry)) }
{
    match (clock, control) {
        (Some(clock), Some(control)) => clock.bytes() != control.name.bytes(),
        _ => false,
    }
}

/// The clock seen before, or else that of a control.
fn clock_with<'a>(clock: Option<&'a Name>, control: Option<&'a Control>) -> Option<&'a Name>
    ensures { option_copied result ≡ option_or (option_copied clock.entry) (slice_get (controls_named (option_copied control.entry)) 0) }
{
    match (clock, control) {
        (Some(clock), _) => Some(clock),
        (None, Some(control)) => Some(&control.name),
        (None, None) => None,
    }
}

/// Whether the control is another than that of the first latch.
fn is_other_control(first: Option<Option<&Control>>, control: Option<&Control>) -> bool
    ensures { result ≡ is_another_control (option_map (λ c. option_copied c) first.entry) (option_copied control.entry) }
{
    match first {
        Some(first) => !is_same_control(first, control),
        None => false,
    }
}

/// Whether two latches have the same control.
fn is_same_control(first: Option<&Control>, second: Option<&Control>) -> bool
    ensures { result ≡ are_same_controls (option_copied first.entry) (option_copied second.entry) }
{
    match (first, second) {
        (None, None) => true,
        (Some(first), Some(second)) => {
            first.edge == second.edge && first.name.bytes() == second.name.bytes()
        }
        _ => false,
    }
}
