// The clock of a model: what its statements say of it.

ghost use Rattle.std.specs.Prelude.{◌≡◌, ◌≤◌, map, length, position, slice_get, option_copied, bytes_eq};
ghost use Rattle.std.specs.List.{list_any};
ghost use Rattle.blif_unit.specs.Unit.{told_of, telling_of, inputs_told, clocks_told, control_told, over};
ghost use Rattle.blif_circuit.specs.Circuit.{clock_name, declared_told, edges_of, is_named};

use crate::order::inputs_in;
use blif_unit::{Control, Stated, Statement};
use tm_circuit::{Edge, Name};

/// The control of a latch that has one.
fn control_of(what: &Statement) -> Option<&Control>
    ensures { option_copied result ≡ control_told (told_of what.now) }
{
    match what {
        Statement::Latch { control, .. } => control.as_ref(),
        _ => None,
    }
}

/// The first clock that the statement brings.
fn first_clock(what: &Statement) -> Option<&Name>
    ensures { option_copied result ≡ slice_get (clocks_told (told_of what.now)) 0 }
{
    match what {
        Statement::Clock(names) => names.first(),
        _ => control_of(what).map(|control| &control.name),
    }
}

/// The name of the model's clock, where it has one.
pub fn clock_name(body: &[Stated]) -> Option<&Name>
    ensures { option_copied result ≡ clock_name (map telling_of body.now) }
{
    for stated in body {
        if let Some(name) = first_clock(&stated.what) {
            return Some(name);
        }
    }
    None
}

/// The edge of the first latch that has a control.
pub fn clock_edge(body: &[Stated]) -> Option<Edge>
    ensures { result ≡ slice_get (edges_of (map telling_of body.now)) 0 }
{
    for stated in body {
        if let Some(control) = control_of(&stated.what) {
            return Some(control.edge);
        }
    }
    None
}

/// Whether the name is among these.
fn are_naming(names: &[Name], name: &[u8]) -> bool
    ensures { result ≡ list_any (bytes_eq name.now) names.now }
{
    names.iter().any(|other| name == other.bytes())
}

/// Whether the statement declares the name as a clock.
fn declares(what: &Statement, name: &[u8]) -> bool
    ensures { result ≡ list_any (bytes_eq name.now) (declared_told (told_of what.now)) }
{
    match what {
        Statement::Clock(names) => are_naming(names, name),
        _ => false,
    }
}

/// Whether a `.clock` declares the name.
pub fn is_declared(body: &[Stated], name: &[u8]) -> bool
    ensures { result ≡ list_any (λ s. list_any (bytes_eq name.now) (declared_told (told_of s.what))) body.now }
{
    body.iter().any(|stated| declares(&stated.what, name))
}

/// Whether the name is that of the clock.
pub fn is_clock(clock: Option<&Name>, name: &[u8]) -> bool
    ensures { result ≡ is_named (option_copied clock.entry) name.now }
{
    match clock {
        Some(clock) => name == clock.bytes(),
        None => false,
    }
}

/// The number of names before this one, where it is among them.
fn place_among(names: &[Name], name: &[u8]) -> Option<usize>
    ensures { result ≡ position (bytes_eq name.now) names.now }
{
    names.iter().position(|other| name == other.bytes())
}

/// The number of inputs before the name, where it stands among them.
pub fn clock_place(body: &[Stated], name: &[u8]) -> Option<u32>
    requires { length (over inputs_told (map telling_of body.now)) ≤ 900001 }
    ensures { result ≡ position (bytes_eq name.now) (over inputs_told (map telling_of body.now)) }
{
    let mut before = 0;
    for stated in body {
        let inputs = inputs_in(&stated.what);
        if let Some(place) = place_among(inputs, name) {
            return Some((before + place) as u32);
        }
        before += inputs.len();
    }
    None
}
