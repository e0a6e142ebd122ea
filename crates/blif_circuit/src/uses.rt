// The rules on a model as a whole: each use of a name is driven, and the clock is neither driven nor used.

ghost use Rattle.std.specs.Prelude.{◌≡◌, ◌||◌, not, map, filter, find, option_map, option_copied, bytes_eq};
ghost use Rattle.std.specs.List.{list_any};
ghost use Rattle.blif_unit.specs.Unit.{told_of, telling_of, uses_told};
ghost use Rattle.blif_circuit.specs.Circuit.{is_named, made_told, clock_name, names_of, least, less_of, fault_in_names};

use crate::clock::is_clock;
use blif_unit::{BlifKind, Names, Stated, Statement};
use tm_circuit::Name;

/// Whether nothing drives the name, and it is no clock.
fn is_undriven(signals: &Names, clock: Option<&Name>, name: &Name) -> bool
    ensures { result ≡ not (list_any (bytes_eq name.now) signals.now || is_named (option_copied clock.entry) name.now) }
{
    !signals.contains(name.bytes()) && !is_clock(clock, name.bytes())
}

/// Whether the statement uses a name that nothing drives.
fn uses_undriven(signals: &Names, clock: Option<&Name>, what: &Statement) -> bool
    ensures { result
        ≡ list_any (λ n. not (list_any (bytes_eq n) signals.now || is_named (option_copied clock.entry) n))
        (uses_told (told_of what.now)) }
{
    match what {
        Statement::Gate { pins, .. } => pins.iter().any(|pin| is_undriven(signals, clock, pin)),
        Statement::Latch { next, .. } => is_undriven(signals, clock, next),
        Statement::Outputs(names) => names.iter().any(|name| is_undriven(signals, clock, name)),
        _ => false,
    }
}

/// Whether the statement uses the clock.
fn uses_clock(clock: Option<&Name>, what: &Statement) -> bool
    ensures { result ≡ list_any (is_named (option_copied clock.entry)) (uses_told (told_of what.now)) }
{
    match what {
        Statement::Gate { pins, .. } => pins.iter().any(|pin| is_clock(clock, pin.bytes())),
        Statement::Latch { next, .. } => is_clock(clock, next.bytes()),
        Statement::Outputs(names) => names.iter().any(|name| is_clock(clock, name.bytes())),
        _ => false,
    }
}

/// Whether the statement is a latch or a gate whose output is the clock.
fn makes_clock(clock: Option<&Name>, what: &Statement) -> bool
    ensures { result ≡ list_any (is_named (option_copied clock.entry)) (made_told (told_of what.now)) }
{
    match what {
        Statement::Gate { name, .. } | Statement::Latch { name, .. } => is_clock(
            clock,
            name.bytes(),
        ),
        _ => false,
    }
}

/// The less of a line and another, if there is one.
fn less_of(line: u32, other: Option<u32>) -> u32
    ensures { result ≡ less_of line other }
{
    match other {
        None => line,
        Some(other) => line.min(other),
    }
}

/// The least line of a statement that uses a name that nothing drives.
fn least_undriven(body: &[Stated], signals: &Names, clock: Option<&Name>) -> Option<u32>
    ensures { result ≡ least (map (λ s. s.line) (filter
        (λ s. list_any (λ n. not (list_any (bytes_eq n) signals.now || is_named (option_copied clock.entry) n))
        (uses_told (told_of s.what))) body.now)) }
{
    let mut found = None;
    for stated in body {
        if uses_undriven(signals, clock, &stated.what) {
            found = Some(less_of(stated.line, found));
        }
    }
    found
}

/// The line of the first latch or gate whose output is the clock.
fn first_gated(body: &[Stated], clock: Option<&Name>) -> Option<u32>
    ensures { result
        ≡ option_map (λ s. s.line) (find (λ s. list_any (is_named (option_copied clock.entry)) (made_told (told_of s.what))) body.now) }
{
    body.iter()
        .find(|stated| makes_clock(clock, &stated.what))
        .map(|stated| stated.line)
}

/// The least line of a statement that uses the clock.
fn least_using(body: &[Stated], clock: Option<&Name>) -> Option<u32>
    ensures { result
        ≡ least (map (λ s. s.line)
        (filter (λ s. list_any (is_named (option_copied clock.entry)) (uses_told (told_of s.what))) body.now)) }
{
    let mut found = None;
    for stated in body {
        if uses_clock(clock, &stated.what) {
            found = Some(less_of(stated.line, found));
        }
    }
    found
}

/// The first fault of a model's names, with its line, where so many signals are allowed.
pub fn fault_in_names(
    body: &[Stated],
    clock: Option<&Name>,
    signals: &Names,
    limit: u32,
) -> Option<(u32, BlifKind)>
    requires clock { option_copied clock ≡ clock_name (map telling_of body.now) }
    requires names { signals.now ≡ names_of (map telling_of body.now) }
    ensures { result ≡ fault_in_names limit (map telling_of body.now) }
{
    if let Some(line) = least_undriven(body, signals, clock) {
        return Some((line, BlifKind::Undriven));
    }
    if let Some(line) = first_gated(body, clock) {
        return Some((line, BlifKind::GatedClock));
    }
    if let Some(line) = least_using(body, clock) {
        return Some((line, BlifKind::ClockAsData));
    }
    if signals.len() > limit as usize {
        return Some((0, BlifKind::TooManySignals));
    }
    None
}
