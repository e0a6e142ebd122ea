// Gates with the value of the and of literals.

ghost use Rattle.std.specs.Prelude.{◌≡◌, ◌≤◌, ◌==◌, [], ◌∷◌, true, map, filter, not, length, if◌then◌else◌, IfOk};
ghost use Rattle.std.specs.List.{list_any};
ghost use Rattle.tm_circuit.specs.Plain.{gate};
ghost use Rattle.tm_parts.specs.Parts.{part_drive};
ghost use Rattle.aiger_read.specs.Circuit as spelled;
ghost use Rattle.aiger_read.specs.Circuit.{place_for, asking, has_zero, signal_in, gate_of};
ghost use Rattle.aiger_read.specs.Statements.{variable_of};

use crate::variables::Variables;
use smallvec::SmallVec;
use std::alloc::Global;
use tm_bits::{Cover, NoMemory, Place, Row};
use tm_circuit::{GatePart, Name, Signal};

/// Whether one of the literals is 0.
fn has_zero(literals: &[u32]) -> bool
    ensures { result ≡ has_zero literals.now }
{
    literals.iter().any(|literal| *literal == 0)
}

/// The literals that give pins, where none is 0: a literal 1 gives none.
fn asking(alloc: Global, literals: &[u32]) -> Result<Vec<u32>, NoMemory>
    ensures { IfOk result (λ found. found.items ≡ asking literals.now) }
{
    let found = literals
        .iter()
        .copied()
        .filter(|literal| *literal != 1)
        .collect(alloc)?;
    Ok(found)
}

/// The place in a row that a literal asks for.
fn place_for(literal: u32) -> Place
    ensures { result ≡ place_for literal }
{
    if literal % 2 == 1 {
        Place::Zero
    } else {
        Place::One
    }
}

/// The places that literals ask for.
fn places_for(alloc: Global, literals: &[u32]) -> Result<Vec<Place>, NoMemory>
    ensures { IfOk result (λ places. places.items ≡ map place_for literals.now) }
{
    let places = literals
        .iter()
        .map(|literal| place_for(*literal))
        .collect(alloc)?;
    Ok(places)
}

/// The signals of the variables of literals.
#[tactic(auto, using(crate::proofs::StepLemmas::pins_more))]
fn pins_for(
    alloc: Global,
    variables: &Variables,
    literals: &[u32],
) -> Result<SmallVec<Signal, 8>, NoMemory>
    requires { length variables.now ≤ 900000 }
    ensures { IfOk result (λ pins. pins.items ≡ map (λ literal. signal_in variables.now (variable_of literal)) literals.now) }
{
    let mut pins = SmallVec::new(alloc);
    for literal in literals {
        pins.push(variables.signal(*literal / 2))?;
    }
    Ok(pins)
}

/// The cover without rows, which is 0.
fn no_row(alloc: Global) -> Cover
    ensures { result ≡ record { on = true; rows = [] } }
{
    match Cover::new(true, Vec::new(alloc)) {
        Some(cover) => cover,
        None => unreachable!(),
    }
}

/// The cover of one row.
fn one_row(alloc: Global, places: Vec<Place>) -> Result<Cover, NoMemory>
    ensures { IfOk result (λ cover. cover ≡ record { on = true; rows = places.items ∷ [] }) }
{
    let rows = vec![in alloc; Row::new(places)]?;
    match Cover::new(true, rows) {
        Some(cover) => Ok(cover),
        None => unreachable!(),
    }
}

/// The gate of a name with the value of the and of literals.
pub fn gate_for(
    alloc: Global,
    variables: &Variables,
    name: Name,
    literals: &[u32],
) -> Result<GatePart, NoMemory>
    requires { length variables.now ≤ 900000 }
    ensures name { IfOk result (λ g. g.name ≡ name) }
    ensures drive { IfOk result (λ g. part_drive g ≡ gate_of variables.now literals.now) }
{
    if has_zero(literals) {
        return Ok(GatePart {
            name,
            pins: SmallVec::new(alloc),
            cover: no_row(alloc),
        });
    }
    let kept = asking(alloc, literals)?;
    Ok(GatePart {
        name,
        pins: pins_for(alloc, variables, &kept)?,
        cover: one_row(alloc, places_for(alloc, &kept)?)?,
    })
}
