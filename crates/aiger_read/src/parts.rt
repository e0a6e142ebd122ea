// The parts of the circuit that the lines of a text spell.

ghost use Rattle.std.specs.Prelude.{◌≡◌, ◌≤◌, ◌<◌, ◌^◌, ◌+◌, [], ◌∷◌, ◌++◌, map, length, IfOk, OnOk};
ghost use Rattle.std.specs.List.{range_with_len};
ghost use Rattle.tm_circuit.specs.Build.{circuit_of};
ghost use Rattle.tm_parts.specs.Parts.{part_names, part_drives};
ghost use Rattle.aiger_read.specs.Symbols.{slot_count};
ghost use Rattle.aiger_read.specs.Names as naming;
ghost use Rattle.aiger_read.specs.Names.{made_name};
ghost use Rattle.aiger_read.specs.Circuit as spelled;
ghost use Rattle.aiger_read.specs.Circuit.{variables_of, is_made, latch_drives, made_names, made_nexts, gate_of, gate_drives, circuit_with};
ghost use Rattle.aiger_read.specs.Statements.{variable_of};
ghost use Rattle.aiger_read.specs.Steps.{maybe_texts};
ghost use Rattle.aiger_read.specs.Making.{sections_of, latch_names_of, latch_drives_of, signal_count};

use crate::gates::gate_for;
use crate::header::Header;
use crate::names::{made_name, name_or_made, names_from};
use crate::sections::Sections;
use crate::statement::{AndLine, LatchLine};
use crate::variables::Variables;
use std::alloc::Global;
use tm_bits::NoMemory;
use tm_circuit::{GatePart, LatchPart, Name, Parts, Signal};

/// Whether the next literal of a latch is one that no signal has, so that a gate is made for it.
fn is_made(next: u32) -> bool
    ensures { result ≡ is_made next }
{
    next % 2 == 1 || next == 0
}

/// The latches. The gates that are made for them come behind the variables.
fn latches_of(
    alloc: Global,
    variables: &Variables,
    joiner: &[u8],
    names: &[Option<&[u8]>],
    latches: &[LatchLine],
) -> Result<Vec<LatchPart>, NoMemory>
    requires variables { length variables.now ≤ 900000 }
    requires latches { length latches.now ≤ 900000 }
    requires named { length names.now ≡ length latches.now }
    ensures names { IfOk result (λ parts. latch_names_of parts.items ≡ naming.names_from joiner.now 108 0 (maybe_texts names.now)) }
    ensures drives { IfOk result (λ parts. latch_drives_of parts.items ≡ latch_drives variables.now (length variables.now) latches.now) }
{
    let mut parts = Vec::new(alloc);
    let mut made = variables.len() as u32;
    for (place, latch) in latches.iter().enumerate() {
        let name = name_or_made(alloc, names[place], b'l', joiner, place)?;
        let next = if is_made(latch.next) {
            made += 1;
            Signal(made - 1)
        } else {
            variables.signal(latch.next / 2)
        };
        parts.push(LatchPart {
            name,
            next,
            init: latch.reset,
        })?;
    }
    Ok(parts)
}

/// Puts the gates of the ands last.
fn push_ands(
    alloc: Global,
    variables: &Variables,
    joiner: &[u8],
    ands: &[AndLine],
    gates: &mut Vec<GatePart>,
) -> Result<(), NoMemory>
    requires { length variables.now ≤ 900000 }
    ensures names { OnOk result (part_names gates.new.items ≡ part_names gates.old.items
        ++ map (λ a. made_name joiner.now 97 (variable_of a.literal)) ands.now) }
    ensures drives { OnOk result (part_drives gates.new.items ≡ part_drives gates.old.items
        ++ map (λ a. gate_of variables.now (a.left ∷ a.right ∷ [])) ands.now) }
{
    for and in ands {
        let name = made_name(alloc, b'a', joiner, (and.literal / 2) as usize)?;
        gates.push(gate_for(alloc, variables, name, &[and.left, and.right])?)?;
    }
    Ok(())
}

/// Puts the gates that are made for the nexts of latches last.
fn push_made(
    alloc: Global,
    variables: &Variables,
    joiner: &[u8],
    latches: &[LatchLine],
    gates: &mut Vec<GatePart>,
) -> Result<(), NoMemory>
    requires { length variables.now ≤ 900000 }
    ensures names { OnOk result (part_names gates.new.items ≡ part_names gates.old.items ++ made_names joiner.now 0 latches.now) }
    ensures drives { OnOk result (part_drives gates.new.items ≡ part_drives gates.old.items
        ++ map (λ next. gate_of variables.now (next ∷ [])) (made_nexts latches.now)) }
{
    for (place, latch) in latches.iter().enumerate() {
        if is_made(latch.next) {
            let name = made_name(alloc, b'x', joiner, place)?;
            gates.push(gate_for(alloc, variables, name, &[latch.next])?)?;
        }
    }
    Ok(())
}

/// Puts the gates of the outputs last.
fn push_outputs(
    alloc: Global,
    variables: &Variables,
    joiner: &[u8],
    names: &[Option<&[u8]>],
    outputs: &[u32],
    gates: &mut Vec<GatePart>,
) -> Result<(), NoMemory>
    requires variables { length variables.now ≤ 900000 }
    requires named { length names.now ≡ length outputs.now }
    ensures names { OnOk result (part_names gates.new.items ≡ part_names gates.old.items
        ++ naming.names_from joiner.now 111 0 (maybe_texts names.now)) }
    ensures drives { OnOk result (part_drives gates.new.items ≡ part_drives gates.old.items
        ++ map (λ literal. gate_of variables.now (literal ∷ [])) outputs.now) }
{
    for (place, literal) in outputs.iter().enumerate() {
        let name = name_or_made(alloc, names[place], b'o', joiner, place)?;
        gates.push(gate_for(alloc, variables, name, &[*literal])?)?;
    }
    Ok(())
}

/// So many signals from one on.
#[tactic(auto, using(crate::proofs::StepLemmas::range_more))]
fn signals_from(alloc: Global, first: usize, count: usize) -> Result<Vec<Signal>, NoMemory>
    requires { first + count ≤ 900000 }
    ensures { IfOk result (λ signals. signals.items ≡ range_with_len first count) }
{
    let mut signals = Vec::new(alloc);
    for k in 0..count {
        signals.push(Signal((first + k) as u32))?;
    }
    Ok(signals)
}

/// The gates of the circuit: of the ands, of the latches for whose next one is made, of the outputs.
fn gates_of(
    alloc: Global,
    variables: &Variables,
    joiner: &[u8],
    names: &[Option<&[u8]>],
    sections: &Sections,
) -> Result<Vec<GatePart>, NoMemory>
    requires variables { length variables.now ≤ 900000 }
    requires named { length names.now ≡ length sections.now.outputs.items }
    ensures names { IfOk result (λ gates. part_names gates.items
        ≡ map (λ a. made_name joiner.now 97 (variable_of a.literal)) sections.now.ands.items
        ++ made_names joiner.now 0 sections.now.latches.items ++ naming.names_from joiner.now 111 0 (maybe_texts names.now)) }
    ensures drives { IfOk result (λ gates. part_drives gates.items ≡ gate_drives variables.now (sections_of sections.now)) }
{
    let mut gates = Vec::new(alloc);
    push_ands(alloc, variables, joiner, &sections.ands, &mut gates)?;
    push_made(alloc, variables, joiner, &sections.latches, &mut gates)?;
    push_outputs(
        alloc,
        variables,
        joiner,
        names,
        &sections.outputs,
        &mut gates,
    )?;
    Ok(gates)
}

/// How many gates are made for nexts of latches.
fn made_count(latches: &[LatchLine]) -> usize
    ensures count { result ≡ length (made_nexts latches.now) }
    ensures few { result ≤ length latches.now }
{
    let mut count: usize = 0;
    for latch in latches {
        if is_made(latch.next) {
            count += 1;
        }
    }
    count
}

/// How many signals the circuit has.
pub fn signal_count(sections: &Sections, variables: &Variables) -> usize
    requires same { variables.now ≡ variables_of (sections_of sections.now) }
    requires variables { length variables.now < 2 ^ 40 }
    requires latches { length sections.now.latches.items < 2 ^ 40 }
    requires outputs { length sections.now.outputs.items < 2 ^ 40 }
    ensures { result ≡ signal_count (sections_of sections.now) }
{
    variables.len() + made_count(&sections.latches) + sections.outputs.len()
}

/// The parts of the circuit.
pub fn parts_of(
    alloc: Global,
    header: &Header,
    sections: &Sections,
    variables: &Variables,
    names: &[Option<&[u8]>],
    joiner: &[u8],
) -> Result<Parts, NoMemory>
    requires few { signal_count (sections_of sections.now) ≤ 900000 }
    requires variables { variables.now ≡ variables_of (sections_of sections.now) }
    requires named { length names.now ≡ slot_count header.now }
    requires latches { length sections.now.latches.items ≡ header.now.latches }
    requires outputs { length sections.now.outputs.items ≡ header.now.outputs }
    requires inputs { length sections.now.inputs.items ≡ header.now.inputs }
    ensures { IfOk result (λ parts. circuit_of parts
        ≡ circuit_with header.now joiner.now (maybe_texts names.now) (sections_of sections.now)) }
{
    let outputs_at = header.inputs as usize;
    let latches_at = outputs_at + header.outputs as usize;
    let first_output = variables.len() + made_count(&sections.latches);
    Ok(Parts {
        model: Name::new(Vec::from_slice(alloc, b"aiger")?),
        clock: None,
        inputs: names_from(alloc, b'i', joiner, &names[..outputs_at])?,
        latches: latches_of(
            alloc,
            variables,
            joiner,
            &names[latches_at..],
            &sections.latches,
        )?,
        gates: gates_of(
            alloc,
            variables,
            joiner,
            &names[outputs_at..latches_at],
            sections,
        )?,
        outputs: signals_from(alloc, first_output, sections.outputs.len())?,
    })
}
