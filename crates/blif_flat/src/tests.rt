// What no clause says: worked texts.

ghost use Rattle.std.specs.Prelude.{◌≡◌, true, map, IfOk};
ghost use Rattle.blif_unit.specs.Unit.{AreDistinct};

use crate::flat;
use blif_unit::{Binding, Control, Names, Stated, Statement, Unit};
use std::alloc::{AllocError, Global};
use std::test::Fail;
use tm_bits::{NoMemory, Table};
use tm_circuit::{Edge, Name};
use tm_parts::name_of;

/// The names of a line, parted by blanks.
fn names(alloc: Global, line: &str) -> Result<Vec<Name>, NoMemory> {
    let mut names = Vec::new(alloc);
    for word in line.split_whitespace() {
        names.push(name_of(alloc, word.as_bytes())?)?;
    }
    Ok(names)
}

/// The bindings of words in pairs, each a formal and its actual.
fn bindings(alloc: Global, line: &str) -> Result<Vec<Binding>, NoMemory> {
    let mut bindings = Vec::new(alloc);
    for word in line.split_whitespace() {
        if let Some((formal, actual)) = word.split_once('=') {
            bindings.push(Binding {
                formal: name_of(alloc, formal.as_bytes())?,
                actual: name_of(alloc, actual.as_bytes())?,
            })?;
        }
    }
    Ok(bindings)
}

fn place(alloc: Global, model: &str, bound: &str) -> Result<Statement, NoMemory> {
    Ok(Statement::Place {
        model: name_of(alloc, model.as_bytes())?,
        bindings: bindings(alloc, bound)?,
    })
}

fn gate(alloc: Global, pins: &str, name: &str) -> Result<Statement, NoMemory> {
    Ok(Statement::Gate {
        pins: names(alloc, pins)?,
        name: name_of(alloc, name.as_bytes())?,
        cover: Table::constant(1, true).cover(alloc)?,
    })
}

fn latch(
    alloc: Global,
    next: &str,
    name: &str,
    control: Option<&str>,
) -> Result<Statement, NoMemory> {
    Ok(Statement::Latch {
        next: name_of(alloc, next.as_bytes())?,
        name: name_of(alloc, name.as_bytes())?,
        init: true,
        control: match control {
            Some(control) => Some(Control {
                name: name_of(alloc, control.as_bytes())?,
                edge: Edge::Rise,
            }),
            None => None,
        },
    })
}

/// A model of these statements, on lines from one on.
fn unit(
    alloc: Global,
    name: &str,
    line: u32,
    statements: Vec<Statement>,
) -> Result<Unit, NoMemory> {
    let mut body = Vec::new(alloc);
    let mut at = line;
    for what in statements {
        at = at.saturating_add(1);
        body.push(Stated { line: at, what })?;
    }
    Ok(Unit {
        name: name_of(alloc, name.as_bytes())?,
        line,
        body,
    })
}

fn inputs(alloc: Global, line: &str) -> Result<Statement, NoMemory> {
    Ok(Statement::Inputs(names(alloc, line)?))
}

fn outputs(alloc: Global, line: &str) -> Result<Statement, NoMemory> {
    Ok(Statement::Outputs(names(alloc, line)?))
}

fn push_names(out: &mut Vec<u8>, names: &[Name]) -> Result<(), AllocError> {
    for name in names {
        out.push(b' ')?;
        out.extend_from_slice(name.bytes())?;
    }
    Ok(())
}

/// A statement as a line.
fn push_statement(out: &mut Vec<u8>, statement: &Statement) -> Result<(), AllocError> {
    match statement {
        Statement::Inputs(names) => {
            out.push(b'i')?;
            push_names(out, names)?;
        }
        Statement::Outputs(names) => {
            out.push(b'o')?;
            push_names(out, names)?;
        }
        Statement::Clock(names) => {
            out.push(b'c')?;
            push_names(out, names)?;
        }
        Statement::Gate { pins, name, .. } => {
            out.push(b'g')?;
            push_names(out, pins)?;
            out.push(b' ')?;
            out.extend_from_slice(name.bytes())?;
        }
        Statement::Latch {
            next,
            name,
            control,
            ..
        } => {
            out.extend_from_slice(b"l ")?;
            out.extend_from_slice(next.bytes())?;
            out.push(b' ')?;
            out.extend_from_slice(name.bytes())?;
            if let Some(control) = control {
                out.push(b' ')?;
                out.extend_from_slice(control.name.bytes())?;
            }
        }
        Statement::Place { model, .. } => {
            out.extend_from_slice(b"p ")?;
            out.extend_from_slice(model.bytes())?;
        }
    }
    out.push(b';')?;
    Ok(())
}

/// Whether no two models have the same name.
fn are_distinct(alloc: Global, units: &[Unit]) -> Result<bool, NoMemory>
    ensures { IfOk result (λ distinct. distinct ≡ true → AreDistinct (map (λ u. u.name) units.now)) }
{
    let mut names = Names::new(alloc);
    for unit in units {
        if !names.insert(unit.name.bytes())? {
            return Ok(false);
        }
    }
    Ok(true)
}

/// The statements of a flat unit on one line, or its fault.
fn shown(alloc: Global, units: &[Unit]) -> Result<String, Fail> {
    let mut out = Vec::new(alloc);
    if units.is_empty() {
        return Ok(format!(in alloc; "no models")?);
    }
    if !are_distinct(alloc, units)? {
        return Ok(format!(in alloc; "a model twice")?);
    }
    match flat(alloc, units) {
        Ok(unit) => {
            out.extend_from_slice(unit.name.bytes())?;
            out.push(b';')?;
            for stated in &unit.body {
                push_statement(&mut out, &stated.what)?;
            }
        }
        Err(fault) => {
            let text = format!(in alloc; "{fault}")?;
            out.extend_from_slice(text.as_bytes())?;
        }
    }
    match String::from_utf8(out) {
        Ok(text) => Ok(text),
        Err(_) => Ok(format!(in alloc; "no text")?),
    }
}

/// The top of `two halves`, with these two sites.
fn both(alloc: Global, first: Statement, second: Statement) -> Result<Unit, NoMemory> {
    let body = vec![in alloc;
        inputs(alloc, "a b")?,
        outputs(alloc, "y")?,
        first,
        second,
        gate(alloc, "m n", "y")?,
    ]?;
    unit(alloc, "top", 1, body)
}

/// A half, with a last statement where one is given.
fn half(alloc: Global, last: Option<Statement>) -> Result<Unit, NoMemory> {
    let mut body = vec![in alloc;
        inputs(alloc, "x")?,
        outputs(alloc, "z")?,
        latch(alloc, "x", "q", None)?,
        gate(alloc, "q", "z")?,
    ]?;
    if let Some(last) = last {
        body.push(last)?;
    }
    unit(alloc, "half", 9, body)
}

/// The models of `two halves`, with these two sites in the top.
fn halves(
    alloc: Global,
    first: Statement,
    second: Statement,
    last: Option<Statement>,
) -> Result<Vec<Unit>, NoMemory> {
    let mut units = Vec::new(alloc);
    units.push(both(alloc, first, second)?)?;
    units.push(half(alloc, last)?)?;
    Ok(units)
}

#[test]
fn two_halves(rt: HostRuntime) -> Result<(), Fail> {
    let alloc = rt.alloc();
    let first = place(alloc, "half", "x=a z=m")?;
    let units = halves(alloc, first, place(alloc, "half", "x=b z=n")?, None)?;
    let want = "top;i a b;o y;l a q@1;g q@1 m;l b q@2;g q@2 n;g m n y;";
    assert_eq!(rt; shown(alloc, &units)?.as_str(), want);
    Ok(())
}

#[test]
fn faults_of_places(rt: HostRuntime) -> Result<(), Fail> {
    let alloc = rt.alloc();
    for (model, bound, want) in [
        ("third", "x=a z=m", "line 4: NoModel"),
        ("half", "x=a w=m", "line 4: UnknownFormal"),
        ("half", "x=a x=a", "line 4: RepeatedFormal"),
        ("half", "z=m", "line 4: Unbound"),
    ] {
        let first = place(alloc, model, bound)?;
        let units = halves(alloc, first, place(alloc, "half", "x=b z=n")?, None)?;
        assert_eq!(rt; shown(alloc, &units)?.as_str(), want);
    }
    Ok(())
}

#[test]
fn recursion(rt: HostRuntime) -> Result<(), Fail> {
    let alloc = rt.alloc();
    let first = place(alloc, "half", "x=a z=m")?;
    let second = place(alloc, "half", "x=b z=n")?;
    let units = halves(alloc, first, second, Some(place(alloc, "half", "x=x z=w")?))?;
    assert_eq!(rt; shown(alloc, &units)?.as_str(), "line 0: Recursion");
    Ok(())
}

#[test]
fn dropped_controls(rt: HostRuntime) -> Result<(), Fail> {
    let alloc = rt.alloc();
    let mut units = Vec::new(alloc);
    let top = vec![in alloc;
        inputs(alloc, "NIL k")?,
        place(alloc, "m", "c=NIL")?,
        place(alloc, "m", "c=k")?,
    ]?;
    units.push(unit(alloc, "top", 1, top)?)?;
    let low = vec![in alloc; inputs(alloc, "c")?, latch(alloc, "c", "q", Some("c"))?]?;
    units.push(unit(alloc, "m", 5, low)?)?;
    let want = "top;i NIL k;l NIL q@1;l k q@2 k;";
    assert_eq!(rt; shown(alloc, &units)?.as_str(), want);
    Ok(())
}

#[test]
fn nested_names(rt: HostRuntime) -> Result<(), Fail> {
    let alloc = rt.alloc();
    let mut units = Vec::new(alloc);
    let top = vec![in alloc; place(alloc, "m", "")?, place(alloc, "m", "o=t")?]?;
    units.push(unit(alloc, "top", 1, top)?)?;
    let middle = vec![in alloc;
        outputs(alloc, "o")?,
        gate(alloc, "a@@b", "v")?,
        place(alloc, "low", "")?,
        place(alloc, "low", "p=o")?,
    ]?;
    units.push(unit(alloc, "m", 5, middle)?)?;
    let low = vec![in alloc; outputs(alloc, "p")?, gate(alloc, "", "p")?]?;
    units.push(unit(alloc, "low", 15, low)?)?;
    let want = "top;g a@@b@@@1 v@@@1;g p@@@1@@@1;g o@@@1;g a@@b@@@2 v@@@2;g p@@@2@@@1;g t;";
    assert_eq!(rt; shown(alloc, &units)?.as_str(), want);
    Ok(())
}

/// So many models, each but the last with so many sites of the next.
fn tower(alloc: Global, levels: u32, sites: u32) -> Result<Vec<Unit>, NoMemory> {
    let mut units = Vec::new(alloc);
    for level in 0..levels {
        let name = format!(in alloc; "m{level}")?;
        let mut body = Vec::new(alloc);
        if level.saturating_add(1) < levels {
            let next = level.saturating_add(1);
            let next = format!(in alloc; "m{next}")?;
            for _ in 0..sites {
                body.push(place(alloc, next.as_str(), "")?)?;
            }
        }
        units.push(unit(alloc, name.as_str(), 0, body)?)?;
    }
    Ok(units)
}

#[test]
fn towers(rt: HostRuntime) -> Result<(), Fail> {
    let alloc = rt.alloc();
    for (levels, sites, want) in [
        (65, 1, "m0;"),
        (66, 1, "line 0: TooDeep"),
        (36, 4, "line 0: TooLarge"),
        (71, 2, "line 0: TooDeep"),
        (16, 2, "m0;"),
        (27, 2, "line 0: TooLarge"),
    ] {
        let units = tower(alloc, levels, sites)?;
        assert_eq!(rt; shown(alloc, &units)?.as_str(), want);
    }
    Ok(())
}
