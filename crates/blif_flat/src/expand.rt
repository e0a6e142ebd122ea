// The statements of a flat unit.

ghost use Rattle.std.specs.Prelude.{◌≡◌, ◌++◌, map, option_to_list, IfOk, OnOk};
ghost use Rattle.blif_unit.specs.Unit.{told_of, telling_of, model_of};
ghost use Rattle.blif_flat.specs.Flat.{control_by, told_by};
ghost use Rattle.blif_flat.specs.Around.{renamed, context_of};
ghost use Rattle.blif_flat.specs.Plan.{AreSitesOf, IsShallow, flat_at};

use crate::around::{Around, name_in, names_in};
use crate::site::Site;
use blif_unit::{Control, Stated, Statement, Unit};
use std::alloc::Global;
use tm_bits::NoMemory;
use tm_circuit::Name;
use tm_parts::name_of;

/// The names again.
fn copied(alloc: Global, names: &[Name]) -> Result<Vec<Name>, NoMemory>
    ensures { IfOk result (λ copies. copies.items ≡ names.now) }
{
    let mut copies = Vec::new(alloc);
    for name in names {
        copies.push(name.try_clone(alloc)?)?;
    }
    Ok(copies)
}

/// What a control becomes. It is dropped where its name is then `NIL`.
fn control_in(
    alloc: Global,
    joiner: &[u8],
    around: &Around,
    control: &Option<Control>,
) -> Result<Option<Control>, NoMemory>
    ensures { IfOk result (λ made. made ≡ control_by (renamed (context_of joiner.now around.now)) control.now) }
{
    let Some(control) = control else {
        return Ok(None);
    };
    let name = name_in(alloc, joiner, around, control.name.bytes())?;
    if name.bytes() == b"NIL".as_slice() {
        Ok(None)
    } else {
        Ok(Some(Control {
            name,
            edge: control.edge,
        }))
    }
}

/// What a statement of an instance becomes, where it becomes one. Inputs and outputs stay at the top alone.
fn statement_in(
    alloc: Global,
    joiner: &[u8],
    around: &Around,
    top: bool,
    statement: &Statement,
) -> Result<Option<Statement>, NoMemory>
    ensures { IfOk result
        (λ made. map told_of (option_to_list made) ≡ told_by top (renamed (context_of joiner.now around.now)) (told_of statement.now)) }
{
    match statement {
        Statement::Inputs(names) => Ok(if top {
            Some(Statement::Inputs(copied(alloc, names)?))
        } else {
            None
        }),
        Statement::Outputs(names) => Ok(if top {
            Some(Statement::Outputs(copied(alloc, names)?))
        } else {
            None
        }),
        Statement::Clock(names) => Ok(Some(Statement::Clock(names_in(
            alloc, joiner, around, names,
        )?))),
        Statement::Gate { pins, name, cover } => Ok(Some(Statement::Gate {
            pins: names_in(alloc, joiner, around, pins)?,
            name: name_in(alloc, joiner, around, name.bytes())?,
            cover: cover.try_clone(alloc)?,
        })),
        Statement::Latch {
            next,
            name,
            init,
            control,
        } => Ok(Some(Statement::Latch {
            next: name_in(alloc, joiner, around, next.bytes())?,
            name: name_in(alloc, joiner, around, name.bytes())?,
            init: *init,
            control: control_in(alloc, joiner, around, control)?,
        })),
        Statement::Place { .. } => Ok(None),
    }
}

/// Adds what a statement of an instance becomes.
fn add_statement(
    alloc: Global,
    joiner: &[u8],
    around: &Around,
    top: bool,
    stated: &Stated,
    out: &mut Vec<Stated>,
) -> Result<(), NoMemory>
    ensures { OnOk result (map telling_of out.new.items ≡ map telling_of out.old.items
        ++ map (λ told. record { line = stated.now.line; what = told })
        (told_by top (renamed (context_of joiner.now around.now)) (told_of stated.now.what))) }
{
    if let Some(what) = statement_in(alloc, joiner, around, top, &stated.what)? {
        out.push(Stated {
            line: stated.line,
            what,
        })?;
    }
    Ok(())
}

/// Adds the statements that an instance becomes, with those of its instances in their places.
pub fn add_instance<'a, 's, 'u>(
    alloc: Global,
    units: &[Unit],
    sites: &'s [Vec<Site<'u>>],
    joiner: &[u8],
    levels: u32,
    around: &'a Around<'a, 's, 'u>,
    model: usize,
    top: bool,
    out: &mut Vec<Stated>,
) -> Result<(), NoMemory>
    requires sites { AreSitesOf (map model_of units.now) (map (λ placed. placed.items) sites.now) }
    requires shallow { IsShallow (map model_of units.now) levels model }
    ensures { OnOk result (map telling_of out.new.items ≡ map telling_of out.old.items
        ++ flat_at levels (map model_of units.now) joiner.now top (context_of joiner.now around.now) model) }
{
    let mut number: usize = 0;
    for stated in &units[model].body {
        if let Statement::Place { .. } = &stated.what {
            let site = &sites[model][number];
            number += 1;
            let inside = Around::Inside(around, site, number);
            add_instance(
                alloc,
                units,
                sites,
                joiner,
                levels - 1,
                &inside,
                site.model(),
                false,
                out,
            )?;
        } else {
            add_statement(alloc, joiner, around, top, stated, out)?;
        }
    }
    Ok(())
}

/// The unit of a name, its line and these statements.
pub fn unit_of(alloc: Global, top: &Unit, body: Vec<Stated>) -> Result<Unit, NoMemory>
    ensures { IfOk result
        (λ unit. model_of unit ≡ record { name = (model_of top.now).name; line = top.now.line; body = map telling_of body.items }) }
{
    Ok(Unit {
        name: name_of(alloc, top.name.bytes())?,
        line: top.line,
        body,
    })
}
