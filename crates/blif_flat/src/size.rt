// The size of a flat unit, without making it: one name at a time, until there is no more room.

ghost use Rattle.std.specs.Prelude.{◌+◌, map, length, sum};
ghost use Rattle.blif_unit.specs.Unit.{told_of, model_of, controls_named};
ghost use Rattle.blif_flat.specs.Flat.{control_by, told_by};
ghost use Rattle.blif_flat.specs.Around.{renamed, context_of};
ghost use Rattle.blif_flat.specs.Size.{Spends, bytes_of, weight_told, weight_of};
ghost use Rattle.blif_flat.specs.Plan.{AreSitesOf, IsShallow, flat_at};

use crate::around::{Around, name_in};
use crate::extent::MOST_SIZE;
use crate::site::Site;
use blif_unit::{BlifFault, BlifKind, Control, Statement, Unit, at};
use std::alloc::Global;
use tm_bits::Row;
use tm_circuit::Name;

/// The room that is left after so much, or that the unit is too large.
fn spend(room: u64, cost: usize) -> Result<u64, BlifFault>
    ensures { Spends room cost result }
{
    let cost = cost as u64;
    if cost <= room {
        Ok(room - cost)
    } else {
        Err(at(0, BlifKind::TooLarge))
    }
}

/// The room that is left after names.
fn spend_names(
    alloc: Global,
    joiner: &[u8],
    around: &Around,
    names: &[Name],
    room: u64,
) -> Result<u64, BlifFault>
    ensures { Spends room (bytes_of (map (renamed (context_of joiner.now around.now)) names.now)) result }
{
    let mut left = room;
    for name in names {
        left = spend(
            left,
            name_in(alloc, joiner, around, name.bytes())?.bytes().len(),
        )?;
    }
    Ok(left)
}

/// The room that is left after the names of the top as they are.
fn spend_own(names: &[Name], room: u64) -> Result<u64, BlifFault>
    ensures { Spends room (bytes_of names.now) result }
{
    let mut left = room;
    for name in names {
        left = spend(left, name.bytes().len())?;
    }
    Ok(left)
}

/// The room that is left after the places of rows.
fn spend_rows(rows: &[Row], room: u64) -> Result<u64, BlifFault>
    ensures { Spends room (sum (map length rows.now)) result }
{
    let mut left = room;
    for row in rows {
        left = spend(left, row.places().len())?;
    }
    Ok(left)
}

/// The room that is left after a name.
fn spend_name(
    alloc: Global,
    joiner: &[u8],
    around: &Around,
    name: &Name,
    room: u64,
) -> Result<u64, BlifFault>
    ensures { Spends room (length (renamed (context_of joiner.now around.now) name.now)) result }
{
    spend(
        room,
        name_in(alloc, joiner, around, name.bytes())?.bytes().len(),
    )
}

/// The room that is left after a control, which costs nothing where it is dropped.
fn spend_control(
    alloc: Global,
    joiner: &[u8],
    around: &Around,
    control: &Option<Control>,
    room: u64,
) -> Result<u64, BlifFault>
    ensures { Spends room (bytes_of (controls_named (control_by (renamed (context_of joiner.now around.now)) control.now))) result }
{
    let Some(control) = control else {
        return Ok(room);
    };
    let name = name_in(alloc, joiner, around, control.name.bytes())?;
    if name.bytes() == b"NIL".as_slice() {
        Ok(room)
    } else {
        spend(room, name.bytes().len())
    }
}

/// The room that is left after a statement.
fn spend_statement(
    alloc: Global,
    joiner: &[u8],
    top: bool,
    around: &Around,
    statement: &Statement,
    room: u64,
) -> Result<u64, BlifFault>
    ensures { Spends room (weight_told (told_by top (renamed (context_of joiner.now around.now)) (told_of statement.now))) result }
{
    match statement {
        Statement::Inputs(names) | Statement::Outputs(names) => {
            if top {
                spend_own(names, room)
            } else {
                Ok(room)
            }
        }
        Statement::Clock(names) => spend_names(alloc, joiner, around, names, room),
        Statement::Gate { pins, name, cover } => {
            let left = spend_names(alloc, joiner, around, pins, room)?;
            let left = spend_name(alloc, joiner, around, name, left)?;
            spend_rows(cover.rows(), left)
        }
        Statement::Latch {
            next,
            name,
            control,
            ..
        } => {
            let left = spend_name(alloc, joiner, around, next, room)?;
            let left = spend_name(alloc, joiner, around, name, left)?;
            spend_control(alloc, joiner, around, control, left)
        }
        Statement::Place { .. } => Ok(room),
    }
}

/// The room that is left after what an instance becomes, with the instances in it.
pub fn spend_instance<'a, 's, 'u>(
    alloc: Global,
    units: &[Unit],
    sites: &'s [Vec<Site<'u>>],
    joiner: &[u8],
    levels: u32,
    around: &'a Around<'a, 's, 'u>,
    model: usize,
    top: bool,
    room: u64,
) -> Result<u64, BlifFault>
    requires sites { AreSitesOf (map model_of units.now) (map (λ placed. placed.items) sites.now) }
    requires shallow { IsShallow (map model_of units.now) levels model }
    ensures { Spends room (weight_of (flat_at levels
        (map model_of units.now) joiner.now top (context_of joiner.now around.now) model)) result }
{
    let mut left = room;
    let mut number: usize = 0;
    for stated in &units[model].body {
        if let Statement::Place { .. } = &stated.what {
            let site = &sites[model][number];
            number += 1;
            let inside = Around::Inside(around, site, number);
            left = spend_instance(
                alloc,
                units,
                sites,
                joiner,
                levels - 1,
                &inside,
                site.model(),
                false,
                left,
            )?;
        } else {
            left = spend_statement(alloc, joiner, top, around, &stated.what, left)?;
        }
    }
    Ok(left)
}

/// The room that is left after so many instances and the name of the top.
pub fn spend_top(top: &Unit, instances: u64) -> Result<u64, BlifFault>
    ensures { Spends 67108864 (instances + length (model_of top.now).name) result }
{
    let left = spend(MOST_SIZE, instances as usize)?;
    spend(left, top.name.bytes().len())
}
