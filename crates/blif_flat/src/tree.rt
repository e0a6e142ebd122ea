// One unit of several.

ghost use Rattle.std.specs.Prelude.{◌≡◌, ◌<◌, true, false, length, map, IfOk, IfErr, OnOk};
ghost use Rattle.blif_unit.specs.Fault.{OnText};
ghost use Rattle.blif_unit.specs.Unit.{model_of, AreDistinct};
ghost use Rattle.blif_flat.specs.Hier.{IsFlatOf, IsFaultOfPlaces};
ghost use Rattle.blif_flat.specs.Graph.{IsGraph};
ghost use Rattle.blif_flat.specs.Plan.{graph_of, AreSitesOf};
ghost use Rattle.blif_flat.specs.Flat.{joiner_of, flat_of, is_too_deep, is_too_large};
ghost use Rattle.blif_flat.specs.Tree.{AreInstances, IsFaultOfGraph};

use crate::around::Around;
use crate::expand::{add_instance, unit_of};
use crate::extent::{MOST_LEVELS, MOST_SIZE, all_instances, all_levels};
use crate::joiner::joiner;
use crate::order::placed_first;
use crate::site::Site;
use crate::sites::{all_sites, graph};
use crate::size::{spend_instance, spend_top};
use blif_unit::{BlifFault, BlifKind, Unit, at};
use std::alloc::Global;
use tm_bits::NoMemory;

/// The number of instances under the top; else that models place one another in a circle, or that an instance is too deep.
fn instances_of(alloc: Global, sites: &[Vec<Site>]) -> Result<u64, BlifFault>
    requires some { 0 < length sites.now }
    requires graph { IsGraph (graph_of (map (λ placed. placed.items) sites.now)) }
    ensures instances { IfOk result (AreInstances (graph_of (map (λ placed. placed.items) sites.now))) }
    ensures fault { IfErr result (λ e. OnText e (IsFaultOfGraph (graph_of (map (λ placed. placed.items) sites.now)))) }
{
    let graph = graph(alloc, sites)?;
    let Some(order) = placed_first(alloc, &graph)? else {
        return Err(at(0, BlifKind::Recursion));
    };
    let levels = all_levels(alloc, &graph, &order)?;
    if levels[0] > MOST_LEVELS {
        return Err(at(0, BlifKind::TooDeep));
    }
    let instances = all_instances(alloc, &graph, &order)?;
    Ok(instances[0])
}

/// Fails where the flat unit, with so many instances, is too large. Without a `.subckt` in the top it never is.
fn check_size(
    alloc: Global,
    units: &[Unit],
    sites: &[Vec<Site>],
    joiner: &[u8],
    instances: u64,
) -> Result<(), BlifFault>
    requires some { 0 < length units.now }
    requires sites { AreSitesOf (map model_of units.now) (map (λ placed. placed.items) sites.now) }
    requires joiner { joiner.now ≡ joiner_of (map model_of units.now) }
    requires instances { AreInstances (graph_of (map (λ placed. placed.items) sites.now)) instances }
    ensures small { OnOk result (is_too_large (map model_of units.now) ≡ false) }
    ensures large { IfErr result
        (λ e. OnText e (λ fault. (fault ≡ (0, BlifKind.TooLarge)) × (is_too_large (map model_of units.now) ≡ true))) }
{
    if sites[0].is_empty() {
        return Ok(());
    }
    let left = spend_top(&units[0], instances)?;
    spend_instance(
        alloc,
        units,
        sites,
        joiner,
        MOST_LEVELS,
        &Around::Top,
        0,
        true,
        left,
    )?;
    Ok(())
}

/// The flat unit.
fn flat_unit(
    alloc: Global,
    units: &[Unit],
    sites: &[Vec<Site>],
    joiner: &[u8],
) -> Result<Unit, NoMemory>
    requires some { 0 < length units.now }
    requires sites { AreSitesOf (map model_of units.now) (map (λ placed. placed.items) sites.now) }
    requires joiner { joiner.now ≡ joiner_of (map model_of units.now) }
    requires shallow { is_too_deep (map model_of units.now) ≡ false }
    ensures { IfOk result (λ unit. model_of unit ≡ flat_of (map model_of units.now)) }
{
    let mut body = Vec::new(alloc);
    add_instance(
        alloc,
        units,
        sites,
        joiner,
        MOST_LEVELS,
        &Around::Top,
        0,
        true,
        &mut body,
    )?;
    unit_of(alloc, &units[0], body)
}

/// The flat unit of models of which the first is the top, or the first fault of those that are placed.
pub fn flat(alloc: Global, units: &[Unit]) -> Result<Unit, BlifFault>
    requires some { 0 < length units.now }
    requires distinct { AreDistinct (map (λ u. u.name) units.now) }
    // The unit is the flat one, and nothing in the third pass of four is at fault.
    ensures flat { IfOk result (λ unit. IsFlatOf (map model_of units.now) (model_of unit)) }
    // The fault is the first of the third pass.
    ensures fault { IfErr result (λ e. OnText e (IsFaultOfPlaces (map model_of units.now))) }
{
    let sites = all_sites(alloc, units)?;
    let instances = instances_of(alloc, &sites)?;
    let joiner = joiner(alloc, units)?;
    check_size(alloc, units, &sites, &joiner, instances)?;
    Ok(flat_unit(alloc, units, &sites, &joiner)?)
}
