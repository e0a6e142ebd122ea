// Where models are placed, and what is wrong with how they are bound.

ghost use Rattle.std.specs.Prelude.{◌≡◌, true, false, None, Some, [], map, slice_get, option_map, filter_map, bytes_eq, IfOk, IfErr, MatchOption, MatchResult};
ghost use Rattle.std.specs.List.{list_all};
ghost use Rattle.blif_unit.specs.Fault.{OnText};
ghost use Rattle.blif_unit.specs.Unit.{model_of, place as told_place, repeats, AreDistinct};
ghost use Rattle.blif_flat.specs.Places.{is_among, fault_in_formals, fault_in_told, fault_in_telling, faults_in_places};
ghost use Rattle.blif_flat.specs.Sites.{formals_bound, index_of, sites_in};
ghost use Rattle.blif_flat.specs.Known.{IsKnown};

use crate::formals::{Formals, all_formals, model_names};
use crate::site::Site;
use blif_unit::{Binding, BlifFault, BlifKind, Names, Statement, Unit, at};
use std::alloc::Global;
use tm_bits::NoMemory;
use tm_circuit::Name;

/// The formals that are bound, or `None` where one is bound twice.
fn bound_formals<'a>(alloc: Global, bindings: &'a [Binding]) -> Result<Option<Names<'a>>, NoMemory>
    ensures { IfOk result (λ found. MatchOption found (repeats [] (formals_bound bindings.entry.now) ≡ true)
        (λ names. (repeats [] (formals_bound bindings.entry.now) ≡ false) × (names ≡ formals_bound bindings.entry.now))) }
{
    let mut formals = Names::new(alloc);
    for binding in bindings {
        if !formals.insert(binding.formal.bytes())? {
            return Ok(None);
        }
    }
    Ok(Some(formals))
}

/// Whether each formal that is bound is one of the model.
fn are_known(names: &Names, bindings: &[Binding]) -> bool
    ensures { result ≡ list_all (λ b. is_among names.now b.formal) bindings.now }
{
    bindings
        .iter()
        .all(|binding| names.contains(binding.formal.bytes()))
}

/// Whether each input is bound.
fn are_bound(inputs: &[&[u8]], formals: &Names) -> bool
    ensures { result ≡ list_all (λ x. is_among formals.now x.now) inputs.now }
{
    inputs.iter().all(|input| formals.contains(input))
}

/// The site of a model with these formals, or the rule on bindings that is broken first.
fn bind<'a>(
    alloc: Global,
    model: usize,
    formals: &Formals,
    bindings: &'a [Binding],
) -> Result<Result<Site<'a>, BlifKind>, NoMemory>
    ensures { IfOk result (λ bound. MatchResult bound
        (λ site. (site ≡ record { model = model; bindings = bindings.entry.now })
        × (fault_in_formals formals.now.names (map (λ x. x.now) formals.now.inputs.items) (formals_bound bindings.entry.now) ≡ None))
        (λ kind. fault_in_formals formals.now.names (map (λ x. x.now) formals.now.inputs.items) (formals_bound bindings.entry.now)
        ≡ Some kind)) }
{
    if !are_known(&formals.names, bindings) {
        return Ok(Err(BlifKind::UnknownFormal));
    }
    let Some(bound) = bound_formals(alloc, bindings)? else {
        return Ok(Err(BlifKind::RepeatedFormal));
    };
    if !are_bound(&formals.inputs, &bound) {
        return Ok(Err(BlifKind::Unbound));
    }
    Ok(Ok(Site::new(model, bound, bindings)))
}

/// Models with their names and the formals of each.
#[derive(Drop)]
pub struct Models<'a> {
    units: &'a [Unit],
    names: Names<'a>,
    formals: Vec<Formals<'a>>,
}

impl<'a> Models<'a> {
    /// The names and the formals of models.
    pub fn of(alloc: Global, units: &'a [Unit]) -> Result<Self, NoMemory>
        requires { AreDistinct (map (λ u. u.name) units.now) }
        ensures known { IfOk result IsKnown }
        ensures units { IfOk result (λ known. known.units.now ≡ units.entry.now) }
    {
        Ok(Models {
            units,
            names: model_names(alloc, units)?,
            formals: all_formals(alloc, units)?,
        })
    }

    /// The site of a `.subckt` line, or its fault.
    fn site<'b>(
        &self,
        alloc: Global,
        line: u32,
        model: &Name,
        bindings: &'b [Binding],
    ) -> Result<Site<'b>, BlifFault>
        requires { IsKnown self.now }
        ensures site { IfOk result
            (λ site. (site ≡ record { model = index_of (map model_of self.now.units.now) model.now; bindings = bindings.entry.now })
            × (fault_in_told (map model_of self.now.units.now) (told_place model.now bindings.entry.now) ≡ None)) }
        ensures fault { IfErr result
            (λ e. OnText e (λ fault. option_map
            (λ kind. (line, kind)) (fault_in_told (map model_of self.now.units.now) (told_place model.now bindings.entry.now))
            ≡ Some fault)) }
    {
        let Some(number) = self.names.position(model.bytes()) else {
            return Err(at(line, BlifKind::NoModel));
        };
        match bind(alloc, number, &self.formals[number], bindings)? {
            Ok(site) => Ok(site),
            Err(kind) => Err(at(line, kind)),
        }
    }

    /// The sites in a model in order, or the fault of the first line that has one.
    fn sites<'b>(&self, alloc: Global, unit: &'b Unit) -> Result<Vec<Site<'b>>, BlifFault>
        requires { IsKnown self.now }
        ensures sites { IfOk result (λ sites. (sites.items ≡ sites_in (map model_of self.now.units.now) (model_of unit.entry.now).body)
            × (filter_map (fault_in_telling (map model_of self.now.units.now)) (model_of unit.entry.now).body ≡ [])) }
        ensures fault { IfErr result
            (λ e. OnText e (λ fault. slice_get (filter_map (fault_in_telling
            (map model_of self.now.units.now)) (model_of unit.entry.now).body) 0 ≡ Some fault)) }
    {
        let mut sites = Vec::new(alloc);
        for stated in &unit.body {
            if let Statement::Place { model, bindings } = &stated.what {
                sites.push(self.site(alloc, stated.line, model, bindings)?)?;
            }
        }
        Ok(sites)
    }
}

/// The sites in each model, or the fault of the first `.subckt` line that has one.
pub fn all_sites<'a>(alloc: Global, units: &'a [Unit]) -> Result<Vec<Vec<Site<'a>>>, BlifFault>
    requires { AreDistinct (map (λ u. u.name) units.now) }
    ensures sites { IfOk result
        (λ all. (map (λ sites. sites.items) all.items ≡ map (λ m. sites_in (map model_of units.entry.now) m.body)
        (map model_of units.entry.now))
        × (faults_in_places (map model_of units.entry.now) ≡ [])) }
    ensures fault { IfErr result (λ e. OnText e (λ fault. slice_get (faults_in_places (map model_of units.entry.now)) 0 ≡ Some fault)) }
{
    let models = Models::of(alloc, units)?;
    let mut all = Vec::new(alloc);
    for unit in units {
        all.push(models.sites(alloc, unit)?)?;
    }
    Ok(all)
}

/// The numbers of the models at these sites.
fn numbers(alloc: Global, sites: &[Site]) -> Result<Vec<usize>, NoMemory>
    ensures { IfOk result (λ numbers. numbers.items ≡ map (λ site. site.model) sites.now) }
{
    let mut numbers = Vec::new(alloc);
    for site in sites {
        numbers.push(site.model())?;
    }
    Ok(numbers)
}

/// For each model the numbers of those that it places.
pub fn graph(alloc: Global, sites: &[Vec<Site>]) -> Result<Vec<Vec<usize>>, NoMemory>
    ensures { IfOk result
        (λ graph. map (λ placed. placed.items) graph.items ≡ map (λ placed. map (λ site. site.model) placed.items) sites.now) }
{
    let mut graph = Vec::new(alloc);
    for placed in sites {
        graph.push(numbers(alloc, placed)?)?;
    }
    Ok(graph)
}
