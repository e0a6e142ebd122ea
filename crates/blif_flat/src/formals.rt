// The names of a model that may be bound, and those that must be.

ghost use Rattle.std.specs.Prelude.{◌≡◌, ◌++◌, map, IfOk, OnOk};
ghost use Rattle.blif_unit.specs.Unit.{told_of, model_of, AreDistinct};
ghost use Rattle.blif_flat.specs.Sites.{Joins, GainsFormals, AreFormalsOf, AreAllFormals};

use blif_unit::{Names, Statement, Unit};
use std::alloc::Global;
use tm_bits::NoMemory;
use tm_circuit::Name;

/// The names of a model that may be bound where it is placed, and those that must be.
#[derive(Drop)]
pub struct Formals<'a> {
    pub names: Names<'a>,
    pub inputs: Vec<&'a [u8]>,
}

/// The names of the models.
pub fn model_names<'a>(alloc: Global, units: &'a [Unit]) -> Result<Names<'a>, NoMemory>
    requires { AreDistinct (map (λ u. u.name) units.now) }
    ensures { IfOk result (λ names. names ≡ map (λ u. u.name) units.now) }
{
    let mut names = Names::new(alloc);
    for unit in units {
        names.insert(unit.name.bytes())?;
    }
    Ok(names)
}

/// Puts names last, each where it is new.
fn insert_all<'a>(names: &mut Names<'a>, more: &'a [Name]) -> Result<(), NoMemory>
    ensures { OnOk result (Joins names.old more.now names.new) }
{
    for name in more {
        names.insert(name.bytes())?;
    }
    Ok(())
}

/// Puts names last.
fn push_all<'a>(inputs: &mut Vec<&'a [u8]>, more: &'a [Name]) -> Result<(), NoMemory>
    ensures { OnOk result (map (λ x. x.now) inputs.new.items ≡ map (λ x. x.now) inputs.old.items ++ more.now) }
{
    for name in more {
        inputs.push(name.bytes())?;
    }
    Ok(())
}

impl<'a> Formals<'a> {
    /// The formals of a model.
    fn of(alloc: Global, unit: &'a Unit) -> Result<Self, NoMemory>
        ensures { IfOk result (AreFormalsOf (model_of unit.now).body) }
    {
        let mut formals = Formals {
            names: Names::new(alloc),
            inputs: Vec::new(alloc),
        };
        for stated in &unit.body {
            formals.add(&stated.what)?;
        }
        Ok(formals)
    }

    /// Adds those that a statement names.
    fn add(&mut self, statement: &'a Statement) -> Result<(), NoMemory>
        ensures { OnOk result (GainsFormals self.old (told_of statement.now) self.new) }
    {
        match statement {
            Statement::Inputs(names) => {
                insert_all(&mut self.names, names)?;
                push_all(&mut self.inputs, names)
            }
            Statement::Outputs(names) => insert_all(&mut self.names, names),
            Statement::Clock(names) => insert_all(&mut self.names, names),
            Statement::Gate { .. } | Statement::Latch { .. } | Statement::Place { .. } => Ok(()),
        }
    }
}

/// The formals of each model.
pub fn all_formals<'a>(alloc: Global, units: &'a [Unit]) -> Result<Vec<Formals<'a>>, NoMemory>
    ensures { IfOk result (λ all. AreAllFormals (map model_of units.now) all.items) }
{
    let mut all = Vec::new(alloc);
    for unit in units {
        all.push(Formals::of(alloc, unit)?)?;
    }
    Ok(all)
}
