// A place of a model in another.

use blif_unit::{Binding, Names};
use std::marker::Model;
use tm_circuit::Name;

/// Where a model places another: the number of that model, and what its formals are bound to.
#[derive(Drop)]
pub struct Site<'a> {
    model: usize,
    formals: Names<'a>,
    bindings: &'a [Binding],
}

impl<'a> Model for Site<'a> {
    ghost use Rattle.std.specs.Prelude.{◌≡◌};
    ghost use Rattle.blif_flat.specs.Sites.{Sited, formals_bound};

    ghost Value = { Sited };

    ghost view = { λ s. record { model = s.model; bindings = s.bindings.now } };

    ghost invariant = { λ s. s.formals ≡ formals_bound s.bindings.now };
}

impl<'a> Site<'a> {
    ghost use Rattle.std.specs.Prelude.{◌≡◌, option_copied};
    ghost use Rattle.blif_flat.specs.Sites.{formals_bound, actual_of};

    /// The site of a model with these bindings, of which the formals are apart.
    pub fn new(model: usize, formals: Names<'a>, bindings: &'a [Binding]) -> Self
        requires { formals ≡ formals_bound bindings.now }
        ensures { result ≡ record { model = model; bindings = bindings.entry.now } }
    {
        Site {
            model,
            formals,
            bindings,
        }
    }

    /// The number of the placed model.
    pub fn model(&self) -> usize
        ensures { result ≡ self.now.model }
    {
        self.model
    }

    /// The name around that a name of the placed model is bound to.
    pub fn actual(&self, name: &[u8]) -> Option<&'a Name>
        ensures { option_copied result ≡ actual_of self.now.bindings name.now }
    {
        match self.formals.position(name) {
            Some(place) => Some(&self.bindings[place].actual),
            None => None,
        }
    }
}
