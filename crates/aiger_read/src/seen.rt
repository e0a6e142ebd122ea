// Names that are used, in the order in which they came.

ghost use Rattle.std.specs.Prelude.{◌≡◌, [], ◌∷◌, ◌++◌, not, if◌then◌else◌, bytes_eq, IfOk, OnOk};
ghost use Rattle.std.specs.List.{list_any};

use indexmap::IndexSet;
use std::alloc::Global;
use std::marker::Model;
use tm_bits::NoMemory;

/// Distinct names, in the order in which they came.
#[derive(Drop)]
pub struct Seen<'a> {
    set: IndexSet<&'a [u8]>,
}

impl<'a> Model for Seen<'a> {
    ghost use Rattle.std.specs.Prelude.{ℕ, List, map};

    ghost Value = { List (List ℕ) };

    ghost view = { λ names. map (λ name. name.now) names.set.keys };
}

impl<'a> Seen<'a> {
    /// No names.
    pub fn new(alloc: Global) -> Self
        ensures { result ≡ [] }
    {
        Seen {
            set: IndexSet::new(alloc),
        }
    }

    /// Puts a name last, and answers whether it is new. A name that is there already stays where it is.
    pub fn insert(&mut self, name: &'a [u8]) -> Result<bool, NoMemory>
        ensures added { IfOk result (λ added. added ≡ not (list_any (bytes_eq name.now) self.old)) }
        ensures names { OnOk result (self.new ≡ (if list_any (bytes_eq name.now) self.old then self.old
            else self.old ++ name.now ∷ [])) }
    {
        Ok(self.set.insert(name)?)
    }
}
