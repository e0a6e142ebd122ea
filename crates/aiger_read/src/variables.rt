// Variables that are looked up, in the order in which they are defined.

ghost use Rattle.std.specs.Prelude.{◌≡◌, ◌==◌, [], ◌∷◌, ◌++◌, not, if◌then◌else◌, length, position, ◌≤◌, ◌<◌, IfOk, IfSome, OnOk};
ghost use Rattle.aiger_read.specs.Circuit.{signal_in};
ghost use Rattle.std.specs.List.{list_any};

use indexmap::IndexSet;
use std::alloc::Global;
use std::marker::Model;
use tm_bits::NoMemory;
use tm_circuit::Signal;

/// Distinct variables, in the order in which they were defined.
#[derive(Drop)]
pub struct Variables {
    set: IndexSet<u32>,
}

impl Model for Variables {
    ghost use Rattle.std.specs.Prelude.{ℕ, List};

    ghost Value = { List ℕ };

    ghost view = { λ variables. variables.set.keys };
}

impl Variables {
    /// No variables.
    pub fn new(alloc: Global) -> Self
        ensures { result ≡ [] }
    {
        Variables {
            set: IndexSet::new(alloc),
        }
    }

    /// Puts a variable last, and answers whether it is new. A variable that is there already stays where it is.
    pub fn insert(&mut self, variable: u32) -> Result<bool, NoMemory>
        ensures added { IfOk result (λ added. added ≡ not (list_any (λ v. variable == v) self.old)) }
        ensures variables { OnOk result (self.new ≡
            (if list_any (λ v. variable == v) self.old then self.old else self.old ++ variable ∷ [])) }
    {
        Ok(self.set.insert(variable)?)
    }

    /// The number of variables before this one, where it is there.
    fn position(&self, variable: u32) -> Option<usize>
        ensures position { result ≡ position (λ v. variable == v) self.now }
        ensures within { IfSome result (λ k. k < length self.now) }
    {
        self.set.get_index_of(&variable)
    }

    /// The signal of a variable; 0 where it is none of these.
    pub fn signal(&self, variable: u32) -> Signal
        requires { length self.now ≤ 900000 }
        ensures { result ≡ signal_in self.now variable }
    {
        Signal(self.position(variable).unwrap_or(0) as u32)
    }

    /// How many variables there are.
    pub fn len(&self) -> usize
        ensures { result ≡ length self.now }
    {
        self.set.len()
    }

    /// Whether the variable is there.
    pub fn contains(&self, variable: u32) -> bool
        ensures { result ≡ list_any (λ v. variable == v) self.now }
    {
        self.set.contains(&variable)
    }
}
