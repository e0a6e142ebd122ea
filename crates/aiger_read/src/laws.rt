// What a text has by the definitions alone.

ghost use Rattle.std.specs.Prelude.{◌≡◌, ◌≤◌, ℕ, List};
ghost use Rattle.tm_circuit.specs.Plain.{Plain};
ghost use Rattle.tm_circuit.specs.Sound.{IsSound};
ghost use Rattle.tm_parts.specs.Names.{HasNamesWithin};
ghost use Rattle.blif_read.specs.declared.Limits.{Limits};
ghost use Rattle.aiger_read.specs.Limits.{longest_made_name};
ghost use Rattle.aiger_read.specs.Faults.{Faulty};
ghost use Rattle.aiger_read.specs.Text.{IsCircuitOf, IsFaultOf};
ghost use Rattle.aiger_read.specs.Trace.{MeansText};

/// For given limits a text has at most one circuit, at most one first fault, and never both.
pub fn one_answer()
    ensures one_circuit { (limits : Limits) (text : List ℕ) (c d : Plain)
        → IsCircuitOf limits text c → IsCircuitOf limits text d → c ≡ d }
    ensures one_fault { (limits : Limits) (text : List ℕ) (f g : Faulty)
        → IsFaultOf limits text f → IsFaultOf limits text g → f ≡ g }
    ensures not_both { (limits : Limits) (text : List ℕ) (c : Plain) (f : Faulty)
        → IsFaultOf limits text f → ¬ IsCircuitOf limits text c }
{}

/// The names of a text's circuit keep the limit on names, where it leaves room for the names that are made.
pub fn short_names()
    ensures { (limits : Limits) (text : List ℕ) (c : Plain) → longest_made_name ≤ limits.name → IsCircuitOf limits text c
        → HasNamesWithin limits.name c }
{}

/// The outputs of a text's circuit are its output literals at every step of every input sequence.
pub fn meaning()
    ensures { (limits : Limits) (text : List ℕ) (c : Plain) → IsCircuitOf limits text c → IsSound c → MeansText text c }
{}
