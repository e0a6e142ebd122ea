// What a text has by the definitions alone.

ghost use Rattle.std.specs.Prelude.{◌≡◌, ◌≤◌, ℕ, List};
ghost use Rattle.tm_circuit.specs.Plain.{Plain};
ghost use Rattle.tm_parts.specs.Names.{HasNamesWithin};
ghost use Rattle.blif_read.specs.declared.Limits.{Limits};
ghost use Rattle.aiger_read.specs.Limits.{longest_made_name};
ghost use Rattle.text_read.specs.Texts.{Faulty, IsCircuitOf, IsFaultOf};

/// For given limits a text has at most one circuit, at most one first fault, and never both.
pub fn one_answer()
    ensures one_circuit { (limits : Limits) (text : List ℕ) (c d : Plain)
        → IsCircuitOf limits text c → IsCircuitOf limits text d → c ≡ d }
    ensures one_fault { (limits : Limits) (text : List ℕ) (f g : Faulty)
        → IsFaultOf limits text f → IsFaultOf limits text g → f ≡ g }
    ensures not_both { (limits : Limits) (text : List ℕ) (c : Plain) (f : Faulty)
        → IsFaultOf limits text f → ¬ IsCircuitOf limits text c }
{
    aiger_read::laws::one_answer();
    blif_hier::laws::one_answer();
}

/// The names of a text's circuit keep the limit on names, where that leaves room for the names that are made for an AIGER text.
pub fn short_names()
    ensures { (limits : Limits) (text : List ℕ) (c : Plain) → longest_made_name ≤ limits.name → IsCircuitOf limits text c
        → HasNamesWithin limits.name c }
{
    aiger_read::laws::short_names();
    blif_hier::laws::short_names();
}
