// What a text has by the definitions alone.

ghost use Rattle.std.specs.Prelude.{◌≡◌, ◌⊎◌, ◌↔◌, ℕ, List};
ghost use Rattle.tm_circuit.specs.Plain.{Plain};
ghost use Rattle.tm_circuit.specs.Sound.{IsSound};
ghost use Rattle.blif_unit.specs.declared.limits.Limits.{Limits};
ghost use Rattle.blif_read.specs.Text as one_model_text;
ghost use Rattle.blif_hier.specs.Nested.{MeansText};
ghost use Rattle.blif_hier.specs.Single.{IsSingle};
ghost use Rattle.blif_hier.specs.Text.{Faulty, IsCircuitOf, IsFaultOf, HasNamesWithin};

/// For given limits a text has exactly one circuit or exactly one first fault, and never both.
pub fn one_answer()
    ensures one_circuit { (limits : Limits) (text : List ℕ) (c d : Plain)
        → IsCircuitOf limits text c → IsCircuitOf limits text d → c ≡ d }
    ensures one_fault { (limits : Limits) (text : List ℕ) (f g : Faulty)
        → IsFaultOf limits text f → IsFaultOf limits text g → f ≡ g }
    ensures not_both { (limits : Limits) (text : List ℕ) (c : Plain) (f : Faulty)
        → IsFaultOf limits text f → ¬ IsCircuitOf limits text c }
    ensures one_of_both { (limits : Limits) (text : List ℕ)
        → ((c : Plain) × IsCircuitOf limits text c) ⊎ ((f : Faulty) × IsFaultOf limits text f) }
{}

/// The names of a text's circuit keep the limit on names.
pub fn short_names()
    ensures { (limits : Limits) (text : List ℕ) (c : Plain) → IsCircuitOf limits text c → HasNamesWithin limits.name c }
{}

/// For every list of input rows a text's models have a nested trace, and in every one the top's outputs are those of the trace of the
/// text's circuit.
pub fn meaning()
    ensures { (limits : Limits) (text : List ℕ) (c : Plain) → IsCircuitOf limits text c → IsSound c → MeansText limits text c }
{
    tm_circuit::laws::one_trace();
}

/// A text with one model and no `.subckt` has the circuit, or the first fault, that the rules on texts with one model give it.
pub fn one_model()
    ensures circuit { (limits : Limits) (text : List ℕ) (c : Plain) → IsSingle text
        → (IsCircuitOf limits text c ↔ one_model_text.IsCircuitOf limits text c) }
    ensures fault { (limits : Limits) (text : List ℕ) (f : Faulty) → IsSingle text
        → (IsFaultOf limits text f ↔ one_model_text.IsFaultOf limits text f) }
{}
