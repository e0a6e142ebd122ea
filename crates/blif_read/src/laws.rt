// What a text has by the definitions alone.

ghost use Rattle.std.specs.Prelude.{◌≡◌, ◌⊎◌, ℕ, List};
ghost use Rattle.tm_circuit.specs.Plain.{Plain};
ghost use Rattle.blif_unit.specs.declared.limits.Limits.{Limits};
ghost use Rattle.blif_unit.specs.Fault.{Faulty};
ghost use Rattle.blif_read.specs.declared.TheConstants.{SOURCE, MAPPED};
ghost use Rattle.blif_read.specs.Limits.{source, mapped};
ghost use Rattle.blif_read.specs.Several.{AreModelsOf, IsFaultOfModels};
ghost use Rattle.blif_read.specs.Text.{IsCircuitOf, IsFaultOf, HasNamesWithin};
ghost use Rattle.blif_read.specs.Unit.{Model};
ghost use Rattle.blif_read.specs.Whole.{IsCircuitOfUnit, IsFaultOfUnit};

/// The constants are the limits that the definitions name.
pub fn limits_hold()
    ensures source { SOURCE ≡ source }
    ensures mapped { MAPPED ≡ mapped }
{}

/// For given limits a text has exactly one circuit or exactly one first fault, and never both.
pub fn one_answer()
    ensures one_circuit { (limits : Limits) (text : List ℕ) (c d : Plain)
        → IsCircuitOf limits text c → IsCircuitOf limits text d → c ≡ d }
    ensures one_fault { (limits : Limits) (text : List ℕ) (f g : Faulty)
        → IsFaultOf limits text f → IsFaultOf limits text g → f ≡ g }
    ensures not_both { (limits : Limits) (text : List ℕ) (c : Plain) (f : Faulty)
        → IsFaultOf limits text f → ¬ IsCircuitOf limits text c }
    ensures one_of_both { (limits : Limits) (text : List ℕ)
        → ((c : Plain) × IsCircuitOf limits text c) ⊎ ((f : Faulty) × IsFaultOf limits text f) }
{}

/// The names of a text's circuit keep the limit on names.
pub fn short_names()
    ensures { (limits : Limits) (text : List ℕ) (c : Plain) → IsCircuitOf limits text c → HasNamesWithin limits.name c }
{}

/// For given limits a text has exactly one list of models or exactly one first fault in them, and never both.
pub fn one_list_of_models()
    ensures one_list { (limits : Limits) (text : List ℕ) (ms ns : List Model)
        → AreModelsOf limits text ms → AreModelsOf limits text ns → ms ≡ ns }
    ensures one_fault { (limits : Limits) (text : List ℕ) (f g : Faulty)
        → IsFaultOfModels limits text f → IsFaultOfModels limits text g → f ≡ g }
    ensures not_both { (limits : Limits) (text : List ℕ) (f : Faulty) (ms : List Model)
        → IsFaultOfModels limits text f → ¬ AreModelsOf limits text ms }
    ensures one_of_both { (limits : Limits) (text : List ℕ)
        → ((ms : List Model) × AreModelsOf limits text ms) ⊎ ((f : Faulty) × IsFaultOfModels limits text f) }
{}

/// For given limits a unit has exactly one circuit or exactly one first fault, and never both.
pub fn one_answer_of_unit()
    ensures one_circuit { (limits : Limits) (m : Model) (c d : Plain)
        → IsCircuitOfUnit limits m c → IsCircuitOfUnit limits m d → c ≡ d }
    ensures one_fault { (limits : Limits) (m : Model) (f g : Faulty) → IsFaultOfUnit limits m f → IsFaultOfUnit limits m g → f ≡ g }
    ensures not_both { (limits : Limits) (m : Model) (f : Faulty) (c : Plain)
        → IsFaultOfUnit limits m f → ¬ IsCircuitOfUnit limits m c }
    ensures one_of_both { (limits : Limits) (m : Model)
        → ((c : Plain) × IsCircuitOfUnit limits m c) ⊎ ((f : Faulty) × IsFaultOfUnit limits m f) }
{}
