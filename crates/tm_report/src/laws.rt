// A law of all circuits: the function does nothing, and its contract is the law.

ghost use Rattle.std.specs.Prelude.{◌≡◌, ℕ, List};
ghost use Rattle.tm_circuit.specs.Plain.{Plain};
ghost use Rattle.tm_report.specs.Report.{IsReport};

/// A circuit has at most one report.
pub fn one_report()
    ensures { (c : Plain) (a b : List (List ℕ)) → IsReport c a → IsReport c b → a ≡ b }
{}
