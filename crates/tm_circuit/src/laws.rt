// Laws of all sound circuits, as every built circuit is: each function does nothing, and its contract is the law.

ghost use Rattle.std.specs.Prelude.{◌≡◌, ℕ, Bool, List};
ghost use Rattle.tm_circuit.specs.declared.sources.Source.{Source};
ghost use Rattle.tm_circuit.specs.Plain.{Plain, Drive};
ghost use Rattle.tm_circuit.specs.Sound.{IsSound};
ghost use Rattle.tm_circuit.specs.Source.{IsSource};
ghost use Rattle.tm_circuit.specs.Trace.{HasOneTrace, HasOneRun, IsTrace, ObeysAlways, row_bit};
ghost use Rattle.tm_circuit.specs.Same.{IsSame, IsRewritten, ShowsAlike, input_names, output_names};

/// A sound circuit has exactly one trace for every list of rows, of every length.
pub fn one_trace()
    ensures { (c : Plain) → IsSound c → HasOneTrace c }
{}

/// Same is an equivalence of sound circuits.
pub fn equivalence()
    ensures reflexive { (c : Plain) → IsSound c → IsSame c c }
    ensures symmetric { (a b : Plain) → IsSame a b → IsSame b a }
    ensures transitive { (a b c : Plain) → IsSound b → IsSame a b → IsSame b c → IsSame a c }
{}

/// A circuit and its rewriting with other pins and covers are Same where the gates have equal values.
pub fn gates_of_equal_values()
    ensures { (a b : Plain) → IsSound b → IsRewritten a b → IsSame a b }
{}

/// A sound circuit has exactly one table that obeys its drives for ever, whatever the inputs are given.
pub fn one_run()
    ensures { (c : Plain) → IsSound c → HasOneRun c }
{}

/// Circuits are Same where each trace of the first gives some trace of the second with the same outputs.
pub fn same_by_trace()
    ensures { (a b : Plain) → IsSound b → input_names a ≡ input_names b → output_names a ≡ output_names b
        → ((rows : List (List Bool)) (t : ℕ → ℕ → Bool) → IsTrace a rows t → ShowsAlike a b rows t) → IsSame a b }
{}

/// The same from a table of the first that goes on for ever, for circuits that see a later step of it. Inputs that the
/// rows don't give are 0.
pub fn same_by_endless()
    ensures { (a b : Plain) → IsSound a → IsSound b → input_names a ≡ input_names b → output_names a ≡ output_names b
        → ((rows : List (List Bool)) (t : ℕ → ℕ → Bool) → ObeysAlways a (row_bit rows) t → ShowsAlike a b rows t)
        → IsSame a b }
{}

/// A signal has one source.
pub fn one_source()
    ensures { (drives : List Drive) (s : ℕ) (e f : Source) → IsSource drives s e → IsSource drives s f → e ≡ f }
{}
