// Laws of twins and joined circuits: each function does nothing, and its contract is the law.

ghost use Rattle.std.specs.Prelude.{◌≡◌, ℕ, ◌⊎◌, Bool, List};
ghost use Rattle.tm_circuit.specs.Plain.{Plain, Drive};
ghost use Rattle.tm_circuit.specs.Sound.{IsSound};
ghost use Rattle.tm_circuit.specs.Source.{IsSource};
ghost use Rattle.tm_circuit.specs.declared.sources.Source.TheVariants.{Input, Gate};
ghost use Rattle.tm_parts.specs.Fits.{FitsMapping};
ghost use Rattle.tm_twins.specs.Twins.{IsWord, HasWord, AreEqual, IsTwin};
ghost use Rattle.tm_twins.specs.Joined.{IsJoined};

/// A signal has at most one initial word, and one exactly where its source is an input or a gate.
pub fn one_word()
    ensures one { (drives : List Drive) (s : ℕ) (word word' : List Bool) (e e' : ℕ) → IsWord drives s word e
        → IsWord drives s word' e' → (word ≡ word') × (e ≡ e') }
    ensures ends { (drives : List Drive) (s e : ℕ) (word : List Bool) → IsWord drives s word e
        → IsSource drives s (Input e) ⊎ IsSource drives s (Gate e) }
    ensures some { (drives : List Drive) (s e : ℕ) → IsSource drives s (Input e) ⊎ IsSource drives s (Gate e) → HasWord drives s }
{}

/// A signal has exactly one twin: where it has a word, the least signal equal to it, and otherwise itself.
pub fn one_twin()
    ensures some { (drives : List Drive) (s : ℕ) → (t : ℕ) × IsTwin drives s t }
    ensures one { (drives : List Drive) (s t u : ℕ) → IsTwin drives s t → IsTwin drives s u → t ≡ u }
    ensures equal { (drives : List Drive) (s t : ℕ) → HasWord drives s → IsTwin drives s t → AreEqual drives s t }
    ensures own { (drives : List Drive) (s t : ℕ) → ¬ HasWord drives s → IsTwin drives s t → t ≡ s }
    ensures settled { (drives : List Drive) (s t : ℕ) → IsTwin drives s t → IsTwin drives t t }
{}

/// A circuit has exactly one joined circuit, and that of a sound circuit is sound.
pub fn one_joined()
    ensures some { (c : Plain) → (d : Plain) × IsJoined c d }
    ensures one { (c d e : Plain) → IsJoined c d → IsJoined c e → d ≡ e }
    ensures sound { (c d : Plain) → IsSound c → IsJoined c d → IsSound d }
{}

/// The joined circuit of one that fits to be mapped fits too.
pub fn joined_fits()
    ensures { (c joined : Plain) → FitsMapping c → IsJoined c joined → FitsMapping joined }
{}
