// Laws of chosen mappings, over all sound circuits, as every built circuit is: each function does nothing, and its contract is the
// law.

ghost use Rattle.std.specs.Prelude.{ℕ, List};
ghost use Rattle.tm_circuit.specs.Plain.{Plain};
ghost use Rattle.tm_circuit.specs.Sound.{IsSound};
ghost use Rattle.tm_unroll.specs.Mappings.{Table, IsLawfulFrom};
ghost use Rattle.tm_unroll.specs.Chains.{HasChainsWithin};
ghost use Rattle.tm_replay.specs.Replays.{HaveLost};
ghost use Rattle.tm_labels.specs.Settled.{Settling, IsSettledForOutputs};
ghost use Rattle.tm_cover.specs.Chosen.{AreChosen};

/// The tables that a settling gives are a lawful mapping, where the source gate of each output has the lag that it needs.
pub fn chosen_is_lawful()
    ensures { (base : ℕ) (need : ℕ → ℕ) (c : Plain) (k d : ℕ) (s : Settling) (tables : List Table) → IsSound c
        → IsSettledForOutputs base c k d s → ¬ HaveLost need c s.labels → AreChosen c s tables
        → IsLawfulFrom base need c k d tables }
{}

/// No chain of the tables that a settling gives is longer than its target.
pub fn chosen_is_within()
    ensures { (base : ℕ) (need : ℕ → ℕ) (c : Plain) (k d : ℕ) (s : Settling) (tables : List Table) → IsSound c
        → IsSettledForOutputs base c k d s → ¬ HaveLost need c s.labels → AreChosen c s tables → HasChainsWithin tables s.target }
{}

/// Where no output has lost its label, some lawful mapping has no chain longer than the target.
pub fn settled_has_mapping()
    ensures { (base : ℕ) (need : ℕ → ℕ) (c : Plain) (k d : ℕ) (s : Settling) → IsSound c → IsSettledForOutputs base c k d s
        → ¬ HaveLost need c s.labels
        → (tables : List Table) × IsLawfulFrom base need c k d tables × HasChainsWithin tables s.target }
{}
