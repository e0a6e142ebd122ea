// Laws of absorbed mappings, over all sound circuits, as every built circuit is: each function does nothing, and its contract is the
// law.

ghost use Rattle.std.specs.Prelude.{ℕ, List};
ghost use Rattle.tm_circuit.specs.Plain.{Plain};
ghost use Rattle.tm_circuit.specs.Sound.{IsSound};
ghost use Rattle.tm_unroll.specs.Mappings.{Table, IsLawful};
ghost use Rattle.tm_unroll.specs.Chains.{HasChainsWithin};
ghost use Rattle.tm_absorb.specs.Absorbing.{IsAbsorbed};

/// The absorbed mapping of a lawful one is lawful, and has no longer chains.
pub fn absorbed_is_lawful()
    ensures lawful { (c : Plain) (k d : ℕ) (old new : List Table) → IsSound c → IsLawful c k d old → IsAbsorbed c k old new
        → IsLawful c k d new }
    ensures within { (c : Plain) (k d most : ℕ) (old new : List Table) → IsSound c → IsLawful c k d old → IsAbsorbed c k old new
        → HasChainsWithin old most → HasChainsWithin new most }
{}
