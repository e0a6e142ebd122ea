// Laws of acceptance: each function does nothing, and its contract is the law. None of them asks how a certificate was made.

ghost use Rattle.std.specs.Prelude.{◌≡◌, ◌↔◌, ◌⊎◌, ℕ, ◌≤◌, List, length};
ghost use Rattle.tm_bits.specs.Limits.{most_inputs};
ghost use Rattle.tm_circuit.specs.Plain.{Plain, widest};
ghost use Rattle.tm_circuit.specs.Sound.{IsSound};
ghost use Rattle.tm_parts.specs.Limits.{most_signals_to_map};
ghost use Rattle.tm_twins.specs.Joined.{IsJoined};
ghost use Rattle.tm_unroll.specs.Mappings.{Table, IsLawful};
ghost use Rattle.tm_unroll.specs.Chains.{HasChainsWithin};
ghost use Rattle.tm_replay.specs.Replays.{Drop as PlainDrop};
ghost use Rattle.tm_mapped.specs.Mapped.{ByValues, IsMappedBy};
ghost use Rattle.cert_text.specs.Certificates.{Certificate, HasSpelling};
ghost use Rattle.cert_check.specs.declared.verdict.Verdict.{Verdict as AVerdict};
ghost use Rattle.cert_check.specs.declared.verdict.Why.{Why as AReason};
ghost use Rattle.cert_check.specs.Agreement.{Agree};
ghost use Rattle.cert_check.specs.Accepted.{ShowLeast, IsVerdict, IsAccepted, IsFirstFailure};
ghost use Rattle.cert_check.specs.Claims.{IsBest, HasFewDrops};

/// There is at most one verdict: no two first failures, and none where the three are accepted.
pub fn one_verdict()
    ensures one { (source mapped : Plain) (cert : Certificate) (k d : ℕ) (verdict other : AVerdict) → 1 ≤ k
        → IsVerdict source mapped cert k d verdict → IsVerdict source mapped cert k d other → verdict ≡ other }
    ensures not_both { (source mapped : Plain) (cert : Certificate) (k d entry : ℕ) (why : AReason) → 1 ≤ k
        → IsAccepted source mapped cert k d → IsFirstFailure source mapped cert k d entry why → ⊥ }
{}

/// Where the three are accepted, the mapped circuit behaves like the source, has at most `k` pins a gate and just the certificate's
/// period, and no mapping that is lawful by the certificate's version has a smaller one.
pub fn accepted_is_best()
    ensures { (source mapped : Plain) (cert : Certificate) (k d : ℕ) → IsSound source → IsSound mapped
        → IsAccepted source mapped cert k d → IsBest source mapped cert k d }
{}

/// An accepted certificate has few drops, and none where its period is at most 1.
pub fn accepted_is_short()
    ensures { (source mapped : Plain) (cert : Certificate) (k d : ℕ) → IsAccepted source mapped cert k d → HasFewDrops source cert d }
{}

/// An accepted certificate for a source that can be mapped has a text.
pub fn accepted_is_spelled()
    ensures { (source mapped : Plain) (cert : Certificate) (k d : ℕ) → IsSound source → length source.drives ≤ most_signals_to_map
        → widest source.drives ≤ k → 1 ≤ k → k ≤ most_inputs → d ≤ 8
        → IsAccepted source mapped cert k d → HasSpelling cert }
{}

/// A mapping that is lawful for the joined circuit, of a period at most this, its mapped circuit and drops that show that no smaller
/// period is reached are accepted as a certificate of version 2.
pub fn made_is_accepted()
    ensures { (source joined mapped : Plain) (k d period : ℕ) (tables : List Table) (drops : List PlainDrop) → IsJoined source joined
        → IsLawful joined k d tables → HasChainsWithin tables period → IsMappedBy ByValues joined tables mapped
        → ShowLeast period joined k d drops
        → IsAccepted source mapped (record { version = 2; period = period; tables = tables; drops = drops }) k d }
{}

/// A circuit is the mapped circuit, covers by value, exactly where it agrees with one that is.
pub fn mapped_circuits_agree()
    ensures { (c : Plain) (k d : ℕ) (tables : List Table) (mapped other : Plain) → IsSound c → IsLawful c k d tables
        → IsMappedBy ByValues c tables mapped → IsMappedBy ByValues c tables other ↔ Agree mapped other }
{}
