// Laws of runs: the function does nothing, and its contract is the law.

ghost use Rattle.std.specs.Prelude.{◌≡◌, ◌↔◌, ℕ, ◌≤◌, List, ◌++◌, length, All};
ghost use Rattle.tm_parts.specs.Runs.{HasRunsWithin, longest_run};

/// No run of a byte is longer than so many exactly where the longest is not. A text of so many bytes has no longer run,
/// and what follows it adds none where the byte does not stand there.
pub fn runs_are_measured()
    ensures longest { (byte most : ℕ) (text : List ℕ) → HasRunsWithin byte most text ↔ (longest_run byte text ≤ most) }
    ensures short { (byte most : ℕ) (text : List ℕ) → length text ≤ most → HasRunsWithin byte most text }
    ensures followed { (byte most : ℕ) (text rest : List ℕ) → length text ≤ most → All (λ b. b ≡ byte → ⊥) rest
        → HasRunsWithin byte most (text ++ rest) }
{}
