// Lines said: the bytes said so far where a sayer tells them, and its faults, counted.

ghost use Rattle.std.specs.Prelude.{◌≡◌, ℕ, ◌^◌, ◌<◌, ◌≤◌, List, Option, [], ◌∷◌, ◌++◌, OnOk, OnErr};
ghost use Rattle.tm_store.specs.Faults.{Rose};
ghost use Rattle.tm_store.specs.Said.{Appends, AppendsPart};

use thiserror::Error;

/// The one answer of a line that was not said whole: a fault that the sayer has counted.
#[derive(Clone, Copy, Debug, PartialEq, Eq, Error)]
#[error("the line was not said")]
pub struct SayFailed;

/// A listener of lines. Its count of faults never falls.
pub trait Say {
    // The bytes said so far, where the sayer tells them.
    ghost said: { Self → Option (List ℕ) };

    // The lines that failed.
    ghost faults: { Self → ℕ };

    /// Says the bytes and one LF. Takes no memory. Where it fails, a fault was counted, and a first
    /// part of the line may have been said.
    fn line(&mut self, bytes: &[u8]) -> Result<(), SayFailed>
        ensures whole { OnOk result (Appends (said self.old) (said self.new) (bytes.now ++ 10 ∷ [])) }
        ensures part { OnErr result
            (AppendsPart (said self.old) (said self.new) (bytes.now ++ 10 ∷ [])) }
        ensures cause { OnErr result (Rose (faults self.old) (faults self.new)) }
        ensures counts { faults self.old ≤ faults self.new };

    // The count is one of 64 bits.
    ghost faults_fit: { (s : Self) → faults s < 2 ^ 64 };
}
