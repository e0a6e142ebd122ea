// The tests that nothing is repeated: no name, and no output.

ghost use Rattle.std.specs.Prelude.{◌≡◌, ◌≢◌, ◌↔◌, ℕ, ◌<◌, ◌++◌, length, All, AllPairs, IsTrue, IfOk};
ghost use Rattle.tm_circuit.specs.Sound.{clock_name};

use crate::parts::{Clock, Name, Signal};
use indexmap::IndexSet;
use std::alloc::Global;
use tm_bits::NoMemory;

/// Whether no two of the names and the clock's name are the same.
pub fn are_distinct_names(
    alloc: Global,
    names: &[Name],
    clock: &Option<Clock>,
) -> Result<bool, NoMemory>
    ensures { IfOk result (λ distinct. IsTrue distinct ↔ AllPairs (λ a b. a ≢ b) (names.now ++ clock_name clock.now)) }
{
    let mut seen: IndexSet<&[u8]> = IndexSet::new(alloc);
    for name in names {
        if !seen.insert(name.bytes())? {
            return Ok(false);
        }
    }
    match clock {
        Some(clock) => Ok(seen.insert(clock.name.bytes())?),
        None => Ok(true),
    }
}

/// Whether no signal stands twice in a list of signals below `n`.
pub fn are_distinct_signals(alloc: Global, signals: &[Signal], n: usize) -> Result<bool, NoMemory>
    requires { All (λ s. s < n) signals.now }
    ensures { IfOk result (λ distinct. IsTrue distinct ↔ AllPairs (λ a b. a ≢ b) signals.now) }
{
    let mut seen = vec![in alloc; false; n]?;
    for signal in signals {
        if seen[signal.0 as usize] {
            return Ok(false);
        }
        seen[signal.0 as usize] = true;
    }
    Ok(true)
}
