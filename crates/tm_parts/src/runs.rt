// The joiner of a circuit, by the longest runs of a byte in its names.

ghost use Rattle.std.specs.Prelude.{◌≡◌, map, IfOk, option_copied};
ghost use Rattle.tm_circuit.specs.Plain.{greatest};
ghost use Rattle.tm_circuit.specs.Sound.{clock_name};
ghost use Rattle.tm_parts.specs.Runs.{longest_run as longest_run_of, joiner_of};

use std::alloc::Global;
use tm_bits::NoMemory;
use tm_circuit::{Circuit, Clock, Signal};

/// The length of the longest run of a byte.
fn longest_run(wanted: u8, bytes: &[u8]) -> usize
    ensures { result ≡ longest_run_of wanted bytes.now }
{
    let mut run: usize = 0;
    let mut longest: usize = 0;
    for byte in bytes {
        run = if *byte == wanted { run + 1 } else { 0 };
        longest = run.max(longest);
    }
    longest
}

/// The same in the name of a clock, 0 where there is none.
fn longest_run_of_clock(wanted: u8, clock: Option<&Clock>) -> usize
    ensures { result ≡ greatest (map (longest_run_of wanted) (clock_name (option_copied clock.entry))) }
{
    match clock {
        Some(clock) => longest_run(wanted, clock.name.bytes()),
        None => 0,
    }
}

/// A run of a byte that is one longer than the longest in any name of a signal or of the clock, so that no name has it.
pub fn joiner(alloc: Global, circuit: &Circuit, wanted: u8) -> Result<Vec<u8>, NoMemory>
    ensures { IfOk result (λ joiner. joiner.items ≡ joiner_of wanted circuit.now) }
{
    let mut longest = longest_run_of_clock(wanted, circuit.clock());
    for s in 0..circuit.signals() {
        longest = longest_run(wanted, circuit.name(Signal(s)).bytes()).max(longest);
    }
    Ok(vec![in alloc; wanted; longest + 1]?)
}
