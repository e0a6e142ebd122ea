// Names of bytes, and whether those of a circuit are short.

ghost use Rattle.std.specs.Prelude.{◌≡◌, ◌↔◌, ◌≤◌, length, All, IsTrue, IfOk, option_copied};
ghost use Rattle.tm_circuit.specs.Sound.{clock_name};
ghost use Rattle.tm_parts.specs.Names.{HasNamesWithin};

use std::alloc::Global;
use tm_bits::NoMemory;
use tm_circuit::{Circuit, Clock, Name, Signal};

/// The name of some bytes.
pub fn name_of(alloc: Global, bytes: &[u8]) -> Result<Name, NoMemory>
    ensures { IfOk result (λ name. name ≡ bytes.now) }
{
    Ok(Name::new(Vec::from_slice(alloc, bytes)?))
}

/// Whether each name of a signal and of the clock has at most so many bytes.
pub fn has_names_within(circuit: &Circuit, most: usize) -> bool
    ensures { IsTrue result ↔ HasNamesWithin most circuit.now }
{
    for s in 0..circuit.signals() {
        if circuit.name(Signal(s)).bytes().len() > most {
            return false;
        }
    }
    is_clock_within(circuit.clock(), most)
}

/// Whether the name of the clock, where there is one, has at most so many bytes.
fn is_clock_within(clock: Option<&Clock>, most: usize) -> bool
    ensures { IsTrue result ↔ All (λ name. length name ≤ most) (clock_name (option_copied clock.entry)) }
{
    match clock {
        Some(clock) => clock.name.bytes().len() <= most,
        None => true,
    }
}
