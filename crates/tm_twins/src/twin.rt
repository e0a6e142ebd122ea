// The twin of each signal: the least of its class.

ghost use Rattle.std.specs.Prelude.{◌≡◌, ℕ, ◌<◌, length, IfOk};
ghost use Rattle.tm_twins.specs.Twins.{AreTwins, twin_in};
ghost use Rattle.tm_twins.specs.Classes.{head_in, AreLeast};

use crate::classes::heads_of;
use std::alloc::Global;
use tm_bits::NoMemory;
use tm_circuit::{Circuit, Signal};

/// The twin of each signal, in order: of a latch whose source is an input or a gate the least latch of the same source and
/// the same initial word, of any other signal itself. Takes time in proportion to the circuit.
pub fn twins(alloc: Global, circuit: &Circuit) -> Result<Vec<Signal>, NoMemory>
    ensures sized { IfOk result (λ twins. length twins.items ≡ length circuit.now.drives) }
    ensures twins { IfOk result (λ twins. AreTwins circuit.now.drives (twin_in twins.items)) }
{
    let heads = heads_of(alloc, circuit)?;
    leasts_of(alloc, &heads, circuit.signals())
}

/// The least signal of the class of each of `count` signals, in order.
fn leasts_of(alloc: Global, heads: &[Signal], count: u32) -> Result<Vec<Signal>, NoMemory>
    requires sized { length heads.now ≡ count }
    requires within { (s : ℕ) → s < count → head_in heads.now s < count }
    ensures { IfOk result (λ leasts. AreLeast heads.now leasts.items count) }
{
    let mut firsts = vec![in alloc; None; heads.len()]?;
    let mut leasts = Vec::new(alloc);
    for s in 0..count {
        let class = heads[s as usize];
        let least = firsts[class.0 as usize].unwrap_or(Signal(s));
        firsts[class.0 as usize] = Some(least);
        leasts.push(least)?;
    }
    Ok(leasts)
}
