// The joined circuit, from its parts.

ghost use Rattle.std.specs.Prelude.{IfOk};
ghost use Rattle.tm_circuit.specs.Sound.{IsSound};
ghost use Rattle.tm_circuit.specs.Same.{IsSame};
ghost use Rattle.tm_twins.specs.Joined.{IsJoined, HasSameBits, IsAsLarge, HasSameSources, HasSameTwins, HasOwnTwins};

use crate::parts::joined_parts;
use crate::twin::twins;
use std::alloc::Global;
use tm_bits::NoMemory;
use tm_circuit::{Circuit, CircuitFault, laws};

/// The joined circuit: each pin and each next is replaced by its twin, and all else is the same. Each signal keeps its
/// number, its bits in every trace, its source and its twin. Takes time in proportion to the circuit.
pub fn joined(alloc: Global, circuit: &Circuit) -> Result<Circuit, NoMemory>
    ensures joined { IfOk result (λ joined. IsJoined circuit.now joined) }
    ensures sound { IfOk result (λ joined. IsSound joined) }
    ensures bits { IfOk result (λ joined. HasSameBits circuit.now joined) }
    ensures same { IfOk result (λ joined. IsSame circuit.now joined) }
    ensures large { IfOk result (λ joined. IsAsLarge circuit.now joined) }
    ensures sources { IfOk result (λ joined. HasSameSources circuit.now joined) }
    ensures twins { IfOk result (λ joined. HasSameTwins circuit.now joined) }
    ensures own_twins { IfOk result (λ joined. HasOwnTwins joined) }
{
    laws::one_trace();
    laws::same_by_trace();
    let twins = twins(alloc, circuit)?;
    let parts = joined_parts(alloc, circuit, &twins)?;
    match Circuit::build(alloc, parts) {
        Ok(joined) => Ok(joined),
        Err(fault) => match fault {
            CircuitFault::NoMemory => Err(NoMemory),
            _ => unreachable!(),
        },
    }
}
