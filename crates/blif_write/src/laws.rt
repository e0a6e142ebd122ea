// What is written is read again: a law over the calls of the writer and the reader.

ghost use Rattle.std.specs.Prelude.{◌≡◌, ◌≤◌, ◌^◌, length, IfOk, IfSome, IfNone};
ghost use Rattle.blif_write.specs.Text.{text_of};

use crate::text;
use blif_read::{BlifFault, MAPPED, read};
use std::alloc::Global;
use tm_bits::NoMemory;
use tm_circuit::Circuit;

/// The circuit read from the text of a circuit. It is the same circuit, and there is none only where the text is
/// longer than the reader takes. A text that was written is never refused, so the one error is want of memory.
pub fn reread(alloc: Global, circuit: &Circuit) -> Result<Option<Circuit>, NoMemory>
    ensures same { IfOk result (λ back. IfSome back (λ c. c ≡ circuit.now)) }
    ensures long { IfOk result (λ back. IfNone back (2 ^ 32 ≤ length (text_of circuit.now))) }
{
    let written = text(alloc, circuit)?;
    if written.len() >= 1 << 32 {
        return Ok(None);
    }
    match read(alloc, written.as_slice(), &MAPPED) {
        Ok(back) => Ok(Some(back)),
        Err(BlifFault::NoMemory) => Err(NoMemory),
        Err(BlifFault::Text { .. }) => unreachable!(),
    }
}
