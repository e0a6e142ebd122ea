// The names of new gates.

ghost use Rattle.std.specs.Prelude.{◌≡◌, ◌++◌, IfOk};
ghost use Rattle.std.specs.Fmt.{decimal};

use std::alloc::Global;
use tm_bits::NoMemory;
use tm_circuit::Name;

/// The name of a new gate of the gate of a name, by its number from 1.
pub fn new_name(alloc: Global, name: &Name, joiner: &[u8], number: usize) -> Result<Name, NoMemory>
    ensures { IfOk result (λ made. made ≡ name.now ++ joiner.now ++ decimal number) }
{
    let mut bytes = Vec::from_slice(alloc, name.bytes())?;
    bytes.extend_from_slice(joiner)?;
    let digits = format!(in alloc; "{number}")?;
    bytes.extend_from_slice(digits.as_bytes())?;
    Ok(Name::new(bytes))
}
