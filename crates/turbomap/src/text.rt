// The text of a file, read whole and within a limit.

ghost use Rattle.std.specs.Prelude.{◌≡◌, ℕ, ◌-◌, ◌^◌, ◌<◌, ◌≤◌, List, IfOk, IfErr};
ghost use Rattle.turbomap.specs.Command.{input_of, stored, IsText};
ghost use Rattle.turbomap.specs.Prepared.{IsFileRefusal};

use crate::line::{too_long_line, unread_line};
use crate::refusal::Refusal;
use std::alloc::Global;
use tm_store::{Store, StoreFault};

/// The whole text of a file of at most `limit` bytes, or the refusal of a command that does without.
pub fn read_file<S: Store>(
    alloc: Global,
    name: &str,
    limit: u64,
    store: &mut S,
) -> Result<Vec<u8>, Refusal>
    requires { limit < 2 ^ 64 - 1 }
    ensures text { IfOk result (λ text. IsText (S.held store.old) (input_of name.now limit) text.items) }
    ensures refused { IfErr result
        (IsFileRefusal (input_of name.now limit) (stored S.held S.read_faults S.write_faults store.old store.new)) }
    ensures same { S.held store.new ≡ S.held store.old }
    ensures read_counts { (n : List ℕ) → S.read_faults store.old n ≤ S.read_faults store.new n }
    ensures write_counts { (n : List ℕ) → S.write_faults store.old n ≤ S.write_faults store.new n }
{
    match store.read(alloc, name, limit + 1) {
        Ok(text) if text.len() as u64 <= limit => Ok(text),
        Ok(_) => Err(Refusal::TooLong(too_long_line(alloc, name)?)),
        Err(StoreFault::Failed) => Err(Refusal::Unread(unread_line(alloc, name)?)),
        Err(StoreFault::NoMemory) => Err(Refusal::NoMemory),
    }
}
