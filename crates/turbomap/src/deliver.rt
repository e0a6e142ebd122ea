// From the first write on: what is ready is written and said. None of this takes memory.

ghost use Rattle.std.specs.Prelude.{map, IfErr, OnOk, string_bytes};
ghost use Rattle.turbomap.specs.Command.{stored, around, IsWritten};
ghost use Rattle.turbomap.specs.Prepared.{seen, AreOutputs, IsUnwritten, IsDelivered};

use crate::ready::{Output, Ready};
use crate::say::{tell, tell_all};
use crate::status::Status;
use tm_store::{Say, Store};

/// Writes the files in order, and then says the lines in order. After a call that failed it does no more, but for the line that says
/// which file could not be written.
pub fn deliver<S: Store, W: Say>(ready: Ready<'_>, store: &mut S, say: &mut W) -> Status
    requires { AreOutputs ready.outputs.items }
    ensures { IsDelivered ready.entry
        (around S.held S.read_faults S.write_faults W.said W.faults store.old store.new say.old say.new) result }
{
    match write_all(ready.outputs, store) {
        Ok(()) => {
            if tell_all(say, &ready.lines) {
                Status::Done
            } else {
                Status::Unwritten
            }
        }
        Err(unwritten) => {
            tell(say, unwritten.as_str());
            Status::Unwritten
        }
    }
}

// Writes the files in order; answers the line for the first that could not be written, after which no other is.
fn write_all<S: Store>(outputs: Vec<Output<'_>>, store: &mut S) -> Result<(), String>
    requires { AreOutputs outputs.items }
    ensures written { OnOk result (IsWritten (map seen outputs.entry.items) (S.held store.old) (S.held store.new)) }
    ensures unwritten { IfErr result (λ line. IsUnwritten outputs.entry.items
        (stored S.held S.read_faults S.write_faults store.old store.new) (string_bytes line)) }
{
    for output in outputs {
        if store.write(output.name, output.bytes).is_err() {
            return Err(output.unwritten);
        }
    }
    Ok(())
}
