// `show`: reads the file, and makes ready the lines to be said.

ghost use Rattle.std.specs.Prelude.{◌≡◌, ◌≤◌, ℕ, List, [], ◌∷◌, length, IfOk, IfErr};
ghost use Rattle.turbomap.specs.Command.{stored};
ghost use Rattle.tm_texts.specs.Limits.{mapped_bytes};
ghost use Rattle.turbomap.specs.Prepared.{IsMade, IsReady, IsTextRefusal, HasCause};
ghost use Rattle.turbomap.specs.Show.{show_command};

use crate::kind::text_kind_name;
use crate::line::fault_line;
use crate::ready::Ready;
use crate::refusal::Refusal;
use crate::text::read_file;
use blif_read::MAPPED;
use std::alloc::Global;
use text_read::{TextFault, read};
use tm_report::show;
use tm_store::Store;
use tm_texts::MAPPED_BYTES;

/// Reads the file and makes the report of its circuit.
pub fn prepare_show<'a, S: Store>(
    alloc: Global,
    input: &'a str,
    store: &mut S,
) -> Result<Ready<'a>, Refusal>
    ensures ready { IfOk result (IsReady (show_command input.now) (S.held store.old)) }
    ensures refused { IfErr result
        (HasCause (show_command input.now) (stored S.held S.read_faults S.write_faults store.old store.new)) }
    ensures same { S.held store.new ≡ S.held store.old }
    ensures write_counts { (n : List ℕ) → S.write_faults store.old n ≤ S.write_faults store.new n }
{
    let text = read_file(alloc, input, MAPPED_BYTES, store)?;
    make_show(alloc, input, &text)
}

// The report of the circuit of the text.
fn make_show<'a>(alloc: Global, input: &'a str, text: &[u8]) -> Result<Ready<'a>, Refusal>
    requires { length text.now ≤ mapped_bytes }
    ensures ready { IfOk result (IsMade (show_command input.now) (text.now ∷ [])) }
    ensures refused { IfErr result (IsTextRefusal (show_command input.now) (text.now ∷ [])) }
{
    match read(alloc, text, &MAPPED) {
        Ok(circuit) => Ok(Ready {
            outputs: Vec::new(alloc),
            lines: show(alloc, &circuit)?,
        }),
        Err(TextFault::Text { line, kind }) => {
            let kind = text_kind_name(kind);
            Err(Refusal::BadText(fault_line(alloc, input, line, kind)?))
        }
        Err(TextFault::NoMemory) => Err(Refusal::NoMemory),
    }
}
