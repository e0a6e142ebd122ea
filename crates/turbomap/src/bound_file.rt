// `bound`: reads the file, and makes ready the line to be said.

ghost use Rattle.std.specs.Prelude.{◌≡◌, ◌≤◌, ℕ, List, [], ◌∷◌, length, IfOk, IfErr};
ghost use Rattle.tm_texts.specs.Limits.{source_bytes};
ghost use Rattle.turbomap.specs.Asking.{bound_asked};
ghost use Rattle.turbomap.specs.Command.{stored};
ghost use Rattle.turbomap.specs.Prepared.{IsMade, IsReady, IsTextRefusal, HasCause};

use crate::kind::text_kind_name;
use crate::line::{bound_line, fault_line};
use crate::reading::BoundWords;
use crate::ready::{Ready, no_output};
use crate::refusal::Refusal;
use crate::text::read_file;
use std::alloc::Global;
use tm_store::Store;
use tm_texts::{MapFault, SOURCE_BYTES, bound_text};

/// Reads the file and finds the two-way bound of its text.
pub fn prepare_bound<'a, S: Store>(
    alloc: Global,
    words: BoundWords<'a>,
    store: &mut S,
) -> Result<Ready<'a>, Refusal>
    ensures ready { IfOk result (IsReady (bound_asked words.entry) (S.held store.old)) }
    ensures refused { IfErr result (HasCause (bound_asked words.entry)
        (stored S.held S.read_faults S.write_faults store.old store.new)) }
    ensures same { S.held store.new ≡ S.held store.old }
    ensures write_counts { (n : List ℕ) → S.write_faults store.old n ≤ S.write_faults store.new n }
{
    let text = read_file(alloc, words.input, SOURCE_BYTES, store)?;
    make_bound(alloc, words, &text)
}

// Finds the bound, and makes the line.
fn make_bound<'a>(alloc: Global, words: BoundWords<'a>, text: &[u8]) -> Result<Ready<'a>, Refusal>
    requires short { length text.now ≤ source_bytes }
    ensures ready { IfOk result (IsMade (bound_asked words.entry) (text.now ∷ [])) }
    ensures refused { IfErr result (IsTextRefusal (bound_asked words.entry) (text.now ∷ [])) }
{
    match bound_text(alloc, text, words.k, words.d, words.b) {
        Ok(period) => {
            let line = bound_line(alloc, period)?;
            Ok(no_output(alloc, line)?)
        }
        Err(MapFault::Text { line, kind }) => {
            let kind = text_kind_name(kind);
            Err(Refusal::BadText(fault_line(alloc, words.input, line, kind)?))
        }
        Err(MapFault::NoMemory) => Err(Refusal::NoMemory),
    }
}
