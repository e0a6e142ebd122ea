// `sim`: reads the two files, and makes ready what is to be written and said.

ghost use Rattle.std.specs.Prelude.{◌≡◌, ◌≤◌, ℕ, List, [], ◌∷◌, length, IfOk, IfErr};
ghost use Rattle.turbomap.specs.Command.{stored};
ghost use Rattle.tm_texts.specs.Limits.{mapped_bytes, vector_bytes};
ghost use Rattle.turbomap.specs.Prepared.{IsMade, IsReady, IsTextRefusal, HasCause};
ghost use Rattle.turbomap.specs.Asking.{sim_asked};

use crate::kind::{text_kind_name, vector_kind_name};
use crate::line::{fault_line, steps_line, too_long_line};
use crate::reading::SimWords;
use crate::ready::{Ready, one_output};
use crate::refusal::Refusal;
use crate::text::read_file;
use std::alloc::Global;
use tm_store::Store;
use tm_texts::{MAPPED_BYTES, SimFault, VECTOR_BYTES, sim_text};

/// Reads the two files and simulates their texts.
pub fn prepare_sim<'a, S: Store>(
    alloc: Global,
    words: SimWords<'a>,
    store: &mut S,
) -> Result<Ready<'a>, Refusal>
    ensures ready { IfOk result
        (IsReady (sim_asked words.entry) (S.held store.old)) }
    ensures refused { IfErr result (HasCause (sim_asked words.entry)
        (stored S.held S.read_faults S.write_faults store.old store.new)) }
    ensures same { S.held store.new ≡ S.held store.old }
    ensures write_counts { (n : List ℕ) → S.write_faults store.old n ≤ S.write_faults store.new n }
{
    let text = read_file(alloc, words.input, MAPPED_BYTES, store)?;
    let vectors = read_file(alloc, words.vectors, VECTOR_BYTES, store)?;
    make_sim(alloc, words, &text, &vectors)
}

// Simulates the texts, and makes the line.
fn make_sim<'a>(
    alloc: Global,
    words: SimWords<'a>,
    text: &[u8],
    vectors: &[u8],
) -> Result<Ready<'a>, Refusal>
    requires text { length text.now ≤ mapped_bytes }
    requires vectors { length vectors.now ≤ vector_bytes }
    ensures ready { IfOk result
        (IsMade (sim_asked words.entry) (text.now ∷ vectors.now ∷ [])) }
    ensures refused { IfErr result
        (IsTextRefusal (sim_asked words.entry) (text.now ∷ vectors.now ∷ [])) }
{
    match sim_text(alloc, text, vectors) {
        Ok(simulated) => {
            let line = steps_line(alloc, simulated.steps)?;
            Ok(one_output(alloc, words.output, simulated.text, line)?)
        }
        Err(SimFault::Blif { line, kind }) => {
            let kind = text_kind_name(kind);
            Err(Refusal::BadText(fault_line(alloc, words.input, line, kind)?))
        }
        Err(SimFault::Vectors { line, kind }) => {
            let kind = vector_kind_name(kind);
            Err(Refusal::BadText(fault_line(alloc, words.vectors, line, kind)?))
        }
        Err(SimFault::TooLong) => Err(Refusal::TooLong(too_long_line(alloc, words.output)?)),
        Err(SimFault::NoMemory) => Err(Refusal::NoMemory),
    }
}
