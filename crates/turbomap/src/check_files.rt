// `check`: reads the three files, and makes ready the line to be said.

ghost use Rattle.std.specs.Prelude.{◌≡◌, ◌≤◌, ℕ, List, [], ◌∷◌, length, IfOk, IfErr};
ghost use Rattle.tm_texts.specs.Limits.{source_bytes, mapped_bytes};
ghost use Rattle.turbomap.specs.Asking.{check_asked};
ghost use Rattle.turbomap.specs.Command.{stored};
ghost use Rattle.turbomap.specs.Prepared.{IsMade, IsReady, IsTextRefusal, HasCause};

use crate::kind::{cert_kind_name, kind_name, text_kind_name, why_name};
use crate::line::{accepted_line, fault_line, not_accepted_line};
use crate::reading::CheckWords;
use crate::ready::{Ready, no_output};
use crate::refusal::Refusal;
use crate::text::read_file;
use std::alloc::Global;
use tm_store::Store;
use tm_texts::{CheckFault, MAPPED_BYTES, SOURCE_BYTES, check_texts};

/// Reads the three files and checks their texts.
pub fn prepare_check<'a, S: Store>(
    alloc: Global,
    words: CheckWords<'a>,
    store: &mut S,
) -> Result<Ready<'a>, Refusal>
    ensures ready { IfOk result (IsReady (check_asked words.entry) (S.held store.old)) }
    ensures refused { IfErr result (HasCause (check_asked words.entry)
        (stored S.held S.read_faults S.write_faults store.old store.new)) }
    ensures same { S.held store.new ≡ S.held store.old }
    ensures write_counts { (n : List ℕ) → S.write_faults store.old n ≤ S.write_faults store.new n }
{
    let source = read_file(alloc, words.input, SOURCE_BYTES, store)?;
    let mapped = read_file(alloc, words.output, MAPPED_BYTES, store)?;
    let cert = read_file(alloc, words.certificate, MAPPED_BYTES, store)?;
    make_check(alloc, words, &source, &mapped, &cert)
}

// Checks the texts, and makes the line.
fn make_check<'a>(
    alloc: Global,
    words: CheckWords<'a>,
    source: &[u8],
    mapped: &[u8],
    cert: &[u8],
) -> Result<Ready<'a>, Refusal>
    requires source { length source.now ≤ source_bytes }
    requires mapped { length mapped.now ≤ mapped_bytes }
    requires cert { length cert.now ≤ mapped_bytes }
    ensures ready { IfOk result (IsMade (check_asked words.entry) (source.now ∷ mapped.now ∷ cert.now ∷ [])) }
    ensures refused { IfErr result (IsTextRefusal (check_asked words.entry) (source.now ∷ mapped.now ∷ cert.now ∷ [])) }
{
    match check_texts(alloc, source, mapped, cert, words.k, words.d) {
        Ok(checked) => {
            let line = accepted_line(alloc, checked.period, checked.drops)?;
            Ok(no_output(alloc, line)?)
        }
        Err(CheckFault::Source { line, kind }) => {
            let kind = text_kind_name(kind);
            Err(Refusal::BadText(fault_line(alloc, words.input, line, kind)?))
        }
        Err(CheckFault::Mapped { line, kind }) => {
            let kind = kind_name(kind);
            Err(Refusal::BadText(fault_line(alloc, words.output, line, kind)?))
        }
        Err(CheckFault::Cert { line, kind }) => {
            let kind = cert_kind_name(kind);
            Err(Refusal::BadText(fault_line(alloc, words.certificate, line, kind)?))
        }
        Err(CheckFault::No { entry, why }) => {
            let why = why_name(why);
            Err(Refusal::NotAccepted(not_accepted_line(alloc, entry, why)?))
        }
        Err(CheckFault::NoMemory) => Err(Refusal::NoMemory),
    }
}
