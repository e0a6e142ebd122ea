// `map` and `prime`: reads the file, and makes ready what is to be written and said.

ghost use Rattle.std.specs.Prelude.{◌≡◌, ◌≤◌, ℕ, List, [], ◌∷◌, length, option_map, IfOk, IfErr};
ghost use Rattle.cert_text.specs.Certificates.{HasSpelling, certificate_of};
ghost use Rattle.turbomap.specs.Command.{stored};
ghost use Rattle.tm_texts.specs.Limits.{source_bytes};
ghost use Rattle.tm_texts.specs.Maps.{Maps};
ghost use Rattle.tm_texts.specs.Sources.{IsMapFault};
ghost use Rattle.turbomap.specs.Asking.{map_asked};
ghost use Rattle.turbomap.specs.Line.{mapped_line};
ghost use Rattle.turbomap.specs.Map.{rule_of, mapped_writes};
ghost use Rattle.turbomap.specs.Prepared.{AreReady, IsMade, IsReady, IsTextRefusal, HasCause};

use crate::kind::text_kind_name;
use crate::line::{fault_line, mapped_line};
use crate::reading::{MapWords, Rows};
use crate::ready::{Ready, one_output, two_outputs};
use crate::refusal::Refusal;
use crate::text::read_file;
use std::alloc::Global;
use tm_bits::NoMemory;
use tm_store::Store;
use tm_texts::{MapFault, Mapped, SOURCE_BYTES, map_text, prime_text};

/// Reads the file and maps its text.
pub fn prepare_map<'a, S: Store>(
    alloc: Global,
    words: MapWords<'a>,
    store: &mut S,
) -> Result<Ready<'a>, Refusal>
    ensures ready { IfOk result
        (IsReady (map_asked words.entry) (S.held store.old)) }
    ensures refused { IfErr result
        (HasCause (map_asked words.entry)
        (stored S.held S.read_faults S.write_faults store.old store.new)) }
    ensures same { S.held store.new ≡ S.held store.old }
    ensures write_counts { (n : List ℕ) → S.write_faults store.old n ≤ S.write_faults store.new n }
{
    let text = read_file(alloc, words.input, SOURCE_BYTES, store)?;
    make_map(alloc, words, &text)
}

// Maps the text, and makes the line.
fn make_map<'a>(alloc: Global, words: MapWords<'a>, text: &[u8]) -> Result<Ready<'a>, Refusal>
    requires short { length text.now ≤ source_bytes }
    ensures ready { IfOk result
        (IsMade (map_asked words.entry) (text.now ∷ [])) }
    ensures refused { IfErr result
        (IsTextRefusal (map_asked words.entry) (text.now ∷ [])) }
{
    match map_rows(alloc, words, text) {
        Ok(mapped) => Ok(write_mapped(alloc, words, mapped)?),
        Err(MapFault::Text { line, kind }) => {
            let kind = text_kind_name(kind);
            Err(Refusal::BadText(fault_line(alloc, words.input, line, kind)?))
        }
        Err(MapFault::NoMemory) => Err(Refusal::NoMemory),
    }
}

// Maps the text, with the rows that are asked for.
fn map_rows(alloc: Global, words: MapWords<'_>, text: &[u8]) -> Result<Mapped, MapFault>
    requires short { length text.now ≤ source_bytes }
    ensures maps { IfOk result (λ mapped. Maps (rule_of words.entry.rows) words.entry.k words.entry.d text.now mapped.text.items
        (certificate_of mapped.cert) mapped.tables mapped.registers) }
    ensures fault { IfErr result (IsMapFault words.entry.k text.now) }
{
    match words.rows {
        Rows::Single => map_text(alloc, text, words.k, words.d),
        Rows::Prime => prime_text(alloc, text, words.k, words.d),
    }
}

// The files to be written, and the line.
fn write_mapped<'a>(
    alloc: Global,
    words: MapWords<'a>,
    mapped: Mapped,
) -> Result<Ready<'a>, NoMemory>
    requires spelled { HasSpelling (certificate_of mapped.cert) }
    ensures { IfOk result (AreReady
        (mapped_writes words.entry.output.now (option_map (λ name. name.now) words.entry.certificate) mapped.text.items
        (certificate_of mapped.cert)) (mapped_line mapped.cert.period mapped.tables mapped.registers)) }
{
    let line = mapped_line(alloc, mapped.cert.period, mapped.tables, mapped.registers)?;
    match words.certificate {
        None => one_output(alloc, words.output, mapped.text, line),
        Some(certificate) => {
            let cert = cert_text::write(alloc, &mapped.cert)?;
            two_outputs(alloc, words.output, mapped.text, certificate, cert, line)
        }
    }
}
