// The certificate of a text, or its first fault. The text is gone over once, line by line.

ghost use Rattle.std.specs.Prelude.{◌≡◌, ◌+◌, ◌<◌, ◌≤◌, ◌^◌, true, [], ◌∷◌, map, length, replicate, OnOk, IfOk, IfErr, MatchResult};
ghost use Rattle.tm_unroll.specs.Mappings.{table_of};
ghost use Rattle.tm_replay.specs.Replays.{drop_of};
ghost use Rattle.cert_text.specs.declared.keyword.Keyword.TheVariants as keywords;
ghost use Rattle.cert_text.specs.declared.fault.CertFault.TheVariants.{NoMemory as WantOfMemory};
ghost use Rattle.cert_text.specs.Certificates.{Certificate, certificate_of, IsCertificateOf};
ghost use Rattle.cert_text.specs.Words.{table_in, table_on, drop_in, drop_on};
ghost use Rattle.cert_text.specs.Faults.{later, has_numbers, pieces_of, IsFaultOf};
ghost use Rattle.cert_text.specs.Steps.{head_forms, Stops, StopsAt, Refuses, TakesHead, TakesEach, TakesEnd};

use crate::cert::Cert;
use crate::fault::{CertFault, CertKind, at};
use crate::keyword::Keyword;
use crate::lines::{Lines, number_due, version_due, words_due};
use crate::words::{leaves, number_u32, signal, steps, walks};
use std::alloc::Global;
use tm_replay::Lowering;
use tm_unroll::{Lut, Mapping};

/// What the first three lines tell, and the lines after them.
#[derive(Clone, Copy)]
struct Head<'a> {
    version: u8,
    period: u32,
    tables: u32,
    lines: Lines<'a>,
}

/// The first three lines of a text.
fn head_due(alloc: Global, text: &[u8]) -> Result<Head<'_>, CertFault>
    requires { length text.now < 2 ^ 32 }
    ensures told { IfOk result (λ h. TakesHead (pieces_of text.now) h.version h.period h.tables (pieces_of h.lines.rest.now)) }
    ensures number { IfOk result (λ h. h.lines.number ≡ 4) }
    ensures fault { IfErr result (Stops head_forms (pieces_of text.now) 1) }
{
    let most = u64::from(u32::MAX);
    let (version, lines) = version_due(text)?;
    let (period, lines) = number_due(alloc, lines, Keyword::Period, most)?;
    let (tables, lines) = number_due(alloc, lines, Keyword::Tables, most)?;
    Ok(Head {
        version,
        period: period as u32,
        tables: tables as u32,
        lines,
    })
}

/// The table that the words of a line spell.
#[tactic(auto, unfolding(crate::specs::Faults::has_numbers))]
fn table(alloc: Global, line: u32, words: &[&[u8]]) -> Result<Lut, CertFault>
    requires { 3 ≤ length words.now }
    ensures told { IfOk result (λ lut. (has_numbers keywords.Table (map (λ w. w.now) words.now) ≡ true)
        × (table_of lut ≡ table_in (map (λ w. w.now) words.now))) }
    ensures fault { IfErr result (Refuses line (has_numbers keywords.Table (map (λ w. w.now) words.now))) }
{
    let gate = signal(line, words[1])?;
    let lag = steps(line, words[2])?;
    let leaves = leaves(alloc, line, &words[3..])?;
    Ok(Lut { gate, lag, leaves })
}

/// The table that the next line spells, and the lines after it.
fn table_due<'a>(alloc: Global, lines: Lines<'a>) -> Result<(Lut, Lines<'a>), CertFault>
    ensures told { IfOk result (λ r. TakesEach keywords.Table table_on 1 (pieces_of lines.entry.rest.now) (table_of r.0 ∷ [])
        (pieces_of r.1.rest.now)) }
    ensures number { IfOk result (λ r. r.1.number ≡ lines.entry.number + 1) }
    ensures fault { IfErr result (Stops (later keywords.Table ∷ []) (pieces_of lines.entry.rest.now) lines.entry.number) }
{
    let (words, after) = words_due(alloc, lines, Keyword::Table)?;
    let lut = table(alloc, lines.number, &words)?;
    Ok((lut, after))
}

/// So many tables, each on a line, and the lines after them. Memory is taken line by line.
fn tables_due<'a>(
    alloc: Global,
    lines: Lines<'a>,
    many: u32,
) -> Result<(Vec<Lut>, Lines<'a>), CertFault>
    ensures told { IfOk result (λ r. TakesEach keywords.Table table_on many (pieces_of lines.entry.rest.now) (map table_of r.0.items)
        (pieces_of r.1.rest.now)) }
    ensures number { IfOk result (λ r. r.1.number ≡ lines.entry.number + many) }
    ensures fault { IfErr result (Stops (replicate many (later keywords.Table)) (pieces_of lines.entry.rest.now) lines.entry.number) }
{
    let mut luts = Vec::new(alloc);
    let mut left = lines;
    for taken in 0..many {
        let (lut, after) = table_due(alloc, left)?;
        luts.push(lut)?;
        left = after;
    }
    Ok((luts, left))
}

/// The drop that the words of a line spell.
#[tactic(auto, unfolding(crate::specs::Faults::has_numbers))]
fn drop(alloc: Global, line: u32, words: &[&[u8]]) -> Result<Lowering, CertFault>
    requires { 5 ≤ length words.now }
    ensures told { IfOk result (λ lowering. (has_numbers keywords.Drop (map (λ w. w.now) words.now) ≡ true)
        × (drop_of lowering ≡ drop_in (map (λ w. w.now) words.now))) }
    ensures fault { IfErr result (Refuses line (has_numbers keywords.Drop (map (λ w. w.now) words.now))) }
{
    let gate = signal(line, words[1])?;
    let lag = steps(line, words[2])?;
    let arrival = number_u32(line, words[3])?;
    let walks = walks(alloc, line, &words[4..])?;
    Ok(Lowering {
        gate,
        lag,
        arrival,
        walks,
    })
}

/// The drop that the next line spells, and the lines after it.
fn drop_due<'a>(alloc: Global, lines: Lines<'a>) -> Result<(Lowering, Lines<'a>), CertFault>
    ensures told { IfOk result (λ r. TakesEach keywords.Drop drop_on 1 (pieces_of lines.entry.rest.now) (drop_of r.0 ∷ [])
        (pieces_of r.1.rest.now)) }
    ensures number { IfOk result (λ r. r.1.number ≡ lines.entry.number + 1) }
    ensures fault { IfErr result (Stops (later keywords.Drop ∷ []) (pieces_of lines.entry.rest.now) lines.entry.number) }
{
    let (words, after) = words_due(alloc, lines, Keyword::Drop)?;
    let lowering = drop(alloc, lines.number, &words)?;
    Ok((lowering, after))
}

/// So many drops, each on a line, and the lines after them. Memory is taken line by line.
fn drops_due<'a>(
    alloc: Global,
    lines: Lines<'a>,
    many: u64,
) -> Result<(Vec<Lowering>, Lines<'a>), CertFault>
    ensures told { IfOk result (λ r. TakesEach keywords.Drop drop_on many (pieces_of lines.entry.rest.now) (map drop_of r.0.items)
        (pieces_of r.1.rest.now)) }
    ensures number { IfOk result (λ r. r.1.number ≡ lines.entry.number + many) }
    ensures fault { IfErr result (Stops (replicate many (later keywords.Drop)) (pieces_of lines.entry.rest.now) lines.entry.number) }
{
    let mut drops = Vec::new(alloc);
    let mut left = lines;
    for taken in 0..many {
        let (lowering, after) = drop_due(alloc, left)?;
        drops.push(lowering)?;
        left = after;
    }
    Ok((drops, left))
}

/// The last line, behind which the text ends.
fn end_due(alloc: Global, lines: Lines<'_>) -> Result<(), CertFault>
    ensures ends { OnOk result (TakesEnd (pieces_of lines.entry.rest.now)) }
    ensures fault { IfErr result (StopsAt (later keywords.End ∷ []) (pieces_of lines.entry.rest.now) lines.entry.number) }
{
    let (_words, after) = words_due(alloc, lines, Keyword::End)?;
    if after.rest.is_empty() {
        Ok(())
    } else {
        Err(at(after.number, CertKind::Ending))
    }
}

/// The certificate of a text, or its first fault, part by part.
fn read_parts(alloc: Global, text: &[u8]) -> Result<Cert, CertFault>
    requires { length text.now < 2 ^ 32 }
    ensures certificate { IfOk result (λ cert. IsCertificateOf text.now (certificate_of cert)) }
    ensures fault { IfErr result (IsFaultOf text.now) }
{
    let head = head_due(alloc, text)?;
    let (luts, lines) = tables_due(alloc, head.lines, head.tables)?;
    let (many, lines) = number_due(alloc, lines, Keyword::Drops, u64::MAX)?;
    let (drops, lines) = drops_due(alloc, lines, many)?;
    end_due(alloc, lines)?;
    Ok(Cert {
        version: head.version,
        period: head.period,
        mapping: Mapping { luts },
        drops,
    })
}

/// The certificate of a text, or the first fault of the text with its line. Takes time in proportion to the text, and memory in
/// proportion to the lines read so far and the longest line. Want of memory may come at any text.
pub fn read(alloc: Global, text: &[u8]) -> Result<Cert, CertFault>
    requires { length text.now < 2 ^ 32 }
    // What is read has this text,
    ensures certificate { IfOk result (λ cert. IsCertificateOf text.now (certificate_of cert)) }
    // and the text of a certificate is read as it.
    ensures only { (c : Certificate) → IsCertificateOf text.now c
        → MatchResult result (λ cert. certificate_of cert ≡ c) (λ fault. fault ≡ WantOfMemory) }
    ensures fault { IfErr result (IsFaultOf text.now) }
{
    read_parts(alloc, text)
}
