// The lines of a text from its front, and the words of a line that is due.

ghost use Rattle.std.specs.Prelude.{◌≡◌, ◌==◌, ◌+◌, ◌<◌, ◌≤◌, ◌^◌, true, false, [], ◌∷◌, nat_lt, map, length, position, IfOk, IfErr, IfSome, IfNone};
ghost use Rattle.std.specs.List.{list_all};
ghost use Rattle.cert_text.specs.Words.{words_in, number_on};
ghost use Rattle.cert_text.specs.Faults as faults;
ghost use Rattle.cert_text.specs.Faults.{later, is_version, pieces_of};
ghost use Rattle.cert_text.specs.Steps.{Stops, IsLine, IsMost, TakesNumber};

use crate::fault::{CertFault, CertKind, at};
use crate::keyword::Keyword;
use crate::words::number;
use std::alloc::{AllocError, Global};

/// What is left of a text, and the number of the line that comes next, from 1.
#[derive(Clone, Copy)]
pub struct Lines<'a> {
    pub rest: &'a [u8],
    pub number: u32,
    ghost room: { number + length rest.now < 2 ^ 32 },
}

/// Where a text has its first LF.
fn line_end(text: &[u8]) -> Option<usize>
    ensures { result ≡ position (λ b. b == 10) text.now }
{
    text.iter().position(|byte| *byte == b'\n')
}

/// The first line of a text, without its LF, and what follows it. `None` where the text has no LF.
fn cut_line(text: &[u8]) -> Option<(&[u8], &[u8])>
    ensures some { IfSome result (λ cut. pieces_of text.now ≡ cut.0.now ∷ pieces_of cut.1.now) }
    ensures shorter { IfSome result (λ cut. length cut.0.now + 1 + length cut.1.now ≡ length text.now) }
    ensures none { IfNone result (pieces_of text.now ≡ text.now ∷ []) }
{
    let end = line_end(text)?;
    Some((&text[..end], &text[end + 1..]))
}

/// The version that a first line tells.
fn version_of(line: &[u8]) -> Option<u8>
    ensures some { IfSome result (λ version. (is_version line.now ≡ true) × (version ≡ number_on line.now)) }
    ensures none { IfNone result (is_version line.now ≡ false) }
    ensures long { IfSome result (λ version. length line.now ≡ 10) }
{
    if line == b"turbomap 1".as_slice() {
        Some(1)
    } else if line == b"turbomap 2".as_slice() {
        Some(2)
    } else {
        None
    }
}

/// The version that the first line of a text tells, and the lines after it.
pub fn version_due(text: &[u8]) -> Result<(u8, Lines<'_>), CertFault>
    requires { length text.now < 2 ^ 32 }
    ensures told { IfOk result (λ r. TakesNumber faults.first (pieces_of text.now) r.0 (pieces_of r.1.rest.now)) }
    ensures number { IfOk result (λ r. r.1.number ≡ 2) }
    ensures fault { IfErr result (Stops (faults.first ∷ []) (pieces_of text.now) 1) }
{
    let Some((line, rest)) = cut_line(text) else {
        return Err(at(1, CertKind::Ending));
    };
    let Some(version) = version_of(line) else {
        return Err(at(1, CertKind::Version));
    };
    Ok((version, Lines { rest, number: 2 }))
}

/// The words of a line.
fn words_of<'a>(alloc: Global, line: &'a [u8]) -> Result<Vec<&'a [u8]>, AllocError>
    ensures { IfOk result (λ words. map (λ w. w.now) words.items ≡ words_in line.now) }
{
    line.split(|byte| *byte == b' ').collect(alloc)
}

/// Whether no word is empty.
fn are_filled(words: &[&[u8]]) -> bool
    ensures { result ≡ list_all (λ word. nat_lt 0 (length word.now)) words.now }
{
    words.iter().all(|word| !word.is_empty())
}

/// Whether words are those of a keyword's line.
#[tactic(auto, unfolding(crate::specs::Faults::has_words))]
fn has_words(keyword: Keyword, words: &[&[u8]]) -> bool
    requires { 0 < length words.now }
    ensures { result ≡ faults.has_words keyword (map (λ w. w.now) words.now) }
{
    words[0] == keyword.word() && keyword.takes(words.len()) && are_filled(words)
}

/// The words of the next line, where it is of this keyword, and the lines after it.
pub fn words_due<'a>(
    alloc: Global,
    lines: Lines<'a>,
    keyword: Keyword,
) -> Result<(Vec<&'a [u8]>, Lines<'a>), CertFault>
    ensures line { IfOk result (λ r. IsLine keyword (pieces_of lines.entry.rest.now) (map (λ w. w.now) r.0.items)
        (pieces_of r.1.rest.now)) }
    ensures number { IfOk result (λ r. r.1.number ≡ lines.entry.number + 1) }
    ensures fault { IfErr result (Stops (later keyword ∷ []) (pieces_of lines.entry.rest.now) lines.entry.number) }
{
    let Some((line, rest)) = cut_line(lines.rest) else {
        return Err(at(lines.number, CertKind::Ending));
    };
    let words = words_of(alloc, line)?;
    if !has_words(keyword, &words) {
        return Err(at(lines.number, CertKind::Word));
    }
    let number = lines.number + 1;
    Ok((words, Lines { rest, number }))
}

/// The number that the next line tells, where it is of this keyword, and the lines after it.
pub fn number_due<'a>(
    alloc: Global,
    lines: Lines<'a>,
    keyword: Keyword,
    most: u64,
) -> Result<(u64, Lines<'a>), CertFault>
    requires { IsMost keyword most }
    ensures told { IfOk result (λ r. TakesNumber (later keyword) (pieces_of lines.entry.rest.now) r.0 (pieces_of r.1.rest.now)) }
    ensures within { IfOk result (λ r. r.0 ≤ most) }
    ensures number { IfOk result (λ r. r.1.number ≡ lines.entry.number + 1) }
    ensures fault { IfErr result (Stops (later keyword ∷ []) (pieces_of lines.entry.rest.now) lines.entry.number) }
{
    let (words, after) = words_due(alloc, lines, keyword)?;
    let told = number(lines.number, words[1], most)?;
    Ok((told, after))
}
