// Cuts of a text, from its front: physical lines, logical lines, words.

ghost use Rattle.std.specs.Prelude.{◌≡◌, ◌<◌, ◌≤◌, ◌^◌, ◌==◌, ◌++◌, map, length, IfOk, OnOk};
ghost use Rattle.std.specs.List.{before_first, after_first, position_or_len};
ghost use Rattle.blif_lex.specs.Words as words;
ghost use Rattle.blif_lex.specs.Words.{content_of, goes_on, unjoined, words_in};
ghost use Rattle.blif_lex.specs.Steps.{BeginsWith};

use crate::bytes::{is_blank, is_trailing};
use std::alloc::AllocError;

/// The place of the first such byte, or the length where it is missing.
fn place_of(byte: u8, bytes: &[u8]) -> usize
    ensures place { result ≡ position_or_len (λ b. b == byte) bytes.now }
    ensures inside { result ≤ length bytes.now }
{
    bytes.iter().position(|b| *b == byte).unwrap_or(bytes.len())
}

/// The bytes before the first such byte and those after it; all of them and none, where it is missing.
pub fn cut_at(byte: u8, bytes: &[u8]) -> (&[u8], &[u8])
    ensures before { result.0.now ≡ before_first (λ b. b == byte) bytes.now }
    ensures after { result.1.now ≡ after_first (λ b. b == byte) bytes.now }
{
    let at = place_of(byte, bytes);
    let next = bytes.len().min(at + 1);
    (&bytes[..at], &bytes[next..])
}

/// The bytes without blanks, tabs and CRs at their end.
fn trimmed(bytes: &[u8]) -> &[u8]
    ensures { result.now ≡ words.trimmed bytes.now }
{
    let mut end = bytes.len();
    while end > 0 && is_trailing(bytes[end - 1]) {
        end -= 1;
    }
    &bytes[..end]
}

/// What a physical line brings to its logical line, and whether the next one is joined to it.
#[tactic(auto, unfolding(crate::specs::Words::content_of))]
fn content(line: &[u8]) -> (&[u8], bool)
    ensures bytes { result.0.now ≡ unjoined (content_of line.now) }
    ensures next { result.1 ≡ goes_on (content_of line.now) }
{
    let (code, _comment) = cut_at(b'#', line);
    match trimmed(code) {
        [bytes @ .., b'\\'] => (bytes, true),
        bytes => (bytes, false),
    }
}

/// Pushes the words of these bytes.
fn push_words<'a>(words: &mut Vec<&'a [u8]>, bytes: &'a [u8]) -> Result<(), AllocError>
    ensures { OnOk result (map (λ w. w.now) words.new.items
        ≡ map (λ w. w.now) words.old.items ++ words_in bytes.now) }
{
    for word in bytes.split(|byte| is_blank(*byte)) {
        if !word.is_empty() {
            words.push(word)?;
        }
    }
    Ok(())
}

/// Pushes the words of the first logical line of `text`. Gives how many physical lines it has, and what follows it.
pub fn push_line<'a>(
    words: &mut Vec<&'a [u8]>,
    text: &'a [u8],
) -> Result<(u32, &'a [u8]), AllocError>
    requires some { 0 < length text.now }
    requires short { length text.now < 2 ^ 32 }
    ensures { IfOk result (λ r. BeginsWith text.now r.0 (map (λ w. w.now) words.old.items)
        (map (λ w. w.now) words.new.items) r.1.now) }
{
    let mut rest = text;
    let mut taken = 0;
    'lines: loop {
        let (line, after) = cut_at(b'\n', rest);
        let (bytes, next) = content(line);
        push_words(words, bytes)?;
        taken += 1;
        rest = after;
        if !next || rest.is_empty() {
            return Ok((taken, rest));
        }
    }
}
