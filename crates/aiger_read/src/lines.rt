// The lines of a text, their words and the numbers in them.

ghost use Rattle.std.specs.Prelude.{◌≡◌, ◌==◌, ◌+◌, ◌<◌, ◌≤◌, ◌^◌, true, false, [], ◌∷◌, map, length, position, IfOk, IfSome, IfNone};
ghost use Rattle.std.specs.List.{slice_split, list_all};
ghost use Rattle.std.specs.Str.{all_ascii_digits};
ghost use Rattle.aiger_read.specs.Limits.{most_number};
ghost use Rattle.aiger_read.specs.Lines as spelled;
ghost use Rattle.aiger_read.specs.Lines.{without_cr, unended, lines_of, line_at, words_in, is_number, number_in, has_leading_zero, numbers_in, numbers_on};
ghost use Rattle.aiger_read.specs.Steps.{texts};

use std::alloc::{AllocError, Global};
use tm_bits::NoMemory;

/// Where a text has its first LF.
fn line_end(text: &[u8]) -> Option<usize>
    ensures { result ≡ position (λ b. b == 10) text.now }
{
    text.iter().position(|byte| *byte == b'\n')
}

/// The first line of a text, without its LF, and what follows it. `None` where the text has no LF.
fn cut_line(text: &[u8]) -> Option<(&[u8], &[u8])>
    ensures some { IfSome result (λ cut. slice_split (λ b. b == 10) text.now ≡ cut.0.now ∷ slice_split (λ b. b == 10) cut.1.now) }
    ensures shorter { IfSome result (λ cut. length cut.0.now + 1 + length cut.1.now ≡ length text.now) }
    ensures none { IfNone result (slice_split (λ b. b == 10) text.now ≡ text.now ∷ []) }
{
    let end = line_end(text)?;
    Some((&text[..end], &text[end + 1..]))
}

/// A line without the CR before its LF.
fn without_cr(line: &[u8]) -> &[u8]
    ensures { result.now ≡ without_cr line.now }
{
    match line {
        [front @ .., b'\r'] => front,
        _ => line,
    }
}

/// What is read of a piece that no LF ends: where it ends in a CR, it is of no form, and the CR alone is read.
fn unended(piece: &[u8]) -> &[u8]
    ensures { result.now ≡ unended piece.now }
{
    match piece {
        [.., b'\r'] => b"\r",
        _ => piece,
    }
}

/// The lines of a text, which is cut at each LF.
pub fn lines_of(alloc: Global, text: &[u8]) -> Result<Vec<&[u8]>, NoMemory>
    ensures { IfOk result (λ lines. texts lines.items ≡ lines_of text.now) }
{
    let mut lines = Vec::new(alloc);
    let mut rest = text;
    while let Some((line, after)) = cut_line(rest) {
        lines.push(without_cr(line))?;
        rest = after;
    }
    if !rest.is_empty() {
        lines.push(unended(rest))?;
    }
    Ok(lines)
}

/// The words of a line.
pub fn words_of<'a>(alloc: Global, line: &'a [u8]) -> Result<Vec<&'a [u8]>, AllocError>
    ensures { IfOk result (λ words. texts words.items ≡ words_in line.now) }
{
    line.split(|byte| *byte == b' ').collect(alloc)
}

/// Whether a word begins with a zero that other digits follow.
fn has_leading_zero(word: &[u8]) -> bool
    ensures { result ≡ has_leading_zero word.now }
{
    word.len() > 1 && word[0] == b'0'
}

/// The number that digits spell, up to the greatest of 32 bits.
fn digits(word: &[u8]) -> Option<u32>
    ensures some { IfSome result (λ n. (all_ascii_digits word.now ≡ true) × (n ≡ number_in word.now)) }
    ensures small { IfSome result (λ n. n < 2 ^ 32) }
    ensures none { IfNone result ((all_ascii_digits word.now ≡ true) → 2 ^ 32 ≤ number_in word.now) }
{
    let mut value: u32 = 0;
    for byte in word {
        if !byte.is_ascii_digit() {
            return None;
        }
        value = value.checked_mul(10)?.checked_add(u32::from(*byte - b'0'))?;
    }
    Some(value)
}

/// The number that a word spells.
pub fn number(word: &[u8]) -> Option<u32>
    ensures some { IfSome result (λ n. (is_number word.now ≡ true) × (n ≡ number_in word.now)) }
    ensures none { IfNone result (is_number word.now ≡ false) }
{
    if word.is_empty() || has_leading_zero(word) {
        return None;
    }
    digits(word)
}

/// The numbers that words spell; none where some word is no number.
pub fn numbers_of(alloc: Global, words: &[&[u8]]) -> Result<Vec<u32>, NoMemory>
    ensures { IfOk result (λ numbers. numbers.items ≡ numbers_in (texts words.now)) }
{
    let mut numbers = Vec::with_capacity(alloc, words.len())?;
    for word in words {
        let Some(number) = number(word) else {
            return Ok(Vec::new(alloc));
        };
        numbers.push(number)?;
    }
    Ok(numbers)
}

/// The numbers of a line; none where some word of it is no number.
#[tactic(auto, unfolding(crate::specs::Lines::numbers_on))]
pub fn numbers_on(alloc: Global, line: &[u8]) -> Result<Vec<u32>, NoMemory>
    ensures { IfOk result (λ numbers. numbers.items ≡ numbers_on line.now) }
{
    let words = words_of(alloc, line)?;
    numbers_of(alloc, &words)
}
