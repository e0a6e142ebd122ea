// The values that single words spell: numbers, leaves and walks. A word that is none is a fault of its line.

ghost use Rattle.std.specs.Prelude.{◌≡◌, ◌^◌, ◌<◌, ◌≤◌, true, false, map, length, IfOk, IfErr, IfSome, IfNone};
ghost use Rattle.std.specs.List.{before_first, after_first, position_or_len, list_all};
ghost use Rattle.tm_flow.specs.Lists.{lists_in};
ghost use Rattle.std.specs.Str.{all_ascii_digits};
ghost use Rattle.cert_text.specs.Limits.{most_number, most_steps};
ghost use Rattle.cert_text.specs.Words as spelled;
ghost use Rattle.cert_text.specs.Words.{is_number, number_in, has_leading_zero, is_dot, is_leaf, leaf_in, is_walk, walk_in};
ghost use Rattle.cert_text.specs.Steps.{Refuses};

use crate::fault::{CertFault, CertKind, at};
use smallvec::SmallVec;
use std::alloc::Global;
use tm_bits::MOST_K;
use tm_circuit::Signal;
use tm_unroll::Node;

/// Whether a word begins with a zero that other digits follow.
fn has_leading_zero(word: &[u8]) -> bool
    ensures { result ≡ has_leading_zero word.now }
{
    word.len() > 1 && word[0] == b'0'
}

/// The number that digits spell, up to the greatest of 64 bits.
fn digits(word: &[u8]) -> Option<u64>
    ensures some { IfSome result (λ n. (all_ascii_digits word.now ≡ true) × (n ≡ number_in word.now)) }
    ensures none { IfNone result ((all_ascii_digits word.now ≡ true) → 2 ^ 64 ≤ number_in word.now) }
{
    let mut value: u64 = 0;
    for byte in word {
        if !byte.is_ascii_digit() {
            return None;
        }
        value = value.checked_mul(10)?.checked_add(u64::from(*byte - b'0'))?;
    }
    Some(value)
}

/// The number that a word on a line spells, up to a bound.
pub fn number(line: u32, word: &[u8], most: u64) -> Result<u64, CertFault>
    ensures told { IfOk result (λ n. (is_number most word.now ≡ true) × (n ≡ number_in word.now)) }
    ensures within { IfOk result (λ n. n ≤ most) }
    ensures fault { IfErr result (Refuses line (is_number most word.now)) }
{
    if word.is_empty() || has_leading_zero(word) {
        return Err(at(line, CertKind::Number));
    }
    match digits(word) {
        Some(value) if value <= most => Ok(value),
        _ => Err(at(line, CertKind::Number)),
    }
}

/// The number of 32 bits that a word on a line spells.
pub fn number_u32(line: u32, word: &[u8]) -> Result<u32, CertFault>
    ensures told { IfOk result (λ n. (is_number most_number word.now ≡ true) × (n ≡ number_in word.now)) }
    ensures fault { IfErr result (Refuses line (is_number most_number word.now)) }
{
    Ok(number(line, word, u64::from(u32::MAX))? as u32)
}

/// The signal that a word on a line spells.
pub fn signal(line: u32, word: &[u8]) -> Result<Signal, CertFault>
    ensures told { IfOk result (λ s. (is_number most_number word.now ≡ true) × (s ≡ number_in word.now)) }
    ensures fault { IfErr result (Refuses line (is_number most_number word.now)) }
{
    Ok(Signal(number_u32(line, word)?))
}

/// The steps that a word on a line spells, as a lag or an advance.
pub fn steps(line: u32, word: &[u8]) -> Result<u8, CertFault>
    ensures told { IfOk result (λ n. (is_number most_steps word.now ≡ true) × (n ≡ number_in word.now)) }
    ensures fault { IfErr result (Refuses line (is_number most_steps word.now)) }
{
    Ok(number(line, word, u64::from(u8::MAX))? as u8)
}

/// The bytes of a word before its first dot, and those after it; all of them and none, where there is no dot.
fn cut_at_dot(word: &[u8]) -> (&[u8], &[u8])
    ensures before { result.0.now ≡ before_first is_dot word.now }
    ensures after { result.1.now ≡ after_first is_dot word.now }
{
    let end = dot_place(word);
    let next = word.len().min(end + 1);
    (&word[..end], &word[next..])
}

/// Where a word has its first dot, or its length where it has none.
fn dot_place(word: &[u8]) -> usize
    ensures place { result ≡ position_or_len is_dot word.now }
    ensures inside { result ≤ length word.now }
{
    word.iter()
        .position(|byte| *byte == b'.')
        .unwrap_or(word.len())
}

/// The leaf that a word on a line spells.
#[tactic(auto, unfolding(crate::specs::Words::is_leaf))]
pub fn leaf(line: u32, word: &[u8]) -> Result<Node, CertFault>
    ensures told { IfOk result (λ x. (is_leaf word.now ≡ true) × (x ≡ leaf_in word.now)) }
    ensures fault { IfErr result (Refuses line (is_leaf word.now)) }
{
    let (before, after) = cut_at_dot(word);
    let signal = signal(line, before)?;
    let advance = steps(line, after)?;
    Ok(Node { signal, advance })
}

/// The leaves that words on a line spell.
pub fn leaves(alloc: Global, line: u32, words: &[&[u8]]) -> Result<SmallVec<Node, 8>, CertFault>
    ensures told { IfOk result (λ leaves. (list_all is_leaf (map (λ w. w.now) words.now) ≡ true)
        × (leaves.items ≡ map leaf_in (map (λ w. w.now) words.now))) }
    ensures fault { IfErr result (Refuses line (list_all is_leaf (map (λ w. w.now) words.now))) }
{
    let mut leaves = SmallVec::new(alloc);
    for word in words {
        leaves.push(leaf(line, word)?)?;
    }
    Ok(leaves)
}

/// Whether a byte is an index of a pin.
fn is_index(byte: u8) -> bool
    ensures { result ≡ spelled.is_index byte }
{
    (b'0'..b'0' + MOST_K).contains(&byte)
}

/// The walk that a word on a line spells.
#[tactic(auto, unfolding(crate::specs::Words::is_walk))]
fn walk(alloc: Global, line: u32, word: &[u8]) -> Result<Vec<u8>, CertFault>
    ensures told { IfOk result (λ walk. (is_walk word.now ≡ true) × (walk.items ≡ walk_in word.now)) }
    ensures fault { IfErr result (Refuses line (is_walk word.now)) }
{
    let mut indices = Vec::with_capacity(alloc, word.len())?;
    for byte in word {
        if !is_index(*byte) {
            return Err(at(line, CertKind::Number));
        }
        indices.push(*byte - b'0')?;
    }
    Ok(indices)
}

/// The walks that words on a line spell.
pub fn walks(alloc: Global, line: u32, words: &[&[u8]]) -> Result<Vec<Vec<u8>>, CertFault>
    ensures told { IfOk result (λ walks. (list_all is_walk (map (λ w. w.now) words.now) ≡ true)
        × (lists_in walks.items ≡ map walk_in (map (λ w. w.now) words.now))) }
    ensures fault { IfErr result (Refuses line (list_all is_walk (map (λ w. w.now) words.now))) }
{
    let mut walks = Vec::with_capacity(alloc, words.len())?;
    for word in words {
        walks.push(walk(alloc, line, word)?)?;
    }
    Ok(walks)
}
