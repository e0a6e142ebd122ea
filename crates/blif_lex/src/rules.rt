// Which lines are kept, and what is wrong with one.

ghost use Rattle.std.specs.Prelude.{◌≡◌, map, nat_lt, length};
ghost use Rattle.std.specs.List.{list_any};
ghost use Rattle.blif_lex.specs.Words as words;

use crate::bytes::is_plain;
use crate::cuts::cut_at;
use crate::fault::LexKind;

/// Whether a line that begins with this word is skipped.
fn is_skipped(word: &[u8]) -> bool
    ensures { result ≡ words.is_skipped word.now }
{
    word == b".attr".as_slice() || word == b".param".as_slice() || word == b".cname".as_slice()
}

/// Whether a line with these words is kept: it has a word, and is not skipped.
pub fn is_kept(line: &[&[u8]]) -> bool
    ensures { result ≡ words.is_kept (map (λ w. w.now) line.now) }
{
    match line.first() {
        Some(first) => !is_skipped(first),
        None => false,
    }
}

/// Whether the line places a model.
fn places_model(line: &[&[u8]]) -> bool
    ensures { result ≡ words.places_model (map (λ w. w.now) line.now) }
{
    match line.first() {
        Some(first) => *first == b".subckt".as_slice(),
        None => false,
    }
}

/// Whether a byte of the word may not stand in one.
fn has_bad_byte(word: &[u8]) -> bool
    ensures { result ≡ words.has_bad_byte word.now }
{
    word.iter().any(|byte| !is_plain(*byte))
}

/// Whether one of the words is longer than `name`.
fn has_long_word(names: &[&[u8]], name: u32) -> bool
    ensures { result ≡ list_any (λ n. nat_lt name (length n)) (map (λ w. w.now) names.now) }
{
    names.iter().any(|word| word.len() > name as usize)
}

/// Whether a side of the binding is longer than `name`.
fn is_long_binding(word: &[u8], name: u32) -> bool
    ensures { result ≡ list_any (λ n. nat_lt name (length n)) (words.sides_of word.now) }
{
    let (formal, actual) = cut_at(b'=', word);
    formal.len() > name as usize || actual.len() > name as usize
}

/// Whether one of the bindings has a side that is longer than `name`.
fn has_long_binding(bound: &[&[u8]], name: u32) -> bool
    ensures { result ≡ list_any (λ w. list_any (λ n. nat_lt name (length n)) (words.sides_of w)) (map (λ w. w.now) bound.now) }
{
    bound.iter().any(|word| is_long_binding(word, name))
}

/// Whether a name in the line is longer than `name`.
fn has_long_name(line: &[&[u8]], name: u32, bindings: bool) -> bool
    ensures { result ≡ words.has_long_name name bindings (map (λ w. w.now) line.now) }
{
    if !bindings || !places_model(line) {
        return has_long_word(line, name);
    }
    let (names, bound) = line.split_at(line.len().min(2));
    has_long_word(names, name) || has_long_binding(bound, name)
}

/// Whether a word has a byte that may not stand in one.
fn has_bad_word(line: &[&[u8]]) -> bool
    ensures { result ≡ list_any words.has_bad_byte (map (λ w. w.now) line.now) }
{
    line.iter().any(|word| has_bad_byte(word))
}

/// What is wrong with a line that is kept.
#[tactic(auto, unfolding(crate::specs::Words::fault_in))]
pub fn fault_in(line: &[&[u8]], name: u32, bindings: bool) -> Option<LexKind>
    ensures { result ≡ words.fault_in name bindings (map (λ w. w.now) line.now) }
{
    if has_bad_word(line) {
        Some(LexKind::BadByte)
    } else if has_long_name(line, name, bindings) {
        Some(LexKind::LongName)
    } else {
        None
    }
}
