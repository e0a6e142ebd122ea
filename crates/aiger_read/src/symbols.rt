// The lines behind the counted ones: names that symbols give.

ghost use Rattle.std.specs.Prelude.{◌≡◌, ◌+◌, ◌<◌, ◌≤◌, ◌^◌, Bool, true, false, None, Some, [], ◌∷◌, length, drop, take, replicate, filter_map, slice_set, slice_index_or, position, option_map, is_some, IfOk, IfErr, IfSome, IfNone, OnOk};
ghost use Rattle.std.specs.List.{position_or_len};
ghost use Rattle.aiger_read.specs.Lines.{is_blank, line_at};
ghost use Rattle.aiger_read.specs.Header.{counted, header_of};
ghost use Rattle.aiger_read.specs.Symbols as spelled;
ghost use Rattle.aiger_read.specs.Symbols.{slot_count, slot_of, symbol_parted, symbol_in, symbol_lines, names_given, with_symbol, fault_in_symbol, is_comment};
ghost use Rattle.aiger_read.specs.Faults.{IsFirstFault, AreLawful};
ghost use Rattle.aiger_read.specs.Text.{OnText};
ghost use Rattle.aiger_read.specs.Steps.{texts, maybe_texts, IsFaultOn, IsLawfulTo};

use crate::fault::{AigerFault, AigerKind, at};
use crate::header::Header;
use crate::lines::number;
use std::alloc::Global;
use tm_bits::NoMemory;

/// The number, among the inputs, then the outputs, then the latches, of what a letter and a place name.
fn slot_of(header: &Header, letter: u8, place: u32) -> Option<u64>
    ensures { result ≡ slot_of header.now letter place }
{
    let (first, count) = match letter {
        b'i' => (0, header.inputs),
        b'o' => (u64::from(header.inputs), header.outputs),
        b'l' => (
            u64::from(header.inputs) + u64::from(header.outputs),
            header.latches,
        ),
        _ => return None,
    };
    if place < count {
        Some(first + u64::from(place))
    } else {
        None
    }
}

/// Where a line has its first blank.
fn blank_in(line: &[u8]) -> Option<usize>
    ensures place { result ≡ position is_blank line.now }
    ensures within { IfSome result (λ k. k < length line.now) }
{
    line.iter().position(|byte| *byte == b' ')
}

/// The symbol that a letter and the bytes behind it spell.
fn symbol_parted<'a>(header: &Header, letter: u8, rest: &'a [u8]) -> Option<(u64, &'a [u8])>
    ensures some { IfSome result (λ s. symbol_parted header.now letter rest.now (position is_blank rest.now) ≡ Some (s.0, s.1.now)) }
    ensures none { IfNone result (symbol_parted header.now letter rest.now (position is_blank rest.now) ≡ None) }
    ensures within { IfSome result (λ s. s.0 < slot_count header.now) }
{
    let blank = blank_in(rest)?;
    let place = number(&rest[..blank])?;
    let slot = slot_of(header, letter, place)?;
    Some((slot, &rest[blank + 1..]))
}

/// The symbol of a line: the number of what it names, and the name.
#[tactic(auto, unfolding(crate::specs::Symbols::symbol_in))]
fn symbol_in<'a>(header: &Header, line: &'a [u8]) -> Option<(u64, &'a [u8])>
    ensures some { IfSome result (λ s. symbol_in header.now line.now ≡ Some (s.0, s.1.now)) }
    ensures none { IfNone result (symbol_in header.now line.now ≡ None) }
    ensures within { IfSome result (λ s. s.0 < slot_count header.now) }
{
    let [letter, rest @ ..] = line else {
        return None;
    };
    symbol_parted(header, *letter, rest)
}

/// Puts the name that a line gives in its place, or tells the fault of the line. An empty line gives none.
#[tactic(auto, unfolding(crate::specs::Symbols::fault_in_symbol))]
fn name_on<'a>(
    header: &Header,
    line: u32,
    text: &'a [u8],
    names: &mut Vec<Option<&'a [u8]>>,
) -> Result<(), AigerFault>
    requires { length names.old.items ≡ slot_count header.now }
    ensures sized { length names.new.items ≡ length names.old.items }
    ensures lawful { OnOk result (fault_in_symbol header.now (maybe_texts names.old.items) text.now ≡ None) }
    ensures names { OnOk result (maybe_texts names.new.items
        ≡ with_symbol (maybe_texts names.old.items) (symbol_in header.now text.now)) }
    ensures fault { IfErr result (λ e. IsFaultOn e line (fault_in_symbol header.now (maybe_texts names.old.items) text.now)) }
{
    if text.is_empty() {
        return Ok(());
    }
    let Some((slot, name)) = symbol_in(header, text) else {
        return Err(at(line, AigerKind::BadSymbol));
    };
    if names[slot as usize].is_some() {
        return Err(at(line, AigerKind::BadSymbol));
    }
    names[slot as usize] = Some(name);
    Ok(())
}

/// No names, for so many that may have one.
#[tactic(auto, using(std::proofs::lemmas::List::replicate_more, crate::proofs::StepLemmas::none_more))]
fn no_names<'a>(alloc: Global, count: u64) -> Result<Vec<Option<&'a [u8]>>, NoMemory>
    ensures names { IfOk result (λ names. maybe_texts names.items ≡ replicate count None) }
    ensures sized { IfOk result (λ names. length names.items ≡ count) }
{
    let mut names = Vec::new(alloc);
    for _slot in 0..count {
        names.push(None)?;
    }
    Ok(names)
}

/// Whether a line is the one behind which comments stand.
fn is_comment(line: &[u8]) -> bool
    ensures { result ≡ is_comment line.now }
{
    line == b"c".as_slice()
}

/// The first line `c`.
fn comment_in(lines: &[&[u8]]) -> Option<usize>
    ensures place { result ≡ position (λ line. is_comment line.now) lines.now }
    ensures within { IfSome result (λ k. k < length lines.now) }
{
    lines.iter().position(|line| is_comment(line))
}

/// How many lines come before a line `c`.
#[tactic(auto, using(crate::proofs::StepLemmas::found_or_length))]
fn symbol_count(lines: &[&[u8]]) -> usize
    ensures count { result ≡ position_or_len (λ line. is_comment line.now) lines.now }
    ensures within { result ≤ length lines.now }
{
    comment_in(lines).unwrap_or(lines.len())
}

/// The names that the symbols behind the counted lines give, or the first fault among them.
pub fn names_on<'a>(
    alloc: Global,
    lines: &[&'a [u8]],
    header: &Header,
) -> Result<Vec<Option<&'a [u8]>>, AigerFault>
    requires few { length lines.now + 1 < 2 ^ 32 }
    requires header { header.now ≡ header_of (texts lines.now) }
    requires within { counted header.now < length lines.now }
    requires lawful { IsLawfulTo (texts lines.now) (1 + counted header.now) }
    ensures lawful { OnOk result (AreLawful (texts lines.now)) }
    ensures names { IfOk result (λ names. maybe_texts names.items ≡ names_given header.now (symbol_lines header.now (texts lines.now))) }
    ensures sized { IfOk result (λ names. length names.items ≡ slot_count header.now) }
    ensures fault { IfErr result (λ e. OnText e (IsFirstFault (texts lines.now))) }
{
    let first = header.counted() as usize + 1;
    let many = symbol_count(&lines[first..]);
    let mut names = no_names(alloc, header.slots())?;
    for k in 0..many {
        let place = first + k;
        name_on(header, place as u32 + 1, lines[place], &mut names)?;
    }
    Ok(names)
}
