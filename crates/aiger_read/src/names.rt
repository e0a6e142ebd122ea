// The names of signals: those of symbols where they can be used, and made names elsewhere.

ghost use Rattle.std.specs.Prelude.{◌≡◌, ◌≤◌, ◌+◌, [], ◌∷◌, ◌++◌, Bool, map, length, unwrap_or, option_map, option_to_list, IfOk, OnOk};
ghost use Rattle.std.specs.List.{list_all};
ghost use Rattle.tm_circuit.specs.Plain.{greatest};
ghost use Rattle.tm_parts.specs.Runs.{longest_run as longest_run_of};
ghost use Rattle.aiger_read.specs.Names as spelled;
ghost use Rattle.aiger_read.specs.Names.{percent, is_name_byte, is_usable, used_one, used, run_in, joiner_for, made_name, names_from};
ghost use Rattle.aiger_read.specs.Steps.{maybe_texts};

use crate::seen::Seen;
use std::alloc::Global;
use tm_bits::NoMemory;
use tm_circuit::Name;

/// The longest run of `%` in a symbol's name that is used.
const LONGEST_RUN_USED: usize = 16;

/// Whether a byte may stand in the name of a signal.
fn is_name_byte(byte: u8) -> bool
    ensures { result ≡ is_name_byte byte }
{
    byte >= 33 && byte <= 126 && byte != b'#' && byte != b'\\'
}

/// Whether all bytes of a name may stand in one.
fn are_name_bytes(name: &[u8]) -> bool
    ensures { result ≡ list_all is_name_byte name.now }
{
    name.iter().all(|byte| is_name_byte(*byte))
}

/// The length of the longest run of `%`.
fn longest_run(name: &[u8]) -> usize
    ensures { result ≡ longest_run_of percent name.now }
{
    let mut run: usize = 0;
    let mut longest: usize = 0;
    for byte in name {
        run = if *byte == b'%' { run + 1 } else { 0 };
        longest = run.max(longest);
    }
    longest
}

/// Whether a name can be used where names have at most so many bytes.
#[tactic(auto, unfolding(crate::specs::Names::is_usable))]
fn is_usable(name: &[u8], most: u32) -> bool
    ensures { result ≡ is_usable most name.now }
{
    !name.is_empty()
        && name.len() <= most as usize
        && are_name_bytes(name)
        && longest_run(name) <= LONGEST_RUN_USED
}

/// The name, where it can be used and is not used before. It is then among those used.
fn used_name<'a>(
    name: Option<&'a [u8]>,
    most: u32,
    seen: &mut Seen<'a>,
) -> Result<Option<&'a [u8]>, NoMemory>
    ensures name { IfOk result (λ one. option_map (λ w. w.now) one ≡ used_one most seen.old (option_map (λ w. w.now) name.entry)) }
    ensures seen { OnOk result (seen.new ≡ seen.old ++ option_to_list (used_one most seen.old (option_map (λ w. w.now) name.entry))) }
{
    let Some(bytes) = name else {
        return Ok(None);
    };
    if is_usable(bytes, most) && seen.insert(bytes)? {
        Ok(Some(bytes))
    } else {
        Ok(None)
    }
}

/// The names that are used, of those that symbols give.
#[tactic(auto, unfolding(crate::specs::Names::used))]
pub fn used<'a>(
    alloc: Global,
    names: &[Option<&'a [u8]>],
    most: u32,
) -> Result<Vec<Option<&'a [u8]>>, NoMemory>
    ensures names { IfOk result (λ found. maybe_texts found.items ≡ used most (maybe_texts names.now)) }
    ensures sized { IfOk result (λ found. length found.items ≡ length names.now) }
{
    let mut seen = Seen::new(alloc);
    let mut found = Vec::new(alloc);
    for name in names {
        found.push(used_name(*name, most, &mut seen)?)?;
    }
    Ok(found)
}

/// The longest run of `%` in a name, 0 where there is none.
fn run_in(name: Option<&[u8]>) -> usize
    ensures { result ≡ run_in (option_map (λ w. w.now) name.entry) }
{
    match name {
        Some(name) => longest_run(name),
        None => 0,
    }
}

/// A run of `%` that is one longer than the longest in a name that is used.
#[tactic(auto, using(crate::proofs::StepLemmas::run_more, crate::proofs::StepLemmas::run_all, crate::proofs::StepLemmas::joiner_is))]
pub fn joiner(alloc: Global, names: &[Option<&[u8]>]) -> Result<Vec<u8>, NoMemory>
    requires { greatest (map run_in (maybe_texts names.now)) ≤ 16 }
    ensures { IfOk result (λ joiner. joiner.items ≡ joiner_for (maybe_texts names.now)) }
{
    let mut longest: usize = 0;
    for name in names {
        longest = run_in(*name).max(longest);
    }
    Ok(vec![in alloc; b'%'; longest + 1]?)
}

/// A made name.
pub fn made_name(alloc: Global, letter: u8, joiner: &[u8], number: usize) -> Result<Name, NoMemory>
    ensures { IfOk result (λ name. name ≡ made_name joiner.now letter number) }
{
    let mut bytes = vec![in alloc; letter]?;
    bytes.extend_from_slice(joiner)?;
    let digits = format!(in alloc; "{number}")?;
    bytes.extend_from_slice(digits.as_bytes())?;
    Ok(Name::new(bytes))
}

/// A name that is used, or else one made of a letter and a place.
pub fn name_or_made(
    alloc: Global,
    name: Option<&[u8]>,
    letter: u8,
    joiner: &[u8],
    place: usize,
) -> Result<Name, NoMemory>
    ensures { IfOk result (λ n. n ≡ unwrap_or (option_map (λ w. w.now) name.entry) (made_name joiner.now letter place)) }
{
    match name {
        Some(name) => Ok(Name::new(Vec::from_slice(alloc, name)?)),
        None => made_name(alloc, letter, joiner, place),
    }
}

/// Names from the first place on, made of a letter and the place where none is used.
pub fn names_from(
    alloc: Global,
    letter: u8,
    joiner: &[u8],
    names: &[Option<&[u8]>],
) -> Result<Vec<Name>, NoMemory>
    ensures { IfOk result (λ made. made.items ≡ names_from joiner.now letter 0 (maybe_texts names.now)) }
{
    let mut made = Vec::new(alloc);
    for (place, name) in names.iter().enumerate() {
        made.push(name_or_made(alloc, *name, letter, joiner, place)?)?;
    }
    Ok(made)
}
