// The first line of a text.

ghost use Rattle.std.specs.Prelude.{◌≡◌, ◌+◌, ◌≤◌, ◌<◌, ◌^◌, Bool, None, length, map, drop, IfOk, IfErr, OnOk};
ghost use Rattle.aiger_read.specs.Header as spelled;
ghost use Rattle.aiger_read.specs.Header.{header_numbers, header_in, has_bad_variables, asks_more, fault_in_header, counted};
ghost use Rattle.aiger_read.specs.Symbols.{slot_count};
ghost use Rattle.aiger_read.specs.Steps.{texts, IsFaultOn};

use crate::fault::{AigerFault, AigerKind, at};
use crate::lines::{numbers_of, words_of};
use std::alloc::Global;
use tm_bits::NoMemory;

/// The greatest number of variables.
const MOST_VARIABLES: u32 = 2_147_483_646;

/// How many variables there may be, and how many lines of each kind are counted.
#[derive(Clone, Copy)]
pub struct Header {
    pub variables: u32,
    pub inputs: u32,
    pub latches: u32,
    pub outputs: u32,
    pub ands: u32,
}

impl Header {
    /// How many lines are counted.
    pub fn counted(&self) -> u64
        ensures { result ≡ counted self.now }
    {
        u64::from(self.inputs)
            + u64::from(self.latches)
            + u64::from(self.outputs)
            + u64::from(self.ands)
    }

    /// How many inputs, outputs and latches may be named.
    pub fn slots(&self) -> u64
        ensures { result ≡ slot_count self.now }
    {
        u64::from(self.inputs) + u64::from(self.outputs) + u64::from(self.latches)
    }

    /// Whether there are too many variables, or too few for what they stand for.
    fn has_bad_variables(&self) -> bool
        ensures { result ≡ has_bad_variables self.now }
    {
        let used = u64::from(self.inputs) + u64::from(self.latches) + u64::from(self.ands);
        self.variables > MOST_VARIABLES || u64::from(self.variables) < used
    }
}

/// The numbers behind the word `aag`; none where the line is not of that form.
#[tactic(auto, unfolding(crate::specs::Header::header_numbers))]
fn header_numbers(alloc: Global, line: &[u8]) -> Result<Vec<u32>, NoMemory>
    ensures { IfOk result (λ numbers. numbers.items ≡ header_numbers line.now) }
{
    let words = words_of(alloc, line)?;
    match words.as_slice() {
        [first, rest @ ..] if *first == b"aag".as_slice() => numbers_of(alloc, rest),
        _ => Ok(Vec::new(alloc)),
    }
}

/// Whether a section is asked for that is left out here.
fn asks_more(numbers: &[u32]) -> bool
    ensures { result ≡ asks_more numbers.now }
{
    numbers.iter().skip(5).any(|number| *number != 0)
}

/// The counts that the first line of a text tells.
#[tactic(auto, unfolding(crate::specs::Header::fault_in_header))]
pub fn header_on(alloc: Global, line: &[u8]) -> Result<Header, AigerFault>
    ensures header { IfOk result (λ h. h ≡ header_in (header_numbers line.now)) }
    ensures lawful { OnOk result (fault_in_header (header_numbers line.now) ≡ None) }
    ensures fault { IfErr result (λ e. IsFaultOn e 1 (fault_in_header (header_numbers line.now))) }
{
    let numbers = header_numbers(alloc, line)?;
    if numbers.len() < 5 || numbers.len() > 9 {
        return Err(at(1, AigerKind::BadHeader));
    }
    let header = Header {
        variables: numbers[0],
        inputs: numbers[1],
        latches: numbers[2],
        outputs: numbers[3],
        ands: numbers[4],
    };
    if header.has_bad_variables() {
        return Err(at(1, AigerKind::BadHeader));
    }
    if asks_more(&numbers) {
        return Err(at(1, AigerKind::LeftOut));
    }
    Ok(header)
}
