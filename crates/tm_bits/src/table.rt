// Lookup tables: the value of a function on each row of its inputs, as the bits of four words.

ghost use Rattle.std.specs.Prelude.{◌≡◌, ◌≢◌, ℕ, ◌+◌, ◌*◌, ◌/◌, ◌%◌, ◌^◌, ◌<◌, ◌≤◌, ◌==◌, nat_lt, length, take, IfOk, true};
ghost use Rattle.std.specs.Int.{bit_at};
ghost use Rattle.tm_bits.specs.declared.TheConstants.{MOST_K};
ghost use Rattle.tm_bits.specs.Rows.{HasWidth, holds};
ghost use Rattle.tm_bits.specs.Tables.{bit_of, bits_of, row_number, place_of, minterm, minterms, IsClear, IsTableOf, AreValuesAt};

use crate::MOST_K;
use crate::cover::{Cover, Row};
use crate::memory::NoMemory;
use std::alloc::Global;

/// A function of up to 8 inputs by its value on each row.
/// Row number `r` gives the first input the most significant bit of `r`; the value there is bit `r mod 64` of word `r / 64`.
#[derive(Clone, Copy, Debug, PartialEq, Eq)]
pub struct Table {
    pub inputs: u8,
    pub words: [u64; 4],
    pub ghost few: { inputs ≤ MOST_K },
    pub ghost clear: { IsClear inputs words },
}

/// The bits that a row gives to so many inputs, first the most significant bit of its number.
pub fn row_bits(inputs: u8, row: u64) -> [bool; MOST_K as usize]
    requires { inputs ≤ MOST_K }
    ensures bits { take inputs result ≡ bits_of inputs row }
    ensures number { row < 2 ^ inputs → row_number (bits_of inputs row) ≡ row }
{
    let mut bits = [false; MOST_K as usize];
    for place in 0..inputs {
        bits[place as usize] = (row >> (inputs - 1 - place)) & 1 == 1;
    }
    bits
}

/// The number of the row that gives these bits.
pub fn row_number(bits: &[bool]) -> u64
    requires { length bits.now ≤ MOST_K }
    ensures number { result ≡ row_number bits.now }
    ensures below { result < 2 ^ length bits.now }
    ensures bits { bits_of (length bits.now) result ≡ bits.now }
{
    let mut row = 0;
    for bit in bits {
        row = 2 * row + if *bit { 1 } else { 0 };
    }
    row
}

/// The word with this bit at a place.
fn with_bit(word: u64, place: u64, value: bool) -> u64
    requires { place < 64 }
    ensures same { (bit_at result place == 1) ≡ value }
    ensures others { (other : ℕ) → other < 64 → other ≢ place → bit_at result other ≡ bit_at word other }
{
    let mask = 1 << place;
    if value { word | mask } else { word & !mask }
}

/// One of the four words of the table that is 1 on its first rows, so many, and 0 after them.
fn ones_word(rows: u64, index: u64) -> u64
    requires { index < 4 }
    ensures { (place : ℕ) → place < 64 → (bit_at result place == 1) ≡ nat_lt (64 * index + place) rows }
{
    let here = rows.saturating_sub(64 * index).min(64);
    if here == 0 {
        0
    } else {
        u64::MAX >> (64 - here)
    }
}

/// The words that are 1 on the first rows, so many.
fn first_rows(rows: u64) -> [u64; 4]
    requires { rows ≤ 256 }
    ensures { (row : ℕ) → bit_of result row ≡ nat_lt row rows }
{
    [
        ones_word(rows, 0),
        ones_word(rows, 1),
        ones_word(rows, 2),
        ones_word(rows, 3),
    ]
}

/// The row of a cover that agrees with the bits of one row of a table alone.
fn minterm(alloc: Global, inputs: u8, row: u64) -> Result<Row, NoMemory>
    requires { inputs ≤ MOST_K }
    ensures { IfOk result (λ made. made ≡ minterm inputs row) }
{
    let bits = row_bits(inputs, row);
    Row::of_bits(alloc, &bits[..inputs as usize])
}

impl Table {
    /// The value on a row.
    pub fn bit(&self, row: u64) -> bool
        requires { row < 2 ^ self.now.inputs }
        ensures { result ≡ bit_of self.now.words row }
    {
        (self.words[(row / 64) as usize] >> (row % 64)) & 1 == 1
    }

    /// The table with one value on each row.
    pub fn constant(inputs: u8, value: bool) -> Self
        requires { inputs ≤ MOST_K }
        ensures inputs { result.inputs ≡ inputs }
        ensures values { (row : ℕ) → row < 2 ^ inputs → bit_of result.words row ≡ value }
    {
        let rows = if value { 1 << inputs } else { 0 };
        let words = first_rows(rows);
        Table { inputs, words }
    }

    /// Writes the value on a row.
    pub fn set(&mut self, row: u64, value: bool)
        requires { row < 2 ^ self.old.inputs }
        ensures inputs { self.new.inputs ≡ self.old.inputs }
        ensures same { bit_of self.new.words row ≡ value }
        ensures others { (other : ℕ) → other ≢ row → bit_of self.new.words other ≡ bit_of self.old.words other }
    {
        let index = (row / 64) as usize;
        self.words[index] = with_bit(self.words[index], row % 64, value);
    }

    /// The on cover with a row without `Any` for each row of value 1, in ascending order.
    pub fn cover(&self, alloc: Global) -> Result<Cover, NoMemory>
        ensures rows { IfOk result (λ cover. cover ≡ record { on = true; rows = minterms self.now.inputs self.now.words }) }
        ensures values { IfOk result (λ cover. IsTableOf (holds cover) self.now.inputs self.now.words) }
        ensures at_bits { IfOk result (λ cover. AreValuesAt (holds cover) self.now.inputs self.now.words) }
        ensures width { IfOk result (λ cover. HasWidth cover self.now.inputs) }
    {
        let mut rows = Vec::new(alloc);
        for row in 0..1u64 << self.inputs {
            if self.bit(row) {
                rows.push(minterm(alloc, self.inputs, row)?)?;
            }
        }
        Ok(Cover::of_rows(rows))
    }
}
