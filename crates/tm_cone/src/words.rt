// Bits on 256 rows at once, in four words as a table has them: the bit of row `r` is bit `r mod 64` of word `r / 64`. They are
// kept in arrays, and worked on as the lanes of a vector.

ghost use Rattle.std.specs.Prelude.{◌≡◌, ℕ, ◌-◌, ◌^◌, ◌<◌, ◌≤◌, ◌==◌, ◌&&◌, ◌||◌, not, false, true};
ghost use Rattle.std.specs.Int.{bit_at};
ghost use Rattle.tm_bits.specs.Limits.{most_inputs};
ghost use Rattle.tm_bits.specs.Tables.{bit_of};
ghost use Rattle.tm_cone.specs.Values.{HaveBits};

use std::simd::u64x4;
use tm_bits::Table;

/// The bits of a node on 256 rows, as they are kept.
pub type Words = [u64; 4];

/// The same, as they are worked on.
pub type Lanes = u64x4;

/// The bit 0 on all rows.
pub fn zeros() -> Lanes
    ensures { HaveBits result (λ row. false) }
{
    Lanes::splat(0)
}

/// The bit 1 on all rows.
pub fn ones() -> Lanes
    ensures { HaveBits result (λ row. true) }
{
    Lanes::splat(u64::MAX)
}

/// Both bits.
pub fn both(one: Lanes, other: Lanes) -> Lanes
    ensures { HaveBits result (λ row. bit_of one row && bit_of other row) }
{
    one & other
}

/// Either bit.
pub fn either(one: Lanes, other: Lanes) -> Lanes
    ensures { HaveBits result (λ row. bit_of one row || bit_of other row) }
{
    one | other
}

/// The other bit.
pub fn turned(lanes: Lanes) -> Lanes
    ensures { HaveBits result (λ row. not (bit_of lanes row)) }
{
    !lanes
}

/// The bits of a place of the row's number, the lowest being place 0.
pub fn place_words(place: u8) -> Words
    requires { place < most_inputs }
    ensures { HaveBits result (λ row. bit_at row place == 1) }
{
    match place {
        0 => [0xAAAA_AAAA_AAAA_AAAA; 4],
        1 => [0xCCCC_CCCC_CCCC_CCCC; 4],
        2 => [0xF0F0_F0F0_F0F0_F0F0; 4],
        3 => [0xFF00_FF00_FF00_FF00; 4],
        4 => [0xFFFF_0000_FFFF_0000; 4],
        5 => [0xFFFF_FFFF_0000_0000; 4],
        6 => [0, u64::MAX, 0, u64::MAX],
        _ => [0, 0, u64::MAX, u64::MAX],
    }
}

/// The table that has these bits on its rows, and 0 past them.
pub fn table_with(inputs: u8, words: &Words) -> Table
    requires { inputs ≤ most_inputs }
    ensures inputs { result.inputs ≡ inputs }
    ensures values { (row : ℕ) → row < 2 ^ inputs → bit_of result.words row ≡ bit_of words.now row }
{
    let rows = Table::constant(inputs, true);
    let lanes = both(Lanes::from_array(*words), Lanes::from_array(rows.words));
    Table {
        inputs,
        words: lanes.to_array(),
    }
}
