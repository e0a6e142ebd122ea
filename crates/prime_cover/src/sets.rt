// Sets of the rows of a table, as the bits of four words: row `r` is bit `r mod 64` of word `r / 64`, as in a table's words.

ghost use Rattle.std.specs.Prelude.{◌≡◌, ℕ, ◌<◌, ◌&&◌, ◌||◌, ◌==◌, not, true, false, MatchBool, length};
ghost use Rattle.std.specs.Int.{bit_at};
ghost use Rattle.tm_bits.specs.Rows.{agrees_at};
ghost use Rattle.tm_bits.specs.Tables.{bit_of};

use tm_bits::Place;

/// A set of rows of a table of up to 8 inputs.
pub(crate) type RowSet = [u64; 4];

/// For each bit of a row's number, the rows in whose number it is 1.
const ROWS_OF_BIT: [RowSet; 8] = [
    [0xAAAA_AAAA_AAAA_AAAA; 4],
    [0xCCCC_CCCC_CCCC_CCCC; 4],
    [0xF0F0_F0F0_F0F0_F0F0; 4],
    [0xFF00_FF00_FF00_FF00; 4],
    [0xFFFF_0000_FFFF_0000; 4],
    [0xFFFF_FFFF_0000_0000; 4],
    [0, u64::MAX, 0, u64::MAX],
    [0, 0, u64::MAX, u64::MAX],
];

/// The set without rows.
pub(crate) const NO_ROWS: RowSet = [0; 4];

/// Whether the set has the row.
pub(crate) fn contains(set: &RowSet, row: u64) -> bool
    requires { row < 256 }
    ensures { result ≡ bit_of set.now row }
{
    (set[(row / 64) as usize] >> (row % 64)) & 1 == 1
}

/// The rows of both sets.
pub(crate) fn intersection(set: &RowSet, other: &RowSet) -> RowSet
    ensures { (row : ℕ) → bit_of result row ≡ (bit_of set.now row && bit_of other.now row) }
{
    [
        set[0] & other[0],
        set[1] & other[1],
        set[2] & other[2],
        set[3] & other[3],
    ]
}

/// The rows of the set that the other one lacks.
pub(crate) fn difference(set: &RowSet, other: &RowSet) -> RowSet
    ensures { (row : ℕ) → bit_of result row ≡ (bit_of set.now row && not (bit_of other.now row)) }
{
    [
        set[0] & !other[0],
        set[1] & !other[1],
        set[2] & !other[2],
        set[3] & !other[3],
    ]
}

/// The rows of either set.
pub(crate) fn union(set: &RowSet, other: &RowSet) -> RowSet
    ensures { (row : ℕ) → bit_of result row ≡ (bit_of set.now row || bit_of other.now row) }
{
    [
        set[0] | other[0],
        set[1] | other[1],
        set[2] | other[2],
        set[3] | other[3],
    ]
}

/// Whether the set has no row.
fn is_empty(set: &RowSet) -> bool
    ensures { MatchBool result ((row : ℕ) → bit_of set.now row ≡ false) ((row : ℕ) × (bit_of set.now row ≡ true)) }
{
    set.iter().all(|word| *word == 0)
}

/// Whether each row of the set is in the other one.
pub(crate) fn is_within(set: &RowSet, other: &RowSet) -> bool
    ensures { MatchBool result ((row : ℕ) → bit_of set.now row ≡ true → bit_of other.now row ≡ true)
        ((row : ℕ) × (bit_of set.now row ≡ true) × (bit_of other.now row ≡ false)) }
{
    is_empty(&difference(set, other))
}

/// The rows in whose number a bit is 1.
fn rows_of_bit(bit: u8) -> RowSet
    requires { bit < 8 }
    ensures { (row : ℕ) → row < 256 → bit_of result row ≡ (bit_at row bit == 1) }
{
    ROWS_OF_BIT[bit as usize]
}

/// The rows of the set in whose number a bit is as the place asks.
pub(crate) fn where_bit(set: &RowSet, bit: u8, place: Place) -> RowSet
    requires { bit < 8 }
    ensures { (row : ℕ) → bit_of result row ≡ (bit_of set.now row && agrees_at place (bit_at row bit == 1)) }
{
    match place {
        Place::Zero => difference(set, &rows_of_bit(bit)),
        Place::One => intersection(set, &rows_of_bit(bit)),
        Place::Any => *set,
    }
}
