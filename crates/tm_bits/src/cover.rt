// Covers by rows, after the rows of a `.names` in BLIF.

ghost use Rattle.std.specs.Prelude.{◌≡◌, ◌↔◌, ◌≤◌, ℕ, length, All, IsTrue, SomeIff, IfOk, map, true};
ghost use Rattle.std.specs.List.{list_any};
ghost use Rattle.tm_bits.specs.Rows.{AreEven, IsEven, HasWidth, agrees_at, holds, row_agrees};
ghost use Rattle.tm_bits.specs.Tables.{IsTableOf, AreValuesAt, place_of};

use crate::MOST_K;
use crate::memory::NoMemory;
use crate::table::{Table, row_bits};
use std::alloc::{AllocError, Global};
use std::marker::Model;

/// What a row asks of one pin.
#[derive(Clone, Copy, Debug, PartialEq, Eq)]
pub enum Place {
    /// The bit is 0.
    Zero,
    /// The bit is 1.
    One,
    /// Either bit, a `-` in BLIF.
    Any,
}

impl Place {
    /// The place that asks for just this bit.
    pub fn of(bit: bool) -> Self
        ensures { result ≡ place_of bit }
    {
        if bit { Place::One } else { Place::Zero }
    }

    /// Whether this place allows the bit.
    fn agrees(self, bit: bool) -> bool
        ensures { result ≡ agrees_at self bit }
    {
        match self {
            Place::Zero => !bit,
            Place::One => bit,
            Place::Any => true,
        }
    }
}

/// The places that ask for just these bits.
fn exact_places(alloc: Global, bits: &[bool]) -> Result<Vec<Place>, AllocError>
    ensures { IfOk result (λ places. places.items ≡ map place_of bits.now) }
{
    bits.iter().map(|bit| Place::of(*bit)).collect(alloc)
}

/// One row of a cover: a place for each pin, in order.
#[derive(Debug, Drop)]
pub struct Row {
    places: Vec<Place>,
}

impl Model for Row {
    ghost use Rattle.std.specs.Prelude.{List};
    ghost use Rattle.tm_bits.specs.declared.cover.Place.{Place};

    ghost Value = { List Place };

    ghost view = { λ r. r.places.items };
}

impl Row {
    /// The row with these places.
    pub fn new(places: Vec<Place>) -> Self
        ensures { result ≡ places.items }
    {
        Row { places }
    }

    /// The row that agrees with these bits alone.
    pub fn of_bits(alloc: Global, bits: &[bool]) -> Result<Self, NoMemory>
        ensures { IfOk result (λ row. row ≡ map place_of bits.now) }
    {
        Ok(Row::new(exact_places(alloc, bits)?))
    }

    /// The places, in the order of the pins.
    pub fn places(&self) -> &[Place]
        ensures { result.now ≡ self.now }
    {
        &self.places
    }

    /// A copy of the row.
    pub fn try_clone(&self, alloc: Global) -> Result<Self, NoMemory>
        ensures { IfOk result (λ copy. copy ≡ self.now) }
    {
        Ok(Row::new(Vec::from_slice(alloc, self.places())?))
    }
}

/// A function of bits by rows: an on cover holds where some row agrees, an off cover where none does.
#[derive(Debug, Drop)]
pub struct Cover {
    on: bool,
    rows: Vec<Row>,
}

impl Model for Cover {
    ghost use Rattle.tm_bits.specs.Rows.{Rows, IsEven};

    ghost Value = { Rows };

    ghost view = { λ c. record { on = c.on; rows = c.rows.items } };

    ghost invariant = { λ c. IsEven (record { on = c.on; rows = c.rows.items }) };
}

/// Whether each row has so many places.
fn have_width(rows: &[Row], width: usize) -> bool
    ensures { IsTrue result ↔ All (λ row. length row ≡ width) rows.now }
{
    rows.iter().all(|row| row.places().len() == width)
}

/// Whether no two rows differ in length.
fn are_even(rows: &[Row]) -> bool
    ensures { IsTrue result ↔ AreEven rows.now }
{
    match rows {
        [] => true,
        [first, ..] => have_width(rows, first.places().len()),
    }
}

/// Whether the row agrees with the bits, place by place.
fn row_agrees(row: &Row, bits: &[bool]) -> bool
    ensures { result ≡ row_agrees row.now bits.now }
{
    row.places()
        .iter()
        .zip(bits)
        .all(|(place, bit)| place.agrees(*bit))
}

/// Whether some row agrees with the bits.
fn some_row_agrees(rows: &[Row], bits: &[bool]) -> bool
    ensures { result ≡ list_any (λ row. row_agrees row bits.now) rows.now }
{
    rows.iter().any(|row| row_agrees(row, bits))
}

/// Copies of the rows, in order.
fn copied_rows(alloc: Global, rows: &[Row]) -> Result<Vec<Row>, NoMemory>
    ensures { IfOk result (λ copies. copies.items ≡ rows.now) }
{
    let mut copies = Vec::new(alloc);
    for row in rows {
        copies.push(row.try_clone(alloc)?)?;
    }
    Ok(copies)
}

impl Cover {
    /// The cover of these rows. `None` exactly where two rows differ in length, or an off cover has no row.
    pub fn new(on: bool, rows: Vec<Row>) -> Option<Self>
        ensures { SomeIff result (IsEven (record { on = on; rows = rows.items })) (record { on = on; rows = rows.items }) }
    {
        if !on && rows.is_empty() {
            return None;
        }
        if are_even(&rows) {
            Some(Cover { on, rows })
        } else {
            None
        }
    }

    /// The on cover of these rows.
    pub(crate) fn of_rows(rows: Vec<Row>) -> Self
        requires { AreEven rows.items }
        ensures { result ≡ record { on = true; rows = rows.items } }
    {
        Cover { on: true, rows }
    }

    /// Whether the rows list where the value is 1; else they list where it is 0.
    pub fn on(&self) -> bool
        ensures { result ≡ self.now.on }
    {
        self.on
    }

    /// The rows, in order.
    pub fn rows(&self) -> &[Row]
        ensures rows { result.now ≡ self.now.rows }
        ensures even { IsEven self.now }
    {
        &self.rows
    }

    /// The value of the cover where its pins have these bits.
    pub fn holds(&self, bits: &[bool]) -> bool
        requires { HasWidth self.now (length bits.now) }
        ensures { result ≡ holds self.now bits.now }
    {
        some_row_agrees(&self.rows, bits) == self.on
    }

    /// The value of the cover on each row of so many inputs.
    pub fn table(&self, inputs: u8) -> Table
        requires few { inputs ≤ MOST_K }
        requires width { HasWidth self.now inputs }
        ensures inputs { result.inputs ≡ inputs }
        ensures values { IsTableOf (holds self.now) inputs result.words }
        ensures at_bits { AreValuesAt (holds self.now) inputs result.words }
    {
        let mut table = Table::constant(inputs, false);
        for row in 0..1u64 << inputs {
            let bits = row_bits(inputs, row);
            table.set(row, self.holds(&bits[..inputs as usize]));
        }
        table
    }

    /// A copy of the cover.
    pub fn try_clone(&self, alloc: Global) -> Result<Self, NoMemory>
        ensures { IfOk result (λ copy. copy ≡ self.now) }
    {
        let rows = copied_rows(alloc, &self.rows)?;
        Ok(Cover { on: self.on, rows })
    }
}
