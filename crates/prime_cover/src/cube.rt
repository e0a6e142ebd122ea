// Cubes: rows of a cover to be, each beside the set of rows of the table that it agrees with.

ghost use Rattle.std.specs.Prelude.{◌≡◌, ℕ, ◌<◌, ◌≤◌, ◌^◌, length, take, slice_set, true, IfOk};
ghost use Rattle.tm_bits.specs.declared.cover.Place.TheVariants.{Any};
ghost use Rattle.tm_bits.specs.declared.TheConstants.{MOST_K};
ghost use Rattle.tm_bits.specs.Tables.{minterm};
ghost use Rattle.prime_cover.specs.Primes.{place_rank};
ghost use Rattle.prime_cover.specs.Cubes.{IsSpanOf, order_from};

use crate::sets::{RowSet, where_bit};
use std::alloc::Global;
use tm_bits::{MOST_K, NoMemory, Place, Row, Table, row_bits};

/// A place for each of so many inputs; those past them count for nothing.
type Places = [Place; MOST_K as usize];

/// A row of a cover of a table, with the set of rows of the table that it agrees with, and a number that ascends as such rows do.
#[derive(Clone, Copy)]
pub(crate) struct Cube {
    pub inputs: u8,
    pub places: Places,
    pub rows: RowSet,
    pub order: u32,
    ghost few: { inputs ≤ MOST_K },
    ghost long: { length places ≡ MOST_K },
    ghost span: { IsSpanOf inputs (take inputs places) rows },
    ghost ordered: { order ≡ order_from 0 (take inputs places) },
}

/// The place of a place in their order.
fn rank_of(place: Place) -> u32
    ensures { result ≡ place_rank place }
{
    match place {
        Place::Zero => 0,
        Place::One => 1,
        Place::Any => 2,
    }
}

/// The number of the places in the order of rows of their length.
fn order_of(places: &[Place]) -> u32
    requires { length places.now ≤ MOST_K }
    ensures { result ≡ order_from 0 places.now }
{
    let mut order = 0;
    for place in places {
        order = 3 * order + rank_of(*place);
    }
    order
}

/// The rows of so many inputs whose bits the places agree with.
fn rows_of(inputs: u8, places: &[Place]) -> RowSet
    requires few { inputs ≤ MOST_K }
    requires width { length places.now ≡ inputs }
    ensures { IsSpanOf inputs places.now result }
{
    let mut rows = Table::constant(inputs, true).words;
    for index in 0..inputs {
        rows = where_bit(&rows, inputs - 1 - index, places[index as usize]);
    }
    rows
}

impl Cube {
    /// The cube of these places.
    fn new(inputs: u8, places: Places) -> Self
        requires { inputs ≤ MOST_K }
        ensures inputs { result.inputs ≡ inputs }
        ensures places { result.places ≡ places }
    {
        let asked = &places[..inputs as usize];
        let rows = rows_of(inputs, asked);
        let order = order_of(asked);
        Cube {
            inputs,
            places,
            rows,
            order,
        }
    }

    /// The cube of one row of the table alone.
    pub(crate) fn of_row(inputs: u8, row: u64) -> Self
        requires { inputs ≤ MOST_K }
        ensures inputs { result.inputs ≡ inputs }
        ensures places { take inputs result.places ≡ minterm inputs row }
    {
        let bits = row_bits(inputs, row);
        let mut places = [Place::Any; MOST_K as usize];
        for index in 0..inputs as usize {
            places[index] = Place::of(bits[index]);
        }
        Cube::new(inputs, places)
    }

    /// The cube with one place made `Any`.
    pub(crate) fn freed(&self, place: u8) -> Self
        requires { place < self.now.inputs }
        ensures inputs { result.inputs ≡ self.now.inputs }
        ensures places { result.places ≡ slice_set self.now.places place Any }
    {
        let mut places = self.places;
        places[place as usize] = Place::Any;
        Cube::new(self.inputs, places)
    }

    /// The row of a cover that the cube is.
    pub(crate) fn row(&self, alloc: Global) -> Result<Row, NoMemory>
        ensures { IfOk result (λ row. row ≡ take self.now.inputs self.now.places) }
    {
        let asked = &self.places[..self.inputs as usize];
        Ok(Row::new(Vec::from_slice(alloc, asked)?))
    }
}
