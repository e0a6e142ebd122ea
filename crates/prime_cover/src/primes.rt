// The prime cover of a table: prime rows that together have each row of value 1, less those that the others make up for.

ghost use Rattle.std.specs.Prelude.{◌≡◌, ℕ, ◌<◌, ◌^◌, true, List, All, AllPairs, Contains, map, IfOk};
ghost use Rattle.std.specs.List.{list_any};
ghost use Rattle.std.specs.List.Sorted.{IsNonDecreasingBy};
ghost use Rattle.tm_bits.specs.Tables.{bit_of};
ghost use Rattle.prime_cover.specs.Primes.{IsPrimeCover};
ghost use Rattle.prime_cover.specs.Found.{row_of, has, IsPrimeCube, HaveOnes, HasOwnRow, Ascend, HaveOneWidth};

use crate::cube::Cube;
use crate::sets::{NO_ROWS, RowSet, contains, is_within, union};
use std::alloc::Global;
use tm_bits::{Cover, NoMemory, Table};

/// A prime row that has one row of value 1: the places of its bits, each made `Any` in turn where the table stays 1.
fn prime_with(table: &Table, row: u64) -> Cube
    requires below { row < 2 ^ table.now.inputs }
    requires one { bit_of table.now.words row ≡ true }
    ensures prime { IsPrimeCube table.now.inputs table.now.words result }
    ensures has { has row result ≡ true }
{
    let mut cube = Cube::of_row(table.inputs, row);
    for place in 0..table.inputs {
        let freed = cube.freed(place);
        if is_within(&freed.rows, &table.words) {
            cube = freed;
        }
    }
    cube
}

/// Prime rows that together have each row of value 1: one for each such row that those before lack.
fn primes_of(alloc: Global, table: &Table) -> Result<Vec<Cube>, NoMemory>
    ensures primes { IfOk result (λ primes. All (IsPrimeCube table.now.inputs table.now.words) primes.items) }
    ensures ones { IfOk result (λ primes. HaveOnes table.now.words primes.items) }
{
    let mut primes = Vec::new(alloc);
    let mut had = NO_ROWS;
    for row in 0..1u64 << table.inputs {
        if table.bit(row) && !contains(&had, row) {
            let prime = prime_with(table, row);
            had = union(&had, &prime.rows);
            primes.push(prime)?;
        }
    }
    Ok(primes)
}

/// The rows that some cube has.
fn rows_of_some(cubes: &[Cube]) -> RowSet
    ensures { (row : ℕ) → bit_of result row ≡ list_any (has row) cubes.now }
{
    let mut rows = NO_ROWS;
    for cube in cubes {
        rows = union(&rows, &cube.rows);
    }
    rows
}

/// The cubes that are left where each in turn goes whose rows those kept before it and those after it have.
fn needed_of(alloc: Global, cubes: &[Cube]) -> Result<Vec<Cube>, NoMemory>
    requires sorted { IsNonDecreasingBy (λ cube. cube.order) cubes.now }
    requires width { HaveOneWidth cubes.now }
    ensures kept { IfOk result (λ needed. All (Contains cubes.now) needed.items) }
    ensures rows { IfOk result (λ needed. (row : ℕ) → list_any (has row) cubes.now ≡ true
        → list_any (has row) needed.items ≡ true) }
    ensures own { IfOk result (λ needed. All (HasOwnRow needed.items) needed.items) }
    ensures ascend { IfOk result (λ needed. Ascend needed.items) }
{
    let mut needed: Vec<Cube> = Vec::new(alloc);
    for (index, cube) in cubes.iter().enumerate() {
        let before = rows_of_some(&needed);
        let after = rows_of_some(&cubes[index + 1..]);
        if !is_within(&cube.rows, &union(&before, &after)) {
            needed.push(*cube)?;
        }
    }
    Ok(needed)
}

/// The on cover of the rows of the cubes.
fn cover_of(alloc: Global, cubes: &[Cube]) -> Result<Cover, NoMemory>
    requires { HaveOneWidth cubes.now }
    ensures { IfOk result (λ cover. cover ≡ record { on = true; rows = map row_of cubes.now }) }
{
    let mut rows = Vec::new(alloc);
    for cube in cubes {
        rows.push(cube.row(alloc)?)?;
    }
    match Cover::new(true, rows) {
        Some(cover) => Ok(cover),
        None => unreachable!(),
    }
}

/// A prime cover of the table. Which one isn't fixed; the same table always has the same one.
pub fn prime(alloc: Global, table: &Table) -> Result<Cover, NoMemory>
    ensures { IfOk result (λ cover. IsPrimeCover table.now.inputs table.now.words cover) }
{
    let mut primes = primes_of(alloc, table)?;
    primes.sort_by_key(|cube| cube.order)?;
    let needed = needed_of(alloc, &primes)?;
    cover_of(alloc, &needed)
}
