// How many signals the subject circuit has, told before it is made, and their numbers.

ghost use Rattle.std.specs.Prelude.{◌≡◌, ◌↔◌, ◌+◌, ◌-◌, ◌^◌, ◌<◌, ◌≤◌, ◌∷◌, [], length, min, IsTrue, IfOk};
ghost use Rattle.tm_circuit.specs.Plain.{drive_of};
ghost use Rattle.tm_circuit.specs.Sound.{FitsPins, IsSound};
ghost use Rattle.tm_split.specs.Limits.{most_subject_signals};
ghost use Rattle.tm_split.specs.Subject.{extra as extra_of, first_number, subject_of};
ghost use Rattle.tm_split.specs.Counts.{literal_count as literals_asked, literal_total, IsCountOf, AreNumbers, asks as asks_of};

use std::alloc::Global;
use tm_bits::{NoMemory, Place, Row};
use tm_circuit::{Circuit, Driver, Signal};

/// The most signals that a subject circuit may have.
pub const MOST_SUBJECT_SIGNALS: u64 = 100_000;

/// Whether a place gives a literal.
fn asks(place: Place) -> bool
    ensures { result ≡ asks_of place }
{
    match place {
        Place::Zero | Place::One => true,
        Place::Any => false,
    }
}

/// How many literals a row has.
pub fn literal_count(row: &Row) -> usize
    ensures { result ≡ literals_asked row.now }
{
    row.places().iter().filter(|place| asks(**place)).count()
}

/// How many literals rows have, at most the greatest `u64`; 0 where some row has none.
fn total_literals(rows: &[Row]) -> u64
    ensures { result ≡ min (literal_total rows.now) (2 ^ 64 - 1) }
{
    let mut total: u64 = 0;
    for row in rows {
        let count = literal_count(row);
        if count == 0 {
            return 0;
        }
        total = total.saturating_add(count as u64);
    }
    total
}

/// How many new gates stand before a signal in its place, exact up to 100,000. So many literals make one gate less, and the last is
/// the gate itself.
pub fn extra(driver: &Driver, k: usize) -> u64
    requires { FitsPins (drive_of driver.now) }
    ensures { IsCountOf result (extra_of k (drive_of driver.now)) }
{
    match driver {
        Driver::Gate { pins, cover } => {
            if pins.as_slice().len() <= k {
                return 0;
            }
            total_literals(cover.rows()).saturating_sub(2)
        }
        Driver::Input | Driver::Latch { .. } => 0,
    }
}

/// The number of signals of the subject circuit, exact up to 100,000.
fn count(circuit: &Circuit, k: usize) -> u64
    ensures count { IsCountOf result (length (subject_of k circuit.now).drives) }
    ensures sound { IsSound circuit.now }
{
    let mut total: u64 = 0;
    for s in 0..circuit.signals() {
        let more = extra(circuit.driver(Signal(s)), k);
        total = total.saturating_add(1).saturating_add(more);
    }
    total
}

/// Whether the subject circuit has no more signals than it may have.
pub fn is_few(circuit: &Circuit, k: usize) -> bool
    ensures few { IsTrue result ↔ (length (subject_of k circuit.now).drives ≤ most_subject_signals) }
    ensures sound { IsSound circuit.now }
{
    count(circuit, k) <= MOST_SUBJECT_SIGNALS
}

/// The numbers of the signals in the subject circuit.
pub fn numbers(alloc: Global, circuit: &Circuit, k: usize) -> Result<Vec<Signal>, NoMemory>
    requires { length (subject_of k circuit.now).drives ≤ most_subject_signals }
    ensures { IfOk result (λ numbers. AreNumbers k circuit.now.drives numbers.items) }
{
    let mut numbers = Vec::new(alloc);
    let mut next: u32 = 0;
    for s in 0..circuit.signals() {
        let more = extra(circuit.driver(Signal(s)), k);
        let number = next + more as u32;
        numbers.push(Signal(number))?;
        next = number + 1;
    }
    Ok(numbers)
}
