// The tests on a circuit to be, but for circles of gates.

ghost use Rattle.std.specs.Prelude.{◌≡◌, ◌≢◌, ◌↔◌, ℕ, ◌<◌, All, AllPairs, IsTrue, IfSome, IfOk, map, length, option_copied};
ghost use Rattle.tm_circuit.specs.Plain.{drive_of};
ghost use Rattle.tm_circuit.specs.Sound.{ReadsBelow, FitsPins, IsClockOf, IsNameByte, IsName, IsClockName};
ghost use Rattle.tm_circuit.specs.Draft.{AreInRange};

use crate::parts::{Clock, Driver, Name, Signal};

/// The most signals that a circuit can have.
pub const MOST_SIGNALS: usize = 900_000;

/// The most pins that a gate can have.
pub const MOST_PINS: usize = 255;

/// The most bytes that a name can have.
pub const LONGEST_NAME: usize = 1_023;

/// Whether a driver reads signals below `n` alone.
pub fn reads_below(driver: &Driver, n: usize) -> bool
    ensures { IsTrue result ↔ ReadsBelow n (drive_of driver.now) }
{
    match driver {
        Driver::Input => true,
        Driver::Latch { next, .. } => (next.0 as usize) < n,
        Driver::Gate { pins, .. } => are_below(pins.as_slice(), n),
    }
}

/// Whether signals are below `n`.
pub fn are_below(signals: &[Signal], n: usize) -> bool
    ensures { IsTrue result ↔ All (λ s. s < n) signals.now }
{
    signals.iter().all(|s| (s.0 as usize) < n)
}

/// Whether a gate has few enough pins, and rows as wide as they are many.
pub fn fits_pins(driver: &Driver) -> bool
    ensures { IsTrue result ↔ FitsPins (drive_of driver.now) }
{
    match driver {
        Driver::Input | Driver::Latch { .. } => true,
        Driver::Gate { pins, cover } => {
            let width = pins.as_slice().len();
            width <= MOST_PINS && cover.rows().iter().all(|row| row.places().len() == width)
        }
    }
}

/// Whether a clock fits a circuit with so many inputs and latches.
pub fn is_clock_of(clock: &Clock, inputs: usize, latches: usize) -> bool
    ensures { IsTrue result ↔ IsClockOf inputs latches clock.now }
{
    let placed = match clock.place {
        Some(before) => before as usize <= inputs,
        None => true,
    };
    let edged = match clock.edge {
        Some(_) => latches > 0,
        None => clock.declared,
    };
    placed && edged
}

/// Whether each driver reads signals below `n` alone.
pub fn all_read_below(drivers: &[Driver], n: usize) -> bool
    ensures { IsTrue result ↔ All (λ d. ReadsBelow n (drive_of d)) drivers.now }
{
    drivers.iter().all(|driver| reads_below(driver, n))
}

/// Whether each gate fits its pins.
pub fn all_fit_pins(drivers: &[Driver]) -> bool
    ensures { IsTrue result ↔ All (λ d. FitsPins (drive_of d)) drivers.now }
{
    drivers.iter().all(fits_pins)
}

/// Whether a byte may stand in a name.
fn is_name_byte(byte: u8) -> bool
    ensures { IsTrue result ↔ IsNameByte byte }
{
    byte.is_ascii_graphic() && byte != b'#' && byte != b'\\'
}

/// Whether bytes are a lawful name.
pub fn is_name(bytes: &[u8]) -> bool
    ensures { IsTrue result ↔ IsName bytes.now }
{
    !bytes.is_empty() && bytes.len() <= LONGEST_NAME && bytes.iter().all(|byte| is_name_byte(*byte))
}

/// Whether names are lawful.
pub fn are_names(names: &[Name]) -> bool
    ensures { IsTrue result ↔ All IsName names.now }
{
    names.iter().all(|name| is_name(name.bytes()))
}

/// Whether a clock is lawfully named.
pub fn is_clock_name(clock: &Clock) -> bool
    ensures { IsTrue result ↔ IsClockName clock.now }
{
    is_name(clock.name.bytes())
        && !(clock.edge.is_some() && clock.name.bytes() == b"NIL".as_slice())
}

/// Whether a clock, where there is one, is lawfully named.
pub fn is_maybe_clock_name(clock: &Option<Clock>) -> bool
    ensures { IsTrue result ↔ IfSome clock.now IsClockName }
{
    match clock {
        Some(clock) => is_clock_name(clock),
        None => true,
    }
}

/// Whether a clock, where there is one, fits a circuit with so many inputs and latches.
pub fn is_maybe_clock_of(clock: &Option<Clock>, inputs: usize, latches: usize) -> bool
    ensures { IsTrue result ↔ IfSome clock.now (IsClockOf inputs latches) }
{
    match clock {
        Some(clock) => is_clock_of(clock, inputs, latches),
        None => true,
    }
}

/// Whether drivers, outputs and a clock are in range, among so many inputs and latches.
pub fn are_in_range(
    clock: &Option<Clock>,
    inputs: usize,
    latches: usize,
    drivers: &[Driver],
    outputs: &[Signal],
) -> bool
    ensures { IsTrue result ↔ AreInRange clock.now inputs latches drivers.now outputs.now }
{
    all_read_below(drivers, drivers.len())
        && all_fit_pins(drivers)
        && are_below(outputs, drivers.len())
        && is_maybe_clock_of(clock, inputs, latches)
}
