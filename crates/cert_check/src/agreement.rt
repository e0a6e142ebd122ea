// Whether two circuits are the same but for the spelling of covers.

ghost use Rattle.std.specs.Prelude.{◌≡◌, ◌↔◌, ℕ, ◌^◌, ◌<◌, ◌≤◌, length, IsTrue, option_copied};
ghost use Rattle.std.specs.List.{AllZip};
ghost use Rattle.tm_bits.specs.Limits.{most_inputs};
ghost use Rattle.tm_bits.specs.Rows.{HasWidth};
ghost use Rattle.tm_bits.specs.Tables.{bit_of};
ghost use Rattle.tm_circuit.specs.Plain.{drive_of, pins_of, widest, latch, gate};
ghost use Rattle.tm_circuit.specs.Sound.{FitsPins};
ghost use Rattle.cert_check.specs.Agreement.{HaveSameValues, DrivesAgree, HaveSameFrame, Agree};

use tm_bits::{Cover, Row, Table};
use tm_circuit::{Circuit, Clock, Driver, Name, Signal};

/// Whether two circuits are the same but for the spelling of covers, which have the same values. The first has gates of at most 8 pins.
pub(crate) fn agree(one: &Circuit, other: &Circuit) -> bool
    requires { widest one.now.drives ≤ most_inputs }
    ensures { IsTrue result ↔ Agree one.now other.now }
{
    if one.signals() != other.signals() {
        return false;
    }
    have_same_frame(one, other) && have_same_names(one, other) && have_agreeing_drivers(one, other)
}

/// Whether two circuits have the same model, clock and outputs.
fn have_same_frame(one: &Circuit, other: &Circuit) -> bool
    ensures { IsTrue result ↔ HaveSameFrame one.now other.now }
{
    if !is_same_name(one.model(), other.model()) {
        return false;
    }
    are_same_clocks(one.clock(), other.clock()) && are_same_signals(one.outputs(), other.outputs())
}

/// Whether two names have the same bytes.
fn is_same_name(one: &Name, other: &Name) -> bool
    ensures { IsTrue result ↔ (one.now ≡ other.now) }
{
    one.bytes() == other.bytes()
}

/// Whether two lists of signals are the same.
fn are_same_signals(one: &[Signal], other: &[Signal]) -> bool
    ensures { IsTrue result ↔ (one.now ≡ other.now) }
{
    one == other
}

/// Whether there is no clock in both places, or the same.
fn are_same_clocks(one: Option<&Clock>, other: Option<&Clock>) -> bool
    ensures { IsTrue result ↔ (option_copied one.entry ≡ option_copied other.entry) }
{
    match one {
        None => other.is_none(),
        Some(clock) => match other {
            None => false,
            Some(other) => is_same_clock(clock, other),
        },
    }
}

/// Whether two clocks are the same in all fields.
fn is_same_clock(one: &Clock, other: &Clock) -> bool
    ensures { IsTrue result ↔ (one.now ≡ other.now) }
{
    is_same_name(&one.name, &other.name)
        && one.edge == other.edge
        && one.declared == other.declared
        && one.place == other.place
}

/// Whether two circuits with as many signals have the same names in order.
fn have_same_names(one: &Circuit, other: &Circuit) -> bool
    requires { length one.now.drives ≡ length other.now.drives }
    ensures { IsTrue result ↔ (one.now.names ≡ other.now.names) }
{
    let _sound = other.signals();
    for s in 0..one.signals() {
        if !is_same_name(one.name(Signal(s)), other.name(Signal(s))) {
            return false;
        }
    }
    true
}

/// Whether the drivers of two circuits with as many signals agree one by one.
fn have_agreeing_drivers(one: &Circuit, other: &Circuit) -> bool
    requires signals { length one.now.drives ≡ length other.now.drives }
    requires narrow { widest one.now.drives ≤ most_inputs }
    ensures { IsTrue result ↔ AllZip DrivesAgree one.now.drives other.now.drives }
{
    let _sound = other.signals();
    for s in 0..one.signals() {
        if !drivers_agree(one.driver(Signal(s)), other.driver(Signal(s))) {
            return false;
        }
    }
    true
}

/// Whether two drivers agree. The first has at most 8 pins.
fn drivers_agree(one: &Driver, other: &Driver) -> bool
    requires narrow { length (pins_of (drive_of one.now)) ≤ most_inputs }
    requires fits { FitsPins (drive_of one.now) }
    requires other_fits { FitsPins (drive_of other.now) }
    ensures { IsTrue result ↔ DrivesAgree (drive_of one.now) (drive_of other.now) }
{
    match one {
        Driver::Input => matches!(other, Driver::Input),
        Driver::Latch { next, init } => is_latch_like(other, *next, *init),
        Driver::Gate { pins, cover } => is_gate_like(other, pins.as_slice(), cover),
    }
}

/// Whether a driver is a latch with this next and this initial value.
fn is_latch_like(driver: &Driver, next: Signal, init: bool) -> bool
    ensures { IsTrue result ↔ DrivesAgree (latch next init) (drive_of driver.now) }
{
    match driver {
        Driver::Latch {
            next: own_next,
            init: own_init,
        } => *own_next == next && *own_init == init,
        Driver::Input | Driver::Gate { .. } => false,
    }
}

/// Whether a driver is a gate with these pins and a cover of the same values. Pins come first: covers are compared only where both
/// are as wide.
fn is_gate_like(driver: &Driver, pins: &[Signal], cover: &Cover) -> bool
    requires narrow { length pins.now ≤ most_inputs }
    requires width { HasWidth cover.now (length pins.now) }
    requires fits { FitsPins (drive_of driver.now) }
    ensures { IsTrue result ↔ DrivesAgree (gate pins.now cover.now) (drive_of driver.now) }
{
    match driver {
        Driver::Gate {
            pins: own_pins,
            cover: own_cover,
        } => {
            are_same_signals(pins, own_pins.as_slice())
                && have_same_values(pins.len() as u8, cover, own_cover)
        }
        Driver::Input | Driver::Latch { .. } => false,
    }
}

/// Whether two covers of so many pins have the same value on every row of bits. Tables are made only where the covers are spelled
/// in two ways.
fn have_same_values(pins: u8, one: &Cover, other: &Cover) -> bool
    requires few { pins ≤ most_inputs }
    requires width { HasWidth one.now pins }
    requires other_width { HasWidth other.now pins }
    ensures { IsTrue result ↔ HaveSameValues pins one.now other.now }
{
    is_same_cover(one, other) || have_same_bits(&one.table(pins), &other.table(pins))
}

/// Whether two covers are spelled in the same way.
fn is_same_cover(one: &Cover, other: &Cover) -> bool
    ensures { IsTrue result ↔ (one.now ≡ other.now) }
{
    one.on() == other.on() && are_same_rows(one.rows(), other.rows())
}

/// Whether rows are the same, in order.
fn are_same_rows(rows: &[Row], others: &[Row]) -> bool
    ensures { IsTrue result ↔ (rows.now ≡ others.now) }
{
    if rows.len() != others.len() {
        return false;
    }
    for i in 0..rows.len() {
        if !is_same_row(&rows[i], &others[i]) {
            return false;
        }
    }
    true
}

/// Whether two rows are the same, place by place.
fn is_same_row(one: &Row, other: &Row) -> bool
    ensures { IsTrue result ↔ (one.now ≡ other.now) }
{
    one.places() == other.places()
}

/// Whether two tables of as many inputs have the same bit on each row.
fn have_same_bits(one: &Table, other: &Table) -> bool
    requires { one.now.inputs ≡ other.now.inputs }
    ensures { IsTrue result ↔ ((row : ℕ) → row < 2 ^ one.now.inputs → bit_of one.now.words row ≡ bit_of other.now.words row) }
{
    for row in 0..1u64 << one.inputs {
        if one.bit(row) != other.bit(row) {
            return false;
        }
    }
    true
}
