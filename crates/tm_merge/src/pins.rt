// The pins of gates behind all latches, in one list.

ghost use Rattle.std.specs.Prelude.{◌<◌, length, All};

use crate::cuts::behind_latches;
use crate::outputs::pins_of;
use std::alloc::Global;
use tm_bits::NoMemory;
use tm_circuit::{Circuit, Signal, Source};
use tm_replay::Label;

/// A number above all arrivals.
pub const NEVER: u32 = u32::MAX;

/// Where the latches behind a pin lead.
#[derive(Clone, Copy)]
enum Origin {
    Input,
    /// The gate, by its signal's number.
    Gate(u32),
    Ring,
}

/// A pin behind all latches.
#[derive(Clone, Copy)]
pub struct Pin {
    origin: Origin,
    /// How many latches lead there, or a number above the greatest lag.
    latches: u8,
}

/// The pins of some gates, each at its origin.
#[derive(Drop)]
pub struct Pins {
    pins: Vec<Pin>,
    /// Where the pins of each signal begin and end.
    ranges: Vec<(u32, u32)>,
}

impl Pin {
    /// A pin, for lags of at most `d`.
    fn new(circuit: &Circuit, s: Signal, d: u8) -> Pin
        requires { s < length circuit.now.drives }
    {
        let most = d.saturating_add(1);
        let origin = match circuit.source(s) {
            Source::Input(_) => Origin::Input,
            Source::Gate(gate) => Origin::Gate(gate.0),
            Source::Ring => Origin::Ring,
        };
        Pin {
            origin,
            latches: most.saturating_sub(behind_latches(circuit, s, most).advance),
        }
    }

    /// Within which number the pin of a gate at a lag is served: 0 where always.
    pub fn number(self, base: u8, labels: &[Option<Label>], lag: u8) -> u32 {
        match self.origin {
            Origin::Gate(gate) => gate_number(label_of(labels, gate), lag, self.latches),
            Origin::Input if lag > base.saturating_add(self.latches) => NEVER,
            Origin::Input | Origin::Ring => 0,
        }
    }

    /// The least number of latches on a path from an input over this pin, where paths to gates have so many.
    pub fn least_latches(self, least: &[u8]) -> u8 {
        match self.origin {
            Origin::Input => self.latches,
            Origin::Gate(gate) => {
                let before = least.get(gate as usize).copied();
                before.unwrap_or(u8::MAX).saturating_add(self.latches)
            }
            Origin::Ring => u8::MAX,
        }
    }
}

impl Pins {
    /// The pins of marked gates, for lags of at most `d`.
    pub fn new(alloc: Global, circuit: &Circuit, d: u8, marks: &[bool]) -> Result<Pins, NoMemory> {
        let mut pins = Vec::new(alloc);
        let mut ranges = Vec::with_capacity(alloc, marks.len())?;
        for s in 0..circuit.signals() {
            let begin = number(pins.len());
            if marks.get(s as usize) == Some(&true) {
                add_pins(&mut pins, circuit, d, pins_of(circuit, Signal(s)))?;
            }
            ranges.push((begin, number(pins.len())))?;
        }
        Ok(Pins { pins, ranges })
    }

    /// The pins of a gate.
    pub fn of(&self, gate: Signal) -> &[Pin] {
        let Some((begin, end)) = self.ranges.get(gate.0 as usize).copied() else {
            return &[];
        };
        self.pins.get(begin as usize..end as usize).unwrap_or(&[])
    }
}

/// Adds some pins at their origins.
fn add_pins(
    pins: &mut Vec<Pin>,
    circuit: &Circuit,
    d: u8,
    signals: &[Signal],
) -> Result<(), NoMemory>
    requires { All (λ p. p < length circuit.now.drives) signals.now }
{
    for s in signals {
        pins.push(Pin::new(circuit, *s, d))?;
    }
    Ok(())
}

/// A place in a list. There are fewer pins than this can hold.
fn number(place: usize) -> u32 {
    u32::try_from(place).unwrap_or(NEVER)
}

/// Within which number a gate is served behind so many latches at a lag: where these take more than the lag, a latch is a leaf, which
/// any label of the gate serves.
fn gate_number(label: Option<Label>, lag: u8, latches: u8) -> u32 {
    if latches <= lag {
        number_of(label, lag - latches)
    } else if label.is_some() {
        0
    } else {
        NEVER
    }
}

/// The label of a gate, where it has one.
pub fn label_of(labels: &[Option<Label>], gate: u32) -> Option<Label> {
    labels.get(gate as usize).copied().flatten()
}

/// Within which number a label serves its gate at an advance: 0 where always.
pub fn number_of(label: Option<Label>, advance: u8) -> u32 {
    match label {
        Some(label) if advance < label.lag => 0,
        Some(label) if advance == label.lag => label.arrival,
        Some(_) | None => NEVER,
    }
}
