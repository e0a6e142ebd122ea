// The greatest lags that labels can have in the end, by the latches behind inputs.

ghost use Rattle.std.specs.Prelude.{◌≡◌, length, IfOk};

use crate::pins::{Pin, Pins};
use std::alloc::Global;
use tm_bits::NoMemory;
use tm_circuit::{Circuit, Signal};

/// The greatest lag that a table of each marked gate can have, by the signals: no more than `d`, nor than the base and the latches
/// on each path from an input. It stands for where labels fall to in the end; of the numbers nothing is promised.
pub fn greatest_lags(
    alloc: Global,
    base: u8,
    circuit: &Circuit,
    d: u8,
    marks: &[bool],
) -> Result<Vec<u8>, NoMemory>
    ensures { IfOk result (λ lags. length lags.items ≡ length circuit.now.drives) }
{
    let order = marked_order(alloc, circuit, marks)?;
    let pins = Pins::new(alloc, circuit, d, marks)?;
    most_lags(alloc, base, d, circuit.signals() as usize, &order, &pins)
}

/// The marked gates, each after those among its pins.
pub fn marked_order(
    alloc: Global,
    circuit: &Circuit,
    marks: &[bool],
) -> Result<Vec<Signal>, NoMemory> {
    let mut order = Vec::new(alloc);
    for gate in circuit.order() {
        if marks.get(gate.0 as usize) == Some(&true) {
            order.push(*gate)?;
        }
    }
    Ok(order)
}

/// The greatest lag that each gate may have: no more than the base and the latches on each path from an input.
pub fn most_lags(
    alloc: Global,
    base: u8,
    d: u8,
    signals: usize,
    order: &[Signal],
    pins: &Pins,
) -> Result<Vec<u8>, NoMemory>
    ensures { IfOk result (λ lags. length lags.items ≡ signals) }
{
    let mut least = vec![in alloc; d; signals]?;
    lower_all(d, order, pins, &mut least);
    add_base(base, d, &mut least);
    Ok(least)
}

/// Lowers numbers of latches until each gate has the least of its pins. Latches between gates take a round each.
fn lower_all(d: u8, order: &[Signal], pins: &Pins, least: &mut [u8])
    ensures { length least.new ≡ length least.old }
{
    for _round in 0..=d {
        if !lower_once(d, order, pins, least) {
            return;
        }
    }
}

/// Lowers the number of latches of each gate to the least of its pins, and tells whether some number was lowered.
fn lower_once(d: u8, order: &[Signal], pins: &Pins, least: &mut [u8]) -> bool
    ensures { length least.new ≡ length least.old }
{
    let mut is_lower = false;
    for gate in order {
        let latches = least_of(d, pins.of(*gate), least);
        if let Some(at) = least.get_mut(gate.0 as usize) {
            if latches < *at {
                *at = latches;
                is_lower = true;
            }
        }
    }
    is_lower
}

/// The least number of latches on a path over some pins.
fn least_of(d: u8, pins: &[Pin], least: &[u8]) -> u8 {
    let mut latches = d;
    for pin in pins {
        latches = latches.min(pin.least_latches(least));
    }
    latches
}

/// Adds the base to each number, up to the greatest lag.
fn add_base(base: u8, d: u8, lags: &mut [u8])
    ensures { length lags.new ≡ length lags.old }
{
    for lag in lags.iter_mut() {
        *lag = lag.saturating_add(base).min(d);
    }
}
