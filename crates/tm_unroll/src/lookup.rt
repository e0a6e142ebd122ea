// Which gates have tables, and of which greatest lag.

ghost use Rattle.std.specs.Prelude.{◌≡◌, ◌↔◌, ℕ, ◌<◌, ◌≤◌, List, length, map, set, None, slice_index_or, Contains, All, IsTrue, IfOk};
ghost use Rattle.tm_unroll.specs.Mappings.{Table, table_of, HasSourceTable, IsServedOf, AreServed};
ghost use Rattle.tm_circuit.specs.Plain.{drive_in};
ghost use Rattle.tm_unroll.specs.Lookups.{HasLag, greater_lag, AreGreatestLags};

use crate::node::{Lut, Node};
use std::alloc::Global;
use tm_bits::NoMemory;
use tm_circuit::{Circuit, Driver, Signal, Source};

/// The greatest lag of the tables of each of so many signals.
pub fn greatest_lags(
    alloc: Global,
    signals: usize,
    luts: &[Lut],
) -> Result<Vec<Option<u8>>, NoMemory>
    ensures { IfOk result (λ lags. AreGreatestLags signals (map table_of luts.now) lags.items) }
{
    let mut lags = vec![in alloc; None; signals]?;
    for lut in luts {
        add_table(&mut lags, lut.gate, lut.lag);
    }
    Ok(lags)
}

/// Takes a table into the greatest lags, where its gate is a signal.
fn add_table(lags: &mut [Option<u8>], gate: Signal, lag: u8)
    ensures { lags.new ≡ set lags.old gate (greater_lag (slice_index_or lags.old gate None) lag) }
{
    let at = gate.0 as usize;
    if at < lags.len() {
        lags[at] = greater(lags[at], lag);
    }
}

/// The greatest lag with one lag more.
fn greater(greatest: Option<u8>, lag: u8) -> Option<u8>
    ensures { result ≡ greater_lag greatest lag }
{
    match greatest {
        None => Some(lag),
        Some(greatest) => Some(greatest.max(lag)),
    }
}

/// Whether a gate has a table of at least this lag.
fn has_table(lags: &[Option<u8>], gate: Signal, lag: u8) -> bool
    requires { gate < length lags.now }
    ensures { IsTrue result ↔ HasLag (slice_index_or lags.now gate None) lag }
{
    match lags[gate.0 as usize] {
        None => false,
        Some(greatest) => lag <= greatest,
    }
}

/// Whether the source of a signal has a table, where it is a gate.
pub fn has_source_table(circuit: &Circuit, lags: &[Option<u8>], s: Signal) -> bool
    requires sized { length lags.now ≡ length circuit.now.drives }
    requires signal { s < length circuit.now.drives }
    ensures { (tables : List Table) → AreGreatestLags (length circuit.now.drives) tables lags.now
        → IsTrue result ↔ HasSourceTable circuit.now.drives tables s 0 }
{
    match circuit.source(s) {
        Source::Gate(gate) => has_table(lags, gate, 0),
        Source::Input(_) | Source::Ring => true,
    }
}

/// Whether the tables serve a leaf: a gate has a table of at least its advance, and the source gate of a latch has a table.
fn is_served(circuit: &Circuit, lags: &[Option<u8>], leaf: Node) -> bool
    requires sized { length lags.now ≡ length circuit.now.drives }
    requires signal { leaf.signal < length circuit.now.drives }
    ensures { (tables : List Table) → AreGreatestLags (length circuit.now.drives) tables lags.now
        → IsTrue result ↔ IsServedOf (drive_in circuit.now.drives leaf.signal) circuit.now.drives tables leaf }
{
    match circuit.driver(leaf.signal) {
        Driver::Input => true,
        Driver::Latch { .. } => has_source_table(circuit, lags, leaf.signal),
        Driver::Gate { .. } => has_table(lags, leaf.signal, leaf.advance),
    }
}

/// Whether the tables serve all leaves of a table.
pub fn are_served(circuit: &Circuit, lags: &[Option<u8>], leaves: &[Node]) -> bool
    requires sized { length lags.now ≡ length circuit.now.drives }
    requires signals { All (λ x. x.signal < length circuit.now.drives) leaves.now }
    ensures { (tables : List Table) → AreGreatestLags (length circuit.now.drives) tables lags.now
        → IsTrue result ↔ AreServed circuit.now.drives tables leaves.now }
{
    for leaf in leaves {
        if !is_served(circuit, lags, *leaf) {
            return false;
        }
    }
    true
}
