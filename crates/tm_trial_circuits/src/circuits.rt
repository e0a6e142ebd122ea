// Circuits that are built, and parts that are refused.

use smallvec::SmallVec;
use std::alloc::Global;
use tm_bits::{NoMemory, Table};
use tm_circuit::{Circuit, CircuitFault, Clock, Driver, Edge, Name, Signal, Source};
use tm_trial::{TrialFault, circuit};

/// Whether the circuit of an input, a latch behind a gate, a latch behind itself and three gates has its order and its numbers.
fn is_in_order(circuit: &Circuit) -> bool {
    let order = [Signal(3), Signal(5), Signal(4)];
    if circuit.signals() != 6 || circuit.widest() != 3 || circuit.order() != order.as_slice() {
        return false;
    }
    circuit.rank(Signal(0)) == 0
        && circuit.rank(Signal(1)) == 0
        && circuit.rank(Signal(3)) == 1
        && circuit.rank(Signal(4)) == 3
        && circuit.rank(Signal(5)) == 2
        && circuit.source(Signal(1)) == Source::Gate(Signal(3))
        && circuit.source(Signal(2)) == Source::Ring
}

/// Its period where it is in order, and else none.
fn period(alloc: Global) -> Result<Option<u32>, TrialFault> {
    let circuit = circuit(alloc, "a", "q 3 1;r 2 1;", "g 0 1;f 5 0 0;h 3;", "")?;
    let period = circuit.period(alloc)?;
    Ok(is_in_order(&circuit).then_some(period))
}

#[test]
fn a_small_circuit_is_built(rt: HostRuntime) {
    assert!(rt; period(rt.alloc()) == Ok(Some(3)));
}

/// Inputs, gates and outputs that make no circuit.
struct Row<'a> {
    inputs: &'a str,
    gates: &'a str,
    outputs: &'a str,
    fault: CircuitFault,
}

const ROWS: &[Row<'static>] = &[
    Row {
        inputs: "a",
        gates: "g 2;",
        outputs: "",
        fault: CircuitFault::Range,
    },
    Row {
        inputs: "a",
        gates: "g 0 =11;",
        outputs: "",
        fault: CircuitFault::Range,
    },
    Row {
        inputs: "a#",
        gates: "",
        outputs: "",
        fault: CircuitFault::BadName,
    },
    Row {
        inputs: "a a",
        gates: "",
        outputs: "0 0",
        fault: CircuitFault::RepeatedName,
    },
    Row {
        inputs: "a",
        gates: "x 0 2;y 1;",
        outputs: "0 0",
        fault: CircuitFault::RepeatedOutput,
    },
    Row {
        inputs: "a",
        gates: "x 0 2;y 3 1;z 0;",
        outputs: "",
        fault: CircuitFault::Loop,
    },
];

#[test]
fn parts_are_refused(rt: HostRuntime) {
    for row in ROWS {
        let built = circuit(rt.alloc(), row.inputs, "", row.gates, row.outputs);
        assert!(rt;
            built.err() == Some(TrialFault::Circuit(row.fault)),
            "{}",
            row.gates
        );
    }
}

/// The name and the edge of a copied clock.
fn is_clock_copied(alloc: Global) -> Result<bool, NoMemory> {
    let clock = Clock {
        name: Name::new(Vec::from_slice(alloc, b"clk")?),
        edge: Some(Edge::Fall),
        declared: true,
        place: None,
    };
    let copy = clock.try_clone(alloc)?;
    Ok(copy.edge == Some(Edge::Fall) && copy.name.bytes() == b"clk".as_slice())
}

/// Whether a copied gate has one row and the input 0 as its two pins.
fn is_driver_copied(alloc: Global) -> Result<bool, NoMemory> {
    let pins = SmallVec::from_slice(alloc, &[Signal(0), Signal(0)])?;
    let cover = Table::constant(0, true).cover(alloc)?;
    Ok(match (Driver::Gate { pins, cover }).try_clone(alloc)? {
        Driver::Gate { pins, cover } => {
            pins.as_slice() == [Signal(0), Signal(0)].as_slice() && cover.rows().len() == 1
        }
        Driver::Input | Driver::Latch { .. } => false,
    })
}

#[test]
fn clocks_and_drivers_are_copied(rt: HostRuntime) {
    assert!(rt; is_clock_copied(rt.alloc()) == Ok(true));
    assert!(rt; is_driver_copied(rt.alloc()) == Ok(true));
}
