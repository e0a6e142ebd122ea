// Least periods of two gates over two latches each and a gate over both, with a latch behind it.

use smallvec::SmallVec;
use std::alloc::Global;
use std::process::Abort;
use std::test::Fail;
use tm_bits::Cover;
use tm_circuit::{Circuit, GatePart, LatchPart, Name, Parts, Signal};
use tm_search::{least_for_outputs, least_period};

fn name(alloc: Global, word: &str) -> Result<Name, Fail> {
    Ok(Name::new(Vec::from_slice(alloc, word.as_bytes())?))
}

/// Inputs a 0 to d 3; latches 4 to 7 that take them, and y 8 that takes g3; gates g1 9 of 4 and 5, g2 10 of 6 and 7, and g3 11 of
/// 9 and 10. The output is y.
fn four(alloc: Global) -> Result<Circuit, Fail> {
    let mut parts = Parts {
        model: name(alloc, "four")?,
        clock: None,
        inputs: Vec::new(alloc),
        latches: Vec::new(alloc),
        gates: Vec::new(alloc),
        outputs: vec![in alloc; Signal(8)]?,
    };
    for word in ["a", "b", "c", "d"] {
        parts.inputs.push(name(alloc, word)?)?;
    }
    for (word, next) in [("q1", 0), ("q2", 1), ("q3", 2), ("q4", 3), ("y", 11)] {
        let latch = LatchPart {
            name: name(alloc, word)?,
            next: Signal(next),
            init: false,
        };
        parts.latches.push(latch)?;
    }
    for (word, first, second) in [("g1", 4, 5), ("g2", 6, 7), ("g3", 9, 10)] {
        let gate = GatePart {
            name: name(alloc, word)?,
            pins: SmallVec::from_slice(alloc, &[Signal(first), Signal(second)])?,
            cover: Cover::new(true, Vec::new(alloc)).ok_or("a cover")?,
        };
        parts.gates.push(gate)?;
    }
    Ok(Circuit::build(alloc, parts)?)
}

/// The least period for tables of at most `k` leaves and lags of at most `d` steps, and the labels of the three gates at it.
#[derive(Clone, Copy)]
struct Row {
    k: u8,
    d: u8,
    period: u32,
    labels: [(u8, u32); 3],
}

const ROWS: [Row; 3] = [
    Row {
        k: 2,
        d: 0,
        period: 2,
        labels: [(0, 1), (0, 1), (0, 2)],
    },
    Row {
        k: 2,
        d: 1,
        period: 1,
        labels: [(1, 1), (1, 1), (0, 1)],
    },
    Row {
        k: 4,
        d: 0,
        period: 1,
        labels: [(0, 1), (0, 1), (0, 1)],
    },
];

fn check(rt: &impl Abort, alloc: Global, circuit: &Circuit, row: Row) -> Result<(), Fail> {
    let Row {
        k,
        d,
        period,
        labels,
    } = row;
    assert!(rt; 2 <= k && k <= 8 && d <= 8 && circuit.widest() <= u32::from(k));
    assert!(rt; circuit.signals() <= 100_000);
    let least = least_period(alloc, circuit, k, d)?;
    assert_eq!(rt; least.period, period, "k {k} d {d}");
    for (signal, (lag, arrival)) in (9..12).zip(labels) {
        let label = least.at.label(Signal(signal));
        let label = label.map(|x| (x.lag, x.arrival));
        assert_eq!(rt; label, Some((lag, arrival)), "k {k} d {d} signal {signal}");
    }
    let least = least_for_outputs(alloc, 0, circuit, k, d)?;
    assert_eq!(rt; least.period, period, "k {k} d {d}");
    Ok(())
}

#[test]
fn least_periods_are_found(rt: HostRuntime) -> Result<(), Fail> {
    let circuit = four(rt.alloc())?;
    for row in ROWS {
        check(&rt, rt.alloc(), &circuit, row)?;
    }
    Ok(())
}
