// Mappings chosen for two gates over two latches each and a gate over both, with a latch behind it.

use smallvec::SmallVec;
use std::alloc::Global;
use std::process::Abort;
use std::test::Fail;
use tm_bits::Cover;
use tm_circuit::{Circuit, GatePart, LatchPart, Name, Parts, Signal};
use tm_cover::choose;
use tm_labels::settle;
use tm_replay::have_lost;
use tm_unroll::Mapping;

fn name(alloc: Global, word: &str) -> Result<Name, Fail> {
    Ok(Name::new(Vec::from_slice(alloc, word.as_bytes())?))
}

/// Inputs a 0 to d 3; latches 4 to 7 that take them, and y 8 that takes g3; gates g1 9 of 4 and 5, g2 10 of 6 and 7, and g3 11 of
/// 9 and 10. The output is y.
fn four(alloc: Global) -> Result<Circuit, Fail> {
    let mut parts = Parts {
        model: name(alloc, "four")?,
        clock: None,
        inputs: Vec::new(alloc),
        latches: Vec::new(alloc),
        gates: Vec::new(alloc),
        outputs: vec![in alloc; Signal(8)]?,
    };
    for word in ["a", "b", "c", "d"] {
        parts.inputs.push(name(alloc, word)?)?;
    }
    for (word, next) in [("q1", 0), ("q2", 1), ("q3", 2), ("q4", 3), ("y", 11)] {
        let latch = LatchPart {
            name: name(alloc, word)?,
            next: Signal(next),
            init: false,
        };
        parts.latches.push(latch)?;
    }
    for (word, first, second) in [("g1", 4, 5), ("g2", 6, 7), ("g3", 9, 10)] {
        let gate = GatePart {
            name: name(alloc, word)?,
            pins: SmallVec::from_slice(alloc, &[Signal(first), Signal(second)])?,
            cover: Cover::new(true, Vec::new(alloc)).ok_or("a cover")?,
        };
        parts.gates.push(gate)?;
    }
    Ok(Circuit::build(alloc, parts)?)
}

/// A table by its gate, its lag and its leaves, each as a signal and an advance.
#[derive(Clone, Copy)]
struct Expected<'a> {
    gate: u32,
    lag: u8,
    leaves: &'a [(u32, u8)],
}

/// The tables that are chosen for a target; none where an output has lost its label.
#[derive(Clone, Copy)]
struct Row<'a> {
    k: u8,
    d: u8,
    target: u32,
    tables: Option<&'a [Expected<'a>]>,
}

const ROWS: [Row<'static>; 4] = [
    Row {
        k: 2,
        d: 0,
        target: 1,
        tables: None,
    },
    Row {
        k: 2,
        d: 0,
        target: 2,
        tables: Some(&[
            Expected {
                gate: 9,
                lag: 0,
                leaves: &[(4, 0), (5, 0)],
            },
            Expected {
                gate: 10,
                lag: 0,
                leaves: &[(6, 0), (7, 0)],
            },
            Expected {
                gate: 11,
                lag: 0,
                leaves: &[(9, 0), (10, 0)],
            },
        ]),
    },
    // The registers move over the first two gates.
    Row {
        k: 2,
        d: 1,
        target: 1,
        tables: Some(&[
            Expected {
                gate: 9,
                lag: 1,
                leaves: &[(0, 0), (1, 0)],
            },
            Expected {
                gate: 10,
                lag: 1,
                leaves: &[(2, 0), (3, 0)],
            },
            Expected {
                gate: 11,
                lag: 0,
                leaves: &[(9, 0), (10, 0)],
            },
        ]),
    },
    // The first two gates have labels, and no table wants them.
    Row {
        k: 4,
        d: 0,
        target: 1,
        tables: Some(&[Expected {
            gate: 11,
            lag: 0,
            leaves: &[(4, 0), (5, 0), (6, 0), (7, 0)],
        }]),
    },
];

/// Whether a mapping has just these tables.
fn has_tables(mapping: &Mapping, tables: &[Expected]) -> bool {
    mapping.luts.len() == tables.len()
        && mapping.luts.iter().zip(tables).all(|(lut, table)| {
            lut.gate.0 == table.gate
                && lut.lag == table.lag
                && lut.leaves.as_slice().len() == table.leaves.len()
                && lut.leaves.as_slice().iter().zip(table.leaves).all(|(x, (signal, advance))| x
                    .signal
                    .0
                    == *signal
                    && x.advance == *advance)
        })
}

fn check(rt: &impl Abort, alloc: Global, circuit: &Circuit, row: Row) -> Result<(), Fail> {
    let Row { k, d, target, .. } = row;
    assert!(rt; 2 <= k && k <= 8);
    assert!(rt; d <= 8 && target < 10);
    assert!(rt; circuit.widest() <= u32::from(k));
    let settled = settle(alloc, circuit, k, d, target)?;
    if have_lost(circuit, settled.labels()) {
        assert!(rt; row.tables.is_none(), "k {k} d {d} target {target}");
        return Ok(());
    }
    let mapping = choose(alloc, circuit, k, d, &settled)?;
    let is_expected = row
        .tables
        .is_some_and(|tables| has_tables(&mapping, tables));
    assert!(rt; is_expected, "k {k} d {d} target {target}");
    Ok(())
}

#[test]
fn tables_are_chosen(rt: HostRuntime) -> Result<(), Fail> {
    let circuit = four(rt.alloc())?;
    for row in ROWS {
        check(&rt, rt.alloc(), &circuit, row)?;
    }
    Ok(())
}
