// Mappings with their periods, and beside each way to fail the nearest that does not.

use std::alloc::Global;
use tm_bits::{MOST_K, NoMemory};
use tm_circuit::Circuit;
use tm_trial::{TrialFault, circuit, mapping};
use tm_unroll::{MapWhy, Mapping, chain, lawful};

/// What a mapping must come to: its period, or its first fault with the entry.
#[derive(Clone, Copy, PartialEq, Eq)]
enum Comes {
    Period(u32),
    Fault(u32, MapWhy),
}

/// Mappings of a circuit.
struct Group<'a> {
    inputs: &'a str,
    latches: &'a str,
    gates: &'a str,
    outputs: &'a str,
    rows: &'a [Row<'a>],
}

struct Row<'a> {
    k: u8,
    d: u8,
    tables: &'a str,
    comes: Comes,
}

const GROUPS: &[Group<'static>] = &[
    // Two gates over two latches each, a gate over both, and a latch behind it.
    Group {
        inputs: "a b c d",
        latches: "p 0;q 1;r 2;s 3;y 11;",
        gates: "g 4 5;h 6 7;k 9 10;",
        outputs: "8",
        rows: &[
            Row {
                k: 3,
                d: 0,
                tables: "9.0 4.0 5.0;10.0 6.0 7.0;11.0 9.0 10.0;",
                comes: Comes::Period(2),
            },
            Row {
                k: 3,
                d: 0,
                tables: "9.0 4.0 5.0;10.0 6.0 7.0;11.0 4.0 9.0 10.0;",
                comes: Comes::Period(2),
            },
            Row {
                k: 4,
                d: 0,
                tables: "11.0 4.0 5.0 6.0 7.0;",
                comes: Comes::Period(1),
            },
            Row {
                k: 3,
                d: 0,
                tables: "9.0 4.0 5.0 10.0;",
                comes: Comes::Fault(1, MapWhy::Uncovered),
            },
            Row {
                k: 3,
                d: 0,
                tables: "9.0 4.0 5.0 10.0;10.0 6.0 7.0 9.0;",
                comes: Comes::Fault(1, MapWhy::Uncovered),
            },
            Row {
                k: 3,
                d: 0,
                tables: "11.0 4.0 9.0;",
                comes: Comes::Fault(1, MapWhy::Uncovered),
            },
            Row {
                k: 3,
                d: 0,
                tables: "9.0 4.0 99.0;",
                comes: Comes::Fault(1, MapWhy::Leaves),
            },
            Row {
                k: 3,
                d: 0,
                tables: "11.0 4.0 5.0 6.0 7.0;",
                comes: Comes::Fault(1, MapWhy::Leaves),
            },
            Row {
                k: 3,
                d: 0,
                tables: "9.0 5.0 4.0;",
                comes: Comes::Fault(1, MapWhy::Leaves),
            },
            Row {
                k: 3,
                d: 0,
                tables: "9.0 4.0 4.0;",
                comes: Comes::Fault(1, MapWhy::Leaves),
            },
            Row {
                k: 3,
                d: 0,
                tables: "99.0 4.0;",
                comes: Comes::Fault(1, MapWhy::Lag),
            },
            Row {
                k: 3,
                d: 0,
                tables: "8.0 4.0;",
                comes: Comes::Fault(1, MapWhy::Lag),
            },
            Row {
                k: 3,
                d: 0,
                tables: "9.1 0.0 1.0;",
                comes: Comes::Fault(1, MapWhy::Lag),
            },
            Row {
                k: 3,
                d: 0,
                tables: "9.0 4.0 5.0;9.0 4.0 5.0;",
                comes: Comes::Fault(2, MapWhy::Lag),
            },
            Row {
                k: 3,
                d: 0,
                tables: "9.0 4.0 5.0;10.0 6.0 7.0;",
                comes: Comes::Fault(1, MapWhy::Output),
            },
            Row {
                k: 3,
                d: 0,
                tables: "9.0 4.0 5.0;11.0 9.0 10.0;",
                comes: Comes::Fault(2, MapWhy::Unserved),
            },
            Row {
                k: 3,
                d: 0,
                tables: "",
                comes: Comes::Fault(1, MapWhy::Output),
            },
            Row {
                k: 2,
                d: 1,
                tables: "9.1 0.0 1.0;10.1 2.0 3.0;11.0 9.0 10.0;",
                comes: Comes::Period(1),
            },
            Row {
                k: 2,
                d: 1,
                tables: "9.0 4.0 5.0;10.1 2.0 3.0;11.0 9.0 10.0;",
                comes: Comes::Period(2),
            },
            Row {
                k: 2,
                d: 1,
                tables: "9.1 0.0 4.0;",
                comes: Comes::Fault(1, MapWhy::Uncovered),
            },
        ],
    },
    // A latch inside a table, and one behind it.
    Group {
        inputs: "a b d e f",
        latches: "q 7;c 2;",
        gates: "x 0 1;g 5 6;y 8 3 4;",
        outputs: "9",
        rows: &[
            Row {
                k: 3,
                d: 1,
                tables: "8.1 0.0 1.0 2.0;9.0 3.0 4.0 8.0;",
                comes: Comes::Period(1),
            },
            Row {
                k: 3,
                d: 1,
                tables: "8.0 0.0 1.0 2.0;9.0 3.0 4.0 8.0;",
                comes: Comes::Fault(1, MapWhy::Uncovered),
            },
            Row {
                k: 3,
                d: 1,
                tables: "8.1 0.0 1.0 2.0;9.0 3.0 4.0 8.1;",
                comes: Comes::Fault(2, MapWhy::Leaves),
            },
            Row {
                k: 3,
                d: 1,
                tables: "8.1 5.1 6.1;",
                comes: Comes::Fault(1, MapWhy::Leaves),
            },
            Row {
                k: 3,
                d: 1,
                tables: "8.1 0.0 1.0 2.0;9.1 3.1 4.1 8.1;",
                comes: Comes::Fault(2, MapWhy::Leaves),
            },
            Row {
                k: 3,
                d: 1,
                tables: "8.1 0.0 1.0 2.0;9.1 8.1;",
                comes: Comes::Fault(2, MapWhy::Uncovered),
            },
        ],
    },
    // A counter of two bits.
    Group {
        inputs: "",
        latches: "q 2;r 3;",
        gates: "n 0;m 0 1;",
        outputs: "1 0",
        rows: &[
            Row {
                k: 2,
                d: 2,
                tables: "2.1 2.0;3.2 2.1 3.1;",
                comes: Comes::Period(2),
            },
            Row {
                k: 2,
                d: 2,
                tables: "2.0 0.0;3.2 2.1 3.1;",
                comes: Comes::Fault(2, MapWhy::Unserved),
            },
            Row {
                k: 2,
                d: 2,
                tables: "3.0 0.0 1.0;",
                comes: Comes::Fault(1, MapWhy::Unserved),
            },
            Row {
                k: 2,
                d: 2,
                tables: "2.0 0.0;3.0 0.0 1.0;",
                comes: Comes::Period(1),
            },
            Row {
                k: 2,
                d: 2,
                tables: "2.0 0.0;",
                comes: Comes::Fault(1, MapWhy::Output),
            },
        ],
    },
    // An input that is read through a latch and without one.
    Group {
        inputs: "a b",
        latches: "q 1;r 0;",
        gates: "g 2 0;h 2 3;",
        outputs: "4 5",
        rows: &[
            Row {
                k: 2,
                d: 1,
                tables: "4.0 0.0 2.0;5.1 0.0 1.0;",
                comes: Comes::Period(1),
            },
            Row {
                k: 2,
                d: 1,
                tables: "4.1 0.0 1.0;5.1 0.0 1.0;",
                comes: Comes::Fault(1, MapWhy::Uncovered),
            },
            Row {
                k: 2,
                d: 1,
                tables: "4.0 0.0 2.0;",
                comes: Comes::Fault(2, MapWhy::Output),
            },
        ],
    },
    // A ring of latches.
    Group {
        inputs: "",
        latches: "r 1;s 0;",
        gates: "g 0;",
        outputs: "2",
        rows: &[
            Row {
                k: 2,
                d: 1,
                tables: "2.1 1.0;",
                comes: Comes::Period(1),
            },
            Row {
                k: 2,
                d: 1,
                tables: "2.1 0.0;",
                comes: Comes::Fault(1, MapWhy::Uncovered),
            },
        ],
    },
    // A constant.
    Group {
        inputs: "",
        latches: "",
        gates: "y;",
        outputs: "0",
        rows: &[
            Row {
                k: 2,
                d: 1,
                tables: "0.1;",
                comes: Comes::Period(1),
            },
            Row {
                k: 2,
                d: 1,
                tables: "0.0 0.0;",
                comes: Comes::Fault(1, MapWhy::Uncovered),
            },
        ],
    },
    // A gate that reads a later one.
    Group {
        inputs: "a",
        latches: "",
        gates: "g 2;h 0;",
        outputs: "1",
        rows: &[
            Row {
                k: 2,
                d: 0,
                tables: "1.0 2.0;2.0 0.0;",
                comes: Comes::Period(2),
            },
            Row {
                k: 2,
                d: 0,
                tables: "1.0 2.0;2.0 7.0;",
                comes: Comes::Fault(2, MapWhy::Leaves),
            },
            Row {
                k: 2,
                d: 0,
                tables: "2.0 0.0;1.0 2.0;",
                comes: Comes::Fault(2, MapWhy::Lag),
            },
        ],
    },
    // An output that is an input, so that any gate may be left out; a gate behind a gate and a latch, and a constant that is read.
    Group {
        inputs: "a b c d",
        latches: "q1 0;q2 1;q3 2;q4 3;r 9;",
        gates: "g1 4 5;g2 6 7;g3 9 10;h 8 4;one;s 4 13;",
        outputs: "0",
        rows: &[
            Row {
                k: 4,
                d: 1,
                tables: "",
                comes: Comes::Period(0),
            },
            Row {
                k: 4,
                d: 1,
                tables: "9.1 0.0 1.0;10.1 2.0 3.0;11.1 9.1 10.1;",
                comes: Comes::Period(2),
            },
            Row {
                k: 4,
                d: 1,
                tables: "9.0 4.0 5.0;12.1 0.0 9.0;",
                comes: Comes::Period(2),
            },
            Row {
                k: 4,
                d: 1,
                tables: "9.1 0.0 1.0;12.1 0.0 9.0;",
                comes: Comes::Period(1),
            },
            Row {
                k: 4,
                d: 1,
                tables: "13.0;",
                comes: Comes::Period(1),
            },
            Row {
                k: 4,
                d: 1,
                tables: "13.0;14.0 4.0 13.0;",
                comes: Comes::Period(2),
            },
        ],
    },
];

/// What a mapping comes to, and a fault of the entry 0, which there is none of, where `k` or `d` is out of range.
fn outcome(
    alloc: Global,
    circuit: &Circuit,
    k: u8,
    d: u8,
    mapping: &Mapping,
) -> Result<Comes, NoMemory> {
    if k < 2 || k > MOST_K || d > 8 || circuit.widest() > u32::from(k) {
        return Ok(Comes::Fault(0, MapWhy::Lag));
    }
    Ok(match lawful(alloc, circuit, k, d, mapping)? {
        None => Comes::Period(chain(alloc, circuit, k, d, mapping)?),
        Some(fault) => Comes::Fault(fault.entry, fault.why),
    })
}

/// What the tables of a row come to.
fn outcome_of(alloc: Global, group: &Group<'_>, row: &Row<'_>) -> Result<Comes, TrialFault> {
    let circuit = circuit(
        alloc,
        group.inputs,
        group.latches,
        group.gates,
        group.outputs,
    )?;
    let mapping = mapping(alloc, row.tables)?;
    Ok(outcome(alloc, &circuit, row.k, row.d, &mapping)?)
}

#[test]
fn mappings_are_judged_and_measured(rt: HostRuntime) {
    for group in GROUPS {
        for row in group.rows {
            assert!(rt;
                outcome_of(rt.alloc(), group, row) == Ok(row.comes),
                "{}",
                row.tables
            );
        }
    }
}
