// Mappings and what is left of them.

use std::alloc::Global;
use std::process::Abort;
use std::test::Fail;
use tm_absorb::absorb;
use tm_circuit::Circuit;
use tm_trial::{circuit, mapping};
use tm_unroll::{Lut, lawful};

/// Mappings of a circuit.
struct Group<'a> {
    inputs: &'a str,
    latches: &'a str,
    gates: &'a str,
    outputs: &'a str,
    rows: &'a [Row<'a>],
}

/// A mapping and the absorbed one.
#[derive(Clone, Copy)]
struct Row<'a> {
    k: u8,
    d: u8,
    given: &'a str,
    absorbed: &'a str,
}

const GROUPS: &[Group<'static>] = &[
    // Two gates over two latches each, a gate over both, and a latch behind it.
    Group {
        inputs: "a b c d",
        latches: "p 0;q 1;r 2;s 3;y 11;",
        gates: "g 4 5;h 6 7;k 9 10;",
        outputs: "8",
        rows: &[
            Row {
                k: 2,
                d: 0,
                given: "9.0 4.0 5.0;10.0 6.0 7.0;11.0 9.0 10.0;",
                absorbed: "9.0 4.0 5.0;10.0 6.0 7.0;11.0 9.0 10.0;",
            },
            // The lesser gate goes first.
            Row {
                k: 3,
                d: 0,
                given: "9.0 4.0 5.0;10.0 6.0 7.0;11.0 9.0 10.0;",
                absorbed: "10.0 6.0 7.0;11.0 4.0 5.0 10.0;",
            },
            Row {
                k: 4,
                d: 0,
                given: "9.0 4.0 5.0;10.0 6.0 7.0;11.0 9.0 10.0;",
                absorbed: "11.0 4.0 5.0 6.0 7.0;",
            },
            // The gates are read at another advance than their lag.
            Row {
                k: 8,
                d: 1,
                given: "9.1 0.0 1.0;10.1 2.0 3.0;11.0 9.0 10.0;",
                absorbed: "9.1 0.0 1.0;10.1 2.0 3.0;11.0 9.0 10.0;",
            },
            // A table that nothing reads goes.
            Row {
                k: 4,
                d: 0,
                given: "9.0 4.0 5.0;11.0 4.0 5.0 6.0 7.0;",
                absorbed: "11.0 4.0 5.0 6.0 7.0;",
            },
        ],
    },
    // A gate that the latch in front of it holds, read by another gate.
    Group {
        inputs: "a",
        latches: "q 2;",
        gates: "g 0 1;h 0 2;",
        outputs: "3",
        rows: &[Row {
            k: 3,
            d: 0,
            given: "2.0 0.0 1.0;3.0 0.0 2.0;",
            absorbed: "2.0 0.0 1.0;3.0 0.0 2.0;",
        }],
    },
];

fn are_same(lut: &Lut, other: &Lut) -> bool {
    lut.gate.0 == other.gate.0
        && lut.lag == other.lag
        && lut.leaves.as_slice() == other.leaves.as_slice()
}

fn check(rt: &impl Abort, alloc: Global, circuit: &Circuit, row: Row) -> Result<(), Fail> {
    let Row { k, d, .. } = row;
    let given = mapping(alloc, row.given)?;
    assert!(rt; 2 <= k && k <= 8 && d <= 8 && circuit.widest() <= u32::from(k));
    if lawful(alloc, circuit, k, d, &given)?.is_some() {
        return Err("not lawful")?;
    }
    let new = absorb(alloc, circuit, k, d, &given)?;
    let expected = mapping(alloc, row.absorbed)?;
    assert_eq!(rt; new.luts.len(), expected.luts.len(), "{}", row.absorbed);
    for (lut, other) in new.luts.iter().zip(&expected.luts) {
        assert!(rt; are_same(lut, other), "{}", row.absorbed);
    }
    Ok(())
}

#[test]
fn absorbed_tables(rt: HostRuntime) -> Result<(), Fail> {
    let alloc = rt.alloc();
    for group in GROUPS {
        let circuit = circuit(
            alloc,
            group.inputs,
            group.latches,
            group.gates,
            group.outputs,
        )?;
        for row in group.rows {
            check(&rt, alloc, &circuit, *row)?;
        }
    }
    Ok(())
}
