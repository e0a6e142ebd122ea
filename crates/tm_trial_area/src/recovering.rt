// Mappings and what is recovered of them.

use std::alloc::Global;
use std::process::Abort;
use std::test::Fail;
use tm_area::recover;
use tm_labels::settle_outputs;
use tm_trial::{circuit, mapping};
use tm_unroll::{Lut, lawful};

/// A circuit, the tables that a settling for a target gives it, and those that are recovered.
#[derive(Clone, Copy)]
struct Row<'a> {
    latches: &'a str,
    gates: &'a str,
    outputs: &'a str,
    k: u8,
    d: u8,
    target: u32,
    given: &'a str,
    recovered: &'a str,
}

const ROWS: [Row<'static>; 3] = [
    // A gate off the longest chain is covered twice in place of a table of its own.
    Row {
        latches: "q 5;",
        gates: "g 1 2;h 3 0;i 1 2;j 5 1;k 4 4;l 4 5;m 9 1;n 9 2;",
        outputs: "11 10",
        k: 3,
        d: 0,
        target: 2,
        given: "4.0 1.0 2.0;5.0 0.0 3.0;10.0 1.0 4.0 5.0;11.0 2.0 4.0 5.0;",
        recovered: "5.0 0.0 3.0;10.0 1.0 2.0 5.0;11.0 1.0 2.0 5.0;",
    },
    // A latch is read where the register was moved over a gate behind it; the loop keeps its register in the table at lag 1.
    Row {
        latches: "q 6;r 12;",
        gates: "g 4 4;h 2 1;i 2 5;j 0 2;k 2 1;l 2 4;m 3 5;n 11 11;o 0 5;",
        outputs: "13 12",
        k: 3,
        d: 1,
        target: 1,
        given: "5.1 12.0;12.1 1.0 2.0 12.0;13.0 0.0 5.0;",
        recovered: "12.1 1.0 2.0 12.0;13.0 0.0 4.0;",
    },
    // A table at lag 1 goes through the registers of a loop to their latches.
    Row {
        latches: "q 10;r 10;",
        gates: "g 2 0;h 3 4;i 4 4;j 7 3;k 2 4;l 9 8;m 3 6;",
        outputs: "11 10",
        k: 3,
        d: 1,
        target: 1,
        given: "8.1 2.0 4.0 8.0;10.0 2.0 4.0 8.0;11.1 2.0 4.0 8.0;",
        recovered: "10.0 2.0 3.0 4.0;11.1 2.0 3.0 4.0;",
    },
];

fn are_same(lut: &Lut, other: &Lut) -> bool {
    lut.gate.0 == other.gate.0
        && lut.lag == other.lag
        && lut.leaves.as_slice() == other.leaves.as_slice()
}

fn check(rt: &impl Abort, alloc: Global, row: Row) -> Result<(), Fail> {
    let Row { k, d, target, .. } = row;
    let circuit = circuit(alloc, "a b c", row.latches, row.gates, row.outputs)?;
    let given = mapping(alloc, row.given)?;
    assert!(rt; 2 <= k && k <= 8 && d <= 8 && circuit.widest() <= u32::from(k));
    assert!(rt; target <= 100_000);
    if lawful(alloc, &circuit, k, d, &given)?.is_some() {
        return Err("not lawful")?;
    }
    let settled = settle_outputs(alloc, 0, &circuit, k, d, target)?;
    let new = recover(alloc, &circuit, k, d, &settled, given)?;
    let expected = mapping(alloc, row.recovered)?;
    assert_eq!(rt; new.luts.len(), expected.luts.len(), "{}", row.recovered);
    for (lut, other) in new.luts.iter().zip(&expected.luts) {
        assert!(rt; are_same(lut, other), "{}", row.recovered);
    }
    Ok(())
}

#[test]
fn recovered_tables(rt: HostRuntime) -> Result<(), Fail> {
    let alloc = rt.alloc();
    for row in ROWS {
        check(&rt, alloc, row)?;
    }
    Ok(())
}
