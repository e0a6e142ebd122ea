// Twins, and the circuits in which they are read, written out.

use blif_write::text;
use std::alloc::Global;
use tm_bits::NoMemory;
use tm_circuit::Circuit;
use tm_trial::{TrialFault, circuit};
use tm_twins::{joined, twins};

/// Latches behind the input 0 and before a gate, the twin of each signal, and the body of the joined circuit.
struct Row<'a> {
    latches: &'a str,
    gate: &'a str,
    twins: &'a [u32],
    body: &'a str,
}

const ROWS: &[Row<'static>] = &[
    // two latches in a row, twice, with the same words
    Row {
        latches: "p 0;q 1 1;r 0;s 3 1;",
        gate: "g 1 2 3 4;",
        twins: &[0, 1, 2, 1, 2, 5],
        body: ".latch a p 0\n.latch p q 1\n.latch a r 0\n.latch p s 1\n.names p q p q g\n",
    },
    // the same with another initial value next to the source
    Row {
        latches: "p 0;q 1 1;r 0 1;s 3 1;",
        gate: "g 1 2 3 4;",
        twins: &[0, 1, 2, 3, 4, 5],
        body: ".latch a p 0\n.latch p q 1\n.latch a r 1\n.latch r s 1\n.names p q r s g\n",
    },
    // two latches of one gate, with different initial values and with the same
    Row {
        latches: "p 3;q 3 1;",
        gate: "g 1 2;",
        twins: &[0, 1, 2, 3],
        body: ".latch g p 0\n.latch g q 1\n.names p q g\n",
    },
    Row {
        latches: "p 3;q 3;",
        gate: "g 1 2;",
        twins: &[0, 1, 1, 3],
        body: ".latch g p 0\n.latch g q 0\n.names p p g\n",
    },
    // a chain whose latch next to the source is met before a lesser one that is equal to it
    Row {
        latches: "p 3;q 0;r 0;s 2;",
        gate: "g 1 2 3 4;",
        twins: &[0, 1, 2, 2, 1, 5],
        body: ".latch q p 0\n.latch a q 0\n.latch a r 0\n.latch q s 0\n.names p q q p g\n",
    },
    // words of different lengths, and sources that differ
    Row {
        latches: "p 0;q 1;r 4;",
        gate: "g 1 2 3;",
        twins: &[0, 1, 2, 3, 4],
        body: ".latch a p 0\n.latch p q 0\n.latch g r 0\n.names p q r g\n",
    },
    // a ring, and two latches that lead into it
    Row {
        latches: "p 2;q 1;r 1;s 1;",
        gate: "g 1 2 3 4;",
        twins: &[0, 1, 2, 3, 4, 5],
        body: ".latch q p 0\n.latch p q 0\n.latch p r 0\n.latch p s 0\n.names p q r s g\n",
    },
];

/// Whether each signal has the twin of the row.
fn has_twins(alloc: Global, circuit: &Circuit, row: &Row<'_>) -> Result<bool, NoMemory> {
    let twins = twins(alloc, circuit)?;
    Ok(twins.iter().map(|s| s.0).eq(row.twins.iter().copied()))
}

/// Whether the joined circuit has the body of the row.
fn has_body(alloc: Global, circuit: &Circuit, row: &Row<'_>) -> Result<bool, NoMemory> {
    let written = text(alloc, &joined(alloc, circuit)?)?;
    let body = written
        .strip_prefix(b".model tried\n.inputs a\n.outputs a\n")
        .and_then(|rest| rest.strip_suffix(b".end\n"));
    Ok(body == Some(row.body.as_bytes()))
}

/// Whether a row is as written.
fn holds(alloc: Global, row: &Row<'_>) -> Result<bool, TrialFault> {
    let circuit = circuit(alloc, "a", row.latches, row.gate, "0")?;
    Ok(has_twins(alloc, &circuit, row)? && has_body(alloc, &circuit, row)?)
}

#[test]
fn twins_are_joined(rt: HostRuntime) {
    for row in ROWS {
        assert!(rt; holds(rt.alloc(), row) == Ok(true), "{}", row.latches);
    }
}
