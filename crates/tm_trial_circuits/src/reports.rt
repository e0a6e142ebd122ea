// Reports of a few circuits written out.

use std::alloc::Global;
use tm_bits::NoMemory;
use tm_circuit::Circuit;
use tm_report::show;
use tm_trial::{TrialFault, circuit};

/// A circuit, and the lines of its report behind the model's name.
struct Row<'a> {
    inputs: &'a str,
    latches: &'a str,
    gates: &'a str,
    outputs: &'a str,
    lines: &'a str,
}

const ROWS: &[Row<'static>] = &[
    Row {
        inputs: "a b",
        latches: "q 4;",
        gates: "new_n4 0 1;n5 3 2;y 2;",
        outputs: "5",
        lines: "inputs 2 outputs 1 latches 1 gates 3\nwidest 2\nperiod 2\nchain new_n4 n5\nslack new_n4 0\nslack n5 0\nslack y 1\n",
    },
    Row {
        inputs: "a",
        latches: "",
        gates: "",
        outputs: "0",
        lines: "inputs 1 outputs 1 latches 0 gates 0\nwidest 0\nperiod 0\nchain\n",
    },
    // Several longest chains.
    Row {
        inputs: "a",
        latches: "",
        gates: "p 3;q 3;r 0;s 0;t 4 4;u 2 5;v 1 0;w 5;x 0;y 9;z;",
        outputs: "6 7 8",
        lines: "inputs 1 outputs 3 latches 0 gates 11\nwidest 2\nperiod 3\nchain r p v\nslack p 0\nslack q 0\nslack r 0\n\
            slack s 0\nslack t 0\nslack u 0\nslack v 0\nslack w 0\nslack x 1\nslack y 1\nslack z 2\n",
    },
];

/// The lines of a circuit's report, one after the other.
fn report(alloc: Global, circuit: &Circuit) -> Result<Vec<u8>, NoMemory> {
    let lines = show(alloc, circuit)?;
    let mut text = Vec::new(alloc);
    for line in &lines {
        text.extend_from_slice(line)?;
        text.push(b'\n')?;
    }
    Ok(text)
}

/// Whether a row is as written.
fn holds(alloc: Global, row: &Row<'_>) -> Result<bool, TrialFault> {
    let circuit = circuit(alloc, row.inputs, row.latches, row.gates, row.outputs)?;
    let report = report(alloc, &circuit)?;
    Ok(report.strip_prefix(b"model tried\n") == Some(row.lines.as_bytes()))
}

#[test]
fn reports_are_as_written_out(rt: HostRuntime) {
    for row in ROWS {
        assert!(rt; holds(rt.alloc(), row) == Ok(true), "{}", row.gates);
    }
}
