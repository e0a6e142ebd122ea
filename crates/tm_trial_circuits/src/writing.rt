// Texts of circuits, byte by byte.

use blif_write::text;
use std::alloc::{AllocError, Global};
use tm_circuit::{Circuit, Clock, Name, Parts};
use tm_trial::{TrialFault, circuit};

/// A circuit without a clock, and its text behind the model's name.
struct Row<'a> {
    inputs: &'a str,
    latches: &'a str,
    gates: &'a str,
    outputs: &'a str,
    text: &'a str,
}

const ROWS: &[Row<'static>] = &[
    Row {
        inputs: "en",
        latches: "q 2;",
        gates: "d 0 1 =01,10;",
        outputs: "1",
        text: ".inputs en\n.outputs q\n.latch d q 0\n.names en q d\n01 1\n10 1\n.end\n",
    },
    Row {
        inputs: "",
        latches: "",
        gates: "y =,;",
        outputs: "0",
        text: ".inputs\n.outputs y\n.names y\n1\n.end\n",
    },
    Row {
        inputs: "a",
        latches: "",
        gates: "",
        outputs: "0",
        text: ".inputs a\n.outputs a\n.end\n",
    },
    Row {
        inputs: "",
        latches: "r 1;s 0 1;",
        gates: "",
        outputs: "0",
        text: ".inputs\n.outputs r\n.latch s r 0\n.latch r s 1\n.end\n",
    },
    // A gate without rows, and an off cover.
    Row {
        inputs: "a",
        latches: "q 3 1;",
        gates: "z 0;y 0 1 0 !1-0,0-1;",
        outputs: "3 2",
        text: ".inputs a\n.outputs y z\n.latch y q 1\n.names a z\n.names a q a y\n1-0 0\n0-1 0\n.end\n",
    },
];

/// Whether a row is as written.
fn holds(alloc: Global, row: &Row<'_>) -> Result<bool, TrialFault> {
    let circuit = circuit(alloc, row.inputs, row.latches, row.gates, row.outputs)?;
    Ok(text(alloc, &circuit)?.strip_prefix(b".model tried\n") == Some(row.text.as_bytes()))
}

#[test]
fn circuits_are_written(rt: HostRuntime) {
    for row in ROWS {
        assert!(rt; holds(rt.alloc(), row) == Ok(true), "{}", row.gates);
    }
}

fn name(alloc: Global, text: &str) -> Result<Name, AllocError> {
    Ok(Name::new(Vec::from_slice(alloc, text.as_bytes())?))
}

/// The text of a circuit of the input a and a clock.
fn clocked(alloc: Global, place: u32) -> Result<Vec<u8>, TrialFault> {
    let clock = Clock {
        name: name(alloc, "clk")?,
        edge: None,
        declared: true,
        place: Some(place),
    };
    let mut parts = Parts {
        model: name(alloc, "idle")?,
        clock: Some(clock),
        inputs: Vec::new(alloc),
        latches: Vec::new(alloc),
        gates: Vec::new(alloc),
        outputs: Vec::new(alloc),
    };
    parts.inputs.push(name(alloc, "a")?)?;
    Ok(text(alloc, &Circuit::build(alloc, parts)?)?)
}

#[test]
fn a_clock_is_written_in_its_place(rt: HostRuntime) -> Result<(), TrialFault> {
    let first = b".model idle\n.inputs clk a\n.outputs\n.clock clk\n.end\n";
    assert!(rt; clocked(rt.alloc(), 0)?.as_slice() == first.as_slice());
    let second = b".model idle\n.inputs a clk\n.outputs\n.clock clk\n.end\n";
    assert!(rt; clocked(rt.alloc(), 1)?.as_slice() == second.as_slice());
    Ok(())
}
