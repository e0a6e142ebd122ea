// Broken texts with their first faults, and texts with their circuits.

use blif_read::{BlifFault, BlifKind, Limits, MAPPED, SOURCE, read};
use blif_write::text;
use std::alloc::{AllocError, Global};
use std::test::Fail;
use tm_circuit::{Circuit, Edge};

/// The fault that a text has within limits, if it has one.
fn fault_within(alloc: Global, text: &[u8], limits: &Limits) -> Option<BlifFault> {
    if text.len() >= 1 << 32 || limits.signals > MAPPED.signals || limits.name > MAPPED.name {
        return None;
    }
    read(alloc, text, limits).err()
}

/// The fault of a kind at a line.
type Fault = (u32, BlifKind);

/// Whether what was found is the fault of this kind at this line, or none where there is none.
fn is_fault(found: Option<BlifFault>, wanted: Option<Fault>) -> bool {
    found == wanted.map(|(line, kind)| BlifFault::Text { line, kind })
}

/// A text with its first fault, or none.
struct Row<'a> {
    text: &'a str,
    fault: Option<Fault>,
}

const ROWS: &[Row<'static>] = &[
    Row {
        text: ".mod",
        fault: Some((1, BlifKind::UnknownWord)),
    },
    Row {
        text: ".model",
        fault: Some((1, BlifKind::BadCount)),
    },
    Row {
        text: ".model toggle\n.inputs en\n.outputs q\n",
        fault: Some((3, BlifKind::Undriven)),
    },
    Row {
        text: ".model toggle\n.inputs en\n.outputs q\n.latch d",
        fault: Some((4, BlifKind::BadCount)),
    },
    Row {
        text: ".model toggle\n.inputs en\n.outputs q\n.latch d q",
        fault: Some((4, BlifKind::UnknownInit)),
    },
    Row {
        text: ".model toggle\n.inputs en\n.outputs q\n.latch d q 0\n",
        fault: Some((4, BlifKind::Undriven)),
    },
    Row {
        text: ".model toggle\n.inputs en\n.outputs q\n.latch d q 0\n.names e",
        fault: Some((4, BlifKind::Undriven)),
    },
    Row {
        text: ".model toggle\n.inputs en\n.outputs q\n.latch d q 0\n.names en",
        fault: Some((5, BlifKind::RepeatedDriver)),
    },
    Row {
        text: ".model l\n.inputs a\n.outputs x\n.names y a x\n11 1\n.names x a y\n11 1\n.end",
        fault: Some((0, BlifKind::Loop)),
    },
    Row {
        text: ".model m\n.inputs a\n.outputs q r\n.latch a q re c1 0\n.latch a r re c2 0\n.end",
        fault: Some((5, BlifKind::ManyClocks)),
    },
    Row {
        text: ".model v\n.inputs a\n.outputs z\n.end",
        fault: Some((3, BlifKind::Undriven)),
    },
    Row {
        text: ".model t\n.inputs a b\n.outputs y\n.names a b y\n1",
        fault: Some((5, BlifKind::BadRow)),
    },
    Row {
        text: ".model g\n.inputs a\n.outputs q\n.latch a q re k 0\n.names a k\n1 1\n.end",
        fault: Some((5, BlifKind::GatedClock)),
    },
    Row {
        text: ".model h\n.inputs a\n.gate and2 A=a\n.end",
        fault: Some((3, BlifKind::LeftOut)),
    },
    Row {
        text: ".model u\n.inputs a\n.outputs q\n.latch a q\n.end",
        fault: Some((4, BlifKind::UnknownInit)),
    },
    Row {
        text: ".inputs a\\b",
        fault: Some((1, BlifKind::BadByte)),
    },
    Row {
        text: ".inputs a a\n.outputs b\x01",
        fault: Some((2, BlifKind::BadByte)),
    },
    Row {
        text: ".foo",
        fault: Some((1, BlifKind::UnknownWord)),
    },
    Row {
        text: ".end\n.foo",
        fault: Some((2, BlifKind::UnknownWord)),
    },
    Row {
        text: ".model a\n.model b c",
        fault: Some((2, BlifKind::LeftOut)),
    },
    Row {
        text: ".end\n.subckt m a=b",
        fault: Some((2, BlifKind::LeftOut)),
    },
    Row {
        text: "11 1\n.model a",
        fault: Some((1, BlifKind::Misplaced)),
    },
    Row {
        text: ".inputs a\n.model b c",
        fault: Some((2, BlifKind::Misplaced)),
    },
    Row {
        text: ".end\n.inputs a a",
        fault: Some((2, BlifKind::Misplaced)),
    },
    Row {
        text: ".inputs a\n.names a y\n1 1\n.end\n1 1",
        fault: Some((5, BlifKind::Misplaced)),
    },
    Row {
        text: ".inputs a\n.latch a q 0\n1 1\n.latch a q 0",
        fault: Some((3, BlifKind::Misplaced)),
    },
    Row {
        text: ".names",
        fault: Some((1, BlifKind::BadCount)),
    },
    Row {
        text: ".inputs q\n.latch a q re c 0 1",
        fault: Some((2, BlifKind::BadCount)),
    },
    Row {
        text: ".end here",
        fault: Some((1, BlifKind::BadCount)),
    },
    Row {
        text: ".inputs a a",
        fault: Some((1, BlifKind::RepeatedDriver)),
    },
    Row {
        text: ".inputs a\n.latch a a xx c 7",
        fault: Some((2, BlifKind::RepeatedDriver)),
    },
    Row {
        text: ".inputs y\n.names y\n2 2",
        fault: Some((2, BlifKind::RepeatedDriver)),
    },
    Row {
        text: ".outputs a a",
        fault: Some((1, BlifKind::RepeatedOutput)),
    },
    Row {
        text: ".inputs a\n.outputs a\n.outputs b a\n.names c a",
        fault: Some((3, BlifKind::RepeatedOutput)),
    },
    Row {
        text: ".inputs a\n.names a y\n1 1 1",
        fault: Some((3, BlifKind::BadRow)),
    },
    Row {
        text: ".inputs a\n.names a y\n1 1\n2 0",
        fault: Some((4, BlifKind::BadRow)),
    },
    Row {
        text: ".names y\n- 1",
        fault: Some((2, BlifKind::BadRow)),
    },
    Row {
        text: ".inputs a\n.names a y\n1 1\n0 0",
        fault: Some((4, BlifKind::MixedRows)),
    },
    Row {
        text: ".inputs a\n.names a y\n1 1\n0 0\nx y",
        fault: Some((4, BlifKind::MixedRows)),
    },
    Row {
        text: ".inputs a\n.latch a q ah c 0",
        fault: Some((2, BlifKind::BadType)),
    },
    Row {
        text: ".inputs a\n.latch a q ah c 9",
        fault: Some((2, BlifKind::BadType)),
    },
    Row {
        text: ".inputs a\n.latch a q 4",
        fault: Some((2, BlifKind::BadInit)),
    },
    Row {
        text: ".inputs a\n.latch a p re c 0\n.latch a q re d x",
        fault: Some((3, BlifKind::BadInit)),
    },
    Row {
        text: ".inputs a\n.latch a q re c",
        fault: Some((2, BlifKind::UnknownInit)),
    },
    Row {
        text: ".inputs a\n.latch a p re c 0\n.latch a q re d 3",
        fault: Some((3, BlifKind::UnknownInit)),
    },
    Row {
        text: ".clock a b",
        fault: Some((1, BlifKind::ManyClocks)),
    },
    Row {
        text: ".inputs a\n.latch a p re c 0\n.latch b q 0",
        fault: Some((3, BlifKind::ManyClocks)),
    },
    Row {
        text: ".inputs a\n.latch a p re c 0\n.latch b q fe c 0",
        fault: Some((3, BlifKind::ManyClocks)),
    },
    Row {
        text: ".inputs a\n.latch a p re NIL 0\n.latch b q 0",
        fault: Some((3, BlifKind::Undriven)),
    },
    Row {
        text: ".names p y\n.outputs z",
        fault: Some((1, BlifKind::Undriven)),
    },
    Row {
        text: ".inputs a\n.latch z q re k 0\n.names k",
        fault: Some((2, BlifKind::Undriven)),
    },
    Row {
        text: ".clock k\n.names k\n.outputs k",
        fault: Some((2, BlifKind::GatedClock)),
    },
    Row {
        text: ".inputs a\n.latch k k re k 0",
        fault: Some((2, BlifKind::GatedClock)),
    },
    Row {
        text: ".inputs a k\n.latch a q re k 0\n.outputs k q",
        fault: Some((3, BlifKind::ClockAsData)),
    },
    Row {
        text: ".inputs a k\n.names k y\n.latch k q re k 0",
        fault: Some((2, BlifKind::ClockAsData)),
    },
    Row {
        text: ".names y y",
        fault: Some((0, BlifKind::Loop)),
    },
    Row {
        text: ".inputs a\n.outputs z\n.names y y\n.names a z",
        fault: Some((0, BlifKind::Loop)),
    },
    Row {
        text: "",
        fault: None,
    },
    Row {
        text: ".model toggle\n.inputs en\n",
        fault: None,
    },
    Row {
        text: ".model u\n.inputs a\n.outputs q\n.latch a q 2\n.end",
        fault: None,
    },
    Row {
        text: "\\",
        fault: None,
    },
    Row {
        text: "# only a comment \\",
        fault: None,
    },
    Row {
        text: ".inputs a \\\n b\r\n.outputs \\# more\n\\\n a\n.end",
        fault: None,
    },
    Row {
        text: ".attr x \x7f\n.model m\n.cname y\n.end\n.param z",
        fault: None,
    },
    Row {
        text: ".names y # no pins\n.attr src here\n1\\\n",
        fault: None,
    },
];

#[test]
fn texts_have_their_first_faults(rt: HostRuntime) {
    for row in ROWS {
        let found = fault_within(rt.alloc(), row.text.as_bytes(), &SOURCE);
        assert!(rt; is_fault(found, row.fault), "{}", row.text);
    }
}

const SMALL: Limits = Limits {
    signals: 2,
    name: 8,
};

/// Texts within the small limits.
const SMALL_ROWS: &[Row<'static>] = &[
    Row {
        text: ".inputs 12345678",
        fault: None,
    },
    Row {
        text: ".inputs 123456789",
        fault: Some((1, BlifKind::LongName)),
    },
    Row {
        text: ".foo\n.inputs a a 123456789\n.outputs \x02",
        fault: Some((2, BlifKind::LongName)),
    },
    Row {
        text: ".inputs 123456789 \x02",
        fault: Some((1, BlifKind::BadByte)),
    },
    Row {
        text: ".inputs k a b\n.clock k",
        fault: None,
    },
    Row {
        text: ".inputs a b c",
        fault: Some((0, BlifKind::TooManySignals)),
    },
    Row {
        text: ".inputs a b\n.names c\n.outputs c",
        fault: Some((0, BlifKind::TooManySignals)),
    },
    Row {
        text: ".inputs a b\n.names c c",
        fault: Some((0, BlifKind::TooManySignals)),
    },
    Row {
        text: ".inputs a b c k\n.clock k\n.outputs k",
        fault: Some((3, BlifKind::ClockAsData)),
    },
];

#[test]
fn limits_are_kept(rt: HostRuntime) {
    for row in SMALL_ROWS {
        let found = fault_within(rt.alloc(), row.text.as_bytes(), &SMALL);
        assert!(rt; is_fault(found, row.fault), "{}", row.text);
    }
}

/// A text in which a part stands several times.
struct Long<'a> {
    first: &'a str,
    part: &'a str,
    times: u32,
    last: &'a str,
    fault: Option<Fault>,
}

const LONG_ROWS: &[Long<'static>] = &[
    Long {
        first: ".inputs ",
        part: "n",
        times: 255,
        last: "\n",
        fault: None,
    },
    Long {
        first: ".inputs ",
        part: "n",
        times: 256,
        last: "\n",
        fault: Some((1, BlifKind::LongName)),
    },
    Long {
        first: ".inputs a\n.names",
        part: " a",
        times: 255,
        last: " y\n",
        fault: None,
    },
    Long {
        first: ".inputs a\n.names",
        part: " a",
        times: 256,
        last: " y\n2 2",
        fault: Some((2, BlifKind::TooManyPins)),
    },
    Long {
        first: ".inputs a\n.names",
        part: " a",
        times: 257,
        last: "\n",
        fault: Some((2, BlifKind::TooManyPins)),
    },
    Long {
        first: ".end\n.names",
        part: " a",
        times: 257,
        last: "\n",
        fault: Some((2, BlifKind::Misplaced)),
    },
];

/// The text of a row.
fn long_text(alloc: Global, row: &Long<'_>) -> Result<Vec<u8>, AllocError> {
    let mut text = Vec::from_slice(alloc, row.first.as_bytes())?;
    for _ in 0..row.times {
        text.extend_from_slice(row.part.as_bytes())?;
    }
    text.extend_from_slice(row.last.as_bytes())?;
    Ok(text)
}

#[test]
fn long_names_and_many_pins(rt: HostRuntime) -> Result<(), Fail> {
    for row in LONG_ROWS {
        let text = long_text(rt.alloc(), row)?;
        let found = fault_within(rt.alloc(), &text, &SOURCE);
        assert!(rt; is_fault(found, row.fault), "{} {}", row.first, row.times);
    }
    Ok(())
}

/// A text, and the text written of its circuit.
struct Read<'a> {
    text: &'a [u8],
    written: &'a [u8],
}

const READ: &[Read<'static>] = &[
    Read {
        text: b".model toggle\n.inputs en\n.outputs q\n.latch d q 0\n.names en q d\n10 1\n01 1\n.end\n",
        written: b".model toggle\n.inputs en\n.outputs q\n.latch d q 0\n.names en q d\n10 1\n01 1\n.end\n",
    },
    // A clock among the inputs, and a cover of the rows where it is 0.
    Read {
        text: b".inputs d clk\n.outputs q\n.names $true\n1\n.names d $true n\n0- 0\n-0 0\n.latch n q fe clk 1\n.end",
        written: b".model top\n.inputs d clk\n.outputs q\n.latch n q fe clk 1\n.names $true\n1\n.names d $true n\n0- 0\n-0 0\n.end\n",
    },
];

/// Whether a text has the circuit as written.
fn is_read(alloc: Global, row: &Read<'_>) -> Result<bool, Fail> {
    if row.text.len() >= 1 << 32 {
        return Ok(false);
    }
    let circuit = read(alloc, row.text, &SOURCE)?;
    Ok(text(alloc, &circuit)?.as_slice() == row.written)
}

/// Whether the circuit has a clock with a falling edge that stands behind the first input.
fn has_late_clock(circuit: &Circuit) -> bool {
    circuit.clock().is_some_and(|clock| {
        clock.edge == Some(Edge::Fall) && !clock.declared && clock.place == Some(1)
    })
}

#[test]
fn a_clock_stands_among_the_inputs(rt: HostRuntime) -> Result<(), Fail> {
    let circuit = read(
        rt.alloc(),
        b".inputs d clk\n.outputs q\n.latch d q fe clk 1",
        &SOURCE,
    )?;
    assert!(rt; has_late_clock(&circuit));
    Ok(())
}

#[test]
fn texts_have_their_circuits(rt: HostRuntime) -> Result<(), Fail> {
    for row in READ {
        assert!(rt; is_read(rt.alloc(), row)?);
    }
    Ok(())
}
