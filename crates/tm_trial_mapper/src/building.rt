// Mapped circuits of a few mappings, written out by hand.

ghost use Rattle.std.specs.Prelude.{IsTrue, ◌≤◌};
ghost use Rattle.tm_bits.specs.Limits.{most_inputs};
ghost use Rattle.tm_circuit.specs.Plain.{widest};
ghost use Rattle.tm_parts.specs.Fits.{FitsMapping};

use smallvec::SmallVec;
use std::alloc::Global;
use std::test::Fail;
use tm_bits::{Cover, Place, Row};
use tm_circuit::{Circuit, Clock, Driver, Edge, GatePart, LatchPart, Name, Parts, Signal};
use tm_net::mapped;
use tm_parts::{has_names_within, laws, name_of};
use tm_unroll::{Lut, Mapping, Node, lawful};

/// A latch, by its next and its initial value.
struct LatchRow {
    name: &'static str,
    next: u32,
    init: bool,
}

/// A gate, by its pins and the rows where it is 1.
struct GateRow {
    name: &'static str,
    pins: &'static [u32],
    rows: &'static [&'static str],
}

/// A circuit, a mapping of it with a table in each line, spelled as its root and its leaves, and the mapped circuit as a text.
#[derive(Drop)]
struct Case {
    /// The number of inputs before the clock `clk`, where there is a clock; none for a clock that is no input.
    clock: Option<Option<u32>>,
    inputs: &'static [&'static str],
    latches: &'static [LatchRow],
    gates: &'static [GateRow],
    outputs: &'static [u32],
    mapping: &'static str,
    want: &'static str,
}

const CASES: [Case; 6] = [
    // A forward move: the registers behind two gates start with the gates' first bits.
    Case {
        clock: None,
        inputs: &["a", "b", "c", "d"],
        latches: &[
            LatchRow {
                name: "q1",
                next: 0,
                init: false,
            },
            LatchRow {
                name: "q2",
                next: 1,
                init: false,
            },
            LatchRow {
                name: "q3",
                next: 2,
                init: true,
            },
            LatchRow {
                name: "q4",
                next: 3,
                init: true,
            },
            LatchRow {
                name: "y",
                next: 11,
                init: false,
            },
        ],
        gates: &[
            GateRow {
                name: "g1",
                pins: &[4, 5],
                rows: &["11"],
            },
            GateRow {
                name: "g2",
                pins: &[6, 7],
                rows: &["11"],
            },
            GateRow {
                name: "g3",
                pins: &[9, 10],
                rows: &["1-", "-1"],
            },
        ],
        outputs: &[8],
        mapping: "9.1 0.0 1.0\n10.1 2.0 3.0\n11.0 9.0 10.0",
        want: "a\nb\nc\nd\ny = 9 0\ng1 = 7 0\ng2 = 8 1\ng1+1 = 0 1 : 11\ng2+1 = 2 3 : 11\ng3 = 5 6 : 01 10 11\n 4",
    },
    // Without inputs: registers at three advances of each gate, of which only the latches are asked for by outputs.
    Case {
        clock: None,
        inputs: &[],
        latches: &[
            LatchRow {
                name: "q0",
                next: 2,
                init: false,
            },
            LatchRow {
                name: "q1",
                next: 3,
                init: false,
            },
        ],
        gates: &[
            GateRow {
                name: "n0",
                pins: &[0],
                rows: &["0"],
            },
            GateRow {
                name: "n1",
                pins: &[0, 1],
                rows: &["10", "01"],
            },
        ],
        outputs: &[1, 0],
        mapping: "2.3 2.2\n3.3 2.2 3.2",
        want: "q0 = 2 0\nq1 = 5 0\nn0 = 3 1\nn0+1 = 4 0\nn0+2 = 8 1\nn1 = 6 0\nn1+1 = 7 1\nn1+2 = 9 1\nn0+3 = 4 : 0\nn1+3 = 4 7 : 01 10\n 1 0",
    },
    // An output that is an input.
    Case {
        clock: None,
        inputs: &["a"],
        latches: &[],
        gates: &[],
        outputs: &[0],
        mapping: "",
        want: "a\n 0",
    },
    // A constant ahead, whose name has a run of the joiner's byte.
    Case {
        clock: None,
        inputs: &[],
        latches: &[],
        gates: &[GateRow {
            name: "y+",
            pins: &[],
            rows: &[""],
        }],
        outputs: &[0],
        mapping: "0.1",
        want: "y+ = 1 1\ny+++1 = : \n 0",
    },
    // A clock that goes with the one latch, which is not needed.
    Case {
        clock: Some(None),
        inputs: &["a"],
        latches: &[LatchRow {
            name: "q",
            next: 0,
            init: false,
        }],
        gates: &[GateRow {
            name: "y",
            pins: &[0],
            rows: &["0"],
        }],
        outputs: &[2],
        mapping: "2.0 0.0",
        want: "a\ny = 0 : 0\n 1",
    },
    // A clock that stays an input.
    Case {
        clock: Some(Some(0)),
        inputs: &["a"],
        latches: &[LatchRow {
            name: "q",
            next: 0,
            init: false,
        }],
        gates: &[GateRow {
            name: "y",
            pins: &[0],
            rows: &["0"],
        }],
        outputs: &[2],
        mapping: "2.0 0.0",
        want: "clk\na\ny = 0 : 0\n 1",
    },
];

/// A row, spelled by `0`, `1` and `-`.
fn row_of(alloc: Global, text: &str) -> Result<Row, Fail> {
    let mut places = Vec::new(alloc);
    for byte in text.as_bytes() {
        places.push(match byte {
            b'0' => Place::Zero,
            b'1' => Place::One,
            _ => Place::Any,
        })?;
    }
    Ok(Row::new(places))
}

/// The cover that is 1 where some row agrees.
fn cover_of(alloc: Global, texts: &[&str]) -> Result<Cover, Fail> {
    let mut rows = Vec::new(alloc);
    for text in texts {
        rows.push(row_of(alloc, text)?)?;
    }
    Ok(Cover::new(true, rows).ok_or("even rows")?)
}

/// Signals by their numbers.
fn signals_of(alloc: Global, numbers: &[u32]) -> Result<Vec<Signal>, Fail> {
    Ok(numbers.iter().map(|number| Signal(*number)).collect(alloc)?)
}

/// The clock `clk` at a place.
fn clock_at(alloc: Global, place: Option<u32>) -> Result<Clock, Fail> {
    Ok(Clock {
        name: name_of(alloc, b"clk")?,
        edge: Some(Edge::Rise),
        declared: false,
        place,
    })
}

/// The names of inputs.
fn inputs_of(alloc: Global, names: &[&str]) -> Result<Vec<Name>, Fail> {
    let mut inputs = Vec::new(alloc);
    for name in names {
        inputs.push(name_of(alloc, name.as_bytes())?)?;
    }
    Ok(inputs)
}

/// Latches.
fn latches_of(alloc: Global, rows: &[LatchRow]) -> Result<Vec<LatchPart>, Fail> {
    let mut latches = Vec::new(alloc);
    for row in rows {
        latches.push(LatchPart {
            name: name_of(alloc, row.name.as_bytes())?,
            next: Signal(row.next),
            init: row.init,
        })?;
    }
    Ok(latches)
}

/// Gates.
fn gates_of(alloc: Global, rows: &[GateRow]) -> Result<Vec<GatePart>, Fail> {
    let mut gates = Vec::new(alloc);
    for row in rows {
        gates.push(GatePart {
            name: name_of(alloc, row.name.as_bytes())?,
            pins: row.pins.iter().map(|pin| Signal(*pin)).collect(alloc)?,
            cover: cover_of(alloc, row.rows)?,
        })?;
    }
    Ok(gates)
}

/// The circuit of a case.
fn circuit_of(alloc: Global, case: &Case) -> Result<Circuit, Fail> {
    let clock = match case.clock {
        Some(place) => Some(clock_at(alloc, place)?),
        None => None,
    };
    let parts = Parts {
        model: name_of(alloc, b"m")?,
        clock,
        inputs: inputs_of(alloc, case.inputs)?,
        latches: latches_of(alloc, case.latches)?,
        gates: gates_of(alloc, case.gates)?,
        outputs: signals_of(alloc, case.outputs)?,
    };
    Ok(Circuit::build(alloc, parts)?)
}

/// A node, spelled as in `9.1`.
fn node(text: &str) -> Result<Node, Fail> {
    let (signal, advance) = text.split_once('.').ok_or("a dot")?;
    Ok(Node {
        signal: Signal(signal.parse()?),
        advance: advance.parse()?,
    })
}

/// A table, spelled as its root and its leaves.
fn lut(alloc: Global, text: &str) -> Result<Lut, Fail> {
    let mut nodes = text.split_whitespace();
    let root = node(nodes.next().ok_or("a root")?)?;
    let mut leaves = SmallVec::new(alloc);
    for leaf in nodes {
        leaves.push(node(leaf)?)?;
    }
    Ok(Lut {
        gate: root.signal,
        lag: root.advance,
        leaves,
    })
}

/// A mapping with a table in each line.
fn mapping_of(alloc: Global, text: &str) -> Result<Mapping, Fail> {
    let mut luts = Vec::new(alloc);
    for line in text.lines() {
        luts.push(lut(alloc, line)?)?;
    }
    Ok(Mapping { luts })
}

/// Signals as a text.
fn spelled_signals(alloc: Global, signals: &[Signal]) -> Result<String, Fail> {
    let mut text = String::new(alloc);
    for signal in signals {
        text.push_str(format!(in alloc; " {}", signal.0)?.as_str())?;
    }
    Ok(text)
}

/// The rows of a cover as a text.
fn spelled_rows(alloc: Global, rows: &[Row]) -> Result<String, Fail> {
    let mut text = String::new(alloc);
    for row in rows {
        text.push(' ')?;
        for place in row.places() {
            text.push(if *place == Place::One { '1' } else { '0' })?;
        }
    }
    Ok(text)
}

/// What drives a signal, as a text: nothing for an input, the next and the initial value of a latch, the pins and the rows of a gate.
fn spelled_driver(alloc: Global, driver: &Driver) -> Result<String, Fail> {
    match driver {
        Driver::Input => Ok(String::new(alloc)),
        Driver::Latch { next, init } => {
            Ok(format!(in alloc; " = {} {}", next.0, u8::from(*init))?)
        }
        Driver::Gate { pins, cover } => {
            let pins = spelled_signals(alloc, pins.as_slice())?;
            let rows = spelled_rows(alloc, cover.rows())?;
            Ok(format!(in alloc; " ={pins} :{rows}")?)
        }
    }
}

/// A name with what follows it in its line.
fn add_line(text: &mut Vec<u8>, name: &Name, rest: &str) -> Result<(), Fail> {
    text.extend_from_slice(name.bytes())?;
    text.extend_from_slice(rest.as_bytes())?;
    Ok(text.push(b'\n')?)
}

/// A circuit as a text with a line for the clock and for each signal, and one for the outputs.
fn spelled(alloc: Global, circuit: &Circuit) -> Result<Vec<u8>, Fail> {
    let mut text = Vec::new(alloc);
    if let Some(clock) = circuit.clock() {
        add_line(&mut text, &clock.name, "")?;
    }
    for s in 0..circuit.signals() {
        let driver = spelled_driver(alloc, circuit.driver(Signal(s)))?;
        add_line(&mut text, circuit.name(Signal(s)), driver.as_str())?;
    }
    let outputs = spelled_signals(alloc, circuit.outputs())?;
    text.extend_from_slice(outputs.as_bytes())?;
    Ok(text)
}

/// Whether a circuit is seen at once to fit to be mapped: it is small and its names are short.
fn fits(circuit: &Circuit) -> bool
    ensures { IsTrue result → FitsMapping circuit.now }
{
    laws::runs_are_measured();
    circuit.signals() <= 100_000 && has_names_within(circuit, 255)
}

/// The mapped circuit of a case with up to 4 leaves to a table and lags of up to 3, as a text.
fn spelled_mapped(alloc: Global, case: &Case) -> Result<Vec<u8>, Fail> {
    let circuit = circuit_of(alloc, case)?;
    let mapping = mapping_of(alloc, case.mapping)?;
    if circuit.widest() > 4 || !fits(&circuit) {
        return Err("a narrow circuit that fits")?;
    }
    match lawful(alloc, &circuit, 4, 3, &mapping)? {
        None => spelled(alloc, &mapped(alloc, &circuit, 4, 3, &mapping)?),
        Some(_) => Err("a lawful mapping")?,
    }
}

#[test]
fn cases_are_mapped(rt: HostRuntime) -> Result<(), Fail> {
    for case in CASES {
        let text = spelled_mapped(rt.alloc(), &case)?;
        assert_eq!(rt;
            text.as_slice(),
            case.want.as_bytes(),
            "at {}",
            case.mapping
        );
    }
    Ok(())
}
