// The functions of a few tables, worked out by hand.

ghost use Rattle.tm_unroll.specs.Mappings.{tables_of, IsLawful};

use smallvec::SmallVec;
use std::alloc::Global;
use std::test::Fail;
use tm_bits::{Cover, NoMemory, Place, Row};
use tm_circuit::{Circuit, GatePart, LatchPart, Name, Parts, Signal};
use tm_cone::table_of;
use tm_unroll::{Lut, Mapping, Node, lawful};

/// A gate with one row, spelled by `0`, `1` and `-`.
fn gate(alloc: Global, name: &str, pins: &[u32], on: bool, row: &str) -> Result<GatePart, Fail> {
    let mut places = Vec::new(alloc);
    for byte in row.as_bytes() {
        places.push(match byte {
            b'0' => Place::Zero,
            b'1' => Place::One,
            _ => Place::Any,
        })?;
    }
    let mut rows = Vec::new(alloc);
    rows.push(Row::new(places))?;
    let mut signals = SmallVec::new(alloc);
    for pin in pins {
        signals.push(Signal(*pin))?;
    }
    Ok(GatePart {
        name: Name::new(Vec::from_slice(alloc, name.as_bytes())?),
        pins: signals,
        cover: Cover::new(on, rows).ok_or("even rows")?,
    })
}

/// A latch that takes a signal.
fn latch(alloc: Global, name: &str, next: u32) -> Result<LatchPart, Fail> {
    Ok(LatchPart {
        name: Name::new(Vec::from_slice(alloc, name.as_bytes())?),
        next: Signal(next),
        init: false,
    })
}

/// Inputs 0 to 5; latches 6 and 7 that take the inputs 0 and 1; gates 8, which is 6 and not 7, 9, which is not both 8 and 6, 10, which
/// is 5 whatever the other inputs are, 11, which is all signals before the gates, and 12, which is 1.
fn sample(alloc: Global) -> Result<Circuit, Fail> {
    let mut parts = Parts {
        model: Name::new(Vec::from_slice(alloc, b"sample")?),
        clock: None,
        inputs: Vec::new(alloc),
        latches: Vec::new(alloc),
        gates: Vec::new(alloc),
        outputs: Vec::from_array(alloc, [Signal(0)])?,
    };
    for name in ["a", "b", "c", "d", "e", "f"] {
        parts
            .inputs
            .push(Name::new(Vec::from_slice(alloc, name.as_bytes())?))?;
    }
    for (name, next) in [("p", 0), ("q", 1)] {
        parts.latches.push(latch(alloc, name, next)?)?;
    }
    let all = [0, 1, 2, 3, 4, 5, 6, 7];
    for (name, pins, on, row) in [
        ("g", &[6, 7][..], true, "10"),
        ("h", &[8, 6], false, "11"),
        ("i", &all[..6], true, "-----1"),
        ("j", &all, true, "11111111"),
        ("k", &[], true, ""),
    ] {
        parts.gates.push(gate(alloc, name, pins, on, row)?)?;
    }
    Ok(Circuit::build(alloc, parts)?)
}

/// A node, spelled as in `9.1`.
fn node(text: &str) -> Result<Node, Fail> {
    let (signal, advance) = text.split_once('.').ok_or("a dot")?;
    Ok(Node {
        signal: Signal(signal.parse()?),
        advance: advance.parse()?,
    })
}

/// A mapping with a table in each line, spelled as its root and its leaves.
fn mapping(alloc: Global, text: &str) -> Result<Mapping, Fail> {
    let mut luts = Vec::new(alloc);
    for line in text.lines() {
        let mut nodes = line.split_whitespace();
        let root = node(nodes.next().ok_or("a root")?)?;
        let mut leaves = SmallVec::new(alloc);
        for leaf in nodes {
            leaves.push(node(leaf)?)?;
        }
        luts.push(Lut {
            gate: root.signal,
            lag: root.advance,
            leaves,
        })?;
    }
    Ok(Mapping { luts })
}

/// The words of the last table of a lawful mapping, none without tables.
fn last_words(
    alloc: Global,
    circuit: &Circuit,
    mapping: &Mapping,
) -> Result<Option<[u64; 4]>, NoMemory>
    requires { IsLawful circuit.now 8 1 (tables_of mapping.now) }
{
    match mapping.luts.last() {
        Some(lut) => Ok(Some(table_of(alloc, circuit, lut)?.words)),
        None => Ok(None),
    }
}

/// A mapping, and the words of its last table.
struct Case {
    text: &'static str,
    words: [u64; 4],
}

const CASES: [Case; 8] = [
    // The first leaf has the most significant bit of the row: 6 and not 7 is row 2.
    Case {
        text: "8.0 6.0 7.0",
        words: [0b0100, 0, 0, 0],
    },
    // Two gates, the second one with an off cover, and a leaf that is read by both.
    Case {
        text: "9.0 6.0 7.0",
        words: [0b1011, 0, 0, 0],
    },
    // A step ahead the latches are the inputs.
    Case {
        text: "9.1 0.0 1.0",
        words: [0b1011, 0, 0, 0],
    },
    // A gate a step ahead as a leaf.
    Case {
        text: "8.1 0.0 1.0\n9.1 0.0 8.1",
        words: [0b0111, 0, 0, 0],
    },
    // A gate as a leaf.
    Case {
        text: "8.0 6.0 7.0\n9.0 6.0 8.0",
        words: [0b0111, 0, 0, 0],
    },
    // The word of the last of six leaves.
    Case {
        text: "10.0 0.0 1.0 2.0 3.0 4.0 5.0",
        words: [0xAAAA_AAAA_AAAA_AAAA, 0, 0, 0],
    },
    // The last row of eight leaves.
    Case {
        text: "11.0 0.0 1.0 2.0 3.0 4.0 5.0 6.0 7.0",
        words: [0, 0, 0, 1 << 63],
    },
    // No leaf.
    Case {
        text: "12.0",
        words: [1, 0, 0, 0],
    },
];

#[test]
fn functions_are_those_worked_out(rt: HostRuntime) -> Result<(), Fail> {
    let circuit = sample(rt.alloc())?;
    assert!(rt; circuit.widest() <= 8);
    for case in &CASES {
        let mapping = mapping(rt.alloc(), case.text)?;
        match lawful(rt.alloc(), &circuit, 8, 1, &mapping)? {
            None => {
                let words = last_words(rt.alloc(), &circuit, &mapping)?;
                assert!(rt; words == Some(case.words), "at {}", case.text);
            }
            Some(_) => assert!(rt; false, "lawful: {}", case.text),
        }
    }
    Ok(())
}
