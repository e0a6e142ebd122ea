// Merges and guesses on small circuits, worked out by hand.

use crate::cuts::Moment;
use crate::{can_settle, leads_to_output};
use smallvec::SmallVec;
use std::alloc::Global;
use std::process::Abort;
use std::test::Fail;
use tm_bits::Cover;
use tm_circuit::{Circuit, GatePart, LatchPart, Name, Parts, Signal};
use tm_replay::Label;
use tm_unroll::Node;

/// The name that a word spells.
fn name(alloc: Global, word: Option<&str>) -> Result<Name, Fail> {
    let word = word.ok_or("a name")?;
    Ok(Name::new(Vec::from_slice(alloc, word.as_bytes())?))
}

/// The signals that words spell.
fn signals(alloc: Global, text: &str) -> Result<Vec<Signal>, Fail> {
    let mut signals = Vec::new(alloc);
    for word in text.split_whitespace() {
        signals.push(Signal(word.parse()?))?;
    }
    Ok(signals)
}

/// A latch, as its name and its next.
fn latch(alloc: Global, line: &str) -> Result<LatchPart, Fail> {
    let mut words = line.split_whitespace();
    Ok(LatchPart {
        name: name(alloc, words.next())?,
        next: Signal(words.next().ok_or("a next")?.parse()?),
        init: false,
    })
}

/// A gate, as its name and its pins.
fn gate(alloc: Global, line: &str) -> Result<GatePart, Fail> {
    let (first, pins) = line.split_once(' ').ok_or("pins")?;
    Ok(GatePart {
        name: name(alloc, Some(first))?,
        pins: SmallVec::from_slice(alloc, signals(alloc, pins)?.as_slice())?,
        cover: Cover::new(true, Vec::new(alloc)).ok_or("a cover")?,
    })
}

/// The circuit of these inputs, latches, gates and outputs, the latches and the gates with a semicolon after each.
fn circuit(
    alloc: Global,
    inputs: &str,
    latches: &str,
    gates: &str,
    outputs: &str,
) -> Result<Circuit, Fail> {
    let mut parts = Parts {
        model: name(alloc, Some("tried"))?,
        clock: None,
        inputs: Vec::new(alloc),
        latches: Vec::new(alloc),
        gates: Vec::new(alloc),
        outputs: signals(alloc, outputs)?,
    };
    for word in inputs.split_whitespace() {
        parts.inputs.push(name(alloc, Some(word))?)?;
    }
    for line in latches.split_terminator(';') {
        parts.latches.push(latch(alloc, line)?)?;
    }
    for line in gates.split_terminator(';') {
        parts.gates.push(gate(alloc, line)?)?;
    }
    Ok(Circuit::build(alloc, parts)?)
}

/// Gates 6 of 0 and 1, 7 of 6 and 2, 8 of 7 and 3, and 9 over the latches 4 and 5, which take 7 and 3.
fn steps(alloc: Global, outputs: &str) -> Result<Circuit, Fail> {
    let gates = "x 0 1;y 6 2;z 7 3;w 4 5;";
    circuit(alloc, "a b c d", "q 7;r 3;", gates, outputs)
}

/// Nodes, spelled as in `9.1`.
fn nodes(alloc: Global, text: &str) -> Result<SmallVec<Node, 8>, Fail> {
    let mut nodes = SmallVec::new(alloc);
    for word in text.split_whitespace() {
        let (signal, advance) = word.split_once('.').ok_or("a dot")?;
        nodes.push(Node {
            signal: Signal(signal.parse()?),
            advance: advance.parse()?,
        })?;
    }
    Ok(nodes)
}

/// A merge in `steps`, where 6 and 7 have labels of lag 0 and arrival 1, and all kept cuts are pins.
#[derive(Clone, Copy)]
struct Row {
    gate: u32,
    lag: u8,
    k: u8,
    within: u32,
    /// The gate whose cut is stale.
    stale: Option<u32>,
    expected: Option<&'static str>,
}

const ROWS: [Row; 9] = [
    // Two levels are taken in, or one of them is stale, or there is one leaf too many.
    Row {
        gate: 8,
        lag: 0,
        k: 4,
        within: 0,
        stale: None,
        expected: Some("0.0 1.0 2.0 3.0"),
    },
    Row {
        gate: 8,
        lag: 0,
        k: 4,
        within: 0,
        stale: Some(6),
        expected: None,
    },
    Row {
        gate: 8,
        lag: 0,
        k: 3,
        within: 0,
        stale: None,
        expected: None,
    },
    // The pins are in time, or never.
    Row {
        gate: 8,
        lag: 0,
        k: 2,
        within: 1,
        stale: Some(6),
        expected: Some("3.0 7.0"),
    },
    Row {
        gate: 8,
        lag: 1,
        k: 4,
        within: 9,
        stale: None,
        expected: None,
    },
    // Latches are leaves, and where the lag pays for them they are passed.
    Row {
        gate: 9,
        lag: 0,
        k: 2,
        within: 0,
        stale: None,
        expected: Some("4.0 5.0"),
    },
    Row {
        gate: 9,
        lag: 1,
        k: 4,
        within: 0,
        stale: None,
        expected: Some("0.0 1.0 2.0 3.0"),
    },
    // What is no gate has no cut.
    Row {
        gate: 5,
        lag: 1,
        k: 4,
        within: 9,
        stale: None,
        expected: None,
    },
    Row {
        gate: 10,
        lag: 0,
        k: 4,
        within: 9,
        stale: None,
        expected: None,
    },
];

fn check_row(rt: &impl Abort, alloc: Global, circuit: &Circuit, row: Row) -> Result<(), Fail> {
    let mut labels = vec![in alloc; None; 10]?;
    labels[6] = Some(Label { lag: 0, arrival: 1 });
    labels[7] = Some(Label { lag: 0, arrival: 1 });
    let mut cuts = Vec::new(alloc);
    for text in [
        "", "", "", "", "", "", "0.0 1.0", "2.0 6.0", "3.0 7.0", "4.0 5.0",
    ] {
        cuts.push(nodes(alloc, text)?)?;
    }
    let mut stale = vec![in alloc; false; 10]?;
    if let Some(place) = row.stale.and_then(|gate| stale.get_mut(gate as usize)) {
        *place = true;
    }
    let moment = Moment {
        base: 0,
        circuit,
        k: row.k,
        labels: &labels,
        cuts: &cuts,
        stale: &stale,
        within: row.within,
    };
    let found = moment.merged(alloc, Signal(row.gate), row.lag)?;
    match (found, row.expected) {
        (Some(leaves), Some(text)) => {
            assert!(rt;
                leaves.as_slice() == nodes(alloc, text)?.as_slice(),
                "{text}"
            );
        }
        (None, None) => (),
        (found, _) => assert!(rt; false, "{} {:?}", row.gate, found.is_some()),
    }
    Ok(())
}

#[test]
fn cuts_are_merged(rt: HostRuntime) -> Result<(), Fail> {
    let circuit = steps(rt.alloc(), "8 9")?;
    for row in ROWS {
        check_row(&rt, rt.alloc(), &circuit, row)?;
    }
    Ok(())
}

#[test]
fn targets_are_guessed(rt: HostRuntime) -> Result<(), Fail> {
    let alloc = rt.alloc();
    // Three gates in a loop with one latch, each with an input of its own.
    let ring = &circuit(alloc, "a b c", "q 6;", "g 3 0;h 4 1;i 5 2;", "6")?;
    // Two gates over two latches each, a gate over both, and a latch behind it; and the same without the latches in front.
    let latches = "p 0;q 1;r 2;s 3;y 11;";
    let four = &circuit(alloc, "a b c d", latches, "g 4 5;h 6 7;i 9 10;", "8")?;
    let back = &circuit(alloc, "a b c d", "y 7;", "g 0 1;h 2 3;i 5 6;", "4")?;
    for (circuit, base, k, d, target, expected) in [
        (ring, 0, 2, 1, 2, false),
        (ring, 0, 2, 1, 3, true),
        (ring, 0, 3, 1, 1, false),
        (ring, 0, 3, 1, 2, true),
        (ring, 0, 4, 0, 1, true),
        (ring, 0, 4, 1, 0, false),
        (four, 0, 2, 0, 1, false),
        (four, 0, 2, 1, 1, true),
        (back, 0, 2, 1, 1, false),
        (back, 0, 2, 1, 2, true),
        (back, 1, 2, 1, 1, true),
    ] {
        assert_eq!(rt;
            can_settle(alloc, base, circuit, k, d, target)?,
            expected,
            "{k} {target}"
        );
    }
    Ok(())
}

#[test]
fn gates_that_lead_to_an_output_are_marked(rt: HostRuntime) -> Result<(), Fail> {
    for (outputs, expected) in [
        ("8", [true, true, true, false]),
        ("9", [true, true, false, true]),
    ] {
        let circuit = steps(rt.alloc(), outputs)?;
        let marks = leads_to_output(rt.alloc(), &circuit)?;
        assert!(rt; marks.iter().skip(6).copied().eq(expected), "{outputs}");
        assert!(rt; !marks.iter().take(6).any(|mark| *mark), "{outputs}");
    }
    Ok(())
}
