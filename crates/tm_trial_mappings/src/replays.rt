// Replays of worked lists of drops, and beside each way to fail the nearest that does not.

use std::alloc::Global;
use tm_bits::NoMemory;
use tm_circuit::{Circuit, Signal};
use tm_flow::{Found, LazyNet, cut_or_walks};
use tm_replay::{DropWhy, Label, Lowering, Replayed, Served, have_lost, replay_from};
use tm_trial::{TrialFault, circuit};
use tm_unroll::Node;

/// The number that a word spells.
fn number(word: Option<&str>) -> u32 {
    word.and_then(|word| word.parse().ok()).unwrap_or(u32::MAX)
}

/// A drop: its gate, its lag, its arrival, and its walks as digits.
fn lowering(alloc: Global, line: &str) -> Result<Lowering, NoMemory> {
    let mut words = line.split_whitespace();
    let gate = Signal(number(words.next()));
    let lag = number(words.next()).min(255) as u8;
    let arrival = number(words.next());
    let mut walks = Vec::new(alloc);
    for word in words {
        walks.push(
            word.bytes()
                .map(|digit| digit.saturating_sub(b'0'))
                .collect(alloc)?,
        )?;
    }
    Ok(Lowering {
        gate,
        lag,
        arrival,
        walks,
    })
}

/// Drops with a semicolon after each.
fn lowerings(alloc: Global, text: &str) -> Result<Vec<Lowering>, NoMemory> {
    let mut drops = Vec::new(alloc);
    for line in text.split_terminator(';') {
        drops.push(lowering(alloc, line)?)?;
    }
    Ok(drops)
}

/// Drops where a table has at most two leaves, and the first fault with its entry, or the labels of the gates, each a lag and an
/// arrival, and whether an output has lost its own.
struct Row<'a> {
    base: u8,
    d: u8,
    target: u32,
    drops: &'a str,
    fault: Option<(u32, DropWhy)>,
    labels: [Option<(u8, u32)>; 3],
    has_lost: bool,
}

/// Drops of a circuit whose last three signals are its gates.
struct Group<'a> {
    inputs: &'a str,
    latches: &'a str,
    gates: &'a str,
    output: &'a str,
    rows: &'a [Row<'a>],
}

const GROUPS: &[Group<'static>] = &[
    // Three gates in a loop with one latch, each with an input of its own.
    Group {
        inputs: "a b c",
        latches: "q 6;",
        gates: "g1 3 0;g2 4 1;g3 5 2;",
        output: "6",
        rows: &[
            Row {
                base: 0,
                d: 1,
                target: 2,
                drops: "4 1 2 1;5 1 2 1;6 1 2 1;5 0 1 00 01 1;6 0 2 000 01 1;",
                fault: None,
                labels: [Some((0, 1)), Some((0, 2)), None],
                has_lost: true,
            },
            Row {
                base: 0,
                d: 1,
                target: 2,
                drops: "4 1 2 1;5 1 2 1;6 1 2 1;5 0 1 00 01 1;6 0 2 000 01 1;4 0 2 0;5 0 2 00;",
                fault: None,
                labels: [None, None, None],
                has_lost: true,
            },
            Row {
                base: 0,
                d: 1,
                target: 2,
                drops: "4 1 2 1;5 1 2 1;6 1 2 1;6 0 2 000 01 1;5 0 1 00 01 1;",
                fault: Some((4, DropWhy::Shared)),
                labels: [None; 3],
                has_lost: false,
            },
            Row {
                base: 0,
                d: 1,
                target: 2,
                drops: "4 1 2 1;5 0 1 00 01 1;6 1 2 1;5 1 2 1;6 0 2 000 01 1;",
                fault: Some((2, DropWhy::Order)),
                labels: [None; 3],
                has_lost: false,
            },
            Row {
                base: 0,
                d: 1,
                target: 2,
                drops: "4 1 2 1;5 1 2 1;6 1 2 1;5 0 1 00 01 1;",
                fault: None,
                labels: [Some((0, 1)), Some((0, 2)), Some((0, 1))],
                has_lost: false,
            },
            Row {
                base: 0,
                d: 1,
                target: 2,
                drops: "4 1 2 2;",
                fault: Some((1, DropWhy::Path)),
                labels: [None; 3],
                has_lost: false,
            },
            Row {
                base: 0,
                d: 1,
                target: 2,
                drops: "4 1 2 1;5 1 2 1;6 1 2 1;5 0 1 00 01;",
                fault: Some((4, DropWhy::TooFew)),
                labels: [None; 3],
                has_lost: false,
            },
            Row {
                base: 0,
                d: 1,
                target: 2,
                drops: "",
                fault: None,
                labels: [Some((1, 1)), Some((1, 1)), Some((1, 1))],
                has_lost: false,
            },
            Row {
                base: 0,
                d: 1,
                target: 0,
                drops: "",
                fault: None,
                labels: [None, None, None],
                has_lost: true,
            },
            Row {
                base: 0,
                d: 1,
                target: 0,
                drops: "4 1 1 1;",
                fault: Some((1, DropWhy::Order)),
                labels: [None; 3],
                has_lost: false,
            },
            Row {
                base: 0,
                d: 1,
                target: 2,
                drops: "4 1 3 1;",
                fault: Some((1, DropWhy::Order)),
                labels: [None; 3],
                has_lost: false,
            },
            Row {
                base: 0,
                d: 1,
                target: 2,
                drops: "4 1 0 1;",
                fault: Some((1, DropWhy::Order)),
                labels: [None; 3],
                has_lost: false,
            },
            Row {
                base: 0,
                d: 1,
                target: 2,
                drops: "3 1 2 0;",
                fault: Some((1, DropWhy::Order)),
                labels: [None; 3],
                has_lost: false,
            },
            Row {
                base: 0,
                d: 1,
                target: 2,
                drops: "7 1 2 0;",
                fault: Some((1, DropWhy::Order)),
                labels: [None; 3],
                has_lost: false,
            },
            Row {
                base: 0,
                d: 1,
                target: 2,
                drops: "4 1 1 1;4 1 1 1;",
                fault: Some((2, DropWhy::Order)),
                labels: [None; 3],
                has_lost: false,
            },
            Row {
                base: 0,
                d: 1,
                target: 4294967294,
                drops: "4 1 4294967294 1;",
                fault: None,
                labels: [Some((0, 1)), Some((1, 1)), Some((1, 1))],
                has_lost: false,
            },
        ],
    },
    // Two gates over two inputs each, a gate over both, and a latch behind the first that is the output.
    Group {
        inputs: "a b c d",
        latches: "y 7;",
        gates: "g1 0 1;g2 2 3;g3 5 6;",
        output: "4",
        rows: &[
            Row {
                base: 0,
                d: 0,
                target: 1,
                drops: "7 0 1 00 01 10;",
                fault: None,
                labels: [Some((0, 1)), Some((0, 1)), None],
                has_lost: true,
            },
            Row {
                base: 1,
                d: 1,
                target: 1,
                drops: "7 1 1 00 01 10;",
                fault: None,
                labels: [Some((1, 1)), Some((1, 1)), Some((0, 1))],
                has_lost: false,
            },
            Row {
                base: 1,
                d: 1,
                target: 1,
                drops: "7 1 1 00;",
                fault: Some((1, DropWhy::Shared)),
                labels: [None; 3],
                has_lost: false,
            },
            Row {
                base: 0,
                d: 1,
                target: 1,
                drops: "7 1 1 00;",
                fault: None,
                labels: [Some((1, 1)), Some((1, 1)), Some((0, 1))],
                has_lost: false,
            },
        ],
    },
];

/// Whether the drops of a circuit come to what the row says.
fn come(
    alloc: Global,
    circuit: &Circuit,
    drops: &[Lowering],
    row: &Row<'_>,
) -> Result<bool, NoMemory> {
    if drops.len() >= 100 {
        return Ok(false);
    }
    Ok(
        match replay_from(alloc, row.base, circuit, 2, row.d, row.target, drops)? {
            Replayed::Labels(labels) => {
                let last = labels.iter().skip(labels.len().saturating_sub(3));
                let are_last = last
                    .map(|label| label.map(|x| (x.lag, x.arrival)))
                    .eq(row.labels);
                are_last && row.fault.is_none() && have_lost(circuit, &labels) == row.has_lost
            }
            Replayed::Fault(fault) => row.fault == Some((fault.entry, fault.why)),
        },
    )
}

/// Whether a row is as written.
fn holds(alloc: Global, group: &Group<'_>, row: &Row<'_>) -> Result<bool, TrialFault> {
    let circuit = circuit(
        alloc,
        group.inputs,
        group.latches,
        group.gates,
        group.output,
    )?;
    let drops = lowerings(alloc, row.drops)?;
    Ok(come(alloc, &circuit, &drops, row)?)
}

#[test]
fn drops_are_replayed(rt: HostRuntime) {
    for group in GROUPS {
        for row in group.rows {
            assert!(rt; holds(rt.alloc(), group, row) == Ok(true), "{}", row.drops);
        }
    }
}

/// The number of nodes that cut a gate off from what is not served within 0, and else the number of walks that show there are no
/// two, in a net where each of the last three signals, the gates, has the first label at the lag 0.
fn cut_or_walks_of(
    alloc: Global,
    circuit: &Circuit,
    gate: u32,
) -> Result<(usize, usize), NoMemory> {
    let first = circuit.signals().saturating_sub(3);
    let mut labels = vec![in alloc; None; circuit.signals() as usize]?;
    for label in labels.iter_mut().skip(first as usize) {
        *label = Some(Label { lag: 0, arrival: 1 });
    }
    let net = Served {
        circuit,
        labels: &labels,
        within: 0,
    };
    let root = Node {
        signal: Signal(gate),
        advance: 0,
    };
    if net.is_end(root) {
        return Ok((0, 0));
    }
    Ok(match cut_or_walks(alloc, &net, root, 2)? {
        Found::Cut(nodes) => (nodes.len(), 0),
        Found::Walks(walks) => (0, walks.len()),
    })
}

/// With two gates over two latches each and a gate over both, the two latches cut off the first, and no two nodes the last.
#[test]
fn served_nodes_are_cut(rt: HostRuntime) -> Result<(), TrialFault> {
    let latches = "q1 0;q2 1;q3 2;q4 3;y 11;";
    let circuit = circuit(
        rt.alloc(),
        "a b c d",
        latches,
        "g1 4 5;g2 6 7;g3 9 10;",
        "8",
    )?;
    assert!(rt; cut_or_walks_of(rt.alloc(), &circuit, 9) == Ok((2, 0)));
    assert!(rt; cut_or_walks_of(rt.alloc(), &circuit, 11) == Ok((0, 3)));
    Ok(())
}
