// Drops that refute a target, with some that the refutation does not stand on.

use smallvec::SmallVec;
use std::alloc::{AllocError, Global};
use std::process::Abort;
use std::test::Fail;
use tm_bits::{Cover, NoMemory};
use tm_circuit::{Circuit, GatePart, LatchPart, Name, Parts, Signal};
use tm_replay::{Lowering, Replayed, have_lost, replay};
use tm_shorten::shorten;

/// A circuit with one output, its signals by their numbers, and drops that refute a target for tables of two leaves, as lines of a
/// certificate. Those that are not needed begin with a `-`.
#[derive(Clone, Copy)]
struct Row {
    inputs: u8,
    /// The next of each latch.
    latches: &'static [u32],
    /// The pins of each gate.
    gates: &'static [&'static [u32]],
    output: u32,
    d: u8,
    target: u32,
    drops: &'static str,
}

/// Three gates in a loop with one latch, each with an input of its own. These are the drops of its worked certificate.
const RING: Row = Row {
    inputs: 3,
    latches: &[6],
    gates: &[&[3, 0], &[4, 1], &[5, 2]],
    output: 6,
    d: 1,
    target: 2,
    drops: "4 1 2 1;5 1 2 1;6 1 2 1;5 0 1 00 01 1;6 0 2 000 01 1",
};

/// Two gates over two latches each, and two gates over both. The second of these leads to no output.
const FOUR: Row = Row {
    inputs: 4,
    latches: &[0, 1, 2, 3],
    gates: &[&[4, 5], &[6, 7], &[8, 9], &[8, 9]],
    output: 10,
    d: 0,
    target: 1,
    drops: "- 11 0 1 00 01 10;10 0 1 00 01 10",
};

const ROWS: [Row; 5] = [
    RING,
    // A gate goes down arrival by arrival, where one drop does for a whole lag.
    Row {
        drops: "- 4 1 1 1;4 1 2 1;- 5 1 1 1;5 1 2 1;6 1 2 1;5 0 1 00 01 1;- 6 0 1 000 01 1;6 0 2 000 01 1",
        ..RING
    },
    FOUR,
    // After the output has lost its label no drop is needed.
    Row {
        drops: "10 0 1 00 01 10;- 11 0 1 00 01 10",
        ..FOUR
    },
    // A latch serves no longer where its source has lost its label.
    Row {
        inputs: 4,
        latches: &[7],
        gates: &[&[0, 1], &[2, 3], &[5, 6], &[4], &[5, 6]],
        output: 8,
        drops: "- 9 0 1 00 01 10;7 0 1 00 01 10;8 0 1 0",
        ..FOUR
    },
];

/// A name of one letter.
fn name(alloc: Global, letter: u8) -> Result<Name, NoMemory> {
    Ok(Name::new(vec![in alloc; letter]?))
}

fn input_names(alloc: Global, inputs: u8) -> Result<Vec<Name>, NoMemory> {
    let mut names = Vec::new(alloc);
    for letter in b'a'..b'a'.saturating_add(inputs) {
        names.push(name(alloc, letter)?)?;
    }
    Ok(names)
}

fn latch_parts(alloc: Global, nexts: &[u32]) -> Result<Vec<LatchPart>, NoMemory> {
    let mut parts = Vec::new(alloc);
    for (next, letter) in nexts.iter().zip(b'm'..b's') {
        parts.push(LatchPart {
            name: name(alloc, letter)?,
            next: Signal(*next),
            init: false,
        })?;
    }
    Ok(parts)
}

fn signals(alloc: Global, numbers: &[u32]) -> Result<SmallVec<Signal, 8>, NoMemory> {
    let mut signals = SmallVec::new(alloc);
    for number in numbers {
        signals.push(Signal(*number))?;
    }
    Ok(signals)
}

fn gate_parts(alloc: Global, gates: &[&[u32]]) -> Result<Vec<GatePart>, Fail> {
    let mut parts = Vec::new(alloc);
    for (pins, letter) in gates.iter().zip(b's'..b'y') {
        parts.push(GatePart {
            name: name(alloc, letter)?,
            pins: signals(alloc, pins)?,
            cover: Cover::new(true, Vec::new(alloc)).ok_or("a cover")?,
        })?;
    }
    Ok(parts)
}

fn circuit(alloc: Global, row: &Row) -> Result<Circuit, Fail> {
    let parts = Parts {
        model: name(alloc, b'z')?,
        clock: None,
        inputs: input_names(alloc, row.inputs)?,
        latches: latch_parts(alloc, row.latches)?,
        gates: gate_parts(alloc, row.gates)?,
        outputs: vec![in alloc; Signal(row.output)]?,
    };
    Ok(Circuit::build(alloc, parts)?)
}

fn walk(alloc: Global, word: &str) -> Result<Vec<u8>, AllocError> {
    word.bytes()
        .map(|byte| byte.wrapping_sub(b'0'))
        .collect(alloc)
}

/// The drop of a line.
fn lowering(alloc: Global, line: &str) -> Result<Lowering, AllocError> {
    let mut words = line.split_whitespace();
    let gate = words.next().unwrap_or("").parse().unwrap_or(0);
    let lag = words.next().unwrap_or("").parse().unwrap_or(0);
    let arrival = words.next().unwrap_or("").parse().unwrap_or(0);
    let mut walks = Vec::new(alloc);
    for word in words {
        walks.push(walk(alloc, word)?)?;
    }
    Ok(Lowering {
        gate: Signal(gate),
        lag,
        arrival,
        walks,
    })
}

/// The drops of a row, all of them or those that are needed.
fn lowerings(alloc: Global, text: &str, all: bool) -> Result<Vec<Lowering>, AllocError> {
    let mut drops = Vec::new(alloc);
    for line in text.split_terminator(';') {
        match line.strip_prefix("- ") {
            None => drops.push(lowering(alloc, line)?)?,
            Some(line) if all => drops.push(lowering(alloc, line)?)?,
            Some(_) => {}
        }
    }
    Ok(drops)
}

/// The shorter list of a row's drops.
fn shorter(
    rt: &impl Abort,
    alloc: Global,
    circuit: &Circuit,
    row: &Row,
) -> Result<Vec<Lowering>, Fail> {
    let drops = lowerings(alloc, row.drops, true)?;
    assert!(rt; drops.len() < 99);
    let replayed = replay(alloc, circuit, 2, row.d, row.target, &drops)?;
    let Replayed::Labels(labels) = replayed else {
        return Err("no replay")?;
    };
    if !have_lost(circuit, &labels) {
        return Err("nothing is lost")?;
    }
    Ok(shorten(alloc, circuit, 2, row.d, row.target, drops)?)
}

fn are_same(drop: &Lowering, other: &Lowering) -> bool {
    (drop.gate, drop.lag, drop.arrival) == (other.gate, other.lag, other.arrival)
        && drop.walks == other.walks
}

fn try_row(rt: &impl Abort, alloc: Global, row: &Row) -> Result<(), Fail> {
    let circuit = circuit(alloc, row)?;
    let needed = lowerings(alloc, row.drops, false)?;
    let shorter = shorter(rt, alloc, &circuit, row)?;
    assert_eq!(rt; shorter.len(), needed.len(), "{}", row.drops);
    for (drop, other) in shorter.iter().zip(&needed) {
        assert!(rt; are_same(drop, other), "{}", row.drops);
    }
    Ok(())
}

#[test]
fn rows(rt: HostRuntime) -> Result<(), Fail> {
    for row in &ROWS {
        try_row(&rt, rt.alloc(), row)?;
    }
    Ok(())
}
