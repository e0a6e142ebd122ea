// Settlings of small circuits, whose labels are counted by hand, and the drops and the turns of some.

use smallvec::SmallVec;
use std::alloc::Global;
use std::process::Abort;
use std::test::Fail;
use tm_bits::{Cover, NoMemory};
use tm_circuit::{Circuit, GatePart, LatchPart, Name, Parts, Signal};
use tm_labels::{Settled, Work, settle, settle_outputs};
use tm_replay::{Label, Replayed, have_lost, replay};

/// A circuit with one output, its signals by their numbers, and what its labels for a target come to.
#[derive(Clone, Copy)]
struct Row {
    inputs: u8,
    /// The next of each latch.
    latches: &'static [u32],
    /// The pins of each gate.
    gates: &'static [&'static [u32]],
    output: u32,
    k: u8,
    d: u8,
    target: u32,
    /// The labels of the gates.
    labels: &'static [Option<Label>],
}

const LAG_0_ARRIVAL_1: Option<Label> = Some(Label { lag: 0, arrival: 1 });

const LAG_0_ARRIVAL_2: Option<Label> = Some(Label { lag: 0, arrival: 2 });

const LAG_0_ARRIVAL_3: Option<Label> = Some(Label { lag: 0, arrival: 3 });

const LAG_1: Option<Label> = Some(Label { lag: 1, arrival: 1 });

const LAG_1_ARRIVAL_2: Option<Label> = Some(Label { lag: 1, arrival: 2 });

const LAG_3: Option<Label> = Some(Label { lag: 3, arrival: 1 });

/// Three gates in a loop with one latch, each with an input of its own.
const RING: Row = Row {
    inputs: 3,
    latches: &[6],
    gates: &[&[3, 0], &[4, 1], &[5, 2]],
    output: 6,
    k: 2,
    d: 8,
    target: 2,
    labels: &[None, None, None],
};

/// Two gates over two latches each, a gate over both, and a latch behind it, which is the output.
const FOUR: Row = Row {
    inputs: 4,
    latches: &[0, 1, 2, 3, 11],
    gates: &[&[4, 5], &[6, 7], &[9, 10]],
    output: 8,
    k: 2,
    d: 1,
    target: 1,
    labels: &[LAG_1, LAG_1, LAG_0_ARRIVAL_1],
};

/// Two gates that justify one another round a latch, without an input.
const LOOP: Row = Row {
    inputs: 0,
    latches: &[2],
    gates: &[&[0], &[1]],
    output: 2,
    k: 2,
    d: 3,
    target: 1,
    labels: &[LAG_3, LAG_3],
};

/// Three gates in a chain, each with an input of its own.
const CHAIN: Row = Row {
    inputs: 4,
    latches: &[],
    gates: &[&[0, 1], &[4, 2], &[5, 3]],
    output: 6,
    k: 2,
    d: 0,
    target: 4,
    labels: &[LAG_0_ARRIVAL_1, LAG_0_ARRIVAL_2, LAG_0_ARRIVAL_3],
};

const ROWS: [Row; 13] = [
    RING,
    Row {
        target: 3,
        labels: &[LAG_0_ARRIVAL_1, LAG_0_ARRIVAL_2, LAG_0_ARRIVAL_3],
        ..RING
    },
    FOUR,
    Row {
        target: 0,
        labels: &[None, None, None],
        ..FOUR
    },
    // More lag than there are registers.
    Row { d: 8, ..FOUR },
    Row {
        d: 8,
        target: 2,
        labels: &[LAG_1, LAG_1, LAG_1_ARRIVAL_2],
        ..FOUR
    },
    LOOP,
    // With an input the lag is not paid.
    Row {
        inputs: 1,
        latches: &[3],
        gates: &[&[1, 0], &[2]],
        output: 3,
        labels: &[LAG_0_ARRIVAL_1, LAG_0_ARRIVAL_1],
        ..LOOP
    },
    // A ring of latches pays any lag, and so does a gate without pins.
    Row {
        latches: &[1, 0],
        gates: &[&[0, 1], &[]],
        ..LOOP
    },
    // A latch stands before one input of two, and then before both.
    Row {
        inputs: 2,
        latches: &[0, 1],
        gates: &[&[2, 1], &[2, 3]],
        output: 4,
        labels: &[LAG_0_ARRIVAL_1, LAG_1],
        ..LOOP
    },
    CHAIN,
    // The second table takes the first gate in.
    Row {
        k: 3,
        labels: &[LAG_0_ARRIVAL_1, LAG_0_ARRIVAL_1, LAG_0_ARRIVAL_2],
        ..CHAIN
    },
    Row {
        target: 1,
        labels: &[LAG_0_ARRIVAL_1, None, None],
        ..CHAIN
    },
];

/// A name of one letter.
fn name(alloc: Global, letter: u8) -> Result<Name, NoMemory> {
    Ok(Name::new(vec![in alloc; letter]?))
}

fn input_names(alloc: Global, inputs: u8) -> Result<Vec<Name>, NoMemory> {
    let mut names = Vec::new(alloc);
    for letter in b'a'..b'a'.saturating_add(inputs) {
        names.push(name(alloc, letter)?)?;
    }
    Ok(names)
}

fn latch_parts(alloc: Global, nexts: &[u32]) -> Result<Vec<LatchPart>, NoMemory> {
    let mut parts = Vec::new(alloc);
    for (next, letter) in nexts.iter().zip(b'm'..b's') {
        parts.push(LatchPart {
            name: name(alloc, letter)?,
            next: Signal(*next),
            init: false,
        })?;
    }
    Ok(parts)
}

fn signals(alloc: Global, numbers: &[u32]) -> Result<SmallVec<Signal, 8>, NoMemory> {
    let mut signals = SmallVec::new(alloc);
    for number in numbers {
        signals.push(Signal(*number))?;
    }
    Ok(signals)
}

fn gate_parts(alloc: Global, gates: &[&[u32]]) -> Result<Vec<GatePart>, Fail> {
    let mut parts = Vec::new(alloc);
    for (pins, letter) in gates.iter().zip(b's'..b'y') {
        parts.push(GatePart {
            name: name(alloc, letter)?,
            pins: signals(alloc, pins)?,
            cover: Cover::new(true, Vec::new(alloc)).ok_or("a cover")?,
        })?;
    }
    Ok(parts)
}

fn circuit(alloc: Global, row: &Row) -> Result<Circuit, Fail> {
    let parts = Parts {
        model: name(alloc, b'z')?,
        clock: None,
        inputs: input_names(alloc, row.inputs)?,
        latches: latch_parts(alloc, row.latches)?,
        gates: gate_parts(alloc, row.gates)?,
        outputs: vec![in alloc; Signal(row.output)]?,
    };
    Ok(Circuit::build(alloc, parts)?)
}

/// What a row comes to.
fn settled(
    rt: &impl Abort,
    alloc: Global,
    circuit: &Circuit,
    row: &Row,
) -> Result<Settled, NoMemory> {
    let Row { k, d, target, .. } = *row;
    assert!(rt; 2 <= k && k <= 8 && circuit.widest() <= u32::from(k) && d <= 8 && target <= 9);
    settle(alloc, circuit, k, d, target)
}

/// Whether the drops replay to the labels.
fn replays(
    rt: &impl Abort,
    alloc: Global,
    circuit: &Circuit,
    row: &Row,
    settled: &Settled,
) -> Result<bool, NoMemory> {
    assert!(rt; row.k > 0 && settled.drops().len() < 99);
    let replayed = replay(alloc, circuit, row.k, row.d, row.target, settled.drops())?;
    Ok(matches!(&replayed, Replayed::Labels(labels) if labels.as_slice() == settled.labels()))
}

/// Whether the output is lost where only the gates that lead to it are settled.
fn loses(rt: &impl Abort, alloc: Global, circuit: &Circuit, row: &Row) -> Result<bool, NoMemory> {
    let Row { k, d, target, .. } = *row;
    assert!(rt; 2 <= k && k <= 8 && circuit.widest() <= u32::from(k) && d <= 8 && target <= 9);
    let settled = settle_outputs(alloc, 0, circuit, k, d, target)?;
    Ok(have_lost(circuit, settled.labels()))
}

fn try_row(rt: &impl Abort, alloc: Global, row: &Row) -> Result<(), Fail> {
    let circuit = circuit(alloc, row)?;
    let settled = settled(rt, alloc, &circuit, row)?;
    assert!(rt; settled.labels().ends_with(row.labels));
    assert!(rt; replays(rt, alloc, &circuit, row, &settled)?);
    assert_eq!(rt;
        loses(rt, alloc, &circuit, row)?,
        have_lost(&circuit, settled.labels())
    );
    Ok(())
}

#[test]
fn rows(rt: HostRuntime) -> Result<(), Fail> {
    for row in &ROWS {
        try_row(&rt, rt.alloc(), row)?;
    }
    Ok(())
}

/// The second gate falls to arrival 2. The third takes its drop over, and then has one of its own.
#[test]
fn a_drop_is_taken_over(rt: HostRuntime) -> Result<(), Fail> {
    let chain = circuit(rt.alloc(), &CHAIN)?;
    let settled = settled(&rt, rt.alloc(), &chain, &CHAIN)?;
    let expected = [(Signal(5), 1), (Signal(6), 1), (Signal(6), 2)];
    assert_eq!(rt; settled.drops().len(), expected.len());
    for (drop, expected) in settled.drops().iter().zip(expected) {
        assert_eq!(rt; (drop.gate, drop.arrival), expected);
    }
    Ok(())
}

/// How many turns there are up to the end, at most nine.
fn turns_of(work: &mut Work<'_>) -> Result<u32, NoMemory> {
    for turn in 0..9 {
        if !work.turn()? {
            return Ok(turn);
        }
    }
    Ok(9)
}

/// Two gates leave with cuts, and the last one loses its label and leaves.
#[test]
fn turns(rt: HostRuntime) -> Result<(), Fail> {
    let four = circuit(rt.alloc(), &FOUR)?;
    assert!(rt; four.widest() <= 2);
    let mut work = Work::new(rt.alloc(), &four, 2, 0, 1)?;
    assert_eq!(rt; turns_of(&mut work)?, 4);
    assert_eq!(rt; work.drops().len(), 1);
    assert!(rt;
        work.labels()
            .ends_with(&[LAG_0_ARRIVAL_1, LAG_0_ARRIVAL_1, None])
    );
    Ok(())
}
