// Covers of one gate, worked out by hand. The circuits are written on a line.

use std::alloc::Global;
use tm_bits::{Cover, MOST_K, Place};
use tm_circuit::{Driver, Signal};
use tm_prime::with_prime_covers;
use tm_trial::{TrialFault, circuit};

/// A cover of the pins of one gate, and the rows of the prime cover in its place, each with a blank after it.
struct Case {
    pins: &'static str,
    cover: &'static str,
    rows: &'static str,
}

const CASES: [Case; 4] = [
    // the two rows of an or of two ands
    Case {
        pins: "0 1 2 3",
        cover: "=0011,0111,1011,1100,1101,1110,1111",
        rows: "11-- --11 ",
    },
    // the rows where it is 0
    Case {
        pins: "0 1",
        cover: "!00",
        rows: "1- -1 ",
    },
    // a pin that stands twice counts as two
    Case {
        pins: "0 0",
        cover: "=00,11",
        rows: "00 11 ",
    },
    // no rows
    Case {
        pins: "",
        cover: "=",
        rows: "",
    },
];

/// The rows of a cover, each with a blank after it.
fn spelled(alloc: Global, cover: &Cover) -> Result<Vec<u8>, TrialFault> {
    let mut text = Vec::new(alloc);
    for row in cover.rows() {
        for place in row.places() {
            text.push(match place {
                Place::Zero => b'0',
                Place::One => b'1',
                Place::Any => b'-',
            })?;
        }
        text.push(b' ')?;
    }
    Ok(text)
}

/// Whether the gate behind a latch and four inputs gets the rows of the case, and the latch stays.
fn holds(alloc: Global, case: &Case) -> Result<bool, TrialFault> {
    let gate = format!(in alloc; "g {} {};", case.pins, case.cover)?;
    let circuit = circuit(alloc, "a b c d", "q 5 1;", &gate, "4 5")?;
    if circuit.widest() > MOST_K as u32 {
        return Ok(false);
    }
    let primed = with_prime_covers(alloc, &circuit)?;
    if primed.signals() != 6 {
        return Ok(false);
    }
    let stays = match primed.driver(Signal(4)) {
        Driver::Latch { next, init } => *next == Signal(5) && *init,
        Driver::Input | Driver::Gate { .. } => false,
    };
    match primed.driver(Signal(5)) {
        Driver::Gate { cover, .. } => {
            Ok(stays && cover.on() && spelled(alloc, cover)?.as_slice() == case.rows.as_bytes())
        }
        Driver::Input | Driver::Latch { .. } => Ok(false),
    }
}

#[test]
fn rows_are_prime(rt: HostRuntime) {
    for case in &CASES {
        assert!(rt; holds(rt.alloc(), case) == Ok(true), "{}", case.cover);
    }
}
