// Two-way bounds of small circuits, reckoned by hand.

use std::alloc::Global;
use std::process::Abort;
use std::test::Fail;
use tm_circuit::Signal;
use tm_trial::circuit;
use two_way::{TwoWay, least};

/// The least period for tables of at most `k` leaves, where registers move forward by at most `d` steps and backward by at most `b`.
#[derive(Clone, Copy)]
struct Row {
    k: u8,
    d: u8,
    b: u8,
    period: u32,
}

/// A circuit with its rows.
#[derive(Clone, Copy)]
struct Group<'a> {
    inputs: &'a str,
    latches: &'a str,
    gates: &'a str,
    outputs: &'a str,
    rows: &'a [Row],
}

/// Two gates over two inputs each, and a gate over both, 7, with a latch behind it that is the output.
const BACK: Group<'static> = Group {
    inputs: "a b c d",
    latches: "y 7;",
    gates: "g 0 1;h 2 3;k 5 6;",
    outputs: "4",
    rows: &[
        Row {
            k: 2,
            d: 0,
            b: 0,
            period: 2,
        },
        Row {
            k: 2,
            d: 8,
            b: 0,
            period: 2,
        },
        Row {
            k: 2,
            d: 0,
            b: 1,
            period: 1,
        },
        Row {
            k: 2,
            d: 8,
            b: 8,
            period: 1,
        },
        Row {
            k: 4,
            d: 0,
            b: 0,
            period: 1,
        },
    ],
};

const GROUPS: &[Group<'static>] = &[
    BACK,
    // Three gates in a loop with one latch, each with an input of its own: no move helps.
    Group {
        inputs: "a b c",
        latches: "q 6;",
        gates: "g 3 0;h 4 1;k 5 2;",
        outputs: "6",
        rows: &[
            Row {
                k: 2,
                d: 8,
                b: 8,
                period: 3,
            },
            Row {
                k: 2,
                d: 1,
                b: 0,
                period: 3,
            },
            Row {
                k: 4,
                d: 0,
                b: 1,
                period: 1,
            },
        ],
    },
    // Three levels of gates, and two latches behind them: each pays for one level.
    Group {
        inputs: "a b c d e f g h",
        latches: "y 9;z 16;",
        gates: "l 0 1;m 2 3;n 4 5;o 6 7;p 10 11;q 12 13;r 14 15;",
        outputs: "8",
        rows: &[
            Row {
                k: 2,
                d: 0,
                b: 0,
                period: 3,
            },
            Row {
                k: 2,
                d: 0,
                b: 1,
                period: 2,
            },
            Row {
                k: 2,
                d: 0,
                b: 2,
                period: 1,
            },
            Row {
                k: 2,
                d: 0,
                b: 8,
                period: 1,
            },
        ],
    },
    // One latch behind them: registers could move further back than there are any.
    Group {
        inputs: "a b c d e f g h",
        latches: "y 15;",
        gates: "l 0 1;m 2 3;n 4 5;o 6 7;p 9 10;q 11 12;r 13 14;",
        outputs: "8",
        rows: &[
            Row {
                k: 2,
                d: 8,
                b: 1,
                period: 2,
            },
            Row {
                k: 2,
                d: 0,
                b: 8,
                period: 2,
            },
        ],
    },
    // No latch behind them: the output may not lie behind.
    Group {
        inputs: "a b c d e f g h",
        latches: "",
        gates: "l 0 1;m 2 3;n 4 5;o 6 7;p 8 9;q 10 11;r 12 13;",
        outputs: "14",
        rows: &[Row {
            k: 2,
            d: 8,
            b: 8,
            period: 3,
        }],
    },
    // A ring of two latches is read by a gate each.
    Group {
        inputs: "a",
        latches: "r 2;s 1;y 5;",
        gates: "g 0 1;h 4 2;",
        outputs: "3",
        rows: &[
            Row {
                k: 2,
                d: 8,
                b: 0,
                period: 2,
            },
            Row {
                k: 2,
                d: 0,
                b: 1,
                period: 1,
            },
            Row {
                k: 3,
                d: 0,
                b: 0,
                period: 1,
            },
        ],
    },
    // A loop of two gates and two latches: the second gate is the output, and so pinned.
    Group {
        inputs: "a b",
        latches: "p 5;q 2;",
        gates: "g 3 0;h 4 1;",
        outputs: "5",
        rows: &[Row {
            k: 2,
            d: 8,
            b: 8,
            period: 2,
        }],
    },
    // The second gate feeds the loop and, through a latch of its own, the output: no move helps the loop.
    Group {
        inputs: "a b",
        latches: "q 5;y 5;",
        gates: "g 2 0;h 4 1;",
        outputs: "3",
        rows: &[
            Row {
                k: 2,
                d: 8,
                b: 8,
                period: 2,
            },
            Row {
                k: 3,
                d: 0,
                b: 0,
                period: 1,
            },
        ],
    },
    // The first latch behind the second gate is the output.
    Group {
        inputs: "a b",
        latches: "p 5;q 2;",
        gates: "g 3 0;h 4 1;",
        outputs: "2",
        rows: &[
            Row {
                k: 2,
                d: 8,
                b: 0,
                period: 2,
            },
            Row {
                k: 2,
                d: 0,
                b: 1,
                period: 1,
            },
            Row {
                k: 2,
                d: 0,
                b: 2,
                period: 1,
            },
        ],
    },
    // Three gates in a row between latches: one may move forward, and one backward.
    Group {
        inputs: "a b c d",
        latches: "q 0;r 1;s 2;t 3;y 11;",
        gates: "g 4 5;h 9 6;k 10 7;",
        outputs: "8",
        rows: &[
            Row {
                k: 2,
                d: 0,
                b: 0,
                period: 3,
            },
            Row {
                k: 2,
                d: 1,
                b: 0,
                period: 2,
            },
            Row {
                k: 2,
                d: 0,
                b: 1,
                period: 2,
            },
            Row {
                k: 2,
                d: 1,
                b: 1,
                period: 1,
            },
            Row {
                k: 2,
                d: 2,
                b: 0,
                period: 2,
            },
            Row {
                k: 2,
                d: 0,
                b: 2,
                period: 2,
            },
        ],
    },
    // No gate, and one without pins.
    Group {
        inputs: "a",
        latches: "q 0;",
        gates: "",
        outputs: "0 1",
        rows: &[Row {
            k: 2,
            d: 0,
            b: 1,
            period: 0,
        }],
    },
    Group {
        inputs: "",
        latches: "q 1;",
        gates: "g =,;",
        outputs: "0",
        rows: &[Row {
            k: 2,
            d: 1,
            b: 2,
            period: 1,
        }],
    },
];

/// The bound of a row, which is as said.
fn check(rt: &impl Abort, alloc: Global, group: &Group, row: Row) -> Result<TwoWay, Fail> {
    let Group {
        inputs,
        latches,
        gates,
        outputs,
        ..
    } = *group;
    let Row { k, d, b, period } = row;
    let circuit = circuit(alloc, inputs, latches, gates, outputs)?;
    assert!(rt; 2 <= k && k <= 8 && d <= 8 && b <= 8 && circuit.widest() <= u32::from(k));
    assert!(rt; circuit.signals() <= 100_000);
    let bound = least(alloc, &circuit, k, d, b)?;
    assert_eq!(rt; bound.period, period, "{gates} {outputs} k {k} d {d} b {b}");
    assert_eq!(rt;
        bound.drops.is_none(),
        period == 0,
        "{gates} {outputs} k {k} d {d} b {b}"
    );
    Ok(bound)
}

#[test]
fn bounds_are_least(rt: HostRuntime) -> Result<(), Fail> {
    for group in GROUPS {
        for row in group.rows {
            check(&rt, rt.alloc(), group, *row)?;
        }
    }
    Ok(())
}

#[test]
fn the_last_gate_is_dropped_or_moved(rt: HostRuntime) -> Result<(), Fail> {
    let refuted = check(
        &rt,
        rt.alloc(),
        &BACK,
        Row {
            k: 2,
            d: 0,
            b: 0,
            period: 2,
        },
    )?;
    let drops = refuted
        .drops
        .as_ref()
        .map_or(&[][..], |drops| drops.as_slice());
    assert_eq!(rt; drops.len(), 1);
    let is_last = drops.iter().all(|drop| {
        drop.gate == Signal(7) && drop.lag == 0 && drop.arrival == 1 && drop.walks.len() == 3
    });
    assert!(rt; is_last);
    let moved = check(
        &rt,
        rt.alloc(),
        &BACK,
        Row {
            k: 2,
            d: 0,
            b: 1,
            period: 1,
        },
    )?;
    assert!(rt;
        moved
            .luts
            .iter()
            .any(|lut| lut.gate == Signal(7) && lut.lag == -1)
    );
    Ok(())
}
