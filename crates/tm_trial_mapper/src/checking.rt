// Certificates of worked circuits, each with the verdict on it.

ghost use Rattle.std.specs.Prelude.{IsTrue};
ghost use Rattle.tm_parts.specs.Fits.{FitsMapping};

use cert_check::{Verdict, Why, check};
use cert_text::{Cert, read};
use std::alloc::Global;
use std::test::Fail;
use tm_circuit::Circuit;
use tm_parts::{has_names_within, laws};
use tm_trial::circuit;

/// A circuit on lines.
struct Net<'a> {
    inputs: &'a str,
    latches: &'a str,
    gates: &'a str,
    outputs: &'a str,
}

/// A certificate, with a semicolon after each table and each drop, and the verdict on it.
struct Case<'a> {
    version: u8,
    period: u32,
    tables: &'a str,
    drops: &'a str,
    verdict: Verdict,
}

/// Certificates for a source circuit and what is to be its mapped circuit.
struct Group<'a> {
    source: Net<'a>,
    mapped: Net<'a>,
    k: u8,
    d: u8,
    cases: &'a [Case<'a>],
}

const RING_TABLES: &str = "4 0 0.0 3.0;5 0 1.0 4.0;6 0 2.0 5.0;";

const RING_DROPS: &str = "4 1 2 1;5 1 2 1;6 1 2 1;5 0 1 00 01 1;6 0 2 000 01 1;";

const GROUPS: &[Group<'static>] = &[
    // Three gates in a ring with one latch.
    Group {
        source: Net {
            inputs: "a b c",
            latches: "q 6;",
            gates: "g1 3 0 =10,01;g2 4 1 =10,01;g3 5 2 =10,01;",
            outputs: "6",
        },
        mapped: Net {
            inputs: "a b c",
            latches: "q 6;",
            gates: "g1 0 3 =01,10;g2 1 4 =01,10;g3 2 5 =01,10;",
            outputs: "6",
        },
        k: 2,
        d: 1,
        cases: &[
            // The worked certificate.
            Case {
                version: 1,
                period: 3,
                tables: RING_TABLES,
                drops: RING_DROPS,
                verdict: Verdict::Yes,
            },
            // Drops 4 and 5 exchanged.
            Case {
                version: 1,
                period: 3,
                tables: RING_TABLES,
                drops: "4 1 2 1;5 1 2 1;6 1 2 1;6 0 2 000 01 1;5 0 1 00 01 1;",
                verdict: Verdict::No {
                    entry: 4,
                    why: Why::Shared,
                },
            },
            // Drops 2 and 4 exchanged.
            Case {
                version: 1,
                period: 3,
                tables: RING_TABLES,
                drops: "4 1 2 1;5 0 1 00 01 1;6 1 2 1;5 1 2 1;6 0 2 000 01 1;",
                verdict: Verdict::No {
                    entry: 2,
                    why: Why::Order,
                },
            },
            // Drop 5 taken out.
            Case {
                version: 1,
                period: 3,
                tables: RING_TABLES,
                drops: "4 1 2 1;5 1 2 1;6 1 2 1;5 0 1 00 01 1;",
                verdict: Verdict::No {
                    entry: 0,
                    why: Why::Unfinished,
                },
            },
            Case {
                version: 1,
                period: 3,
                tables: RING_TABLES,
                drops: "4 1 2 2;5 1 2 1;6 1 2 1;5 0 1 00 01 1;6 0 2 000 01 1;",
                verdict: Verdict::No {
                    entry: 1,
                    why: Why::Path,
                },
            },
            Case {
                version: 1,
                period: 3,
                tables: RING_TABLES,
                drops: "4 1 2 1;5 1 2 1;6 1 2 1;5 0 1 00 01;6 0 2 000 01 1;",
                verdict: Verdict::No {
                    entry: 4,
                    why: Why::TooFew,
                },
            },
            Case {
                version: 1,
                period: 2,
                tables: RING_TABLES,
                drops: RING_DROPS,
                verdict: Verdict::No {
                    entry: 0,
                    why: Why::Chain,
                },
            },
            // A period that no chain reaches passes the test of chains, but the drops are for another target.
            Case {
                version: 1,
                period: 4,
                tables: RING_TABLES,
                drops: RING_DROPS,
                verdict: Verdict::No {
                    entry: 4,
                    why: Why::Order,
                },
            },
            Case {
                version: 1,
                period: 3,
                tables: "4 0 0.0;5 0 1.0 4.0;6 0 2.0 5.0;",
                drops: RING_DROPS,
                verdict: Verdict::No {
                    entry: 1,
                    why: Why::Uncovered,
                },
            },
            Case {
                version: 1,
                period: 3,
                tables: "4 2 0.0 3.0;5 0 1.0 4.0;6 0 2.0 5.0;",
                drops: RING_DROPS,
                verdict: Verdict::No {
                    entry: 1,
                    why: Why::Lag,
                },
            },
            Case {
                version: 1,
                period: 3,
                tables: "4 0 3.0 0.0;5 0 1.0 4.0;6 0 2.0 5.0;",
                drops: RING_DROPS,
                verdict: Verdict::No {
                    entry: 1,
                    why: Why::Leaves,
                },
            },
            Case {
                version: 1,
                period: 3,
                tables: "4 0 0.0 3.0;5 0 1.1 4.0;6 0 2.0 5.0;",
                drops: RING_DROPS,
                verdict: Verdict::No {
                    entry: 2,
                    why: Why::Leaves,
                },
            },
            Case {
                version: 1,
                period: 3,
                tables: "5 0 1.0 4.0;6 0 2.0 5.0;",
                drops: RING_DROPS,
                verdict: Verdict::No {
                    entry: 1,
                    why: Why::Unserved,
                },
            },
            Case {
                version: 1,
                period: 3,
                tables: "",
                drops: RING_DROPS,
                verdict: Verdict::No {
                    entry: 1,
                    why: Why::Output,
                },
            },
        ],
    },
    // The same with other rows of the same values.
    Group {
        source: Net {
            inputs: "a b c",
            latches: "q 6;",
            gates: "g1 3 0 =10,01;g2 4 1 =10,01;g3 5 2 =10,01;",
            outputs: "6",
        },
        mapped: Net {
            inputs: "a b c",
            latches: "q 6;",
            gates: "g1 0 3 !00,11;g2 1 4 =10,01;g3 2 5 =01,10,01;",
            outputs: "6",
        },
        k: 2,
        d: 1,
        cases: &[Case {
            version: 1,
            period: 3,
            tables: RING_TABLES,
            drops: RING_DROPS,
            verdict: Verdict::Yes,
        }],
    },
    // A gate of another value.
    Group {
        source: Net {
            inputs: "a b c",
            latches: "q 6;",
            gates: "g1 3 0 =10,01;g2 4 1 =10,01;g3 5 2 =10,01;",
            outputs: "6",
        },
        mapped: Net {
            inputs: "a b c",
            latches: "q 6;",
            gates: "g1 0 3 =11,10;g2 1 4 =01,10;g3 2 5 =01,10;",
            outputs: "6",
        },
        k: 2,
        d: 1,
        cases: &[
            Case {
                version: 1,
                period: 3,
                tables: RING_TABLES,
                drops: RING_DROPS,
                verdict: Verdict::No {
                    entry: 0,
                    why: Why::Circuit,
                },
            },
            // The period is tested before.
            Case {
                version: 1,
                period: 2,
                tables: RING_TABLES,
                drops: RING_DROPS,
                verdict: Verdict::No {
                    entry: 0,
                    why: Why::Chain,
                },
            },
            // The drops are tested after.
            Case {
                version: 1,
                period: 3,
                tables: RING_TABLES,
                drops: "",
                verdict: Verdict::No {
                    entry: 0,
                    why: Why::Circuit,
                },
            },
        ],
    },
    // Pins in another order.
    Group {
        source: Net {
            inputs: "a b c",
            latches: "q 6;",
            gates: "g1 3 0 =10,01;g2 4 1 =10,01;g3 5 2 =10,01;",
            outputs: "6",
        },
        mapped: Net {
            inputs: "a b c",
            latches: "q 6;",
            gates: "g1 3 0 =01,10;g2 1 4 =01,10;g3 2 5 =01,10;",
            outputs: "6",
        },
        k: 2,
        d: 1,
        cases: &[Case {
            version: 1,
            period: 3,
            tables: RING_TABLES,
            drops: RING_DROPS,
            verdict: Verdict::No {
                entry: 0,
                why: Why::Circuit,
            },
        }],
    },
    // A latch with another initial value.
    Group {
        source: Net {
            inputs: "a b c",
            latches: "q 6;",
            gates: "g1 3 0 =10,01;g2 4 1 =10,01;g3 5 2 =10,01;",
            outputs: "6",
        },
        mapped: Net {
            inputs: "a b c",
            latches: "q 6 1;",
            gates: "g1 0 3 =01,10;g2 1 4 =01,10;g3 2 5 =01,10;",
            outputs: "6",
        },
        k: 2,
        d: 1,
        cases: &[Case {
            version: 1,
            period: 3,
            tables: RING_TABLES,
            drops: RING_DROPS,
            verdict: Verdict::No {
                entry: 0,
                why: Why::Circuit,
            },
        }],
    },
    // Equal latches. Joined, a table can't have the second one as a leaf, since it is not reached.
    Group {
        source: Net {
            inputs: "a b c",
            latches: "q 0;r 0;",
            gates: "g 1 3 =10,01;h 2 4 =10,01;y 5 6 =11;",
            outputs: "7",
        },
        mapped: Net {
            inputs: "a b c",
            latches: "q 0;r 0;",
            gates: "g 1 3 =01,10;h 2 4 =01,10;y 5 6 =11;",
            outputs: "7",
        },
        k: 3,
        d: 0,
        cases: &[
            Case {
                version: 1,
                period: 2,
                tables: "5 0 1.0 3.0;6 0 2.0 4.0;7 0 5.0 6.0;",
                drops: "7 0 1 00 01 10 11;",
                verdict: Verdict::Yes,
            },
            Case {
                version: 2,
                period: 2,
                tables: "5 0 1.0 3.0;6 0 2.0 4.0;7 0 5.0 6.0;",
                drops: "7 0 1 00 01 10 11;",
                verdict: Verdict::No {
                    entry: 2,
                    why: Why::Uncovered,
                },
            },
        ],
    },
    // One table for both, where they are one leaf.
    Group {
        source: Net {
            inputs: "a b c",
            latches: "q 0;r 0;",
            gates: "g 1 3 =10,01;h 2 4 =10,01;y 5 6 =11;",
            outputs: "7",
        },
        mapped: Net {
            inputs: "a b c",
            latches: "q 0;",
            gates: "y 1 2 3 =001,110;",
            outputs: "4",
        },
        k: 3,
        d: 0,
        cases: &[
            Case {
                version: 2,
                period: 1,
                tables: "7 0 1.0 2.0 3.0;",
                drops: "",
                verdict: Verdict::Yes,
            },
            Case {
                version: 1,
                period: 1,
                tables: "7 0 1.0 2.0 3.0;",
                drops: "",
                verdict: Verdict::No {
                    entry: 1,
                    why: Why::Uncovered,
                },
            },
        ],
    },
    // An output that is an input: the period is 0, and there is nothing to refute.
    Group {
        source: Net {
            inputs: "a",
            latches: "",
            gates: "",
            outputs: "0",
        },
        mapped: Net {
            inputs: "a",
            latches: "",
            gates: "",
            outputs: "0",
        },
        k: 2,
        d: 0,
        cases: &[
            Case {
                version: 2,
                period: 0,
                tables: "",
                drops: "",
                verdict: Verdict::Yes,
            },
            Case {
                version: 2,
                period: 0,
                tables: "",
                drops: "0 0 1 0;",
                verdict: Verdict::No {
                    entry: 1,
                    why: Why::Order,
                },
            },
            Case {
                version: 2,
                period: 1,
                tables: "",
                drops: "",
                verdict: Verdict::No {
                    entry: 0,
                    why: Why::Unfinished,
                },
            },
            Case {
                version: 2,
                period: 1,
                tables: "",
                drops: "0 0 1 0;",
                verdict: Verdict::No {
                    entry: 1,
                    why: Why::Order,
                },
            },
        ],
    },
];

/// The lines of a certificate for the items of a text: their number, and each behind a word.
fn lines(alloc: Global, word: &str, items: &str) -> Result<String, Fail> {
    let count = items.split_terminator(';').count();
    let mut text = format!(in alloc; "{word}s {count}\n")?;
    for item in items.split_terminator(';') {
        text.push_str(format!(in alloc; "{word} {item}\n")?.as_str())?;
    }
    Ok(text)
}

/// The certificate of a case.
fn certificate(alloc: Global, case: &Case) -> Result<Cert, Fail> {
    let (version, period) = (case.version, case.period);
    let tables = lines(alloc, "table", case.tables)?;
    let drops = lines(alloc, "drop", case.drops)?;
    let text = format!(in alloc; "turbomap {version}\nperiod {period}\n{tables}{drops}end\n")?;
    if text.len() > 1000 {
        return Err("a short text")?;
    }
    Ok(read(alloc, text.as_bytes())?)
}

/// The circuit of a net.
fn circuit_of(alloc: Global, net: &Net) -> Result<Circuit, Fail> {
    Ok(circuit(alloc, net.inputs, net.latches, net.gates, net.outputs)?)
}

/// Whether a circuit is seen at once to fit to be mapped: it is small and its names are short.
fn fits(circuit: &Circuit) -> bool
    ensures { IsTrue result → FitsMapping circuit.now }
{
    laws::runs_are_measured();
    circuit.signals() <= 100_000 && has_names_within(circuit, 255)
}

/// The verdict on a case.
fn judged(alloc: Global, group: &Group, case: &Case) -> Result<Verdict, Fail> {
    let (k, d) = (group.k, group.d);
    let source = circuit_of(alloc, &group.source)?;
    let mapped = circuit_of(alloc, &group.mapped)?;
    let cert = certificate(alloc, case)?;
    if k < 2 || k > 8 || d > 8 || source.widest() > u32::from(k) || !fits(&source) {
        return Err("a narrow circuit that fits")?;
    }
    if cert.version == 0 || cert.version > 2 || cert.drops.len() > 100 {
        return Err("a small certificate")?;
    }
    Ok(check(alloc, &source, &mapped, &cert, k, d)?)
}

#[test]
fn worked_certificates_are_judged(rt: HostRuntime) -> Result<(), Fail> {
    for group in GROUPS {
        for case in group.cases {
            let (tables, drops) = (case.tables, case.drops);
            assert_eq!(rt;
                judged(rt.alloc(), group, case)?,
                case.verdict,
                "{tables} {drops}"
            );
        }
    }
    Ok(())
}
