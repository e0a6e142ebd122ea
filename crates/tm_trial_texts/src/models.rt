// Texts with several models beside the texts of their flat units, and texts with a fault in each pass.

use blif_hier::read;
use blif_read::{BlifFault, BlifKind, Limits, MAPPED, SOURCE};
use std::alloc::{AllocError, Global};
use std::test::Fail;
use tm_bits::Cover;
use tm_circuit::{Circuit, Clock, Driver, Signal};

/// A text, and a text with one model that has the same circuit.
struct Spelled<'a> {
    text: &'a str,
    alone: &'a str,
}

const SPELLED: &[Spelled<'static>] = &[
    // two halves
    Spelled {
        text: ".model top\n.inputs a b\n.outputs y\n.subckt half x=a z=m\n.subckt half x=b z=n\n.names m n y\n11 1\n.end\n.model half\n.inputs x\n.outputs z\n.latch x q 1\n.names q z\n0 1\n.end\n",
        alone: ".model top\n.inputs a b\n.outputs y\n.latch a q@1 1\n.names q@1 m\n0 1\n.latch b q@2 1\n.names q@2 n\n0 1\n.names m n y\n11 1\n.end\n",
    },
    // a clock that is bound through two levels, and an output that is left unbound
    Spelled {
        text: ".model top\n.inputs k d\n.outputs q r\n.subckt pair c=k x=d y=q\n.subckt pair c=k x=q y=r\n.model pair\n.inputs c x\n.outputs y z\n.subckt cell c=c x=x y=m\n.subckt cell c=c x=m y=y\n.model cell\n.inputs c x\n.outputs y\n.clock c\n.latch n y re c 1\n.names x n\n0 1\n",
        alone: ".model top\n.inputs k d\n.outputs q r\n.clock k\n.latch n@1@1 m@1 re k 1\n.names d n@1@1\n0 1\n.latch n@1@2 q re k 1\n.names m@1 n@1@2\n0 1\n.latch n@2@1 m@2 re k 1\n.names q n@2@1\n0 1\n.latch n@2@2 r re k 1\n.names m@2 n@2@2\n0 1\n",
    },
    // a first model without a name, and a joiner that is longer than a run of `@` in a name
    Spelled {
        text: ".inputs a\n.outputs y\n.subckt inverter x=a\n.subckt inverter x=a y=y\n.model inverter\n.inputs x\n.outputs y\n.names x v@@\n0 1\n.names v@@ y\n1 1\n",
        alone: ".inputs a\n.outputs y\n.names a v@@@@@1\n0 1\n.names v@@@@@1 y@@@1\n1 1\n.names a v@@@@@2\n0 1\n.names v@@@@@2 y\n1 1\n",
    },
    // one model alone
    Spelled {
        text: ".model alone\n.inputs en\n.outputs q\n.latch d q 0\n.names en q d\n10 1\n01 1\n.end\n",
        alone: ".model alone\n.inputs en\n.outputs q\n.latch d q 0\n.names en q d\n10 1\n01 1\n.end\n",
    },
];

fn is_same_cover(cover: &Cover, other: &Cover) -> bool {
    if cover.on() != other.on() || cover.rows().len() != other.rows().len() {
        return false;
    }
    for (row, another) in cover.rows().iter().zip(other.rows()) {
        if row.places() != another.places() {
            return false;
        }
    }
    true
}

fn is_same_driver(driver: &Driver, other: &Driver) -> bool {
    match driver {
        Driver::Input => matches!(other, Driver::Input),
        Driver::Latch { next, init } => match other {
            Driver::Latch {
                next: to,
                init: start,
            } => *next == *to && *init == *start,
            _ => false,
        },
        Driver::Gate { pins, cover } => match other {
            Driver::Gate {
                pins: others,
                cover: another,
            } => { pins.as_slice() == others.as_slice() && is_same_cover(cover, another) }
            _ => false,
        },
    }
}

fn is_same_clock(clock: Option<&Clock>, other: Option<&Clock>) -> bool {
    match (clock, other) {
        (Some(clock), Some(other)) => {
            clock.name.bytes() == other.name.bytes()
                && clock.edge == other.edge
                && clock.declared == other.declared
                && clock.place == other.place
        }
        (None, None) => true,
        _ => false,
    }
}

fn is_same(circuit: &Circuit, other: &Circuit) -> bool {
    if circuit.signals() != other.signals()
        || circuit.outputs() != other.outputs()
        || circuit.model().bytes() != other.model().bytes()
        || !is_same_clock(circuit.clock(), other.clock())
    {
        return false;
    }
    for k in 0..circuit.signals() {
        if circuit.name(Signal(k)).bytes() != other.name(Signal(k)).bytes()
            || !is_same_driver(circuit.driver(Signal(k)), other.driver(Signal(k)))
        {
            return false;
        }
    }
    true
}

/// Whether a text has the circuit of a text with one model.
fn has_circuit(alloc: Global, text: &[u8], alone: &[u8]) -> bool {
    if text.len() >= 1 << 32 || alone.len() >= 1 << 32 {
        return false;
    }
    match (
        read(alloc, text, &MAPPED),
        blif_read::read(alloc, alone, &MAPPED),
    ) {
        (Ok(circuit), Ok(other)) => is_same(&circuit, &other),
        _ => false,
    }
}

#[test]
fn texts_have_the_circuits_of_their_flat_units(rt: HostRuntime) {
    for row in SPELLED {
        let same = has_circuit(rt.alloc(), row.text.as_bytes(), row.alone.as_bytes());
        assert!(rt; same, "{}", row.text);
    }
}

/// The lines 4, 5 and one behind line 12 of `two halves`, and the fault that they make within limits.
struct Halves<'a> {
    fourth: &'a str,
    fifth: &'a str,
    last: &'a str,
    limits: &'a Limits,
    fault: Option<(u32, BlifKind)>,
}

const SHORT: Limits = Limits {
    signals: 100_000,
    name: 8,
};

const FEW: Limits = Limits {
    signals: 6,
    name: 255,
};

const PLAIN: Halves<'static> = Halves {
    fourth: ".subckt half x=a z=m",
    fifth: ".subckt half x=b z=n",
    last: "",
    limits: &SOURCE,
    fault: None,
};

const HALVES: &[Halves<'static>] = &[
    PLAIN,
    // the first pass
    Halves {
        fourth: ".subckt half x=a z=m\\m",
        fault: Some((4, BlifKind::BadByte)),
        ..PLAIN
    },
    Halves {
        fourth: ".subckt half x=a z=mmmmmmmmm",
        limits: &SHORT,
        fault: Some((4, BlifKind::LongName)),
        ..PLAIN
    },
    // the second pass
    Halves {
        fourth: ".subckt half x=a z",
        fault: Some((4, BlifKind::BadBinding)),
        ..PLAIN
    },
    Halves {
        last: ".model top\n",
        fault: Some((13, BlifKind::RepeatedModel)),
        ..PLAIN
    },
    // the third pass
    Halves {
        fourth: ".subckt third x=a z=m",
        fault: Some((4, BlifKind::NoModel)),
        ..PLAIN
    },
    Halves {
        fourth: ".subckt half x=a w=m",
        fault: Some((4, BlifKind::UnknownFormal)),
        ..PLAIN
    },
    Halves {
        fourth: ".subckt half x=a x=b",
        fault: Some((4, BlifKind::RepeatedFormal)),
        ..PLAIN
    },
    Halves {
        fourth: ".subckt half z=m",
        fault: Some((4, BlifKind::Unbound)),
        ..PLAIN
    },
    Halves {
        last: ".subckt half x=x z=w\n",
        fault: Some((0, BlifKind::Recursion)),
        ..PLAIN
    },
    // the fourth pass
    Halves {
        last: ".latch x qqqqqqq 1\n",
        limits: &SHORT,
        fault: Some((13, BlifKind::LongName)),
        ..PLAIN
    },
    Halves {
        fifth: ".subckt half x=b z=m",
        fault: Some((13, BlifKind::RepeatedDriver)),
        ..PLAIN
    },
    Halves {
        last: ".clock k\n",
        fault: Some((13, BlifKind::ManyClocks)),
        ..PLAIN
    },
    Halves {
        fifth: ".subckt half x=b z=o",
        fault: Some((6, BlifKind::Undriven)),
        ..PLAIN
    },
    Halves {
        limits: &FEW,
        fault: Some((0, BlifKind::TooManySignals)),
        ..PLAIN
    },
    Halves {
        fifth: ".subckt half x=a z=n",
        last: ".clock x\n",
        fault: Some((12, BlifKind::ClockAsData)),
        ..PLAIN
    },
];

fn text_of(alloc: Global, row: &Halves<'_>) -> Result<Vec<u8>, AllocError> {
    let mut text = Vec::new(alloc);
    for part in [
        ".model top\n.inputs a b\n.outputs y\n",
        row.fourth,
        "\n",
        row.fifth,
        "\n.names m n y\n11 1\n.end\n.model half\n.inputs x\n.outputs z\n.latch x q 1\n",
        row.last,
        ".names q z\n0 1\n.end\n",
    ] {
        text.extend_from_slice(part.as_bytes())?;
    }
    Ok(text)
}

/// The fault that a text has within limits, if it has one.
fn fault_within(alloc: Global, text: &[u8], limits: &Limits) -> Option<BlifFault> {
    if text.len() >= 1 << 32 || limits.signals > MAPPED.signals || limits.name > MAPPED.name {
        return None;
    }
    read(alloc, text, limits).err()
}

#[test]
fn two_halves(rt: HostRuntime) -> Result<(), Fail> {
    for row in HALVES {
        let text = text_of(rt.alloc(), row)?;
        let found = fault_within(rt.alloc(), &text, row.limits);
        let wanted = row.fault.map(|(line, kind)| BlifFault::Text { line, kind });
        assert!(rt;
            found == wanted,
            "{} {} {}",
            row.fourth,
            row.fifth,
            row.last
        );
    }
    Ok(())
}
