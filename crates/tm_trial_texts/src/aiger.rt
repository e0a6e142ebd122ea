// Broken texts with their first faults, and texts with their circuits.

use aiger_read::{AigerFault, AigerKind, read};
use blif_read::{Limits, MAPPED};
use std::alloc::Global;
use tm_bits::Cover;
use tm_circuit::{Circuit, Driver, Signal};

/// The fault that a text has within limits, if it has one.
fn fault_within(alloc: Global, text: &[u8], limits: &Limits) -> Option<AigerFault> {
    if text.len() >= 1 << 32 || limits.signals > MAPPED.signals || limits.name > MAPPED.name {
        return None;
    }
    read(alloc, text, limits).err()
}

/// The fault of a kind at a line.
type Fault = (u32, AigerKind);

/// Whether what was found is the fault of this kind at this line, or none where there is none.
fn is_fault(found: Option<AigerFault>, wanted: Option<Fault>) -> bool {
    found == wanted.map(|(line, kind)| AigerFault::Text { line, kind })
}

/// A text with its first fault, or none.
struct Row<'a> {
    text: &'a str,
    fault: Option<Fault>,
}

const ROWS: &[Row<'static>] = &[
    Row {
        text: "",
        fault: Some((1, AigerKind::BadHeader)),
    },
    Row {
        text: "aag 1 0 0 0",
        fault: Some((1, AigerKind::BadHeader)),
    },
    Row {
        text: "aag 0 1 0 0 0 1\n2\n",
        fault: Some((1, AigerKind::BadHeader)),
    },
    Row {
        text: "aag 2147483647 0 0 0 0",
        fault: Some((1, AigerKind::BadHeader)),
    },
    Row {
        text: "aag 1 1 0  0 0\n2",
        fault: Some((1, AigerKind::BadHeader)),
    },
    Row {
        text: "aag 0 0 0 0 0 0 0 0 0 0",
        fault: Some((1, AigerKind::BadHeader)),
    },
    Row {
        text: "aag 0 0 0 0 0\r",
        fault: Some((1, AigerKind::BadHeader)),
    },
    Row {
        text: "aag 1 1 0 0 0 1\n2\n2",
        fault: Some((1, AigerKind::LeftOut)),
    },
    Row {
        text: "aag 0 0 0 0 0 0 0 0 7",
        fault: Some((1, AigerKind::LeftOut)),
    },
    Row {
        text: "aag 1 1 0 0 0\n",
        fault: Some((2, AigerKind::Ending)),
    },
    Row {
        text: "aag 2147483646 2147483646 0 0 0\n2\n4\n",
        fault: Some((4, AigerKind::Ending)),
    },
    Row {
        text: "aag 1 0 0 0 1\n2 1\n",
        fault: Some((2, AigerKind::BadLine)),
    },
    Row {
        text: "aag 1 1 0 0 0\n4294967296",
        fault: Some((2, AigerKind::BadLine)),
    },
    Row {
        text: "aag 1 1 0 0 0\n2\r",
        fault: Some((2, AigerKind::BadLine)),
    },
    Row {
        text: "aag 1 1 0 0 0\n3",
        fault: Some((2, AigerKind::BadLiteral)),
    },
    Row {
        text: "aag 1 1 0 1 0\n2\n4",
        fault: Some((3, AigerKind::BadLiteral)),
    },
    Row {
        text: "aag 1 0 1 0 0\n3 0 7",
        fault: Some((2, AigerKind::BadLiteral)),
    },
    Row {
        text: "aag 2 2 0 1 0\n2\n2\n5 5",
        fault: Some((3, AigerKind::Repeated)),
    },
    Row {
        text: "aag 2 1 0 0 1\n2\n2 0 0",
        fault: Some((3, AigerKind::Repeated)),
    },
    Row {
        text: "aag 1 0 1 0 0\n2 0 3",
        fault: Some((2, AigerKind::BadReset)),
    },
    Row {
        text: "aag 1 0 1 0 0\n2 0 4294967295",
        fault: Some((2, AigerKind::BadReset)),
    },
    Row {
        text: "aag 1 0 1 1 0\n2 3 2\n2",
        fault: Some((2, AigerKind::UnknownInit)),
    },
    Row {
        text: "aag 2 0 2 0 0\n2 4 1\n4 2 4",
        fault: Some((3, AigerKind::UnknownInit)),
    },
    Row {
        text: "aag 1 1 0 0 0\n2\ni1 x",
        fault: Some((3, AigerKind::BadSymbol)),
    },
    Row {
        text: "aag 1 1 0 0 0\n2\ni0 x\ni0 y",
        fault: Some((4, AigerKind::BadSymbol)),
    },
    Row {
        text: "aag 1 1 0 0 0\n2\ni0",
        fault: Some((3, AigerKind::BadSymbol)),
    },
    Row {
        text: "aag 1 1 0 0 0\n2\n\ni0 x\r",
        fault: Some((4, AigerKind::BadSymbol)),
    },
    Row {
        text: "aag 1 1 0 0 0\n2\nc\r",
        fault: Some((3, AigerKind::BadSymbol)),
    },
    Row {
        text: "aag 1 1 0 0 0\n2 3 x",
        fault: Some((2, AigerKind::BadLine)),
    },
    Row {
        text: "aag 2 1 1 0 0\n2\n2 6 7",
        fault: Some((3, AigerKind::BadLiteral)),
    },
    Row {
        text: "aag 2 1 1 0 0\n2\n2 0 7",
        fault: Some((3, AigerKind::Repeated)),
    },
    Row {
        text: "aag 2 1 0 1 0\n2\n4\ni1 x",
        fault: Some((4, AigerKind::BadSymbol)),
    },
    Row {
        text: "aag 2 1 0 1 0\n2\n4",
        fault: Some((3, AigerKind::Undriven)),
    },
    Row {
        text: "aag 4 1 0 1 1\n2\n7\n4 2 8",
        fault: Some((3, AigerKind::Undriven)),
    },
    Row {
        text: "aag 1 0 0 0 1\n2 3 1",
        fault: Some((0, AigerKind::Loop)),
    },
    Row {
        text: "aag 2 0 0 0 2\n4 2 1\n2 5 4",
        fault: Some((0, AigerKind::Loop)),
    },
    Row {
        text: "aag 1 0 0 0 1\n2 2 0",
        fault: None,
    },
    Row {
        text: "aag 1 1 0 0 0\n2\ni0 x\r\r\n",
        fault: None,
    },
    Row {
        text: "aag 1 1 0 0 0\r\n2\r\ni0 \r\n\r\nc\r\nx\r",
        fault: None,
    },
];

#[test]
fn texts_have_their_first_faults(rt: HostRuntime) {
    for row in ROWS {
        let found = fault_within(rt.alloc(), row.text.as_bytes(), &MAPPED);
        assert!(rt; is_fault(found, row.fault), "{}", row.text);
    }
}

const SMALL: Limits = Limits {
    signals: 3,
    name: 8,
};

/// Texts within the small limits.
const SMALL_ROWS: &[Row<'static>] = &[
    Row {
        text: "aag 1 1 0 2 0\n2\n2\n2",
        fault: None,
    },
    Row {
        text: "aag 1 1 0 3 0\n2\n2\n2\n3",
        fault: Some((0, AigerKind::TooManySignals)),
    },
    Row {
        text: "aag 2 0 0 1 2\n2\n2 4 4\n4 2 2",
        fault: Some((0, AigerKind::Loop)),
    },
    Row {
        text: "aag 3 0 0 2 2\n2\n7\n2 4 4\n4 2 2",
        fault: Some((3, AigerKind::Undriven)),
    },
    Row {
        text: "aag 2 0 0 2 2\n2\n2\n2 4 4\n4 2 2",
        fault: Some((0, AigerKind::TooManySignals)),
    },
];

#[test]
fn limits_are_kept(rt: HostRuntime) {
    for row in SMALL_ROWS {
        let found = fault_within(rt.alloc(), row.text.as_bytes(), &SMALL);
        assert!(rt; is_fault(found, row.fault), "{}", row.text);
    }
}

/// A text, and its circuit as a BLIF text.
struct Spelled<'a> {
    text: &'a str,
    blif: &'a str,
}

const SPELLED: &[Spelled<'static>] = &[
    Spelled {
        text: "aag 1 0 1 2 0\n2 3\n2\n3",
        blif: ".model aiger\n.inputs\n.outputs o%0 o%1\n.latch x%0 l%0 0\n.names l%0 x%0\n0 1\n.names l%0 o%0\n1 1\n.names l%0 o%1\n0 1\n.end",
    },
    Spelled {
        text: "aag 3 2 0 1 1\n2\n4\n6\n6 2 4\ni0 x\ni1 y\no0 z",
        blif: ".model aiger\n.inputs x y\n.outputs z\n.names x y a%3\n11 1\n.names a%3 z\n1 1\n.end",
    },
    Spelled {
        text: "aag 5 1 2 2 2\n2\n4 1 1\n6 0\n0\n1\n8 10 1\n10 0 3",
        blif: ".model aiger\n.inputs i%0\n.outputs o%0 o%1\n.latch x%0 l%0 1\n.latch x%1 l%1 0\n.names a%5 a%4\n1 1\n.names a%5\n.names x%0\n1\n.names x%1\n.names o%0\n.names o%1\n1\n.end",
    },
    Spelled {
        text: "aag 4 3 1 3 0\n2\n4\n6\n8 2\n2\n7\n9\ni0 s\ni1 s\ni2 a b\no0 i%1\no1 %%\no2 %%%%%%%%%%%%%%%%%\nl0 x\n\nc\nl0 y",
        blif: ".model aiger\n.inputs s i%%%1 i%%%2\n.outputs i%1 %% o%%%2\n.latch s x 0\n.names s i%1\n1 1\n.names i%%%2 %%\n0 1\n.names x o%%%2\n0 1\n.end",
    },
    Spelled {
        text: "aag 3 2 0 1 1\n4\n2\n6\n6 3 2\no0 %%%%%%%%%%%%%%%%\ni1 i%1",
        blif: ".model aiger\n.inputs i%%%%%%%%%%%%%%%%%0 i%1\n.outputs %%%%%%%%%%%%%%%%\n.names i%1 i%1 a%%%%%%%%%%%%%%%%%3\n01 1\n.names a%%%%%%%%%%%%%%%%%3 %%%%%%%%%%%%%%%%\n1 1\n.end",
    },
    Spelled {
        text: "aag 2147483646 1 0 1 0\n4\n4\no0 %\n",
        blif: ".model aiger\n.inputs i%%0\n.outputs %\n.names i%%0 %\n1 1\n.end",
    },
    Spelled {
        text: "aag 2 1 1 1 0\r\n2\r\n4 5 0\r\n4\r\ni0 a\r\r\nl0 \r\no0 123456789\r\n",
        blif: ".model aiger\n.inputs i%0\n.outputs 123456789\n.latch x%0 l%0 0\n.names l%0 x%0\n0 1\n.names l%0 123456789\n1 1\n.end",
    },
];

fn is_same_cover(cover: &Cover, other: &Cover) -> bool {
    if cover.on() != other.on() || cover.rows().len() != other.rows().len() {
        return false;
    }
    for (row, another) in cover.rows().iter().zip(other.rows()) {
        if row.places() != another.places() {
            return false;
        }
    }
    true
}

fn is_same_driver(driver: &Driver, other: &Driver) -> bool {
    match driver {
        Driver::Input => matches!(other, Driver::Input),
        Driver::Latch { next, init } => match other {
            Driver::Latch {
                next: to,
                init: start,
            } => *next == *to && *init == *start,
            _ => false,
        },
        Driver::Gate { pins, cover } => match other {
            Driver::Gate {
                pins: others,
                cover: another,
            } => { pins.as_slice() == others.as_slice() && is_same_cover(cover, another) }
            _ => false,
        },
    }
}

fn is_same(circuit: &Circuit, other: &Circuit) -> bool {
    if circuit.signals() != other.signals()
        || circuit.outputs() != other.outputs()
        || circuit.model().bytes() != other.model().bytes()
    {
        return false;
    }
    for k in 0..circuit.signals() {
        if circuit.name(Signal(k)).bytes() != other.name(Signal(k)).bytes()
            || !is_same_driver(circuit.driver(Signal(k)), other.driver(Signal(k)))
        {
            return false;
        }
    }
    true
}

/// Whether a text has the circuit of a BLIF text.
fn has_circuit(alloc: Global, text: &[u8], blif: &[u8]) -> bool {
    if text.len() >= 1 << 32 || blif.len() >= 1 << 32 {
        return false;
    }
    match (
        read(alloc, text, &MAPPED),
        blif_read::read(alloc, blif, &MAPPED),
    ) {
        (Ok(circuit), Ok(other)) => is_same(&circuit, &other),
        _ => false,
    }
}

#[test]
fn texts_have_their_circuits(rt: HostRuntime) {
    for row in SPELLED {
        let same = has_circuit(rt.alloc(), row.text.as_bytes(), row.blif.as_bytes());
        assert!(rt; same, "{}", row.text);
    }
}
