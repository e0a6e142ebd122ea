// Texts of both kinds, and some that are nearly of the other.

use aiger_read::AigerKind;
use blif_read::{BlifKind, Limits};
use std::alloc::Global;
use text_read::{TextFault, TextKind, read, too_many};

const NARROW: Limits = Limits {
    signals: 2,
    name: 255,
};

/// A text, what is wrong with it and where, if anything, and the kind that says that there are too many signals.
struct Case {
    text: &'static str,
    fault: Option<(u32, TextKind)>,
    too_many: TextKind,
}

const OF_BLIF: TextKind = TextKind::Blif(BlifKind::TooManySignals);

const OF_AIGER: TextKind = TextKind::Aiger(AigerKind::TooManySignals);

const CASES: [Case; 10] = [
    Case {
        text: ".inputs a\n.outputs a\n",
        fault: None,
        too_many: OF_BLIF,
    },
    Case {
        text: "",
        fault: None,
        too_many: OF_BLIF,
    },
    Case {
        text: ".inputs a b c\n",
        fault: Some((0, OF_BLIF)),
        too_many: OF_BLIF,
    },
    Case {
        text: "aag 1 1 0 1 0\n2\n2\n",
        fault: None,
        too_many: OF_AIGER,
    },
    Case {
        text: "aag 3 3 0 0 0\n2\n4\n6\n",
        fault: Some((0, OF_AIGER)),
        too_many: OF_AIGER,
    },
    // two models, of which the first is the top
    Case {
        text: ".inputs a\n.outputs b\n.subckt m x=a y=b\n.model m\n.inputs x\n.outputs y\n.names x y\n0 1",
        fault: None,
        too_many: OF_BLIF,
    },
    Case {
        text: ".outputs b\n.subckt m y=b",
        fault: Some((2, TextKind::Blif(BlifKind::NoModel))),
        too_many: OF_BLIF,
    },
    // the blank makes it AIGER, and all four bytes must stand first
    Case {
        text: "aag ",
        fault: Some((1, TextKind::Aiger(AigerKind::BadHeader))),
        too_many: OF_AIGER,
    },
    Case {
        text: "aag\n",
        fault: Some((1, TextKind::Blif(BlifKind::Misplaced))),
        too_many: OF_BLIF,
    },
    Case {
        text: " aag 0 0 0 0 0\n",
        fault: Some((1, TextKind::Blif(BlifKind::Misplaced))),
        too_many: OF_BLIF,
    },
];

/// What is wrong with a text and where, if anything.
fn fault_of(alloc: Global, text: &str) -> Result<Option<(u32, TextKind)>, TextFault> {
    if text.len() > 100 {
        return Ok(None);
    }
    match read(alloc, text.as_bytes(), &NARROW) {
        Ok(_) => Ok(None),
        Err(TextFault::Text { line, kind }) => Ok(Some((line, kind))),
        Err(TextFault::NoMemory) => Err(TextFault::NoMemory),
    }
}

#[test]
fn texts_of_both_kinds(rt: HostRuntime) {
    for case in &CASES {
        assert!(rt;
            too_many(case.text.as_bytes()) == case.too_many,
            "{}",
            case.text
        );
        assert!(rt;
            fault_of(rt.alloc(), case.text) == Ok(case.fault),
            "{}",
            case.text
        );
    }
}
