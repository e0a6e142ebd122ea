// The rows of the tests of certificates: what is written, and what the checker says of texts that were changed.

use crate::aiger_rows;

// A loop of three gates, in which lag pays nothing, and its mapped text.
pub const RING3: &str =
    ".model ring3\n.inputs a b c\n.outputs g3\n.latch g3 q 0\n.names q a g1\n10 1\n01 1\n.names g1 b g2\n10 1\n01 1\n.names g2 c g3\n10 1\n01 1\n.end\n";

pub const RING3_MAPPED: &str =
    ".model ring3\n.inputs a b c\n.outputs g3\n.latch g3 q 0\n.names a q g1\n01 1\n10 1\n.names b g1 g2\n01 1\n10 1\n.names c g2 g3\n01 1\n10 1\n.end\n";

// The mapped text with another table.
const RING3_OTHER: &str =
    ".model ring3\n.inputs a b c\n.outputs g3\n.latch g3 q 0\n.names a q g1\n11 1\n10 1\n.names b g1 g2\n01 1\n10 1\n.names c g2 g3\n01 1\n10 1\n.end\n";

// A certificate for it with K 2 and D 1, line by line.
pub const RING3_CERT: &[&str] = &[
    "turbomap 1\n",
    "period 3\n",
    "tables 3\n",
    "table 4 0 0.0 3.0\n",
    "table 5 0 1.0 4.0\n",
    "table 6 0 2.0 5.0\n",
    "drops 5\n",
    "drop 4 1 2 1\n",
    "drop 5 1 2 1\n",
    "drop 6 1 2 1\n",
    "drop 5 0 1 00 01 1\n",
    "drop 6 0 2 000 01 1\n",
    "end\n",
];

// A check of that certificate in which the lines from the first to the last are others: the status, and what is said.
#[derive(Clone, Copy)]
pub struct Change {
    pub mapped: &'static str,
    pub first: usize,
    pub last: usize,
    pub lines: &'static str,
    pub status: u8,
    pub said: &'static str,
}

pub const NO_CHANGE: Change = Change {
    mapped: RING3_MAPPED,
    first: 0,
    last: 0,
    lines: "",
    status: 0,
    said: "accepted period 3 drops 5\n",
};

// A change after which the certificate is not accepted.
const REFUSED: Change = Change {
    status: 7,
    ..NO_CHANGE
};

// A change after which the text is no certificate.
const FAULTY: Change = Change {
    status: 5,
    ..NO_CHANGE
};

pub const CHANGES: &[Change] = &[
    NO_CHANGE,
    // two drops exchanged
    Change {
        first: 11,
        last: 12,
        lines: "drop 6 0 2 000 01 1\ndrop 5 0 1 00 01 1\n",
        said: "not accepted: entry 4: Shared\n",
        ..REFUSED
    },
    Change {
        first: 9,
        last: 11,
        lines: "drop 5 0 1 00 01 1\ndrop 6 1 2 1\ndrop 5 1 2 1\n",
        said: "not accepted: entry 2: Order\n",
        ..REFUSED
    },
    // a drop too few
    Change {
        first: 7,
        last: 12,
        lines: "drops 4\ndrop 4 1 2 1\ndrop 5 1 2 1\ndrop 6 1 2 1\ndrop 5 0 1 00 01 1\n",
        said: "not accepted: entry 0: Unfinished\n",
        ..REFUSED
    },
    // walks
    Change {
        first: 8,
        last: 8,
        lines: "drop 4 1 2 2\n",
        said: "not accepted: entry 1: Path\n",
        ..REFUSED
    },
    Change {
        first: 11,
        last: 11,
        lines: "drop 5 0 1 00 01\n",
        said: "not accepted: entry 4: TooFew\n",
        ..REFUSED
    },
    // the period
    Change {
        first: 2,
        last: 2,
        lines: "period 2\n",
        said: "not accepted: entry 0: Chain\n",
        ..REFUSED
    },
    // another table in the mapped text
    Change {
        mapped: RING3_OTHER,
        said: "not accepted: entry 0: Circuit\n",
        ..REFUSED
    },
    // tables
    Change {
        first: 4,
        last: 4,
        lines: "table 4 0 0.0\n",
        said: "not accepted: entry 1: Uncovered\n",
        ..REFUSED
    },
    Change {
        first: 4,
        last: 4,
        lines: "table 4 2 0.0 3.0\n",
        said: "not accepted: entry 1: Lag\n",
        ..REFUSED
    },
    Change {
        first: 4,
        last: 4,
        lines: "table 4 0 3.0 0.0\n",
        said: "not accepted: entry 1: Leaves\n",
        ..REFUSED
    },
    Change {
        first: 5,
        last: 5,
        lines: "table 5 0 1.1 4.0\n",
        said: "not accepted: entry 2: Leaves\n",
        ..REFUSED
    },
    Change {
        first: 3,
        last: 4,
        lines: "tables 2\n",
        said: "not accepted: entry 1: Unserved\n",
        ..REFUSED
    },
    Change {
        first: 3,
        last: 6,
        lines: "tables 0\n",
        said: "not accepted: entry 1: Output\n",
        ..REFUSED
    },
    // texts that are no certificates
    Change {
        first: 13,
        last: 13,
        lines: "",
        said: "c.cert: line 13: Ending\n",
        ..FAULTY
    },
    Change {
        first: 1,
        last: 1,
        lines: "turbomap 3\n",
        said: "c.cert: line 1: Version\n",
        ..FAULTY
    },
    Change {
        first: 2,
        last: 2,
        lines: "period 03\n",
        said: "c.cert: line 2: Number\n",
        ..FAULTY
    },
    Change {
        first: 3,
        last: 3,
        lines: "tables 4294967295\n",
        said: "c.cert: line 7: Word\n",
        ..FAULTY
    },
    Change {
        first: 4,
        last: 4,
        lines: "table  4 0 0.0 3.0\n",
        said: "c.cert: line 4: Word\n",
        ..FAULTY
    },
    Change {
        first: 8,
        last: 8,
        lines: "drop 4 1 2\n",
        said: "c.cert: line 8: Word\n",
        ..FAULTY
    },
    Change {
        first: 8,
        last: 8,
        lines: "drop 4 1 2 8\n",
        said: "c.cert: line 8: Number\n",
        ..FAULTY
    },
    Change {
        first: 13,
        last: 13,
        lines: "end",
        said: "c.cert: line 13: Ending\n",
        ..FAULTY
    },
    Change {
        first: 13,
        last: 13,
        lines: "end\n ",
        said: "c.cert: line 14: Ending\n",
        ..FAULTY
    },
];

// Three texts that are checked with K and D: the status, and what is said.
#[derive(Clone, Copy)]
pub struct Check {
    pub k: &'static str,
    pub d: &'static str,
    pub text: &'static str,
    pub mapped: &'static str,
    pub cert: &'static str,
    pub status: u8,
    pub said: &'static str,
}

// Two equal latches, each a leaf of its own as version 1 has it.
pub const TWIN: &str =
    ".model twin\n.inputs a b c\n.outputs y\n.latch a q 0\n.latch a r 0\n.names q b g\n10 1\n01 1\n.names r c h\n10 1\n01 1\n.names g h y\n11 1\n.end\n";

pub const TWIN_MAPPED: &str =
    ".model twin\n.inputs a b c\n.outputs y\n.latch a q 0\n.latch a r 0\n.names b q g\n01 1\n10 1\n.names c r h\n01 1\n10 1\n.names g h y\n11 1\n.end\n";

pub const TWIN_CERT: &str =
    "turbomap 1\nperiod 2\ntables 3\ntable 5 0 1.0 3.0\ntable 6 0 2.0 4.0\ntable 7 0 5.0 6.0\ndrops 1\ndrop 7 0 1 00 01 10 11\nend\n";

const CHECK_TWIN: Check = Check {
    k: "3",
    d: "0",
    text: TWIN,
    mapped: TWIN_MAPPED,
    cert: TWIN_CERT,
    status: 0,
    said: "accepted period 2 drops 1\n",
};

pub const CHECKS: &[Check] = &[
    CHECK_TWIN,
    // an AIGER text, and one in the place of the mapped text
    aiger_rows::CHECK_FLIP,
    aiger_rows::CHECK_AIGER_AS_MAPPED,
    // by version 2 the second latch is read as the first
    Check {
        cert: "turbomap 2\nperiod 2\ntables 3\ntable 5 0 1.0 3.0\ntable 6 0 2.0 4.0\ntable 7 0 5.0 6.0\ndrops 1\ndrop 7 0 1 00 01 10 11\nend\n",
        status: 7,
        said: "not accepted: entry 2: Uncovered\n",
        ..CHECK_TWIN
    },
    // the first text at fault, the second, and the first before the others
    Check {
        text: ".outputs z\n",
        status: 5,
        said: "t.blif: line 1: Undriven\n",
        ..CHECK_TWIN
    },
    Check {
        mapped: ".outputs z\n",
        status: 5,
        said: "o.blif: line 1: Undriven\n",
        ..CHECK_TWIN
    },
    Check {
        mapped: ".outputs z\n",
        cert: "",
        status: 5,
        said: "o.blif: line 1: Undriven\n",
        ..CHECK_TWIN
    },
];

// A text that is mapped with K, D and a certificate, which is written so or begins so.
#[derive(Clone, Copy)]
pub struct Certified {
    pub k: &'static str,
    pub d: &'static str,
    pub text: &'static str,
    pub cert: &'static str,
}

pub const CERTIFIED: &[Certified] = &[
    Certified {
        k: "2",
        d: "1",
        text: crate::rows::FOUR,
        cert: "turbomap 2\nperiod 1\ntables 3\ntable 9 1 0.0 1.0\ntable 10 1 2.0 3.0\ntable 11 0 9.0 10.0\ndrops 0\nend\n",
    },
    Certified {
        k: "2",
        d: "0",
        text: crate::rows::WIRE,
        cert: "turbomap 2\nperiod 0\ntables 0\ndrops 0\nend\n",
    },
    // of four walks any three serve
    Certified {
        k: "2",
        d: "0",
        text: crate::rows::FOUR,
        cert: "turbomap 2\nperiod 2\ntables 3\ntable 9 0 4.0 5.0\ntable 10 0 6.0 7.0\ntable 11 0 9.0 10.0\ndrops 1\ndrop 11 0 1 ",
    },
];
