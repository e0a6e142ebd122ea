// The rows of the tests of AIGER texts: each command on one, and what is said of those that are refused.

use crate::check_rows::Check;
use crate::rows::{MAP_TOGGLE, Mapping, NOTHING, Refused, Run};

// A latch that takes its own negation, and both of its literals as outputs.
const FLIP: &str = "aag 1 0 1 2 0\n2 3\n2\n3\n";

const FLIP_MAPPED: &str =
    ".model aiger\n.inputs\n.outputs o%0 o%1\n.latch x%0 l%0 0\n.names l%0 x%0\n0 1\n.names l%0 o%0\n1 1\n.names l%0 o%1\n0 1\n.end\n";

const FLIP_CERT: &str =
    "turbomap 2\nperiod 1\ntables 3\ntable 1 0 0.0\ntable 2 0 0.0\ntable 3 0 0.0\ndrops 0\nend\n";

// The and of two inputs, with symbols.
const AND: &str = "aag 3 2 0 1 1\n2\n4\n6\n6 2 4\ni0 x\ni1 y\no0 z\n";

// Their or: the negated and of the negated inputs.
const OR: &str = "aag 3 2 0 1 1\n2\n4\n7\n6 3 5\n";

pub const MAP_FLIP: Mapping = Mapping {
    k: "2",
    d: "0",
    text: FLIP,
    said: "period 1 tables 3 registers 1\n",
    out: FLIP_MAPPED,
};

pub const MAP_AND: Mapping = Mapping {
    k: "2",
    d: "0",
    text: AND,
    said: "period 1 tables 1 registers 0\n",
    out: ".model aiger\n.inputs x y\n.outputs z\n.names x y z\n11 1\n.end\n",
};

pub const PRIME_OR: Mapping = Mapping {
    k: "2",
    d: "0",
    text: OR,
    said: "period 1 tables 1 registers 0\n",
    out: ".model aiger\n.inputs i%0 i%1\n.outputs o%0\n.names i%0 i%1 o%0\n1- 1\n-1 1\n.end\n",
};

pub const UNKNOWN_RESET: Refused = Refused {
    text: "aag 1 0 1 1 0\n2 3 2\n2\n",
    said: "t.blif: line 2: UnknownInit\n",
};

pub const MORE_SECTIONS: Refused = Refused {
    text: "aag 1 1 0 0 0 1\n2\n2\n",
    said: "t.blif: line 1: LeftOut\n",
};

pub const UNDRIVEN: Refused = Refused {
    text: "aag 2 1 0 1 0\n2\n4\n",
    said: "t.blif: line 3: Undriven\n",
};

pub const SIM_FLIP: Run<'static> = Run {
    words: &["sim", "t.blif", "v", "o.blif"],
    text: FLIP,
    vectors: "\n\n\n",
    said: "steps 3\n",
    out: "01\n10\n01\n",
    ..MAP_TOGGLE
};

pub const SHOW_AND: Run<'static> = Run {
    words: &["show", "t.blif"],
    text: AND,
    said: "model aiger\ninputs 2 outputs 1 latches 0 gates 2\nwidest 2\nperiod 2\nchain a%3 z\nslack a%3 0\nslack z 0\n",
    out: NOTHING,
    ..MAP_TOGGLE
};

pub const BOUND_AND: Run<'static> = Run {
    words: &["bound", "2", "0", "0", "t.blif"],
    text: AND,
    said: "bound period 1\n",
    out: NOTHING,
    ..MAP_TOGGLE
};

pub const CHECK_FLIP: Check = Check {
    k: "2",
    d: "0",
    text: FLIP,
    mapped: FLIP_MAPPED,
    cert: FLIP_CERT,
    status: 0,
    said: "accepted period 1 drops 0\n",
};

// The mapped text is read as BLIF alone.
pub const CHECK_AIGER_AS_MAPPED: Check = Check {
    mapped: FLIP,
    status: 5,
    said: "o.blif: line 1: Misplaced\n",
    ..CHECK_FLIP
};
