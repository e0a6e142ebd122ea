// The rows of the tests of texts with several models: one that is mapped, and those that are refused.

use crate::rows::{Mapping, Refused};

// A model that is placed twice.
pub const TWO_HALVES: Mapping = Mapping {
    k: "2",
    d: "0",
    text: ".model top\n.inputs a b\n.outputs y\n.subckt half x=a z=m\n.subckt half x=b z=n\n.names m n y\n11 1\n.end\n.model half\n.inputs x\n.outputs z\n.latch x q 1\n.names q z\n0 1\n.end\n",
    said: "period 1 tables 1 registers 2\n",
    out: ".model top\n.inputs a b\n.outputs y\n.latch a q@1 1\n.latch b q@2 1\n.names q@1 q@2 y\n00 1\n.end\n",
};

pub const NO_MODEL: Refused = Refused {
    text: ".model top\n.inputs a b\n.outputs y\n.subckt third x=a z=m\n.subckt half x=b z=n\n.names m n y\n11 1\n.end\n.model half\n.inputs x\n.outputs z\n.latch x q 1\n.names q z\n0 1\n.end\n",
    said: "t.blif: line 4: NoModel\n",
};

pub const UNKNOWN_FORMAL: Refused = Refused {
    text: ".model top\n.inputs a b\n.outputs y\n.subckt half x=a w=m\n.subckt half x=b z=n\n.names m n y\n11 1\n.end\n.model half\n.inputs x\n.outputs z\n.latch x q 1\n.names q z\n0 1\n.end\n",
    said: "t.blif: line 4: UnknownFormal\n",
};

pub const UNBOUND: Refused = Refused {
    text: ".model top\n.inputs a b\n.outputs y\n.subckt half z=m\n.subckt half x=b z=n\n.names m n y\n11 1\n.end\n.model half\n.inputs x\n.outputs z\n.latch x q 1\n.names q z\n0 1\n.end\n",
    said: "t.blif: line 4: Unbound\n",
};

pub const BAD_BINDING: Refused = Refused {
    text: ".model top\n.inputs a b\n.outputs y\n.subckt half x=a z\n.subckt half x=b z=n\n.names m n y\n11 1\n.end\n.model half\n.inputs x\n.outputs z\n.latch x q 1\n.names q z\n0 1\n.end\n",
    said: "t.blif: line 4: BadBinding\n",
};

pub const REPEATED_DRIVER: Refused = Refused {
    text: ".model top\n.inputs a b\n.outputs y\n.subckt half x=a z=m\n.subckt half x=b z=m\n.names m n y\n11 1\n.end\n.model half\n.inputs x\n.outputs z\n.latch x q 1\n.names q z\n0 1\n.end\n",
    said: "t.blif: line 13: RepeatedDriver\n",
};

pub const RECURSION: Refused = Refused {
    text: ".model top\n.inputs a b\n.outputs y\n.subckt half x=a z=m\n.subckt half x=b z=n\n.names m n y\n11 1\n.end\n.model half\n.inputs x\n.outputs z\n.latch x q 1\n.subckt half x=x z=w\n.names q z\n0 1\n.end\n",
    said: "t.blif: line 0: Recursion\n",
};
