// What a circuit is made of: signals, names, clocks and drivers.

ghost use Rattle.std.specs.Prelude.{◌≡◌, IfOk};
ghost use Rattle.tm_circuit.specs.Plain.{drive_of};

use smallvec::SmallVec;
use std::alloc::Global;
use std::marker::Model;
use tm_bits::{Cover, NoMemory};

/// The number of a signal: the inputs come first, then the latches, then the gates.
#[derive(Clone, Copy, Debug, Default, PartialEq, Eq, PartialOrd, Ord, Hash)]
pub struct Signal(pub u32);

impl Model for Signal {
    ghost use Rattle.std.specs.Prelude.{ℕ};

    ghost Value = { ℕ };

    ghost view = { λ s. s.0 };

    ghost inverse = { λ n. record { 0 = n } };
}

/// A name as BLIF spells it, byte by byte.
#[derive(Drop)]
pub struct Name {
    bytes: Vec<u8>,
}

impl Model for Name {
    ghost use Rattle.std.specs.Prelude.{ℕ, List};

    ghost Value = { List ℕ };

    ghost view = { λ n. n.bytes.items };
}

impl Name {
    /// The name with these bytes.
    pub fn new(bytes: Vec<u8>) -> Self
        ensures { result ≡ bytes.items }
    {
        Name { bytes }
    }

    /// The bytes of the name.
    pub fn bytes(&self) -> &[u8]
        ensures { result.now ≡ self.now }
    {
        &self.bytes
    }

    /// The same name again.
    pub fn try_clone(&self, alloc: Global) -> Result<Self, NoMemory>
        ensures { IfOk result (λ copy. copy ≡ self.now) }
    {
        Ok(Name {
            bytes: Vec::from_slice(alloc, &self.bytes)?,
        })
    }
}

/// The edge of the clock at which latches take their next value.
#[derive(Clone, Copy, Debug, PartialEq, Eq)]
pub enum Edge {
    Rise,
    Fall,
}

/// The one clock of a circuit. It is no signal.
#[derive(Drop)]
pub struct Clock {
    /// Another name than those of the signals.
    pub name: Name,
    /// The edge of the latches that name the clock; none where no latch does.
    pub edge: Option<Edge>,
    /// Whether it is declared as a clock.
    pub declared: bool,
    /// The number of inputs before it, where it stands among the inputs.
    pub place: Option<u32>,
}

impl Clock {
    /// The same clock again.
    pub fn try_clone(&self, alloc: Global) -> Result<Self, NoMemory>
        ensures { IfOk result (λ copy. copy ≡ self.now) }
    {
        Ok(Clock {
            name: self.name.try_clone(alloc)?,
            edge: self.edge,
            declared: self.declared,
            place: self.place,
        })
    }
}

/// What gives a signal its value.
#[derive(Drop)]
pub enum Driver {
    Input,
    Latch {
        next: Signal,
        init: bool,
    },
    Gate {
        pins: SmallVec<Signal, 8>,
        cover: Cover,
    },
}

impl Driver {
    /// The same driver again.
    pub fn try_clone(&self, alloc: Global) -> Result<Self, NoMemory>
        ensures { IfOk result (λ copy. drive_of copy ≡ drive_of self.now) }
    {
        match self {
            Driver::Input => Ok(Driver::Input),
            Driver::Latch { next, init } => Ok(Driver::Latch {
                next: *next,
                init: *init,
            }),
            Driver::Gate { pins, cover } => Ok(Driver::Gate {
                pins: SmallVec::from_slice(alloc, pins.as_slice())?,
                cover: cover.try_clone(alloc)?,
            }),
        }
    }
}

/// A latch before it has a number.
#[derive(Drop)]
pub struct LatchPart {
    pub name: Name,
    pub next: Signal,
    pub init: bool,
}

/// A gate before it has a number.
#[derive(Drop)]
pub struct GatePart {
    pub name: Name,
    pub pins: SmallVec<Signal, 8>,
    pub cover: Cover,
}

/// The parts of a circuit. Signals count through the inputs, then the latches, then the gates.
#[derive(Drop)]
pub struct Parts {
    pub model: Name,
    pub clock: Option<Clock>,
    pub inputs: Vec<Name>,
    pub latches: Vec<LatchPart>,
    pub gates: Vec<GatePart>,
    pub outputs: Vec<Signal>,
}
