// A circuit, as lists over its signals, and what is worked out once when it is built.

ghost use Rattle.std.specs.Prelude.{◌≡◌, ℕ, ◌<◌, ◌≤◌, length, Some, slice_get, option_copied, IsOkAnd};
ghost use Rattle.tm_circuit.specs.Plain.{drive_of, drive, input_count, latch_count, gate_count, greatest, widest};
ghost use Rattle.tm_circuit.specs.Chain.{rank, IsOrder, IsPeriod};
ghost use Rattle.tm_circuit.specs.Source.{IsSource};
ghost use Rattle.tm_circuit.specs.Sound.{IsSound};
ghost use Rattle.tm_circuit.specs.Build.{circuit_of, IsBuilt};
ghost use Rattle.tm_circuit.specs.Draft.{plain_of_draft, IsLaidOut, IsLawful};
ghost use Rattle.tm_circuit.specs.Descent.{IsRanking};
ghost use Rattle.tm_circuit.specs.Follow.{AreSources};

use crate::build;
use crate::depths::Ranking;
use crate::draft::Draft;
use crate::parts::{Clock, Driver, Name, Parts, Signal};
use crate::sources::Source;
use std::alloc::Global;
use std::marker::Model;
use thiserror::Error;
use tm_bits::NoMemory;

/// Why there is no circuit of some parts, the first reason in this order.
#[derive(Clone, Copy, Debug, PartialEq, Eq, Error)]
pub enum CircuitFault {
    /// There are more than 900,000 signals.
    #[error("more than 900,000 signals")]
    TooMany,
    /// A pin, a next or an output is no signal; a gate has more than 255 pins, or a row that is not as long as its pins are many; or
    /// the clock stands past the end of the inputs, has an edge where there is no latch, or has none and is not declared.
    #[error("a number is out of range")]
    Range,
    /// A name is empty, longer than 1,023 bytes, or has a byte outside 33 to 126, a `#` or a `\`; or a clock with an edge is named `NIL`.
    #[error("a name is not lawful")]
    BadName,
    /// Two signals, or a signal and the clock, have the same name.
    #[error("two names are the same")]
    RepeatedName,
    /// A signal stands twice in the outputs.
    #[error("a signal stands twice in the outputs")]
    RepeatedOutput,
    /// Gates read one another in a circle with no latch in it.
    #[error("gates read one another in a circle")]
    Loop,
    /// The allocator refused. This has no place in the order.
    #[error("no memory")]
    NoMemory,
}

impl From<NoMemory> for CircuitFault {
    ghost use Rattle.std.specs.Prelude.{◌≡◌};
    ghost use Rattle.tm_circuit.specs.declared.circuit.CircuitFault.TheVariants.{NoMemory as WantOfMemory};

    ghost from_gives = { λ _ fault. fault ≡ WantOfMemory };

    fn from(_refused: NoMemory) -> Self {
        CircuitFault::NoMemory
    }
}

/// A circuit in range, with lawful and distinct names and no circle of gates.
#[derive(Drop)]
pub struct Circuit {
    model: Name,
    clock: Option<Clock>,
    names: Vec<Name>,
    drivers: Vec<Driver>,
    outputs: Vec<Signal>,
    inputs: u32,
    latches: u32,
    widest: u32,
    order: Vec<Signal>,
    ranks: Vec<u32>,
    sources: Vec<Source>,
    period: u32,
}

impl Model for Circuit {
    ghost use Rattle.std.specs.Prelude.{map};
    ghost use Rattle.tm_circuit.specs.Plain.{Plain, drive_of};

    ghost Value = { Plain };

    ghost use Rattle.tm_circuit.specs.Inside.{plain_of, IsKept};

    ghost view = { plain_of };

    ghost invariant = { IsKept };
}

impl Circuit {
    /// The circuit of the parts, or the first fault in the order of `CircuitFault`. Takes time in proportion to the parts.
    pub fn build(alloc: Global, parts: Parts) -> Result<Circuit, CircuitFault>
        ensures { IsBuilt (circuit_of parts) result }
    {
        build::build(alloc, parts)
    }

    /// The circuit of a draft without faults, with what was worked out of it.
    pub(crate) fn of(
        draft: Draft,
        width: u32,
        period: u32,
        ranking: Ranking,
        sources: Vec<Source>,
    ) -> Circuit
        requires laid_out { IsLaidOut draft }
        requires lawful { IsLawful (plain_of_draft draft) }
        requires width { width ≡ widest (plain_of_draft draft).drives }
        requires period { period ≡ greatest ranking.ranks.items }
        requires ranking { IsRanking (plain_of_draft draft).drives ranking }
        requires sources { AreSources (plain_of_draft draft).drives sources.items }
        ensures same { result ≡ plain_of_draft draft }
        ensures sound { IsSound result }
    {
        let Draft {
            model,
            clock,
            names,
            drivers,
            outputs,
            inputs,
            latches,
        } = draft;
        let Ranking { order, ranks } = ranking;
        Circuit {
            model,
            clock,
            names,
            drivers,
            outputs,
            inputs: inputs as u32,
            latches: latches as u32,
            widest: width,
            order,
            ranks,
            sources,
            period,
        }
    }

    /// The name of the model.
    pub fn model(&self) -> &Name
        ensures { result.now ≡ self.now.model }
    {
        &self.model
    }

    /// The clock, where there is one. It is no signal.
    pub fn clock(&self) -> Option<&Clock>
        ensures { option_copied result ≡ self.now.clock }
    {
        self.clock.as_ref()
    }

    /// The number of signals. Of each circuit it is known that it is sound.
    pub fn signals(&self) -> u32
        ensures count { result ≡ length self.now.drives }
        ensures sound { IsSound self.now }
    {
        self.drivers.len() as u32
    }

    /// The number of inputs, which are the first signals.
    pub fn inputs(&self) -> u32
        ensures { result ≡ input_count self.now.drives }
    {
        self.inputs
    }

    /// The number of latches, which stand after the inputs.
    pub fn latches(&self) -> u32
        ensures { result ≡ latch_count self.now.drives }
    {
        self.latches
    }

    /// The number of gates, which are the last signals.
    pub fn gates(&self) -> u32
        ensures { result ≡ gate_count self.now.drives }
    {
        self.drivers.len() as u32 - self.inputs - self.latches
    }

    /// The outputs, in order.
    pub fn outputs(&self) -> &[Signal]
        ensures { result.now ≡ self.now.outputs }
    {
        &self.outputs
    }

    /// The name of a signal.
    pub fn name(&self, s: Signal) -> &Name
        requires { s < length self.now.drives }
        ensures { slice_get self.now.names s ≡ Some result.now }
    {
        &self.names[s.0 as usize]
    }

    /// What drives a signal.
    pub fn driver(&self, s: Signal) -> &Driver
        requires { s < length self.now.drives }
        ensures driver { slice_get self.now.drives s ≡ Some (drive_of result.now) }
        ensures drive { drive self.now s ≡ drive_of result.now }
    {
        &self.drivers[s.0 as usize]
    }

    /// All gates, each after the gates among its pins.
    pub fn order(&self) -> &[Signal]
        ensures { IsOrder self.now.drives result.now }
    {
        &self.order
    }

    /// The number of gates on the longest chain of gates that ends in a signal: 0 for an input and a latch, for a gate more than
    /// for each of its pins, and at most the number of gates.
    pub fn rank(&self, s: Signal) -> u32
        requires { s < length self.now.drives }
        ensures rank { result ≡ rank self.now s }
        ensures bounded { result ≤ gate_count self.now.drives }
        ensures sound { IsSound self.now }
    {
        self.ranks[s.0 as usize]
    }

    /// The input or the gate that following latches to their nexts leads to; an input and a gate are their own source.
    pub fn source(&self, s: Signal) -> Source
        requires { s < length self.now.drives }
        ensures { IsSource self.now.drives s result }
    {
        self.sources[s.0 as usize]
    }

    /// The greatest number of pins of a gate, 0 without gates.
    pub fn widest(&self) -> u32
        ensures pins { result ≡ widest self.now.drives }
        ensures sound { IsSound self.now }
    {
        self.widest
    }

    /// The greatest length of a list of gates in which each is a pin of the next. It was counted by `build`, so no memory is wanted.
    pub fn period(&self, alloc: Global) -> Result<u32, NoMemory>
        ensures period { IsOkAnd result (λ p. IsPeriod self.now p) }
        ensures sound { IsSound self.now }
    {
        let _ = alloc;
        Ok(self.period)
    }
}
