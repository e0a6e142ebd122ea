// What all parts of a mapped circuit are made with.

ghost use Rattle.std.specs.Prelude.{◌≤◌, All, IfOk};
ghost use Rattle.tm_unroll.specs.Depths.{tables_in};
ghost use Rattle.tm_net.specs.Registers.{IsSmallMapping};

use crate::layout::Layout;
use std::alloc::Global;
use tm_bits::NoMemory;
use tm_circuit::Circuit;
use tm_init::{Starts, first_steps};
use tm_parts::joiner;
use tm_unroll::Lut;

/// The greatest lag of a table, 0 without tables.
fn greatest_lag(luts: &[Lut]) -> u8
    requires { All (λ lut. lut.lag ≤ 8) luts.now }
    ensures near { result ≤ 8 }
    ensures greatest { All (λ lut. lut.lag ≤ result) luts.now }
{
    let mut greatest = 0;
    for lut in luts {
        greatest = lut.lag.max(greatest);
    }
    greatest
}

/// What all parts of a mapped circuit are made with.
#[derive(Drop)]
pub struct Plan {
    pub layout: Layout,
    /// What stands between the name of a signal and an advance.
    pub joiner: Vec<u8>,
    /// The bits of signals at the steps below the greatest lag.
    pub starts: Starts,
}

impl Plan {
    ghost use Rattle.tm_net.specs.Making.{IsPlanOf};

    /// The plan of a mapping.
    pub fn new(alloc: Global, circuit: &Circuit, luts: &[Lut]) -> Result<Self, NoMemory>
        requires { IsSmallMapping circuit.now (tables_in luts.now) }
        ensures { IfOk result (IsPlanOf circuit.now (tables_in luts.now)) }
    {
        let _sound = circuit.signals();
        let layout = Layout::new(alloc, circuit, luts)?;
        let joiner = joiner(alloc, circuit, b'+')?;
        let starts = first_steps(alloc, circuit, greatest_lag(luts))?;
        Ok(Plan {
            layout,
            joiner,
            starts,
        })
    }
}
