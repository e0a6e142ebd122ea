// Where registers and tables stand among the signals of a mapped circuit: after the inputs the registers, by signal and advance, and
// then the tables.

ghost use Rattle.std.specs.Prelude.{◌≡◌, IfOk};
ghost use Rattle.tm_unroll.specs.Depths.{tables_in};
ghost use Rattle.tm_net.specs.Registers.{IsSmallMapping};

use crate::needed::{least_advances, register_ends};
use crate::numbers::{first_registers, tops};
use std::alloc::Global;
use tm_bits::NoMemory;
use tm_circuit::{Circuit, Signal};
use tm_unroll::{Lut, Node};

/// The numbers of registers and tables.
#[derive(Drop)]
pub struct Layout {
    /// For each signal the least advance at which it has a register, and where there is none the end.
    pub lows: Vec<u8>,
    /// For each signal the advance before which its registers end.
    pub ends: Vec<u8>,
    /// For each signal the number of its first register, and at the end the number after all registers.
    pub firsts: Vec<u32>,
    /// For each signal the number of its table's root, and where there is none its own number.
    pub tops: Vec<u32>,
}

impl Layout {
    ghost use Rattle.tm_net.specs.Layouts.{IsLayout, HasRoom, IsNumbered, number_in};

    /// The layout of a mapping.
    pub fn new(alloc: Global, circuit: &Circuit, luts: &[Lut]) -> Result<Self, NoMemory>
        requires { IsSmallMapping circuit.now (tables_in luts.now) }
        ensures { IfOk result (IsLayout circuit.now (tables_in luts.now)) }
    {
        let signals = circuit.signals();
        let ends = register_ends(alloc, circuit, luts)?;
        let lows = least_advances(alloc, circuit, luts, &ends)?;
        let firsts = first_registers(alloc, circuit.inputs(), &lows, &ends)?;
        let roots = firsts[lows.len()];
        let tops = tops(alloc, signals, roots, luts)?;
        Ok(Layout {
            lows,
            ends,
            firsts,
            tops,
        })
    }

    /// The number of a node.
    pub fn number(&self, node: Node) -> Signal
        requires room { HasRoom self.now }
        requires node { IsNumbered self.now node }
        ensures { result ≡ number_in self.now node }
    {
        let place = node.signal.0 as usize;
        if node.advance < self.ends[place] {
            let ahead = node.advance - self.lows[place];
            Signal(self.firsts[place] + u32::from(ahead))
        } else {
            Signal(self.tops[place])
        }
    }
}
