// The last drop of each gate at each lag, by its number. Nothing rests on what a number says: what is found is looked at anew.

ghost use Rattle.std.specs.Prelude.{◌≡◌, ◌<◌, ◌≤◌, ◌^◌, map, Contains, slice_get, option_copied, IfOk, IfSome};
ghost use Rattle.tm_unroll.specs.Nodes.{node_at};
ghost use Rattle.tm_replay.specs.Replays.{drop_of};
ghost use Rattle.tm_labels.specs.Lasts.{place_in, number_in, HasNoDrop, Notes};

use std::alloc::Global;
use tm_bits::NoMemory;
use tm_circuit::Signal;
use tm_replay::Lowering;
use tm_unroll::Node;

/// No drop.
const NONE: u32 = u32::MAX;

/// Numbers of drops, by signals and then by lags.
#[derive(Drop)]
pub struct Lasts {
    /// How many lags there are.
    lags: u16,
    numbers: Vec<u32>,
}

impl Lasts {
    /// No drop of any gate, for lags of at most `d`.
    pub fn new(alloc: Global, signals: u32, d: u8) -> Result<Lasts, NoMemory>
        ensures { IfOk result (HasNoDrop signals d) }
    {
        let lags = u16::from(d) + 1;
        let numbers = vec![in alloc; NONE; signals as usize * usize::from(lags)]?;
        Ok(Lasts { lags, numbers })
    }

    /// The last drop of a gate at a lag, or another one of those.
    pub fn last<'a>(&self, drops: &'a [Lowering], gate_at_lag: Node) -> Option<&'a Lowering>
        ensures numbered { option_copied result ≡ slice_get drops.entry.now (number_in self.now gate_at_lag) }
        ensures stands { IfSome result (λ drop. Contains (map drop_of drops.entry.now) (drop_of drop.now)) }
    {
        let Node { signal, advance } = gate_at_lag;
        let number = self.numbers.get(self.place(signal, advance)).copied();
        drops.get(number.unwrap_or(NONE) as usize)
    }

    /// The last drop of a gate at a lag has this number. A number past all that are kept is not noted.
    pub fn note(&mut self, gate: Signal, lag: u8, number: usize)
        ensures noted { number < 2 ^ 32 → Notes (node_at lag gate) number self.old self.new }
        ensures same { 2 ^ 32 ≤ number → self.new ≡ self.old }
    {
        let place = self.place(gate, lag);
        let Ok(number) = u32::try_from(number) else {
            return;
        };
        if place < self.numbers.len() {
            self.numbers[place] = number;
        }
    }

    /// Where the number of a gate at a lag stands.
    fn place(&self, gate: Signal, lag: u8) -> usize
        ensures { result ≡ place_in self.now (node_at lag gate) }
    {
        let lags = self.lags;
        gate.0 as usize * usize::from(lags) + usize::from(lag)
    }
}
