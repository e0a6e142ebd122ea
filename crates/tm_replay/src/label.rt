// Labels of gates, and the drops that lower them.

ghost use Rattle.std.specs.Prelude.{◌≡◌, ◌≤◌};
ghost use Rattle.tm_replay.specs.Labels.{next_below, label_in};

use tm_circuit::Signal;

/// The best that a table of a gate can be, as far as drops have shown: its lag, and at that lag its arrival. A greater lag is
/// better; at the same lag a smaller arrival is.
#[derive(Clone, Copy, Debug, PartialEq, Eq)]
pub struct Label {
    /// In steps.
    pub lag: u8,
    /// The number of tables on the longest chain that ends in the table, from 1.
    pub arrival: u32,
}

/// A drop of a replay: it lowers the label of its gate, which has its lag, to the one next below that lag and its arrival.
#[derive(Drop)]
pub struct Lowering {
    pub gate: Signal,
    /// In steps.
    pub lag: u8,
    pub arrival: u32,
    /// Walks from the gate, each as digits: for each node that it leaves the index of the node that is read next.
    pub walks: Vec<Vec<u8>>,
}

impl Label {
    /// The label next below this one for a target, where there is one: one arrival later up to the target, and past it
    /// arrival 1 at one lag less.
    pub fn next_below(self, target: u32) -> Option<Label>
        requires some { 1 ≤ self.arrival }
        requires most { self.arrival ≤ target }
        ensures { result ≡ next_below target self }
    {
        if self.arrival < target {
            return Some(Label {
                lag: self.lag,
                arrival: self.arrival + 1,
            });
        }
        if self.lag == 0 {
            return None;
        }
        Some(Label {
            lag: self.lag - 1,
            arrival: 1,
        })
    }
}

/// The label of a signal, where it has one. Labels stand in a list by the signals.
pub(crate) fn label_in(labels: &[Option<Label>], s: Signal) -> Option<Label>
    ensures { result ≡ label_in labels.now s }
{
    labels.get(s.0 as usize).copied().flatten()
}
