// What is left when a settling has ended.

ghost use Rattle.std.specs.Prelude.{◌≡◌, ◌<◌, length, map};
ghost use Rattle.tm_replay.specs.Labels.{label_in};
ghost use Rattle.tm_replay.specs.Replays.{drop_of};
ghost use Rattle.tm_merge.specs.Cuts.{cut_in};
ghost use Rattle.tm_labels.specs.Settled.{settling};

use smallvec::SmallVec;
use std::marker::Model;
use tm_circuit::Signal;
use tm_replay::{Label, Lowering};
use tm_unroll::Node;

/// A settling for a target at its end: labels, the drops that led to them, and cuts.
#[derive(Drop)]
pub struct Settled {
    target: u32,
    /// One for each signal.
    labels: Vec<Option<Label>>,
    drops: Vec<Lowering>,
    /// One for each signal, empty where it has no label.
    cuts: Vec<SmallVec<Node, 8>>,
}

impl Model for Settled {
    ghost use Rattle.std.specs.Prelude.{map};
    ghost use Rattle.tm_replay.specs.Replays.{drop_of};
    ghost use Rattle.tm_labels.specs.Settled.{Settling};

    ghost Value = { Settling };

    ghost view = { λ s. record {
      target = s.target;
      labels = s.labels.items;
      drops = map drop_of s.drops.items;
      cuts = map (λ cut. cut.items) s.cuts.items;
    } };
}

impl Settled {
    /// A settling at its end, of its parts.
    pub(crate) fn of(
        target: u32,
        labels: Vec<Option<Label>>,
        drops: Vec<Lowering>,
        cuts: Vec<SmallVec<Node, 8>>,
    ) -> Settled
        ensures { result ≡ settling target labels.items (map drop_of drops.items) (map (λ cut. cut.items) cuts.items) }
    {
        Settled {
            target,
            labels,
            drops,
            cuts,
        }
    }

    /// The target that was settled for.
    pub fn target(&self) -> u32
        ensures { result ≡ self.now.target }
    {
        self.target
    }

    /// The labels, one for each signal.
    pub fn labels(&self) -> &[Option<Label>]
        ensures { result.now ≡ self.now.labels }
    {
        &self.labels
    }

    /// The label of a signal, where it has one.
    pub fn label(&self, s: Signal) -> Option<Label>
        ensures { result ≡ label_in self.now.labels s }
    {
        self.labels.get(s.0 as usize).copied().flatten()
    }

    /// The drops, in the order in which they were made.
    pub fn drops(&self) -> &[Lowering]
        ensures { map drop_of result.now ≡ self.now.drops }
    {
        &self.drops
    }

    /// The cut of a gate that was looked at: its leaves in ascending order. A signal without a label has none.
    pub fn cut(&self, s: Signal) -> &[Node]
        requires { s < length self.now.cuts }
        ensures { result.now ≡ cut_in self.now.cuts s }
    {
        self.cuts[s.0 as usize].as_slice()
    }

    /// The drops, without the rest.
    pub fn into_drops(self) -> Vec<Lowering>
        ensures { map drop_of result.items ≡ self.drops }
    {
        self.drops
    }
}
