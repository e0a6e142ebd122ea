// Marks and labels of signals, read by a number.

ghost use Rattle.std.specs.Prelude.{◌≡◌};
ghost use Rattle.tm_replay.specs.Labels.{label_in};
ghost use Rattle.tm_labels.specs.Marks.{is_marked};

use tm_circuit::Signal;
use tm_replay::Label;

/// Whether a signal is marked.
pub fn is_marked(marks: &[bool], s: Signal) -> bool
    ensures { result ≡ is_marked marks.now s }
{
    marks.get(s.0 as usize).copied().unwrap_or(false)
}

/// The label of a signal, where it has one.
pub fn label_of(labels: &[Option<Label>], s: Signal) -> Option<Label>
    ensures { result ≡ label_in labels.now s }
{
    labels.get(s.0 as usize).copied().flatten()
}
