// What labels refute: outputs whose source gates have lost the labels that they need.

ghost use Rattle.std.specs.Prelude.{◌≡◌, ◌↔◌, ◌<◌, length, IsTrue};
ghost use Rattle.tm_replay.specs.Replays.{FallsShort, HasLostSource, HaveLost};

use crate::label::{Label, label_in};
use tm_circuit::{Circuit, Signal, Source};

/// Whether labels refute: the source gate of some output has no label.
pub fn have_lost(circuit: &Circuit, labels: &[Option<Label>]) -> bool
    ensures { IsTrue result ↔ HaveLost (λ _. 0) circuit.now labels.now }
{
    let _sound = circuit.signals();
    for output in circuit.outputs() {
        if has_lost_source(circuit, labels, *output, 0) {
            return true;
        }
    }
    false
}

/// Whether the source of a signal is a gate that has no label, or one of a lag less than the need.
pub fn has_lost_source(circuit: &Circuit, labels: &[Option<Label>], s: Signal, need: u8) -> bool
    requires { s < length circuit.now.drives }
    ensures { IsTrue result ↔ HasLostSource circuit.now.drives labels.now s need }
{
    match circuit.source(s) {
        Source::Gate(gate) => falls_short(label_in(labels, gate), need),
        Source::Input(_) | Source::Ring => false,
    }
}

/// Whether there is no label, or it has less lag than the need.
fn falls_short(label: Option<Label>, need: u8) -> bool
    ensures { IsTrue result ↔ FallsShort label need }
{
    match label {
        None => true,
        Some(label) => label.lag < need,
    }
}
