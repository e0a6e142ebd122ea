// Outputs that have lost the label that they need.

ghost use Rattle.std.specs.Prelude.{◌≡◌, ◌↔◌, ◌<◌, length, IsTrue};
ghost use Rattle.tm_unroll.specs.Latches.{need_of};
ghost use Rattle.tm_replay.specs.Replays.{HaveLost};

use tm_circuit::{Circuit, Driver, Signal};
use tm_replay::{Label, has_lost_source};

/// Whether the source gate of some output has no label, or one of less lag than the output needs.
pub fn have_lost_from(base: u8, circuit: &Circuit, labels: &[Option<Label>]) -> bool
    ensures { IsTrue result ↔ HaveLost (need_of base circuit.now) circuit.now labels.now }
{
    let _sound = circuit.signals();
    for output in circuit.outputs() {
        if has_lost_source(circuit, labels, *output, need_of(base, circuit, *output)) {
            return true;
        }
    }
    false
}

/// The lag that an output needs of its source: the base less the latches from the output down to the source, and not below 0.
pub fn need_of(base: u8, circuit: &Circuit, s: Signal) -> u8
    requires { s < length circuit.now.drives }
    ensures { result ≡ need_of base circuit.now s }
{
    let _sound = circuit.signals();
    let mut at = s;
    let mut need = base;
    while need > 0 {
        match circuit.driver(at) {
            Driver::Latch { next, .. } => {
                at = *next;
                need -= 1;
            }
            Driver::Input | Driver::Gate { .. } => return need,
        }
    }
    0
}
