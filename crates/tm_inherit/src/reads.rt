// What a gate reads behind latches, and which of it is served last.

ghost use Rattle.std.specs.Prelude.{◌≡◌, ◌<◌, length, All, IfSome};
ghost use Rattle.tm_circuit.specs.Chain.{IsGate};
ghost use Rattle.tm_unroll.specs.Latches.{behind_latches};
ghost use Rattle.tm_inherit.specs.Reads.{IsRead, IsReadAmong};

use tm_circuit::{Circuit, Driver, Signal};
use tm_merge::behind_latches;
use tm_replay::{Label, serves_from};
use tm_unroll::Node;

/// What a gate at a lag reads behind the latches of a pin.
#[derive(Clone, Copy)]
pub struct Read {
    /// The place of the pin.
    pub index: u8,
    pub node: Node,
    /// The least number within which the node is served, as a guess: the greatest number where it never is.
    pub number: u32,
}

/// What a gate at a lag reads, and of it what labels serve last. A gate without pins reads nothing. That nothing is served later is
/// not promised.
pub fn latest_read(
    base: u8,
    circuit: &Circuit,
    labels: &[Option<Label>],
    gate: Signal,
    lag: u8,
) -> Option<Read>
    requires { IsGate circuit.now.drives gate }
    ensures { IfSome result (IsRead circuit.now.drives gate lag) }
{
    let _sound = circuit.signals();
    match circuit.driver(gate) {
        Driver::Gate { pins, .. } => latest_among(base, circuit, labels, pins.as_slice(), lag),
        Driver::Input | Driver::Latch { .. } => None,
    }
}

/// The same among some pins.
fn latest_among(
    base: u8,
    circuit: &Circuit,
    labels: &[Option<Label>],
    pins: &[Signal],
    lag: u8,
) -> Option<Read>
    requires signals { All (λ p. p < length circuit.now.drives) pins.now }
    requires few { length pins.now < 256 }
    ensures { IfSome result (IsReadAmong circuit.now.drives pins.now lag) }
{
    let mut latest: Option<Read> = None;
    for (index, pin) in pins.iter().enumerate() {
        let read = read_at(base, circuit, labels, index as u8, *pin, lag);
        if is_later(&latest, &read) {
            latest = Some(read);
        }
    }
    latest
}

/// What is read behind the latches of a pin.
fn read_at(
    base: u8,
    circuit: &Circuit,
    labels: &[Option<Label>],
    index: u8,
    pin: Signal,
    lag: u8,
) -> Read
    requires { pin < length circuit.now.drives }
    ensures index { result.index ≡ index }
    ensures node { result.node ≡ behind_latches circuit.now.drives lag pin }
{
    let _sound = circuit.signals();
    let node = behind_latches(circuit, pin, lag);
    let number = served_within(base, circuit, labels, &node);
    Read {
        index,
        node,
        number,
    }
}

/// Whether a read is served later than what was the latest so far.
fn is_later(latest: &Option<Read>, read: &Read) -> bool {
    match latest {
        None => true,
        Some(before) => before.number < read.number,
    }
}

/// The least number within which labels serve a node.
fn served_within(base: u8, circuit: &Circuit, labels: &[Option<Label>], node: &Node) -> u32
    requires { node.now.signal < length circuit.now.drives }
{
    if serves_from(base, circuit, labels, *node, 0) {
        return 0;
    }
    match label_of(labels, node.signal) {
        Some(label) if label.lag == node.advance => label.arrival,
        Some(_) | None => u32::MAX,
    }
}

/// The label of a signal, where it has one.
fn label_of(labels: &[Option<Label>], s: Signal) -> Option<Label> {
    labels.get(s.0 as usize).copied().flatten()
}
