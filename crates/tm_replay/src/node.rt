// The nodes of the unrolled net of a circuit, asked one by one: what tells them apart from those of other nets is only what may
// be cut.

ghost use Rattle.std.specs.Prelude.{◌≡◌, ◌<◌};
ghost use Rattle.tm_replay.specs.Served.{net};

use tm_circuit::{Circuit, Driver};
use tm_unroll::Node;

/// How many nodes a node reads.
pub(crate) fn reads(circuit: &Circuit, node: Node) -> u32
    ensures { result ≡ (net circuit.now).reads node }
{
    let Node { signal, advance } = node;
    if signal.0 >= circuit.signals() {
        return 0;
    }
    match circuit.driver(signal) {
        Driver::Input => 0,
        Driver::Latch { .. } => u32::from(advance > 0),
        Driver::Gate { pins, .. } => pins.len() as u32,
    }
}

/// The node that a node reads at an index.
pub(crate) fn read(circuit: &Circuit, node: Node, index: u32) -> Node
    requires { index < (net circuit.now).reads node }
    ensures { result ≡ (net circuit.now).read node index }
{
    let Node { signal, advance } = node;
    match circuit.driver(signal) {
        Driver::Input => node,
        Driver::Latch { next, .. } => Node {
            signal: *next,
            advance: advance - 1,
        },
        Driver::Gate { pins, .. } => Node {
            signal: pins[index as usize],
            advance,
        },
    }
}

/// Whether walks end at a node: an input, or a latch with no advance to spend.
pub(crate) fn is_end(circuit: &Circuit, node: Node) -> bool
    ensures { result ≡ (net circuit.now).is_end node }
{
    let Node { signal, advance } = node;
    if signal.0 >= circuit.signals() {
        return false;
    }
    match circuit.driver(signal) {
        Driver::Input => true,
        Driver::Latch { .. } => advance == 0,
        Driver::Gate { .. } => false,
    }
}

/// The height of a node, which falls along reads.
pub(crate) fn rank(circuit: &Circuit, node: Node) -> u64
    ensures { result ≡ (net circuit.now).rank node }
{
    let Node { signal, advance } = node;
    if signal.0 >= circuit.signals() {
        return 0;
    }
    let steps = u64::from(circuit.gates()) + 1;
    u64::from(advance) * steps + u64::from(circuit.rank(signal))
}

/// A number above the heights of all nodes.
pub(crate) fn bound(circuit: &Circuit) -> u64
    ensures { result ≡ (net circuit.now).bound }
{
    (u64::from(u8::MAX) + 1) * (u64::from(circuit.gates()) + 1)
}
