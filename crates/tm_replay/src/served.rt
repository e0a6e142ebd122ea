// The nodes that labels serve, and the net in which they may be cut.

ghost use Rattle.std.specs.Prelude.{◌≡◌, ◌<◌, ◌&&◌, length};
ghost use Rattle.tm_circuit.specs.Sound.{IsSound};
ghost use Rattle.tm_circuit.specs.Source.{IsSource};
ghost use Rattle.tm_unroll.specs.Unrolled.{is_node};
ghost use Rattle.tm_unroll.proofs.SearchLemmas.{node_decides};
ghost use Rattle.tm_replay.specs.Labels.{label_in};
ghost use Rattle.tm_replay.specs.Served.{label_serves, source_of, source_serves, is_served, served};
ghost use Rattle.tm_replay.specs.ServedNets.{sound_has_one_proof, served_keeps};

use crate::label::{Label, label_in};
use crate::node;
use tm_circuit::{Circuit, Driver, Signal, Source};
use tm_flow::LazyNet;
use tm_unroll::Node;

/// Whether the labels serve a node within a number: a gate whose label has more lag than the node's advance, or just so much
/// and an arrival within the number; an input at advance 0; and a latch at advance 0 whose source is an input, a ring, or a
/// gate with a label.
pub fn serves(circuit: &Circuit, labels: &[Option<Label>], node: Node, within: u32) -> bool
    requires { node.signal < length circuit.now.drives }
    ensures { result ≡ is_served 0 circuit.now.drives labels.now within node }
{
    serves_from(0, circuit, labels, node, within)
}

/// `serves` with a base, the advance that stands for the present: inputs are served up to it.
pub fn serves_from(
    base: u8,
    circuit: &Circuit,
    labels: &[Option<Label>],
    node: Node,
    within: u32,
) -> bool
    requires { node.signal < length circuit.now.drives }
    ensures { result ≡ is_served base circuit.now.drives labels.now within node }
{
    let Node { signal, advance } = node;
    match circuit.driver(signal) {
        Driver::Input => advance <= base,
        Driver::Latch { .. } => advance == 0 && has_served_source(circuit, labels, signal),
        Driver::Gate { .. } => label_serves(label_in(labels, signal), advance, within),
    }
}

/// Whether a label serves its gate at an advance within a number.
fn label_serves(label: Option<Label>, advance: u8, within: u32) -> bool
    ensures { result ≡ label_serves label advance within }
{
    match label {
        None => false,
        Some(label) => advance < label.lag || label.lag == advance && label.arrival <= within,
    }
}

/// Whether the source of a signal is an input, a ring, or a gate with a label.
fn has_served_source(circuit: &Circuit, labels: &[Option<Label>], s: Signal) -> bool
    requires { s < length circuit.now.drives }
    ensures { result ≡ source_serves labels.now (source_of circuit.now.drives s) }
{
    let _sound = circuit.signals();
    match circuit.source(s) {
        Source::Gate(gate) => label_in(labels, gate).is_some(),
        Source::Input(_) | Source::Ring => true,
    }
}

/// The unrolled net of a circuit in which the nodes that labels serve within a number may be cut. Its nodes are those of
/// the circuit's signals at any advance.
#[derive(Clone, Copy)]
pub struct Served<'a> {
    pub circuit: &'a Circuit,
    /// One for each signal.
    pub labels: &'a [Option<Label>],
    pub within: u32,
    pub ghost sized: { length labels.now ≡ length circuit.now.drives },
    pub ghost sound: { IsSound circuit.now } by { sound_has_one_proof circuit.now },
}

impl LazyNet for Served<'_> {
    type Node = Node;

    ghost shape = { λ n. served 0 n.circuit.now n.labels.now n.within };

    ghost rank_falls = { λ n x i h. (served_keeps 0 n.circuit.now n.labels.now n.within n.sound).falls x i h };

    ghost rank_below = { λ n x. (served_keeps 0 n.circuit.now n.labels.now n.within n.sound).below x };

    ghost end_reads_nothing = { λ n x h. (served_keeps 0 n.circuit.now n.labels.now n.within n.sound).stops x h };

    ghost same_if_equal = { λ x y h. (node_decides x y).0 h };

    fn reads(&self, node: Node) -> u32 {
        node::reads(self.circuit, node)
    }

    fn read(&self, node: Node, index: u32) -> Node {
        node::read(self.circuit, node, index)
    }

    fn is_end(&self, node: Node) -> bool {
        node::is_end(self.circuit, node)
    }

    fn may_cut(&self, node: Node) -> bool {
        node.signal.0 < self.circuit.signals()
            && serves(self.circuit, self.labels, node, self.within)
    }

    fn rank(&self, node: Node) -> u64 {
        node::rank(self.circuit, node)
    }

    fn bound(&self) -> u64 {
        node::bound(self.circuit)
    }
}

/// `Served` with a base, the advance that stands for the present: inputs are served up to it.
#[derive(Clone, Copy)]
pub struct ServedFrom<'a> {
    pub base: u8,
    pub served: Served<'a>,
}

impl LazyNet for ServedFrom<'_> {
    type Node = Node;

    ghost shape = { λ n. served n.base n.served.circuit.now n.served.labels.now n.served.within };

    ghost rank_falls = { λ n x i h.
        (served_keeps n.base n.served.circuit.now n.served.labels.now n.served.within n.served.sound).falls x i h };

    ghost rank_below = { λ n x. (served_keeps n.base n.served.circuit.now n.served.labels.now n.served.within n.served.sound).below x };

    ghost end_reads_nothing = { λ n x h.
        (served_keeps n.base n.served.circuit.now n.served.labels.now n.served.within n.served.sound).stops x h };

    ghost same_if_equal = { λ x y h. (node_decides x y).0 h };

    fn reads(&self, node: Node) -> u32 {
        node::reads(self.served.circuit, node)
    }

    fn read(&self, node: Node, index: u32) -> Node {
        node::read(self.served.circuit, node, index)
    }

    fn is_end(&self, node: Node) -> bool {
        node::is_end(self.served.circuit, node)
    }

    fn may_cut(&self, node: Node) -> bool {
        let Served {
            circuit,
            labels,
            within,
        } = self.served;
        node.signal.0 < circuit.signals() && serves_from(self.base, circuit, labels, node, within)
    }

    fn rank(&self, node: Node) -> u64 {
        node::rank(self.served.circuit, node)
    }

    fn bound(&self) -> u64 {
        node::bound(self.served.circuit)
    }
}
