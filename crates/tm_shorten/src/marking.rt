// Which drops of a list others stand on, found backwards from the first label that an output loses.
//
// A label is one number, which each drop makes greater: 0 for the best, and one more for each label that stands between. A demand
// on a gate is the least number that its label has to have by then.

ghost use Rattle.std.specs.Prelude.{◌≡◌, ◌+◌, ◌^◌, ◌<◌, ◌≤◌, length, IfOk, IfSome};

use std::alloc::Global;
use tm_bits::NoMemory;
use tm_circuit::{Circuit, Driver, Signal, Source};
use tm_replay::Lowering;
use tm_unroll::Node;

/// The numbers of labels, for lags of at most `d` steps and a target.
#[derive(Clone, Copy)]
struct Scale {
    d: u8,
    target: u32,
}

impl Scale {
    /// The number of a label.
    fn number(self, lag: u8, arrival: u32) -> u64
        ensures { result < 2 ^ 48 }
    {
        let lags = u64::from(self.d.saturating_sub(lag));
        (lags * u64::from(self.target) + u64::from(arrival)).saturating_sub(1)
    }

    /// The number that says that there is no label.
    fn none(self) -> u64 {
        (u64::from(self.d) + 1) * u64::from(self.target)
    }
}

/// The labels of a replay as numbers.
#[derive(Drop)]
struct History {
    /// For each drop the label of its gate before it, up to the first drop after which an output has none.
    before: Vec<u64>,
    /// The gate of the last of these drops, where an output has lost its label.
    lost: Option<Signal>,
}

impl History {
    fn new(
        alloc: Global,
        circuit: &Circuit,
        scale: Scale,
        drops: &[Lowering],
    ) -> Result<History, NoMemory> {
        let outputs = output_gates(alloc, circuit)?;
        let mut labels = vec![in alloc; 0; circuit.signals() as usize]?;
        let mut before = Vec::with_capacity(alloc, drops.len())?;
        for drop in drops {
            let Lowering {
                gate,
                lag,
                arrival,
                ..
            } = drop;
            before.push(number_at(&labels, *gate))?;
            let after = scale.number(*lag, *arrival) + 1;
            set_number(&mut labels, *gate, after);
            if after == scale.none() && outputs.get(gate.0 as usize) == Some(&true) {
                let lost = Some(*gate);
                return Ok(History { before, lost });
            }
        }
        let lost = None;
        Ok(History { before, lost })
    }
}

/// What kept drops ask of the labels before them, and the nodes on their walks.
#[derive(Drop)]
struct Demands<'a> {
    circuit: &'a Circuit,
    scale: Scale,
    /// One for each signal.
    least: Vec<u64>,
    /// For each node the number of the last walk that it stood on, 0 for none.
    last_walks: Vec<u64>,
    /// The number of walks so far.
    walks: u64,
}

impl Demands<'_> {
    /// Nothing is asked yet.
    fn new(alloc: Global, circuit: &Circuit, scale: Scale) -> Result<Demands<'_>, NoMemory> {
        let signals = circuit.signals() as usize;
        let advances = usize::from(scale.d) + 1;
        Ok(Demands {
            circuit,
            scale,
            least: vec![in alloc; 0; signals]?,
            last_walks: vec![in alloc; 0; signals * advances]?,
            walks: 0,
        })
    }

    /// Keeps a drop, where the label before it does not do yet: then it is enough before it that its gate has come to its lag, and
    /// that what stands on its walks is served no better.
    fn keep(&mut self, drop: &Lowering, before: u64) -> bool {
        if number_at(&self.least, drop.gate) <= before {
            return false;
        }
        set_number(&mut self.least, drop.gate, self.scale.number(drop.lag, 1));
        let earlier = self.walks;
        for walk in &drop.walks {
            self.walks = self.walks.wrapping_add(1);
            self.follow(drop, walk, earlier);
        }
        true
    }

    /// Follows a walk of a drop from its gate.
    fn follow(&mut self, drop: &Lowering, walk: &[u8], earlier: u64) {
        let mut node = Node {
            signal: drop.gate,
            advance: drop.lag,
        };
        for digit in walk {
            let Some(next) = step(self.circuit, &node, *digit) else {
                return;
            };
            node = next;
            self.come_to(drop, &node, earlier);
        }
    }

    /// Comes to a node on a walk of a drop. It counts where it stands on an earlier walk of the drop, too, or where the walk is the only
    /// one.
    fn come_to(&mut self, drop: &Lowering, node: &Node, earlier: u64) {
        let met = self.meet(node, earlier);
        if met || drop.walks.len() == 1 {
            self.ask(node, drop.arrival);
        }
    }

    /// Whether a node stands on a walk after the earlier ones and before the present one. From now on it stands on the present one.
    fn meet(&mut self, node: &Node, earlier: u64) -> bool {
        let Node { signal, advance } = *node;
        let advances = usize::from(self.scale.d) + 1;
        let at = signal.0 as usize * advances + usize::from(advance);
        let walks = self.walks;
        let Some(last) = self.last_walks.get_mut(at) else {
            return false;
        };
        let met = earlier < *last && *last < walks;
        *last = walks;
        met
    }

    /// Asks that a node is not served before an arrival.
    fn ask(&mut self, node: &Node, arrival: u32) {
        if node.signal.0 >= self.circuit.signals() {
            return;
        }
        match self.circuit.driver(node.signal) {
            Driver::Gate { .. } => {
                let number = self.scale.number(node.advance, arrival);
                raise_number(&mut self.least, node.signal, number);
            }
            Driver::Latch { .. } if node.advance == 0 => {
                if let Source::Gate(gate) = self.circuit.source(node.signal) {
                    raise_number(&mut self.least, gate, self.scale.none());
                }
            }
            Driver::Input | Driver::Latch { .. } => {}
        }
    }
}

/// Marks the drops that the first output to lose its label stands on.
pub(crate) fn mark(
    alloc: Global,
    circuit: &Circuit,
    d: u8,
    target: u32,
    drops: &[Lowering],
) -> Result<Vec<bool>, NoMemory>
    ensures { IfOk result (λ marks. length marks.items ≡ length drops.now) }
{
    let scale = Scale { d, target };
    let History { before, lost } = History::new(alloc, circuit, scale, drops)?;
    let mut demands = Demands::new(alloc, circuit, scale)?;
    if let Some(gate) = lost {
        raise_number(&mut demands.least, gate, scale.none());
    }
    let mut marks = vec![in alloc; false; drops.len()]?;
    mark_back(&mut demands, drops, &before, &mut marks);
    Ok(marks)
}

/// Goes backwards over the drops of which the label before is known, and marks those that are kept.
fn mark_back(demands: &mut Demands, drops: &[Lowering], before: &[u64], marks: &mut [bool]) {
    let known = drops.iter().zip(before).zip(marks.iter_mut());
    for ((drop, before), mark) in known.rev() {
        *mark = demands.keep(drop, *before);
    }
}

/// Marks the source gates of outputs, by the signals.
fn output_gates(alloc: Global, circuit: &Circuit) -> Result<Vec<bool>, NoMemory> {
    let mut marks = vec![in alloc; false; circuit.signals() as usize]?;
    let _sound = circuit.signals();
    for output in circuit.outputs() {
        if let Source::Gate(gate) = circuit.source(*output) {
            marks[gate.0 as usize] = true;
        }
    }
    Ok(marks)
}

/// The node that a node reads at an index, where there is one.
fn step(circuit: &Circuit, node: &Node, index: u8) -> Option<Node> {
    let Node { signal, advance } = *node;
    if signal.0 >= circuit.signals() {
        return None;
    }
    match circuit.driver(signal) {
        Driver::Input => None,
        Driver::Latch { next, .. } => Some(Node {
            signal: *next,
            advance: advance.checked_sub(1)?,
        }),
        Driver::Gate { pins, .. } => Some(Node {
            signal: *pins.get(usize::from(index))?,
            advance,
        }),
    }
}

fn number_at(numbers: &[u64], s: Signal) -> u64 {
    numbers.get(s.0 as usize).copied().unwrap_or(0)
}

fn set_number(numbers: &mut [u64], s: Signal, number: u64) {
    if let Some(present) = numbers.get_mut(s.0 as usize) {
        *present = number;
    }
}

fn raise_number(numbers: &mut [u64], s: Signal, number: u64) {
    if let Some(present) = numbers.get_mut(s.0 as usize) {
        *present = number.max(*present);
    }
}
