// Replays of lists of drops: each drop is tested under the labels of its moment, and then lowers one.

ghost use Rattle.std.specs.Prelude.{◌≡◌, ◌↔◌, ◌+◌, ◌^◌, ◌<◌, ◌≤◌, length, map, IsTrue, IfOk};
ghost use Rattle.std.specs.Option.{option_map};
ghost use Rattle.tm_circuit.specs.Plain.{drive_of};
ghost use Rattle.tm_circuit.specs.Chain.{IsGate};
ghost use Rattle.tm_replay.specs.Labels.{first_label, first_labels};
ghost use Rattle.tm_replay.specs.Replays.{drop_of, IsInOrder, lowered};
ghost use Rattle.tm_replay.specs.Faults.{why_of, IsJudged, IsReplayed};
ghost use Rattle.tm_replay.specs.Moments.{IsMoment};

use crate::fault::{DropFault, DropWhy, Replayed};
use crate::label::{Label, Lowering, label_in};
use crate::served::{Served, ServedFrom};
use std::alloc::Global;
use tm_bits::NoMemory;
use tm_circuit::{Circuit, Driver, Signal};
use tm_flow::{Judge, WalkFault, judge_walks};
use tm_unroll::Node;

/// Replays drops from the first labels for a target, over tables of at most `k` leaves and lags of at most `d` steps: the
/// labels at the end, or the first drop that is not lawful. It costs what the lengths of the walks add up to.
pub fn replay(
    alloc: Global,
    circuit: &Circuit,
    k: u8,
    d: u8,
    target: u32,
    drops: &[Lowering],
) -> Result<Replayed, NoMemory>
    requires some { 1 ≤ k }
    requires few { length drops.now < 2 ^ 32 }
    ensures { IfOk result (IsReplayed 0 circuit.now k d target (map drop_of drops.now)) }
{
    replay_from(alloc, 0, circuit, k, d, target, drops)
}

/// `replay` with a base, the advance that stands for the present.
pub fn replay_from(
    alloc: Global,
    base: u8,
    circuit: &Circuit,
    k: u8,
    d: u8,
    target: u32,
    drops: &[Lowering],
) -> Result<Replayed, NoMemory>
    requires some { 1 ≤ k }
    requires few { length drops.now < 2 ^ 32 }
    ensures { IfOk result (IsReplayed base circuit.now k d target (map drop_of drops.now)) }
{
    let mut labels = first_labels(alloc, circuit, d, target)?;
    let mut judge = Judge::new(alloc);
    for (place, drop) in drops.iter().enumerate() {
        if let Some(why) = judge_drop(&mut judge, base, circuit, k, target, &labels, drop)? {
            let entry = place as u32 + 1;
            return Ok(Replayed::Fault(DropFault { entry, why }));
        }
        lower(&mut labels, target, drop);
    }
    Ok(Replayed::Labels(labels))
}

/// The first labels of all signals.
fn first_labels(
    alloc: Global,
    circuit: &Circuit,
    d: u8,
    target: u32,
) -> Result<Vec<Option<Label>>, NoMemory>
    ensures { IfOk result (λ labels. labels.items ≡ first_labels circuit.now.drives d target) }
{
    let mut labels = Vec::with_capacity(alloc, circuit.signals() as usize)?;
    for s in 0..circuit.signals() {
        labels.push(first_label(circuit.driver(Signal(s)), d, target))?;
    }
    Ok(labels)
}

/// The first label of a signal: a gate has the greatest lag and arrival 1, where the target is not 0.
fn first_label(driver: &Driver, d: u8, target: u32) -> Option<Label>
    ensures { result ≡ first_label d target (drive_of driver.now) }
{
    match driver {
        Driver::Gate { .. } if target > 0 => Some(Label { lag: d, arrival: 1 }),
        Driver::Input | Driver::Latch { .. } | Driver::Gate { .. } => None,
    }
}

/// `None` where a drop is lawful under the labels, else the first test that it fails.
fn judge_drop(
    judge: &mut Judge<Node>,
    base: u8,
    circuit: &Circuit,
    k: u8,
    target: u32,
    labels: &[Option<Label>],
    drop: &Lowering,
) -> Result<Option<DropWhy>, NoMemory>
    requires some { 1 ≤ k }
    requires sized { length labels.now ≡ length circuit.now.drives }
    ensures { IfOk result (IsJudged base circuit.now k target labels.now (drop_of drop.now)) }
{
    if !is_in_order(circuit, target, labels, drop) {
        return Ok(Some(DropWhy::Order));
    }
    let _sound = circuit.signals();
    let served = Served {
        circuit,
        labels,
        within: drop.arrival - 1,
    };
    let net = ServedFrom { base, served };
    let root = Node {
        signal: drop.gate,
        advance: drop.lag,
    };
    let fault = judge_walks(judge, &net, root, u32::from(k), &drop.walks)?;
    Ok(why_of(fault))
}

/// The reason of a drop for what is wrong with its walks.
fn why_of(fault: Option<WalkFault>) -> Option<DropWhy>
    ensures { result ≡ option_map why_of fault }
{
    match fault {
        None => None,
        Some(WalkFault::TooFew) => Some(DropWhy::TooFew),
        Some(WalkFault::Path) => Some(DropWhy::Path),
        Some(WalkFault::Shared) => Some(DropWhy::Shared),
    }
}

/// Whether a drop is in order: it is of a gate whose label has the drop's lag and an arrival of at most the drop's, which is
/// from 1 to the target.
fn is_in_order(circuit: &Circuit, target: u32, labels: &[Option<Label>], drop: &Lowering) -> bool
    ensures { IsTrue result ↔ IsInOrder circuit.now.drives target labels.now (drop_of drop.now) }
{
    let Some(label) = label_in(labels, drop.gate) else {
        return false;
    };
    is_gate(circuit, drop.gate)
        && label.lag == drop.lag
        && label.arrival <= drop.arrival
        && 1 <= drop.arrival
        && drop.arrival <= target
}

/// Whether a number is that of a gate.
fn is_gate(circuit: &Circuit, s: Signal) -> bool
    ensures { IsTrue result ↔ IsGate circuit.now.drives s }
{
    s.0 < circuit.signals() && matches!(circuit.driver(s), Driver::Gate { .. })
}

/// Lowers the label of the drop's gate to the one next below the drop's lag and arrival.
fn lower(labels: &mut [Option<Label>], target: u32, drop: &Lowering)
    requires gate { drop.now.gate < length labels.old }
    requires some { 1 ≤ drop.now.arrival }
    requires most { drop.now.arrival ≤ target }
    ensures { labels.new ≡ lowered target labels.old (drop_of drop.now) }
{
    let label = Label {
        lag: drop.lag,
        arrival: drop.arrival,
    };
    labels[drop.gate.0 as usize] = label.next_below(target);
}
