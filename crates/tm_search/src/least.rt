// The search for the least period.

ghost use Rattle.std.specs.Prelude.{◌≡◌, ◌<◌, ◌≤◌, suc, length, IfOk, IfSome};
ghost use Rattle.tm_bits.specs.Limits.{most_inputs};
ghost use Rattle.tm_circuit.specs.Plain.{widest};
ghost use Rattle.tm_circuit.specs.Chain.{IsPeriod};
ghost use Rattle.tm_labels.specs.Settled.{IsSettled};
ghost use Rattle.tm_search.specs.Least.{Refutes, Reaches, IsLeast};
ghost use Rattle.tm_search.specs.Tried.{IsTried, IsFound};

use std::alloc::Global;
use tm_bits::NoMemory;
use tm_circuit::Circuit;
use tm_labels::{Settled, have_lost_from, settle, settle_outputs};
use tm_merge::Guess;

/// The least period that any lawful mapping has.
#[derive(Drop)]
pub struct Least {
    pub period: u32,
    /// Settled for the period, with a label for the source gate of each output.
    pub at: Settled,
    /// Settled for the period less one, where the source gate of some output has lost its label; none for the period 0.
    pub below: Option<Settled>,
}

/// A target that was tried: its settling reaches it, or refutes it.
#[derive(Drop)]
pub enum Tried {
    Reached(Settled),
    Refuted(Settled),
}

/// The least period, with settlings of all gates.
pub fn least_period(alloc: Global, circuit: &Circuit, k: u8, d: u8) -> Result<Least, NoMemory>
    requires few { (2 ≤ k) × (k ≤ most_inputs) }
    requires near { d ≤ 8 }
    requires narrow { widest circuit.now.drives ≤ k }
    requires signals { length circuit.now.drives ≤ 100000 }
    ensures least { IfOk result (IsLeast 0 circuit.now k d) }
    ensures at { IfOk result (λ least. IsSettled 0 circuit.now k d least.at) }
    ensures below { IfOk result (λ least. IfSome least.below (IsSettled 0 circuit.now k d)) }
    ensures sized { IfOk result (λ least. length least.at.cuts ≡ length circuit.now.drives) }
{
    let _sound = circuit.signals();
    let period = find_least(alloc, 0, circuit, k, d)?.period;
    let at = settle(alloc, circuit, k, d, period)?;
    if period == 0 {
        return Ok(Least {
            period,
            at,
            below: None,
        });
    }
    let below = settle(alloc, circuit, k, d, period - 1)?;
    Ok(Least {
        period,
        at,
        below: Some(below),
    })
}

/// The least period, with settlings of the gates that lead to an output, and with a base, the advance that stands for the present.
pub fn least_for_outputs(
    alloc: Global,
    base: u8,
    circuit: &Circuit,
    k: u8,
    d: u8,
) -> Result<Least, NoMemory>
    requires few { (2 ≤ k) × (k ≤ most_inputs) }
    requires base { base ≤ 8 }
    requires near { (base ≤ d) × (d ≤ 16) }
    requires narrow { widest circuit.now.drives ≤ k }
    requires signals { length circuit.now.drives ≤ 100000 }
    ensures least { IfOk result (IsLeast base circuit.now k d) }
    ensures sized { IfOk result (λ least. length least.at.cuts ≡ length circuit.now.drives) }
{
    find_least(alloc, base, circuit, k, d)
}

/// `least_for_outputs`, and that the period is no greater than the number of signals: from a guess the targets are settled one by
/// one, up to the first that is reached or down to the last.
fn find_least(alloc: Global, base: u8, circuit: &Circuit, k: u8, d: u8) -> Result<Least, NoMemory>
    requires few { (2 ≤ k) × (k ≤ most_inputs) }
    requires base { base ≤ 8 }
    requires near { (base ≤ d) × (d ≤ 16) }
    requires narrow { widest circuit.now.drives ≤ k }
    requires signals { length circuit.now.drives ≤ 100000 }
    ensures { IfOk result (IsFound base circuit.now k d) }
{
    let most = circuit.period(alloc)?;
    let target = guess(alloc, base, circuit, k, d, most)?;
    match try_target(alloc, base, circuit, k, d, target)? {
        Tried::Reached(at) => go_down(alloc, base, circuit, k, d, at),
        Tried::Refuted(below) => go_up(alloc, base, circuit, k, d, most, below),
    }
}

/// The least period below a target that is reached.
fn go_down(
    alloc: Global,
    base: u8,
    circuit: &Circuit,
    k: u8,
    d: u8,
    at: Settled,
) -> Result<Least, NoMemory>
    requires few { (2 ≤ k) × (k ≤ most_inputs) }
    requires base { base ≤ 8 }
    requires near { d ≤ 16 }
    requires narrow { widest circuit.now.drives ≤ k }
    requires target { at.target ≤ 100000 }
    requires reached { Reaches base circuit.now k d at.target at }
    requires sized { length at.cuts ≡ length circuit.now.drives }
    ensures { IfOk result (IsFound base circuit.now k d) }
{
    let mut at = at;
    while at.target() > 0 {
        match try_target(alloc, base, circuit, k, d, at.target() - 1)? {
            Tried::Reached(next) => at = next,
            Tried::Refuted(below) => {
                let period = at.target();
                return Ok(Least {
                    period,
                    at,
                    below: Some(below),
                });
            }
        }
    }
    Ok(Least {
        period: 0,
        at,
        below: None,
    })
}

/// The least period above a target that is refuted. It is at most the circuit's.
fn go_up(
    alloc: Global,
    base: u8,
    circuit: &Circuit,
    k: u8,
    d: u8,
    most: u32,
    below: Settled,
) -> Result<Least, NoMemory>
    requires few { (2 ≤ k) × (k ≤ most_inputs) }
    requires base { base ≤ 8 }
    requires near { (base ≤ d) × (d ≤ 16) }
    requires narrow { widest circuit.now.drives ≤ k }
    requires period { IsPeriod circuit.now most }
    requires most { most ≤ 100000 }
    requires refuted { Refutes base circuit.now k d (suc below.target) below }
    ensures { IfOk result (IsFound base circuit.now k d) }
{
    let _sound = circuit.signals();
    let mut below = below;
    while below.target() < most {
        let period = below.target() + 1;
        match try_target(alloc, base, circuit, k, d, period)? {
            Tried::Reached(at) => {
                return Ok(Least {
                    period,
                    at,
                    below: Some(below),
                });
            }
            Tried::Refuted(next) => below = next,
        }
    }
    unreachable!()
}

/// Settles a target.
fn try_target(
    alloc: Global,
    base: u8,
    circuit: &Circuit,
    k: u8,
    d: u8,
    target: u32,
) -> Result<Tried, NoMemory>
    requires few { (2 ≤ k) × (k ≤ most_inputs) }
    requires base { base ≤ 8 }
    requires near { d ≤ 16 }
    requires narrow { widest circuit.now.drives ≤ k }
    requires target { target ≤ 100000 }
    ensures { IfOk result (IsTried base circuit.now k d target) }
{
    let settled = settle_outputs(alloc, base, circuit, k, d, target)?;
    if have_lost_from(base, circuit, settled.labels()) {
        Ok(Tried::Refuted(settled))
    } else {
        Ok(Tried::Reached(settled))
    }
}

/// A target from which to search, by halving with cuts that are merged alone: where they settle a target it is reached, and where they
/// do not it may be reached all the same. Nothing is promised of the answer but that it is within `most`.
fn guess(
    alloc: Global,
    base: u8,
    circuit: &Circuit,
    k: u8,
    d: u8,
    most: u32,
) -> Result<u32, NoMemory>
    ensures { IfOk result (λ target. target ≤ most) }
{
    let mut guess = Guess::new(alloc, base, circuit, k, d)?;
    let mut low = 0;
    let mut high = most;
    while low < high {
        let middle = low + (high - low) / 2;
        if guess.can_settle(alloc, middle)? {
            high = middle;
        } else {
            low = middle + 1;
        }
    }
    Ok(low)
}
