// Rounds over all gates, each of which chooses a cut for each gate anew.

ghost use Rattle.std.specs.Prelude.{◌≡◌, length};

use crate::counts::{MOST_TRIED, leaves_in};
use crate::cuts::{Cut, Cuts, Weight, merge};
use crate::level::Level;
use crate::plan::{Fact, Plan};
use std::alloc::Global;
use std::mem;
use tm_bits::NoMemory;
use tm_circuit::{Circuit, Driver, Signal};
use tm_labels::Settled;
use tm_unroll::{Mapping, Node};

/// By what a round chooses.
#[derive(Clone, Copy, PartialEq, Eq)]
enum Aim {
    /// The least arrival, and then area flow.
    Early,
    /// Area flow within the required times.
    Flow,
    /// The tables that a table alone keeps in use, within the required times.
    Exact,
}

/// What a round chooses among.
#[derive(Clone, Copy, PartialEq, Eq)]
enum Offers {
    /// Cuts that are put together of those of the pins.
    Anew,
    /// The same, which are kept for the rounds to come.
    AnewAndKept,
    /// Those that were kept, which costs a tenth.
    Again,
}

/// The rounds: early cuts make room, which the others use where nothing hangs on arrivals.
const ROUNDS: [(Aim, Offers); 5] = [
    (Aim::Early, Offers::Anew),
    (Aim::Flow, Offers::Anew),
    (Aim::Exact, Offers::AnewAndKept),
    (Aim::Flow, Offers::Again),
    (Aim::Exact, Offers::Again),
];

/// The most nodes over which those rounds go, gates at each lag: past them fewer rounds with fewer cuts have to do, since they would
/// take longer than all else.
const MANY_NODES: u32 = 5_000;

/// The rounds over more nodes.
const FEW_ROUNDS: [(Aim, Offers); 3] = [
    (Aim::Early, Offers::Anew),
    (Aim::Flow, Offers::AnewAndKept),
    (Aim::Exact, Offers::Again),
];

/// The most cuts that are kept of a node.
const MOST_CUTS: usize = 6;

/// The most cuts that are kept of each of many nodes.
const FEW_CUTS: usize = 4;

/// The most cuts that are kept of a node behind a register beside itself, which costs no arrival.
const CUTS_BEHIND: usize = 1;

/// The mapping that some rounds lead to from the cuts of a settling. Nothing is claimed of it.
pub(crate) fn lighter(
    alloc: Global,
    circuit: &Circuit,
    k: u8,
    settled: &Settled,
) -> Result<Mapping, NoMemory>
    requires { length settled.now.cuts ≡ length circuit.now.drives }
{
    let mut plan = Plan::new(alloc, circuit, settled)?;
    plan.begin(circuit)?;
    let lags = u32::from(plan.deepest).saturating_add(1);
    let (rounds, most): (&[(Aim, Offers)], usize) = if circuit.gates().saturating_mul(lags)
        > MANY_NODES
    {
        (&FEW_ROUNDS, FEW_CUTS)
    } else {
        (&ROUNDS, MOST_CUTS)
    };
    let mut memory = Memory::new(alloc);
    for (aim, offers) in rounds {
        let round = Round {
            alloc,
            circuit,
            k,
            aim: *aim,
            offers: *offers,
            most,
        };
        round.run(&mut plan, &mut memory)?;
        plan.renew(circuit)?;
    }
    plan.mapping(alloc, circuit)
}

/// Which cuts of a node are wanted: those that arrive before a time, of which so many are kept at most.
#[derive(Clone, Copy)]
struct Wanted {
    required: u32,
    most: usize,
}

/// The cuts that are found of a gate, and the room in which two are put together.
#[derive(Drop)]
struct Found {
    cuts: Cuts,
    nodes: Vec<Node>,
}

/// What the work on one gate leaves behind, so that the next one needs no memory of its own.
#[derive(Drop)]
struct Memory {
    found: Found,
    /// The cuts that were found without the last pins.
    before: Cuts,
}

impl Memory {
    fn new(alloc: Global) -> Memory {
        Memory {
            found: Found {
                cuts: Cuts::new(alloc),
                nodes: Vec::new(alloc),
            },
            before: Cuts::new(alloc),
        }
    }
}

/// A round over a circuit, for cuts of at most `k` leaves.
#[derive(Drop)]
struct Round<'a> {
    alloc: Global,
    circuit: &'a Circuit,
    k: u8,
    aim: Aim,
    offers: Offers,
    /// The most cuts that are kept of a node.
    most: usize,
}

impl Round<'_> {
    /// Chooses a cut for each gate.
    fn run(&self, plan: &mut Plan, memory: &mut Memory) -> Result<(), NoMemory> {
        match self.offers {
            Offers::Anew => self.run_anew(plan, memory),
            Offers::AnewAndKept => {
                plan.kept = Level::empty(self.alloc, self.circuit)?;
                self.run_anew(plan, memory)
            }
            Offers::Again => self.run_again(plan, memory),
        }
    }

    /// Chooses among the cuts that are kept.
    fn run_again(&self, plan: &mut Plan, memory: &mut Memory) -> Result<(), NoMemory> {
        for place in 0..plan.sequence.len() {
            if let Some(gate) = plan.sequence.get(place).copied() {
                self.choose_again(plan, memory, gate)?;
            }
        }
        Ok(())
    }

    /// Chooses among the cuts that are kept of a gate. A table that isn't in use keeps its cut where tables are counted.
    fn choose_again(
        &self,
        plan: &mut Plan,
        memory: &mut Memory,
        gate: Signal,
    ) -> Result<(), NoMemory> {
        if self.aim == Aim::Exact && !plan.counts.is_used(gate.0 as usize) {
            let present = plan.present(gate);
            plan.note(gate, present);
            return Ok(());
        }
        self.take_kept(plan, &mut memory.found.cuts, gate)?;
        self.choose(plan, gate, &memory.found.cuts)
    }

    /// The cuts that are kept of a gate, as they weigh now.
    fn take_kept(&self, plan: &Plan, cuts: &mut Cuts, gate: Signal) -> Result<(), NoMemory> {
        cuts.clear();
        for kept in plan.kept.cuts_of(gate) {
            let leaves = plan.kept.leaves_of(kept);
            cuts.push(Cut {
                leaves,
                sign: kept.sign,
                weight: plan.weigh(leaves),
            })?;
        }
        Ok(())
    }

    /// Chooses among cuts that are put together anew, from the least lag on.
    fn run_anew(&self, plan: &mut Plan, memory: &mut Memory) -> Result<(), NoMemory> {
        let mut below = None;
        for lag in 0..u8::MAX {
            if lag > plan.deepest {
                break;
            }
            let level = self.run_at(plan, memory, lag, below.as_ref())?;
            below = Some(level);
        }
        Ok(())
    }

    /// Chooses cuts anew for the gates whose labels have a lag.
    fn run_at(
        &self,
        plan: &mut Plan,
        memory: &mut Memory,
        lag: u8,
        below: Option<&Level>,
    ) -> Result<Level, NoMemory> {
        let mut level = Level::new(self.alloc, self.circuit, lag, below)?;
        for gate in self.circuit.order() {
            self.take_up(plan, memory, &mut level, *gate, lag)?;
        }
        Ok(level)
    }

    /// Gives the node of a gate its cuts, and chooses one of them where the gate's label has the lag.
    fn take_up(
        &self,
        plan: &mut Plan,
        memory: &mut Memory,
        level: &mut Level,
        gate: Signal,
        lag: u8,
    ) -> Result<(), NoMemory> {
        let fact = plan.fact(gate);
        let wanted = self.wanted(plan, &fact, lag);
        self.find(plan, memory, level, gate, wanted)?;
        let cuts = &memory.found.cuts;
        if fact.labelled && fact.lag == lag {
            if self.offers == Offers::AnewAndKept {
                plan.kept.add_gate(gate, lag, None, cuts)?;
            }
            self.choose(plan, gate, cuts)?;
        }
        let may_be_leaf = fact.labelled && lag <= fact.lag;
        let itself = if may_be_leaf {
            Some(plan.weigh_itself(gate, lag))
        } else {
            None
        };
        level.add_gate(gate, lag, itself, cuts)
    }

    /// Which cuts of a gate's node at an advance are of use.
    fn wanted(&self, plan: &Plan, fact: &Fact, advance: u8) -> Wanted {
        let is_behind = fact.labelled && advance < fact.lag;
        let most = if is_behind { CUTS_BEHIND } else { self.most };
        let required = match self.aim {
            Aim::Early => u32::MAX,
            Aim::Flow | Aim::Exact if fact.labelled && advance == fact.lag => fact.required,
            Aim::Flow | Aim::Exact => plan.period,
        };
        Wanted { required, most }
    }

    /// Finds the best cuts of a gate's node, of those that are in the level.
    fn find(
        &self,
        plan: &Plan,
        memory: &mut Memory,
        level: &Level,
        gate: Signal,
        wanted: Wanted,
    ) -> Result<(), NoMemory> {
        memory.found.cuts.clear();
        if gate.0 >= self.circuit.signals() {
            return Ok(());
        }
        match self.circuit.driver(gate) {
            Driver::Gate { pins, .. } => {
                self.find_over(plan, memory, level, pins.as_slice(), wanted)
            }
            Driver::Input | Driver::Latch { .. } => Ok(()),
        }
    }

    /// Finds the best cuts of a node that reads some signals.
    fn find_over(
        &self,
        plan: &Plan,
        memory: &mut Memory,
        level: &Level,
        pins: &[Signal],
        wanted: Wanted,
    ) -> Result<(), NoMemory> {
        let Some((first, others)) = pins.split_first() else {
            return self.add_empty(&mut memory.found.cuts);
        };
        let Some((second, others)) = others.split_first() else {
            return self.take(&mut memory.found.cuts, level, *first, wanted.required);
        };
        self.join_both(plan, memory, level, *first, *second, wanted)?;
        for pin in others {
            self.join_one_more(plan, memory, level, *pin, wanted)?;
        }
        Ok(())
    }

    /// Adds the cut of a node that reads nothing.
    fn add_empty(&self, cuts: &mut Cuts) -> Result<(), NoMemory> {
        cuts.push(Cut {
            leaves: &[],
            sign: 0,
            weight: Weight {
                arrival: 0,
                flow: 0,
                leaves: 0,
            },
        })
    }

    /// Takes the best cuts of a signal: as many as are kept of a node, and the node itself. In a tower of gates of one pin each would
    /// bring itself along, so that without a bound they would add up.
    fn take(
        &self,
        cuts: &mut Cuts,
        level: &Level,
        pin: Signal,
        required: u32,
    ) -> Result<(), NoMemory> {
        let most = self.most.saturating_add(1);
        for kept in level.cuts_of(pin) {
            if kept.weight.arrival < required {
                cuts.offer(level.cut(kept), self.aim == Aim::Early, most)?;
            }
        }
        Ok(())
    }

    /// Finds the best cuts of one signal with those of another.
    fn join_both(
        &self,
        plan: &Plan,
        memory: &mut Memory,
        level: &Level,
        first: Signal,
        second: Signal,
        wanted: Wanted,
    ) -> Result<(), NoMemory> {
        for kept in level.cuts_of(first) {
            self.join(
                plan,
                &mut memory.found,
                level,
                level.cut(kept),
                second,
                wanted,
            )?;
        }
        Ok(())
    }

    /// Finds the best of the cuts so far with those of one signal more.
    fn join_one_more(
        &self,
        plan: &Plan,
        memory: &mut Memory,
        level: &Level,
        pin: Signal,
        wanted: Wanted,
    ) -> Result<(), NoMemory> {
        mem::swap(&mut memory.found.cuts, &mut memory.before);
        memory.found.cuts.clear();
        for listed in memory.before.all() {
            self.join(
                plan,
                &mut memory.found,
                level,
                memory.before.cut(listed),
                pin,
                wanted,
            )?;
        }
        Ok(())
    }

    /// Offers a cut of some pins with each cut of one more.
    fn join(
        &self,
        plan: &Plan,
        found: &mut Found,
        level: &Level,
        cut: Cut<'_>,
        pin: Signal,
        wanted: Wanted,
    ) -> Result<(), NoMemory> {
        if cut.weight.arrival >= wanted.required {
            return Ok(());
        }
        for other in level.cuts_of(pin) {
            if other.is_too_large(self.k, cut.sign) {
                continue;
            }
            let are_apart = cut.sign & other.sign == 0;
            let at_best = cut.weight.at_best_with(other.weight, are_apart);
            if self.is_useless(&found.cuts, at_best, wanted) {
                continue;
            }
            if merge(&mut found.nodes, self.k, cut.leaves, level.leaves_of(other))? {
                let leaves = found.nodes.as_slice();
                let both = Cut {
                    leaves,
                    sign: cut.sign | other.sign,
                    weight: plan.weigh(leaves),
                };
                found.cuts.offer(both, self.aim == Aim::Early, wanted.most)?;
            }
        }
        Ok(())
    }

    /// Whether a cut that weighs no less than this is too late, or behind all that are found.
    fn is_useless(&self, cuts: &Cuts, at_best: Weight, wanted: Wanted) -> bool {
        if at_best.arrival >= wanted.required {
            return true;
        }
        match cuts.all().last() {
            Some(last) if cuts.len() >= wanted.most => {
                !at_best.is_before(last.weight, self.aim == Aim::Early)
            }
            _ => false,
        }
    }

    /// Chooses one of some cuts for a gate, or the one that it has.
    fn choose(&self, plan: &mut Plan, gate: Signal, cuts: &Cuts) -> Result<(), NoMemory> {
        match self.aim {
            Aim::Early => self.choose_first(plan, gate, cuts, u32::MAX),
            Aim::Flow => {
                let time = plan.fact(gate).required;
                self.choose_first(plan, gate, cuts, time)
            }
            Aim::Exact => self.choose_exactly(plan, gate, cuts),
        }
    }

    /// Chooses the first cut of a gate that arrives before a time, and the present one where there is none.
    fn choose_first(
        &self,
        plan: &mut Plan,
        gate: Signal,
        cuts: &Cuts,
        time: u32,
    ) -> Result<(), NoMemory> {
        let mut best = plan.present(gate);
        let mut chosen = None;
        for listed in cuts.all() {
            let weight = listed.weight;
            let is_better = best.arrival >= time || weight.is_before(best, self.aim == Aim::Early);
            if weight.arrival < time && is_better {
                best = weight;
                chosen = Some(cuts.cut(listed));
            }
        }
        plan.choose(self.alloc, gate, chosen, best)
    }

    /// Chooses the cut of a gate that brings the fewest tables into use, and of several the one that arrives first.
    fn choose_exactly(&self, plan: &mut Plan, gate: Signal, cuts: &Cuts) -> Result<(), NoMemory> {
        let is_used = plan.counts.is_used(gate.0 as usize);
        if is_used {
            let leaves = leaves_in(&plan.choices, gate);
            plan.counts.take_out(&plan.choices, leaves, MOST_TRIED)?;
        }
        self.choose_least(plan, gate, cuts)?;
        if is_used {
            let leaves = leaves_in(&plan.choices, gate);
            plan.counts.bring_in(&plan.choices, leaves)?;
        }
        Ok(())
    }

    /// The same for a gate whose present cut isn't counted.
    fn choose_least(&self, plan: &mut Plan, gate: Signal, cuts: &Cuts) -> Result<(), NoMemory> {
        let time = plan.fact(gate).required;
        let mut best = plan.present(gate);
        let leaves = leaves_in(&plan.choices, gate);
        let mut least = plan.counts.area_of(&plan.choices, leaves, usize::MAX)?;
        let mut chosen = None;
        for listed in cuts.all() {
            let cut = cuts.cut(listed);
            if cut.weight.arrival >= time {
                continue;
            }
            let area = plan.counts.area_of(&plan.choices, cut.leaves, least)?;
            if area < least || area == least && cut.weight.is_nearer(best) {
                best = cut.weight;
                least = area;
                chosen = Some(cut);
            }
        }
        plan.choose(self.alloc, gate, chosen, best)
    }
}
