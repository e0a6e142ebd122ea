// The ranks of all signals and an order of the gates, by one descent from gates to their pins.
// The trail of the descent is the circle where there is one.

ghost use Rattle.std.specs.Prelude.{◌≡◌, ℕ, ◌+◌, ◌<◌, ◌≤◌, ◌∷◌, length, map, set, reverse, slice_index, All, IfOk, OnOk, MatchOption, MatchBool, vec_len};
ghost use Rattle.tm_circuit.specs.Plain.{drive_of, pins_of, greatest, gate_count};
ghost use Rattle.tm_circuit.specs.Chain.{HasCircle};
ghost use Rattle.tm_circuit.specs.Sound.{ReadsBelow};
ghost use Rattle.tm_circuit.specs.Descent.{first_mark_of, AreDone, IsFirstWaiting, Descends, IsAtRest, Opens, Finishes, Turns, Visits, IsRanking};

use crate::parts::{Driver, Signal};
use std::alloc::Global;
use tm_bits::NoMemory;

/// How far a descent has come with a signal.
#[derive(Clone, Copy, Debug, PartialEq, Eq)]
pub enum Mark {
    /// Not met yet.
    Fresh,
    /// On the trail.
    Open,
    /// Ranked.
    Done,
}

/// A gate on the trail, with the place of the pin that is looked at next.
#[derive(Clone, Copy, Debug)]
pub struct Frame {
    pub gate: Signal,
    pub pin: usize,
}

/// A descent from gates to their pins.
#[derive(Drop)]
pub struct Descent {
    marks: Vec<Mark>,
    ranks: Vec<u32>,
    order: Vec<Signal>,
    trail: Vec<Frame>,
}

/// The ranks of all signals, and the gates in an order in which each stands after the gates among its pins.
#[derive(Drop)]
pub struct Ranking {
    pub order: Vec<Signal>,
    pub ranks: Vec<u32>,
}

/// The ranks and an order, or `None` exactly where gates read one another in a circle.
pub fn rank_all(alloc: Global, drivers: &[Driver]) -> Result<Option<Ranking>, NoMemory>
    requires few { length drivers.now ≤ 900000 }
    requires reads { All (λ d. ReadsBelow (length drivers.now) (drive_of d)) drivers.now }
    ensures { IfOk result (λ found. MatchOption found (HasCircle (map drive_of drivers.now)) (IsRanking (map drive_of drivers.now))) }
{
    let mut descent = Descent::new(alloc, drivers)?;
    for s in 0..drivers.len() {
        if descent.visit(drivers, Signal(s as u32))? {
            return Ok(None);
        }
    }
    let Descent {
        marks: _,
        ranks,
        order,
        trail: _,
    } = descent;
    Ok(Some(Ranking { order, ranks }))
}

impl Descent {
    /// A descent that has met nothing.
    fn new(alloc: Global, drivers: &[Driver]) -> Result<Descent, NoMemory>
        ensures { IfOk result (IsAtRest (map drive_of drivers.now)) }
    {
        let marks = drivers.iter().map(first_mark).collect(alloc)?;
        let ranks = vec![in alloc; 0; drivers.len()]?;
        Ok(Descent {
            marks,
            ranks,
            order: Vec::new(alloc),
            trail: Vec::new(alloc),
        })
    }

    /// Descends from a root, and tells whether a circle was met.
    fn visit(&mut self, drivers: &[Driver], root: Signal) -> Result<bool, NoMemory>
        requires few { length drivers.now ≤ 900000 }
        requires reads { All (λ d. ReadsBelow (length drivers.now) (drive_of d)) drivers.now }
        requires root { root < length drivers.now }
        requires rest { IsAtRest (map drive_of drivers.now) self.old }
        ensures { IfOk result (λ circle. MatchBool circle (HasCircle (map drive_of drivers.now))
            (Visits (map drive_of drivers.now) self.old self.new root)) }
    {
        if let Mark::Fresh = self.marks[root.0 as usize] {
            self.open(root)?;
        }
        while let Some(Frame { gate, pin }) = self.trail.pop() {
            if self.turn(drivers, gate, pin)? {
                return Ok(true);
            }
        }
        Ok(false)
    }

    /// One turn at the gate that was the newest of the trail, from one of its pins on: opens the next pin that is not done, or else
    /// finishes the gate. Tells whether that pin is open already, and so a circle was met.
    fn turn(&mut self, drivers: &[Driver], gate: Signal, from: usize) -> Result<bool, NoMemory>
        requires few { length drivers.now ≤ 900000 }
        requires reads { All (λ d. ReadsBelow (length drivers.now) (drive_of d)) drivers.now }
        requires descends { Descends (map drive_of drivers.now) self.old
            (record { gate = gate; pin = from } ∷ reverse self.old.trail.items) }
        ensures { IfOk result (λ circle. MatchBool circle (HasCircle (map drive_of drivers.now))
            (Turns (map drive_of drivers.now) self.old self.new)) }
    {
        let pins = pins(&drivers[gate.0 as usize]);
        match waiting_pin(pins, from, &self.marks) {
            None => {
                let below = deepest(pins, &self.ranks);
                self.finish(gate, below + 1)?;
                Ok(false)
            }
            Some(place) => {
                let pin = pins[place];
                if let Mark::Open = self.marks[pin.0 as usize] {
                    return Ok(true);
                }
                self.trail.push(Frame { gate, pin: place })?;
                self.open(pin)?;
                Ok(false)
            }
        }
    }

    /// Puts a gate on the trail.
    fn open(&mut self, gate: Signal) -> Result<(), NoMemory>
        requires { gate < vec_len self.old.marks }
        ensures { OnOk result (Opens self.old self.new gate) }
    {
        self.trail.push(Frame { gate, pin: 0 })?;
        self.marks[gate.0 as usize] = Mark::Open;
        Ok(())
    }

    /// Gives a gate its rank and its place in the order.
    fn finish(&mut self, gate: Signal, rank: u32) -> Result<(), NoMemory>
        requires marks { gate < vec_len self.old.marks }
        requires ranks { gate < vec_len self.old.ranks }
        ensures { OnOk result (Finishes self.old self.new gate rank) }
    {
        self.order.push(gate)?;
        self.marks[gate.0 as usize] = Mark::Done;
        self.ranks[gate.0 as usize] = rank;
        Ok(())
    }
}

/// The mark of a signal before the descent.
fn first_mark(driver: &Driver) -> Mark
    ensures { result ≡ first_mark_of (drive_of driver.now) }
{
    match driver {
        Driver::Gate { .. } => Mark::Fresh,
        Driver::Input | Driver::Latch { .. } => Mark::Done,
    }
}

/// The signals that a gate reads in the same step; an input and a latch read none.
pub fn pins(driver: &Driver) -> &[Signal]
    ensures { result.now ≡ pins_of (drive_of driver.now) }
{
    match driver {
        Driver::Gate { pins, .. } => pins.as_slice(),
        Driver::Input | Driver::Latch { .. } => &[],
    }
}

/// The place of the first pin from a place on that is not done.
fn waiting_pin(pins: &[Signal], from: usize, marks: &[Mark]) -> Option<usize>
    requires { All (λ p. p < length marks.now) pins.now }
    ensures { MatchOption result (AreDone marks.now pins.now from (length pins.now)) (IsFirstWaiting marks.now pins.now from) }
{
    for place in from..pins.len() {
        let pin = pins[place];
        if marks[pin.0 as usize] != Mark::Done {
            return Some(place);
        }
    }
    None
}

/// The greatest rank of the pins, 0 without pins.
fn deepest(pins: &[Signal], ranks: &[u32]) -> u32
    requires { All (λ p. p < length ranks.now) pins.now }
    ensures { result ≡ greatest (map (slice_index ranks.now) pins.now) }
{
    let mut deepest = 0;
    for pin in pins {
        deepest = deepest.max(ranks[pin.0 as usize]);
    }
    deepest
}
