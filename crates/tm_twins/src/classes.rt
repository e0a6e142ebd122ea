// Classes of equal latches, found outward from their sources: a class goes by the class of the nexts and the initial value.

ghost use Rattle.std.specs.Prelude.{◌≡◌, ◌↔◌, ℕ, ◌<◌, ◌⊎◌, [], ◌∷◌, length, Contains, IsTrue, unwrap_or, IfOk, OnOk};
ghost use Rattle.tm_circuit.specs.Plain.{drive_in};
ghost use Rattle.tm_circuit.specs.Source.{step_back};
ghost use Rattle.tm_twins.specs.Classes.{IsFed, first_of, with_first, Gathers, IsKnown, Leads, LeadsHome, Learns, AreHeads};

use std::alloc::Global;
use tm_bits::NoMemory;
use tm_circuit::{Circuit, Driver, Signal, Source};

/// The latches that were met first among those whose nexts are of one class: with the initial value 0, and with 1.
#[derive(Clone, Copy)]
struct Firsts {
    off: Option<Signal>,
    on: Option<Signal>,
}

impl Firsts {
    const NONE: Firsts = Firsts {
        off: None,
        on: None,
    };

    /// The first latch with an initial value, which becomes this one where there is none yet.
    fn first_or(&mut self, init: bool, latch: Signal) -> Signal
        ensures first { result ≡ unwrap_or (first_of self.old init) latch }
        ensures new { self.new ≡ with_first self.old init result }
    {
        if init {
            let first = self.on.unwrap_or(latch);
            self.on = Some(first);
            first
        } else {
            let first = self.off.unwrap_or(latch);
            self.off = Some(first);
            first
        }
    }
}

/// The classes as far as they are known: the head of each signal that is known, and the first latches for each head of nexts.
#[derive(Drop)]
struct Classes {
    known: Vec<bool>,
    heads: Vec<Signal>,
    firsts: Vec<Firsts>,
}

/// The head of each signal's class: two signals have the same head exactly where they are equal latches, or one.
pub fn heads_of(alloc: Global, circuit: &Circuit) -> Result<Vec<Signal>, NoMemory>
    ensures { IfOk result (λ heads. AreHeads circuit.now.drives heads.items) }
{
    let mut classes = Classes::new(alloc, circuit)?;
    for s in 0..circuit.signals() {
        classes.learn(alloc, circuit, Signal(s))?;
    }
    let Classes {
        known: _,
        heads,
        firsts: _,
    } = classes;
    Ok(heads)
}

impl Classes {
    /// All but the latches that lead to an input or a gate are known, each alone in its class.
    fn new(alloc: Global, circuit: &Circuit) -> Result<Classes, NoMemory>
        ensures { IfOk result (Gathers circuit.now.drives) }
    {
        let mut known = Vec::new(alloc);
        let mut heads = Vec::new(alloc);
        let mut firsts = Vec::new(alloc);
        for s in 0..circuit.signals() {
            known.push(!is_fed(circuit, Signal(s)))?;
            heads.push(Signal(s))?;
            firsts.push(Firsts::NONE)?;
        }
        Ok(Classes {
            known,
            heads,
            firsts,
        })
    }

    /// Makes a signal known, with all that it leads to.
    fn learn(&mut self, alloc: Global, circuit: &Circuit, from: Signal) -> Result<(), NoMemory>
        requires gathers { Gathers circuit.now.drives self.old }
        requires from { from < length circuit.now.drives }
        ensures gathers { OnOk result (Gathers circuit.now.drives self.new) }
        ensures stay { OnOk result ((s : ℕ) → IsKnown self.old s → IsKnown self.new s) }
        ensures learned { OnOk result (IsKnown self.new from) }
    {
        let path = self.unknown_from(alloc, circuit, from)?;
        self.place_all(circuit, path);
        Ok(())
    }

    /// The latches that are met on the way from a signal to the first that is known.
    fn unknown_from(
        &self,
        alloc: Global,
        circuit: &Circuit,
        from: Signal,
    ) -> Result<Vec<Signal>, NoMemory>
        requires gathers { Gathers circuit.now.drives self.now }
        requires from { from < length circuit.now.drives }
        ensures home { IfOk result (λ path. LeadsHome circuit.now.drives self.now path.items) }
        ensures from { IfOk result (λ path. IsKnown self.now from ⊎ Contains path.items from) }
    {
        let mut path = Vec::new(alloc);
        let mut at = from;
        while !self.known[at.0 as usize] {
            path.push(at)?;
            at = one_step_back(circuit, at);
        }
        Ok(path)
    }

    /// Puts the latches of a path to what is known into their classes, the last first.
    fn place_all(&mut self, circuit: &Circuit, path: Vec<Signal>)
        requires gathers { Gathers circuit.now.drives self.old }
        requires home { LeadsHome circuit.now.drives self.old path.items }
        ensures gathers { Gathers circuit.now.drives self.new }
        ensures learns { Learns self.old self.new path.items }
    {
        let mut left = path;
        while let Some(latch) = left.pop() {
            self.place(circuit, latch);
        }
    }

    /// Puts a latch whose next is known into its class.
    fn place(&mut self, circuit: &Circuit, latch: Signal)
        requires gathers { Gathers circuit.now.drives self.old }
        requires leads { (to : ℕ) × IsKnown self.old to × Leads circuit.now.drives latch to }
        ensures gathers { Gathers circuit.now.drives self.new }
        ensures learns { Learns self.old self.new (latch ∷ []) }
    {
        match circuit.driver(latch) {
            Driver::Latch { next, init } => {
                let class = self.heads[next.0 as usize];
                let firsts = &mut self.firsts[class.0 as usize];
                self.heads[latch.0 as usize] = firsts.first_or(*init, latch);
                self.known[latch.0 as usize] = true;
            }
            Driver::Input | Driver::Gate { .. } => unreachable!(),
        }
    }
}

/// Whether a signal is a latch whose source is an input or a gate.
fn is_fed(circuit: &Circuit, s: Signal) -> bool
    requires { s < length circuit.now.drives }
    ensures { IsTrue result ↔ IsFed circuit.now.drives s }
{
    match circuit.driver(s) {
        Driver::Latch { .. } => match circuit.source(s) {
            Source::Input(_) | Source::Gate(_) => true,
            Source::Ring => false,
        },
        Driver::Input | Driver::Gate { .. } => false,
    }
}

/// The next of a latch; an input and a gate themselves.
fn one_step_back(circuit: &Circuit, s: Signal) -> Signal
    requires { s < length circuit.now.drives }
    ensures { result ≡ step_back s (drive_in circuit.now.drives s) }
{
    match circuit.driver(s) {
        Driver::Latch { next, .. } => *next,
        Driver::Input | Driver::Gate { .. } => s,
    }
}
