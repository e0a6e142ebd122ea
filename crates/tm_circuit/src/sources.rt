// The source of each signal, by following latches to their nexts, each latch once.

ghost use Rattle.std.specs.Prelude.{◌≡◌, ℕ, ◌<◌, ◌≤◌, length, map, All, IfOk, OnOk};
ghost use Rattle.tm_circuit.specs.Plain.{drive_of};
ghost use Rattle.tm_circuit.specs.Source.{step_back};
ghost use Rattle.tm_circuit.specs.Sound.{ReadsBelow};
ghost use Rattle.tm_circuit.specs.Follow.{first_met, first_source_of, IsSettled, Meets, SetsAll, AreSources};

use crate::parts::{Driver, Signal};
use std::alloc::Global;
use tm_bits::NoMemory;

/// Where following latches to their nexts leads.
#[derive(Clone, Copy, Debug, PartialEq, Eq)]
pub enum Source {
    Input(Signal),
    Gate(Signal),
    /// Only latches are ever met.
    Ring,
}

/// Which signals were met, and their sources; a latch that was not met has `Ring`.
#[derive(Drop)]
pub struct Followed {
    met: Vec<bool>,
    sources: Vec<Source>,
}

/// The source of each signal.
pub fn sources_of(alloc: Global, drivers: &[Driver]) -> Result<Vec<Source>, NoMemory>
    requires few { length drivers.now ≤ 900000 }
    requires reads { All (λ d. ReadsBelow (length drivers.now) (drive_of d)) drivers.now }
    ensures { IfOk result (λ sources. AreSources (map drive_of drivers.now) sources.items) }
{
    let mut followed = Followed::new(alloc, drivers)?;
    for s in 0..drivers.len() {
        followed.follow(alloc, drivers, Signal(s as u32))?;
    }
    let Followed { met: _, sources } = followed;
    Ok(sources)
}

impl Followed {
    /// Inputs and gates are met, each its own source.
    fn new(alloc: Global, drivers: &[Driver]) -> Result<Followed, NoMemory>
        requires few { length drivers.now ≤ 900000 }
        ensures { IfOk result (IsSettled (map drive_of drivers.now)) }
    {
        let met = first_marks(alloc, drivers)?;
        let mut sources = Vec::new(alloc);
        for (s, driver) in drivers.iter().enumerate() {
            sources.push(first_source(Signal(s as u32), driver))?;
        }
        Ok(Followed { met, sources })
    }

    /// Follows a signal until one that was met, and settles all on the way: where that one is on the way itself, they are a ring.
    fn follow(&mut self, alloc: Global, drivers: &[Driver], from: Signal) -> Result<(), NoMemory>
        requires reads { All (λ d. ReadsBelow (length drivers.now) (drive_of d)) drivers.now }
        requires from { from < length drivers.now }
        requires settled { IsSettled (map drive_of drivers.now) self.old }
        ensures settled { OnOk result (IsSettled (map drive_of drivers.now) self.new) }
        ensures meets { OnOk result (Meets self.old self.new from) }
    {
        let mut path = Vec::new(alloc);
        let mut at = from;
        while !self.met[at.0 as usize] {
            self.met[at.0 as usize] = true;
            path.push(at)?;
            at = one_step_back(at, &drivers[at.0 as usize]);
        }
        let source = self.sources[at.0 as usize];
        set_all(&mut self.sources, &path, &source);
        Ok(())
    }
}

/// Which signals count as met from the start.
fn first_marks(alloc: Global, drivers: &[Driver]) -> Result<Vec<bool>, NoMemory>
    ensures { IfOk result (λ met. met.items ≡ map (λ d. first_met (drive_of d)) drivers.now) }
{
    let met = drivers.iter().map(is_met_first).collect(alloc)?;
    Ok(met)
}

/// Whether a signal counts as met from the start.
fn is_met_first(driver: &Driver) -> bool
    ensures { result ≡ first_met (drive_of driver.now) }
{
    match driver {
        Driver::Latch { .. } => false,
        Driver::Input | Driver::Gate { .. } => true,
    }
}

/// The source of a signal before any latch was followed.
fn first_source(s: Signal, driver: &Driver) -> Source
    ensures { result ≡ first_source_of s (drive_of driver.now) }
{
    match driver {
        Driver::Input => Source::Input(s),
        Driver::Latch { .. } => Source::Ring,
        Driver::Gate { .. } => Source::Gate(s),
    }
}

/// The next of a latch; an input and a gate themselves.
fn one_step_back(s: Signal, driver: &Driver) -> Signal
    ensures { result ≡ step_back s (drive_of driver.now) }
{
    match driver {
        Driver::Latch { next, .. } => *next,
        Driver::Input | Driver::Gate { .. } => s,
    }
}

/// Gives some signals one source.
fn set_all(sources: &mut [Source], signals: &[Signal], source: &Source)
    requires { All (λ s. s < length sources.old) signals.now }
    ensures { SetsAll sources.old sources.new signals.now source.now }
{
    for signal in signals {
        sources[signal.0 as usize] = *source;
    }
}
