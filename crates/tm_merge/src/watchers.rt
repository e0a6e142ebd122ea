// For each gate the cuts that have it as a leaf.

use std::alloc::Global;
use tm_bits::NoMemory;
use tm_circuit::Signal;

/// No link.
const NONE: u32 = u32::MAX;

/// Links of leaves by their gates: each leaf of a cut has a number of its own, and the leaves at one gate are linked both ways. What
/// is no link of the lists is read as none, and not written.
#[derive(Drop)]
pub struct Watchers {
    /// The first leaf at each gate.
    firsts: Vec<u32>,
    nexts: Vec<u32>,
    previous: Vec<u32>,
}

impl Watchers {
    /// Lists without leaves, for so many signals and leaves.
    pub fn new(alloc: Global, signals: usize, leaves: usize) -> Result<Watchers, NoMemory> {
        Ok(Watchers {
            firsts: vec![in alloc; NONE; signals]?,
            nexts: vec![in alloc; NONE; leaves]?,
            previous: vec![in alloc; NONE; leaves]?,
        })
    }

    /// Links a leaf at a gate.
    pub fn add(&mut self, gate: Signal, leaf: u32) {
        let first = link(&self.firsts, gate.0);
        set_link(&mut self.nexts, leaf, first);
        set_link(&mut self.previous, leaf, NONE);
        set_link(&mut self.previous, first, leaf);
        set_link(&mut self.firsts, gate.0, leaf);
    }

    /// Takes a leaf out of the list of its gate.
    pub fn remove(&mut self, gate: Signal, leaf: u32) {
        let next = link(&self.nexts, leaf);
        let previous = link(&self.previous, leaf);
        if previous == NONE {
            set_link(&mut self.firsts, gate.0, next);
        } else {
            set_link(&mut self.nexts, previous, next);
        }
        set_link(&mut self.previous, next, previous);
    }

    /// The first leaf at a gate.
    pub fn first(&self, gate: Signal) -> Option<u32> {
        some_link(link(&self.firsts, gate.0))
    }

    /// The leaf after one at the same gate.
    pub fn next(&self, leaf: u32) -> Option<u32> {
        some_link(link(&self.nexts, leaf))
    }

    /// The most leaves that a list can have.
    pub fn most(&self) -> usize {
        self.nexts.len()
    }
}

fn link(links: &[u32], at: u32) -> u32 {
    links.get(at as usize).copied().unwrap_or(NONE)
}

fn set_link(links: &mut [u32], at: u32, to: u32) {
    if let Some(link) = links.get_mut(at as usize) {
        *link = to;
    }
}

fn some_link(link: u32) -> Option<u32> {
    if link == NONE { None } else { Some(link) }
}
