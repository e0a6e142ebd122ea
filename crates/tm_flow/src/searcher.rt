// The memory of searches, kept from one root to the next.

ghost use Rattle.std.specs.Prelude.{◌≡◌, ◌≤◌, false, IfOk};
ghost use Rattle.tm_flow.specs.Founds.{IsAnswer};
ghost use Rattle.tm_flow.specs.Lists.{Each, lists_in};
ghost use Rattle.tm_flow.specs.Nets.{IsIndexWalk};

use crate::cut::answer;
use crate::net::{Found, LazyNet};
use crate::search::Memory;
use std::alloc::Global;
use std::hash::Hash;
use tm_bits::NoMemory;

/// Searches one root after another, of one net or of several, and keeps the memory that it works in:
/// a call empties it by the nodes that the last call met. What it answers depends on the call alone,
/// also after a call that wanted memory.
#[derive(Drop)]
pub struct Searcher<T: Eq + Hash> {
    memory: Memory<T>,
}

impl<T: Copy + Eq + Hash> Searcher<T> {
    /// A searcher that has no memory yet.
    pub fn new(alloc: Global) -> Self {
        Searcher {
            memory: Memory::new(alloc),
        }
    }

    /// `cut_or_walks` in the memory of the searcher.
    pub fn cut_or_walks<N: LazyNet<Node = T>>(
        &mut self,
        alloc: Global,
        net: &N,
        root: T,
        k: u32,
    ) -> Result<Found<T>, NoMemory>
        requires few { k ≤ 8 }
        requires no_end { (N.shape net.now).is_end root ≡ false }
        ensures { IfOk result (IsAnswer (N.shape net.now) root k) }
    {
        answer(alloc, net, &mut self.memory, root, k, &[])
    }

    /// `cut_or_walks_from` in the memory of the searcher.
    pub fn cut_or_walks_from<N: LazyNet<Node = T>>(
        &mut self,
        alloc: Global,
        net: &N,
        root: T,
        k: u32,
        known: &[Vec<u32>],
    ) -> Result<Found<T>, NoMemory>
        requires few { k ≤ 8 }
        requires no_end { (N.shape net.now).is_end root ≡ false }
        requires known { Each (IsIndexWalk (N.shape net.now) root) (lists_in known.now) }
        ensures { IfOk result (IsAnswer (N.shape net.now) root k) }
    {
        answer(alloc, net, &mut self.memory, root, k, known)
    }
}
