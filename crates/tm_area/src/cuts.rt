// Cuts of a node with what they cost, of which the few best are kept.

use std::alloc::Global;
use tm_bits::NoMemory;
use tm_unroll::Node;

/// What the leaves of a cut come to: the greatest arrival of a table at one of them, their area flow, and their number.
#[derive(Clone, Copy)]
pub(crate) struct Weight {
    pub arrival: u32,
    pub flow: u64,
    pub leaves: usize,
}

impl Weight {
    /// Whether a cut with this weight comes before one with another: by area flow and then arrival, or the other way round where early
    /// cuts are wanted, and then by number.
    pub fn is_before(self, other: Weight, early: bool) -> bool {
        if early && self.arrival != other.arrival {
            return self.arrival < other.arrival;
        }
        if self.flow != other.flow {
            return self.flow < other.flow;
        }
        self.is_nearer(other)
    }

    /// The least that two cuts can come to together, and exactly that where they have no leaf in common.
    pub fn at_best_with(self, other: Weight, are_apart: bool) -> Weight {
        let arrival = self.arrival.max(other.arrival);
        if are_apart {
            Weight {
                arrival,
                flow: self.flow.saturating_add(other.flow),
                leaves: self.leaves.saturating_add(other.leaves),
            }
        } else {
            Weight {
                arrival,
                flow: self.flow.max(other.flow),
                leaves: self.leaves.max(other.leaves),
            }
        }
    }

    /// Whether a cut with this weight comes before one with another by arrival, and then by number.
    pub fn is_nearer(self, other: Weight) -> bool {
        if self.arrival != other.arrival {
            return self.arrival < other.arrival;
        }
        self.leaves < other.leaves
    }
}

/// A cut of a node, whose leaves stand elsewhere: they ascend, and have a sign (`sign_of`) and a weight.
#[derive(Clone, Copy)]
pub(crate) struct Cut<'a> {
    pub leaves: &'a [Node],
    pub sign: u64,
    pub weight: Weight,
}

/// A stretch of a list.
#[derive(Clone, Copy)]
pub(crate) struct Span {
    pub from: usize,
    pub to: usize,
}

/// A cut in a list: where its leaves stand, their sign, and the weight that they had.
#[derive(Clone, Copy)]
pub(crate) struct Listed {
    leaves: Span,
    pub sign: u64,
    pub weight: Weight,
}

/// Cuts whose leaves stand behind one another, so that a cut costs no allocation of its own.
#[derive(Drop)]
pub(crate) struct Cuts {
    leaves: Vec<Node>,
    cuts: Vec<Listed>,
}

impl Cuts {
    /// No cuts.
    pub fn new(alloc: Global) -> Cuts {
        Cuts {
            leaves: Vec::new(alloc),
            cuts: Vec::new(alloc),
        }
    }

    /// Forgets all cuts, and keeps the memory.
    pub fn clear(&mut self) {
        self.leaves.clear();
        self.cuts.clear();
    }

    /// The number of cuts.
    pub fn len(&self) -> usize {
        self.cuts.len()
    }

    /// All cuts, in their order.
    pub fn all(&self) -> &[Listed] {
        self.cuts.as_slice()
    }

    /// The cuts in a stretch.
    pub fn some(&self, span: Span) -> &[Listed] {
        if span.from <= span.to && span.to <= self.cuts.len() {
            &self.cuts[span.from..span.to]
        } else {
            &[]
        }
    }

    /// A cut with its leaves.
    pub fn cut(&self, listed: &Listed) -> Cut<'_> {
        Cut {
            leaves: self.leaves_of(listed),
            sign: listed.sign,
            weight: listed.weight,
        }
    }

    /// The leaves of a cut.
    pub fn leaves_of(&self, listed: &Listed) -> &[Node] {
        let span = listed.leaves;
        if span.from <= span.to && span.to <= self.leaves.len() {
            &self.leaves[span.from..span.to]
        } else {
            &[]
        }
    }

    /// Adds a copy of a cut behind the others.
    pub fn push(&mut self, cut: Cut<'_>) -> Result<(), NoMemory> {
        let place = self.cuts.len();
        self.insert(place, cut)
    }

    /// Puts a copy of a cut at a place, or behind the others.
    fn insert(&mut self, place: usize, cut: Cut<'_>) -> Result<(), NoMemory> {
        let from = self.leaves.len();
        self.leaves.extend_from_slice(cut.leaves)?;
        let to = self.leaves.len();
        let listed = Listed {
            leaves: Span { from, to },
            sign: cut.sign,
            weight: cut.weight,
        };
        let place = place.min(self.cuts.len());
        self.cuts.insert(place, listed)?;
        Ok(())
    }

    /// Takes a copy of a cut among so many that are kept, which stand in order, unless a part of it is there or others are better;
    /// those of which it is a part go.
    pub fn offer(&mut self, cut: Cut<'_>, early: bool, most: usize) -> Result<(), NoMemory> {
        let Some(place) = self.place_for(cut, early, most) else {
            return Ok(());
        };
        self.remove_wider(cut, place);
        self.insert(place, cut)?;
        self.cuts.truncate(most);
        Ok(())
    }

    /// The place at which a cut belongs among so many that are kept. What is a part of it comes before it.
    fn place_for(&self, cut: Cut<'_>, early: bool, most: usize) -> Option<usize> {
        for (place, other) in self.cuts.iter().enumerate() {
            if cut.weight.is_before(other.weight, early) {
                return Some(place);
            }
            if other.may_be_within(cut.sign) && are_among(self.leaves_of(other), cut.leaves) {
                return None;
            }
        }
        if self.cuts.len() < most {
            Some(self.cuts.len())
        } else {
            None
        }
    }

    /// Removes the cuts from a place on of which a cut is a part.
    fn remove_wider(&mut self, cut: Cut<'_>, place: usize) {
        let mut place = place;
        for _ in place..self.cuts.len() {
            if place >= self.cuts.len() {
                return;
            }
            if self.is_wider(place, cut) {
                self.cuts.remove(place);
            } else {
                place += 1;
            }
        }
    }

    /// Whether all leaves of a cut are leaves of the one at a place, which is then of no use beside it.
    fn is_wider(&self, place: usize, cut: Cut<'_>) -> bool {
        match self.cuts.get(place) {
            Some(other) => {
                cut.sign & !other.sign == 0 && are_among(cut.leaves, self.leaves_of(other))
            }
            None => false,
        }
    }
}

impl Listed {
    /// Whether all leaves of this cut may be leaves of one with a sign.
    fn may_be_within(&self, sign: u64) -> bool {
        self.sign & !sign == 0
    }

    /// Whether this cut and one with a sign surely have more than `k` leaves together.
    pub fn is_too_large(&self, k: u8, sign: u64) -> bool {
        (self.sign | sign).count_ones() > u32::from(k)
    }
}

/// A sign of the signals of some leaves: a bit for the remainder of each.
pub(crate) fn sign_of(leaves: &[Node]) -> u64 {
    let mut sign = 0u64;
    for leaf in leaves {
        sign |= 1u64 << (leaf.signal.0 % 64);
    }
    sign
}

/// Whether some nodes are all among others.
fn are_among(nodes: &[Node], others: &[Node]) -> bool {
    for node in nodes {
        if !is_among(*node, others) {
            return false;
        }
    }
    true
}

/// Whether a node is one of some.
fn is_among(node: Node, others: &[Node]) -> bool {
    for other in others {
        if node == *other {
            return true;
        }
    }
    false
}

/// Puts the leaves of two cuts together, and tells whether they are at most `k`.
pub(crate) fn merge(
    nodes: &mut Vec<Node>,
    k: u8,
    left: &[Node],
    right: &[Node],
) -> Result<bool, NoMemory> {
    nodes.clear();
    let (mut i, mut j) = (0usize, 0usize);
    for _ in 0..=k {
        let (x, y) = (key_at(left, i), key_at(right, j));
        let taken = if x <= y { left.get(i) } else { right.get(j) };
        let Some(node) = taken else {
            return Ok(true);
        };
        nodes.push(*node)?;
        i = i.saturating_add(usize::from(x <= y));
        j = j.saturating_add(usize::from(y <= x));
    }
    Ok(false)
}

/// A number for the node at a place, in the order of nodes: greater than that of any where there is none.
fn key_at(nodes: &[Node], place: usize) -> u64 {
    match nodes.get(place) {
        Some(node) => u64::from(node.signal.0) << 8 | u64::from(node.advance),
        None => u64::MAX,
    }
}
