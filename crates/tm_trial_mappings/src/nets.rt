// Two nets: small ones given by their edges, and one that is too large to be listed.

ghost use Rattle.std.specs.Prelude.{◌≡◌, ℕ, ◌+◌, ◌-◌, ◌*◌, ◌^◌, ◌<◌, ◌≤◌, ◌&&◌, ◌==◌, min, nat_lt, nat_le, slice_index, slice_index_or, true, false, if◌then◌else◌};
ghost use Rattle.tm_trial_mappings.specs.TestNets.{small, tree, small_falls, small_below, small_ends, tree_falls, tree_below, tree_ends, same_number};

use tm_flow::LazyNet;

/// A net of the nodes 1 to `last`. The rank of a node is its number, and a node reads smaller ones.
#[derive(Clone, Copy)]
pub(crate) struct Small {
    last: u32,
    counts: [u32; 16],
    targets: [[u32; 3]; 16],
    ends: [bool; 16],
    cuts: [bool; 16],
}

impl Small {
    fn is_node(&self, node: u32) -> bool
        ensures { result ≡ (nat_le 1 node && nat_le node (min self.now.last 15)) }
    {
        1 <= node && node <= self.last.min(15)
    }
}

impl LazyNet for Small {
    type Node = u32;

    ghost shape = { λ s. small s.last s.counts s.targets s.ends s.cuts };

    ghost rank_falls = { λ s x i h. small_falls s.last s.counts s.targets s.ends s.cuts x i h };

    ghost rank_below = { λ s x. small_below s.last s.counts s.targets s.ends s.cuts x };

    ghost end_reads_nothing = { λ s x h. small_ends s.last s.counts s.targets s.ends s.cuts x h };

    ghost same_if_equal = { λ x y h. same_number x y h };

    fn reads(&self, node: u32) -> u32 {
        if self.is_node(node) {
            self.counts[node as usize].min(3)
        } else {
            0
        }
    }

    fn read(&self, node: u32, index: u32) -> u32 {
        self.targets[node as usize][index as usize].min(node - 1)
    }

    fn is_end(&self, node: u32) -> bool {
        self.is_node(node) && self.counts[node as usize] == 0 && self.ends[node as usize]
    }

    fn may_cut(&self, node: u32) -> bool {
        self.is_node(node) && self.cuts[node as usize]
    }

    fn rank(&self, node: u32) -> u64 {
        if self.is_node(node) {
            u64::from(node)
        } else {
            0
        }
    }

    fn bound(&self) -> u64 {
        u64::from(self.last) + 1
    }
}

/// The edges of a net, each from a reader to what it reads, its ends, and the nodes that may be cut. The numbers are 1 to 15.
pub(crate) struct Edges<'a> {
    pub(crate) edges: &'a [(usize, u32)],
    pub(crate) ends: &'a [usize],
    pub(crate) cuts: &'a [usize],
}

impl Edges<'_> {
    pub(crate) fn net(&self) -> Small {
        let mut net = Small {
            last: 15,
            counts: [0; 16],
            targets: [[0; 3]; 16],
            ends: [false; 16],
            cuts: [false; 16],
        };
        for (from, to) in self.edges {
            let count = net.counts[*from % 16].min(2);
            net.targets[*from % 16][count as usize] = *to;
            net.counts[*from % 16] = count + 1;
        }
        for end in self.ends {
            net.ends[*end % 16] = true;
        }
        for cut in self.cuts {
            net.cuts[*cut % 16] = true;
        }
        net
    }
}

/// The complete binary tree of 2^41 - 1 nodes, of which 2 and 3 may be cut.
#[derive(Clone, Copy)]
pub(crate) struct Tree;

impl LazyNet for Tree {
    type Node = u64;

    ghost shape = { λ s. tree };

    ghost rank_falls = { λ s x i h. tree_falls x i h };

    ghost rank_below = { λ s x. tree_below x };

    ghost end_reads_nothing = { λ s x h. tree_ends x h };

    ghost same_if_equal = { λ x y h. same_number x y h };

    fn reads(&self, node: u64) -> u32 {
        if 1 <= node && node < 1 << 40 { 2 } else { 0 }
    }

    fn read(&self, node: u64, index: u32) -> u64 {
        2 * node + u64::from(index)
    }

    fn is_end(&self, node: u64) -> bool {
        1 << 40 <= node && node < 1 << 41
    }

    fn may_cut(&self, node: u64) -> bool {
        2 <= node && node <= 3
    }

    fn rank(&self, node: u64) -> u64 {
        if 1 <= node && node < 1 << 41 {
            (1 << 41) - node
        } else {
            0
        }
    }

    fn bound(&self) -> u64 {
        1 << 41
    }
}
