// The net that a caller describes, and what a search of it answers.

ghost use Rattle.std.specs.Prelude.{◌≡◌, ℕ, ◌<◌, true};
ghost use Rattle.tm_flow.specs.Nets.{Shape};

use std::hash::Hash;

/// A net that is asked node by node and never built. Each answer is a function of the net and the node,
/// and no function takes memory. The rank falls along each read and stays below the bound, so that
/// every path ends. A value of `Node` that names no node of the net reads nothing, is no end, may not
/// be cut and has the rank 0.
pub trait LazyNet {
    /// A name of a node. Values that are equal by `==` are the same value.
    type Node: Copy + Eq + Hash;

    ghost shape: { Self → Shape Self.Node };

    /// How many nodes the node reads.
    fn reads(&self, node: Self::Node) -> u32
        ensures { result ≡ (shape self.now).reads node };

    /// The node that the node reads at the index.
    fn read(&self, node: Self::Node, index: u32) -> Self::Node
        requires { index < (shape self.now).reads node }
        ensures { result ≡ (shape self.now).read node index };

    /// Whether walks may stop at the node.
    fn is_end(&self, node: Self::Node) -> bool
        ensures { result ≡ (shape self.now).is_end node };

    /// Whether a cut may have the node.
    fn may_cut(&self, node: Self::Node) -> bool
        ensures { result ≡ (shape self.now).may_cut node };

    /// A number that is smaller for each node that the node reads.
    fn rank(&self, node: Self::Node) -> u64
        ensures { result ≡ (shape self.now).rank node };

    /// A number above every rank.
    fn bound(&self) -> u64
        ensures { result ≡ (shape self.now).bound };

    // The laws of a net, for every value of `Node`.
    ghost rank_falls: { (s : Self) (x : Self.Node) (i : ℕ) → i < (shape s).reads x
        → (shape s).rank ((shape s).read x i) < (shape s).rank x };

    ghost rank_below: { (s : Self) (x : Self.Node) → (shape s).rank x < (shape s).bound };

    ghost end_reads_nothing: { (s : Self) (x : Self.Node) → (shape s).is_end x ≡ true
        → (shape s).reads x ≡ 0 };

    ghost same_if_equal: { (x y : Self.Node) → Self.Node.eq x y ≡ true → x ≡ y };
}

/// A cut, or the walks that no cut of that size goes with. A walk from the root is a list of indices,
/// one for each node that it leaves; its nodes are those that it comes to.
#[derive(Debug, PartialEq, Eq, Drop)]
pub enum Found<N> {
    /// At most `k` different nodes, each reached from the root, which stand on every walk to an end.
    Cut(Vec<N>),
    /// One walk to an end with no node that may be cut, or `k + 1` that share no node that may be cut.
    Walks(Vec<Vec<u32>>),
}
