// Laws of the unrolled net, over all sound circuits: what tm_flow says of a net by indices, said of nodes and covers. Each
// function does nothing, and its contract is the law.

ghost use Rattle.std.specs.Prelude.{◌↔◌, ℕ, Bool, List};
ghost use Rattle.tm_circuit.specs.Plain.{Plain};
ghost use Rattle.tm_circuit.specs.Sound.{IsSound};
ghost use Rattle.tm_flow.specs.Cuts.{IsCut, IsBarrier};
ghost use Rattle.tm_unroll.specs.declared.node.Node.{Node};
ghost use Rattle.tm_unroll.specs.Unrolled.{unrolled};
ghost use Rattle.tm_unroll.specs.NetCuts.{KeepsNetLaws, IsNode, HasWalksOf, IsCoverBy, HasNoCoverBy};

/// The unrolled net keeps the laws of a net that is asked node by node.
pub fn net_is_lawful()
    ensures { (most : ℕ) (c : Plain) (may_cut : Node → Bool) → IsSound c → KeepsNetLaws (unrolled most c may_cut) }
{}

/// From a node of the unrolled net the index walks are the walks of nodes.
pub fn index_walks_are_walks()
    ensures { (most : ℕ) (c : Plain) (may_cut : Node → Bool) (x : Node) → IsSound c → IsNode most c x
        → HasWalksOf (unrolled most c may_cut) c.drives x }
{}

/// The cuts of a node of the unrolled net are its covers by at most `k` different nodes that may be cut.
pub fn cuts_are_covers()
    ensures { (most : ℕ) (c : Plain) (may_cut : Node → Bool) (x : Node) (k : ℕ) (nodes : List Node) → IsSound c
        → IsNode most c x → IsCut (unrolled most c may_cut) x k nodes ↔ IsCoverBy most c may_cut x k nodes }
{}

/// A barrier of a node of the unrolled net leaves no cover of it by at most `k` leaves that may be cut.
pub fn barriers_exclude_covers()
    ensures { (most : ℕ) (c : Plain) (may_cut : Node → Bool) (x : Node) (k : ℕ) (walks : List (List ℕ)) → IsSound c
        → IsNode most c x → IsBarrier (unrolled most c may_cut) x k walks → HasNoCoverBy c may_cut x k }
{}
