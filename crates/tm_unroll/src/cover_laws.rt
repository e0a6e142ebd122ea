// Laws of covers, over any drives. Each function does nothing, and its contract is the law.

ghost use Rattle.std.specs.Prelude.{◌≡◌, false, List, Contains};
ghost use Rattle.tm_circuit.specs.Plain.{Drive};
ghost use Rattle.tm_unroll.specs.declared.node.Node.{Node};
ghost use Rattle.tm_unroll.specs.Nodes.{reads, is_end};
ghost use Rattle.tm_unroll.specs.Walks.{Covers};
ghost use Rattle.tm_unroll.specs.Replaced.{HaveSameNodes, Replaces, ReplacesEach};

/// What a node reads covers it, where it is no end.
pub fn reads_cover()
    ensures { (drives : List Drive) (x : Node) → is_end drives x ≡ false → Covers drives (reads drives x) x }
{}

/// Whether leaves cover a node does not go by their order, nor by how often one stands among them.
pub fn covers_are_sets()
    ensures { (drives : List Drive) (leaves new : List Node) (x : Node) → HaveSameNodes leaves new
        → Covers drives leaves x → Covers drives new x }
{}

/// A cover with one leaf replaced by a cover of it is a cover.
pub fn leaf_replaced()
    ensures { (drives : List Drive) (leaves others new : List Node) (x y : Node) → Covers drives leaves x
        → Contains leaves y → Covers drives others y → Replaces leaves y others new → Covers drives new x }
{}

/// A cover with any of its leaves replaced by covers of them is a cover.
pub fn leaves_replaced()
    ensures { (drives : List Drive) (leaves new : List Node) (x : Node) → Covers drives leaves x
        → ReplacesEach drives leaves new → Covers drives new x }
{}
