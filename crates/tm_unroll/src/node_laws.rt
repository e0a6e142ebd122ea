// Laws of nodes, leaves and tables that other proofs rest on. Each function does nothing, and its contract is the law.

ghost use Rattle.std.specs.Prelude.{◌≡◌, ℕ, ◌<◌, ◌≤◌, List, length, Contains};
ghost use Rattle.tm_circuit.specs.Plain.{Plain, Drive, drive_in};
ghost use Rattle.tm_circuit.specs.Chain.{IsGate};
ghost use Rattle.tm_circuit.specs.Sound.{IsSound};
ghost use Rattle.tm_unroll.specs.declared.node.Node.{Node};
ghost use Rattle.tm_unroll.specs.Nodes.{reads};
ghost use Rattle.tm_unroll.specs.Walks.{IsReached};
ghost use Rattle.tm_unroll.specs.Falls.{height};
ghost use Rattle.tm_unroll.specs.Mappings.{Table, IsLeaf, IsLawfulFrom};
ghost use Rattle.tm_unroll.specs.Leaves.{MayBeLeafOf, IsWithin};

/// A node that is read, or reached in any number of steps, is lower than the node from which it is.
pub fn heights_fall()
    ensures read { (c : Plain) (x y : Node) → IsSound c → Contains (reads c.drives x) y → height c y < height c x }
    ensures reached { (c : Plain) (x y : Node) → IsSound c → IsReached c.drives x y → height c y < height c x }
{}

/// Reached nodes are passed on: what is reached from a reached node is reached.
pub fn reached_through()
    ensures { (drives : List Drive) (x y z : Node) → IsReached drives x y → IsReached drives y z → IsReached drives x z }
{}

/// What is reached from a node of the circuit has a signal of the circuit, and is no further ahead.
pub fn reached_is_within()
    ensures { (c : Plain) (x y : Node) → IsSound c → x.signal < length c.drives → IsReached c.drives x y
        → IsWithin (length c.drives) x y }
{}

/// A gate is a signal.
pub fn gate_is_signal()
    ensures { (drives : List Drive) (g : ℕ) → IsGate drives g → g < length drives }
{}

/// What is reached from a node and may be a leaf is a leaf of a table that has the node as its root, and a leaf of a table is
/// one of each table with more lag.
pub fn reached_leaf()
    ensures reached { (base : ℕ) (c : Plain) (x y : Node) → IsSound c → x.signal < length c.drives → IsReached c.drives x y
        → MayBeLeafOf base (drive_in c.drives y.signal) y.advance → IsLeaf base c.drives x.advance y }
    ensures more_lag { (base : ℕ) (drives : List Drive) (lag more : ℕ) (y : Node) → IsLeaf base drives lag y → lag ≤ more
        → IsLeaf base drives more y }
{}

/// A lawful mapping has at most one table for each gate.
pub fn one_table()
    ensures { (base : ℕ) (need : ℕ → ℕ) (c : Plain) (k d : ℕ) (tables : List Table) (t u : Table)
        → IsLawfulFrom base need c k d tables → Contains tables t → Contains tables u → t.gate ≡ u.gate → t ≡ u }
{}
