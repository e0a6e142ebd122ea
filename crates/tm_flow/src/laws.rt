// Laws of barriers over all nets, also those that no value describes: each function does nothing, and its contract is
// the law for nets whose nodes have the type `T`.

ghost use Rattle.tm_flow.specs.Nets.{Shape};
ghost use Rattle.tm_flow.specs.Cuts.{BarrierExcludesCovers};
ghost use Rattle.tm_flow.specs.Barriers.{CutsAtMost, KeepsBarriers, InheritsBarriers, UncutEndsBar};

/// A barrier leaves no cover by at most `k` nodes that may be cut, of any root and any `k`: each of `k + 1` walks that
/// share no such node would need a node of its own. This is half of Menger's theorem.
pub fn barrier_excludes_covers<T>()
    ensures { (n : Shape T) → BarrierExcludesCovers n }
{}

/// A barrier stays one where fewer nodes may be cut.
pub fn barriers_stay<T>()
    ensures { (n m : Shape T) → CutsAtMost n m → KeepsBarriers n m }
{}

/// A node that may not be cut hands its barriers on to its readers, and where it is an end, the step to it is one.
pub fn barriers_are_inherited<T>()
    ensures walks { (n : Shape T) → InheritsBarriers n }
    ensures ends { (n : Shape T) → UncutEndsBar n }
{}
