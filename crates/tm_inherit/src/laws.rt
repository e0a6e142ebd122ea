// Laws of the walks of drops, over all sound circuits: each function does nothing, and its contract is the law.

ghost use Rattle.std.specs.Prelude.{ℕ, List, Option, Contains};
ghost use Rattle.tm_circuit.specs.Plain.{Plain};
ghost use Rattle.tm_replay.specs.declared.label.Label.{Label as LabelValue};
ghost use Rattle.tm_replay.specs.Replays.{Drop as PlainDrop, Replays, labels_after};
ghost use Rattle.tm_inherit.specs.Refusals.{HasBarrier};

/// The walks of each drop of a replay are a barrier under the labels at its end, too: labels only fall, and so fewer nodes are
/// served.
pub fn drops_stand()
    ensures { (base : ℕ) (c : Plain) (k target : ℕ) (labels : List (Option LabelValue)) (drops : List PlainDrop) (drop : PlainDrop)
        → Replays base c k target labels drops → Contains drops drop → HasBarrier base c k (labels_after target labels drops) drop }
{}
