// Laws of labels and replays, over all sound circuits, as every built circuit is: each function does nothing, and its
// contract is the law.

ghost use Rattle.std.specs.Prelude.{◌≡◌, ℕ, ◌+◌, ◌*◌, ◌<◌, ◌≤◌, List, [], ◌++◌, length, Contains, All};
ghost use Rattle.tm_circuit.specs.Plain.{Plain, gate_count, widest};
ghost use Rattle.tm_circuit.specs.Sound.{IsSound};
ghost use Rattle.tm_circuit.specs.Source.{IsSource};
ghost use Rattle.tm_unroll.specs.Mappings.{Table, IsLawfulFrom};
ghost use Rattle.tm_unroll.specs.Chains.{HasChainsWithin, IsPeriodOf};
ghost use Rattle.tm_replay.specs.declared.label.Label.{Label as LabelValue};
ghost use Rattle.tm_replay.specs.Labels.{IsLabelFor, IsNextBelow, next_below, first_labels};
ghost use Rattle.tm_replay.specs.Served.{source_of};
ghost use Rattle.tm_replay.specs.Replays.{Drop as PlainDrop, Replays, labels_after, RefutesFrom, AreNoBetter};
ghost use Rattle.tm_replay.specs.Bounds.{HasDigitWalks};
ghost use Rattle.tm_replay.specs.Faults.{HasOneFault};

/// The source that as many steps back as there are signals lead to is the source of the signal.
pub fn sources_are_found()
    ensures { (c : Plain) (s : ℕ) → IsSound c → IsSource c.drives s (source_of c.drives s) }
{}

/// The label next below one for a target is worse, and no label for the target stands between the two.
pub fn next_is_below()
    ensures { (d target : ℕ) (x : LabelValue) → IsLabelFor d target x → IsNextBelow d target x (next_below target x) }
{}

/// At each moment of a replay for a target, every lawful mapping of period at most the target has each of its tables no
/// better than the label of its gate.
pub fn labels_bound_tables()
    ensures { (base : ℕ) (need : ℕ → ℕ) (c : Plain) (k d target : ℕ) (earlier later : List PlainDrop) (tables : List Table)
        → IsSound c → Replays base c k target (first_labels c.drives d target) (earlier ++ later)
        → IsLawfulFrom base need c k d tables → HasChainsWithin tables target
        → AreNoBetter tables (labels_after target (first_labels c.drives d target) earlier) }
{}

/// A refuted target is below the period of every lawful mapping.
pub fn refuted_is_below()
    ensures { (base : ℕ) (need : ℕ → ℕ) (c : Plain) (k d target : ℕ) (drops : List PlainDrop) (tables : List Table) (p : ℕ)
        → IsSound c → RefutesFrom base need c k d target drops → IsLawfulFrom base need c k d tables
        → IsPeriodOf tables p → target < p }
{}

/// A replay for a target has at most as many drops as there are gates, times the lags, times the target; so none for the
/// target 0.
pub fn replays_are_short()
    ensures bound { (base : ℕ) (c : Plain) (k d target : ℕ) (drops : List PlainDrop)
        → Replays base c k target (first_labels c.drives d target) drops
        → length drops ≤ gate_count c.drives * ((d + 1) * target) }
    ensures none { (base : ℕ) (c : Plain) (k d : ℕ) (drops : List PlainDrop) → Replays base c k 0 (first_labels c.drives d 0) drops
        → drops ≡ [] }
{}

/// Where no gate has more than `k` pins, each drop of a replay has a walk, no walk is empty, and each digit is below `k`.
pub fn walks_have_digits()
    ensures { (base : ℕ) (c : Plain) (k d target : ℕ) (drops : List PlainDrop) → IsSound c → widest c.drives ≤ k → 1 ≤ k
        → Replays base c k target (first_labels c.drives d target) drops
        → (drop : PlainDrop) → Contains drops drop → HasDigitWalks k drop }
{}

/// A list of drops has at most one first fault, and none where it replays.
pub fn one_fault()
    ensures { (base : ℕ) (c : Plain) (k d target : ℕ) (drops : List PlainDrop) → 1 ≤ k → HasOneFault base c k d target drops }
{}
