// Laws of nodes and mappings, over all sound circuits, as every built circuit is: each function does nothing, and its
// contract is the law.

ghost use Rattle.std.specs.Prelude.{◌≡◌, ℕ, ◌-◌, ◌≤◌, List};
ghost use Rattle.tm_circuit.specs.Plain.{Plain, widest};
ghost use Rattle.tm_circuit.specs.Sound.{IsSound};
ghost use Rattle.tm_unroll.specs.Mappings.{Table, IsLawful, IsLawfulFrom};
ghost use Rattle.tm_unroll.specs.Faults.{HasOneFault};
ghost use Rattle.tm_unroll.specs.Chains.{IsPeriodOf};
ghost use Rattle.tm_unroll.specs.Falls.{WalksFall, HasNoRepeats};
ghost use Rattle.tm_unroll.specs.Lags.{LagsArePaid};
ghost use Rattle.tm_unroll.specs.Latches.{need_of, LeadsToGate, NeedAtMost};
ghost use Rattle.tm_unroll.specs.Own.{OwnTablesServe, OwnTablesServeFrom};

/// Along reads the advance never rises, and where it stays the rank falls, so that every walk ends.
pub fn walks_end()
    ensures { (c : Plain) → IsSound c → WalksFall c }
{}

/// No chain of a lawful mapping meets a table twice.
pub fn chains_end()
    ensures { (base : ℕ) (need : ℕ → ℕ) (c : Plain) (k d : ℕ) (tables : List Table) → IsSound c
        → IsLawfulFrom base need c k d tables → HasNoRepeats tables }
{}

/// Every lawful mapping has a period, and no tables have two.
pub fn one_period()
    ensures some { (base : ℕ) (need : ℕ → ℕ) (c : Plain) (k d : ℕ) (tables : List Table) → IsSound c
        → IsLawfulFrom base need c k d tables → (p : ℕ) × IsPeriodOf tables p }
    ensures one { (tables : List Table) (p q : ℕ) → IsPeriodOf tables p → IsPeriodOf tables q → p ≡ q }
{}

/// In a lawful mapping a lag is at most the number of latches on each path back from its gate to an input.
pub fn lags_are_paid()
    ensures { (c : Plain) (k d : ℕ) (tables : List Table) → IsLawful c k d tables
        → LagsArePaid c.drives tables }
{}

/// Each gate as its own table at lag 0 makes a lawful mapping, whose period is at most the circuit's.
pub fn own_tables_serve()
    ensures { (c : Plain) (k d : ℕ) → IsSound c → widest c.drives ≤ k → OwnTablesServe c k d }
{}

/// With a base, each gate as its own table at the lag of the base, whose leaves are the nodes behind the latches at its pins,
/// makes a lawful mapping where no output needs a larger lag. Its period is at most the circuit's.
pub fn own_tables_serve_from()
    ensures { (base : ℕ) (need : ℕ → ℕ) (c : Plain) (k d : ℕ) → IsSound c → base ≤ d → NeedAtMost base need c
        → widest c.drives ≤ k → OwnTablesServeFrom base need c k d }
{}

/// What an output needs is the base less the latches from it down to its source gate. It is at most the base, and nothing
/// where the base is 0.
pub fn needs_count_latches()
    ensures counts { (base : ℕ) (c : Plain) (s latches : ℕ) → LeadsToGate c.drives s latches → need_of base c s ≡ base - latches }
    ensures low { (base : ℕ) (c : Plain) (s : ℕ) → need_of base c s ≤ base }
    ensures none { (c : Plain) (s : ℕ) → need_of 0 c s ≡ 0 }
{}

/// A mapping has at most one first fault, and none where it is lawful.
pub fn one_fault()
    ensures { (base : ℕ) (need : ℕ → ℕ) (c : Plain) (k d : ℕ) (tables : List Table)
        → HasOneFault base need c k d tables }
{}
