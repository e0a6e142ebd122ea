// Laws of two-way mappings: each function does nothing, and its contract is the law.

ghost use Rattle.std.specs.Prelude.{◌≡◌, ◌↔◌, ℕ, ◌+◌, List, map};
ghost use Rattle.tm_circuit.specs.Plain.{Plain};
ghost use Rattle.tm_unroll.specs.Latches.{need_of};
ghost use Rattle.tm_unroll.specs.Mappings.{Table, IsLawfulFrom};
ghost use Rattle.tm_replay.specs.Replays.{Drop as PlainDrop, RefutesFrom};
ghost use Rattle.tm_search.specs.Optimal.{IsLeastPeriodOf, IsLeastPeriodFrom};
ghost use Rattle.two_way.specs.Mappings.{TwoTable, IsTwoWay};
ghost use Rattle.two_way.specs.Replays.{Refutes};
ghost use Rattle.two_way.specs.Amounts.{two_table, two_drop};
ghost use Rattle.two_way.specs.Least.{IsTwoWayLeast};

/// Two-way mappings are just the lawful mappings over a base of as many steps as registers move backward, with the amounts for which
/// their numbers stand; they have the same least period, and what refutes a target over the base refutes it two-way.
pub fn two_ways_stand_on_a_base()
    ensures mappings { (c : Plain) (k d back : ℕ) (tables : List Table) → IsTwoWay c k d back (map (two_table back) tables)
        ↔ IsLawfulFrom back (need_of back c) c k (d + back) tables }
    ensures all { (c : Plain) (k d back : ℕ) (tables : List TwoTable) → IsTwoWay c k d back tables
        → (raised : List Table) × (tables ≡ map (two_table back) raised) }
    ensures least { (c : Plain) (k d back period : ℕ) → IsTwoWayLeast c k d back period
        ↔ IsLeastPeriodFrom back (need_of back c) c k (d + back) period }
    ensures refuted { (c : Plain) (k d back target : ℕ) (drops : List PlainDrop)
        → RefutesFrom back (need_of back c) c k (d + back) target drops
        → Refutes c k d back target (map (two_drop back) drops) }
{}

/// Where registers do not move backward, the least period of two-way mappings is that of the mappings that move them forward alone.
pub fn forward_alone()
    ensures { (c : Plain) (k d period : ℕ) → IsTwoWayLeast c k d 0 period ↔ IsLeastPeriodOf c k d period }
{}
