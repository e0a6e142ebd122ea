// Laws of mapped circuits, over all sound circuits. Each function does nothing, and its contract is the law.
//
// Most are said of covers by their values: the rule under which a table may have any cover that has the function's value on each
// row. A rule that asks for more is met by fewer covers: `single_rows_have_values` leads from the rule of single rows to this one.

ghost use Rattle.std.specs.Prelude.{◌≡◌, ◌↔◌, ℕ, ◌≤◌, Bool, List, length, Contains};
ghost use Rattle.tm_circuit.specs.Plain.{Plain, input_count, latch_count, gate_count, widest};
ghost use Rattle.tm_circuit.specs.Chain.{HasCircle, IsPeriod};
ghost use Rattle.tm_circuit.specs.Sound.{IsSound, IsDistinctlyNamed};
ghost use Rattle.tm_circuit.specs.Same.{IsSame};
ghost use Rattle.tm_circuit.specs.Trace.{ObeysAlways};
ghost use Rattle.tm_bits.specs.Limits.{most_inputs};
ghost use Rattle.tm_parts.specs.Fits.{FitsMapping};
ghost use Rattle.tm_parts.specs.Names.{HasNamesWithin};
ghost use Rattle.tm_parts.specs.Parts.{IsRefusedForMemory};
ghost use Rattle.tm_unroll.specs.declared.node.Node.{Node};
ghost use Rattle.tm_unroll.specs.Walks.{Covers};
ghost use Rattle.tm_unroll.specs.Mappings.{Table, IsLawful};
ghost use Rattle.tm_unroll.specs.Chains.{IsPeriodOf};
ghost use Rattle.tm_mapped.specs.Needed.{IsNeeded, AreRegisters, nodes_of};
ghost use Rattle.tm_mapped.specs.Mapped.{ByValues, IsMapped, IsMappedBy};
ghost use Rattle.tm_mapped.specs.Standing.{HasPlace, AreDistinct};
ghost use Rattle.tm_mapped.specs.Functions.{HasOneValue, HasOneFunction};
ghost use Rattle.tm_mapped.specs.Moved.{moved};

/// Each needed node of a lawful mapping has a place in the mapped circuit: it is an input at advance 0, a register, or the root
/// of a table. So it stands among the nodes of the mapped circuit.
pub fn needed_nodes_stand()
    ensures place { (c : Plain) (k d : ℕ) (tables : List Table) (x : Node) → IsSound c → IsLawful c k d tables
        → IsNeeded c tables x → HasPlace c tables x }
    ensures stand { (c : Plain) (k d : ℕ) (tables : List Table) (registers : List Node) (x : Node) → IsSound c
        → IsLawful c k d tables → AreRegisters c tables registers → IsNeeded c tables x
        → Contains (nodes_of c registers tables) x }
{}

/// No node stands twice among those of the mapped circuit.
pub fn nodes_are_distinct()
    ensures { (c : Plain) (k d : ℕ) (tables : List Table) (registers : List Node) → IsSound c → IsLawful c k d tables
        → AreRegisters c tables registers → AreDistinct (nodes_of c registers tables) }
{}

/// Gates of the mapped circuit do not read one another in a circle.
pub fn no_circle()
    ensures { (c : Plain) (k d : ℕ) (tables : List Table) (mapped : Plain) → IsSound c → IsLawful c k d tables
        → IsMappedBy ByValues c tables mapped → ¬ HasCircle mapped.drives }
{}

/// No two signals of the mapped circuit have the same name, and none has the clock's.
pub fn names_are_distinct()
    ensures { (c : Plain) (k d : ℕ) (tables : List Table) (mapped : Plain) → IsSound c → IsLawful c k d tables → d ≤ 8
        → IsMappedBy ByValues c tables mapped → IsDistinctlyNamed mapped }
{}

/// The bits of the leaves tell the bit of a node that they cover. A table of a lawful mapping has one function.
pub fn function_is_one()
    ensures value { (c : Plain) (leaves : List Node) (x : Node) → IsSound c → Covers c.drives leaves x
        → HasOneValue c.drives leaves x }
    ensures function { (c : Plain) (k d : ℕ) (tables : List Table) (t : Table) → IsSound c → IsLawful c k d tables
        → Contains tables t → HasOneFunction c.drives t }
{}

/// Covers with one row for each row of value 1 have the function's values.
pub fn single_rows_have_values()
    ensures { (c : Plain) (tables : List Table) (mapped : Plain) → IsMapped c tables mapped
        → IsMappedBy ByValues c tables mapped }
{}

/// Each table of bits that obeys the circuit for ever, read by the nodes for which the signals of the mapped circuit stand,
/// obeys the mapped circuit, with the same bits given for the inputs.
pub fn moved_runs_obey()
    ensures { (c : Plain) (k d : ℕ) (tables : List Table) (mapped : Plain) (given t : ℕ → ℕ → Bool) → IsSound c
        → IsLawful c k d tables → (by : IsMappedBy ByValues c tables mapped) → ObeysAlways c given t
        → ObeysAlways mapped given (moved (nodes_of c by.registers tables) t) }
{}

/// The mapped circuit behaves like the circuit from its initial state on.
pub fn mapped_is_same()
    ensures { (c : Plain) (k d : ℕ) (tables : List Table) (mapped : Plain) → IsSound c → IsSound mapped → IsLawful c k d tables
        → IsMappedBy ByValues c tables mapped → IsSame c mapped }
{}

/// The period of the mapped circuit is that of the mapping.
pub fn mapped_has_period()
    ensures { (c : Plain) (tables : List Table) (mapped : Plain) (p : ℕ) → IsMappedBy ByValues c tables mapped
        → IsPeriodOf tables p ↔ IsPeriod mapped p }
{}

/// No gate of the mapped circuit has more pins than a table may have leaves.
pub fn mapped_is_narrow()
    ensures { (c : Plain) (k d : ℕ) (tables : List Table) (mapped : Plain) → IsLawful c k d tables
        → IsMappedBy ByValues c tables mapped → widest mapped.drives ≤ k }
{}

/// The mapped circuit has the inputs of the circuit, a latch for each register, and a gate for each table.
pub fn mapped_counts()
    ensures inputs { (c : Plain) (tables : List Table) (mapped : Plain) → IsMappedBy ByValues c tables mapped
        → input_count mapped.drives ≡ input_count c.drives }
    ensures latches { (c : Plain) (tables : List Table) (mapped : Plain) → (by : IsMappedBy ByValues c tables mapped)
        → latch_count mapped.drives ≡ length by.registers }
    ensures gates { (c : Plain) (tables : List Table) (mapped : Plain) → IsMappedBy ByValues c tables mapped
        → gate_count mapped.drives ≡ length tables }
{}

/// The mapping can be told from the mapped circuit: its names give gates and lags, and its pins give leaves.
pub fn one_mapping()
    ensures { (c : Plain) (k k' d d' : ℕ) (tables others : List Table) (mapped : Plain) → IsSound c → d ≤ 8 → d' ≤ 8
        → IsLawful c k d tables → IsLawful c k' d' others → IsMappedBy ByValues c tables mapped
        → IsMappedBy ByValues c others mapped → tables ≡ others }
{}

/// A mapping has at most one mapped circuit: nothing of it is left open.
pub fn one_mapped_circuit()
    ensures { (c : Plain) (k d : ℕ) (tables : List Table) (one other : Plain) → IsSound c → IsLawful c k d tables
        → IsMapped c tables one → IsMapped c tables other → one ≡ other }
{}

/// The mapped circuit of a circuit that fits to be mapped is refused for no reason but want of memory, and its names are short.
pub fn refused_for_memory_alone()
    ensures build { (c : Plain) (k d : ℕ) (tables : List Table) (mapped : Plain) → IsSound c → FitsMapping c → k ≤ most_inputs
        → d ≤ 8 → IsLawful c k d tables → IsMapped c tables mapped → IsRefusedForMemory mapped }
    ensures names { (c : Plain) (k d : ℕ) (tables : List Table) (mapped : Plain) → IsSound c → FitsMapping c → k ≤ most_inputs
        → d ≤ 8 → IsLawful c k d tables → IsMapped c tables mapped → HasNamesWithin 774 mapped }
{}
