// Laws of the least period, over all sound circuits, as every built circuit is: each function does nothing, and its contract is the
// law.

ghost use Rattle.std.specs.Prelude.{ℕ, List};
ghost use Rattle.tm_circuit.specs.Plain.{Plain};
ghost use Rattle.tm_circuit.specs.Sound.{IsSound};
ghost use Rattle.tm_unroll.specs.Latches.{need_of};
ghost use Rattle.tm_unroll.specs.Mappings.{Table};
ghost use Rattle.tm_unroll.specs.Chains.{IsPeriodOf};
ghost use Rattle.tm_cover.specs.Chosen.{AreChosen};
ghost use Rattle.tm_search.specs.declared.least.Least.{Least};
ghost use Rattle.tm_search.specs.Least.{IsLeast};
ghost use Rattle.tm_search.specs.Optimal.{IsLeastPeriodOf, IsLeastPeriodFrom};

/// The tables that are chosen at the least period have it as their period, and no lawful mapping has a smaller one.
pub fn least_is_period()
    ensures period { (c : Plain) (k d : ℕ) (least : Least) (tables : List Table) → IsSound c → IsLeast 0 c k d least
        → AreChosen c least.at tables → IsPeriodOf tables least.period }
    ensures least { (c : Plain) (k d : ℕ) (least : Least) → IsSound c → IsLeast 0 c k d least → IsLeastPeriodOf c k d least.period }
{}

/// The same with a base, the advance that stands for the present.
pub fn least_is_period_from()
    ensures period { (base : ℕ) (c : Plain) (k d : ℕ) (least : Least) (tables : List Table) → IsSound c → IsLeast base c k d least
        → AreChosen c least.at tables → IsPeriodOf tables least.period }
    ensures least { (base : ℕ) (c : Plain) (k d : ℕ) (least : Least) → IsSound c → IsLeast base c k d least
        → IsLeastPeriodFrom base (need_of base c) c k d least.period }
{}
