// A law of all sound circuits, as every built circuit is: the function does nothing, and its contract is the law.

ghost use Rattle.std.specs.Prelude.{ℕ};
ghost use Rattle.tm_circuit.specs.Plain.{Plain};
ghost use Rattle.tm_circuit.specs.Sound.{IsSound};
ghost use Rattle.tm_init.specs.Paths.{IsFreeOfInputs, HasOneBit};

/// Where every path back from a signal to an input has more latches than a step, the signal has the same bit at that step
/// whatever the inputs are.
pub fn free_of_inputs()
    ensures { (c : Plain) (s step : ℕ) → IsSound c → IsFreeOfInputs c.drives s step → HasOneBit c s step }
{}
