// The constant of the code is held to the number of the definitions.

ghost use Rattle.std.specs.Prelude.{◌≡◌};
ghost use Rattle.tm_bits.specs.declared.TheConstants.{MOST_K};
ghost use Rattle.tm_bits.specs.Limits.{most_inputs};

/// `MOST_K` is the limit that the definitions name.
pub fn most_inputs_hold()
    ensures { MOST_K ≡ most_inputs }
{}
