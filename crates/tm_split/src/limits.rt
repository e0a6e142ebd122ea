// The constant of the code is held to the number of the definitions.

ghost use Rattle.std.specs.Prelude.{◌≡◌};
ghost use Rattle.tm_split.specs.declared.count.TheConstants.{MOST_SUBJECT_SIGNALS};
ghost use Rattle.tm_split.specs.Limits.{most_subject_signals};

/// `MOST_SUBJECT_SIGNALS` is the limit that the definitions name.
pub fn most_subject_signals_hold()
    ensures { MOST_SUBJECT_SIGNALS ≡ most_subject_signals }
{}
