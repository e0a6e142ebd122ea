// The limits of the commands, held to the numbers of the definitions.

ghost use Rattle.std.specs.Prelude.{◌≡◌};
ghost use Rattle.blif_read.specs.declared.TheConstants.{SOURCE, MAPPED};
ghost use Rattle.tm_texts.specs.declared.limits.TheConstants.{MOST_D, MOST_B, LEAST_SAMPLE, MOST_SAMPLE, SOURCE_BYTES, MAPPED_BYTES, VECTOR_BYTES, OUTPUT_BYTES};
ghost use Rattle.tm_texts.specs.Limits.{most_lag, most_back, least_sample, most_sample, source_bytes, mapped_bytes, vector_bytes, output_bytes};
ghost use Rattle.tm_texts.specs.Limits.{source_limits, mapped_limits};

/// The greatest D: so many registers at most are moved over a gate.
pub const MOST_D: u8 = 8;

/// The greatest B: so many registers at most are moved backward over a gate, where a bound lets them.
pub const MOST_B: u8 = 8;

/// The least number of a sample.
pub const LEAST_SAMPLE: u32 = 8;

/// The greatest number of a sample.
pub const MOST_SAMPLE: u32 = 20_000;

/// The most bytes of a text that is to be mapped.
pub const SOURCE_BYTES: u64 = 16_777_216;

/// The most bytes of a text that is taken for a mapped one.
pub const MAPPED_BYTES: u64 = 268_435_456;

/// The most bytes of a text of vectors.
pub const VECTOR_BYTES: u64 = 16_777_216;

/// The most bytes of the output rows of a simulation.
pub const OUTPUT_BYTES: u64 = 268_435_456;

/// The constants are the limits that the definitions name.
pub fn limits_hold()
    ensures most_lag { MOST_D ≡ most_lag }
    ensures most_back { MOST_B ≡ most_back }
    ensures least_sample { LEAST_SAMPLE ≡ least_sample }
    ensures most_sample { MOST_SAMPLE ≡ most_sample }
    ensures source_bytes { SOURCE_BYTES ≡ source_bytes }
    ensures mapped_bytes { MAPPED_BYTES ≡ mapped_bytes }
    ensures vector_bytes { VECTOR_BYTES ≡ vector_bytes }
    ensures output_bytes { OUTPUT_BYTES ≡ output_bytes }
    ensures source_limits { SOURCE ≡ source_limits }
    ensures mapped_limits { MAPPED ≡ mapped_limits }
{}
