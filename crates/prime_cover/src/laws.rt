// Laws of prime covers. Each function does nothing, and its contract is the law.

ghost use Rattle.std.specs.Prelude.{◌≡◌, ℕ, List};
ghost use Rattle.tm_bits.specs.Rows.{Rows, HasWidth, holds};
ghost use Rattle.tm_bits.specs.Tables.{AreValuesAt};
ghost use Rattle.prime_cover.specs.Primes.{ByPrimeRows};

/// A prime cover of the words of a table has the table's value at all bits, and a place for each input in each row.
pub fn prime_rows_have_values()
    ensures values { (inputs : ℕ) (words : List ℕ) (cover : Rows) → ByPrimeRows inputs words cover
        → AreValuesAt (holds cover) inputs words }
    ensures width { (inputs : ℕ) (words : List ℕ) (cover : Rows) → ByPrimeRows inputs words cover → HasWidth cover inputs }
{}
