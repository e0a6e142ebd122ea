// Laws of circuits with prime covers: each function does nothing, and its contract is the law.

ghost use Rattle.std.specs.Prelude.{◌≡◌, ℕ, ◌≤◌, List};
ghost use Rattle.tm_circuit.specs.Plain.{Plain};
ghost use Rattle.tm_circuit.specs.Sound.{IsSound};
ghost use Rattle.tm_unroll.specs.Mappings.{Table, IsLawful};
ghost use Rattle.tm_mapped.specs.Mapped.{ByValues, IsMappedBy};
ghost use Rattle.prime_cover.specs.Primes.{ByPrimeRows};
ghost use Rattle.cert_text.specs.Certificates.{Certificate};
ghost use Rattle.cert_check.specs.Accepted.{IsAccepted};
ghost use Rattle.tm_prime.specs.Covers.{HasPrimeCovers};

/// Where a circuit is the mapped circuit of a mapping, covers by their values, the same circuit with prime covers is its mapped
/// circuit by the rule of prime rows; and one by that rule is one by values.
pub fn primed_is_mapped()
    ensures rows { (c : Plain) (tables : List Table) (mapped primed : Plain) → IsMappedBy ByValues c tables mapped
        → HasPrimeCovers mapped primed → IsMappedBy ByPrimeRows c tables primed }
    ensures values { (c : Plain) (tables : List Table) (primed : Plain) → IsMappedBy ByPrimeRows c tables primed
        → IsMappedBy ByValues c tables primed }
{}

/// The mapped circuit of a lawful mapping by the rule of prime rows is, but for its covers, its mapped circuit: each of its covers is
/// a prime cover of the table of the cover there.
pub fn mapped_is_primed()
    ensures { (c : Plain) (k d : ℕ) (tables : List Table) (mapped primed : Plain) → IsSound c → IsLawful c k d tables
        → IsMappedBy ByValues c tables mapped → IsMappedBy ByPrimeRows c tables primed → HasPrimeCovers mapped primed }
{
    cert_check::laws::mapped_circuits_agree();
}

/// What is accepted with a mapped circuit is accepted with the same circuit with prime covers.
pub fn primed_is_accepted()
    ensures { (source mapped primed : Plain) (cert : Certificate) (k d : ℕ) → IsAccepted source mapped cert k d
        → HasPrimeCovers mapped primed → IsAccepted source primed cert k d }
{}

/// The mapping can be told from its mapped circuit by prime rows: names give gates and lags, and pins give leaves.
pub fn one_mapping()
    ensures { (c : Plain) (k k' d d' : ℕ) (tables others : List Table) (primed : Plain) → IsSound c → d ≤ 8 → d' ≤ 8
        → IsLawful c k d tables → IsLawful c k' d' others → IsMappedBy ByPrimeRows c tables primed
        → IsMappedBy ByPrimeRows c others primed → tables ≡ others }
{
    tm_mapped::laws::one_mapping();
}
