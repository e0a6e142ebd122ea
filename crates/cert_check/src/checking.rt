// The check, test by test.

ghost use Rattle.std.specs.Prelude.{◌≡◌, ◌≢◌, ◌⊎◌, ◌↔◌, [], ◌^◌, ◌<◌, ◌≤◌, length, map, vec_len, IsTrue, IfOk};
ghost use Rattle.tm_bits.specs.Limits.{most_inputs};
ghost use Rattle.tm_circuit.specs.Plain.{widest};
ghost use Rattle.tm_parts.specs.Fits.{FitsMapping};
ghost use Rattle.tm_unroll.specs.Mappings.{tables_of, IsLawful};
ghost use Rattle.tm_replay.specs.Replays.{drop_of};
ghost use Rattle.tm_mapped.specs.Mapped.{ByValues, IsMappedBy};
ghost use Rattle.cert_text.specs.Certificates.{certificate_of};
ghost use Rattle.cert_check.specs.Accepted.{IsVerdict, IsVerdictOver};
ghost use Rattle.cert_check.specs.Steps.{IsVerdictOnDrops};
ghost use Rattle.cert_check.specs.declared.verdict.Verdict.TheVariants.{Yes, No};
ghost use Rattle.cert_check.specs.declared.verdict.Why.TheVariants.{Order};

use crate::agreement::agree;
use crate::verdict::{Verdict, Why};
use cert_text::Cert;
use std::alloc::Global;
use tm_bits::NoMemory;
use tm_circuit::Circuit;
use tm_replay::{Lowering, Replayed, have_lost, replay};
use tm_twins::joined;
use tm_unroll::{Mapping, chain, lawful};

/// Whether the mapped circuit and the certificate are accepted for the source circuit, where tables have at most `k` leaves and
/// lags are at most `d` steps; else the first failure. A certificate of version 1 is judged over the source, and one of version 2
/// over its joined circuit. Takes time in proportion to the circuits and the certificate.
pub fn check(
    alloc: Global,
    source: &Circuit,
    mapped: &Circuit,
    cert: &Cert,
    k: u8,
    d: u8,
) -> Result<Verdict, NoMemory>
    requires version { (cert.now.version ≡ 1) ⊎ (cert.now.version ≡ 2) }
    requires few { (2 ≤ k) × (k ≤ most_inputs) }
    requires near { d ≤ 8 }
    requires narrow { widest source.now.drives ≤ k }
    requires fits { FitsMapping source.now }
    requires drops { vec_len cert.now.drops < 2 ^ 32 }
    ensures { IfOk result (IsVerdict source.now mapped.now (certificate_of cert.now) k d) }
{
    tm_twins::laws::joined_fits();
    if cert.version == 1 {
        return check_over(alloc, source, mapped, cert, k, d);
    }
    let joined = joined(alloc, source)?;
    check_over(alloc, &joined, mapped, cert, k, d)
}

/// The verdict over a circuit, whatever the version of the certificate.
fn check_over(
    alloc: Global,
    circuit: &Circuit,
    mapped: &Circuit,
    cert: &Cert,
    k: u8,
    d: u8,
) -> Result<Verdict, NoMemory>
    requires few { (2 ≤ k) × (k ≤ most_inputs) }
    requires near { d ≤ 8 }
    requires narrow { widest circuit.now.drives ≤ k }
    requires fits { FitsMapping circuit.now }
    requires drops { vec_len cert.now.drops < 2 ^ 32 }
    ensures { IfOk result (IsVerdictOver circuit.now mapped.now (certificate_of cert.now) k d) }
{
    if let Some(fault) = lawful(alloc, circuit, k, d, &cert.mapping)? {
        return Ok(Verdict::No {
            entry: fault.entry,
            why: Why::of_mapping(fault.why),
        });
    }
    if chain(alloc, circuit, k, d, &cert.mapping)? > cert.period {
        return Ok(Verdict::No {
            entry: 0,
            why: Why::Chain,
        });
    }
    if !is_mapped_circuit(alloc, circuit, k, d, &cert.mapping, mapped)? {
        return Ok(Verdict::No {
            entry: 0,
            why: Why::Circuit,
        });
    }
    judge_drops(alloc, circuit, k, d, cert.period, &cert.drops)
}

/// Whether another circuit is the mapped circuit of a lawful mapping, where covers go by their values.
fn is_mapped_circuit(
    alloc: Global,
    circuit: &Circuit,
    k: u8,
    d: u8,
    mapping: &Mapping,
    other: &Circuit,
) -> Result<bool, NoMemory>
    requires few { (2 ≤ k) × (k ≤ most_inputs) }
    requires near { d ≤ 8 }
    requires narrow { widest circuit.now.drives ≤ k }
    requires lawful { IsLawful circuit.now k d (tables_of mapping.now) }
    requires fits { FitsMapping circuit.now }
    ensures { IfOk result (λ is. IsTrue is ↔ IsMappedBy ByValues circuit.now (tables_of mapping.now) other.now) }
{
    tm_mapped::laws::single_rows_have_values();
    crate::laws::mapped_circuits_agree();
    let _sound = circuit.signals();
    let expected = tm_net::mapped(alloc, circuit, k, d, mapping)?;
    Ok(agree(&expected, other))
}

/// The verdict on drops for a period, where all before them is right.
fn judge_drops(
    alloc: Global,
    circuit: &Circuit,
    k: u8,
    d: u8,
    period: u32,
    drops: &[Lowering],
) -> Result<Verdict, NoMemory>
    requires some { 1 ≤ k }
    requires few { length drops.now < 2 ^ 32 }
    ensures { IfOk result (IsVerdictOnDrops circuit.now k d period (map drop_of drops.now)) }
{
    if period == 0 {
        return Ok(judge_as_none(drops));
    }
    match replay(alloc, circuit, k, d, period - 1, drops)? {
        Replayed::Fault(fault) => Ok(Verdict::No {
            entry: fault.entry,
            why: Why::of_drop(fault.why),
        }),
        Replayed::Labels(labels) => Ok(if have_lost(circuit, &labels) {
            Verdict::Yes
        } else {
            Verdict::No {
                entry: 0,
                why: Why::Unfinished,
            }
        }),
    }
}

/// The verdict on drops where there is nothing to show: the first one is out of order.
fn judge_as_none(drops: &[Lowering]) -> Verdict
    ensures empty { drops.now ≡ [] → result ≡ Yes }
    ensures some { drops.now ≢ [] → result ≡ No 1 Order }
{
    if drops.is_empty() {
        Verdict::Yes
    } else {
        Verdict::No {
            entry: 1,
            why: Why::Order,
        }
    }
}
