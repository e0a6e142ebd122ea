// Maps one text.

ghost use Rattle.std.specs.Prelude.{◌≡◌, ◌≤◌, length, map, IfOk, IfErr, MatchOption};
ghost use Rattle.tm_bits.specs.Limits.{most_inputs};
ghost use Rattle.tm_circuit.specs.Plain.{widest};
ghost use Rattle.tm_parts.specs.Fits.{FitsMapping};
ghost use Rattle.tm_replay.specs.Replays.{drop_of};
ghost use Rattle.tm_unroll.specs.Mappings.{tables_of};
ghost use Rattle.tm_mapped.specs.Mapped.{BySingleRows};
ghost use Rattle.tm_search.specs.Least.{Refutes};
ghost use Rattle.cert_text.specs.Certificates.{certificate_of};
ghost use Rattle.cert_check.specs.Accepted.{ShowLeast};
ghost use Rattle.tm_texts.specs.Limits.{most_lag, source_bytes};
ghost use Rattle.tm_texts.specs.Maps.{Maps, IsLeastMapping};
ghost use Rattle.tm_texts.specs.Mapped.{IsMappedCircuit, IsSpelled};
ghost use Rattle.tm_texts.specs.Sources.{IsMapFault};

use crate::source::{MapFault, subject_of_text};
use cert_check::laws as check_laws;
use cert_text::Cert;
use std::alloc::Global;
use tm_absorb::absorb;
use tm_area::recover;
use tm_bits::NoMemory;
use tm_circuit::{Circuit, laws as circuit_laws};
use tm_cover::choose;
use tm_labels::Settled;
use tm_mapped::laws as mapped_laws;
use tm_net::mapped;
use tm_replay::Lowering;
use tm_search::{laws as search_laws, least_for_outputs};
use tm_shorten::shorten;
use tm_twins::{joined, laws as twin_laws};
use tm_unroll::{Mapping, laws as unroll_laws};

/// A mapped text, with its certificate, in which its mapping and its period stand, and the numbers of tables and registers.
#[derive(Drop)]
pub struct Mapped {
    pub text: Vec<u8>,
    pub cert: Cert,
    pub tables: u32,
    pub registers: u32,
}

/// A mapped circuit, with its certificate.
#[derive(Drop)]
pub(crate) struct MappedCircuit {
    pub circuit: Circuit,
    pub cert: Cert,
}

/// A mapping of the least period, that period, and drops that show that there is no smaller one.
#[derive(Drop)]
struct LeastMapping {
    mapping: Mapping,
    period: u32,
    drops: Vec<Lowering>,
}

/// Maps the circuit of a text to tables of at most `k` inputs, over each of which at most `d` registers move forward: wide gates are
/// split, latches that are always equal count as one, and the period is the least that a lawful mapping has. Tables are recovered off
/// the longest chains, and those that fit into all their readers are absorbed.
pub fn map_text(alloc: Global, text: &[u8], k: u8, d: u8) -> Result<Mapped, MapFault>
    requires tables { (2 ≤ k) × (k ≤ most_inputs) }
    requires lags { d ≤ most_lag }
    requires short { length text.now ≤ source_bytes }
    ensures maps { IfOk result (λ mapped.
        Maps BySingleRows k d text.now mapped.text.items (certificate_of mapped.cert) mapped.tables mapped.registers) }
    ensures fault { IfErr result (IsMapFault k text.now) }
{
    let subject = subject_of_text(alloc, text, k)?;
    let mapped = map_subject(alloc, &subject, k, d)?;
    Ok(write_mapped(alloc, mapped)?)
}

/// The text of a mapped circuit, with its certificate and its numbers.
pub(crate) fn write_mapped(alloc: Global, mapped: MappedCircuit) -> Result<Mapped, NoMemory>
    ensures spelled { IfOk result (λ written. IsSpelled written.text.items mapped.circuit written.tables written.registers) }
    ensures cert { IfOk result (λ written. written.cert ≡ mapped.cert) }
{
    Ok(Mapped {
        text: blif_write::text(alloc, &mapped.circuit)?,
        tables: mapped.circuit.gates(),
        registers: mapped.circuit.latches(),
        cert: mapped.cert,
    })
}

/// The subject circuit mapped. What is mapped is the joined circuit, in which equal latches are one.
pub(crate) fn map_subject(
    alloc: Global,
    subject: &Circuit,
    k: u8,
    d: u8,
) -> Result<MappedCircuit, NoMemory>
    requires tables { (2 ≤ k) × (k ≤ most_inputs) }
    requires lags { d ≤ most_lag }
    requires narrow { widest subject.now.drives ≤ k }
    requires fits { FitsMapping subject.now }
    ensures { IfOk result (λ mapped. IsMappedCircuit BySingleRows k d subject.now mapped.circuit (certificate_of mapped.cert)) }
{
    circuit_laws::equivalence();
    twin_laws::joined_fits();
    mapped_laws::single_rows_have_values();
    mapped_laws::one_mapping();
    check_laws::made_is_accepted();
    check_laws::accepted_is_short();
    check_laws::accepted_is_spelled();
    // The circuits in hand are known to be sound.
    let _ = subject.signals();
    let joined = joined(alloc, subject)?;
    let found = least_mapping(alloc, &joined, k, d)?;
    let circuit = mapped(alloc, &joined, k, d, &found.mapping)?;
    let _ = circuit.signals();
    Ok(MappedCircuit {
        circuit,
        cert: Cert {
            version: 2,
            period: found.period,
            mapping: found.mapping,
            drops: found.drops,
        },
    })
}

// A mapping of the least period that any lawful mapping of the circuit has, and what shows that it is the least. Fewer tables and
// absorption leave the period as it is, since there is no smaller one.
fn least_mapping(alloc: Global, circuit: &Circuit, k: u8, d: u8) -> Result<LeastMapping, NoMemory>
    requires tables { (2 ≤ k) × (k ≤ most_inputs) }
    requires lags { d ≤ most_lag }
    requires narrow { widest circuit.now.drives ≤ k }
    requires fits { FitsMapping circuit.now }
    ensures least { IfOk result (λ least. IsLeastMapping circuit.now k d (tables_of least.mapping) least.period) }
    ensures shown { IfOk result (λ least. ShowLeast least.period circuit.now k d (map drop_of least.drops.items)) }
{
    search_laws::least_is_period();
    unroll_laws::one_period();
    // The circuit in hand is known to be sound.
    let _ = circuit.signals();
    let least = least_for_outputs(alloc, 0, circuit, k, d)?;
    let chosen = choose(alloc, circuit, k, d, &least.at)?;
    let recovered = recover(alloc, circuit, k, d, &least.at, chosen)?;
    let mapping = absorb(alloc, circuit, k, d, &recovered)?;
    Ok(LeastMapping {
        mapping,
        period: least.period,
        drops: refutation(alloc, circuit, k, d, least.period, least.below)?,
    })
}

// The drops that refute the target below a period, as far as they are needed; none where there is no target below.
fn refutation(
    alloc: Global,
    circuit: &Circuit,
    k: u8,
    d: u8,
    period: u32,
    below: Option<Settled>,
) -> Result<Vec<Lowering>, NoMemory>
    requires tables { (2 ≤ k) × (k ≤ most_inputs) }
    requires lags { d ≤ most_lag }
    requires narrow { widest circuit.now.drives ≤ k }
    requires below { MatchOption below (period ≡ 0) (Refutes 0 circuit.now k d period) }
    ensures { IfOk result (λ drops. ShowLeast period circuit.now k d (map drop_of drops.items)) }
{
    match below {
        None => Ok(Vec::new(alloc)),
        Some(below) => {
            let target = below.target();
            let drops = below.into_drops();
            if drops.len() > u32::MAX as usize {
                return Ok(drops);
            }
            shorten(alloc, circuit, k, d, target, drops)
        }
    }
}
