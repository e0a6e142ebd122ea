// Maps one text to a text with prime covers.

ghost use Rattle.std.specs.Prelude.{◌≤◌, length, IfOk, IfErr};
ghost use Rattle.tm_bits.specs.Limits.{most_inputs};
ghost use Rattle.tm_circuit.specs.Plain.{widest};
ghost use Rattle.tm_parts.specs.Fits.{FitsMapping};
ghost use Rattle.prime_cover.specs.Primes.{ByPrimeRows};
ghost use Rattle.cert_text.specs.Certificates.{certificate_of};
ghost use Rattle.tm_texts.specs.Limits.{most_lag, source_bytes};
ghost use Rattle.tm_texts.specs.Maps.{Maps};
ghost use Rattle.tm_texts.specs.Mapped.{IsMappedCircuit};
ghost use Rattle.tm_texts.specs.Sources.{IsMapFault};

use crate::map::{Mapped, MappedCircuit, map_subject, write_mapped};
use crate::source::{MapFault, subject_of_text};
use std::alloc::Global;
use tm_bits::NoMemory;
use tm_circuit::{Circuit, laws as circuit_laws};
use tm_mapped::laws as mapped_laws;
use tm_prime::{laws as prime_laws, with_prime_covers};
use tm_twins::laws as twin_laws;

/// Does what `map_text` does, but each cover of its text is made of prime rows, of which none can be left out. The certificate is
/// accepted with this text too, since covers are compared by their values.
pub fn prime_text(alloc: Global, text: &[u8], k: u8, d: u8) -> Result<Mapped, MapFault>
    requires tables { (2 ≤ k) × (k ≤ most_inputs) }
    requires lags { d ≤ most_lag }
    requires short { length text.now ≤ source_bytes }
    ensures maps { IfOk result (λ mapped.
        Maps ByPrimeRows k d text.now mapped.text.items (certificate_of mapped.cert) mapped.tables mapped.registers) }
    ensures fault { IfErr result (IsMapFault k text.now) }
{
    let subject = subject_of_text(alloc, text, k)?;
    let mapped = prime_subject(alloc, &subject, k, d)?;
    Ok(write_mapped(alloc, mapped)?)
}

// The subject circuit mapped, with prime covers.
fn prime_subject(alloc: Global, subject: &Circuit, k: u8, d: u8) -> Result<MappedCircuit, NoMemory>
    requires tables { (2 ≤ k) × (k ≤ most_inputs) }
    requires lags { d ≤ most_lag }
    requires narrow { widest subject.now.drives ≤ k }
    requires fits { FitsMapping subject.now }
    ensures { IfOk result (λ mapped. IsMappedCircuit ByPrimeRows k d subject.now mapped.circuit (certificate_of mapped.cert)) }
{
    circuit_laws::equivalence();
    twin_laws::one_joined();
    mapped_laws::single_rows_have_values();
    prime_laws::primed_is_mapped();
    prime_laws::primed_is_accepted();
    prime_laws::one_mapping();
    // The circuit in hand is known to be sound.
    let _ = subject.signals();
    let mapped = map_subject(alloc, subject, k, d)?;
    let circuit = with_prime_covers(alloc, &mapped.circuit)?;
    Ok(MappedCircuit {
        circuit,
        cert: mapped.cert,
    })
}
