// Checks a mapped text by a certificate.

ghost use Rattle.std.specs.Prelude.{◌≤◌, length, IfOk, IfErr};
ghost use Rattle.tm_bits.specs.Limits.{most_inputs};
ghost use Rattle.tm_circuit.specs.Sound.{IsSound};
ghost use Rattle.blif_read.specs.Text.{IsCircuitOf};
ghost use Rattle.cert_text.specs.Certificates.{IsCertificateOf, certificate_of};
ghost use Rattle.tm_texts.specs.Limits.{most_lag, source_bytes, mapped_bytes, mapped_limits};
ghost use Rattle.tm_texts.specs.Sources.{IsSubjectOf};
ghost use Rattle.tm_texts.specs.Checks.{AreAccepted, IsCheckFault, IsSubjectFault, IsClaimedFault, IsSpellingFault};

use crate::source::{MapFault, subject_of_text};
use blif_read::{BlifFault, BlifKind, MAPPED, read};
use cert_check::{Verdict, Why, check, laws as check_laws};
use cert_text::{Cert, CertFault, CertKind};
use std::alloc::Global;
use text_read::TextKind;
use thiserror::Error;
use tm_bits::NoMemory;
use tm_circuit::{Circuit, laws as circuit_laws};

/// What was accepted: the period, and the number of drops of the certificate.
#[derive(Clone, Copy, Debug, PartialEq, Eq)]
pub struct Checked {
    pub period: u32,
    pub drops: u32,
}

/// Why three texts are not accepted, in the order in which this is found.
#[derive(Clone, Copy, Debug, PartialEq, Eq, Error)]
pub enum CheckFault {
    /// The first fault of the text that was mapped, or `TooManySignals` of its subject circuit.
    #[error("source, line {line}: {kind:?}")]
    Source { line: u32, kind: TextKind },
    /// The first fault of the mapped text.
    #[error("mapped text, line {line}: {kind:?}")]
    Mapped { line: u32, kind: BlifKind },
    /// The first fault of the certificate's text.
    #[error("certificate, line {line}: {kind:?}")]
    Cert { line: u32, kind: CertKind },
    /// The first test that fails, and the table, the output or the drop that it is about, counted from 1; 0 where it is about the whole.
    #[error("not accepted, entry {entry}: {why:?}")]
    No { entry: u32, why: Why },
    #[error("no memory")]
    NoMemory,
}

impl From<NoMemory> for CheckFault {
    ghost use Rattle.std.specs.Prelude.{◌≡◌};
    ghost use Rattle.tm_texts.specs.declared.check.CheckFault.TheVariants.{NoMemory as WantOfMemory};

    ghost from_gives = { λ _ fault. fault ≡ WantOfMemory };

    fn from(_refused: NoMemory) -> Self {
        CheckFault::NoMemory
    }
}

/// Checks a mapped text by the text of a certificate, for tables of at most `k` inputs and lags of at most `d`: by the rules of the
/// certificate's version, and whoever made the texts.
pub fn check_texts(
    alloc: Global,
    source: &[u8],
    mapped: &[u8],
    cert: &[u8],
    k: u8,
    d: u8,
) -> Result<Checked, CheckFault>
    requires tables { (2 ≤ k) × (k ≤ most_inputs) }
    requires lags { d ≤ most_lag }
    requires source { length source.now ≤ source_bytes }
    requires mapped { length mapped.now ≤ mapped_bytes }
    requires cert { length cert.now ≤ mapped_bytes }
    ensures accepted { IfOk result (λ checked. AreAccepted k d source.now mapped.now cert.now checked.period checked.drops) }
    ensures fault { IfErr result (IsCheckFault k d source.now mapped.now cert.now) }
{
    circuit_laws::equivalence();
    check_laws::accepted_is_best();
    let subject = read_subject(alloc, source, k)?;
    let claimed = read_claimed(alloc, mapped)?;
    let cert = read_cert(alloc, cert)?;
    let drops = cert.drops.len() as u32;
    match check(alloc, &subject, &claimed, &cert, k, d)? {
        Verdict::Yes => Ok(Checked {
            period: cert.period,
            drops,
        }),
        Verdict::No { entry, why } => Err(CheckFault::No { entry, why }),
    }
}

// The subject circuit of the text that was mapped.
fn read_subject(alloc: Global, text: &[u8], k: u8) -> Result<Circuit, CheckFault>
    requires tables { (2 ≤ k) × (k ≤ most_inputs) }
    requires short { length text.now ≤ source_bytes }
    ensures subject { IfOk result (IsSubjectOf k text.now) }
    ensures fault { IfErr result (IsSubjectFault k text.now) }
{
    match subject_of_text(alloc, text, k) {
        Ok(subject) => Ok(subject),
        Err(MapFault::Text { line, kind }) => Err(CheckFault::Source { line, kind }),
        Err(MapFault::NoMemory) => Err(CheckFault::NoMemory),
    }
}

// The circuit of the mapped text.
fn read_claimed(alloc: Global, text: &[u8]) -> Result<Circuit, CheckFault>
    requires { length text.now ≤ mapped_bytes }
    ensures circuit { IfOk result (IsCircuitOf mapped_limits text.now) }
    ensures sound { IfOk result IsSound }
    ensures fault { IfErr result (IsClaimedFault text.now) }
{
    match read(alloc, text, &MAPPED) {
        Ok(circuit) => {
            // Each circuit in hand is known to be sound.
            let _ = circuit.signals();
            Ok(circuit)
        }
        Err(BlifFault::Text { line, kind }) => Err(CheckFault::Mapped { line, kind }),
        Err(BlifFault::NoMemory) => Err(CheckFault::NoMemory),
    }
}

// The certificate of the text.
fn read_cert(alloc: Global, text: &[u8]) -> Result<Cert, CheckFault>
    requires { length text.now ≤ mapped_bytes }
    ensures cert { IfOk result (λ cert. IsCertificateOf text.now (certificate_of cert)) }
    ensures fault { IfErr result (IsSpellingFault text.now) }
{
    match cert_text::read(alloc, text) {
        Ok(cert) => Ok(cert),
        Err(CertFault::Text { line, kind }) => Err(CheckFault::Cert { line, kind }),
        Err(CertFault::NoMemory) => Err(CheckFault::NoMemory),
    }
}
