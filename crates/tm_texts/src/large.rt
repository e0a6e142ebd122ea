// Maps the sample of a number, and checks what it made.

ghost use Rattle.std.specs.Prelude.{◌≤◌, IfOk};
ghost use Rattle.tm_bits.specs.Limits.{most_inputs};
ghost use Rattle.tm_texts.specs.Limits.{most_lag, least_sample, most_sample};
ghost use Rattle.tm_texts.specs.Large.{IsLarge, IsSample, IsSampleSubject};

use crate::map::map_subject;
use blif_read::{BlifFault, SOURCE, read};
use cert_check::{Verdict, check, laws as check_laws};
use std::alloc::Global;
use tm_bits::NoMemory;
use tm_circuit::Circuit;
use tm_make::sample;
use tm_split::{SplitFault, subject};

/// What mapping a sample came to: the least period, the tables and the registers of the mapped circuit, and the drops of the
/// certificate that was accepted for it.
#[derive(Clone, Copy, Debug, PartialEq, Eq)]
pub struct Large {
    pub period: u32,
    pub tables: u32,
    pub registers: u32,
    pub drops: u32,
}

/// Makes the sample of a number, maps it to tables of at most `k` inputs, over each of which at most `d` registers move forward, and
/// has the checker judge the result.
pub fn large_sample(alloc: Global, number: u32, k: u8, d: u8) -> Result<Large, NoMemory>
    requires some { least_sample ≤ number }
    requires few { number ≤ most_sample }
    requires tables { (2 ≤ k) × (k ≤ most_inputs) }
    requires lags { d ≤ most_lag }
    ensures { IfOk result (λ large. IsLarge number k d large.period large.tables large.registers large.drops) }
{
    check_laws::one_verdict();
    let subject = sample_subject(alloc, number, k)?;
    let mapped = map_subject(alloc, &subject, k, d)?;
    let drops = mapped.cert.drops.len() as u32;
    match check(alloc, &subject, &mapped.circuit, &mapped.cert, k, d)? {
        Verdict::Yes => Ok(Large {
            period: mapped.cert.period,
            tables: mapped.circuit.gates(),
            registers: mapped.circuit.latches(),
            drops,
        }),
        Verdict::No { .. } => unreachable!(),
    }
}

// The subject circuit of the sample. It is the sample's circuit itself, whose gates are narrow, so that it is never too large.
fn sample_subject(alloc: Global, number: u32, k: u8) -> Result<Circuit, NoMemory>
    requires some { least_sample ≤ number }
    requires few { number ≤ most_sample }
    requires tables { (2 ≤ k) × (k ≤ most_inputs) }
    ensures { IfOk result (IsSampleSubject number k) }
{
    let source = read_sample(alloc, number)?;
    match subject(alloc, &source, k) {
        Ok(subject) => Ok(subject),
        Err(SplitFault::TooManySignals) => unreachable!(),
        Err(SplitFault::NoMemory) => Err(NoMemory),
    }
}

// The circuit of the sample.
fn read_sample(alloc: Global, number: u32) -> Result<Circuit, NoMemory>
    requires some { least_sample ≤ number }
    requires few { number ≤ most_sample }
    ensures { IfOk result (IsSample number) }
{
    let text = sample(alloc, number)?;
    match read(alloc, &text, &SOURCE) {
        Ok(source) => {
            // Each circuit in hand is known to be sound.
            let _ = source.signals();
            Ok(source)
        }
        Err(BlifFault::Text { .. }) => unreachable!(),
        Err(BlifFault::NoMemory) => Err(NoMemory),
    }
}
