// The two-way bound of one text.

ghost use Rattle.std.specs.Prelude.{◌≤◌, length, IfOk, IfErr};
ghost use Rattle.tm_bits.specs.Limits.{most_inputs};
ghost use Rattle.tm_circuit.specs.Plain.{widest};
ghost use Rattle.tm_parts.specs.Fits.{FitsMapping};
ghost use Rattle.tm_texts.specs.Limits.{most_lag, most_back, source_bytes};
ghost use Rattle.tm_texts.specs.Bounds.{IsBound, IsBoundOf};
ghost use Rattle.tm_texts.specs.Sources.{IsMapFault};

use crate::source::{MapFault, subject_of_text};
use std::alloc::Global;
use tm_bits::NoMemory;
use tm_circuit::Circuit;
use tm_twins::{joined, laws as twin_laws};
use two_way::least;

/// The least period of the circuit of a text where registers may also move backward, by at most `b`, and initial values are left aside:
/// with `b` 0 it is the period of `map_text`. Nothing is mapped.
pub fn bound_text(alloc: Global, text: &[u8], k: u8, d: u8, b: u8) -> Result<u32, MapFault>
    requires tables { (2 ≤ k) × (k ≤ most_inputs) }
    requires lags { d ≤ most_lag }
    requires back { b ≤ most_back }
    requires short { length text.now ≤ source_bytes }
    ensures bound { IfOk result (IsBound k d b text.now) }
    ensures fault { IfErr result (IsMapFault k text.now) }
{
    let subject = subject_of_text(alloc, text, k)?;
    Ok(bound_subject(alloc, &subject, k, d, b)?)
}

// The two-way bound of a subject circuit. Its joined circuit is what registers move in, so that equal latches are one.
fn bound_subject(alloc: Global, subject: &Circuit, k: u8, d: u8, b: u8) -> Result<u32, NoMemory>
    requires tables { (2 ≤ k) × (k ≤ most_inputs) }
    requires lags { d ≤ most_lag }
    requires back { b ≤ most_back }
    requires narrow { widest subject.now.drives ≤ k }
    requires fits { FitsMapping subject.now }
    ensures { IfOk result (IsBoundOf k d b subject.now) }
{
    twin_laws::joined_fits();
    let joined = joined(alloc, subject)?;
    Ok(least(alloc, &joined, k, d, b)?.period)
}
