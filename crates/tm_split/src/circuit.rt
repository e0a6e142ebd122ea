// The subject circuit.

ghost use Rattle.std.specs.Prelude.{◌≡◌, ◌↔◌, ◌<◌, ◌≤◌, length, Err, IfOk};
ghost use Rattle.tm_circuit.specs.Plain.{widest};
ghost use Rattle.tm_circuit.specs.Sound.{IsSound};
ghost use Rattle.tm_circuit.specs.Same.{IsSame};
ghost use Rattle.tm_parts.specs.Names.{HasNamesWithin};
ghost use Rattle.tm_parts.specs.Limits.{longest_name_to_map};
ghost use Rattle.tm_parts.specs.Fits.{FitsMapping};
ghost use Rattle.tm_split.specs.Limits.{most_subject_signals, longest_name_to_split};
ghost use Rattle.tm_split.specs.Subject.{subject_of};

use crate::count::{MOST_SUBJECT_SIGNALS, is_few, numbers};
use crate::gates::Plan;
use crate::parts::split_parts;
use std::alloc::Global;
use thiserror::Error;
use tm_bits::{MOST_K, NoMemory};
use tm_circuit::{Circuit, CircuitFault, laws};
use tm_parts::joiner;

/// Why there is no subject circuit of a circuit.
#[derive(Clone, Copy, Debug, PartialEq, Eq, Error)]
pub enum SplitFault {
    /// It would have more than 100,000 signals.
    #[error("the subject circuit has more than 100,000 signals")]
    TooManySignals,
    /// The allocator refused.
    #[error("no memory")]
    NoMemory,
}

impl From<NoMemory> for SplitFault {
    ghost use Rattle.std.specs.Prelude.{◌≡◌};
    ghost use Rattle.tm_split.specs.declared.circuit.SplitFault.TheVariants.{NoMemory as WantOfMemory};

    ghost from_gives = { λ _ fault. fault ≡ WantOfMemory };

    fn from(_refused: NoMemory) -> Self {
        SplitFault::NoMemory
    }
}

/// The subject circuit for `k`: each gate with more than `k` pins is replaced by gates of at most two pins, in its place and the last
/// under its name; all else stays. It is refused exactly where it would have more than 100,000 signals, before it is built.
pub fn subject(alloc: Global, circuit: &Circuit, k: u8) -> Result<Circuit, SplitFault>
    requires least { 2 ≤ k }
    requires most { k ≤ MOST_K }
    requires names { HasNamesWithin longest_name_to_split circuit.now }
    ensures subject { IfOk result (λ subject. subject ≡ subject_of k circuit.now) }
    ensures same { IfOk result (λ subject. IsSame circuit.now subject) }
    ensures narrow { IfOk result (λ subject. widest subject.drives ≤ k) }
    ensures few { IfOk result (λ subject. length subject.drives ≤ most_subject_signals) }
    ensures names { IfOk result (λ subject. HasNamesWithin longest_name_to_map subject) }
    ensures sound { IfOk result IsSound }
    ensures fits { IfOk result FitsMapping }
    ensures too_many { (result ≡ Err SplitFault.TooManySignals) ↔ (most_subject_signals < length (subject_of k circuit.now).drives) }
{
    laws::same_by_trace();
    laws::equivalence();
    let most = k as usize;
    if !is_few(circuit, most) {
        return Err(SplitFault::TooManySignals);
    }
    let plan = Plan {
        numbers: numbers(alloc, circuit, most)?,
        joiner: joiner(alloc, circuit, b'~')?,
        most,
    };
    let parts = split_parts(alloc, circuit, &plan)?;
    match Circuit::build(alloc, parts) {
        Ok(subject) => Ok(subject),
        Err(fault) => match fault {
            CircuitFault::NoMemory => Err(SplitFault::NoMemory),
            _ => unreachable!(),
        },
    }
}

/// The subject circuit of a circuit that is handed over: where no gate has more than `k` pins it is that circuit, and nothing is copied.
pub fn into_subject(alloc: Global, circuit: Circuit, k: u8) -> Result<Circuit, SplitFault>
    requires least { 2 ≤ k }
    requires most { k ≤ MOST_K }
    requires names { HasNamesWithin longest_name_to_split circuit }
    ensures subject { IfOk result (λ subject. subject ≡ subject_of k circuit) }
    ensures same { IfOk result (λ subject. IsSame circuit subject) }
    ensures narrow { IfOk result (λ subject. widest subject.drives ≤ k) }
    ensures few { IfOk result (λ subject. length subject.drives ≤ most_subject_signals) }
    ensures names { IfOk result (λ subject. HasNamesWithin longest_name_to_map subject) }
    ensures sound { IfOk result IsSound }
    ensures fits { IfOk result FitsMapping }
    ensures too_many { (result ≡ Err SplitFault.TooManySignals) ↔ (most_subject_signals < length (subject_of k circuit).drives) }
{
    laws::equivalence();
    if circuit.widest() <= u32::from(k) && u64::from(circuit.signals()) <= MOST_SUBJECT_SIGNALS {
        return Ok(circuit);
    }
    subject(alloc, &circuit, k)
}
