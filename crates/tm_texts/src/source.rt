// The subject circuit of a text.

ghost use Rattle.std.specs.Prelude.{◌≤◌, length, IfOk, IfErr};
ghost use Rattle.tm_bits.specs.Limits.{most_inputs};
ghost use Rattle.tm_circuit.specs.Sound.{IsSound};
ghost use Rattle.tm_parts.specs.Names.{HasNamesWithin};
ghost use Rattle.text_read.specs.Texts.{IsCircuitOf, ShowsMeaning};
ghost use Rattle.tm_texts.specs.Limits.{source_bytes, source_limits};
ghost use Rattle.tm_texts.specs.Sources.{IsSubjectOf, IsMapFault, IsReadFault, IsSubject, IsSplitFault};

use blif_read::SOURCE;
use std::alloc::Global;
use text_read::{TextFault, TextKind, laws as read_laws, read, too_many};
use thiserror::Error;
use tm_bits::NoMemory;
use tm_circuit::Circuit;
use tm_split::{SplitFault, into_subject};

/// Why a text that is to be mapped has no subject circuit.
#[derive(Clone, Copy, Debug, PartialEq, Eq, Error)]
pub enum MapFault {
    /// The first fault of the text, or `TooManySignals` of its subject circuit; the line is 0 where the fault is one of the whole.
    #[error("line {line}: {kind:?}")]
    Text { line: u32, kind: TextKind },
    #[error("no memory")]
    NoMemory,
}

impl From<NoMemory> for MapFault {
    ghost use Rattle.std.specs.Prelude.{◌≡◌};
    ghost use Rattle.tm_texts.specs.declared.source.MapFault.TheVariants.{NoMemory as WantOfMemory};

    ghost from_gives = { λ _ fault. fault ≡ WantOfMemory };

    fn from(_refused: NoMemory) -> Self {
        MapFault::NoMemory
    }
}

/// The subject circuit of a text for tables of at most `k` inputs: that of its circuit, in which wide gates are split.
pub(crate) fn subject_of_text(alloc: Global, text: &[u8], k: u8) -> Result<Circuit, MapFault>
    requires tables { (2 ≤ k) × (k ≤ most_inputs) }
    requires short { length text.now ≤ source_bytes }
    ensures subject { IfOk result (IsSubjectOf k text.now) }
    ensures fault { IfErr result (IsMapFault k text.now) }
{
    read_laws::short_names();
    let source = read_source(alloc, text)?;
    split(alloc, text, source, k)
}

// The circuit of the text.
fn read_source(alloc: Global, text: &[u8]) -> Result<Circuit, MapFault>
    requires { length text.now ≤ source_bytes }
    ensures circuit { IfOk result (IsCircuitOf source_limits text.now) }
    ensures meaning { IfOk result (ShowsMeaning source_limits text.now) }
    ensures sound { IfOk result IsSound }
    ensures fault { IfErr result (IsReadFault text.now) }
{
    match read(alloc, text, &SOURCE) {
        Ok(circuit) => Ok(circuit),
        Err(TextFault::Text { line, kind }) => Err(MapFault::Text { line, kind }),
        Err(TextFault::NoMemory) => Err(MapFault::NoMemory),
    }
}

// The subject circuit of the text's circuit, in which no gate has more than `k` pins.
fn split(alloc: Global, text: &[u8], source: Circuit, k: u8) -> Result<Circuit, MapFault>
    requires tables { (2 ≤ k) × (k ≤ most_inputs) }
    requires names { HasNamesWithin 255 source }
    ensures subject { IfOk result (IsSubject k source) }
    ensures fault { IfErr result (IsSplitFault k text.now source) }
{
    match into_subject(alloc, source, k) {
        Ok(subject) => Ok(subject),
        Err(SplitFault::TooManySignals) => Err(MapFault::Text {
            line: 0,
            kind: too_many(text),
        }),
        Err(SplitFault::NoMemory) => Err(MapFault::NoMemory),
    }
}
