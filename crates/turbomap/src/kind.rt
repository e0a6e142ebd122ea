// The names of the kinds of faults, and of the reasons of a check, as lines say them.

ghost use Rattle.std.specs.Prelude.{◌≡◌};
ghost use Rattle.turbomap.specs.Kind.{kind_name, aiger_kind_name, text_kind_name, vector_kind_name, cert_kind_name, why_name};

use aiger_read::AigerKind;
use blif_read::BlifKind;
use cert_check::Why;
use cert_text::CertKind;
use text_read::TextKind;
use tm_sim::vectors::VectorKind;

/// The name of the kind: that of its variant.
pub fn kind_name(kind: BlifKind) -> &'static str
    ensures { result.now ≡ kind_name kind }
{
    match kind {
        BlifKind::BadByte => "BadByte",
        BlifKind::LongName => "LongName",
        BlifKind::UnknownWord => "UnknownWord",
        BlifKind::LeftOut => "LeftOut",
        BlifKind::Misplaced => "Misplaced",
        BlifKind::BadCount => "BadCount",
        BlifKind::TooManyPins => "TooManyPins",
        BlifKind::RepeatedDriver => "RepeatedDriver",
        BlifKind::RepeatedOutput => "RepeatedOutput",
        BlifKind::BadRow => "BadRow",
        BlifKind::MixedRows => "MixedRows",
        BlifKind::BadType => "BadType",
        BlifKind::BadInit => "BadInit",
        BlifKind::UnknownInit => "UnknownInit",
        BlifKind::ManyClocks => "ManyClocks",
        BlifKind::Undriven => "Undriven",
        BlifKind::GatedClock => "GatedClock",
        BlifKind::ClockAsData => "ClockAsData",
        BlifKind::TooManySignals => "TooManySignals",
        BlifKind::Loop => "Loop",
        BlifKind::BadBinding => "BadBinding",
        BlifKind::RepeatedModel => "RepeatedModel",
        BlifKind::NoModel => "NoModel",
        BlifKind::UnknownFormal => "UnknownFormal",
        BlifKind::RepeatedFormal => "RepeatedFormal",
        BlifKind::Unbound => "Unbound",
        BlifKind::Recursion => "Recursion",
        BlifKind::TooDeep => "TooDeep",
        BlifKind::TooLarge => "TooLarge",
    }
}

/// The name of the kind of fault of an AIGER text: that of its variant.
fn aiger_kind_name(kind: AigerKind) -> &'static str
    ensures { result.now ≡ aiger_kind_name kind }
{
    match kind {
        AigerKind::BadHeader => "BadHeader",
        AigerKind::LeftOut => "LeftOut",
        AigerKind::Ending => "Ending",
        AigerKind::BadLine => "BadLine",
        AigerKind::BadLiteral => "BadLiteral",
        AigerKind::Repeated => "Repeated",
        AigerKind::BadReset => "BadReset",
        AigerKind::UnknownInit => "UnknownInit",
        AigerKind::BadSymbol => "BadSymbol",
        AigerKind::Undriven => "Undriven",
        AigerKind::TooManySignals => "TooManySignals",
        AigerKind::Loop => "Loop",
    }
}

/// The name of the kind of fault of a text, of BLIF or of AIGER: that of the inner variant.
pub fn text_kind_name(kind: TextKind) -> &'static str
    ensures { result.now ≡ text_kind_name kind }
{
    match kind {
        TextKind::Blif(kind) => kind_name(kind),
        TextKind::Aiger(kind) => aiger_kind_name(kind),
    }
}

/// The name of the kind of fault of a text of vectors: that of its variant.
pub fn vector_kind_name(kind: VectorKind) -> &'static str
    ensures { result.now ≡ vector_kind_name kind }
{
    match kind {
        VectorKind::Byte => "Byte",
        VectorKind::Width => "Width",
    }
}

/// The name of the kind of fault of a certificate's text: that of its variant.
pub fn cert_kind_name(kind: CertKind) -> &'static str
    ensures { result.now ≡ cert_kind_name kind }
{
    match kind {
        CertKind::Version => "Version",
        CertKind::Word => "Word",
        CertKind::Number => "Number",
        CertKind::Ending => "Ending",
    }
}

/// The name of the reason for which a certificate is not accepted: that of its variant.
pub fn why_name(why: Why) -> &'static str
    ensures { result.now ≡ why_name why }
{
    match why {
        Why::Lag => "Lag",
        Why::Leaves => "Leaves",
        Why::Uncovered => "Uncovered",
        Why::Unserved => "Unserved",
        Why::Output => "Output",
        Why::Chain => "Chain",
        Why::Circuit => "Circuit",
        Why::Order => "Order",
        Why::TooFew => "TooFew",
        Why::Path => "Path",
        Why::Shared => "Shared",
        Why::Unfinished => "Unfinished",
    }
}
