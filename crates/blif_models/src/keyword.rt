// The kinds of logical lines, told by the first word.

ghost use Rattle.std.specs.Prelude.{◌≡◌, bytes_eq};
ghost use Rattle.std.specs.List.{list_any};
ghost use Rattle.blif_models.specs.Keyword.{keyword_at, left_out};

/// What a logical line is by its first word.
#[derive(Clone, Copy, Debug, PartialEq, Eq)]
pub enum Keyword {
    Model,
    Inputs,
    Outputs,
    Clock,
    Names,
    Latch,
    End,
    /// A statement of BLIF that this reader leaves out.
    Omitted,
    /// A word that begins with a dot and is no statement.
    Unknown,
    /// No statement: a row of the `.names` before it.
    Row,
}

/// The statements of BLIF that are left out.
const LEFT_OUT: [&str; 27] = [
    ".subckt",
    ".gate",
    ".mlatch",
    ".exdc",
    ".search",
    ".conn",
    ".blackbox",
    ".start_kiss",
    ".end_kiss",
    ".latch_order",
    ".code",
    ".cycle",
    ".clock_event",
    ".area",
    ".delay",
    ".wire_load_slope",
    ".wire",
    ".input_arrival",
    ".default_input_arrival",
    ".output_required",
    ".default_output_required",
    ".input_drive",
    ".default_input_drive",
    ".output_load",
    ".default_output_load",
    ".max_input_load",
    ".default_max_input_load",
];

/// Tells a line by its first word.
#[tactic(auto, unfolding(crate::specs::Keyword::keyword_at))]
pub fn keyword_of(word: &[u8]) -> Keyword
    ensures { result ≡ keyword_at word.now }
{
    if word == b".names".as_slice() {
        Keyword::Names
    } else if word == b".latch".as_slice() {
        Keyword::Latch
    } else if word == b".inputs".as_slice() {
        Keyword::Inputs
    } else if word == b".outputs".as_slice() {
        Keyword::Outputs
    } else if word == b".clock".as_slice() {
        Keyword::Clock
    } else if word == b".model".as_slice() {
        Keyword::Model
    } else if word == b".end".as_slice() {
        Keyword::End
    } else if is_left_out(word) {
        Keyword::Omitted
    } else if !word.is_empty() && word[0] == b'.' {
        Keyword::Unknown
    } else {
        Keyword::Row
    }
}

/// Whether a word begins a statement that is left out.
#[tactic(auto, unfolding(crate::specs::Keyword::left_out))]
fn is_left_out(word: &[u8]) -> bool
    ensures { result ≡ list_any (λ statement. bytes_eq word.now statement) left_out }
{
    is_one_of(word, &LEFT_OUT)
}

/// Whether a word is among others.
fn is_one_of(word: &[u8], words: &[&str]) -> bool
    ensures { result ≡ list_any (λ other. bytes_eq word.now other.now) words.now }
{
    words.iter().any(|other| word == other.as_bytes())
}
